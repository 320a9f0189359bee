//! The rows of a script: all outcomes that its runs can have.

ghost use Rattle.std.specs.{Prelude.{◌≡◌, IfErr, IfOk}, List.Sorted.{IsStrictlySortedBy}};
ghost use Rattle.sci_drive.specs.Rounds.{most_pending};
ghost use Rattle.sci_orders.specs.declared.fault.OrdersFault.TheVariants.{TooMany};
ghost use Rattle.sci_allowed.specs.{Allowed.{AreRows, IsLitmus, IsTooBig, rows_of}, Outcome.{outcome_cmp}};

use crate::litmus::Litmus;
use crate::outcome::Outcome;
use sci_drive::Issuing;
use sci_orders::OrdersFault;
use std::alloc::{AllocError, Global};

/// What is said of a script with too many positions.
pub const TOO_MANY_POSITIONS: &str = "some number of steps leads to more than 100,000 positions";

/// An outcome that runs of a script can have.
#[derive(Debug, Drop)]
pub struct AllowedRow {
    /// The outcome.
    pub outcome: Outcome,
    /// Whether a run in which each node goes in order can have it, too.
    pub in_order: bool,
}

/// How many operations of a node may wait.
pub(crate) fn window_of(issuing: Issuing) -> usize
    ensures { result ≡ most_pending issuing }
{
    match issuing {
        Issuing::Ahead => 4,
        Issuing::InOrder => 1,
    }
}

/// A row for each of these outcomes. Requires that those of runs in order are sorted. Refused if memory is.
fn tagged(
    alloc: Global,
    outcomes: Vec<Outcome>,
    in_order: &[Outcome],
) -> Result<Vec<AllowedRow>, AllocError>
    requires { IsStrictlySortedBy outcome_cmp in_order.now }
    ensures { IfOk result (λ rows. rows.items ≡ rows_of outcomes.items in_order.now) }
{
    let mut rows = Vec::with_capacity(alloc, outcomes.len())?;
    for outcome in outcomes {
        let in_order = in_order.binary_search(&outcome).is_ok();
        rows.push(AllowedRow { outcome, in_order })?;
    }
    Ok(rows)
}

impl Litmus {
    /// A row for each outcome of the script's runs, by what was replied, then by the words, each once. Refused if memory is, and
    /// as too many if some number of steps leads to more than 100,000 positions.
    pub fn rows(&self, alloc: Global, issuing: Issuing) -> Result<Vec<AllowedRow>, OrdersFault>
        requires { IsLitmus self.now }
        ensures rows { IfOk result (λ rows. AreRows self.now.script (most_pending issuing) rows.items) }
        ensures many { IfErr result (λ fault. fault ≡ TooMany → IsTooBig self.now.script (most_pending issuing)) }
    {
        let outcomes = self.outcomes(alloc, window_of(issuing))?;
        let in_order = self.outcomes(alloc, 1)?;
        Ok(tagged(alloc, outcomes, &in_order)?)
    }
}
