//! Whether the outcomes of a script are as its condition says.

ghost use Rattle.std.specs.Prelude.{◌≡◌, IfOk};
ghost use Rattle.sci_allowed.specs.Verdict.{AddsVerdict, each_satisfies, ending_of as ending_of_verdict, is_true_of, some_satisfies, verdict_text};

use crate::condition::{Condition, FinalCondition, Quantifier};
use crate::rows::AllowedRow;
use sci_command::Outcome as Ending;
use sci_text::push_text;
use std::alloc::AllocError;

impl Condition {
    /// Whether the outcome of some row satisfies the condition.
    fn holds_of_some(&self, rows: &[AllowedRow]) -> bool
        ensures { result ≡ some_satisfies self.now rows.now }
    {
        rows.iter().any(|row| self.holds(&row.outcome))
    }

    /// Whether that of each row does.
    fn holds_of_each(&self, rows: &[AllowedRow]) -> bool
        ensures { result ≡ each_satisfies self.now rows.now }
    {
        rows.iter().all(|row| self.holds(&row.outcome))
    }
}

impl FinalCondition {
    /// Whether all outcomes of a script, of which each has a row, are as the condition says.
    pub fn is_true_of(&self, rows: &[AllowedRow]) -> bool
        ensures { result ≡ is_true_of self.now.quantifier self.now.condition rows.now }
    {
        match self.quantifier {
            Quantifier::Exists => self.condition.holds_of_some(rows),
            Quantifier::Forall => self.condition.holds_of_each(rows),
            Quantifier::Never => !self.condition.holds_of_some(rows),
        }
    }
}

/// How a command ends whose condition is true of the outcomes or not.
fn ending_of(is_true: bool) -> Ending
    ensures { result ≡ ending_of_verdict is_true }
{
    if is_true {
        Ending::Done
    } else {
        Ending::Unlawful
    }
}

/// The word for whether a condition is true of the outcomes, and the line feed.
fn verdict_words(is_true: bool) -> &'static str
    ensures { result.now ≡ verdict_text is_true }
{
    if is_true { "Yes\n" } else { "No\n" }
}

/// Appends whether all outcomes of a script, of which each has a row, are as its condition says, if it has one, and gives how the
/// command ends. Refused if memory is.
pub fn push_verdict(
    out: &mut Vec<u8>,
    last: &Option<FinalCondition>,
    rows: &[AllowedRow],
) -> Result<Ending, AllocError>
    ensures { IfOk result (AddsVerdict last.now rows.now out.old.items out.new.items) }
{
    let Some(said) = last else {
        return Ok(Ending::Done);
    };
    let is_true = said.is_true_of(rows);
    push_text(out, verdict_words(is_true))?;
    Ok(ending_of(is_true))
}
