//! How often each outcome was seen.

ghost use Rattle.sci_outcomes.specs.Rows.{AreRowsOf, HasCounted};

use crate::outcome::Sighting;
use sci_allowed::{AllowedRow, Outcome};
use std::alloc::{AllocError, Global};
use std::cmp::Reverse;
use std::collections::BTreeMap;

/// An outcome, and the runs that gave it.
#[derive(Debug, Drop)]
pub(crate) struct Row {
    /// The outcome.
    pub(crate) outcome: Outcome,
    /// How many runs gave it.
    pub(crate) runs: u64,
    /// The number of the first of them, from 0.
    pub(crate) first: u64,
    /// Whether one memory of one thread explains the logs of one of them with each node's operations in the order of the
    /// script.
    pub(crate) in_order: bool,
}

/// The runs that gave an outcome.
#[derive(Clone, Copy)]
struct Tally {
    runs: u64,
    first: u64,
    in_order: bool,
}

impl Tally {
    ghost use Rattle.std.specs.{Prelude.{◌≡◌, ◌<◌, ◌+◌, ◌^◌, IfSome}, Option.{option_copied}};
    ghost use Rattle.sci_outcomes.specs.Rows.{joined as joined_of};

    /// The runs that gave an outcome: those that did before, if some did, and those of a tally whose numbers begin at `ahead`.
    /// Requires that neither how many they are nor the number of the first passes 2^64 - 1.
    fn joined(before: Option<&Tally>, ahead: u64, later: Tally) -> Tally
        requires first { ahead + later.first < 2 ^ 64 }
        requires runs { IfSome before (λ tally. tally.now.runs + later.runs < 2 ^ 64) }
        ensures { result ≡ joined_of (option_copied before.entry) ahead later }
    {
        match before {
            None => Tally {
                runs: later.runs,
                first: ahead + later.first,
                in_order: later.in_order,
            },
            Some(so_far) => Tally {
                runs: so_far.runs + later.runs,
                first: so_far.first,
                in_order: so_far.in_order || later.in_order,
            },
        }
    }
}

/// The outcomes of the runs so far.
#[derive(Drop)]
pub(crate) struct Histogram {
    tallies: BTreeMap<Outcome, Tally>,
    runs: u64,
}

impl Histogram {
    ghost use Rattle.std.specs.{Prelude.{◌≡◌, ◌≤◌, ◌<◌, ◌+◌, ◌*◌, ◌^◌, ◌++◌, ◌∷◌, [], List, true, false, length, IfOk, OnOk}, List.{list_any}};
    ghost use Rattle.sci_outcomes.specs.{declared.outcome.Sighting.{Sighting}, Rows.{AreCrowded, AreRowsOf, HasCounted, has_outcome, outcomes_in, unseen_of}};

    /// No run was seen.
    pub(crate) fn new(alloc: Global) -> Histogram
        ensures counted { HasCounted result [] }
        ensures none { outcomes_in result ≡ 0 }
    {
        Histogram {
            tallies: BTreeMap::new(alloc),
            runs: 0,
        }
    }

    /// Counts one more run. Requires that fewer than 2^64 - 1 were seen. Refused if memory is.
    pub(crate) fn add(&mut self, sighting: Sighting) -> Result<(), AllocError>
        requires { (seen : List Sighting) × HasCounted self.old seen × (length seen < u64.MAX) }
        ensures { OnOk result ((seen : List Sighting) → HasCounted self.old seen →
            HasCounted self.new (seen ++ sighting ∷ [])) }
    {
        let Sighting { outcome, in_order } = sighting;
        let one = Tally {
            runs: 1,
            first: 0,
            in_order,
        };
        let tally = Tally::joined(self.tallies.get(&outcome), self.runs, one);
        self.tallies.insert(outcome, tally)?;
        self.runs += 1;
        Ok(())
    }

    /// Counts the runs of another histogram behind those of this one. Requires that fewer than 2^64 were seen in all. Refused if
    /// memory is.
    pub(crate) fn absorb(&mut self, later: Histogram) -> Result<(), AllocError>
        requires { (seen more : List Sighting) × HasCounted self.old seen × HasCounted later more
            × (length seen + length more < 2 ^ 64) }
        ensures { OnOk result ((seen more : List Sighting) → HasCounted self.old seen → HasCounted later more →
            HasCounted self.new (seen ++ more)) }
    {
        let Histogram { tallies, runs } = later;
        for (outcome, later_tally) in tallies {
            let tally = Tally::joined(self.tallies.get(&outcome), self.runs, later_tally);
            self.tallies.insert(outcome, tally)?;
        }
        self.runs += runs;
        Ok(())
    }

    /// Whether the outcomes have more than `most` operations in all, each of them this number.
    pub(crate) fn is_crowded(&self, operations: u64, most: u64) -> bool
        ensures within { result ≡ false → outcomes_in self.now * operations ≤ most }
        ensures beyond { result ≡ true → (seen : List Sighting) → HasCounted self.now seen →
            AreCrowded most operations seen }
    {
        let outcomes = self.tallies.len() as u64;
        match outcomes.checked_mul(operations) {
            Some(all) => all > most,
            None => true,
        }
    }

    /// Whether a run that was seen had an outcome.
    fn has(&self, outcome: &Outcome) -> bool
        ensures { (seen : List Sighting) → HasCounted self.now seen →
            result ≡ list_any (has_outcome outcome.now) seen }
    {
        self.tallies.contains_key(outcome)
    }

    /// Those of the rows whose outcome no run had. Refused if memory is.
    pub(crate) fn unseen(
        &self,
        alloc: Global,
        allowed: Vec<AllowedRow>,
    ) -> Result<Vec<AllowedRow>, AllocError>
        ensures { IfOk result (λ unseen. (seen : List Sighting) → HasCounted self.now seen →
            unseen.items ≡ unseen_of seen allowed.items) }
    {
        let mut unseen = Vec::new(alloc);
        for row in allowed {
            if !self.has(&row.outcome) {
                unseen.push(row)?;
            }
        }
        Ok(unseen)
    }

    /// The rows of all outcomes, the most frequent first, and those that are as frequent by outcome. Refused if memory is.
    pub(crate) fn rows(self, alloc: Global) -> Result<Vec<Row>, AllocError>
        ensures rows { IfOk result (λ rows. (seen : List Sighting) → HasCounted self seen →
            AreRowsOf seen rows.items) }
        ensures many { IfOk result (λ rows. length rows.items ≡ outcomes_in self) }
    {
        let mut rows = Vec::with_capacity(alloc, self.tallies.len())?;
        for (outcome, tally) in self.tallies {
            rows.push(Row {
                outcome,
                runs: tally.runs,
                first: tally.first,
                in_order: tally.in_order,
            })?;
        }
        rows.sort_by_key(|row| Reverse(row.runs))?;
        Ok(rows)
    }
}
