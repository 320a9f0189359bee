//! What is said of a script's condition.

ghost use Rattle.std.specs.Prelude.{◌≡◌, ◌++◌, OnOk};
ghost use Rattle.sci_outcomes.specs.Said.{each_satisfies, said_ending, said_of as said_of_rows, said_of_all as said_of_all_rows, said_text, sample_of};
ghost use Rattle.sci_outcomes.specs.Said.{said_by, sample_ending, sample_word, some_satisfies};

use crate::histogram::Row;
use sci_allowed::{AllowedRow, Condition, FinalCondition, Quantifier};
use sci_command::Outcome;
use sci_text::push_text;
use std::alloc::AllocError;

/// What is said of a condition.
#[derive(Clone, Copy)]
pub(crate) enum Said {
    /// That it is true.
    Yes,
    /// That it isn't true.
    No,
    /// Nothing, but the example that it asks for wasn't seen.
    NoExample,
    /// Nothing, but no counterexample was seen.
    NoCounterexample,
}

/// Whether the outcome of some row satisfies a condition.
fn some_satisfies(condition: &Condition, rows: &[Row]) -> bool
    ensures { result ≡ some_satisfies condition.now rows.now }
{
    rows.iter().any(|row| condition.holds(&row.outcome))
}

/// Whether the outcome of each row satisfies a condition.
fn each_satisfies(condition: &Condition, rows: &[Row]) -> bool
    ensures { result ≡ each_satisfies condition.now rows.now }
{
    rows.iter().all(|row| condition.holds(&row.outcome))
}

/// What rows of a sample say of a condition.
fn sample_of(said: &FinalCondition, rows: &[Row]) -> Said
    ensures { result ≡ sample_of said.now.quantifier said.now.condition rows.now }
{
    match said.quantifier {
        Quantifier::Exists if some_satisfies(&said.condition, rows) => Said::Yes,
        Quantifier::Exists => Said::NoExample,
        Quantifier::Forall if each_satisfies(&said.condition, rows) => Said::NoCounterexample,
        Quantifier::Forall => Said::No,
        Quantifier::Never if some_satisfies(&said.condition, rows) => Said::No,
        Quantifier::Never => Said::NoCounterexample,
    }
}

impl Said {
    /// What is said of a condition that is true of all outcomes of a script, or isn't.
    fn by(is_true: bool) -> Said
        ensures { result ≡ said_by is_true }
    {
        if is_true { Said::Yes } else { Said::No }
    }

    /// Its words.
    pub(crate) fn words(self) -> &'static str
        ensures { result.now ≡ sample_word self }
    {
        match self {
            Said::Yes => "Yes",
            Said::No => "No",
            Said::NoExample | Said::NoCounterexample => "Not seen",
        }
    }

    /// How the command ends then.
    fn ending(self) -> Outcome
        ensures { result ≡ sample_ending self }
    {
        match self {
            Said::Yes | Said::NoCounterexample => Outcome::Done,
            Said::No | Said::NoExample => Outcome::Unlawful,
        }
    }
}

/// What the rows of a sample say of a script's condition, if it has one.
pub(crate) fn said_of(last: &Option<FinalCondition>, rows: &[Row]) -> Option<Said>
    ensures { result ≡ said_of_rows last.now rows.now }
{
    match last {
        None => None,
        Some(said) => Some(sample_of(said, rows)),
    }
}

/// What all outcomes of a script, of which each has a row, say of its condition, if it has one.
pub(crate) fn said_of_all(last: &Option<FinalCondition>, rows: &[AllowedRow]) -> Option<Said>
    ensures { result ≡ said_of_all_rows last.now rows.now }
{
    match last {
        None => None,
        Some(said) => Some(Said::by(said.is_true_of(rows))),
    }
}

/// Appends what is said of a condition, if there is one, and a line feed.
#[tactic(auto, unfolding(crate::specs::Said::said_text))]
pub(crate) fn push_said(out: &mut Vec<u8>, said: Option<Said>) -> Result<(), AllocError>
    ensures { OnOk result (out.new.items ≡ out.old.items ++ said_text said) }
{
    match said {
        None => Ok(()),
        Some(said) => {
            push_text(out, said.words())?;
            push_text(out, "\n")
        }
    }
}

/// How the command ends where this is said of a condition, if there is one.
pub(crate) fn ending_of(said: Option<Said>) -> Outcome
    ensures { result ≡ said_ending said }
{
    match said {
        None => Outcome::Done,
        Some(said) => said.ending(),
    }
}
