//! The outcomes of runs, as a JSON object.

ghost use Rattle.std.specs.{Prelude.{◌≡◌, IfOk, OnOk, codes, length}, List.{flat_map}};
ghost use Rattle.sci_json.specs.Members.{Adds, array_member};
ghost use Rattle.sci_outcomes.specs.OutcomesJson.{counts_members, held_members, held_object, outcome_members, outcomes_json as outcomes_json_of};
ghost use Rattle.sci_outcomes.specs.OutcomesJson.{replied_members, replied_object, row_members, row_object, rows_member, said_member, seed_member};
ghost use Rattle.sci_outcomes.specs.OutcomesJson.{unseen_members, unseen_object};

use crate::histogram::Row;
use crate::said::Said;
use crate::trials::{Trials, Turns};
use json::Writer;
use sci_allowed::{AllowedRow, FinalWord, Outcome, Replied};
use sci_json::{into_line, write_number, write_text, write_truth, write_word};
use std::alloc::{AllocError, Global};

/// The outcomes that a report lists.
#[derive(Clone, Copy)]
pub(crate) struct AllRows<'a> {
    /// Those that runs had.
    pub(crate) seen: &'a [Row],
    /// Those that no run had, if they are asked for.
    pub(crate) unseen: &'a [AllowedRow],
}

/// Writes what an operation replied.
#[tactic(auto, unfolding(crate::specs::OutcomesJson::replied_members))]
fn write_replied(out: &mut Writer, replied: &Replied) -> Result<(), AllocError>
    ensures { OnOk result (Adds out.old out.new (replied_members replied.now)) }
{
    write_number(out, "node", u64::from(replied.node))?;
    write_number(out, "serial", u64::from(replied.serial))?;
    write_word(out, "reply", replied.word)
}

/// Writes the same as an object.
#[tactic(auto, unfolding(crate::specs::OutcomesJson::replied_object, sci_json::specs::Members::object_of))]
fn write_replied_object(out: &mut Writer, replied: &Replied) -> Result<(), AllocError>
    ensures { OnOk result (Adds out.old out.new (replied_object replied.now)) }
{
    out.begin_object()?;
    write_replied(out, replied)?;
    out.end_object()
}

/// Writes the objects of what operations replied.
fn write_all_replied(out: &mut Writer, replies: &[Replied]) -> Result<(), AllocError>
    ensures { OnOk result (Adds out.old out.new (flat_map replied_object replies.now)) }
{
    for replied in replies {
        write_replied_object(out, replied)?;
    }
    Ok(())
}

/// Writes what a word of memory holds.
#[tactic(auto, unfolding(crate::specs::OutcomesJson::held_members))]
fn write_held(out: &mut Writer, held: &FinalWord) -> Result<(), AllocError>
    ensures { OnOk result (Adds out.old out.new (held_members held.now)) }
{
    write_number(out, "line", u64::from(held.line))?;
    write_number(out, "word", u64::from(held.word))?;
    write_word(out, "value", held.value)
}

/// Writes the same as an object.
#[tactic(auto, unfolding(crate::specs::OutcomesJson::held_object, sci_json::specs::Members::object_of))]
fn write_held_object(out: &mut Writer, held: &FinalWord) -> Result<(), AllocError>
    ensures { OnOk result (Adds out.old out.new (held_object held.now)) }
{
    out.begin_object()?;
    write_held(out, held)?;
    out.end_object()
}

/// Writes the objects of what words of memory hold.
fn write_all_held(out: &mut Writer, words: &[FinalWord]) -> Result<(), AllocError>
    ensures { OnOk result (Adds out.old out.new (flat_map held_object words.now)) }
{
    for held in words {
        write_held_object(out, held)?;
    }
    Ok(())
}

/// Writes the array of what operations replied.
#[tactic(auto, unfolding(sci_json::specs::Members::array_member))]
fn write_replies(out: &mut Writer, replies: &[Replied]) -> Result<(), AllocError>
    ensures { OnOk result (Adds out.old out.new
        (array_member (codes "replies") (flat_map replied_object replies.now))) }
{
    out.key("replies")?;
    out.begin_array()?;
    write_all_replied(out, replies)?;
    out.end_array()
}

/// Writes the array of what words of memory hold.
#[tactic(auto, unfolding(sci_json::specs::Members::array_member))]
fn write_words(out: &mut Writer, words: &[FinalWord]) -> Result<(), AllocError>
    ensures { OnOk result (Adds out.old out.new
        (array_member (codes "words") (flat_map held_object words.now))) }
{
    out.key("words")?;
    out.begin_array()?;
    write_all_held(out, words)?;
    out.end_array()
}

/// Writes an outcome.
#[tactic(auto, unfolding(crate::specs::OutcomesJson::outcome_members))]
fn write_outcome(out: &mut Writer, outcome: &Outcome) -> Result<(), AllocError>
    ensures { OnOk result (Adds out.old out.new (outcome_members outcome.now)) }
{
    write_replies(out, &outcome.replies)?;
    write_words(out, &outcome.last)
}

/// Writes the seed of the run with this number, if its order of turns was drawn.
#[tactic(auto, unfolding(crate::specs::OutcomesJson::seed_member))]
fn write_seed(out: &mut Writer, turns: Turns, number: u64) -> Result<(), AllocError>
    ensures { OnOk result (Adds out.old out.new (seed_member turns number)) }
{
    match turns {
        Turns::Drawn { seed } => write_word(out, "seed", seed.wrapping_add(number)),
        Turns::Threads => Ok(()),
    }
}

/// Writes an outcome, how many runs gave it, the seed of the first of them, and whether it is in program order.
#[tactic(auto, unfolding(crate::specs::OutcomesJson::row_members))]
fn write_row(out: &mut Writer, turns: Turns, row: &Row) -> Result<(), AllocError>
    ensures { OnOk result (Adds out.old out.new (row_members turns row.now)) }
{
    write_outcome(out, &row.outcome)?;
    write_number(out, "count", row.runs)?;
    write_seed(out, turns, row.first)?;
    write_truth(out, "in_program_order", row.in_order)
}

/// Writes the same as an object.
#[tactic(auto, unfolding(crate::specs::OutcomesJson::row_object, sci_json::specs::Members::object_of))]
fn write_row_object(out: &mut Writer, turns: Turns, row: &Row) -> Result<(), AllocError>
    ensures { OnOk result (Adds out.old out.new (row_object turns row.now)) }
{
    out.begin_object()?;
    write_row(out, turns, row)?;
    out.end_object()
}

/// Writes the objects of rows.
fn write_rows(out: &mut Writer, turns: Turns, rows: &[Row]) -> Result<(), AllocError>
    ensures { OnOk result (Adds out.old out.new (flat_map (row_object turns) rows.now)) }
{
    for row in rows {
        write_row_object(out, turns, row)?;
    }
    Ok(())
}

/// Writes an outcome that no run had.
#[tactic(auto, unfolding(crate::specs::OutcomesJson::unseen_members))]
fn write_unseen(out: &mut Writer, row: &AllowedRow) -> Result<(), AllocError>
    ensures { OnOk result (Adds out.old out.new (unseen_members row.now)) }
{
    write_outcome(out, &row.outcome)?;
    write_number(out, "count", 0)?;
    write_truth(out, "in_program_order", row.in_order)
}

/// Writes the same as an object.
#[tactic(auto, unfolding(crate::specs::OutcomesJson::unseen_object, sci_json::specs::Members::object_of))]
fn write_unseen_object(out: &mut Writer, row: &AllowedRow) -> Result<(), AllocError>
    ensures { OnOk result (Adds out.old out.new (unseen_object row.now)) }
{
    out.begin_object()?;
    write_unseen(out, row)?;
    out.end_object()
}

/// Writes the objects of outcomes that no run had.
fn write_all_unseen(out: &mut Writer, unseen: &[AllowedRow]) -> Result<(), AllocError>
    ensures { OnOk result (Adds out.old out.new (flat_map unseen_object unseen.now)) }
{
    for row in unseen {
        write_unseen_object(out, row)?;
    }
    Ok(())
}

/// Writes the array of all outcomes.
#[tactic(auto, unfolding(crate::specs::OutcomesJson::rows_member, sci_json::specs::Members::array_member))]
fn write_row_array(out: &mut Writer, turns: Turns, rows: AllRows) -> Result<(), AllocError>
    ensures { OnOk result (Adds out.old out.new
        (rows_member turns rows.entry.seen.now rows.entry.unseen.now)) }
{
    out.key("rows")?;
    out.begin_array()?;
    write_rows(out, turns, rows.seen)?;
    write_all_unseen(out, rows.unseen)?;
    out.end_array()
}

/// Writes what is said of a condition, if there is one.
#[tactic(auto, unfolding(crate::specs::OutcomesJson::said_member))]
fn write_said(out: &mut Writer, said: Option<Said>) -> Result<(), AllocError>
    ensures { OnOk result (Adds out.old out.new (said_member said)) }
{
    match said {
        None => Ok(()),
        Some(said) => write_text(out, "condition", said.words()),
    }
}

/// Writes how many outcomes there are, how many were seen, and how many runs there were.
#[tactic(auto, unfolding(crate::specs::OutcomesJson::counts_members))]
fn write_counts(out: &mut Writer, rows: AllRows, runs: u64) -> Result<(), AllocError>
    ensures { OnOk result (Adds out.old out.new
        (counts_members (length rows.entry.seen.now) (length rows.entry.unseen.now) runs)) }
{
    let seen = rows.seen.len() as u64;
    write_number(out, "outcomes", seen.wrapping_add(rows.unseen.len() as u64))?;
    write_number(out, "seen", seen)?;
    write_number(out, "runs", runs)
}

/// The outcomes of runs and what is said of a condition, as one JSON object and a line feed. Refused if memory is.
#[tactic(auto, unfolding(crate::specs::OutcomesJson::outcomes_members, sci_json::specs::Members::object_line, sci_json::specs::Members::object_of))]
pub(crate) fn outcomes_json(
    alloc: Global,
    trials: Trials,
    rows: AllRows,
    said: Option<Said>,
) -> Result<Vec<u8>, AllocError>
    ensures { IfOk result (λ text. text.items
        ≡ outcomes_json_of trials rows.entry.seen.now rows.entry.unseen.now said) }
{
    let mut writer = Writer::new(Vec::new(alloc));
    writer.begin_object()?;
    write_counts(&mut writer, rows, trials.runs)?;
    write_row_array(&mut writer, trials.turns, rows)?;
    write_said(&mut writer, said)?;
    writer.end_object()?;
    into_line(writer)
}
