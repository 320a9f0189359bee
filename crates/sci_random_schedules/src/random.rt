//! The command `random`: a schedule whose events are drawn by chance.

ghost use Rattle.std.specs.Prelude.{◌≡◌, ◌↔◌, IfOk, IfErr, IfSome, IsSome};
ghost use Rattle.sci_command.specs.declared.outcome.Outcome.{Outcome};
ghost use Rattle.sci_text.specs.declared.fault.TextFaultKind.TheVariants.{Range};
ghost use Rattle.sci_words.specs.Extent.{AreWithinLimits};
ghost use Rattle.sci_random_schedules.specs.RandomAnswer.{IsRandomAnswer, IsWalkFault};

use crate::walking::schedule_of;
use sci_command::{Answer, Answered, Note, Outcome, Refusal};
use sci_text::{TextFaultKind, schedule_text};
use sci_words::{Extent, MAX_EVENTS, MAX_LINES, MAX_NODES, MAX_SLOTS};
use std::alloc::Global;

/// A walk that is asked for. Its numbers may be out of range.
#[derive(Clone, Copy)]
pub struct Walk {
    /// Nodes of the machine, 1 to 16.
    pub nodes: u64,
    /// Lines of the machine, 1 to 64.
    pub lines: u64,
    /// Version slots of a node, 1 to 8.
    pub slots: u64,
    /// How many events, at most 500,000.
    pub events: u64,
    /// What the drawing begins with.
    pub seed: u64,
}

/// How many of a hundred events are any events, if the command line doesn't say.
const NONE_DEAD: u64 = 0;

/// The size of the machine of a walk, or None if a number is out of range.
fn extent_of(walk: &Walk) -> Option<Extent>
    ensures within { IsSome result
        ↔ AreWithinLimits walk.now.nodes walk.now.lines walk.now.slots }
    ensures nodes { IfSome result (λ extent. extent.nodes ≡ walk.now.nodes) }
    ensures lines { IfSome result (λ extent. extent.lines ≡ walk.now.lines) }
    ensures slots { IfSome result (λ extent. extent.slots ≡ walk.now.slots) }
{
    let few = walk.nodes <= u64::from(MAX_NODES)
        && walk.lines <= u64::from(MAX_LINES)
        && walk.slots <= u64::from(MAX_SLOTS);
    if !few {
        return None;
    }
    Extent::new(walk.nodes as u8, walk.lines as u8, walk.slots as u8)
}

/// The refusal of a walk with a number that is out of range, which names the first such number.
fn out_of_range(walk: &Walk) -> Refusal
    ensures line { result.fault.line ≡ 0 }
    ensures kind { result.fault.kind ≡ Range }
{
    let words = if !(1..=u64::from(MAX_NODES)).contains(&walk.nodes) {
        "N: expected a number of nodes from 1 to 16"
    } else if !(1..=u64::from(MAX_LINES)).contains(&walk.lines) {
        "M: expected a number of lines from 1 to 64"
    } else if !(1..=u64::from(MAX_SLOTS)).contains(&walk.slots) {
        "C: expected a number of version slots from 1 to 8"
    } else if walk.events > u64::from(MAX_EVENTS) {
        "EVENTS: expected a number of events from 0 to 500000"
    } else {
        "--dead: expected a number from 0 to 100"
    };
    Refusal::of_input(TextFaultKind::Range, Note::Fixed(words))
}

/// Gives a schedule of a walk's machine with as many events as it says, drawn from its seed: Done. About `dead` in a
/// hundred of them, or none without it, are any events; the others are enabled when they come. The same numbers give the
/// same schedule. A number out of its range (`dead` is 0 to 100) is refused, as `range` at line 0, as is running out of
/// memory.
pub fn random_schedule(alloc: Global, walk: &Walk, dead: Option<u64>) -> Answered
    ensures answer { IfOk result (λ answer. (answer.outcome ≡ Outcome.Refused → ⊥)
        × IsRandomAnswer walk.now dead answer.text.items answer.outcome) }
    ensures fault { IfErr result (λ refusal.
        IsWalkFault walk.now dead refusal.fault.kind refusal.fault.line) }
{
    let share = dead.unwrap_or(NONE_DEAD);
    if walk.events > u64::from(MAX_EVENTS) || share > 100 {
        return Err(out_of_range(walk));
    }
    let Some(extent) = extent_of(walk) else {
        return Err(out_of_range(walk));
    };
    let schedule = schedule_of(alloc, extent, walk.events as u32, share as u8, walk.seed)?;
    let text = schedule_text(alloc, &schedule)?;
    Ok(Answer {
        text,
        outcome: Outcome::Done,
    })
}
