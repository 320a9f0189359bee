//! The command `stats --transitions`: how often each pair of the tables came, and which never did.

ghost use Rattle.std.specs.Prelude.{◌≡◌, false, IfOk, IfErr, IsErr, count_by};
ghost use Rattle.sci_text.specs.{FirstFault.{IsTold}, ScheduleFault.{IsScheduleFault}, Tap.{has_failed, is_called_again, tapped}};
ghost use Rattle.sci_command.specs.{Answer.{HasAnswered, answer_in}, Beginning.{AreDeadIn}, Input.{IsReadAs}};
ghost use Rattle.sci_statistics.specs.declared.transition.Transition.{Transition};
ghost use Rattle.sci_statistics.specs.{Coverage.{capped, times}, Meetings.{transitions_from}, Transitions.{is_transition}};
ghost use Rattle.sci_statistics.specs.TransitionsAnswer.{AreAdded, IsTransitionsAnswer, coverage_shown as coverage_shown_of};

use crate::coverage::Coverage;
use crate::coverage_lines::coverage_text;
use crate::meeting::transition_of;
use crate::stats_json::coverage_json;
use sci_command::{Answer, Outcome, Refusal, Replayed, read_schedule};
use sci_core::{DeadEvents, Machine};
use sci_text::Tap;
use sci_words::{Event, Extent, MAX_OPERATIONS};
use std::alloc::{AllocError, Global};
use std::io::Read;

impl Coverage {
    /// How often each transition came in a schedule of a machine of this size, whose nodes may each issue 65,536 operations.
    /// Refused if memory is.
    pub fn of(alloc: Global, extent: Extent, events: &[Event]) -> Result<Coverage, AllocError>
        ensures { IfOk result (λ found. (t : Transition) → times found t
            ≡ capped (count_by (is_transition t) (transitions_from extent events.now))) }
    {
        let mut machine = Machine::new(alloc, extent, MAX_OPERATIONS)?;
        let mut found = Coverage::none();
        for event in events {
            if let Some(transition) = transition_of(&mut machine, event)? {
                found.count(transition);
            }
        }
        Ok(found)
    }
}

/// Reads a schedule to its end, adds to `coverage` how often each transition came in it, and gives the events that weren't
/// enabled. A schedule with a fault is refused, as are a reader that fails, too long an input and running out of memory, at
/// line 0; nothing is added then. After a failed read nothing more is read.
pub fn add_transitions<R: Read>(
    alloc: Global,
    coverage: &mut Coverage,
    reader: &mut Tap<R>,
) -> Result<Option<DeadEvents>, Refusal>
    requires { has_failed reader.old ≡ false }
    ensures added { IfOk result (λ dead. IsReadAs (R.remaining (tapped reader.old)) (has_failed reader.new)
        (λ bytes. AreAdded coverage.old coverage.new bytes × AreDeadIn bytes dead)) }
    ensures fault { IfErr result (λ refusal. IsTold IsScheduleFault refusal.fault.kind
        (R.remaining (tapped reader.old)) (has_failed reader.new) refusal.fault.line) }
    ensures same { IsErr result → coverage.new ≡ coverage.old }
    ensures again { is_called_again reader.new ≡ is_called_again reader.old }
{
    let schedule = read_schedule(alloc, reader)?;
    let found = Coverage::of(alloc, schedule.extent(), schedule.events())?;
    let dead = DeadEvents::of(alloc, schedule.extent(), schedule.events())?;
    coverage.add(&found);
    Ok(dead)
}

/// What a coverage says, in lines or as one JSON object. Refused if memory is.
fn coverage_shown(alloc: Global, json: bool, coverage: &Coverage) -> Result<Vec<u8>, AllocError>
    ensures { IfOk result (λ text. text.items ≡ coverage_shown_of json coverage.now) }
{
    if json {
        coverage_json(alloc, coverage)
    } else {
        coverage_text(alloc, coverage)
    }
}

/// Reads a schedule as `add_transitions` does, and gives the counts so far: how many pairs of the tables of homes and caches
/// came, and how many never did; the ones, each with its count as `NAME COUNT`, and then the others, each as `never NAME`. It
/// is Done. With `json` they are one JSON object, which has each pair with its count. Beside it are the events that weren't
/// enabled. Refused as by `add_transitions`.
pub fn transitions<R: Read>(
    alloc: Global,
    json: bool,
    coverage: &mut Coverage,
    reader: &mut Tap<R>,
) -> Replayed
    requires { has_failed reader.old ≡ false }
    ensures answer { HasAnswered R.remaining reader.old reader.new (IsTransitionsAnswer json coverage.old)
        (IsTold IsScheduleFault) (answer_in result) }
    ensures dead { IfOk result (λ answered. IsReadAs (R.remaining (tapped reader.old))
        (has_failed reader.new) (λ bytes. AreDeadIn bytes answered.1)) }
{
    let dead = add_transitions(alloc, coverage, reader)?;
    let answer = Answer {
        text: coverage_shown(alloc, json, coverage)?,
        outcome: Outcome::Done,
    };
    Ok((answer, dead))
}
