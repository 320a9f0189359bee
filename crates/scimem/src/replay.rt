//! The command `replay`: the log of the machine where a schedule leads.

ghost use Rattle.std.specs.Prelude.{◌≡◌, false, IfOk, IfErr};
ghost use Rattle.sci_text.specs.{FirstFault.{IsRefusal, IsTold}, ScheduleFault.{IsScheduleFault}, Tap.{has_failed, tapped}};
ghost use Rattle.sci_command.specs.{Answer.{HasAnswered, answer_in}, Beginning.{AreDeadIn}, Input.{IsReadAs}};
ghost use Rattle.scimem.specs.ReplayAnswer.{IsReplayAnswer, IsWhereLed};

use sci_command::{Answer, Outcome, Refusal, Replayed, TextKind};
use sci_core::{DeadEvents, Machine};
use sci_text::{ScheduleEvents, Tap, TextFault, logs_text, read_input};
use sci_words::MAX_OPERATIONS;
use std::alloc::Global;
use std::io::Read;

/// The machine where the schedule leads whose text the bytes are, and the events that weren't enabled. Each event is applied as
/// soon as its line is read. Refused by the first fault of the bytes, or at line 0 if memory is.
fn machine_of(alloc: Global, input: &[u8]) -> Result<(Machine, Option<DeadEvents>), TextFault>
    ensures led { IfOk result (λ led. IsWhereLed input.now led.0 led.1) }
    ensures fault { IfErr result (IsRefusal IsScheduleFault input.now) }
{
    let mut events = ScheduleEvents::of(input)?;
    let mut machine = Machine::new(alloc, events.extent(), MAX_OPERATIONS)?;
    let mut dead = None;
    let mut place = 0;
    while let Some(event) = events.next_event()? {
        dead = DeadEvents::with(dead, place, machine.step(&event)?);
        place += 1;
    }
    Ok((machine, dead))
}

/// The same; a refusal says what is wrong with the line.
fn led_machine(alloc: Global, input: &[u8]) -> Result<(Machine, Option<DeadEvents>), Refusal>
    ensures led { IfOk result (λ led. IsWhereLed input.now led.0 led.1) }
    ensures fault { IfErr result (λ refusal. IsRefusal IsScheduleFault input.now refusal.fault) }
{
    match machine_of(alloc, input) {
        Ok(led) => Ok(led),
        Err(fault) => Err(Refusal::of_text(alloc, TextKind::Schedule.known(), input, fault)),
    }
}

/// Reads a schedule to its end, applies its events in text order to a new machine whose nodes may each issue 65,536
/// operations (events that are not enabled change nothing), and gives the machine's logs and last contents in format
/// 2: Done. Beside it are the events that weren't enabled. A schedule with a fault is refused, as a script by `oracle`. After a
/// failed read nothing more is read.
pub fn replay<R: Read>(alloc: Global, reader: &mut Tap<R>) -> Replayed
    requires { has_failed reader.old ≡ false }
    ensures answer { HasAnswered R.remaining reader.old reader.new IsReplayAnswer (IsTold IsScheduleFault)
        (answer_in result) }
    ensures dead { IfOk result (λ answered. IsReadAs (R.remaining (tapped reader.old))
        (has_failed reader.new) (λ bytes. AreDeadIn bytes answered.1)) }
{
    let input = read_input(alloc, reader)?;
    let (machine, dead) = led_machine(alloc, &input)?;
    drop(input);
    let nodes = machine.extent().nodes;
    let (logs, last) = machine.finish(alloc);
    let text = logs_text(alloc, nodes, &logs, &last)?;
    let answer = Answer {
        text,
        outcome: Outcome::Done,
    };
    Ok((answer, dead))
}
