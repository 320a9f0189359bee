//! The command `packets`: the bytes of all packets that a schedule sends.

ghost use Rattle.std.specs.{Prelude.{◌≡◌, ◌++◌, false, IfOk, OnOk, option_map, option_to_list}, List.{flat_map}};
ghost use Rattle.sci_packets.specs.Spelling.{spelling};
ghost use Rattle.sci_cache.specs.Cache.{letter_of};
ghost use Rattle.sci_core.specs.Core.{step};
ghost use Rattle.sci_statistics.specs.About.{letter_sent};
ghost use Rattle.sci_command.specs.Beginning.{before};
ghost use Rattle.sci_text.specs.{FirstFault.{IsTold}, ScheduleFault.{IsScheduleFault}, Tap.{has_failed}};
ghost use Rattle.sci_command.specs.{Answer.{HasAnswered}, declared.outcome.Outcome.{Outcome}};
ghost use Rattle.sci_traces.specs.PacketsAnswer.{AreSpelled, IsPacketsAnswer, letters_sent};

use sci_command::{Answer, Answered, Outcome, read_schedule};
use sci_core::{ApplyFault, Machine};
use sci_packets::{Packet, encode};
use sci_statistics::sent;
use sci_text::{Schedule, Tap};
use sci_words::{Event, MAX_OPERATIONS};
use std::alloc::{AllocError, Global};
use std::io::Read;

/// Takes a step, and gives the packet that it sent. Refused if memory is.
fn step_of(machine: &mut Machine, event: &Event) -> Result<Option<Packet>, AllocError>
    ensures new { OnOk result (machine.new ≡ step machine.old event.now) }
    ensures sent { IfOk result
        (λ packet. option_map letter_of packet ≡ letter_sent machine.old event.now) }
{
    let packet = sent(machine, event);
    match machine.apply(event) {
        Ok(()) | Err(ApplyFault::NotEnabled) => Ok(packet),
        Err(ApplyFault::Memory(refused)) => Err(refused),
    }
}

/// Appends the bytes of a packet, if there is one.
fn push_sent(out: &mut Vec<u8>, packet: Option<Packet>) -> Result<(), AllocError>
    ensures { OnOk result
        (out.new.items ≡ out.old.items ++ flat_map spelling (option_to_list packet)) }
{
    let Some(packet) = packet else {
        return Ok(());
    };
    let mut bytes = [0; 88];
    let length = encode(&packet, &mut bytes);
    out.extend_from_slice(&bytes[..length])
}

/// The bytes of all packets that a schedule sends.
fn packets_of(alloc: Global, schedule: &Schedule) -> Result<Vec<u8>, AllocError>
    ensures { IfOk result (λ bytes. AreSpelled
        (letters_sent (before schedule.now) schedule.now.events) bytes.items) }
{
    let mut machine = Machine::new(alloc, schedule.extent(), MAX_OPERATIONS)?;
    let mut bytes = Vec::new(alloc);
    for event in schedule.events() {
        let sent = match step_of(&mut machine, event) {
            Ok(sent) => sent,
            Err(refused) => return Err(refused),
        };
        push_sent(&mut bytes, sent)?;
    }
    Ok(bytes)
}

/// Reads a schedule to its end, applies its events in text order to a new machine whose nodes may each issue 65,536
/// operations (events that are not enabled change nothing), and gives the bytes of each packet that an Ask or a Reply
/// sends, one after another: Done. `scimem decode` reads them. A schedule with a fault is refused, as are a reader that
/// fails, too long an input and running out of memory, at line 0. After a failed read nothing more is read.
pub fn packets<R: Read>(alloc: Global, reader: &mut Tap<R>) -> Answered
    requires { has_failed reader.old ≡ false }
    ensures { HasAnswered R.remaining reader.old reader.new IsPacketsAnswer (IsTold IsScheduleFault) result }
{
    let schedule = read_schedule(alloc, reader)?;
    let text = packets_of(alloc, &schedule)?;
    Ok(Answer {
        text,
        outcome: Outcome::Done,
    })
}
