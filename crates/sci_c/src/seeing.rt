//! A step of a machine, and what it did.

ghost use Rattle.std.specs.Prelude.{◌≡◌, ◌≢◌, ◌<◌, ◌∷◌, [], IfErr, IfOk, IsErr, option_map};
ghost use Rattle.sci_cache.specs.Cache.{letter_of};
ghost use Rattle.sci_core.specs.{Core.{node_of as node_of_event, stepping}, Fault.{IsFaultOf}};
ghost use Rattle.sci_c_values.specs.declared.status.TheConstants.{SCI_NOT_ENABLED, SCI_NO_MEMORY, SCI_OK, SCI_RANGE};
ghost use Rattle.sci_c_values.specs.{Operation.{SaysEvent}, Saying.{SaysNone}};
ghost use Rattle.sci_c.specs.{Calls.{IsChange}, Kinds.{ChangesBy, On, machine_in}, Machine.{IsNotEnabled, IsSending}};
ghost use Rattle.sci_c.specs.Seeing.{HasMade, IsSeenStep, front_of, letter_moved};

use crate::handle::SciObject;
use sci_c_values::{
    SCI_MISUSE, SCI_NO_MEMORY, SCI_NOT_ENABLED, SCI_OK, SCI_RANGE, SciEvent, SciSeen, event_in,
    seen_entry, seen_nothing, seen_packet,
};
use sci_core::{ApplyFault, LaneKind, Machine, node_of};
use sci_packets::Packet;
use sci_words::Event;

/// The oldest packet of a lane to a node, or None if it has none. Requires that there is such a node.
fn front(machine: &Machine, kind: LaneKind, from: u8, to: u8) -> Option<Packet>
    requires { to < machine.now.size.nodes }
    ensures { option_map letter_of result ≡ front_of machine.now kind from to }
{
    if from >= machine.extent().nodes {
        return None;
    }
    machine.front(kind, from, to).copied()
}

/// The packet that an event of a node sends or takes now. Requires that there is such a node.
fn moved(machine: &Machine, event: &Event) -> Option<Packet>
    requires { node_of_event event.now < machine.now.size.nodes }
    ensures { option_map letter_of result ≡ letter_moved machine.now event.now }
{
    match *event {
        Event::Issue { .. } | Event::Perform { .. } => None,
        Event::Ask { node, line, kind } => machine.node(node).asked(line, kind),
        Event::Serve { from, node } | Event::Refuse { from, node } => {
            front(machine, LaneKind::Requests, from, node)
        }
        Event::Reply { node } => machine.node(node).waiting().copied(),
        Event::Accept { from, node } => front(machine, LaneKind::Answers, from, node),
    }
}

/// Makes an event, and gives what it did.
fn made(machine: &mut Machine, event: &Event) -> Result<SciSeen, ApplyFault>
    requires { node_of_event event.now < machine.old.size.nodes }
    ensures done { IfOk result (λ seen. HasMade event.now seen machine.old machine.new) }
    ensures refused { IfErr result (IsFaultOf (stepping machine.old event.now) event.now) }
    ensures same { IsErr result → machine.new ≡ machine.old }
{
    if let Event::Perform { node, line } = *event {
        return match machine.perform(node, line) {
            Some(entry) => Ok(seen_entry(&entry)),
            None => Err(ApplyFault::NotEnabled),
        };
    }
    let seen = match moved(machine, event) {
        Some(packet) => seen_packet(&packet),
        None => seen_nothing(),
    };
    machine.apply(event)?;
    Ok(seen)
}

/// Applies the event to the machine, and gives the packet that it sent or took, or the entry that it logged.
#[tactic(auto, unfolding(sci_core::specs::Core::stepping))]
#[unsafe(no_mangle)]
pub extern "C" fn sci_machine_step_seen(
    object: &mut SciObject,
    event: &SciEvent,
    seen: &mut SciSeen,
) -> u32
    ensures done { result ≡ SCI_OK → ChangesBy machine_in object.old.value object.new.value (IsSeenStep event.now seen.new) }
    ensures refused { result ≡ SCI_NOT_ENABLED → On machine_in object.old.value (IsNotEnabled event.now) }
    ensures memory { result ≡ SCI_NO_MEMORY → On machine_in object.old.value (IsSending event.now) }
    ensures range { result ≡ SCI_RANGE → SaysNone (SaysEvent event.now) }
    ensures change { IsChange machine_in (SCI_NO_MEMORY ∷ SCI_NOT_ENABLED ∷ SCI_RANGE ∷ [])
        object.old.value result object.new.value }
    ensures same { result ≢ SCI_OK → seen.new ≡ seen.old }
{
    let Some(machine) = object.machine() else {
        return SCI_MISUSE;
    };
    let Some(event) = event_in(event) else {
        return SCI_RANGE;
    };
    if node_of(&event) >= machine.extent().nodes {
        return SCI_NOT_ENABLED;
    }
    match made(machine, &event) {
        Ok(found) => {
            *seen = found;
            SCI_OK
        }
        Err(ApplyFault::NotEnabled) => SCI_NOT_ENABLED,
        Err(ApplyFault::Memory(_)) => SCI_NO_MEMORY,
    }
}
