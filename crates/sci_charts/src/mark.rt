//! What an event does to its node, and with which packet.

ghost use Rattle.std.specs.Prelude.{◌≡◌, false, IfOk, OnOk, is_none, is_some, option_map};
ghost use Rattle.sci_cache.specs.Cache.{letter_of};
ghost use Rattle.sci_core.specs.Core.{step, stepping};
ghost use Rattle.sci_statistics.specs.About.{letter_sent};
ghost use Rattle.sci_charts.specs.{Drawing.{is_dead, letter_in}, Rows.{if_enabled}};

use sci_core::Machine;
use sci_packets::Packet;
use sci_statistics::{applied, sent, taken};
use sci_words::Event;
use std::alloc::AllocError;

/// What an event did.
#[derive(Clone, Copy)]
pub enum Mark {
    /// It isn't enabled, and changed nothing.
    Dead,
    /// An operation was issued.
    Issued,
    /// An operation was performed.
    Performed,
    /// A packet was sent.
    Sent(Packet),
    /// A packet was taken: a request that was served, or an answer that was accepted.
    Taken(Packet),
    /// A request was taken, to be answered busy.
    Refused(Packet),
}

impl Mark {
    /// Whether it says that the event isn't enabled.
    pub fn is_dead(&self) -> bool
        ensures { result ≡ is_dead self.now }
    {
        matches!(self, Mark::Dead)
    }

    /// The packet that the event sent or took.
    pub fn packet(&self) -> Option<&Packet> {
        match self {
            Mark::Sent(packet) | Mark::Taken(packet) | Mark::Refused(packet) => Some(packet),
            Mark::Dead | Mark::Issued | Mark::Performed => None,
        }
    }

    /// Whether the event took a packet that came from the right.
    pub fn comes_from_right(&self) -> bool {
        match self {
            Mark::Taken(packet) | Mark::Refused(packet) => {
                packet.source.get() > packet.target.get()
            }
            _ => false,
        }
    }
}

/// What an event that happened did with its packets.
fn mark_of(event: &Event, sent: Option<Packet>, taken: Option<Packet>) -> Mark
    ensures live { is_dead result ≡ false }
    ensures letter { letter_in result ≡ option_map letter_of sent }
{
    match (sent, taken) {
        (Some(packet), _) => Mark::Sent(packet),
        (None, Some(packet)) => match event {
            Event::Refuse { .. } => Mark::Refused(packet),
            _ => Mark::Taken(packet),
        },
        (None, None) => match event {
            Event::Perform { .. } => Mark::Performed,
            _ => Mark::Issued,
        },
    }
}

/// Applies an event, and reports what it did. Refused if memory is.
pub fn mark_after(machine: &mut Machine, event: &Event) -> Result<Mark, AllocError>
    ensures dead { IfOk result (λ mark. is_dead mark ≡ is_none (stepping machine.old event.now)) }
    ensures letter { IfOk result (λ mark. letter_in mark
        ≡ if_enabled (is_some (stepping machine.old event.now)) (letter_sent machine.old event.now)) }
    ensures step { OnOk result (machine.new ≡ step machine.old event.now) }
{
    let sent = sent(machine, event);
    let taken = taken(machine, event);
    if !applied(machine, event)? {
        return Ok(Mark::Dead);
    }
    Ok(mark_of(event, sent, taken))
}
