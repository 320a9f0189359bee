//! Sending a whole packet.

ghost use Rattle.std.specs.Prelude.{◌≡◌, ◌<◌, ◌≤◌, ◌-◌, length, take, drop, true, false, Some, IfOk, IsErr, IsOk};
ghost use Rattle.sci_cache.specs.Cache.{letter_of};
ghost use Rattle.sci_core.specs.Core.{Sends, lane_of, lane_place, node_of, side};
ghost use Rattle.sci_core.specs.declared.lane.LaneKind.TheVariants.{Requests};
ghost use Rattle.sci_words.specs.declared.limits.TheConstants.{LANE_CELLS};
ghost use Rattle.sci_lanes.specs.{Shown.{me_of, outbound_at}, Telling.{IsMade, SomeLineWaits, state_of}};
ghost use Rattle.sci_lanes.specs.Ends.{IsNextToSend, lane_at_cell, nodes_in};
ghost use Rattle.sci_station.specs.{Budgets.{HasNoMore}, Ends.{IsSameEnd, IsSentBy, IsStill, LeavesOthers}};

use crate::budget::{Budget, Spent};
use sci_core::LaneKind;
use sci_lanes::{CellId, LaneEnd};
use sci_packets::{Packet, to_words};
use sci_words::Event;

/// The most words that a packet has.
pub(crate) const PACKET_WORDS: usize = 11;

/// Sends a packet by an event of the node: a look at the next cell of its lane, and if that is empty, a store of each word.
/// False if the cell is full: then the lane is. Requires that the event sends this packet, to a node of the
/// machine. If the turn has made as many steps as it may before the first word is stored, nothing is sent.
pub fn send(
    end: &mut LaneEnd,
    budget: &mut Budget,
    kind: LaneKind,
    packet: &Packet,
    event: &Event,
) -> Result<bool, Spent>
    requires own { node_of event.now ≡ me_of end.old.part }
    requires target { packet.now.target < nodes_in end.old.part }
    requires sends { IsSentBy end.old.part.node event.now kind (letter_of packet.now) }
    ensures sent { IfOk result (λ sent. sent ≡ true →
        side end.old.part.node event.now ≡ Sends kind end.new.part.node (letter_of packet.now)) }
    ensures made { IfOk result (λ sent. sent ≡ true →
        IsMade end.old.part event.now end.new.part.schedule) }
    ensures full { IfOk result (λ sent. sent ≡ false → IsStill end.old end.new) }
    ensures cut { IsErr result → IsStill end.old end.new }
    ensures waits { IfOk result (λ sent. sent ≡ false → kind ≡ Requests →
        SomeLineWaits end.new.part.node) }
    ensures held { IfOk result (λ sent. sent ≡ false → LANE_CELLS ≤ length
        (lane_of (state_of end.new.part) kind (me_of end.new.part) packet.now.target)) }
    ensures others { LeavesOthers
        (lane_place (nodes_in end.old.part) kind (me_of end.old.part) packet.now.target)
        end.old.part end.new.part }
    ensures same { IsSameEnd end.old end.new }
    ensures budget { HasNoMore budget.old.left budget.new.left }
    ensures spent { IsErr result → budget.new.left ≡ Some 0 }
{
    let cell = end.next_to_send(kind, target_of(end, packet));
    // Before the look: behind an atomic load the compiler clears the words a second time.
    let mut words = [0; PACKET_WORDS];
    let count = to_words(packet, &mut words);
    budget.spend()?;
    if end.look(cell) != 0 {
        return Ok(false);
    }
    fill(end, budget, cell, &words[1..count])?;
    budget.spend()?;
    end.publish(cell, words[0], event);
    Ok(true)
}

/// The node that a packet goes to.
pub(crate) fn target_of(end: &LaneEnd, packet: &Packet) -> u8
    requires { packet.now.target < nodes_in end.now.part }
    ensures { result ≡ packet.now.target }
{
    // Read, so that the prover knows that it is small.
    let _nodes = end.nodes();
    packet.target.get() as u8
}

/// Fills the words after the first of the next cell to send into.
fn fill(end: &mut LaneEnd, budget: &mut Budget, cell: CellId, words: &[u64]) -> Result<(), Spent>
    requires next { IsNextToSend end.old.part cell }
    requires vacant { (outbound_at end.old.part (lane_at_cell end.old.part cell)).vacant ≡ true }
    requires some { 0 < length words.now }
    requires few { length words.now < 11 }
    ensures still { IsStill end.old end.new }
    ensures vacant { (outbound_at end.new.part (lane_at_cell end.new.part cell)).vacant ≡ true }
    ensures filled { IsOk result →
        (outbound_at end.new.part (lane_at_cell end.new.part cell)).filled ≡ words.now }
    ensures others { LeavesOthers (lane_at_cell end.old.part cell) end.old.part end.new.part }
    ensures budget { HasNoMore budget.old.left budget.new.left }
    ensures spent { IsErr result → budget.new.left ≡ Some 0 }
{
    // Once, since each store makes the processor read the end's fields again.
    let place = end.place_of(cell);
    for index in 0..words.len() {
        budget.spend()?;
        end.fill_at(cell, index + 1, place, words[index]);
    }
    Ok(())
}
