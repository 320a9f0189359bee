//! Receiving a whole packet.

ghost use Rattle.std.specs.Prelude.{◌≡◌, ◌<◌, ◌≤◌, ℕ, [], ◌∷◌, length, take, Some, None, IfOk, IfSome, IsErr, IsOk};
ghost use Rattle.sci_core.specs.Core.{lane_of, lane_place};
ghost use Rattle.sci_lanes.specs.{Shown.{inbound_at, me_of}, Telling.{IsShown, state_of}};
ghost use Rattle.sci_lanes.specs.Ends.{IsNextToTake, lane_at_cell, nodes_in};
ghost use Rattle.sci_station.specs.{Budgets.{HasNoMore}, Ends.{HasRead, HasSeen, IsStill, LeavesOthers, SeesFirst}};

use crate::budget::{Budget, Spent};
use crate::sending::PACKET_WORDS;
use sci_core::LaneKind;
use sci_lanes::{CellId, LaneEnd};
use sci_packets::{Packet, from_words, word_count};

/// A packet that was seen in the next cell of a lane.
#[derive(Clone, Copy)]
pub struct Seen {
    /// The cell.
    pub cell: CellId,
    /// The packet's first word.
    pub first: u64,
}

/// Looks at the next cell of the lane of a kind from a node to this one, and gives the first word of the packet that is
/// there. None if no packet is: then the lane is empty. Requires that there is such a node.
pub fn see(
    end: &mut LaneEnd,
    budget: &mut Budget,
    kind: LaneKind,
    from: u8,
) -> Result<Option<u64>, Spent>
    requires { from < nodes_in end.old.part }
    ensures seen { IfOk result (λ found. IfSome found (SeesFirst end.new.part kind from)) }
    ensures none { IfOk result (λ found. found ≡ None →
        lane_of (state_of end.new.part) kind from (me_of end.new.part) ≡ []) }
    ensures others { LeavesOthers (lane_place (nodes_in end.old.part) kind from (me_of end.old.part))
        end.old.part end.new.part }
    ensures still { IsStill end.old end.new }
    ensures budget { HasNoMore budget.old.left budget.new.left }
    ensures spent { IsErr result → budget.new.left ≡ Some 0 }
{
    budget.spend()?;
    let first = end.look_for(kind, from);
    if first == 0 {
        return Ok(None);
    }
    Ok(Some(first))
}

/// Reads the packet that was seen, all its words and no more. It stays in its cell.
pub fn read_packet(end: &mut LaneEnd, budget: &mut Budget, seen: Seen) -> Result<Packet, Spent>
    requires { HasSeen end.old.part seen }
    ensures read { IfOk result (HasRead end.new.part seen.cell) }
    ensures others { LeavesOthers (lane_at_cell end.old.part seen.cell) end.old.part end.new.part }
    ensures still { IsStill end.old end.new }
    ensures budget { HasNoMore budget.old.left budget.new.left }
    ensures spent { IsErr result → budget.new.left ≡ Some 0 }
{
    let Seen { cell, first } = seen;
    let mut words = [0; PACKET_WORDS];
    words[0] = first;
    read(end, budget, cell, &mut words, word_count(first))?;
    match from_words(&words) {
        Ok((packet, _)) => Ok(packet),
        Err(_) => unreachable!(),
    }
}

/// Reads the words of the next cell to take from behind the first, up to a number of them. Requires that the first is
/// found.
fn read(
    end: &mut LaneEnd,
    budget: &mut Budget,
    cell: CellId,
    words: &mut [u64; PACKET_WORDS],
    count: usize,
) -> Result<(), Spent>
    requires next { IsNextToTake end.old.part cell }
    requires shown { IsShown end.old.part }
    requires found { (inbound_at end.old.part (lane_at_cell end.old.part cell)).found
        ≡ take 1 words.old }
    requires some { 1 ≤ count }
    requires few { count ≤ 11 }
    ensures still { IsStill end.old end.new }
    ensures shown { IsShown end.new.part }
    ensures found { IsOk result → (inbound_at end.new.part (lane_at_cell end.new.part cell)).found
        ≡ take count words.new }
    ensures begins { take 1 words.new ≡ take 1 words.old }
    ensures others { LeavesOthers (lane_at_cell end.old.part cell) end.old.part end.new.part }
    ensures budget { HasNoMore budget.old.left budget.new.left }
    ensures spent { IsErr result → budget.new.left ≡ Some 0 }
{
    let place = end.place_of(cell);
    for index in 1..count {
        budget.spend()?;
        words[index] = end.read_at(cell, index, place);
    }
    Ok(())
}
