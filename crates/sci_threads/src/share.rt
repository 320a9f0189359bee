//! A node's share of a run.

ghost use Rattle.std.specs.Prelude.{◌≡◌, ◌+◌, ◌≤◌, ◌⊎◌, ◌↔◌, true};
ghost use Rattle.sci_threads.specs.Shares.{IsLaterShare, HasEnded, IsWell};

use crate::start::Start;
use sci_drive::{Driver, Gate};
use sci_station::Station;
use std::alloc::AllocError;

/// How many turns a node takes before it looks whether all have begun.
const SLICE: u32 = 10_000;

const _: () = prove!(SLICE == 10_000);

/// After this many looks a node gives up waiting for the others to begin.
const PATIENCE: u32 = 25;

const _: () = prove!(PATIENCE == 25);

/// A node's share of a run: its station with the driver that drives it, its gate, how many turns it may still take, and
/// whether it has finished.
#[derive(Drop)]
pub(crate) struct Share<'a, G> {
    pub(crate) station: Station,
    pub(crate) driver: Driver<'a>,
    pub(crate) gate: G,
    pub(crate) left: u32,
    pub(crate) finished: Result<bool, AllocError>,
}

impl<'a, G: Gate> Share<'a, G> {
    /// Whether it has finished, was refused, or has no turn left.
    pub(crate) fn has_ended(&self) -> bool
        ensures { (result ≡ true) ↔ HasEnded self.now }
    {
        match self.finished {
            Ok(finished) => finished || self.left == 0,
            Err(_) => true,
        }
    }

    /// Goes on for at most this many turns, unless it has ended.
    pub(crate) fn go_on(&mut self, turns: u32)
        requires well { IsWell self.old.driver self.old.station.end self.old.finished }
        ensures well { IsWell self.new.driver self.new.station.end self.new.finished }
        ensures gone { IsLaterShare G.hears self.old self.new }
        ensures fewer { HasEnded self.new ⊎ (self.new.left + turns ≤ self.old.left) }
    {
        if self.has_ended() {
            return;
        }
        let turns = turns.min(self.left);
        match self.driver.go_on(&mut self.station, &mut self.gate, turns) {
            Ok(ran) => {
                self.left -= ran.turns;
                self.finished = Ok(ran.finished);
            }
            Err(refused) => self.finished = Err(refused),
        }
    }

    /// Goes on in a thread of its own until it has ended. It gives up early if the others don't all begin: then a thread
    /// can't be made, and this one is needed for another node.
    pub(crate) fn run(&mut self, start: &Start)
        requires well { IsWell self.old.driver self.old.station.end self.old.finished }
        ensures well { IsWell self.new.driver self.new.station.end self.new.finished }
        ensures gone { IsLaterShare G.hears self.old self.new }
    {
        start.begin();
        for look in 0..u32::MAX {
            self.go_on(SLICE);
            if self.has_ended() || start.has_given_up() {
                return;
            }
            if look >= PATIENCE && !start.all_begun() {
                start.give_up();
                return;
            }
        }
    }
}
