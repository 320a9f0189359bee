//! A station as a worker.

use crate::station::Station;
use sci_history::Entry;
use sci_policy::{Progress, SubmitFault, Worker};
use sci_words::Op;
use std::alloc::AllocError;

impl Worker for Station {
    ghost use Rattle.sci_station.specs.{Deeds.{Does, IsDeed}, Ends.{IsSameEnd}, Station.{node_in}};
    ghost use Rattle.std.proofs.Common.{refl, rules};
    ghost use Rattle.sci_policy.proofs.Deeds.{deeds_on};

    ghost node = { node_in };

    ghost stays = { λ old new. IsSameEnd old.end new.end };

    ghost does = { λ old deeds new. Does deeds old new };

    // No turn is refused.
    ghost stopped = { λ old new. ⊥ };

    fn submit(&mut self, op: Op) -> Result<u32, SubmitFault> {
        Station::submit(self, op)
    }

    fn perform(&mut self, line: u8) -> Option<Entry> {
        Station::perform(self, line)
    }

    fn turn(&mut self) -> Result<Progress, AllocError> {
        Ok(Station::turn(self))
    }

    ghost stays_itself = { Prim.search rules };

    ghost stays_through = { Prim.search rules };

    ghost does_nothing = { λ x. refl };

    ghost does_on = { λ x y z deeds more first second.
        deeds_on IsDeed deeds more x y z first second };
}
