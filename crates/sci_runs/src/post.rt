//! A machine with its record, as the post of one of its nodes.

ghost use Rattle.std.specs.Prelude.{◌<◌};

use crate::recorder::Recorder;
use sci_core::{LaneKind, Node};
use sci_packets::Packet;
use sci_turn::Post;
use sci_words::{Event, LANE_CELLS};
use std::alloc::AllocError;

/// A machine and its record, lent to one of the nodes.
#[derive(Drop)]
pub(crate) struct Lent<'a> {
    pub(crate) recorder: &'a mut Recorder,
    pub(crate) node: u8,
    ghost some: { node < recorder.now.core.size.nodes },
}

impl<'a> Post for Lent<'a> {
    ghost use Rattle.std.specs.Prelude.{◌≡◌, ◌≢◌, [], None};
    ghost use Rattle.sci_core.specs.Core.{lane_of};
    ghost use Rattle.std.proofs.Common.{refl, arith, ◌∙◌};
    ghost use Rattle.sci_locked.specs.Lent.{KeepsRoom};
    ghost use Rattle.sci_runs.specs.{Deeds.{AddsOwn, post_on}, Goings.{adds_itself, adds_then}, Recorded.{KeepsLoss, SparesOthers, course_of}};

    type Stop = AllocError;

    ghost post = { λ lent. post_on lent.node (course_of lent.recorder.now) };

    ghost stays = { λ old new. (new.node ≡ old.node) × (new.recorder.ghost_name ≡ old.recorder.ghost_name)
        × SparesOthers old.node old.recorder.now.core new.recorder.now.core
        × AddsOwn old.node old.recorder.now.schedule.events new.recorder.now.schedule.events
        × KeepsLoss old.recorder.now new.recorder.now
        × KeepsRoom old.recorder.now.core new.recorder.now.core };

    ghost sees = { λ lent kind from. lane_of lent.recorder.now.core kind from lent.node ≡ [] → ⊥ };

    ghost may_stop = { λ lent. lent.recorder.now.lost ≢ None };

    fn me(&self) -> u8 {
        self.node
    }

    fn nodes(&self) -> u8 {
        self.recorder.machine().extent().nodes
    }

    fn node(&self) -> &Node {
        self.recorder.machine().node(self.node)
    }

    fn look(&mut self, kind: LaneKind, from: u8) -> Result<bool, AllocError> {
        Ok(self.recorder.machine().count(kind, from, self.node) > 0)
    }

    fn front(&self, kind: LaneKind, from: u8) -> &Packet {
        match self.recorder.machine().front(kind, from, self.node) {
            Some(packet) => packet,
            None => unreachable!(),
        }
    }

    fn take(&mut self, _kind: LaneKind, _from: u8, event: &Event) -> Result<(), AllocError> {
        self.recorder.happen(event)
    }

    /// A lane takes as many packets here as one between running stations has cells.
    fn send(&mut self, kind: LaneKind, packet: &Packet, event: &Event) -> Result<bool, AllocError> {
        // Read, so that the prover knows that the state is reached.
        let _extent = self.recorder.machine().extent();
        let to = packet.target.get() as u8;
        if self.recorder.machine().count(kind, self.node, to) >= usize::from(LANE_CELLS) {
            return Ok(false);
        }
        self.recorder.happen(event)?;
        Ok(true)
    }

    ghost stays_itself = { λ x. (
      refl,
      refl,
      record { size = refl; others = λ m apart. refl },
      adds_itself x.node x.recorder.now.schedule.events,
      λ fault is. (is, refl),
      λ place many. omega arith,
    ) };

    ghost stays_through = { λ x y z one two. (
      two.0 ∙ one.0,
      two.1 ∙ one.1,
      record {
        size = two.2.size ∙ one.2.size;
        others = λ m apart. two.2.others m (λ is. apart (is ∙ one.0)) ∙ one.2.others m apart;
      },
      adds_then x.node y.node x.recorder.now.schedule.events y.recorder.now.schedule.events
          z.recorder.now.schedule.events one.0 one.3 two.3,
      λ fault is. (
        (two.4 fault (one.4 fault is).0).0,
        (two.4 fault (one.4 fault is).0).1 ∙ (one.4 fault is).1,
      ),
      λ place many. (
          let last = two.5 place many in
          let first = one.5 place (omega (arith, many, last)) in
          omega (arith, first, last)
          ),
    ) };
}
