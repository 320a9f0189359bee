//! A machine that is lent, as the post of one of its nodes.

ghost use Rattle.std.specs.Prelude.{◌<◌};

use sci_core::{LaneKind, Machine, Node};
use sci_packets::Packet;
use sci_turn::Post;
use sci_words::{Event, LANE_CELLS};
use std::alloc::AllocError;

/// A machine that is lent to one of its nodes, which has it for itself meanwhile.
#[derive(Drop)]
pub(crate) struct Lent<'a> {
    pub(crate) machine: &'a mut Machine,
    pub(crate) node: u8,
    ghost some: { node < machine.now.size.nodes },
}

impl<'a> Post for Lent<'a> {
    ghost use Rattle.std.specs.Prelude.{◌≡◌, []};
    ghost use Rattle.sci_core.specs.Core.{lane_of};
    ghost use Rattle.std.proofs.Common.{refl, arith, ◌∙◌};
    ghost use Rattle.sci_turn.specs.Posts.{post_at};
    ghost use Rattle.sci_locked.specs.Lent.{KeepsRoom};

    type Stop = AllocError;

    ghost post = { λ lent. post_at lent.node lent.machine.now };

    ghost stays = { λ old new. (new.machine.ghost_name ≡ old.machine.ghost_name) × KeepsRoom old.machine.now new.machine.now };

    ghost sees = { λ lent kind from. lane_of lent.machine.now kind from lent.node ≡ [] → ⊥ };

    ghost may_stop = { λ lent. Unit {0} };

    fn me(&self) -> u8 {
        self.node
    }

    fn nodes(&self) -> u8 {
        self.machine.extent().nodes
    }

    fn node(&self) -> &Node {
        self.machine.node(self.node)
    }

    fn look(&mut self, kind: LaneKind, from: u8) -> Result<bool, AllocError> {
        Ok(self.machine.count(kind, from, self.node) > 0)
    }

    fn front(&self, kind: LaneKind, from: u8) -> &Packet {
        match self.machine.front(kind, from, self.node) {
            Some(packet) => packet,
            None => unreachable!(),
        }
    }

    fn take(&mut self, _kind: LaneKind, _from: u8, event: &Event) -> Result<(), AllocError> {
        self.machine.make(event)?;
        Ok(())
    }

    /// A lane takes as many packets here as one between running stations has cells.
    fn send(&mut self, kind: LaneKind, packet: &Packet, event: &Event) -> Result<bool, AllocError> {
        // Read, so that the prover knows that the state is reached.
        let _extent = self.machine.extent();
        let to = packet.target.get() as u8;
        if self.machine.count(kind, self.node, to) >= usize::from(LANE_CELLS) {
            return Ok(false);
        }
        self.machine.make(event)?;
        Ok(true)
    }

    ghost stays_itself = { λ x. (refl, λ place many. Prim.omega arith) };

    ghost stays_through = { λ x y z one two. (two.0 ∙ one.0, λ place many. (let later = two.1 place many in let earlier = one.1 place (Prim.omega arith) in Prim.omega arith)) };
}
