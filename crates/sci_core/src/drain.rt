//! Bringing all that is under way to its end.

use crate::lane::LaneKind;
use crate::machine::Machine;
use sci_words::Event;
use std::alloc::AllocError;

impl Machine {
    ghost use Rattle.std.specs.Prelude.{◌≡◌, ◌<◌, ℕ, Some, None, IfOk, IfSome, IsErr, IsSome, OnOk, OnErr, length, true};
    ghost use Rattle.sci_core.specs.{Coherent.{IsCoherent}, Core.{IsEnabled, lane_of, node_at, stepping}};
    ghost use Rattle.sci_core.specs.{Draining.{IsDrained, brings_on, weight}, Reached.{IsReached}};
    ghost use Rattle.sci_core.specs.Settling.{Leads, LeadsOn};

    /// Brings all that is under way to its end, and gives the number of events: each is a Serve, a Reply or an
    /// Accept, and there are as many as the packets under way weigh. If memory is refused, the machine stands where
    /// the events made so far lead.
    pub fn drain(&mut self) -> Result<u32, AllocError>
        ensures drained { IfOk result (λ count. IsDrained self.new) }
        ensures made { IfOk result (λ count. Leads brings_on self.old self.new count) }
        ensures weight { IfOk result (λ count. count ≡ weight self.old) }
        ensures refused { IsErr result → LeadsOn brings_on self.old self.new }
        ensures coherent { IsCoherent self.new }
    {
        // Read once, so that the prover knows that the state is reached.
        let _extent = self.extent();
        let mut count = 0;
        'moves: while let Some(event) = self.next_move() {
            self.make(&event)?;
            count += 1;
        }
        Ok(count)
    }

    /// An event that brings on what is under way, or None if nothing is.
    fn next_move(&self) -> Option<Event>
        ensures brings { IfSome result (λ event. brings_on event ≡ true) }
        ensures enabled { IfSome result (IsEnabled self.now) }
        ensures none { result ≡ None → IsDrained self.now }
        ensures reached { IsReached self.now }
    {
        if let Some(node) = self.waiting_node() {
            return Some(Event::Reply { node });
        }
        if let Some((from, node)) = self.full_lane(LaneKind::Answers) {
            return Some(Event::Accept { from, node });
        }
        match self.full_lane(LaneKind::Requests) {
            Some((from, node)) => Some(Event::Serve { from, node }),
            None => None,
        }
    }

    /// The first node at which an answer waits, if one does.
    fn waiting_node(&self) -> Option<u8>
        ensures below { IfSome result (λ n. n < self.now.size.nodes) }
        ensures waits { IfSome result (λ n. IsSome (node_at self.now n).waiting) }
        ensures none { result ≡ None → (n : ℕ) → n < self.now.size.nodes →
            (node_at self.now n).waiting ≡ None }
        ensures reached { IsReached self.now }
    {
        for n in 0..self.extent().nodes {
            if self.node(n).waiting().is_some() {
                return Some(n);
            }
        }
        None
    }

    /// The first lane of a kind that carries a packet, by its sender and its receiver, if one does.
    fn full_lane(&self, kind: LaneKind) -> Option<(u8, u8)>
        ensures sender { IfSome result (λ lane. lane.0 < self.now.size.nodes) }
        ensures receiver { IfSome result (λ lane. lane.1 < self.now.size.nodes) }
        ensures full { IfSome result (λ lane. 0 < length (lane_of self.now kind lane.0 lane.1)) }
        ensures none { result ≡ None → (from to : ℕ) → from < self.now.size.nodes →
            to < self.now.size.nodes → length (lane_of self.now kind from to) ≡ 0 }
    {
        let nodes = self.extent().nodes;
        'senders: for from in 0..nodes {
            'receivers: for to in 0..nodes {
                if self.count(kind, from, to) > 0 {
                    return Some((from, to));
                }
            }
        }
        None
    }
}
