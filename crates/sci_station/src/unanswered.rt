//! Which nodes owe a node an answer.

use sci_cache::LineSet;
use sci_words::MAX_NODES;
use std::marker::Model;

/// How many answers each node owes a node. Contracts see the counts.
#[derive(Drop)]
pub(crate) struct Unanswered {
    counts: [u8; MAX_NODES as usize],
    /// The nodes whose count isn't 0: a set of small numbers, whatever they number.
    owing: LineSet,
}

impl Model for Unanswered {
    ghost use Rattle.std.specs.Prelude.{ℕ, ◌≡◌, List, nat_lt, slice_index};
    ghost use Rattle.sci_cache.specs.LineSet.{is_in};

    ghost Value = { List ℕ };

    ghost view = { λ unanswered. unanswered.counts };

    ghost invariant = { λ unanswered. (node : ℕ) →
        is_in unanswered.owing node ≡ nat_lt 0 (slice_index unanswered.counts node) };
}

impl Unanswered {
    ghost use Rattle.std.specs.Prelude.{◌≡◌, ◌≢◌, ◌<◌, ◌≤◌, ◌+◌, ℕ, IfSome, nat_lt, slice_index};
    ghost use Rattle.sci_cache.specs.LineSet.{IsBefore};
    ghost use Rattle.sci_words.specs.declared.limits.TheConstants.{MAX_NODES};

    /// None is owed.
    pub(crate) fn new() -> Unanswered
        ensures { (node : ℕ) → slice_index result node ≡ 0 }
    {
        Unanswered {
            counts: [0; MAX_NODES as usize],
            owing: LineSet::new(),
        }
    }

    /// A request went to a node. Requires that fewer than 255 are unanswered there.
    pub(crate) fn asked(&mut self, to: u8)
        requires there { to < MAX_NODES }
        requires few { slice_index self.old to < 255 }
        ensures here { slice_index self.new to ≡ slice_index self.old to + 1 }
        ensures others { (other : ℕ) → other ≢ to →
            slice_index self.new other ≡ slice_index self.old other }
    {
        self.counts[usize::from(to)] += 1;
        self.owing.put(to, true);
    }

    /// An answer of a node was accepted. Requires that it owed one.
    pub(crate) fn accepted(&mut self, from: u8)
        requires there { from < MAX_NODES }
        requires some { 0 < slice_index self.old from }
        ensures here { slice_index self.new from + 1 ≡ slice_index self.old from }
        ensures others { (other : ℕ) → other ≢ from →
            slice_index self.new other ≡ slice_index self.old other }
    {
        let left = self.counts[usize::from(from)] - 1;
        self.counts[usize::from(from)] = left;
        self.owing.put(from, left > 0);
    }

    /// Whether a node owes an answer.
    #[inline(always)]
    pub(crate) fn owes(&self, node: u8) -> bool
        requires { node < MAX_NODES }
        ensures { result ≡ nat_lt 0 (slice_index self.now node) }
    {
        self.counts[usize::from(node)] > 0
    }

    /// The first node from one on that owes an answer, or None if none does.
    #[inline(always)]
    pub(crate) fn next_from(&self, from: u8) -> Option<u8>
        ensures order { IfSome result (λ node. from ≤ node) }
        ensures owes { IfSome result (λ node. 0 < slice_index self.now node) }
        ensures between { (node : ℕ) → from ≤ node → IsBefore node result →
            slice_index self.now node ≡ 0 }
    {
        self.owing.next_from(from)
    }
}
