//! The policy: what a controller decides by itself.

ghost use Rattle.std.specs.Prelude.{◌≡◌, ◌<◌, None, IfSome, true};
ghost use Rattle.sci_words.specs.declared.limits.TheConstants.{MAX_LINES};
ghost use Rattle.sci_policy.specs.{declared.policy.TheConstants.{PATIENCE}, Lines.{state_on}};
ghost use Rattle.sci_policy.specs.Policy.{is_cread};
ghost use Rattle.sci_cache.specs.{Cache.{letter_of}, LineSet.{is_in}, State.{Out}};

use crate::decision::Decision;
use crate::line_marks::LineMarks;
use crate::lines::{awaits_home, can_be_due, can_drain, has_maker, is_busy_now, is_head, least_of};
use crate::rules::{perform_wanted, ruled};
use crate::want::Want;
use sci_cache::{LineKind, LineSet};
use sci_core::Node;
use sci_packets::{Body, Packet};
use sci_words::AskKind;
use std::marker::Model;

/// A policy's patience: how often it is asked what comes next until it has its node give up lists that others may wait for,
/// whatever is performed meanwhile. In one turn of this many, requests that wait are let go.
pub const PATIENCE: u8 = 64;

/// What a node's controller decides by itself: which event comes next, and which requests of others it keeps or refuses.
/// It has a fixed size. Contracts see it as a record of what it remembers.
#[derive(Drop)]
pub struct Policy {
    draining: LineMarks,
    due: LineMarks,
    used: LineMarks,
    patience: u8,
    turns: u8,
    served: Option<u8>,
    ghost patient: { patience < PATIENCE },
    ghost counted: { turns < PATIENCE },
}

impl Model for Policy {
    ghost use Rattle.sci_policy.specs.Policy.{PolicyOf};

    ghost Value = { PolicyOf };

    ghost view = { λ policy. record { draining = policy.draining; due = policy.due; used = policy.used; patience = policy.patience; turns = policy.turns; served = policy.served } };
}

impl Policy {
    ghost use Rattle.std.specs.Prelude.{◌≡◌, ◌<◌, ◌≤◌, ℕ, Some, None, IfSome};
    ghost use Rattle.sci_cache.specs.Cache.{letter_of};
    ghost use Rattle.sci_core.specs.Reached.{IsReachedNode};
    ghost use Rattle.sci_policy.specs.Policy.{IsEnabledWant, PolicyOf, decided, first_sender, has as has_line, kept_by, next_policy, next_wanted, noted};
    ghost use Rattle.sci_policy.specs.Policy.{is_held, opening_policy, perform_wanted as perform_wanted_by, refused_by, still_draining, draining_at_last};
    ghost use Rattle.sci_policy.specs.{Policy.{due_at_last, set_of, still_due, ticked, turned, used_now, wanted}, Rest.{MayRest}};

    /// The policy of a node that has done nothing: no line is draining, due or used, no turn was counted, and no request
    /// was served.
    pub fn new() -> Policy
        ensures { result ≡ opening_policy }
    {
        Policy {
            draining: LineMarks::new(),
            due: LineMarks::new(),
            used: LineMarks::new(),
            patience: 0,
            turns: 0,
            served: None,
        }
    }

    /// A policy that remembers the same.
    pub fn copy(&self) -> Policy
        ensures { result ≡ self.now }
    {
        Policy {
            draining: self.draining.copy(),
            due: self.due.copy(),
            used: self.used.copy(),
            patience: self.patience,
            turns: self.turns,
            served: self.served,
        }
    }

    /// What the node does next: the first rule that fits says so. It is enabled. On a node of a reached state it is None
    /// only if no operation is pending or some line awaits an answer.
    pub fn next(&mut self, node: &Node) -> Option<Want>
        ensures want { result ≡ next_wanted self.old node.now }
        ensures then { self.new ≡ next_policy self.old node.now }
        ensures enabled { IfSome result (IsEnabledWant node.now) }
        ensures rest { result ≡ None → (n : ℕ) → IsReachedNode n node.now → MayRest node.now }
    {
        self.tick(node);
        let want = self.wanted(node);
        self.note(node, want);
        want
    }

    /// Counts a call of `next`.
    fn tick(&mut self, node: &Node)
        ensures { self.new ≡ ticked self.old node.now }
    {
        if self.patience + 1 < PATIENCE {
            self.draining = self.still_draining(node);
            self.due = self.still_due(node);
            self.patience += 1;
        } else {
            self.draining = self.draining_at_last(node);
            self.due = self.due_at_last(node);
            self.patience = 0;
        }
    }

    /// The lines that go on draining.
    fn still_draining(&self, node: &Node) -> LineMarks
        ensures { result ≡ set_of (still_draining self.now node.now) }
    {
        self.draining.filter(|line| can_drain(node, line))
    }

    /// The lines that stay due.
    fn still_due(&self, node: &Node) -> LineMarks
        ensures { result ≡ set_of (still_due self.now node.now) }
    {
        self.due.filter(|line| can_be_due(node, line))
    }

    /// The lines that are draining when patience has ended.
    fn draining_at_last(&self, node: &Node) -> LineMarks
        ensures { result ≡ set_of (draining_at_last self.now node.now) }
    {
        self.still_draining(node)
            .union(node.lines_of(LineKind::HasSharers))
    }

    /// The lines that are due when patience has ended.
    fn due_at_last(&self, node: &Node) -> LineMarks
        ensures { result ≡ set_of (due_at_last self.now node.now) }
    {
        self.still_due(node)
            .union(node.lines_of(LineKind::HasFreshSharers))
    }

    /// What the rules want.
    fn wanted(&self, node: &Node) -> Option<Want>
        ensures { result ≡ wanted self.now node.now }
    {
        if node.is_at_rest() {
            return None;
        }
        perform_wanted(node).or_else(|| self.ask_wanted(node))
    }

    /// What the rules want where no operation can be performed.
    fn ask_wanted(&self, node: &Node) -> Option<Want>
        ensures { perform_wanted_by node.now ≡ None → result ≡ wanted self.now node.now }
    {
        let want = ruled(self, node)?;
        if want.asks_home_to_change() && least_of(node, LineKind::Joins).is_some() {
            return None;
        }
        Some(want)
    }

    /// Remembers what it wants.
    fn note(&mut self, node: &Node, want: Option<Want>)
        ensures { self.new ≡ noted self.old node.now want }
    {
        match want {
            Some(Want::Perform(_)) => self.used = self.used_now(node),
            Some(Want::Ask(line, AskKind::Purge)) => self.draining.put(line, true),
            Some(Want::Ask(line, AskKind::Mread | AskKind::Fread)) => self.used.put(line, false),
            Some(_) | None => {}
        }
    }

    /// The lines that are used where something can be performed.
    fn used_now(&self, node: &Node) -> LineMarks
        ensures { result ≡ set_of (used_now self.now node.now) }
    {
        let ready = LineMarks::of(node.pending_lines()).filter(|line| is_head(node, line)
            && node.may_perform(line));
        self.used.union(ready.lines())
    }

    /// The lines that are draining.
    pub(crate) fn draining(&self) -> LineSet
        ensures { (line : ℕ) → line < MAX_LINES →
            is_in result line ≡ has_line self.now.draining line }
    {
        self.draining.lines()
    }

    /// The lines that are due.
    pub(crate) fn due(&self) -> LineSet
        ensures { (line : ℕ) → line < MAX_LINES →
            is_in result line ≡ has_line self.now.due line }
    {
        self.due.lines()
    }

    /// Whether a request is refused: a Cread for a line that is draining; or for one that is Head, while a maker of this
    /// node is pending on it. In one turn of 64 such a line is given away if it was used: it was Head, and an operation
    /// there could be performed, when `next` wanted to perform something, and the node didn't read the line since then.
    pub fn refuses(&self, node: &Node, request: &Packet) -> bool
        ensures { result ≡ refused_by self.now node.now (letter_of request.now) }
    {
        let Some(line) = cread_line(node, request) else {
            return false;
        };
        (self.draining.has(line) && can_drain(node, line)) || self.holds(node, line)
    }

    /// Whether the node doesn't give a line away yet.
    fn holds(&self, node: &Node, line: u8) -> bool
        ensures { result ≡ is_held self.now node.now line }
    {
        is_head(node, line) && has_maker(node, line) && !(self.turns == 0 && self.used.has(line))
    }

    /// Whether a request stays where it is for now, to be looked at again in a later turn: another node's Cread for a line
    /// that awaits its home's word; and, but in one turn of 64, for one that would answer it as busy, or that `refuses`
    /// it.
    pub fn keeps(&self, node: &Node, request: &Packet) -> bool
        ensures { result ≡ kept_by self.now node.now (letter_of request.now) }
    {
        let Some(line) = cread_line(node, request) else {
            return false;
        };
        if request.source.get() == u16::from(node.me()) {
            return false;
        }
        awaits_home(node, line)
            || (self.turns != 0 && (is_busy_now(node, line) || self.refuses(node, request)))
    }

    /// What is done with a request of another node, or of this one.
    pub fn decide(&self, node: &Node, request: &Packet) -> Decision
        ensures { result ≡ decided self.now node.now (letter_of request.now) }
    {
        if self.keeps(node, request) {
            Decision::Keep
        } else if self.refuses(node, request) {
            Decision::Refuse
        } else {
            Decision::Serve
        }
    }

    /// Counts a turn.
    pub fn begin_turn(&mut self)
        ensures { self.new ≡ turned self.old }
    {
        self.turns = (self.turns + 1) % PATIENCE;
    }

    /// Notes that a request of node `j` was served or refused.
    pub fn served(&mut self, j: u8)
        ensures { self.new ≡ record self.old { served = Some j } }
    {
        self.served = Some(j);
    }

    /// The node whose requests a turn looks at first, of this many nodes: the one after the node noted last, or 0 if none
    /// was noted or it isn't one of them. Requires that there is a node.
    pub fn first_sender(&self, nodes: u8) -> u8
        requires { 1 ≤ nodes }
        ensures first { result ≡ first_sender self.now nodes }
        ensures below { result < nodes }
    {
        match self.served {
            Some(j) if j < nodes - 1 => j + 1,
            _ => 0,
        }
    }
}

/// The line of a Cread, or None if the request is another, or of a line that isn't there.
fn cread_line(node: &Node, request: &Packet) -> Option<u8>
    ensures line { IfSome result (λ line. line ≡ request.now.line) }
    ensures cread { IfSome result (λ line. is_cread request.now.body ≡ true) }
    ensures none { result ≡ None → is_cread request.now.body ≡ true →
        state_on node.now request.now.line ≡ Out }
{
    if request.body != Body::Cread || request.line >= u64::from(node.extent().lines) {
        return None;
    }
    Some(request.line as u8)
}
