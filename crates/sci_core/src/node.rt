//! A node: the homes that are here, the cache, the operations of the processor, and its log.

ghost use Rattle.std.specs.Prelude.{◌≡◌, true};
ghost use Rattle.sci_words.specs.Operation.{has_words};

use crate::pending::{Pending, PendingOps};
use crate::taking::Taking;
use sci_cache::{Cache, Held, LineKind, LineSet};
use sci_history::Entry;
use sci_home::{Home, is_for_home};
use sci_packets::{Body, Packet};
use sci_words::{Act, AskKind, Extent, LockOp, Op, WORDS_PER_LINE};
use std::alloc::{AllocError, Global};
use std::marker::Model;

/// A node of the machine. Contracts see it as its part of the machine's state: its cache, its homes, the pending
/// operation of each line, the count of issues and its limit, the log, and the answer that waits.
#[derive(Drop)]
pub struct Node {
    me: u8,
    extent: Extent,
    limit: u32,
    cache: Cache,
    homes: Vec<Home>,
    pending: PendingOps,
    issued: u32,
    log: Vec<Entry>,
    waiting: Option<Packet>,
}

impl Model for Node {
    ghost use Rattle.std.specs.Prelude.{◌≡◌, ◌≤◌, length, option_map, vec_capacity};
    ghost use Rattle.sci_cache.specs.Cache.{letter_of};
    ghost use Rattle.sci_core.specs.{Node.{NodeOf, IsNode}, Inside.{FitsInside}};

    ghost Value = { NodeOf };

    ghost view = { λ node. record { cache = node.cache; homes = node.homes.items; pending = node.pending; issued = node.issued; limit = node.limit; log = node.log.items; waiting = option_map letter_of node.waiting } };

    ghost invariant = { λ node. FitsInside node.me node.extent node.cache (vec_capacity node.log) node.limit × IsNode (record { cache = node.cache; homes = node.homes.items; pending = node.pending; issued = node.issued; limit = node.limit; log = node.log.items; waiting = option_map letter_of node.waiting }) };
}

/// Reads the operands of an operation, so that the prover knows that they are words.
fn read_words(act: Act)
    ensures { has_words act ≡ true }
{
    match act {
        Act::Load => {}
        Act::Store(_word) => {}
        Act::Lock(lock) => match lock {
            LockOp::MaskSwap {
                arg: _arg,
                datum: _datum,
            } => {}
            LockOp::CompareSwap {
                arg: _arg,
                datum: _datum,
            } => {}
            LockOp::FetchAdd { datum: _datum } => {}
            LockOp::BoundedAdd {
                arg: _arg,
                datum: _datum,
            } => {}
            LockOp::WrapAdd {
                arg: _arg,
                datum: _datum,
            } => {}
        },
    }
}

impl Node {
    ghost use Rattle.std.specs.Prelude.{◌≡◌, ◌≢◌, ◌<◌, ◌≤◌, ◌%◌, ℕ, length, Some, None, Ok, Err, true, false, IfOk, IfSome, IsErr, IsSome};
    ghost use Rattle.std.specs.Prelude.{MatchOption, MatchBool, is_some, IsTrue, option_map, option_copied};
    ghost use Rattle.sci_words.specs.declared.limits.TheConstants.{MAX_LINES, MAX_OPERATIONS};
    ghost use Rattle.sci_core.specs.{Size.{size_of}, Taking.{IsTakable, node_taking}, Work.{IsIssued, IsLogged}};
    ghost use Rattle.sci_core.specs.Node.{IsAtRest, NodeOf, opening_node, lines_of, home_of, pending_on, IsForNode, IsServable, node_issuing};
    ghost use Rattle.sci_core.specs.Node.{node_performing, node_asking, node_serving, node_refusing, node_replying, node_accepting};
    ghost use Rattle.sci_core.specs.Node.{may_issue as may_issue_of, serving_at_home, serving_in_cache, answering};
    ghost use Rattle.sci_home.specs.Serving.{is_for_home, IsForHome};
    ghost use Rattle.sci_cache.specs.{Held.{state_of}, LineSet.{is_in}, Kinds.{could_give_way, is_of}};
    ghost use Rattle.sci_cache.specs.Cache.{has_slot, letter_of, line_of};

    /// The node with the number `me` in a machine of this size, whose processor may issue `limit` operations.
    /// Requires that there is such a node, and that `limit` is 1 to 65,536. Refused if memory
    /// is; no later call takes memory.
    pub fn new(alloc: Global, me: u8, extent: Extent, limit: u32) -> Result<Node, AllocError>
        requires me { me < extent.nodes }
        requires some { 1 ≤ limit }
        requires few { limit ≤ MAX_OPERATIONS }
        ensures { IfOk result (λ node. node ≡ opening_node me (size_of extent limit)) }
    {
        let homes_here = extent.lines / extent.nodes + 1;
        let mut homes = Vec::with_capacity(alloc, usize::from(homes_here))?;
        for _place in 0..homes_here {
            homes.push(Home::new())?;
        }
        let pending = PendingOps::new(alloc, extent.lines)?;
        let log = Vec::with_capacity(alloc, limit as usize)?;
        let cache = Cache::new(alloc, me, extent)?;
        Ok(Node {
            me,
            extent,
            limit,
            cache,
            homes,
            pending,
            issued: 0,
            log,
            waiting: None,
        })
    }

    /// A copy of the node, whose log has room for as many operations. Refused if memory is.
    pub fn try_clone(&self, alloc: Global) -> Result<Node, AllocError>
        ensures { IfOk result (λ node. node ≡ self.now) }
    {
        let mut homes = Vec::with_capacity(alloc, self.homes.len())?;
        for home in &self.homes {
            homes.push(home.copy())?;
        }
        let pending = self.pending.try_clone(alloc)?;
        let mut log = Vec::with_capacity(alloc, self.limit as usize)?;
        log.extend_from_slice(&self.log)?;
        let cache = self.cache.try_clone(alloc)?;
        Ok(Node {
            me: self.me,
            extent: self.extent,
            limit: self.limit,
            cache,
            homes,
            pending,
            issued: self.issued,
            log,
            waiting: self.waiting,
        })
    }

    /// The log of the node, which ends with that.
    pub fn into_log(self) -> Vec<Entry>
        ensures { result.items ≡ self.log }
    {
        self.log
    }

    /// Takes the answer that waits, to be sent to its target. None, unchanged, if none waits.
    pub fn take_answer(&mut self) -> Option<Packet>
        ensures taken { IfSome result
            (λ answer. node_replying self.old ≡ Some (self.new, letter_of answer)) }
        ensures none { result ≡ None → node_replying self.old ≡ None }
        ensures same { result ≡ None → self.new ≡ self.old }
    {
        self.waiting.take()
    }

    /// Issues an operation, and gives its serial: the count of operations issued before. None, unchanged, if
    /// its line or its word is out of range, an operation on the line is pending, or `limit` operations were
    /// issued.
    pub fn issue(&mut self, op: Op) -> Option<u32>
        ensures issued { IfSome result (λ serial. node_issuing self.old op ≡ Some self.new) }
        ensures serial { IfSome result (λ serial. serial ≡ self.old.issued) }
        ensures pending { IfSome result (λ serial. IsIssued self.old self.new op) }
        ensures none { result ≡ None → node_issuing self.old op ≡ None }
        ensures same { result ≡ None → self.new ≡ self.old }
    {
        if !self.may_issue(&op) {
            return None;
        }
        let serial = self.issued;
        self.pending.put(op.line, Pending { serial, op });
        self.issued += 1;
        Some(serial)
    }

    /// Whether an operation may be issued: whether `issue` would give its serial. The operands of any operation that a
    /// program has are words, as the rule wants them.
    pub fn may_issue(&self, op: &Op) -> bool
        ensures rule { result ≡ may_issue_of self.now op.now }
        ensures enabled { result ≡ is_some (node_issuing self.now op.now) }
        ensures words { has_words op.now.act ≡ true }
    {
        read_words(op.act);
        op.line < self.extent.lines
            && usize::from(op.word) < WORDS_PER_LINE
            && self.pending.get(op.line).is_none()
            && self.issued < self.limit
    }

    /// Performs the operation that is pending on a line, and gives its entry, which now ends the log. None,
    /// unchanged, if none is pending there or the line's state doesn't allow it.
    #[inline(always)]
    pub fn perform(&mut self, line: u8) -> Option<Entry>
        ensures performed { IfSome result
            (λ entry. node_performing self.old line ≡ Some (self.new, entry)) }
        ensures logged { IfSome result (λ entry. IsLogged self.old self.new line entry) }
        ensures none { result ≡ None → node_performing self.old line ≡ None }
        ensures same { result ≡ None → self.new ≡ self.old }
    {
        // Lent: where nodes contend for a line, most tries are of an operation that waits for contents.
        let pending = self.pending.get(line)?;
        let (reply, version) = self.cache.perform(&pending.op)?;
        let entry = Entry {
            node: self.me,
            serial: pending.serial,
            op: pending.op,
            reply,
            version,
        };
        self.pending.clear(line);
        match self.log.push(entry) {
            Ok(()) => Some(entry),
            Err(_) => unreachable!(),
        }
    }

    /// Whether the operation that is pending on a line can be performed: whether `perform` would give its entry.
    pub fn may_perform(&self, line: u8) -> bool
        ensures { result ≡ is_some (node_performing self.now line) }
    {
        match self.pending.get(line) {
            Some(pending) => self.cache.held(pending.op.line).may_perform(&pending.op),
            None => false,
        }
    }

    /// Law: an operation can be performed only if its line has contents, as each line has that could give way. So no other
    /// line needs to be looked at for one.
    pub fn performs_on_lines_with_contents(&self)
        ensures { (line : ℕ) → IsSome (node_performing self.now line) →
            could_give_way (line_of self.now.cache line).state ≡ true }
    {
        // Read, so that the prover knows how the parts of a node fit together.
        let _me = self.me;
    }

    /// Makes a request of this kind about a line. None, unchanged, if there is no such line, its state
    /// doesn't ask this kind, or it has no entry and no version slot is free.
    pub fn ask(&mut self, line: u8, kind: AskKind) -> Option<Packet>
        ensures asked { IfSome result
            (λ packet. node_asking self.old line kind ≡ Some (self.new, letter_of packet)) }
        ensures none { result ≡ None → node_asking self.old line kind ≡ None }
        ensures same { result ≡ None → self.new ≡ self.old }
    {
        if line >= self.extent.lines {
            return None;
        }
        // By a `match`: at `.ok()` the prover doesn't learn the types inside a packet.
        match self.cache.ask(line, kind) {
            Ok(packet) => Some(packet),
            Err(_) => None,
        }
    }

    /// Asks as `ask` does, without making the packet, for a caller that has it from `asked`. Requires that there
    /// is one.
    pub fn apply_ask(&mut self, line: u8, kind: AskKind)
        requires { IsSome (node_asking self.old line kind) }
        ensures { IfSome (node_asking self.old line kind) (λ asked. self.new ≡ asked.0) }
    {
        self.cache.apply_ask(line, kind);
    }

    /// The packet that `ask` would give, or None if it would give none.
    pub fn asked(&self, line: u8, kind: AskKind) -> Option<Packet>
        ensures asked { IfSome result
            (λ packet. (next : NodeOf)
            × (node_asking self.now line kind ≡ Some (next, letter_of packet))) }
        ensures none { result ≡ None → node_asking self.now line kind ≡ None }
    {
        if line >= self.extent.lines {
            return None;
        }
        // By a `match`, as in `ask`.
        match self.cache.asked(line, kind) {
            Ok(packet) => Some(packet),
            Err(_) => None,
        }
    }

    /// Serves a request: its answer waits then. False, unchanged, if an answer waits already.
    /// Requires that the request is for this node and about a line of the machine, and that the home of the
    /// line is here if the request is one for a home.
    pub fn serve(&mut self, request: &Packet) -> bool
        requires { IsServable self.old (letter_of request.now) }
        ensures served { IsTrue result →
            node_serving self.old (letter_of request.now) ≡ Some self.new }
        ensures not { result ≡ false → node_serving self.old (letter_of request.now) ≡ None }
        ensures same { result ≡ false → self.new ≡ self.old }
    {
        if self.waiting.is_some() {
            return false;
        }
        let answer = if is_for_home(&request.body) {
            self.serve_at_home(request)
        } else {
            self.serve_in_cache(request)
        };
        self.waiting = Some(answer);
        true
    }

    fn serve_at_home(&mut self, request: &Packet) -> Packet
        requires servable { IsServable self.old (letter_of request.now) }
        requires home { IsForHome request.now.body }
        ensures served { serving_at_home self.old (letter_of request.now)
            ≡ Some (self.new, result.body) }
        ensures answer { letter_of result ≡ answering (letter_of request.now) result.body }
        ensures waiting { self.new.waiting ≡ self.old.waiting }
    {
        let place = request.line as usize / usize::from(self.extent.nodes);
        self.homes[place].serve(request)
    }

    fn serve_in_cache(&mut self, request: &Packet) -> Packet
        requires servable { IsServable self.old (letter_of request.now) }
        requires cache { is_for_home request.now.body ≡ false }
        ensures served { serving_in_cache self.old (letter_of request.now)
            ≡ Some (self.new, result.body) }
        ensures answer { letter_of result ≡ answering (letter_of request.now) result.body }
        ensures waiting { self.new.waiting ≡ self.old.waiting }
    {
        self.cache.serve(request)
    }

    /// Answers a request as busy, which changes nothing else. False, unchanged, if an answer waits already or the
    /// request is a Setback. The condition on the request is that of `serve`.
    pub fn refuse(&mut self, request: &Packet) -> bool
        requires { IsServable self.old (letter_of request.now) }
        ensures refused { IsTrue result →
            node_refusing self.old (letter_of request.now) ≡ Some self.new }
        ensures not { result ≡ false → node_refusing self.old (letter_of request.now) ≡ None }
        ensures same { result ≡ false → self.new ≡ self.old }
    {
        if self.waiting.is_some() || matches!(request.body, Body::Setback { .. }) {
            return false;
        }
        self.waiting = Some(request.answer(Body::Busy));
        true
    }

    /// Takes an answer. False, unchanged, if it isn't awaited. Requires that the answer is for
    /// this node and about a line of the machine.
    #[inline(always)]
    pub fn accept(&mut self, answer: &Packet) -> bool
        requires { IsForNode self.old (letter_of answer.now) }
        ensures accepted { IsTrue result →
            node_accepting self.old (letter_of answer.now) ≡ Some self.new }
        ensures not { result ≡ false → node_accepting self.old (letter_of answer.now) ≡ None }
        ensures same { result ≡ false → self.new ≡ self.old }
    {
        match self.cache.accept(answer) {
            Ok(()) => true,
            Err(_) => false,
        }
    }

    /// Serves, refuses or accepts a packet. False, unchanged, if it can't.
    pub(crate) fn take(&mut self, taking: Taking, packet: &Packet) -> bool
        requires { IsTakable taking self.old (letter_of packet.now) }
        ensures taken { IsTrue result →
            node_taking taking self.old (letter_of packet.now) ≡ Some self.new }
        ensures not { result ≡ false → node_taking taking self.old (letter_of packet.now) ≡ None }
        ensures same { result ≡ false → self.new ≡ self.old }
    {
        match taking {
            Taking::Serve => self.serve(packet),
            Taking::Refuse => self.refuse(packet),
            Taking::Accept => self.accept(packet),
        }
    }

    /// The node's number.
    pub fn me(&self) -> u8
        ensures { result ≡ self.now.cache.me }
    {
        self.me
    }

    /// Whether a version slot is free: whether fewer lines have an entry than there are slots.
    pub fn has_slot(&self) -> bool
        ensures { result ≡ has_slot self.now.cache }
    {
        self.cache.has_slot()
    }

    /// Whether no operation is pending and no line has an entry. It looks at no line.
    #[tactic(auto, using(crate::proofs::Settling::Rest::at_rest, crate::proofs::Settling::Rest::rest_is_done, crate::proofs::Settling::Rest::rest_is_free))]
    pub fn is_at_rest(&self) -> bool
        ensures rest { IsTrue result → IsAtRest self.now }
        ensures work { result ≡ false → IsAtRest self.now → ⊥ }
    {
        self.issued as usize == self.log.len() && self.cache.slots_taken() == 0
    }

    /// The size of the machine.
    pub fn extent(&self) -> Extent
        ensures nodes { result.nodes ≡ self.now.cache.nodes }
        ensures lines { result.lines ≡ lines_of self.now }
        ensures slots { result.slots ≡ self.now.cache.slots }
    {
        self.extent
    }

    /// The cache's state for a line. Requires that there is such a line.
    pub fn held(&self, line: u8) -> &Held
        requires { line < lines_of self.now }
        ensures { state_of result.now ≡ (line_of self.now.cache line).state }
    {
        self.cache.held(line)
    }

    /// The operation that is pending on a line, or None if there is none.
    pub fn pending(&self, line: u8) -> Option<Pending>
        ensures { result ≡ pending_on self.now line }
    {
        self.pending.get(line).copied()
    }

    /// The lines whose state is of a kind. It looks at no line.
    pub fn lines_of(&self, kind: LineKind) -> LineSet
        ensures each { (line : ℕ) →
            is_in result line ≡ is_of kind (line_of self.now.cache line).state }
        ensures here { (line : ℕ) → is_in result line ≡ true → line < lines_of self.now }
        ensures small { (line : ℕ) → is_in result line ≡ true → line < MAX_LINES }
    {
        self.cache.lines_of(kind)
    }

    /// The lines with an operation pending. It looks at no line.
    pub fn pending_lines(&self) -> LineSet
        ensures each { (line : ℕ) → is_in result line ≡ is_some (pending_on self.now line) }
        ensures here { (line : ℕ) → is_in result line ≡ true → line < lines_of self.now }
    {
        self.pending.lines()
    }

    /// The answer that waits to be sent, if one does.
    pub fn waiting(&self) -> Option<&Packet>
        ensures { option_map letter_of (option_copied result) ≡ self.now.waiting }
    {
        self.waiting.as_ref()
    }

    /// The entries of the operations performed so far, in their order.
    pub fn log(&self) -> &[Entry]
        ensures { result.now ≡ self.now.log }
    {
        &self.log
    }

    /// The home of a line, or None if it is at another node. Requires that there is such a line.
    pub fn home(&self, line: u8) -> Option<&Home>
        requires { line < lines_of self.now }
        ensures here { IfSome result
            (λ home. (home.now ≡ home_of self.now line)
            × (line % self.now.cache.nodes ≡ self.now.cache.me)) }
        ensures elsewhere { result ≡ None → line % self.now.cache.nodes ≢ self.now.cache.me }
    {
        if line % self.extent.nodes != self.me {
            return None;
        }
        self.homes.get(usize::from(line / self.extent.nodes))
    }
}
