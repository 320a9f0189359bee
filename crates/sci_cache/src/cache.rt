//! The cache part of a node's controller.

ghost use Rattle.std.specs.Prelude.{◌≡◌, ◌+◌, ◌<◌, true, false, cond, not};

use crate::fault::{AskFault, NotAwaited};
use crate::held::Held;
use crate::line::CachedLine;
use crate::line_kind::LineKind;
use crate::line_kinds::LineKinds;
use crate::line_set::LineSet;
use sci_packets::{NodeId, Packet};
use sci_words::{AskKind, Extent, Op, Reply};
use std::alloc::{AllocError, Global};
use std::marker::Model;

/// The cache of a node: its state for each line, and how often it has asked. Contracts see it as a record of
/// the node's number, the sizes of the machine, and a list of its lines.
#[derive(Drop)]
pub struct Cache {
    me: u8,
    extent: Extent,
    lines: Vec<CachedLine>,
    /// How many lines have an entry: each takes a version slot.
    taken: usize,
    /// The lines by kinds of state.
    kinds: LineKinds,
}

impl Model for Cache {
    ghost use Rattle.std.specs.Prelude.{◌≡◌};
    ghost use Rattle.sci_cache.specs.{Cache.{CacheOf}, Index.{IsIndex}};

    ghost Value = { CacheOf };

    ghost view = { λ cache. record { me = cache.me; nodes = cache.extent.nodes; slots = cache.extent.slots; lines = cache.lines.items } };

    ghost invariant = { λ cache. IsIndex cache.taken cache.kinds cache.lines.items };
}

/// The identifier of a node by its number.
fn node(number: u8) -> NodeId
    ensures { result ≡ number }
{
    NodeId::new(u16::from(number)).unwrap()
}

/// The number of slots taken, of which there were `taken`, after a line had an entry or not and has one or not.
fn taken_after(taken: usize, was_out: bool, is_out: bool) -> usize
    requires room { was_out ≡ true → is_out ≡ false → taken < usize.MAX }
    requires some { was_out ≡ false → is_out ≡ true → 0 < taken }
    ensures { result + cond (not was_out) 1 0 ≡ taken + cond (not is_out) 1 0 }
{
    match (was_out, is_out) {
        (true, false) => taken + 1,
        (false, true) => taken - 1,
        _ => taken,
    }
}

impl Cache {
    ghost use Rattle.std.specs.Prelude.{◌≡◌, ◌<◌, ◌≤◌, ◌%◌, ◌&&◌, ℕ, true, false, Some, None, Ok, Err, IfOk, IfErr, IfSome, IsErr, IsOk, length};
    ghost use Rattle.std.specs.Prelude.{replicate};
    ghost use Rattle.sci_words.specs.declared.limits.TheConstants.{MAX_LINES, WORDS_PER_LINE};
    ghost use Rattle.sci_cache.specs.{Serving.{IsForCache}, Line.{untouched}, Held.{state_of}, Kinds.{is_of}};
    ghost use Rattle.sci_cache.specs.LineSet.{is_in};
    ghost use Rattle.sci_cache.specs.Cache.{CacheOf, line_of, has_slot, letter_of, slots_taken, cache_asking, cache_serving, cache_accepting};
    ghost use Rattle.sci_cache.specs.Cache.{cache_performing, target_of};

    /// The cache of node `me` in a machine of this size, with no entry for any line. Requires that
    /// there is such a node. Refused if memory is.
    pub fn new(alloc: Global, me: u8, extent: Extent) -> Result<Cache, AllocError>
        requires { me < extent.nodes }
        ensures { IfOk result
            (λ cache. cache ≡ record {
              me = me;
              nodes = extent.nodes;
              slots = extent.slots;
              lines = replicate extent.lines untouched;
            }) }
    {
        let mut lines = Vec::with_capacity(alloc, usize::from(extent.lines))?;
        for _place in 0..extent.lines {
            lines.push(CachedLine::new())?;
        }
        Ok(Cache {
            me,
            extent,
            lines,
            taken: 0,
            kinds: LineKinds::new(),
        })
    }

    /// A copy of the cache. Refused if memory is.
    pub fn try_clone(&self, alloc: Global) -> Result<Cache, AllocError>
        ensures { IfOk result (λ cache. cache ≡ self.now) }
    {
        let mut lines = Vec::with_capacity(alloc, self.lines.len())?;
        for line in &self.lines {
            lines.push(line.copy())?;
        }
        Ok(Cache {
            me: self.me,
            extent: self.extent,
            lines,
            taken: self.taken,
            kinds: self.kinds,
        })
    }

    /// The state of a line. Requires that there is such a line.
    pub fn held(&self, line: u8) -> &Held
        requires { line < length self.now.lines }
        ensures { state_of result.now ≡ (line_of self.now line).state }
    {
        let part = &self.lines[usize::from(line)];
        part.held()
    }

    /// Whether a version slot is free: whether fewer lines have an entry than there are slots.
    pub fn has_slot(&self) -> bool
        ensures { result ≡ has_slot self.now }
    {
        self.taken < usize::from(self.extent.slots)
    }

    /// How many lines have an entry.
    pub fn slots_taken(&self) -> usize
        ensures { result ≡ slots_taken self.now.lines }
    {
        self.taken
    }

    /// The lines of a kind.
    pub fn lines_of(&self, kind: LineKind) -> LineSet
        ensures each { (line : ℕ) → is_in result line ≡ is_of kind (line_of self.now line).state }
        ensures here { (line : ℕ) → is_in result line ≡ true → line < length self.now.lines }
        ensures small { (line : ℕ) → is_in result line ≡ true → line < MAX_LINES }
    {
        self.kinds.of(kind)
    }

    /// The node that a request about a line goes to: the one that its state names, or that with the line's home.
    fn target_of(&self, line: u8, named: Option<NodeId>) -> NodeId
        ensures { result ≡ target_of self.now line named }
    {
        match named {
            Some(target) => target,
            None => node(line % self.extent.nodes),
        }
    }

    /// Makes a request of this kind about a line. Requires that there is such a line. Refused,
    /// unchanged, with NotNow if the line's state doesn't ask this kind, and else with NoSlot if the line
    /// has no entry and as many lines have one as there are version slots.
    pub fn ask(&mut self, line: u8, kind: AskKind) -> Result<Packet, AskFault>
        requires { line < length self.old.lines }
        ensures asked { IfOk result
            (λ packet. cache_asking self.old line kind ≡ Ok (self.new, letter_of packet)) }
        ensures refused { IfErr result (λ fault. cache_asking self.old line kind ≡ Err fault) }
        ensures same { IsErr result → self.new ≡ self.old }
        ensures lines { length self.new.lines ≡ length self.old.lines }
    {
        let packet = self.asked(line, kind)?;
        self.apply_ask(line, kind);
        Ok(packet)
    }

    /// The packet that `ask` would give now, or its refusal. Requires that there is such a line.
    pub fn asked(&self, line: u8, kind: AskKind) -> Result<Packet, AskFault>
        requires { line < length self.now.lines }
        ensures asked { IfOk result
            (λ packet. (next : CacheOf)
            × (cache_asking self.now line kind ≡ Ok (next, letter_of packet))) }
        ensures refused { IfErr result (λ fault. cache_asking self.now line kind ≡ Err fault) }
    {
        let part = &self.lines[usize::from(line)];
        let Some((to, body)) = part.held().asked(kind) else {
            return Err(AskFault::NotNow);
        };
        if part.is_out() && !self.has_slot() {
            return Err(AskFault::NoSlot);
        }
        Ok(Packet {
            target: self.target_of(line, to),
            source: node(self.me),
            control: part.next_control(),
            line: u64::from(line),
            body,
        })
    }

    /// Makes the request that `asked` gave, which is sent then. Requires that there is such a line, and
    /// that an ask of this kind about it would not be refused.
    pub fn apply_ask(&mut self, line: u8, kind: AskKind)
        requires line { line < length self.old.lines }
        requires asked { IsOk (cache_asking self.old line kind) }
        ensures asked { IfOk (cache_asking self.old line kind) (λ asked. self.new ≡ asked.0) }
        ensures lines { length self.new.lines ≡ length self.old.lines }
    {
        let part = &mut self.lines[usize::from(line)];
        let was_out = part.is_out();
        part.ask(kind);
        self.taken = taken_after(self.taken, was_out, part.is_out());
        self.kinds.note(line, part.held());
    }

    /// Serves a Cread, Purge, Roll or Setback about a line, and gives the answer, which goes back to the
    /// request's sender. Requires that it is one of those and that there is such a line.
    pub fn serve(&mut self, request: &Packet) -> Packet
        requires line { request.now.line < length self.old.lines }
        requires body { IsForCache request.now.body }
        ensures case { cache_serving self.old request.now.line request.now.source request.now.body
            ≡ Some (self.new, result.body) }
        ensures target { result.target ≡ request.now.source }
        ensures source { result.source ≡ request.now.target }
        ensures control { result.control ≡ request.now.control }
        ensures line { result.line ≡ request.now.line }
        ensures lines { length self.new.lines ≡ length self.old.lines }
    {
        let part = &mut self.lines[request.line as usize];
        let was_out = part.is_out();
        let answer = part.serve(request.source, &request.body);
        self.taken = taken_after(self.taken, was_out, part.is_out());
        self.kinds.note(request.line as u8, part.held());
        request.answer(answer)
    }

    /// Takes an answer about a line. Requires that there is such a line. Refused, unchanged, if
    /// the line's state doesn't list the answer or its control number isn't that of the line's last ask.
    pub fn accept(&mut self, answer: &Packet) -> Result<(), NotAwaited>
        requires { answer.now.line < length self.old.lines }
        ensures taken { IfOk result
            (λ _. cache_accepting self.old answer.now.line answer.now.control answer.now.body
            ≡ Some self.new) }
        ensures refused { IsErr result →
            cache_accepting self.old answer.now.line answer.now.control answer.now.body ≡ None }
        ensures same { IsErr result → self.new ≡ self.old }
        ensures lines { length self.new.lines ≡ length self.old.lines }
    {
        let part = &mut self.lines[answer.line as usize];
        let was_out = part.is_out();
        part.accept(answer.control, &answer.body)?;
        self.taken = taken_after(self.taken, was_out, part.is_out());
        self.kinds.note(answer.line as u8, part.held());
        Ok(())
    }

    /// Performs an operation, and gives its reply and the version that it read or made. Requires
    /// that there is such a line, and that the word's place is below eight. None, unchanged, if the line's
    /// state doesn't allow it.
    pub fn perform(&mut self, op: &Op) -> Option<(Reply, u64)>
        requires line { op.now.line < length self.old.lines }
        requires word { op.now.word < WORDS_PER_LINE }
        ensures done { IfSome result
            (λ answer. cache_performing self.old op.now ≡ Some (self.new, answer.0, answer.1)) }
        ensures refused { result ≡ None → cache_performing self.old op.now ≡ None }
        ensures same { result ≡ None → self.new ≡ self.old }
        ensures lines { length self.new.lines ≡ length self.old.lines }
    {
        let part = &mut self.lines[usize::from(op.line)];
        part.perform(op)
    }
}
