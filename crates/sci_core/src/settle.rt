//! Bringing a machine to rest.

ghost use Rattle.std.specs.Prelude.{◌≡◌};
ghost use Rattle.sci_cache.specs.Held.{state_of};
ghost use Rattle.sci_core.specs.Rounds.{is_wanted, parting as parting_of};

use crate::machine::Machine;
use sci_cache::Held;
use sci_history::Entry;
use sci_words::{AskKind, Event};
use std::alloc::AllocError;

/// Which node is looked for, by what it has of a line: one that has to tell another who is before it, the head of the
/// list, or one that is to join before a node.
#[derive(Clone, Copy)]
pub(crate) enum Wanted {
    Teller,
    Leader,
    Joiner(u8),
}

impl Wanted {
    /// Whether it is who is wanted.
    fn fits(self, held: &Held) -> bool
        ensures { result ≡ is_wanted self (state_of held.now) }
    {
        match self {
            Wanted::Teller => matches!(held, Held::Telling(_)),
            Wanted::Leader => matches!(held, Held::Head(_) | Held::FreshHead(_)),
            Wanted::Joiner(before) => match held {
                Held::Joining(state) => state.old_head.get() == u16::from(before),
                Held::FreshJoining(state) => state.old_head.get() == u16::from(before),
                _ => false,
            },
        }
    }
}

/// What the head of a list asks if nobody is to join before it.
fn parting(held: &Held) -> AskKind
    ensures { result ≡ parting_of (state_of held.now) }
{
    match held {
        Held::Head(state) if state.forward.is_some() => AskKind::Purge,
        Held::FreshHead(state) if state.forward.is_some() => AskKind::Claim,
        Held::FreshHead(_) => AskKind::Clear,
        _ => AskKind::Wback,
    }
}

impl Machine {
    ghost use Rattle.std.specs.Prelude.{◌≡◌, ◌<◌, ◌≤◌, ◌+◌, ◌*◌, ℕ, Some, None, IfOk, IfSome, IsErr, IsSome, OnOk, OnErr, true, false};
    ghost use Rattle.sci_cache.specs.State.{Out};
    ghost use Rattle.sci_core.specs.{Reached.{IsReached}, Shape.{state_at}, Coherent.{IsCoherent}, Core.{node_at}};
    ghost use Rattle.sci_core.specs.{Draining.{IsDrained}, Node.{node_asking, pending_on}};
    ghost use Rattle.sci_core.specs.Rounds.{AreOut, IsNext, IsRound, rank};
    ghost use Rattle.sci_core.specs.Settling.{IsPerformedNext, IsSettled, IsWithin, KeepsPending, Leads, LeadsOn, exchanges, pending_count, settles};

    /// A node asks about a line, and the request is served, answered and accepted. Requires that nothing
    /// is under way, that there is such a line, and that the node can ask. If memory is refused, the machine stands
    /// where the events made so far lead.
    fn round(&mut self, node: u8, line: u8, kind: AskKind) -> Result<(), AllocError>
        requires drained { IsDrained self.old }
        requires node { node < self.old.size.nodes }
        requires line { line < self.old.size.lines }
        requires asks { IsSome (node_asking (node_at self.old node) line kind) }
        ensures round { IfOk result (λ _. IsRound self.old self.new node line kind) }
        ensures made { IfOk result (λ _. Leads exchanges self.old self.new 4) }
        ensures drained { IfOk result (λ _. IsDrained self.new) }
        ensures refused { IsErr result → LeadsOn exchanges self.old self.new }
        ensures coherent { IsCoherent self.new }
    {
        // Read once, so that the prover knows that the state is reached.
        let _extent = self.extent();
        let Some(request) = self.node(node).asked(line, kind) else {
            unreachable!()
        };
        let target = request.target.get() as u8;
        self.make(&Event::Ask { node, line, kind })?;
        self.make(&Event::Serve {
            from: node,
            node: target,
        })?;
        self.make(&Event::Reply { node: target })?;
        self.make(&Event::Accept { from: target, node })?;
        Ok(())
    }

    /// The first node that is wanted for a line, if there is one. Requires that there is such a line.
    fn find(&self, line: u8, wanted: Wanted) -> Option<u8>
        requires { line < self.now.size.lines }
        ensures below { IfSome result (λ n. n < self.now.size.nodes) }
        ensures some { IfSome result (λ n. is_wanted wanted (state_at self.now line n) ≡ true) }
        ensures none { result ≡ None → (n : ℕ) → n < self.now.size.nodes →
            is_wanted wanted (state_at self.now line n) ≡ false }
        ensures reached { IsReached self.now }
    {
        for n in 0..self.extent().nodes {
            if wanted.fits(self.node(n).held(line)) {
                return Some(n);
            }
        }
        None
    }

    /// The node that asks next about a line, and what, or None if no cache has an entry of it.
    /// Requires that nothing is under way, and that there is such a line.
    fn ask_about(&self, line: u8) -> Option<(u8, AskKind)>
        requires drained { IsDrained self.now }
        requires line { line < self.now.size.lines }
        ensures below { IfSome result (λ ask. ask.0 < self.now.size.nodes) }
        ensures next { IfSome result (λ ask. IsNext self.now line ask.0 ask.1) }
        ensures none { result ≡ None → (n : ℕ) → state_at self.now line n ≡ Out }
        ensures reached { IsReached self.now }
    {
        if let Some(teller) = self.find(line, Wanted::Teller) {
            return Some((teller, AskKind::Setback));
        }
        let Some(head) = self.find(line, Wanted::Leader) else {
            return None;
        };
        match self.find(line, Wanted::Joiner(head)) {
            Some(joiner) => Some((joiner, AskKind::Cread)),
            None => Some((head, parting(self.node(head).held(line)))),
        }
    }

    /// The node that asks next, about which line and what, or None if no cache has an entry.
    /// Requires that nothing is under way.
    fn next_ask(&self) -> Option<(u8, u8, AskKind)>
        requires { IsDrained self.now }
        ensures node { IfSome result (λ ask. ask.0 < self.now.size.nodes) }
        ensures line { IfSome result (λ ask. ask.1 < self.now.size.lines) }
        ensures next { IfSome result (λ ask. IsNext self.now ask.1 ask.0 ask.2) }
        ensures none { result ≡ None → (line n : ℕ) → line < self.now.size.lines →
            state_at self.now line n ≡ Out }
        ensures reached { IsReached self.now }
    {
        for line in 0..self.extent().lines {
            if let Some((node, kind)) = self.ask_about(line) {
                return Some((node, line, kind));
            }
        }
        None
    }

    /// Brings every line to its home, and gives the number of events. Requires that nothing is under
    /// way. If memory is refused, the machine stands where the events made so far lead.
    fn empty_lines(&mut self) -> Result<u32, AllocError>
        requires { IsDrained self.old }
        ensures drained { IfOk result (λ count. IsDrained self.new) }
        ensures empty { IfOk result (λ count. AreOut self.new) }
        ensures made { IfOk result (λ count. Leads exchanges self.old self.new count) }
        ensures few { IfOk result (λ count. count ≤ 4 * rank self.old) }
        ensures kept { IfOk result (λ count. KeepsPending self.old self.new) }
        ensures refused { IsErr result → LeadsOn exchanges self.old self.new }
        ensures coherent { IsCoherent self.new }
    {
        // Read once, so that the prover knows that the state is reached.
        let _extent = self.extent();
        let mut count = 0;
        'rounds: while let Some((node, line, kind)) = self.next_ask() {
            self.round(node, line, kind)?;
            count += 4;
        }
        Ok(count)
    }

    /// The first node at which an operation is pending, and its line, if there is one.
    fn next_pending(&self) -> Option<(u8, u8)>
        ensures node { IfSome result (λ at. at.0 < self.now.size.nodes) }
        ensures line { IfSome result (λ at. at.1 < self.now.size.lines) }
        ensures pending { IfSome result
            (λ at. IsSome (pending_on (node_at self.now at.0) at.1)) }
        ensures none { result ≡ None → (n line : ℕ) → n < self.now.size.nodes →
            line < self.now.size.lines → pending_on (node_at self.now n) line ≡ None }
        ensures reached { IsReached self.now }
    {
        let extent = self.extent();
        'nodes: for node in 0..extent.nodes {
            if let Some(line) = self.node(node).pending_lines().next_from(0) {
                return Some((node, line));
            }
        }
        None
    }

    /// Performs the operation that is pending at a node on a line, and gives the number of events: the node reads the
    /// line, performs the operation, and writes the line back. Requires that there is such an operation,
    /// that nothing is under way, and that no cache has an entry. If memory is refused, the machine stands where the
    /// events made so far lead.
    fn perform_pending(&mut self, node: u8, line: u8) -> Result<u32, AllocError>
        requires drained { IsDrained self.old }
        requires empty { AreOut self.old }
        requires node { node < self.old.size.nodes }
        requires line { line < self.old.size.lines }
        requires pending { IsSome (pending_on (node_at self.old node) line) }
        ensures drained { IfOk result (λ count. IsDrained self.new) }
        ensures empty { IfOk result (λ count. AreOut self.new) }
        ensures made { IfOk result (λ count. Leads settles self.old self.new count) }
        ensures few { IfOk result (λ count. count ≤ 9) }
        ensures one { IfOk result (λ count. pending_count self.old ≡ pending_count self.new + 1) }
        ensures refused { IsErr result → LeadsOn settles self.old self.new }
        ensures coherent { IsCoherent self.new }
    {
        // Read once, so that the prover knows that the state is reached.
        let _extent = self.extent();
        self.round(node, line, AskKind::Mread)?;
        self.make(&Event::Perform { node, line })?;
        let count = self.empty_lines()?;
        Ok(count + 5)
    }

    /// Performs the operation that is pending at a node on a line before any other, wherever packets are under way, and gives its
    /// entry. All that is under way is brought to its end, each line to its home, and the node reads the line. Requires that such
    /// an operation is pending. If memory is refused, the machine stands where the events made so far lead.
    pub fn perform_next(&mut self, node: u8, line: u8) -> Result<Entry, AllocError>
        requires node { node < self.old.size.nodes }
        requires line { line < self.old.size.lines }
        requires pending { IsSome (pending_on (node_at self.old node) line) }
        ensures performed { IfOk result (IsPerformedNext self.old self.new node line) }
        ensures refused { IsErr result → LeadsOn exchanges self.old self.new }
        ensures coherent { IsCoherent self.new }
    {
        // Read once, so that the prover knows that the state is reached.
        let _extent = self.extent();
        self.drain()?;
        self.empty_lines()?;
        self.round(node, line, AskKind::Mread)?;
        let Some(entry) = self.perform(node, line) else {
            unreachable!()
        };
        Ok(entry)
    }

    /// Brings the machine to rest, and gives the number of events: none of them is an Issue or a Refuse, and each is
    /// enabled when it comes. At the end every pending operation is performed, no cache has an entry, each line's
    /// home has it alone, and nothing is under way. If memory is refused, the machine stands where the events made so
    /// far lead.
    pub fn settle(&mut self) -> Result<u32, AllocError>
        ensures settled { IfOk result (λ count. IsSettled self.new) }
        ensures made { IfOk result (λ count. Leads settles self.old self.new count) }
        ensures within { IfOk result (IsWithin self.old) }
        ensures refused { IsErr result → LeadsOn settles self.old self.new }
        ensures coherent { IsCoherent self.new }
    {
        // Read once, so that the prover knows that the state is reached.
        let _extent = self.extent();
        let drained = self.drain()?;
        let emptied = self.empty_lines()?;
        let mut count = drained + emptied;
        'operations: while let Some((node, line)) = self.next_pending() {
            count += self.perform_pending(node, line)?;
        }
        Ok(count)
    }
}
