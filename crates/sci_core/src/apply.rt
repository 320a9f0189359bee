//! The events of a machine: one function for each kind of a node's side.

ghost use Rattle.std.specs.Prelude.{◌≡◌};
ghost use Rattle.sci_core.specs.Core.{node_of as node_of_event};

use crate::fault::ApplyFault;
use crate::lane::LaneKind;
use crate::state::State;
use crate::taking::Taking;
use sci_history::Entry;
use sci_words::{AskKind, Event, Op};

/// The node whose event it is.
pub fn node_of(event: &Event) -> u8
    ensures { result ≡ node_of_event event.now }
{
    match *event {
        Event::Issue { node, .. }
        | Event::Perform { node, .. }
        | Event::Ask { node, .. }
        | Event::Serve { node, .. }
        | Event::Refuse { node, .. }
        | Event::Reply { node }
        | Event::Accept { node, .. } => node,
    }
}

impl State {
    ghost use Rattle.std.specs.Prelude.{◌≡◌, ◌<◌, Some, None, IfOk, IfErr, IfSome, IsErr, IsTrue, false};
    ghost use Rattle.sci_core.specs.{Core.{node_at, stepping}, Node.{node_issuing, node_performing}, Fault.{IsFaultOf}};
    ghost use Rattle.sci_core.specs.{Taking.{taking_event}, WellFormed.{IsWellFormed}, Work.{IsIssued, IsLogged}};
    ghost use Rattle.sci_words.specs.declared.event.Event.TheVariants as event;

    /// Applies an event, as the step says. Unchanged on refusal: NotEnabled exactly if the event is not
    /// enabled, Memory only if it is.
    pub(crate) fn apply(&mut self, event: &Event) -> Result<(), ApplyFault>
        requires { IsWellFormed self.old }
        ensures done { IfOk result (λ _. stepping self.old event.now ≡ Some self.new) }
        ensures refused { IfErr result (IsFaultOf (stepping self.old event.now) event.now) }
        ensures same { IsErr result → self.new ≡ self.old }
    {
        if node_of(event) >= self.nodes() {
            return Err(ApplyFault::NotEnabled);
        }
        let enabled = match *event {
            Event::Issue { node, op } => self.issue(node, op).is_some(),
            Event::Perform { node, line } => self.perform(node, line).is_some(),
            Event::Ask { node, line, kind } => return self.ask(node, line, kind),
            Event::Serve { from, node } => self.take(Taking::Serve, from, node),
            Event::Refuse { from, node } => self.take(Taking::Refuse, from, node),
            Event::Reply { node } => return self.reply(node),
            Event::Accept { from, node } => self.take(Taking::Accept, from, node),
        };
        if enabled {
            Ok(())
        } else {
            Err(ApplyFault::NotEnabled)
        }
    }

    /// A node issues an operation, whose serial it gives. None, unchanged, if it can't.
    pub(crate) fn issue(&mut self, n: u8, op: Op) -> Option<u32>
        requires { n < self.old.size.nodes }
        ensures done { IfSome result
            (λ serial. stepping self.old (event.Issue n op) ≡ Some self.new) }
        ensures issued { IfSome result
            (λ serial. node_issuing (node_at self.old n) op ≡ Some (node_at self.new n)) }
        ensures serial { IfSome result (λ serial. serial ≡ (node_at self.old n).issued) }
        ensures pending { IfSome result
            (λ serial. IsIssued (node_at self.old n) (node_at self.new n) op) }
        ensures none { result ≡ None → node_issuing (node_at self.old n) op ≡ None }
        ensures not { result ≡ None → stepping self.old (event.Issue n op) ≡ None }
        ensures same { result ≡ None → self.new ≡ self.old }
    {
        self.nodes[usize::from(n)].issue(op)
    }

    /// A node performs the operation that is pending on a line, and gives its entry. None, unchanged, if it can't.
    pub(crate) fn perform(&mut self, n: u8, line: u8) -> Option<Entry>
        requires { n < self.old.size.nodes }
        ensures done { IfSome result
            (λ entry. stepping self.old (event.Perform n line) ≡ Some self.new) }
        ensures performed { IfSome result (λ entry.
            node_performing (node_at self.old n) line ≡ Some (node_at self.new n, entry)) }
        ensures logged { IfSome result
            (λ entry. IsLogged (node_at self.old n) (node_at self.new n) line entry) }
        ensures none { result ≡ None → node_performing (node_at self.old n) line ≡ None }
        ensures not { result ≡ None → stepping self.old (event.Perform n line) ≡ None }
        ensures same { result ≡ None → self.new ≡ self.old }
    {
        self.nodes[usize::from(n)].perform(line)
    }

    /// A node asks about a line: the request ends the lane to its target. Unchanged on refusal.
    fn ask(&mut self, n: u8, line: u8, kind: AskKind) -> Result<(), ApplyFault>
        requires well { IsWellFormed self.old }
        requires n { n < self.old.size.nodes }
        ensures done { IfOk result
            (λ _. stepping self.old (event.Ask n line kind) ≡ Some self.new) }
        ensures refused { IfErr result
            (IsFaultOf (stepping self.old (event.Ask n line kind)) (event.Ask n line kind)) }
        ensures same { IsErr result → self.new ≡ self.old }
    {
        let Some(request) = self.node(n).asked(line, kind) else {
            return Err(ApplyFault::NotEnabled);
        };
        if let Err(refused) = self.send(LaneKind::Requests, n, &request) {
            return Err(ApplyFault::Memory(refused));
        }
        self.nodes[usize::from(n)].apply_ask(line, kind);
        Ok(())
    }

    /// A node sends the answer that waits: it ends the lane to its target. Unchanged on refusal.
    fn reply(&mut self, n: u8) -> Result<(), ApplyFault>
        requires well { IsWellFormed self.old }
        requires n { n < self.old.size.nodes }
        ensures done { IfOk result (λ _. stepping self.old (event.Reply n) ≡ Some self.new) }
        ensures refused { IfErr result
            (IsFaultOf (stepping self.old (event.Reply n)) (event.Reply n)) }
        ensures same { IsErr result → self.new ≡ self.old }
    {
        let Some(answer) = self.node(n).waiting().copied() else {
            return Err(ApplyFault::NotEnabled);
        };
        if let Err(refused) = self.send(LaneKind::Answers, n, &answer) {
            return Err(ApplyFault::Memory(refused));
        }
        let _answer = self.nodes[usize::from(n)].take_answer();
        Ok(())
    }

    /// A node takes the oldest packet of a lane to it. False, unchanged, if it can't.
    fn take(&mut self, taking: Taking, from: u8, n: u8) -> bool
        requires well { IsWellFormed self.old }
        requires n { n < self.old.size.nodes }
        ensures done { IsTrue result →
            stepping self.old (taking_event taking from n) ≡ Some self.new }
        ensures not { result ≡ false → stepping self.old (taking_event taking from n) ≡ None }
        ensures same { result ≡ false → self.new ≡ self.old }
    {
        let kind = taking.lane_kind();
        if from >= self.nodes() {
            return false;
        }
        let Some(packet) = self.lane(kind, from, n).front().copied() else {
            return false;
        };
        if !self.nodes[usize::from(n)].take(taking, &packet) {
            return false;
        }
        self.drop_front(kind, from, n);
        true
    }
}
