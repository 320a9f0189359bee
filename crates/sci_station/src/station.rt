//! A station: a node that runs by itself.

use crate::post::StationPost;
use sci_history::Entry;
use sci_lanes::{HasEnd, LaneEnd};
use sci_policy::{Policy, Progress, SubmitFault};
use sci_turn::take_turn;
use sci_words::Op;
use std::marker::Model;

/// A node of a machine, with its end of the lanes and its policy. Its owner runs it, in any thread: no call waits for
/// another, or takes memory. Contracts see its end and what its policy remembers.
#[derive(Drop)]
pub struct Station {
    post: StationPost,
    policy: Policy,
}

impl Model for Station {
    ghost use Rattle.sci_station.specs.Station.{StationOf};

    ghost Value = { StationOf };

    ghost view = { λ station. record { end = station.post.end; policy = station.policy } };
}

impl HasEnd for Station {
    ghost end_of = { λ station. station.end };

    fn end(&self) -> &LaneEnd {
        self.post.end()
    }

    fn into_end(self) -> LaneEnd {
        self.post.into_end()
    }
}

impl Station {
    ghost use Rattle.std.specs.Prelude.{◌≡◌, ◌<◌, ◌≤◌, ◌⊎◌, [], true, Some, None, IfErr, IfOk, IfSome, IsErr, IsOk};
    ghost use Rattle.sci_core.specs.{Node.{node_issuing, node_performing}, Obstacles.{submit_fault}, Work.{IsIssued, IsLogged}};
    ghost use Rattle.sci_policy.specs.{Rest.{MayIdle}, Turn.{MayPerform, is_idle}};
    ghost use Rattle.sci_policy.specs.Worker.{HasSameWork, IsNodeTurn};
    ghost use Rattle.sci_words.specs.declared.event.Event.TheVariants.{Issue, Perform};
    ghost use Rattle.sci_lanes.specs.{Shown.{me_of}, Telling.{IsMade}};
    ghost use Rattle.sci_turn.specs.{Idle.{IsIdleTurn}, Moves.{IsTurn}, Whole.{IsWholeTurn}};
    ghost use Rattle.sci_station.specs.{Ends.{IsSameEnd}, Posts.{post_of}, OneLog.{IsOneLog}};
    ghost use Rattle.sci_station.specs.Station.{beaten_to, node_in, opening_station, schedule_in};

    /// The station of an end in whose machine nothing was done yet.
    pub(crate) fn new(end: LaneEnd) -> Station
        requires { end.part.schedule ≡ [] }
        ensures { result ≡ opening_station end }
    {
        Station {
            post: StationPost::new(end),
            policy: Policy::new(),
        }
    }

    /// Submits an operation, and gives its serial: the count of operations submitted before. Refused, unchanged, with the
    /// first of `SubmitFault`'s causes that holds.
    pub fn submit(&mut self, op: Op) -> Result<u32, SubmitFault>
        ensures issued { IfOk result
            (λ serial. node_issuing (node_in self.old) op ≡ Some (node_in self.new)) }
        ensures serial { IfOk result (λ serial. serial ≡ (node_in self.old).issued) }
        ensures pending { IfOk result
            (λ serial. IsIssued (node_in self.old) (node_in self.new) op) }
        ensures may { IsOk result → submit_fault (node_in self.old) op ≡ None }
        ensures made { IfOk result (λ serial.
            IsMade self.old.end.part (Issue (me_of self.old.end.part) op) (schedule_in self.new)) }
        ensures fault { IfErr result
            (λ fault. submit_fault (node_in self.old) op ≡ Some fault) }
        ensures beaten { self.new ≡ beaten_to (schedule_in self.new) (node_in self.new) self.old }
        ensures same { IsErr result → self.new ≡ self.old }
        ensures end { IsSameEnd self.old.end self.new.end }
    {
        match self.post.issue(op) {
            Some(serial) => Ok(serial),
            None => Err(SubmitFault::of(self.post.end().node(), &op)),
        }
    }

    /// Performs the operation that is pending on a line, and gives its entry, which now ends the log. None, unchanged, if
    /// none is pending there or the line's state doesn't allow it.
    pub fn perform(&mut self, line: u8) -> Option<Entry>
        ensures performed { IfSome result (λ entry.
            node_performing (node_in self.old) line ≡ Some (node_in self.new, entry)) }
        ensures logged { IfSome result
            (λ entry. IsLogged (node_in self.old) (node_in self.new) line entry) }
        ensures none { result ≡ None → node_performing (node_in self.old) line ≡ None }
        ensures made { IfSome result (λ entry.
            IsMade self.old.end.part (Perform (me_of self.old.end.part) line) (schedule_in self.new)) }
        ensures beaten { self.new ≡ beaten_to (schedule_in self.new) (node_in self.new) self.old }
        ensures same { result ≡ None → self.new ≡ self.old }
        ensures end { IsSameEnd self.old.end self.new.end }
    {
        self.post.perform(line)
    }

    /// Takes a turn. It sends the answer that waits; accepts up to four answers from each node; serves or refuses up to
    /// four requests from each node, beginning after the one served last, and sends each answer; and asks up to four times
    /// what the policy wants. A request that the policy keeps stays where it is, to be decided again in a later turn.
    ///
    /// - Each event is the node's own, enabled when it comes. The policy counts the turn, decides each request that is
    ///   taken, and wants each ask.
    /// - The report counts the events. A line that it names has an operation that can be performed.
    /// - It is whole: each step goes as far as it can, in this order. From a node fewer than four answers are accepted only
    ///   if no more have come, and fewer than four requests are taken only if no more have come, the next one is kept, or an
    ///   answer waits that found its lane full. It ends after four asks, at a line that can be performed, when the policy
    ///   wants no more, or at a full lane.
    /// - Nothing is reported only if there was nothing to do: from no node an answer had come, and each request that had
    ///   come is kept, or an answer waits that found its lane full. Then no operation is pending, or there are other
    ///   nodes and some line awaits an answer.
    pub fn turn(&mut self) -> Progress
        ensures turn { IsTurn self.old.policy (post_of self.old.end)
            self.new.policy (post_of self.new.end) result }
        ensures whole { IsWholeTurn self.old.policy (post_of self.old.end)
            self.new.policy (post_of self.new.end) result }
        ensures ready { MayPerform (node_in self.new) result.ready }
        ensures node { IsNodeTurn (node_in self.old) (node_in self.new) result }
        ensures idle { is_idle result ≡ true → IsIdleTurn self.old.policy (post_of self.old.end)
            self.new.policy (post_of self.new.end) }
        ensures work { HasSameWork (node_in self.old) (node_in self.new) }
        ensures rest { is_idle result ≡ true → MayIdle (node_in self.new) }
        ensures end { IsSameEnd self.old.end self.new.end }
    {
        let mut progress = Progress::new();
        self.post.allow(None);
        match take_turn(&mut self.post, &mut self.policy, &mut progress) {
            Ok(()) => {}
            Err(_) => unreachable!(),
        }
        // Read, so that the prover knows that the node is one of a state.
        let _left = self.post.left();
        progress
    }

    /// Takes a turn that stops before it would make more than `steps` steps on words of the table, and gives how many it
    /// made. If it made fewer, it is a whole turn, as `turn` takes. What it didn't come to is not reported. A packet that was
    /// partly sent or partly read is begun again in a later turn.
    pub fn turn_within(&mut self, steps: u32) -> (Progress, u32)
        ensures turn { IsTurn self.old.policy (post_of self.old.end)
            self.new.policy (post_of self.new.end) result.0 }
        ensures ready { MayPerform (node_in self.new) result.0.ready }
        ensures node { IsNodeTurn (node_in self.old) (node_in self.new) result.0 }
        ensures work { HasSameWork (node_in self.old) (node_in self.new) }
        ensures steps { result.1 ≤ steps }
        ensures whole { IsWholeTurn self.old.policy (post_of self.old.end)
            self.new.policy (post_of self.new.end) result.0 ⊎ (result.1 ≡ steps) }
        ensures end { IsSameEnd self.old.end self.new.end }
    {
        let mut progress = Progress::new();
        self.post.allow(Some(steps));
        let _ended = take_turn(&mut self.post, &mut self.policy, &mut progress);
        match self.post.left() {
            Some(left) => (progress, steps - left),
            None => unreachable!(),
        }
    }

    /// The entries of the operations performed so far, in their order. On each line serials rise, versions don't fall, and
    /// the version of a maker is above all before it.
    pub fn log(&self) -> &[Entry]
        ensures log { result.now ≡ (node_in self.now).log }
        ensures one { IsOneLog result.now }
    {
        self.post.end().node().log()
    }

    /// The node's number.
    pub fn me(&self) -> u8
        ensures { result ≡ me_of self.now.end.part }
    {
        self.post.end().me()
    }
}
