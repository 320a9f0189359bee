//! A worker does a processor's operations: submits them, performs them, and takes turns in between.

use crate::progress::Progress;
use sci_core::SubmitFault;
use sci_history::Entry;
use sci_words::Op;
use std::alloc::AllocError;

/// A worker does a processor's operations. It keeps its own pending operations and its log, and numbers what it submits
/// from 0. No call waits for another thread.
///
/// Submit, then perform what can be performed, and then take a turn, again and again, as a round of `sci_drive` does. A
/// caller has to perform what a turn calls ready: until then the node asks for nothing. One that always has one more store
/// to a line doesn't keep it from other nodes, whether it submits before it performs or after: in the one turn of 64 in
/// which requests are let go, a Head that was used is given to the next node that asks.
pub trait Worker {
    ghost use Rattle.std.specs.Prelude.{◌≡◌, ◌++◌, true, List, [], ◌∷◌, Some, None, IfOk, IfErr, IfSome, IsErr};
    ghost use Rattle.sci_core.specs.{Node.{NodeOf, node_performing}, Obstacles.{submit_fault}, Work.{IsIssued, IsLogged}};
    ghost use Rattle.sci_policy.specs.{Deeds.{Deed, Issues, Performs, Turns}, Rest.{MayIdle}, Turn.{is_idle}, Worker.{HasSameWork, IsNodeTurn}};

    ghost node: { Self → NodeOf };

    // What no call changes of a worker: the machine that it is part of, and its place there.
    ghost stays: { Self → Self → Type 0 };

    // Whether these deeds, one after another, lead the worker from one state to another.
    ghost does: { Self → List Deed → Self → Type 0 };

    // What a turn that was refused has done to the worker.
    ghost stopped: { Self → Self → Type 0 };

    /// Submits an operation, and gives its serial. Refused, unchanged, with the first of `SubmitFault`'s causes that
    /// holds.
    fn submit(&mut self, op: Op) -> Result<u32, SubmitFault>
        ensures issued { IfOk result (λ serial. IsIssued (node self.old) (node self.new) op) }
        ensures serial { IfOk result (λ serial. serial ≡ (node self.old).issued) }
        ensures fault { IfErr result (λ fault. submit_fault (node self.old) op ≡ Some fault) }
        ensures same { IsErr result → node self.new ≡ node self.old }
        ensures does { IfOk result (λ serial. does self.old (Issues op ∷ []) self.new) }
        ensures idle { IsErr result → does self.old [] self.new }
        ensures stays { stays self.old self.new };

    /// Performs the operation that is pending on a line, and gives its entry, which now ends the log. None only if none
    /// is pending there or it can't be performed yet, and then the work is the same.
    fn perform(&mut self, line: u8) -> Option<Entry>
        ensures performed { IfSome result
            (λ entry. IsLogged (node self.old) (node self.new) line entry) }
        ensures none { result ≡ None → node_performing (node self.old) line ≡ None }
        ensures same { result ≡ None → node self.new ≡ node self.old }
        ensures does { IfSome result (λ entry. does self.old (Performs line entry ∷ []) self.new) }
        ensures idle { result ≡ None → does self.old [] self.new }
        ensures stays { stays self.old self.new };

    /// Takes a turn: takes what others sent, and sends what comes next. No operation is submitted or performed by it.
    /// Its report counts its events, and a line that it calls ready has an operation that can be performed. It reports
    /// nothing only if nothing is pending, or there are other nodes and some line awaits an answer. Refused if memory
    /// is.
    fn turn(&mut self) -> Result<Progress, AllocError>
        ensures turn { IfOk result (IsNodeTurn (node self.old) (node self.new)) }
        ensures rest { IfOk result (λ progress. is_idle progress ≡ true → MayIdle (node self.new)) }
        ensures work { HasSameWork (node self.old) (node self.new) }
        ensures does { IfOk result (λ progress. does self.old (Turns progress ∷ []) self.new) }
        ensures stopped { IsErr result → stopped self.old self.new }
        ensures stays { stays self.old self.new };

    ghost stays_itself: { (x : Self) → stays x x };

    ghost stays_through: { (x y z : Self) → stays x y → stays y z → stays x z };

    ghost does_nothing: { (x : Self) → does x [] x };

    ghost does_on: { (x y z : Self) (deeds more : List Deed) → does x deeds y → does y more z →
        does x (deeds ++ more) z };
}
