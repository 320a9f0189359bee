//! A script that is being driven, a round at a time.

use crate::gate::Gate;
use arrayvec::ArrayVec;
use sci_policy::{Progress, Worker};
use sci_words::Op;
use std::alloc::AllocError;
use std::marker::Model;

/// How many operations of a script are pending at most.
const WINDOW: usize = 4;

/// When the operations of a script are submitted.
#[derive(Clone, Copy, Debug, PartialEq, Eq)]
pub enum Issuing {
    /// Up to four at once, each on another line. They may be performed in another order than the script's.
    Ahead,
    /// Each when all before it are performed. So the log stands in the order of the script.
    InOrder,
}

/// A script that is being driven. Contracts see the script, when its operations are submitted, how many of them were, the
/// lines on which one is pending, and whether the gate has heard that the whole script is answered.
#[derive(Drop)]
pub struct Driver<'a> {
    script: &'a [Op],
    issuing: Issuing,
    next: usize,
    // the lines on which an operation is pending, by serial
    pending: ArrayVec<u8, WINDOW>,
    pub(crate) was_done: bool,
}

impl<'a> Model for Driver<'a> {
    ghost use Rattle.std.specs.Prelude.{◌≡◌, ◌≤◌, [], length, true};
    ghost use Rattle.sci_words.specs.declared.limits.TheConstants.{MAX_OPERATIONS};
    ghost use Rattle.sci_drive.specs.Driving.{DriverOf};

    ghost Value = { DriverOf };

    ghost view = { λ driver. record {
      script = driver.script.now;
      issuing = driver.issuing;
      next = driver.next;
      pending = driver.pending.items;
      was_done = driver.was_done;
    } };

    ghost invariant = { λ driver. (length driver.script.now ≤ MAX_OPERATIONS)
        × (driver.was_done ≡ true →
        (driver.next ≡ length driver.script.now) × (driver.pending.items ≡ [])) };
}

/// What a round did.
#[derive(Clone, Copy, Debug, PartialEq, Eq)]
pub struct Round {
    /// Whether an operation was answered.
    pub answered: bool,
    /// What the worker's turn did.
    pub progress: Progress,
}

impl<'a> Driver<'a> {
    ghost use Rattle.std.specs.{Prelude.{◌≡◌, ◌<◌, ◌≤◌, ◌↔◌, ℕ, List, true, false, [], IfOk, length, map}, List.{Contains}};
    ghost use Rattle.sci_history.specs.declared.entry.Entry.{Entry};
    ghost use Rattle.sci_policy.specs.{Deeds.{Deed}, Rest.{MayIdle}, Turn.{is_idle}};
    ghost use Rattle.sci_words.specs.declared.limits.TheConstants.{MAX_OPERATIONS};
    ghost use Rattle.sci_drive.specs.{Calls.{Answered, Call, HasHeard}, Driving.{IsAnswered, IsDriven, IsInOrder, opening_driver}};
    ghost use Rattle.sci_drive.specs.Rounds.{ArePerformed, IsDrivenRound, HasDone, IsTried, Submits, most_pending, performed};

    /// A driver that has submitted nothing yet. Requires that the script has at most 65,536 operations.
    pub fn new(script: &'a [Op], issuing: Issuing) -> Driver<'a>
        requires few { length script.now ≤ MAX_OPERATIONS }
        ensures { result ≡ opening_driver script.now issuing }
    {
        Driver {
            script,
            issuing,
            next: 0,
            pending: ArrayVec::new(),
            was_done: false,
        }
    }

    /// Whether each operation of the script has its entry.
    pub fn is_answered(&self) -> bool
        ensures { (result ≡ true) ↔ IsAnswered self.now }
    {
        self.next == self.script.len() && self.pending.is_empty()
    }

    /// Does one round:
    ///
    /// - submits the next operation if the gate allows it and none is pending, or, if it issues ahead, fewer than four
    ///   are, none of them on its line;
    /// - performs what can be performed, by serial, and reports each entry to the gate;
    /// - takes one turn;
    /// - the first time that the whole script is answered, reports to the gate that it is done.
    ///
    /// It gives whether an operation was answered, and what the turn did. Requires that the worker is the
    /// one that this driver has driven. Refused if the worker's turn is.
    pub fn round<W: Worker, G: Gate>(
        &mut self,
        worker: &mut W,
        gate: &mut G,
    ) -> Result<Round, AllocError>
        requires driven { IsDriven self.old (W.node worker.old) }
        ensures driven { IsDriven self.new (W.node worker.new) }
        ensures order { IsInOrder self.old (W.node worker.old) →
            IsInOrder self.new (W.node worker.new) }
        ensures answered { IfOk result (λ round. round.answered ≡ true →
            length (W.node worker.old).log < length (W.node worker.new).log) }
        ensures none { IfOk result (λ round. round.answered ≡ false →
            (W.node worker.new).log ≡ (W.node worker.old).log) }
        ensures goes { (deeds : List Deed) × IsDrivenRound G.hears deeds gate.old gate.new
            self.old self.new (W.node worker.old) (W.node worker.new) result
            × HasDone W.does W.stopped deeds worker.old worker.new result }
        ensures rest { IfOk result (λ round.
            is_idle round.progress ≡ true → MayIdle (W.node worker.new)) }
        ensures script { self.new.script ≡ self.old.script }
        ensures issuing { self.new.issuing ≡ self.old.issuing }
        ensures stays { W.stays worker.old worker.new }
    {
        self.submit(worker, gate);
        let answered = self.perform(worker, gate);
        let progress = worker.turn()?;
        if self.is_answered() && !self.was_done {
            self.was_done = true;
            gate.done();
        }
        Ok(Round { answered, progress })
    }

    /// Whether one more operation may be pending.
    fn has_room(&self) -> bool
        ensures { (result ≡ true) ↔
            (length self.now.pending < most_pending self.now.issuing) }
    {
        match self.issuing {
            Issuing::Ahead => !self.pending.is_full(),
            Issuing::InOrder => self.pending.is_empty(),
        }
    }

    /// Submits the next operation if it may be.
    fn submit<W: Worker, G: Gate>(&mut self, worker: &mut W, gate: &mut G)
        requires driven { IsDriven self.old (W.node worker.old) }
        ensures driven { IsDriven self.new (W.node worker.new) }
        ensures order { IsInOrder self.old (W.node worker.old) →
            IsInOrder self.new (W.node worker.new) }
        ensures log { (W.node worker.new).log ≡ (W.node worker.old).log }
        ensures submits { (calls : List Call) × (deeds : List Deed)
            × Submits self.old self.new (W.node worker.old) (W.node worker.new) calls deeds
            × HasHeard G.hears gate.old gate.new
            self.old self.new (W.node worker.old) (W.node worker.new) calls
            × W.does worker.old deeds worker.new }
        ensures told { self.new.was_done ≡ self.old.was_done }
        ensures script { self.new.script ≡ self.old.script }
        ensures issuing { self.new.issuing ≡ self.old.issuing }
        ensures stays { W.stays worker.old worker.new }
    {
        if !self.has_room() {
            return;
        }
        let Some(op) = self.script.get(self.next) else {
            return;
        };
        if self.pending.contains(&op.line) {
            return;
        }
        if !gate.may_issue(self.next as u32) {
            return;
        }
        if let Ok(_serial) = worker.submit(*op) {
            self.pending.push(op.line);
            self.next += 1;
        }
    }

    /// Performs what can be performed. Whether an operation was answered.
    fn perform<W: Worker, G: Gate>(&mut self, worker: &mut W, gate: &mut G) -> bool
        requires driven { IsDriven self.old (W.node worker.old) }
        ensures driven { IsDriven self.new (W.node worker.new) }
        ensures order { IsInOrder self.old (W.node worker.old) →
            IsInOrder self.new (W.node worker.new) }
        ensures answered { result ≡ true →
            length (W.node worker.old).log < length (W.node worker.new).log }
        ensures none { result ≡ false → (W.node worker.new).log ≡ (W.node worker.old).log }
        ensures performed { (entries : List Entry)
            × ArePerformed (W.node worker.old) entries (W.node worker.new)
            × HasHeard G.hears gate.old gate.new
            self.old self.new (W.node worker.old) (W.node worker.new) (map Answered entries)
            × W.does worker.old (map performed entries) worker.new }
        ensures told { self.new.was_done ≡ self.old.was_done }
        ensures tried { (line : ℕ) → Contains self.new.pending line →
            IsTried line (W.node worker.old) (W.node worker.new) }
        ensures script { self.new.script ≡ self.old.script }
        ensures issuing { self.new.issuing ≡ self.old.issuing }
        ensures stays { W.stays worker.old worker.new }
    {
        let mut answered = false;
        let mut place = 0;
        while place < self.pending.len() {
            match worker.perform(self.pending[place]) {
                Some(entry) => {
                    self.pending.remove(place);
                    gate.answered(&entry);
                    answered = true;
                }
                None => place += 1,
            }
        }
        answered
    }
}
