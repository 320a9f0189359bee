//! A machine with the schedule that has led it where it stands.

use crate::fault::RunFault;
use sci_core::{Machine, SubmitFault};
use sci_history::Entry;
use sci_locked::{perform_on, submit_on};
use sci_text::{PushFault, Schedule};
use sci_words::{Event, Extent, Op};
use std::alloc::{AllocError, Global};
use std::marker::Model;

/// The events that have happened, up to the first one that couldn't be recorded.
#[derive(Drop)]
struct Record {
    schedule: Schedule,
    /// Why an event couldn't be recorded.
    lost: Option<RunFault>,
}

impl Record {
    ghost use Rattle.std.specs.Prelude.{◌≡◌, ◌≢◌, ◌≤◌, None, Some, true, false, length};
    ghost use Rattle.sci_words.specs.declared.limits.TheConstants.{MAX_EVENTS};
    ghost use Rattle.sci_text.specs.Schedule.{IsEventWithin, with_event};
    ghost use Rattle.sci_runs.specs.declared.fault.RunFault.{RunFault, TheVariants.{TooMany}};

    /// Records an event of the schedule's machine, unless one was lost before. It is lost if memory is refused, or if there
    /// are 500,000 events already. The answer is whether it was recorded.
    fn push(&mut self, event: Event) -> bool
        requires { IsEventWithin self.old.schedule.nodes self.old.schedule.lines event }
        ensures recorded { result ≡ true → self.new.schedule ≡ with_event self.old.schedule event }
        ensures none { result ≡ true → self.new.lost ≡ None }
        ensures same { result ≡ false → self.new.schedule ≡ self.old.schedule }
        ensures lost { result ≡ false → self.new.lost ≢ None }
        ensures keeps { (fault : RunFault) → self.old.lost ≡ Some fault → self.new.lost ≡ Some fault }
        ensures full { self.old.lost ≡ None → self.new.lost ≡ Some TooMany →
            MAX_EVENTS ≤ length self.old.schedule.events }
    {
        if self.lost.is_some() {
            return false;
        }
        self.lost = match self.schedule.push(event) {
            Ok(()) => None,
            Err(PushFault::Range) => unreachable!(),
            Err(PushFault::TooMany) => Some(RunFault::TooMany),
            Err(PushFault::Memory) => Some(RunFault::Memory),
        };
        self.lost.is_none()
    }
}

/// How a run ended: the schedule of its events, and the machine that they lead to.
#[derive(Drop)]
pub(crate) struct Ended {
    pub(crate) schedule: Schedule,
    pub(crate) machine: Machine,
}

/// A machine, and the events that have led it where it stands, unless one was lost. Contracts see the machine's state, the
/// schedule, and why an event was lost, if one was.
#[derive(Drop)]
pub(crate) struct Recorder {
    machine: Machine,
    events: Record,
}

impl Model for Recorder {
    ghost use Rattle.sci_runs.specs.Recorded.{IsRecorder, RecorderOf};

    ghost Value = { RecorderOf };

    ghost view = { λ recorder. record {
      core = recorder.machine;
      schedule = recorder.events.schedule;
      lost = recorder.events.lost;
    } };

    ghost invariant = { λ recorder. IsRecorder (record {
      core = recorder.machine;
      schedule = recorder.events.schedule;
      lost = recorder.events.lost;
    }) };
}

impl Recorder {
    ghost use Rattle.std.specs.Prelude.{◌≡◌, ◌≢◌, ◌<◌, ◌≤◌, ◌∷◌, ◌++◌, [], Some, None, IfOk, IfErr, IfSome, IsErr, length};
    ghost use Rattle.sci_words.specs.declared.event.Event.TheVariants.{Issue, Perform};
    ghost use Rattle.sci_words.specs.declared.limits.TheConstants.{MAX_EVENTS, MAX_OPERATIONS};
    ghost use Rattle.sci_runs.specs.declared.fault.RunFault.{RunFault, TheVariants.{TooMany}};
    ghost use Rattle.sci_core.specs.{Core.{IsEnabled, node_at, opening, stepping}, Node.{node_performing}, Reached.{IsReached}, Size.{size_of}};
    ghost use Rattle.sci_core.specs.{Obstacles.{submit_fault}, Work.{IsIssued, IsLogged}};
    ghost use Rattle.sci_text.specs.Schedule.{IsSchedule};
    ghost use Rattle.sci_runs.specs.Recorded.{HasLed, IsOfSize, SparesOthers};

    /// A machine of this size in which nothing has happened, whose nodes may issue `limit` operations each. Requires that
    /// this is 1 to 65,536. Refused if memory is.
    pub(crate) fn new(alloc: Global, extent: Extent, limit: u32) -> Result<Recorder, AllocError>
        requires some { 1 ≤ limit }
        requires few { limit ≤ MAX_OPERATIONS }
        ensures opening { IfOk result
            (λ recorder. recorder.core ≡ opening (size_of extent limit)) }
        ensures none { IfOk result (λ recorder. recorder.lost ≡ None) }
        ensures empty { IfOk result (λ recorder. recorder.schedule.events ≡ []) }
    {
        let machine = Machine::new(alloc, extent, limit)?;
        let events = Record {
            schedule: Schedule::new(alloc, extent),
            lost: None,
        };
        Ok(Recorder { machine, events })
    }

    /// An event happens, and is recorded. Requires that it is enabled. Refused, with no event made, if one was lost, or if
    /// this one is.
    pub(crate) fn happen(&mut self, event: &Event) -> Result<(), AllocError>
        requires { IsEnabled self.old.core event.now }
        ensures done { IfOk result
            (λ _. stepping self.old.core event.now ≡ Some self.new.core) }
        ensures recorded { IfOk result
            (λ _. self.new.schedule.events ≡ self.old.schedule.events ++ event.now ∷ []) }
        ensures same { IsErr result →
            (self.new.core ≡ self.old.core) × (self.new.schedule ≡ self.old.schedule) }
        ensures lost { IsErr result → self.new.lost ≢ None }
        ensures keeps { (fault : RunFault) → self.old.lost ≡ Some fault →
            (self.new.lost ≡ Some fault) × (self.new.schedule ≡ self.old.schedule) }
        ensures size { self.new.core.size ≡ self.old.core.size }
    {
        // Read, so that the prover knows that the state is reached.
        let _extent = self.machine.extent();
        if !self.events.push(*event) {
            return Err(AllocError);
        }
        match self.machine.make(event) {
            Ok(()) => Ok(()),
            Err(refused) => {
                let _event = self.events.schedule.pop();
                self.events.lost = Some(RunFault::Memory);
                Err(refused)
            }
        }
    }

    /// Submits an operation at a node, as `submit_on` does, and records its Issue.
    pub(crate) fn submit(&mut self, node: u8, op: Op) -> Result<u32, SubmitFault>
        requires { node < self.old.core.size.nodes }
        ensures issued { IfOk result
            (λ serial. IsIssued (node_at self.old.core node) (node_at self.new.core node) op) }
        ensures event { IfOk result
            (λ serial. stepping self.old.core (Issue node op) ≡ Some self.new.core) }
        ensures recorded { IfOk result (λ serial. self.new.lost ≡ None →
            self.new.schedule.events ≡ self.old.schedule.events ++ Issue node op ∷ []) }
        ensures keeps { (fault : RunFault) → self.old.lost ≡ Some fault → self.new.lost ≡ Some fault }
        ensures stands { (fault : RunFault) → self.new.lost ≡ Some fault →
            self.new.schedule ≡ self.old.schedule }
        ensures serial { IfOk result
            (λ serial. serial ≡ (node_at self.old.core node).issued) }
        ensures fault { IfErr result
            (λ fault. submit_fault (node_at self.old.core node) op ≡ Some fault) }
        ensures same { IsErr result → self.new ≡ self.old }
        ensures spares { SparesOthers node self.old.core self.new.core }
    {
        // Read, so that the prover knows that the state is reached.
        let _extent = self.machine.extent();
        let serial = submit_on(&mut self.machine, node, op)?;
        let _recorded = self.events.push(Event::Issue { node, op });
        Ok(serial)
    }

    /// Performs the operation that is pending on a line at a node, as `perform_on` does, and records the Perform.
    pub(crate) fn perform(&mut self, node: u8, line: u8) -> Option<Entry>
        requires { node < self.old.core.size.nodes }
        ensures performed { IfSome result
            (λ entry. IsLogged (node_at self.old.core node) (node_at self.new.core node) line entry) }
        ensures event { IfSome result
            (λ entry. stepping self.old.core (Perform node line) ≡ Some self.new.core) }
        ensures recorded { IfSome result (λ entry. self.new.lost ≡ None →
            self.new.schedule.events ≡ self.old.schedule.events ++ Perform node line ∷ []) }
        ensures keeps { (fault : RunFault) → self.old.lost ≡ Some fault → self.new.lost ≡ Some fault }
        ensures stands { (fault : RunFault) → self.new.lost ≡ Some fault →
            self.new.schedule ≡ self.old.schedule }
        ensures none { result ≡ None → node_performing (node_at self.old.core node) line ≡ None }
        ensures same { result ≡ None → self.new ≡ self.old }
        ensures spares { SparesOthers node self.old.core self.new.core }
    {
        // Read, so that the prover knows that the state is reached.
        let _extent = self.machine.extent();
        let entry = perform_on(&mut self.machine, node, line)?;
        let _recorded = self.events.push(Event::Perform { node, line });
        Some(entry)
    }

    /// The machine.
    pub(crate) fn machine(&self) -> &Machine
        ensures { result.now ≡ self.now.core }
    {
        &self.machine
    }

    /// Why an event was lost, or None if none was.
    pub(crate) fn lost(&self) -> Option<RunFault>
        ensures lost { result ≡ self.now.lost }
        ensures full { result ≡ Some TooMany → MAX_EVENTS ≤ length self.now.schedule.events }
    {
        self.events.lost
    }

    /// The schedule of all that has happened, and the machine that it leads to. Requires that no event was lost.
    pub(crate) fn finish(self) -> Ended
        requires { self.lost ≡ None }
        ensures schedule { result.schedule ≡ self.schedule }
        ensures machine { result.machine ≡ self.core }
        ensures good { IsSchedule result.schedule }
        ensures reached { IsReached self.core }
        ensures led { HasLed result.schedule.events self.core }
        ensures sized { IsOfSize self.core.size result.schedule }
    {
        // Read, so that the prover knows that the schedule is one, and that the state is reached.
        let _events = self.events.schedule.events();
        let _extent = self.machine.extent();
        Ended {
            schedule: self.events.schedule,
            machine: self.machine,
        }
    }
}
