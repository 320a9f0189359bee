//! The machine that threads share under one lock.

use crate::lent::{perform_on, submit_on};
use crate::turn::turn_on;
use sci_core::{Machine, reached_states_are_coherent};
use sci_history::Entry;
use sci_policy::{Policy, Progress, SubmitFault};
use sci_words::{MAX_NODES, Op};
use std::alloc::AllocError;
use std::array;
use std::sync::{Mutex, Wait};

const NODES: usize = MAX_NODES as usize;

/// A machine and its nodes' policies, shared by threads under one lock. Whenever the lock is free, the machine is in a
/// state that some schedule leads to: its type says so. What a call found or did while it had the lock is promised of the
/// forms on the machine lent alone.
#[derive(Drop)]
pub struct Shared {
    desk: Mutex<Desk>,
}

/// What the lock keeps: the machine, and for each node its policy.
#[derive(Drop)]
struct Desk {
    machine: Machine,
    policies: [Policy; NODES],
}

impl Shared {
    ghost use Rattle.sci_core.specs.Coherent.{IsCoherent};

    /// Shares a machine whose nodes have taken no turn yet. From a new machine, and after `Machine::drain`, turns go on; from
    /// some other states that events lead to, they never do (`turn_on`).
    pub fn new(machine: Machine) -> Shared {
        let policies = array::from_fn(|_node| Policy::new());
        Shared {
            desk: Mutex::new(Desk { machine, policies }),
        }
    }

    /// Submits an operation at a node, as `submit_on` does. At a node that isn't there it is refused with NoSuchLine.
    pub fn submit(&self, rt: &impl Wait, node: u8, op: Op) -> Result<u32, SubmitFault> {
        let mut desk = self.desk.lock(rt);
        let desk = &mut *desk;
        if node >= desk.machine.extent().nodes {
            return Err(SubmitFault::NoSuchLine);
        }
        submit_on(&mut desk.machine, node, op)
    }

    /// Performs the operation that is pending on a line at a node, as `perform_on` does. None at a node that isn't there.
    pub fn perform(&self, rt: &impl Wait, node: u8, line: u8) -> Option<Entry> {
        let mut desk = self.desk.lock(rt);
        let desk = &mut *desk;
        if node >= desk.machine.extent().nodes {
            return None;
        }
        perform_on(&mut desk.machine, node, line)
    }

    /// Takes a turn of a node, as `turn_on` does. Nothing is done at a node that isn't there.
    pub fn turn(&self, rt: &impl Wait, node: u8) -> Result<Progress, AllocError> {
        let mut desk = self.desk.lock(rt);
        let desk = &mut *desk;
        if node >= desk.machine.extent().nodes {
            return Ok(Progress::new());
        }
        let policy = &mut desk.policies[usize::from(node)];
        turn_on(&mut desk.machine, policy, node)
    }

    /// The machine, in the state that the calls have led to: some schedule leads there.
    pub fn finish(self) -> Machine
        ensures { IsCoherent result }
    {
        let machine = self.desk.into_inner().machine;
        // What the law says of every reached state holds of this one.
        let _extent = machine.extent();
        reached_states_are_coherent();
        machine
    }
}
