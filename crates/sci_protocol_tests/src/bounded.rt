//! A machine that answers nothing about nodes and lines that it lacks.

ghost use Rattle.std.specs.Prelude.{◌≤◌};
ghost use Rattle.sci_words.specs.declared.limits.TheConstants.{MAX_OPERATIONS};

use sci_cache::Held;
use sci_core::{ApplyFault, LaneKind, Machine, Obstacle, Pending};
use sci_history::{Entry, Last};
use sci_home::Home;
use sci_packets::Packet;
use sci_text::{Schedule, logs_text};
use sci_words::{Event, Extent, Stamped};
use std::alloc::Global;
use std::test::*;

/// A machine that is asked by tests.
#[derive(Drop)]
pub struct Bounded {
    machine: Machine,
}

impl Bounded {
    /// The machine of a size before any event, each node of which may issue `limit` operations.
    pub fn new(alloc: Global, extent: Extent, limit: u32) -> Result<Bounded, Fail>
        requires some { 1 ≤ limit }
        requires few { limit ≤ MAX_OPERATIONS }
    {
        Ok(Bounded {
            machine: Machine::new(alloc, extent, limit)?,
        })
    }

    /// A copy of the machine.
    pub fn copy(&self, alloc: Global) -> Result<Bounded, Fail> {
        Ok(Bounded {
            machine: self.machine.try_clone(alloc)?,
        })
    }

    /// Applies the events of a schedule that are enabled.
    pub fn run(&mut self, schedule: &Schedule) -> Result<(), Fail> {
        Ok(self.machine.run(schedule.events())?)
    }

    /// Applies an event, and gives whether it was enabled.
    pub fn apply(&mut self, event: &Event) -> Result<bool, Fail> {
        match self.machine.apply(event) {
            Ok(()) => Ok(true),
            Err(ApplyFault::NotEnabled) => Ok(false),
            Err(ApplyFault::Memory(refused)) => Err(Fail::from(refused)),
        }
    }

    /// Why an event isn't enabled, or None if it is.
    pub fn obstacle_to(&self, event: &Event) -> Option<Obstacle> {
        self.machine.obstacle_to(event)
    }

    /// Brings the machine to rest, and gives how many events that took.
    pub fn settle(&mut self) -> Result<u32, Fail> {
        Ok(self.machine.settle()?)
    }

    /// Performs the operation that is pending at a node on a line before any other, and gives its entry.
    pub fn perform_next(&mut self, node: u8, line: u8) -> Result<Entry, Fail> {
        let extent = self.machine.extent();
        if node >= extent.nodes || line >= extent.lines {
            return Err(Fail::from("no such node or line"));
        }
        if self.machine.node(node).pending(line).is_none() {
            return Err(Fail::from("nothing is pending"));
        }
        Ok(self.machine.perform_next(node, line)?)
    }

    /// Takes all packets that are under way, and gives how many events that took.
    pub fn drain(&mut self) -> Result<u32, Fail> {
        Ok(self.machine.drain()?)
    }

    /// The sharing list of a line.
    pub fn sharing_list(&self, alloc: Global, line: u8) -> Result<Vec<u8>, Fail> {
        if line >= self.machine.extent().lines {
            return Err(Fail::from("no such line"));
        }
        Ok(self.machine.sharing_list(alloc, line)?)
    }

    /// The node that may change a line or is about to.
    pub fn authority(&self, line: u8) -> Option<u8> {
        if line >= self.machine.extent().lines {
            return None;
        }
        self.machine.authority(line)
    }

    /// The last contents of a line.
    pub fn last_contents(&self, line: u8) -> Option<Stamped> {
        if line >= self.machine.extent().lines {
            return None;
        }
        Some(self.machine.last_contents(line))
    }

    /// The state of a line at a node.
    pub fn held(&self, n: u8, line: u8) -> Option<&Held> {
        if n >= self.machine.extent().nodes {
            return None;
        }
        let node = self.machine.node(n);
        if line >= node.extent().lines {
            return None;
        }
        Some(node.held(line))
    }

    /// The home of a line.
    pub fn home(&self, line: u8) -> Option<&Home> {
        let node = self.machine.node(line % self.machine.extent().nodes);
        if line >= node.extent().lines {
            return None;
        }
        node.home(line)
    }

    /// The operation that is pending on a line at a node.
    pub fn pending(&self, n: u8, line: u8) -> Option<Pending> {
        if n >= self.machine.extent().nodes {
            return None;
        }
        self.machine.node(n).pending(line)
    }

    /// The answer that waits at a node.
    pub fn waiting(&self, n: u8) -> Option<Packet> {
        if n >= self.machine.extent().nodes {
            return None;
        }
        self.machine.node(n).waiting().copied()
    }

    /// How many entries a node's log has.
    pub fn entries(&self, n: u8) -> usize {
        if n >= self.machine.extent().nodes {
            return 0;
        }
        self.machine.node(n).log().len()
    }

    /// The oldest packet of a lane.
    pub fn front(&self, kind: LaneKind, from: u8, to: u8) -> Option<&Packet> {
        let nodes = self.machine.extent().nodes;
        if from >= nodes || to >= nodes {
            return None;
        }
        self.machine.front(kind, from, to)
    }

    /// How many packets a lane has.
    pub fn count(&self, kind: LaneKind, from: u8, to: u8) -> usize {
        let nodes = self.machine.extent().nodes;
        if from >= nodes || to >= nodes {
            return 0;
        }
        self.machine.count(kind, from, to)
    }

    /// The network brings the packet at a place of a lane before the others.
    pub fn bring_forward(&mut self, kind: LaneKind, from: u8, to: u8, place: u8) {
        let nodes = self.machine.extent().nodes;
        if from < nodes && to < nodes {
            self.machine
                .bring_forward(kind, from, to, usize::from(place));
        }
    }

    /// The last contents of each line.
    pub fn last(&self) -> Last {
        self.machine.last()
    }

    /// The text of the logs and the last contents.
    pub fn text(&self, alloc: Global) -> Result<Vec<u8>, Fail> {
        let logs = self.machine.logs(alloc)?;
        Ok(logs_text(
            alloc,
            self.machine.extent().nodes,
            &logs,
            &self.machine.last(),
        )?)
    }
}
