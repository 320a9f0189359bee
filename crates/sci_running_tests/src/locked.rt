//! A machine that is shared under a lock.

ghost use Rattle.std.specs.Prelude.{IfOk, length};
ghost use Rattle.sci_history.specs.Audit.{AreWithin};

use crate::nodes::Nodes;
use sci_core::Machine;
use sci_history::{Entry, Verdict, audit};
use sci_locked::Shared;
use sci_policy::{Progress, SubmitFault};
use sci_text::logs_text;
use sci_words::{Extent, Op};
use std::alloc::Global;
use std::sync::Wait;
use std::test::*;

/// A machine that is shared under a lock, and the handle by which a call may wait for the lock.
#[derive(Drop)]
pub(crate) struct Locked<'a, W> {
    rt: &'a W,
    shared: Shared,
    nodes: u8,
}

impl<'a, W: Wait> Locked<'a, W> {
    /// A machine of this size, in which nothing was done yet. Each node may submit `limit` operations, or 65,536 if that
    /// is less.
    pub(crate) fn of(
        rt: &'a W,
        alloc: Global,
        size: (u8, u8, u8),
        limit: u32,
    ) -> Result<Locked<'a, W>, Fail> {
        let extent = Extent::new(size.0, size.1, size.2).ok_or("an extent")?;
        let machine = Machine::new(alloc, extent, limit.clamp(1, 65_536))?;
        Ok(Locked {
            rt,
            shared: Shared::new(machine),
            nodes: extent.nodes,
        })
    }
}

impl<W: Wait> Nodes for Locked<'_, W> {
    fn submit(&mut self, node: u8, op: Op) -> Result<Result<u32, SubmitFault>, Fail> {
        Ok(self.shared.submit(self.rt, node, op))
    }

    fn perform(&mut self, node: u8, line: u8) -> Result<Option<Entry>, Fail> {
        Ok(self.shared.perform(self.rt, node, line))
    }

    fn turn(&mut self, node: u8) -> Result<Progress, Fail> {
        Ok(self.shared.turn(self.rt, node)?)
    }

    fn turn_within(&mut self, _node: u8, _most: u32) -> Result<(Progress, u32), Fail> {
        Err(Fail::from("steps, which a turn under a lock doesn't count"))
    }

    fn finish(self, alloc: Global) -> Result<(Verdict, Vec<u8>), Fail> {
        let machine = self.shared.finish();
        let logs = machine.logs(alloc)?;
        let last = machine.last();
        let verdict = audit(alloc, &logs, &last)?;
        let text = logs_text(alloc, self.nodes, &logs, &last)?;
        Ok((verdict, text))
    }
}
