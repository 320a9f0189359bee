//! A run of the machine.

ghost use Rattle.std.specs.Prelude.{IfOk, length};
ghost use Rattle.sci_history.specs.{Audit.{AreWithin}, Lawful.{Lawful}, Sequential.{IsSequentiallyConsistent}};

use crate::counting::addition;
use sci_core::Machine;
use sci_history::{Last, Logs};
use sci_words::Extent;
use std::alloc::{AllocError, Global};

/// The logs and the last contents of a machine of this size, in which each node has added 1 to word 0 of each line. They are
/// lawful, and sequentially consistent. Refused if memory is.
pub fn ran(alloc: Global, extent: Extent) -> Result<(Logs, Last), AllocError>
    ensures within { IfOk result (λ ran. AreWithin (length ran.1) ran.0) }
    ensures lawful { IfOk result (λ ran. Lawful ran.0 ran.1) }
    ensures consistent { IfOk result (λ ran. IsSequentiallyConsistent ran.0 ran.1) }
{
    let mut machine = Machine::new(alloc, extent, u32::from(extent.lines))?;
    for node in 0..extent.nodes {
        for line in 0..extent.lines {
            machine.run(&[addition(node, line)])?;
        }
    }
    let _events = machine.settle()?;
    let logs = machine.logs(alloc)?;
    Ok((logs, machine.last()))
}
