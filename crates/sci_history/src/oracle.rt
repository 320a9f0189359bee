//! One memory of one thread that does operations in the order given, and logs them.

ghost use Rattle.std.specs.Prelude.{◌≡◌, ◌≤◌, ◌<◌, ◌==◌, ℕ, All, IfOk, count_by};
ghost use Rattle.sci_words.specs.declared.limits.TheConstants.{MAX_LINES, MAX_OPERATIONS};
ghost use Rattle.sci_history.specs.{Lawful.{Lawful}, Oracle.{IsInRange, oracle_last, oracle_logs}};

use crate::entry::Entry;
use crate::last::Last;
use crate::logs::{Logs, PushFault};
use crate::memory::Memory;
use sci_words::{MAX_LINES, MAX_OPERATIONS, Op};
use std::alloc::{AllocError, Global};

/// Does operations, each with the node that issues it, on a memory of that many lines, and answers their logs and
/// the last contents. Refused only if a log couldn't grow. Requires that there are 1 to 64 lines,
/// that nodes are below 16, lines and words in range, and that no node has more than 65,536 operations.
pub fn run_oracle(alloc: Global, lines: u8, script: &[(u8, Op)]) -> Result<(Logs, Last), AllocError>
    requires some { 1 ≤ lines }
    requires few { lines ≤ MAX_LINES }
    requires in_range { All (IsInRange lines) script.now }
    requires room { (node : ℕ) → count_by (λ issue. issue.0 == node) script.now ≤ MAX_OPERATIONS }
    ensures logs { IfOk result (λ ran. ran.0 ≡ oracle_logs lines script.now) }
    ensures last { IfOk result (λ ran. ran.1 ≡ oracle_last lines script.now) }
    ensures lawful { IfOk result (λ ran. Lawful ran.0 ran.1) }
{
    let mut memory = Memory::new(lines);
    let mut logs = Logs::new(alloc);
    for (node, op) in script {
        let (reply, version) = memory.do_op(*op);
        let serial = logs.of(*node).len() as u32;
        let entry = Entry {
            node: *node,
            serial,
            op: *op,
            reply,
            version,
        };
        match logs.push(entry) {
            Ok(()) => {}
            Err(PushFault::Full) => unreachable!(),
            Err(PushFault::Memory(error)) => return Err(error),
        }
    }
    Ok((logs, memory.last()))
}
