//! Entries by their lines.

ghost use Rattle.std.specs.Prelude.{◌≡◌, ◌<◌, ◌++◌, ℕ, All, OnOk, IfOk, length, filter, slice_index_or, []};
ghost use Rattle.sci_history.specs.{Audit.{AreWithin, IsWithin, lists_of}, Placed.{AreOwn, is_on_line, on_line}};
ghost use Rattle.sci_words.specs.declared.limits.TheConstants.{MAX_NODES};

use crate::entry::Entry;
use crate::logs::Logs;
use std::alloc::{AllocError, Global};

/// Ends each line's list with the entries of a log that are on it.
fn add_log<'a>(lists: &mut Vec<Vec<&'a Entry>>, log: &'a [Entry]) -> Result<(), AllocError>
    requires { All (IsWithin (length lists.old.items)) log.now }
    ensures lines { length lists.new.items ≡ length lists.old.items }
    ensures added { OnOk result ((line : ℕ) → line < length lists.old.items →
        slice_index_or (lists_of lists.new.items) line []
        ≡ slice_index_or (lists_of lists.old.items) line [] ++ filter (is_on_line line) log.now) }
{
    for entry in log {
        lists[entry.op.line as usize].push(entry)?;
    }
    Ok(())
}

/// The entries on each of this many lines, by node, then by place in the log.
pub fn by_line<'a>(
    alloc: Global,
    logs: &'a Logs,
    lines: u8,
) -> Result<Vec<Vec<&'a Entry>>, AllocError>
    requires { AreWithin lines logs.now }
    ensures lines { IfOk result (λ lists. length lists.items ≡ lines) }
    ensures lists { IfOk result
        (λ lists. (line : ℕ) → line < lines →
        slice_index_or (lists_of lists.items) line [] ≡ on_line line logs.now) }
    ensures own { AreOwn logs.now }
    ensures sixteen { length logs.now ≡ MAX_NODES }
{
    let nodes = logs.nodes();
    let mut lists = Vec::new(alloc);
    for _ in 0..lines {
        lists.push(Vec::new(alloc))?;
    }
    for node in 0..nodes {
        add_log(&mut lists, logs.of(node))?;
    }
    Ok(lists)
}
