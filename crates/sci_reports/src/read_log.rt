//! A log that was read from its text.

ghost use Rattle.std.specs.Prelude.{◌≡◌, ℕ, List, IfOk, IfErr};
ghost use Rattle.sci_text.specs.{FirstFault.{IsRefusal}, LogFault.{IsLogFault}, LogValue.{entry_count}};
ghost use Rattle.sci_reports.specs.ReadLog.{IsReadLog};

use crate::numbered::{entries_before, lines_before};
use sci_command::{Refusal, logs_of};
use sci_history::{Last, Logs};
use std::alloc::Global;

/// A log that was read from its text.
#[derive(Drop)]
pub struct ReadLog {
    /// The number of nodes.
    pub nodes: u8,
    /// The entries of each node.
    pub logs: Logs,
    /// The last contents of each line of memory.
    pub last: Box<Last, Global>,
    /// How many lines the text has before the entries.
    pub before: usize,
}

impl ReadLog {
    /// The log whose text the bytes are, in either format. Refused as by `logs_of` of `sci_command`.
    pub fn of(alloc: Global, text: &[u8]) -> Result<ReadLog, Refusal>
        ensures read { IfOk result (IsReadLog text.now) }
        ensures fault { IfErr result (λ refusal. IsRefusal IsLogFault text.now refusal.fault) }
    {
        let (nodes, logs, last) = logs_of(alloc, text)?;
        let before = lines_before(text, &last);
        Ok(ReadLog {
            nodes,
            logs,
            last,
            before,
        })
    }

    /// How many entries it has.
    pub fn entries(&self) -> usize
        requires { (text : List ℕ) × IsReadLog text self.now }
        ensures { result ≡ entry_count self.now.logs }
    {
        entries_before(&self.logs, self.logs.nodes())
    }
}
