//! The two formats of logs.

ghost use Rattle.std.specs.Prelude.{◌≡◌, ◌≤◌, ◌++◌, ℕ, None, Some, IfOk, IfErr, IfSome, IfNone};
ghost use Rattle.std.specs.Bool.{OnTrue, OnFalse};
ghost use Rattle.sci_text.specs.LogValue.{IsForm, IsSize, HasAllLines, HasRoom, BeginsLog, AreNumbersWithin, first_line};
ghost use Rattle.sci_text.specs.LogFault.{SizeFault, first_lines};

use crate::fault::TextFaultKind;
use crate::line_length::check_length;
use crate::log_entry::log_line;
use crate::number::Number;
use crate::operation::{after, byte};
use sci_history::Entry;
use sci_words::{
    FORMAT_1_ENTRIES, FORMAT_1_NODES, FORMAT_1_SERIALS, MAX_LINES, MAX_NODES, MAX_OPERATIONS,
    WORDS_PER_LINE,
};

/// What a log of a format may have. Format 1 has fixed limits, and as many lines as it has `last` lines; format 2 says
/// both in its first line.
#[derive(Clone, Copy, Debug, PartialEq, Eq)]
pub struct Form {
    /// Nodes are below this.
    pub nodes: u8,
    /// Serials are below this.
    pub serials: u32,
    /// Most entries of a node.
    pub entries: u32,
    /// The number of lines, if the first line says it.
    pub lines: Option<u8>,
}

/// Format 1.
pub const FORMAT_1: Form = Form {
    nodes: FORMAT_1_NODES,
    serials: FORMAT_1_SERIALS,
    entries: FORMAT_1_ENTRIES,
    lines: None,
};

/// The nodes and lines of these numbers, if they are within a machine's limits.
fn log_size(nodes: Number, lines: Number) -> Option<(u8, u8)>
    ensures some { IfSome result (λ x. (nodes ≡ Some x.0) × (lines ≡ Some x.1) × IsSize x.0 x.1) }
    ensures none { IfNone result ((n m : ℕ) → nodes ≡ Some n → lines ≡ Some m → IsSize n m → ⊥) }
{
    let nodes = byte(nodes)?;
    let lines = byte(lines)?;
    if nodes == 0 || nodes > MAX_NODES || lines == 0 || lines > MAX_LINES {
        return None;
    }
    Some((nodes, lines))
}

/// The form that the first line of a log says, and the bytes after the line. A log whose first line doesn't begin with
/// `log ` has format 1, and no such line.
pub fn form_of(bytes: &[u8]) -> Result<(Form, &[u8]), TextFaultKind>
    ensures text { IfOk result (λ x. bytes.now ≡ first_line x.0 ++ x.1.now) }
    ensures good { IfOk result (λ x. IsForm x.0) }
    ensures first { IfOk result (λ x. x.0.lines ≡ None → BeginsLog bytes.now → ⊥) }
    ensures fault { IfErr result (SizeFault bytes.now) }
{
    if after(bytes, b"log ").is_none() {
        return Ok((FORMAT_1, bytes));
    }
    let Some(((nodes, lines), rest)) = log_line(bytes) else {
        return Err(TextFaultKind::Syntax);
    };
    check_length(bytes, rest)?;
    let Some((nodes, lines)) = log_size(nodes, lines) else {
        return Err(TextFaultKind::Range);
    };
    let form = Form {
        nodes,
        serials: MAX_OPERATIONS,
        entries: MAX_OPERATIONS,
        lines: Some(lines),
    };
    Ok((form, rest))
}

impl Form {
    /// Whether there are all `last` lines.
    pub fn has_all_lines(&self, count: usize) -> bool
        ensures yes { OnTrue result (HasAllLines self.now.lines count) }
        ensures no { OnFalse result (HasAllLines self.now.lines count → ⊥) }
    {
        match self.lines {
            None => count >= 1,
            Some(lines) => count == lines as usize,
        }
    }

    /// Whether there may be one more `last` line.
    pub fn has_room(&self, count: usize) -> bool
        ensures yes { OnTrue result (HasRoom self.now.lines count) }
        ensures no { OnFalse result (HasRoom self.now.lines count → ⊥) }
    {
        match self.lines {
            None => true,
            Some(lines) => count < lines as usize,
        }
    }

    /// How many lines come before the `last` lines.
    pub fn first_lines(&self) -> usize
        ensures { result ≡ first_lines self.now.lines }
    {
        match self.lines {
            None => 0,
            Some(_) => 1,
        }
    }

    /// Whether the numbers of an entry are within the limits, if there are this many lines.
    pub fn admits(&self, lines: usize, entry: &Entry) -> bool
        ensures yes { OnTrue result (AreNumbersWithin self.now lines entry.now) }
        ensures no { OnFalse result (AreNumbersWithin self.now lines entry.now → ⊥) }
    {
        entry.node < self.nodes
            && entry.serial < self.serials
            && (entry.op.line as usize) < lines
            && (entry.op.word as usize) < WORDS_PER_LINE
    }
}
