//! The entries of a log with the lines of its text.

ghost use Rattle.std.specs.Prelude.{◌≡◌, ◌≤◌, ◌<◌, ◌+◌, ◌*◌, ◌^◌, ◌++◌, ℕ, [], true, Some, All, IfOk, OnOk, IfSome, IfNone, length, slice_get, slice_index_or, take};
ghost use Rattle.std.specs.List.Sorted.{IsPermutation};
ghost use Rattle.sci_words.specs.declared.limits.TheConstants.{MAX_LINES, MAX_NODES, MAX_OPERATIONS};
ghost use Rattle.sci_history.specs.{declared.entry.Entry.{Entry}, Audit.{AreWithin, IsWithin}, Placed.{by_version, log_of}};
ghost use Rattle.sci_history.specs.Placed.{by_node_and_serial as by_node_and_serial_of};
ghost use Rattle.sci_text.specs.LogValue.{entry_count};
ghost use Rattle.sci_reports.specs.EntryLines.{IsBeforeEntries, IsLineOf, IsOpening, entries_in, numbered_lists, numbered_on, on_line_from};
ghost use Rattle.sci_reports.specs.Placed.{KeepsTies};

use sci_history::{Entry, Last, Logs};
use std::alloc::{AllocError, Global};

/// An entry of a log, and the number of the line that has it in the log's text.
#[derive(Clone, Copy)]
pub struct Numbered<'a> {
    /// The number of the text's line, from 1.
    pub text_line: usize,
    /// The entry.
    pub entry: &'a Entry,
}

/// How many entries the logs of the nodes below this one have. A node has at most 65,536.
pub fn entries_before(logs: &Logs, node: u8) -> usize
    requires node { node ≤ MAX_NODES }
    requires few { (n : ℕ) → length (log_of logs.now n) ≤ MAX_OPERATIONS }
    ensures count { result ≡ entry_count (take node logs.now) }
    ensures few { result ≤ node * MAX_OPERATIONS }
{
    let mut count = 0;
    for lower in 0..node {
        count += logs.of(lower).len();
    }
    count
}

/// How many lines a log's text has before those of the last contents: 1 in format 2, and 0 in format 1.
fn opening_lines(text: &[u8]) -> usize
    ensures is { IsOpening text.now result }
    ensures few { result ≤ 1 }
{
    match text {
        [b'l', b'o', b'g', b' ', ..] => 1,
        _ => 0,
    }
}

/// How many lines a log's text has before its entries.
pub fn lines_before(text: &[u8], last: &Last) -> usize
    ensures is { IsBeforeEntries text.now (length last.now) result }
    ensures few { result ≤ MAX_LINES + 1 }
{
    opening_lines(text) + last.lines() as usize
}

/// The first place of a log at which an entry stands that has the serial and the line of memory of this one.
fn place_of(log: &[Entry], entry: &Entry) -> Option<usize>
    ensures some { IfSome result (λ place. (found : Entry)
        × (slice_get log.now place ≡ Some found)
        × (found.serial ≡ entry.now.serial) × (found.op.line ≡ entry.now.op.line)) }
    ensures few { IfSome result (λ place. place < length log.now) }
    ensures none { IfNone result ((place : ℕ) → place < length log.now → (found : Entry)
        → slice_get log.now place ≡ Some found → found.serial ≡ entry.now.serial
        → found.op.line ≡ entry.now.op.line → ⊥) }
{
    for place in 0..log.len() {
        let found = log[place];
        if found.serial == entry.serial && found.op.line == entry.op.line {
            return Some(place);
        }
    }
    None
}

/// The number of the text's line on which an entry stands, behind this many lines before all entries. None if it isn't in the
/// logs. A node has at most 65,536 entries.
pub fn line_of_entry(logs: &Logs, before: usize, entry: &Entry) -> Option<usize>
    requires few { (n : ℕ) → length (log_of logs.now n) ≤ MAX_OPERATIONS }
    requires before { before ≤ MAX_LINES + 1 }
    ensures { IsLineOf before logs.now entry.now result }
{
    if entry.node >= logs.nodes() {
        return None;
    }
    let place = place_of(logs.of(entry.node), entry)?;
    Some(before + entries_before(logs, entry.node) + place + 1)
}

/// Ends each line's list with the entries of a log that are on it, if the log's first entry stands on this line of the text.
fn add_log<'a>(
    lists: &mut Vec<Vec<Numbered<'a>>>,
    log: &'a [Entry],
    first: usize,
) -> Result<(), AllocError>
    requires within { All (IsWithin (length lists.old.items)) log.now }
    requires few { first + length log.now < 2 ^ 64 }
    ensures lines { length lists.new.items ≡ length lists.old.items }
    ensures added { OnOk result ((line : ℕ) → line < length lists.old.items →
        slice_index_or (numbered_lists lists.new.items) line []
        ≡ slice_index_or (numbered_lists lists.old.items) line [] ++ on_line_from line first log.now) }
{
    let mut text_line = first;
    for entry in log {
        lists[entry.op.line as usize].push(Numbered { text_line, entry })?;
        text_line += 1;
    }
    Ok(())
}

/// The entries on each of this many lines of memory, in the order of the text, behind this many lines of text before all
/// entries. A node has at most 65,536 entries.
pub fn entries_by_line<'a>(
    alloc: Global,
    logs: &'a Logs,
    before: usize,
    lines: u8,
) -> Result<Vec<Vec<Numbered<'a>>>, AllocError>
    requires within { AreWithin lines logs.now }
    requires few { (n : ℕ) → length (log_of logs.now n) ≤ MAX_OPERATIONS }
    requires before { before ≤ MAX_LINES + 1 }
    ensures lines { IfOk result (λ lists. length lists.items ≡ lines) }
    ensures lists { IfOk result (λ lists. (line : ℕ) → line < lines →
        slice_index_or (numbered_lists lists.items) line [] ≡ numbered_on line before logs.now) }
{
    let mut lists = Vec::new(alloc);
    for _ in 0..lines {
        lists.push(Vec::new(alloc))?;
    }
    for node in 0..logs.nodes() {
        let first = before + entries_before(logs, node) + 1;
        add_log(&mut lists, logs.of(node), first)?;
    }
    Ok(lists)
}

/// Whether the entries stand by node and serial already, as those of a line do in a text if its serials rise.
fn are_read_in_order(entries: &[Numbered]) -> bool
    ensures { All (λ entry. entry.node < MAX_NODES) (entries_in entries.now) → result ≡ true →
        by_node_and_serial_of (entries_in entries.now) ≡ entries_in entries.now }
{
    entries.is_sorted_by_key(|it| (it.entry.node, it.entry.serial))
}

/// The entries by node, then by serial, then as they stand.
fn by_node_and_serial<'a>(
    alloc: Global,
    entries: &[Numbered<'a>],
) -> Result<Vec<Numbered<'a>>, AllocError>
    ensures kept { IfOk result (λ read. IsPermutation entries.now read.items) }
    ensures order { All (λ entry. entry.node < MAX_NODES) (entries_in entries.now)
        → IfOk result (λ read. entries_in read.items ≡ by_node_and_serial_of (entries_in entries.now)) }
    ensures ties { IfOk result (λ read. KeepsTies entries.now read.items) }
{
    let mut read = Vec::from_slice(alloc, entries)?;
    if !are_read_in_order(entries) {
        read.sort_by_key(|it| it.entry.serial)?;
        read.sort_by_key(|it| it.entry.node)?;
    }
    Ok(read)
}

/// The entries on one line of memory in the order of their versions: at each version its maker first, and of the others
/// those of lower nodes and serials first. Entries that tie in all of this stay in the order of the text.
pub fn placed<'a>(alloc: Global, entries: &[Numbered<'a>]) -> Result<Vec<Numbered<'a>>, AllocError>
    ensures kept { IfOk result (λ placed. IsPermutation entries.now placed.items) }
    ensures order { (bound : ℕ) → All (λ entry. entry.node < MAX_NODES) (entries_in entries.now)
        → All (λ entry. entry.version < bound) (entries_in entries.now)
        → IfOk result (λ placed. entries_in placed.items ≡ by_version bound (entries_in entries.now)) }
    ensures ties { IfOk result (λ placed. KeepsTies entries.now placed.items) }
{
    let mut placed = by_node_and_serial(alloc, entries)?;
    placed.sort_by_key(|it| (it.entry.version, !it.entry.op.is_maker()))?;
    Ok(placed)
}
