//! The faults of one line: the first entry at which each kind fails.

ghost use Rattle.std.specs.Prelude.{◌≡◌, ◌≤◌, ◌<◌, [], true, None, Some, length, not, All, IfOk, IfErr};
ghost use Rattle.std.specs.Option.{option_copied};
ghost use Rattle.sci_words.specs.declared.limits.TheConstants.{MAX_NODES, WORDS_PER_LINE};
ghost use Rattle.sci_history.specs.Audit.{AreKnown, IsFound, breaks_order as breaks_order_of, entries_of, first_disordered, first_failing, first_twice};
ghost use Rattle.sci_history.specs.Audit.{first_wrong, is_placed_before, is_reply_wrong, is_version_missing, same_reply, words_after};
ghost use Rattle.sci_history.specs.Placed.{by_node_and_serial as by_node_and_serial_of, maker_count, placed_entries};

use crate::entry::Entry;
use crate::verdict::FaultKind;
use sci_words::{Line, MAX_NODES, MAX_OPERATIONS, Reply, Stamped, effect};
use std::alloc::{AllocError, Global};
use std::collections::BTreeSet;

const NODES: usize = MAX_NODES as usize;

/// A line's entries are copied if they are at most this many, which one log can have.
const MAX_COPIED: usize = MAX_OPERATIONS as usize;

/// A fault of one line.
#[derive(Clone, Copy, Debug, PartialEq, Eq)]
pub struct LineFault {
    /// The first kind that fails on the line.
    pub kind: FaultKind,
    /// Node and serial of the entry where the rule fails; none if the last contents differ.
    pub at: Option<(u8, u32)>,
}

/// The first maker whose version an earlier maker has, by a set of the versions.
fn collected_twice<'a>(
    alloc: Global,
    entries: &[&'a Entry],
) -> Result<Option<&'a Entry>, AllocError>
    ensures { IfOk result (λ found. option_copied found ≡ first_twice (entries_of entries.now)) }
{
    let mut made = BTreeSet::new(alloc);
    for entry in entries {
        if entry.op.is_maker() && !made.insert(entry.version)? {
            return Ok(Some(*entry));
        }
    }
    Ok(None)
}

/// The first maker whose version an earlier maker has, by a mark for each version from 1 to the number of makers.
fn marked_twice<'a>(
    alloc: Global,
    entries: &[&'a Entry],
    makers: u64,
) -> Result<Option<&'a Entry>, AllocError>
    requires { first_failing (is_version_missing makers) [] (entries_of entries.now) ≡ None }
    ensures { IfOk result (λ found. option_copied found ≡ first_twice (entries_of entries.now)) }
{
    let mut marks = Vec::from_elem(alloc, false, makers as usize)?;
    for entry in entries {
        if entry.op.is_maker() {
            let mark = entry.version as usize - 1;
            if marks[mark] {
                return Ok(Some(*entry));
            }
            marks[mark] = true;
        }
    }
    Ok(None)
}

/// How many of the entries are makers'.
pub fn makers(entries: &[&Entry]) -> u64
    ensures { result ≡ maker_count (entries_of entries.now) }
{
    entries.iter().filter(|entry| entry.op.is_maker()).count() as u64
}

/// The first maker of version 0, or entry whose version is above the number of makers.
fn version_missing<'a>(entries: &[&'a Entry], makers: u64) -> Option<&'a Entry>
    ensures { option_copied result
        ≡ first_failing (is_version_missing makers) [] (entries_of entries.now) }
{
    for entry in entries {
        if entry.version > makers || (entry.op.is_maker() && entry.version == 0) {
            return Some(*entry);
        }
    }
    None
}

/// Whether the entries stand by node and serial already.
fn are_read_in_order(entries: &[&Entry]) -> bool
    requires { All (λ entry. entry.node < MAX_NODES) (entries_of entries.now) }
    ensures { result ≡ true →
        by_node_and_serial_of (entries_of entries.now) ≡ entries_of entries.now }
{
    entries.is_sorted_by_key(|entry| (entry.node, entry.serial))
}

/// The entries by node, then by serial, then as they stand.
fn by_node_and_serial<'a>(
    alloc: Global,
    entries: &[&'a Entry],
) -> Result<Vec<&'a Entry>, AllocError>
    requires { All (λ entry. entry.node < MAX_NODES) (entries_of entries.now) }
    ensures { IfOk result
        (λ read. entries_of read.items ≡ by_node_and_serial_of (entries_of entries.now)) }
{
    let mut read = Vec::from_slice(alloc, entries)?;
    if !are_read_in_order(entries) {
        read.sort_by_key(|entry| entry.serial)?;
        read.sort_by_key(|entry| entry.node)?;
    }
    Ok(read)
}

/// The entries in placed order.
fn placed<'a>(alloc: Global, entries: &[&'a Entry]) -> Result<Vec<&'a Entry>, AllocError>
    requires nodes { All (λ entry. entry.node < MAX_NODES) (entries_of entries.now) }
    requires versions { All (λ entry. entry.version ≤ maker_count (entries_of entries.now))
        (entries_of entries.now) }
    ensures { IfOk result
        (λ placed. entries_of placed.items ≡ placed_entries (entries_of entries.now)) }
{
    let mut placed = by_node_and_serial(alloc, entries)?;
    placed.sort_by_cached_key(|entry| (entry.version, !entry.op.is_maker()))?;
    Ok(placed)
}

/// Whether the entry's reply is this one.
fn answers(entry: &Entry, reply: Reply) -> bool
    ensures { result ≡ same_reply entry.now.reply reply }
{
    entry.reply == reply
}

/// The words that the placed entries leave, begun with zero words, or the first of them whose reply isn't the effect's.
fn replayed<'a>(placed: &[&'a Entry]) -> Result<Line, &'a Entry>
    requires { All (λ entry. entry.op.word < WORDS_PER_LINE) (entries_of placed.now) }
    ensures right { IfOk result
        (λ line. first_failing is_reply_wrong [] (entries_of placed.now) ≡ None) }
    ensures words { IfOk result (λ line. line ≡ words_after (entries_of placed.now)) }
    ensures wrong { IfErr result
        (λ entry. first_failing is_reply_wrong [] (entries_of placed.now) ≡ Some entry.now) }
{
    let mut line = Line::zero();
    for entry in placed {
        let (word, reply) = effect(entry.op, line.word(entry.op.word));
        if !answers(entry, reply) {
            return Err(*entry);
        }
        line = line.with(entry.op.word, word);
    }
    Ok(line)
}

/// Whether the first of two entries of one node stands before the second in placed order.
fn is_before(first: &Entry, second: &Entry) -> bool
    ensures { result ≡ is_placed_before first.now second.now }
{
    if first.version != second.version {
        return first.version < second.version;
    }
    match (first.op.is_maker(), second.op.is_maker()) {
        (true, false) => true,
        (false, true) => false,
        _ => first.serial <= second.serial,
    }
}

/// Whether an entry doesn't stand after its node's entry before it on the line.
fn breaks_order(previous: Option<Entry>, entry: &Entry) -> bool
    ensures { result ≡ breaks_order_of previous entry.now }
{
    match previous {
        None => false,
        Some(previous) => previous.serial >= entry.serial || !is_before(&previous, entry),
    }
}

/// The first entry whose serial or place isn't above that of its node's entry before it.
fn out_of_order<'a>(entries: &[&'a Entry]) -> Option<&'a Entry>
    requires { All (λ entry. entry.node < MAX_NODES) (entries_of entries.now) }
    ensures { option_copied result ≡ first_disordered (entries_of entries.now) }
{
    let mut latest: [Option<Entry>; NODES] = [None; NODES];
    for entry in entries {
        let node = entry.node as usize;
        if breaks_order(latest[node], entry) {
            return Some(*entry);
        }
        latest[node] = Some(**entry);
    }
    None
}

/// A fault at an entry.
fn fault_at(kind: FaultKind, entry: &Entry) -> Option<LineFault>
    ensures { result ≡ Some (record { kind = kind; at = Some (entry.now.node, entry.now.serial) }) }
{
    Some(LineFault {
        kind,
        at: Some((entry.node, entry.serial)),
    })
}

/// The fault that comes first among the entries on a line, in reading order, against its last contents.
fn fault_among(
    alloc: Global,
    entries: &[&Entry],
    last: Stamped,
) -> Result<Option<LineFault>, AllocError>
    requires { AreKnown (entries_of entries.now) }
    ensures { IfOk result (IsFound (entries_of entries.now) last) }
{
    let makers = makers(entries);
    let missing = version_missing(entries, makers);
    let twice = match missing {
        None => marked_twice(alloc, entries, makers)?,
        Some(_) => collected_twice(alloc, entries)?,
    };
    if let Some(entry) = twice {
        return Ok(fault_at(FaultKind::VersionTwice, entry));
    }
    if let Some(entry) = missing {
        return Ok(fault_at(FaultKind::VersionMissing, entry));
    }
    let placed = placed(alloc, entries)?;
    let line = match replayed(&placed) {
        Ok(line) => line,
        Err(entry) => return Ok(fault_at(FaultKind::WrongReply, entry)),
    };
    if let Some(entry) = out_of_order(entries) {
        return Ok(fault_at(FaultKind::OutOfOrder, entry));
    }
    if last.line == line && last.version == makers {
        return Ok(None);
    }
    Ok(Some(LineFault {
        kind: FaultKind::LastDiffers,
        at: None,
    }))
}

/// The entries that references point to, next to one another.
fn gathered(alloc: Global, entries: &[&Entry]) -> Result<Vec<Entry>, AllocError>
    ensures { IfOk result (λ copies. copies.items ≡ entries_of entries.now) }
{
    entries.iter().map(|entry| **entry).collect(alloc)
}

/// A reference to each of the entries.
fn referred(alloc: Global, entries: &[Entry]) -> Result<Vec<&Entry>, AllocError>
    ensures { IfOk result (λ refs. entries_of refs.items ≡ entries.now) }
{
    entries.iter().collect(alloc)
}

/// The fault that comes first among the entries on a line, in reading order, against its last contents. The few
/// entries of one line among many stand far apart in the logs, so it looks at a copy of them.
pub fn line_fault(
    alloc: Global,
    entries: &[&Entry],
    last: Stamped,
) -> Result<Option<LineFault>, AllocError>
    requires { AreKnown (entries_of entries.now) }
    ensures { IfOk result (IsFound (entries_of entries.now) last) }
{
    if entries.len() > MAX_COPIED {
        return fault_among(alloc, entries, last);
    }
    let copies = gathered(alloc, entries)?;
    let entries = referred(alloc, &copies)?;
    fault_among(alloc, &entries, last)
}
