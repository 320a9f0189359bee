//! Entries that are placed one after another, each as soon as all that has to come before it is placed.

ghost use Rattle.std.specs.Prelude.{true, false, ◌≡◌, ◌≤◌, ◌<◌, ◌+◌, ◌^◌, ◌↔◌, ℕ, List, All, IsTrue, IfOk, OnOk, length, slice_index_or, []};
ghost use Rattle.sci_words.specs.declared.limits.TheConstants.{MAX_LINES, MAX_NODES};
ghost use Rattle.sci_history.specs.declared.entry.Entry.{Entry as EntryValue};
ghost use Rattle.sci_history.specs.{Audit.{AreWithin, entries_of}, Placed.{is_making, maker_count}, Judged.{IsJudged}};
ghost use Rattle.sci_history.specs.Placing.{AreAllPlaced, AreOrderable, CanFollow, HasCounts, IsPlacing, IsStuckAt, lists_of_counts, rests_of, state_after, state_of};

use crate::by_line::by_line;
use crate::entry::Entry;
use crate::faults::{LineFault, line_fault, makers};
use crate::last::Last;
use crate::logs::Logs;
use sci_words::{MAX_LINES, MAX_NODES};
use std::alloc::{AllocError, Global};

const LINES: usize = MAX_LINES as usize;

const NODES: usize = MAX_NODES as usize;

/// What is placed of a line: its version, and how many loads at that version are left.
#[derive(Clone, Copy)]
pub struct LineState {
    pub version: u64,
    pub left: u64,
}

impl LineState {
    /// Whether an entry can be placed next on this line.
    fn can_take(self, entry: &Entry) -> bool
        ensures { IsTrue result ↔ CanFollow self entry.now }
    {
        if entry.op.is_maker() {
            self.left == 0 && entry.version > self.version && entry.version - self.version == 1
        } else {
            entry.version == self.version
        }
    }

    /// The line after an entry, which can be placed next.
    fn after(self, loads: &[u64], entry: &Entry) -> LineState
        requires maker { is_making entry.now ≡ true → entry.now.version < length loads.now }
        requires load { is_making entry.now ≡ false → 1 ≤ self.left }
        ensures { result ≡ state_after loads.now self entry.now }
    {
        if entry.op.is_maker() {
            LineState {
                version: entry.version,
                left: loads[entry.version as usize],
            }
        } else {
            LineState {
                version: self.version,
                left: self.left - 1,
            }
        }
    }
}

/// The number of loads at each version, from 0 to the number of makers.
fn count_loads(alloc: Global, entries: &[&Entry]) -> Result<Vec<u64>, AllocError>
    requires { All (λ entry. entry.version ≤ maker_count (entries_of entries.now)) (entries_of entries.now) }
    ensures { IfOk result (λ counts. HasCounts counts.items (entries_of entries.now)) }
{
    let mut counts = Vec::from_elem(alloc, 0, makers(entries) as usize + 1)?;
    for entry in entries {
        if !entry.op.is_maker() {
            counts[entry.version as usize] += 1;
        }
    }
    Ok(counts)
}

/// What a first look at the logs gives: the first fault, or of each line the number of loads at each version.
#[derive(Drop)]
pub enum Judged {
    Fault(u8, LineFault),
    Loads(Vec<Vec<u64>>),
}

/// Judges each line as an audit does, and counts its loads while its entries are at hand.
#[inline(never)]
pub fn judge_lines(alloc: Global, logs: &Logs, last: &Last) -> Result<Judged, AllocError>
    requires { AreWithin (length last.now) logs.now }
    ensures judged { IfOk result (IsJudged logs.now last.now) }
    ensures few { length last.now ≤ MAX_LINES }
{
    let lines = last.lines();
    let lists = by_line(alloc, logs, lines)?;
    let mut loads = Vec::new(alloc);
    for line in 0..lines {
        let entries = &lists[line as usize];
        if let Some(fault) = line_fault(alloc, entries, last.get(line))? {
            return Ok(Judged::Fault(line, fault));
        }
        loads.push(count_loads(alloc, entries)?)?;
    }
    Ok(Judged::Loads(loads))
}

/// The entries that are placed, in order, and how many those of each node are.
#[derive(Drop)]
pub struct Placing<'a> {
    pub lines: [LineState; LINES],
    pub next: [usize; NODES],
    pub order: Vec<&'a Entry>,
}

/// Sets each line to version 0, with all loads at that version left.
fn begin(lines: &mut [LineState; LINES], loads: &[Vec<u64>])
    requires orderable { (logs : List (List EntryValue)) × AreOrderable logs (lists_of_counts loads.now) }
    requires few { length loads.now ≤ MAX_LINES }
    ensures { (line : ℕ) → line < length loads.now → state_of lines.new line ≡
        record { version = 0; left = slice_index_or (slice_index_or (lists_of_counts loads.now) line []) 0 0 } }
{
    for line in 0..loads.len() {
        lines[line] = LineState {
            version: 0,
            left: loads[line][0],
        };
    }
}

impl<'a> Placing<'a> {
    /// Places the first entry of a node that isn't placed. False, and nothing is placed, if there is none or it can't be
    /// placed next.
    fn place_front(
        &mut self,
        logs: &'a Logs,
        loads: &[Vec<u64>],
        node: u8,
    ) -> Result<bool, AllocError>
        requires node { node < MAX_NODES }
        requires orderable { AreOrderable logs.now (lists_of_counts loads.now) }
        requires few { length loads.now ≤ MAX_LINES }
        requires placing { IsPlacing logs.now (length loads.now) self.old.lines
            (rests_of logs.now self.old.next) (entries_of self.old.order.items) }
        ensures placing { IfOk result (λ _. IsPlacing logs.now (length loads.now) self.new.lines
            (rests_of logs.now self.new.next) (entries_of self.new.order.items)) }
        ensures placed { IfOk result (λ placed. placed ≡ true →
            length self.new.order.items ≡ length self.old.order.items + 1) }
        ensures stuck { IfOk result (λ placed. placed ≡ false →
            (self.new ≡ self.old) × IsStuckAt self.old.lines (rests_of logs.now self.old.next) node) }
    {
        let log = logs.of(node);
        let place = self.next[node as usize];
        if place >= log.len() {
            return Ok(false);
        }
        let entry = &log[place];
        let line = entry.op.line as usize;
        if !self.lines[line].can_take(entry) {
            return Ok(false);
        }
        self.order.push(entry)?;
        self.lines[line] = self.lines[line].after(&loads[line], entry);
        self.next[node as usize] = place + 1;
        Ok(true)
    }
    /// Tries each node once.
    fn place_round(&mut self, logs: &'a Logs, loads: &[Vec<u64>]) -> Result<(), AllocError>
        requires orderable { AreOrderable logs.now (lists_of_counts loads.now) }
        requires few { length loads.now ≤ MAX_LINES }
        requires placing { IsPlacing logs.now (length loads.now) self.old.lines
            (rests_of logs.now self.old.next) (entries_of self.old.order.items) }
        ensures placing { OnOk result (IsPlacing logs.now (length loads.now) self.new.lines
            (rests_of logs.now self.new.next) (entries_of self.new.order.items)) }
        ensures more { OnOk result (length self.old.order.items ≤ length self.new.order.items) }
        ensures stuck { OnOk result (length self.new.order.items ≡ length self.old.order.items →
            (node : ℕ) → node < MAX_NODES →
            IsStuckAt self.new.lines (rests_of logs.now self.new.next) node) }
    {
        for node in 0..MAX_NODES {
            let _placed = self.place_front(logs, loads, node)?;
        }
        Ok(())
    }
}

/// What was placed, as far as it goes: how many entries of each node, and all of them in order.
#[derive(Drop)]
pub struct Placed<'a> {
    pub next: [usize; NODES],
    pub order: Vec<&'a Entry>,
}

/// Places entries until no node has one left that can be placed next.
#[inline(never)]
pub fn place_all<'a>(
    alloc: Global,
    logs: &'a Logs,
    loads: &[Vec<u64>],
) -> Result<Placed<'a>, AllocError>
    requires orderable { AreOrderable logs.now (lists_of_counts loads.now) }
    requires few { length loads.now ≤ MAX_LINES }
    ensures { IfOk result (λ placed. AreAllPlaced logs.now (length loads.now)
        (rests_of logs.now placed.next) (entries_of placed.order.items)) }
{
    let none = LineState {
        version: 0,
        left: 0,
    };
    let mut placing = Placing {
        lines: [none; LINES],
        next: [0; NODES],
        order: Vec::with_capacity(alloc, logs.entries())?,
    };
    begin(&mut placing.lines, loads);
    loop {
        let before = placing.order.len();
        placing.place_round(logs, loads)?;
        if placing.order.len() == before {
            return Ok(Placed {
                next: placing.next,
                order: placing.order,
            });
        }
    }
}
