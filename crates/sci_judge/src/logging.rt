//! The log of a trace whose operations are coherent: its entries, each with its version.

ghost use Rattle.std.specs.Prelude.{◌≡◌, ◌≤◌, ◌<◌, ◌++◌, ◌∷◌, [], ℕ, None, Some, IfOk, IfErr, IfSome, OnOk, length, max, slice_get, slice_index_or, slice_set};
ghost use Rattle.std.specs.{Bool.{OnTrue}, List.{AllPairs}};
ghost use Rattle.sci_words.specs.declared.limits.TheConstants.{MAX_LINES, MAX_NODES, MAX_OPERATIONS};
ghost use Rattle.sci_history.specs.{Memory.{stamped_at}, Placed.{log_of as log_of_node}};
ghost use Rattle.sci_history.specs.declared.entry.Entry.{Entry};
ghost use Rattle.sci_judge.specs.declared.judging.SiteVersions.{SiteVersions};
ghost use Rattle.sci_judge.specs.{Access.{AreKnown}, Judgement.{addresses_of, last_at}, Logged.{AreAllUsed, AreLogged, HasLastWords, IsLogOf, IsFullOf, IsNext, IsNoLog}};

use crate::access::Access;
use crate::explaining::entry_with;
use crate::judging::SiteVersions;
use crate::trace::Trace;
use sci_history::{Entry, Last, Logs, PushFault, Verdict, audit};
use sci_words::{Line, MAX_LINES, Op, Stamped, Word};
use std::alloc::{AllocError, Global};

/// The log of a trace. Its lines of memory are the addresses, in rising order.
#[derive(Drop)]
pub struct Log {
    /// The entries of each processor, in program order.
    pub logs: Logs,
    /// The last contents of each line. There is one line at least.
    pub last: Box<Last, Global>,
}

/// Why a trace whose operations are coherent has no log.
#[derive(Debug, Drop)]
pub enum NoLog {
    /// It has more than 64 addresses.
    Addresses,
    /// A processor has more than 65,536 operations.
    Operations,
    /// None was found with these versions.
    NotFound,
    /// Memory was refused.
    Memory(AllocError),
}

impl From<AllocError> for NoLog {
    ghost use Rattle.std.specs.Prelude.{◌≡◌};
    ghost use Rattle.sci_judge.specs.declared.logging.NoLog.TheVariants.{Memory};

    ghost from_gives = { λ error none. none ≡ Memory error };

    fn from(error: AllocError) -> NoLog {
        NoLog::Memory(error)
    }
}

/// How many lines of memory there are, one at least. None if there are too many.
fn lines_of(sites: &[SiteVersions]) -> Option<u8>
    ensures some { IfSome result (λ lines. (lines ≡ max 1 (length sites.now))
        × (1 ≤ lines) × (lines ≤ MAX_LINES)) }
    ensures none { result ≡ None → MAX_LINES < length sites.now }
{
    let count = sites.len().max(1);
    if count > MAX_LINES as usize {
        return None;
    }
    Some(count as u8)
}

/// Whether addresses rise.
fn are_rising(sites: &[SiteVersions]) -> bool
    ensures { OnTrue result (AllPairs (λ x y. x < y) (addresses_of sites.now)) }
{
    for place in 1..sites.len() {
        if sites[place - 1].address >= sites[place].address {
            return false;
        }
    }
    true
}

/// The line of an address. None if there is none.
fn line_of(sites: &[SiteVersions], address: u64) -> Option<u8>
    ensures { IfSome result
        (λ line. slice_get (addresses_of sites.now) line ≡ Some address) }
{
    let place = sites.partition_point(|site| site.address < address);
    let site = sites.get(place)?;
    if site.address != address {
        return None;
    }
    u8::try_from(place).ok()
}

/// The next version of the operations at the address of a line, of which some are used.
fn next_version(sites: &[SiteVersions], used: &[usize], line: u8) -> Option<u64>
    ensures { IfSome result (λ version. (d : SiteVersions)
        → (line < length sites.now) × (line < length used.now)
        × (slice_get (slice_index_or sites.now line d).versions.items
        (slice_index_or used.now line 0) ≡ Some version)) }
{
    let site = sites.get(line as usize)?;
    let place = *used.get(line as usize)?;
    site.versions.get(place).copied()
}

/// The entry of an operation behind those that are logged. None if none is found.
fn next_entry(sites: &[SiteVersions], logs: &Logs, used: &[usize], access: &Access) -> Option<Entry>
    requires { access.now.processor < MAX_NODES }
    ensures { IfSome result (IsNext sites.now logs.now used.now access.now) }
{
    let line = line_of(sites, access.address)?;
    let version = next_version(sites, used, line)?;
    let serial = u32::try_from(logs.of(access.processor).len()).ok()?;
    let entry = entry_with(serial, access, version);
    Some(Entry {
        op: Op { line, ..entry.op },
        ..entry
    })
}

/// The last contents with what an operation leaves there, unless they have a higher version.
fn stamp(last: &mut Last, entry: &Entry, word: Word)
    ensures { length last.new ≡ length last.old }
{
    let line = entry.op.line;
    if line < last.lines() && last.get(line).version <= entry.version {
        let words = Line::zero().with(0, word);
        last.set(
            line,
            Stamped {
                line: words,
                version: entry.version,
            },
        );
    }
}

/// Ends the log of the entry's processor with the entry.
fn push(logs: &mut Logs, entry: Entry) -> Result<(), NoLog>
    requires { entry.node < MAX_NODES }
    ensures ok { OnOk result (logs.new
        ≡ slice_set logs.old entry.node (log_of_node logs.old entry.node ++ entry ∷ [])) }
    ensures full { IfErr result (λ why. IsFullOf logs.old entry.node why) }
{
    match logs.push(entry) {
        Ok(()) => Ok(()),
        Err(PushFault::Full) => Err(NoLog::Operations),
        Err(PushFault::Memory(error)) => Err(NoLog::Memory(error)),
    }
}

/// A log of the operations, with the versions in their order, and how many of the versions at each address are used.
#[inline(never)]
fn log_with(
    alloc: Global,
    trace: &Trace,
    sites: &[SiteVersions],
    lines: u8,
) -> Result<(Log, Vec<usize>), NoLog>
    requires known { AreKnown trace.now.accesses.items }
    requires some { 1 ≤ lines }
    requires few { lines ≤ MAX_LINES }
    ensures logged { IfOk result (λ made.
        AreLogged sites.now trace.now.accesses.items made.1.items made.0.logs) }
    ensures lines { IfOk result (λ made. length made.0.last.value ≡ lines) }
    ensures none { IfErr result (IsNoLog trace.now sites.now) }
{
    let mut logs = Logs::new(alloc);
    let mut last = Box::new(alloc, Last::zero(lines)).map_err(AllocError::from)?;
    let mut used = Vec::from_elem(alloc, 0, sites.len())?;
    for access in &trace.accesses {
        let Some(entry) = next_entry(sites, &logs, &used, access) else {
            return Err(NoLog::NotFound);
        };
        push(&mut logs, entry)?;
        stamp(&mut last, &entry, access.kind.left());
        used[entry.op.line as usize] += 1;
    }
    Ok((Log { logs, last }, used))
}

/// Whether all versions are used.
fn are_all_used(sites: &[SiteVersions], used: &[usize]) -> bool
    requires { length used.now ≡ length sites.now }
    ensures { OnTrue result (AreAllUsed sites.now used.now) }
{
    for line in 0..sites.len() {
        if used[line] != sites[line].versions.len() {
            return false;
        }
    }
    true
}

impl Log {
    /// Whether the last contents of a line have a word, if it is known.
    fn has_last_word(&self, line: u8, last: Option<Word>) -> bool
        requires { line < length self.now.last.value }
        ensures { OnTrue result ((word : ℕ) → last ≡ Some word
            → slice_index_or (stamped_at self.now.last.value line).line 0 0 ≡ word) }
    {
        match last {
            Some(word) => self.last.get(line).line.word(0) == word,
            None => true,
        }
    }

    /// Whether the last contents have the last word at each address where the trace has it.
    fn has_last_words(&self, trace: &Trace, sites: &[SiteVersions]) -> bool
        requires { length sites.now ≤ length self.now.last.value }
        ensures { OnTrue result (HasLastWords trace.now sites.now self.now) }
    {
        for line in 0..self.last.lines() {
            if let Some(site) = sites.get(line as usize) {
                if !self.has_last_word(line, trace.last.get(&site.address).copied()) {
                    return false;
                }
            }
        }
        true
    }
}

/// The log of a trace, by versions for the operations at each address, as `judge` answers them: the entries of the operations,
/// those of each processor in program order, with these versions. An audit has judged it. None if there are more than 64
/// addresses, or a processor has more than 65,536 operations; and none may be found if the versions aren't those of `judge`.
#[inline(never)]
pub fn log_of(alloc: Global, trace: &Trace, sites: &[SiteVersions]) -> Result<Log, NoLog>
    requires { AreKnown trace.now.accesses.items }
    ensures log { IfOk result (IsLogOf trace.now sites.now) }
    ensures none { IfErr result (IsNoLog trace.now sites.now) }
{
    let Some(lines) = lines_of(sites) else {
        return Err(NoLog::Addresses);
    };
    let (log, used) = log_with(alloc, trace, sites, lines)?;
    if !are_rising(sites) || !are_all_used(sites, &used) || !log.has_last_words(trace, sites) {
        return Err(NoLog::NotFound);
    }
    match audit(alloc, &log.logs, &log.last)? {
        Verdict::Lawful => Ok(log),
        Verdict::Fault { .. } => Err(NoLog::NotFound),
    }
}
