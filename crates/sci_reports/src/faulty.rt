//! Which entry is at fault, and why.

ghost use Rattle.std.specs.Prelude.{◌≡◌, ◌<◌, ◌^◌, ◌==◌, ◌||◌, not, ℕ, List, [], All, IfOk, IfSome, is_some, length, option_map};
ghost use Rattle.std.specs.List.Sorted.{IsNonDecreasing};
ghost use Rattle.sci_words.specs.declared.limits.TheConstants.{MAX_NODES};
ghost use Rattle.sci_history.specs.Audit.{breaks_order, first_disordered, first_failing, first_missing, first_twice, is_out_of_order, is_reply_wrong};
ghost use Rattle.sci_history.specs.Audit.{is_version_missing, is_version_twice};
ghost use Rattle.sci_history.specs.{Audit.{same_reply, words_after}, Placed.{maker_count}};
ghost use Rattle.sci_reports.specs.declared.numbered.Numbered.{Numbered as NumberedValue};
ghost use Rattle.sci_reports.specs.{EntryLines.{entries_in, entry_of}, Faulty.{IsAtFault, IsCaused, IsWordExpected, faulty}};
ghost use Rattle.sci_reports.specs.Faulty.{IsDisorder, IsFewMakers, IsFirst, IsFirstAtFault, IsLeastOutside, IsMadeBefore, IsOtherWord};
ghost use Rattle.sci_reports.specs.Faulty.{IsOutOfOrder, is_made_by, is_one_of, makes_always};

use crate::numbered::Numbered;
use sci_history::{Entry, FaultKind};
use sci_words::{Act, Line, MAX_NODES, Op, Reply, Stamped, WORDS_PER_LINE, Word, effect};
use std::alloc::{AllocError, Global};
use std::collections::BTreeMap;

const NODES: usize = MAX_NODES as usize;

/// Why an entry is at fault.
#[derive(Clone, Copy)]
pub enum Cause<'a> {
    /// This entry before it made its version already.
    MadeBefore(Numbered<'a>),
    /// The line has this many makers, which should make the versions from 1 to their number; the second number is the least
    /// version from 1 on that no entry makes.
    FewMakers(u64, u64),
    /// The word was another one when its turn came: this one, which that entry made, if it isn't the zero that was there
    /// at first.
    OtherWord(Word, Option<Numbered<'a>>),
    /// This entry stands before it in its node's log, and has its serial or a higher one.
    SerialAfter(Numbered<'a>),
    /// This entry stands before it in its node's log, and after it in the order of versions.
    PlacedAfter(Numbered<'a>),
}

/// An entry that is at fault, and why.
#[derive(Clone, Copy)]
pub struct FaultyEntry<'a> {
    /// The entry.
    pub at: Numbered<'a>,
    /// Why.
    pub cause: Cause<'a>,
}

/// The first maker whose version an earlier one has.
fn made_twice<'a>(
    alloc: Global,
    entries: &[Numbered<'a>],
) -> Result<Option<FaultyEntry<'a>>, AllocError>
    ensures first { IfOk result
        (λ found. option_map faulty found ≡ first_twice (entries_in entries.now)) }
    ensures cause { IfOk result
        (λ found. IfSome found (IsFirstAtFault is_version_twice IsMadeBefore entries.now)) }
{
    let mut made: BTreeMap<u64, Numbered<'a>> = BTreeMap::new(alloc);
    for at in entries {
        if !at.entry.op.is_maker() {
            continue;
        }
        if let Some(earlier) = made.get(&at.entry.version) {
            return Ok(Some(FaultyEntry {
                at: *at,
                cause: Cause::MadeBefore(*earlier),
            }));
        }
        made.insert(at.entry.version, *at)?;
    }
    Ok(None)
}

/// How many of the entries are makers'.
fn makers(entries: &[Numbered]) -> u64
    ensures { result ≡ maker_count (entries_in entries.now) }
{
    entries.iter().filter(|it| it.entry.op.is_maker()).count() as u64
}

/// The versions of the makers among the entries.
fn versions_made(alloc: Global, entries: &[Numbered]) -> Result<Vec<u64>, AllocError>
    ensures { IfOk result (λ versions. (version : ℕ) →
        is_one_of versions.items version ≡ is_made_by (entries_in entries.now) version) }
{
    let mut versions = Vec::new(alloc);
    for at in entries {
        if at.entry.op.is_maker() {
            versions.push(at.entry.version)?;
        }
    }
    Ok(versions)
}

/// The least number from 1 on that isn't one of these, of which none is below the one before it.
fn least_outside(numbers: &[u64]) -> u64
    requires rise { IsNonDecreasing numbers.now }
    requires few { length numbers.now < 2 ^ 63 }
    ensures { IsLeastOutside (is_one_of numbers.now) result }
{
    let mut least = 1u64;
    for number in numbers {
        if *number == least {
            least = least.saturating_add(1);
        }
    }
    least
}

/// The least version from 1 on that none of the entries makes.
fn least_unmade(alloc: Global, entries: &[Numbered]) -> Result<u64, AllocError>
    ensures { IfOk result (IsLeastOutside (is_made_by (entries_in entries.now))) }
{
    let mut versions = versions_made(alloc, entries)?;
    versions.sort()?;
    Ok(least_outside(&versions))
}

/// The first entry whose version is above the number of makers, or a maker of version 0.
fn above_makers<'a>(entries: &[Numbered<'a>], makers: u64) -> Option<Numbered<'a>>
    ensures first { option_map entry_of result
        ≡ first_failing (is_version_missing makers) [] (entries_in entries.now) }
    ensures stands { IfSome result (λ at. (before : List NumberedValue)
        × IsFirst (is_version_missing makers) entries.now at before) }
{
    for at in entries {
        if at.entry.version > makers || (at.entry.op.is_maker() && at.entry.version == 0) {
            return Some(*at);
        }
    }
    None
}

/// The first entry whose version is missing.
fn missing<'a>(
    alloc: Global,
    entries: &[Numbered<'a>],
) -> Result<Option<FaultyEntry<'a>>, AllocError>
    ensures first { IfOk result
        (λ found. option_map faulty found ≡ first_missing (entries_in entries.now)) }
    ensures cause { IfOk result (λ found. IfSome found (IsFirstAtFault
        (is_version_missing (maker_count (entries_in entries.now)))
        (IsFewMakers (entries_in entries.now)) entries.now)) }
{
    let makers = makers(entries);
    let Some(at) = above_makers(entries, makers) else {
        return Ok(None);
    };
    Ok(Some(FaultyEntry {
        at,
        cause: Cause::FewMakers(makers, least_unmade(alloc, entries)?),
    }))
}

/// Whether the entry's reply is this one.
fn answers(entry: &Entry, reply: Reply) -> bool
    ensures { result ≡ same_reply entry.now.reply reply }
{
    entry.reply == reply
}

/// Whether an operation made the new word: a lock operation that leaves the word alone doesn't.
fn makes_word(op: Op, old: Word, new: Word) -> bool
    ensures { result ≡ (makes_always op.act || not (new == old)) }
{
    match op.act {
        Act::Load => new != old,
        Act::Store(_) => true,
        Act::Lock(_) => new != old,
    }
}

/// The first entry, in the order of versions, whose reply isn't its effect's.
fn wrong<'a>(placed: &[Numbered<'a>]) -> Option<FaultyEntry<'a>>
    ensures first { All (λ entry. entry.op.word < WORDS_PER_LINE) (entries_in placed.now)
        → option_map faulty result ≡ first_failing is_reply_wrong [] (entries_in placed.now) }
    ensures word { All (λ entry. entry.op.word < WORDS_PER_LINE) (entries_in placed.now)
        → IfSome result (λ found. IsWordExpected (entries_in placed.now) found) }
    ensures cause { All (λ entry. entry.op.word < WORDS_PER_LINE) (entries_in placed.now)
        → IfSome result (IsFirstAtFault is_reply_wrong IsOtherWord placed.now) }
{
    let mut line = Line::zero();
    let mut makers: [Option<Numbered<'a>>; WORDS_PER_LINE] = [None; WORDS_PER_LINE];
    for at in placed {
        let op = at.entry.op;
        let word = usize::from(op.word);
        if word >= WORDS_PER_LINE {
            continue;
        }
        let old = line.word(op.word);
        let (new, reply) = effect(op, old);
        if !answers(at.entry, reply) {
            return Some(FaultyEntry {
                at: *at,
                cause: Cause::OtherWord(old, makers[word]),
            });
        }
        line = line.with(op.word, new);
        if makes_word(op, old, new) {
            makers[word] = Some(*at);
        }
    }
    None
}

/// Why an entry can't follow the one before it of its node, if there is one and it can't.
fn disorder<'a>(earlier: Option<Numbered<'a>>, entry: &Entry) -> Option<Cause<'a>>
    ensures breaks { is_some result ≡ breaks_order (option_map entry_of earlier.entry) entry.now }
    ensures cause { IfSome result (IsDisorder earlier.entry entry.now) }
{
    let earlier = earlier?;
    let before = earlier.entry;
    if before.serial >= entry.serial {
        Some(Cause::SerialAfter(earlier))
    } else if before.version > entry.version
        || (before.version == entry.version && entry.op.is_maker() && !before.op.is_maker())
    {
        Some(Cause::PlacedAfter(earlier))
    } else {
        None
    }
}

/// The first entry that can't follow the one before it of its node.
fn disordered<'a>(entries: &[Numbered<'a>]) -> Option<FaultyEntry<'a>>
    ensures first { All (λ entry. entry.node < MAX_NODES) (entries_in entries.now)
        → option_map faulty result ≡ first_disordered (entries_in entries.now) }
    ensures cause { All (λ entry. entry.node < MAX_NODES) (entries_in entries.now)
        → IfSome result (IsFirstAtFault is_out_of_order IsOutOfOrder entries.now) }
{
    let mut latest: [Option<Numbered<'a>>; NODES] = [None; NODES];
    for at in entries {
        let node = usize::from(at.entry.node);
        if node >= NODES {
            continue;
        }
        if let Some(cause) = disorder(latest[node], at.entry) {
            return Some(FaultyEntry { at: *at, cause });
        }
        latest[node] = Some(*at);
    }
    None
}

/// The entry on a line that is at fault by a kind, and why, of the entries in the order of the text and by version. None if
/// the last contents differ.
pub fn faulty_entry<'a>(
    alloc: Global,
    kind: FaultKind,
    entries: &[Numbered<'a>],
    placed: &[Numbered<'a>],
) -> Result<Option<FaultyEntry<'a>>, AllocError>
    ensures entry { All (λ entry. entry.node < MAX_NODES) (entries_in entries.now)
        → All (λ entry. entry.op.word < WORDS_PER_LINE) (entries_in placed.now)
        → IfOk result (IsAtFault kind (entries_in entries.now) (entries_in placed.now)) }
    ensures cause { All (λ entry. entry.node < MAX_NODES) (entries_in entries.now)
        → All (λ entry. entry.op.word < WORDS_PER_LINE) (entries_in placed.now)
        → IfOk result (λ found. IfSome found (IsCaused kind entries.now placed.now)) }
{
    match kind {
        FaultKind::VersionTwice => made_twice(alloc, entries),
        FaultKind::VersionMissing => missing(alloc, entries),
        FaultKind::WrongReply => Ok(wrong(placed)),
        FaultKind::OutOfOrder => Ok(disordered(entries)),
        FaultKind::LastDiffers => Ok(None),
    }
}

/// The contents that entries in the order of their versions leave: the words, and the number of makers.
pub fn contents_after(placed: &[Numbered]) -> Stamped
    ensures words { All (λ entry. entry.op.word < WORDS_PER_LINE) (entries_in placed.now)
        → result.line ≡ words_after (entries_in placed.now) }
    ensures makers { result.version ≡ maker_count (entries_in placed.now) }
{
    let mut line = Line::zero();
    for at in placed {
        let op = at.entry.op;
        if usize::from(op.word) < WORDS_PER_LINE {
            let (new, _) = effect(op, line.word(op.word));
            line = line.with(op.word, new);
        }
    }
    Stamped {
        line,
        version: makers(placed),
    }
}
