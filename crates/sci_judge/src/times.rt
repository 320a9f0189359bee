//! Whether versions respect the times of operations.

ghost use Rattle.std.specs.Prelude.{◌≡◌, ◌≤◌, ◌<◌, ℕ, true, IfOk, length, slice_index_or};
ghost use Rattle.std.specs.List.Sorted.{IsNonDecreasingBy, IsPermutation};
ghost use Rattle.sci_judge.specs.declared.times.Ended.{Ended};
ghost use Rattle.std.specs.Bool.{OnTrue};
ghost use Rattle.sci_judge.specs.{Access.{is_making}, Stamped.{AreTimely}};
ghost use Rattle.sci_judge.specs.Times.{AreMost, HasEnds, IsBehind};

use crate::access::{Access, Kind};
use crate::site::Site;
use std::alloc::{AllocError, Global};

/// That an operation with a version had ended at a time.
#[derive(Clone, Copy)]
pub struct Ended {
    pub end: u64,
    pub version: u64,
}

/// The ends of the operations that have a version.
fn ends(alloc: Global, accesses: &[Access], versions: &[u64]) -> Result<Vec<Ended>, AllocError>
    ensures { IfOk result (λ ends. HasEnds accesses.now versions.now ends.items) }
{
    let mut ends = Vec::new(alloc);
    for place in 0..accesses.len() {
        if place < versions.len() {
            ends.push(Ended {
                end: accesses[place].end,
                version: versions[place],
            })?;
        }
    }
    Ok(ends)
}

/// The ends by their times.
fn sorted_ends(
    alloc: Global,
    accesses: &[Access],
    versions: &[u64],
) -> Result<Vec<Ended>, AllocError>
    ensures rising { IfOk result (λ sorted. IsNonDecreasingBy (λ ended. ended.end) sorted.items) }
    ensures ends { IfOk result (λ sorted. HasEnds accesses.now versions.now sorted.items) }
{
    let mut sorted = ends(alloc, accesses, versions)?;
    sorted.sort_by_key(|ended| ended.end)?;
    Ok(sorted)
}

/// The greatest version of each front of the ends, the empty one first.
fn most(alloc: Global, ends: &[Ended]) -> Result<Vec<u64>, AllocError>
    ensures { IfOk result (λ most. AreMost ends.now most.items) }
{
    let mut most = Vec::new(alloc);
    let mut version = 0;
    most.push(0)?;
    for ended in ends {
        version = version.max(ended.version);
        most.push(version)?;
    }
    Ok(most)
}

/// How many of the ends, which stand by their times, are before a time.
fn count_before(ends: &[Ended], time: u64) -> usize
    requires { IsNonDecreasingBy (λ ended. ended.end) ends.now }
    ensures within { result ≤ length ends.now }
    ensures before { (place : ℕ) (d : Ended) → place < length ends.now →
        (slice_index_or ends.now place d).end < time → place < result }
{
    ends.partition_point(|ended| ended.end < time)
}

/// Whether a version may stand behind one that none of those before it is above: a maker stands behind it, and a load may be
/// at it.
fn may_follow(kind: Kind, most: u64, version: u64) -> bool
    ensures { OnTrue result ((most ≤ version) × (is_making kind ≡ true → most < version)) }
{
    match kind {
        Kind::Load(_) => most <= version,
        Kind::Store(_) | Kind::Atomic { .. } => most < version,
    }
}

/// Whether a version of an operation may stand behind all that had ended before it began.
fn is_behind(sorted: &[Ended], most: &[u64], access: &Access, version: u64) -> bool
    requires rising { IsNonDecreasingBy (λ ended. ended.end) sorted.now }
    requires most { AreMost sorted.now most.now }
    ensures { OnTrue result (IsBehind sorted.now access.now version) }
{
    let count = count_before(sorted, access.begin);
    may_follow(access.kind, most[count], version)
}

/// Whether no operation with a version has one that is too low for what had ended before it began. Refused if memory is.
fn are_timely(alloc: Global, accesses: &[Access], versions: &[u64]) -> Result<bool, AllocError>
    ensures { IfOk result (λ timely. timely ≡ true → AreTimely accesses.now versions.now) }
{
    let sorted = sorted_ends(alloc, accesses, versions)?;
    let most = most(alloc, &sorted)?;
    for place in 0..accesses.len() {
        if place < versions.len() {
            if !is_behind(&sorted, &most, &accesses[place], versions[place]) {
                return Ok(false);
            }
        }
    }
    Ok(true)
}

impl Site<'_> {
    /// Whether versions respect the times of the operations, if these count. Refused if memory is.
    pub fn is_timely(&self, alloc: Global, versions: &[u64]) -> Result<bool, AllocError>
        ensures { IfOk result (λ timely. timely ≡ true → self.now.timed ≡ true →
            AreTimely self.now.accesses.now versions.now) }
    {
        if !self.timed {
            return Ok(true);
        }
        let timely = are_timely(alloc, self.accesses, versions)?;
        Ok(timely)
    }
}
