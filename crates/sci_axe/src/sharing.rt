//! The judgement of a trace whose addresses are shared out among threads.

ghost use Rattle.std.specs.{Prelude.{◌≡◌, ◌+◌, ℕ, IfOk, length, vec_len, filter}, BTreeMap.{get}, Ordering.{nat_cmp}};
ghost use Rattle.sci_judge.specs.{Access.{AreKnown}, Judgement.{IsJudgement}};
ghost use Rattle.sci_axe.specs.Parts.{AreJudged, IsPart, IsPartJudged, is_in_part, last_in, part_of as part_of_address};

use sci_judge::{Access, Judgement, SiteVersions, Trace, Way, judge};
use sci_words::Word;
use std::alloc::{AllocError, Global};
use std::collections::BTreeMap;
use std::thread::{Threads, available_parallelism, map_indices};

/// How many operations a trace has at least if its addresses are shared out among threads. With fewer, starting a thread takes
/// longer than it saves.
const SHARED_OPERATIONS: usize = 65_536;

/// Of how many operations one shows where the addresses are cut: a prime, so that it is in step with few traces.
const SAMPLED: usize = 61;

/// The number of the part that an address is in: how many of the cuts aren't above it.
fn part_of(cuts: &[u64], address: u64) -> usize
    ensures { result ≡ part_of_address cuts.now address }
{
    cuts.iter().filter(|cut| **cut <= address).count()
}

/// The addresses of some of the operations, in their order.
fn sampled(alloc: Global, accesses: &[Access]) -> Result<Vec<u64>, AllocError> {
    let mut sample = Vec::new(alloc);
    for access in accesses.iter().step_by(SAMPLED) {
        sample.push(access.address)?;
    }
    sample.sort_unstable();
    Ok(sample)
}

/// In how many parts a trace is judged: one if it is small, or if versions are taken from one order of all operations, and else
/// one a processor.
fn parts_for<T: Threads>(rt: &T, trace: &Trace, way: Way) -> usize {
    if way.ordered || trace.accesses.len() < SHARED_OPERATIONS {
        return 1;
    }
    match available_parallelism(rt) {
        Ok(processors) => processors.get(),
        Err(_) => 1,
    }
}

/// Where the addresses of a trace are cut, so that each part has about as many operations. There are fewer parts where many
/// operations are at one address, and no cuts if it is judged in one part.
fn cuts_for<T: Threads>(
    rt: &T,
    alloc: Global,
    trace: &Trace,
    way: Way,
) -> Result<Vec<u64>, AllocError> {
    let mut cuts = Vec::new(alloc);
    let parts = parts_for(rt, trace, way);
    if parts < 2 {
        return Ok(cuts);
    }
    let sample = sampled(alloc, &trace.accesses)?;
    let mut low = sample.first().copied().unwrap_or(0);
    for chunk in sample.chunks(sample.len() / parts + 1) {
        let first = chunk[0];
        if low < first {
            cuts.push(first)?;
            low = first;
        }
    }
    Ok(cuts)
}

/// A trace, how it is judged, and where its addresses are cut.
#[derive(Clone, Copy)]
struct Share<'a> {
    trace: &'a Trace,
    way: Way,
    cuts: &'a [u64],
}

impl Share<'_> {
    /// The operations in a part.
    fn accesses(&self, alloc: Global, part: usize) -> Result<Vec<Access>, AllocError>
        ensures { IfOk result (λ there. there.items
            ≡ filter (λ access. is_in_part self.now.cuts.now part access.address) self.now.trace.now.accesses.items) }
    {
        let mut there = Vec::new(alloc);
        for access in &self.trace.accesses {
            if part_of(self.cuts, access.address) == part {
                there.push(*access)?;
            }
        }
        Ok(there)
    }

    /// The last words in a part.
    fn last(&self, alloc: Global, part: usize) -> Result<BTreeMap<u64, Word>, AllocError>
        ensures { IfOk result (λ last. (address : ℕ) →
            get nat_cmp last address ≡ last_in self.now.cuts.now part self.now.trace.now address) }
    {
        let mut last = BTreeMap::new(alloc);
        for (address, word) in self.trace.last.iter() {
            if part_of(self.cuts, *address) == part {
                last.insert(*address, *word)?;
            }
        }
        Ok(last)
    }

    /// A part of the trace.
    fn part(&self, alloc: Global, part: usize) -> Result<Trace, AllocError>
        ensures { IfOk result (IsPart self.now.cuts.now part self.now.trace.now) }
    {
        Ok(Trace {
            accesses: self.accesses(alloc, part)?,
            last: self.last(alloc, part)?,
        })
    }

    /// Keeps the sites in a part.
    fn keep(&self, sites: &mut Vec<SiteVersions>, part: usize)
        ensures { sites.new.items
            ≡ filter (λ site. is_in_part self.now.cuts.now part site.address) sites.old.items }
    {
        sites.retain(|site| part_of(self.cuts, site.address) == part);
    }

    /// Judges a part.
    fn judge(&self, alloc: Global, part: usize) -> Result<Judgement, AllocError>
        requires { AreKnown self.now.trace.now.accesses.items }
        ensures { IfOk result (IsPartJudged self.now.way.timed self.now.cuts.now part self.now.trace.now) }
    {
        match judge(alloc, &self.part(alloc, part)?, self.way)? {
            Judgement::Coherent(mut sites) => {
                self.keep(&mut sites, part);
                Ok(Judgement::Coherent(sites))
            }
            fault => Ok(fault),
        }
    }

    /// The judgement of the trace by those of its parts: that of the first part with a fault, and else the sites of all.
    fn joined(
        &self,
        alloc: Global,
        judgements: Vec<Result<Judgement, AllocError>>,
    ) -> Result<Judgement, AllocError>
        requires count { vec_len judgements ≡ length self.now.cuts.now + 1 }
        requires each { AreJudged self.now.way.timed self.now.cuts.now self.now.trace.now judgements.items }
        ensures { IfOk result (IsJudgement self.now.way.timed self.now.trace.now) }
    {
        let mut explained = Vec::new(alloc);
        for judgement in judgements {
            match judgement? {
                Judgement::Coherent(mut sites) => explained.append(&mut sites)?,
                fault => return Ok(fault),
            }
        }
        Ok(Judgement::Coherent(explained))
    }
}

/// Judges a trace as `sci_judge` does, each part in a thread of its own. Refused only if memory is.
fn judge_by_parts<T: Threads + Sync>(
    rt: &T,
    alloc: Global,
    share: Share<'_>,
) -> Result<Judgement, AllocError>
    requires { AreKnown share.trace.now.accesses.items }
    ensures { IfOk result (IsJudgement share.entry.way.timed share.entry.trace.now) }
{
    let judge_part = move |part: usize| -> Result<Judgement, AllocError>
        requires { AreKnown share.trace.now.accesses.items }
        ensures { IfOk result (IsPartJudged share.entry.way.timed share.entry.cuts.now part share.entry.trace.now) }
    { share.judge(alloc, part) };
    let judgements = map_indices(rt, alloc, share.cuts.len() + 1, &judge_part)?;
    share.joined(alloc, judgements)
}

/// Judges a trace as `sci_judge` does. The addresses of a large one are shared out among the processors, and the judgement is
/// that of one thread. Where memory for the parts is refused, one thread judges the whole, which takes less. Refused only if
/// memory is.
pub(crate) fn judge_shared<T: Threads + Sync>(
    rt: &T,
    alloc: Global,
    trace: &Trace,
    way: Way,
) -> Result<Judgement, AllocError>
    requires { AreKnown trace.now.accesses.items }
    ensures { IfOk result (IsJudgement way.timed trace.now) }
{
    let cuts = cuts_for(rt, alloc, trace, way)?;
    if cuts.is_empty() {
        return judge(alloc, trace, way);
    }
    let share = Share {
        trace,
        way,
        cuts: &cuts,
    };
    match judge_by_parts(rt, alloc, share) {
        Ok(judgement) => Ok(judgement),
        Err(_) => judge(alloc, trace, way),
    }
}
