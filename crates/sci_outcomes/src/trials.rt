//! A script that is run many times, and its outcomes.

ghost use Rattle.std.specs.{Prelude.{◌≡◌, ◌≤◌, ◌<◌, List, IfErr, IfOk}, Thread.{IsSync}};
ghost use Rattle.sci_runs.specs.declared.fault.RunFault.TheVariants.{TooMany};
ghost use Rattle.sci_outcomes.specs.declared.fault.TrialsFault.TheVariants.{Crowded, GivenUp};
ghost use Rattle.sci_outcomes.specs.declared.trials.Turns.TheVariants.{Drawn, Threads};
ghost use Rattle.sci_outcomes.specs.{Rows.{HasCounted}, declared.outcome.Sighting.{Sighting}};
ghost use Rattle.sci_outcomes.specs.Trials.{AreCrowdedBelow, AreSeenOf, AreWithin, AreWrittenBy, IsCount, IsCountOf, IsDrawnSighting, IsGivenUp};
ghost use Rattle.sci_outcomes.specs.Trials.{IsSightingOf, IsThreadSighting, OneIsGivenUp, OneIsGivenUpBelow, RunsAreCrowded};

use crate::fault::TrialsFault;
use crate::histogram::Histogram;
use crate::outcome::{Sighting, seen};
use sci_allowed::{Place, written_places};
use sci_drive::Issuing;
use sci_runs::{RunFault, RunPlan, run_script};
use sci_text::Script;
use sci_threads::{YieldingGate, run_to_machine};
use sci_words::MAX_TURNS;
use std::alloc::Global;
use std::sync::atomic::AtomicU64;
use std::thread::{Threads, available_parallelism, join};

/// In which order the nodes of runs take turns.
#[derive(Clone, Copy, Debug, PartialEq, Eq)]
pub enum Turns {
    /// In an order that is drawn: from this seed in the first run, and from the next number in each further run; 0 follows
    /// 2^64 - 1.
    Drawn { seed: u64 },
    /// As it comes: each node has a thread of its own.
    Threads,
}

/// How many operations all runs have at least if they are shared out among threads. With fewer, starting a thread takes longer
/// than it saves.
const SHARED_OPERATIONS: u64 = 4_096;

/// How many operations the outcomes of all runs have at most, each that differs with all operations of the script. So they take
/// less than a gigabyte.
pub const MAX_KEPT: u64 = 16_000_000;

const _: () = prove!(MAX_KEPT == 16_000_000);

/// How many operations the runs have at most that are shared out at a time, unless one run has more. Until they are done, an
/// outcome may be kept by several threads.
const BATCH_OPERATIONS: u64 = 4_000_000;

/// How a script is run many times.
#[derive(Clone, Copy)]
pub(crate) struct Trials {
    /// How many runs there are.
    pub(crate) runs: u64,
    /// In which order the nodes take turns.
    pub(crate) turns: Turns,
    /// When the operations of a node are submitted.
    pub(crate) issuing: Issuing,
}

impl Turns {
    ghost use Rattle.std.specs.Prelude.{◌≡◌};
    ghost use Rattle.sci_outcomes.specs.Trials.{turns_of_run};

    /// In which order the nodes take turns in the run with this number.
    fn of_run(self, number: u64) -> Turns
        ensures { result ≡ turns_of_run self number }
    {
        match self {
            Turns::Drawn { seed } => Turns::Drawn {
                seed: seed.wrapping_add(number),
            },
            Turns::Threads => Turns::Threads,
        }
    }
}

/// A script, the words that it may write, and how it is run.
#[derive(Clone, Copy)]
struct Litmus<'a> {
    script: &'a Script,
    places: &'a [Place],
    turns: Turns,
    issuing: Issuing,
}

/// Runs of a script, from one number up to another one, and how many threads make them at least.
#[derive(Clone, Copy)]
struct Share {
    start: u64,
    end: u64,
    threads: usize,
}

impl Share {
    ghost use Rattle.std.specs.Prelude.{◌≡◌, ◌≤◌, ◌<◌};

    /// The first half of the runs, and the others, each with half of the threads. Requires two threads.
    fn halves(self) -> (Share, Share)
        requires rising { self.start ≤ self.end }
        requires threads { 1 < self.threads }
        ensures start { result.0.start ≡ self.start }
        ensures middle { result.0.end ≡ result.1.start }
        ensures end { result.1.end ≡ self.end }
        ensures low { result.0.start ≤ result.0.end }
        ensures high { result.1.start ≤ result.1.end }
        ensures fewer { result.0.threads < self.threads }
        ensures same { result.1.threads ≡ result.0.threads }
    {
        let middle = self.start + (self.end - self.start) / 2;
        let threads = self.threads - self.threads / 2;
        let low = Share {
            start: self.start,
            end: middle,
            threads,
        };
        let high = Share {
            start: middle,
            end: self.end,
            threads,
        };
        (low, high)
    }
}

/// Runs a script in an order that is drawn from a seed, and gives what is seen of the run. Refused if memory is, and as too
/// many if there are more than 500,000 events, or if 1,000,000,000 turns are used up before each operation is performed.
fn drawn_run(alloc: Global, litmus: Litmus<'_>, seed: u64) -> Result<Sighting, RunFault>
    requires { AreWrittenBy litmus.script.now litmus.places.now }
    ensures seen { IfOk result (IsDrawnSighting litmus.entry.script.now litmus.entry.issuing seed) }
    ensures given_up { IfErr result (λ fault. fault ≡ TooMany →
        IsGivenUp litmus.entry.script.now (Drawn seed) litmus.entry.issuing) }
{
    let plan = RunPlan {
        seed: Some(seed),
        issuing: litmus.issuing,
        turns: u64::from(MAX_TURNS),
    };
    let run = run_script(alloc, litmus.script, plan)?;
    if !run.done {
        return Err(RunFault::TooMany);
    }
    Ok(seen(alloc, litmus.places, run.machine)?)
}

/// Runs a script with one thread a node, each for at most 1,000,000,000 turns, and gives what is seen of the run. Refused if
/// memory is, and as too many if a node's turns are used up before each operation is performed.
fn threaded_run<R: Threads + Sync>(
    rt: &R,
    alloc: Global,
    litmus: Litmus<'_>,
) -> Result<Sighting, RunFault>
    requires { AreWrittenBy litmus.script.now litmus.places.now }
    ensures seen { IfOk result (IsThreadSighting litmus.entry.script.now litmus.entry.issuing) }
    ensures given_up { IfErr result (λ fault. fault ≡ TooMany →
        IsGivenUp litmus.entry.script.now Threads litmus.entry.issuing) }
{
    let done = AtomicU64::new(0);
    let gates = YieldingGate::for_nodes(alloc, litmus.script.extent().nodes, &done)?;
    let (machine, finished) = run_to_machine(
        rt,
        alloc,
        litmus.script,
        gates,
        litmus.issuing,
        MAX_TURNS,
    )?;
    if !finished {
        return Err(RunFault::TooMany);
    }
    Ok(seen(alloc, litmus.places, machine)?)
}

/// Runs a script in such an order of turns, and gives what is seen of the run. Refused as `outcomes` is.
fn one_run<R: Threads + Sync>(
    rt: &R,
    alloc: Global,
    litmus: Litmus<'_>,
    turns: Turns,
) -> Result<Sighting, RunFault>
    requires { AreWrittenBy litmus.script.now litmus.places.now }
    ensures seen { IfOk result (IsSightingOf litmus.entry.script.now turns litmus.entry.issuing) }
    ensures given_up { IfErr result (λ fault. fault ≡ TooMany →
        IsGivenUp litmus.entry.script.now turns litmus.entry.issuing) }
{
    match turns {
        Turns::Drawn { seed } => drawn_run(alloc, litmus, seed),
        Turns::Threads => threaded_run(rt, alloc, litmus),
    }
}

/// Counts the outcomes of runs one after another. Refused as `outcomes` is.
fn counted_in_turn<R: Threads + Sync>(
    rt: &R,
    alloc: Global,
    litmus: Litmus<'_>,
    share: Share,
) -> Result<Histogram, RunFault>
    requires written { AreWrittenBy litmus.script.now litmus.places.now }
    requires rising { share.start ≤ share.end }
    ensures { IsCount litmus.entry.script.now litmus.entry.turns litmus.entry.issuing
        share.start share.end result }
{
    let mut histogram = Histogram::new(alloc);
    for number in share.start..share.end {
        let sighting = one_run(rt, alloc, litmus, litmus.turns.of_run(number))?;
        histogram.add(sighting)?;
    }
    Ok(histogram)
}

/// Counts the outcomes of runs, by as many threads as the share has at least. Refused as `outcomes` is.
#[cycle(shares)]
fn counted_by_threads<R: Threads + Sync>(
    rt: &R,
    alloc: Global,
    litmus: Litmus<'_>,
    share: Share,
) -> Result<Histogram, RunFault>
    requires written { AreWrittenBy litmus.script.now litmus.places.now }
    requires rising { share.start ≤ share.end }
    ensures { IsCount litmus.entry.script.now litmus.entry.turns litmus.entry.issuing
        share.start share.end result }
{
    if share.threads < 2 {
        return counted_in_turn(rt, alloc, litmus, share);
    }
    let (low, high) = share.halves();
    let front = move || -> Result<Histogram, RunFault>
        requires { IsSync R.row × AreWrittenBy litmus.script.now litmus.places.now × (low.start ≤ low.end) }
        ensures { IsCount litmus.entry.script.now litmus.entry.turns litmus.entry.issuing low.start low.end result }
    { counted_by_threads(rt, alloc, litmus, low) };
    let back = move || -> Result<Histogram, RunFault>
        requires { IsSync R.row × AreWrittenBy litmus.script.now litmus.places.now × (high.start ≤ high.end) }
        ensures { IsCount litmus.entry.script.now litmus.entry.turns litmus.entry.issuing high.start high.end result }
    { counted_by_threads(rt, alloc, litmus, high) };
    let (first, second) = join(rt, front, back);
    let mut histogram = first?;
    histogram.absorb(second?)?;
    Ok(histogram)
}

/// How many threads make these runs: one if each node has a thread of its own or there is little to do, and else one a processor.
fn threads_for<R: Threads>(rt: &R, litmus: Litmus<'_>, runs: u64) -> usize {
    let operations = runs.saturating_mul(litmus.script.operations().len() as u64);
    match litmus.turns {
        Turns::Drawn { .. } if operations >= SHARED_OPERATIONS => match available_parallelism(rt) {
            Ok(processors) => processors.get(),
            Err(_) => 1,
        },
        _ => 1,
    }
}

/// How many runs are shared out at a time, if each has this number of operations.
fn batch_of(operations: u64) -> u64
    ensures { 0 < result }
{
    match BATCH_OPERATIONS.checked_div(operations) {
        Some(runs) => runs.max(1),
        None => BATCH_OPERATIONS,
    }
}

/// Counts the outcomes of all runs, batch after batch, each by as many threads as the share has at least. Refused as `counted`
/// is.
fn counted_in_batches<R: Threads + Sync>(
    rt: &R,
    alloc: Global,
    litmus: Litmus<'_>,
    all: Share,
) -> Result<Histogram, TrialsFault>
    requires written { AreWrittenBy litmus.script.now litmus.places.now }
    requires first { all.start ≡ 0 }
    ensures counted { IfOk result (IsCountOf litmus.entry.script.now litmus.entry.turns litmus.entry.issuing 0 all.end) }
    ensures within { IfOk result (AreWithin litmus.entry.script.now) }
    ensures given_up { IfErr result (λ fault. fault ≡ GivenUp →
        OneIsGivenUpBelow litmus.entry.script.now litmus.entry.turns litmus.entry.issuing all.end) }
    ensures crowded { IfErr result (λ fault. fault ≡ Crowded →
        AreCrowdedBelow litmus.entry.script.now litmus.entry.turns litmus.entry.issuing all.end) }
{
    let operations = litmus.script.operations().len() as u64;
    let batch = batch_of(operations);
    let mut histogram = Histogram::new(alloc);
    let mut start = all.start;
    'batches: while start < all.end {
        let end = start + batch.min(all.end - start);
        let share = Share { start, end, ..all };
        histogram.absorb(counted_by_threads(rt, alloc, litmus, share)?)?;
        if histogram.is_crowded(operations, MAX_KEPT) {
            return Err(TrialsFault::Crowded);
        }
        start = end;
    }
    Ok(histogram)
}

/// Runs a script many times, and counts how often each outcome came. Each run is whole: each operation of the script has just
/// one entry. The logs of each run are lawful. Refused if memory is; as given up if a run isn't done after 1,000,000,000 turns,
/// by threads of one node and else of all together, or if a run in an order that is drawn has more than 500,000 events; and as
/// crowded if the outcomes have more than 16,000,000 operations in all, each that differs with all operations of the script.
/// Runs in drawn orders are shared out among the processors, and the answer is that of one thread.
pub(crate) fn counted<R: Threads + Sync>(
    rt: &R,
    alloc: Global,
    script: &Script,
    trials: Trials,
) -> Result<Histogram, TrialsFault>
    ensures counted { IfOk result (λ histogram. (seen : List Sighting)
        × AreSeenOf script.now trials seen × HasCounted histogram seen) }
    ensures within { IfOk result (AreWithin script.now) }
    ensures given_up { IfErr result (λ fault. fault ≡ GivenUp → OneIsGivenUp script.now trials) }
    ensures crowded { IfErr result (λ fault. fault ≡ Crowded → RunsAreCrowded script.now trials) }
{
    let places = written_places(alloc, script.extent().lines, script.operations())?;
    let litmus = Litmus {
        script,
        places: &places,
        turns: trials.turns,
        issuing: trials.issuing,
    };
    let all = Share {
        start: 0,
        end: trials.runs,
        threads: threads_for(rt, litmus, trials.runs),
    };
    counted_in_batches(rt, alloc, litmus, all)
}
