//! What each node does of a script.

ghost use Rattle.std.specs.Prelude.{◌≡◌, ◌<◌, ◌≤◌, ◌↔◌, ℕ, List, All, IfOk, IsOk, Ok, true, false};
ghost use Rattle.std.specs.Prelude.{length, map, slice_index_or};
ghost use Rattle.sci_words.specs.declared.limits.TheConstants.{MAX_OPERATIONS};
ghost use Rattle.sci_drive.specs.Driving.{HasSubmittedNothing};
ghost use Rattle.sci_station.specs.Station.{node_in};
ghost use Rattle.sci_lanes.specs.Shown.{me_of};
ghost use Rattle.sci_threads.specs.Shares.{AllGoOn, AreWell, IsLaterShare, HasAtMost, HasEnded, HaveFewer, IsOpened, IsWell};
ghost use Rattle.sci_text.specs.Script.{operations_of};
ghost use Rattle.sci_threads.specs.Shares.{own_of};

use crate::share::Share;
use crate::start::Start;
use sci_drive::{Driver, Gate, Issuing, new_drivers_may_drive};
use sci_station::Station;
use sci_words::{MAX_NODES, Op};
use std::alloc::{AllocError, Global};
use std::thread;
use std::thread::Threads;

/// What the nodes of a run do: the operations of each, when they are submitted, and how many turns each may take.
#[derive(Clone, Copy)]
pub struct ThreadPlan<'a> {
    /// The operations of each node, at most 65,536, in their order.
    pub operations: &'a [Vec<Op>],
    pub issuing: Issuing,
    /// How many turns a node may take.
    pub turns: u32,
}

/// Each share that has not ended goes on for a turn. Whether one has not ended then.
fn go_round<G: Gate>(shares: &mut [Share<'_, G>]) -> bool
    requires well { AreWell shares.old }
    ensures well { AreWell shares.new }
    ensures gone { AllGoOn G.hears shares.old shares.new }
    ensures fewer { HaveFewer shares.old shares.new }
    ensures ended { result ≡ false → All HasEnded shares.new }
{
    let mut more = false;
    for n in 0..shares.len() {
        shares[n].go_on(1);
        if !shares[n].has_ended() {
            more = true;
        }
    }
    more
}

/// All shares go on in this thread, a turn each in a circle, until all have ended.
fn go_on_in_a_circle<G: Gate>(shares: &mut [Share<'_, G>], turns: u32)
    requires well { AreWell shares.old }
    requires few { All (HasAtMost turns) shares.old }
    ensures well { AreWell shares.new }
    ensures gone { AllGoOn G.hears shares.old shares.new }
    ensures ended { All HasEnded shares.new }
{
    for _round in 0..turns {
        if !go_round(shares) {
            return;
        }
    }
}

/// Drives each station in a thread of its own, for at most as many turns as it has left. If a thread can't be made, all go
/// on in this one, a turn each in a circle.
// Out of line, so that what the turns have on the stack is free again when it returns.
#[inline(never)]
pub(crate) fn run_all<R: Threads + Sync, G: Gate + Send>(
    rt: &R,
    shares: &mut [Share<'_, G>],
    turns: u32,
)
    requires well { AreWell shares.old }
    requires few { All (HasAtMost turns) shares.old }
    ensures well { AreWell shares.new }
    ensures gone { AllGoOn G.hears shares.old shares.new }
    ensures ended { All HasEnded shares.new }
{
    let start = Start::new(shares.len());
    let run = |_place: usize, share: &mut Share<'_, G>|
        requires { IsWell share.now.driver share.now.station.end share.now.finished }
        ensures { IsLaterShare G.hears share.entry.now share.exit.now
            × IsWell share.exit.now.driver share.exit.now.station.end share.exit.now.finished }
    { share.run(&start) };
    thread::for_each_mut(rt, shares, MAX_NODES as usize, &run);
    go_on_in_a_circle(shares, turns);
}

/// The stations, and whether all have finished. Refused if memory is, or was to one of them.
// Out of line, so that the places of its stations on the stack are free again when it returns.
#[inline(never)]
pub(crate) fn gathered<G: Drop>(
    alloc: Global,
    shares: Vec<Share<'_, G>>,
) -> Result<(Vec<Station>, bool), AllocError>
    ensures stations { IfOk result
        (λ all. all.0.items ≡ map (λ share. share.station) shares.entry.items) }
    ensures finished { IfOk result (λ all.
        (all.1 ≡ true) ↔ All (λ share. share.finished ≡ Ok true) shares.entry.items) }
    ensures unrefused { IfOk result
        (λ all. All (λ share. IsOk share.finished) shares.entry.items) }
{
    let mut stations = Vec::with_capacity(alloc, shares.len())?;
    let mut all = true;
    for share in shares {
        let Share {
            station,
            finished,
            ..
        } = share;
        if !finished? {
            all = false;
        }
        stations.push(station)?;
    }
    Ok((stations, all))
}

/// The shares of all nodes, of which none has done anything. Refused if memory is.
// Out of line, so that the places of its stations on the stack are free again when it returns.
#[inline(never)]
pub(crate) fn shares<'a, G: Drop>(
    alloc: Global,
    stations: Vec<Station>,
    gates: Vec<G>,
    plan: ThreadPlan<'a>,
) -> Result<Vec<Share<'a, G>>, AllocError>
    requires gates { length gates.items ≡ length stations.items }
    requires known { All
        (λ station. me_of station.end.part < length plan.operations.now) stations.items }
    requires few { All (λ own. length own.items ≤ MAX_OPERATIONS) plan.operations.now }
    requires fresh { All (λ station. HasSubmittedNothing (node_in station)) stations.items }
    ensures stations { IfOk result
        (λ shares. map (λ share. share.station) shares.items ≡ stations.items) }
    ensures gates { IfOk result
        (λ shares. map (λ share. share.gate) shares.items ≡ gates.items) }
    ensures well { IfOk result (λ shares. AreWell shares.items) }
    ensures opened { IfOk result (λ shares. All
        (IsOpened plan.entry.issuing (own_of plan.entry.operations.now) plan.entry.turns)
        shares.items) }
{
    new_drivers_may_drive();
    let mut shares = Vec::with_capacity(alloc, stations.len())?;
    for (station, gate) in stations.into_iter().zip(gates) {
        let own = &plan.operations[station.me() as usize];
        shares.push(Share {
            driver: Driver::new(own, plan.issuing),
            station,
            gate,
            left: plan.turns,
            finished: Ok(false),
        })?;
    }
    Ok(shares)
}
