//! Walks: schedules whose events are taken by chance, from fixed seeds, mostly among the enabled ones. On the way
//! and at the end, what the machine shows is compared with what a plain look at the nodes and at the events that
//! happened gives, and its logs are audited and put into one order. At last each machine comes to rest.

use crate::choices::{any_event, enabled_event};
use crate::network::Network;
use crate::plain_lists::holds;
use crate::walked::{Counts, Happening, OPERATIONS, OTHERS, Walked};
use sci_cache::Held;
use sci_core::LaneKind;
use sci_history::{OrderVerdict, sequential_order};
use sci_home::HomeState;
use sci_random::Random;
use sci_text::{Tap, read_logs};
use sci_words::Extent;
use std::alloc::Global;
use std::test::*;

/// Walks on a machine of this many nodes, lines and slots: of how many seeds, and how many events each tries.
type Walks = (u8, u8, u8, u16, u16);

/// Walks of two to five nodes over a network, with more slots and lines, so that lanes have several packets.
const CROWDED: [Walks; 3] = [(2, 6, 6, 60, 400), (3, 8, 4, 60, 400), (5, 8, 8, 40, 500)];

/// An error if the logs aren't lawful, or have no one order of all entries.
fn audit_logs(alloc: Global, walked: &Walked) -> Result<(), Fail> {
    let text = walked.machine.text(alloc)?;
    let (nodes, logs, last) = read_logs(alloc, &mut Tap::new(text.as_slice()))?;
    if nodes != walked.extent.nodes {
        return Err(Fail::from("logs of another machine"));
    }
    match sequential_order(alloc, &logs, &last)? {
        OrderVerdict::Order(_) => Ok(()),
        found => Err(Fail::new(format_args!("{found:?}"))),
    }
}

/// An error if the machine shows anything that a plain look doesn't give.
fn compare(alloc: Global, walked: &Walked) -> Result<(), Fail> {
    walked.shows_all()?;
    let last = walked.machine.last();
    if last.lines() != walked.extent.lines {
        return Err(Fail::from("the last contents of other lines"));
    }
    for line in 0..last.lines() {
        holds(alloc, walked, line, last.get(line))?;
    }
    audit_logs(alloc, walked)
}

/// One event of a walk, after what the network does. If a plain look finds an event enabled, it must be.
fn step(network: Network, random: &mut Random, walked: &mut Walked) -> Result<(), Fail> {
    network.carry(random, walked)?;
    if random.once_in(16) {
        let event = any_event(random, walked);
        if !network.loses(walked, &event) {
            let _happened = walked.step(&event)?;
        }
        return Ok(());
    }
    for _look in 0..8 {
        if let Some(event) = enabled_event(random, walked) {
            if network.loses(walked, &event) {
                continue;
            }
            if !walked.step(&event)? {
                return Err(Fail::new(format_args!("{event:?} is not enabled")));
            }
            return Ok(());
        }
    }
    Ok(())
}

/// Whether nothing of a line is left at a node or under way from it, and the line's home has it alone.
fn rests(walked: &Walked, n: u8, line: u8) -> bool {
    let machine = &walked.machine;
    let is_home = machine
        .home(line)
        .is_some_and(|home| matches!(home.state(), HomeState::Home(_)));
    let is_out = machine
        .held(n, line)
        .is_some_and(|held| matches!(held, Held::Out(_)));
    is_home && is_out && machine.pending(n, line).is_none()
}

/// How many operations are issued and not yet performed.
fn pending(walked: &Walked) -> u64 {
    let mut pending: u64 = 0;
    for n in 0..walked.extent.nodes {
        for line in 0..walked.extent.lines {
            if walked.machine.pending(n, line).is_some() {
                pending = pending.saturating_add(1);
            }
        }
    }
    pending
}

/// An error if the machine doesn't come to rest within as many events as it may take, or its logs aren't lawful then,
/// or lack an operation.
fn settle(alloc: Global, walked: &mut Walked) -> Result<(), Fail> {
    let extent = walked.extent;
    let entries = u64::from(extent.nodes) * u64::from(extent.lines.min(extent.slots));
    let most = (11 * entries).saturating_add(pending(walked).saturating_mul(9));
    let events = walked.machine.settle()?;
    if u64::from(events) > most {
        return Err(Fail::new(format_args!("{events} events, not {most}")));
    }
    for n in 0..extent.nodes {
        if walked.machine.waiting(n).is_some() {
            return Err(Fail::from("an answer that waits"));
        }
        if walked.machine.entries(n) != walked.issued(n) as usize {
            return Err(Fail::from("an operation that isn't performed"));
        }
        for to in 0..extent.nodes {
            for kind in [LaneKind::Requests, LaneKind::Answers] {
                if walked.machine.count(kind, n, to) > 0 {
                    return Err(Fail::from("a packet under way"));
                }
            }
        }
        for line in 0..extent.lines {
            if !rests(walked, n, line) {
                return Err(Fail::new(format_args!("node {n} and line {line}")));
            }
        }
    }
    audit_logs(alloc, walked)
}

/// What happens in the walk of a seed.
fn walk(alloc: Global, network: Network, walks: Walks, seed: u64) -> Result<Counts, Fail> {
    let (nodes, lines, slots, _seeds, events) = walks;
    let extent = Extent::new(nodes, lines, slots).ok_or("an extent")?;
    let mut random = Random::new(seed);
    let mut walked = Walked::new(alloc, extent)?;
    for place in 0..events {
        if place == events / 2 {
            compare(alloc, &walked)?;
        }
        step(network, &mut random, &mut walked)?;
    }
    compare(alloc, &walked)?;
    settle(alloc, &mut walked)?;
    Ok(walked.counts)
}

/// An error if one of these happened less often.
fn happened(counts: &Counts, each: &[Happening], least: u64) -> Result<(), Fail> {
    for what in each {
        let count = counts.of(*what);
        if count < least {
            return Err(Fail::new(format_args!("{what:?} {count} times")));
        }
    }
    Ok(())
}

/// What happens in walks over a network. If one goes wrong, its seed is printed.
fn walk_over(
    rt: &(impl Eprint + AllocGlobal),
    network: Network,
    all: &[Walks],
) -> Result<Counts, Fail> {
    let mut counts = Counts::none();
    for walks in all {
        for seed in 0..u64::from(walks.3) {
            match walk(rt.alloc(), network, *walks, seed) {
                Ok(more) => counts.add(&more),
                Err(fail) => {
                    let _ = rt.eprintln(format_args!("walks {walks:?}, seed {seed}"));
                    return Err(fail);
                }
            }
        }
    }
    Ok(counts)
}

/// An error if a walk of these goes wrong, or if in them all an operation or something else happens less often.
fn walk_all(
    rt: &(impl Eprint + AllocGlobal),
    all: &[Walks],
    operations: u64,
    others: u64,
) -> Result<(), Fail> {
    let counts = walk_over(rt, Network::Ordered, all)?;
    happened(&counts, &OPERATIONS, operations)?;
    happened(&counts, &OTHERS, others)
}

#[test]
fn walks_of_two_nodes(rt: HostRuntime) -> Result<(), Fail> {
    let all = [(2, 1, 1, 400, 200), (2, 3, 1, 200, 200)];
    walk_all(&rt, &all, 3_000, 300)
}

#[test]
fn walks_of_three_nodes(rt: HostRuntime) -> Result<(), Fail> {
    let all = [(3, 1, 1, 400, 200), (3, 4, 2, 200, 240)];
    walk_all(&rt, &all, 3_000, 100)
}

#[test]
fn walks_of_four_nodes(rt: HostRuntime) -> Result<(), Fail> {
    let all = [(4, 1, 2, 300, 240), (4, 8, 3, 200, 300)];
    walk_all(&rt, &all, 2_000, 100)
}

#[test]
fn walks_of_five_and_six_nodes(rt: HostRuntime) -> Result<(), Fail> {
    let all = [(5, 2, 2, 200, 300), (6, 1, 1, 200, 300)];
    walk_all(&rt, &all, 1_500, 5)
}

#[test]
fn walks_of_seven_to_twelve_nodes(rt: HostRuntime) -> Result<(), Fail> {
    let all = [
        (7, 3, 1, 80, 400),
        (8, 16, 4, 40, 400),
        (10, 1, 8, 80, 400),
        (12, 5, 2, 40, 400),
    ];
    walk_all(&rt, &all, 1_000, 50)
}

#[test]
fn walks_of_sixteen_nodes(rt: HostRuntime) -> Result<(), Fail> {
    let all = [(16, 1, 1, 50, 800), (16, 2, 1, 50, 800)];
    walk_all(&rt, &all, 200, 2)
}

#[test]
fn walks_of_many_nodes_and_lines(rt: HostRuntime) -> Result<(), Fail> {
    let all = [(15, 6, 8, 60, 800), (16, 64, 8, 4, 800)];
    walk_all(&rt, &all, 100, 4)
}

#[test]
fn walks_over_a_network_that_keeps_no_order(rt: HostRuntime) -> Result<(), Fail> {
    let counts = walk_over(&rt, Network::Unordered, &CROWDED)?;
    happened(&counts, &OTHERS, 100)?;
    happened(&counts, &[Happening::Overtook], 1_000)
}

#[test]
fn walks_over_a_network_that_loses_packets(rt: HostRuntime) -> Result<(), Fail> {
    let counts = walk_over(&rt, Network::Losing, &CROWDED)?;
    happened(&counts, &OTHERS, 50)?;
    happened(&counts, &[Happening::PassedALostOne], 100)
}
