//! Stations that are finished: in any order, with packets under way, and after a refusal.

use crate::given::{ORDERS, op, stored};
use crate::nodes::Nodes;
use crate::running::{Running, finished};
use sci_history::{Entry, Verdict};
use sci_lanes::FinishFault;
use sci_station::Finished;
use sci_words::{Act, Event, Extent, LockOp, Reply};
use std::alloc::Global;
use std::test::*;

/// A station performs what it can on line 0, and takes a turn.
fn go(running: &mut Running, node: u8) -> Result<(), Fail> {
    let _entry = running.perform(node, 0)?;
    let _progress = running.turn(node)?;
    Ok(())
}

/// Runs two stations until node 0 has stored 7 and its copy is under way to node 1, which loads.
fn run_to_a_copy(running: &mut Running) -> Result<(), Fail> {
    let _serial = running.submit(0, op(Act::Store(7)))??;
    for node in [0, 0, 0, 0] {
        go(running, node)?;
    }
    let _serial = running.submit(1, op(Act::Load))??;
    for node in [1, 0, 1, 0] {
        go(running, node)?;
    }
    Ok(())
}

/// Two stations of which node 0 has stored 7, and its copy is under way to node 1.
fn with_a_copy_under_way(alloc: Global) -> Result<Running, Fail> {
    let mut running = Running::of(alloc, (2, 1, 1), 1)?;
    run_to_a_copy(&mut running)?;
    Ok(running)
}

/// An error unless node 0's store is all that was done.
fn has_the_store_alone(finished: &Finished) -> Result<(), Fail> {
    if finished.logs.of(0) != [stored(0, 7, 1)].as_slice() || !finished.logs.of(1).is_empty() {
        return Err(Fail::from("the logs"));
    }
    if finished.last.lines() != 1 || finished.last.get(0).version != 1 {
        return Err(Fail::from("the last version"));
    }
    Ok(())
}

/// The copy that is under way is the last contents, and the load is in no log.
#[test]
fn a_copy_under_way_is_last(rt: HostRuntime) -> Result<(), Fail> {
    let running = with_a_copy_under_way(rt.alloc())?;
    has_the_store_alone(&finished(rt.alloc(), running)?)
}

/// The machine that the stations made goes on: the copy arrives, and the load is performed on it.
#[test]
fn a_joined_machine_goes_on(rt: HostRuntime) -> Result<(), Fail> {
    let running = with_a_copy_under_way(rt.alloc())?;
    let mut machine = running.joined(rt.alloc())?;
    for event in [
        Event::Accept { from: 0, node: 1 },
        Event::Perform { node: 1, line: 0 },
    ] {
        if machine.apply(&event).is_err() {
            return Err(Fail::from("not enabled"));
        }
    }
    let (logs, _last) = machine.finish(rt.alloc());
    let loaded = Entry {
        node: 1,
        serial: 0,
        op: op(Act::Load),
        reply: Reply::Got(7),
        version: 1,
    };
    assert_eq!(rt; logs.of(1), [loaded].as_slice());
    Ok(())
}

/// The same with an allocation refused: then there is no machine, or finishing gives all back and is done the second time.
#[test]
fn a_refused_finish_gives_all_back(rt: HostRuntime) -> Result<(), Fail> {
    let extent = Extent::new(2, 1, 1).ok_or("an extent")?;
    let Ok(mut running) = Running::new(rt.alloc(), extent, 1) else {
        return Ok(());
    };
    run_to_a_copy(&mut running)?;
    has_the_store_alone(&finished(rt.alloc(), running)?)
}

/// Without any station the fabric comes back; with all of them, in the other order, it is finished.
#[test]
fn a_fabric_waits_for_its_stations(rt: HostRuntime) -> Result<(), Fail> {
    let running = with_a_copy_under_way(rt.alloc())?;
    let mut running = running.without_any(rt.alloc())?;
    running.swap(0, 1)?;
    has_the_store_alone(&finished(rt.alloc(), running)?)
}

/// Without one station it isn't finished, however often it is tried.
#[test]
fn a_lost_station_is_missing(rt: HostRuntime) -> Result<(), Fail> {
    let mut running = with_a_copy_under_way(rt.alloc())?;
    running.lose()?;
    for _attempt in 0..3 {
        running = match running.finished(rt.alloc()) {
            Err((FinishFault::Missing, running)) => running,
            _ => return Err(Fail::from("finished without a station")),
        };
    }
    Ok(())
}

/// Three stations that add to one word, after this many rounds.
fn adding(alloc: Global, rounds: usize) -> Result<Running, Fail> {
    let mut running = Running::of(alloc, (3, 1, 1), 1)?;
    for node in 0..3 {
        let add = op(Act::Lock(LockOp::FetchAdd { datum: 1 }));
        let _serial = running.submit(node, add)??;
    }
    for _round in 0..rounds {
        for node in [2, 0, 1] {
            go(&mut running, node)?;
        }
    }
    Ok(running)
}

/// After each number of rounds the stations are finished in each order, with whatever is under way.
#[test]
fn stations_are_finished_in_every_order(rt: HostRuntime) -> Result<(), Fail> {
    for rounds in 0..12 {
        for order in &ORDERS {
            let mut running = adding(rt.alloc(), rounds)?;
            for (first, second) in order {
                running.swap(*first, *second)?;
            }
            let (verdict, text) = running.finish(rt.alloc())?;
            if verdict != Verdict::Lawful {
                return Err(Fail::from(verdict));
            }
            if rounds == 11 && !text.starts_with(b"log 2 3 1\nlast 0 @3 3 ") {
                return Err(Fail::from("not all have added"));
            }
        }
    }
    Ok(())
}
