//! Nodes that issue their operations in order.

use sci_history::Logs;
use sci_text::Script;
use sci_threads::{YieldingGate, run_in_order, run_nodes};
use sci_words::{Act, Extent, LockOp, Op, Reply};
use std::alloc::Global;
use std::sync::atomic::AtomicU64;
use std::test::*;
use std::thread::Threads;

/// As many turns as a run may take: a node goes on turning while the system lets another's thread wait.
const TURNS: u32 = 1_000_000_000;

/// The logs of a script that is run in order. An error if it doesn't end, or an entry doesn't stand at its serial.
fn ran<T: Threads + Sync>(rt: &T, alloc: Global, script: &Script) -> Result<Logs, Fail> {
    let done = AtomicU64::new(0);
    let gates = YieldingGate::for_nodes(alloc, script.extent().nodes, &done)?;
    let (logs, _last, finished) = run_in_order(rt, alloc, script, gates, TURNS)?;
    if !finished {
        return Err(Fail::from("a run that didn't end"));
    }
    for node in 0..logs.nodes() {
        for (place, entry) in logs.of(node).iter().enumerate() {
            if entry.serial as usize != place {
                return Err(Fail::from("an entry out of order"));
            }
        }
    }
    Ok(logs)
}

/// An operation on word 0 of a line.
fn on(line: u8, act: Act) -> Op {
    Op { line, word: 0, act }
}

/// What a node's second operation got.
fn second_reply(logs: &Logs, node: u8) -> Result<u64, Fail> {
    if node >= logs.nodes() {
        return Err(Fail::from("no such node"));
    }
    let entry = logs.of(node).get(1).ok_or("no second entry")?;
    match entry.reply {
        Reply::Got(word) => Ok(word),
        _ => Err(Fail::from("a reply without a word")),
    }
}

/// Of two nodes that each store to a line and then load the other's, one at least sees the other's store.
#[test]
fn a_store_is_seen_by_one_at_least(rt: HostRuntime) -> Result<(), Fail> {
    let alloc = rt.alloc();
    let extent = Extent::new(2, 2, 2).ok_or("an extent")?;
    let mut script = Script::new(alloc, extent);
    for (node, op) in [
        (0, on(0, Act::Store(1))),
        (0, on(1, Act::Load)),
        (1, on(1, Act::Store(1))),
        (1, on(0, Act::Load)),
    ] {
        if script.push(node, op).is_err() {
            return Err(Fail::from("an operation that was refused"));
        }
    }
    for _run in 0..20 {
        let logs = ran(&rt, alloc, &script)?;
        let first = second_reply(&logs, 0)?;
        let second = second_reply(&logs, 1)?;
        assert!(rt; first == 1 || second == 1);
    }
    Ok(())
}

/// Four nodes go through eight lines, each in an order of its own.
#[test]
fn entries_stand_in_the_order_of_the_script(rt: HostRuntime) -> Result<(), Fail> {
    let alloc = rt.alloc();
    let extent = Extent::new(4, 8, 2).ok_or("an extent")?;
    let mut script = Script::new(alloc, extent);
    for time in 0..100 {
        for (node, stride) in [(0, 1), (1, 3), (2, 5), (3, 7)] {
            let op = on(
                time % 8 * stride % 8,
                Act::Lock(LockOp::FetchAdd { datum: 1 }),
            );
            if script.push(node, op).is_err() {
                return Err(Fail::from("an operation that was refused"));
            }
        }
    }
    let logs = ran(&rt, alloc, &script)?;
    for node in 0..4 {
        assert_eq!(rt; logs.of(node).len(), 100);
    }
    Ok(())
}

/// How many operations each of two nodes has in the run for which memory is refused.
const ADDITIONS: u64 = 10;

/// Two nodes that each add to one word. An operation is pushed again if memory is refused.
fn additions(alloc: Global) -> Result<Script, Fail> {
    let extent = Extent::new(2, 1, 1).ok_or("an extent")?;
    let mut script = Script::new(alloc, extent);
    for _time in 0..ADDITIONS {
        for node in 0..2 {
            let op = on(0, Act::Lock(LockOp::FetchAdd { datum: 1 }));
            if script.push(node, op).is_err() && script.push(node, op).is_err() {
                return Err(Fail::from("refused twice"));
            }
        }
    }
    Ok(script)
}

/// The logs of a run by threads, the word that it ends with, and whether it has ended; or None if memory is refused.
fn added<T: Threads + Sync>(rt: &T, alloc: Global, script: &Script) -> Option<(Logs, u64, bool)> {
    let done = AtomicU64::new(0);
    let gates = YieldingGate::for_nodes(alloc, script.extent().nodes, &done).ok()?;
    let (logs, last, finished) = run_nodes(rt, alloc, script, gates, 20_000).ok()?;
    if last.lines() == 0 {
        return None;
    }
    Some((logs, last.get(0).line.word(0), finished))
}

/// A run that is refused memory says so, and the same run then gives its logs: as many additions as the word counts, and
/// all of them if the run has ended.
#[test]
fn memory_for_a_run(rt: HostRuntime) -> Result<(), Fail> {
    let alloc = rt.alloc();
    let script = additions(alloc)?;
    let (logs, word, finished) = match added(&rt, alloc, &script) {
        Some(run) => run,
        None => added(&rt, alloc, &script).ok_or("refused twice")?,
    };
    let logged = logs.of(0).len() as u64 + logs.of(1).len() as u64;
    assert_eq!(rt; word, logged);
    assert!(rt; !finished || logged == 2 * ADDITIONS);
    Ok(())
}
