//! Rows of stations, and of nodes that share a machine under a lock.

use crate::locked::Locked;
use crate::nodes::Nodes;
use crate::row::play;
use crate::running::Running;
use sci_history::Verdict;
use sci_station::Fabric;
use sci_words::{Act, Extent, LockOp, Op};
use std::alloc::Global;
use std::test::*;
use std::thread;

/// Node 0, which is the home, stores. Node 1 asks it for a copy.
const UP_TO_THE_GRANT: &str = "
    submit 0 store 0 0 7 serial 0; turn 0; turn 0; turn 0; perform 0 0 = 0 0 store 0 0 7 = - @1
    submit 1 load 0 0 serial 0; turn 1; turn 0; turn 1
";

/// Node 0 grants the copy, and node 1 loads it.
const THE_GRANT: &str = "turn 0; turn 1; perform 1 0 = 1 0 load 0 0 = 7 @1";

/// Stations by hand: a store at the home, and a load at the other node that joins the home's list.
#[test]
fn stations_by_hand(rt: HostRuntime) -> Result<(), Fail> {
    let mut stations = Running::of(rt.alloc(), (2, 1, 1), 1)?;
    play(rt.alloc(), &mut stations, UP_TO_THE_GRANT)?;
    play(rt.alloc(), &mut stations, "turn 0")?;
    play(rt.alloc(), &mut stations, THE_GRANT)?;
    assert_eq!(rt; stations.log(1).len(), 1);
    Ok(())
}

/// Two transactions of one node at a time, on two lines. The later load is performed first.
const TWO_TRANSACTIONS: &str = "
    submit 1 load 0 0 serial 0; submit 1 load 2 0 serial 1; turn 1; turn 0 served 2; turn 1 accepted 2 ready 0
    perform 1 2 = 1 1 load 2 0 = 0 @0; perform 1 0 = 1 0 load 0 0 = 0 @0
";

/// The log of node 1 after two transactions.
const TWO_LOADS: &str =
    "log 2 2 3\nlast 0 @0 0 0 0 0 0 0 0 0\nlast 1 @0 0 0 0 0 0 0 0 0\nlast 2 @0 0 0 0 0 0 0 0 0\n1 1 load 2 0 = 0 @0\n1 0 load 0 0 = 0 @0\n";

#[test]
fn two_transactions(rt: HostRuntime) -> Result<(), Fail> {
    let mut stations = Running::of(rt.alloc(), (2, 3, 2), 2)?;
    play(rt.alloc(), &mut stations, TWO_TRANSACTIONS)?;
    ends(rt.alloc(), stations, TWO_LOADS)
}

#[test]
fn two_transactions_under_a_lock(rt: HostRuntime) -> Result<(), Fail> {
    let mut nodes = Locked::of(&rt, rt.alloc(), (2, 3, 2), 2)?;
    play(rt.alloc(), &mut nodes, TWO_TRANSACTIONS)?;
    ends(rt.alloc(), nodes, TWO_LOADS)
}

/// The second node's contents are under way when the machine is taken out: its load is in no log.
#[test]
fn a_machine_is_taken_out(rt: HostRuntime) -> Result<(), Fail> {
    let mut nodes = Locked::of(&rt, rt.alloc(), (2, 1, 1), 1)?;
    play(rt.alloc(), &mut nodes, UP_TO_THE_GRANT)?;
    play(rt.alloc(), &mut nodes, "turn 0")?;
    ends(
        rt.alloc(),
        nodes,
        "log 2 2 1\nlast 0 @1 7 0 0 0 0 0 0 0\n0 0 store 0 0 7 = - @1\n",
    )
}

/// The home's last turn by hand, cut after each number of steps, leaves what later turns can finish. It makes as many
/// steps as it may, up to the seventeen of the whole turn. Three take the request of node 1, and twelve send its answer.
/// Two look at lanes of requests where nothing is: no node owes an answer, so the lanes of answers are passed over.
#[test]
fn a_turn_is_cut_anywhere(rt: HostRuntime) -> Result<(), Fail> {
    let alloc = rt.alloc();
    let mut stations = Running::of(alloc, (2, 1, 1), 1)?;
    play(alloc, &mut stations, UP_TO_THE_GRANT)?;
    play(alloc, &mut stations, "turn 0 within 1000 steps 17")?;
    for steps in 0..=17 {
        let mut stations = Running::of(alloc, (2, 1, 1), 1)?;
        play(alloc, &mut stations, UP_TO_THE_GRANT)?;
        let cut = format!(in alloc; "turn 0 within {steps} steps {steps}; turn 0; turn 1")?;
        play(alloc, &mut stations, &cut)?;
        play(alloc, &mut stations, THE_GRANT)?;
    }
    Ok(())
}

/// A station can be moved into another thread, and takes its turn there.
#[test]
fn a_station_moves_into_a_thread(rt: HostRuntime) -> Result<(), Fail> {
    let extent = Extent::new(2, 1, 1).ok_or("an extent")?;
    let (_fabric, mut stations) = Fabric::new(rt.alloc(), extent, 1)?;
    let mut second = stations.pop().ok_or("no second station")?;
    let first = stations.pop().ok_or("no first station")?;
    let child = thread::spawn(&rt, move || {
        second.turn();
        second.me()
    })?;
    let moved = child.join(&rt);
    assert_eq!(rt; moved, 1);
    assert_eq!(rt; first.me(), 0);
    Ok(())
}

/// The causes for which a node refuses an operation, each with nothing changed: what is submitted next gets the next serial.
const REFUSALS: &str = "
    submit 0 load 64 0 refused NoSuchLine; submit 0 load 0 8 refused NoSuchWord; submit 0 load 0 0 serial 0; turn 0
    turn 0; turn 0; perform 0 0 = 0 0 load 0 0 = 0 @0; submit 0 load 0 0 serial 1
    submit 0 load 0 0 refused LineTaken; perform 0 0 = 0 1 load 0 0 = 0 @0
";

/// The causes when as many operations were submitted as there may be. While the last one is pending, its line is taken first.
const FULL: &str = "
    submit 0 load 0 0 serial 65535; submit 0 load 0 0 refused LineTaken; submit 0 load 1 0 refused LogFull
    perform 0 0 = 0 65535 load 0 0 = 65533 @65533; submit 0 load 0 0 refused LogFull
";

/// Fills the log of node 0, of which two operations are done, but for the last one.
fn fill<N: Nodes>(nodes: &mut N) -> Result<(), Fail> {
    let add = Op {
        line: 0,
        word: 0,
        act: Act::Lock(LockOp::FetchAdd { datum: 1 }),
    };
    for serial in 2..65_535 {
        if nodes.submit(0, add)? != Ok(serial) {
            return Err(Fail::from("another serial"));
        }
        for _turn in 0..4 {
            if nodes.perform(0, 0)?.is_some() {
                break;
            }
            let _progress = nodes.turn(0)?;
        }
    }
    Ok(())
}

#[test]
fn station_refusals(rt: HostRuntime) -> Result<(), Fail> {
    let mut stations = Running::of(rt.alloc(), (1, 64, 8), 65_536)?;
    play(rt.alloc(), &mut stations, REFUSALS)?;
    assert_eq!(rt; stations.log(0).len(), 2);
    fill(&mut stations)?;
    play(rt.alloc(), &mut stations, FULL)?;
    assert_eq!(rt; stations.log(0).len(), 65_536);
    Ok(())
}

#[test]
fn refusals_under_a_lock(rt: HostRuntime) -> Result<(), Fail> {
    let mut nodes = Locked::of(&rt, rt.alloc(), (1, 64, 8), 65_536)?;
    play(rt.alloc(), &mut nodes, REFUSALS)?;
    fill(&mut nodes)?;
    play(rt.alloc(), &mut nodes, FULL)?;
    play(
        rt.alloc(),
        &mut nodes,
        "submit 1 load 0 0 refused NoSuchLine",
    )
}

/// An error unless the nodes' logs are lawful and have this text.
pub(crate) fn ends<N: Nodes>(alloc: Global, nodes: N, log: &str) -> Result<(), Fail> {
    let (verdict, text) = nodes.finish(alloc)?;
    if verdict != Verdict::Lawful || text.as_slice() != log.as_bytes() {
        return Err(Fail::new(format_args!("{verdict:?}, or other logs")));
    }
    Ok(())
}
