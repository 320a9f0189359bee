//! Two bare ends that exchange a line, each in a thread of its own.

use crate::by_hand::make;
use sci_lanes::{LaneEnd, Lanes};
use sci_words::{Act, AskKind, Event, Extent, LockOp, Op};
use std::test::*;
use std::thread;

/// How often the line goes to node 1 and back.
const EXCHANGES: usize = 500;

/// How often an end tries an event in vain before its thread yields.
const TRIES: u32 = 64;

/// How often an end tries an event before it gives up.
const MOST_TRIES: u32 = 1 << 26;

/// Makes an event as soon as it can be made. None if it couldn't be after very many tries.
fn make_soon(end: &mut LaneEnd, event: &Event) -> Option<()> {
    for tried in 1..MOST_TRIES {
        if make(end, event).is_ok() {
            return Some(());
        }
        if tried % TRIES == 0 {
            thread::yield_now();
        }
    }
    None
}

/// Node 0, which is the home, serves two requests.
const SERVES: [Event; 4] = [
    Event::Serve { from: 1, node: 0 },
    Event::Reply { node: 0 },
    Event::Serve { from: 1, node: 0 },
    Event::Reply { node: 0 },
];

/// Node 1 reads the line, adds 1 to its first word, and writes it back.
const ADDS: [Event; 6] = [
    Event::Issue {
        node: 1,
        op: Op {
            line: 0,
            word: 0,
            act: Act::Lock(LockOp::FetchAdd { datum: 1 }),
        },
    },
    Event::Ask {
        node: 1,
        line: 0,
        kind: AskKind::Mread,
    },
    Event::Accept { from: 0, node: 1 },
    Event::Perform { node: 1, line: 0 },
    Event::Ask {
        node: 1,
        line: 0,
        kind: AskKind::Wback,
    },
    Event::Accept { from: 0, node: 1 },
];

/// Makes these events again and again. None if one of them couldn't be made.
fn repeat(end: &mut LaneEnd, events: &[Event]) -> Option<()> {
    for _exchange in 0..EXCHANGES {
        for event in events {
            make_soon(end, event)?;
        }
    }
    Some(())
}

/// Takes an end through its side of the exchanges, and answers how many operations its node has performed. None if an
/// event couldn't be made.
fn exchanged(mut end: LaneEnd) -> Option<usize> {
    if end.me() == 0 {
        repeat(&mut end, &SERVES)?;
    } else {
        repeat(&mut end, &ADDS)?;
    }
    Some(end.node().log().len())
}

/// Two threads that do nothing but look, fill, publish, read and free take a line 500 times from its home to node 1 and
/// back. Each packet comes, whole, and node 1 performs all its operations.
#[test]
fn two_threads_exchange_a_line(rt: HostRuntime) -> Result<(), Fail> {
    let extent = Extent::new(2, 1, 1).ok_or("an extent")?;
    let (_lanes, ends) = Lanes::new(rt.alloc(), extent, EXCHANGES as u32)?;
    let performed = thread::map_vec(
        &rt,
        ends,
        &|end: LaneEnd| -> Option<usize> { exchanged(end) },
    )?;
    if performed.as_slice() != [Some(0), Some(EXCHANGES)].as_slice() {
        return Err(Fail::new(format_args!("{performed:?}")));
    }
    Ok(())
}
