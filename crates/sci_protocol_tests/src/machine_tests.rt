//! What no row says of a machine: a run, a copy, and an operation that a schedule can't say.

use crate::bounded::Bounded;
use crate::reading::{extent_of, schedule_of};
use sci_core::*;
use sci_history::Entry;
use sci_words::{Act, AskKind, Event, Extent, Line, Op, Reply, Stamped};
use std::process::Abort;
use std::test::*;

fn store(word: u64) -> Op {
    Op {
        line: 0,
        word: 0,
        act: Act::Store(word),
    }
}

/// Line 0 with this word first, at version 1.
fn stored(word: u64) -> Stamped {
    Stamped {
        line: Line::zero().with(0, word),
        version: 1,
    }
}

/// One node takes line 0 to write, and stores 7.
pub fn schedule() -> [Event; 6] {
    let node = 0;
    let from = 0;
    [
        Event::Issue { node, op: store(7) },
        Event::Ask {
            node,
            line: 0,
            kind: AskKind::Mread,
        },
        Event::Serve { from, node },
        Event::Reply { node },
        Event::Accept { from, node },
        Event::Perform { node, line: 0 },
    ]
}

/// What the schedule logs.
pub fn entry() -> Entry {
    Entry {
        node: 0,
        serial: 0,
        op: store(7),
        reply: Reply::Stored,
        version: 1,
    }
}

/// The schedule's events, in two parts.
const BEGUN: &str = "issue 0 store 0 0 7\nask 0 0 mread";

const DONE: &str = "serve 0 0\nreply 0\naccept 0 0\nperform 0 0";

#[test]
fn a_run_skips_what_is_not_enabled(rt: HostRuntime) -> Result<(), Fail> {
    let alloc = rt.alloc();
    let mut machine = Bounded::new(alloc, extent_of(alloc, "machine 2 1 1")?, 1)?;
    machine.run(&schedule_of(alloc, "reply 1\nreply 1")?)?;
    machine.run(&schedule_of(alloc, BEGUN)?)?;
    machine.run(&schedule_of(alloc, DONE)?)?;
    machine.run(&schedule_of(alloc, "reply 1")?)?;
    let last = machine.last_contents(0);
    assert!(rt; machine.entries(0) == 1 && last == Some(stored(7)));
    Ok(())
}

#[test]
fn a_copy_goes_its_own_way(rt: HostRuntime) -> Result<(), Fail> {
    let alloc = rt.alloc();
    let mut machine = Bounded::new(alloc, extent_of(alloc, "machine 1 1 1")?, 1)?;
    machine.run(&schedule_of(alloc, BEGUN)?)?;
    let mut copy = machine.copy(alloc)?;
    copy.run(&schedule_of(alloc, DONE)?)?;
    assert!(rt; copy.entries(0) == 1 && machine.entries(0) == 0);
    Ok(())
}

#[test]
fn a_line_has_no_ninth_word(rt: HostRuntime) -> Result<(), Fail> {
    let extent = Extent::new(2, 2, 1).ok_or("an extent")?;
    let machine = Machine::new(rt.alloc(), extent, 1).ok().ok_or("no memory")?;
    let op = Op {
        word: 8,
        ..store(7)
    };
    assert_eq!(rt;
        machine.obstacle_to(&Event::Issue { node: 0, op }),
        Some(Obstacle::NoSuchWord)
    );
    Ok(())
}
