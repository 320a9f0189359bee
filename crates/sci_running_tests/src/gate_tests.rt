//! Two nodes whose gates meet while both run.

use sci_drive::Gate;
use sci_history::Entry;
use sci_text::{Script, logs_text};
use sci_threads::run_nodes;
use sci_words::{Act, Extent, Op};
use std::sync::atomic::{AtomicU64, Ordering};
use std::test::*;
use std::thread;

const MANY: u32 = 10_000_000;

/// Which of two nodes had an entry, how many saw the other's, and how many are done.
#[derive(Drop)]
struct Flags {
    first: AtomicU64,
    second: AtomicU64,
    met: AtomicU64,
    done: AtomicU64,
}

/// At its first entry, sets its node's flag and looks for the other's.
#[derive(Drop)]
struct Meeting<'a> {
    flags: &'a Flags,
    is_first: bool,
    was_answered: bool,
}

impl Meeting<'_> {
    /// Sets its own flag.
    fn set(&self) {
        let own = if self.is_first {
            &self.flags.first
        } else {
            &self.flags.second
        };
        own.store(1, Ordering::SeqCst);
    }

    /// Whether the other's flag is set.
    fn sees_the_other(&self) -> bool {
        let other = if self.is_first {
            &self.flags.second
        } else {
            &self.flags.first
        };
        other.load(Ordering::SeqCst) == 1
    }
}

impl Gate for Meeting<'_> {
    ghost hears = { λ old calls new. Unit {0} };

    fn may_issue(&mut self, _index: u32) -> bool {
        true
    }

    fn answered(&mut self, _entry: &Entry) {
        if self.was_answered {
            return;
        }
        self.was_answered = true;
        self.set();
        for _look in 0..MANY {
            if self.sees_the_other() {
                let _before = self.flags.met.fetch_add(1, Ordering::SeqCst);
                return;
            }
            thread::yield_now();
        }
    }

    fn done(&mut self) {
        let _before = self.flags.done.fetch_add(1, Ordering::SeqCst);
    }

    fn all_done(&mut self) -> bool {
        self.flags.done.load(Ordering::SeqCst) == 2
    }

    fn rest(&mut self) {
        thread::yield_now();
    }

    ghost hears_nothing = { λ x. tt };

    ghost hears_on = { λ x y z calls more first second. tt };
}

/// A store to word 0 of a line.
fn store(line: u8, word: u64) -> Op {
    Op {
        line,
        word: 0,
        act: Act::Store(word),
    }
}

#[test]
fn two_gates(rt: HostRuntime) -> Result<(), Fail> {
    let alloc = rt.alloc();
    let extent = Extent::new(2, 2, 2).ok_or("an extent")?;
    let mut script = Script::new(alloc, extent);
    for (node, op) in [(0, store(0, 1)), (1, store(1, 2)), (1, store(1, 3))] {
        if script.push(node, op).is_err() {
            return Err(Fail::from("an operation that was refused"));
        }
    }
    let flags = Flags {
        first: AtomicU64::new(0),
        second: AtomicU64::new(0),
        met: AtomicU64::new(0),
        done: AtomicU64::new(0),
    };
    let mut gates = Vec::with_capacity(alloc, 2)?;
    for is_first in [true, false] {
        gates.push(Meeting {
            flags: &flags,
            is_first,
            was_answered: false,
        })?;
    }
    if gates.len() != script.extent().nodes as usize {
        return Err(Fail::from("a gate too many or too few"));
    }
    let (logs, last, finished) = run_nodes(&rt, alloc, &script, gates, MANY)?;
    assert!(rt; finished);
    assert_eq!(rt; flags.met.load(Ordering::SeqCst), 2);
    let text = logs_text(alloc, 2, &logs, &last)?;
    let expected = "log 2 2 2\nlast 0 @1 1 0 0 0 0 0 0 0\nlast 1 @2 3 0 0 0 0 0 0 0\n\
        0 0 store 0 0 1 = - @1\n1 0 store 1 0 2 = - @1\n1 1 store 1 0 3 = - @2\n";
    assert_eq!(rt; text.as_slice(), expected.as_bytes());
    Ok(())
}
