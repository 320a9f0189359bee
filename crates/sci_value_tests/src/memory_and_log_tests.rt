//! What the contracts can't show: that the limits and the order of calls are the ones that are meant, and what
//! want of memory leaves.

use sci_history::*;
use sci_words::{Act, LockOp, MAX_NODES, MAX_OPERATIONS, Op, Reply, Stamped};
use std::alloc::AllocError;
use std::process::Abort;

fn op(line: u8, word: u8, act: Act) -> Op {
    Op { line, word, act }
}

fn load(serial: u32) -> Entry {
    Entry {
        node: 3,
        serial,
        op: op(0, 0, Act::Load),
        reply: Reply::Got(0),
        version: 0,
    }
}

fn checked_do_op(rt: &impl Abort, memory: &mut Memory, op: Op) -> (Reply, u64) {
    let last = memory.last();
    assert!(rt; op.line < last.lines() && op.word < 8);
    assert!(rt; last.get(op.line).version < u64::MAX);
    memory.do_op(op)
}

#[test]
fn a_memory_counts_its_makers(rt: HostRuntime) {
    let table: [(Op, Reply, u64); 6] = [
        (op(0, 0, Act::Store(7)), Reply::Stored, 1),
        (op(0, 0, Act::Load), Reply::Got(7), 1),
        (
            op(0, 0, Act::Lock(LockOp::CompareSwap { arg: 5, datum: 9 })),
            Reply::Got(7),
            2,
        ),
        (op(1, 7, Act::Load), Reply::Got(0), 0),
        (
            op(1, 7, Act::Lock(LockOp::FetchAdd { datum: 3 })),
            Reply::Got(0),
            1,
        ),
        (op(0, 1, Act::Store(8)), Reply::Stored, 3),
    ];
    let mut memory = Memory::new(2);
    for (op, reply, version) in table {
        assert_eq!(rt;
            checked_do_op(&rt, &mut memory, op),
            (reply, version),
            "{op:?}"
        );
    }
    let last = memory.last();
    assert_eq!(rt; last.lines(), 2);
    assert_eq!(rt; last.get(0).version, 3);
    assert_eq!(rt; last.get(0).line.word(0), 7);
    assert_eq!(rt; last.get(0).line.word(1), 8);
    assert_eq!(rt; last.get(1).version, 1);
    assert_eq!(rt; last.get(1).line.word(7), 3);
}

#[test]
fn last_contents_change_one_line(rt: HostRuntime) {
    let mut last = Last::zero(64);
    let seven = Stamped {
        line: last.get(0).line.with(2, 7),
        version: 1,
    };
    last.set(63, seven);
    assert_eq!(rt; last.lines(), 64);
    assert_eq!(rt; last.get(63), seven);
    assert_eq!(rt; last.get(62).version, 0);
}

fn checked_push(rt: &impl Abort, logs: &mut Logs, entry: Entry) -> Result<(), PushFault> {
    assert!(rt; entry.node < MAX_NODES);
    logs.push(entry)
}

#[test]
fn a_log_has_room_for_so_many_entries(rt: HostRuntime) {
    let mut logs = Logs::new(rt.alloc());
    for serial in 0..MAX_OPERATIONS {
        assert_eq!(rt; checked_push(&rt, &mut logs, load(serial)), Ok(()));
    }
    let full = checked_push(&rt, &mut logs, load(MAX_OPERATIONS));
    assert_eq!(rt; full, Err(PushFault::Full));
    assert_eq!(rt; logs.of(3).len(), 65_536);
    assert_eq!(rt; logs.of(2).len(), 0);
}

// If an allocation is refused, as by `rt try --test --fail-alloc N`, the push says so and no log changes.
#[test]
fn a_refused_push_changes_no_log(rt: HostRuntime) {
    let mut logs = Logs::new(rt.alloc());
    for serial in 0..40 {
        let before = logs.of(3).len();
        match checked_push(&rt, &mut logs, load(serial)) {
            Ok(()) => assert_eq!(rt; logs.of(3).len(), before.wrapping_add(1)),
            Err(fault) => {
                assert_eq!(rt; fault, PushFault::Memory(AllocError));
                assert_eq!(rt; logs.of(3).len(), before);
            }
        }
    }
}
