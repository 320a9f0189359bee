//! That the table of operations and the limits are the ones that are meant.

use sci_words::*;

const ONES: Word = 0xFFFF_FFFF_FFFF_FFFF;

fn op(line: u8, word: u8, act: Act) -> Op {
    Op { line, word, act }
}

fn lock_op(lock: LockOp) -> Op {
    op(0, 0, Act::Lock(lock))
}

#[test]
fn mask_swap(rt: HostRuntime) {
    let op = lock_op(LockOp::MaskSwap { arg: 15, datum: 58 });
    assert_eq!(rt; effect(op, 197), (202, Reply::Got(197)));
}

#[test]
fn lock_operations_at_their_corners(rt: HostRuntime) {
    let table = [
        (LockOp::MaskSwap { arg: 0, datum: 58 }, 197, 197),
        (
            LockOp::MaskSwap {
                arg: ONES,
                datum: 58,
            },
            197,
            58,
        ),
        (LockOp::MaskSwap { arg: 15, datum: 48 }, 197, 192),
        (LockOp::CompareSwap { arg: 5, datum: 9 }, 5, 9),
        (LockOp::CompareSwap { arg: 5, datum: 9 }, 4, 4),
        (LockOp::CompareSwap { arg: 5, datum: 9 }, 6, 6),
        (LockOp::FetchAdd { datum: 1 }, ONES, 0),
        (LockOp::FetchAdd { datum: ONES }, ONES, ONES - 1),
        (LockOp::FetchAdd { datum: 0 }, 7, 7),
        (LockOp::BoundedAdd { arg: 5, datum: 1 }, 5, 5),
        (LockOp::BoundedAdd { arg: 5, datum: 1 }, 4, 5),
        (LockOp::BoundedAdd { arg: 5, datum: 1 }, 6, 7),
        (LockOp::BoundedAdd { arg: 5, datum: 1 }, ONES, 0),
        (LockOp::WrapAdd { arg: 9, datum: 3 }, 9, 3),
        (LockOp::WrapAdd { arg: 9, datum: 3 }, 8, 11),
        (LockOp::WrapAdd { arg: 9, datum: 3 }, 10, 13),
        (LockOp::WrapAdd { arg: 9, datum: 3 }, ONES - 1, 1),
    ];
    for (op, old, new) in table {
        assert_eq!(rt;
            effect(lock_op(op), old),
            (new, Reply::Got(old)),
            "{op:?} on {old}"
        );
    }
}

#[test]
fn loads_and_stores_at_their_corners(rt: HostRuntime) {
    for old in [0, 1, ONES] {
        let load = op(0, 0, Act::Load);
        let store = op(0, 0, Act::Store(ONES - old));
        assert_eq!(rt; effect(load, old), (old, Reply::Got(old)));
        assert_eq!(rt; effect(store, old), (ONES - old, Reply::Stored));
    }
}

/// A swap makes a version even if it fails, and a load makes none. Neither changes the line.
#[test]
fn a_failed_swap_makes_a_version_and_a_load_makes_none(rt: HostRuntime) {
    let before = Stamped {
        line: Line::zero().with(7, 3),
        version: 4,
    };
    let swap = Act::Lock(LockOp::CompareSwap { arg: 5, datum: 9 });
    for (op, version, word) in [(op(63, 7, swap), 5, 3), (op(0, 1, Act::Load), 4, 0)] {
        assert!(rt; op.word < 8);
        let (after, reply) = before.after(op);
        assert_eq!(rt; after.version, version, "{op:?}");
        assert_eq!(rt; after.line, before.line, "{op:?}");
        assert_eq!(rt; reply, Reply::Got(word), "{op:?}");
    }
}

#[test]
fn extents_at_their_limits(rt: HostRuntime) {
    assert!(rt; Extent::new(1, 1, 1).is_some());
    assert!(rt; Extent::new(16, 64, 8).is_some());
    let too_small = [(0, 1, 1), (1, 0, 1), (1, 1, 0)];
    let too_large = [(17, 1, 1), (1, 65, 1), (1, 1, 9)];
    for (nodes, lines, slots) in too_small.into_iter().chain(too_large) {
        assert!(rt;
            Extent::new(nodes, lines, slots).is_none(),
            "{nodes} {lines} {slots}"
        );
    }
}

/// No contract says how large a limit is, so that each is pinned here.
#[test]
fn every_limit(rt: HostRuntime) {
    assert_eq!(rt; MAX_NODES, 16);
    assert_eq!(rt; MAX_LINES, 64);
    assert_eq!(rt; MAX_SLOTS, 8);
    assert_eq!(rt; WORDS_PER_LINE, 8);
    assert_eq!(rt; LINE_BYTES, 64);
    assert_eq!(rt; MAX_OPERATIONS, 65_536);
    assert_eq!(rt; CONTROLS, 65_536);
    assert_eq!(rt; MAX_TEXT_LINE_BYTES, 256);
    assert_eq!(rt; MAX_INPUT_BYTES, 134_217_728);
    assert_eq!(rt; MAX_EVENTS, 500_000);
    assert_eq!(rt; MAX_TURNS, 1_000_000_000);
    assert_eq!(rt; LANE_CELLS, 4);
    assert_eq!(rt; FORMAT_1_NODES, 8);
    assert_eq!(rt; FORMAT_1_SERIALS, 4_096);
    assert_eq!(rt; FORMAT_1_ENTRIES, 4_096);
}
