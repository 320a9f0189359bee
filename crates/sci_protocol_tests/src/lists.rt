//! Rows of three nodes that share line 0: a join, purges, and rollouts that meet.

use crate::row::play_after;
use std::test::*;

/// Nodes 1 and 2 join the list of node 0 at one time, before any store. Node 1 is told before node 2, which finds it
/// still joining.
const UNWRITTEN: &str = "
    machine 3 1 1
    ask 0 0 mread; serve 0 0 = mdata @0 0; reply 0; accept 0 0; state 0 0 = Head forward none @0 0
    ask 1 0 mread; ask 2 0 mread; serve 1 0 = mgone old 0; reply 0; serve 2 0 = mgone old 1; reply 0
    accept 0 1; accept 0 2; ask 2 0 cread = cread to 1 #1; serve 2 1 = busy; reply 1; accept 1 2
    state 1 0 = Joining old 0; state 2 0 = Joining old 1
    ask 1 0 cread; serve 1 0 = cdata @0 0; reply 0; accept 0 1; state 1 0 = Head forward 0 @0 0
    ask 2 0 cread; serve 2 1 = cdata @0 0; reply 1; accept 1 2
";

/// What becomes of that list.
const AFTER_UNWRITTEN: &str = "
    row an_unwritten_list
        state 2 0 = Head forward 1 @0 0; state 1 0 = Below forward 0 backward 2 @0 0
        state 0 0 = Below forward none backward 1 @0 0; home 0 = GONE 2

    row purging_an_unwritten_list
        issue 2 store 0 0 9; not perform 2 0 = NotAllowed
        ask 2 0 purge; serve 2 1 = purged forward 0; reply 1; accept 1 2
        state 1 0 = Out; state 2 0 = Head forward 0 @0 0; not perform 2 0 = NotAllowed
        ask 2 0 purge; serve 2 0 = purged forward none; reply 0; accept 0 2
        state 0 0 = Out; perform 2 0 = - @1; state 2 0 = Head forward none @1 9; home 0 = GONE 2
";

#[test]
fn an_unwritten_list(rt: HostRuntime) -> Result<(), Fail> {
    play_after(&rt, UNWRITTEN, AFTER_UNWRITTEN)
}

/// The same after node 0 stored 7 while it was alone.
const TWO_JOIN: &str = "
    machine 3 1 1
    issue 0 store 0 0 7; ask 0 0 mread; serve 0 0 = mdata @0 0; reply 0; accept 0 0; perform 0 0 = - @1
    issue 1 load 0 0; issue 2 load 0 0; ask 1 0 mread; ask 2 0 mread
    serve 1 0 = mgone old 0; reply 0; serve 2 0 = mgone old 1; reply 0; accept 0 1; accept 0 2
    ask 2 0 cread; serve 2 1; reply 1 = busy to 2
    state 1 0 = Joining old 0; state 2 0 = Joining old 1 sent
    accept 1 2; state 2 0 = Joining old 1
    ask 1 0 cread; serve 1 0 = cdata @1 7; reply 0; accept 0 1; state 1 0 = Head forward 0 @1 7; perform 1 0 = 7 @1
    ask 2 0 cread; serve 2 1 = cdata @1 7; reply 1; accept 1 2; perform 2 0 = 7 @1
";

/// What becomes of that list.
const AFTER_TWO_JOIN: &str = "
    row two_join_at_once
        state 2 0 = Head forward 1 @1 7; state 1 0 = Below forward 0 backward 2 @1 7
        state 0 0 = Below forward none backward 1 @1 7; home 0 = GONE 2
        log 2 3 1; last 0 @1 7 0 0 0 0 0 0 0
        0 0 store 0 0 7 = - @1
        1 0 load 0 0 = 7 @1
        2 0 load 0 0 = 7 @1

    row purging_a_list
        issue 2 store 0 0 9; issue 0 load 0 0; ask 2 0 purge; serve 2 1 = purged forward 0; reply 1; accept 1 2
        state 1 0 = Out; state 2 0 = Head forward 0 @1 7; not perform 2 0 = NotAllowed
        perform 0 0 = 7 @1; ask 2 0 purge; serve 2 0 = purged forward none; reply 0; accept 0 2; perform 2 0 = - @2
        state 0 0 = Out; state 2 0 = Head forward none @2 9; entries 0 = 2
        log 2 3 1; last 0 @2 9 0 0 0 0 0 0 0
        0 0 store 0 0 7 = - @1; 0 1 load 0 0 = 7 @1
        1 0 load 0 0 = 7 @1
        2 0 load 0 0 = 7 @1; 2 1 store 0 0 9 = - @2

    row neighbours_leave
        // Nodes 0 and 1 ask at once to leave. Node 1 has node 0 wait, leaves, and tells it whom it stands behind now.
        // Only then comes the answer that has node 0 ask again.
        ask 1 0 roll; ask 0 0 roll; serve 0 1 = busy; reply 1 = busy to 0
        state 1 0 = Rolling forward 0 backward 2 @1 7; state 0 0 = Rolling forward none backward 1 @1 7
        serve 1 2 = rolled; state 2 0 = Head forward 0 @1 7
        reply 2; accept 2 1; state 1 0 = Telling behind 0 before 2
        ask 1 0 setback; state 0 0 = Rolling forward none backward 1 @1 7
        serve 1 0 = told; state 0 0 = Rolling forward none backward 2 @1 7
        reply 0; accept 1 0; state 0 0 = Below forward none backward 2 @1 7; accept 0 1; state 1 0 = Out
        ask 0 0 roll; serve 0 2 = rolled; reply 2; accept 2 0; state 0 0 = Out
        issue 2 store 0 0 9; perform 2 0 = - @2; state 2 0 = Head forward none @2 9
        log 2 3 1; last 0 @2 9 0 0 0 0 0 0 0
        0 0 store 0 0 7 = - @1
        1 0 load 0 0 = 7 @1
        2 0 load 0 0 = 7 @1; 2 1 store 0 0 9 = - @2

    row purge_crosses_rollout
        // Node 1 asks to leave while node 2 purges it, and each request comes after the other was sent. Then node 1
        // asks the home again.
        ask 1 0 roll; ask 2 0 purge; serve 2 1 = purged forward 0
        state 1 0 = Fading; not ask 1 0 mread = NotAsked; state 2 0 = Purging next 1 @1 7
        reply 1; serve 1 2 = busy; reply 2 = busy to 1
        accept 1 2; state 2 0 = Head forward 0 @1 7; accept 2 1; state 1 0 = Out
        issue 1 load 0 0; ask 1 0 mread = mread to 0 #3; serve 1 0 = mgone old 2; reply 0; accept 0 1
        state 1 0 = Joining old 2; ask 1 0 cread; serve 1 2 = cdata @1 7; reply 2; accept 2 1
        state 1 0 = Head forward 2 @1 7; state 2 0 = Below forward 0 backward 1 @1 7
        state 0 0 = Below forward none backward 1 @1 7; perform 1 0 = 7 @1
        log 2 3 1; last 0 @1 7 0 0 0 0 0 0 0
        0 0 store 0 0 7 = - @1
        1 0 load 0 0 = 7 @1; 1 1 load 0 0 = 7 @1
        2 0 load 0 0 = 7 @1
";

#[test]
fn a_written_list(rt: HostRuntime) -> Result<(), Fail> {
    play_after(&rt, TWO_JOIN, AFTER_TWO_JOIN)
}
