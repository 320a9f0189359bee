//! Rows of two nodes that share line 0, and of one node with fewer version slots than lines.

use crate::row::play;
use std::test::*;

const ROWS: &str = "
    row writeback_meets_a_sharer
        machine 2 1 1
        issue 1 store 0 0 5; ask 1 0 mread; serve 1 0 = mdata @0 0; reply 0; accept 0 1; perform 1 0 = - @1
        ask 1 0 wback = wback @1 5 to 0 #1; state 1 0 = Returning @1 5
        issue 0 load 0 0; ask 0 0 mread; serve 0 0 = mgone old 1; reply 0; accept 0 0; state 0 0 = Joining old 1
        serve 1 0 = wbno; home 0 = GONE 0; reply 0 = wbno to 1; accept 0 1; state 1 0 = Head forward none @1 5
        ask 0 0 cread; serve 0 1 = cdata @1 5; reply 1; accept 1 0; perform 0 0 = 5 @1
        state 0 0 = Head forward 1 @1 5; state 1 0 = Below forward none backward 0 @1 5
        log 2 2 1; last 0 @1 5 0 0 0 0 0 0 0
        0 0 load 0 0 = 5 @1
        1 0 store 0 0 5 = - @1

    row refused_a_thousand_times
        machine 2 1 1
        issue 0 store 0 0 7; ask 0 0 mread; serve 0 0; reply 0; accept 0 0; perform 0 0
        issue 1 load 0 0; ask 1 0 mread; serve 1 0; reply 0; accept 0 1; ask 1 0 cread
        1000 times: refuse 1 0; reply 0 = busy to 1; accept 0 1; state 1 0 = Joining old 0; ask 1 0 cread
        serve 1 0; reply 0; accept 0 1; perform 1 0
        log 2 2 1; last 0 @1 7 0 0 0 0 0 0 0
        0 0 store 0 0 7 = - @1
        1 0 load 0 0 = 7 @1

    row want_of_a_slot
        machine 1 2 1
        issue 0 store 0 0 1; issue 0 load 1 0; ask 0 0 mread; not ask 0 1 mread = NoSlot
        serve 0 0 = mdata @0 0; reply 0; accept 0 0; perform 0 0 = - @1; not ask 0 1 mread = NoSlot
        ask 0 0 wback; serve 0 0 = wbok; reply 0; accept 0 0; state 0 0 = Out; home 0 = HOME @1 1
        ask 0 1 mread; serve 0 0; reply 0; accept 0 0; state 0 1 = Head forward none @0 0; perform 0 1 = 0 @0
        log 2 1 2; last 0 @1 1 0 0 0 0 0 0 0; last 1 @0 0 0 0 0 0 0 0 0
        0 0 store 0 0 1 = - @1; 0 1 load 1 0 = 0 @0

    row a_slot_for_each_line_with_an_entry
        machine 1 2 1
        ask 0 0 mread = mread to 0 #0
        not ask 0 1 cread = NotAsked; not ask 0 1 mread = NoSlot; not ask 0 1 fread = NoSlot
        refuse 0 0; reply 0 = busy to 0; accept 0 0; state 0 0 = Out
        ask 0 1 mread = mread to 0 #0; state 0 1 = Asking; not ask 0 0 mread = NoSlot

    row nothing_enabled
        machine 2 1 1
        not perform 0 0; not ask 0 0 cread; not ask 0 0 setback; not serve 0 1; not refuse 1 0; not reply 1
        not accept 0 0; ask 0 0 mread; not ask 0 0 mread; not accept 0 0; refuse 0 0; not serve 0 0
        reply 0; accept 0 0; not perform 0 0; state 0 0 = Out
        log 2 2 1; last 0 @0 0 0 0 0 0 0 0 0
";

#[test]
fn pairs_and_slots(rt: HostRuntime) -> Result<(), Fail> {
    play(&rt, ROWS)
}

const LONG_ROW: &str = "
    row control_numbers_come_round
        machine 1 1 1
        65535 times: ask 0 0 mread; refuse 0 0; reply 0; accept 0 0
        ask 0 0 mread = mread to 0 #65535; refuse 0 0; reply 0; accept 0 0
        ask 0 0 mread = mread to 0 #0
";

#[test]
fn control_numbers_come_round(rt: HostRuntime) -> Result<(), Fail> {
    play(&rt, LONG_ROW)
}
