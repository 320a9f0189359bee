//! Short rows in which a wrong rule would show at once, to the state where they end.

use crate::row::play;
use std::test::*;

const ROWS: &str = "
    row no_write_before_the_purge
        machine 2 1 1
        issue 0 store 0 0 9; ask 0 0 mread; ask 1 0 mread; serve 1 0; reply 0; serve 0 0; reply 0; accept 0 0
        ask 0 0 cread; accept 0 1; serve 0 1; reply 1; accept 1 0; not perform 0 0
        state 0 0 = Head forward 1 @0 0; state 1 0 = Below forward none backward 0 @0 0

    row no_read_of_a_purging_head
        machine 3 1 1
        ask 0 0 mread; serve 0 0; reply 0; accept 0 0; ask 1 0 mread; serve 1 0; reply 0; accept 0 1
        ask 1 0 cread; serve 1 0; reply 0; accept 0 1; ask 1 0 purge
        ask 2 0 mread; serve 2 0; reply 0; accept 0 2; ask 2 0 cread; serve 2 1
        state 1 0 = Purging next 0 @0 0; state 2 0 = Joining old 1 sent; reply 1 = busy to 2

    row a_stranger_writes_nothing_back
        machine 2 1 1
        ask 0 0 mread; serve 0 0; reply 0; accept 0 0; ask 0 0 wback; ask 1 0 mread; serve 1 0; reply 0; serve 0 0
        state 0 0 = Returning @0 0; home 0 = GONE 1; reply 0 = wbno to 0

    row a_purged_roller_waits_on
        machine 2 1 1
        ask 0 0 mread; serve 0 0; reply 0; accept 0 0; ask 1 0 mread; serve 1 0; reply 0; accept 0 1
        ask 1 0 cread; serve 1 0; ask 0 0 roll; reply 0; accept 0 1; ask 1 0 purge; serve 1 0
        state 0 0 = Fading; state 1 0 = Purging next 0 @0 0; reply 0 = purged forward none to 1

    row no_claim_of_a_stranger_is_granted
        machine 2 1 1
        // Node 0 has read the line alone. Its wish comes after node 1 became the head.
        ask 0 0 fread; serve 0 0; reply 0; accept 0 0
        ask 0 0 claim; ask 1 0 fread; serve 1 0; reply 0; serve 0 0
        state 0 0 = Claiming forward none @0 0; home 0 = FRESH 1 @0 0; reply 0 = wbno to 0

    row no_clear_of_a_stranger_is_granted
        machine 2 1 1
        // Node 0 has read the line alone. Its wish comes after node 1 became the head.
        ask 0 0 fread; serve 0 0; reply 0; accept 0 0
        ask 0 0 clear; ask 1 0 fread; serve 1 0; reply 0; serve 0 0
        state 0 0 = Clearing @0 0; home 0 = FRESH 1 @0 0; reply 0 = wbno to 0

    row a_fresh_head_makes_nothing
        machine 1 1 1
        issue 0 store 0 0 9; ask 0 0 fread; serve 0 0; reply 0; accept 0 0; not perform 0 0
        state 0 0 = FreshHead forward none @0 0; entries 0 = 0

    row a_writer_ends_a_fresh_list
        machine 2 1 1
        ask 0 0 mread; ask 1 0 fread; serve 1 0; reply 0; serve 0 0; home 0 = GONE 0; reply 0 = mgone old 1 to 0
";

#[test]
fn wrong_rules_show(rt: HostRuntime) -> Result<(), Fail> {
    play(&rt, ROWS)
}
