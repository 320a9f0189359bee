//! Rows of two nodes that read alone at first, and of a claim or a clear that comes too late.

use crate::row::play_after;
use std::test::*;

/// Node 0 has read the line, and is its only reader.
const ONE_READER: &str = "
    machine 2 1 1
    issue 0 load 0 0; ask 0 0 fread; serve 0 0 = fdata old none @0 0; reply 0; accept 0 0
    state 0 0 = FreshHead forward none @0 0; perform 0 0 = 0 @0; home 0 = FRESH 0 @0 0
";

/// Its claim or its clear loses to a node that comes first.
const LOSERS: &str = "
    row a_claim_loses
        issue 1 load 0 0; ask 1 0 fread; serve 1 0 = fdata old 0 @0 0; reply 0; accept 0 1
        ask 0 0 claim; state 0 0 = Claiming forward none @0 0; serve 0 0 = wbno; reply 0 = wbno to 0; accept 0 0
        state 0 0 = FreshHead forward none @0 0; state 1 0 = FreshJoining old 0 @0 0
        ask 1 0 cread; serve 1 0 = cdata @0 0; reply 0; accept 0 1; perform 1 0 = 0 @0
        state 1 0 = FreshHead forward 0 @0 0; state 0 0 = Below forward none backward 1 @0 0; home 0 = FRESH 1 @0 0
        issue 1 store 0 0 9; not perform 1 0 = NotAllowed
        ask 1 0 claim; serve 1 0 = wbok; reply 0; accept 0 1
        state 1 0 = Head forward 0 @0 0; home 0 = GONE 1; not perform 1 0 = NotAllowed
        ask 1 0 purge; serve 1 0 = purged forward none; reply 0; accept 0 1; state 0 0 = Out
        perform 1 0 = - @1; state 1 0 = Head forward none @1 9
        log 2 2 1; last 0 @1 9 0 0 0 0 0 0 0
        0 0 load 0 0 = 0 @0
        1 0 load 0 0 = 0 @0; 1 1 store 0 0 9 = - @1

    row a_clear_loses
        ask 0 0 clear; state 0 0 = Clearing @0 0
        issue 1 store 0 0 5; ask 1 0 mread; serve 1 0 = mgone old 0; reply 0; accept 0 1; home 0 = GONE 1
        serve 0 0 = wbno; home 0 = GONE 1; reply 0 = wbno to 0; accept 0 0
        state 0 0 = FreshHead forward none @0 0; state 1 0 = Joining old 0
        ask 1 0 cread; serve 1 0 = cdata @0 0; reply 0; accept 0 1
        state 1 0 = Head forward 0 @0 0; state 0 0 = Below forward none backward 1 @0 0
        ask 1 0 purge; serve 1 0 = purged forward none; reply 0; accept 0 1; state 0 0 = Out
        perform 1 0 = - @1; state 1 0 = Head forward none @1 5
        log 2 2 1; last 0 @1 5 0 0 0 0 0 0 0
        0 0 load 0 0 = 0 @0
        1 0 store 0 0 5 = - @1

    row a_clear_loses_to_a_fresh_list
        ask 0 0 clear; state 0 0 = Clearing @0 0
        issue 1 load 0 0; ask 1 0 fread; serve 1 0 = fdata old 0 @0 0; reply 0; accept 0 1; home 0 = FRESH 1 @0 0
        serve 0 0 = wbno; home 0 = FRESH 1 @0 0; reply 0 = wbno to 0; accept 0 0
        state 0 0 = FreshHead forward none @0 0; state 1 0 = FreshJoining old 0 @0 0
        ask 1 0 cread; serve 1 0 = cdata @0 0; reply 0; accept 0 1; perform 1 0 = 0 @0
        state 1 0 = FreshHead forward 0 @0 0; state 0 0 = Below forward none backward 1 @0 0; home 0 = FRESH 1 @0 0
        log 2 2 1; last 0 @0 0 0 0 0 0 0 0 0
        0 0 load 0 0 = 0 @0
        1 0 load 0 0 = 0 @0
";

#[test]
fn claims_and_clears_lose(rt: HostRuntime) -> Result<(), Fail> {
    play_after(&rt, ONE_READER, LOSERS)
}
