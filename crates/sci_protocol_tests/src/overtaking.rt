//! A row of a network that keeps no order, which reaches a state that no schedule of ordered lanes reaches.

use crate::row::play;
use std::test::*;

const ROWS: &str = "
    row purged_before_mdata_and_cread_before_roll
        machine 2 2 2
        ask 0 1 mread; serve 0 1; reply 1; accept 1 0
        ask 1 1 mread; serve 1 1; reply 1; accept 1 1; ask 1 1 cread; serve 1 0; reply 0; accept 0 1
        state 0 1 = Below forward none backward 1 @0 0; state 1 1 = Head forward 0 @0 0
        ask 1 0 mread; serve 1 0 = mdata @0 0; reply 0; ask 0 1 roll; ask 1 1 purge; serve 1 0 = purged forward none; reply 0
        overtake answers 0 1; accept 0 1; state 1 1 = Head forward none @0 0
        ask 0 0 mread; serve 0 0 = mgone old 1; reply 0; accept 0 0; ask 0 0 cread
        overtake requests 0 1; serve 0 1 = busy
        home 0 = GONE 0; state 0 0 = Joining old 1 sent; state 1 0 = Asking; home 1 = GONE 1; state 0 1 = Fading
        reply 1; accept 1 0; accept 0 1; serve 0 1 = busy; reply 1; accept 1 0
        settle = 16
";

#[test]
fn overtaking_reaches_more_states(rt: HostRuntime) -> Result<(), Fail> {
    play(&rt, ROWS)
}
