//! Rows of one and two nodes: what is enabled, what a machine shows of a line, and how it comes to rest.

use crate::row::play;
use std::test::*;

const ROWS: &str = "
    row each_event_of_a_schedule_is_applied
        machine 1 1 1
        issue 0 store 0 0 7; not perform 0 1; ask 0 0 mread; not perform 0 1; serve 0 0; not perform 0 1
        reply 0; not perform 0 1; accept 0 0; not perform 0 1; perform 0 0; not perform 0 1; not perform 0 0
        entries 0 = 1
        log 2 1 1; last 0 @1 7 0 0 0 0 0 0 0
        0 0 store 0 0 7 = - @1

    row no_issue_is_left
        machine 1 1 1
        // Each node may issue 300 operations.
        ask 0 0 mread; serve 0 0; reply 0; accept 0 0
        300 times: issue 0 load 0 0; perform 0 0
        not issue 0 load 0 0 = NoIssueLeft; entries 0 = 300

    row a_line_has_its_list
        machine 2 2 1
        // Node 0 has line 0 to write, and stored 7. Nobody has line 1.
        issue 0 store 0 0 7; ask 0 0 mread; serve 0 0; reply 0; accept 0 0; perform 0 0
        list 0 = [0]; authority 0 = Some(0); last 0 = @1 7; list 1 = []; authority 1 = None; last 1 = @0 0

    row a_machine_at_rest_stays
        machine 2 1 1
        settle = 0

    row a_machine_comes_to_rest
        machine 2 1 1
        issue 0 store 0 0 7; ask 0 0 mread; serve 0 0; drain = 2; settle = 13
        log 2 2 1; last 0 @1 7 0 0 0 0 0 0 0
        0 0 store 0 0 7 = - @1

    row any_pending_operation_is_performed_next
        machine 2 2 1
        // Node 0 has line 0 to write, and node 1 waits for it. The load of node 1 is performed before the store of node 0.
        issue 0 store 0 0 7; ask 0 0 mread; serve 0 0; reply 0; issue 1 load 0 0; ask 1 0 fread; issue 1 store 1 0 5
        next 1 0 = 0 @0; entries 0 = 0; entries 1 = 1; next 0 0 = - @1; next 1 1 = - @1; last 0 = @1 7
        settle = 4

    row an_event_that_is_not_enabled_has_an_obstacle
        machine 2 2 1
        not perform 2 0 = NoSuchNode; not serve 2 0 = NoSuchSender; not ask 0 2 mread = NoSuchLine
        not perform 0 0 = NothingPending; not accept 0 0 = NothingUnderWay; not reply 0 = NoAnswerWaits
        issue 0 store 0 0 7; ask 0 0 mread; serve 0 0; ask 1 0 mread
        not issue 0 store 0 0 7 = AlreadyPending; not perform 0 0 = NotAllowed; not ask 1 0 mread = NotAsked
        not ask 1 1 mread = NoSlot; not serve 1 0 = AnswerWaits; reply 0
";

#[test]
fn machines(rt: HostRuntime) -> Result<(), Fail> {
    play(&rt, ROWS)
}
