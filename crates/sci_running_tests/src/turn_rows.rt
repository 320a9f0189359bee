//! Rows of what one turn does: its parts in their order, four packets of each node, and no more steps than it says.

use crate::row::play;
use crate::running::Running;
use sci_text::schedule_of;
use std::test::*;

/// Plays rows of stations, each of which may submit six operations, after these first commands. Each row begins with a
/// line `row NAME` and the first line of a schedule, `machine NODES LINES SLOTS`. An error names the row.
fn stations(rt: &HostRuntime, first: &str, rows: &str) -> Result<(), Fail> {
    let alloc = rt.alloc();
    let (_blank, rows) = rows.split_once("row ").ok_or("no row")?;
    for row in rows.split("row ") {
        let (name, row) = row.split_once('\n').ok_or("no machine")?;
        let (machine, commands) = row.trim().split_once('\n').ok_or("no commands")?;
        let machine = format!(in alloc; "{machine}\n")?;
        let extent = schedule_of(alloc, machine.as_bytes())?.extent();
        let mut stations = Running::new(alloc, extent, 6)?;
        play(alloc, &mut stations, first)?;
        if let Err(fail) = play(alloc, &mut stations, commands) {
            let _ = rt.eprintln(format_args!("in the row {name}"));
            return Err(fail);
        }
    }
    Ok(())
}

const ROWS: &str = "
    row an_idle_turn_looks_at_lanes_once
        machine 2 3 2
        // A turn that finds nothing looks once at the cell whose turn it is in each lane to the node, and makes no
        // other step. The lanes of answers of nodes that owe none are passed over, so two of requests are looked at.
        turn 0 within 1000 steps 2 idle

    row a_home_takes_its_own_packets_in_later_turns
        machine 3 1 1
        // A home that asks itself: a turn takes packets before it asks, and answers before requests. So the home
        // takes its request in the second turn, and the answer in the third.
        submit 0 load 0 0 serial 0; turn 0 asked served 0; turn 0 served 1 replied accepted 0 no-ask
        turn 0 accepted 1 ready 0

    row a_turn_asks_four_times
        machine 3 8 8
        // A turn asks four times, if more is wanted: for the lines that were wanted first. Each home serves those
        // that have come.
        submit 2 load 0 0 serial 0; submit 2 load 1 0 serial 1; submit 2 load 3 0 serial 2
        submit 2 load 4 0 serial 3; submit 2 load 6 0 serial 4; submit 2 load 7 0 serial 5; turn 2
        turn 0 accepted 0 served 2; turn 1 accepted 0 served 2; turn 2 accepted 4 served 0

    row a_turn_takes_four_packets_of_a_node
        machine 3 10 4
        // A turn takes four packets of a node: four requests, and then four answers.
        submit 1 load 0 0 serial 0; submit 1 load 3 0 serial 1; submit 1 load 6 0 serial 2
        submit 1 load 9 0 serial 3; turn 1; turn 0 accepted 0 served 4; turn 1 accepted 4 served 0

    row a_turn_begins_after_the_one_served_last
        machine 3 4 4
        // Node 0 has served node 1 last. So in its next turn it serves node 2 first: node 2 gets the contents of line
        // 3 from its home, and node 1 has to ask node 2.
        submit 1 load 0 0 serial 0; turn 1; turn 0 accepted 0 served 1; turn 1 ready 0
        perform 1 0 = 1 0 load 0 0 = 0 @0; submit 1 load 3 0 serial 1; submit 2 load 3 0 serial 0; turn 1; turn 2
        turn 0 accepted 0 served 2; turn 2 ready 3; turn 1 accepted 1 unready asked

    row answers_are_looked_for_while_one_is_owed
        machine 3 1 1
        // A turn looks at the three lanes of requests, and at the lane of answers of node 0 while that owes one. When
        // the answer is taken, it looks at none.
        submit 1 load 0 0 serial 0; turn 1 asked; turn 1 within 1000 steps 4 idle; turn 0 accepted 0 served 1
        turn 1 accepted 1 served 0; perform 1 0 = 1 0 load 0 0 = 0 @0; turn 1 within 1000 steps 3 idle

    row each_answer_that_is_owed_is_looked_for
        machine 2 3 2
        // Node 0 owes node 1 two answers. Its turn is cut after the first one, and node 1 takes a turn between: it
        // still looks for the second one, in a later turn.
        submit 1 load 0 0 serial 0; submit 1 load 2 0 serial 1; turn 1 asked; turn 0 within 18 steps 18 served 1
        turn 1 accepted 1; turn 0 served 1; turn 1 accepted 1; perform 1 0 = 1 0 load 0 0 = 0 @0
        perform 1 2 = 1 1 load 2 0 = 0 @0

    row an_answer_of_the_last_node_is_accepted
        machine 16 16 1
        // Node 14 of sixteen wants a line of the last one, and accepts its answer.
        submit 14 load 15 0 serial 0; turn 14 asked; turn 15 accepted 0 served 1; turn 14 accepted 1 served 0
        perform 14 15 = 14 0 load 15 0 = 0 @0
";

#[test]
fn turns(rt: HostRuntime) -> Result<(), Fail> {
    stations(&rt, "", ROWS)
}

/// Node 0 has line 0. Then node 1 asks node 0 for it, and node 2 asks node 1.
const CHAIN: &str = "
    submit 0 load 0 0 serial 0; turn 0; turn 0; turn 0; perform 0 0 = 0 0 load 0 0 = 0 @0
    submit 1 load 0 0 serial 0; submit 2 load 0 0 serial 0; turn 1; turn 2; turn 0 accepted 0 served 2; turn 1 asked
    turn 2 asked
";

const AFTER_CHAIN: &str = "
    row a_kept_request_is_looked_at_again
        machine 3 1 1
        // A request that is kept stays in its cell. The first turn looks at it and reads a word more; later ones
        // decide it by what the station remembers. The other three looks find nothing: two lanes of requests are
        // empty, and so is the lane of answers of node 0, which owes one. The request is served once it may be, in
        // the very turn that accepts the answer for which it was kept.
        turn 1 within 1000 steps 5 idle; turn 1 within 1000 steps 3 idle; turn 1 within 1000 steps 3 idle
        turn 0 accepted 0 served 1; turn 1 accepted 1 served 1; turn 2 ready 0

    row a_request_after_a_kept_one_is_served
        machine 3 2 2
        // A request that was kept once and is served is forgotten. So another one of its sender is served, though the
        // first would be kept again: node 1, which stands between nodes 2 and 0 in the list of line 0, leaves it to
        // store, and asks the home anew.
        turn 1 idle; turn 0 accepted 0 served 1; turn 1 accepted 1 served 1; turn 2 ready 0
        perform 2 0 = 2 0 load 0 0 = 0 @0; perform 1 0 = 1 0 load 0 0 = 0 @0; submit 1 store 0 0 7 serial 1
        turn 1 asked; turn 2 accepted 0 served 1; turn 1 asked; turn 0 accepted 0 served 1; turn 1 asked
        submit 2 load 1 0 serial 1; turn 2 asked; turn 1 accepted 0 served 1
";

#[test]
fn turns_with_a_kept_request(rt: HostRuntime) -> Result<(), Fail> {
    stations(&rt, CHAIN, AFTER_CHAIN)
}
