//! Ends that go through events by hand, and are gathered with packets under way.

use crate::by_hand::ByHand;
use crate::given::{ORDERS, stored};
use sci_core::Machine;
use sci_history::{Last, Logs};
use sci_text::schedule_of;
use sci_words::{Event, Extent};
use std::alloc::Global;
use std::test::*;

/// An error unless line 0 is the only line, and has this word 0 and this version.
fn ends_with(last: &Last, word: u64, version: u64) -> Result<(), Fail> {
    if last.lines() != 1 {
        return Err(Fail::from("more than one line"));
    }
    let contents = last.get(0);
    if contents.line.word(0) != word || contents.version != version {
        return Err(Fail::from("other last contents"));
    }
    Ok(())
}

/// The ends of a machine of this size, after these events.
fn hand_after(alloc: Global, extent: Extent, events: &[Event]) -> Result<ByHand, Fail> {
    let mut hand = ByHand::new(alloc, extent, 1)?;
    for event in events {
        hand.make(event)?;
    }
    Ok(hand)
}

/// The logs and last contents of the ends of a schedule's machine, after its events.
fn gathered(alloc: Global, schedule: &[u8]) -> Result<(Logs, Last), Fail> {
    let schedule = schedule_of(alloc, schedule)?;
    hand_after(alloc, schedule.extent(), schedule.events())?.gather(alloc)
}

/// One end looks, fills and publishes an mread as its Ask; the other looks, reads and frees it as its Serve. Nothing
/// was performed then, and the line is as it was.
#[test]
fn ends_by_hand(rt: HostRuntime) -> Result<(), Fail> {
    let (logs, last) = gathered(rt.alloc(), b"machine 2 1 1\nask 1 0 mread\nserve 1 0\n")?;
    if !logs.of(0).is_empty() || !logs.of(1).is_empty() {
        return Err(Fail::from("an entry"));
    }
    ends_with(&last, 0, 0)
}

/// Node 1 joins an empty list and stores 7. Node 0, which is the home, joins before it, purges it and stores 8. Then
/// node 0 writes the line back.
const JOIN_PURGE_AND_WRITE_BACK: &[u8] = b"machine 2 1 1\n\
    issue 1 store 0 0 7\nask 1 0 mread\nserve 1 0\nreply 0\naccept 0 1\nperform 1 0\n\
    issue 0 store 0 0 8\nask 0 0 mread\nserve 0 0\nreply 0\naccept 0 0\n\
    ask 0 0 cread\nrefuse 0 1\nreply 1\naccept 1 0\n\
    ask 0 0 cread\nserve 0 1\nreply 1\naccept 1 0\n\
    ask 0 0 purge\nserve 0 1\nreply 1\naccept 1 0\nperform 0 0\n\
    ask 0 0 wback\nserve 0 0\nreply 0\naccept 0 0\n";

/// Two ends go through a whole join, a purge and a write-back.
#[test]
fn ends_join_purge_and_write_back(rt: HostRuntime) -> Result<(), Fail> {
    let (logs, last) = gathered(rt.alloc(), JOIN_PURGE_AND_WRITE_BACK)?;
    if logs.of(0) != [stored(0, 8, 2)].as_slice() || logs.of(1) != [stored(1, 7, 1)].as_slice() {
        return Err(Fail::from("the logs"));
    }
    ends_with(&last, 8, 2)
}

/// Node 2 has stored 7 and writes the line back. Node 1 learns that node 2 is the head, and node 0 asks itself for the
/// line. The packets of all three are under way.
const THREE_UNDER_WAY: &[u8] = b"machine 3 1 1\n\
    issue 2 store 0 0 7\nask 2 0 mread\nserve 2 0\nreply 0\naccept 0 2\nperform 2 0\n\
    ask 2 0 wback\nask 1 0 mread\nserve 1 0\nreply 0\nask 0 0 fread\n";

/// The ends of three nodes after these events, in one of their orders.
fn three(
    alloc: Global,
    extent: Extent,
    events: &[Event],
    order: &[(usize, usize)],
) -> Result<ByHand, Fail> {
    let mut hand = hand_after(alloc, extent, events)?;
    for (first, second) in order {
        hand.swap(*first, *second)?;
    }
    Ok(hand)
}

/// Three ends are gathered in every order with packets in lanes: the store is logged, and the line has what it stored.
#[test]
fn three_ends_are_gathered_in_every_order(rt: HostRuntime) -> Result<(), Fail> {
    let schedule = schedule_of(rt.alloc(), THREE_UNDER_WAY)?;
    for order in &ORDERS {
        let hand = three(rt.alloc(), schedule.extent(), schedule.events(), order)?;
        let (logs, last) = hand.gather(rt.alloc())?;
        if !logs.of(0).is_empty() || !logs.of(1).is_empty() {
            return Err(Fail::from("an entry of a node that did nothing"));
        }
        if logs.of(2) != [stored(2, 7, 1)].as_slice() {
            return Err(Fail::from("the log of the node that stored"));
        }
        ends_with(&last, 7, 1)?;
    }
    Ok(())
}

/// An error unless logs and last contents are those of a machine after these events.
fn are_of(machine: &Machine, alloc: Global, logs: &Logs, last: &Last) -> Result<(), Fail> {
    let wanted = machine.logs(alloc)?;
    for n in 0..logs.nodes() {
        if n < wanted.nodes() && logs.of(n) != wanted.of(n) {
            return Err(Fail::new(format_args!("the log of node {n}")));
        }
    }
    let contents = machine.last();
    if last.lines() != contents.lines() || last.get(0) != contents.get(0) {
        return Err(Fail::from("the last contents"));
    }
    Ok(())
}

/// After each number of events, the ends in each order are gathered as a machine that was taken through the same
/// events.
#[test]
fn ends_agree_with_a_machine(rt: HostRuntime) -> Result<(), Fail> {
    let schedule = schedule_of(rt.alloc(), THREE_UNDER_WAY)?;
    let (extent, events) = (schedule.extent(), schedule.events());
    for count in 0..=events.len() {
        let mut machine = Machine::new(rt.alloc(), extent, 1)?;
        for event in &events[..count] {
            if machine.apply(event).is_err() {
                return Err(Fail::from("an event that isn't enabled"));
            }
        }
        for order in &ORDERS {
            let hand = three(rt.alloc(), extent, &events[..count], order)?;
            let (logs, last) = hand.gather(rt.alloc())?;
            are_of(&machine, rt.alloc(), &logs, &last)?;
        }
    }
    Ok(())
}
