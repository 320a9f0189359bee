ghost use Rattle.std.specs.Prelude.{map};
ghost use Rattle.sci_lanes.specs.Gathering.{AreOf};

use sci_core::LaneKind;
use sci_history::{Last, Logs};
use sci_lanes::{FinishFault, LaneEnd, Lanes};
use sci_words::{Act, Event, Extent, Op};
use std::alloc::Global;
use std::test::*;

/// An error unless the next cells of a node's lanes of a kind, to and from another, are empty.
fn finds_empty(end: &mut LaneEnd, kind: LaneKind, other: u8) -> Result<(), Fail> {
    if other >= end.nodes() {
        return Err(Fail::from("no such node"));
    }
    let cell = end.next_to_send(kind, other);
    if end.look(cell) != 0 {
        return Err(Fail::from("a full cell to send into"));
    }
    if other >= end.nodes() {
        return Err(Fail::from("no such node"));
    }
    let cell = end.next_to_take(kind, other);
    if end.look(cell) != 0 {
        return Err(Fail::from("a full cell to take from"));
    }
    Ok(())
}

/// An error unless an operation is issued.
fn issues(end: &mut LaneEnd, op: Op) -> Result<(), Fail> {
    if !end.node().may_issue(&op) {
        return Err(Fail::from("not to be issued"));
    }
    let event = Event::Issue { node: end.me(), op };
    end.beat(&event);
    if end.node().pending(op.line).is_none() {
        return Err(Fail::from("not pending"));
    }
    Ok(())
}

/// The ends of a new machine are those of its nodes, in order; each cell that they look at is empty, and each node issues
/// an operation.
#[test]
fn a_machine_opens(rt: HostRuntime) -> Result<(), Fail> {
    let extent = Extent::new(3, 2, 1).ok_or("an extent")?;
    let (_lanes, mut ends) = Lanes::new(rt.alloc(), extent, 1)?;
    assert_eq!(rt; ends.len(), 3);
    for (place, end) in ends.iter_mut().enumerate() {
        assert_eq!(rt; usize::from(end.me()), place);
        for other in 0..3 {
            finds_empty(end, LaneKind::Requests, other)?;
            finds_empty(end, LaneKind::Answers, other)?;
        }
        let op = Op {
            line: 1,
            word: 0,
            act: Act::Load,
        };
        issues(end, op)?;
    }
    Ok(())
}

/// An error unless all logs are empty, and each of two lines is at version 0.
fn is_untouched(logs: &Logs, last: &Last) -> Result<(), Fail> {
    for n in 0..logs.nodes() {
        if !logs.of(n).is_empty() {
            return Err(Fail::new(format_args!("an entry of node {n}")));
        }
    }
    if last.lines() != 2 || last.get(0).version != 0 || last.get(1).version != 0 {
        return Err(Fail::from("a line that was written"));
    }
    Ok(())
}

/// An error unless the ends are gathered, the second time if memory was refused, and nothing was done.
fn gathers(alloc: Global, lanes: Lanes, ends: Vec<LaneEnd>) -> Result<(), Fail>
    requires own { AreOf lanes (map (λ end. end) ends.items) }
{
    let (lanes, ends) = match lanes.gather(alloc, ends) {
        Ok((logs, last)) => return is_untouched(&logs, &last),
        Err((FinishFault::Missing, _, _)) => return Err(Fail::from("an end is missing")),
        Err((FinishFault::Memory, lanes, ends)) => (lanes, ends),
    };
    match lanes.gather(alloc, ends) {
        Ok((logs, last)) => is_untouched(&logs, &last),
        Err(_) => Err(Fail::from("refused again")),
    }
}

/// Ends come back if one of them is missing, or memory is refused: with every allocation granted the first gathering is
/// refused for the missing one alone. With it they are gathered.
#[test]
fn a_refused_gathering_gives_all_back(rt: HostRuntime) -> Result<(), Fail> {
    let extent = Extent::new(3, 2, 1).ok_or("an extent")?;
    let Ok((lanes, mut ends)) = Lanes::new(rt.alloc(), extent, 1) else {
        return Ok(());
    };
    let Some(end) = ends.pop() else {
        return Err(Fail::from("no end"));
    };
    let (lanes, mut ends) = match lanes.gather(rt.alloc(), ends) {
        Err((FinishFault::Missing, lanes, ends)) => (lanes, ends),
        _ => return Err(Fail::from("gathered without an end")),
    };
    assert_eq!(rt; ends.len(), 2);
    if ends.push(end).is_err() {
        return Err(Fail::from("no room for the end that was taken out"));
    }
    gathers(rt.alloc(), lanes, ends)
}
