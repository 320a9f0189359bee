//! Who shares a line and who may change it, by a plain walk over all nodes and the answers under way to them.

use crate::walked::Walked;
use sci_cache::Held;
use sci_core::LaneKind;
use sci_home::HomeState;
use sci_packets::{Body, NodeId};
use sci_words::Stamped;
use std::alloc::Global;
use std::test::*;

/// What the answer under way to a node about a line says: one that waits, or one in a lane.
fn answer_to(walked: &Walked, n: u8, line: u8) -> Option<Body> {
    for from in 0..walked.extent.nodes {
        if let Some(answer) = walked.machine.waiting(from) {
            if answer.target.get() == u16::from(n) && answer.line == u64::from(line) {
                return Some(answer.body);
            }
        }
        if let Some(lane) = walked.lane(LaneKind::Answers, from, n) {
            for answer in lane {
                if answer.line == u64::from(line) {
                    return Some(answer.body);
                }
            }
        }
    }
    None
}

/// The next node of a member, which is none for the last one; None if the node is no member.
fn link(held: &Held, answer: &Option<Body>) -> Option<Option<NodeId>> {
    match (held, answer) {
        (Held::Asking(_), Some(Body::Mdata(_))) => Some(None),
        (Held::Asking(_), Some(Body::Mgone { old_head })) => Some(Some(*old_head)),
        (Held::Asking(_), Some(Body::Fdata { old_head, .. })) => Some(*old_head),
        (Held::Joining(state), _) => Some(Some(state.old_head)),
        (Held::FreshJoining(state), _) => Some(Some(state.old_head)),
        (Held::Head(state), None) => Some(state.forward),
        (Held::FreshHead(state), None) => Some(state.forward),
        (Held::Below(state), None) => Some(state.forward),
        (Held::Purging(_), Some(Body::Purged { forward })) => Some(*forward),
        (Held::Purging(state), None | Some(Body::Busy)) => Some(Some(state.next)),
        (Held::Claiming(state), None | Some(Body::Wbok | Body::Wbno | Body::Busy)) => {
            Some(state.forward)
        }
        (Held::Clearing(_) | Held::Returning(_), None | Some(Body::Wbno | Body::Busy)) => {
            Some(None)
        }
        (Held::Rolling(state), None | Some(Body::Busy)) => Some(state.forward),
        _ => None,
    }
}

/// The contents in a member that may change them or is about to, or None if it isn't such a one.
fn authority(held: &Held, answer: &Option<Body>) -> Option<Stamped> {
    link(held, answer)?;
    match (held, answer) {
        (Held::Head(state), _) => Some(state.contents),
        (Held::FreshHead(state), _) => Some(state.contents),
        (Held::Purging(state), _) => Some(state.contents),
        (Held::Claiming(state), _) => Some(state.contents),
        (Held::Clearing(state), _) => Some(state.contents),
        (Held::Returning(state), _) => Some(state.contents),
        (Held::Asking(_), Some(Body::Mdata(contents))) => Some(*contents),
        (
            Held::Asking(_),
            Some(
                Body::Fdata {
                    old_head: None,
                    contents,
                },
            ),
        ) => Some(*contents),
        (Held::Joining(_) | Held::FreshJoining(_), Some(Body::Cdata(contents))) => Some(*contents),
        _ => None,
    }
}

/// The contents of each authority of a line.
fn authorities(alloc: Global, walked: &Walked, line: u8) -> Result<Vec<Stamped>, Fail> {
    let mut found = Vec::new(alloc);
    for n in 0..walked.extent.nodes {
        let held = walked.machine.held(n, line).ok_or("no such node")?;
        if let Some(contents) = authority(held, &answer_to(walked, n, line)) {
            found.push(contents)?;
        }
    }
    Ok(found)
}

/// How many members a line has.
fn members(walked: &Walked, line: u8) -> Result<u8, Fail> {
    let mut count = 0u8;
    for n in 0..walked.extent.nodes {
        let held = walked.machine.held(n, line).ok_or("no such node")?;
        if link(held, &answer_to(walked, n, line)).is_some() {
            count = count.wrapping_add(1);
        }
    }
    Ok(count)
}

/// How many nodes the walk from a head along the links meets until a link is none, at most one more than there
/// are. It is an error if the walk comes to a node that is no member.
fn walk_length(walked: &Walked, line: u8, head: u8) -> Result<u8, Fail> {
    let mut at = head;
    for count in 1..=walked.extent.nodes {
        let held = walked.machine.held(at, line).ok_or("no such node")?;
        let next = link(held, &answer_to(walked, at, line)).ok_or("a link to no member")?;
        match next {
            None => return Ok(count),
            Some(next) => at = u8::try_from(next.get())?,
        }
    }
    Ok(walked.extent.nodes.wrapping_add(1))
}

/// An error if the members of a line are not one list from its home's head, if it has not the authorities
/// that its home's state says, or if these are not its last contents.
pub fn holds(alloc: Global, walked: &Walked, line: u8, last: Stamped) -> Result<(), Fail> {
    let home = walked.machine.home(line).ok_or("no such home")?;
    let found = authorities(alloc, walked, line)?;
    let members = members(walked, line)?;
    let (wanted, length) = match home.state() {
        HomeState::Home(_) => (0, 0),
        HomeState::Fresh { head, .. } | HomeState::Gone { head } => {
            (1, walk_length(walked, line, u8::try_from(head.get())?)?)
        }
    };
    if found.len() != wanted {
        return Err(Fail::from("another number of authorities"));
    }
    if length != members {
        return Err(Fail::from("the members are not one list"));
    }
    if let Some(contents) = home.current() {
        if contents != last {
            return Err(Fail::from("the last contents are not the home's"));
        }
    }
    for contents in &found {
        if *contents != last {
            return Err(Fail::from("the last contents are not the authority's"));
        }
    }
    Ok(())
}
