//! Which event comes next in a walk.

use crate::walked::{LIMIT, Walked};
use sci_cache::Held;
use sci_core::LaneKind;
use sci_packets::Body;
use sci_random::{Random, any_kind, any_line, any_operation};
use sci_words::{AskKind, Event, Op};

/// A node, and those after it in a circle: the one at this place of the circle.
fn round(first: u8, place: u8, nodes: u8) -> u8 {
    if nodes == 0 {
        return 0;
    }
    ((u16::from(first) + u16::from(place)) % u16::from(nodes)) as u8
}

/// What a state asks, if it asks now: a join that has begun goes on at once. A join begins and a stay in a list ends
/// now and then, and the more nodes there are, the less often does each of them join.
fn any_wish(random: &mut Random, held: &Held, nodes: u8) -> Option<AskKind> {
    match held {
        Held::Out(_) if !random.once_in(nodes) => None,
        Held::Out(_) if random.once_in(2) => Some(AskKind::Fread),
        Held::Out(_) => Some(AskKind::Mread),
        Held::Joining(state) if !state.sent => Some(AskKind::Cread),
        Held::FreshJoining(state) if !state.sent => Some(AskKind::Cread),
        Held::Telling(state) if !state.sent => Some(AskKind::Setback),
        Held::Head(state) if state.forward.is_some() && random.once_in(3) => Some(AskKind::Purge),
        Held::Head(state) if state.forward.is_none() && random.once_in(8) => Some(AskKind::Wback),
        Held::FreshHead(state) if state.forward.is_none() && random.once_in(8) => {
            Some(AskKind::Clear)
        }
        Held::FreshHead(_) if random.once_in(8) => Some(AskKind::Claim),
        Held::Below(_) if random.once_in(8) => Some(AskKind::Roll),
        _ => None,
    }
}

/// Whether a state allows an operation.
fn allows(held: &Held, op: &Op) -> bool {
    match held {
        Held::Head(state) => state.forward.is_none() || !op.is_maker(),
        Held::FreshHead(_) | Held::Below(_) => !op.is_maker(),
        _ => false,
    }
}

/// Whether a node has an entry for as many lines as it has version slots.
fn is_full(walked: &Walked, n: u8) -> bool {
    let mut taken = 0u8;
    for line in 0..walked.extent.lines {
        match walked.machine.held(n, line) {
            None | Some(Held::Out(_)) => {}
            Some(_) => taken = taken.wrapping_add(1),
        }
    }
    taken >= walked.extent.slots
}

fn any_issue(random: &mut Random, walked: &Walked, n: u8, line: u8) -> Option<Event> {
    let free = walked.machine.pending(n, line).is_none() && walked.issued(n) < LIMIT;
    free.then(|| Event::Issue {
        node: n,
        op: any_operation(random, line),
    })
}

fn any_perform(walked: &Walked, n: u8, line: u8) -> Option<Event> {
    let pending = walked.machine.pending(n, line)?;
    allows(walked.machine.held(n, line)?, &pending.op).then_some(Event::Perform { node: n, line })
}

fn any_ask(random: &mut Random, walked: &Walked, n: u8, line: u8) -> Option<Event> {
    let held = walked.machine.held(n, line)?;
    let kind = any_wish(random, held, walked.extent.nodes)?;
    if held.is_out() && is_full(walked, n) {
        return None;
    }
    Some(Event::Ask {
        node: n,
        line,
        kind,
    })
}

fn any_service(random: &mut Random, walked: &Walked, from: u8, n: u8) -> Option<Event> {
    if walked.machine.waiting(n).is_some() {
        return None;
    }
    let request = walked.lane(LaneKind::Requests, from, n)?.front()?;
    if matches!(request.body, Body::Setback { .. }) || !random.once_in(8) {
        Some(Event::Serve { from, node: n })
    } else {
        Some(Event::Refuse { from, node: n })
    }
}

fn any_accept(walked: &Walked, from: u8, n: u8) -> Option<Event> {
    if walked.is_clear(LaneKind::Answers, from, n) {
        return None;
    }
    Some(Event::Accept { from, node: n })
}

fn any_reply(walked: &Walked, n: u8) -> Option<Event> {
    if walked.machine.waiting(n).is_none() {
        return None;
    }
    Some(Event::Reply { node: n })
}

/// An event that takes a packet or sends an answer at node `n`, if there is one: of another node, the first in a
/// circle from `first`.
fn event_of_packets(
    random: &mut Random,
    walked: &Walked,
    kind: u8,
    first: u8,
    n: u8,
) -> Option<Event> {
    for place in 0..walked.extent.nodes {
        let from = round(first, place, walked.extent.nodes);
        let found = match kind {
            0 => any_service(random, walked, from, n),
            _ => any_accept(walked, from, n),
        };
        if found.is_some() {
            return found;
        }
    }
    None
}

/// An event that a look at the nodes' states and at the lanes finds enabled, if the first look finds one: of the
/// nodes, the first in a circle from one that is taken by chance.
pub fn enabled_event(random: &mut Random, walked: &Walked) -> Option<Event> {
    let nodes = walked.extent.nodes;
    let (first, other) = (random.below(nodes), random.below(nodes));
    let line = any_line(random, walked.extent.lines);
    let kind = random.below(8);
    for place in 0..nodes {
        let n = round(first, place, nodes);
        let found = match kind {
            0 | 1 => event_of_packets(random, walked, kind, other, n),
            2 => any_reply(walked, n),
            3 | 4 => any_ask(random, walked, n, line),
            5 | 6 => any_perform(walked, n, line),
            _ => any_issue(random, walked, n, line),
        };
        if found.is_some() {
            return found;
        }
    }
    None
}

/// Any event, of nodes and lines of the machine and now and then of others.
pub fn any_event(random: &mut Random, walked: &Walked) -> Event {
    let nodes = walked.extent.nodes.saturating_add(1);
    let (node, from) = (random.below(nodes), random.below(nodes));
    let line = random.below(walked.extent.lines.saturating_add(1));
    match random.below(7) {
        0 => Event::Issue {
            node,
            op: any_operation(random, line),
        },
        1 => Event::Perform { node, line },
        2 => Event::Ask {
            node,
            line,
            kind: any_kind(random),
        },
        3 => Event::Serve { from, node },
        4 => Event::Refuse { from, node },
        5 => Event::Reply { node },
        _ => Event::Accept { from, node },
    }
}
