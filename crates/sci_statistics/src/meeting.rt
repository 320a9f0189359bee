//! What a line meets by an event.

ghost use Rattle.std.specs.Prelude.{◌≡◌, IfOk, OnOk, option_map};
ghost use Rattle.sci_cache.specs.Cache.{letter_of};
ghost use Rattle.sci_core.specs.Core.{step};
ghost use Rattle.sci_statistics.specs.Meetings.{accepted_in, met_at_home as met_at_home_of, met_by as met_by_of, met_in_cache as met_in_cache_of};
ghost use Rattle.sci_statistics.specs.Meetings.{pending_at as pending_at_of, performed_in, served_in, served_on as served_on_line, transition_of as transition_of_event};

use crate::about::{line_changed, taken};
use crate::kind::Access;
use crate::node_states::{held_at, home_at};
use crate::transition::{Met, StateKind, Transition};
use crate::walk::applied;
use sci_core::{Machine, Pending};
use sci_home::is_for_home;
use sci_packets::{Body, Packet};
use sci_words::Event;
use std::alloc::AllocError;

/// What a line meets in a node's cache, or None if there is no such node or line.
fn met_in_cache(machine: &Machine, n: u8, line: u8, met: Met) -> Option<Transition>
    ensures { result ≡ met_in_cache_of machine.now n line met }
{
    match held_at(machine, n, line) {
        Some(held) => Some(Transition {
            state: StateKind::at_cache(held),
            met,
        }),
        None => None,
    }
}

/// What a line meets at its home, or None if its home isn't at this node.
fn met_at_home(machine: &Machine, n: u8, line: u8, met: Met) -> Option<Transition>
    ensures { result ≡ met_at_home_of machine.now n line met }
{
    match home_at(machine, n, line) {
        Some(home) => Some(Transition {
            state: StateKind::at_home(&home.state()),
            met,
        }),
        None => None,
    }
}

/// What a line meets by a request that a node would serve: in its cache, or at its home.
fn served_on(machine: &Machine, n: u8, line: u8, request: &Body) -> Option<Transition>
    ensures { result ≡ served_on_line machine.now n line request.now }
{
    let met = Met::Serve(request.command());
    if is_for_home(request) {
        met_at_home(machine, n, line, met)
    } else {
        met_in_cache(machine, n, line, met)
    }
}

/// What a line meets by the request that a node would serve.
fn served(machine: &Machine, n: u8, request: Option<Packet>, line: Option<u8>) -> Option<Transition>
    ensures { result ≡ served_in machine.now n (option_map letter_of request) line }
{
    match (request, line) {
        (Some(request), Some(line)) => served_on(machine, n, line, &request.body),
        _ => None,
    }
}

/// What a line meets by the answer that a node would accept.
fn accepted(
    machine: &Machine,
    n: u8,
    answer: Option<Packet>,
    line: Option<u8>,
) -> Option<Transition>
    ensures { result ≡ accepted_in machine.now n (option_map letter_of answer) line }
{
    match (answer, line) {
        (Some(answer), Some(line)) => {
            met_in_cache(machine, n, line, Met::Accept(answer.body.command()))
        }
        _ => None,
    }
}

/// The operation that is pending on a line of a node, or None if there is none.
fn pending_at(machine: &Machine, n: u8, line: u8) -> Option<Pending>
    ensures { result ≡ pending_at_of machine.now n line }
{
    if n < machine.extent().nodes {
        machine.node(n).pending(line)
    } else {
        None
    }
}

/// What a line meets by the operation that a node would perform.
fn performed(machine: &Machine, n: u8, line: u8) -> Option<Transition>
    ensures { result ≡ performed_in machine.now n line (pending_at_of machine.now n line) }
{
    match pending_at(machine, n, line) {
        Some(pending) => { met_in_cache(machine, n, line, Met::Perform(Access::of(&pending.op))) }
        None => None,
    }
}

/// What a line meets by an event if the event is enabled, or None if it meets nothing.
fn met_by(machine: &Machine, event: &Event) -> Option<Transition>
    ensures { result ≡ met_by_of machine.now event.now }
{
    match *event {
        Event::Ask { node, line, kind } => met_in_cache(machine, node, line, Met::Ask(kind)),
        Event::Serve { node, .. } => {
            served(
                machine,
                node,
                taken(machine, event),
                line_changed(machine, event),
            )
        }
        Event::Accept { node, .. } => {
            accepted(
                machine,
                node,
                taken(machine, event),
                line_changed(machine, event),
            )
        }
        Event::Perform { node, line } => performed(machine, node, line),
        Event::Issue { .. } | Event::Refuse { .. } | Event::Reply { .. } => None,
    }
}

/// Applies an event, and gives the transition that it is: the state before it, and what is met there. None if it isn't
/// enabled, or is an Issue, a Refuse or a Reply. Refused if memory is.
pub fn transition_of(machine: &mut Machine, event: &Event) -> Result<Option<Transition>, AllocError>
    ensures transition { IfOk result (λ it. it ≡ transition_of_event machine.old event.now) }
    ensures step { OnOk result (machine.new ≡ step machine.old event.now) }
{
    let met = met_by(machine, event);
    let enabled = applied(machine, event)?;
    if enabled { Ok(met) } else { Ok(None) }
}
