//! The rules: what a node wants to do for its own lines and operations.

ghost use Rattle.std.specs.Prelude.{◌≡◌, ◌<◌, ℕ, true, None, is_some};
ghost use Rattle.sci_cache.specs.LineSet.{is_in};
ghost use Rattle.sci_core.specs.Node.{lines_of};
ghost use Rattle.sci_policy.specs.Lines.{has_pending as has_pending_on};
ghost use Rattle.sci_policy.specs.Policy.{ask_of as ask_of_line, operation_asks as asked_by_operation, operation_wanted as operation_wanted_by};
ghost use Rattle.sci_policy.specs.Policy.{due_wanted as due_wanted_by, perform_wanted as perform_wanted_by, purge_wanted as purge_wanted_by};
ghost use Rattle.sci_policy.specs.Policy.{send_wanted as send_wanted_by, ruled as ruled_by, slot_wanted as slot_wanted_by};
ghost use Rattle.sci_policy.specs.Policy.{contents_wanted as contents_wanted_by};

use crate::lines::{has_maker, held_on, is_out, least_of, oldest, own_ask};
use crate::policy::Policy;
use crate::want::Want;
use sci_cache::{Held, LineKind, LineSet};
use sci_core::Node;
use sci_words::AskKind;

/// Performs the oldest operation that can be performed.
pub(crate) fn perform_wanted(node: &Node) -> Option<Want>
    ensures { result ≡ perform_wanted_by node.now }
{
    node.performs_on_lines_with_contents();
    let lines = node
        .pending_lines()
        .intersection(node.lines_of(LineKind::CouldGiveWay));
    let line = oldest(node, lines, |line| node.may_perform(line));
    line.map(|line| Want::Perform(line))
}

/// What the first rule that fits wants, where no operation can be performed.
pub(crate) fn ruled(policy: &Policy, node: &Node) -> Option<Want>
    ensures { perform_wanted_by node.now ≡ None → result ≡ ruled_by policy.now node.now }
{
    purge_wanted(policy, node)
        .or_else(|| send_wanted(node))
        .or_else(|| due_wanted(policy, node))
        .or_else(|| operation_wanted(node))
}

/// Purges the least list whose head is draining or has an operation pending.
fn purge_wanted(policy: &Policy, node: &Node) -> Option<Want>
    ensures { result ≡ purge_wanted_by policy.now node.now }
{
    let wanted = policy.draining().union(node.pending_lines());
    let line = node
        .lines_of(LineKind::HasSharers)
        .intersection(wanted)
        .next_from(0);
    line.map(|line| Want::Ask(line, AskKind::Purge))
}

/// Sends the request of the least line that must send one.
fn send_wanted(node: &Node) -> Option<Want>
    ensures { result ≡ send_wanted_by node.now }
{
    let line = least_of(node, LineKind::MustSend)?;
    ask_of(node, line)
}

/// Claims the least list that is due.
fn due_wanted(policy: &Policy, node: &Node) -> Option<Want>
    ensures { result ≡ due_wanted_by policy.now node.now }
{
    let line = node
        .lines_of(LineKind::HasFreshSharers)
        .intersection(policy.due())
        .next_from(0);
    line.map(|line| Want::Ask(line, AskKind::Claim))
}

/// The line's own ask.
fn ask_of(node: &Node, line: u8) -> Option<Want>
    ensures { result ≡ ask_of_line node.now line }
{
    let kind = own_ask(node, line)?;
    Some(Want::Ask(line, kind))
}

/// What pending operations want.
fn operation_wanted(node: &Node) -> Option<Want>
    ensures { result ≡ operation_wanted_by node.now }
{
    slot_wanted(node).or_else(|| contents_wanted(node))
}

/// A slot for the oldest operation, if its line has no entry, no slot is free, and none is about to be. The least line
/// that can gives way.
fn slot_wanted(node: &Node) -> Option<Want>
    ensures { result ≡ slot_wanted_by node.now }
{
    if node.has_slot() || least_of(node, LineKind::GivesWay).is_some() {
        return None;
    }
    let line = oldest(node, node.pending_lines(), |_line| true)?;
    if !is_out(node, line) {
        return None;
    }
    let other = least_of(node, LineKind::CouldGiveWay)?;
    ask_of(node, other)
}

/// What the oldest operation that asks for something asks for.
fn contents_wanted(node: &Node) -> Option<Want>
    ensures { result ≡ contents_wanted_by node.now }
{
    let line = oldest(node, lines_that_ask(node), |line| {
        operation_asks(node, line).is_some()
    })?;
    operation_asks(node, line)
}

/// The lines whose operations can ask for something. With no slot free a line without an entry asks for nothing.
fn lines_that_ask(node: &Node) -> LineSet
    ensures here { (line : ℕ) → is_in result line ≡ true → line < lines_of node.now }
    ensures all { (line : ℕ) → has_pending_on node.now line ≡ true →
        is_some (asked_by_operation node.now line) ≡ true → is_in result line ≡ true }
{
    let pending = node.pending_lines();
    if node.has_slot() {
        pending.difference(node.lines_of(LineKind::Moves))
    } else {
        pending.intersection(node.lines_of(LineKind::CouldGiveWay))
    }
}

/// What the operation that is pending on a line asks for.
fn operation_asks(node: &Node, line: u8) -> Option<Want>
    ensures { result ≡ asked_by_operation node.now line }
{
    match held_on(node, line) {
        Some(Held::FreshHead(_) | Held::Below(_)) => ask_of(node, line),
        Some(Held::Out(_)) | None if node.has_slot() => {
            let kind = if has_maker(node, line) {
                AskKind::Mread
            } else {
                AskKind::Fread
            };
            Some(Want::Ask(line, kind))
        }
        _ => None,
    }
}
