//! Cycles without a shortcut: no entry comes after another of the cycle than the next one.

ghost use Rattle.std.specs.Prelude.{◌≡◌, ◌<◌, ◌≤◌, ◌-◌, ℕ, IfOk, IfSome, None, Some, length, slice_get};
ghost use Rattle.sci_history.specs.{declared.order_verdict.Step.{Step}, Cycle.{ComesAfter, IsRound}};
ghost use Rattle.sci_history.specs.Shortcuts.{ComesAfterAt, IsBareRoundOf, IsFree, IsFreeWithin};

use crate::order_verdict::{Reason, Step, reason_after};
use std::alloc::{AllocError, Global};

/// Why an entry comes after another, or None if it doesn't.
fn reason_between(step: &Step, other: &Step) -> Option<Reason>
    ensures some { IfSome result (λ reason. ComesAfter reason step.now other.now) }
    ensures none { result ≡ None → IsFree step.now other.now }
{
    if other.entry.node == step.entry.node && other.place < step.place {
        return Some(Reason::Logged);
    }
    reason_after(&step.entry, &other.entry)
}

/// A part of some steps that is a round: its last entry comes after its first.
#[derive(Clone, Copy)]
struct Part {
    first: usize,
    last: usize,
    reason: Reason,
}

/// The shortest part of a round that is a round.
fn shortest_part(steps: &[Step]) -> Part
    requires { IsRound steps.now }
    ensures order { result.first < result.last }
    ensures within { result.last < length steps.now }
    ensures round { ComesAfterAt steps.now result.last result.first result.reason }
    ensures least { IsFreeWithin steps.now (result.last - result.first) }
{
    for span in 1..steps.len() {
        for first in 0..steps.len() - span {
            if let Some(reason) = reason_between(&steps[first + span], &steps[first]) {
                return Part {
                    first,
                    last: first + span,
                    reason,
                };
            }
        }
    }
    unreachable!()
}

/// The last step up to one that the step at a place comes after, and why.
fn farthest(steps: &[Step], place: usize, last: usize) -> (usize, Reason)
    requires round { IsRound steps.now }
    requires before { place < last }
    requires within { last < length steps.now }
    ensures onward { place < result.0 }
    ensures last { result.0 ≤ last }
    ensures comes { ComesAfterAt steps.now place result.0 result.1 }
    ensures farthest { (there : ℕ) (x y : Step) → result.0 < there → there ≤ last →
        slice_get steps.now place ≡ Some x → slice_get steps.now there ≡ Some y → IsFree x y }
{
    let mut found = (place + 1, steps[place].reason);
    for other in place + 2..last + 1 {
        if let Some(reason) = reason_between(&steps[place], &steps[other]) {
            found = (other, reason);
        }
    }
    found
}

/// A round of some of the entries of a round, in their order, without a shortcut.
pub fn without_shortcuts(alloc: Global, steps: &[Step]) -> Result<Vec<Step>, AllocError>
    requires { IsRound steps.now }
    ensures { IfOk result (λ kept. IsBareRoundOf steps.now kept.items) }
{
    let part = shortest_part(steps);
    let mut kept = Vec::new(alloc);
    let mut next = part.first;
    for place in part.first..part.last {
        if place == next {
            let (onward, reason) = farthest(steps, place, part.last);
            kept.push(Step {
                reason,
                ..steps[place]
            })?;
            next = onward;
        }
    }
    kept.push(Step {
        reason: part.reason,
        ..steps[part.last]
    })?;
    Ok(kept)
}
