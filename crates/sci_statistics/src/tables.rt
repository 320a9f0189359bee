//! The pairs of the tables, one after another.

ghost use Rattle.std.specs.{Prelude.{◌≡◌, ◌++◌, IfOk, OnOk, filter, map}, List.{flat_map}};
ghost use Rattle.sci_statistics.specs.Transitions.{in_state, in_states, is_of_tables, table};

use crate::transition::{Met, StateKind, Transition};
use std::alloc::{AllocError, Global};

/// Appends the pairs of what is met with those of these states whose tables have it. Refused if memory is.
fn push_in_states(
    out: &mut Vec<Transition>,
    met: Met,
    states: &[StateKind],
) -> Result<(), AllocError>
    ensures { OnOk result
        (out.new.items ≡ out.old.items ++ filter is_of_tables (map (in_state met) states.now)) }
{
    for state in states {
        let pair = Transition { state: *state, met };
        if pair.is_of_tables() {
            out.push(pair)?;
        }
    }
    Ok(())
}

/// Appends the pairs of the tables with one of these that are met. Refused if memory is.
fn push_pairs(out: &mut Vec<Transition>, mets: &[Met]) -> Result<(), AllocError>
    ensures { OnOk result
        (out.new.items ≡ out.old.items ++ filter is_of_tables (flat_map in_states mets.now)) }
{
    for met in mets {
        push_in_states(out, *met, &StateKind::ALL)?;
    }
    Ok(())
}

/// The pairs of the tables of homes and caches: asks, requests, answers and operations, each in every state whose table has
/// it. Refused if memory is.
#[tactic(auto, unfolding(crate::specs::Transitions::table))]
pub fn pairs(alloc: Global) -> Result<Vec<Transition>, AllocError>
    ensures { IfOk result (λ pairs. pairs.items ≡ table) }
{
    let mut found = Vec::new(alloc);
    push_pairs(&mut found, &Met::ALL)?;
    Ok(found)
}
