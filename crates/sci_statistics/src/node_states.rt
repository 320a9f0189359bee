//! The states of a line at a node.

ghost use Rattle.std.specs.Prelude.{◌≡◌, option_map};
ghost use Rattle.sci_cache.specs.Held.{state_of};
ghost use Rattle.sci_statistics.specs.Standing.{cache_at, home_at as home_at_of};

use sci_cache::Held;
use sci_core::Machine;
use sci_home::Home;

/// The state of a line in a node's cache, or None if there is no such node or line.
#[tactic(auto, unfolding(crate::specs::Standing::cache_at))]
pub fn held_at(machine: &Machine, n: u8, line: u8) -> Option<&Held>
    ensures { option_map (λ held. state_of held.now) result ≡ cache_at machine.now n line }
{
    if n >= machine.extent().nodes {
        return None;
    }
    let node = machine.node(n);
    if line < node.extent().lines {
        Some(node.held(line))
    } else {
        None
    }
}

/// The home of a line, or None if it isn't at this node.
#[tactic(auto, unfolding(crate::specs::Standing::home_at))]
pub fn home_at(machine: &Machine, n: u8, line: u8) -> Option<&Home>
    ensures { option_map (λ home. home.now) result ≡ home_at_of machine.now n line }
{
    if n >= machine.extent().nodes {
        return None;
    }
    let node = machine.node(n);
    if line < node.extent().lines {
        node.home(line)
    } else {
        None
    }
}
