//! Laws of what goes on, each the contract of a function that does nothing.

ghost use Rattle.std.specs.Prelude.{◌≡◌, ◌<◌, ◌+◌, ℕ, List};
ghost use Rattle.sci_words.specs.declared.event.Event.{Event};
ghost use Rattle.sci_core.specs.Core.{Core, run_from};
ghost use Rattle.sci_core.specs.Draining.{AskNothing, CanDrain, IsDrained, IsLight, moves_made, weight};
ghost use Rattle.sci_core.specs.{Queues.{FitsQueues}, Reached.{IsReachable}};

/// In every reached state, each event that moves a packet on lowers the weight of what is under way by exactly one: a
/// Serve, a Refuse, a Reply or an Accept, if it is enabled. No other event changes it but an Ask. So of every list of
/// events without an Ask, whatever is refused and in whatever order, exactly as many move a packet on as the weight falls.
pub fn packets_run_out()
    ensures { (core : Core) (events : List Event) → IsReachable core → AskNothing events →
        weight core ≡ weight (run_from core events) + moves_made core events }
{}

/// If what is under way has no weight, nothing is under way.
pub fn weightless_is_drained()
    ensures { (core : Core) → weight core ≡ 0 → IsDrained core }
{}

/// In every reached state a Serve, a Reply or an Accept is enabled, or nothing is under way.
pub fn packets_move_on()
    ensures { (core : Core) → IsReachable core → CanDrain core }
{}

/// In every reached state at most one answer is in the lanes to a node for each of its lines with an entry, and at most one
/// packet, be it a request or an answer, for each line with an entry of each node. A node has an entry for no more lines than
/// the machine has, and than the node has version slots. So queues of this depth never make a packet wait for room, and
/// one queue may hold both kinds.
pub fn queues_are_bounded()
    ensures { (core : Core) (n : ℕ) → IsReachable core → n < core.size.nodes → FitsQueues core n }
{}

/// In every reached state what is under way weighs at most three times as much as each node may have lines with an entry:
/// no more than the machine has lines, and no more than the node has version slots.
pub fn weights_are_bounded()
    ensures { (core : Core) → IsReachable core → IsLight core }
{}
