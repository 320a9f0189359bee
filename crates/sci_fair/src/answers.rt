//! That each request is answered, whatever else goes on.

ghost use Rattle.std.specs.Prelude.{◌≡◌, ◌<◌, ℕ, true, List, IsSome};
ghost use Rattle.sci_history.specs.Seen.{IsAmong};
ghost use Rattle.sci_cache.specs.{Cache.{Letter}, State.{waits}};
ghost use Rattle.sci_core.specs.declared.lane.LaneKind.TheVariants.{Requests};
ghost use Rattle.sci_core.specs.{Core.{lane_of, node_at}, Sharing.{answer_to}};
ghost use Rattle.sci_policy.specs.Lines.{state_on};
ghost use Rattle.sci_fair.specs.{Later.{IsTurnAmong}, Steady.{AreTurns, HasTurnBy, HasWindows, Working, WorksByTurns}};

/// A request that is in a lane is taken before 564 windows have passed, in each of which each node takes a turn, by itself and when
/// it can perform nothing, in any order and as often as it likes; whatever is issued and performed between the turns. So no work of
/// others keeps a request waiting for longer.
pub fn requests_are_always_taken()
    ensures { (j n : ℕ) (letter : Letter) (order : List ℕ) (first last : Working)
        → WorksByTurns first.core → j < first.core.size.nodes → n < first.core.size.nodes
        → IsAmong letter (lane_of first.core Requests j n)
        → AreTurns IsTurnAmong order first last → HasWindows first.core.size.nodes 564 order
        → HasTurnBy IsTurnAmong n (λ old new. IsAmong letter (lane_of old.core Requests j n)
        × (IsAmong letter (lane_of new.core Requests j n) → ⊥)) order first last }
{}

/// A line that awaits an answer has it before 565 such windows have passed: a turn of its node begins, and the answer is on its way.
/// It may be a refusal.
pub fn answers_always_come()
    ensures { (n line : ℕ) (order : List ℕ) (first last : Working)
        → WorksByTurns first.core → n < first.core.size.nodes → line < first.core.size.lines
        → waits (state_on (node_at first.core n) line) ≡ true
        → AreTurns IsTurnAmong order first last → HasWindows first.core.size.nodes 565 order
        → HasTurnBy IsTurnAmong n (λ old new. IsSome (answer_to old.core n line)) order first last }
{}
