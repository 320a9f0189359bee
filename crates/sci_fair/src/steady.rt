//! What turns that change no rank bring about nevertheless: requests are taken, and answers come.

ghost use Rattle.std.specs.Prelude.{◌≡◌, ◌≢◌, ◌<◌, ℕ, false, true, List, IsSome};
ghost use Rattle.sci_history.specs.Seen.{IsAmong};
ghost use Rattle.sci_packets.specs.declared.body.Body.TheVariants.{Purge};
ghost use Rattle.sci_cache.specs.{Cache.{Letter}, State.{waits}};
ghost use Rattle.sci_core.specs.declared.lane.LaneKind.TheVariants.{Requests};
ghost use Rattle.sci_core.specs.{Core.{lane_of, node_at}, Sharing.{answer_to}};
ghost use Rattle.sci_policy.specs.Lines.{state_on};
ghost use Rattle.sci_fair.specs.Retries.{is_tried_once};
ghost use Rattle.sci_fair.specs.Steady.{AreSteadyTurns, HasTurn, HasWindows, Working, WorksByTurns};

/// A request that is in a lane is taken before 280 windows have passed, in each of which each node takes a turn, in any order and
/// as often as it likes, and no turn changes a level.
pub fn requests_are_taken()
    ensures { (j n : ℕ) (letter : Letter) (order : List ℕ) (first last : Working)
        → WorksByTurns first.core → j < first.core.size.nodes → n < first.core.size.nodes
        → IsAmong letter (lane_of first.core Requests j n)
        → AreSteadyTurns order first last → HasWindows first.core.size.nodes 280 order
        → HasTurn n (λ old new. IsAmong letter (lane_of old.core Requests j n)
        × (IsAmong letter (lane_of new.core Requests j n) → ⊥)) order first last }
{}

/// A line that awaits an answer has it before 281 such windows have passed: a turn of its node begins, and the answer is on its
/// way.
pub fn answers_come()
    ensures { (n line : ℕ) (order : List ℕ) (first last : Working)
        → WorksByTurns first.core → n < first.core.size.nodes → line < first.core.size.lines
        → waits (state_on (node_at first.core n) line) ≡ true
        → AreSteadyTurns order first last → HasWindows first.core.size.nodes 281 order
        → HasTurn n (λ old new. IsSome (answer_to old.core n line)) order first last }
{}

/// What is tried only once is over within 281 such windows: no line awaits the answer to a read, or to a Setback, or was purged
/// while it rolled. And no Purge is under way. So a machine whose levels stay tries again and again only to join a list, to roll out
/// of one, and to change or end one at its home.
pub fn only_some_requests_are_repeated()
    ensures once { (n line : ℕ) (order : List ℕ) (first last : Working)
        → WorksByTurns first.core → n < first.core.size.nodes → line < first.core.size.lines
        → AreSteadyTurns order first last → HasWindows first.core.size.nodes 281 order
        → is_tried_once (state_on (node_at first.core n) line) ≡ false }
    ensures purge { (j n : ℕ) (letter : Letter) (order : List ℕ) (first last : Working)
        → WorksByTurns first.core → j < first.core.size.nodes → n < first.core.size.nodes
        → IsAmong letter (lane_of first.core Requests j n)
        → AreSteadyTurns order first last → HasWindows first.core.size.nodes 280 order → letter.body ≢ Purge }
{}
