//! While something is pending, turns don't go on for long until an operation is performed.

ghost use Rattle.std.specs.Prelude.{◌≡◌, ◌≤◌, ◌+◌, ◌*◌, ℕ, IsSome, List, Some};
ghost use Rattle.sci_words.specs.declared.event.Event.{Event};
ghost use Rattle.sci_core.specs.{Core.{Core, node_at, opening, stepping}, Draining.{IsDrained}, Node.{pending_on}, Reached.{IsReached}, Size.{IsMachineSize, Size}};
ghost use Rattle.sci_fair.specs.{Lanes.{IsWork}, Later.{HasRest, IsCountedTurn, NothingPends, Remaining}};
ghost use Rattle.sci_fair.specs.Steady.{AreSteadyTurns, AreTurns, HasWindows, IsTurnAlone, Working, WorksByTurns};
ghost use Rattle.sci_fair.specs.{Steps.{most_changes}, Waiting.{AreTurnsBeside}};

/// A machine that opens works by turns, and one in which nothing is under way. So does one after a whole turn that a node takes
/// by itself and that leaves no lane longer than four, after an Issue, and after a Perform.
pub fn machines_work_by_turns()
    ensures first { (size : Size) → IsMachineSize size → WorksByTurns (opening size) }
    ensures drained { (core : Core) → IsReached core → IsDrained core → WorksByTurns core }
    ensures turns { (n : ℕ) (old new : Working) → WorksByTurns old.core
        → IsTurnAlone n old new → WorksByTurns new.core }
    ensures works { (core new : Core) (e : Event) → WorksByTurns core
        → IsWork e → stepping core e ≡ Some new → WorksByTurns new }
{}

/// Turns that change no level don't go on while something is pending: if 1,253 windows of them lie ahead, nothing is.
pub fn steady_turns_find_nothing_pending()
    ensures { (order : List ℕ) (first last : Working) → WorksByTurns first.core
        → AreSteadyTurns order first last → HasWindows first.core.size.nodes 1253 order → NothingPends first.core }
{}

/// There is no livelock. Let nodes take whole turns, each by itself and when it can perform nothing, in any order and each as
/// often as it likes; and let operations be issued and performed between them. Count windows, in each of which each node takes
/// a turn. Between two Performs at most 141 turns for each line of each node change something for good, and while something is
/// pending at most 1,253 windows pass until one does. So within the windows that the clause counts there is a moment at which
/// nothing is pending.
pub fn operations_are_performed()
    ensures { (order : List ℕ) (first last : Remaining) → WorksByTurns first.working.core
        → AreTurns IsCountedTurn order first last
        → HasWindows first.working.core.size.nodes ((first.performs + 1)
        * (most_changes first.working.core.size + 1) * 1253) order
        → HasRest order first last }
{}

/// An operation that waits loses nothing to others. Until it is performed at most 104 turns change the rank of its line, whatever
/// is issued and performed meanwhile, and in whatever order nodes take whole turns, each by itself and when it can perform
/// nothing. All other turns leave the line as it is, or only try.
pub fn waiting_operations_lose_nothing()
    ensures { (n line changes : ℕ) (order : List ℕ) (first last : Working) → WorksByTurns first.core
        → IsSome (pending_on (node_at first.core n) line)
        → AreTurnsBeside n line changes order first last → changes ≤ 104 }
{}
