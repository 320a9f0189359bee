//! Laws of a network that keeps no order, each the contract of a function that does nothing: whatever packet of a lane
//! comes next, the machine is coherent. Every law of a reachable state (`IsReachable`) is one of these, too.

ghost use Rattle.std.specs.{Prelude.{◌≡◌, ◌<◌, ◌≤◌, ◌++◌, ◌∷◌, ◌+◌, ◌==◌, ℕ, List, None, Some, false, filter, length, map, IsSome}, List.{AllByRecursion}};
ghost use Rattle.sci_words.specs.declared.limits.TheConstants.{MAX_NODES};
ghost use Rattle.sci_words.specs.Stamped.{zero_stamped};
ghost use Rattle.sci_cache.specs.Cache.{Letter};
ghost use Rattle.sci_history.specs.{History.{IsHistory}, Lawful.{Lawful}, Memory.{IsRun, words_of_lines, zero_memory}};
ghost use Rattle.sci_history.specs.{Placed.{is_on_line, pair_of}, Sequential.{IsInProgramOrder, IsSequentialOrder}};
ghost use Rattle.sci_core.specs.declared.lane.LaneKind.{LaneKind, TheVariants.{Requests, Answers}};
ghost use Rattle.sci_core.specs.Alternates.{IsAlternating, Idle};
ghost use Rattle.sci_core.specs.Core.{Core, lane_of, node_at, opening, sent_by, with_node};
ghost use Rattle.sci_core.specs.{Draining.{weight}, FirstCome.{AreWaiting}};
ghost use Rattle.sci_core.specs.Network.{Move, MovesInTurn, asks_in, brought_on, entered_by, entries_by, marks_by, moved, moved_from, succeeded_by};
ghost use Rattle.sci_core.specs.Node.{NodeOf, node_accepting, node_asking, node_issuing, node_performing, node_replying, node_serving};
ghost use Rattle.sci_core.specs.{Sides.{taken_to}, Taking.{IsTakable, lane_kind, node_taking}, declared.taking.Taking.{Taking}};
ghost use Rattle.sci_words.specs.declared.{event.AskKind.{AskKind}, operation.Op.{Op}};
ghost use Rattle.sci_history.specs.declared.entry.Entry.{Entry};
ghost use Rattle.sci_core.specs.{Outcome.{logs_of}, Reached.{IsReachable}, Sharing.{last_at, last_of}, Size.{IsSize, Size}};

/// Where moves lead is reachable, and a state that is stays so by one move more: by an event, or by a packet that
/// overtakes others of its lane.
pub fn moves_reach()
    ensures any { (size : Size) (moves : List Move) → IsSize size → IsReachable (moved_from (opening size) moves) }
    ensures more { (core : Core) (move : Move) → IsReachable core → IsReachable (moved core move) }
{}

/// Every packet of a lane may be the next that its receiver takes: an answer is accepted, and a request is served
/// unless an answer waits.
pub fn any_packet_is_taken()
    ensures accepted { (core : Core) (from n : ℕ) (before rest : List Letter) (letter : Letter) → IsReachable core →
        from < core.size.nodes → n < core.size.nodes → lane_of core Answers from n ≡ before ++ letter ∷ rest →
        IsSome (node_accepting (node_at core n) letter) }
    ensures served { (core : Core) (from n : ℕ) (before rest : List Letter) (letter : Letter) → IsReachable core →
        from < core.size.nodes → n < core.size.nodes → lane_of core Requests from n ≡ before ++ letter ∷ rest →
        (node_at core n).waiting ≡ None → IsSome (node_serving (node_at core n) letter) }
{}

/// The entries that moves make on a line are its history, and those of all lines are a run of one memory of one thread.
/// They are an order that makes the logs sequentially consistent.
pub fn moves_are_runs()
    ensures history { (size : Size) (moves : List Move) (line : ℕ) → IsSize size → line < size.lines →
        IsHistory (filter (is_on_line line) (entries_by (opening size) moves)) zero_stamped
        (last_at (moved_from (opening size) moves) line) }
    ensures run { (size : Size) (moves : List Move) → IsSize size →
        IsRun (map pair_of (entries_by (opening size) moves)) (zero_memory size.lines)
        (words_of_lines (last_of (moved_from (opening size) moves))) }
    ensures order { (core : Core) (reached : IsReachable core) → core.size.nodes ≤ MAX_NODES →
        IsSequentialOrder (logs_of core) (last_of core) (entries_by (opening core.size) reached.moves) }
{}

/// Asks, takings and accepted answers of a node about a line alternate, whatever overtakes whatever.
pub fn moves_alternate()
    ensures { (size : Size) (moves : List Move) (n line : ℕ) → IsSize size → n < size.nodes → line < size.lines →
        IsAlternating Idle (marks_by (opening size) moves n line) }
{}

/// The nodes become the authority of a line in the order in which its home let them in.
pub fn moves_are_in_turn()
    ensures { (size : Size) (moves : List Move) (line : ℕ) (waiting : List ℕ) → IsSize size → line < size.lines →
        AreWaiting (moved_from (opening size) moves) line waiting →
        entered_by (opening size) moves line ≡ succeeded_by (opening size) moves line ++ waiting }
{}

/// A lane has at most one packet about a line. So which packet of a lane comes next is which line comes next.
pub fn lanes_keep_lines_apart()
    ensures { (core : Core) (kind : LaneKind) (from to line : ℕ) → IsReachable core → from < core.size.nodes →
        to < core.size.nodes → line < core.size.lines →
        length (filter (λ letter. letter.line == line) (lane_of core kind from to)) ≤ 1 }
{}

/// Of every list of moves without an Ask, in whatever order packets come, exactly as many bring a packet on as the
/// weight of what is under way falls.
pub fn moves_run_out()
    ensures { (core : Core) (moves : List Move) → IsReachable core → AllByRecursion (λ move. asks_in move ≡ false) moves →
        weight core ≡ weight (moved_from core moves) + brought_on core moves }
{}

/// A node that has at most one operation pending all along the moves logs in program order.
pub fn moves_log_in_order()
    ensures { (size : Size) (moves : List Move) (n : ℕ) → IsSize size → MovesInTurn size moves n →
        IsInProgramOrder (node_at (moved_from (opening size) moves) n).log }
{}

/// Nodes that call their own part of each event, and any network between them: what they are together is reachable, if
/// each packet that a node sends is given to its target, in any order, at most once. So every law of reachable states holds of
/// them. A packet that was not given yet, or is lost, stays under way.
pub fn calls_reach()
    ensures issue { (core : Core) (n : ℕ) (op : Op) (next : NodeOf) → IsReachable core → n < core.size.nodes →
        node_issuing (node_at core n) op ≡ Some next → IsReachable (with_node core n next) }
    ensures perform { (core : Core) (n line : ℕ) (next : NodeOf) (entry : Entry) → IsReachable core →
        n < core.size.nodes → node_performing (node_at core n) line ≡ Some (next, entry) →
        IsReachable (with_node core n next) }
    ensures ask { (core : Core) (n line : ℕ) (kind : AskKind) (next : NodeOf) (letter : Letter) → IsReachable core →
        n < core.size.nodes → node_asking (node_at core n) line kind ≡ Some (next, letter) →
        IsReachable (sent_by core n Requests next letter) }
    ensures reply { (core : Core) (n : ℕ) (next : NodeOf) (letter : Letter) → IsReachable core → n < core.size.nodes →
        node_replying (node_at core n) ≡ Some (next, letter) → IsReachable (sent_by core n Answers next letter) }
    ensures given { (core : Core) (taking : Taking) (from n : ℕ) (before rest : List Letter) (letter : Letter) →
        IsReachable core → from < core.size.nodes → n < core.size.nodes →
        lane_of core (lane_kind taking) from n ≡ before ++ letter ∷ rest → IsTakable taking (node_at core n) letter }
    ensures take { (core : Core) (taking : Taking) (from n : ℕ) (before rest : List Letter) (letter : Letter)
        (next : NodeOf) → IsReachable core → from < core.size.nodes → n < core.size.nodes →
        lane_of core (lane_kind taking) from n ≡ before ++ letter ∷ rest →
        node_taking taking (node_at core n) letter ≡ Some next →
        IsReachable (taken_to core n (lane_kind taking) from (before ++ rest) next) }
{}
