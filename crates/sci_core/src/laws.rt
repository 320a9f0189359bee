//! Laws of the machine, each the contract of a function that does nothing.
//!
//! Where a law says of a state that it is reachable (`IsReachable`), or of a size that it is one (`IsSize`), it holds
//! for every number of nodes, lines, slots and operations from 1 up. A law of reached states (`IsReached`) is of
//! machines within the limits.

ghost use Rattle.std.specs.{Prelude.{◌≡◌, ◌<◌, ◌≤◌, ℕ, List, filter, map, Some, None, IsSome}, List.{AllByRecursion}};
ghost use Rattle.sci_words.specs.declared.{event.Event.{Event}, limits.TheConstants.{MAX_NODES}, operation.Op.{Op}};
ghost use Rattle.sci_words.specs.{declared.stamped.Stamped.{Stamped}, Stamped.{zero_stamped}};
ghost use Rattle.sci_history.specs.{History.{IsHistory}, Lawful.{Lawful}, Memory.{IsRun, words_of_lines, zero_memory}};
ghost use Rattle.sci_history.specs.Placed.{is_on_line, pair_of, maker_count, on_line, is_of_node};
ghost use Rattle.sci_history.specs.Sequential.{AreInProgramOrder, IsInProgramOrder, IsSequentialOrder};
ghost use Rattle.sci_history.specs.declared.entry.Entry.{Entry};
ghost use Rattle.sci_core.specs.{Core.{Core, run, step, node_at}, Sides.{StepsBySides}};
ghost use Rattle.sci_core.specs.{Enabled.{AreServedAt, IsAcceptedAt}, InRange.{IsEntryOf, IsStamped}};
ghost use Rattle.sci_core.specs.Node.{IsNode, NodeOf, node_issuing, node_performing, pending_on};
ghost use Rattle.sci_core.specs.{Work.{IsIssued, IsLogged}, declared.pending.Pending.{Pending}, Coherent.{IsCoherent}};
ghost use Rattle.sci_core.specs.{GoingOn.{CanGoOn}, InTurn.{IssuesInTurn}, Done.{LastChanges, done, made_by}};
ghost use Rattle.sci_core.specs.{Outcome.{logs_of}, Size.{Size, IsMachineSize, IsSize}};
ghost use Rattle.sci_core.specs.{Reached.{IsReachable, IsReachableNode, IsReached}, WellFormed.{IsPart, IsWellFormed}};
ghost use Rattle.sci_core.specs.{Shape.{HasShapes}, Sharing.{last_at, last_of}, Tidy.{AreAccepted, IsTidy}};
ghost use Rattle.sci_core.specs.Alternates.{Alternates};
ghost use Rattle.sci_cache.specs.{Cache.{line_of}, State.{Head}};

/// Every state that a schedule leads to is reached, of a machine of any size and of one within the limits; and what a
/// machine within the limits reaches, a machine of any size does.
pub fn schedules_reach()
    ensures any { (size : Size) (schedule : List Event) → IsSize size →
        IsReachable (run size schedule) }
    ensures within { (size : Size) (schedule : List Event) → IsMachineSize size →
        IsReached (run size schedule) }
    ensures reachable { (core : Core) → IsReached core → IsReachable core }
{}

/// In every reached state each packet is between two nodes of the machine, about one of its lines, in the lane of
/// its sender and its receiver; each identifier names a node; and each node's parts fit together.
pub fn reached_states_are_well_formed()
    ensures { (core : Core) → IsReachable core → IsWellFormed core }
{}

/// In every reached state, for each node and line: exactly one packet of its asks is under way if it waits for
/// an answer, with the control number of its last ask, and none if it doesn't. A request is the one that the
/// state sent.
pub fn reached_states_are_tidy()
    ensures { (core : Core) → IsReachable core → IsTidy core }
{}

/// In every reached state no answer is under way that its taker doesn't await.
pub fn answers_are_accepted()
    ensures { (core : Core) → IsReachable core → AreAccepted core }
{}

/// Each event is its node's side of it together with its one packet: the node changes as its own call says, and the
/// packet ends a lane or leaves its front. This holds of every state, reached or not.
pub fn sides_make_steps()
    ensures { (core : Core) (n : ℕ) → n < core.size.nodes → StepsBySides core n }
{}

/// In every reached state an answer at the front of a lane is accepted by its taker.
pub fn front_answers_are_accepted()
    ensures { (core : Core) (from n : ℕ) → IsReachable core → from < core.size.nodes →
        n < core.size.nodes → IsAcceptedAt core from n }
{}

/// In every reached state a request at the front of a lane is served by its taker unless an answer waits there, and
/// refused too unless it is a Setback; and its sender waits for the answer.
pub fn front_requests_are_served()
    ensures { (core : Core) (from n : ℕ) → IsReachable core → from < core.size.nodes →
        n < core.size.nodes → AreServedAt core from n }
{}

/// In every reached state, for each line:
/// - its members are exactly the nodes of one list, from the home's head along their links, each of them once;
/// - if the home hasn't the line alone, exactly one of them is the authority, which may change the line or is about to;
/// - before the authority stand only members that come, and after it only members that follow;
/// - all of them have the line's last contents, if they have any;
/// - if the home is fresh, and below any fresh member that comes, all are fresh down to the authority;
/// - if the home's contents are gone, the head of the list isn't fresh.
pub fn lines_have_their_shape()
    ensures { (core : Core) → IsReachable core → HasShapes core }
{}

/// Each event of a reached state that performs an operation answers what the operation gives on its line's last
/// contents, and changes them as the operation says, a maker's version being one more than before; any other event
/// leaves every line's last contents as they were.
pub fn operations_take_effect()
    ensures { (core : Core) (event : Event) → IsReachable core →
        LastChanges core (step core event) (made_by core event) }
{}

/// The entries that a schedule makes on a line are, in its order, the line's history from zero words to its last
/// contents: a run of one memory of one thread.
pub fn schedules_are_histories()
    ensures { (size : Size) (schedule : List Event) (line : ℕ) → IsSize size →
        line < size.lines →
        IsHistory (filter (is_on_line line) (done size schedule)) zero_stamped
        (last_at (run size schedule) line) }
{}

/// The logs of every reached state are lawful with its last contents: placed by version, the operations logged on a
/// line are a run of one memory of one thread that gives each the reply it got, and each node's stand in the order
/// issued.
pub fn logs_are_lawful()
    ensures { (core : Core) → IsReachable core → core.size.nodes ≤ MAX_NODES → Lawful (logs_of core) (last_of core) }
{}

/// Every reached state has all of this.
pub fn reached_states_are_coherent()
    ensures { (core : Core) → IsReached core → IsCoherent core }
{}

/// In every schedule, for each node and line, asks and accepted answers alternate, beginning with an ask; between
/// an ask and its answer exactly one Serve or Refuse takes the request; and all three have one control number. So
/// no transaction is answered twice.
pub fn transactions_alternate()
    ensures { (size : Size) (schedule : List Event) (n line : ℕ) → IsSize size →
        n < size.nodes → line < size.lines → Alternates size schedule n line }
{}

/// In every reached state the last contents of each line are eight words below 2^64, and their version is at most
/// 1,048,576, the operations that all nodes may issue: so a version never wraps.
pub fn contents_are_in_range()
    ensures { (core : Core) (line : ℕ) → IsReached core → line < core.size.lines →
        IsStamped (last_at core line) }
{}

/// In every reached state of at most 16 nodes the version of a line is the number of its makers in the logs.
pub fn versions_count_makers()
    ensures { (core : Core) (line : ℕ) → IsReachable core → core.size.nodes ≤ MAX_NODES →
        line < core.size.lines → (last_at core line).version ≡ maker_count (on_line line (logs_of core)) }
{}

/// In every reached state each entry of a log is of a node, a serial, a line and a word of the machine, its operands
/// and its reply are below 2^64, and its version is at most 1,048,576.
pub fn entries_are_in_range()
    ensures { (core : Core) (node : ℕ) → IsReached core →
        AllByRecursion (IsEntryOf core.size) (node_at core node).log }
{}

/// The log of each node is what the schedule makes on that node, in its order.
pub fn logs_are_done()
    ensures { (size : Size) (schedule : List Event) (node : ℕ) → IsSize size →
        (node_at (run size schedule) node).log ≡ filter (is_of_node node) (done size schedule) }
{}

/// An operation that a node issues is pending on its line with the node's next serial; nothing was pending there
/// before, and nothing else changes.
pub fn issues_are_pending()
    ensures { (old new : NodeOf) (op : Op) → IsNode old → node_issuing old op ≡ Some new →
        IsIssued old new op }
{}

/// The entry of an operation that a node performs has the operation and the serial that were pending on the line, and
/// ends the node's log; nothing is pending there any more, and nothing else of the node's work changes.
pub fn performs_end_the_log()
    ensures { (old new : NodeOf) (line : ℕ) (entry : Entry) → IsNode old →
        node_performing old line ≡ Some (new, entry) → IsLogged old new line entry }
{}

/// In every reached state a node that has the only copy of a line can perform any operation that is pending there: a
/// maker is never refused for its version.
pub fn sole_copies_perform()
    ensures { (core : Core) (n line : ℕ) (pending : Pending) (c : Stamped) → IsReached core →
        n < core.size.nodes → line < core.size.lines →
        pending_on (node_at core n) line ≡ Some pending →
        (line_of (node_at core n).cache line).state ≡ Head None c →
        IsSome (node_performing (node_at core n) line) }
{}

/// A node of a reached state is a part of a machine of that state's size, with its own number: its cache, its homes, its
/// pending operations and its log fit together, each identifier in it names a node, and no more lines have an entry than
/// there are version slots.
pub fn reached_nodes_are_parts()
    ensures { (n : ℕ) (node : NodeOf) (is : IsReachableNode n node) → IsPart is.core.size n node }
{}

/// A node of a reached state has a version slot, and no more lines with an entry than slots. Each line with an entry awaits
/// an answer, or has a request to send: it joins or tells, or is a head or an entry below one.
pub fn reached_nodes_can_go_on()
    ensures { (n : ℕ) (node : NodeOf) → IsReachableNode n node → CanGoOn node }
{}

/// The entries that a schedule makes, of all lines together and in its order, are a run of one memory of one thread from
/// zero words to the last words. They are an order that makes the logs sequentially consistent: each node's log is its
/// own entries among them, in that order.
pub fn schedules_are_runs()
    ensures run { (size : Size) (schedule : List Event) → IsSize size →
        IsRun (map pair_of (done size schedule)) (zero_memory size.lines) (words_of_lines (last_of (run size schedule))) }
    ensures order { (size : Size) (schedule : List Event) → IsSize size → size.nodes ≤ MAX_NODES →
        IsSequentialOrder (logs_of (run size schedule)) (last_of (run size schedule)) (done size schedule) }
{}

/// A node that has at most one operation pending all along a schedule logs in program order: its serials rise along its
/// whole log. If each node has, all logs are in program order, and so sequentially consistent in Lamport's sense.
pub fn issues_in_turn_are_logged_in_order()
    ensures one { (size : Size) (schedule : List Event) (n : ℕ) → IsSize size → IssuesInTurn size schedule n →
        IsInProgramOrder (node_at (run size schedule) n).log }
    ensures all { (size : Size) (schedule : List Event) → IsSize size →
        ((n : ℕ) → n < size.nodes → IssuesInTurn size schedule n) → AreInProgramOrder (logs_of (run size schedule)) }
{}
