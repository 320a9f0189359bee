//! While something is pending, turns don't stop making events.

ghost use Rattle.std.specs.Prelude.{◌≡◌, ◌<◌, ◌≤◌, ◌==◌, ℕ, List, None, Some, count_by};
ghost use Rattle.sci_words.specs.declared.event.Event.{Event};
ghost use Rattle.sci_core.specs.declared.lane.LaneKind.TheVariants.{Requests};
ghost use Rattle.sci_core.specs.Core.{Core, lane_of, node_at, opening, stepping};
ghost use Rattle.sci_core.specs.{Draining.{IsDrained}, Node.{pending_on}, Reached.{IsReached}, Size.{Size}};
ghost use Rattle.sci_policy.specs.declared.{policy.TheConstants.{PATIENCE}, progress.Progress.{Progress}};
ghost use Rattle.sci_policy.specs.Policy.{PolicyOf, turned};
ghost use Rattle.sci_turn.specs.{Moves.{IsOwn}, Posts.{PostOf, post_at}, Whole.{IsWholeTurn}};
ghost use Rattle.sci_fair.specs.Between.{AreShort, IsBetweenTurns};
ghost use Rattle.sci_fair.specs.{Lanes.{AreOpen, IsWork}, Looks.{HasLooked}, Reads.{ReadsFit}, Stuck.{IsStuck}, Vain.{AreInVain}};

use sci_policy::PATIENCE;

// The number of turns that the pages name.
const _: () = prove!(PATIENCE == 64);

/// In a machine that works by turns, no request that changes a list at its home stands behind a Cread. So it is in one that
/// opens, and in one where nothing is under way. And it stays so with each event of a turn, each Issue and each Perform.
pub fn turns_keep_lanes_open()
    ensures first { (size : Size) → AreOpen (opening size) }
    ensures drained { (core : Core) → IsDrained core → AreOpen core }
    ensures turns { (core new : Core) (before after : PolicyOf) (n : ℕ) (e : Event)
        → IsReached core → AreOpen core → n < core.size.nodes
        → IsOwn n before core e after → stepping core e ≡ Some new → AreOpen new }
    ensures works { (core new : Core) (e : Event) → IsReached core → AreOpen core
        → IsWork e → stepping core e ≡ Some new → AreOpen new }
{}

/// In a machine that works by turns, what a node that reads a line is answered fits what is pending there: no read is refused,
/// and a maker is never answered by fresh contents. So it is in one that opens, and in one where nothing is under way. And it
/// stays so with each event of a turn, each Issue and each Perform.
pub fn turns_answer_reads()
    ensures first { (size : Size) → ReadsFit (opening size) }
    ensures drained { (core : Core) → IsDrained core → ReadsFit core }
    ensures turns { (core new : Core) (before after : PolicyOf) (n : ℕ) (e : Event)
        → IsReached core → ReadsFit core → n < core.size.nodes
        → IsOwn n before core e after → stepping core e ≡ Some new → ReadsFit new }
    ensures works { (core new : Core) (e : Event) → IsReached core → ReadsFit core
        → IsWork e → stepping core e ≡ Some new → ReadsFit new }
{}

/// A whole turn of a node that has the machine for itself looks at the lane of requests from each node. It finds the lane
/// as it was when the turn began, and takes its front as the policy decides, or keeps it, or an answer waits.
pub fn turns_look_at_each_lane()
    ensures { (n j : ℕ) (before after : PolicyOf) (old : Core) (new : PostOf) (progress : Progress)
        → IsReached old → n < old.size.nodes → j < old.size.nodes
        → IsWholeTurn before (post_at n old) after new progress
        → HasLooked n j (turned before).turns (lane_of old Requests j n) }
{}

/// If no node finds anything to do in its turn, not even in one in which it lets requests go, then nothing is pending.
pub fn no_machine_is_stuck()
    ensures { (core : Core) → IsReached core → AreOpen core → IsStuck core
        → (n line : ℕ) → n < core.size.nodes → pending_on (node_at core n) line ≡ None }
{}

/// If nodes take turns in vain, one after another in any order, until each has taken 64, then nothing is pending. So while
/// something is pending, before each node has taken 64 turns one of them makes an event, or finds an operation that can be
/// performed.
pub fn turns_are_not_in_vain_for_ever()
    ensures { (core : Core) (order : List ℕ) (before after : ℕ → PolicyOf)
        → IsReached core → AreOpen core → AreInVain core order before after
        → ((n : ℕ) → n < core.size.nodes → PATIENCE ≤ count_by (λ m. m == n) order)
        → (n line : ℕ) → n < core.size.nodes → pending_on (node_at core n) line ≡ None }
{}

/// In a machine that works by whole turns, and none of whose lanes takes more than four packets, no answer waits between turns.
/// A turn accepts all answers first, and one node's requests to another and the answers to them are never more than four. So each
/// answer that a turn makes goes out at once. So it is in a machine that opens, and in one where nothing is under way. And it stays
/// so with each whole turn that leaves no lane longer than four, each Issue and each Perform.
pub fn answers_never_wait()
    ensures first { (size : Size) → IsBetweenTurns (opening size) }
    ensures drained { (core : Core) → IsDrained core → IsBetweenTurns core }
    ensures turns { (n : ℕ) (before after : PolicyOf) (old new : Core) (progress : Progress)
        → IsReached old → n < old.size.nodes → IsBetweenTurns old
        → IsWholeTurn before (post_at n old) after (post_at n new) progress → AreShort new → IsBetweenTurns new }
    ensures works { (core new : Core) (e : Event) → IsReached core → IsBetweenTurns core
        → IsWork e → stepping core e ≡ Some new → IsBetweenTurns new }
{}
