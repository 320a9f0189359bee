//! The rank and the level of a node's line. No event of a turn raises the level.

ghost use Rattle.std.specs.{Prelude.{◌≡◌, ◌≢◌, ◌<◌, ◌≤◌, ℕ, Bool, true, false, List, Option, None, Some, IfSome}, List.{AllByRecursion}};
ghost use Rattle.sci_words.specs.declared.{event.{AskKind.{AskKind}, Event.{Event}}, stamped.Stamped.{Stamped}};
ghost use Rattle.sci_packets.specs.declared.body.Body.{Body};
ghost use Rattle.sci_cache.specs.{Accepting.{accepting}, Asking.{asking}, Serving.{serving}, State.{CacheState, Purging}};
ghost use Rattle.sci_core.specs.{Core.{Core, node_at, node_of, stepping}, Node.{NodeOf, pending_on}, Reached.{IsReached, IsReachedNode}};
ghost use Rattle.sci_core.specs.{Shape.{follows, state_at}, Sharing.{answer_to}};
ghost use Rattle.sci_policy.specs.{declared.want.Want.TheVariants.{Ask}, Lines.{state_on}, Policy.{PolicyOf, has, next_wanted}};
ghost use Rattle.sci_turn.specs.Moves.{IsOwn, Leads};
ghost use Rattle.sci_fair.specs.Rank.{CannotPerform, IsHeldFor, answers_well, can_perform, level, level_on, never_rises, rank, suits, used_after, work_on};
ghost use Rattle.sci_fair.specs.{Reads.{ReadsFit}, Steady.{Working, WorksByTurns}, Steps.{AreSteps, most_changes}};

/// While a Purge is under way to a node, the node's line is Below or Rolling. So it never answers the Purge as busy.
pub fn purges_find_followers()
    ensures { (core : Core) (line k q : ℕ) (c : Stamped) → IsReached core → line < core.size.lines
        → state_at core line k ≡ Purging q c → answer_to core k line ≡ None
        → follows (state_at core line q) ≡ true }
{}

/// The tables never raise the level, whatever is pending and whether the line was used or not, but where a load is purged that
/// could be performed: to accept, if an answer to a read fits what is pending; to serve, if a Cread for the head of a pending
/// maker is refused, unless the line was used; and to ask what suits what is pending, where it can't be performed, and where a
/// read begins anew.
pub fn tables_never_raise_the_level()
    ensures accept { (used : Bool) (work : Option Bool) (state : CacheState) (answer : Body)
        → answers_well work state answer ≡ true
        → IfSome (accepting state answer) (λ next. never_rises used used work state next ≡ true) }
    ensures serve { (used : Bool) (work : Option Bool) (state : CacheState) (n : ℕ) (request : Body)
        → IsHeldFor used work state request
        → IfSome (serving state n request) (λ served. never_rises used used work state served.0 ≡ true) }
    ensures ask { (used : Bool) (work : Option Bool) (state : CacheState) (kind : AskKind)
        → suits work kind ≡ true → can_perform work state ≡ false
        → IfSome (asking state kind)
        (λ asked. never_rises used (used_after kind used) work state asked.next ≡ true) }
{}

/// No rank is above 46, and no level above 93. On one level all have one rank. And an Issue lowers the rank of its line, whatever
/// the state.
pub fn ranks_are_bounded()
    ensures most { (work : Option Bool) (state : CacheState) → rank work state ≤ 46 }
    ensures level { (used : Bool) (work : Option Bool) (state : CacheState) → level used work state ≤ 93 }
    ensures same { (used then_ : Bool) (work works : Option Bool) (state other : CacheState)
        → level used work state ≡ level then_ works other → rank work state ≡ rank works other }
    ensures issue { (maker : Bool) (state : CacheState) → rank (Some maker) state < rank None state }
{}

/// What a policy asks for at a node of a reached state suits what is pending on the line, and that can't be performed.
pub fn asks_suit_what_is_pending()
    ensures { (policy : PolicyOf) (n : ℕ) (node : NodeOf) (line : ℕ) (kind : AskKind)
        → IsReachedNode n node → next_wanted policy node ≡ Some (Ask line kind)
        → (suits (work_on node line) kind ≡ true)
        × (can_perform (work_on node line) (state_on node line) ≡ false) }
{}

/// Each event of a turn leaves what is pending at its node, and raises the level of none of its lines, but where a load is purged
/// that could be performed. Other nodes stay as they are.
pub fn events_never_raise_the_level()
    ensures own { (core new : Core) (n : ℕ) (before after : PolicyOf) (e : Event)
        → IsReached core → ReadsFit core → n < core.size.nodes
        → IsOwn n before core e after → stepping core e ≡ Some new → (line : ℕ)
        → (pending_on (node_at new n) line ≡ pending_on (node_at core n) line)
        × (never_rises (has before.used line) (has after.used line) (work_on (node_at core n) line)
        (state_on (node_at core n) line) (state_on (node_at new n) line) ≡ true) }
    ensures others { (core new : Core) (n : ℕ) (before after : PolicyOf) (e : Event)
        → IsOwn n before core e after → stepping core e ≡ Some new
        → (m : ℕ) → m ≢ n → node_at new m ≡ node_at core m }
{}

/// A whole turn of a node raises no level of its lines, if nothing could be performed at the node when the turn began. What is
/// pending stays as it is, and other nodes stay as they are.
pub fn turns_never_raise_the_level()
    ensures own { (n : ℕ) (core new : Core) (before after : PolicyOf) (events : List Event)
        → IsReached core → ReadsFit core → n < core.size.nodes → CannotPerform (node_at core n)
        → AllByRecursion (λ e. node_of e ≡ n) events → Leads n before core events after new
        → (line : ℕ) → (pending_on (node_at new n) line ≡ pending_on (node_at core n) line)
        × (level_on after (node_at new n) line ≤ level_on before (node_at core n) line) }
    ensures others { (n : ℕ) (core new : Core) (before after : PolicyOf) (events : List Event)
        → IsReached core → ReadsFit core → n < core.size.nodes → CannotPerform (node_at core n)
        → AllByRecursion (λ e. node_of e ≡ n) events → Leads n before core events after new
        → (m : ℕ) → m ≢ n → node_at new m ≡ node_at core m }
{}

/// Between two Performs few steps change a rank: at most 141 for each line of each node. A step is an Issue, or a whole turn
/// of a node that can perform nothing, in whatever order nodes take turns. All other turns only try again what failed.
pub fn real_changes_are_few()
    ensures { (changes : ℕ) (first : Working) (later : List Working) → WorksByTurns first.core
        → AreSteps changes first later → changes ≤ most_changes first.core.size }
{}
