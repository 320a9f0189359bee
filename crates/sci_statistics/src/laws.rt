//! What holds of every transition.

ghost use Rattle.std.specs.Prelude.{◌≡◌, ℕ, IsSome, true};
ghost use Rattle.sci_cache.specs.{Accepting.{accepting}, Asking.{asking}, Performing.{performing}, Serving.{serving}, State.{CacheState}};
ghost use Rattle.sci_home.specs.{Serving.{home_serving}, declared.state.HomeState.{HomeState}};
ghost use Rattle.sci_packets.specs.{Table.{command_of}, declared.body.Body.{Body}};
ghost use Rattle.sci_words.specs.declared.{event.AskKind.{AskKind}, operation.Op.{Op}};
ghost use Rattle.sci_statistics.specs.Kinds.{access_of};
ghost use Rattle.sci_statistics.specs.Transitions.{accepts, asks, kind_at_cache, kind_at_home, performs, serves, transition_place};
ghost use Rattle.sci_statistics.specs.declared.transition.Transition.{Transition};

/// Law: whatever a cache asks, serves, accepts or performs in a state, and whatever a home serves, is one of the pairs of the
/// tables.
pub fn whatever_is_met_is_of_the_tables()
    ensures asks { (state : CacheState) (kind : AskKind)
        → IsSome (asking state kind) → asks (kind_at_cache state) kind ≡ true }
    ensures serves { (state : CacheState) (n : ℕ) (request : Body)
        → IsSome (serving state n request) → serves (kind_at_cache state) (command_of request) ≡ true }
    ensures homes { (state : HomeState) (n : ℕ) (request : Body)
        → IsSome (home_serving state n request)
        → serves (kind_at_home state) (command_of request) ≡ true }
    ensures accepts { (state : CacheState) (answer : Body)
        → IsSome (accepting state answer) → accepts (kind_at_cache state) (command_of answer) ≡ true }
    ensures performs { (state : CacheState) (op : Op)
        → IsSome (performing state op) → performs (kind_at_cache state) (access_of op) ≡ true }
{}

/// Law: two transitions have two places.
pub fn places_are_distinct()
    ensures { (t u : Transition) → transition_place t ≡ transition_place u → t ≡ u }
{}
