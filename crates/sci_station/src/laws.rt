//! What holds of the schedule of a whole run and the calls of one station.

ghost use Rattle.std.specs.Prelude.{◌≡◌, ◌++◌, ◌∷◌, [], List};
ghost use Rattle.sci_words.specs.declared.event.Event.{Event};
ghost use Rattle.sci_core.specs.Core.{node_of};
ghost use Rattle.sci_lanes.specs.{declared.view.Part.{Part}, Shown.{IsSeen, me_of}, Telling.{IsMade}};
ghost use Rattle.sci_turn.specs.Moves.{own_of};

/// A schedule of which an end knows a beginning has no other events of the end's node than those that it knows.
pub fn ends_know_their_own_events()
    ensures { (part : Part) (schedule : List Event) → IsSeen part schedule →
        own_of (me_of part) schedule ≡ own_of (me_of part) part.schedule }
{}

/// An event that a call makes comes after all events that the end's node made before. So in the schedule of a whole run the
/// events of each station stand in the order of the calls that made them, and an operation takes effect, by its Perform,
/// after the call that submitted it.
pub fn calls_add_their_events()
    ensures { (part : Part) (e : Event) (schedule : List Event) → node_of e ≡ me_of part →
        IsMade part e schedule →
        own_of (me_of part) schedule ≡ own_of (me_of part) part.schedule ++ e ∷ [] }
{}
