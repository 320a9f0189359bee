//! What holds of every walk.

ghost use Rattle.std.specs.Prelude.{ℕ, List};
ghost use Rattle.sci_words.specs.declared.event.Event.{Event};
ghost use Rattle.sci_core.specs.{Core.{Core}, Settling.{AreMade}};
ghost use Rattle.sci_orders.specs.Witness.{any_event};
ghost use Rattle.sci_random_schedules.specs.Walking.{Walks};

/// Each event of a walk in which none may be dead is enabled when it comes.
pub fn walks_are_enabled()
    ensures { (core : Core) (state : List ℕ) (events : List Event) → Walks 0 core state events →
        AreMade any_event core events }
{}
