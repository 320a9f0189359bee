//! Laws of first come, first served, each the contract of a function that does nothing. They hold of machines of any
//! size.

ghost use Rattle.std.specs.Prelude.{◌<◌, ℕ, List};
ghost use Rattle.sci_words.specs.declared.event.Event.{Event};
ghost use Rattle.sci_core.specs.{Core.{Core, run, step}, FirstCome.{AreInTurn, AreWaiting, IsInTurn}};
ghost use Rattle.sci_core.specs.{Reached.{IsReachable}, Size.{IsSize, Size}};

/// In every reached state those who wait on a line are one list: the members of its list before the authority, the one
/// directly before it first.
pub fn members_wait_in_line()
    ensures { (core : Core) (line : ℕ) → IsReachable core → line < core.size.lines →
        (waiting : List ℕ) × AreWaiting core line waiting }
{}

/// At each step of a reached state those who wait on a line are a queue: the node that the home lets in waits last, and
/// only the first of those who wait becomes the authority, or the node that is let in if nobody waits.
pub fn the_first_is_served()
    ensures { (core : Core) (event : Event) (line : ℕ) (waiting then_ : List ℕ) → IsReachable core →
        line < core.size.lines → AreWaiting core line waiting →
        AreWaiting (step core event) line then_ → IsInTurn core event line waiting then_ }
{}

/// In every schedule the nodes become the authority of a line in the order in which its home let them in, and those
/// that have not become it yet wait. So nobody whom the home served later becomes the authority earlier.
pub fn first_come_first_served()
    ensures { (size : Size) (schedule : List Event) (line : ℕ) (waiting : List ℕ) → IsSize size →
        line < size.lines → AreWaiting (run size schedule) line waiting →
        AreInTurn size schedule line waiting }
{}
