//! What is asked and reported while a script is driven.

use sci_history::Entry;

/// A gate lets a worker go on with its script, and hears its answers.
pub trait Gate {
    ghost use Rattle.std.specs.Prelude.{List, [], ◌∷◌, ◌++◌};
    ghost use Rattle.sci_drive.specs.Calls.{AllDone, Answered, Call, Done, MayIssue, Rest};

    // Whether these calls, one after another, lead the gate from one state to another.
    ghost hears: { Self → List Call → Self → Type 0 };

    /// Whether the operation of this index in the script may be submitted now.
    fn may_issue(&mut self, index: u32) -> bool
        ensures { hears self.old (MayIssue index result ∷ []) self.new };

    /// Called with each entry as soon as its operation is performed.
    fn answered(&mut self, entry: &Entry)
        ensures { hears self.old (Answered entry.now ∷ []) self.new };

    /// Called once, when the whole script is answered.
    fn done(&mut self)
        ensures { hears self.old (Done ∷ []) self.new };

    /// Whether the workers that share lines with this one are done too, so that none needs its turns any more.
    fn all_done(&mut self) -> bool
        ensures { hears self.old (AllDone result ∷ []) self.new };

    /// Called after a turn in which nothing moved. It may do nothing.
    fn rest(&mut self)
        ensures { hears self.old (Rest ∷ []) self.new };

    ghost hears_nothing: { (x : Self) → hears x [] x };

    ghost hears_on: { (x y z : Self) (calls more : List Call) → hears x calls y → hears y more z →
        hears x (calls ++ more) z };
}
