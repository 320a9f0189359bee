//! How often each transition came.

ghost use Rattle.std.specs.Prelude.{◌≡◌, ◌+◌, cond};
ghost use Rattle.sci_statistics.specs.declared.transition.Transition.{Transition};
ghost use Rattle.sci_statistics.specs.Transitions.{is_transition};
ghost use Rattle.sci_statistics.specs.Coverage.{capped, times as times_of};

use crate::transition::{PLACES, Transition};

/// How often each transition came. A count ends at the greatest number of 64 bits.
#[derive(Clone, Copy)]
pub struct Coverage {
    /// The count of each transition, at its place.
    pub counts: [u64; PLACES],
}

impl Coverage {
    /// None came yet.
    pub fn none() -> Coverage
        ensures { (t : Transition) → times_of result t ≡ 0 }
    {
        Coverage {
            counts: [0; PLACES],
        }
    }

    /// How often a transition came.
    pub fn times(&self, transition: Transition) -> u64
        ensures { result ≡ times_of self.now transition }
    {
        self.counts[transition.place()]
    }

    /// Counts a transition once more.
    pub fn count(&mut self, transition: Transition)
        ensures { (t : Transition) → times_of self.new t
            ≡ capped (times_of self.old t + cond (is_transition t transition) 1 0) }
    {
        let place = transition.place();
        let before = self.counts[place];
        self.counts[place] = before.saturating_add(1);
    }

    /// Adds the counts of others.
    pub fn add(&mut self, other: &Coverage)
        ensures { (t : Transition) → times_of self.new t
            ≡ capped (times_of self.old t + times_of other.now t) }
    {
        for place in 0..PLACES {
            let before = self.counts[place];
            self.counts[place] = before.saturating_add(other.counts[place]);
        }
    }
}
