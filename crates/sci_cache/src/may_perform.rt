//! Whether a state allows an operation, without performing it.

use crate::held::Held;
use sci_words::Op;

impl Held {
    ghost use Rattle.std.specs.Prelude.{◌≡◌, is_some};
    ghost use Rattle.sci_cache.specs.{Held.{state_of}, Performing.{performing}};

    /// Whether the state allows an operation: a load wherever it has contents to give, and a maker if no other
    /// node has a copy and the line's version isn't the greatest u64.
    pub fn may_perform(&self, op: &Op) -> bool
        ensures { result ≡ is_some (performing (state_of self.now) op.now) }
    {
        match self {
            Held::Head(state) if op.is_maker() => {
                state.forward.is_none() && state.contents.version != u64::MAX
            }
            Held::Head(_) => true,
            Held::FreshHead(_) | Held::Below(_) => !op.is_maker(),
            _ => false,
        }
    }
}
