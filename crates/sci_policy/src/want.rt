//! What a controller would do next.

use sci_words::AskKind;

/// An event that a controller would make next.
#[derive(Clone, Copy, Debug, PartialEq, Eq)]
pub enum Want {
    /// Perform the operation that is pending on this line.
    Perform(u8),
    /// Ask a request of this kind about this line.
    Ask(u8, AskKind),
}

impl Want {
    ghost use Rattle.std.specs.Prelude.{◌≡◌};
    ghost use Rattle.sci_policy.specs.Policy.{asks_home_to_change};

    /// Whether it asks the home of a line to change or end the node's list there.
    pub(crate) fn asks_home_to_change(&self) -> bool
        ensures { result ≡ asks_home_to_change self.now }
    {
        matches!(
            self,
            Want::Ask(_, AskKind::Claim | AskKind::Clear | AskKind::Wback)
        )
    }
}
