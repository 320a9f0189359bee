//! The kinds of operations.

ghost use Rattle.std.specs.Prelude.{◌≡◌};
ghost use Rattle.sci_statistics.specs.Kinds.{access_of};

use sci_words::Op;

/// What an operation does with its line.
#[derive(Clone, Copy, PartialEq, Eq)]
pub enum Access {
    /// It reads the version that is there.
    Load,
    /// It makes a new version, as a store or a lock operation.
    Maker,
}

impl Access {
    /// What an operation does.
    pub fn of(op: &Op) -> Access
        ensures { result ≡ access_of op.now }
    {
        if op.is_maker() {
            Access::Maker
        } else {
            Access::Load
        }
    }
}
