//! What a box keeps, by its pointer alone.

ghost use Rattle.std.specs.{Prelude.{◌≡◌}, Box.Ownership.{box_owns}};
ghost use Rattle.sci_c.specs.Object.{chunk};

use std::alloc::Global;
use std::marker::Model;

/// A value on the C library's heap, with the right to free its block.
pub(crate) struct Loose<T> {
    pub(crate) at: *mut T,
    pub(crate) ghost value: { T },
}

impl<T> Model for Loose<T> {
    ghost also_owns = { λ loose. box_owns chunk T.row loose.at loose.value };
}

/// Takes a box apart.
pub(crate) fn loosened<T: Drop>(kept: Box<T, Global>) -> Loose<T>
    ensures { result.value ≡ kept.value }
{
    let at = Box::into_raw(kept);
    Loose { at }
}
