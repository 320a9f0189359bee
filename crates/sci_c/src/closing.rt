//! Opening and closing of objects.

ghost use Rattle.std.specs.Prelude.{◌≡◌, ◌≢◌, ◌↔◌, ◌⊎◌, Some, None, IsSome, false};
ghost use denote.RawPtr.{null_ptr};
ghost use Rattle.sci_c_values.specs.declared.status.TheConstants.{SCI_MISUSE, SCI_NO_MEMORY, SCI_OK};

use crate::handle::SciObject;
use crate::thing::Thing;
use sci_c_values::{SCI_MISUSE, SCI_NO_MEMORY, SCI_OK};
use std::alloc::Global;

/// Puts a thing into an empty object. Requires that it is empty.
pub(crate) fn opened(alloc: Global, object: &mut SciObject, thing: Thing) -> u32
    requires { object.old.value ≡ None }
    ensures opened { result ≡ SCI_OK → object.new.value ≡ Some thing }
    ensures status { (result ≡ SCI_OK) ⊎ (result ≡ SCI_NO_MEMORY) }
    ensures same { result ≢ SCI_OK → object.new.value ≡ object.old.value }
{
    match Box::new(alloc, thing) {
        Ok(kept) => {
            object.keep(kept);
            SCI_OK
        }
        Err(_) => SCI_NO_MEMORY,
    }
}

/// Lets the thing go if it is of the kind that is wanted, and leaves the object empty and without a pointer, as it may be
/// already.
pub(crate) fn closed(alloc: Global, object: &mut SciObject, is_of_kind: bool) -> u32
    ensures done { result ≡ SCI_OK → object.new.value ≡ None }
    ensures no_pointer { result ≡ SCI_OK → object.new.at ≡ null_ptr }
    ensures misuse { (result ≡ SCI_MISUSE) ↔ (IsSome object.old.value × (is_of_kind ≡ false)) }
    ensures status { (result ≡ SCI_OK) ⊎ (result ≡ SCI_MISUSE) }
    ensures same { result ≢ SCI_OK → object.new.value ≡ object.old.value }
{
    if object.live() == 0 {
        object.forget();
        return SCI_OK;
    }
    if !is_of_kind {
        return SCI_MISUSE;
    }
    drop(object.take(alloc));
    object.forget();
    SCI_OK
}
