//! Fields with labels.

ghost use Rattle.std.specs.Prelude.{◌≡◌, ◌++◌, OnOk};
ghost use Rattle.sci_text.specs.Number.{field};

use sci_text::push_field;
use std::alloc::AllocError;

/// Appends a label, a space and a number. Refused if memory is.
pub fn push_labelled(out: &mut Vec<u8>, label: &[u8], n: u64) -> Result<(), AllocError>
    ensures { OnOk result (out.new.items ≡ out.old.items ++ (label.now ++ field n)) }
{
    out.extend_from_slice(label)?;
    push_field(out, n)
}
