//! The length that a line may have, and what a line says.

ghost use Rattle.std.specs.Prelude.{◌≡◌, ◌+◌, ◌<◌, ◌≤◌, OnOk, IfOk, IfErr, Some, length, option_map};
ghost use Rattle.sci_words.specs.declared.limits.TheConstants.{MAX_TEXT_LINE_BYTES};
ghost use Rattle.sci_text.specs.{declared.fault.TextFaultKind.TheVariants.{Syntax}, Reading.{IsUnsaid, read_of}};

use crate::fault::TextFaultKind;
use sci_words::MAX_TEXT_LINE_BYTES;

/// Syntax if the line at the front of `bytes`, behind which `rest` stands, has more than 256 bytes before its line feed.
pub fn check_length(bytes: &[u8], rest: &[u8]) -> Result<(), TextFaultKind>
    ensures short { OnOk result (length bytes.now ≤ length rest.now + MAX_TEXT_LINE_BYTES + 1) }
    ensures fault { IfErr result (λ kind. kind ≡ Syntax) }
    ensures long { IfErr result (λ kind.
        length rest.now + MAX_TEXT_LINE_BYTES + 1 < length bytes.now) }
{
    if bytes.len() > rest.len() + MAX_TEXT_LINE_BYTES + 1 {
        return Err(TextFaultKind::Syntax);
    }
    Ok(())
}

/// What the line at the front of `bytes` says, if `read` is what was read there, and the bytes after the line. Range if a number
/// doesn't fit its type.
pub fn said_line<'a, T: Drop>(
    bytes: &'a [u8],
    read: Option<(Option<T>, &'a [u8])>,
) -> Result<(T, &'a [u8]), TextFaultKind>
    ensures said { IfOk result (λ x.
        option_map read_of read.entry ≡ Some (Some x.0, x.1.now)) }
    ensures short { IfOk result (λ x.
        length bytes.now ≤ length x.1.now + MAX_TEXT_LINE_BYTES + 1) }
    ensures fault { IfErr result (IsUnsaid bytes.now (option_map read_of read.entry)) }
{
    let Some((said, rest)) = read else {
        return Err(TextFaultKind::Syntax);
    };
    check_length(bytes, rest)?;
    let Some(value) = said else {
        return Err(TextFaultKind::Range);
    };
    Ok((value, rest))
}
