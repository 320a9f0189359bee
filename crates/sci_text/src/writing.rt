//! Writing a text that was made.

ghost use Rattle.std.specs.{Prelude.{◌≡◌, false, IfErr, OnOk}, Io.KnownBytes.{Appends}};
ghost use Rattle.sci_text.specs.{Tap.{has_failed, is_called_again, tapped}, Writing.{IsWriteFault}};

use crate::fault::{TextFault, TextFaultKind};
use crate::tap::Tap;
use std::io::Write;

/// Writes all of a text, or reports that the writer failed: a prefix of the text may have gone out then, and nothing
/// more is written.
pub fn write_text<W: Write>(writer: &mut Tap<W>, text: &[u8]) -> Result<(), TextFault>
    requires { has_failed writer.old ≡ false }
    ensures text { OnOk result (
        Appends (W.contents (tapped writer.old)) (W.contents (tapped writer.new)) text.now) }
    ensures unfailed { OnOk result (has_failed writer.new ≡ false) }
    ensures line { IfErr result (λ fault. fault.line ≡ 0) }
    ensures kind { IfErr result (λ fault. fault.kind ≡ TextFaultKind.Write) }
    ensures fault { IfErr result (λ fault. IsWriteFault fault.kind
        (W.contents (tapped writer.old)) (W.contents (tapped writer.new))
        (has_failed writer.new) text.now) }
    ensures again { is_called_again writer.new ≡ is_called_again writer.old }
{
    let mut written = 0;
    'writes: while written < text.len() {
        match writer.write(&text[written..]) {
            Ok(count) if count > 0 => written += count,
            _ => return Err(TextFault::of_input(TextFaultKind::Write)),
        }
    }
    Ok(())
}
