//! Writing an answer.

ghost use Rattle.std.specs.{Prelude.{◌≡◌, false, true}, Io.KnownBytes.{Appends}};
ghost use Rattle.sci_command.specs.Writing.{WritesFront};
ghost use Rattle.sci_text.specs.Tap.{has_failed, is_called_again, tapped};

use crate::outcome::Outcome;
use sci_text::{Tap, write_text};
use std::io::Write;

/// Writes the answer of a command that ends so, and reports how it ends then: it is Refused if a write failed.
pub fn write_answer<W: Write>(writer: &mut Tap<W>, text: &[u8], outcome: Outcome) -> Outcome
    ensures front { WritesFront
        (W.contents (tapped writer.old)) (W.contents (tapped writer.new)) text.now }
    ensures whole { has_failed writer.new ≡ false
        → Appends (W.contents (tapped writer.old)) (W.contents (tapped writer.new)) text.now }
    ensures unfailed { has_failed writer.new ≡ false → result ≡ outcome }
    ensures failed { has_failed writer.new ≡ true → result ≡ Outcome.Refused }
    ensures again { is_called_again writer.new ≡ is_called_again writer.old }
{
    if writer.failed() {
        return Outcome::Refused;
    }
    if write_text(writer, text).is_err() {
        return Outcome::Refused;
    }
    if writer.flush().is_err() {
        return Outcome::Refused;
    }
    outcome
}
