//! A text that is written piece by piece.

ghost use Rattle.std.specs.{Prelude.{◌≡◌, ◌++◌, ℕ, List, [], Option, false, true}, Io.KnownBytes.{Appends}};
ghost use Rattle.sci_command.specs.Writing.{IsPrinted, WritesFront};
ghost use Rattle.sci_text.specs.Tap.{has_failed, is_called_again, tapped};

use crate::outcome::Outcome;
use crate::writing::write_answer;
use sci_text::{Tap, write_text};
use std::io::Write;

/// This many bytes wait before they are written.
const WAITING_BYTES: usize = 65_536;

/// Writes what waits of a text, unless a write has failed.
fn write_on<W: Write>(writer: &mut Tap<W>, waiting: &[u8])
    ensures printed { (start : Option (List ℕ)) (text : List ℕ) → IsPrinted start
        (W.contents (tapped writer.old)) (has_failed writer.old) waiting.now text
        → IsPrinted start (W.contents (tapped writer.new)) (has_failed writer.new) [] text }
    ensures again { is_called_again writer.new ≡ is_called_again writer.old }
{
    if !writer.failed() {
        let _result = write_text(writer, waiting);
    }
}

/// Writes what waits of a text if it is much.
fn make_room<W: Write>(writer: &mut Tap<W>, waiting: &mut Vec<u8>)
    ensures printed { (start : Option (List ℕ)) (text : List ℕ) → IsPrinted start
        (W.contents (tapped writer.old)) (has_failed writer.old) waiting.old.items text
        → IsPrinted start (W.contents (tapped writer.new)) (has_failed writer.new)
        waiting.new.items text }
    ensures again { is_called_again writer.new ≡ is_called_again writer.old }
{
    if waiting.len() >= WAITING_BYTES {
        write_on(writer, waiting);
        waiting.clear();
    }
}

/// Puts a piece behind a text of which a front is written and the rest waits. What waits is written first if it is much, and
/// all is if there is no memory for the piece. After a write that failed nothing more is written.
pub fn print_piece<W: Write>(writer: &mut Tap<W>, waiting: &mut Vec<u8>, piece: &[u8])
    ensures printed { (start : Option (List ℕ)) (text : List ℕ) → IsPrinted start
        (W.contents (tapped writer.old)) (has_failed writer.old) waiting.old.items text
        → IsPrinted start (W.contents (tapped writer.new)) (has_failed writer.new)
        waiting.new.items (text ++ piece.now) }
    ensures again { is_called_again writer.new ≡ is_called_again writer.old }
{
    make_room(writer, waiting);
    if waiting.extend_from_slice(piece).is_err() {
        write_on(writer, waiting);
        waiting.clear();
        write_on(writer, piece);
    }
}

/// Writes what waits of the answer of a command that ends so, and reports how it ends then: it is Refused if a write failed.
pub fn print_end<W: Write>(writer: &mut Tap<W>, waiting: &[u8], outcome: Outcome) -> Outcome
    ensures front { (start : Option (List ℕ)) (text : List ℕ) → IsPrinted start
        (W.contents (tapped writer.old)) (has_failed writer.old) waiting.now text
        → WritesFront start (W.contents (tapped writer.new)) text }
    ensures whole { (start : Option (List ℕ)) (text : List ℕ) → IsPrinted start
        (W.contents (tapped writer.old)) (has_failed writer.old) waiting.now text
        → has_failed writer.new ≡ false → Appends start (W.contents (tapped writer.new)) text }
    ensures unfailed { has_failed writer.new ≡ false → result ≡ outcome }
    ensures failed { has_failed writer.new ≡ true → result ≡ Outcome.Refused }
    ensures again { is_called_again writer.new ≡ is_called_again writer.old }
{
    if writer.failed() {
        return Outcome::Refused;
    }
    write_answer(writer, waiting, outcome)
}
