//! A line of a text that is put together from its end, as the digits of its numbers are.

ghost use Rattle.std.specs.Prelude.{◌≡◌, ◌+◌, ◌≤◌, ◌++◌, [], length};
ghost use Rattle.sci_words.specs.declared.limits.TheConstants.{MAX_TEXT_LINE_BYTES};
ghost use Rattle.sci_text.specs.Number.{number as number_text, field as field_text};

use itoa::write_digits;
use sci_words::MAX_TEXT_LINE_BYTES;
use std::marker::Model;

/// The end of a line, in place, with room for 256 bytes: what is put stands before what was there. Contracts see
/// its bytes.
#[derive(Drop)]
pub struct LineEnd {
    bytes: [u8; MAX_TEXT_LINE_BYTES],
    start: usize,
}

impl Model for LineEnd {
    ghost use Rattle.std.specs.Prelude.{ℕ, List, ◌≡◌, ◌≤◌, drop, length};
    ghost use Rattle.sci_words.specs.declared.limits.TheConstants.{MAX_TEXT_LINE_BYTES};

    ghost Value = { List ℕ };

    ghost view = { λ line. drop line.start line.bytes };

    ghost invariant = { λ line. (line.start ≤ MAX_TEXT_LINE_BYTES)
        × (length line.bytes ≡ MAX_TEXT_LINE_BYTES) };
}

impl LineEnd {
    /// The end of a line, before anything is put.
    pub fn new() -> LineEnd
        ensures { result ≡ [] }
    {
        LineEnd {
            bytes: [0; MAX_TEXT_LINE_BYTES],
            start: MAX_TEXT_LINE_BYTES,
        }
    }

    /// The bytes.
    pub fn as_slice(&self) -> &[u8]
        ensures { result.now ≡ self.now }
    {
        &self.bytes[self.start..]
    }

    /// Puts a word of the grammar. Requires that there is room.
    pub fn put_text(&mut self, text: &str)
        requires { length text.now + length self.old ≤ MAX_TEXT_LINE_BYTES }
        ensures { self.new ≡ text.now ++ self.old }
    {
        let end = self.start;
        let start = end - text.len();
        self.bytes[start..end].copy_from_slice(text.as_bytes());
        self.start = start;
    }

    /// Puts a number in decimal digits. Requires that there is room for 20.
    #[tactic(auto, using(crate::proofs::Digits::number_decimal))]
    pub fn put_number(&mut self, n: u64)
        requires { 20 + length self.old ≤ MAX_TEXT_LINE_BYTES }
        ensures text { self.new ≡ number_text n ++ self.old }
        ensures short { length self.new ≤ 20 + length self.old }
    {
        let end = self.start;
        self.start = write_digits(n, &mut self.bytes, end);
    }

    /// Puts a space and a number. Requires that there is room for 21 bytes.
    #[tactic(auto, unfolding(crate::specs::Number::field))]
    pub fn put_field(&mut self, n: u64)
        requires { 21 + length self.old ≤ MAX_TEXT_LINE_BYTES }
        ensures text { self.new ≡ field_text n ++ self.old }
        ensures short { length self.new ≤ 21 + length self.old }
    {
        self.put_number(n);
        self.put_text(" ");
    }
}
