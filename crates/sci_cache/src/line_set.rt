//! Sets of lines.

use sci_words::MAX_LINES;
use std::marker::Model;

/// A set of lines. Contracts see it as a number with a bit for each line.
#[derive(Clone, Copy, Debug, PartialEq, Eq)]
pub struct LineSet {
    bits: u64,
}

impl Model for LineSet {
    ghost use Rattle.std.specs.Prelude.{ℕ};

    ghost Value = { ℕ };

    ghost view = { λ set. set.bits };

    ghost inverse = { λ bits. record { bits = bits } };
}

impl LineSet {
    ghost use Rattle.std.specs.Prelude.{◌≡◌, ◌≢◌, ◌<◌, ◌≤◌, ◌&&◌, ◌||◌, ℕ, true, false, not, None, IfSome};
    ghost use Rattle.sci_words.specs.declared.limits.TheConstants.{MAX_LINES};
    ghost use Rattle.sci_cache.specs.LineSet.{IsBefore, is_in};

    /// The set of no line.
    pub fn new() -> LineSet
        ensures { (line : ℕ) → is_in result line ≡ false }
    {
        LineSet { bits: 0 }
    }

    /// Whether a line is in the set.
    pub fn contains(self, line: u8) -> bool
        ensures inside { result ≡ is_in self line }
        ensures small { result ≡ true → line < MAX_LINES }
    {
        let bits = self.bits;
        line < MAX_LINES && (bits >> line) & 1 == 1
    }

    /// Puts a line into the set or takes it out. Requires that a machine can have such a line.
    pub fn put(&mut self, line: u8, inside: bool)
        requires { line < MAX_LINES }
        ensures here { is_in self.new line ≡ inside }
        ensures others { (other : ℕ) → other ≢ line → is_in self.new other ≡ is_in self.old other }
    {
        let bit = 1u64 << line;
        if inside {
            self.bits |= bit;
        } else {
            self.bits &= !bit;
        }
    }

    /// The lines that are in this set, in another, or in both.
    pub fn union(self, other: LineSet) -> LineSet
        ensures { (line : ℕ) → is_in result line ≡ (is_in self line || is_in other line) }
    {
        LineSet {
            bits: self.bits | other.bits,
        }
    }

    /// The lines that are in this set and not in another.
    pub fn difference(self, other: LineSet) -> LineSet
        ensures { (line : ℕ) → is_in result line ≡ (is_in self line && not (is_in other line)) }
    {
        LineSet {
            bits: self.bits & !other.bits,
        }
    }

    /// The lines that are in this set and in another.
    pub fn intersection(self, other: LineSet) -> LineSet
        ensures { (line : ℕ) → is_in result line ≡ (is_in self line && is_in other line) }
    {
        LineSet {
            bits: self.bits & other.bits,
        }
    }

    /// The least line of the set from a line on, or None if there is none.
    pub fn next_from(self, from: u8) -> Option<u8>
        ensures order { IfSome result (λ line. from ≤ line) }
        ensures small { IfSome result (λ line. line < MAX_LINES) }
        ensures found { IfSome result (λ line. is_in self line ≡ true) }
        ensures between { (line : ℕ) → from ≤ line → IsBefore line result →
            is_in self line ≡ false }
    {
        let bits = self.bits;
        if from >= MAX_LINES {
            return None;
        }
        let above = bits >> from;
        if above == 0 {
            return None;
        }
        Some(from + above.trailing_zeros() as u8)
    }
}
