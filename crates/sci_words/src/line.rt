//! Lines, the units of coherence.

ghost use Rattle.std.specs.Prelude.{◌≡◌, ◌<◌, length, replicate, slice_index, slice_set};

use crate::limits::WORDS_PER_LINE;
use std::marker::Model;

/// A word of memory: 64 bits, unsigned.
pub type Word = u64;

/// A line of memory: eight words (IEEE Std 1596-1992: the coherence unit is 64 bytes). Contracts see it as
/// the list of its words.
#[derive(Clone, Copy, Debug, PartialEq, Eq)]
pub struct Line {
    words: [Word; WORDS_PER_LINE],
}

impl Model for Line {
    ghost use Rattle.std.specs.Prelude.{List, ℕ};

    ghost Value = { List ℕ };

    ghost view = { λ line. line.words };

    ghost inverse = { λ words. record { words = words } };
}

impl Line {
    /// The line of eight zero words.
    pub fn zero() -> Line
        ensures { result ≡ replicate WORDS_PER_LINE 0 }
    {
        Line {
            words: [0; WORDS_PER_LINE],
        }
    }

    /// The line of these words.
    pub fn of_words(words: &[Word; WORDS_PER_LINE]) -> Line
        ensures { result ≡ words.now }
    {
        // Word by word: a copy of all eight at once goes through memory twice more wherever a line is put into a packet.
        let mut line = Line::zero();
        for (i, word) in words.iter().enumerate() {
            line = line.with(i as u8, *word);
        }
        line
    }

    /// The eight words.
    pub fn words(&self) -> &[Word]
        ensures words { result.now ≡ self.now }
        ensures width { length self.now ≡ WORDS_PER_LINE }
    {
        &self.words
    }

    /// The word at place `i`, counted from 0. Requires that `i` is below eight.
    pub fn word(&self, i: u8) -> Word
        requires { i < WORDS_PER_LINE }
        ensures word { result ≡ slice_index self.now i }
        ensures width { length self.now ≡ WORDS_PER_LINE }
    {
        self.words[i as usize]
    }

    /// The same line with `word` at place `i`, counted from 0. Requires that `i` is below eight.
    pub fn with(self, i: u8, word: Word) -> Line
        requires { i < WORDS_PER_LINE }
        ensures changed { result ≡ slice_set self i word }
        ensures width { length self ≡ WORDS_PER_LINE }
    {
        let mut line = self;
        line.set(i, word);
        line
    }

    /// Puts `word` at place `i`, counted from 0. Requires that `i` is below eight.
    pub fn set(&mut self, i: u8, word: Word)
        requires { i < WORDS_PER_LINE }
        ensures changed { self.new ≡ slice_set self.old i word }
        ensures width { length self.old ≡ WORDS_PER_LINE }
    {
        self.words[usize::from(i)] = word;
    }
}
