//! A line of a text, read word by word.

use sci_text::whole_number;

/// The least and the greatest number that can stand at a place.
#[derive(Clone, Copy)]
pub struct Limits {
    pub least: u64,
    pub greatest: u64,
}

/// The numbers below 2^64.
pub const ANY: Limits = Limits {
    least: 0,
    greatest: u64::MAX,
};

/// What was expected at a place of a line.
#[derive(Clone, Copy)]
pub enum Expected {
    /// What this names.
    Words(&'static str),
    /// One word of a kind with this name; which words are of this kind.
    OneOf(&'static str, &'static str),
    /// A number of this name.
    Number(&'static str, Limits),
    /// This number, named so.
    Exactly(&'static str, u64),
    /// `@` and a version.
    Version,
    /// The end of the line.
    End,
}

/// A place of a line, what was expected there, and what stands there.
#[derive(Clone, Copy)]
pub struct Mismatch<'a> {
    /// The number of the byte, from 1.
    pub column: usize,
    /// What was expected.
    pub expected: Expected,
    /// The word that stands there: none at the end of the line, and an empty one before a space.
    pub found: Option<&'a str>,
}

/// Whether a word is a number in decimal digits, without a leading zero.
pub fn is_number(word: &str) -> bool {
    match word.as_bytes() {
        [] => false,
        [b'0', _, ..] => false,
        digits => digits.iter().all(|byte| byte.is_ascii_digit()),
    }
}

impl Limits {
    /// The numbers from 0 on of which there are this many.
    pub fn below(count: u64) -> Limits {
        Limits {
            least: 0,
            greatest: count.saturating_sub(1),
        }
    }

    /// Whether a word is a number within the limits.
    fn admit(self, word: &str) -> bool {
        match whole_number(word.as_bytes()) {
            Some(number) => self.least <= number && number <= self.greatest,
            None => false,
        }
    }
}

/// The words of a line that are still to be read.
#[derive(Drop)]
pub struct LineWords<'a> {
    /// The line from the next word on, or None behind the last word.
    rest: Option<&'a str>,
    /// The column at which that begins, from 1.
    column: usize,
    /// Whether numbers have to be within their limits.
    judges_limits: bool,
}

impl<'a> LineWords<'a> {
    /// All words of a line.
    pub fn new(line: &'a str, judges_limits: bool) -> LineWords<'a> {
        LineWords {
            rest: Some(line),
            column: 1,
            judges_limits,
        }
    }

    /// The next word, if there is one: all up to the next space, or to the end of the line.
    pub fn next(&self) -> Option<&'a str> {
        let rest = self.rest?;
        match rest.split_once(' ') {
            Some((word, _)) => Some(word),
            None => Some(rest),
        }
    }

    /// Goes behind the next word and the space after it.
    pub fn pass(&mut self) {
        let Some(rest) = self.rest else {
            return;
        };
        match rest.split_once(' ') {
            Some((word, more)) => {
                self.rest = Some(more);
                self.column = self.column.saturating_add(word.len()).saturating_add(1);
            }
            None => {
                self.rest = None;
                self.column = self.column.saturating_add(rest.len());
            }
        }
    }

    /// That something else was expected in place of the next word. A space at the end of the line is the fault itself, and not
    /// what follows it.
    pub fn mismatch(&self, expected: Expected) -> Mismatch<'a> {
        let column = match self.rest {
            Some("") if self.column > 1 => self.column - 1,
            _ => self.column,
        };
        Mismatch {
            column,
            expected,
            found: self.next(),
        }
    }

    /// Reads a word, which a message names so.
    pub fn word(&mut self, word: &str, name: &'static str) -> Result<(), Mismatch<'a>> {
        match self.next() {
            Some(next) if next == word => {
                self.pass();
                Ok(())
            }
            _ => Err(self.mismatch(Expected::Words(name))),
        }
    }

    /// Reads a number of this name. It has to be within its limits if these are judged.
    pub fn number(&mut self, name: &'static str, limits: Limits) -> Result<(), Mismatch<'a>> {
        match self.next() {
            Some(next) if is_number(next) && (!self.judges_limits || limits.admit(next)) => {
                self.pass();
                Ok(())
            }
            _ => Err(self.mismatch(Expected::Number(name, limits))),
        }
    }

    /// Reads a number of this name that is this one.
    pub fn exactly(&mut self, name: &'static str, number: u64) -> Result<(), Mismatch<'a>> {
        match self.next() {
            Some(next) if whole_number(next.as_bytes()) == Some(number) => {
                self.pass();
                Ok(())
            }
            _ => Err(self.mismatch(Expected::Exactly(name, number))),
        }
    }

    /// Reads `@` and a version.
    pub fn version(&mut self) -> Result<(), Mismatch<'a>> {
        let version = match self.next() {
            Some(next) => next.strip_prefix('@'),
            None => None,
        };
        match version {
            Some(number) if is_number(number) && (!self.judges_limits || ANY.admit(number)) => {
                self.pass();
                Ok(())
            }
            _ => Err(self.mismatch(Expected::Version)),
        }
    }

    /// Reads the end of the line.
    pub fn end(&self) -> Result<(), Mismatch<'a>> {
        match self.rest {
            None => Ok(()),
            Some(_) => Err(self.mismatch(Expected::End)),
        }
    }
}
