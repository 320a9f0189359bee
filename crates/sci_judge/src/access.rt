//! Operations of a trace, as the processors saw them.

ghost use Rattle.std.specs.Prelude.{◌≡◌};
ghost use Rattle.sci_judge.specs.Access.{found_by, is_making, is_writing, left_by};

use sci_words::Word;

/// What an operation did with its word.
#[derive(Clone, Copy, Debug, PartialEq, Eq)]
pub enum Kind {
    /// It read this word.
    Load(Word),
    /// It wrote this word.
    Store(Word),
    /// It read a word and wrote another, or the same one, with nothing between the two.
    Atomic { read: Word, wrote: Word },
}

impl Kind {
    /// The first word that the operation shows: what it read, or of a store what it wrote.
    pub fn found(self) -> Word
        ensures { result ≡ found_by self }
    {
        match self {
            Kind::Load(read) | Kind::Atomic { read, .. } => read,
            Kind::Store(wrote) => wrote,
        }
    }

    /// The word that the operation leaves: what it wrote, or of a load what it read.
    pub fn left(self) -> Word
        ensures { result ≡ left_by self }
    {
        match self {
            Kind::Load(read) => read,
            Kind::Store(wrote) | Kind::Atomic { wrote, .. } => wrote,
        }
    }

    /// Whether the operation puts its word there: a store, or an atomic that wrote another word than it read.
    pub fn is_writing(self) -> bool
        ensures { result ≡ is_writing self }
    {
        match self {
            Kind::Load(_) => false,
            Kind::Store(_) => true,
            Kind::Atomic { read, wrote } => read != wrote,
        }
    }

    /// Whether the operation makes a version: a store or an atomic.
    pub fn is_making(self) -> bool
        ensures { result ≡ is_making self }
    {
        !matches!(self, Kind::Load(_))
    }
}

/// An operation of a processor at an address.
#[derive(Clone, Copy, Debug, PartialEq, Eq)]
pub struct Access {
    /// The processor, below 16.
    pub processor: u8,
    /// The address. Each one is a word of memory.
    pub address: u64,
    /// What was done there.
    pub kind: Kind,
    /// When it began, or 0 if that isn't known.
    pub begin: u64,
    /// When it had ended, or the greatest `u64` if that isn't known.
    pub end: u64,
    /// The number of its line in the trace, from 1.
    pub line: usize,
}
