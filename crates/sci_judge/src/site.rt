//! The operations at one address, as the judge looks at them.

ghost use Rattle.std.specs.Prelude.{◌≡◌, IfSome, slice_get};
ghost use Rattle.sci_judge.specs.declared.access.{Access.{Access}, Kind.TheVariants.{Atomic}};
ghost use Rattle.sci_judge.specs.Witness.{ComesBefore, IsAt};

use crate::access::{Access, Kind};
use sci_words::Word;

/// The operations at one address.
#[derive(Clone, Copy)]
pub struct Site<'a> {
    /// All of them, in the order of the trace.
    pub accesses: &'a [Access],
    /// The last word there, if it is known.
    pub last: Option<Word>,
    /// Whether what ended before another operation began has to stand before it.
    pub timed: bool,
}

impl Site<'_> {
    /// The operation at a place, or None if there is none.
    pub fn at(&self, place: usize) -> Option<Access>
        ensures { result ≡ slice_get self.now.accesses.now place }
    {
        self.accesses.get(place).copied()
    }

    /// Two operations, if the first comes before the second, in the order of their processor or by time.
    pub fn ordered(&self, earlier: usize, later: usize) -> Option<(Access, Access)>
        ensures { IfSome result (λ pair. IsAt self.now.accesses.now earlier pair.0
            × IsAt self.now.accesses.now later pair.1
            × ComesBefore self.now.timed earlier later pair.0 pair.1) }
    {
        let first = self.at(earlier)?;
        let second = self.at(later)?;
        let by_program = first.processor == second.processor && earlier < later;
        if by_program || (self.timed && first.end < second.begin) {
            return Some((first, second));
        }
        None
    }

    /// What the atomic at a place read and wrote, or None if there is no atomic.
    pub fn atomic(&self, place: usize) -> Option<(Word, Word)>
        ensures { IfSome result (λ words. (access : Access)
            × IsAt self.now.accesses.now place access
            × (access.kind ≡ Atomic words.0 words.1)) }
    {
        let access = self.at(place)?;
        match access.kind {
            Kind::Atomic { read, wrote } => Some((read, wrote)),
            _ => None,
        }
    }
}
