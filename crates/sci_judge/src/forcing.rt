//! The check that versions are forced: no others explain the operations.

ghost use Rattle.std.specs.Prelude.{◌≡◌, ◌<◌, ℕ, true, IfOk, IfSome, None, length};
ghost use Rattle.sci_judge.specs.{Access.{AreKnown}, Witness.{ComesBefore, IsAt, IsPath}};
ghost use Rattle.sci_judge.specs.declared.access.Access.{Access};
ghost use Rattle.sci_judge.specs.Forced.{AreForced, AreHeld, IsAbove, IsBehindPrevious, IsHeld, IsMaker, IsRanked, IsUnder, IsWordBefore};

use crate::access::Access;
use crate::checking::are_written_once;
use crate::site::Site;
use crate::witness::Step;
use sci_words::Word;
use std::alloc::{AllocError, Global};

/// A maker in the order of versions.
#[derive(Debug, Drop)]
pub struct Maker {
    /// Its place among the operations at the address.
    pub place: usize,
    /// Steps from the word that the maker before it leaves, at first 0, to its own. None are needed where the two are one word.
    pub steps: Vec<Step>,
}

impl Site<'_> {
    /// The place and the operation of a maker, or None if there is none.
    fn maker(&self, makers: &[Maker], index: usize) -> Option<(usize, Access)>
        ensures { IfSome result (λ pair.
            IsMaker self.now.accesses.now makers.now index pair.0 pair.1) }
    {
        let place = makers.get(index)?.place;
        Some((place, self.at(place)?))
    }

    /// Whether the first of two operations comes before the second, in the order of their processor or by time.
    fn comes_before(&self, earlier: usize, later: usize) -> bool
        ensures { (y : Access) (x : Access) → IsAt self.now.accesses.now earlier y
            → IsAt self.now.accesses.now later x → result ≡ true →
            ComesBefore self.now.timed earlier later y x }
    {
        matches!(self.ordered(earlier, later), Some(_))
    }

    /// The word that a maker finds: what the one before it leaves, or 0.
    fn word_before(&self, makers: &[Maker], index: usize) -> Option<Word>
        ensures { IfSome result (IsWordBefore self.now.accesses.now makers.now index) }
    {
        if index == 0 {
            return Some(0);
        }
        Some(self.maker(makers, index - 1)?.1.kind.left())
    }

    /// Whether a maker that leaves the word of the one before it, if there is one, has to stand behind that one: it comes behind it
    /// in the order of their processor or by time, or the one before it alone writes the word.
    fn is_behind_previous(&self, makers: &[Maker], index: usize, place: usize) -> bool
        ensures { (access : Access) → IsAt self.now.accesses.now place access → result ≡ true →
            IsBehindPrevious self.now.timed self.now.accesses.now makers.now index place access }
    {
        if index == 0 {
            return true;
        }
        let (Some((before, other)), Some(access)) = (self.maker(makers, index - 1), self.at(place))
        else {
            return false;
        };
        if !other.kind.is_writing() {
            return self.comes_before(before, place);
        }
        if access.kind.is_writing() {
            return self.comes_before(before, place);
        }
        true
    }

    /// Whether steps lead from one word to another.
    pub(crate) fn are_parted(&self, steps: &[Step], low: Word, high: Word) -> bool
        ensures { result ≡ true → IsPath self.now.timed self.now.accesses.now self.now.last None
            steps.now (record { low = low; high = high }) }
    {
        match self.led_by(steps) {
            Some(claim) => claim.low == low && claim.high == high,
            None => false,
        }
    }

    /// Whether a maker has its version by its place in the order, and has to stand behind the one before it.
    fn is_ranked(&self, versions: &[u64], makers: &[Maker], index: usize) -> bool
        ensures { result ≡ true → IsRanked self.now.timed self.now.accesses.now self.now.last
            versions.now makers.now index }
    {
        let (Some(maker), Some((place, access)), Some(word)) = (
            makers.get(index),
            self.maker(makers, index),
            self.word_before(makers, index),
        ) else {
            return false;
        };
        if !access.kind.is_making() || versions.get(place).copied() != Some(index as u64 + 1) {
            return false;
        }
        if access.kind.left() == word {
            return self.is_behind_previous(makers, index, place);
        }
        self.are_parted(&maker.steps, word, access.kind.left())
    }

    /// Whether all makers in the order are.
    fn are_ranked(&self, versions: &[u64], makers: &[Maker]) -> bool
        ensures { result ≡ true → (index : ℕ) → index < length makers.now →
            IsRanked self.now.timed self.now.accesses.now self.now.last
            versions.now makers.now index }
    {
        for index in 0..makers.len() {
            if !self.is_ranked(versions, makers, index) {
                return false;
            }
        }
        true
    }

    /// Whether a load has to stand behind the maker whose version it has.
    fn is_above(&self, makers: &[Maker], place: usize, version: usize) -> bool
        ensures { (access : Access) → IsAt self.now.accesses.now place access → result ≡ true →
            IsAbove self.now.timed self.now.accesses.now makers.now place version access }
    {
        if version == 0 {
            return true;
        }
        let (Some((there, other)), Some(access)) = (self.maker(makers, version - 1), self.at(place))
        else {
            return false;
        };
        other.kind.is_writing() && other.kind.left() == access.kind.left()
            || self.comes_before(there, place)
    }

    /// Whether a load has to stand before the next maker, if there is one.
    fn is_under(&self, makers: &[Maker], place: usize, version: usize) -> bool
        ensures { (access : Access) → IsAt self.now.accesses.now place access → result ≡ true →
            IsUnder self.now.timed self.now.accesses.now makers.now place version access }
    {
        if makers.len() <= version {
            return true;
        }
        let (Some((there, other)), Some(word), Some(access)) = (
            self.maker(makers, version),
            self.word_before(makers, version),
            self.at(place),
        ) else {
            return false;
        };
        access.kind.left() == word && (other.kind.left() != word || self.comes_before(place, there))
    }

    /// Whether an operation has to have its version.
    fn is_held(&self, makers: &[Maker], place: usize, version: u64) -> bool
        ensures { (access : Access) → IsAt self.now.accesses.now place access → result ≡ true →
            IsHeld self.now.timed self.now.accesses.now makers.now place version access }
    {
        let (Some(access), Ok(version)) = (self.at(place), usize::try_from(version)) else {
            return false;
        };
        if !access.kind.is_making() {
            return self.is_above(makers, place, version) && self.is_under(makers, place, version);
        }
        if version == 0 {
            return false;
        }
        match self.maker(makers, version - 1) {
            Some((there, _)) => there == place,
            None => false,
        }
    }

    /// Whether all operations have to have their versions.
    fn are_held(&self, versions: &[u64], makers: &[Maker]) -> bool
        ensures { result ≡ true →
            AreHeld self.now.timed self.now.accesses.now versions.now makers.now }
    {
        for place in 0..self.accesses.len() {
            let Some(version) = versions.get(place) else {
                return false;
            };
            if !self.is_held(makers, place, *version) {
                return false;
            }
        }
        true
    }

    /// Whether no other versions explain the operations, as the makers in the order of their versions show. True only if none do.
    /// Refused if memory is.
    pub fn are_forced_by(
        &self,
        alloc: Global,
        versions: &[u64],
        makers: &[Maker],
    ) -> Result<bool, AllocError>
        requires { AreKnown self.now.accesses.now }
        ensures { IfOk result (λ forced. forced ≡ true →
            AreForced self.now.timed self.now.accesses.now self.now.last versions.now) }
    {
        if !self.are_ranked(versions, makers) {
            return Ok(false);
        }
        if !self.are_held(versions, makers) {
            return Ok(false);
        }
        let once = are_written_once(alloc, self.accesses)?;
        Ok(once)
    }
}
