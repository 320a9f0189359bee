//! The check of a witness.

ghost use Rattle.std.specs.Prelude.{◌≡◌, true, false, IfOk, IfSome, None};
ghost use Rattle.std.specs.{Bool.{OnTrue}, List.{list_any}};
ghost use Rattle.sci_judge.specs.Witness.{AreWrittenOnce, ExtendsClaim, IsPath, IsCircle, IsEarly, IsRound, IsUnwritten, IsWitness, Leads, writes as writes_word};

use crate::access::{Access, Kind};
use crate::site::Site;
use crate::witness::{Claim, Step, Witness};
use sci_words::Word;
use std::alloc::{AllocError, Global};
use std::collections::BTreeSet;

/// The claim that goes on from one word to another behind it, or None if the two don't fit.
fn going_on(from: Option<Claim>, word: Word, next: Word) -> Option<Claim>
    ensures { IfSome result (ExtendsClaim from word next) }
{
    if word == next {
        return None;
    }
    match from {
        None => Some(Claim {
            low: word,
            high: next,
        }),
        Some(claim) if claim.high == word => Some(Claim {
            low: claim.low,
            high: next,
        }),
        Some(_) => None,
    }
}

impl Site<'_> {
    /// The claim after an atomic whose two words nothing stands between, at the end of the claim.
    fn fallen(&self, place: usize, from: Option<Claim>) -> Option<Claim>
        ensures { IfSome result
            (Leads self.now.timed self.now.accesses.now self.now.last (Step.Falls place) from) }
    {
        let (read, wrote) = self.atomic(place)?;
        let claim = from?;
        if claim.high != wrote || wrote == read || claim.low == read {
            return None;
        }
        Some(Claim {
            low: claim.low,
            high: read,
        })
    }

    /// The same at the beginning of the claim.
    fn risen(&self, place: usize, from: Option<Claim>) -> Option<Claim>
        ensures { IfSome result
            (Leads self.now.timed self.now.accesses.now self.now.last (Step.Rises place) from) }
    {
        let (read, wrote) = self.atomic(place)?;
        let claim = from?;
        if claim.low != read || wrote == read || claim.high == wrote {
            return None;
        }
        Some(Claim {
            low: wrote,
            high: claim.high,
        })
    }

    /// The claim after a step, or None if the step doesn't fit.
    fn led(&self, step: &Step, from: Option<Claim>) -> Option<Claim>
        ensures { IfSome result
            (Leads self.now.timed self.now.accesses.now self.now.last step.now from) }
    {
        match *step {
            Step::Follows { earlier, later } => {
                let (first, second) = self.ordered(earlier, later)?;
                going_on(from, first.kind.left(), second.kind.found())
            }
            Step::Swaps(place) => {
                let (read, wrote) = self.atomic(place)?;
                going_on(from, read, wrote)
            }
            Step::Falls(place) => self.fallen(place, from),
            Step::Rises(place) => self.risen(place, from),
            Step::Starts(place) => going_on(from, 0, self.at(place)?.kind.left()),
            Step::Ends(place) => going_on(from, self.at(place)?.kind.left(), self.last?),
        }
    }

    /// The claim after all steps, or None if one doesn't fit.
    pub fn led_by(&self, steps: &[Step]) -> Option<Claim>
        ensures { IfSome result
            (IsPath self.now.timed self.now.accesses.now self.now.last None steps.now) }
    {
        let mut claim = None;
        for step in steps {
            claim = Some(self.led(step, claim)?);
        }
        claim
    }
}

/// Whether an operation writes this word.
fn writes(access: &Access, word: Word) -> bool
    ensures { result ≡ writes_word word access.now }
{
    access.kind.is_writing() && access.kind.left() == word
}

/// Whether some operation writes this word.
fn is_written(accesses: &[Access], word: Word) -> bool
    ensures { result ≡ list_any (writes_word word) accesses.now }
{
    for access in accesses {
        if writes(access, word) {
            return true;
        }
    }
    false
}

/// Whether each word is written at most once, and never 0. Refused if memory is.
pub fn are_written_once(alloc: Global, accesses: &[Access]) -> Result<bool, AllocError>
    ensures { IfOk result (λ once. once ≡ true → AreWrittenOnce accesses.now) }
{
    let mut written = BTreeSet::new(alloc);
    for access in accesses {
        let word = access.kind.left();
        if !access.kind.is_writing() {
            continue;
        }
        if word == 0 {
            return Ok(false);
        }
        if !written.insert(word)? {
            return Ok(false);
        }
    }
    Ok(true)
}

impl Site<'_> {
    /// Whether the first of two operations leaves the word that the second one, a store, writes later.
    fn is_early(&self, reader: usize, writer: usize) -> bool
        ensures { OnTrue result (IsEarly self.now.timed self.now.accesses.now reader writer) }
    {
        let Some((first, second)) = self.ordered(reader, writer) else {
            return false;
        };
        match second.kind {
            Kind::Store(wrote) => wrote == first.kind.left(),
            _ => false,
        }
    }

    /// Whether nobody writes a word that isn't 0.
    fn is_unwritten(&self, word: Word) -> bool
        ensures { OnTrue result (IsUnwritten self.now.accesses.now word) }
    {
        word != 0 && !is_written(self.accesses, word)
    }

    /// Whether steps lead to a word that would stand before itself.
    fn is_circle(&self, steps: &[Step]) -> bool
        ensures { OnTrue result
            (IsCircle self.now.timed self.now.accesses.now self.now.last steps.now) }
    {
        match self.led_by(steps) {
            Some(claim) => claim.low == claim.high,
            None => false,
        }
    }

    /// Whether an operation that makes a version comes before itself, through these.
    fn is_round(&self, maker: usize, through: &[usize]) -> bool
        ensures { result ≡ true →
            IsRound self.now.timed self.now.accesses.now maker through.now }
    {
        let Some(access) = self.at(maker) else {
            return false;
        };
        if !access.kind.is_making() {
            return false;
        }
        let mut place = maker;
        for next in through {
            let Some(_) = self.ordered(place, *next) else {
                return false;
            };
            place = *next;
        }
        matches!(self.ordered(place, maker), Some(_))
    }

    /// Whether a witness shows that the operations are not coherent. True only if it does. Refused if memory is.
    pub fn is_shown_by(&self, alloc: Global, witness: &Witness) -> Result<bool, AllocError>
        ensures { IfOk result (λ shown. shown ≡ true →
            IsWitness self.now.timed self.now.accesses.now self.now.last witness.now) }
    {
        match witness {
            Witness::Unwritten(reader) => Ok(match self.at(*reader) {
                Some(access) => self.is_unwritten(access.kind.found()),
                None => false,
            }),
            Witness::UnwrittenLast => Ok(match self.last {
                Some(word) => self.is_unwritten(word),
                None => false,
            }),
            Witness::Early { reader, writer } => {
                Ok(self.is_early(*reader, *writer) && are_written_once(alloc, self.accesses)?)
            }
            Witness::Circle(steps) => {
                Ok(self.is_circle(steps) && are_written_once(alloc, self.accesses)?)
            }
            Witness::Round { maker, through } => Ok(self.is_round(*maker, through)),
        }
    }
}
