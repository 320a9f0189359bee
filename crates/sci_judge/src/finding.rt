//! The judge of the operations at one address: a search whose answers are checked.

ghost use Rattle.std.specs.Prelude.{◌≡◌, ◌≢◌, ◌<◌, ℕ, true, IfOk, slice_get};
ghost use Rattle.sci_judge.specs.{Access.{AreKnown}, Judgement.{IsFinding, IsFreedom, is_free, is_unknown}, Stamped.{IsExplainedBy}};

use crate::chains::Chains;
use crate::freeing::Hint;
use crate::placing::{Found, find};
use crate::searching::Search;
use crate::site::Site;
use crate::stretches::Stop;
use crate::witness::Witness;
use std::alloc::{AllocError, Global};

/// Whether other versions explain the operations at an address as well as those that were found.
#[derive(Debug, Drop)]
pub enum Freedom {
    /// No others do.
    Forced,
    /// These do.
    Free(Vec<u64>),
    /// Neither was found.
    Unknown,
}

impl Freedom {
    /// Whether others are known.
    pub fn is_free(&self) -> bool
        ensures { result ≡ is_free self.now }
    {
        matches!(self, Freedom::Free(_))
    }

    /// Whether nothing is known.
    pub fn is_unknown(&self) -> bool
        ensures { result ≡ is_unknown self.now }
    {
        matches!(self, Freedom::Unknown)
    }
}

/// What is found of the operations at one address.
#[derive(Debug, Drop)]
pub enum Finding {
    /// Versions explain them.
    Coherent {
        /// Of each operation its version, at its place.
        versions: Vec<u64>,
        /// Whether others do, too.
        freedom: Freedom,
    },
    /// No versions do, as this shows.
    NotCoherent(Witness),
    /// Neither was found.
    Undecided,
}

/// Versions by an order of the chains of the operations, or why there are none.
fn chained(alloc: Global, site: Site) -> Result<Found, Stop> {
    let chains = Chains::new(alloc, site)?;
    find(alloc, &chains)
}

/// Versions by an order of the operations, after a search that makes at most `limit` choices.
fn searched(alloc: Global, site: Site, limit: u64) -> Result<Found, Stop> {
    let mut search = Search::new(alloc, site.accesses, site.timed, limit)?;
    if let (Some(access), Some(word)) = (site.accesses.first(), site.last) {
        search.end_with(access.address, word)?;
    }
    let versions = search.run(alloc)?;
    Ok(Found {
        versions,
        hint: Hint::Nothing,
    })
}

/// Versions for the operations at an address, or why there are none.
fn search(alloc: Global, site: Site, limit: u64) -> Result<Found, Stop> {
    match chained(alloc, site) {
        Err(Stop::GaveUp) => searched(alloc, site, limit),
        found => found,
    }
}

/// Whether an operation of this many has another version in one list than in the other.
fn differ(count: usize, others: &[u64], versions: &[u64]) -> bool
    ensures { result ≡ true → (i : ℕ) × (i < count)
        × (slice_get others.now i ≢ slice_get versions.now i) }
{
    for place in 0..count {
        if others.get(place).copied() != versions.get(place).copied() {
            return true;
        }
    }
    false
}

impl Site<'_> {
    /// Whether others explain the operations as well as these versions, as far as a hint shows it.
    #[inline(never)]
    fn freedom(&self, alloc: Global, versions: &[u64], hint: Hint) -> Result<Freedom, AllocError>
        requires { AreKnown self.now.accesses.now }
        ensures { IfOk result
            (IsFreedom self.now.timed self.now.accesses.now self.now.last versions.now) }
    {
        match hint {
            Hint::Makers(makers) => {
                if self.are_forced_by(alloc, versions, &makers)? {
                    return Ok(Freedom::Forced);
                }
            }
            Hint::Others(others) => {
                if differ(self.accesses.len(), &others, versions) {
                    if self.is_explained_by(alloc, &others)? {
                        return Ok(Freedom::Free(others));
                    }
                }
            }
            Hint::Nothing => {}
        }
        Ok(Freedom::Unknown)
    }

    /// What is said of versions that explain the operations: these with what a hint says of others, or a guess, if it explains
    /// them as well.
    #[inline(never)]
    fn coherent(&self, alloc: Global, found: Found, guess: &[u64]) -> Result<Finding, AllocError>
        requires known { AreKnown self.now.accesses.now }
        requires found { IsExplainedBy self.now.timed self.now.accesses.now self.now.last
            found.versions.items }
        ensures { IfOk result
            (IsFinding self.now.timed self.now.accesses.now self.now.last) }
    {
        let Found { versions, hint } = found;
        let freedom = self.freedom(alloc, &versions, hint)?;
        let other = !guess.is_empty() && differ(self.accesses.len(), &versions, guess);
        if other && self.is_explained_by(alloc, guess)? {
            return Ok(Finding::Coherent {
                versions: Vec::from_slice(alloc, guess)?,
                freedom: Freedom::Free(versions),
            });
        }
        Ok(Finding::Coherent { versions, freedom })
    }

    /// Judges the operations: Coherent if versions were found that an audit has judged, NotCoherent if a witness was found that
    /// the check of witnesses has judged, and else Undecided. Where a word is written twice, a search makes at most `limit`
    /// choices. Versions of a guess are taken if they explain the operations; an empty one is none. Refused only if memory is.
    #[inline(never)]
    pub fn judge(&self, alloc: Global, limit: u64, guess: &[u64]) -> Result<Finding, AllocError>
        requires { AreKnown self.now.accesses.now }
        ensures { IfOk result
            (IsFinding self.now.timed self.now.accesses.now self.now.last) }
    {
        match search(alloc, *self, limit) {
            Ok(found) => {
                if self.is_explained_by(alloc, &found.versions)? {
                    let finding = self.coherent(alloc, found, guess)?;
                    return Ok(finding);
                }
            }
            Err(Stop::Refuted(witness)) => {
                if self.is_shown_by(alloc, &witness)? {
                    return Ok(Finding::NotCoherent(witness));
                }
            }
            Err(Stop::Memory(error)) => return Err(error),
            Err(Stop::GaveUp) => {}
        }
        Ok(Finding::Undecided)
    }
}
