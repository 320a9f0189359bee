//! The stretches of a word: all operations that leave one word, from the one that wrote it on. An atomic joins two of them,
//! since nothing stands between what it read and what it wrote; so stretches make up chains.
//!
//! Nothing here is relied on: what is found is checked.

use crate::access::Kind;
use crate::site::Site;
use crate::witness::{Step, Witness};
use sci_words::Word;
use std::alloc::{AllocError, AllocFailed, Global};
use std::collections::BTreeMap;

/// Why a search ends without versions.
#[derive(Drop)]
pub enum Stop {
    /// Memory was refused.
    Memory(AllocError),
    /// Nothing is found, since some word is written twice, or 0 is.
    GaveUp,
    /// This seems to show that there are none.
    Refuted(Witness),
}

impl From<AllocError> for Stop {
    fn from(error: AllocError) -> Stop {
        Stop::Memory(error)
    }
}

impl<T: Drop> From<AllocFailed<T>> for Stop {
    fn from(failed: AllocFailed<T>) -> Stop {
        Stop::Memory(AllocError::from(failed))
    }
}

/// The element at a place.
pub fn element<T: Copy>(list: &[T], place: usize) -> Result<T, Stop> {
    match list.get(place) {
        Some(value) => Ok(*value),
        None => Err(Stop::GaveUp),
    }
}

/// Replaces the element at a place.
pub fn replace<T: Copy>(list: &mut [T], place: usize, value: T) -> Result<(), Stop> {
    match list.get_mut(place) {
        Some(element) => {
            *element = value;
            Ok(())
        }
        None => Err(Stop::GaveUp),
    }
}

/// The stretches of the operations at one address. The first one is that of the word at the start.
#[derive(Drop)]
pub struct Stretches {
    /// Of each operation the stretch of the word that it found.
    pub found: Vec<usize>,
    /// Of each operation the stretch of the word that it left.
    pub left: Vec<usize>,
    /// Of each stretch the operation that wrote it.
    pub writer: Vec<Option<usize>>,
    /// Of each stretch the atomic that read it and wrote another word.
    pub leaver: Vec<Option<usize>>,
    /// The stretch of the last word, if it is known.
    pub last: Option<usize>,
}

/// The words that are written.
#[derive(Drop)]
struct WrittenWords {
    /// The stretch of each word.
    stretches: BTreeMap<Word, usize>,
    /// Of each stretch the operation that wrote it.
    writers: Vec<Option<usize>>,
    /// Whether each word is written once, and never 0.
    once: bool,
}

/// The words that are written.
fn written(alloc: Global, site: &Site) -> Result<WrittenWords, Stop> {
    let mut stretches = BTreeMap::new(alloc);
    let mut writers = Vec::new(alloc);
    let mut once = true;
    writers.push(None)?;
    for (place, access) in site.accesses.iter().enumerate() {
        if !access.kind.is_writing() {
            continue;
        }
        let word = access.kind.left();
        if word == 0 || stretches.insert(word, writers.len())?.is_some() {
            once = false;
        }
        writers.push(Some(place))?;
    }
    Ok(WrittenWords {
        stretches,
        writers,
        once,
    })
}

/// The stretch of a word, or None if nobody wrote it.
fn stretch_of(stretches: &BTreeMap<Word, usize>, word: Word) -> Option<usize> {
    if word == 0 {
        return Some(0);
    }
    stretches.get(&word).copied()
}

impl Stretches {
    /// The stretches of operations.
    pub fn new(alloc: Global, site: &Site) -> Result<Stretches, Stop> {
        let WrittenWords {
            stretches,
            writers,
            once,
        } = written(alloc, site)?;
        let mut found = Vec::with_capacity(alloc, site.accesses.len())?;
        let mut left = Vec::with_capacity(alloc, site.accesses.len())?;
        for (place, access) in site.accesses.iter().enumerate() {
            let (Some(before), Some(after)) = (
                stretch_of(&stretches, access.kind.found()),
                stretch_of(&stretches, access.kind.left()),
            ) else {
                return Err(Stop::Refuted(Witness::Unwritten(place)));
            };
            found.push(before)?;
            left.push(after)?;
        }
        let last = match site.last {
            None => None,
            Some(word) => match stretch_of(&stretches, word) {
                None => return Err(Stop::Refuted(Witness::UnwrittenLast)),
                known => known,
            },
        };
        if !once {
            return Err(Stop::GaveUp);
        }
        let leaver = leavers(alloc, site, &found, writers.len())?;
        Ok(Stretches {
            found,
            left,
            writer: writers,
            leaver,
            last,
        })
    }
}

/// Of each stretch the atomic that read it and wrote another word. There may be one alone.
fn leavers(
    alloc: Global,
    site: &Site,
    found: &[usize],
    stretches: usize,
) -> Result<Vec<Option<usize>>, Stop> {
    let mut leavers = Vec::from_elem(alloc, None, stretches)?;
    for (place, access) in site.accesses.iter().enumerate() {
        if !matches!(access.kind, Kind::Atomic { .. }) || !access.kind.is_writing() {
            continue;
        }
        let stretch = element(found, place)?;
        if let Some(other) = element(&leavers, stretch)? {
            return Err(two_atomics(alloc, other, place)?);
        }
        replace(&mut leavers, stretch, Some(place))?;
    }
    Ok(leavers)
}

/// That two atomics read one write: what each wrote would stand before what the other wrote.
fn two_atomics(alloc: Global, first: usize, second: usize) -> Result<Stop, AllocError> {
    let steps = vec![in alloc;
        Step::Swaps(first),
        Step::Rises(second),
        Step::Falls(first),
        Step::Swaps(second),
    ]?;
    Ok(Stop::Refuted(Witness::Circle(steps)))
}
