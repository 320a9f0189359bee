//! A search for one order of operations that a memory explains: those of each processor in program order, and each finds the word
//! that was left last. It goes on from choice to choice and back, as far as a limit.
//!
//! Nothing here is relied on: what is found is checked.

use crate::access::{Access, Kind};
use crate::stretches::{Stop, element, replace};
use sci_words::{MAX_NODES, Word};
use std::alloc::Global;
use std::collections::{BTreeMap, BTreeSet};

const PROCESSORS: usize = MAX_NODES as usize;

/// An operation, as the search looks at it. Addresses and words at an address have numbers. There is one for each operation of the
/// trace, so it is small.
#[derive(Clone, Copy)]
struct Turn {
    processor: u8,
    is_making: bool,
    site: u32,
    /// The word that it has to find.
    reads: Option<u32>,
    /// The word that it puts in its place.
    writes: Option<u32>,
    /// The next operation of its processor.
    next: Option<u32>,
    begin: u64,
    /// The first end of it and those behind it in its processor.
    least_end: u64,
}

/// A number as a list's index.
fn index(number: Option<u32>) -> Option<usize> {
    match number {
        Some(number) => Some(number as usize),
        None => None,
    }
}

/// A number of which there aren't more than operations.
fn small(number: usize) -> Result<u32, Stop> {
    match u32::try_from(number) {
        Ok(number) => Ok(number),
        Err(_) => Err(Stop::GaveUp),
    }
}

impl Turn {
    fn processor(&self) -> usize {
        self.processor as usize
    }

    fn site(&self) -> usize {
        self.site as usize
    }

    fn reads(&self) -> Option<usize> {
        index(self.reads)
    }

    fn writes(&self) -> Option<usize> {
        index(self.writes)
    }
}

/// The numbers of the words at each address.
#[derive(Drop)]
struct Numbers {
    sites: BTreeMap<u64, usize>,
    words: BTreeMap<(usize, Word), usize>,
    /// Of each address the number of its 0.
    starts: Vec<usize>,
}

impl Numbers {
    fn new(alloc: Global) -> Numbers {
        Numbers {
            sites: BTreeMap::new(alloc),
            words: BTreeMap::new(alloc),
            starts: Vec::new(alloc),
        }
    }

    /// The number of an address.
    fn site(&mut self, address: u64) -> Result<usize, Stop> {
        if let Some(site) = self.sites.get(&address) {
            return Ok(*site);
        }
        let site = self.starts.len();
        self.sites.insert(address, site)?;
        let start = self.word(site, 0)?;
        self.starts.push(start)?;
        Ok(site)
    }

    /// The number of a word at an address.
    fn word(&mut self, site: usize, word: Word) -> Result<usize, Stop> {
        if let Some(number) = self.words.get(&(site, word)) {
            return Ok(*number);
        }
        let number = self.words.len();
        self.words.insert((site, word), number)?;
        Ok(number)
    }

    /// An operation.
    fn turn(&mut self, access: &Access) -> Result<Turn, Stop> {
        let site = self.site(access.address)?;
        let reads = match access.kind {
            Kind::Store(_) => None,
            Kind::Load(read) | Kind::Atomic { read, .. } => Some(small(self.word(site, read)?)?),
        };
        let writes = match access.kind.is_writing() {
            true => Some(small(self.word(site, access.kind.left())?)?),
            false => None,
        };
        Ok(Turn {
            processor: access.processor,
            site: small(site)?,
            reads,
            writes,
            is_making: access.kind.is_making(),
            begin: access.begin,
            least_end: access.end,
            next: None,
        })
    }
}

/// A choice: how many operations were placed before it, and the one that was tried.
#[derive(Clone, Copy)]
struct Choice {
    placed: usize,
    tried: usize,
}

/// How far a search has come.
#[derive(Drop)]
pub struct Search {
    timed: bool,
    numbers: Numbers,
    turns: Vec<Turn>,
    /// Of each processor its next operation.
    fronts: [Option<usize>; PROCESSORS],
    /// Of each address the word there.
    words: Vec<usize>,
    /// Of each address its last word, if that is known.
    lasts: Vec<Option<usize>>,
    /// Of each word how many operations still read it, and how many write it.
    readers: Vec<usize>,
    writers: Vec<usize>,
    /// The operations that are placed, each with the word that was there before.
    placed: Vec<(usize, usize)>,
    choices: Vec<Choice>,
    /// Whether a choice was taken back. Until then no state comes again.
    has_gone_back: bool,
    /// Digests of the states since then, from which nothing more is to be tried when they come again.
    seen: BTreeSet<u64>,
    digest: u64,
    /// How many choices may still be made.
    limit: u64,
}

/// A number that stands for a pair of numbers in digests.
fn mixed(first: usize, second: usize) -> u64 {
    let mut mixed = (first as u64).wrapping_add(0x9e37_79b9_7f4a_7c15);
    mixed = (mixed ^ (mixed >> 30)).wrapping_mul(0xbf58_476d_1ce4_e5b9);
    mixed = mixed.wrapping_add((second as u64).wrapping_mul(0x94d0_49bb_1331_11eb));
    mixed = (mixed ^ (mixed >> 27)).wrapping_mul(0x2545_f491_4f6c_dd1d);
    mixed ^ (mixed >> 31)
}

impl Search {
    /// A search for an order of operations.
    pub fn new(
        alloc: Global,
        accesses: &[Access],
        timed: bool,
        limit: u64,
    ) -> Result<Search, Stop> {
        let mut numbers = Numbers::new(alloc);
        let mut turns = Vec::with_capacity(alloc, accesses.len())?;
        for access in accesses {
            turns.push(numbers.turn(access)?)?;
        }
        let count = numbers.words.len();
        let mut search = Search {
            timed,
            turns,
            fronts: [None; PROCESSORS],
            words: Vec::from_slice(alloc, &numbers.starts)?,
            lasts: Vec::from_elem(alloc, None, numbers.starts.len())?,
            numbers,
            readers: Vec::from_elem(alloc, 0, count)?,
            writers: Vec::from_elem(alloc, 0, count)?,
            placed: Vec::new(alloc),
            choices: Vec::new(alloc),
            has_gone_back: false,
            seen: BTreeSet::new(alloc),
            digest: 0,
            limit,
        };
        search.count()?;
        Ok(search)
    }

    /// Wants a last word at an address.
    pub fn end_with(&mut self, address: u64, word: Word) -> Result<(), Stop> {
        if let Some(site) = self.numbers.sites.get(&address).copied() {
            let last = self.numbers.words.get(&(site, word)).copied();
            replace(&mut self.lasts, site, last)?;
        }
        Ok(())
    }

    /// Joins the operations of each processor, and counts those of each word.
    fn count(&mut self) -> Result<(), Stop> {
        for place in (0..self.turns.len()).rev() {
            let mut turn = element(&self.turns, place)?;
            let next = element(&self.fronts, turn.processor())?;
            if let Some(next) = next {
                turn.next = Some(small(next)?);
                turn.least_end = turn.least_end.min(element(&self.turns, next)?.least_end);
            }
            replace(&mut self.turns, place, turn)?;
            replace(&mut self.fronts, turn.processor(), Some(place))?;
            if let Some(word) = turn.reads() {
                let readers = element(&self.readers, word)?;
                replace(&mut self.readers, word, readers.saturating_add(1))?;
            }
            if let Some(word) = turn.writes() {
                let writers = element(&self.writers, word)?;
                replace(&mut self.writers, word, writers.saturating_add(1))?;
            }
        }
        Ok(())
    }

    /// Whether an operation at the front may be placed: it finds its word, and nothing that isn't placed had ended before it began.
    fn is_ready(&self, turn: &Turn) -> Result<bool, Stop> {
        if let Some(word) = turn.reads() {
            if element(&self.words, turn.site())? != word {
                return Ok(false);
            }
        }
        if self.timed {
            for front in self.fronts {
                if let Some(place) = front {
                    let other = element(&self.turns, place)?;
                    if other.processor != turn.processor && other.least_end < turn.begin {
                        return Ok(false);
                    }
                }
            }
        }
        Ok(true)
    }

    /// Whether an operation that is ready would put away a word that is still needed, and that nothing writes again.
    fn is_fatal(&self, turn: &Turn) -> Result<bool, Stop> {
        let word = element(&self.words, turn.site())?;
        let Some(written) = turn.writes() else {
            return Ok(false);
        };
        if written == word || element(&self.writers, word)? > 0 {
            return Ok(false);
        }
        let readers = element(&self.readers, word)?;
        let needed = readers > usize::from(turn.reads() == Some(word));
        Ok(needed || element(&self.lasts, turn.site())? == Some(word))
    }

    /// Places an operation that stands at the front.
    fn place(&mut self, place: usize) -> Result<(), Stop> {
        let turn = element(&self.turns, place)?;
        let word = element(&self.words, turn.site())?;
        replace(&mut self.fronts, turn.processor(), index(turn.next))?;
        if let Some(read) = turn.reads() {
            let readers = element(&self.readers, read)?;
            replace(&mut self.readers, read, readers.saturating_sub(1))?;
        }
        if let Some(written) = turn.writes() {
            let writers = element(&self.writers, written)?;
            replace(&mut self.writers, written, writers.saturating_sub(1))?;
            replace(&mut self.words, turn.site(), written)?;
            self.digest ^= mixed(turn.site(), word) ^ mixed(turn.site(), written);
        }
        self.digest ^= mixed(usize::MAX, place);
        self.placed.push((place, word))?;
        Ok(())
    }

    /// Takes back what was placed behind this many operations.
    fn take_back(&mut self, count: usize) -> Result<(), Stop> {
        for _ in count..self.placed.len() {
            let Some((place, word)) = self.placed.pop() else {
                return Err(Stop::GaveUp);
            };
            let turn = element(&self.turns, place)?;
            replace(&mut self.fronts, turn.processor(), Some(place))?;
            if let Some(read) = turn.reads() {
                let readers = element(&self.readers, read)?;
                replace(&mut self.readers, read, readers.saturating_add(1))?;
            }
            if let Some(written) = turn.writes() {
                let writers = element(&self.writers, written)?;
                replace(&mut self.writers, written, writers.saturating_add(1))?;
                replace(&mut self.words, turn.site(), word)?;
                self.digest ^= mixed(turn.site(), word) ^ mixed(turn.site(), written);
            }
            self.digest ^= mixed(usize::MAX, place);
        }
        Ok(())
    }

    /// Places all operations at the front that are ready and change nothing, as long as there are any.
    fn place_loads(&mut self) -> Result<(), Stop> {
        for _ in 0..self.turns.len() {
            let before = self.placed.len();
            for processor in 0..PROCESSORS {
                self.place_loads_of(processor)?;
            }
            if !self.timed || self.placed.len() == before {
                break;
            }
        }
        Ok(())
    }

    /// Places those of a processor.
    fn place_loads_of(&mut self, processor: usize) -> Result<(), Stop> {
        for _ in self.placed.len()..self.turns.len() {
            let Some(place) = element(&self.fronts, processor)? else {
                return Ok(());
            };
            let turn = element(&self.turns, place)?;
            if turn.writes().is_some() || !self.is_ready(&turn)? {
                return Ok(());
            }
            self.place(place)?;
        }
        Ok(())
    }

    /// The first operation at the front, from a place of the trace on, that may be placed and changes a word.
    fn candidate(&self, from: usize) -> Result<Option<usize>, Stop> {
        let mut first: Option<usize> = None;
        for front in self.fronts {
            if let Some(place) = front {
                let turn = element(&self.turns, place)?;
                let better = from <= place && first.is_none_or(|other| place < other);
                if better && self.is_ready(&turn)? && !self.is_fatal(&turn)? {
                    first = Some(place);
                }
            }
        }
        Ok(first)
    }

    /// Makes the next choice, from a place of the trace on; or else goes back to a choice that can be made otherwise.
    fn choose(&mut self, start: usize) -> Result<(), Stop> {
        let mut from = start;
        for _ in 0..self.limit {
            self.limit = self.limit.saturating_sub(1);
            if let Some(place) = self.candidate(from)? {
                self.choices.push(Choice {
                    placed: self.placed.len(),
                    tried: place,
                })?;
                return self.place(place);
            }
            let Some(choice) = self.choices.pop() else {
                return Err(Stop::GaveUp);
            };
            self.take_back(choice.placed)?;
            self.has_gone_back = true;
            from = choice.tried.saturating_add(1);
        }
        Err(Stop::GaveUp)
    }

    /// Versions of the operations by the order in which they were placed.
    fn versions(&self, alloc: Global) -> Result<Vec<u64>, Stop> {
        let mut latest = Vec::from_elem(alloc, 0, self.words.len())?;
        let mut versions = Vec::from_elem(alloc, 0, self.turns.len())?;
        for (place, _) in self.placed.iter() {
            let turn = element(&self.turns, *place)?;
            let version: u64 = element(&latest, turn.site())?;
            let version = version.saturating_add(u64::from(turn.is_making));
            replace(&mut latest, turn.site(), version)?;
            replace(&mut versions, *place, version)?;
        }
        Ok(versions)
    }

    /// Versions of the operations by an order that a memory explains.
    pub fn run(mut self, alloc: Global) -> Result<Vec<u64>, Stop> {
        for _ in 0..=self.limit {
            self.place_loads()?;
            if self.placed.len() == self.turns.len() {
                return self.versions(alloc);
            }
            let is_known = self.has_gone_back && !self.seen.insert(self.digest)?;
            self.choose(if is_known { usize::MAX } else { 0 })?;
        }
        Err(Stop::GaveUp)
    }
}
