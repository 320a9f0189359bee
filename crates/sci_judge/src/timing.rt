//! What the times of operations say of stretches and chains.
//!
//! Nothing here is relied on: what is found is checked.

use crate::chains::{Chains, Edge};
use crate::stretches::{Stop, element, replace};
use std::alloc::Global;

/// Of some groups of operations, by their numbers, the one that ends first and the one that begins last.
#[derive(Drop)]
struct Outer {
    first_ends: Vec<Option<usize>>,
    last_begins: Vec<Option<usize>>,
}

impl Outer {
    /// No operations, in this many groups.
    fn new(alloc: Global, groups: usize) -> Result<Outer, Stop> {
        Ok(Outer {
            first_ends: Vec::from_elem(alloc, None, groups)?,
            last_begins: Vec::from_elem(alloc, None, groups)?,
        })
    }

    /// One operation more that ends in a group.
    fn add_end(&mut self, chains: &Chains, group: usize, place: usize) -> Result<(), Stop> {
        let before = element(&self.first_ends, group)?;
        if chains.end_of(Some(place)) < chains.end_of(before) || before.is_none() {
            replace(&mut self.first_ends, group, Some(place))?;
        }
        Ok(())
    }

    /// One operation more that begins in a group.
    fn add_begin(&mut self, chains: &Chains, group: usize, place: usize) -> Result<(), Stop> {
        let before = element(&self.last_begins, group)?;
        if chains.begin_of(before) < chains.begin_of(Some(place)) || before.is_none() {
            replace(&mut self.last_begins, group, Some(place))?;
        }
        Ok(())
    }
}

impl Chains<'_> {
    /// When an operation ends, or the greatest time if there is none.
    fn end_of(&self, place: Option<usize>) -> u64 {
        match place {
            Some(place) => self.site.at(place).map_or(u64::MAX, |access| access.end),
            None => u64::MAX,
        }
    }

    /// When an operation begins, or 0 if there is none.
    fn begin_of(&self, place: Option<usize>) -> u64 {
        match place {
            Some(place) => self.site.at(place).map_or(0, |access| access.begin),
            None => 0,
        }
    }

    /// When the first operation of a chain to end does, or the greatest time if times don't count.
    pub fn first_end(&self, chain: usize) -> Result<u64, Stop> {
        if !self.site.timed {
            return Ok(u64::MAX);
        }
        Ok(self.end_of(element(&self.first_ends, chain)?))
    }

    /// When the last operation of a chain to begin does, or 0 if times don't count.
    pub fn last_begin(&self, chain: usize) -> Result<u64, Stop> {
        if !self.site.timed {
            return Ok(0);
        }
        Ok(self.begin_of(element(&self.last_begins, chain)?))
    }

    /// The edge from the operation of one chain that ends first to that of another one that begins last.
    pub fn time_edge(&self, from: usize, to: usize) -> Result<Edge, Stop> {
        match (
            element(&self.first_ends, from)?,
            element(&self.last_begins, to)?,
        ) {
            (Some(earlier), Some(later)) => Ok(Edge { earlier, later }),
            _ => Err(Stop::GaveUp),
        }
    }

    /// Looks at the times, if they count.
    pub fn look_at_times(&mut self, alloc: Global) -> Result<(), Stop> {
        if !self.site.timed {
            return Ok(());
        }
        let mut outer = Outer::new(alloc, self.heads.len())?;
        for place in 0..self.site.accesses.len() {
            outer.add_end(self, self.chain_of(self.left(place)?)?, place)?;
            outer.add_begin(self, self.chain_of(self.found(place)?)?, place)?;
        }
        let Outer {
            first_ends,
            last_begins,
        } = outer;
        self.first_ends = first_ends;
        self.last_begins = last_begins;
        self.look_at_start(alloc)?;
        self.look_within(alloc)
    }

    /// Looks at a pair of operations, if the first had ended before the second began.
    fn look_at_pair(
        &mut self,
        alloc: Global,
        pair: (Option<usize>, Option<usize>),
    ) -> Result<(), Stop> {
        let (Some(earlier), Some(later)) = pair else {
            return Ok(());
        };
        if earlier != later && self.end_of(Some(earlier)) < self.begin_of(Some(later)) {
            return self.add_edge(alloc, earlier, later);
        }
        Ok(())
    }

    /// Looks at what ended before an operation of the first chain began.
    fn look_at_start(&mut self, alloc: Global) -> Result<(), Stop> {
        let last = element(&self.last_begins, 0)?;
        for chain in 1..self.heads.len() {
            let first = element(&self.first_ends, chain)?;
            self.look_at_pair(alloc, (first, last))?;
        }
        Ok(())
    }

    /// Looks at the operations of each chain.
    fn look_within(&mut self, alloc: Global) -> Result<(), Stop> {
        let count = self.stretches.writer.len();
        let mut outer = Outer::new(alloc, count)?;
        for place in 0..self.site.accesses.len() {
            let stretch = self.left(place)?;
            if element(&self.stretches.writer, stretch)? != Some(place) {
                outer.add_end(self, stretch, place)?;
            }
            outer.add_begin(self, self.found(place)?, place)?;
        }
        for chain in 0..self.heads.len() {
            let head = element(&self.heads, chain)?;
            self.look_along(alloc, &outer, head)?;
        }
        Ok(())
    }

    /// Looks at the operations of a chain, stretch after stretch.
    fn look_along(&mut self, alloc: Global, outer: &Outer, head: usize) -> Result<(), Stop> {
        let mut stretch = head;
        let mut latest = None;
        for _ in 0..self.stretches.writer.len() {
            let writer = element(&self.stretches.writer, stretch)?;
            let first = element(&outer.first_ends, stretch)?;
            self.look_at_pair(alloc, (first, writer))?;
            self.look_at_pair(alloc, (first, latest))?;
            self.look_at_pair(alloc, (writer, latest))?;
            let last = element(&outer.last_begins, stretch)?;
            if latest.is_none() || self.begin_of(latest) < self.begin_of(last) {
                latest = last;
            }
            match element(&self.stretches.leaver, stretch)? {
                Some(atomic) => stretch = self.left(atomic)?,
                None => return Ok(()),
            }
        }
        Ok(())
    }
}
