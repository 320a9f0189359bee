//! An order of the chains, versions by it, or a circle of chains.
//!
//! Nothing here is relied on: what is found is checked.

use crate::chains::{Chains, Edge};
use crate::freeing::Hint;
use crate::stretches::{Stop, element, replace};
use crate::witness::{Step, Witness};
use std::alloc::Global;
use std::collections::BTreeSet;

/// How far the chains are put in order.
#[derive(Drop)]
struct Placing {
    /// Of each chain the first edge that leaves it, as its place in the list of edges.
    first: Vec<Option<usize>>,
    /// Of each edge the next one that leaves the same chain.
    next: Vec<Option<usize>>,
    /// Of each chain how many edges come to it from chains that aren't placed.
    waits: Vec<usize>,
    /// The chains that aren't placed and wait for none, by when the last of their operations begins.
    ready: BTreeSet<(u64, usize)>,
    /// The chains that aren't placed, by when the first of their operations ends.
    left: BTreeSet<(u64, usize)>,
    /// The chains that are placed, in order.
    order: Vec<usize>,
}

impl Placing {
    /// Nothing is placed.
    fn new(alloc: Global, chains: &Chains) -> Result<Placing, Stop> {
        let count = chains.count();
        let mut placing = Placing {
            first: Vec::from_elem(alloc, None, count)?,
            next: Vec::from_elem(alloc, None, chains.edges().len())?,
            waits: Vec::from_elem(alloc, 0, count)?,
            ready: BTreeSet::new(alloc),
            left: BTreeSet::new(alloc),
            order: Vec::with_capacity(alloc, count)?,
        };
        for (number, edge) in chains.edges().iter().enumerate() {
            let (from, to) = chains.ends(edge)?;
            replace(&mut placing.next, number, element(&placing.first, from)?)?;
            replace(&mut placing.first, from, Some(number))?;
            let waits = element(&placing.waits, to)?;
            replace(&mut placing.waits, to, waits.saturating_add(1))?;
        }
        for chain in 0..count {
            placing.left.insert((chains.first_end(chain)?, chain))?;
            if element(&placing.waits, chain)? == 0 {
                placing.ready.insert((chains.last_begin(chain)?, chain))?;
            }
        }
        Ok(placing)
    }

    /// One edge less comes to a chain from one that isn't placed.
    fn release(&mut self, chains: &Chains, chain: usize) -> Result<(), Stop> {
        let waits = element(&self.waits, chain)?.saturating_sub(1);
        replace(&mut self.waits, chain, waits)?;
        if waits == 0 {
            self.ready.insert((chains.last_begin(chain)?, chain))?;
        }
        Ok(())
    }

    /// Places a chain, and lets those that wait for it alone be placed.
    fn place(&mut self, chains: &Chains, chain: usize) -> Result<(), Stop> {
        self.order.push(chain)?;
        self.ready.remove(&(chains.last_begin(chain)?, chain));
        self.left.remove(&(chains.first_end(chain)?, chain));
        let mut edge = element(&self.first, chain)?;
        for _ in 0..chains.edges().len() {
            let Some(number) = edge else {
                return Ok(());
            };
            let (_, to) = chains.ends(&element(chains.edges(), number)?)?;
            self.release(chains, to)?;
            edge = element(&self.next, number)?;
        }
        Ok(())
    }

    /// Of the chains that aren't placed, but for this one, the one of which an operation ends first, and when.
    fn first_left(&self, but: usize) -> Option<(u64, usize)> {
        for (end, chain) in self.left.iter() {
            if *chain != but {
                return Some((*end, *chain));
            }
        }
        None
    }

    /// Whether no operation of another chain that isn't placed had ended before one of this chain began.
    fn is_timely(&self, chains: &Chains, chain: usize) -> Result<bool, Stop> {
        Ok(match self.first_left(chain) {
            Some((end, _)) => chains.last_begin(chain)? <= end,
            None => true,
        })
    }

    /// A chain that can be placed next, if there is one. If the one that ends first of all can't be, only the one that begins
    /// first may be.
    fn next_chain(&self, chains: &Chains) -> Result<Option<usize>, Stop> {
        if let Some((_, chain)) = self.first_left(usize::MAX) {
            if element(&self.waits, chain)? == 0 && self.is_timely(chains, chain)? {
                return Ok(Some(chain));
            }
        }
        if let Some((_, chain)) = self.ready.first().copied() {
            if self.is_timely(chains, chain)? {
                return Ok(Some(chain));
            }
        }
        Ok(None)
    }

    /// Places all chains that can be, that of the start first.
    fn place_all(&mut self, chains: &Chains) -> Result<(), Stop> {
        self.place(chains, 0)?;
        for _ in 0..chains.count() {
            match self.next_chain(chains)? {
                Some(chain) => self.place(chains, chain)?,
                None => return Ok(()),
            }
        }
        Ok(())
    }

    /// Of each chain that isn't placed an edge from another one that isn't.
    fn blockers(&self, alloc: Global, chains: &Chains) -> Result<Vec<Option<Edge>>, Stop> {
        let mut blockers = Vec::from_elem(alloc, None, chains.count())?;
        for (_, chain) in self.left.iter() {
            if let Some((end, other)) = self.first_left(*chain) {
                if end < chains.last_begin(*chain)? {
                    replace(
                        &mut blockers,
                        *chain,
                        Some(chains.time_edge(other, *chain)?),
                    )?;
                }
            }
        }
        for edge in chains.edges() {
            let (from, to) = chains.ends(edge)?;
            if self.left.contains(&(chains.first_end(from)?, from)) {
                replace(&mut blockers, to, Some(*edge))?;
            }
        }
        Ok(blockers)
    }
}

/// Edges between chains that go round, if each chain that isn't placed has one that comes to it from another.
fn round(alloc: Global, chains: &Chains, placing: &Placing) -> Result<Vec<Edge>, Stop> {
    let blockers = placing.blockers(alloc, chains)?;
    let Some((_, first)) = placing.first_left(usize::MAX) else {
        return Err(Stop::GaveUp);
    };
    // Back from edge to edge, until a chain comes again.
    let mut starts = Vec::from_elem(alloc, None, chains.count())?;
    let mut edges = Vec::new(alloc);
    let mut chain = first;
    for _ in 0..=chains.count() {
        if let Some(start) = element(&starts, chain)? {
            return onward(alloc, &edges, start);
        }
        replace(&mut starts, chain, Some(edges.len()))?;
        let Some(edge) = element(&blockers, chain)? else {
            return Err(Stop::GaveUp);
        };
        edges.push(edge)?;
        chain = chains.ends(&edge)?.0;
    }
    Err(Stop::GaveUp)
}

/// The edges from a place on, the last one first.
fn onward(alloc: Global, edges: &[Edge], start: usize) -> Result<Vec<Edge>, Stop> {
    let mut onward = Vec::new(alloc);
    for (place, edge) in edges.iter().enumerate().rev() {
        if place >= start {
            onward.push(*edge)?;
        }
    }
    Ok(onward)
}

/// The witness that edges between chains go round.
fn circle(alloc: Global, chains: &Chains, edges: &[Edge]) -> Result<Witness, Stop> {
    let (first, last) = match edges {
        [first, .., last] => (*first, *last),
        _ => return Err(Stop::GaveUp),
    };
    let low = chains.left(first.earlier)?;
    let top = chains.found(last.later)?;
    let mut steps = Vec::new(alloc);
    let mut high = low;
    for (number, edge) in edges.iter().enumerate() {
        if number > 0 {
            chains.shift(&mut steps, high, chains.left(edge.earlier)?)?;
        }
        if number + 1 == edges.len() && chains.is_below(low, top)? {
            chains.raise(&mut steps, low, top)?;
        }
        steps.push(Step::Follows {
            earlier: edge.earlier,
            later: edge.later,
        })?;
        high = chains.found(edge.later)?;
    }
    if chains.is_below(top, low)? {
        chains.climb(&mut steps, top, low)?;
    }
    Ok(Witness::Circle(steps))
}

/// Versions for the operations at an address, by their places, and what seems to hold of them.
#[derive(Drop)]
pub struct Found {
    pub versions: Vec<u64>,
    pub hint: Hint,
}

/// Versions for the operations at an address, or why there are none.
pub fn find(alloc: Global, chains: &Chains) -> Result<Found, Stop> {
    let mut placing = Placing::new(alloc, chains)?;
    placing.place_all(chains)?;
    if placing.order.len() < chains.count() {
        let edges = round(alloc, chains, &placing)?;
        return Err(Stop::Refuted(circle(alloc, chains, &edges)?));
    }
    let order = chains.ended(alloc, &placing.order)?;
    let versions = chains.versions(alloc, &order)?;
    let hint = chains.hint(alloc, &order, &versions)?;
    Ok(Found { versions, hint })
}
