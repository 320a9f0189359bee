//! The makers in the order of their versions, with why each stands behind the one before it; or other versions.
//!
//! Nothing here is relied on: what is found is checked.

use crate::access::Access;
use crate::chains::{Chains, Edge};
use crate::forcing::Maker;
use crate::stretches::{Stop, element, replace};
use crate::witness::Step;
use sci_words::Word;
use std::alloc::Global;

/// What seems to hold of versions that were found.
#[derive(Drop)]
pub enum Hint {
    /// There are no others, by these makers.
    Makers(Vec<Maker>),
    /// These explain the operations as well.
    Others(Vec<u64>),
    /// Nothing is known.
    Nothing,
}

/// Why one chain stands right behind another.
#[derive(Clone, Copy)]
enum Reason {
    /// The first one has the word at the start.
    Start,
    /// The second one has the last word.
    End,
    /// An operation of the one comes before one of the other.
    Edge(Edge),
}

/// Chains in order, and why each stands behind the one before it.
#[derive(Drop)]
struct Row {
    order: Vec<usize>,
    /// Of each chain its place in the order.
    places: Vec<usize>,
    /// Of each place in the order why its chain stands behind the one before it.
    reasons: Vec<Option<Reason>>,
}

impl Row {
    /// The row of chains in an order.
    fn new(alloc: Global, chains: &Chains, order: &[usize]) -> Result<Row, Stop> {
        let mut row = Row {
            order: Vec::from_slice(alloc, order)?,
            places: Vec::from_elem(alloc, 0, chains.count())?,
            reasons: Vec::from_elem(alloc, None, order.len())?,
        };
        for (place, chain) in order.iter().enumerate() {
            replace(&mut row.places, *chain, place)?;
        }
        for edge in chains.edges() {
            let (from, to) = chains.ends(edge)?;
            let place = element(&row.places, to)?;
            if element(&row.places, from)?.saturating_add(1) == place {
                replace(&mut row.reasons, place, Some(Reason::Edge(*edge)))?;
            }
        }
        row.look_at_ends(chains)?;
        Ok(row)
    }

    /// Adds what times, the start and the last word say.
    fn look_at_ends(&mut self, chains: &Chains) -> Result<(), Stop> {
        for place in 1..self.order.len() {
            let (from, to) = (
                element(&self.order, place - 1)?,
                element(&self.order, place)?,
            );
            if chains.first_end(from)? < chains.last_begin(to)? {
                let edge = chains.time_edge(from, to)?;
                replace(&mut self.reasons, place, Some(Reason::Edge(edge)))?;
            }
            if from == 0 {
                replace(&mut self.reasons, place, Some(Reason::Start))?;
            } else if chains.is_last(to)? {
                replace(&mut self.reasons, place, Some(Reason::End))?;
            }
        }
        Ok(())
    }

    /// The order with a chain before the one that it need not stand behind, if there is such a chain.
    fn swapped(&self, alloc: Global) -> Result<Option<Vec<usize>>, Stop> {
        for place in 1..self.order.len() {
            if element(&self.reasons, place)?.is_none() {
                let mut order = Vec::from_slice(alloc, &self.order)?;
                order.swap(place - 1, place);
                return Ok(Some(order));
            }
        }
        Ok(None)
    }

    /// The steps from the last word of the chain before a chain to the first of its own, which this operation writes.
    fn steps(
        &self,
        alloc: Global,
        chains: &Chains,
        chain: usize,
        writer: usize,
    ) -> Result<Vec<Step>, Stop> {
        let place = element(&self.places, chain)?;
        let before = element(&self.order, place.saturating_sub(1))?;
        match element(&self.reasons, place)? {
            None => Err(Stop::GaveUp),
            Some(Reason::Start) => chains.start_steps(alloc, before, writer),
            Some(Reason::End) => chains.end_steps(alloc, before, chain),
            Some(Reason::Edge(edge)) => chains.edge_steps(alloc, edge, before, chain),
        }
    }
}

/// Versions with those of two operations replaced.
fn changed(alloc: Global, versions: &[u64], changes: &[(usize, u64)]) -> Result<Hint, Stop> {
    let mut others = Vec::from_slice(alloc, versions)?;
    for (place, version) in changes {
        replace(&mut others, *place, *version)?;
    }
    Ok(Hint::Others(others))
}

impl Chains<'_> {
    /// The steps from the last word of the first chain to the one that an operation writes.
    fn start_steps(&self, alloc: Global, first: usize, writer: usize) -> Result<Vec<Step>, Stop> {
        let mut steps = Vec::new(alloc);
        steps.push(Step::Starts(writer))?;
        self.raise(&mut steps, 0, self.tail(first)?)?;
        Ok(steps)
    }

    /// The steps from the last word of a chain to the first of the chain of the last word.
    fn end_steps(&self, alloc: Global, before: usize, chain: usize) -> Result<Vec<Step>, Stop> {
        let Some(writer) = element(&self.stretches.writer, self.tail(before)?)? else {
            return Err(Stop::GaveUp);
        };
        let mut steps = Vec::new(alloc);
        steps.push(Step::Ends(writer))?;
        self.shift(&mut steps, self.tail(chain)?, element(&self.heads, chain)?)?;
        Ok(steps)
    }

    /// The steps from the last word of a chain to the first of another one, by an edge between them.
    fn edge_steps(
        &self,
        alloc: Global,
        edge: Edge,
        before: usize,
        chain: usize,
    ) -> Result<Vec<Step>, Stop> {
        let mut steps = Vec::new(alloc);
        steps.push(Step::Follows {
            earlier: edge.earlier,
            later: edge.later,
        })?;
        self.raise(&mut steps, self.left(edge.earlier)?, self.tail(before)?)?;
        self.shift(
            &mut steps,
            self.found(edge.later)?,
            element(&self.heads, chain)?,
        )?;
        Ok(steps)
    }

    /// What seems to hold of versions by an order of the chains.
    pub fn hint(&self, alloc: Global, order: &[usize], versions: &[u64]) -> Result<Hint, Stop> {
        let row = Row::new(alloc, self, order)?;
        if let Some(swapped) = row.swapped(alloc)? {
            return Ok(Hint::Others(self.versions(alloc, &swapped)?));
        }
        let makers = self.makers(alloc, &row, versions)?;
        match self.loose(alloc, &makers, versions)? {
            Some(others) => Ok(others),
            None => Ok(Hint::Makers(makers)),
        }
    }

    /// The operation at a place.
    fn access(&self, place: usize) -> Result<Access, Stop> {
        match self.site.at(place) {
            Some(access) => Ok(access),
            None => Err(Stop::GaveUp),
        }
    }

    /// The places of the makers, by their versions.
    fn by_version(&self, alloc: Global, versions: &[u64]) -> Result<Vec<usize>, Stop> {
        let mut count = 0;
        for access in self.site.accesses {
            count = usize::from(access.kind.is_making()).saturating_add(count);
        }
        let mut places = Vec::from_elem(alloc, 0, count)?;
        for (place, version) in versions.iter().enumerate() {
            if self.access(place)?.kind.is_making() {
                let Ok(index) = usize::try_from(version.saturating_sub(1)) else {
                    return Err(Stop::GaveUp);
                };
                replace(&mut places, index, place)?;
            }
        }
        Ok(places)
    }

    /// The makers, by their versions, each with the steps to its word.
    fn makers(&self, alloc: Global, row: &Row, versions: &[u64]) -> Result<Vec<Maker>, Stop> {
        let places = self.by_version(alloc, versions)?;
        let mut makers = Vec::with_capacity(alloc, places.len())?;
        let mut before: Word = 0;
        for place in places.iter() {
            let access = self.access(*place)?;
            let mut steps = Vec::new(alloc);
            if access.kind.found() != access.kind.left() {
                steps.push(Step::Swaps(*place))?;
            } else if access.kind.left() != before {
                steps = row.steps(alloc, self, self.chain_of(self.left(*place)?)?, *place)?;
            }
            makers.push(Maker {
                place: *place,
                steps,
            })?;
            before = access.kind.left();
        }
        Ok(makers)
    }

    /// Other versions by an operation that need not stand where it does among those that leave its word, if there is one.
    fn loose(
        &self,
        alloc: Global,
        makers: &[Maker],
        versions: &[u64],
    ) -> Result<Option<Hint>, Stop> {
        for (place, version) in versions.iter().enumerate() {
            let access = self.access(place)?;
            let Ok(index) = usize::try_from(*version) else {
                return Err(Stop::GaveUp);
            };
            if let Some(next) = makers.get(index) {
                let other = self.access(next.place)?;
                let same = other.kind.left() == access.kind.left() && !other.kind.is_writing();
                let wrote = access.kind.is_making() && access.kind.is_writing();
                if same && !wrote && self.site.ordered(place, next.place).is_none() {
                    let above = version.saturating_add(1);
                    if access.kind.is_making() {
                        let swap = [(place, above), (next.place, *version)];
                        return Ok(Some(changed(alloc, versions, &swap)?));
                    }
                    return Ok(Some(changed(alloc, versions, &[(place, above)])?));
                }
            }
            if let Some(others) = self.loose_below(alloc, makers, versions, place)? {
                return Ok(Some(others));
            }
        }
        Ok(None)
    }

    /// Other versions by a load that need not stand behind the maker whose version it has.
    fn loose_below(
        &self,
        alloc: Global,
        makers: &[Maker],
        versions: &[u64],
        place: usize,
    ) -> Result<Option<Hint>, Stop> {
        let version = element(versions, place)?;
        let below = version.saturating_sub(1);
        let Ok(index) = usize::try_from(below) else {
            return Err(Stop::GaveUp);
        };
        if version == 0 || self.access(place)?.kind.is_making() {
            return Ok(None);
        }
        let Some(maker) = makers.get(index) else {
            return Err(Stop::GaveUp);
        };
        let loose = !self.access(maker.place)?.kind.is_writing()
            && self.site.ordered(maker.place, place).is_none();
        if loose {
            return Ok(Some(changed(alloc, versions, &[(place, below)])?));
        }
        Ok(None)
    }
}
