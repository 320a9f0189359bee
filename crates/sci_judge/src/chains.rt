//! Chains of stretches, the order between them that the operations of one processor force, and versions by that order.
//!
//! Nothing here is relied on: what is found is checked.

use crate::site::Site;
use crate::stretches::{Stop, Stretches, element, replace};
use crate::witness::{Step, Witness};
use sci_words::MAX_NODES;
use std::alloc::Global;

const PROCESSORS: usize = MAX_NODES as usize;

/// That an operation of one chain comes right before one of another chain, in the order of their processor.
#[derive(Clone, Copy)]
pub struct Edge {
    pub earlier: usize,
    pub later: usize,
}

/// The operations of each stretch: the first one, and behind each one the next.
#[derive(Drop)]
struct Lists {
    first: Vec<Option<usize>>,
    next: Vec<Option<usize>>,
}

/// The chains of the stretches at one address. The first one has the word at the start.
#[derive(Drop)]
pub struct Chains<'a> {
    pub site: Site<'a>,
    pub stretches: Stretches,
    /// Of each stretch its chain.
    chain: Vec<usize>,
    /// Of each stretch its place in its chain.
    rank: Vec<usize>,
    /// Of each chain its first stretch.
    pub heads: Vec<usize>,
    /// Of each chain its last stretch.
    tails: Vec<usize>,
    edges: Vec<Edge>,
    /// Of each chain the operation that ends first, if times count.
    pub first_ends: Vec<Option<usize>>,
    /// Of each chain the operation that begins last, if times count.
    pub last_begins: Vec<Option<usize>>,
}

/// Puts the stretches of a chain into it, from its first one on.
fn walk(chains: &mut Chains, head: usize) -> Result<(), Stop> {
    let number = chains.heads.len();
    chains.heads.push(head)?;
    let mut stretch = head;
    for rank in 0..chains.chain.len() {
        replace(&mut chains.chain, stretch, number)?;
        replace(&mut chains.rank, stretch, rank)?;
        match element(&chains.stretches.leaver, stretch)? {
            None => {
                chains.tails.push(stretch)?;
                return Ok(());
            }
            Some(atomic) => stretch = element(&chains.stretches.left, atomic)?,
        }
    }
    Ok(())
}

/// Whether a stretch is the first one of a chain: no atomic wrote it.
fn is_head(site: &Site, writer: Option<usize>) -> bool {
    match writer {
        None => true,
        Some(place) => match site.at(place) {
            Some(access) => access.kind.found() == access.kind.left(),
            None => true,
        },
    }
}

impl<'a> Chains<'a> {
    /// The chains of operations, and the edges between them.
    pub fn new(alloc: Global, site: Site<'a>) -> Result<Chains<'a>, Stop> {
        let stretches = Stretches::new(alloc, &site)?;
        let count = stretches.writer.len();
        let mut chains = Chains {
            site,
            stretches,
            chain: Vec::from_elem(alloc, usize::MAX, count)?,
            rank: Vec::from_elem(alloc, 0, count)?,
            heads: Vec::new(alloc),
            tails: Vec::new(alloc),
            edges: Vec::new(alloc),
            first_ends: Vec::new(alloc),
            last_begins: Vec::new(alloc),
        };
        for stretch in 0..count {
            if is_head(&site, element(&chains.stretches.writer, stretch)?) {
                walk(&mut chains, stretch)?;
            }
        }
        for stretch in 0..count {
            if element(&chains.chain, stretch)? == usize::MAX {
                return Err(chains.atomics_round(alloc, stretch)?);
            }
        }
        chains.find_edges(alloc)?;
        chains.look_at_times(alloc)?;
        Ok(chains)
    }

    /// That atomics go round: each reads what another one wrote.
    fn atomics_round(&self, alloc: Global, stretch: usize) -> Result<Stop, Stop> {
        let mut steps = Vec::new(alloc);
        self.climb(&mut steps, stretch, stretch)?;
        Ok(Stop::Refuted(Witness::Circle(steps)))
    }

    /// Ends steps with those from one stretch up to another one of its chain, at least one.
    pub fn climb(&self, steps: &mut Vec<Step>, from: usize, to: usize) -> Result<(), Stop> {
        let mut stretch = from;
        for _ in 0..self.chain.len() {
            let Some(atomic) = element(&self.stretches.leaver, stretch)? else {
                return Err(Stop::GaveUp);
            };
            steps.push(Step::Swaps(atomic))?;
            stretch = element(&self.stretches.left, atomic)?;
            if stretch == to {
                return Ok(());
            }
        }
        Err(Stop::GaveUp)
    }

    /// Ends steps with those from one stretch to another one of its chain, for what stands behind.
    pub fn shift(&self, steps: &mut Vec<Step>, from: usize, to: usize) -> Result<(), Stop> {
        let rank = element(&self.rank, to)?;
        if element(&self.rank, from)? < rank {
            return self.climb(steps, from, to);
        }
        let mut stretch = from;
        for _ in 0..self.chain.len() {
            if stretch == to {
                return Ok(());
            }
            let Some(atomic) = element(&self.stretches.writer, stretch)? else {
                return Err(Stop::GaveUp);
            };
            steps.push(Step::Falls(atomic))?;
            stretch = element(&self.stretches.found, atomic)?;
        }
        Err(Stop::GaveUp)
    }

    /// Ends steps with those from one stretch up to another one of its chain, for what stands before.
    pub fn raise(&self, steps: &mut Vec<Step>, from: usize, to: usize) -> Result<(), Stop> {
        let mut stretch = from;
        for _ in 0..self.chain.len() {
            if stretch == to {
                return Ok(());
            }
            let Some(atomic) = element(&self.stretches.leaver, stretch)? else {
                return Err(Stop::GaveUp);
            };
            steps.push(Step::Rises(atomic))?;
            stretch = element(&self.stretches.left, atomic)?;
        }
        Err(Stop::GaveUp)
    }

    /// The stretch that an operation leaves.
    pub fn left(&self, place: usize) -> Result<usize, Stop> {
        element(&self.stretches.left, place)
    }

    /// The stretch that an operation finds.
    pub fn found(&self, place: usize) -> Result<usize, Stop> {
        element(&self.stretches.found, place)
    }

    /// The chain of a stretch.
    pub fn chain_of(&self, stretch: usize) -> Result<usize, Stop> {
        element(&self.chain, stretch)
    }

    /// Looks at each two operations of a processor, one right behind the other.
    fn find_edges(&mut self, alloc: Global) -> Result<(), Stop> {
        let mut latest: [Option<usize>; PROCESSORS] = [None; PROCESSORS];
        for place in 0..self.site.accesses.len() {
            let Some(access) = self.site.at(place) else {
                return Err(Stop::GaveUp);
            };
            let processor = access.processor as usize;
            if let Some(earlier) = element(&latest, processor)? {
                self.add_edge(alloc, earlier, place)?;
            }
            replace(&mut latest, processor, Some(place))?;
        }
        Ok(())
    }

    /// That an operation finds a word of the first chain behind one that left a word of another chain.
    fn start_too_late(&self, alloc: Global, edge: Edge) -> Result<Stop, Stop> {
        let mut steps = Vec::new(alloc);
        steps.push(Step::Starts(edge.earlier))?;
        self.raise(&mut steps, 0, self.found(edge.later)?)?;
        steps.push(Step::Follows {
            earlier: edge.earlier,
            later: edge.later,
        })?;
        Ok(Stop::Refuted(Witness::Circle(steps)))
    }

    /// Adds an edge if the operations are of two chains, and looks at their places in the chain if they are of one.
    pub fn add_edge(&mut self, alloc: Global, earlier: usize, later: usize) -> Result<(), Stop> {
        let (before, after) = (self.left(earlier)?, self.found(later)?);
        let edge = Edge { earlier, later };
        if self.chain_of(before)? != self.chain_of(after)? {
            if self.chain_of(after)? == 0 {
                return Err(self.start_too_late(alloc, edge)?);
            }
            self.edges.push(edge)?;
            return Ok(());
        }
        if before == after && element(&self.stretches.writer, after)? == Some(later) {
            return Err(Stop::Refuted(Witness::Early {
                reader: earlier,
                writer: later,
            }));
        }
        if element(&self.rank, before)? > element(&self.rank, after)? {
            let mut steps = Vec::new(alloc);
            steps.push(Step::Follows { earlier, later })?;
            self.climb(&mut steps, after, before)?;
            return Err(Stop::Refuted(Witness::Circle(steps)));
        }
        Ok(())
    }
}

impl Chains<'_> {
    /// How many chains there are.
    pub fn count(&self) -> usize {
        self.heads.len()
    }

    /// The last stretch of a chain.
    pub fn tail(&self, chain: usize) -> Result<usize, Stop> {
        element(&self.tails, chain)
    }

    /// Whether a chain has the last word, if that is known.
    pub fn is_last(&self, chain: usize) -> Result<bool, Stop> {
        match self.stretches.last {
            None => Ok(false),
            Some(stretch) => Ok(self.chain_of(stretch)? == chain),
        }
    }

    /// The edges between chains.
    pub fn edges(&self) -> &[Edge] {
        &self.edges
    }

    /// The chain that an edge leaves, and the one that it comes to.
    pub fn ends(&self, edge: &Edge) -> Result<(usize, usize), Stop> {
        let from = self.chain_of(self.left(edge.earlier)?)?;
        let to = self.chain_of(self.found(edge.later)?)?;
        Ok((from, to))
    }

    /// Whether a stretch stands before another one of its chain.
    pub fn is_below(&self, low: usize, high: usize) -> Result<bool, Stop> {
        Ok(element(&self.rank, low)? < element(&self.rank, high)?)
    }

    /// Versions by an order of the chains. In a stretch the operation that wrote it comes first.
    pub fn versions(&self, alloc: Global, order: &[usize]) -> Result<Vec<u64>, Stop> {
        let lists = self.by_stretch(alloc)?;
        let mut versions = Vec::from_elem(alloc, 0, self.site.accesses.len())?;
        let mut version = 0;
        for chain in order {
            let mut stretch = element(&self.heads, *chain)?;
            for _ in 0..self.chain.len() {
                version = self.version_stretch(&lists, stretch, version, &mut versions)?;
                match element(&self.stretches.leaver, stretch)? {
                    Some(atomic) => stretch = self.left(atomic)?,
                    None => break,
                }
            }
        }
        Ok(versions)
    }

    /// Gives the operations of a stretch their versions, and answers the last one.
    fn version_stretch(
        &self,
        lists: &Lists,
        stretch: usize,
        before: u64,
        versions: &mut [u64],
    ) -> Result<u64, Stop> {
        let mut version = before;
        let writer = element(&self.stretches.writer, stretch)?;
        if let Some(place) = writer {
            version = version.saturating_add(1);
            replace(versions, place, version)?;
        }
        let mut next = element(&lists.first, stretch)?;
        for _ in 0..self.site.accesses.len() {
            let Some(place) = next else {
                return Ok(version);
            };
            if Some(place) != writer {
                version = version.saturating_add(self.is_maker(place)?);
                replace(versions, place, version)?;
            }
            next = element(&lists.next, place)?;
        }
        Ok(version)
    }

    /// 1 if an operation makes a version, and else 0.
    fn is_maker(&self, place: usize) -> Result<u64, Stop> {
        match self.site.at(place) {
            None => Err(Stop::GaveUp),
            Some(access) => Ok(u64::from(access.kind.is_making())),
        }
    }

    /// The operations of each stretch, in the order of the trace, or in one that times allow if they count.
    fn by_stretch(&self, alloc: Global) -> Result<Lists, Stop> {
        let places = self.in_order(alloc)?;
        let mut lists = Lists {
            first: Vec::from_elem(alloc, None, self.chain.len())?,
            next: Vec::from_elem(alloc, None, self.site.accesses.len())?,
        };
        for place in places.iter().rev() {
            let stretch = self.left(*place)?;
            replace(&mut lists.next, *place, element(&lists.first, stretch)?)?;
            replace(&mut lists.first, stretch, Some(*place))?;
        }
        Ok(lists)
    }
}
