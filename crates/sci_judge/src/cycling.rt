//! A search for a cycle of operations, each of which stands before the next one in every order that explains a trace.
//!
//! Operations and the ends of stretches are the nodes of a graph. An operation stands before the next one of its processor, before
//! those that read the word that it wrote, and before the end of the stretch of the word that it leaves; the end of a stretch
//! stands before the operation that writes the word of a stretch behind it. Nothing here is relied on: what is found is checked.

use crate::access::Access;
use crate::chains::Chains;
use crate::cycle::{Link, Reason};
use crate::site::Site;
use crate::stretches::{Stop, element, replace};
use crate::trace::Trace;
use crate::witness::Step;
use sci_words::MAX_NODES;
use std::alloc::Global;

const PROCESSORS: usize = MAX_NODES as usize;

/// A longer cycle isn't looked at: its check would take too long.
const MAX_LINKS: usize = 1_000;

/// Why one node stands before another.
#[derive(Clone, Copy)]
enum Way {
    /// The next operation of the processor.
    Program,
    /// The operation wrote the word that the other one finds and leaves.
    ReadsFrom,
    /// The end of the stretch of the word that the operation leaves.
    Leaves,
    /// The atomic reads the word of the stretch that ends.
    Swaps,
    /// The stretch that ends is of the chain of the word at the start.
    Starts,
    /// The operation writes the first word of the chain of the last word.
    Ends,
    /// An edge between chains, by its number.
    Edge(usize),
}

/// That one node stands before another.
#[derive(Clone, Copy)]
struct Arrow {
    from: usize,
    to: usize,
    way: Way,
    /// The next arrow that leaves the same node.
    next: Option<usize>,
}

/// The operations at one address.
#[derive(Drop)]
struct Area<'a> {
    chains: Chains<'a>,
    /// Where they begin among the operations by their addresses.
    start: usize,
    /// The node of the end of the first stretch.
    ends: usize,
}

/// The operations of a trace, in areas.
#[derive(Drop)]
struct Map<'a> {
    areas: Vec<Area<'a>>,
    /// The places in the trace of the operations by their addresses.
    places: Vec<usize>,
    /// Of each operation of the trace its area, and its place there.
    home: Vec<(usize, usize)>,
    /// How many nodes there are.
    nodes: usize,
}

impl<'a> Map<'a> {
    /// The areas of a trace whose operations by their addresses are these.
    fn new(
        alloc: Global,
        trace: &Trace,
        sorted: &'a [Access],
        timed: bool,
    ) -> Result<Map<'a>, Stop> {
        let mut keyed = Vec::with_capacity(alloc, sorted.len())?;
        for (place, access) in trace.accesses.iter().enumerate() {
            keyed.push((access.address, place))?;
        }
        keyed.sort_by_key(|operation| operation.0)?;
        let mut map = Map {
            areas: Vec::new(alloc),
            places: Vec::with_capacity(alloc, keyed.len())?,
            home: Vec::from_elem(alloc, (0, 0), keyed.len())?,
            nodes: keyed.len(),
        };
        for part in sorted.chunk_by(|one, other| one.address == other.address) {
            let last = match part.first() {
                Some(access) => trace.last.get(&access.address).copied(),
                None => None,
            };
            map.add(
                alloc,
                Site {
                    accesses: part,
                    last,
                    timed,
                },
                &keyed,
            )?;
        }
        Ok(map)
    }

    /// Adds the area of the next operations by their addresses.
    fn add(&mut self, alloc: Global, site: Site<'a>, keyed: &[(u64, usize)]) -> Result<(), Stop> {
        let start = self.places.len();
        for place in 0..site.accesses.len() {
            let here = element(keyed, start.saturating_add(place))?.1;
            replace(&mut self.home, here, (self.areas.len(), place))?;
            self.places.push(here)?;
        }
        let chains = match Chains::new(alloc, site) {
            Ok(chains) => chains,
            Err(Stop::Memory(error)) => return Err(Stop::Memory(error)),
            // A word is written twice there: nothing is known of its words.
            Err(Stop::GaveUp | Stop::Refuted(_)) => return Ok(()),
        };
        let ends = self.nodes;
        self.nodes = ends.saturating_add(chains.stretches.writer.len());
        self.areas.push(Area {
            chains,
            start,
            ends,
        })?;
        Ok(())
    }

    /// The place in the trace of an operation of an area.
    fn place(&self, area: &Area, local: usize) -> Result<usize, Stop> {
        element(&self.places, area.start.saturating_add(local))
    }
}

/// A graph, in which each arrow leads from a node to another one that it stands before.
#[derive(Drop)]
struct Graph {
    arrows: Vec<Arrow>,
    /// Of each node the last arrow that leaves it.
    first: Vec<Option<usize>>,
}

impl Graph {
    /// The graph of a trace.
    fn new(alloc: Global, trace: &Trace, map: &Map) -> Result<Graph, Stop> {
        let mut graph = Graph {
            arrows: Vec::new(alloc),
            first: Vec::from_elem(alloc, None, map.nodes)?,
        };
        let mut latest: [Option<usize>; PROCESSORS] = [None; PROCESSORS];
        for (place, access) in trace.accesses.iter().enumerate() {
            let processor = access.processor as usize;
            if let Some(before) = element(&latest, processor)? {
                graph.add(before, place, Way::Program)?;
            }
            replace(&mut latest, processor, Some(place))?;
        }
        for area in map.areas.iter() {
            graph.add_operations(map, area)?;
            graph.add_chains(map, area)?;
        }
        Ok(graph)
    }

    fn add(&mut self, from: usize, to: usize, way: Way) -> Result<(), Stop> {
        let number = self.arrows.len();
        let next = element(&self.first, from)?;
        self.arrows.push(Arrow {
            from,
            to,
            way,
            next,
        })?;
        replace(&mut self.first, from, Some(number))
    }

    /// Adds what the operations of an area stand before by their stretches.
    fn add_operations(&mut self, map: &Map, area: &Area) -> Result<(), Stop> {
        for local in 0..area.chains.site.accesses.len() {
            let place = map.place(area, local)?;
            let stretch = area.chains.left(local)?;
            let writer = element(&area.chains.stretches.writer, stretch)?;
            if let Some(writer) = writer {
                if writer != local {
                    self.add(map.place(area, writer)?, place, Way::ReadsFrom)?;
                }
            }
            let end = area.ends.saturating_add(stretch);
            self.add(place, end, Way::Leaves)?;
        }
        for (stretch, leaver) in area.chains.stretches.leaver.iter().enumerate() {
            if let Some(atomic) = *leaver {
                let end = area.ends.saturating_add(stretch);
                self.add(end, map.place(area, atomic)?, Way::Swaps)?;
            }
        }
        Ok(())
    }

    /// Adds an arrow from the end of one chain to what writes the first word of another one.
    fn add_between(
        &mut self,
        map: &Map,
        area: &Area,
        ends: (usize, usize),
        way: Way,
    ) -> Result<(), Stop> {
        let end = area.ends.saturating_add(area.chains.tail(ends.0)?);
        let head = element(&area.chains.heads, ends.1)?;
        match element(&area.chains.stretches.writer, head)? {
            Some(writer) if ends.0 != ends.1 => self.add(end, map.place(area, writer)?, way),
            _ => Ok(()),
        }
    }

    /// Adds what the chains of an area stand before.
    fn add_chains(&mut self, map: &Map, area: &Area) -> Result<(), Stop> {
        for (number, edge) in area.chains.edges().iter().enumerate() {
            let ends = area.chains.ends(edge)?;
            self.add_between(map, area, ends, Way::Edge(number))?;
        }
        for chain in 1..area.chains.count() {
            self.add_between(map, area, (0, chain), Way::Starts)?;
        }
        if let Some(stretch) = area.chains.stretches.last {
            let last = area.chains.chain_of(stretch)?;
            for chain in 0..area.chains.count() {
                self.add_between(map, area, (chain, last), Way::Ends)?;
            }
        }
        Ok(())
    }

    /// Of each node how many arrows come to it from nodes that nothing puts into an order.
    fn waits(&self, alloc: Global) -> Result<Vec<usize>, Stop> {
        let mut waits = Vec::from_elem(alloc, 0usize, self.first.len())?;
        for arrow in self.arrows.iter() {
            let more = element(&waits, arrow.to)?.saturating_add(1);
            replace(&mut waits, arrow.to, more)?;
        }
        let mut ready = Vec::new(alloc);
        for (node, count) in waits.iter().enumerate() {
            if *count == 0 {
                ready.push(node)?;
            }
        }
        for _ in 0..self.first.len() {
            let Some(node) = ready.pop() else {
                break;
            };
            let mut number = element(&self.first, node)?;
            for _ in 0..self.arrows.len() {
                let Some(here) = number else {
                    break;
                };
                let arrow = element(&self.arrows, here)?;
                let less = element(&waits, arrow.to)?.saturating_sub(1);
                replace(&mut waits, arrow.to, less)?;
                if less == 0 {
                    ready.push(arrow.to)?;
                }
                number = arrow.next;
            }
        }
        Ok(waits)
    }

    /// An operation that is on a cycle, if there is one; operations are the first nodes, as many as said.
    fn on_cycle(&self, alloc: Global, waits: &[usize], count: usize) -> Result<usize, Stop> {
        let mut before = Vec::from_elem(alloc, None, waits.len())?;
        let mut left = None;
        for arrow in self.arrows.iter() {
            if element(waits, arrow.from)? > 0 {
                replace(&mut before, arrow.to, Some(arrow.from))?;
                left = Some(arrow.from);
            }
        }
        let Some(mut node) = left else {
            return Err(Stop::GaveUp);
        };
        // Back from node to node, so often that it is on a cycle.
        for step in 0..=waits.len() {
            if step == waits.len() && node < count {
                break;
            }
            match element(&before, node)? {
                Some(earlier) => node = earlier,
                None => return Err(Stop::GaveUp),
            }
        }
        Ok(node)
    }

    /// The shortest way from a node back to it, by its arrows.
    fn round(&self, alloc: Global, waits: &[usize], start: usize) -> Result<Vec<Arrow>, Stop> {
        let mut came = Vec::from_elem(alloc, None, waits.len())?;
        let mut queue = vec![in alloc; start]?;
        for place in 0..waits.len() {
            let Some(node) = queue.get(place).copied() else {
                break;
            };
            let mut number = element(&self.first, node)?;
            for _ in 0..self.arrows.len() {
                let Some(here) = number else {
                    break;
                };
                let arrow = element(&self.arrows, here)?;
                if element(&came, arrow.to)?.is_none() && element(waits, arrow.to)? > 0 {
                    replace(&mut came, arrow.to, Some(arrow))?;
                    queue.push(arrow.to)?;
                }
                number = arrow.next;
            }
        }
        let mut back = Vec::new(alloc);
        let mut node = start;
        for _ in 0..waits.len() {
            let Some(arrow) = element(&came, node)? else {
                return Err(Stop::GaveUp);
            };
            back.push(arrow)?;
            node = arrow.from;
            if node == start {
                break;
            }
        }
        back.reverse();
        Ok(back)
    }
}

impl Map<'_> {
    /// The steps that show that the words of two operations at an address are parted.
    fn steps(&self, alloc: Global, from: usize, to: usize, way: Way) -> Result<Vec<Step>, Stop> {
        let (number, earlier) = element(&self.home, from)?;
        let later = element(&self.home, to)?.1;
        let Some(area) = self.areas.get(number) else {
            return Err(Stop::GaveUp);
        };
        let chains = &area.chains;
        let (low, high) = (chains.left(earlier)?, chains.left(later)?);
        let mut steps = Vec::new(alloc);
        match way {
            Way::Swaps => steps.push(Step::Swaps(later))?,
            Way::Starts => {
                steps.push(Step::Starts(later))?;
                chains.raise(&mut steps, 0, low)?;
            }
            Way::Ends => {
                steps.push(Step::Ends(earlier))?;
                if let Some(last) = chains.stretches.last {
                    chains.shift(&mut steps, last, high)?;
                }
            }
            Way::Edge(number) => {
                let edge = element(chains.edges(), number)?;
                steps.push(Step::Follows {
                    earlier: edge.earlier,
                    later: edge.later,
                })?;
                chains.raise(&mut steps, chains.left(edge.earlier)?, low)?;
                chains.shift(&mut steps, chains.found(edge.later)?, high)?;
            }
            Way::Program | Way::ReadsFrom | Way::Leaves => return Err(Stop::GaveUp),
        }
        Ok(steps)
    }

    /// The links of a way round, which begins with an operation.
    fn links(&self, alloc: Global, arrows: &[Arrow]) -> Result<Vec<Link>, Stop> {
        let mut links: Vec<Link> = Vec::new(alloc);
        let mut leaver = None;
        for arrow in arrows {
            let goes_on = match links.last() {
                Some(
                    Link {
                        reason: Reason::Program,
                        ..
                    },
                ) => true,
                _ => false,
            };
            match (arrow.way, leaver) {
                (Way::Leaves, _) => leaver = Some(arrow.from),
                (Way::Program, _) if goes_on => {}
                (Way::Program, _) => links.push(Link {
                    place: arrow.from,
                    reason: Reason::Program,
                })?,
                (Way::ReadsFrom, _) => links.push(Link {
                    place: arrow.from,
                    reason: Reason::ReadsFrom,
                })?,
                (way, Some(place)) => {
                    let steps = self.steps(alloc, place, arrow.to, way)?;
                    links.push(Link {
                        place,
                        reason: Reason::Words(steps),
                    })?;
                }
                (_, None) => return Err(Stop::GaveUp),
            }
            if links.len() > MAX_LINKS {
                return Err(Stop::GaveUp);
            }
        }
        // The way may begin within a part of it that goes on in program order.
        if let [
            Link {
                reason: Reason::Program,
                ..
            },
            _,
            ..,
            Link {
                reason: Reason::Program,
                ..
            },
        ] = links.as_slice()
        {
            links.remove(0);
        }
        Ok(links)
    }
}

/// A cycle of the operations of a trace, which stand sorted by their addresses, too.
pub fn cycle_of(
    alloc: Global,
    trace: &Trace,
    sorted: &[Access],
    timed: bool,
) -> Result<Vec<Link>, Stop> {
    let map = Map::new(alloc, trace, sorted, timed)?;
    let graph = Graph::new(alloc, trace, &map)?;
    let waits = graph.waits(alloc)?;
    let start = graph.on_cycle(alloc, &waits, trace.accesses.len())?;
    let arrows = graph.round(alloc, &waits, start)?;
    map.links(alloc, &arrows)
}
