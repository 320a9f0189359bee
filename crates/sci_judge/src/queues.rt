//! The order of the operations of each stretch where times count: what ended before another one began stands before it.
//!
//! Nothing here is relied on: what is found is checked.

use crate::chains::Chains;
use crate::site::Site;
use crate::stretches::{Stop, element, replace};
use crate::witness::Witness;
use std::alloc::Global;

/// An operation among all, sorted by stretch, then by processor, those of a processor in their order.
#[derive(Clone, Copy)]
struct Sorted {
    stretch: usize,
    processor: u8,
    /// Its place among the operations at the address.
    place: usize,
    begin: u64,
    end: u64,
    /// Where the one that ends first stands, of this one and those behind it of its processor in its stretch.
    soonest: usize,
}

/// The operations of a processor in a stretch that aren't placed, as a range of the sorted ones.
#[derive(Clone, Copy)]
struct Queue {
    next: usize,
    end: usize,
}

/// Operations of a queue that stand one behind the other, as a range that holds its last one.
#[derive(Clone, Copy)]
struct Run {
    first: usize,
    last: usize,
    /// An operation of an earlier run that began after the last one had ended; of the first run nothing is said.
    before: usize,
    /// The number of that run.
    before_run: usize,
}

/// Operations each of which comes before each other, directly or through others.
#[derive(Drop)]
struct Knot {
    runs: Vec<Run>,
    /// Of each queue where the operations behind those in the knot begin.
    reach: Vec<usize>,
    /// The operation in the knot that begins last.
    latest: usize,
    /// The number of its run.
    latest_run: usize,
}

/// How far the operations are put in order.
#[derive(Drop)]
struct Queues<'a> {
    site: Site<'a>,
    sorted: Vec<Sorted>,
    /// The queues of a stretch.
    queues: Vec<Queue>,
    /// The operations that are placed, in order.
    order: Vec<usize>,
}

impl<'a> Queues<'a> {
    /// All operations, of which none is placed.
    fn new(alloc: Global, chains: &Chains<'a>) -> Result<Queues<'a>, Stop> {
        let site = chains.site;
        let mut sorted = Vec::with_capacity(alloc, site.accesses.len())?;
        for (place, access) in site.accesses.iter().enumerate() {
            sorted.push(Sorted {
                stretch: chains.left(place)?,
                processor: access.processor,
                place,
                begin: access.begin,
                end: access.end,
                soonest: 0,
            })?;
        }
        sorted.sort_by_key(|one| (one.stretch, one.processor))?;
        let mut queues = Queues {
            site,
            sorted,
            queues: Vec::new(alloc),
            order: Vec::with_capacity(alloc, site.accesses.len())?,
        };
        queues.find_soonest()?;
        Ok(queues)
    }

    /// Whether a sorted operation is the last one of its queue, and whether it is the last one of its stretch.
    fn is_last(&self, index: usize) -> Result<(bool, bool), Stop> {
        let one = element(&self.sorted, index)?;
        Ok(match self.sorted.get(index.saturating_add(1)) {
            None => (true, true),
            Some(next) => {
                let ends = next.stretch != one.stretch;
                (ends || next.processor != one.processor, ends)
            }
        })
    }

    /// Finds of each operation the one that ends first from there on.
    fn find_soonest(&mut self) -> Result<(), Stop> {
        let mut soonest = 0;
        for index in (0..self.sorted.len()).rev() {
            let one = element(&self.sorted, index)?;
            if self.is_last(index)?.0 || one.end <= self.end_of(soonest)? {
                soonest = index;
            }
            replace(&mut self.sorted, index, Sorted { soonest, ..one })?;
        }
        Ok(())
    }

    /// When a sorted operation ends.
    fn end_of(&self, index: usize) -> Result<u64, Stop> {
        Ok(element(&self.sorted, index)?.end)
    }

    /// When it begins.
    fn begin_of(&self, index: usize) -> Result<u64, Stop> {
        Ok(element(&self.sorted, index)?.begin)
    }

    /// Places the operations of all stretches.
    fn place_all(&mut self, alloc: Global) -> Result<(), Stop> {
        let mut start = 0;
        for index in 0..self.sorted.len() {
            let (ends_queue, ends_stretch) = self.is_last(index)?;
            if ends_queue {
                let end = index.saturating_add(1);
                self.queues.push(Queue { next: start, end })?;
                start = end;
            }
            if ends_stretch {
                self.place_stretch(alloc)?;
                self.queues.clear();
            }
        }
        Ok(())
    }

    /// Places the operations in the queues. Where each one that could be next waits for others, those that come before one another
    /// are placed together if they make no version.
    fn place_stretch(&mut self, alloc: Global) -> Result<(), Stop> {
        for _ in 0..=self.sorted.len() {
            let Some(soonest) = self.soonest()? else {
                return Ok(());
            };
            match self.ready(self.end_of(soonest)?)? {
                Some(queue) => self.place_next(queue)?,
                None => self.place_knot(alloc, soonest)?,
            }
        }
        Ok(())
    }

    /// The operation in the queues that ends first.
    fn soonest(&self) -> Result<Option<usize>, Stop> {
        let mut found = None;
        let mut least = u64::MAX;
        for queue in self.queues.iter() {
            if queue.next >= queue.end {
                continue;
            }
            let soonest = element(&self.sorted, queue.next)?.soonest;
            let end = self.end_of(soonest)?;
            if found.is_none() || end < least {
                found = Some(soonest);
                least = end;
            }
        }
        Ok(found)
    }

    /// The queue whose next operation begins first, if that had begun when the first one ended.
    fn ready(&self, end: u64) -> Result<Option<usize>, Stop> {
        let mut found = None;
        let mut least = u64::MAX;
        for (number, queue) in self.queues.iter().enumerate() {
            if queue.next >= queue.end {
                continue;
            }
            let begin = self.begin_of(queue.next)?;
            if begin <= end && (found.is_none() || begin < least) {
                found = Some(number);
                least = begin;
            }
        }
        Ok(found)
    }

    /// Places the next operation of a queue.
    fn place_next(&mut self, number: usize) -> Result<(), Stop> {
        let queue = element(&self.queues, number)?;
        self.order.push(element(&self.sorted, queue.next)?.place)?;
        let next = queue.next.saturating_add(1);
        replace(&mut self.queues, number, Queue { next, ..queue })
    }

    /// Adds the operations of a queue up to one of them to a knot.
    fn extend(&self, knot: &mut Knot, number: usize, last: usize) -> Result<(), Stop> {
        let run = knot.runs.len();
        let first = element(&knot.reach, number)?;
        knot.runs.push(Run {
            first,
            last,
            before: knot.latest,
            before_run: knot.latest_run,
        })?;
        for index in first..=last {
            if self.begin_of(knot.latest)? < self.begin_of(index)? {
                knot.latest = index;
                knot.latest_run = run;
            }
        }
        replace(&mut knot.reach, number, last.saturating_add(1))
    }

    /// What comes before the next operation of the queue in which the first one ends, and so before itself.
    fn knot(&self, alloc: Global, soonest: usize) -> Result<Knot, Stop> {
        let mut knot = Knot {
            runs: Vec::new(alloc),
            reach: Vec::with_capacity(alloc, self.queues.len())?,
            latest: soonest,
            latest_run: 0,
        };
        for queue in self.queues.iter() {
            knot.reach.push(queue.next)?;
        }
        for (number, queue) in self.queues.iter().enumerate() {
            if queue.next <= soonest && soonest < queue.end {
                self.extend(&mut knot, number, soonest)?;
            }
        }
        for _ in 0..self.sorted.len() {
            if !self.grow(&mut knot)? {
                break;
            }
        }
        Ok(knot)
    }

    /// Adds to a knot what had ended before an operation in it began, and answers whether there was any.
    fn grow(&self, knot: &mut Knot) -> Result<bool, Stop> {
        let mut has_grown = false;
        for (number, queue) in self.queues.iter().enumerate() {
            let first = element(&knot.reach, number)?;
            if first >= queue.end {
                continue;
            }
            let last = element(&self.sorted, first)?.soonest;
            if self.end_of(last)? < self.begin_of(knot.latest)? {
                self.extend(knot, number, last)?;
                has_grown = true;
            }
        }
        Ok(has_grown)
    }

    /// Places a knot, or shows by it that there are no versions.
    fn place_knot(&mut self, alloc: Global, soonest: usize) -> Result<(), Stop> {
        let knot = self.knot(alloc, soonest)?;
        for (number, run) in knot.runs.iter().enumerate() {
            for index in run.first..=run.last {
                let place = element(&self.sorted, index)?.place;
                if let Some(access) = self.site.at(place) {
                    if access.kind.is_making() {
                        return Err(self.round(alloc, &knot, (number, index))?);
                    }
                }
                self.order.push(place)?;
            }
        }
        for (number, reach) in knot.reach.iter().enumerate() {
            let queue = element(&self.queues, number)?;
            let next = *reach;
            replace(&mut self.queues, number, Queue { next, ..queue })?;
        }
        Ok(())
    }

    /// The round from an operation of this run of a knot to itself.
    fn round(&self, alloc: Global, knot: &Knot, maker: (usize, usize)) -> Result<Stop, Stop> {
        let mut through = Vec::new(alloc);
        let (mut number, mut at) = maker;
        for _ in 0..=knot.runs.len() {
            let run = element(&knot.runs, number)?;
            if run.last != at {
                through.push(element(&self.sorted, run.last)?.place)?;
            }
            if number == 0 {
                break;
            }
            at = run.before;
            number = run.before_run;
            through.push(element(&self.sorted, at)?.place)?;
        }
        for queue in self.queues.iter() {
            if queue.next < maker.1 && maker.1 < queue.end {
                through.push(element(&self.sorted, queue.next)?.place)?;
            }
        }
        let maker = element(&self.sorted, maker.1)?.place;
        Ok(Stop::Refuted(Witness::Round { maker, through }))
    }
}

impl Chains<'_> {
    /// All operations, those of each stretch in an order that times allow if they count, and else in the order of the trace.
    pub fn in_order(&self, alloc: Global) -> Result<Vec<usize>, Stop> {
        if self.site.timed {
            let mut queues = Queues::new(alloc, self)?;
            queues.place_all(alloc)?;
            return Ok(queues.order);
        }
        let mut order = Vec::with_capacity(alloc, self.site.accesses.len())?;
        for place in 0..self.site.accesses.len() {
            order.push(place)?;
        }
        Ok(order)
    }
}
