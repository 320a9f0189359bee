//! The check of a cycle of operations, each of which stands before the next one in every order that explains a trace.

ghost use Rattle.std.specs.Prelude.{◌≡◌, true, false, IfOk, IfSome, None};
ghost use Rattle.sci_judge.specs.{Access.{AreKnown, is_writing, left_by}, Judgement.{at_address, last_at}, Witness.{IsPath}};
ghost use Rattle.sci_judge.specs.Cycle.{AreAtOneAddress, AreByAddress, HasNoOrderAtAll, IsCycle, IsFirst};

use crate::access::Access;
use crate::checking::are_written_once;
use crate::cycle::{Link, Reason};
use crate::cycling::cycle_of;
use crate::judging::{by_address, operations_at};
use crate::site::Site;
use crate::stretches::Stop;
use crate::trace::Trace;
use crate::witness::Step;
use std::alloc::{AllocError, Global};

/// A trace, with its operations by their addresses.
#[derive(Drop)]
struct Sorted<'a> {
    trace: &'a Trace,
    sorted: &'a [Access],
    timed: bool,
}

/// Whether the first of two operations wrote the word that the second one finds and leaves.
fn reads_from(before: &Access, behind: &Access) -> bool
    ensures { result ≡ true → (is_writing before.now.kind ≡ true)
        × (is_writing behind.now.kind ≡ false)
        × (left_by before.now.kind ≡ left_by behind.now.kind) }
{
    if !before.kind.is_writing() {
        return false;
    }
    if behind.kind.is_writing() {
        return false;
    }
    before.kind.left() == behind.kind.left()
}

impl Sorted<'_> {
    /// Whether two operations are at one address at which each word is written at most once. Refused if memory is.
    fn are_at_one_address(
        &self,
        alloc: Global,
        before: &Access,
        behind: &Access,
    ) -> Result<bool, AllocError>
        requires { AreByAddress self.now.trace.now self.now.sorted.now }
        ensures { IfOk result (λ one. one ≡ true →
            AreAtOneAddress self.now.trace.now before.now behind.now) }
    {
        if before.address != behind.address {
            return Ok(false);
        }
        are_written_once(alloc, operations_at(self.sorted, before.address))
    }

    /// Whether steps show that what leaves the word of one operation stands before what leaves that of another at its address.
    fn are_parted(&self, steps: &[Step], before: &Access, behind: &Access) -> bool
        requires { AreByAddress self.now.trace.now self.now.sorted.now }
        ensures { result ≡ true → IsPath self.now.timed
            (at_address before.now.address self.now.trace.now.accesses.items)
            (last_at before.now.address self.now.trace.now) None steps.now
            (record { low = left_by before.now.kind; high = left_by behind.now.kind }) }
    {
        let site = Site {
            accesses: operations_at(self.sorted, before.address),
            last: self.trace.last.get(&before.address).copied(),
            timed: self.timed,
        };
        site.are_parted(steps, before.kind.left(), behind.kind.left())
    }

    /// Whether the operation of a link stands before the one at a place. True only if it does. Refused if memory is.
    fn is_first(&self, alloc: Global, link: &Link, place: usize) -> Result<bool, AllocError>
        requires { AreByAddress self.now.trace.now self.now.sorted.now }
        ensures { IfOk result (λ first. first ≡ true →
            IsFirst self.now.timed self.now.trace.now link.now place) }
    {
        let accesses = &self.trace.accesses;
        let (Some(before), Some(behind)) = (accesses.get(link.place), accesses.get(place)) else {
            return Ok(false);
        };
        match &link.reason {
            Reason::Program => Ok(before.processor == behind.processor && link.place < place),
            Reason::ReadsFrom => {
                if !reads_from(before, behind) {
                    return Ok(false);
                }
                self.are_at_one_address(alloc, before, behind)
            }
            Reason::Words(steps) => {
                if !self.are_parted(steps, before, behind) {
                    return Ok(false);
                }
                self.are_at_one_address(alloc, before, behind)
            }
        }
    }

    /// Whether links show that an operation stands before itself. True only if they do. Refused if memory is.
    fn is_cycle(&self, alloc: Global, links: &[Link]) -> Result<bool, AllocError>
        requires { AreByAddress self.now.trace.now self.now.sorted.now }
        ensures { IfOk result (λ shown. shown ≡ true →
            IsCycle self.now.timed self.now.trace.now links.now) }
    {
        let Some((first, others)) = links.split_first() else {
            return Ok(false);
        };
        let mut link = first;
        for next in others {
            if !self.is_first(alloc, link, next.place)? {
                return Ok(false);
            }
            link = next;
        }
        let is_first = self.is_first(alloc, link, first.place)?;
        Ok(is_first)
    }
}

/// A cycle of operations, each of which stands before the next one in every order that explains a trace, so that there is no such
/// order; None if no cycle was found. Refused only if memory is.
#[inline(never)]
pub fn order_cycle(
    alloc: Global,
    trace: &Trace,
    timed: bool,
) -> Result<Option<Vec<Link>>, AllocError>
    requires { AreKnown trace.now.accesses.items }
    ensures cycle { IfOk result (λ found.
        IfSome found (λ links. IsCycle timed trace.now links.items)) }
    ensures none { IfOk result (λ found. IfSome found (λ links. HasNoOrderAtAll timed trace.now)) }
{
    let sorted = by_address(alloc, &trace.accesses)?;
    let links = match cycle_of(alloc, trace, &sorted, timed) {
        Ok(links) => links,
        Err(Stop::Memory(error)) => return Err(error),
        Err(Stop::GaveUp | Stop::Refuted(_)) => return Ok(None),
    };
    let checked = Sorted {
        trace,
        sorted: &sorted,
        timed,
    };
    let is_cycle = checked.is_cycle(alloc, &links)?;
    if is_cycle { Ok(Some(links)) } else { Ok(None) }
}
