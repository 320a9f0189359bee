//! The way to an outcome of a script: the order of its events, and a schedule of the machine that goes through it.

ghost use Rattle.std.specs.{Prelude.{◌≡◌, ◌↔◌, ◌<◌, ◌*◌, ◌++◌, ◌∷◌, [], ℕ, List, None, Some, length, map, slice_index_or, IfErr, IfOk, IfSome, OnOk, true}, List.{All, Contains}};
ghost use Rattle.sci_words.specs.declared.event.Event.{Event};
ghost use Rattle.sci_core.specs.{Core.{opening}, Settling.{AreMade}, Size.{IsMachineSize, size_of}};
ghost use Rattle.sci_orders.specs.declared.fault.OrdersFault.TheVariants.{TooMany};
ghost use Rattle.sci_orders.specs.Orders.{HasRun, IsScriptOf};
ghost use Rattle.sci_orders.specs.Eager.{AreTooMany, IsFoundIn};
ghost use Rattle.sci_orders.specs.Positions.{AreWithin, Fits, IsReachedIn, IsStep, Position, lists_of, opening_position, operation_count, own_of, position_of, step_at};
ghost use Rattle.sci_orders.specs.Ways.{AreLevels, IsStepBy, IsWayTo, LeadsTo, event_at as event_at_of, levels_of};
ghost use Rattle.sci_orders.specs.Witness.{any_event, schedule_of as schedule_of_order};

use crate::fault::OrdersFault;
use crate::orders::Orders;
use crate::schedule::schedule_of;
use crate::standing::Standing;
use sci_words::{Event, Extent};
use std::alloc::{AllocError, Global};

/// An operation of a script.
#[derive(Clone, Copy)]
struct Own {
    /// Its node.
    node: u8,
    /// Its place among the node's operations.
    place: usize,
}

/// A step backwards: a standing of a level, and the event that leads from it.
#[derive(Clone, Copy)]
struct Back {
    /// The standing's place in its level.
    place: usize,
    event: Event,
}

/// Appends two levels. Refused if memory is.
fn push_both(
    levels: &mut Vec<Vec<Standing>>,
    first: Vec<Standing>,
    second: Vec<Standing>,
) -> Result<(), AllocError>
    ensures { OnOk result (levels.new.items ≡ levels.old.items ++ first ∷ second ∷ []) }
{
    levels.push(first)?;
    levels.push(second)?;
    Ok(())
}

impl<'a> Orders<'a> {
    /// The event by which an operation comes one step further.
    fn event_at(&self, standing: &Standing, own: Own) -> Event
        requires fits { Fits (lists_of self.now.operations.now) (position_of standing.now) }
        requires node { own.node < length self.now.operations.now }
        requires place { own.place < length (own_of (lists_of self.now.operations.now) own.node) }
        ensures { result ≡ event_at_of (lists_of self.now.operations.now) (position_of standing.now)
            own.node own.place }
    {
        let node = usize::from(own.node);
        let op = self.operations[node][own.place];
        if standing.answers[node].len() == own.place {
            Event::Issue { node: own.node, op }
        } else {
            Event::Perform {
                node: own.node,
                line: op.line,
            }
        }
    }

    /// Whether a step of an operation leads from one standing to another. Refused if memory is.
    fn leads(
        &self,
        alloc: Global,
        from: &Standing,
        own: Own,
        to: &Standing,
    ) -> Result<bool, AllocError>
        requires fits { Fits (lists_of self.now.operations.now) (position_of from.now) }
        requires node { own.node < length self.now.operations.now }
        requires place { own.place < length (own_of (lists_of self.now.operations.now) own.node) }
        ensures { IfOk result (λ leads. (leads ≡ true) ↔ (step_at (lists_of self.now.operations.now)
            self.now.window (position_of from.now) own.node own.place ≡ Some (position_of to.now))) }
    {
        match from.step(alloc, self, usize::from(own.node), own.place)? {
            Some(next) => Ok(next == *to),
            None => Ok(false),
        }
    }

    /// The event by which an operation of a node leads from one standing to another, if one of them does. Refused if memory
    /// is.
    fn event_of_node(
        &self,
        alloc: Global,
        from: &Standing,
        node: u8,
        to: &Standing,
    ) -> Result<Option<Event>, AllocError>
        requires fits { Fits (lists_of self.now.operations.now) (position_of from.now) }
        requires node { node < length self.now.operations.now }
        ensures some { IfOk result (λ found. IfSome found (IsStepBy (lists_of self.now.operations.now)
            self.now.window (position_of from.now) (position_of to.now))) }
        ensures none { IfOk result (λ found. found ≡ None → (i : ℕ) →
            i < length (own_of (lists_of self.now.operations.now) node) →
            step_at (lists_of self.now.operations.now) self.now.window (position_of from.now) node i
            ≡ Some (position_of to.now) → ⊥) }
    {
        for place in 0..self.operations[usize::from(node)].len() {
            let own = Own { node, place };
            if self.leads(alloc, from, own, to)? {
                return Ok(Some(self.event_at(from, own)));
            }
        }
        Ok(None)
    }

    /// The event that leads from one standing to another, if one does. Refused if memory is.
    fn event_between(
        &self,
        alloc: Global,
        from: &Standing,
        nodes: u8,
        to: &Standing,
    ) -> Result<Option<Event>, AllocError>
        requires fits { Fits (lists_of self.now.operations.now) (position_of from.now) }
        requires nodes { length self.now.operations.now ≡ nodes }
        ensures some { IfOk result (λ found. IfSome found (IsStepBy (lists_of self.now.operations.now)
            self.now.window (position_of from.now) (position_of to.now))) }
        ensures none { IfOk result (λ found. found ≡ None → IsStep (lists_of self.now.operations.now)
            self.now.window (position_of from.now) (position_of to.now) → ⊥) }
    {
        for node in 0..nodes {
            if let Some(event) = self.event_of_node(alloc, from, node, to)? {
                return Ok(Some(event));
            }
        }
        Ok(None)
    }

    /// A step that leads from some standing of a level to another standing. Requires that there is one. Refused if memory is.
    fn back_from(
        &self,
        alloc: Global,
        level: &[Standing],
        nodes: u8,
        to: &Standing,
    ) -> Result<Back, AllocError>
        requires fits { All (Fits (lists_of self.now.operations.now)) (map position_of level.now) }
        requires nodes { length self.now.operations.now ≡ nodes }
        requires some { (p : Position) × Contains (map position_of level.now) p
            × IsStep (lists_of self.now.operations.now) self.now.window p (position_of to.now) }
        ensures { IfOk result (λ back. (back.place < length level.now)
            × ((d : Standing) → IsStepBy (lists_of self.now.operations.now) self.now.window
            (position_of (slice_index_or level.now back.place d)) (position_of to.now) back.event)) }
    {
        for place in 0..level.len() {
            if let Some(event) = self.event_between(alloc, &level[place], nodes, to)? {
                return Ok(Back { place, event });
            }
        }
        unreachable!()
    }

    /// The standings that the search finds after each number of steps, from none on, up to two for each operation. Requires
    /// that each operation is on one of this number of lines. Refused as `last_standings` is.
    fn levels(&self, alloc: Global, lines: u8) -> Result<Vec<Vec<Standing>>, OrdersFault>
        requires { AreWithin lines (lists_of self.now.operations.now) }
        ensures levels { IfOk result (λ levels. AreLevels lines (lists_of self.now.operations.now)
            self.now.window (levels_of levels.items)) }
        ensures long { IfOk result (λ levels. length levels.items
            ≡ operation_count (lists_of self.now.operations.now) * 2) }
        ensures many { IfErr result (λ fault. fault ≡ TooMany →
            AreTooMany lines (lists_of self.now.operations.now) self.now.window) }
    {
        let mut levels = Vec::new(alloc);
        let mut level = self.first_level(alloc, lines)?;
        for own in self.operations {
            for _operation in own {
                let (half, next) = self.next_two(alloc, lines, &level)?;
                push_both(&mut levels, level, half)?;
                level = next;
            }
        }
        Ok(levels)
    }

    /// The events that lead through these levels to a standing, each by a step. Requires that the search finds it after as
    /// many steps as there are levels. Refused if memory is.
    fn order_through(
        &self,
        alloc: Global,
        extent: Extent,
        levels: &[Vec<Standing>],
        last: &Standing,
    ) -> Result<Vec<Event>, AllocError>
        requires within { AreWithin extent.lines (lists_of self.now.operations.now) }
        requires nodes { length self.now.operations.now ≡ extent.nodes }
        requires levels { AreLevels extent.lines (lists_of self.now.operations.now) self.now.window
            (levels_of levels.now) }
        requires reached { IsFoundIn extent.lines (lists_of self.now.operations.now) self.now.window
            (length levels.now) (position_of last.now) }
        ensures leads { IfOk result (λ order. LeadsTo (lists_of self.now.operations.now) self.now.window
            (opening_position extent.lines (lists_of self.now.operations.now)) order.items
            (position_of last.now)) }
        ensures long { IfOk result (λ order. length order.items ≡ length levels.now) }
    {
        let mut order = Vec::new(alloc);
        let mut at = last;
        for taken in 0..levels.len() {
            let level = &levels[levels.len() - 1 - taken];
            let back = self.back_from(alloc, level, extent.nodes, at)?;
            order.push(back.event)?;
            at = &level[back.place];
        }
        order.reverse();
        Ok(order)
    }

    /// The events that lead to an outcome, each by a step. Requires that two steps of each operation lead there, and that there
    /// are as many nodes as the machine has. Refused as `last_standings` is.
    fn order_to(
        &self,
        alloc: Global,
        extent: Extent,
        outcome: &Standing,
    ) -> Result<Vec<Event>, OrdersFault>
        requires within { AreWithin extent.lines (lists_of self.now.operations.now) }
        requires nodes { length self.now.operations.now ≡ extent.nodes }
        requires reached { IsReachedIn extent.lines (lists_of self.now.operations.now) self.now.window
            (operation_count (lists_of self.now.operations.now) * 2) (position_of outcome.now) }
        ensures way { IfOk result (λ order. IsWayTo extent.lines (lists_of self.now.operations.now)
            self.now.window (position_of outcome.now) order.items) }
        ensures many { IfErr result (λ fault. fault ≡ TooMany →
            AreTooMany extent.lines (lists_of self.now.operations.now) self.now.window) }
    {
        let levels = self.levels(alloc, extent.lines)?;
        Ok(self.order_through(alloc, extent, &levels, outcome)?)
    }

    /// A schedule of a machine of this size that is a run of the script and has this outcome: each of its events is enabled
    /// when it comes. Requires that the operations are the machine's, and that two steps of each lead to the outcome, as to
    /// each one of `outcomes`. Refused as `last_standings` is.
    pub fn schedule_to(
        &self,
        alloc: Global,
        extent: Extent,
        limit: u32,
        outcome: &Standing,
    ) -> Result<Vec<Event>, OrdersFault>
        requires size { IsMachineSize (size_of extent limit) }
        requires script { IsScriptOf (size_of extent limit) (lists_of self.now.operations.now) }
        requires nodes { length self.now.operations.now ≡ extent.nodes }
        requires reached { IsReachedIn extent.lines (lists_of self.now.operations.now) self.now.window
            (operation_count (lists_of self.now.operations.now) * 2) (position_of outcome.now) }
        ensures run { IfOk result (λ schedule. HasRun (size_of extent limit)
            (lists_of self.now.operations.now) self.now.window (position_of outcome.now) schedule.items) }
        ensures enabled { IfOk result (λ schedule.
            AreMade any_event (opening (size_of extent limit)) schedule.items) }
        ensures way { IfOk result (λ schedule. (order : List Event)
            × IsWayTo extent.lines (lists_of self.now.operations.now) self.now.window
            (position_of outcome.now) order
            × (schedule.items ≡ schedule_of_order (size_of extent limit) order)) }
        ensures many { IfErr result (λ fault. fault ≡ TooMany →
            AreTooMany extent.lines (lists_of self.now.operations.now) self.now.window) }
    {
        let order = self.order_to(alloc, extent, outcome)?;
        Ok(schedule_of(alloc, extent, &order)?)
    }
}
