//! All standings to which a number of steps leads.

ghost use Rattle.std.specs.Prelude.{◌≡◌, ◌<◌, ◌*◌, ◌+◌, ◌++◌, ◌∷◌, [], ℕ, List, None, length, map, option_map, IfErr, IfOk, IfSome, OnOk};
ghost use Rattle.std.specs.List.{All};
ghost use Rattle.sci_words.specs.declared.event.Event.{Event};
ghost use Rattle.sci_core.specs.Size.{IsMachineSize, size_of};
ghost use Rattle.sci_orders.specs.declared.fault.OrdersFault.TheVariants.{TooMany};
ghost use Rattle.sci_orders.specs.Eager.{AddsSteps, AreFoundIn, AreStepsFrom, AreTooMany, AreTooManyFrom, IsFirstIssue, MayIssue};
ghost use Rattle.sci_orders.specs.Positions.{AreOnce, AreReachedIn, AreWithin, Fits, lists_of, opening_position, operation_count, own_of, position_of};
ghost use Rattle.sci_orders.specs.Positions.{is_on, step_on, steps_on};
ghost use Rattle.sci_orders.specs.Orders.{HasRun, IsAmong, IsOrderOf, IsScriptOf};
ghost use Rattle.sci_orders.specs.Witness.{seen};

use crate::fault::OrdersFault;
use crate::standing::Standing;
use sci_words::{Extent, Op};
use std::alloc::{AllocError, Global};

/// The most standings to which a number of steps may lead.
pub const MAX_STANDINGS: usize = 100_000;

const _: () = prove!(MAX_STANDINGS == 100_000);

/// The operations of a script, and how many of them may wait: what says in which orders they can be done.
#[derive(Clone, Copy)]
pub struct Orders<'a> {
    /// Each node's operations, in their order.
    pub operations: &'a [Vec<Op>],
    /// How many operations of a node may wait at a time.
    pub window: usize,
}

/// Operations of a node: those on a line, or all.
#[derive(Clone, Copy)]
struct Among {
    node: usize,
    line: Option<usize>,
}

impl Among {
    /// Whether an operation is on the line, if there is one.
    fn has(self, op: Op) -> bool
        ensures { result ≡ is_on self.line op }
    {
        match self.line {
            Some(line) => usize::from(op.line) == line,
            None => true,
        }
    }
}

impl<'a> Orders<'a> {
    /// An operation of some of a node's comes one step further. None if it isn't one of them, or can't. Refused if memory is.
    fn step_among(
        &self,
        alloc: Global,
        standing: &Standing,
        among: Among,
        i: usize,
    ) -> Result<Option<Standing>, AllocError>
        requires fits { Fits (lists_of self.now.operations.now) (position_of standing.now) }
        requires node { among.node < length self.now.operations.now }
        requires own { i < length (own_of (lists_of self.now.operations.now) among.node) }
        ensures { IfOk result (λ next. option_map position_of next ≡ step_on (lists_of self.now.operations.now)
            self.now.window (position_of standing.now) among.line among.node i) }
    {
        if !among.has(self.operations[among.node][i]) {
            return Ok(None);
        }
        standing.step(alloc, self, among.node, i)
    }

    /// Appends the standings to which one step of a node leads, of some of its operations. Refused if memory is.
    fn push_steps_of(
        &self,
        alloc: Global,
        standing: &Standing,
        among: Among,
        next: &mut Vec<Standing>,
    ) -> Result<(), AllocError>
        requires fits { Fits (lists_of self.now.operations.now) (position_of standing.now) }
        requires node { among.node < length self.now.operations.now }
        ensures { OnOk result (map position_of next.new.items
            ≡ map position_of next.old.items
            ++ steps_on (lists_of self.now.operations.now) self.now.window (position_of standing.now)
            among.line among.node) }
    {
        for i in 0..self.operations[among.node].len() {
            if let Some(further) = self.step_among(alloc, standing, among, i)? {
                next.push(further)?;
            }
        }
        Ok(())
    }

    /// The standing after the first node that may issue its next operation has issued it. None if no node may. Refused if
    /// memory is.
    fn first_issue(
        &self,
        alloc: Global,
        standing: &Standing,
    ) -> Result<Option<Standing>, AllocError>
        requires { Fits (lists_of self.now.operations.now) (position_of standing.now) }
        ensures some { IfOk result (λ found. IfSome found (λ next. IsFirstIssue (lists_of self.now.operations.now)
            self.now.window (position_of standing.now) (position_of next))) }
        ensures none { IfOk result (λ found. found ≡ None → (n : ℕ) →
            MayIssue (lists_of self.now.operations.now) self.now.window (position_of standing.now) n → ⊥) }
    {
        for n in 0..self.operations.len() {
            let next = standing.answers[n].len();
            if next < self.operations[n].len() {
                if let Some(further) = standing.step(alloc, self, n, next)? {
                    return Ok(Some(further));
                }
            }
        }
        Ok(None)
    }

    /// Appends the standings to which one step leads: one, if a node may issue an operation, and else one for each
    /// operation that waits on the first closed line, or anywhere if no line is closed. Refused if memory is.
    fn push_steps(
        &self,
        alloc: Global,
        standing: &Standing,
        next: &mut Vec<Standing>,
    ) -> Result<(), AllocError>
        requires { Fits (lists_of self.now.operations.now) (position_of standing.now) }
        ensures { OnOk result (AddsSteps (lists_of self.now.operations.now) self.now.window
            (position_of standing.now) (map position_of next.old.items) (map position_of next.new.items)) }
    {
        if let Some(issued) = self.first_issue(alloc, standing)? {
            next.push(issued)?;
            return Ok(());
        }
        let line = self.closed_line(standing);
        for node in 0..self.operations.len() {
            self.push_steps_of(alloc, standing, Among { node, line }, next)?;
        }
        Ok(())
    }

    /// The standings to which one step leads from these, each once. Refused if memory is, or if there are more than
    /// 100,000.
    fn next_level(&self, alloc: Global, level: &[Standing]) -> Result<Vec<Standing>, OrdersFault>
        requires { All (Fits (lists_of self.now.operations.now)) (map position_of level.now) }
        ensures steps { IfOk result (λ next. AreStepsFrom (lists_of self.now.operations.now)
            self.now.window (map position_of level.now) (map position_of next.items)) }
        ensures once { IfOk result (λ next. AreOnce (map position_of next.items)) }
        ensures many { IfErr result (λ fault. fault ≡ TooMany → AreTooManyFrom
            (lists_of self.now.operations.now) self.now.window (map position_of level.now)) }
    {
        let mut next = Vec::new(alloc);
        for standing in level {
            self.push_steps(alloc, standing, &mut next)?;
        }
        next.sort()?;
        next.dedup();
        if next.len() > MAX_STANDINGS {
            return Err(OrdersFault::TooMany);
        }
        Ok(next)
    }

    /// The standings to which one step leads from these, and those to which two lead, each once. Requires that each operation is on
    /// one of this number of lines, and that the standings are those after some number of steps. Refused if memory is, or if there
    /// are more than 100,000.
    pub(crate) fn next_two(
        &self,
        alloc: Global,
        lines: u8,
        level: &[Standing],
    ) -> Result<(Vec<Standing>, Vec<Standing>), OrdersFault>
        requires within { AreWithin lines (lists_of self.now.operations.now) }
        requires found { (count : ℕ) × AreFoundIn lines (lists_of self.now.operations.now) self.now.window count (map position_of level.now) }
        ensures found { IfOk result (λ two. (count : ℕ) →
            AreFoundIn lines (lists_of self.now.operations.now) self.now.window count (map position_of level.now) →
            AreFoundIn lines (lists_of self.now.operations.now) self.now.window (count + 1) (map position_of two.0.items)
            × AreFoundIn lines (lists_of self.now.operations.now) self.now.window (count + 2) (map position_of two.1.items)) }
        ensures once_half { IfOk result (λ two. AreOnce (map position_of two.0.items)) }
        ensures once { IfOk result (λ two. AreOnce (map position_of two.1.items)) }
        ensures many { IfErr result (λ fault. fault ≡ TooMany →
            AreTooMany lines (lists_of self.now.operations.now) self.now.window) }
    {
        let half = self.next_level(alloc, level)?;
        let next = self.next_level(alloc, &half)?;
        Ok((half, next))
    }

    /// The standing from which the steps go. Refused if memory is.
    pub(crate) fn first_level(&self, alloc: Global, lines: u8) -> Result<Vec<Standing>, AllocError>
        ensures { IfOk result (λ level. map position_of level.items
            ≡ opening_position lines (lists_of self.now.operations.now) ∷ []) }
    {
        let mut level = Vec::new(alloc);
        level.push(Standing::opening(alloc, lines, self.operations)?)?;
        Ok(level)
    }

    /// The standings to which two steps of each operation lead, each once: in each of them every operation is performed. Requires
    /// that each operation is on one of this number of lines. Refused if memory is, or if some number of steps leads to
    /// more than 100,000 standings.
    pub fn last_standings(&self, alloc: Global, lines: u8) -> Result<Vec<Standing>, OrdersFault>
        requires { AreWithin lines (lists_of self.now.operations.now) }
        ensures reached { IfOk result (λ level. AreReachedIn lines (lists_of self.now.operations.now)
            self.now.window (operation_count (lists_of self.now.operations.now) * 2) (map position_of level.items)) }
        ensures once { IfOk result (λ level. AreOnce (map position_of level.items)) }
        ensures many { IfErr result (λ fault. fault ≡ TooMany →
            AreTooMany lines (lists_of self.now.operations.now) self.now.window) }
    {
        let mut level = self.first_level(alloc, lines)?;
        for own in self.operations {
            for _operation in own {
                level = self.next_two(alloc, lines, &level)?.1;
            }
        }
        Ok(level)
    }

    /// All outcomes of the script on a machine of this size: where its runs end, if each node issues its operations in
    /// their order. They are those of `last_standings`, each once. Each is the end of a run, and each such run ends in one of them.
    /// Requires that the operations are the machine's. Refused as `last_standings` is.
    pub fn outcomes(
        &self,
        alloc: Global,
        extent: Extent,
        limit: u32,
    ) -> Result<Vec<Standing>, OrdersFault>
        requires size { IsMachineSize (size_of extent limit) }
        requires script { IsScriptOf (size_of extent limit) (lists_of self.now.operations.now) }
        ensures reached { IfOk result (λ outcomes. AreReachedIn extent.lines
            (lists_of self.now.operations.now) self.now.window
            (operation_count (lists_of self.now.operations.now) * 2) (map position_of outcomes.items)) }
        ensures once { IfOk result (λ outcomes. AreOnce (map position_of outcomes.items)) }
        ensures each { IfOk result (λ outcomes. All (λ p. (schedule : List Event) × HasRun
            (size_of extent limit) (lists_of self.now.operations.now) self.now.window p schedule)
            (map position_of outcomes.items)) }
        ensures all { IfOk result (λ outcomes. (schedule : List Event) →
            IsOrderOf (lists_of self.now.operations.now) self.now.window (seen (size_of extent limit) schedule) →
            IsAmong (size_of extent limit) (lists_of self.now.operations.now) schedule (map position_of outcomes.items)) }
        ensures many { IfErr result (λ fault. fault ≡ TooMany →
            AreTooMany extent.lines (lists_of self.now.operations.now) self.now.window) }
    {
        self.last_standings(alloc, extent.lines)
    }
}
