//! Operations that are issued and not yet performed.

use sci_cache::LineSet;
use sci_words::Op;
use std::alloc::{AllocError, Global};
use std::marker::Model;

/// An operation that a node has issued and not yet performed.
#[derive(Clone, Copy, Debug, PartialEq, Eq)]
pub struct Pending {
    /// The node's number of the operation in the order of issue, from 0.
    pub serial: u32,
    /// The operation.
    pub op: Op,
}

/// For each line the operation that is pending on it, if one is. Contracts see it as a list.
#[derive(Drop)]
pub(crate) struct PendingOps {
    ops: Vec<Option<Pending>>,
    /// The lines on which one is.
    lines: LineSet,
}

impl Model for PendingOps {
    ghost use Rattle.std.specs.Prelude.{List, Option};
    ghost use Rattle.sci_core.specs.{declared.pending.Pending.{Pending}, PendingSet.{IsPendingSet}};

    ghost Value = { List (Option Pending) };

    ghost view = { λ pending. pending.ops.items };

    ghost invariant = { λ pending. IsPendingSet pending.lines pending.ops.items };
}

impl PendingOps {
    ghost use Rattle.std.specs.Prelude.{◌≡◌, ◌<◌, ◌≤◌, ℕ, Some, None, IfOk, is_some, length};
    ghost use Rattle.std.specs.Prelude.{option_copied, replicate, slice_index_or, slice_set};
    ghost use Rattle.sci_words.specs.declared.limits.TheConstants.{MAX_LINES};
    ghost use Rattle.sci_cache.specs.LineSet.{is_in};

    /// No operation pending on any of this many lines. Refused if memory is.
    pub(crate) fn new(alloc: Global, lines: u8) -> Result<PendingOps, AllocError>
        requires { lines ≤ MAX_LINES }
        ensures { IfOk result (λ pending. pending ≡ replicate lines None) }
    {
        let mut ops = Vec::with_capacity(alloc, usize::from(lines))?;
        for _line in 0..lines {
            ops.push(None)?;
        }
        Ok(PendingOps {
            ops,
            lines: LineSet::new(),
        })
    }

    /// A copy. Refused if memory is.
    pub(crate) fn try_clone(&self, alloc: Global) -> Result<PendingOps, AllocError>
        ensures { IfOk result (λ pending. pending ≡ self.now) }
    {
        let mut ops = Vec::with_capacity(alloc, self.ops.len())?;
        ops.extend_from_slice(&self.ops)?;
        Ok(PendingOps {
            ops,
            lines: self.lines,
        })
    }

    /// The operation that is pending on a line, or None if there is none.
    pub(crate) fn get(&self, line: u8) -> Option<&Pending>
        ensures { option_copied result ≡ slice_index_or self.now line None }
    {
        match self.ops.get(usize::from(line)) {
            Some(pending) => pending.as_ref(),
            None => None,
        }
    }

    /// Makes an operation pending on a line. Requires that there is such a line.
    pub(crate) fn put(&mut self, line: u8, pending: Pending)
        requires { line < length self.old }
        ensures { self.new ≡ slice_set self.old line (Some pending) }
    {
        self.ops[usize::from(line)] = Some(pending);
        self.lines.put(line, true);
    }

    /// Takes away what is pending on a line. Requires that there is such a line.
    pub(crate) fn clear(&mut self, line: u8)
        requires { line < length self.old }
        ensures { self.new ≡ slice_set self.old line None }
    {
        self.ops[usize::from(line)] = None;
        self.lines.put(line, false);
    }

    /// The lines on which an operation is pending.
    pub(crate) fn lines(&self) -> LineSet
        ensures { (line : ℕ) → is_in result line ≡ is_some (slice_index_or self.now line None) }
    {
        self.lines
    }
}
