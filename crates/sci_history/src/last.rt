//! The contents of all lines at one moment.

ghost use Rattle.std.specs.Prelude.{◌≡◌, ◌≤◌, ◌<◌, length, replicate, slice_set};
ghost use Rattle.sci_words.specs.{declared.limits.TheConstants.{MAX_LINES}, Stamped.{zero_stamped}};
ghost use Rattle.sci_history.specs.Memory.{stamped_at};

use sci_words::{Line, MAX_LINES, Stamped};
use std::marker::Model;

const LINES: usize = MAX_LINES as usize;

/// The last contents of each line: 1 to 64 stamped lines, in place. Contracts see the list of them.
#[derive(Drop)]
pub struct Last {
    lines: u8,
    contents: [Stamped; LINES],
}

impl Model for Last {
    ghost use Rattle.std.specs.Prelude.{◌≡◌, ◌≤◌, List, length, take};
    ghost use Rattle.sci_words.specs.declared.{stamped.Stamped.{Stamped}, limits.TheConstants.{MAX_LINES}};

    ghost Value = { List Stamped };

    ghost view = { λ last. take last.lines last.contents };

    ghost invariant = { λ last. (1 ≤ last.lines) × (last.lines ≤ MAX_LINES) × (length last.contents ≡ MAX_LINES) };
}

impl Last {
    /// That many lines of zero words at version 0. Requires that there are 1 to 64.
    pub fn zero(lines: u8) -> Last
        requires some { 1 ≤ lines }
        requires few { lines ≤ MAX_LINES }
        ensures { result ≡ replicate lines zero_stamped }
    {
        let zero = Stamped {
            line: Line::zero(),
            version: 0,
        };
        Last {
            lines,
            contents: [zero; LINES],
        }
    }

    /// The number of lines, 1 to 64.
    pub fn lines(&self) -> u8
        ensures lines { result ≡ length self.now }
        ensures some { 1 ≤ result }
        ensures few { result ≤ MAX_LINES }
    {
        self.lines
    }

    /// The contents of a line. Requires that there is such a line.
    pub fn get(&self, line: u8) -> Stamped
        requires { line < length self.now }
        ensures { result ≡ stamped_at self.now line }
    {
        self.contents[line as usize]
    }

    pub(crate) fn copy(&self) -> Last
        ensures { result ≡ self.now }
    {
        let mut copy = Last::zero(self.lines);
        copy.contents.copy_from_slice(&self.contents);
        copy
    }

    /// Replaces the contents of a line, and no other's. Requires that there is such a line.
    pub fn set(&mut self, line: u8, stamped: Stamped)
        requires { line < length self.old }
        ensures { self.new ≡ slice_set self.old line stamped }
    {
        self.contents[line as usize] = stamped;
    }
}
