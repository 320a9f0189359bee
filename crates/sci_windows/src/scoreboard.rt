//! An audit entry by entry: each operation is told when it takes effect, and is judged at once.

use crate::line_so_far::LineSoFar;
use crate::score::Score;
use sci_history::Entry;
use sci_words::{Line, Stamped};
use std::alloc::{AllocError, Global};
use std::marker::Model;

/// What the lines of a run of some nodes have after the operations that were told so far. It keeps no entries. Contracts see the
/// number of nodes, and each line with where each node stands on it.
#[derive(Drop)]
pub struct Scoreboard {
    nodes: u8,
    lines: Vec<LineSoFar>,
}

impl Model for Scoreboard {
    ghost use Rattle.sci_windows.specs.Scoreboard.{Board, IsBoard};

    ghost Value = { Board };

    ghost view = { λ board. record { nodes = board.nodes; lines = board.lines.items } };

    ghost invariant = { λ board. IsBoard (record { nodes = board.nodes; lines = board.lines.items }) };
}

impl Scoreboard {
    ghost use Rattle.std.specs.Prelude.{◌≡◌, ◌≢◌, ◌<◌, ◌≤◌, IfOk, length};
    ghost use Rattle.sci_words.specs.declared.limits.TheConstants.{MAX_LINES, MAX_NODES, WORDS_PER_LINE};
    ghost use Rattle.sci_windows.specs.declared.score.Score.TheVariants.{Taken};
    ghost use Rattle.sci_windows.specs.Scoreboard.{IsScore, empty_board, line_of, with_begun, with_told};

    /// Nothing was told yet, and each line has zero words at version 0. Refused if memory is. Requires at most 16 nodes and at
    /// most 64 lines.
    pub fn new(alloc: Global, nodes: u8, lines: u8) -> Result<Scoreboard, AllocError>
        requires nodes { nodes ≤ MAX_NODES }
        requires lines { lines ≤ MAX_LINES }
        ensures { IfOk result (λ board. board ≡ empty_board nodes lines) }
    {
        let zero = Stamped {
            line: Line::zero(),
            version: 0,
        };
        Ok(Scoreboard {
            nodes,
            lines: Vec::from_elem(alloc, LineSoFar::begun(zero), lines as usize)?,
        })
    }

    /// The number of nodes, at most 16.
    pub fn nodes(&self) -> u8
        ensures nodes { result ≡ self.now.nodes }
        ensures few { result ≤ MAX_NODES }
    {
        self.nodes
    }

    /// The number of lines, at most 64.
    pub fn lines(&self) -> u8
        ensures lines { result ≡ length self.now.lines }
        ensures few { result ≤ MAX_LINES }
    {
        self.lines.len() as u8
    }

    /// The contents of a line after what was told. Requires that there is such a line.
    pub fn contents(&self, line: u8) -> Stamped
        requires { line < length self.now.lines }
        ensures { result ≡ (line_of self.now line).contents }
    {
        self.lines[line as usize].contents
    }

    /// Begins a line with these contents. What was told of it before is forgotten. Requires that there is such a line.
    pub fn begin(&mut self, line: u8, contents: Stamped)
        requires { line < length self.old.lines }
        ensures { self.new ≡ with_begun self.old line contents }
    {
        self.lines[line as usize] = LineSoFar::begun(contents);
    }

    /// Says of an entry whether it goes on from what was told, and takes it if it does. Else the board stays. It takes constant
    /// time and no memory. Requires that the board has the entry's node and line, and that its word is below 8.
    pub fn tell(&mut self, entry: &Entry) -> Score
        requires node { entry.now.node < self.old.nodes }
        requires line { entry.now.op.line < length self.old.lines }
        requires word { entry.now.op.word < WORDS_PER_LINE }
        ensures score { IsScore (line_of self.old entry.now.op.line) entry.now result }
        ensures taken { result ≡ Taken → self.new ≡ with_told self.old entry.now }
        ensures same { result ≢ Taken → self.new ≡ self.old }
    {
        let line = &mut self.lines[entry.op.line as usize];
        let score = line.score(entry);
        if score == Score::Taken {
            line.take(entry);
        }
        score
    }
}
