//! The operations of a chart: where each was issued, and where it was performed.

ghost use Rattle.std.specs.Prelude.{◌<◌, IfSome, length};

use crate::mark::Mark;
use crate::sights::Spot;
use std::alloc::{AllocError, Global};

/// So many lines stand side by side at a column at most; more stand one on another.
const TRACKS: u8 = 4;

/// An operation that was issued and isn't performed.
#[derive(Clone, Copy)]
struct Pending {
    spot: Spot,
    /// The number of its event's line in the schedule.
    number: u64,
    row: Option<u32>,
    track: u8,
}

/// An operation that was performed in a row.
#[derive(Clone, Copy)]
pub struct Wait {
    pub node: u8,
    /// The row where it was issued, unless that was before the first row.
    pub issued: Option<u32>,
    /// The row where it was performed.
    pub performed: u32,
    /// The events between its Issue and its Perform, of all nodes.
    pub events: u64,
    /// Which of the lines beside the column is its own, from 0.
    pub track: u8,
}

/// The operations that were issued. A second pass over the schedule asks for the wait of each that was performed in a row once
/// more, in their order.
#[derive(Drop)]
pub struct Waits {
    pending: Vec<Pending>,
    performed: Vec<Wait>,
    /// How many of those that were performed were asked for.
    asked: usize,
}

impl Waits {
    /// No operation.
    pub fn new(alloc: Global) -> Waits {
        Waits {
            pending: Vec::new(alloc),
            performed: Vec::new(alloc),
            asked: 0,
        }
    }

    /// The operations that were performed in rows.
    pub fn performed(&self) -> &[Wait] {
        &self.performed
    }

    /// Whether a line beside a node's column is that of a pending operation.
    fn has_track(&self, node: u8, track: u8) -> bool {
        self.pending
            .iter()
            .any(|it| it.spot.node == node && it.track == track)
    }

    /// The first line beside a node's column that no pending operation has; the last one, if all have.
    fn free_track(&self, node: u8) -> u8 {
        for track in 0..TRACKS {
            if !self.has_track(node, track) {
                return track;
            }
        }
        TRACKS
    }

    /// The place of the operation that is pending at a node about a line.
    fn place_of(&self, spot: Spot) -> Option<usize>
        ensures { IfSome result (λ place. place < length self.now.pending.items) }
    {
        for place in 0..self.pending.len() {
            let it = self.pending[place];
            if it.spot.node == spot.node && it.spot.line == spot.line {
                return Some(place);
            }
        }
        None
    }

    /// Notes what an event on a line of the schedule did, in a row or before the first one. How many events an operation waited
    /// that it performed. Refused if memory is.
    pub fn note(
        &mut self,
        mark: &Mark,
        spot: Spot,
        number: u64,
        row: Option<u32>,
    ) -> Result<Option<u64>, AllocError> {
        match mark {
            Mark::Issued => {
                let track = self.free_track(spot.node);
                self.pending.push(Pending {
                    spot,
                    number,
                    row,
                    track,
                })?;
                Ok(None)
            }
            Mark::Performed => self.end(spot, number, row),
            _ => Ok(None),
        }
    }

    /// Notes that the operation that is pending at a spot is performed. How many events it waited.
    fn end(
        &mut self,
        spot: Spot,
        number: u64,
        row: Option<u32>,
    ) -> Result<Option<u64>, AllocError> {
        let Some(place) = self.place_of(spot) else {
            return Ok(None);
        };
        let it = self.pending.swap_remove(place);
        let events = number.saturating_sub(it.number).saturating_sub(1);
        if let Some(performed) = row {
            self.performed.push(Wait {
                node: spot.node,
                issued: it.row,
                performed,
                events,
                track: it.track,
            })?;
        }
        Ok(Some(events))
    }

    /// How many events the operation waited that is performed in the next row where one is.
    pub fn next_wait(&mut self) -> Option<u64> {
        let place = self.asked;
        self.asked = self.asked.saturating_add(1);
        self.performed.get(place).map(|it| it.events)
    }
}
