//! What happened to one line of memory.

ghost use Rattle.std.specs.Prelude.{◌≡◌, ◌≤◌, count_by, length, IfOk};
ghost use Rattle.sci_words.specs.declared.limits.TheConstants.{MAX_EVENTS};
ghost use Rattle.sci_statistics.specs.Measures.{enters, has_made, serves};
ghost use Rattle.sci_statistics.specs.Figures.{line_figures, on_line as on_line_of};

use crate::kind::Access;
use crate::levels::{Level, LevelFigures};
use crate::passage::Passage;
use sci_packets::Command;
use std::alloc::{AllocError, Global};

/// What happened to one line of memory.
#[derive(Clone, Copy)]
pub struct LineFigures {
    /// Loads that were performed.
    pub loads: u64,
    /// Stores and lock operations that were performed.
    pub makers: u64,
    /// Caches that entered the line's list: reads that its home served.
    pub joins: u64,
    /// Entries that a head put out of the list.
    pub purges: u64,
    /// Entries that left the list from behind another.
    pub rollouts: u64,
    /// Only entries that left the list and gave the contents back.
    pub write_backs: u64,
    /// Only entries that left the list under a fresh home.
    pub clears: u64,
    /// Heads of the list that came to write under a fresh home.
    pub claims: u64,
    /// Old heads that gave the contents to a new one, which has the authority then.
    pub hand_overs: u64,
    /// How many members its list had behind each enabled event about it.
    pub members: LevelFigures,
    /// The enabled events about it.
    pub events: u64,
}

/// The enabled events about a line. Refused if memory is.
fn on_line(alloc: Global, passages: &[Passage], line: u8) -> Result<Vec<Passage>, AllocError>
    ensures found { IfOk result (λ found. found.items ≡ on_line_of line passages.now) }
    ensures few { IfOk result (λ found. length found.items ≤ length passages.now) }
{
    let mut found = Vec::new(alloc);
    for it in passages {
        if it.is_on(line) {
            found.push(*it)?;
        }
    }
    Ok(found)
}

/// How many operations were performed that do this.
fn made_count(passages: &[Passage], access: Access) -> u64
    ensures { result ≡ count_by (has_made access) passages.now }
{
    passages.iter().filter(|it| it.has_made(access)).count() as u64
}

/// How many caches entered a list.
fn joined_count(passages: &[Passage]) -> u64
    ensures { result ≡ count_by enters passages.now }
{
    passages.iter().filter(|it| it.enters()).count() as u64
}

/// How many requests with this command were served and got this answer.
fn served_count(passages: &[Passage], request: Command, answer: Command) -> u64
    ensures { result ≡ count_by (serves request answer) passages.now }
{
    passages
        .iter()
        .filter(|it| it.serves(request, answer))
        .count() as u64
}

impl LineFigures {
    /// What happened to a line. Requires that there are at most 500,000 events. Refused if memory is.
    #[tactic(auto, unfolding(crate::specs::Figures::line_figures))]
    pub fn of(alloc: Global, passages: &[Passage], line: u8) -> Result<LineFigures, AllocError>
        requires { length passages.now ≤ MAX_EVENTS }
        ensures { IfOk result (λ figures. figures ≡ line_figures (on_line_of line passages.now)) }
    {
        let own = on_line(alloc, passages, line)?;
        Ok(LineFigures {
            loads: made_count(&own, Access::Load),
            makers: made_count(&own, Access::Maker),
            joins: joined_count(&own),
            purges: served_count(&own, Command::Purge, Command::Purged),
            rollouts: served_count(&own, Command::Roll, Command::Rolled),
            write_backs: served_count(&own, Command::Wback, Command::Wbok),
            clears: served_count(&own, Command::Clear, Command::Wbok),
            claims: served_count(&own, Command::Claim, Command::Wbok),
            hand_overs: served_count(&own, Command::Cread, Command::Cdata),
            members: LevelFigures::of(&own, Level::Members),
            events: own.len() as u64,
        })
    }
}
