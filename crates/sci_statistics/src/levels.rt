//! How many of the things that begin and end there are at once.

ghost use Rattle.std.specs.Prelude.{◌≡◌, ◌≤◌, length};
ghost use Rattle.sci_words.specs.declared.limits.TheConstants.{MAX_EVENTS};
ghost use Rattle.sci_statistics.specs.Levels.{begins as begins_of, ends as ends_of, level_figures};

use crate::passage::Passage;
use sci_packets::Command;

/// What begins and ends.
#[derive(Clone, Copy)]
pub enum Level {
    /// A packet is under way from the event that sends it to the one that takes it.
    Packets,
    /// A cache is a member of a line's list from the Serve of its read on, to the Serve of its Purge, Roll, Wback or Clear.
    Members,
}

/// How many there were at once behind some events.
#[derive(Clone, Copy)]
pub struct LevelFigures {
    /// The most.
    pub greatest: u64,
    /// How many behind each event, added up.
    pub total: u64,
}

impl Passage {
    /// Whether one more is there from this event on.
    #[tactic(auto, unfolding(crate::specs::Levels::begins))]
    fn begins(&self, level: Level) -> bool
        ensures { result ≡ begins_of level self.now }
    {
        match level {
            Level::Packets => self.has_sent(),
            Level::Members => self.enters(),
        }
    }

    /// Whether one fewer is there from this event on.
    #[tactic(auto, unfolding(crate::specs::Levels::ends))]
    fn ends(&self, level: Level) -> bool
        ensures { result ≡ ends_of level self.now }
    {
        match level {
            Level::Packets => self.taken.is_some(),
            Level::Members => {
                self.serves(Command::Purge, Command::Purged)
                    || self.serves(Command::Roll, Command::Rolled)
                    || self.serves(Command::Wback, Command::Wbok)
                    || self.serves(Command::Clear, Command::Wbok)
            }
        }
    }
}

impl LevelFigures {
    /// How many there were at once behind each of these events. Requires that there are at most 500,000 events.
    #[tactic(auto, unfolding(crate::specs::Levels::level_figures))]
    pub fn of(passages: &[Passage], level: Level) -> LevelFigures
        requires { length passages.now ≤ MAX_EVENTS }
        ensures { result ≡ level_figures level passages.now }
    {
        let (mut begun, mut ended) = (0u64, 0u64);
        let mut figures = LevelFigures {
            greatest: 0,
            total: 0,
        };
        for it in passages {
            begun += u64::from(it.begins(level));
            ended += u64::from(it.ends(level));
            let there = begun.saturating_sub(ended);
            figures.greatest = figures.greatest.max(there);
            figures.total += there;
        }
        figures
    }
}
