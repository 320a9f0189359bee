//! How many events of each kind there were.

ghost use Rattle.std.specs.Prelude.{◌≡◌, count_by, not};
ghost use Rattle.sci_statistics.specs.{Measures.{comes, is_flag}, Figures.{event_figures, tally_of}};

use crate::passage::Passage;
use sci_words::EventKind;

/// How many of some events were enabled when they came, and how many were not.
#[derive(Clone, Copy)]
pub struct Tally {
    pub enabled: u64,
    pub not_enabled: u64,
}

/// How many events there were: all of them, and those of each kind.
#[derive(Clone, Copy)]
pub struct EventFigures {
    pub all: Tally,
    pub issue: Tally,
    pub perform: Tally,
    pub ask: Tally,
    pub serve: Tally,
    pub refuse: Tally,
    pub reply: Tally,
    pub accept: Tally,
}

/// How many events of a kind there were, enabled or not as said.
pub(crate) fn count_of(passages: &[Passage], kind: EventKind, enabled: bool) -> u64
    ensures { result ≡ count_by (comes kind enabled) passages.now }
{
    passages.iter().filter(|it| it.comes(kind, enabled)).count() as u64
}

/// How many events were enabled, or were not.
fn count_all(passages: &[Passage], enabled: bool) -> u64
    ensures { result ≡ count_by (λ p. is_flag enabled p.enabled) passages.now }
{
    passages.iter().filter(|it| it.enabled == enabled).count() as u64
}

impl Tally {
    /// The tally of the events of a kind.
    fn of(passages: &[Passage], kind: EventKind) -> Tally
        ensures { result ≡ tally_of kind passages.now }
    {
        Tally {
            enabled: count_of(passages, kind, true),
            not_enabled: count_of(passages, kind, false),
        }
    }
}

impl EventFigures {
    /// How many events there were.
    #[tactic(auto, unfolding(crate::specs::Figures::event_figures))]
    pub fn of(passages: &[Passage]) -> EventFigures
        ensures { result ≡ event_figures passages.now }
    {
        EventFigures {
            all: Tally {
                enabled: count_all(passages, true),
                not_enabled: count_all(passages, false),
            },
            issue: Tally::of(passages, EventKind::Issue),
            perform: Tally::of(passages, EventKind::Perform),
            ask: Tally::of(passages, EventKind::Ask),
            serve: Tally::of(passages, EventKind::Serve),
            refuse: Tally::of(passages, EventKind::Refuse),
            reply: Tally::of(passages, EventKind::Reply),
            accept: Tally::of(passages, EventKind::Accept),
        }
    }
}
