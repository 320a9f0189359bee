//! What a node did in a turn.

ghost use Rattle.std.specs.Prelude.{◌≡◌, ◌+◌};
ghost use Rattle.sci_policy.specs.Turn.{capped};

use sci_words::Event;

/// What a node did in a turn.
#[derive(Clone, Copy, Debug, PartialEq, Eq)]
pub struct Progress {
    /// How many answers it accepted.
    pub accepted: u32,
    /// How many requests it served or refused. One that is kept doesn't count.
    pub served: u32,
    /// Whether it sent an answer.
    pub replied: bool,
    /// Whether it sent a request.
    pub asked: bool,
    /// A line whose pending operation can be performed, if the policy found one.
    pub ready: Option<u8>,
}

/// One more, or the most that there is.
fn one_more(count: u32) -> u32
    ensures { result ≡ capped (count + 1) }
{
    if count < u32::MAX { count + 1 } else { count }
}

impl Progress {
    ghost use Rattle.std.specs.Prelude.{◌≡◌, ◌++◌, ◌∷◌, [], List, None};
    ghost use Rattle.sci_words.specs.declared.event.Event.{Event};
    ghost use Rattle.sci_policy.specs.Turn.{Counts, counted, is_idle};

    /// A turn that has done nothing yet.
    pub fn new() -> Progress
        ensures nothing { Counts [] result }
        ensures ready { result.ready ≡ None }
    {
        Progress {
            accepted: 0,
            served: 0,
            replied: false,
            asked: false,
            ready: None,
        }
    }

    /// Counts an event that the node made. A count stays at 2^32 - 1 once it is there.
    pub fn count(&mut self, event: &Event)
        ensures more { self.new ≡ counted self.old event.now }
        ensures counted { (events : List Event) → Counts events self.old →
            Counts (events ++ event.now ∷ []) self.new }
    {
        match event {
            Event::Accept { .. } => self.accepted = one_more(self.accepted),
            Event::Serve { .. } | Event::Refuse { .. } => self.served = one_more(self.served),
            Event::Reply { .. } => self.replied = true,
            Event::Ask { .. } => self.asked = true,
            Event::Issue { .. } | Event::Perform { .. } => {}
        }
    }

    /// Whether nothing was done, and nothing can be performed.
    pub fn is_idle(&self) -> bool
        ensures { result ≡ is_idle self.now }
    {
        self.accepted == 0
            && self.served == 0
            && !self.replied
            && !self.asked
            && self.ready.is_none()
    }
}
