//! What is done with a request that has come.

use sci_words::Event;

/// What is done with a request that has come.
#[derive(Clone, Copy, Debug, PartialEq, Eq)]
pub enum Decision {
    /// It stays where it is, to be looked at again in a later turn.
    Keep,
    /// It is answered as busy.
    Refuse,
    /// It is served.
    Serve,
}

impl Decision {
    ghost use Rattle.std.specs.Prelude.{◌≡◌};
    ghost use Rattle.sci_policy.specs.Turn.{decided_event};

    /// The event by which a node takes the request of another, or None if it is kept.
    pub fn event(&self, from: u8, node: u8) -> Option<Event>
        ensures { result ≡ decided_event self.now from node }
    {
        match self {
            Decision::Keep => None,
            Decision::Refuse => Some(Event::Refuse { from, node }),
            Decision::Serve => Some(Event::Serve { from, node }),
        }
    }
}
