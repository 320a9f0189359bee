//! What can happen next in a machine.

ghost use Rattle.std.specs.Prelude.{◌≡◌, ◌≤◌, length, slice_get};
ghost use Rattle.sci_words.specs.Event.{kind_of, kind_word, word_of_kind};

use crate::operation::Op;

/// What a cache asks of a home or of another cache.
#[derive(Clone, Copy, Debug, PartialEq, Eq)]
pub enum AskKind {
    /// A coherent read of the home, with the wish to write (mread64).
    Mread,
    /// A coherent read of the home, with the wish to read alone.
    Fread,
    /// A coherent read of the old head (cread64).
    Cread,
    /// The wish of the head of a fresh list to write.
    Claim,
    /// The wish of a fresh list's only entry to leave.
    Clear,
    /// The head's order to the next entry to leave.
    Purge,
    /// An entry's wish to leave (rollout).
    Roll,
    /// The wish of a list's only entry to leave and write back.
    Wback,
    /// What a leaver tells the entry behind it: its new backward identifier.
    Setback,
}

impl AskKind {
    /// All kinds, in the order of their numbers.
    pub const ALL: [AskKind; 9] = [
        AskKind::Mread,
        AskKind::Fread,
        AskKind::Cread,
        AskKind::Claim,
        AskKind::Clear,
        AskKind::Purge,
        AskKind::Roll,
        AskKind::Wback,
        AskKind::Setback,
    ];

    /// The kind with this number, 0 to 8, or None if none has it.
    pub fn with_number(number: u8) -> Option<AskKind>
        ensures { result ≡ slice_get AskKind.ALL number }
    {
        AskKind::ALL.get(usize::from(number)).copied()
    }

    /// The kind's word in texts, such as `mread`.
    pub fn word(self) -> &'static str
        ensures word { result.now ≡ kind_word self }
        ensures short { length result.now ≤ 7 }
    {
        match self {
            AskKind::Mread => "mread",
            AskKind::Fread => "fread",
            AskKind::Cread => "cread",
            AskKind::Claim => "claim",
            AskKind::Clear => "clear",
            AskKind::Purge => "purge",
            AskKind::Roll => "roll",
            AskKind::Wback => "wback",
            AskKind::Setback => "setback",
        }
    }
}

/// An atomic step of the machine. Nodes and lines count from 0.
#[derive(Clone, Copy, Debug, PartialEq, Eq)]
pub enum Event {
    /// The processor of `node` issues an operation.
    Issue { node: u8, op: Op },
    /// The pending operation of `node` on `line` is performed.
    Perform { node: u8, line: u8 },
    /// The cache of `node` sends a request about `line`.
    Ask { node: u8, line: u8, kind: AskKind },
    /// `node` serves the oldest request from `from`.
    Serve { from: u8, node: u8 },
    /// `node` answers the oldest request from `from` as busy.
    Refuse { from: u8, node: u8 },
    /// `node` sends the answer that waits.
    Reply { node: u8 },
    /// `node` accepts the oldest answer from `from`.
    Accept { from: u8, node: u8 },
}

/// What sort of event it is, without its nodes, its line and its operation.
#[derive(Clone, Copy, Debug, PartialEq, Eq)]
pub enum EventKind {
    Issue,
    Perform,
    Ask,
    Serve,
    Refuse,
    Reply,
    Accept,
}

impl EventKind {
    /// The kind of an event.
    pub fn of(event: &Event) -> EventKind
        ensures { result ≡ kind_of event.now }
    {
        match event {
            Event::Issue { .. } => EventKind::Issue,
            Event::Perform { .. } => EventKind::Perform,
            Event::Ask { .. } => EventKind::Ask,
            Event::Serve { .. } => EventKind::Serve,
            Event::Refuse { .. } => EventKind::Refuse,
            Event::Reply { .. } => EventKind::Reply,
            Event::Accept { .. } => EventKind::Accept,
        }
    }

    /// The kind's word in texts, such as `issue`.
    pub fn word(self) -> &'static str
        ensures word { result.now ≡ word_of_kind self }
        ensures short { length result.now ≤ 7 }
    {
        match self {
            EventKind::Issue => "issue",
            EventKind::Perform => "perform",
            EventKind::Ask => "ask",
            EventKind::Serve => "serve",
            EventKind::Refuse => "refuse",
            EventKind::Reply => "reply",
            EventKind::Accept => "accept",
        }
    }
}
