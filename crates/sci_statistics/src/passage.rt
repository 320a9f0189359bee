//! What came of one event of a schedule.

ghost use Rattle.std.specs.Prelude.{◌≡◌, ◌≤◌};
ghost use Rattle.sci_statistics.specs.Measures.{comes as comes_of, enters as enters_of, has_made as has_made_of, has_sent as has_sent_of};
ghost use Rattle.sci_statistics.specs.Measures.{is_at as is_at_of, is_on as is_on_of, is_serve as is_serve_of, leaves as leaves_of, sends as sends_of};
ghost use Rattle.sci_statistics.specs.Measures.{sent_bytes as sent_bytes_of, serves as serves_of, takes as takes_of};

use crate::kind::Access;
use sci_packets::Command;
use sci_words::EventKind;

/// An event of a schedule, and what came of it.
#[derive(Clone, Copy)]
pub struct Passage {
    /// What sort of event it is.
    pub event: EventKind,
    /// Whether it was enabled.
    pub enabled: bool,
    /// The node whose event it is.
    pub node: u8,
    /// The line of memory that it is about, or None if it is about none.
    pub line: Option<u8>,
    /// The operation that it performed, or None if it performed none.
    pub made: Option<Access>,
    /// The packet that it sent, or None if it sent none.
    pub sent: Option<Command>,
    /// The packet that it took, or None if it took none.
    pub taken: Option<Command>,
    /// The answer that waits at its node behind it, or None if none does.
    pub answer: Option<Command>,
}

impl Passage {
    /// Whether it is an event of this kind, enabled or not as said.
    #[tactic(auto, unfolding(crate::specs::Measures::comes))]
    pub fn comes(&self, kind: EventKind, enabled: bool) -> bool
        ensures { result ≡ comes_of kind enabled self.now }
    {
        self.event == kind && self.enabled == enabled
    }

    /// Whether it sent a packet with this command.
    #[tactic(auto, unfolding(crate::specs::Measures::sends))]
    pub fn sends(&self, command: Command) -> bool
        ensures { result ≡ sends_of command self.now }
    {
        self.sent == Some(command)
    }

    /// Whether it sent a packet.
    #[tactic(auto, unfolding(crate::specs::Measures::has_sent))]
    pub fn has_sent(&self) -> bool
        ensures { result ≡ has_sent_of self.now }
    {
        self.sent.is_some()
    }

    /// The bytes of the packet that it sent, or 0 if it sent none.
    #[tactic(auto, unfolding(crate::specs::Measures::sent_bytes))]
    pub fn sent_bytes(&self) -> u64
        ensures bytes { result ≡ sent_bytes_of self.now }
        ensures few { result ≤ 88 }
    {
        match self.sent {
            Some(command) => command.packet_bytes() as u64,
            None => 0,
        }
    }

    /// Whether it is enabled and about this line.
    #[tactic(auto, unfolding(crate::specs::Measures::is_on))]
    pub fn is_on(&self, line: u8) -> bool
        ensures { result ≡ is_on_of line self.now }
    {
        self.enabled && self.line == Some(line)
    }

    /// Whether it is an event of this node.
    #[tactic(auto, unfolding(crate::specs::Measures::is_at))]
    pub fn is_at(&self, node: u8) -> bool
        ensures { result ≡ is_at_of node self.now }
    {
        self.node == node
    }

    /// Whether it performed an operation that does this.
    #[tactic(auto, unfolding(crate::specs::Measures::has_made))]
    pub fn has_made(&self, access: Access) -> bool
        ensures { result ≡ has_made_of access self.now }
    {
        self.made == Some(access)
    }

    /// Whether it took a packet with this command.
    #[tactic(auto, unfolding(crate::specs::Measures::takes))]
    fn takes(&self, command: Command) -> bool
        ensures { result ≡ takes_of command self.now }
    {
        self.taken == Some(command)
    }

    /// Whether an answer with this command waits at its node.
    #[tactic(auto, unfolding(crate::specs::Measures::leaves))]
    fn leaves(&self, command: Command) -> bool
        ensures { result ≡ leaves_of command self.now }
    {
        self.answer == Some(command)
    }

    /// Whether it is a Serve.
    #[tactic(auto, unfolding(crate::specs::Measures::is_serve))]
    fn is_serve(&self) -> bool
        ensures { result ≡ is_serve_of self.now }
    {
        self.event == EventKind::Serve
    }

    /// Whether it served a request with this command, and this answer to it waits.
    #[tactic(auto, unfolding(crate::specs::Measures::serves))]
    pub fn serves(&self, request: Command, answer: Command) -> bool
        ensures { result ≡ serves_of request answer self.now }
    {
        self.is_serve() && self.takes(request) && self.leaves(answer)
    }

    /// Whether it let a cache into a list: the home served its read.
    #[tactic(auto, unfolding(crate::specs::Measures::enters))]
    pub fn enters(&self) -> bool
        ensures { result ≡ enters_of self.now }
    {
        self.is_serve() && (self.takes(Command::Mread) || self.takes(Command::Fread))
    }
}
