//! Packets that were read.

use sci_core::LaneKind;
use sci_packets::Packet;
use sci_words::MAX_NODES;
use std::marker::Model;

/// The answer that was read last, and of each node the request that was read last. A request that is kept isn't read again
/// until it is taken.
#[derive(Drop)]
pub(crate) struct Kept {
    /// For each node whether its request is kept; apart from the requests, so that a look reads no packet.
    marks: [bool; MAX_NODES as usize],
    requests: [Option<Packet>; MAX_NODES as usize],
    answer: Option<Packet>,
}

impl Model for Kept {
    ghost use Rattle.sci_station.specs.Posts.{KeptOf};

    ghost Value = { KeptOf };

    ghost view = { λ kept. record { marks = kept.marks; requests = kept.requests; answer = kept.answer } };
}

impl Kept {
    ghost use Rattle.std.specs.Prelude.{◌≡◌, ◌<◌, ℕ, false, Some, option_copied, slice_set};
    ghost use Rattle.sci_core.specs.declared.lane.LaneKind.{LaneKind, TheVariants.{Requests}};
    ghost use Rattle.sci_station.specs.Posts.{is_kept, packet_in};
    ghost use Rattle.sci_words.specs.declared.limits.TheConstants.{MAX_NODES};

    /// Nothing was read, and nothing is kept.
    pub(crate) fn new() -> Kept
        ensures { (kind : LaneKind) (from : ℕ) → is_kept result kind from ≡ false }
    {
        Kept {
            marks: [false; MAX_NODES as usize],
            requests: [None; MAX_NODES as usize],
            answer: None,
        }
    }

    /// An answer was read.
    pub(crate) fn answer_read(&mut self, answer: &Packet)
        ensures { self.new ≡ record self.old { answer = Some answer.now } }
    {
        self.answer = Some(*answer);
    }

    /// A request of a node was read, to be kept or not.
    pub(crate) fn request_read(&mut self, from: u8, request: &Packet, keep: bool)
        requires { from < MAX_NODES }
        ensures kept { self.new ≡ record self.old {
          marks = slice_set self.old.marks from keep;
          requests = slice_set self.old.requests from (Some request.now);
        } }
        ensures there { packet_in self.new Requests from ≡ Some request.now }
    {
        self.requests[usize::from(from)] = Some(*request);
        self.marks[usize::from(from)] = keep;
    }

    /// The request of a node is kept no more.
    pub(crate) fn request_taken(&mut self, from: u8)
        requires { from < MAX_NODES }
        ensures { self.new ≡ record self.old { marks = slice_set self.old.marks from false } }
    {
        self.marks[usize::from(from)] = false;
    }

    /// Whether a packet of a node is kept.
    #[inline(always)]
    pub(crate) fn is_kept(&self, kind: LaneKind, from: u8) -> bool
        requires { from < MAX_NODES }
        ensures { result ≡ is_kept self.now kind from }
    {
        match kind {
            LaneKind::Answers => false,
            LaneKind::Requests => self.marks[usize::from(from)],
        }
    }

    /// The packet that was read last in the lane of a kind from a node.
    #[inline(always)]
    pub(crate) fn packet(&self, kind: LaneKind, from: u8) -> Option<&Packet>
        requires { from < MAX_NODES }
        ensures { option_copied result ≡ packet_in self.now kind from }
    {
        match kind {
            LaneKind::Answers => self.answer.as_ref(),
            LaneKind::Requests => self.requests[usize::from(from)].as_ref(),
        }
    }
}
