//! Packets.

ghost use Rattle.std.specs.Prelude.{◌<◌, ◌^◌};

use crate::body::Body;
use crate::node_id::NodeId;

/// A packet from one node to another, or to itself. That a packet opens with target, command, source and
/// control, and an address follows, is after IEEE Std 1596-1992; widths, numbers and the rest are this
/// project's own.
#[derive(Clone, Copy, Debug, PartialEq, Eq)]
pub struct Packet {
    /// The node that it is for.
    pub target: NodeId,
    /// The node that sent it.
    pub source: NodeId,
    /// The number of the ask that the packet makes or answers.
    pub control: u16,
    /// The number of the line, below 2^42.
    pub line: u64,
    /// What it says.
    pub body: Body,
    pub ghost low_line: { line < 2 ^ 42 },
}

impl Packet {
    ghost use Rattle.std.specs.Prelude.{◌≡◌, ◌↔◌, IsTrue};
    ghost use Rattle.sci_packets.specs.Table.{IsRequest};

    /// Whether the packet asks something. Each other packet answers.
    pub fn is_request(&self) -> bool
        ensures { IsTrue result ↔ IsRequest self.now.body }
    {
        self.body.is_request()
    }

    /// The packet with `body` that answers this one: from its target to its source, with its control and
    /// line.
    pub fn answer(&self, body: Body) -> Packet
        ensures target { result.target ≡ self.now.source }
        ensures source { result.source ≡ self.now.target }
        ensures control { result.control ≡ self.now.control }
        ensures line { result.line ≡ self.now.line }
        ensures body { result.body ≡ body }
    {
        Packet {
            target: self.source,
            source: self.target,
            control: self.control,
            line: self.line,
            body,
        }
    }
}
