//! Why bytes or words are no packet.

/// What is wrong with bytes or words that begin with no packet: of several faults the first in this order,
/// but that missing contents (`Short` too) come last.
#[derive(Clone, Copy, Debug, PartialEq, Eq)]
pub enum PacketFault {
    /// Fewer than 16 bytes (two words), or fewer than 88 (eleven words) if contents follow.
    Short,
    /// The command is not in the table.
    UnknownCommand,
    /// The offset is not a multiple of 64.
    BadOffset,
    /// The target, the source or a needed identifier is 0xFFFF, or an unused identifier isn't.
    BadIdentifier,
}
