//! What the calls of the C interface answer.

/// Done.
pub const SCI_OK: u32 = 0;

/// Memory was refused.
pub const SCI_NO_MEMORY: u32 = 1;

/// The event is not enabled, or what was asked for is not there.
pub const SCI_NOT_ENABLED: u32 = 2;

/// A number is outside its limits, or a packet is not for this node.
pub const SCI_RANGE: u32 = 3;

/// The object is empty where one is wanted, open where none is, or of another kind.
pub const SCI_MISUSE: u32 = 4;

/// A log or a node has as many operations as it may, or the caller's room is too small.
pub const SCI_FULL: u32 = 5;

/// There are fewer bytes or words than the packet has.
pub const SCI_SHORT: u32 = 6;

/// No packet has this command.
pub const SCI_UNKNOWN_COMMAND: u32 = 7;

/// The offset is no multiple of 64.
pub const SCI_BAD_OFFSET: u32 = 8;

/// The target, the source or an identifier of the packet is one that it can't have.
pub const SCI_BAD_IDENTIFIER: u32 = 9;

/// The text is no log, or no schedule: the fault says where and why.
pub const SCI_TEXT: u32 = 10;
