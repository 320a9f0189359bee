//! The limits of the machine and of its texts.

/// Most nodes of a machine.
pub const MAX_NODES: u8 = 16;

/// Most lines of a machine.
pub const MAX_LINES: u8 = 64;

/// Most version slots of a node: the lines of which it may hold or await a copy at one time.
pub const MAX_SLOTS: u8 = 8;

/// Words of a line, each of 64 bits (IEEE Std 1596-1992: the coherence unit is 64 bytes).
pub const WORDS_PER_LINE: usize = 8;

/// Bytes of a line.
pub const LINE_BYTES: usize = 64;

/// Most operations of a node, and so most entries of its log.
pub const MAX_OPERATIONS: u32 = 65_536;

/// Control numbers of a node's asks on a line: the count of asks is taken modulo this.
pub const CONTROLS: u32 = 65_536;

/// Most bytes of a text's line, its line feed left out.
pub const MAX_TEXT_LINE_BYTES: usize = 256;

/// Most bytes of a command's input.
pub const MAX_INPUT_BYTES: usize = 134_217_728;

/// Most events of a schedule's text.
pub const MAX_EVENTS: u32 = 500_000;

/// Most turns of a node in a run with threads.
pub const MAX_TURNS: u32 = 1_000_000_000;

/// Cells of a lane between running stations.
pub const LANE_CELLS: u8 = 4;

/// Nodes of a log in format 1 are below this.
pub const FORMAT_1_NODES: u8 = 8;

/// Serials of a log in format 1 are below this.
pub const FORMAT_1_SERIALS: u32 = 4_096;

/// Most entries of a node in a log in format 1.
pub const FORMAT_1_ENTRIES: u32 = 4_096;
