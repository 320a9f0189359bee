//! The words, operations and events of a machine with coherent caches, as plain values, with the table
//! of what each operation does to a word.
#![tactic(auto)]

mod event;
mod extent;
mod limits;
mod line;
mod operation;
mod stamped;

pub use event::{AskKind, Event, EventKind};
pub use extent::Extent;
pub use limits::{
    CONTROLS, FORMAT_1_ENTRIES, FORMAT_1_NODES, FORMAT_1_SERIALS, LANE_CELLS, LINE_BYTES,
    MAX_EVENTS, MAX_INPUT_BYTES, MAX_LINES, MAX_NODES, MAX_OPERATIONS, MAX_SLOTS,
    MAX_TEXT_LINE_BYTES, MAX_TURNS, WORDS_PER_LINE,
};
pub use line::{Line, Word};
pub use operation::{Act, LockOp, Op, Reply, effect};
pub use stamped::Stamped;
