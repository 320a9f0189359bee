//! What the events of a schedule do: in words and as JSON, the sharing lists behind them, and the packets that they send.
#![tactic(auto)]

mod event_words;
mod json_event;
mod listing;
mod obstacle_words;
mod sending;
mod state_words;
mod tracing;

pub use event_words::{LineWords, push_changes, standing};
pub use json_event::push_json;
pub use listing::{ListPlace, listed_line, lists, push_list_behind};
pub use sending::packets;
pub use state_words::push_node;
pub use tracing::{TraceRequest, trace};
