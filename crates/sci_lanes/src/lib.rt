//! Lanes between nodes that run by themselves: a table of words that threads share without a lock.
#![tactic(auto)]

mod cell;
mod end;
mod event;
mod gather;
mod lanes;
mod laws;
mod rule;
mod seat;
mod view;

pub use cell::CellId;
pub use end::{HasEnd, LaneEnd};
pub use gather::FinishFault;
pub use lanes::Lanes;
pub use laws::words_show_one_state;
pub use rule::LaneRule;
pub use view::{Inbound, Outbound, Part, View};
