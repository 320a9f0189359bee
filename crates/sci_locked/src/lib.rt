//! The whole machine shared by threads under one lock, and what is done to it while it is lent.
#![tactic(auto)]

mod lent;
mod post;
mod shared;
mod turn;

pub use lent::{perform_on, submit_on};
pub use shared::Shared;
pub use turn::turn_on;
