//! The home of a line: who heads the list of the caches that share it, and its contents while nobody may
//! write.
#![tactic(auto)]

mod home;
pub mod laws;
mod state;

pub use home::{Home, is_for_home};
pub use state::HomeState;
