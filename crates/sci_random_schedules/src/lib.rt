//! Random schedules: the events are drawn from a seed.
#![tactic(auto)]

mod laws;
mod random;
mod walking;

pub use laws::walks_are_enabled;
pub use random::{Walk, random_schedule};
