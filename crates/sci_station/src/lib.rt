//! Stations: nodes that run by themselves, each owned by the one that runs it, and share lines without a lock.
#![tactic(auto)]

mod budget;
mod fabric;
mod kept;
mod laws;
mod post;
mod receiving;
mod sending;
mod station;
mod unanswered;
mod worker;

pub use budget::{Budget, Spent};
pub use fabric::{Fabric, Finished};
pub use laws::{calls_add_their_events, ends_know_their_own_events};
pub use receiving::{Seen, read_packet, see};
pub use sending::send;
pub use station::Station;
