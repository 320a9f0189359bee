//! The cache part of a node's controller: for each line a typed state. An ask, an acceptance and a join take the state
//! by value and give the next, which is put in its place; other changes are made in place.
#![tactic(auto)]

mod accept;
mod ask;
mod cache;
mod entry;
mod fault;
mod held;
pub mod laws;
mod line;
mod line_kind;
mod line_kinds;
mod line_set;
mod may_perform;
mod perform;
mod serve;
mod states;

pub use cache::Cache;
pub use fault::{AskFault, NotAwaited};
pub use held::Held;
pub use line_kind::LineKind;
pub use line_set::LineSet;
pub use states::{
    Asking, Below, Claiming, Clearing, Fading, FreshHead, FreshJoining, HeadState, Joining,
    OutState, Purging, Returning, Rolling, Telling,
};
