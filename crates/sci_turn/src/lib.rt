//! A node's turn, wherever the node has its post.
#![tactic(auto)]

mod post;
mod turn;

pub use post::Post;
pub use turn::take_turn;
