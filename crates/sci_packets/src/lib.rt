//! The packets that nodes exchange, with one spelling each, over bytes and over words.
#![tactic(auto)]

mod body;
mod bytes;
mod command;
mod contents;
mod fault;
mod header;
pub mod laws;
mod node_id;
mod packet;
mod table;
mod words;

pub use body::Body;
pub use bytes::{decode, encode};
pub use command::Command;
pub use fault::PacketFault;
pub use node_id::NodeId;
pub use packet::Packet;
pub use words::{from_words, to_words, word_count};
