//! Members of JSON objects: numbers, words and texts, and packets, states, operations and entries.
#![tactic(auto)]

mod members;
mod parts;

pub use members::{
    into_line, write_flag, write_null, write_number, write_text, write_truth, write_word,
    write_words,
};
pub use parts::{
    write_contents, write_entry, write_home, write_operation, write_packet, write_state,
};
