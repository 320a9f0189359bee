//! Choices that look random, and are the same in every run: numbers, lines, operations and kinds of asks.
#![tactic(auto)]

mod drawing;
mod random;

pub use drawing::{any_kind, any_line, any_operation};
pub use random::Random;
