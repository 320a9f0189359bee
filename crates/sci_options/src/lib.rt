//! The options of a command line: their words, in any order, and what they give.
#![tactic(auto)]

mod argument;
mod given;
mod option_name;
mod setting;

pub use argument::{Argument, Value};
pub use given::{Given, Wrong, read_words};
pub use option_name::OptionName;
pub use setting::{OptionRow, Setting};
