//! All outcomes that runs of a script can have, and a schedule to each.
#![tactic(auto)]

mod allowed_report;
mod condition;
mod condition_refusal;
mod condition_text;
mod conditioned;
mod fault;
mod litmus;
mod outcome;
mod outcome_text;
mod place;
mod rows;
mod showing;
mod verdict;

pub use allowed_report::{AllowedRequest, allowed};
pub use condition::{Condition, FinalCondition, Quantifier, Term};
pub use conditioned::{Conditioned, read_conditioned};
pub use litmus::Litmus;
pub use outcome::{FinalWord, Outcome, Replied};
pub use outcome_text::{push_outcome, sense_words};
pub use place::{Place, written_places};
pub use rows::{AllowedRow, TOO_MANY_POSITIONS};
pub use verdict::push_verdict;
