//! Versions for logs that came without them: what it is to have them, and what rules out all of them.
#![tactic(auto)]

mod laws;

pub use laws::{
    cycles_rule_out_versions, lawful_logs_have_no_cycle, lawful_logs_have_versions,
    values_are_written,
};
