//! Logs of operations, the memory of one thread that they are compared with, and what makes logs lawful.
#![tactic(auto)]

mod auditing;
mod by_line;
mod entry;
mod faults;
mod last;
mod laws;
mod logs;
mod memory;
mod oracle;
mod order_verdict;
mod ordering;
mod placing;
mod shortcuts;
mod verdict;
mod waiting;

pub use auditing::{audit, line_faults};
pub use entry::Entry;
pub use faults::LineFault;
pub use last::Last;
pub use laws::{
    cycles_rule_out_orders, history_is_lawful, lawful_is_faultless, no_stale_read, one_lawful_end,
    one_partition, one_word_at_a_version, oracle_is_lawful, orders_are_runs, runs_are_functions,
    runs_compose, sequential_logs_are_lawful, serial_order_is_lawful, stores_are_seen,
};
pub use logs::{Logs, PushFault};
pub use memory::Memory;
pub use oracle::run_oracle;
pub use order_verdict::{OrderVerdict, Reason, Step};
pub use ordering::sequential_order;
pub use verdict::{FaultKind, Verdict};
