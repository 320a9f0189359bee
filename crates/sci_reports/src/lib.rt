//! Reports on logs and on texts: one order of a log's entries, what is wrong with a log, and what a text is.
#![tactic(auto)]

mod checking;
mod explain_json;
mod explaining;
mod faulty;
mod finding;
mod note;
mod numbered;
mod order_json;
mod ordering;
mod read_log;
mod wanted;

pub use checking::check;
pub use explaining::explain;
pub use ordering::{NodeOrder, OrderRequest, order};
pub use read_log::ReadLog;
pub use wanted::Wanted;
