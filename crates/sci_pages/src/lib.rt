//! Pages of HTML that step through a schedule, or show a log.
#![tactic(auto)]

mod frame;
mod kind;
mod limits;
mod log_data;
mod log_parts;
mod log_script;
mod page_text;
mod paging;
mod refusals;
mod schedule_data;
mod schedule_script;

pub use limits::{MAX_PAGE_BYTES, MAX_PAGE_ENTRIES, MAX_PAGE_EVENTS};
pub use paging::page;
