//! The structs of traces without versions, and what the judge says of them.
#![tactic(auto)]

mod access;
mod judgement;
mod judging;
mod trace;

pub use access::SciAccess;
pub use judgement::SciJudgement;
pub use judging::{SciTraceWay, TraceVerdict, judged};
pub use trace::SciLastWord;
