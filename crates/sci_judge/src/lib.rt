//! The judge of traces without versions: whether operations at each address are coherent.
#![tactic(auto)]

mod access;
mod chains;
mod checking;
mod consistency;
mod cycle;
mod cycling;
mod ending;
mod explaining;
mod finding;
mod forcing;
mod freeing;
mod judging;
mod laws;
mod linking;
mod logging;
mod placing;
mod queues;
mod searching;
mod site;
mod stretches;
mod times;
mod timing;
mod trace;
mod witness;

pub use access::{Access, Kind};
pub use consistency::{Consistency, consistency_of};
pub use cycle::{Link, Reason};
pub use finding::{Finding, Freedom};
pub use forcing::Maker;
pub use judging::{Judgement, SiteVersions, Way, are_free, are_unknown, judge};
pub use laws::{cycles_rule_out_order, witnesses_rule_out_coherence};
pub use logging::{Log, NoLog, log_of};
pub use site::Site;
pub use trace::Trace;
pub use witness::{Claim, Step, Witness};
