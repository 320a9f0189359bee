//! Drives a worker through a script: submits the operations, performs them, and takes turns until each has its entry.
#![tactic(auto)]

mod driver;
mod gate;
mod laws;
mod open_gate;
mod running;

pub use driver::{Driver, Issuing, Round};
pub use gate::Gate;
pub use laws::new_drivers_may_drive;
pub use open_gate::OpenGate;
pub use running::{Ran, drive};
