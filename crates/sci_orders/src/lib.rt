//! Which orders of operations the machine can go through: those of one memory of one thread, and all of them.
#![tactic(auto)]

mod closed;
mod fault;
mod laws;
mod orders;
mod schedule;
mod standing;
mod way;

pub use fault::OrdersFault;
pub use laws::{
    each_order_has_a_schedule, each_position_has_a_run, each_run_is_reached,
    each_schedule_has_an_order, each_script_has_a_schedule, each_state_can_go_on,
    each_state_is_followed, each_whole_order_is_an_order,
};
pub use orders::{MAX_STANDINGS, Orders};
pub use standing::{Answer, Standing};
