//! A machine of nodes whose caches share lines of memory: each node's part, the single events that can happen,
//! and what any list of them leads to.
#![tactic(auto)]

mod apply;
mod asked;
mod dead;
mod drain;
mod fault;
mod lane;
mod last;
mod laws;
mod machine;
mod network;
mod node;
mod obstacle;
mod pending;
mod progress;
mod queue;
mod settle;
mod sharing_list;
mod state;
mod submit;
mod taking;

pub use apply::node_of;
pub use dead::DeadEvents;
pub use fault::ApplyFault;
pub use lane::{Lane, LaneKind};
pub use laws::{
    answers_are_accepted, contents_are_in_range, entries_are_in_range, front_answers_are_accepted,
    front_requests_are_served, issues_are_pending, issues_in_turn_are_logged_in_order,
    lines_have_their_shape, logs_are_done, logs_are_lawful, operations_take_effect,
    performs_end_the_log, reached_nodes_are_parts, reached_nodes_can_go_on,
    reached_states_are_coherent, reached_states_are_tidy, reached_states_are_well_formed,
    schedules_are_histories, schedules_are_runs, schedules_reach, sides_make_steps,
    sole_copies_perform, transactions_alternate, versions_count_makers,
};
pub use machine::Machine;
pub use network::{
    any_packet_is_taken, calls_reach, lanes_keep_lines_apart, moves_alternate, moves_are_in_turn,
    moves_are_runs, moves_log_in_order, moves_reach, moves_run_out,
};
pub use node::Node;
pub use obstacle::Obstacle;
pub use pending::Pending;
pub use progress::{packets_move_on, packets_run_out, weightless_is_drained, weights_are_bounded};
pub use queue::{first_come_first_served, members_wait_in_line, the_first_is_served};
pub use sharing_list::Sharing;
pub use submit::SubmitFault;
