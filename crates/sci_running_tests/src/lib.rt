//! Tests of what runs: ends of lanes, stations, nodes that share a machine under a lock, and threads.
#![tactic(auto)]

#[cfg(test)]
mod busy;
#[cfg(test)]
mod by_hand;
#[cfg(test)]
mod by_hand_tests;
#[cfg(test)]
mod exchange_tests;
#[cfg(test)]
mod finish_tests;
#[cfg(test)]
mod gate_tests;
#[cfg(test)]
mod given;
#[cfg(test)]
mod lane_tests;
#[cfg(test)]
mod lent_memory_tests;
#[cfg(test)]
mod locked;
#[cfg(test)]
mod nodes;
#[cfg(test)]
mod order_tests;
#[cfg(test)]
mod row;
#[cfg(test)]
mod running;
#[cfg(test)]
mod station_rows;
#[cfg(test)]
mod thread_tests;
#[cfg(test)]
mod turn_rows;
