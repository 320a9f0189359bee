//! Tests of values: operations, packets, memories and logs, orders of logs, texts, and what is drawn at random.
#![tactic(auto)]

mod limits;
#[cfg(test)]
mod memory_and_log_tests;
#[cfg(test)]
mod operation_tests;
#[cfg(test)]
mod order_memory_tests;
#[cfg(test)]
mod order_tests;
#[cfg(test)]
mod packet_tests;
#[cfg(test)]
mod random_tests;
#[cfg(test)]
mod readers;
#[cfg(test)]
mod ring_tests;
#[cfg(test)]
mod schedule_tests;
#[cfg(test)]
mod script_tests;
#[cfg(test)]
mod tap_tests;
#[cfg(test)]
mod text_memory_tests;
