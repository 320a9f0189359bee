//! Tests of homes, of caches and of machines: rows and tables as text, walks whose events are taken by chance, and calls
//! whose memory is refused.
#![tactic(auto)]

#[cfg(test)]
mod bounded;
#[cfg(test)]
mod cache_table;
#[cfg(test)]
mod choices;
#[cfg(test)]
mod fresh_lists;
#[cfg(test)]
mod home_table;
#[cfg(test)]
mod lists;
#[cfg(test)]
mod machine_rows;
#[cfg(test)]
mod machine_tests;
#[cfg(test)]
mod memory_tests;
#[cfg(test)]
mod network;
#[cfg(test)]
mod orders_tests;
#[cfg(test)]
mod overtaking;
#[cfg(test)]
mod pairs;
#[cfg(test)]
mod plain_lists;
#[cfg(test)]
mod reading;
#[cfg(test)]
mod requests;
#[cfg(test)]
mod row;
#[cfg(test)]
mod sharer;
#[cfg(test)]
mod states;
#[cfg(test)]
mod table;
#[cfg(test)]
mod twins;
#[cfg(test)]
mod walked;
#[cfg(test)]
mod walks;
#[cfg(test)]
mod words;
#[cfg(test)]
mod wrong_rules;
