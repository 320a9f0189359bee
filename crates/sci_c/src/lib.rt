//! The C interface: packets, machines, nodes, logs and scoreboards for programs that are not written in Rattle.
#![tactic(auto)]

mod cloning;
mod closing;
mod controller;
mod cut_off;
mod deciding;
mod explaining;
mod handle;
mod journal;
pub mod laws;
mod library;
mod logs;
mod looking;
mod loose;
mod machine;
mod node;
mod ordering;
mod packet;
mod replaying;
mod room;
mod scoreboard;
mod seeing;
mod starting;
mod taking;
mod texts;
mod thing;
mod traces;
mod turning;
mod writing;
