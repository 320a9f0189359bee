//! What shows that no order of all operations explains a trace.

use crate::witness::Step;

/// Why an operation stands before another one in every order that explains a trace.
#[derive(Debug, Drop)]
pub enum Reason {
    /// It comes before it in the order of their processor.
    Program,
    /// It wrote the word that the other one finds and leaves.
    ReadsFrom,
    /// What leaves its word stands before what leaves the other's, by these steps, which name operations by their places among
    /// those at the address.
    Words(Vec<Step>),
}

/// An operation of a cycle.
#[derive(Debug, Drop)]
pub struct Link {
    /// Its place among all operations.
    pub place: usize,
    /// Why it stands before the next one of the cycle; the first is next to the last.
    pub reason: Reason,
}
