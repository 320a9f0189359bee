//! What those who share the table know. No value of these types is made when the program runs: they are what proofs
//! speak of.

use sci_core::Node;
use sci_words::Event;
use std::collections::LinkedList;

/// What a sender knows of a lane.
pub struct Outbound {
    /// How many packets were sent. The next goes into the cell with this number, modulo 4.
    pub sent: u64,
    /// Whether the next cell is known to be empty.
    pub vacant: bool,
    /// The words after the first that were filled in that cell, in their order.
    pub filled: LinkedList<u64>,
}

/// What a receiver knows of a lane.
pub struct Inbound {
    /// How many packets were taken. The next comes from the cell with this number, modulo 4.
    pub taken: u64,
    /// The words of the next packet that were found, from the first on.
    pub found: LinkedList<u64>,
}

/// A node, what it knows of the lanes, and the schedule as far as it knows it: all events of the machine up to the node's
/// last step at the table. Both lists of lanes have an entry for each lane of the machine; those of other nodes' lanes say
/// nothing.
pub struct Part {
    pub node: Node,
    pub schedule: LinkedList<Event>,
    pub outbound: LinkedList<Outbound>,
    pub inbound: LinkedList<Inbound>,
}

/// What a seat at the table knows: the parts that it has, and the first words of the table, as far as it has read them
/// since it has every part.
pub struct View {
    pub parts: LinkedList<Part>,
    pub words: LinkedList<u64>,
}
