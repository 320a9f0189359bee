//! Identifiers of nodes.

ghost use Rattle.std.specs.Prelude.{◌≡◌, ◌<◌, ◌↔◌, IsSome, IfSome};

use std::marker::Model;

/// The number that stands for no node.
pub const NO_NODE: u16 = 0xFFFF;

/// The identifier of a node, below 0xFFFF (IEEE Std 1596-1992: node identifiers have 16 bits). Contracts
/// see it as its number.
#[derive(Clone, Copy, Debug, PartialEq, Eq)]
pub struct NodeId {
    number: u16,
}

impl Model for NodeId {
    ghost use Rattle.std.specs.Prelude.{ℕ, ◌<◌};

    ghost Value = { ℕ };

    ghost view = { λ id. id.number };

    ghost invariant = { λ id. id.number < 0xFFFF };

    ghost inverse = { λ number. record { number = number } };
}

impl NodeId {
    /// The identifier with this number, or None if the number is 0xFFFF.
    pub fn new(number: u16) -> Option<NodeId>
        ensures below { IsSome result ↔ (number < 0xFFFF) }
        ensures number { IfSome result (λ id. id ≡ number) }
    {
        if number == NO_NODE {
            None
        } else {
            Some(NodeId { number })
        }
    }

    /// The number of the identifier, below 0xFFFF.
    pub fn get(self) -> u16
        ensures number { result ≡ self }
        ensures below { result < 0xFFFF }
    {
        self.number
    }
}
