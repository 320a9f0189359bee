//! A node's controller, with its policy.

use sci_core::Node;
use sci_policy::Policy;

/// A node, and what it decides by itself.
#[derive(Drop)]
pub struct Controller {
    pub(crate) node: Node,
    pub(crate) policy: Policy,
}
