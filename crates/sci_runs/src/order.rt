//! In which order nodes take their turns.

ghost use Rattle.std.specs.Prelude.{◌≡◌, ◌<◌};
ghost use Rattle.sci_runs.specs.Turns.{first_order, next_node, next_order};

use sci_random::Random;

/// In which order the nodes of a run take their turns.
#[derive(Drop)]
pub(crate) enum Order {
    /// In a circle, from this node on.
    Circle { next: u8 },
    /// Each turn is of a node that is drawn.
    Drawn(Random),
}

impl Order {
    /// In a circle from node 0 on; or with a seed, drawn from it.
    pub(crate) fn new(seed: Option<u64>) -> Order
        ensures { result ≡ first_order seed }
    {
        match seed {
            None => Order::Circle { next: 0 },
            Some(seed) => Order::Drawn(Random::new(seed)),
        }
    }

    /// The node whose turn comes next, of this many nodes. Requires that there is a node.
    pub(crate) fn next(&mut self, nodes: u8) -> u8
        requires { 0 < nodes }
        ensures node { result ≡ next_node nodes self.old }
        ensures order { self.new ≡ next_order nodes self.old }
        ensures within { result < nodes }
    {
        match self {
            Order::Circle { next } => {
                let node = if *next < nodes { *next } else { 0 };
                *next = node + 1;
                node
            }
            Order::Drawn(random) => random.below(nodes),
        }
    }
}
