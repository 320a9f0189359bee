//! What shows that operations at one address are not coherent, and the check that it does.

use sci_words::Word;

/// All operations that leave one word stand before all that leave another, whatever the versions are.
#[derive(Clone, Copy, Debug, PartialEq, Eq)]
pub struct Claim {
    /// The word that stands before.
    pub low: Word,
    /// The word that stands behind.
    pub high: Word,
}

/// How a claim goes on to another one. Operations are named by their places among those at the address.
#[derive(Clone, Copy, Debug, PartialEq, Eq)]
pub enum Step {
    /// The later operation comes behind the earlier one, in the order of their processor or by time.
    Follows { earlier: usize, later: usize },
    /// What an atomic wrote stands behind what it read.
    Swaps(usize),
    /// Nothing stands between what an atomic read and what it wrote, so what stands before the one stands before the other.
    Falls(usize),
    /// Nothing stands between what an atomic read and what it wrote, so what stands behind the one stands behind the other.
    Rises(usize),
    /// What the operation leaves stands behind the word at the start, which is 0.
    Starts(usize),
    /// The last word stands behind what the operation leaves.
    Ends(usize),
}

/// What shows that operations at one address are not coherent. Operations are named by their places among those there.
#[derive(Debug, Drop)]
pub enum Witness {
    /// This operation found a word that nobody wrote.
    Unwritten(usize),
    /// Nobody wrote the last word.
    UnwrittenLast,
    /// The first operation leaves the word that the second one, a store, writes later.
    Early { reader: usize, writer: usize },
    /// Steps after which a word would stand before itself.
    Circle(Vec<Step>),
    /// An operation that makes a version comes before itself: it comes before the first of these, each of them before the next one,
    /// and the last one before it.
    Round { maker: usize, through: Vec<usize> },
}
