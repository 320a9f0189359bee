//! The outcome of a run: what its operations replied, and the words that they left.

ghost use Rattle.std.specs.{Prelude.{◌≡◌, ◌++◌, ◌≤◌, length, map, slice_index_or, All, IfOk, OnOk}, List.{filter_map, range_with_len}};
ghost use Rattle.sci_words.specs.declared.limits.TheConstants.{MAX_NODES, MAX_OPERATIONS};
ghost use Rattle.sci_orders.specs.Positions.{lists_of, position_of};
ghost use Rattle.sci_orders.specs.declared.standing.Answer.TheVariants.{Stored};
ghost use Rattle.sci_allowed.specs.Outcome.{held_in, held_of, replied_at, replies_at, shown_at, shown_of};

use crate::place::Place;
use sci_orders::{Answer, Standing};
use sci_words::{Op, WORDS_PER_LINE, Word};
use std::alloc::{AllocError, Global};

/// What an operation replied.
#[derive(Clone, Copy, Debug, PartialEq, Eq, PartialOrd, Ord)]
pub struct Replied {
    /// The operation's node, below 16.
    pub node: u8,
    /// Its serial at the node, from 0: its place among the node's operations in the script.
    pub serial: u32,
    /// The word that it replied.
    pub word: Word,
}

/// What a word of memory holds.
#[derive(Clone, Copy, Debug, PartialEq, Eq, PartialOrd, Ord)]
pub struct FinalWord {
    /// The line, below 64.
    pub line: u8,
    /// The word's place in the line, below 8.
    pub word: u8,
    /// What it holds.
    pub value: Word,
}

/// The outcome of a run.
#[derive(Debug, Drop, PartialEq, Eq, PartialOrd, Ord)]
pub struct Outcome {
    /// What each load and each lock operation replied, by node, then by serial.
    pub replies: Vec<Replied>,
    /// What each word that the script may write holds at the end, by line, then by place.
    pub last: Vec<FinalWord>,
}

/// What the operation with this serial replied. None if it is a store, or isn't performed.
fn reply_of(node: u8, serial: u32, answers: &[Answer]) -> Option<Replied>
    ensures { result ≡ replied_at node serial (slice_index_or answers.now serial Stored) }
{
    match answers.get(serial as usize) {
        Some(Answer::Got(word)) => Some(Replied {
            node,
            serial,
            word: *word,
        }),
        _ => None,
    }
}

/// Appends what the first operations of a node replied, this number of them.
fn push_replies(
    replies: &mut Vec<Replied>,
    node: u8,
    count: u32,
    answers: &[Answer],
) -> Result<(), AllocError>
    ensures { OnOk result (replies.new.items ≡ replies.old.items ++ filter_map
        (λ i. replied_at node i (slice_index_or answers.now i Stored)) (range_with_len 0 count)) }
{
    for serial in 0..count {
        if let Some(reply) = reply_of(node, serial, answers) {
            replies.push(reply)?;
        }
    }
    Ok(())
}

/// What all operations replied, by node.
fn replies_of(
    alloc: Global,
    operations: &[Vec<Op>],
    standing: &Standing,
) -> Result<Vec<Replied>, AllocError>
    requires nodes { length operations.now ≤ MAX_NODES }
    requires few { All (λ own. length own.items ≤ MAX_OPERATIONS) operations.now }
    requires answers { length standing.now.answers.items ≡ length operations.now }
    ensures { IfOk result (λ replies.
        replies.items ≡ replies_at (lists_of operations.now) (position_of standing.now)) }
{
    let mut replies = Vec::new(alloc);
    for node in 0..operations.len() as u8 {
        let place = usize::from(node);
        let count = operations[place].len() as u32;
        push_replies(&mut replies, node, count, &standing.answers[place])?;
    }
    Ok(replies)
}

/// What the word at a place holds, and 0 if there is no such word.
fn held_word(place: Place, words: &[Word]) -> FinalWord
    ensures { result ≡ held_of words.now place }
{
    let at = usize::from(place.line) * WORDS_PER_LINE + usize::from(place.word);
    FinalWord {
        line: place.line,
        word: place.word,
        value: words.get(at).copied().unwrap_or(0),
    }
}

/// What the words at these places hold.
fn words_of(
    alloc: Global,
    places: &[Place],
    standing: &Standing,
) -> Result<Vec<FinalWord>, AllocError>
    ensures { IfOk result (λ words. words.items ≡ map (held_in (position_of standing.now)) places.now) }
{
    let mut words = Vec::with_capacity(alloc, places.len())?;
    for place in places {
        words.push(held_word(*place, &standing.words))?;
    }
    Ok(words)
}

/// The outcome of the run that ends in a standing: what these operations replied, and what the words at these places hold.
/// Refused if memory is.
pub(crate) fn outcome_of(
    alloc: Global,
    operations: &[Vec<Op>],
    places: &[Place],
    standing: &Standing,
) -> Result<Outcome, AllocError>
    requires nodes { length operations.now ≤ MAX_NODES }
    requires few { All (λ own. length own.items ≤ MAX_OPERATIONS) operations.now }
    requires answers { length standing.now.answers.items ≡ length operations.now }
    ensures { IfOk result (λ outcome. shown_of outcome
        ≡ shown_at (lists_of operations.now) places.now (position_of standing.now)) }
{
    Ok(Outcome {
        replies: replies_of(alloc, operations, standing)?,
        last: words_of(alloc, places, standing)?,
    })
}
