//! What is seen of a run: its outcome, and whether it is in order.

ghost use Rattle.std.specs.{Prelude.{◌≡◌, ◌↔◌, ◌++◌, true, length, map, All, IfOk, OnOk}, List.{filter_map}};
ghost use Rattle.sci_history.specs.{Cycle.{IsOrdered}, Lawful.{Lawful}, Sequential.{IsSequentiallyConsistent}};
ghost use Rattle.sci_core.specs.{Outcome.{logs_of}, Sharing.{last_of}};
ghost use Rattle.sci_allowed.specs.Outcome.{IsPlaceWithin};
ghost use Rattle.sci_outcomes.specs.Outcomes.{IsSeen, held_at, replied, replies_in};

use sci_allowed::{FinalWord, Outcome, Place, Replied};
use sci_core::Machine;
use sci_history::{Entry, Last, Logs, OrderVerdict, sequential_order, serial_order_is_lawful};
use sci_words::Reply;
use std::alloc::{AllocError, Global};

/// What was seen of a run.
#[derive(Drop)]
pub(crate) struct Sighting {
    /// Its outcome.
    pub(crate) outcome: Outcome,
    /// Whether one memory of one thread explains its logs with each node's entries by serial.
    pub(crate) in_order: bool,
}

/// What an entry replied. None if it is a store's.
fn reply_of(entry: &Entry) -> Option<Replied>
    ensures { result ≡ replied entry.now }
{
    match entry.reply {
        Reply::Stored => None,
        Reply::Got(word) => Some(Replied {
            node: entry.node,
            serial: entry.serial,
            word,
        }),
    }
}

/// Appends what the entries of a log replied.
fn push_replies(replies: &mut Vec<Replied>, log: &[Entry]) -> Result<(), AllocError>
    ensures { OnOk result (replies.new.items ≡ replies.old.items ++ filter_map replied log.now) }
{
    for entry in log {
        if let Some(reply) = reply_of(entry) {
            replies.push(reply)?;
        }
    }
    Ok(())
}

/// What the entries of all logs replied, by node.
fn replies_of(alloc: Global, logs: &Logs) -> Result<Vec<Replied>, AllocError>
    ensures { IfOk result (λ replies. replies.items ≡ replies_in logs.now) }
{
    let mut replies = Vec::new(alloc);
    for node in 0..logs.nodes() {
        push_replies(&mut replies, logs.of(node))?;
    }
    Ok(replies)
}

/// What the words at these places hold.
fn words_of(alloc: Global, places: &[Place], last: &Last) -> Result<Vec<FinalWord>, AllocError>
    requires { All (IsPlaceWithin (length last.now)) places.now }
    ensures { IfOk result (λ words. words.items ≡ map (held_at last.now) places.now) }
{
    let mut words = Vec::with_capacity(alloc, places.len())?;
    for place in places {
        words.push(FinalWord {
            line: place.line,
            word: place.word,
            value: last.get(place.line).line.word(place.word),
        })?;
    }
    Ok(words)
}

/// Whether a look for an order found one.
fn is_found(verdict: &OrderVerdict) -> bool
    ensures { (result ≡ true) ↔ IsOrdered verdict.now }
{
    matches!(verdict, OrderVerdict::Order(_))
}

/// What is seen of a run by the machine that it leads to: its outcome, with the words at these places, and whether it is in
/// order. The machine's logs are lawful. Refused if memory is.
pub(crate) fn seen(
    alloc: Global,
    places: &[Place],
    machine: Machine,
) -> Result<Sighting, AllocError>
    requires { All (IsPlaceWithin machine.size.lines) places.now }
    ensures seen { IfOk result (IsSeen places.now (logs_of machine) (last_of machine)) }
    ensures lawful { OnOk result (Lawful (logs_of machine) (last_of machine)) }
    ensures consistent { OnOk result
        (IsSequentiallyConsistent (logs_of machine) (last_of machine)) }
{
    serial_order_is_lawful();
    let (logs, last) = machine.finish(alloc);
    // Read, so that the prover knows that there are sixteen logs.
    let _nodes = logs.nodes();
    let by_serial = logs.by_serial(alloc)?;
    let outcome = Outcome {
        replies: replies_of(alloc, &by_serial)?,
        last: words_of(alloc, places, &last)?,
    };
    let verdict = sequential_order(alloc, &by_serial, &last)?;
    Ok(Sighting {
        outcome,
        in_order: is_found(&verdict),
    })
}
