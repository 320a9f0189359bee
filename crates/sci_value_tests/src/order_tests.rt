//! Small programs of a few nodes on two lines, as they are known for telling memories apart. Each outcome either has one
//! order of all entries, which is written out, or a cycle, which is.
//!
//! A row begins with a line `row NAME`. Logs follow, of which lines may stand on one, with `;` between them. Without a
//! first line they begin as `ONCE`. A line that begins with `//` is a comment. At last comes what is found:
//!
//! - `finds order N.S N.S ..`: the entries in this order, each told by its node and its serial.
//! - `finds cycle N.P REASON N.P REASON ..`: this cycle, each entry told by its node and its place in the log.
//! - `finds fault L`: the last contents of line L are wrong.

ghost use Rattle.std.specs.Prelude.{IfOk, length};
ghost use Rattle.sci_history.specs.Audit.{AreWithin};

use sci_history::{Last, Logs, OrderVerdict, sequential_order};
use sci_text::{Tap, read_logs};
use std::alloc::{AllocError, Global};
use std::test::*;

/// Logs of four nodes on two lines, with a word of 1 on each, stored once.
const ONCE: &str = "log 2 4 2\nlast 0 @1 1 0 0 0 0 0 0 0\nlast 1 @1 1 0 0 0 0 0 0 0\n";

/// The logs of a row.
fn read(alloc: Global, row: &str) -> Result<(Logs, Last), Fail>
    ensures { IfOk result (λ read. AreWithin (length read.1) read.0) }
{
    let first = if row.contains("log ") { "" } else { ONCE };
    let mut log = String::from_str(alloc, first)?;
    for line in row.trim().lines() {
        if !line.trim().starts_with("//") {
            for part in line.split(';') {
                log.push_str(part.trim())?;
                log.push('\n')?;
            }
        }
    }
    let (_nodes, logs, last) = read_logs(alloc, &mut Tap::new(log.as_bytes()))?;
    Ok((logs, last))
}

/// What is found, as a row says it.
fn text_of(alloc: Global, verdict: &OrderVerdict) -> Result<String, AllocError> {
    let mut text = String::new(alloc);
    match verdict {
        OrderVerdict::Order(entries) => {
            text.push_str("order")?;
            for entry in entries {
                write!(text, " {}.{}", entry.node, entry.serial)?;
            }
        }
        OrderVerdict::Cycle(steps) => {
            text.push_str("cycle")?;
            for step in steps {
                write!(
                    text,
                    " {}.{} {:?}",
                    step.entry.node, step.place, step.reason
                )?;
            }
        }
        OrderVerdict::Fault { line, at: None, .. } => write!(text, "fault {line}")?,
        other => write!(text, "{other:?}")?,
    }
    Ok(text)
}

/// An error unless that is found which the row says.
fn play(alloc: Global, row: &str) -> Result<(), Fail> {
    let (log, wanted) = row.split_once("finds ").ok_or("no verdict")?;
    let (logs, last) = read(alloc, log)?;
    let found = text_of(alloc, &sequential_order(alloc, &logs, &last)?)?;
    if found.as_str() != wanted.trim() {
        return Err(Fail::new(format_args!("{found}, and not {wanted}")));
    }
    Ok(())
}

const ROWS: &str = "
    row store_buffers_in_order
        // Store buffers: each node stores to one line and then loads the other. If both read the old word, each load
        // comes before the other node's store.
        0 0 store 0 0 1 = - @1; 0 1 load 1 0 = 0 @0
        1 0 store 1 0 1 = - @1; 1 1 load 0 0 = 1 @1
        finds order 0.0 0.1 1.0 1.1

    row store_buffers
        0 0 store 0 0 1 = - @1; 0 1 load 1 0 = 0 @0
        1 0 store 1 0 1 = - @1; 1 1 load 0 0 = 0 @0
        finds cycle 0.0 FromRead 1.1 Logged 1.0 FromRead 0.1 Logged

    row messages_in_order
        // Passing a message: a node stores a word and then a flag; another loads the flag and then the word. If it
        // sees the flag, it has to see the word.
        0 0 store 0 0 1 = - @1; 0 1 store 1 0 1 = - @1
        1 0 load 1 0 = 1 @1; 1 1 load 0 0 = 1 @1
        finds order 0.0 0.1 1.0 1.1

    row messages
        0 0 store 0 0 1 = - @1; 0 1 store 1 0 1 = - @1
        1 0 load 1 0 = 1 @1; 1 1 load 0 0 = 0 @0
        finds cycle 0.0 FromRead 1.1 Logged 1.0 ReadsFrom 0.1 Logged

    row independent_reads_in_order
        // Independent reads of independent writes: two nodes store to a line each, and two others load both, in
        // turned order. They may not see the stores in different orders.
        0 0 store 0 0 1 = - @1; 1 0 store 1 0 1 = - @1
        2 0 load 0 0 = 1 @1; 2 1 load 1 0 = 0 @0
        3 0 load 1 0 = 1 @1; 3 1 load 0 0 = 1 @1
        finds order 0.0 2.0 2.1 1.0 3.0 3.1

    row independent_reads
        0 0 store 0 0 1 = - @1; 1 0 store 1 0 1 = - @1
        2 0 load 0 0 = 1 @1; 2 1 load 1 0 = 0 @0
        3 0 load 1 0 = 1 @1; 3 1 load 0 0 = 0 @0
        finds cycle 0.0 FromRead 3.1 Logged 3.0 ReadsFrom 1.0 FromRead 2.1 Logged 2.0 ReadsFrom

    row stores_turned
        // Two stores each to two lines, in turned order: the second of each line can't be the first of its node.
        log 2 4 2; last 0 @2 1 0 0 0 0 0 0 0; last 1 @2 1 0 0 0 0 0 0 0
        0 0 store 0 0 1 = - @2; 0 1 store 1 0 1 = - @1
        1 0 store 1 0 1 = - @2; 1 1 store 0 0 1 = - @1
        finds cycle 0.0 Coherence 1.1 Logged 1.0 Coherence 0.1 Logged

    row a_cycle_further_on
        // The node that is looked at first waits for a cycle, and isn't in it.
        0 0 load 0 0 = 1 @1
        1 0 store 0 0 1 = - @1; 1 1 load 1 0 = 0 @0
        2 0 store 1 0 1 = - @1; 2 1 load 0 0 = 0 @0
        finds cycle 1.0 FromRead 2.1 Logged 2.0 FromRead 1.1 Logged

    row a_cycle_of_five_beside_one_of_four
        // The first store waits for two loads. The way goes on over that of node 1, and then over node 3. No entry of
        // that cycle can be left out, though the one over node 2 has fewer.
        log 2 4 2; last 0 @1 1 0 0 0 0 0 0 0; last 1 @2 2 0 0 0 0 0 0 0
        0 0 store 0 0 1 = - @1; 0 1 store 1 0 1 = - @1
        1 0 load 1 0 = 2 @2; 1 1 load 0 0 = 0 @0
        2 0 load 1 0 = 1 @1; 2 1 load 0 0 = 0 @0
        3 0 store 1 0 2 = - @2
        finds cycle 0.0 FromRead 1.1 Logged 1.0 ReadsFrom 3.0 Coherence 0.1 Logged

    row a_cycle_on_the_way
        // The first store waits for two loads. That of node 1 leads into a cycle of nodes 1 and 2, from which no way
        // leads back, so that is the cycle that is found.
        log 2 4 4; last 0 @1 1 0 0 0 0 0 0 0; last 1 @1 1 0 0 0 0 0 0 0
        last 2 @1 1 0 0 0 0 0 0 0; last 3 @1 1 0 0 0 0 0 0 0
        0 0 store 0 0 1 = - @1; 0 1 load 3 0 = 0 @0
        1 0 store 1 0 1 = - @1; 1 1 load 2 0 = 0 @0; 1 2 load 0 0 = 0 @0
        2 0 store 2 0 1 = - @1; 2 1 load 1 0 = 0 @0
        3 0 store 3 0 1 = - @1; 3 1 load 0 0 = 0 @0
        finds cycle 1.0 FromRead 2.1 Logged 2.0 FromRead 1.1 Logged

    row an_unlawful_log
        // Unlawful logs get the fault that an audit gives them.
        0 0 store 0 0 1 = - @1
        finds fault 1
";

#[test]
fn small_programs(rt: HostRuntime) -> Result<(), Fail> {
    let (_blank, rows) = ROWS.split_once("row ").ok_or("no row")?;
    for row in rows.split("row ") {
        let (name, rest) = row.split_once('\n').ok_or("no logs")?;
        if let Err(fail) = play(rt.alloc(), rest) {
            let _ = rt.eprintln(format_args!("in the row {name}"));
            return Err(fail);
        }
    }
    Ok(())
}
