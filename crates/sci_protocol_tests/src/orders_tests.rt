//! How many outcomes known small programs have: with one operation of a node waiting at a time, and with up to four.

ghost use Rattle.std.specs.Prelude.{◌≡◌, true};
ghost use Rattle.sci_orders.specs.Positions.{AreWithin, lists_of};

use sci_orders::{Orders, OrdersFault};
use sci_words::{Act, Op, WORDS_PER_LINE};
use std::alloc::{AllocError, Global};
use std::test::*;

/// A node's operations, each by its line and what it does at the first word there.
type Program<'a> = &'a [(u8, Act)];

/// Whether each operation is on one of two lines, and at a word of it.
fn are_on_two_lines(operations: &[Vec<Op>]) -> bool
    ensures { result ≡ true → AreWithin 2 (lists_of operations.now) }
{
    for own in operations {
        for op in own {
            if op.line >= 2 || usize::from(op.word) >= WORDS_PER_LINE {
                return false;
            }
        }
    }
    true
}

/// The number of outcomes of a program for each node.
fn outcomes(alloc: Global, programs: &[Program], window: usize) -> Result<usize, Fail> {
    let mut operations = Vec::new(alloc);
    for program in programs {
        let mut own = Vec::new(alloc);
        for (line, act) in *program {
            own.push(Op {
                line: *line,
                word: 0,
                act: *act,
            })?;
        }
        operations.push(own)?;
    }
    if !are_on_two_lines(&operations) {
        return Err(Fail::from("a line that isn't there"));
    }
    let orders = Orders {
        operations: &operations,
        window,
    };
    match orders.last_standings(alloc, 2) {
        Ok(level) => Ok(level.len()),
        Err(OrdersFault::Memory) => Err(Fail::from(AllocError)),
        Err(OrdersFault::TooMany) => Err(Fail::from("too many")),
    }
}

#[test]
fn known_programs_have_their_outcomes(rt: HostRuntime) -> Result<(), Fail> {
    let alloc = rt.alloc();
    let stores_x = (0, Act::Store(1));
    let stores_y = (1, Act::Store(1));
    let loads_x = (0, Act::Load);
    let loads_y = (1, Act::Load);
    // Store buffering: two zeros only if a load is performed before the store in front of it.
    let buffering: [Program; 2] = [&[stores_x, loads_y], &[stores_y, loads_x]];
    assert_eq!(rt; outcomes(alloc, &buffering, 1)?, 3);
    assert_eq!(rt; outcomes(alloc, &buffering, 4)?, 4);
    // Independent reads of independent writes: in order the readers agree which store came first.
    let reads: [Program; 4] = [
        &[stores_x],
        &[stores_y],
        &[loads_x, loads_y],
        &[loads_y, loads_x],
    ];
    assert_eq!(rt; outcomes(alloc, &reads, 1)?, 15);
    assert_eq!(rt; outcomes(alloc, &reads, 4)?, 16);
    // Two loads of one line are performed in order, whatever the window.
    let coherent: [Program; 2] = [&[stores_x], &[loads_x, loads_x]];
    assert_eq!(rt; outcomes(alloc, &coherent, 1)?, 3);
    assert_eq!(rt; outcomes(alloc, &coherent, 4)?, 3);
    // The store of y passes the second store of x, and never the first one.
    let blocked: [Program; 2] = [
        &[stores_x, (0, Act::Store(2)), stores_y],
        &[loads_y, loads_x],
    ];
    assert_eq!(rt; outcomes(alloc, &blocked, 1)?, 4);
    assert_eq!(rt; outcomes(alloc, &blocked, 4)?, 6);
    Ok(())
}
