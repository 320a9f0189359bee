//! What the nodes are to do.

ghost use Rattle.std.specs.Prelude.{◌≡◌};
ghost use Rattle.sci_words.specs.declared.{event.Event.TheVariants.{Issue}, operation.Act.TheVariants.{Lock}};
ghost use Rattle.sci_words.specs.declared.operation.LockOp.TheVariants.{FetchAdd};

use sci_words::{Act, Event, LockOp, Op};

/// The event by which a node issues an addition of 1 to word 0 of a line.
pub(crate) fn addition(node: u8, line: u8) -> Event
    ensures { result ≡ Issue node (record { line = line; word = 0; act = Lock (FetchAdd 1) }) }
{
    Event::Issue {
        node,
        op: Op {
            line,
            word: 0,
            act: Act::Lock(LockOp::FetchAdd { datum: 1 }),
        },
    }
}
