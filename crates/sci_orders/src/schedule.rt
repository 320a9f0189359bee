//! A schedule of the machine for an order of Issues and Performs.

ghost use Rattle.std.specs.Prelude.{◌≡◌, ◌++◌, ℕ, IfOk, OnOk};
ghost use Rattle.sci_core.specs.Size.{size_of};
ghost use Rattle.sci_orders.specs.Witness.{round_of, schedule_of as schedule_of_order, turn_of};

use sci_words::{AskKind, Event, Extent};
use std::alloc::{AllocError, Global};

/// A round with the line's home: it is asked, serves the request and answers, and the answer is accepted.
fn round(extent: Extent, node: u8, line: u8, kind: AskKind) -> [Event; 4]
    ensures { (limit : ℕ) → result ≡ round_of (size_of extent limit) node line kind }
{
    let home = line % extent.nodes;
    [
        Event::Ask { node, line, kind },
        Event::Serve {
            from: node,
            node: home,
        },
        Event::Reply { node: home },
        Event::Accept { from: home, node },
    ]
}

/// Appends an Issue as it is, and of a Perform nine events: its node reads the line, performs, and writes the line back.
fn push_turn(events: &mut Vec<Event>, extent: Extent, event: Event) -> Result<(), AllocError>
    ensures { OnOk result ((limit : ℕ) →
        events.new.items ≡ events.old.items ++ turn_of (size_of extent limit) event) }
{
    let Event::Perform { node, line } = event else {
        events.push(event)?;
        return Ok(());
    };
    events.extend_from_slice(&round(extent, node, line, AskKind::Mread))?;
    events.push(event)?;
    events.extend_from_slice(&round(extent, node, line, AskKind::Wback))?;
    Ok(())
}

/// A schedule of a machine of this size for an order: each Issue as it is, and nine events for each Perform. Refused if
/// memory is.
pub(crate) fn schedule_of(
    alloc: Global,
    extent: Extent,
    order: &[Event],
) -> Result<Vec<Event>, AllocError>
    ensures { IfOk result (λ schedule. (limit : ℕ) →
        schedule.items ≡ schedule_of_order (size_of extent limit) order.now) }
{
    let mut events = Vec::new(alloc);
    for event in order {
        push_turn(&mut events, extent, *event)?;
    }
    Ok(events)
}
