//! Sizes, events and numbers as rows and tables write them.

use sci_text::{Schedule, Tap, read_schedule};
use sci_words::{Event, Extent};
use std::alloc::Global;
use std::test::*;

/// The size that the first line of a schedule says.
pub fn extent_of(alloc: Global, machine: &str) -> Result<Extent, Fail> {
    let text = format!(in alloc; "{machine}\n")?;
    let schedule = read_schedule(alloc, &mut Tap::new(text.as_bytes()))?;
    Ok(schedule.extent())
}

/// The schedule of these events, of the largest machine.
pub fn schedule_of(alloc: Global, events: &str) -> Result<Schedule, Fail> {
    let text = format!(in alloc; "machine 16 64 8\n{events}\n")?;
    Ok(read_schedule(alloc, &mut Tap::new(text.as_bytes()))?)
}

/// The event that a line of a schedule says.
pub fn event_of(alloc: Global, line: &str) -> Result<Event, Fail> {
    let schedule = schedule_of(alloc, line)?;
    let event = schedule.events().first().ok_or("no event")?;
    Ok(*event)
}

/// One or two numbers; the second is 0 if there is none.
pub fn numbers(text: &str) -> Result<(u8, u8), Fail> {
    match text.split_once(' ') {
        Some((first, second)) => Ok((first.parse::<u8>()?, second.parse::<u8>()?)),
        None => Ok((text.parse::<u8>()?, 0)),
    }
}
