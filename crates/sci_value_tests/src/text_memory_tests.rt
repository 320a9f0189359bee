//! Calls whose allocations are refused. With every allocation granted each gives its answer. `make faults` refuses one
//! allocation in turn: the call that needed it says so, and the same call then gives the answer.

use crate::readers::{MEMORY, again};
use sci_text::*;
use sci_words::{Act, Event, Extent, Op};
use std::io;
use std::process::Abort;
use std::test::*;

const SCRIPT: &[u8] = b"machine 2 1 1\n\
    p 0 store 0 0 7\np 1 load 0 0\np 0 load 0 1\np 1 store 0 1 8\np 0 fetch-add 0 0 1\n\
    p 1 load 0 0\np 0 load 0 1\np 1 store 0 1 9\np 0 fetch-add 0 0 2\n";

const SCHEDULE: &[u8] =
    b"machine 2 1 1\nissue 0 store 0 0 7\nask 0 0 mread\nserve 0 0\nreply 0\naccept 0 0\nperform 0 0\n";

const LOG: &[u8] =
    b"log 2 2 1\nlast 0 @1 7 0 0 0 0 0 0 0\n0 0 store 0 0 7 = - @1\n1 0 load 0 0 = 7 @1\n";

#[test]
fn memory_for_a_script(rt: HostRuntime) -> Result<(), Fail> {
    let script = again!(rt; read_script(rt.alloc(), &mut Tap::new(SCRIPT)), MEMORY)?;
    assert_eq!(rt; Some(script.extent()), Extent::new(2, 1, 1));
    assert_eq!(rt; script.operations().len(), 9);
    Ok(())
}

/// Fixed room for a text, so that writing into it takes no memory.
#[derive(Drop)]
struct Room {
    bytes: [u8; 200],
    used: usize,
}

impl Room {
    fn new() -> Room {
        Room {
            bytes: [0; 200],
            used: 0,
        }
    }
}

impl io::Write for Room {
    fn write(&mut self, buf: &[u8]) -> io::Result<usize> {
        let Some(rest) = self.bytes.get_mut(self.used..) else {
            return Ok(0);
        };
        let count = rest.len().min(buf.len());
        rest[..count].copy_from_slice(&buf[..count]);
        self.used = self.used.saturating_add(count);
        Ok(count)
    }

    fn flush(&mut self) -> io::Result<()> {
        Ok(())
    }
}

/// That the room has this text and nothing else.
fn expect_written(rt: &impl Abort, room: &Room, text: &[u8]) {
    assert_eq!(rt; room.bytes.get(..room.used), Some(text));
}

// A refused writing has written nothing, so that the text is written once in the end.
#[test]
fn memory_for_writing_a_schedule(rt: HostRuntime) -> Result<(), Fail> {
    let schedule = again!(rt; read_schedule(rt.alloc(), &mut Tap::new(SCHEDULE)), MEMORY)?;
    assert_eq!(rt; schedule.events().len(), 6);
    let mut room = Room::new();
    if let Err(fault) = write_schedule(rt.alloc(), &mut Tap::new(&mut room), &schedule) {
        assert_eq!(rt; fault, MEMORY);
        assert_eq!(rt; room.used, 0);
        write_schedule(rt.alloc(), &mut Tap::new(&mut room), &schedule)?;
    }
    expect_written(&rt, &room, SCHEDULE);
    Ok(())
}

#[test]
fn memory_for_writing_logs(rt: HostRuntime) -> Result<(), Fail> {
    let (nodes, logs, last) = again!(rt; read_logs(rt.alloc(), &mut Tap::new(LOG)), MEMORY)?;
    let mut room = Room::new();
    if let Err(fault) = write_logs(rt.alloc(), &mut Tap::new(&mut room), nodes, &logs, &last) {
        assert_eq!(rt; fault, MEMORY);
        assert_eq!(rt; room.used, 0);
        write_logs(rt.alloc(), &mut Tap::new(&mut room), nodes, &logs, &last)?;
    }
    expect_written(&rt, &room, LOG);
    Ok(())
}

#[test]
fn a_refused_operation_is_in_no_script(rt: HostRuntime) -> Result<(), Fail> {
    let extent = Extent::new(1, 1, 1).ok_or("an extent")?;
    let mut script = Script::new(rt.alloc(), extent);
    let op = Op {
        line: 0,
        word: 0,
        act: Act::Load,
    };
    for count in 0..20 {
        if let Err(fault) = script.push(0, op) {
            assert_eq!(rt; fault, PushFault::Memory);
            assert_eq!(rt; script.operations().len(), count);
            assert_eq!(rt; script.push(0, op), Ok(()));
        }
        assert_eq!(rt; script.operations().len(), count + 1);
    }
    Ok(())
}

#[test]
fn a_refused_event_is_in_no_schedule(rt: HostRuntime) -> Result<(), Fail> {
    let extent = Extent::new(1, 1, 1).ok_or("an extent")?;
    let mut schedule = Schedule::new(rt.alloc(), extent);
    let event = Event::Reply { node: 0 };
    for count in 0..20 {
        if let Err(fault) = schedule.push(event) {
            assert_eq!(rt; fault, PushFault::Memory);
            assert_eq!(rt; schedule.events().len(), count);
            assert_eq!(rt; schedule.push(event), Ok(()));
        }
        assert_eq!(rt; schedule.events().len(), count + 1);
    }
    Ok(())
}
