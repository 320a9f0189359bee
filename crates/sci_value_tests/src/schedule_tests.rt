//! Schedules that are read, and schedules that are refused.

use crate::readers::{
    Dripping, Many, at, reads_fail_in_turn, refused, refused_lines, refused_nines, repeated,
};
use sci_text::*;
use sci_words::{Act, AskKind, Event, Extent, Op};
use std::alloc::Global;
use std::io::ErrorKind;
use std::test::Fail;

const ONE_STORE: &[u8] =
    b"machine 2 1 1\nissue 0 store 0 0 7\nask 0 0 mread\nserve 0 0\nreply 0\naccept 0 0\nperform 0 0\n";

fn read(alloc: Global, text: &[u8]) -> Result<Schedule, TextFault> {
    read_schedule(alloc, &mut Tap::new(text))
}

fn ask(node: u8, line: u8, kind: AskKind) -> Event {
    Event::Ask { node, line, kind }
}

#[test]
fn every_event(rt: HostRuntime) -> Result<(), Fail> {
    let text = b"machine 16 64 8\n\
        issue 15 store 63 7 18446744073709551615\n\
        perform 14 62\n\
        serve 13 12\n\
        refuse 11 10\n\
        reply 9\n\
        accept 8 7\n";
    let schedule = read(rt.alloc(), text)?;
    assert_eq!(rt; Some(schedule.extent()), Extent::new(16, 64, 8));
    let op = Op {
        line: 63,
        word: 7,
        act: Act::Store(18_446_744_073_709_551_615),
    };
    assert_eq!(rt;
        schedule.events(),
        [
            Event::Issue { node: 15, op },
            Event::Perform { node: 14, line: 62 },
            Event::Serve { from: 13, node: 12 },
            Event::Refuse { from: 11, node: 10 },
            Event::Reply { node: 9 },
            Event::Accept { from: 8, node: 7 },
        ]
        .as_slice()
    );
    Ok(())
}

#[test]
fn every_kind_of_ask(rt: HostRuntime) -> Result<(), Fail> {
    let text = b"machine 3 4 2\n\
        ask 0 1 mread\n\
        ask 1 2 fread\n\
        ask 2 3 cread\n\
        ask 0 2 claim\n\
        ask 1 3 clear\n\
        ask 2 1 purge\n\
        ask 0 3 roll\n\
        ask 1 0 wback\n\
        ask 2 0 setback\n";
    assert_eq!(rt;
        read(rt.alloc(), text)?.events(),
        [
            ask(0, 1, AskKind::Mread),
            ask(1, 2, AskKind::Fread),
            ask(2, 3, AskKind::Cread),
            ask(0, 2, AskKind::Claim),
            ask(1, 3, AskKind::Clear),
            ask(2, 1, AskKind::Purge),
            ask(0, 3, AskKind::Roll),
            ask(1, 0, AskKind::Wback),
            ask(2, 0, AskKind::Setback),
        ]
        .as_slice()
    );
    Ok(())
}

#[test]
fn a_machine_with_no_event(rt: HostRuntime) -> Result<(), Fail> {
    assert_eq!(rt; read(rt.alloc(), b"machine 2 1 1\n")?.events().len(), 0);
    Ok(())
}

/// Well-formed events that a machine of two nodes, one line and one slot lacks.
const OUT_OF_RANGE: [&[u8]; 17] = [
    b"serve 2 0\n",
    b"serve 0 2\n",
    b"serve 256 0\n",
    b"refuse 2 0\n",
    b"refuse 0 2\n",
    b"accept 2 0\n",
    b"accept 0 2\n",
    b"reply 2\n",
    b"reply 99999999999999999999999999\n",
    b"perform 2 0\n",
    b"perform 0 1\n",
    b"ask 2 0 mread\n",
    b"ask 0 1 mread\n",
    b"issue 2 load 0 0\n",
    b"issue 0 load 1 0\n",
    b"issue 0 load 0 8\n",
    b"issue 0 store 0 0 18446744073709551616\n",
];

/// Events that break the form of a schedule, though a number may also be out of range.
const MALFORMED: [&[u8]; 22] = [
    b"ask 0 0 cwrite\n",
    b"ask 2 1 cwrite\n",
    b"ask 0 0 mreads\n",
    b"ask 0 0 0\n",
    b"ask 0 0\n",
    b"ask 0 mread\n",
    b"ask 0 0  mread\n",
    b"ask 0 0 Mread\n",
    b"serve 0\n",
    b"serve 0 0 0\n",
    b"serve 0 00\n",
    b"serve  0 0\n",
    b"serve 0 0 \n",
    b"serve 0 0\r\n",
    b"serve 0 0",
    b"reply\n",
    b"reply 0 0\n",
    b"answer 0\n",
    b"p 0 load 0 0\n",
    b"issue 0  load 0 0\n",
    b"\n",
    b"machine 2 1 1\n",
];

#[test]
fn refused_schedules(rt: HostRuntime) -> Result<(), Fail> {
    let machine = b"machine 2 1 1\n";
    refused_lines::<Schedule>(&rt, machine, &MALFORMED, at(2, TextFaultKind::Syntax))?;
    refused_lines::<Schedule>(&rt, machine, &OUT_OF_RANGE, at(2, TextFaultKind::Range))
}

#[test]
fn the_first_faulty_event_is_told(rt: HostRuntime) {
    refused::<Schedule>(&rt, b"", at(1, TextFaultKind::Syntax));
    refused::<Schedule>(&rt, b"reply 0\n", at(1, TextFaultKind::Syntax));
    refused::<Schedule>(&rt, b"machine 17 1 1\n", at(1, TextFaultKind::Range));
    let text = b"machine 1 1 1\nreply 0\nreply 1\nreply\n";
    refused::<Schedule>(&rt, text, at(3, TextFaultKind::Range));
}

#[test]
fn events_of_256_bytes(rt: HostRuntime) -> Result<(), Fail> {
    let front = b"machine 1 1 1\nreply ";
    refused_nines::<Schedule>(&rt, front, 250, at(2, TextFaultKind::Range))?;
    refused_nines::<Schedule>(&rt, front, 251, at(2, TextFaultKind::Syntax))
}

#[test]
fn too_many_events_or_bytes(rt: HostRuntime) -> Result<(), Fail> {
    let mut text = repeated(rt.alloc(), b"machine 2 1 1\n", b"reply 0\n", 500_000)?;
    assert_eq!(rt; read(rt.alloc(), &text)?.events().len(), 500_000);
    text.extend_from_slice(b"reply 2\n")?;
    refused::<Schedule>(&rt, &text, at(500_002, TextFaultKind::Range));
    let text = repeated(rt.alloc(), b"machine 2 1 1\n", b"reply 0\n", 500_001)?;
    refused::<Schedule>(&rt, &text, at(500_002, TextFaultKind::TooMany));
    let more = read_schedule(rt.alloc(), &mut Tap::new(Many(134_217_729)));
    assert_eq!(rt; more.err(), at(0, TextFaultKind::TooMany));
    Ok(())
}

#[test]
fn each_read_of_a_schedule_fails_in_turn(rt: HostRuntime) -> Result<(), Fail> {
    reads_fail_in_turn::<Schedule>(&rt, ONE_STORE);
    let dripping = Dripping::new(rt.alloc(), ONE_STORE, usize::MAX, ErrorKind::Other);
    let dripped = read_schedule(rt.alloc(), &mut Tap::new(dripping))?;
    assert_eq!(rt; dripped.events(), read(rt.alloc(), ONE_STORE)?.events());
    Ok(())
}

#[test]
fn pushed_events(rt: HostRuntime) -> Result<(), Fail> {
    let extent = Extent::new(2, 3, 1).ok_or("an extent")?;
    let mut schedule = Schedule::new(rt.alloc(), extent);
    let event = ask(1, 2, AskKind::Roll);
    assert_eq!(rt; schedule.push(event), Ok(()));
    for outside in [
        ask(2, 2, AskKind::Roll),
        ask(1, 3, AskKind::Roll),
        Event::Serve { from: 2, node: 0 },
        Event::Accept { from: 0, node: 2 },
    ] {
        assert_eq!(rt; schedule.push(outside), Err(PushFault::Range));
    }
    assert_eq!(rt; schedule.events(), [event].as_slice());
    let last = Event::Reply { node: 1 };
    assert_eq!(rt; schedule.push(last), Ok(()));
    assert_eq!(rt; schedule.pop(), Some(last));
    assert_eq!(rt; schedule.events(), [event].as_slice());
    assert_eq!(rt; schedule.pop(), Some(event));
    assert_eq!(rt; schedule.pop(), None);
    Ok(())
}

#[test]
fn a_schedule_is_written_as_it_was_read(rt: HostRuntime) -> Result<(), Fail> {
    let text = b"machine 16 64 8\n\
        issue 15 store 63 7 18446744073709551615\n\
        perform 0 1\n\
        ask 1 2 setback\n\
        serve 3 4\n\
        refuse 5 6\n\
        reply 7\n\
        accept 8 9\n";
    let schedule = read(rt.alloc(), text)?;
    let mut written = Vec::new(rt.alloc());
    write_schedule(rt.alloc(), &mut Tap::new(&mut written), &schedule)?;
    assert_eq!(rt; written.as_slice(), text.as_slice());
    Ok(())
}
