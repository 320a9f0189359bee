//! Texts that are read, and texts that are refused, by readers of several kinds.

use crate::readers::{
    Dripping, Many, at, reads_fail_in_turn, refused, refused_lines, refused_nines, repeated,
};
use sci_text::*;
use sci_words::{Act, Extent, LockOp, Op};
use std::alloc::Global;
use std::io::ErrorKind;
use std::test::Fail;

const STORE_THEN_LOAD: &[u8] = b"machine 2 1 1\np 0 store 0 0 7\np 1 load 0 0\n";

fn read(alloc: Global, text: &[u8]) -> Result<Script, TextFault> {
    read_script(alloc, &mut Tap::new(text))
}

fn op(line: u8, word: u8, act: Act) -> Op {
    Op { line, word, act }
}

#[test]
fn store_then_load(rt: HostRuntime) -> Result<(), Fail> {
    let script = read(rt.alloc(), STORE_THEN_LOAD)?;
    assert_eq!(rt; Some(script.extent()), Extent::new(2, 1, 1));
    assert_eq!(rt;
        script.operations(),
        [(0, op(0, 0, Act::Store(7))), (1, op(0, 0, Act::Load))].as_slice()
    );
    Ok(())
}

#[test]
fn every_operation(rt: HostRuntime) -> Result<(), Fail> {
    let text = b"machine 16 64 8\n\
        p 15 load 63 7\n\
        p 0 store 1 2 18446744073709551615\n\
        p 1 mask-swap 2 3 15 58\n\
        p 2 compare-swap 3 4 5 9\n\
        p 3 fetch-add 4 5 1\n\
        p 4 bounded-add 5 6 5 1\n\
        p 10 wrap-add 60 0 9 18446744073709551615\n";
    let script = read(rt.alloc(), text)?;
    assert_eq!(rt; Some(script.extent()), Extent::new(16, 64, 8));
    let most = 18_446_744_073_709_551_615;
    assert_eq!(rt;
        script.operations(),
        [
            (15, op(63, 7, Act::Load)),
            (0, op(1, 2, Act::Store(most))),
            (
                1,
                op(2, 3, Act::Lock(LockOp::MaskSwap { arg: 15, datum: 58 }))
            ),
            (
                2,
                op(3, 4, Act::Lock(LockOp::CompareSwap { arg: 5, datum: 9 }))
            ),
            (3, op(4, 5, Act::Lock(LockOp::FetchAdd { datum: 1 }))),
            (
                4,
                op(5, 6, Act::Lock(LockOp::BoundedAdd { arg: 5, datum: 1 }))
            ),
            (
                10,
                op(
                    60,
                    0,
                    Act::Lock(LockOp::WrapAdd {
                        arg: 9,
                        datum: most
                    })
                )
            ),
        ]
        .as_slice()
    );
    Ok(())
}

/// First lines, or texts of none, that break the form.
const MALFORMED_MACHINES: [&[u8]; 15] = [
    b"",
    b"\n",
    b"machine 1 1 1",
    b"machine 1 1 1\r\n",
    b"machine 1 1 1 \n",
    b" machine 1 1 1\n",
    b"machine  1 1 1\n",
    b"machine 1 1\n",
    b"machine 1 1 1 1\n",
    b"machine 01 1 1\n",
    b"machine 1 1 +1\n",
    b"machine 1 1 -1\n",
    b"Machine 1 1 1\n",
    b"p 0 load 0 0\n",
    b"machine 17 1 01\n",
];

/// Well-formed first lines of no machine.
const MACHINES_OUT_OF_RANGE: [&[u8]; 6] = [
    b"machine 17 1 1\n",
    b"machine 0 1 1\n",
    b"machine 1 65 1\n",
    b"machine 1 1 9\n",
    b"machine 257 1 1\n",
    b"machine 1 99999999999999999999999999 1\n",
];

/// Operations that break the form of a script, though a number may also be out of range.
const MALFORMED: [&[u8]; 22] = [
    b"p 0 store 0 0 07\n",
    b"p 0 store 0 0 7",
    b"p 0 store 0 8 07\n",
    b"p 0  store 0 0 7\n",
    b"p 0 store  0 0 7\n",
    b"p 0 store 0 0 7 \n",
    b"p 0 store 0 0 7\r\n",
    b"p\t0 load 0 0\n",
    b"\n",
    b"machine 1 1 1\n",
    b"p 0 load 0 0 7\n",
    b"p 0 store 0 0\n",
    b"p 0 mask-swap 0 0 1\n",
    b"p 0 compare-swap 0 0 1\n",
    b"p 0 fetch-add 0 0 1 2\n",
    b"p 0 bounded-add 0 0 1\n",
    b"p 0 wrap-add 0 0 1\n",
    b"p 0 mask_swap 0 0 1 2\n",
    b"p 0 little-add 0 0 1\n",
    b"p 0 loads 0 0\n",
    b"p 1 load 0\n",
    b"p 99999999999999999999999 load 0 00\n",
];

/// Well-formed operations that a machine of one node, one line and one slot lacks.
const OUT_OF_RANGE: [&[u8]; 10] = [
    b"p 0 store 0 8 1\n",
    b"p 1 load 0 0\n",
    b"p 256 load 0 0\n",
    b"p 0 load 1 0\n",
    b"p 0 load 256 0\n",
    b"p 0 load 0 8\n",
    b"p 0 load 0 256\n",
    b"p 0 store 0 0 18446744073709551616\n",
    b"p 0 store 0 0 99999999999999999999999999\n",
    b"p 0 wrap-add 0 0 18446744073709551616 1\n",
];

#[test]
fn refused_texts(rt: HostRuntime) -> Result<(), Fail> {
    let (malformed, out_of_range) = (TextFaultKind::Syntax, TextFaultKind::Range);
    refused_lines::<Script>(&rt, b"", &MALFORMED_MACHINES, at(1, malformed))?;
    refused_lines::<Script>(&rt, b"", &MACHINES_OUT_OF_RANGE, at(1, out_of_range))?;
    refused_lines::<Script>(&rt, b"machine 1 1 1\n", &MALFORMED, at(2, malformed))?;
    refused_lines::<Script>(&rt, b"machine 1 1 1\n", &OUT_OF_RANGE, at(2, out_of_range))
}

#[test]
fn the_first_faulty_line_is_told(rt: HostRuntime) {
    let text = b"machine 1 1 1\np 0 load 0 0\np 0 load 0 8\np 0 load\n";
    refused::<Script>(&rt, text, at(3, TextFaultKind::Range));
}

#[test]
fn lines_of_256_bytes(rt: HostRuntime) -> Result<(), Fail> {
    let operation: &[u8] = b"machine 1 1 1\np 0 store 0 0 ";
    let machine: &[u8] = b"machine 1 1 ";
    let table = [
        (operation, 242, at(2, TextFaultKind::Range)),
        (operation, 243, at(2, TextFaultKind::Syntax)),
        (machine, 244, at(1, TextFaultKind::Range)),
        (machine, 245, at(1, TextFaultKind::Syntax)),
    ];
    for (front, digits, fault) in table {
        refused_nines::<Script>(&rt, front, digits, fault)?;
    }
    Ok(())
}

#[test]
fn limits(rt: HostRuntime) -> Result<(), Fail> {
    assert!(rt; read(rt.alloc(), b"machine 9 1 1\n").is_ok());
    assert!(rt; read(rt.alloc(), b"machine 16 64 8\n").is_ok());
    let mut text = repeated(rt.alloc(), b"machine 2 1 1\n", b"p 0 load 0 0\n", 65_536)?;
    assert_eq!(rt; read(rt.alloc(), &text)?.operations().len(), 65_536);
    text.extend_from_slice(b"p 1 load 0 0\n")?;
    assert_eq!(rt; read(rt.alloc(), &text)?.operations().len(), 65_537);
    text.extend_from_slice(b"p 0 load 0 0\n")?;
    refused::<Script>(&rt, &text, at(65_539, TextFaultKind::TooMany));
    Ok(())
}

#[test]
fn too_long(rt: HostRuntime) {
    let most = read_script(rt.alloc(), &mut Tap::new(Many(134_217_728)));
    assert_eq!(rt; most.err(), at(1, TextFaultKind::Syntax));
    let more = read_script(rt.alloc(), &mut Tap::new(Many(134_217_729)));
    assert_eq!(rt; more.err(), at(0, TextFaultKind::TooMany));
}

#[test]
fn a_reader_of_one_byte_at_a_time(rt: HostRuntime) -> Result<(), Fail> {
    let texts: [&[u8]; 4] = [
        STORE_THEN_LOAD,
        b"machine 1 1 1\np 0 store 0 8 1\n",
        b"machine 1 1 1\np 0 store 0 0 7",
        b"",
    ];
    for text in texts {
        let mut tap = Tap::new(Dripping::new(rt.alloc(), text, usize::MAX, ErrorKind::Other));
        let whole = read(rt.alloc(), text);
        let dripped = read_script(rt.alloc(), &mut tap);
        assert!(rt; !tap.failed());
        match (whole, dripped) {
            (Ok(a), Ok(b)) => assert_eq!(rt; a.operations(), b.operations()),
            (Err(a), Err(b)) => assert_eq!(rt; a, b),
            _ => assert!(rt; false, "{text:?}"),
        }
    }
    Ok(())
}

#[test]
fn each_read_fails_in_turn(rt: HostRuntime) {
    reads_fail_in_turn::<Script>(&rt, STORE_THEN_LOAD);
}

#[test]
fn pushes(rt: HostRuntime) -> Result<(), Fail> {
    let extent = Extent::new(2, 3, 1).ok_or("an extent")?;
    let mut script = Script::new(rt.alloc(), extent);
    assert_eq!(rt; script.push(1, op(2, 7, Act::Load)), Ok(()));
    assert_eq!(rt; script.push(2, op(2, 7, Act::Load)), Err(PushFault::Range));
    assert_eq!(rt; script.push(1, op(3, 7, Act::Load)), Err(PushFault::Range));
    assert_eq!(rt; script.push(1, op(2, 8, Act::Load)), Err(PushFault::Range));
    assert_eq!(rt; script.operations(), [(1, op(2, 7, Act::Load))].as_slice());
    Ok(())
}
