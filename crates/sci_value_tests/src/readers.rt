//! Texts and readers that tests of several formats share.

ghost use Rattle.std.specs.Prelude.{◌≡◌, false};
ghost use Rattle.sci_text.specs.Tap.{has_failed};

use sci_text::{Schedule, Script, Tap, TextFault, TextFaultKind, read_schedule, read_script};
use std::alloc::{AllocError, Global};
use std::io;
use std::io::{ErrorKind, Read};
use std::process::Abort;
use std::test::*;

/// What is read of a text.
pub(crate) trait Format: Drop {
    fn read<R: Read>(alloc: Global, reader: &mut Tap<R>) -> Result<Self, TextFault>
        requires { has_failed reader.old ≡ false };
}

impl Format for Script {
    fn read<R: Read>(alloc: Global, reader: &mut Tap<R>) -> Result<Script, TextFault> {
        read_script(alloc, reader)
    }
}

impl Format for Schedule {
    fn read<R: Read>(alloc: Global, reader: &mut Tap<R>) -> Result<Schedule, TextFault> {
        read_schedule(alloc, reader)
    }
}

/// That a text has this fault.
pub(crate) fn refused<F: Format>(
    rt: &(impl Abort + AllocGlobal),
    text: &[u8],
    fault: Option<TextFault>,
) {
    let read = F::read(rt.alloc(), &mut Tap::new(text));
    assert_eq!(rt; read.err(), fault, "{text:?}");
}

/// That a front has this fault with each of these lines behind it.
pub(crate) fn refused_lines<F: Format>(
    rt: &(impl Abort + AllocGlobal),
    front: &[u8],
    lines: &[&[u8]],
    fault: Option<TextFault>,
) -> Result<(), Fail> {
    for line in lines {
        refused::<F>(rt, &repeated(rt.alloc(), front, line, 1)?, fault);
    }
    Ok(())
}

/// That a front has this fault with this many nines and the end of the line behind it.
pub(crate) fn refused_nines<F: Format>(
    rt: &(impl Abort + AllocGlobal),
    front: &[u8],
    digits: usize,
    fault: Option<TextFault>,
) -> Result<(), Fail> {
    let mut text = repeated(rt.alloc(), front, b"9", digits)?;
    text.push(b'\n')?;
    refused::<F>(rt, &text, fault);
    Ok(())
}

/// That a text is read a byte at a time, and that a read which fails is reported, whichever it is.
pub(crate) fn reads_fail_in_turn<F: Format>(rt: &(impl Abort + AllocGlobal), text: &[u8]) {
    for with in KINDS {
        for fails_at in 0..=text.len() + 1 {
            let mut tap = Tap::new(Dripping::new(rt.alloc(), text, fails_at, with));
            let fault = F::read(rt.alloc(), &mut tap).err();
            let fails = fails_at <= text.len();
            let wanted = if fails {
                at(0, TextFaultKind::Read)
            } else {
                None
            };
            assert_eq!(rt; tap.failed(), fails, "{fails_at}");
            assert_eq!(rt; fault, wanted, "{fails_at}");
        }
    }
}

/// The kinds of errors with which reads and writes fail.
pub(crate) const KINDS: [ErrorKind; 2] = [ErrorKind::Other, ErrorKind::Interrupted];

/// A fault of this kind at a line.
pub(crate) fn at(line: usize, kind: TextFaultKind) -> Option<TextFault> {
    Some(TextFault { line, kind })
}

/// What a call says whose allocation was refused.
pub(crate) const MEMORY: TextFault = TextFault {
    line: 0,
    kind: TextFaultKind::Memory,
};

/// What a call gives. If memory is refused, the call has to say so, and is made again.
macro_rules! again {
    ($rt:expr; $call:expr, $refused:expr) => {
        match $call {
            Ok(given) => Ok(given),
            Err(fault) => {
                assert_eq!($rt; fault, $refused);
                $call
            }
        }
    };
}

pub(crate) use again;

/// A text of `front` and `count` times `line`.
pub(crate) fn repeated(
    alloc: Global,
    front: &[u8],
    line: &[u8],
    count: usize,
) -> Result<Vec<u8>, AllocError> {
    let mut text = Vec::from_slice(alloc, front)?;
    for _ in 0..count {
        text.extend_from_slice(line)?;
    }
    Ok(text)
}

/// Gives this many bytes `m`, as much as each buffer has room for.
#[derive(Drop)]
pub(crate) struct Many(pub(crate) usize);

impl Read for Many {
    fn read(&mut self, buf: &mut [u8]) -> io::Result<usize> {
        let count = buf.len().min(self.0);
        for byte in buf.iter_mut() {
            *byte = b'm';
        }
        self.0 -= count;
        Ok(count)
    }
}

/// Gives one byte at a time, fails at the read of this number alone, and notes how large each buffer was.
#[derive(Drop)]
pub(crate) struct Dripping<'a> {
    rest: &'a [u8],
    fails_at: usize,
    with: ErrorKind,
    pub(crate) sizes: Vec<usize>,
}

impl<'a> Dripping<'a> {
    pub(crate) fn new(
        alloc: Global,
        rest: &'a [u8],
        fails_at: usize,
        with: ErrorKind,
    ) -> Dripping<'a> {
        Dripping {
            rest,
            fails_at,
            with,
            sizes: Vec::new(alloc),
        }
    }
}

impl Read for Dripping<'_> {
    fn read(&mut self, buf: &mut [u8]) -> io::Result<usize> {
        let fails = self.sizes.len() == self.fails_at;
        self.sizes.push(buf.len())?;
        if fails {
            return Err(io::Error::from(self.with));
        }
        let Some((first, rest)) = self.rest.split_first() else {
            return Ok(0);
        };
        if buf.is_empty() {
            return Ok(0);
        }
        buf[0] = *first;
        self.rest = rest;
        Ok(1)
    }
}
