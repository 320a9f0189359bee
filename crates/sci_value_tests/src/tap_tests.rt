//! Taps: each call is passed on, once, with the whole buffer, and nothing comes after the first that fails.

use crate::readers::{Dripping, KINDS, at};
use sci_history::{Last, Logs};
use sci_text::*;
use std::alloc::Global;
use std::io;
use std::io::{ErrorKind, Read, Write};

/// Takes up to this many bytes of each write, except that the call of number `fails_at` fails or takes nothing, and
/// notes how large each buffer was; for a flush it notes 1,000.
#[derive(Drop)]
struct Taking {
    takes: usize,
    fails_at: usize,
    with: Option<ErrorKind>,
    sizes: Vec<usize>,
}

impl Taking {
    fn new(alloc: Global, takes: usize, fails_at: usize, with: Option<ErrorKind>) -> Taking {
        Taking {
            takes,
            fails_at,
            with,
            sizes: Vec::new(alloc),
        }
    }
}

impl Write for Taking {
    fn write(&mut self, buf: &[u8]) -> io::Result<usize> {
        let fails = self.sizes.len() == self.fails_at;
        self.sizes.push(buf.len())?;
        match self.with {
            Some(kind) if fails => Err(io::Error::from(kind)),
            None if fails => Ok(0),
            _ => Ok(self.takes.min(buf.len())),
        }
    }

    fn flush(&mut self) -> io::Result<()> {
        let fails = self.sizes.len() == self.fails_at;
        self.sizes.push(1_000)?;
        match self.with {
            Some(kind) if fails => Err(io::Error::from(kind)),
            _ => Ok(()),
        }
    }
}

const SCRIPT: &[u8] = b"machine 1 1 1\n";

#[test]
fn a_read_is_passed_on_once(rt: HostRuntime) {
    for with in KINDS {
        let mut inner = Dripping::new(rt.alloc(), b"ab", 1, with);
        let mut tap = Tap::new(&mut inner);
        let mut long = [0u8; 100];
        let mut middle = [0u8; 60];
        let mut short = [0u8; 7];
        assert_eq!(rt; tap.read(&mut long).ok(), Some(1));
        assert!(rt; !tap.failed());
        assert!(rt; tap.read(&mut middle).is_err());
        assert!(rt; tap.failed());
        assert!(rt; !tap.called_again());
        assert_eq!(rt; tap.read(&mut short).ok(), Some(1));
        assert!(rt; tap.failed());
        assert!(rt; tap.called_again());
        assert_eq!(rt; inner.sizes.as_slice(), [100, 60, 7].as_slice());
    }
}

#[test]
fn a_write_is_passed_on_once(rt: HostRuntime) {
    for with in [Some(ErrorKind::Other), Some(ErrorKind::Interrupted), None] {
        let mut inner = Taking::new(rt.alloc(), 3, 1, with);
        let mut tap = Tap::new(&mut inner);
        assert_eq!(rt; tap.write(b"abcdefgh").ok(), Some(3));
        assert!(rt; !tap.failed());
        assert_eq!(rt; tap.write(b"abcde").is_err(), with.is_some());
        assert!(rt; tap.failed());
        assert!(rt; !tap.called_again());
        assert_eq!(rt; tap.write(b"ab").ok(), Some(2));
        assert!(rt; tap.called_again());
        assert_eq!(rt; inner.sizes.as_slice(), [8, 5, 2].as_slice());
    }
}

#[test]
fn a_flush_is_passed_on_once(rt: HostRuntime) {
    for with in KINDS {
        let mut inner = Taking::new(rt.alloc(), 3, 1, Some(with));
        let mut tap = Tap::new(&mut inner);
        assert!(rt; tap.flush().is_ok());
        assert!(rt; !tap.failed());
        assert!(rt; tap.flush().is_err());
        assert!(rt; tap.failed());
        assert_eq!(rt; inner.sizes.as_slice(), [1_000, 1_000].as_slice());
    }
}

#[test]
fn a_write_of_no_bytes_fails_only_by_an_error(rt: HostRuntime) {
    let mut inner = Taking::new(rt.alloc(), 3, 0, None);
    let mut tap = Tap::new(&mut inner);
    assert_eq!(rt; tap.write(b"").ok(), Some(0));
    assert!(rt; !tap.failed());
    let mut inner = Taking::new(rt.alloc(), 3, 0, Some(ErrorKind::Other));
    let mut tap = Tap::new(&mut inner);
    assert!(rt; tap.write(b"").is_err());
    assert!(rt; tap.failed());
}

#[test]
fn nothing_is_read_after_a_failed_read(rt: HostRuntime) {
    for with in KINDS {
        for fails_at in 0..=SCRIPT.len() {
            let mut inner = Dripping::new(rt.alloc(), SCRIPT, fails_at, with);
            let mut tap = Tap::new(&mut inner);
            let read = read_script(rt.alloc(), &mut tap);
            assert_eq!(rt; read.err(), at(0, TextFaultKind::Read));
            assert!(rt; !tap.called_again());
            assert_eq!(rt; inner.sizes.len(), fails_at + 1);
        }
    }
}

#[test]
fn nothing_is_written_after_a_failed_write(rt: HostRuntime) {
    let logs = Logs::new(rt.alloc());
    let last = Last::zero(1);
    // The text has 33 bytes, so there are seven writes.
    for with in [Some(ErrorKind::Other), Some(ErrorKind::Interrupted), None] {
        for fails_at in 0..7 {
            let mut inner = Taking::new(rt.alloc(), 5, fails_at, with);
            let mut tap = Tap::new(&mut inner);
            let wrote = write_logs(rt.alloc(), &mut tap, 1, &logs, &last);
            assert_eq!(rt; wrote.err(), at(0, TextFaultKind::Write), "{fails_at}");
            assert!(rt; tap.failed());
            assert!(rt; !tap.called_again());
            assert_eq!(rt; inner.sizes.len(), fails_at + 1);
        }
    }
}
