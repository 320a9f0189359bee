//! Readers and writers that remember whether they failed.

use std::io;
use std::io::{Read, Write};

/// A reader or a writer that passes each call on, once, and remembers whether a call failed and whether another call
/// came after that. A call fails if it answers an error (an interrupted call too), or if a write takes nothing of a
/// buffer that has bytes.
#[derive(Debug, Drop)]
pub struct Tap<T> {
    inner: T,
    failed: bool,
    called_again: bool,
}

impl<T> Tap<T> {
    ghost use Rattle.std.specs.Prelude.{◌≡◌, false};
    ghost use Rattle.sci_text.specs.Tap.{tapped, has_failed, is_called_again};

    /// A tap on `inner` that has not failed.
    pub fn new(inner: T) -> Tap<T>
        ensures inner { tapped result ≡ inner }
        ensures fresh { has_failed result ≡ false }
        ensures quiet { is_called_again result ≡ false }
    {
        Tap {
            inner,
            failed: false,
            called_again: false,
        }
    }

    /// Whether a call on the tap has failed.
    pub fn failed(&self) -> bool
        ensures { result ≡ has_failed self.now }
    {
        self.failed
    }

    /// Whether a call came after one that failed.
    pub fn called_again(&self) -> bool
        ensures { result ≡ is_called_again self.now }
    {
        self.called_again
    }
}

impl<R: Read> Read for Tap<R> {
    ghost use Rattle.std.specs.{Prelude.{◌≡◌, ◌||◌, is_err}, Io.{ReadsAtMost, KnownBytes.{ReadConsumes}}};
    ghost use Rattle.sci_text.specs.Tap.{tapped, has_failed, is_called_again};

    ghost remaining = { λ tap. R.remaining (tapped tap) };

    fn read(&mut self, buf: &mut [u8]) -> io::Result<usize>
        ensures bound { ReadsAtMost result buf.new }
        ensures bytes { ReadConsumes
            (R.remaining (tapped self.old)) (R.remaining (tapped self.new)) result buf.new }
        ensures failed { has_failed self.new ≡ (has_failed self.old || is_err result) }
        ensures again { is_called_again self.new
            ≡ (is_called_again self.old || has_failed self.old) }
    {
        self.called_again = self.called_again || self.failed;
        let result = self.inner.read(buf);
        if result.is_err() {
            self.failed = true;
        }
        result
    }
}

impl<W: Write> Write for Tap<W> {
    ghost use Rattle.std.specs.{Prelude.{◌≡◌, ◌||◌, is_err}, Io.{WritesAtMost, KnownBytes.{WriteAppends, Keeps}}};
    ghost use Rattle.sci_text.specs.Tap.{tapped, has_failed, is_called_again, write_fails};

    ghost contents = { λ tap. W.contents (tapped tap) };

    fn write(&mut self, buf: &[u8]) -> io::Result<usize>
        ensures bound { WritesAtMost result buf.now }
        ensures bytes { WriteAppends
            (W.contents (tapped self.old)) (W.contents (tapped self.new)) result buf.now }
        ensures failed { has_failed self.new ≡ (has_failed self.old || write_fails result buf.now) }
        ensures again { is_called_again self.new
            ≡ (is_called_again self.old || has_failed self.old) }
    {
        self.called_again = self.called_again || self.failed;
        let result = self.inner.write(buf);
        let failed = match &result {
            Ok(count) => *count == 0 && !buf.is_empty(),
            Err(_) => true,
        };
        if failed {
            self.failed = true;
        }
        result
    }

    fn flush(&mut self) -> io::Result<()>
        ensures bytes { Keeps (W.contents (tapped self.old)) (W.contents (tapped self.new)) }
        ensures failed { has_failed self.new ≡ (has_failed self.old || is_err result) }
        ensures again { is_called_again self.new
            ≡ (is_called_again self.old || has_failed self.old) }
    {
        self.called_again = self.called_again || self.failed;
        let result = self.inner.flush();
        if result.is_err() {
            self.failed = true;
        }
        result
    }
}
