//! Standard output, and whether it failed otherwise than by a reader that has left.

ghost use Rattle.std.specs.Prelude.{◌≡◌};
ghost use Rattle.std.specs.IoError.{error_kind};
ghost use Rattle.sci_command.specs.Output.{has_left_by};

use std::io;
use std::io::{Error, ErrorKind, Write};

/// Whether a write failed since its reader has left.
fn has_left(error: &Error) -> bool
    ensures { result ≡ has_left_by (error_kind error.now) }
{
    matches!(error.kind(), ErrorKind::BrokenPipe)
}

/// A writer that passes each call on, once, and remembers whether one failed though its reader hadn't left. A call fails as
/// one on a `Tap` does; a reader has left if the error is BrokenPipe.
#[derive(Debug, Drop)]
pub struct Output<W> {
    inner: W,
    broken: bool,
}

impl<W> Output<W> {
    ghost use Rattle.std.specs.Prelude.{◌≡◌, false};
    ghost use Rattle.sci_command.specs.Output.{is_broken, written_to};

    /// A writer on `inner` that has not failed.
    pub fn new(inner: W) -> Output<W>
        ensures inner { written_to result ≡ inner }
        ensures fresh { is_broken result ≡ false }
    {
        Output {
            inner,
            broken: false,
        }
    }

    /// Whether a call has failed though the reader hadn't left.
    pub fn is_broken(&self) -> bool
        ensures { result ≡ is_broken self.now }
    {
        self.broken
    }
}

impl<W: Write> Write for Output<W> {
    ghost use Rattle.std.specs.{Prelude.{◌≡◌, ◌||◌}, Io.{WritesAtMost, KnownBytes.{WriteAppends, Keeps}}};
    ghost use Rattle.sci_command.specs.Output.{flush_breaks, is_broken, write_breaks, written_to};

    ghost contents = { λ output. W.contents (written_to output) };

    fn write(&mut self, buf: &[u8]) -> io::Result<usize>
        ensures bound { WritesAtMost result buf.now }
        ensures bytes { WriteAppends
            (W.contents (written_to self.old)) (W.contents (written_to self.new)) result buf.now }
        ensures broken { is_broken self.new ≡ (is_broken self.old || write_breaks result buf.now) }
    {
        let result = self.inner.write(buf);
        let breaks = match &result {
            Ok(count) => *count == 0 && !buf.is_empty(),
            Err(error) => !has_left(error),
        };
        if breaks {
            self.broken = true;
        }
        result
    }

    fn flush(&mut self) -> io::Result<()>
        ensures bytes { Keeps (W.contents (written_to self.old)) (W.contents (written_to self.new)) }
        ensures broken { is_broken self.new ≡ (is_broken self.old || flush_breaks result) }
    {
        let result = self.inner.flush();
        let breaks = match &result {
            Ok(()) => false,
            Err(error) => !has_left(error),
        };
        if breaks {
            self.broken = true;
        }
        result
    }
}
