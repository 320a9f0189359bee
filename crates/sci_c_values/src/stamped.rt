//! Lines with their versions.

ghost use Rattle.std.specs.Prelude.{◌≡◌};
ghost use Rattle.sci_c_values.specs.Stamped.{stamped_of, stamped_struct};

use sci_words::{Line, Stamped, WORDS_PER_LINE};

/// The eight words of a line, and the number of their version.
#[repr(C)]
#[derive(Clone, Copy)]
pub struct SciStamped {
    pub version: u64,
    pub words: [u64; 8],
}

/// The stamped line that the struct says.
pub fn stamped_in(stamped: &SciStamped) -> Stamped
    ensures { result ≡ stamped_of stamped.now }
{
    Stamped {
        line: Line::of_words(&stamped.words),
        version: stamped.version,
    }
}

/// The struct of a stamped line.
pub fn stamped_out(stamped: &Stamped) -> SciStamped
    ensures { result ≡ stamped_struct stamped.now }
{
    let mut words = [0; WORDS_PER_LINE];
    words.copy_from_slice(stamped.line.words());
    SciStamped {
        version: stamped.version,
        words,
    }
}
