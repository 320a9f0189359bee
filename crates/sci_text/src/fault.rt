//! Why a text is refused, or couldn't be read or written.

ghost use Rattle.std.specs.{Prelude.{◌≡◌, Ok}, Result.{IsErrAnd, MatchResult}};
ghost use Rattle.sci_text.specs.FirstFault.{IsToldAt};

use std::alloc::AllocError;

/// What is wrong. On one line Syntax comes before Range, and Range before TooMany.
#[derive(Clone, Copy, Debug, PartialEq, Eq)]
pub enum TextFaultKind {
    /// A line is not of the grammar at its place, longer than 256 bytes, or not ended by a line feed.
    Syntax,
    /// A number is outside its limits.
    Range,
    /// More operations of a node, events or bytes than a text may have.
    TooMany,
    /// The reader failed.
    Read,
    /// The writer failed.
    Write,
    /// Memory was refused.
    Memory,
}

/// The first fault of a text.
#[derive(Clone, Copy, Debug, PartialEq, Eq)]
pub struct TextFault {
    /// The number of the line, from 1, or 0 for the whole input.
    pub line: usize,
    /// What is wrong there.
    pub kind: TextFaultKind,
}

/// An allocation that failed is a fault of the whole input.
impl From<AllocError> for TextFault {
    ghost use Rattle.std.specs.Prelude.{◌≡◌};
    ghost use Rattle.sci_text.specs.declared.fault.TextFaultKind.TheVariants.{Memory};

    ghost from_gives = { λ error fault. (fault.line ≡ 0) × (fault.kind ≡ Memory) };

    fn from(_error: AllocError) -> TextFault {
        TextFault {
            line: 0,
            kind: TextFaultKind::Memory,
        }
    }
}

impl TextFault {
    ghost use Rattle.sci_text.specs.FirstFault.{told_line};

    /// A fault of the whole input.
    pub fn of_input(kind: TextFaultKind) -> TextFault
        ensures line { result.line ≡ 0 }
        ensures kind { result.kind ≡ kind }
    {
        TextFault { line: 0, kind }
    }

    /// A fault of this line, or of the whole input if it is Memory.
    pub(crate) fn at(line: usize, kind: TextFaultKind) -> TextFault
        ensures kind { result.kind ≡ kind }
        ensures line { result.line ≡ told_line line kind }
    {
        match kind {
            TextFaultKind::Memory => TextFault::of_input(kind),
            _ => TextFault { line, kind },
        }
    }
}

/// What came of a line: its fault is reported of this line, or of the whole input if it is Memory.
pub fn at_line<T: Drop>(line: usize, read: Result<T, TextFaultKind>) -> Result<T, TextFault>
    ensures { MatchResult read (λ x. result ≡ Ok x) (λ kind. IsErrAnd result (IsToldAt line kind)) }
{
    match read {
        Ok(value) => Ok(value),
        Err(kind) => Err(TextFault::at(line, kind)),
    }
}
