//! Why an input is refused, and the line of a refusal.

ghost use Rattle.std.specs.Prelude.{◌≡◌, ◌≤◌, length};
ghost use Rattle.sci_command.specs.Refusal.{kind_word, line_refusal};

use crate::diagnosis::diagnosis;
use crate::text_lines::ReadAs;
use sci_text::{LineEnd, TextFault, TextFaultKind};
use std::alloc::{AllocError, Global};

/// What is said of a fault besides its place.
#[derive(Debug, Drop)]
pub enum Note {
    /// What kind of fault it is.
    Kind,
    /// These words, which take no memory.
    Fixed(&'static str),
    /// These words, which were made of the input.
    Made(Vec<u8>),
}

impl Note {
    /// The words that were made of the input, or else, where memory was refused, what kind of fault it is.
    pub fn of_made(words: Result<Vec<u8>, AllocError>) -> Note {
        match words {
            Ok(words) => Note::Made(words),
            Err(_) => Note::Kind,
        }
    }
}

/// Why an input is refused.
#[derive(Debug, Drop)]
pub struct Refusal {
    /// The first fault of the input.
    pub fault: TextFault,
    /// What is said of it on standard error.
    pub note: Note,
}

/// A fault of which nothing more is known.
impl From<TextFault> for Refusal {
    ghost use Rattle.std.specs.Prelude.{◌≡◌};

    ghost from_gives = { λ fault refusal. refusal.fault ≡ fault };

    fn from(fault: TextFault) -> Refusal {
        Refusal {
            fault,
            note: Note::Kind,
        }
    }
}

/// An allocation that failed is a fault of the whole input.
impl From<AllocError> for Refusal {
    ghost use Rattle.std.specs.Prelude.{◌≡◌};
    ghost use Rattle.sci_text.specs.declared.fault.TextFaultKind.TheVariants.{Memory};

    ghost from_gives = { λ error refusal. (refusal.fault.line ≡ 0) × (refusal.fault.kind ≡ Memory) };

    fn from(error: AllocError) -> Refusal {
        Refusal::from(TextFault::from(error))
    }
}

impl Refusal {
    /// The refusal of a text for its first fault, which says what is wrong with the line, if there is memory for that.
    pub fn of_text(alloc: Global, read_as: ReadAs, text: &[u8], fault: TextFault) -> Refusal
        ensures { result.fault ≡ fault }
    {
        if fault.line == 0 {
            return Refusal::from(fault);
        }
        let note = Note::of_made(diagnosis(alloc, read_as, text, fault));
        Refusal { fault, note }
    }

    /// The refusal of a whole input, which is line 0.
    pub fn of_input(kind: TextFaultKind, note: Note) -> Refusal
        ensures line { result.fault.line ≡ 0 }
        ensures kind { result.fault.kind ≡ kind }
    {
        Refusal {
            fault: TextFault::of_input(kind),
            note,
        }
    }
}

/// The word for what is wrong with a text.
#[tactic(auto, unfolding(crate::specs::Refusal::kind_word))]
pub fn word_of_fault(kind: TextFaultKind) -> &'static str
    ensures word { result.now ≡ kind_word kind }
    ensures short { length result.now ≤ 8 }
{
    match kind {
        TextFaultKind::Syntax => "syntax",
        TextFaultKind::Range => "range",
        TextFaultKind::TooMany => "too-many",
        TextFaultKind::Read => "read",
        TextFaultKind::Write => "write",
        TextFaultKind::Memory => "memory",
    }
}

/// The line of a refusal: `refused at line K: KIND`, and the line feed. It takes no memory that could be refused.
#[tactic(auto, unfolding(crate::specs::Refusal::line_refusal))]
pub fn refusal_line(fault: TextFault) -> LineEnd
    ensures { result ≡ line_refusal fault.line fault.kind }
{
    let mut line = LineEnd::new();
    line.put_text("\n");
    line.put_text(word_of_fault(fault.kind));
    line.put_text(": ");
    line.put_field(fault.line as u64);
    line.put_text("refused at line");
    line
}
