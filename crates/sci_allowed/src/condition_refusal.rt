//! What is said of a fault in the line of a condition.

ghost use Rattle.std.specs.Prelude.{◌≡◌, ◌≢◌, ◌⊎◌};
ghost use Rattle.sci_text.specs.declared.fault.TextFaultKind.TheVariants.{Range, Syntax};

use crate::condition_text::ConditionFault;
use sci_command::{Note, Refusal, TextKind};
use sci_text::{TextFault, TextFaultKind, push_field, push_text};
use sci_words::MAX_TEXT_LINE_BYTES;
use std::alloc::{AllocError, Global};

/// The word that stands at the front of the rest of a line, or the parenthesis.
fn word_in_front(rest: &[u8]) -> &[u8] {
    for (end, byte) in rest.iter().enumerate() {
        if end > 0 && (*byte == b' ' || *byte == b')') {
            return &rest[..end];
        }
    }
    rest
}

/// Appends what stands where the rest of a line begins.
fn push_found(out: &mut Vec<u8>, rest: &[u8]) -> Result<(), AllocError> {
    match word_in_front(rest) {
        [] => push_text(out, "the end of the line"),
        [b' ', ..] => push_text(out, "a space"),
        word => {
            push_text(out, "\"")?;
            out.extend_from_slice(word)?;
            push_text(out, "\"")
        }
    }
}

/// What is wrong with a line of a condition, as it follows the number of the line.
fn words_of(alloc: Global, line: &[u8], fault: ConditionFault) -> Result<Vec<u8>, AllocError> {
    let (before, rest) = line.split_at(line.len().saturating_sub(fault.left));
    let mut out = Vec::new(alloc);
    push_text(&mut out, ", column")?;
    push_field(&mut out, (before.len() as u64).saturating_add(1))?;
    push_text(&mut out, ": expected ")?;
    push_text(&mut out, fault.expected)?;
    push_text(&mut out, ", found ")?;
    push_found(&mut out, rest)?;
    Ok(out)
}

/// The refusal of the condition on the line of this number, which isn't 0.
pub(crate) fn refusal_of(
    alloc: Global,
    input: &[u8],
    line: &[u8],
    number: usize,
    fault: ConditionFault,
) -> Refusal
    requires { number ≢ 0 }
    ensures line { result.fault.line ≡ number }
    ensures kind { (result.fault.kind ≡ Syntax) ⊎ (result.fault.kind ≡ Range) }
{
    let kind = if fault.is_range {
        TextFaultKind::Range
    } else {
        TextFaultKind::Syntax
    };
    let told = TextFault { line: number, kind };
    let words = match line {
        [words @ .., b'\n'] => words,
        _ => return Refusal::of_text(alloc, TextKind::Script.known(), input, told),
    };
    let is_plain = words.iter().all(|byte| (b' '..=b'~').contains(byte));
    if !is_plain || words.len() > MAX_TEXT_LINE_BYTES {
        return Refusal::of_text(alloc, TextKind::Script.known(), input, told);
    }
    Refusal {
        fault: told,
        note: Note::of_made(words_of(alloc, words, fault)),
    }
}
