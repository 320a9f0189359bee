//! The line that says what an audit found.

ghost use Rattle.std.specs.Prelude.{◌≡◌, ◌++◌, IfOk, OnOk};
ghost use Rattle.sci_command.specs.VerdictLine.{kind_text, named_text, verdict_text};

use sci_history::{FaultKind, Verdict};
use sci_text::{push_field, push_text};
use std::alloc::{AllocError, Global};

/// The number of a kind of fault, and its name.
#[tactic(auto, unfolding(crate::specs::VerdictLine::kind_text))]
fn kind_words(kind: FaultKind) -> &'static str
    ensures { result.now ≡ kind_text kind }
{
    match kind {
        FaultKind::VersionTwice => "fault 1 version-twice",
        FaultKind::VersionMissing => "fault 2 version-missing",
        FaultKind::WrongReply => "fault 3 wrong-reply",
        FaultKind::OutOfOrder => "fault 4 out-of-order",
        FaultKind::LastDiffers => "fault 5 last-differs",
    }
}

/// Appends node and serial of an entry that is named.
#[tactic(auto, unfolding(crate::specs::VerdictLine::named_text))]
fn push_named(out: &mut Vec<u8>, at: Option<(u8, u32)>) -> Result<(), AllocError>
    ensures { OnOk result (out.new.items ≡ out.old.items ++ named_text at) }
{
    match at {
        None => Ok(()),
        Some((node, serial)) => {
            push_text(out, " node")?;
            push_field(out, u64::from(node))?;
            push_text(out, " serial")?;
            push_field(out, u64::from(serial))
        }
    }
}

/// The line of a verdict: `lawful`, or `fault K NAME line L node N serial S` (without node and serial if the last
/// contents differ). Refused if memory is.
#[tactic(auto, unfolding(crate::specs::VerdictLine::verdict_text))]
pub fn verdict_line(alloc: Global, verdict: Verdict) -> Result<Vec<u8>, AllocError>
    ensures { IfOk result (λ text. text.items ≡ verdict_text verdict) }
{
    let mut text = Vec::new(alloc);
    match verdict {
        Verdict::Lawful => push_text(&mut text, "lawful")?,
        Verdict::Fault { line, kind, at } => {
            push_text(&mut text, kind_words(kind))?;
            push_text(&mut text, " line")?;
            push_field(&mut text, u64::from(line))?;
            push_named(&mut text, at)?;
        }
    }
    push_text(&mut text, "\n")?;
    Ok(text)
}
