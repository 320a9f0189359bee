//! What audits and readers of texts report.

ghost use Rattle.std.specs.Prelude.{◌≡◌};
ghost use Rattle.sci_c_values.specs.Verdict.{kind_number, text_fault_struct, text_kind_number, verdict_struct};

use sci_history::{FaultKind, Verdict};
use sci_text::{TextFault, TextFaultKind};

/// What an audit finds. `kind` is 0 if the logs are lawful, and then all is 0. Else it is 1 to 5 for VersionTwice,
/// VersionMissing, WrongReply, OutOfOrder and LastDiffers. `has_entry` is 1 if `node` and `serial` name the entry where the
/// rule fails.
#[repr(C)]
#[derive(Clone, Copy)]
pub struct SciVerdict {
    pub kind: u32,
    pub line: u32,
    pub has_entry: u32,
    pub node: u32,
    pub serial: u32,
}

/// Where a text is refused, and why. `line` counts from 1. `kind` is 1 to 6 for Syntax, Range, TooMany, Read, Write and
/// Memory.
#[repr(C)]
#[derive(Clone, Copy)]
pub struct SciTextFault {
    pub line: u64,
    pub kind: u32,
    pub reserved: u32,
}

fn kind_out(kind: FaultKind) -> u32
    ensures { result ≡ kind_number kind }
{
    match kind {
        FaultKind::VersionTwice => 1,
        FaultKind::VersionMissing => 2,
        FaultKind::WrongReply => 3,
        FaultKind::OutOfOrder => 4,
        FaultKind::LastDiffers => 5,
    }
}

/// The struct of a verdict.
pub fn verdict_out(verdict: &Verdict) -> SciVerdict
    ensures { result ≡ verdict_struct verdict.now }
{
    match *verdict {
        Verdict::Lawful => SciVerdict {
            kind: 0,
            line: 0,
            has_entry: 0,
            node: 0,
            serial: 0,
        },
        Verdict::Fault { line, kind, at } => {
            let (has_entry, node, serial) = match at {
                None => (0, 0, 0),
                Some((node, serial)) => (1, u32::from(node), serial),
            };
            SciVerdict {
                kind: kind_out(kind),
                line: u32::from(line),
                has_entry,
                node,
                serial,
            }
        }
    }
}

fn text_kind_out(kind: TextFaultKind) -> u32
    ensures { result ≡ text_kind_number kind }
{
    match kind {
        TextFaultKind::Syntax => 1,
        TextFaultKind::Range => 2,
        TextFaultKind::TooMany => 3,
        TextFaultKind::Read => 4,
        TextFaultKind::Write => 5,
        TextFaultKind::Memory => 6,
    }
}

/// The struct of a fault of a text.
pub fn text_fault_out(fault: TextFault) -> SciTextFault
    ensures { result ≡ text_fault_struct fault }
{
    SciTextFault {
        line: fault.line as u64,
        kind: text_kind_out(fault.kind),
        reserved: 0,
    }
}
