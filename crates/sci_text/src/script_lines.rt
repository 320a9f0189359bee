//! Lines of a script, and the whole of its text.

ghost use Rattle.std.specs.Prelude.{◌≡◌, ◌≤◌, ◌⊎◌, ◌++◌, IfOk, IfErr, OnErr, option_map};
ghost use Rattle.sci_text.specs.{declared.fault.TextFaultKind.TheVariants.{Memory}, Reading.{Gives, byte, both}};
ghost use Rattle.sci_text.specs.ScriptReading.{AddsLine, size_of, machine_line_read, operation_line_read};
ghost use Rattle.sci_text.specs.{Script.{IsScript, machine_line, script_text}, FirstFault.{IsShort, IsRefusal}};
ghost use Rattle.sci_text.specs.ScriptFault.{IsScriptFault, MachineFault, OperationFault};

use crate::fault::{TextFault, TextFaultKind, at_line};
use crate::line_length::said_line;
use crate::number::{Number, field};
use crate::operation::{after, byte, operation};
use crate::script::Script;
use sci_words::{Extent, Op};
use std::alloc::Global;

/// The size of these numbers, or None if one of them doesn't fit a byte.
fn size(nodes: Number, lines: Number, slots: Number) -> Option<(u8, u8, u8)>
    ensures { result ≡ option_map size_of (both (byte nodes) (both (byte lines) (byte slots))) }
{
    Some((byte(nodes)?, byte(lines)?, byte(slots)?))
}

/// The size of the line `machine N M C` at the front of `bytes`, or None if a number doesn't fit its type, and the bytes
/// after the line.
#[tactic(auto, unfolding(crate::specs::ScriptReading::machine_line_read))]
fn machine_line(bytes: &[u8]) -> Option<(Option<(u8, u8, u8)>, &[u8])>
    ensures { Gives (λ x. (x.0, x.1.now)) result (machine_line_read bytes.now) }
{
    let rest = after(bytes, b"machine")?;
    let (nodes, rest) = field(rest)?;
    let (lines, rest) = field(rest)?;
    let (slots, rest) = field(rest)?;
    let rest = after(rest, b"\n")?;
    Some((size(nodes, lines, slots), rest))
}

/// The node and the operation of the line `p n OP` at the front of `bytes`, or None if a number doesn't fit
/// its type, and the bytes after the line.
#[tactic(auto, unfolding(crate::specs::ScriptReading::operation_line_read))]
fn operation_line(bytes: &[u8]) -> Option<(Option<(u8, Op)>, &[u8])>
    ensures { Gives (λ x. (x.0, x.1.now)) result (operation_line_read bytes.now) }
{
    let rest = after(bytes, b"p")?;
    let (node, rest) = field(rest)?;
    let rest = after(rest, b" ")?;
    let (op, rest) = operation(rest)?;
    let rest = after(rest, b"\n")?;
    Some((byte(node).zip(op), rest))
}

/// The size that the first line of a script says, and the bytes after the line.
pub fn machine(bytes: &[u8]) -> Result<(Extent, &[u8]), TextFaultKind>
    ensures ok { IfOk result (λ x.
        bytes.now ≡ machine_line x.0.nodes x.0.lines x.0.slots ++ x.1.now) }
    ensures short { IfOk result (λ x. IsShort (machine_line x.0.nodes x.0.lines x.0.slots)) }
    ensures fault { IfErr result (MachineFault bytes.now) }
{
    let ((nodes, lines, slots), rest) = said_line(bytes, machine_line(bytes))?;
    let Some(extent) = Extent::new(nodes, lines, slots) else {
        return Err(TextFaultKind::Range);
    };
    Ok((extent, rest))
}

/// Adds the operation that the first line of `bytes` says, and answers the bytes after the line.
fn push_line<'a>(script: &mut Script, bytes: &'a [u8]) -> Result<&'a [u8], TextFaultKind>
    requires { IsScript script.old }
    ensures ok { IfOk result (λ rest. AddsLine script.old script.new bytes.now rest.now) }
    ensures fault { IfErr result (λ kind.
        (kind ≡ Memory) ⊎ OperationFault script.old bytes.now kind) }
    ensures same { OnErr result (script.new ≡ script.old) }
    ensures good { IsScript script.new }
{
    let ((node, op), rest) = said_line(bytes, operation_line(bytes))?;
    script.push(node, op)?;
    Ok(rest)
}

/// The script whose text the bytes are. A refusal names the first line with a fault, or has line 0 if memory was refused; an
/// input that is too long isn't refused here.
pub fn script_of(alloc: Global, input: &[u8]) -> Result<Script, TextFault>
    ensures ok { IfOk result (λ s. input.now ≡ script_text s) }
    ensures good { IfOk result IsScript }
    ensures fault { IfErr result (IsRefusal IsScriptFault input.now) }
{
    let (extent, mut rest) = at_line(1, machine(input))?;
    let mut script = Script::new(alloc, extent);
    while !rest.is_empty() {
        let line = script.operations().len() + 2;
        rest = at_line(line, push_line(&mut script, rest))?;
    }
    Ok(script)
}
