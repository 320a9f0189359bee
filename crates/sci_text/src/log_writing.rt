//! Writing logs: the whole text is made first, and then written.

ghost use Rattle.std.specs.{Prelude.{◌≡◌, ◌+◌, ◌≤◌, ◌++◌, false, length, IfOk, IfErr, OnOk}, List.{flat_map}};
ghost use Rattle.std.specs.Io.KnownBytes.{Appends};
ghost use Rattle.sci_words.specs.declared.limits.TheConstants.{MAX_TEXT_LINE_BYTES};
ghost use Rattle.sci_text.specs.Number.{field as field_text};
ghost use Rattle.sci_text.specs.Log.{entry_line as entry_text, entry_lines, issue_text, last_line as last_text, last_lines, log_line as log_line_text};
ghost use Rattle.sci_text.specs.{Log.{log_text, outcome_text, reply_text, version_text}, LogValue.{AreLogs, IsLogs}};
ghost use Rattle.sci_text.specs.{Tap.{has_failed, is_called_again, tapped}, Writing.{IsWriteFault}};

use crate::fault::TextFault;
use crate::line_end::LineEnd;
use crate::log_laws::written_again;
use crate::printing::{push_field, push_number, push_text, put_operation};
use crate::tap::Tap;
use crate::writing::write_text;
use sci_history::{Entry, Last, Logs};
use sci_words::{Line, Reply, Stamped};
use std::alloc::{AllocError, Global};
use std::io::Write;

fn put_reply(line: &mut LineEnd, reply: Reply)
    requires { 20 + length line.old ≤ MAX_TEXT_LINE_BYTES }
    ensures text { line.new ≡ reply_text reply ++ line.old }
    ensures short { length line.new ≤ 20 + length line.old }
{
    match reply {
        Reply::Stored => line.put_text("-"),
        Reply::Got(word) => line.put_number(word),
    }
}

#[tactic(auto, unfolding(crate::specs::Log::version_text))]
fn put_version(line: &mut LineEnd, version: u64)
    requires { 22 + length line.old ≤ MAX_TEXT_LINE_BYTES }
    ensures text { line.new ≡ version_text version ++ line.old }
    ensures short { length line.new ≤ 22 + length line.old }
{
    line.put_number(version);
    line.put_text(" @");
}

#[tactic(auto, unfolding(crate::specs::Log::issue_text))]
fn put_issue(line: &mut LineEnd, entry: &Entry)
    requires { 138 + length line.old ≤ MAX_TEXT_LINE_BYTES }
    ensures text { line.new ≡ issue_text entry.now ++ line.old }
    ensures short { length line.new ≤ 138 + length line.old }
{
    put_operation(line, entry.op);
    line.put_text(" ");
    line.put_field(u64::from(entry.serial));
    line.put_number(u64::from(entry.node));
}

#[tactic(auto, unfolding(crate::specs::Log::outcome_text))]
fn put_outcome(line: &mut LineEnd, entry: &Entry)
    requires { 45 + length line.old ≤ MAX_TEXT_LINE_BYTES }
    ensures text { line.new ≡ outcome_text entry.now ++ line.old }
    ensures short { length line.new ≤ 45 + length line.old }
{
    put_version(line, entry.version);
    put_reply(line, entry.reply);
    line.put_text(" = ");
}

fn put_entry(line: &mut LineEnd, entry: &Entry)
    requires { 183 + length line.old ≤ MAX_TEXT_LINE_BYTES }
    ensures text { line.new ≡ issue_text entry.now ++ (outcome_text entry.now ++ line.old) }
    ensures short { length line.new ≤ 183 + length line.old }
{
    put_outcome(line, entry);
    put_issue(line, entry);
}

/// Appends what the line of an entry says, `n serial OP = REPLY @V`, without its line feed. Refused if memory is.
pub fn push_entry(out: &mut Vec<u8>, entry: &Entry) -> Result<(), AllocError>
    ensures { OnOk result (out.new.items
        ≡ out.old.items ++ (issue_text entry.now ++ outcome_text entry.now)) }
{
    let mut line = LineEnd::new();
    put_entry(&mut line, entry);
    out.extend_from_slice(line.as_slice())
}

/// Appends the line of an entry.
#[tactic(auto, unfolding(crate::specs::Log::entry_line))]
fn push_entry_line(out: &mut Vec<u8>, entry: &Entry) -> Result<(), AllocError>
    ensures { OnOk result (out.new.items ≡ out.old.items ++ entry_text entry.now) }
{
    let mut line = LineEnd::new();
    line.put_text("\n");
    put_entry(&mut line, entry);
    out.extend_from_slice(line.as_slice())
}

fn push_words(out: &mut Vec<u8>, line: &Line) -> Result<(), AllocError>
    ensures { OnOk result (out.new.items ≡ out.old.items ++ flat_map field_text line.now) }
{
    for word in line.words() {
        push_field(out, *word)?;
    }
    Ok(())
}

/// Appends the line of a stamped line of the last contents.
#[tactic(auto, unfolding(crate::specs::Log::last_line, crate::specs::Log::version_text))]
fn push_last_line(out: &mut Vec<u8>, line: u8, stamped: &Stamped) -> Result<(), AllocError>
    ensures { OnOk result (out.new.items ≡ out.old.items ++ last_text line stamped.now) }
{
    push_text(out, "last")?;
    push_field(out, u64::from(line))?;
    push_text(out, " @")?;
    push_number(out, stamped.version)?;
    push_words(out, &stamped.line)?;
    push_text(out, "\n")
}

#[tactic(auto, unfolding(crate::specs::Log::log_line))]
fn push_log_line(out: &mut Vec<u8>, nodes: u8, lines: u8) -> Result<(), AllocError>
    ensures { OnOk result (out.new.items ≡ out.old.items ++ log_line_text nodes lines) }
{
    push_text(out, "log 2")?;
    push_field(out, u64::from(nodes))?;
    push_field(out, u64::from(lines))?;
    push_text(out, "\n")
}

fn push_last(out: &mut Vec<u8>, last: &Last) -> Result<(), AllocError>
    ensures { OnOk result (out.new.items ≡ out.old.items ++ last_lines 0 last.now) }
{
    for line in 0..last.lines() {
        push_last_line(out, line, &last.get(line))?;
    }
    Ok(())
}

fn push_log(out: &mut Vec<u8>, log: &[Entry]) -> Result<(), AllocError>
    ensures { OnOk result (out.new.items ≡ out.old.items ++ flat_map entry_text log.now) }
{
    for entry in log {
        push_entry_line(out, entry)?;
    }
    Ok(())
}

fn push_logs(out: &mut Vec<u8>, logs: &Logs) -> Result<(), AllocError>
    ensures { OnOk result (out.new.items ≡ out.old.items ++ entry_lines logs.now) }
{
    for node in 0..logs.nodes() {
        push_log(out, logs.of(node))?;
    }
    Ok(())
}

/// The text of logs with last contents in format 2, for a machine of that many nodes. For logs within the limits of a
/// text it is read back as these logs and no others. Refused only if an allocation failed.
pub fn logs_text(alloc: Global, nodes: u8, logs: &Logs, last: &Last) -> Result<Vec<u8>, AllocError>
    ensures text { IfOk result (λ text. text.items ≡ log_text nodes logs.now last.now) }
    ensures says { AreLogs nodes logs.now last.now
        → IfOk result (λ text. IsLogs text.items nodes logs.now last.now) }
{
    written_again();
    let mut text = Vec::new(alloc);
    push_log_line(&mut text, nodes, last.lines())?;
    push_last(&mut text, last)?;
    push_logs(&mut text, logs)?;
    Ok(text)
}

/// Writes the text of logs with last contents in format 2, for a machine of that many nodes: the whole text is made
/// before its first byte is written. A refusal is Write if the writer failed, and a prefix of the text may have gone
/// out then; or Memory if an allocation failed, and nothing has. Both have line 0.
pub fn write_logs<W: Write>(
    alloc: Global,
    writer: &mut Tap<W>,
    nodes: u8,
    logs: &Logs,
    last: &Last,
) -> Result<(), TextFault>
    requires { has_failed writer.old ≡ false }
    ensures text { OnOk result (
        Appends (W.contents (tapped writer.old)) (W.contents (tapped writer.new))
        (log_text nodes logs.now last.now)) }
    ensures says { OnOk result (AreLogs nodes logs.now last.now
        → IsLogs (log_text nodes logs.now last.now) nodes logs.now last.now) }
    ensures unfailed { OnOk result (has_failed writer.new ≡ false) }
    ensures line { IfErr result (λ fault. fault.line ≡ 0) }
    ensures fault { IfErr result (λ fault. IsWriteFault fault.kind
        (W.contents (tapped writer.old)) (W.contents (tapped writer.new))
        (has_failed writer.new) (log_text nodes logs.now last.now)) }
    ensures again { is_called_again writer.new ≡ is_called_again writer.old }
{
    let text = logs_text(alloc, nodes, logs, last)?;
    write_text(writer, &text)
}
