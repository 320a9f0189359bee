//! The lines of a log, and the whole of its text.

ghost use Rattle.std.specs.Prelude.{◌≡◌, ◌<◌, ◌≤◌, ◌⊎◌, ◌++◌, ℕ, List, [], Some, length, IfOk, IfErr, OnErr};
ghost use Rattle.std.specs.Bool.{OnTrue, OnFalse};
ghost use Rattle.sci_words.specs.declared.limits.TheConstants.{MAX_LINES};
ghost use Rattle.sci_text.specs.{declared.fault.TextFaultKind.TheVariants.{Memory}, FirstFault.{IsRefusal}};
ghost use Rattle.sci_text.specs.Log.{last_lines};
ghost use Rattle.sci_text.specs.LogReading.{AddsEntry, AddsLast, BeginsLast, HasRead, IsLatest, IsRefusalAfter, NoLast, no_logs};
ghost use Rattle.sci_text.specs.LogValue.{AreLogs, HasAllLines, IsForm, IsFront, IsLogs, front_of};
ghost use Rattle.sci_text.specs.LogFault.{IsLogFault, LogLineFault};

use crate::fault::{TextFault, TextFaultKind, at_line};
use crate::line_length::check_length;
use crate::log_entry::{entry_line, last_line};
use crate::log_form::{Form, form_of};
use crate::number::Number;
use crate::operation::after;
use sci_history::{Last, Logs, PushFault};
use sci_words::{MAX_LINES, Stamped};
use std::alloc::{AllocError, Global};

/// Whether a number of a text is `n`.
fn is_number(number: Number, n: u64) -> bool
    ensures yes { OnTrue result (number ≡ Some n) }
    ensures no { OnFalse result (number ≡ Some n → ⊥) }
{
    match number {
        None => false,
        Some(m) => m == n,
    }
}

/// Whether a number of a text is below `n`.
fn is_below(number: Number, n: u8) -> bool
    ensures yes { OnTrue result ((m : ℕ) × (number ≡ Some m) × (m < n)) }
    ensures no { OnFalse result ((m : ℕ) → number ≡ Some m → n ≤ m) }
{
    match number {
        None => false,
        Some(m) => m < u64::from(n),
    }
}

/// Adds the contents that the `last` line at the front of `bytes` says, and answers the bytes after the line.
fn push_last<'a>(
    form: &Form,
    last: &mut Vec<Stamped>,
    bytes: &'a [u8],
) -> Result<&'a [u8], TextFaultKind>
    requires few { length last.old.items ≤ MAX_LINES }
    requires begins { BeginsLast bytes.now }
    ensures ok { IfOk result (λ rest.
        AddsLast form.now last.old.items last.new.items bytes.now rest.now) }
    ensures same { OnErr result (last.new.items ≡ last.old.items) }
    ensures fault { IfErr result (λ kind. (kind ≡ Memory)
        ⊎ LogLineFault (front_of form.now last.old.items no_logs) bytes.now kind) }
{
    let Some((said, rest)) = last_line(bytes) else {
        return Err(TextFaultKind::Syntax);
    };
    check_length(bytes, rest)?;
    if !is_number(said.line, last.len() as u64) {
        return Err(TextFaultKind::Syntax);
    }
    if !form.has_room(last.len()) {
        return Err(TextFaultKind::Syntax);
    }
    if last.len() >= MAX_LINES as usize {
        return Err(TextFaultKind::Range);
    }
    let Some(stamped) = said.stamped else {
        return Err(TextFaultKind::Range);
    };
    match last.push(stamped) {
        Ok(()) => Ok(rest),
        Err(_) => Err(TextFaultKind::Memory),
    }
}

/// The contents that the `last` lines at the front of `bytes` say, and the bytes after the lines.
fn contents<'a>(
    alloc: Global,
    form: &Form,
    bytes: &'a [u8],
) -> Result<(Vec<Stamped>, &'a [u8]), TextFault>
    requires { IsForm form.now }
    ensures ok { IfOk result (λ x. bytes.now ≡ last_lines 0 x.0.items ++ x.1.now) }
    ensures good { IfOk result (λ x. IsFront (front_of form.now x.0.items no_logs)) }
    ensures whole { IfOk result (λ x. HasAllLines form.now.lines (length x.0.items)) }
    ensures no_more { IfOk result (λ x. BeginsLast x.1.now → ⊥) }
    ensures fault { IfErr result (IsRefusalAfter form.now bytes.now) }
{
    let mut last = Vec::new(alloc);
    let mut rest = bytes;
    while after(rest, b"last").is_some() {
        let line = form.first_lines() + last.len() + 1;
        rest = at_line(line, push_last(form, &mut last, rest))?;
    }
    if !form.has_all_lines(last.len()) {
        let line = form.first_lines() + last.len() + 1;
        return Err(TextFault::at(line, TextFaultKind::Syntax));
    }
    Ok((last, rest))
}

/// Ends its node's log with the entry that the line at the front of `bytes` says, and answers the node and the bytes
/// after the line. No node after `latest` has entries.
fn push_entry<'a>(
    form: &Form,
    last: &[Stamped],
    logs: &mut Logs,
    latest: u8,
    bytes: &'a [u8],
) -> Result<(u8, &'a [u8]), TextFaultKind>
    requires good { IsFront (front_of form.now last.now logs.old) }
    requires whole { HasAllLines form.now.lines (length last.now) }
    requires latest { IsLatest logs.old latest }
    requires no_last { NoLast (front_of form.now last.now logs.old) bytes.now }
    ensures ok { IfOk result (λ x.
        AddsEntry form.now (length last.now) logs.old logs.new latest x.0 bytes.now x.1.now) }
    ensures same { OnErr result (logs.new ≡ logs.old) }
    ensures fault { IfErr result (λ kind. (kind ≡ Memory)
        ⊎ LogLineFault (front_of form.now last.now logs.old) bytes.now kind) }
{
    let Some(((node, entry), rest)) = entry_line(bytes) else {
        return Err(TextFaultKind::Syntax);
    };
    check_length(bytes, rest)?;
    if is_below(node, latest) {
        return Err(TextFaultKind::Syntax);
    }
    let Some(entry) = entry else {
        return Err(TextFaultKind::Range);
    };
    if !form.admits(last.len(), &entry) {
        return Err(TextFaultKind::Range);
    }
    if logs.of(entry.node).len() >= form.entries as usize {
        return Err(TextFaultKind::TooMany);
    }
    match logs.push(entry) {
        Ok(()) => Ok((entry.node, rest)),
        Err(PushFault::Full) => Err(TextFaultKind::TooMany),
        Err(PushFault::Memory(_)) => Err(TextFaultKind::Memory),
    }
}

/// The last contents of these lines, on the heap, as they take some KB. Refused if memory is.
#[inline(never)]
fn last_of(alloc: Global, contents: &[Stamped]) -> Result<Box<Last, Global>, AllocError>
    requires some { 1 ≤ length contents.now }
    requires few { length contents.now ≤ MAX_LINES }
    ensures { IfOk result (λ last. last.value ≡ contents.now) }
{
    let lines = contents.len() as u8;
    let mut last = Box::new(alloc, Last::zero(lines))?;
    for line in 0..lines {
        last.set(line, contents[line as usize]);
    }
    Ok(last)
}

/// Reads the logs of a text from its front, some lines at a time.
#[derive(Drop)]
pub(crate) struct LogReader {
    form: Form,
    last: Vec<Stamped>,
    logs: Logs,
    /// The node of the last entry, or 0 before the first.
    latest: u8,
    /// The number of the next line.
    line: usize,
}

impl LogReader {
    /// Reads the lines before the entries, and answers the bytes after them.
    fn new(alloc: Global, input: &[u8]) -> Result<(LogReader, &[u8]), TextFault>
        ensures ok { IfOk result (λ x. HasRead input.now x.0 x.1.now) }
        ensures fault { IfErr result (IsRefusal IsLogFault input.now) }
    {
        let (form, rest) = at_line(1, form_of(input))?;
        let (last, rest) = contents(alloc, &form, rest)?;
        let line = form.first_lines() + last.len() + 1;
        let reader = LogReader {
            form,
            last,
            logs: Logs::new(alloc),
            latest: 0,
            line,
        };
        Ok((reader, rest))
    }

    /// Reads entries from the front of `bytes` until at most `left` bytes are left, and answers those.
    fn read<'a>(&mut self, bytes: &'a [u8], left: usize) -> Result<&'a [u8], TextFault>
        requires { (input : List ℕ) × HasRead input self.old bytes.now }
        ensures ok { (input : List ℕ) → HasRead input self.old bytes.now →
            IfOk result (λ rest. HasRead input self.new rest.now) }
        ensures left { IfOk result (λ rest. length rest.now ≤ left) }
        ensures fault { (input : List ℕ) → HasRead input self.old bytes.now →
            IfErr result (IsRefusal IsLogFault input) }
    {
        let mut rest = bytes;
        while rest.len() > left {
            let read = push_entry(&self.form, &self.last, &mut self.logs, self.latest, rest);
            (self.latest, rest) = at_line(self.line, read)?;
            self.line += 1;
        }
        Ok(rest)
    }

    /// The number of nodes, the logs and the last contents of a text that was read to its end. Refused if memory is.
    fn finish(self, alloc: Global) -> Result<(u8, Logs, Box<Last, Global>), AllocError>
        requires { (input : List ℕ) × HasRead input self [] }
        ensures logs { (input : List ℕ) → HasRead input self [] →
            IfOk result (λ x. IsLogs input x.0 x.1 x.2.value) }
        ensures good { IfOk result (λ x. AreLogs x.0 x.1 x.2.value) }
    {
        let last = last_of(alloc, &self.last)?;
        Ok((self.form.nodes, self.logs, last))
    }
}

/// The logs and the last contents whose text the bytes are, in either format, with the number of nodes. A refusal names the
/// first line with a fault, or has line 0 if memory was refused; an input that is too long isn't refused here.
pub fn logs_of(alloc: Global, input: &[u8]) -> Result<(u8, Logs, Box<Last, Global>), TextFault>
    ensures ok { IfOk result (λ x. IsLogs input.now x.0 x.1 x.2.value) }
    ensures good { IfOk result (λ x. AreLogs x.0 x.1 x.2.value) }
    ensures fault { IfErr result (IsRefusal IsLogFault input.now) }
{
    let (mut reader, rest) = LogReader::new(alloc, input)?;
    let _end = reader.read(rest, 0)?;
    Ok(reader.finish(alloc)?)
}

/// What `logs_of` answers, of a text that is given up. Once half of its entries' bytes are read, the others are copied and the
/// text is dropped, so that the whole text and all entries are never in memory together.
pub fn logs_of_text(
    alloc: Global,
    input: Vec<u8>,
) -> Result<(u8, Logs, Box<Last, Global>), TextFault>
    ensures ok { IfOk result (λ x. IsLogs input.items x.0 x.1 x.2.value) }
    ensures good { IfOk result (λ x. AreLogs x.0 x.1 x.2.value) }
    ensures fault { IfErr result (IsRefusal IsLogFault input.items) }
{
    let (mut reader, rest) = LogReader::new(alloc, &input)?;
    let rest = reader.read(rest, rest.len() / 2)?;
    // With room for the whole text: when a block of at most 32 MiB is freed, the C library's allocator takes the next ones of
    // its size from its heap, and keeps them there.
    let mut copy = Vec::with_capacity(alloc, input.len())?;
    copy.extend_from_slice(rest)?;
    drop(input);
    let _end = reader.read(&copy, 0)?;
    Ok(reader.finish(alloc)?)
}
