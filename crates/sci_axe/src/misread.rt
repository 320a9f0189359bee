//! What is wrong with a line of a trace, in words: its column, what was expected there, and what stands there.

ghost use Rattle.std.specs.Prelude.{◌≡◌, IfOk, IfErr};
ghost use Rattle.sci_text.specs.FirstFault.{IsRefusal};
ghost use Rattle.sci_judge.specs.Access.{AreKnown};
ghost use Rattle.sci_axe.specs.Trace.{IsTrace, IsTraceFault};

use crate::line::{Relation, relation_at};
use crate::notation::{Number, after_blanks, behind, is_end, number};
use crate::reading::trace_of;
use sci_command::{Note, Refusal, line_of};
use sci_judge::Trace;
use sci_text::{TextFault, TextFaultKind, push_field, push_text};
use sci_words::MAX_NODES;
use std::alloc::{AllocError, Global};

/// How many bytes of what stands in the wrong place are shown.
const MOST_SHOWN: usize = 32;

/// A place of a line, and what was expected there.
#[derive(Clone, Copy)]
struct Mismatch<'a> {
    /// The line from there on.
    rest: &'a [u8],
    expected: &'static str,
}

/// How a line is walked.
#[derive(Clone, Copy)]
struct Walk {
    /// Whether numbers have to be within their limits.
    judges: bool,
}

/// The bytes after a mark.
fn mark<'a>(mark: &[u8], expected: &'static str, rest: &'a [u8]) -> Result<&'a [u8], Mismatch<'a>> {
    match behind(mark, rest) {
        Some(more) => Ok(more),
        None => Err(Mismatch { rest, expected }),
    }
}

/// How a word and memory have to be related: as this says, or in either way. The bytes after it.
fn relation<'a>(wants: Option<Relation>, rest: &'a [u8]) -> Result<&'a [u8], Mismatch<'a>> {
    let expected = match wants {
        None => "\":=\" or \"==\"",
        Some(Relation::Wrote) => "\":=\"",
        Some(Relation::Found) => "\"==\"",
    };
    match relation_at(rest) {
        Some((relation, more)) if wants.is_none() || wants == Some(relation) => Ok(more),
        _ => Err(Mismatch { rest, expected }),
    }
}

impl Walk {
    /// A number of which this is the name and the limit, and the bytes after it.
    fn number<'a>(
        self,
        expected: &'static str,
        rest: &'a [u8],
    ) -> Result<(Number, &'a [u8]), Mismatch<'a>> {
        match number(rest) {
            Some((number, more)) if number.is_some() || !self.judges => Ok((number, more)),
            _ => Err(Mismatch { rest, expected }),
        }
    }

    /// An address in brackets, and the bytes after it.
    fn address<'a>(self, rest: &'a [u8]) -> Result<(Number, &'a [u8]), Mismatch<'a>> {
        let rest = mark(b"[", "\"[\"", rest)?;
        let (address, rest) = self.number("an address below 2^64", rest)?;
        let rest = mark(b"]", "\"]\"", rest)?;
        Ok((address, rest))
    }

    /// The rest of a part of an operation behind its address. The bytes after it.
    fn word<'a>(self, wants: Option<Relation>, rest: &'a [u8]) -> Result<&'a [u8], Mismatch<'a>> {
        let rest = relation(wants, rest)?;
        let (_, rest) = self.number("a word below 2^64", rest)?;
        Ok(rest)
    }

    /// An atomic behind its brace. The bytes after it.
    fn atomic<'a>(self, rest: &'a [u8]) -> Result<&'a [u8], Mismatch<'a>> {
        let rest = mark(b"M", "\"M\"", rest)?;
        let (first, rest) = self.address(rest)?;
        let rest = self.word(Some(Relation::Found), rest)?;
        let rest = mark(b";", "\";\"", rest)?;
        let rest = mark(b"M", "\"M\"", rest)?;
        let second = rest;
        let (address, rest) = self.address(rest)?;
        if address != first {
            return Err(Mismatch {
                rest: second,
                expected: "the same address",
            });
        }
        let rest = self.word(Some(Relation::Wrote), rest)?;
        mark(b"}", "\"}\"", rest)
    }

    /// A time, if there is one, and the bytes after it.
    fn time<'a>(
        self,
        expected: &'static str,
        rest: &'a [u8],
    ) -> Result<(Number, &'a [u8]), Mismatch<'a>> {
        if number(rest).is_none() {
            return Ok((None, rest));
        }
        self.number(expected, rest)
    }

    /// The times of an operation, if there are any. The bytes after them.
    fn times<'a>(self, rest: &'a [u8]) -> Result<&'a [u8], Mismatch<'a>> {
        let Some(rest) = behind(b"@", rest) else {
            return Ok(rest);
        };
        let (begin, rest) = self.time("a begin below 2^64", rest)?;
        let rest = mark(b":", "\":\"", rest)?;
        let at = rest;
        let (end, rest) = self.time("an end below 2^64", rest)?;
        match (begin, end) {
            (Some(begin), Some(end)) if self.judges && end < begin => Err(Mismatch {
                rest: at,
                expected: "an end that isn't before the begin",
            }),
            _ => Ok(rest),
        }
    }

    /// What a processor did, and when.
    fn operation<'a>(self, rest: &'a [u8]) -> Result<(), Mismatch<'a>> {
        if let Some(rest) = behind(b"sync", rest) {
            return end("the end of the line", rest);
        }
        let done = if let Some(rest) = behind(b"{", rest) {
            self.atomic(rest)?
        } else {
            let rest = mark(b"M", "\"M\", \"{\" or \"sync\"", rest)?;
            let (_, rest) = self.address(rest)?;
            self.word(None, rest)?
        };
        let over = self.times(done)?;
        if over.len() == done.len() {
            return end("\"@\" or the end of the line", over);
        }
        end("the end of the line", over)
    }

    /// The whole line.
    fn line<'a>(self, line: &'a [u8]) -> Result<(), Mismatch<'a>> {
        if let Some(rest) = behind(b"final", line) {
            let rest = mark(b"M", "\"M\"", rest)?;
            let (_, rest) = self.address(rest)?;
            let rest = self.word(Some(Relation::Found), rest)?;
            return end("the end of the line", rest);
        }
        let (processor, rest) = self.number("a processor from 0 to 15, or \"final\"", line)?;
        match processor {
            Some(processor) if self.judges && processor >= u64::from(MAX_NODES) => Err(Mismatch {
                rest: line,
                expected: "a processor from 0 to 15",
            }),
            _ => self.operation(mark(b":", "\":\"", rest)?),
        }
    }
}

/// The end of a line.
fn end<'a>(expected: &'static str, rest: &'a [u8]) -> Result<(), Mismatch<'a>> {
    if is_end(rest) {
        return Ok(());
    }
    Err(Mismatch { rest, expected })
}

/// Appends what stands at the front of the bytes.
fn push_found(out: &mut Vec<u8>, rest: &[u8]) -> Result<(), AllocError> {
    if is_end(rest) {
        return push_text(out, "the end of the line");
    }
    let letters = rest
        .iter()
        .take(MOST_SHOWN)
        .take_while(|byte| byte.is_ascii_alphanumeric())
        .count();
    let shown = match rest.get(..letters.max(1)) {
        Some(shown) => shown,
        None => rest,
    };
    if !shown.iter().all(|byte| byte.is_ascii_graphic()) {
        return push_text(out, "a byte that isn't printable ASCII");
    }
    push_text(out, "\"")?;
    out.extend_from_slice(shown)?;
    push_text(out, "\"")
}

/// What is wrong with a line, as it follows the line's number. Refused if memory is.
fn misread(alloc: Global, line: &[u8], kind: TextFaultKind) -> Result<Vec<u8>, AllocError> {
    let mut out = Vec::new(alloc);
    let walk = Walk {
        judges: kind == TextFaultKind::Range,
    };
    match walk.line(line) {
        Ok(()) => push_text(
            &mut out,
            ": another last word of this address stands before it",
        )?,
        Err(mismatch) => {
            let rest = after_blanks(mismatch.rest);
            push_text(&mut out, ", column")?;
            push_field(
                &mut out,
                (line.len().saturating_sub(rest.len()) as u64).saturating_add(1),
            )?;
            push_text(&mut out, ": expected ")?;
            push_text(&mut out, mismatch.expected)?;
            push_text(&mut out, ", found ")?;
            push_found(&mut out, rest)?;
        }
    }
    Ok(out)
}

/// The refusal of a trace for its first fault, which says what is wrong with the line, if there is memory for that.
fn refusal_of(alloc: Global, input: &[u8], fault: TextFault) -> Refusal
    ensures { result.fault ≡ fault }
{
    if fault.line == 0 {
        return Refusal::from(fault);
    }
    let Some(line) = line_of(input, fault.line) else {
        return Refusal::from(fault);
    };
    Refusal {
        fault,
        note: Note::of_made(misread(alloc, line.bytes, fault.kind)),
    }
}

/// The trace whose text the bytes are. Refused as by `trace_of`.
pub fn read_trace(alloc: Global, input: &[u8]) -> Result<Trace, Refusal>
    ensures ok { IfOk result (λ trace. IsTrace input.now trace) }
    ensures known { IfOk result (λ trace. AreKnown trace.accesses.items) }
    ensures fault { IfErr result (λ refusal. IsRefusal IsTraceFault input.now refusal.fault) }
{
    match trace_of(alloc, input) {
        Ok(trace) => Ok(trace),
        Err(fault) => Err(refusal_of(alloc, input, fault)),
    }
}
