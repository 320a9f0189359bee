//! What is wrong with a line of a text, in words: its column, what stands there, and what was expected.

use crate::line_forms::{Form, read_form};
use crate::line_words::{Expected, Limits, Mismatch, is_number};
use crate::printing::push_labelled;
use crate::text_lines::{ReadAs, TextKind, form_of, line_of};
use sci_text::{TextFault, TextFaultKind, push_field, push_text};
use sci_words::MAX_TEXT_LINE_BYTES;
use std::alloc::{AllocError, Global};

/// What a byte is that can stand in no text, if it is the last of its line or not. None for a byte that can.
fn odd_byte(byte: u8, is_last: bool) -> Option<&'static str> {
    match byte {
        b' '..=b'~' => None,
        b'\r' if is_last => Some("a carriage return before the line feed"),
        b'\r' => Some("a carriage return"),
        b'\t' => Some("a tab, where one space separates words"),
        _ => Some("a byte that isn't printable ASCII"),
    }
}

/// The column of a line's first byte that can stand in no text, and what it is.
fn odd_column(line: &[u8]) -> Option<(usize, &'static str)> {
    if line.starts_with(b"\xef\xbb\xbf") {
        return Some((1, "a byte order mark"));
    }
    for (place, byte) in line.iter().enumerate() {
        let is_last = place.saturating_add(1) == line.len();
        if let Some(words) = odd_byte(*byte, is_last) {
            return Some((place.saturating_add(1), words));
        }
    }
    None
}

/// What is wrong with a line whatever should stand there: the column, and what it is. A line that ends has a line feed behind
/// it.
fn oddity(line: &[u8], ends: bool) -> Option<(usize, &'static str)> {
    let odd = odd_column(line);
    if odd.is_some() {
        return odd;
    }
    if line.is_empty() {
        return Some((1, "an empty line"));
    }
    if line.starts_with(b"#") || line.starts_with(b"//") {
        return Some((1, "a comment, which no text has"));
    }
    if line.len() > MAX_TEXT_LINE_BYTES {
        return Some((MAX_TEXT_LINE_BYTES + 1, "more than 256 bytes on a line"));
    }
    if !ends {
        return Some((line.len().saturating_add(1), "no line feed at the end"));
    }
    None
}

/// Appends the numbers that are within limits.
fn push_limits(out: &mut Vec<u8>, limits: Limits) -> Result<(), AllocError> {
    if limits.greatest == u64::MAX {
        return push_text(out, " below 2^64");
    }
    push_text(out, " from")?;
    push_field(out, limits.least)?;
    push_text(out, " to")?;
    push_field(out, limits.greatest)
}

/// Appends what was expected.
fn push_expected(out: &mut Vec<u8>, expected: Expected) -> Result<(), AllocError> {
    match expected {
        Expected::Words(name) | Expected::OneOf(name, _) => push_text(out, name),
        Expected::Number(name, limits) => {
            push_text(out, name)?;
            push_limits(out, limits)
        }
        Expected::Exactly(name, number) => push_labelled(out, name.as_bytes(), number),
        Expected::Version => push_text(out, "\"@\" and a version below 2^64"),
        Expected::End => push_text(out, "the end of the line"),
    }
}

/// Appends what stands in its place.
fn push_found(out: &mut Vec<u8>, found: Option<&str>) -> Result<(), AllocError> {
    match found {
        None => push_text(out, "the end of the line"),
        Some("") => push_text(out, "a space"),
        Some(word) => {
            push_text(out, "\"")?;
            push_text(out, word)?;
            push_text(out, "\"")
        }
    }
}

/// A rule that a word breaks which stands where a number was expected.
fn broken_rule(word: &str) -> Option<&'static str> {
    if is_number(word) {
        return None;
    }
    match word.as_bytes() {
        [b'0', b'x' | b'X', ..] => Some("a number is decimal"),
        [b'0', b'0'..=b'9', ..] => Some("a number has no leading zero"),
        [b'+' | b'-', b'0'..=b'9', ..] => Some("a number has no sign"),
        [b'0'..=b'9', ..] => Some("a number has digits alone"),
        _ => None,
    }
}

/// The rule that what stands in a line breaks, if it is one of a number, and the words that could stand there, if they are
/// a few.
fn rule_of(mismatch: Mismatch) -> Option<&'static str> {
    match (mismatch.expected, mismatch.found) {
        (Expected::OneOf(_, choices), _) => Some(choices),
        (Expected::Number(_, _) | Expected::Exactly(_, _), Some(word)) => broken_rule(word),
        (Expected::Version, Some(word)) => {
            let number = word.strip_prefix('@')?;
            broken_rule(number)
        }
        _ => None,
    }
}

/// Appends a column and the words that follow.
fn push_column(out: &mut Vec<u8>, column: usize) -> Result<(), AllocError> {
    push_text(out, ", column")?;
    push_field(out, column as u64)?;
    push_text(out, ": ")
}

/// Appends where a line isn't as it should be.
fn push_mismatch(out: &mut Vec<u8>, mismatch: Mismatch) -> Result<(), AllocError> {
    push_column(out, mismatch.column)?;
    push_text(out, "expected ")?;
    push_expected(out, mismatch.expected)?;
    push_text(out, ", found ")?;
    push_found(out, mismatch.found)?;
    match rule_of(mismatch) {
        None => Ok(()),
        Some(rule) => {
            push_text(out, ": ")?;
            push_text(out, rule)
        }
    }
}

/// What there is too much of.
fn too_many(kind: TextKind) -> &'static str {
    match kind {
        TextKind::Script => ": the node has all the operations that it may have",
        TextKind::Schedule => ": the schedule has all the events that it may have",
        TextKind::Log => ": the node has all the entries that it may have",
    }
}

/// What is wrong with a line of the right form.
fn misplaced(kind: TextKind) -> &'static str {
    match kind {
        TextKind::Log =>
            ": an entry of a higher node stands before it, and entries stand node by node",
        _ => ": no such line can stand here",
    }
}

/// Appends what was expected where the text ends.
fn push_missing(out: &mut Vec<u8>, form: Form) -> Result<(), AllocError> {
    push_text(out, ": expected ")?;
    if let Err(mismatch) = read_form("", form, false) {
        push_expected(out, mismatch.expected)?;
    }
    push_text(out, ", found the end of the text")
}

/// Appends as which kind of text a line was read, if it may be of any kind. The first line of a script is that of a
/// schedule, too.
fn push_guess(out: &mut Vec<u8>, read_as: ReadAs, line: usize) -> Result<(), AllocError> {
    let kind = match read_as.kind {
        TextKind::Log => " (read as a log)",
        _ if line == 1 => return Ok(()),
        TextKind::Script => " (read as a script)",
        TextKind::Schedule => " (read as a schedule)",
    };
    if read_as.is_guess {
        push_text(out, kind)
    } else {
        Ok(())
    }
}

/// Appends what is wrong with a line that could stand in a text: its form, its numbers or its place.
fn push_line(
    out: &mut Vec<u8>,
    read_as: ReadAs,
    text: &[u8],
    fault: TextFault,
) -> Result<(), AllocError> {
    let form = form_of(read_as, text, fault.line);
    let Some(line) = line_of(text, fault.line) else {
        return push_missing(out, form);
    };
    if fault.kind == TextFaultKind::TooMany {
        return push_text(out, too_many(read_as.kind));
    }
    let Ok(words) = str::from_utf8(line.bytes) else {
        return push_text(out, misplaced(read_as.kind));
    };
    match read_form(words, form, fault.kind == TextFaultKind::Range) {
        Err(mismatch) => push_mismatch(out, mismatch),
        Ok(()) => push_text(out, misplaced(read_as.kind)),
    }
}

/// What is wrong with the line of a text's first fault, as it follows the number of the line: the column, what was expected
/// there, and what stands there. If the text may be of any kind, it also says as which kind the line was read, unless no
/// text can have such a line. Refused if memory is.
pub fn diagnosis(
    alloc: Global,
    read_as: ReadAs,
    text: &[u8],
    fault: TextFault,
) -> Result<Vec<u8>, AllocError> {
    let mut out = Vec::new(alloc);
    let odd = line_of(text, fault.line).and_then(|line| oddity(line.bytes, line.ends));
    if let Some((column, words)) = odd {
        push_column(&mut out, column)?;
        push_text(&mut out, words)?;
        return Ok(out);
    }
    push_line(&mut out, read_as, text, fault)?;
    push_guess(&mut out, read_as, fault.line)?;
    Ok(out)
}
