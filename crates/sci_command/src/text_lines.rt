//! The lines of a text, and what can stand on each.

use crate::line_forms::{Form, Sizes};
use sci_text::whole_number;
use sci_words::{FORMAT_1_NODES, FORMAT_1_SERIALS, MAX_LINES, MAX_NODES, MAX_OPERATIONS};

/// The three kinds of text.
#[derive(Clone, Copy, PartialEq, Eq)]
pub enum TextKind {
    Script,
    Schedule,
    Log,
}

/// As what a text was read.
#[derive(Clone, Copy)]
pub struct ReadAs {
    /// The kind of text.
    pub kind: TextKind,
    /// Whether it may be of any kind, and this is the one that it was taken for.
    pub is_guess: bool,
}

impl TextKind {
    /// A text that has to be of this kind.
    pub fn known(self) -> ReadAs {
        ReadAs {
            kind: self,
            is_guess: false,
        }
    }
}

/// A line of a text.
#[derive(Clone, Copy)]
pub struct TextLine<'a> {
    /// Its bytes, without the line feed.
    pub bytes: &'a [u8],
    /// Whether it has a line feed.
    pub ends: bool,
}

/// The line of this number, from 1. None if the text ends before it.
pub fn line_of(text: &[u8], number: usize) -> Option<TextLine<'_>> {
    let line = text
        .split_inclusive(|byte| *byte == b'\n')
        .nth(number.saturating_sub(1))?;
    match line {
        [bytes @ .., b'\n'] => Some(TextLine { bytes, ends: true }),
        bytes => Some(TextLine { bytes, ends: false }),
    }
}

/// The number that a word of a text's first line says, the words counted from 0, or another one if it says none.
fn first_line_says(text: &[u8], place: usize, otherwise: u8) -> u64 {
    let said = || {
        let line = str::from_utf8(line_of(text, 1)?.bytes).ok()?;
        whole_number(line.split(' ').nth(place)?.as_bytes())
    };
    said().unwrap_or(u64::from(otherwise))
}

/// How many lines at the front of a text begin with `last `.
fn last_lines(text: &[u8]) -> usize {
    text.split(|byte| *byte == b'\n')
        .take_while(|line| line.starts_with(b"last "))
        .count()
}

/// What can stand on a line of a log in format 1, behind this many others.
fn form_in_format_1(text: &[u8], before: usize) -> Form {
    let lines = last_lines(text);
    let says_last = match line_of(text, before.saturating_add(1)) {
        Some(line) => line.bytes.starts_with(b"last"),
        None => true,
    };
    if before == 0 || (before <= lines && says_last) {
        return Form::Last(before as u64);
    }
    Form::Entry {
        sizes: Sizes {
            nodes: u64::from(FORMAT_1_NODES),
            lines: lines as u64,
        },
        serials: FORMAT_1_SERIALS,
    }
}

/// What can stand on a line of a log, behind this many others.
fn form_in_log(text: &[u8], before: usize) -> Form {
    if !text.starts_with(b"log") {
        return form_in_format_1(text, before);
    }
    let sizes = Sizes {
        nodes: first_line_says(text, 2, MAX_NODES),
        lines: first_line_says(text, 3, MAX_LINES),
    };
    match before as u64 {
        0 => Form::Log,
        before if before <= sizes.lines => Form::Last(before - 1),
        _ => Form::Entry {
            sizes,
            serials: MAX_OPERATIONS,
        },
    }
}

/// What can stand on the line of this number, from 1, of a text.
pub fn form_of(read_as: ReadAs, text: &[u8], number: usize) -> Form {
    let before = number.saturating_sub(1);
    let sizes = Sizes {
        nodes: first_line_says(text, 1, MAX_NODES),
        lines: first_line_says(text, 2, MAX_LINES),
    };
    match read_as.kind {
        TextKind::Log => form_in_log(text, before),
        _ if before == 0 && read_as.is_guess => Form::Any,
        _ if before == 0 => Form::Machine,
        TextKind::Script => Form::Operation(sizes),
        TextKind::Schedule => Form::Event(sizes),
    }
}
