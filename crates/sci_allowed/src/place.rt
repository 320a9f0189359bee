//! The words that operations may write.

ghost use Rattle.std.specs.Prelude.{◌≡◌, ◌++◌, ℕ, All, List, IfOk, OnOk};
ghost use Rattle.sci_words.specs.declared.operation.Op.{Op};
ghost use Rattle.sci_words.specs.declared.limits.TheConstants.{WORDS_PER_LINE};
ghost use Rattle.sci_allowed.specs.Outcome.{IsPlaceWithin, IsWritten, is_written as is_written_of, written_on, written_places as written_places_of};

use sci_words::{Op, WORDS_PER_LINE};
use std::alloc::{AllocError, Global};
use std::collections::BTreeSet;

const WORDS: u8 = WORDS_PER_LINE as u8;

/// A word of memory.
#[derive(Clone, Copy, PartialEq, Eq, PartialOrd, Ord)]
pub struct Place {
    /// Its line.
    pub line: u8,
    /// Its place in the line, below 8.
    pub word: u8,
}

/// Whether some of the operations may write the word at a place.
pub(crate) fn is_written(place: Place, operations: &[(u8, Op)]) -> bool
    ensures { result ≡ is_written_of operations.now place }
{
    operations.iter().any(|(_, op)| op.is_maker() && op.line == place.line && op.word == place.word)
}

/// The words that some of the operations may write. Refused if memory is.
fn written_words(alloc: Global, operations: &[(u8, Op)]) -> Result<BTreeSet<Place>, AllocError>
    ensures { IfOk result (IsWritten operations.now) }
{
    let mut written = BTreeSet::new(alloc);
    for (_, op) in operations {
        if op.is_maker() {
            written.insert(Place {
                line: op.line,
                word: op.word,
            })?;
        }
    }
    Ok(written)
}

/// Appends the words of a line that may be written.
fn push_written(
    places: &mut Vec<Place>,
    line: u8,
    written: &BTreeSet<Place>,
) -> Result<(), AllocError>
    ensures { OnOk result ((operations : List (ℕ × Op)) → IsWritten operations written.now →
        places.new.items ≡ places.old.items ++ written_on operations line) }
{
    for word in 0..WORDS {
        let place = Place { line, word };
        if written.contains(&place) {
            places.push(place)?;
        }
    }
    Ok(())
}

/// The words of this many lines that some of the operations may write, by line, then by place. Refused if memory is.
pub fn written_places(
    alloc: Global,
    lines: u8,
    operations: &[(u8, Op)],
) -> Result<Vec<Place>, AllocError>
    ensures places { IfOk result (λ places. places.items ≡ written_places_of lines operations.now) }
    ensures within { IfOk result (λ places. All (IsPlaceWithin lines) places.items) }
{
    let written = written_words(alloc, operations)?;
    let mut places = Vec::new(alloc);
    for line in 0..lines {
        push_written(&mut places, line, &written)?;
    }
    Ok(places)
}
