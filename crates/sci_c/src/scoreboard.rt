//! Scoreboards: an audit entry by entry.

ghost use denote.RawPtr.{null_ptr};
ghost use Rattle.std.specs.Prelude.{◌≡◌, ◌≢◌, ◌<◌, ◌≤◌, ◌↔◌, ◌⊎◌, ◌∷◌, [], IsTrue, Some, length};
ghost use Rattle.sci_words.specs.declared.limits.TheConstants.{WORDS_PER_LINE};
ghost use Rattle.sci_text.specs.LogValue.{IsSize};
ghost use Rattle.sci_windows.specs.declared.score.Score.TheVariants.{NotNext};
ghost use Rattle.sci_windows.specs.Scoreboard.{IsScore, empty_board, line_of};
ghost use Rattle.sci_c_values.specs.declared.status.TheConstants.{SCI_NO_MEMORY, SCI_NOT_ENABLED, SCI_OK, SCI_RANGE};
ghost use Rattle.sci_c_values.specs.{Entry.{SaysEntry}, Saying.{SaysNone}};
ghost use Rattle.sci_c.specs.{Calls.{IsChange, IsLook}, Closing.{IsClosed, IsOpened}, Kinds.{ChangesBy, On, board_in}};
ghost use Rattle.sci_c.specs.Scoreboard.{FitsBoard, HasContents, IsBegun, IsNotNext, IsTold, IsToldOf};

use crate::closing::{closed, opened};
use crate::handle::SciObject;
use crate::thing::Thing;
use sci_c_values::{
    SCI_MISUSE, SCI_NO_MEMORY, SCI_NOT_ENABLED, SCI_OK, SCI_RANGE, SciEntry, SciStamped,
    SciVerdict, entry_in, stamped_in, stamped_out, verdict_out,
};
use sci_history::{Entry, Verdict};
use sci_windows::{Score, Scoreboard};
use sci_words::{MAX_LINES, MAX_NODES, WORDS_PER_LINE};
use std::alloc::Global;

/// Puts a scoreboard into an empty object, on which each line begins with zero words at version 0.
#[unsafe(no_mangle)]
pub extern "C" fn sci_scoreboard_open(
    alloc: Global,
    object: &mut SciObject,
    nodes: u8,
    lines: u8,
) -> u32
    ensures { IsOpened (IsSize nodes lines) (λ new. board_in new ≡ Some (empty_board nodes lines))
        object.old.value result object.new.value }
{
    if object.live() != 0 {
        return SCI_MISUSE;
    }
    if nodes == 0 || nodes > MAX_NODES || lines == 0 || lines > MAX_LINES {
        return SCI_RANGE;
    }
    match Scoreboard::new(alloc, nodes, lines) {
        Ok(board) => opened(alloc, object, Thing::Scoreboard(board)),
        Err(_) => SCI_NO_MEMORY,
    }
}

/// Lets a scoreboard go, and leaves the object empty.
#[unsafe(no_mangle)]
pub extern "C" fn sci_scoreboard_close(alloc: Global, object: &mut SciObject) -> u32
    ensures closed { IsClosed board_in object.old.value result object.new.value }
    ensures no_pointer { result ≡ SCI_OK → object.new.at ≡ null_ptr }
{
    let is_of_kind = object.board().is_some();
    closed(alloc, object, is_of_kind)
}

/// Begins a line with these contents, and forgets what was told of it.
#[unsafe(no_mangle)]
pub extern "C" fn sci_scoreboard_begin(
    object: &mut SciObject,
    line: u8,
    contents: &SciStamped,
) -> u32
    ensures done { result ≡ SCI_OK → ChangesBy board_in object.old.value object.new.value (IsBegun line contents.now) }
    ensures range { result ≡ SCI_RANGE → On board_in object.old.value (λ board. length board.lines ≤ line) }
    ensures change { IsChange board_in (SCI_RANGE ∷ []) object.old.value result object.new.value }
{
    let Some(board) = object.board() else {
        return SCI_MISUSE;
    };
    if line >= board.lines() {
        return SCI_RANGE;
    }
    board.begin(line, stamped_in(contents));
    SCI_OK
}

/// Reads the contents of a line after what was told.
#[unsafe(no_mangle)]
pub extern "C" fn sci_scoreboard_contents(
    object: &mut SciObject,
    line: u8,
    contents: &mut SciStamped,
) -> u32
    ensures found { result ≡ SCI_OK → On board_in object.old.value (HasContents line contents.new) }
    ensures range { result ≡ SCI_RANGE → On board_in object.old.value (λ board. length board.lines ≤ line) }
    ensures same { result ≢ SCI_OK → contents.new ≡ contents.old }
    ensures kept { IsLook board_in (SCI_RANGE ∷ []) object.old.value result object.new.value }
{
    let Some(board) = object.board() else {
        return SCI_MISUSE;
    };
    if line >= board.lines() {
        return SCI_RANGE;
    }
    *contents = stamped_out(&board.contents(line));
    SCI_OK
}

/// Whether the node, the line and the word that the struct says are those of the board.
fn takes(board: &Scoreboard, entry: &SciEntry) -> bool
    ensures { IsTrue result ↔ FitsBoard board.now entry.now }
{
    entry.node < board.nodes()
        && entry.op.line < board.lines()
        && usize::from(entry.op.word) < WORDS_PER_LINE
}

/// Tells an entry, and writes what an audit says of it. Requires that the board has its node, its line and its word.
fn tell(board: &mut Scoreboard, entry: &Entry, verdict: &mut SciVerdict) -> u32
    requires node { entry.now.node < board.old.nodes }
    requires line { entry.now.op.line < length board.old.lines }
    requires word { entry.now.op.word < WORDS_PER_LINE }
    ensures told { result ≡ SCI_OK → IsToldOf entry.now verdict.new board.old board.new }
    ensures not_next { result ≡ SCI_NOT_ENABLED → IsScore (line_of board.old entry.now.op.line) entry.now NotNext }
    ensures status { (result ≡ SCI_OK) ⊎ (result ≡ SCI_NOT_ENABLED) }
    ensures same { result ≢ SCI_OK → board.new ≡ board.old }
    ensures same_verdict { result ≢ SCI_OK → verdict.new ≡ verdict.old }
{
    let found = match board.tell(entry) {
        Score::Taken => Verdict::Lawful,
        Score::NotNext => return SCI_NOT_ENABLED,
        Score::Fault(kind) => Verdict::Fault {
            line: entry.op.line,
            kind,
            at: Some((entry.node, entry.serial)),
        },
    };
    *verdict = verdict_out(&found);
    SCI_OK
}

/// Tells an entry, and writes what an audit says of it after those before.
#[unsafe(no_mangle)]
pub extern "C" fn sci_scoreboard_tell(
    object: &mut SciObject,
    entry: &SciEntry,
    verdict: &mut SciVerdict,
) -> u32
    ensures told { result ≡ SCI_OK → ChangesBy board_in object.old.value object.new.value (IsTold entry.now verdict.new) }
    ensures not_next { result ≡ SCI_NOT_ENABLED → On board_in object.old.value (IsNotNext entry.now) }
    ensures range { result ≡ SCI_RANGE → On board_in object.old.value
        (λ board. FitsBoard board entry.now → SaysNone (SaysEntry entry.now)) }
    ensures same { result ≢ SCI_OK → verdict.new ≡ verdict.old }
    ensures change { IsChange board_in (SCI_RANGE ∷ SCI_NOT_ENABLED ∷ []) object.old.value result object.new.value }
{
    let Some(board) = object.board() else {
        return SCI_MISUSE;
    };
    if !takes(board, entry) {
        return SCI_RANGE;
    }
    match entry_in(entry) {
        Some(said) => tell(board, &said, verdict),
        None => SCI_RANGE,
    }
}
