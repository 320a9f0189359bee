//! Entries and contents of a window as a memory has them that begins with zero words at version 0.

ghost use Rattle.std.specs.Prelude.{◌≡◌, ◌<◌, ◌↔◌, All, IfOk, OnOk, IsTrue, length, map};
ghost use Rattle.sci_words.specs.declared.limits.TheConstants.{MAX_NODES, WORDS_PER_LINE};
ghost use Rattle.sci_history.specs.{Audit.{AreWithin}, Memory.{stamped_at}, Placed.{AreOwn}};
ghost use Rattle.sci_windows.specs.Relative.{AreFew, AreLines, counted_from as counted_from_of, relative_act as relative_act_of, relative_contents as relative_contents_of};
ghost use Rattle.sci_windows.specs.Relative.{relative_entry as relative_entry_of, relative_line as relative_line_of, relative_logs as relative_logs_of};
ghost use Rattle.sci_windows.specs.Relative.{relative_reply as relative_reply_of, relative_stamped as relative_stamped_of, swapped as swapped_of};

use sci_history::{Entry, Last, Logs};
use sci_words::{Act, Line, LockOp, Op, Reply, Stamped, WORDS_PER_LINE, Word, effect};
use std::alloc::{AllocError, Global};

/// No log of a window has more entries.
const MANY: usize = 1 << 32;

/// The word, where the first word and 0 change places.
fn swapped(first: Word, word: Word) -> Word
    ensures { result ≡ swapped_of first word }
{
    if word == first {
        0
    } else if word == 0 {
        first
    } else {
        word
    }
}

/// The version, counted from the first one. One before it comes after all that there can be.
fn counted_from(first: u64, version: u64) -> u64
    ensures { result ≡ counted_from_of first version }
{
    if version >= first {
        version - first
    } else {
        version + (u64::MAX - first + 1)
    }
}

/// What an operation answered.
fn relative_reply(first: Word, reply: Reply) -> Reply
    ensures { result ≡ relative_reply_of first reply }
{
    match reply {
        Reply::Stored => Reply::Stored,
        Reply::Got(word) => Reply::Got(swapped(first, word)),
    }
}

/// What an operation does. A lock operation that says what it got becomes one that leaves the same if it did get that.
fn relative_act(first: Word, op: Op, reply: Reply) -> Act
    ensures { result ≡ relative_act_of first op.act reply }
{
    match op.act {
        Act::Load => Act::Load,
        Act::Store(word) => Act::Store(swapped(first, word)),
        Act::Lock(lock) => match reply {
            Reply::Stored => Act::Lock(lock),
            Reply::Got(word) => {
                let (left, _reply) = effect(op, word);
                Act::Lock(LockOp::CompareSwap {
                    arg: swapped(first, word),
                    datum: swapped(first, left),
                })
            }
        },
    }
}

/// The contents with which a line begins; zero words at version 0 if there is no such line.
fn first_of(first: &Last, line: u8) -> Stamped
    ensures contents { result ≡ stamped_at first.now line }
    ensures words { length result.line ≡ WORDS_PER_LINE }
{
    let contents = if line < first.lines() {
        first.get(line)
    } else {
        Stamped {
            line: Line::zero(),
            version: 0,
        }
    };
    // Read, so that the prover knows how many words a line has.
    let _words = contents.line.words();
    contents
}

/// An entry of a window.
fn relative_entry(first: &Last, entry: &Entry) -> Entry
    requires { entry.now.op.word < WORDS_PER_LINE }
    ensures { result ≡ relative_entry_of first.now entry.now }
{
    let contents = first_of(first, entry.op.line);
    let word = contents.line.word(entry.op.word);
    Entry {
        node: entry.node,
        serial: entry.serial,
        op: Op {
            act: relative_act(word, entry.op, entry.reply),
            line: entry.op.line,
            word: entry.op.word,
        },
        reply: relative_reply(word, entry.reply),
        version: counted_from(contents.version, entry.version),
    }
}

/// The entries of a window's log.
fn relative_log(alloc: Global, first: &Last, log: &[Entry]) -> Result<Vec<Entry>, AllocError>
    requires { All (λ entry. entry.op.word < WORDS_PER_LINE) log.now }
    ensures { IfOk result (λ made. made.items ≡ map (relative_entry_of first.now) log.now) }
{
    let mut made = Vec::with_capacity(alloc, log.len())?;
    for entry in log {
        made.push(relative_entry(first, entry))?;
    }
    Ok(made)
}

/// The logs of a window that begins with these contents, as a memory has them that begins with zeros.
pub fn relative_logs(alloc: Global, logs: &Logs, first: &Last) -> Result<Logs, AllocError>
    requires { AreWithin (length first.now) logs.now }
    ensures logs { IfOk result (λ made. made ≡ relative_logs_of first.now logs.now) }
    ensures own { AreOwn logs.now }
    ensures sixteen { length logs.now ≡ MAX_NODES }
{
    let nodes = logs.nodes();
    let mut made = Logs::new(alloc);
    for node in 0..nodes {
        let log = relative_log(alloc, first, logs.of(node))?;
        made.put(node, log);
    }
    Ok(made)
}

/// The contents of a line of a window.
fn relative_stamped(first: Stamped, stamped: Stamped) -> Stamped
    ensures contents { result ≡ relative_stamped_of first stamped }
    ensures first { length first.line ≡ WORDS_PER_LINE }
    ensures line { length stamped.line ≡ WORDS_PER_LINE }
{
    // Read, so that the prover knows how many words a line has.
    let _first = first.line.words();
    let _words = stamped.line.words();
    let mut line = stamped.line;
    for word in 0..WORDS_PER_LINE as u8 {
        line = line.with(
            word,
            swapped(first.line.word(word), stamped.line.word(word)),
        );
    }
    Stamped {
        line,
        version: counted_from(first.version, stamped.version),
    }
}

/// Makes lines the contents of a window that begins with the first ones. Requires that there are as many of each.
fn put_relative(made: &mut Last, first: &Last, contents: &Last)
    requires first { length first.now ≡ length contents.now }
    requires made { length made.old ≡ length contents.now }
    ensures contents { made.new ≡ relative_contents_of first.now contents.now }
    ensures first { AreLines first.now }
    ensures lines { AreLines contents.now }
{
    for line in 0..contents.lines() {
        made.set(line, relative_stamped(first.get(line), contents.get(line)));
    }
}

/// The contents of all lines of a window that begins with the first ones, on the heap, as they take some KB. Refused if memory is.
/// Requires that both have as many lines.
#[inline(never)]
pub fn relative_contents(
    alloc: Global,
    first: &Last,
    contents: &Last,
) -> Result<Box<Last, Global>, AllocError>
    requires { length first.now ≡ length contents.now }
    ensures contents { IfOk result (λ made. made.value ≡ relative_contents_of first.now contents.now) }
    ensures first { OnOk result (AreLines first.now) }
    ensures lines { OnOk result (AreLines contents.now) }
{
    let mut made = Box::new(alloc, Last::zero(contents.lines()))?;
    put_relative(&mut made, first, contents);
    Ok(made)
}

/// Whether no log has more entries than 2^32.
pub fn are_few(logs: &Logs) -> bool
    ensures { IsTrue result ↔ AreFew logs.now }
{
    let nodes = logs.nodes();
    for node in 0..nodes {
        if logs.of(node).len() > MANY {
            return false;
        }
    }
    true
}
