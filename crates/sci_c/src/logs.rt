//! Logs with first and last contents.

ghost use denote.RawPtr.{null_ptr};
ghost use Rattle.std.specs.Prelude.{◌≡◌, ◌≢◌, ◌<◌, ◌≤◌, ◌⊎◌, ◌∷◌, [], Some, length};
ghost use Rattle.sci_words.specs.declared.limits.TheConstants.{MAX_NODES};
ghost use Rattle.sci_history.specs.Placed.{log_of};
ghost use Rattle.sci_text.specs.LogValue.{IsSize};
ghost use Rattle.sci_c_values.specs.declared.status.TheConstants.{SCI_FULL, SCI_NO_MEMORY, SCI_OK, SCI_RANGE};
ghost use Rattle.sci_c_values.specs.{Entry.{SaysEntry}, Saying.{SaysNone}};
ghost use Rattle.sci_c.specs.{Calls.{IsChange, IsLook}, Closing.{IsClosed, IsOpened}, Journal.{FitsJournal, empty_journal, next_window}};
ghost use Rattle.sci_c.specs.{Kinds.{ChangesBy, On, logs_in}, Logs.{IsEntryAt, IsFirstOf, IsFirstSet, IsFull, IsLastOf, IsLastSet, IsNoFirst, IsPushed}};
ghost use Rattle.sci_windows.specs.Relative.{AreEarly};

use crate::closing::{closed, opened};
use crate::handle::SciObject;
use crate::journal::{Journal, MAX_FIRST_VERSION};
use crate::thing::Thing;
use sci_c_values::{
    SCI_MISUSE, SCI_NO_MEMORY, SCI_OK, SCI_RANGE, SciEntry, SciStamped, entry_in, entry_out,
    stamped_in, stamped_out,
};
use sci_words::{MAX_LINES, MAX_NODES};
use std::alloc::Global;

/// Puts logs without entries into an empty object. The last contents are zero words at version 0.
#[unsafe(no_mangle)]
pub extern "C" fn sci_logs_open(alloc: Global, object: &mut SciObject, nodes: u8, lines: u8) -> u32
    ensures { IsOpened (IsSize nodes lines) (λ new. logs_in new ≡ Some (empty_journal nodes lines))
        object.old.value result object.new.value }
{
    if object.live() != 0 {
        return SCI_MISUSE;
    }
    if nodes == 0 || nodes > MAX_NODES || lines == 0 || lines > MAX_LINES {
        return SCI_RANGE;
    }
    match Journal::new(alloc, nodes, lines) {
        Ok(journal) => opened(alloc, object, Thing::Logs(journal)),
        Err(_) => SCI_NO_MEMORY,
    }
}

/// Lets logs go, and leaves the object empty.
#[unsafe(no_mangle)]
pub extern "C" fn sci_logs_close(alloc: Global, object: &mut SciObject) -> u32
    ensures closed { IsClosed logs_in object.old.value result object.new.value }
    ensures no_pointer { result ≡ SCI_OK → object.new.at ≡ null_ptr }
{
    let is_of_kind = object.logs().is_some();
    closed(alloc, object, is_of_kind)
}

/// Ends the log of the entry's node with the entry.
#[unsafe(no_mangle)]
pub extern "C" fn sci_logs_push(object: &mut SciObject, entry: &SciEntry) -> u32
    ensures pushed { result ≡ SCI_OK → ChangesBy logs_in object.old.value object.new.value (IsPushed entry.now) }
    ensures full { result ≡ SCI_FULL → On logs_in object.old.value
        (λ journal. FitsJournal journal entry.now × IsFull entry.now journal) }
    ensures range { result ≡ SCI_RANGE → On logs_in object.old.value
        (λ journal. FitsJournal journal entry.now → SaysNone (SaysEntry entry.now)) }
    ensures memory { result ≡ SCI_NO_MEMORY → On logs_in object.old.value (λ journal. FitsJournal journal entry.now) }
    ensures change { IsChange logs_in (SCI_NO_MEMORY ∷ SCI_RANGE ∷ SCI_FULL ∷ [])
        object.old.value result object.new.value }
{
    let Some(journal) = object.logs() else {
        return SCI_MISUSE;
    };
    if !journal.takes(entry) {
        return SCI_RANGE;
    }
    match entry_in(entry) {
        Some(said) => journal.push(said),
        None => SCI_RANGE,
    }
}

/// Replaces the last contents of a line.
#[unsafe(no_mangle)]
pub extern "C" fn sci_logs_set_last(object: &mut SciObject, line: u8, contents: &SciStamped) -> u32
    ensures done { result ≡ SCI_OK → ChangesBy logs_in object.old.value object.new.value (IsLastSet line contents.now) }
    ensures range { result ≡ SCI_RANGE → On logs_in object.old.value (λ journal. length journal.last ≤ line) }
    ensures change { IsChange logs_in (SCI_RANGE ∷ []) object.old.value result object.new.value }
{
    let Some(journal) = object.logs() else {
        return SCI_MISUSE;
    };
    if line >= journal.last().lines() {
        return SCI_RANGE;
    }
    journal.set_last(line, stamped_in(contents));
    SCI_OK
}

/// Replaces the contents with which a line begins.
#[unsafe(no_mangle)]
pub extern "C" fn sci_logs_set_first(
    alloc: Global,
    object: &mut SciObject,
    line: u8,
    contents: &SciStamped,
) -> u32
    ensures done { result ≡ SCI_OK → ChangesBy logs_in object.old.value object.new.value (IsFirstSet line contents.now) }
    ensures range { result ≡ SCI_RANGE → On logs_in object.old.value (IsNoFirst line contents.now) }
    ensures memory { result ≡ SCI_NO_MEMORY → On logs_in object.old.value
        (λ journal. IsNoFirst line contents.now journal → ⊥) }
    ensures change { IsChange logs_in (SCI_RANGE ∷ SCI_NO_MEMORY ∷ []) object.old.value result object.new.value }
{
    let Some(journal) = object.logs() else {
        return SCI_MISUSE;
    };
    if line >= journal.last().lines() || contents.version > MAX_FIRST_VERSION {
        return SCI_RANGE;
    }
    match journal.set_first(alloc, line, stamped_in(contents)) {
        Ok(()) => SCI_OK,
        Err(_) => SCI_NO_MEMORY,
    }
}

/// Reads the contents with which a line begins.
#[unsafe(no_mangle)]
pub extern "C" fn sci_logs_first(object: &mut SciObject, line: u8, contents: &mut SciStamped) -> u32
    ensures found { result ≡ SCI_OK → On logs_in object.old.value (IsFirstOf line contents.new) }
    ensures range { result ≡ SCI_RANGE → On logs_in object.old.value (λ journal. length journal.last ≤ line) }
    ensures same { result ≢ SCI_OK → contents.new ≡ contents.old }
    ensures kept { IsLook logs_in (SCI_RANGE ∷ []) object.old.value result object.new.value }
{
    let Some(journal) = object.logs() else {
        return SCI_MISUSE;
    };
    if line >= journal.last().lines() {
        return SCI_RANGE;
    }
    *contents = stamped_out(&journal.first_contents(line));
    SCI_OK
}

/// Drops all entries, and begins with the last contents.
#[unsafe(no_mangle)]
pub extern "C" fn sci_logs_go_on(alloc: Global, object: &mut SciObject) -> u32
    ensures done { result ≡ SCI_OK → ChangesBy logs_in object.old.value object.new.value
        (λ before after. after ≡ next_window before) }
    ensures range { result ≡ SCI_RANGE → On logs_in object.old.value (λ journal. AreEarly journal.last → ⊥) }
    ensures change { IsChange logs_in (SCI_RANGE ∷ SCI_NO_MEMORY ∷ []) object.old.value result object.new.value }
{
    let Some(journal) = object.logs() else {
        return SCI_MISUSE;
    };
    match journal.go_on(alloc) {
        Ok(true) => SCI_OK,
        Ok(false) => SCI_RANGE,
        Err(_) => SCI_NO_MEMORY,
    }
}

/// Reads the last contents of a line.
#[unsafe(no_mangle)]
pub extern "C" fn sci_logs_last(object: &mut SciObject, line: u8, contents: &mut SciStamped) -> u32
    ensures found { result ≡ SCI_OK → On logs_in object.old.value (IsLastOf line contents.new) }
    ensures range { result ≡ SCI_RANGE → On logs_in object.old.value (λ journal. length journal.last ≤ line) }
    ensures same { result ≢ SCI_OK → contents.new ≡ contents.old }
    ensures kept { IsLook logs_in (SCI_RANGE ∷ []) object.old.value result object.new.value }
{
    let Some(journal) = object.logs() else {
        return SCI_MISUSE;
    };
    if line >= journal.last().lines() {
        return SCI_RANGE;
    }
    *contents = stamped_out(&journal.last().get(line));
    SCI_OK
}

/// Gives how many nodes and lines logs have.
#[unsafe(no_mangle)]
pub extern "C" fn sci_logs_size(object: &mut SciObject, nodes: &mut u8, lines: &mut u8) -> u32
    ensures nodes { result ≡ SCI_OK → On logs_in object.old.value (λ journal. nodes.new ≡ journal.nodes) }
    ensures lines { result ≡ SCI_OK → On logs_in object.old.value (λ journal. lines.new ≡ length journal.last) }
    ensures same_nodes { result ≢ SCI_OK → nodes.new ≡ nodes.old }
    ensures same_lines { result ≢ SCI_OK → lines.new ≡ lines.old }
    ensures kept { IsLook logs_in [] object.old.value result object.new.value }
{
    let Some(journal) = object.logs() else {
        return SCI_MISUSE;
    };
    *nodes = journal.nodes();
    *lines = journal.last().lines();
    SCI_OK
}

/// Counts the entries of a node.
#[unsafe(no_mangle)]
pub extern "C" fn sci_logs_count(object: &mut SciObject, node: u8, count: &mut usize) -> u32
    ensures counted { result ≡ SCI_OK → On logs_in object.old.value
        (λ journal. count.new ≡ length (log_of journal.logs node)) }
    ensures within { result ≡ SCI_OK → node < MAX_NODES }
    ensures range { result ≡ SCI_RANGE → MAX_NODES ≤ node }
    ensures same { result ≢ SCI_OK → count.new ≡ count.old }
    ensures kept { IsLook logs_in (SCI_RANGE ∷ []) object.old.value result object.new.value }
{
    let Some(journal) = object.logs() else {
        return SCI_MISUSE;
    };
    if node >= MAX_NODES {
        return SCI_RANGE;
    }
    *count = journal.logs().of(node).len();
    SCI_OK
}

/// Reads the entry at a place of a node's log.
#[unsafe(no_mangle)]
pub extern "C" fn sci_logs_entry(
    object: &mut SciObject,
    node: u8,
    place: usize,
    entry: &mut SciEntry,
) -> u32
    ensures found { result ≡ SCI_OK → On logs_in object.old.value (IsEntryAt node place entry.new) }
    ensures range { result ≡ SCI_RANGE → On logs_in object.old.value
        (λ journal. (MAX_NODES ≤ node) ⊎ (length (log_of journal.logs node) ≤ place)) }
    ensures same { result ≢ SCI_OK → entry.new ≡ entry.old }
    ensures kept { IsLook logs_in (SCI_RANGE ∷ []) object.old.value result object.new.value }
{
    let Some(journal) = object.logs() else {
        return SCI_MISUSE;
    };
    if node >= MAX_NODES {
        return SCI_RANGE;
    }
    match journal.logs().of(node).get(place) {
        Some(found) => {
            *entry = entry_out(found);
            SCI_OK
        }
        None => SCI_RANGE,
    }
}
