//! What is wrong with logs: in words, and the word that a wrong reply should have had.

ghost use Rattle.std.specs.Prelude.{◌≡◌, ◌≢◌, ◌⊎◌, ◌∷◌, [], IfErr, IfOk, IsSome, None, OnOk};
ghost use Rattle.sci_text.specs.{LogValue.{AreLogs, IsLogs}, declared.fault.TextFaultKind.TheVariants.{Memory}};
ghost use Rattle.sci_c_values.specs.declared.status.TheConstants.{SCI_FULL, SCI_NO_MEMORY, SCI_NOT_ENABLED, SCI_OK, SCI_RANGE};
ghost use Rattle.sci_reports.specs.Wanted.{IsWantedOf};
ghost use Rattle.sci_c.specs.{Calls.{IsLook}, Kinds.{On, logs_in}, Logs.{text_of}};
ghost use Rattle.sci_c.specs.Explaining.{IsExplainedOver, IsLongerExplanation, IsNothingWanted, IsWantedIn};

use crate::handle::SciObject;
use crate::journal::Journal;
use crate::room::put_over;
use sci_c_values::{
    SCI_MISUSE, SCI_NO_MEMORY, SCI_NOT_ENABLED, SCI_OK, SCI_RANGE, SciEntry, entry_out,
};
use sci_reports::{ReadLog, Wanted};
use sci_text::{TextFaultKind, logs_text, no_log_fault};
use std::alloc::Global;

/// The status of a text that can't be read: SCI_RANGE, unless memory was refused.
fn status_of_unread(kind: TextFaultKind) -> u32
    ensures range { result ≡ SCI_RANGE → kind ≢ Memory }
    ensures status { (result ≡ SCI_RANGE) ⊎ (result ≡ SCI_NO_MEMORY) }
{
    match kind {
        TextFaultKind::Memory => SCI_NO_MEMORY,
        _ => SCI_RANGE,
    }
}

/// The text of logs. The status of a refusal is SCI_RANGE if they begin with contents that were given, or else SCI_NO_MEMORY.
fn text_in(alloc: Global, journal: &Journal) -> Result<Vec<u8>, u32>
    ensures text { IfOk result (λ text. text.items ≡ text_of journal.now) }
    ensures says { IfOk result (λ text. AreLogs journal.now.nodes journal.now.logs journal.now.last
        → IsLogs text.items journal.now.nodes journal.now.logs journal.now.last) }
    ensures zeros { OnOk result (journal.now.first ≡ None) }
    ensures range { IfErr result (λ status. status ≡ SCI_RANGE → IsSome journal.now.first) }
    ensures status { IfErr result (λ status. (status ≡ SCI_RANGE) ⊎ (status ≡ SCI_NO_MEMORY)) }
{
    if journal.first().is_some() {
        return Err(SCI_RANGE);
    }
    logs_text(alloc, journal.nodes(), journal.logs(), journal.last()).map_err(|_| SCI_NO_MEMORY)
}

/// Writes what is wrong with logs over the first bytes, if there is room, and how many it has.
fn explain(alloc: Global, journal: &Journal, text: &mut [u8], used: &mut usize) -> u32
    ensures written { result ≡ SCI_OK → IsExplainedOver text.old text.new used.new journal.now }
    ensures full { result ≡ SCI_FULL → IsLongerExplanation text.old used.new journal.now }
    ensures range { result ≡ SCI_RANGE → IsSome journal.now.first
        ⊎ (AreLogs journal.now.nodes journal.now.logs journal.now.last → ⊥) }
    ensures status { (result ≡ SCI_OK) ⊎ ((result ≡ SCI_FULL) ⊎ ((result ≡ SCI_RANGE) ⊎ (result ≡ SCI_NO_MEMORY))) }
    ensures same { result ≢ SCI_OK → text.new ≡ text.old }
    ensures same_used { result ≢ SCI_OK → result ≢ SCI_FULL → used.new ≡ used.old }
{
    no_log_fault();
    let made = match text_in(alloc, journal) {
        Ok(made) => made,
        Err(status) => return status,
    };
    let log = match ReadLog::of(alloc, &made) {
        Ok(log) => log,
        Err(refusal) => return status_of_unread(refusal.fault.kind),
    };
    match log.explained(alloc, false) {
        Ok(answer) => put_over(&answer.text, text, used),
        Err(_) => SCI_NO_MEMORY,
    }
}

/// What is wanted where a reply of the logs is wrong. The status of a refusal is that of `explain`.
fn wanted(alloc: Global, journal: &Journal) -> Result<Option<Wanted>, u32>
    ensures wanted { IfOk result (IsWantedOf (text_of journal.now)) }
    ensures zeros { OnOk result (journal.now.first ≡ None) }
    ensures range { IfErr result (λ status. status ≡ SCI_RANGE → IsSome journal.now.first
        ⊎ (AreLogs journal.now.nodes journal.now.logs journal.now.last → ⊥)) }
    ensures status { IfErr result (λ status. (status ≡ SCI_RANGE) ⊎ (status ≡ SCI_NO_MEMORY)) }
{
    no_log_fault();
    let made = text_in(alloc, journal)?;
    let log = match ReadLog::of(alloc, &made) {
        Ok(log) => log,
        Err(refusal) => return Err(status_of_unread(refusal.fault.kind)),
    };
    match log.wanted(alloc) {
        Ok(wanted) => Ok(wanted),
        Err(_) => Err(SCI_NO_MEMORY),
    }
}

/// Writes what `explain` says of logs over the first bytes, and how many.
#[unsafe(no_mangle)]
pub extern "C" fn sci_logs_explain(
    alloc: Global,
    object: &mut SciObject,
    text: &mut [u8],
    used: &mut usize,
) -> u32
    ensures written { result ≡ SCI_OK → On logs_in object.old.value (IsExplainedOver text.old text.new used.new) }
    ensures full { result ≡ SCI_FULL → On logs_in object.old.value (IsLongerExplanation text.old used.new) }
    ensures range { result ≡ SCI_RANGE → On logs_in object.old.value
        (λ journal. IsSome journal.first ⊎ (AreLogs journal.nodes journal.logs journal.last → ⊥)) }
    ensures same { result ≢ SCI_OK → text.new ≡ text.old }
    ensures same_used { result ≢ SCI_OK → result ≢ SCI_FULL → used.new ≡ used.old }
    ensures kept { IsLook logs_in (SCI_NO_MEMORY ∷ SCI_RANGE ∷ SCI_FULL ∷ []) object.old.value result object.new.value }
{
    let Some(journal) = object.logs() else {
        return SCI_MISUSE;
    };
    explain(alloc, journal, text, used)
}

/// Gives the word that one memory of one thread has where an audit finds a wrong reply, and the entry that made it.
#[unsafe(no_mangle)]
pub extern "C" fn sci_logs_wanted(
    alloc: Global,
    object: &mut SciObject,
    word: &mut u64,
    has_maker: &mut u32,
    maker: &mut SciEntry,
) -> u32
    ensures found { result ≡ SCI_OK → On logs_in object.old.value (IsWantedIn word.new has_maker.new maker.old maker.new) }
    ensures none { result ≡ SCI_NOT_ENABLED → On logs_in object.old.value IsNothingWanted }
    ensures range { result ≡ SCI_RANGE → On logs_in object.old.value
        (λ journal. IsSome journal.first ⊎ (AreLogs journal.nodes journal.logs journal.last → ⊥)) }
    ensures same_word { result ≢ SCI_OK → word.new ≡ word.old }
    ensures same_has { result ≢ SCI_OK → has_maker.new ≡ has_maker.old }
    ensures same_maker { result ≢ SCI_OK → maker.new ≡ maker.old }
    ensures kept { IsLook logs_in (SCI_NO_MEMORY ∷ SCI_RANGE ∷ SCI_NOT_ENABLED ∷ []) object.old.value result object.new.value }
{
    let Some(journal) = object.logs() else {
        return SCI_MISUSE;
    };
    let found = match wanted(alloc, journal) {
        Ok(Some(found)) => found,
        Ok(None) => return SCI_NOT_ENABLED,
        Err(status) => return status,
    };
    *word = found.word;
    match found.maker {
        Some(made) => {
            *has_maker = 1;
            *maker = entry_out(&made);
        }
        None => *has_maker = 0,
    }
    SCI_OK
}
