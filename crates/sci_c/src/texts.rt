//! Audits of logs, and logs as text.

ghost use Rattle.std.specs.Prelude.{◌≡◌, ◌≢◌, ◌⊎◌, ◌↔◌, ◌∷◌, [], IfOk, IsSome};
ghost use Rattle.sci_c_values.specs.declared.status.TheConstants.{SCI_FULL, SCI_MISUSE, SCI_NO_MEMORY, SCI_OK, SCI_RANGE, SCI_TEXT};
ghost use Rattle.sci_c.specs.{Begun.{AreLawful, IsVerdictOf}, Calls.{IsLook}, Kinds.{On, logs_in}};
ghost use Rattle.sci_c.specs.{Logs.{AreRead, AreTooLong, AreWritten, IsFound}, Texts.{IsTextFault}};
ghost use Rattle.sci_text.specs.{LogFault.{IsLogFault}, declared.fault.TextFaultKind.TheVariants.{Memory}};
ghost use Rattle.sci_c_values.specs.Verdict.{text_fault_struct};

use crate::closing::opened;
use crate::handle::SciObject;
use crate::journal::Journal;
use crate::room::put_over;
use crate::thing::Thing;
use sci_c_values::{
    SCI_MISUSE, SCI_NO_MEMORY, SCI_OK, SCI_RANGE, SCI_TEXT, SciTextFault, SciVerdict,
    text_fault_out, verdict_out,
};
use sci_history::{Verdict, audit};
use sci_text::{TextFault, TextFaultKind, logs_of, logs_text};
use sci_windows::audit_from;
use std::alloc::{AllocError, Global};

/// The status of a text that was refused. Its fault is written, unless memory was refused.
pub(crate) fn status_of_text(refused: TextFault, fault: &mut SciTextFault) -> u32
    ensures told { result ≡ SCI_TEXT → fault.new ≡ text_fault_struct refused }
    ensures fault { result ≡ SCI_TEXT → refused.kind ≢ Memory }
    ensures memory { result ≡ SCI_NO_MEMORY → refused.kind ≡ Memory }
    ensures status { (result ≡ SCI_TEXT) ⊎ (result ≡ SCI_NO_MEMORY) }
    ensures same { result ≢ SCI_TEXT → fault.new ≡ fault.old }
{
    match refused.kind {
        TextFaultKind::Memory => SCI_NO_MEMORY,
        _ => {
            *fault = text_fault_out(refused);
            SCI_TEXT
        }
    }
}

/// Audits logs from the contents with which they begin.
fn audited(alloc: Global, journal: &Journal) -> Result<Verdict, AllocError>
    ensures verdict { IfOk result (IsVerdictOf journal.now) }
    ensures lawful { IfOk result (λ verdict. (verdict ≡ Verdict.Lawful) ↔ AreLawful journal.now) }
{
    match journal.first() {
        Some(first) => audit_from(alloc, journal.logs(), first, journal.last()),
        None => audit(alloc, journal.logs(), journal.last()),
    }
}

/// Audits logs against their last contents.
#[unsafe(no_mangle)]
pub extern "C" fn sci_logs_audit(
    alloc: Global,
    object: &mut SciObject,
    verdict: &mut SciVerdict,
) -> u32
    ensures found { result ≡ SCI_OK → On logs_in object.old.value (IsFound verdict.new) }
    ensures lawful { result ≡ SCI_OK → On logs_in object.old.value
        (λ journal. (verdict.new.kind ≡ 0) ↔ AreLawful journal) }
    ensures same { result ≢ SCI_OK → verdict.new ≡ verdict.old }
    ensures kept { IsLook logs_in (SCI_NO_MEMORY ∷ []) object.old.value result object.new.value }
{
    let Some(journal) = object.logs() else {
        return SCI_MISUSE;
    };
    match audited(alloc, journal) {
        Ok(found) => {
            *verdict = verdict_out(&found);
            SCI_OK
        }
        Err(_) => SCI_NO_MEMORY,
    }
}

/// Puts the logs whose text the bytes are into an empty object.
#[unsafe(no_mangle)]
pub extern "C" fn sci_logs_read(
    alloc: Global,
    object: &mut SciObject,
    text: &[u8],
    fault: &mut SciTextFault,
) -> u32
    ensures read { result ≡ SCI_OK → On logs_in object.new.value (AreRead text.now) }
    ensures fault { result ≡ SCI_TEXT → IsTextFault IsLogFault text.now fault.new }
    ensures misuse { (result ≡ SCI_MISUSE) ↔ IsSome object.old.value }
    ensures status { (result ≡ SCI_OK) ⊎ ((result ≡ SCI_TEXT) ⊎ ((result ≡ SCI_NO_MEMORY) ⊎ (result ≡ SCI_MISUSE))) }
    ensures same { result ≢ SCI_OK → object.new.value ≡ object.old.value }
    ensures same_fault { result ≢ SCI_TEXT → fault.new ≡ fault.old }
{
    if object.live() != 0 {
        return SCI_MISUSE;
    }
    match logs_of(alloc, text) {
        Ok((nodes, logs, last)) => {
            opened(alloc, object, Thing::Logs(Journal::of(nodes, logs, last)))
        }
        Err(refused) => status_of_text(refused, fault),
    }
}

/// Writes the text of logs in format 2 over the first bytes, and how many. The bytes after it stay.
#[unsafe(no_mangle)]
pub extern "C" fn sci_logs_write(
    alloc: Global,
    object: &mut SciObject,
    text: &mut [u8],
    used: &mut usize,
) -> u32
    ensures written { result ≡ SCI_OK → On logs_in object.old.value (AreWritten text.old text.new used.new) }
    ensures full { result ≡ SCI_FULL → On logs_in object.old.value (AreTooLong text.old used.new) }
    ensures same { result ≢ SCI_OK → text.new ≡ text.old }
    ensures same_used { result ≢ SCI_OK → result ≢ SCI_FULL → used.new ≡ used.old }
    ensures range { result ≡ SCI_RANGE → On logs_in object.old.value (λ journal. IsSome journal.first) }
    ensures kept { IsLook logs_in (SCI_NO_MEMORY ∷ SCI_RANGE ∷ SCI_FULL ∷ []) object.old.value result object.new.value }
{
    let Some(journal) = object.logs() else {
        return SCI_MISUSE;
    };
    if journal.first().is_some() {
        return SCI_RANGE;
    }
    match logs_text(alloc, journal.nodes(), journal.logs(), journal.last()) {
        Ok(made) => put_over(&made, text, used),
        Err(_) => SCI_NO_MEMORY,
    }
}
