//! Audits of logs whose last contents aren't known.

ghost use Rattle.std.specs.Prelude.{◌≡◌, ◌≢◌, ◌↔◌, ◌∷◌, [], IfOk};
ghost use Rattle.sci_windows.specs.CutOff.{IsVerdictCutOff, LawfulCutOff};
ghost use Rattle.sci_c_values.specs.declared.status.TheConstants.{SCI_NO_MEMORY, SCI_OK};
ghost use Rattle.sci_c.specs.{Calls.{IsLook}, Journal.{first_of}, Kinds.{On, logs_in}, Logs.{IsFoundCutOff}};

use crate::handle::SciObject;
use crate::journal::{Journal, zeros};
use sci_c_values::{SCI_MISUSE, SCI_NO_MEMORY, SCI_OK, SciVerdict, verdict_out};
use sci_history::Verdict;
use sci_windows::audit_cut_off;
use std::alloc::{AllocError, Global};

/// Audits logs from the contents with which they begin, to any last ones.
fn audited_cut_off(alloc: Global, journal: &Journal) -> Result<Verdict, AllocError>
    ensures verdict { IfOk result (IsVerdictCutOff journal.now.logs (first_of journal.now)) }
    ensures lawful { IfOk result
        (λ verdict. (verdict ≡ Verdict.Lawful) ↔ LawfulCutOff journal.now.logs (first_of journal.now)) }
{
    match journal.first() {
        Some(first) => audit_cut_off(alloc, journal.logs(), first),
        None => {
            let first = zeros(alloc, journal.last().lines())?;
            audit_cut_off(alloc, journal.logs(), &first)
        }
    }
}

/// Audits logs whose last contents aren't known.
#[unsafe(no_mangle)]
pub extern "C" fn sci_logs_audit_cut_off(
    alloc: Global,
    object: &mut SciObject,
    verdict: &mut SciVerdict,
) -> u32
    ensures found { result ≡ SCI_OK → On logs_in object.old.value (IsFoundCutOff verdict.new) }
    ensures lawful { result ≡ SCI_OK → On logs_in object.old.value
        (λ journal. (verdict.new.kind ≡ 0) ↔ LawfulCutOff journal.logs (first_of journal)) }
    ensures same { result ≢ SCI_OK → verdict.new ≡ verdict.old }
    ensures kept { IsLook logs_in (SCI_NO_MEMORY ∷ []) object.old.value result object.new.value }
{
    let Some(journal) = object.logs() else {
        return SCI_MISUSE;
    };
    match audited_cut_off(alloc, journal) {
        Ok(found) => {
            *verdict = verdict_out(&found);
            SCI_OK
        }
        Err(_) => SCI_NO_MEMORY,
    }
}
