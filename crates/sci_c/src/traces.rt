//! Traces without versions.

ghost use Rattle.std.specs.Prelude.{◌≡◌, ◌≢◌, ◌∷◌, []};
ghost use Rattle.sci_c_values.specs.declared.status.TheConstants.{SCI_NO_MEMORY, SCI_OK, SCI_RANGE};
ghost use Rattle.sci_c_traces.specs.Trace.{SayNoTrace};
ghost use Rattle.sci_c.specs.{Calls.{IsOneOf}, Traces.{IsTraceJudged}};

use crate::room::put_first;
use sci_c_traces::{SciAccess, SciJudgement, SciLastWord, SciTraceWay, judged};
use sci_c_values::{SCI_NO_MEMORY, SCI_OK, SCI_RANGE};
use std::alloc::Global;

/// Judges the trace that structs say, and writes the verdict, and the operations that it names over the first numbers, as many as
/// there is room for.
#[unsafe(no_mangle)]
pub extern "C" fn sci_trace_judge(
    alloc: Global,
    accesses: &[SciAccess],
    last: &[SciLastWord],
    way: &SciTraceWay,
    judgement: &mut SciJudgement,
    ids: &mut [u64],
) -> u32
    ensures judged { result ≡ SCI_OK → IsTraceJudged accesses.now last.now way.now judgement.new ids.old ids.new }
    ensures range { result ≡ SCI_RANGE → SayNoTrace accesses.now last.now }
    ensures statuses { IsOneOf (SCI_OK ∷ SCI_RANGE ∷ SCI_NO_MEMORY ∷ []) result }
    ensures same { result ≢ SCI_OK → judgement.new ≡ judgement.old }
    ensures same_ids { result ≢ SCI_OK → ids.new ≡ ids.old }
{
    match judged(alloc, accesses, last, way) {
        Ok(Some(verdict)) => {
            *judgement = verdict.judgement;
            put_first(&verdict.ids, ids);
            SCI_OK
        }
        Ok(None) => SCI_RANGE,
        Err(_) => SCI_NO_MEMORY,
    }
}
