//! The judge of traces that structs say.

ghost use Rattle.std.specs.Prelude.{◌≡◌, IfOk, IfSome, None};
ghost use Rattle.sci_judge.specs.Access.{AreKnown};
ghost use Rattle.sci_c_traces.specs.{Judgement.{IsTraceVerdict, IsVerdictOn, is_yes}, Trace.{SayNoTrace}};

use crate::access::SciAccess;
use crate::judgement::{SciJudgement, ids_of, judgement_out};
use crate::trace::{SciLastWord, trace_in};
use sci_judge::{Trace, Way, consistency_of, judge};
use std::alloc::{AllocError, Global};

/// How a trace is judged. `timed` and `ordered` are 0 for no, and any other number for yes. A search makes `limit` choices at most.
#[repr(C)]
#[derive(Clone, Copy)]
pub struct SciTraceWay {
    pub timed: u32,
    pub ordered: u32,
    pub limit: u64,
}

/// A verdict on a trace, and the operations that it names.
#[derive(Drop)]
pub struct TraceVerdict {
    /// The verdict.
    pub judgement: SciJudgement,
    /// The numbers by which the caller names the operations.
    pub ids: Vec<u64>,
}

/// Judges a trace.
fn verdict_on(alloc: Global, trace: &Trace, way: Way) -> Result<TraceVerdict, AllocError>
    requires { AreKnown trace.now.accesses.items }
    ensures { IfOk result (λ verdict.
        IsVerdictOn way.timed way.ordered trace.now verdict.judgement verdict.ids.items) }
{
    let found = judge(alloc, trace, way)?;
    let consistency = consistency_of(alloc, trace, &found, way)?;
    let ids = ids_of(alloc, trace, &found, &consistency)?;
    let judgement = judgement_out(&found, &consistency, ids.len() as u64);
    Ok(TraceVerdict { judgement, ids })
}

/// Judges the trace that structs say, or answers None if they say none. Refused if memory is.
pub fn judged(
    alloc: Global,
    accesses: &[SciAccess],
    last: &[SciLastWord],
    way: &SciTraceWay,
) -> Result<Option<TraceVerdict>, AllocError>
    ensures some { IfOk result (λ made. IfSome made (λ verdict. IsTraceVerdict accesses.now last.now
        (is_yes way.now.timed) (is_yes way.now.ordered) verdict.judgement verdict.ids.items)) }
    ensures none { IfOk result (λ made. made ≡ None → SayNoTrace accesses.now last.now) }
{
    let way = Way {
        timed: way.timed != 0,
        ordered: way.ordered != 0,
        limit: way.limit,
    };
    let Some(trace) = trace_in(alloc, accesses, last)? else {
        return Ok(None);
    };
    let verdict = verdict_on(alloc, &trace, way)?;
    Ok(Some(verdict))
}
