//! The command `judge`: whether a trace without versions is coherent, and its log.

ghost use Rattle.std.specs.Prelude.{◌≡◌, ◌⊎◌, ◌++◌, false, IfOk, IfErr, OnOk, option_map};
ghost use Rattle.sci_text.specs.{declared.fault.TextFaultKind.TheVariants.{Memory, TooMany}, Tap.{has_failed}};
ghost use Rattle.sci_command.specs.{Answer.{HasAnswered}, declared.outcome.Outcome.{Outcome}};
ghost use Rattle.sci_judge.specs.{Access.{AreKnown}, Judgement.{addresses_of}};
ghost use Rattle.sci_axe.specs.JudgeAnswer.{IsJudgeAnswer, IsJudgeRefusal, IsLogText, IsNoLogFault, logged_sites};

use crate::misread::read_trace;
use crate::sharing::judge_shared;
use crate::telling::told;
use sci_command::{Answer, Answered, Note, Outcome, Refusal};
use sci_judge::{Judgement, NoLog, SiteVersions, Trace, Way, consistency_of, log_of};
use sci_text::{Tap, TextFaultKind, logs_text, read_input};
use sci_words::MAX_NODES;
use std::alloc::{AllocError, Global};
use std::io::Read;
use std::thread::Threads;

/// What is asked of a trace.
#[derive(Clone, Copy)]
pub struct JudgeRequest {
    /// Whether what ended before another operation at its address began has to stand before it.
    pub timed: bool,
    /// Whether one order of all operations that a memory explains is looked for.
    pub ordered: bool,
    /// How many choices a search makes at most: for an order of all operations, and for those at an address where a word is
    /// written twice. 1,000,000 if it isn't said.
    pub limit: Option<u64>,
    /// Whether the log of a coherent trace is written, in place of the verdict.
    pub logs: bool,
}

/// Why there is no log, as a fault of the whole input, and in words.
fn refusal_of(none: NoLog) -> Refusal
    ensures line { result.fault.line ≡ 0 }
    ensures kind { (result.fault.kind ≡ Memory) ⊎ (result.fault.kind ≡ TooMany) }
{
    let words = match none {
        NoLog::Memory(error) => return Refusal::from(error),
        NoLog::Addresses => "a log has at most 64 addresses",
        NoLog::Operations => "a log has at most 65,536 operations of a processor",
        NoLog::NotFound => "no log was found",
    };
    Refusal::of_input(TextFaultKind::TooMany, Note::Fixed(words))
}

/// Appends the addresses of the sites.
fn push_addresses(lines: &mut Vec<u64>, sites: &[SiteVersions]) -> Result<(), AllocError>
    ensures { OnOk result (lines.new.items ≡ lines.old.items ++ addresses_of sites.now) }
{
    for site in sites {
        lines.push(site.address)?;
    }
    Ok(())
}

/// The log of a trace by versions at each address, as text; and the addresses of its lines of memory behind `lines`.
fn logged(alloc: Global, trace: &Trace, sites: &[SiteVersions], lines: &mut Vec<u64>) -> Answered
    requires { AreKnown trace.now.accesses.items }
    ensures text { IfOk result (λ answer. IsLogText trace.now sites.now answer.text.items) }
    ensures done { IfOk result (λ answer. answer.outcome ≡ Outcome.Done) }
    ensures lines { OnOk result (lines.new.items ≡ lines.old.items ++ addresses_of sites.now) }
    ensures none { IfErr result (λ refusal. IsNoLogFault trace.now sites.now refusal.fault) }
{
    let log = match log_of(alloc, trace, sites) {
        Ok(log) => log,
        Err(none) => return Err(refusal_of(none)),
    };
    push_addresses(lines, sites)?;
    let text = logs_text(alloc, MAX_NODES, &log.logs, &log.last)?;
    Ok(Answer {
        text,
        outcome: Outcome::Done,
    })
}

/// The sites of a coherent trace, if its log is asked for.
fn sites_to_log(request: JudgeRequest, judgement: &Judgement) -> Option<&[SiteVersions]>
    ensures { option_map (λ sites. sites.now) result ≡ logged_sites request.logs judgement.now }
{
    match judgement {
        Judgement::Coherent(sites) if request.logs => Some(sites),
        _ => None,
    }
}

/// How many choices a search makes at most, if it isn't said.
const LIMIT: u64 = 1_000_000;

/// Reads a trace to its end and judges the operations at each address. Done, with the line `coherent` and one that says whether
/// other versions explain them as well, if those at each address are coherent; or if a log is asked for, with the log. If an order
/// of all operations is asked for, one more line says whether there is one, and the answer is Unlawful unless one was found. It is
/// Unlawful with the line `not coherent at A` and a witness, if those at an address aren't, and with the line `undecided at A` if
/// nothing was found of them. A text with a fault is refused, as are a reader that fails, too long an input and running out of
/// memory, at line 0; so is a coherent trace with more than 64 addresses or more than 65,536 operations of a processor, or of which
/// no log was found, if a log is asked for. After a failed read nothing more is read. If a log is written, `lines` are the addresses
/// of its lines of memory; if a verdict is, there are none. The addresses of a large trace are shared out among the processors,
/// unless an order of all operations is asked for, and the answer is that of one thread.
pub fn judge_trace<T: Threads + Sync, R: Read>(
    rt: &T,
    alloc: Global,
    request: JudgeRequest,
    reader: &mut Tap<R>,
    lines: &mut Vec<u64>,
) -> Answered
    requires { has_failed reader.old ≡ false }
    ensures { HasAnswered R.remaining reader.old reader.new
        (IsJudgeAnswer request lines.new.items) (IsJudgeRefusal request) result }
{
    lines.clear();
    let bytes = read_input(alloc, reader)?;
    let trace = read_trace(alloc, &bytes)?;
    drop(bytes);
    let way = Way {
        timed: request.timed,
        ordered: request.ordered,
        limit: request.limit.unwrap_or(LIMIT),
    };
    let judgement = judge_shared(rt, alloc, &trace, way)?;
    match sites_to_log(request, &judgement) {
        Some(sites) => logged(alloc, &trace, sites, lines),
        None => {
            let consistency = consistency_of(alloc, &trace, &judgement, way)?;
            Ok(told(alloc, &judgement, &trace.accesses, &consistency)?)
        }
    }
}
