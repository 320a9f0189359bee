//! The command `check`: which kind of text the input is, or where and why it is none.

ghost use Rattle.std.specs.Prelude.{◌≡◌, ◌++◌, ◌⊎◌, ℕ, List, false, true, [], IfOk, IfErr, IfSome, IfNone, OnOk};
ghost use Rattle.sci_text.specs.{declared.fault.TextFaultKind.TheVariants.{Memory}, FirstFault.{IsRefusal, IsTold}, LogFault.{IsLogFault}};
ghost use Rattle.sci_text.specs.{ScheduleFault.{IsScheduleFault}, ScriptFault.{IsScriptFault}, Tap.{has_failed}};
ghost use Rattle.sci_command.specs.{Answer.{HasAnswered}, declared.outcome.Outcome.{Outcome}};
ghost use Rattle.sci_reports.specs.CheckAnswer.{IsCheckAnswer, IsKnown, IsLastFault, IsLogText, IsNoLater, IsScheduleText, IsScriptText, counted};
ghost use Rattle.sci_reports.specs.CheckAnswer.{depth as depth_of, log_size, schedule_size, script_size, size_text};
ghost use Rattle.sci_reports.specs.TextReadings.{AreFaults, AreReadings, IsReading, known_text, said_of};

use crate::numbered::entries_before;
use sci_command::{Answer, Answered, Outcome, ReadAs, Refusal, TextKind, line_of};
use sci_text::{
    Tap, TextFault, TextFaultKind, logs_of, no_fault, no_log_fault, no_schedule_fault, push_number,
    push_text, read_input, schedule_of, script_of,
};
use std::alloc::{AllocError, Global};
use std::io::Read;

/// How much a text says.
#[derive(Clone, Copy)]
pub struct TextSize {
    /// The number of nodes.
    pub nodes: u8,
    /// The number of lines of memory.
    pub lines: u8,
    /// The number of operations, events or entries.
    pub count: usize,
}

/// What came of reading a text as one of the kinds.
#[derive(Clone, Copy)]
pub enum Reading {
    /// It is of this kind.
    Size(TextSize),
    /// It isn't, and this is its first fault.
    Fault(TextFault),
}

/// What came of reading a text as each kind.
#[derive(Clone, Copy)]
pub struct Readings {
    pub script: Reading,
    pub schedule: Reading,
    pub log: Reading,
}

/// A fault of a text as what reading it came to, unless memory was refused.
fn faulty(fault: TextFault) -> Result<Reading, TextFault>
    ensures read { IfOk result (λ reading.
        (reading ≡ Reading.Fault fault) × (fault.kind ≡ Memory → ⊥)) }
    ensures memory { IfErr result (λ other. (other ≡ fault) × (fault.kind ≡ Memory)) }
{
    match fault.kind {
        TextFaultKind::Memory => Err(fault),
        _ => Ok(Reading::Fault(fault)),
    }
}

/// What comes of reading a text as a script.
fn as_script(alloc: Global, text: &[u8]) -> Result<Reading, TextFault>
    ensures read { IfOk result
        (IsReading (IsScriptText text.now) script_size (IsScriptFault text.now)) }
    ensures memory { IfErr result (λ fault. (fault.line ≡ 0) × (fault.kind ≡ Memory)) }
{
    match script_of(alloc, text) {
        Ok(script) => Ok(Reading::Size(TextSize {
            nodes: script.extent().nodes,
            lines: script.extent().lines,
            count: script.operations().len(),
        })),
        Err(fault) => faulty(fault),
    }
}

/// What comes of reading a text as a schedule.
fn as_schedule(alloc: Global, text: &[u8]) -> Result<Reading, TextFault>
    ensures read { IfOk result
        (IsReading (IsScheduleText text.now) schedule_size (IsScheduleFault text.now)) }
    ensures memory { IfErr result (λ fault. (fault.line ≡ 0) × (fault.kind ≡ Memory)) }
{
    match schedule_of(alloc, text) {
        Ok(schedule) => Ok(Reading::Size(TextSize {
            nodes: schedule.extent().nodes,
            lines: schedule.extent().lines,
            count: schedule.events().len(),
        })),
        Err(fault) => faulty(fault),
    }
}

/// What comes of reading a text as a log.
fn as_log(alloc: Global, text: &[u8]) -> Result<Reading, TextFault>
    ensures read { IfOk result
        (IsReading (IsLogText text.now) log_size (IsLogFault text.now)) }
    ensures memory { IfErr result (λ fault. (fault.line ≡ 0) × (fault.kind ≡ Memory)) }
{
    match logs_of(alloc, text) {
        Ok((nodes, logs, last)) => Ok(Reading::Size(TextSize {
            nodes,
            lines: last.lines(),
            count: entries_before(&logs, logs.nodes()),
        })),
        Err(fault) => faulty(fault),
    }
}

/// What comes of reading a text as each kind.
fn readings_of(alloc: Global, text: &[u8]) -> Result<Readings, TextFault>
    ensures read { IfOk result (AreReadings text.now) }
    ensures memory { IfErr result (λ fault. (fault.line ≡ 0) × (fault.kind ≡ Memory)) }
{
    Ok(Readings {
        script: as_script(alloc, text)?,
        schedule: as_schedule(alloc, text)?,
        log: as_log(alloc, text)?,
    })
}

/// Appends a number, and the name of one or of many.
#[tactic(auto, unfolding(crate::specs::CheckAnswer::counted))]
fn push_counted(out: &mut Vec<u8>, n: u64, one: &str, many: &str) -> Result<(), AllocError>
    ensures { OnOk result (out.new.items ≡ out.old.items ++ counted n one.now many.now) }
{
    push_number(out, n)?;
    push_text(out, " ")?;
    push_text(out, if n == 1 { one } else { many })
}

/// Appends the line that says the size of a text of some kind.
#[tactic(auto, unfolding(crate::specs::CheckAnswer::size_text, crate::specs::CheckAnswer::kind_name, crate::specs::CheckAnswer::one_name, crate::specs::CheckAnswer::many_name))]
fn push_size(out: &mut Vec<u8>, kind: TextKind, size: TextSize) -> Result<(), AllocError>
    ensures { OnOk result (out.new.items ≡ out.old.items ++ size_text kind size) }
{
    let (name, one, many) = match kind {
        TextKind::Script => ("script: ", "operation", "operations"),
        TextKind::Schedule => ("schedule: ", "event", "events"),
        TextKind::Log => ("log: ", "entry", "entries"),
    };
    push_text(out, name)?;
    push_counted(out, u64::from(size.nodes), "node", "nodes")?;
    push_text(out, ", ")?;
    push_counted(out, u64::from(size.lines), "line", "lines")?;
    push_text(out, ", ")?;
    push_counted(out, size.count as u64, one, many)?;
    push_text(out, "\n")
}

/// Appends the size of a text of some kind, if it is of this kind.
fn push_reading(out: &mut Vec<u8>, kind: TextKind, reading: Reading) -> Result<(), AllocError>
    ensures { OnOk result (out.new.items ≡ out.old.items ++ said_of kind reading) }
{
    match reading {
        Reading::Size(size) => push_size(out, kind, size),
        Reading::Fault(_) => Ok(()),
    }
}

/// The sizes of a text as each kind that it is.
fn sizes(alloc: Global, readings: Readings) -> Result<Vec<u8>, AllocError>
    ensures { IfOk result (λ text. text.items ≡ known_text readings) }
{
    let mut text = Vec::new(alloc);
    push_reading(&mut text, TextKind::Script, readings.script)?;
    push_reading(&mut text, TextKind::Schedule, readings.schedule)?;
    push_reading(&mut text, TextKind::Log, readings.log)?;
    Ok(text)
}

/// How far a line is read before a fault of this kind is found.
fn depth(kind: TextFaultKind) -> u8
    ensures { result ≡ depth_of kind }
{
    match kind {
        TextFaultKind::Syntax => 0,
        TextFaultKind::Range => 1,
        _ => 2,
    }
}

/// Whether a fault isn't found after another.
fn is_no_later(fault: TextFault, other: TextFault) -> bool
    ensures yes { result ≡ true → IsNoLater fault.line fault.kind other.line other.kind }
    ensures no { result ≡ false → IsNoLater other.line other.kind fault.line fault.kind }
{
    fault.line < other.line || fault.line == other.line && depth(fault.kind) <= depth(other.kind)
}

/// Whether the line of a fault begins with these bytes.
fn begins(text: &[u8], fault: TextFault, front: &[u8]) -> bool {
    line_of(text, fault.line).is_some_and(|line| line.bytes.starts_with(front))
}

/// Of two faults the later one, with the kind of text that it was found in. Of two that are found at once it is the first one
/// if that is preferred.
fn later(
    first: (TextKind, TextFault),
    second: (TextKind, TextFault),
    prefers_first: bool,
) -> (TextKind, TextFault)
    ensures one { (result ≡ first) ⊎ (result ≡ second) }
    ensures first { IsNoLater first.1.line first.1.kind result.1.line result.1.kind }
    ensures second { IsNoLater second.1.line second.1.kind result.1.line result.1.kind }
{
    let is_first = if prefers_first {
        is_no_later(second.1, first.1)
    } else {
        !is_no_later(first.1, second.1)
    };
    if is_first { first } else { second }
}

/// The last of the faults that a text has as a script, as a schedule and as a log, with the kind of text that it was found
/// in. Of faults that are found at once, the words of the line decide whose it is.
fn last_fault(
    text: &[u8],
    script: TextFault,
    schedule: TextFault,
    log: TextFault,
) -> (TextKind, TextFault)
    requires script { IsScriptFault text.now script.line script.kind }
    requires schedule { IsScheduleFault text.now schedule.line schedule.kind }
    requires log { IsLogFault text.now log.line log.kind }
    ensures { IsLastFault text.now result.1.line result.1.kind }
{
    let script = (TextKind::Script, script);
    let schedule = (TextKind::Schedule, schedule);
    let log = (TextKind::Log, log);
    let machine = later(script, schedule, begins(text, script.1, b"p "));
    later(log, machine, begins(text, log.1, b"l"))
}

/// The faults that a text has as a script, as a schedule and as a log. None if it is one of these.
fn faults_of(readings: Readings) -> Option<(TextFault, TextFault, TextFault)>
    ensures faults { IfSome result (λ x. AreFaults readings x.0 x.1 x.2) }
    ensures none { IfNone result (known_text readings ≡ [] → ⊥) }
{
    let script = match readings.script {
        Reading::Fault(fault) => fault,
        Reading::Size(_) => return None,
    };
    let schedule = match readings.schedule {
        Reading::Fault(fault) => fault,
        Reading::Size(_) => return None,
    };
    let log = match readings.log {
        Reading::Fault(fault) => fault,
        Reading::Size(_) => return None,
    };
    Some((script, schedule, log))
}

/// What is written of a text, or why it is of no kind.
fn checked(alloc: Global, text: &[u8]) -> Answered
    ensures known { IfOk result (λ x. (x.outcome ≡ Outcome.Done) × IsKnown text.now x.text.items) }
    ensures fault { IfErr result (λ refusal. IsRefusal IsLastFault text.now refusal.fault) }
{
    let readings = readings_of(alloc, text)?;
    match faults_of(readings) {
        None => {
            no_fault();
            no_schedule_fault();
            no_log_fault();
            Ok(Answer {
                text: sizes(alloc, readings)?,
                outcome: Outcome::Done,
            })
        }
        Some((script, schedule, log)) => {
            let (kind, fault) = last_fault(text, script, schedule, log);
            let read_as = ReadAs {
                kind,
                is_guess: true,
            };
            Err(Refusal::of_text(alloc, read_as, text, fault))
        }
    }
}

/// Reads a text to its end and says what it is. Done if it is the text of a script, of a schedule or of a log, with a line
/// for each of these that it is: `script: 2 nodes, 1 line, 7 operations`. (The first line of a script alone is a schedule
/// too.) Any other text is refused, for the last of the faults that it has as one of the three kinds. A reader that fails,
/// too long an input and running out of memory are refused at line 0. After a failed read nothing more is read.
pub fn check<R: Read>(alloc: Global, reader: &mut Tap<R>) -> Answered
    requires { has_failed reader.old ≡ false }
    ensures { HasAnswered R.remaining reader.old reader.new IsCheckAnswer (IsTold IsLastFault) result }
{
    let bytes = read_input(alloc, reader)?;
    checked(alloc, &bytes)
}
