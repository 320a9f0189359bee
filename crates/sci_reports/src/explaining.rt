//! The command `explain`: what is wrong with a log, line by line, and what would be right.

ghost use Rattle.std.specs.{Prelude.{◌≡◌, ◌+◌, ◌≤◌, ◌<◌, ℕ, List, false, is_some, length, IfOk}, List.{flat_map, list_any}};
ghost use Rattle.sci_words.specs.declared.limits.TheConstants.{MAX_LINES, MAX_OPERATIONS};
ghost use Rattle.sci_history.specs.declared.entry.Entry.{Entry};
ghost use Rattle.sci_history.specs.{Audit.{AreFound, AreWithin}, Placed.{log_of}};
ghost use Rattle.sci_text.specs.{FirstFault.{IsTold}, LogFault.{IsLogFault}, Tap.{has_failed}};
ghost use Rattle.sci_command.specs.Answer.{HasAnswered};
ghost use Rattle.sci_reports.specs.ExplainAnswer.{IsExplainAnswer, IsExplained, IsExplanationOf};
ghost use Rattle.sci_reports.specs.ExplainAnswer.{findings_shown as findings_shown_of, lawful_shown as lawful_shown_of};
ghost use Rattle.sci_reports.specs.{EntryLines.{numbered_on, numberings}, Finding.{AreFindings}, NoteText.{finding_text}, ReadLog.{IsReadLog}, Subject.{IsSubject}};

use crate::explain_json::{findings_json, lawful_json};
use crate::finding::{Finding, Subject};
use crate::note::push_finding;
use crate::numbered::{Numbered, entries_by_line};
use crate::read_log::ReadLog;
use sci_command::{Answer, Answered, Outcome, verdict_line};
use sci_history::{Last, LineFault, Verdict, line_faults};
use sci_text::{Tap, read_input};
use std::alloc::{AllocError, Global};
use std::io::Read;
use std::mem::replace;

/// What a note of a line of memory is about that has these entries, of a log with this many lines of text before its entries.
pub(crate) fn subject_of<'a>(
    before: usize,
    last: &Last,
    line: u8,
    entries: Vec<Numbered<'a>>,
) -> Subject<'a>
    requires line { line < length last.now }
    requires lines { length last.now ≤ before }
    requires before { before ≤ MAX_LINES + 1 }
    ensures { (logs : List (List Entry)) → numberings entries.entry.items ≡ numbered_on line before logs
        → IsSubject before logs last.now line result }
{
    Subject {
        line,
        entries,
        last: last.get(line),
        last_line: before - last.lines() as usize + 1 + line as usize,
    }
}

/// What is found on all lines of memory that have a fault, of a log whose lines have these faults.
fn findings<'a>(
    alloc: Global,
    log: &'a ReadLog,
    faults: &[Option<LineFault>],
) -> Result<Vec<Finding<'a>>, AllocError>
    requires within { AreWithin (length log.now.last.value) log.now.logs }
    requires lines { length log.now.last.value ≤ log.now.before }
    requires before { log.now.before ≤ MAX_LINES + 1 }
    requires few { (n : ℕ) → length (log_of log.now.logs n) ≤ MAX_OPERATIONS }
    requires found { AreFound log.now.logs log.now.last.value (length log.now.last.value) faults.now }
    ensures { IfOk result (λ findings.
        AreFindings log.now.before log.now.logs log.now.last.value 0 faults.now findings.items) }
{
    let logs = &log.logs;
    let last: &Last = &log.last;
    // Read, so that the prover knows that there are sixteen logs, and that each has its own node's entries.
    let _nodes = logs.nodes();
    let mut lists = entries_by_line(alloc, logs, log.before, last.lines())?;
    let mut findings = Vec::new(alloc);
    for line in 0..last.lines() {
        let Some(fault) = faults[line as usize] else {
            continue;
        };
        let entries = replace(&mut lists[line as usize], Vec::new(alloc));
        let subject = subject_of(log.before, last, line, entries);
        let finding = Finding::of(alloc, fault, subject)?;
        findings.push(finding)?;
    }
    Ok(findings)
}

/// What is found, in words.
fn findings_text(alloc: Global, findings: &[Finding]) -> Result<Vec<u8>, AllocError>
    ensures { IfOk result (λ text. text.items ≡ flat_map finding_text findings.now) }
{
    let mut text = Vec::new(alloc);
    for finding in findings {
        push_finding(alloc, &mut text, finding)?;
    }
    Ok(text)
}

/// What is written of a lawful log.
fn lawful_shown(alloc: Global, json: bool) -> Result<Vec<u8>, AllocError>
    ensures { IfOk result (λ text. text.items ≡ lawful_shown_of json) }
{
    if json {
        lawful_json(alloc)
    } else {
        verdict_line(alloc, Verdict::Lawful)
    }
}

/// What is written of what is found in another.
fn findings_shown(alloc: Global, json: bool, findings: &[Finding]) -> Result<Vec<u8>, AllocError>
    ensures { IfOk result (λ text. text.items ≡ findings_shown_of json findings.now) }
{
    if json {
        findings_json(alloc, findings)
    } else {
        findings_text(alloc, findings)
    }
}

/// Whether a line has a fault.
fn has_fault(faults: &[Option<LineFault>]) -> bool
    ensures { result ≡ list_any is_some faults.now }
{
    faults.iter().any(|fault| fault.is_some())
}

/// What is written of a log, and how the command ends.
fn explained(alloc: Global, json: bool, log: &ReadLog) -> Result<Answer, AllocError>
    requires within { AreWithin (length log.now.last.value) log.now.logs }
    requires lines { length log.now.last.value ≤ log.now.before }
    requires before { log.now.before ≤ MAX_LINES + 1 }
    requires few { (n : ℕ) → length (log_of log.now.logs n) ≤ MAX_OPERATIONS }
    ensures { IfOk result (λ x.
        IsExplained json log.now.before log.now.logs log.now.last.value x.text.items x.outcome) }
{
    let faults = line_faults(alloc, &log.logs, &log.last)?;
    if !has_fault(&faults) {
        return Ok(Answer {
            text: lawful_shown(alloc, json)?,
            outcome: Outcome::Done,
        });
    }
    let findings = findings(alloc, log, &faults)?;
    Ok(Answer {
        text: findings_shown(alloc, json, &findings)?,
        outcome: Outcome::Unlawful,
    })
}

impl ReadLog {
    /// What `explain` writes of the log, in words or as one JSON object, and how it ends. Refused if memory is.
    pub fn explained(&self, alloc: Global, json: bool) -> Result<Answer, AllocError>
        requires { (text : List ℕ) × IsReadLog text self.now }
        ensures { (text : List ℕ) → IsReadLog text self.now
            → IfOk result (λ x. IsExplanationOf json text x.text.items x.outcome) }
    {
        explained(alloc, json, self)
    }
}

/// Reads a log to its end and audits it: `lawful` is Done. Of a log that isn't lawful it reports the first fault of each
/// line of memory that has one, lowest lines first, and is Unlawful:
/// - the line of an audit that names the fault;
/// - the line of the text that has the entry at fault, what was found there, and what one memory of one thread gives;
/// - the entry at fault and those around it in the order of versions.
///
/// With `json` the same is one JSON object. A text with a fault is refused, as are a reader that fails, too long an input and
/// running out of memory, at line 0. After a failed read nothing more is read.
pub fn explain<R: Read>(alloc: Global, json: bool, reader: &mut Tap<R>) -> Answered
    requires { has_failed reader.old ≡ false }
    ensures { HasAnswered R.remaining reader.old reader.new (IsExplainAnswer json) (IsTold IsLogFault) result }
{
    let bytes = read_input(alloc, reader)?;
    let log = ReadLog::of(alloc, &bytes)?;
    Ok(log.explained(alloc, json)?)
}
