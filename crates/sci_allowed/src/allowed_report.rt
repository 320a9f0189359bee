//! The command `allowed`: all outcomes that runs of a script can have.

ghost use Rattle.std.specs.Prelude.{◌≡◌, ◌++◌, ℕ, Some, false, IfErr, IfOk, IsSome, OnOk};
ghost use Rattle.sci_text.specs.Tap.{has_failed};
ghost use Rattle.sci_command.specs.Answer.{HasAnswered};
ghost use Rattle.sci_drive.specs.Rounds.{most_pending};
ghost use Rattle.sci_allowed.specs.Allowed.{IsLitmus, IsTooBig, IsTooLong, kind_of};
ghost use Rattle.sci_allowed.specs.AllowedAnswer.{IsAllowedAnswer, IsAllowedRefusal, IsShownText, IsTextOf, LacksNumber, row_text, rows_text as rows_text_of, total_text};
ghost use Rattle.sci_allowed.specs.Verdict.{AddsVerdict};
ghost use Rattle.sci_allowed.specs.declared.fault.AllowedFault.TheVariants.{NoRow, TooLong, TooMany};

use crate::condition::FinalCondition;
use crate::conditioned::read_conditioned;
use crate::fault::AllowedFault;
use crate::litmus::Litmus;
use crate::outcome_text::{push_outcome, sense_words};
use crate::rows::{AllowedRow, TOO_MANY_POSITIONS, window_of};
use crate::verdict::push_verdict;
use sci_command::{Answer, Answered, Note, Outcome as Ending, Refusal, push_labelled};
use sci_drive::Issuing;
use sci_text::{Tap, TextFaultKind, push_field, push_text, schedule_text};
use std::alloc::{AllocError, Global};
use std::io::Read;

/// What is asked of the outcomes that runs of a script can have.
#[derive(Clone, Copy)]
pub struct AllowedRequest {
    /// When the operations of a node are submitted.
    pub issuing: Issuing,
    /// The number of the row to which a schedule is shown, from 1, or None for all rows.
    pub show: Option<u64>,
}

/// Appends the line of a row.
#[tactic(auto, unfolding(crate::specs::AllowedAnswer::row_text))]
fn push_row(out: &mut Vec<u8>, row: &AllowedRow) -> Result<(), AllocError>
    ensures { OnOk result (out.new.items ≡ out.old.items ++ row_text row.now) }
{
    push_outcome(out, &row.outcome)?;
    push_text(out, ":")?;
    push_text(out, sense_words(row.in_order))
}

/// Appends how many rows there are.
#[tactic(auto, unfolding(crate::specs::AllowedAnswer::total_text))]
fn push_total(out: &mut Vec<u8>, rows: u64) -> Result<(), AllocError>
    ensures { OnOk result (out.new.items ≡ out.old.items ++ total_text rows) }
{
    push_labelled(out, b"outcomes", rows)?;
    push_text(out, "\n")
}

/// The text of the rows.
fn rows_text(alloc: Global, rows: &[AllowedRow]) -> Result<Vec<u8>, AllocError>
    ensures { IfOk result (λ text. text.items ≡ rows_text_of rows.now) }
{
    let mut text = Vec::new(alloc);
    for row in rows {
        push_row(&mut text, row)?;
    }
    push_total(&mut text, rows.len() as u64)?;
    Ok(text)
}

/// The text of the rows, and the verdict on the condition of the script, if it has one.
fn judged_rows(
    alloc: Global,
    rows: &[AllowedRow],
    last: &Option<FinalCondition>,
) -> Result<Answer, AllocError>
    ensures { IfOk result (λ answer. AddsVerdict last.now rows.now (rows_text_of rows.now)
        answer.text.items answer.outcome) }
{
    let mut text = rows_text(alloc, rows)?;
    let outcome = push_verdict(&mut text, last, rows)?;
    Ok(Answer { text, outcome })
}

/// The text of a schedule to the row with this number, from 1.
fn shown_text(
    alloc: Global,
    litmus: &Litmus,
    window: usize,
    number: u64,
) -> Result<Vec<u8>, AllowedFault>
    requires { IsLitmus litmus.now }
    ensures text { IfOk result (λ text. IsShownText litmus.now.script window number text.items) }
    ensures many { IfErr result (λ fault. fault ≡ TooMany → IsTooBig litmus.now.script window) }
    ensures long { IfErr result (λ fault. fault ≡ TooLong → IsTooLong litmus.now.script) }
    ensures lacks { IfErr result (λ fault. (rows : ℕ) → fault ≡ NoRow rows →
        LacksNumber litmus.now.script window number) }
{
    let outcomes = litmus.outcomes(alloc, window)?;
    let rows = outcomes.len();
    if number == 0 || number > rows as u64 {
        return Err(AllowedFault::NoRow { rows });
    }
    let schedule = litmus.schedule_to(alloc, window, &outcomes[(number - 1) as usize])?;
    Ok(schedule_text(alloc, &schedule)?)
}

/// What is written of a script and its condition, and how the command ends then.
fn answer_of(
    alloc: Global,
    litmus: &Litmus,
    last: &Option<FinalCondition>,
    request: AllowedRequest,
) -> Result<Answer, AllowedFault>
    requires { IsLitmus litmus.now }
    ensures text { IfOk result (λ answer. IsTextOf litmus.now.script (most_pending request.issuing)
        request.show last.now answer.text.items answer.outcome) }
    ensures many { IfErr result (λ fault. fault ≡ TooMany →
        IsTooBig litmus.now.script (most_pending request.issuing)) }
    ensures long { IfErr result (λ fault. fault ≡ TooLong →
        IsSome request.show × IsTooLong litmus.now.script) }
    ensures lacks { IfErr result (λ fault. (rows : ℕ) → fault ≡ NoRow rows → (number : ℕ)
        × (request.show ≡ Some number)
        × LacksNumber litmus.now.script (most_pending request.issuing) number) }
{
    match request.show {
        None => {
            let rows = litmus.rows(alloc, request.issuing)?;
            Ok(judged_rows(alloc, &rows, last)?)
        }
        Some(number) => {
            let text = shown_text(alloc, litmus, window_of(request.issuing), number)?;
            Ok(Answer {
                text,
                outcome: Ending::Done,
            })
        }
    }
}

/// What is said of a number that isn't that of a row.
fn no_row(alloc: Global, rows: usize) -> Result<Vec<u8>, AllocError> {
    let mut note = Vec::new(alloc);
    push_text(&mut note, "--show: expected the number of a row, from 1 to")?;
    push_field(&mut note, rows as u64)?;
    Ok(note)
}

/// What is said of a schedule with too many events.
const TOO_LONG: &str = "the schedule has more than 500,000 events";

/// Why nothing is shown, as a fault of the whole input.
fn refusal_of(alloc: Global, fault: AllowedFault) -> Refusal
    ensures line { result.fault.line ≡ 0 }
    ensures kind { result.fault.kind ≡ kind_of fault }
{
    let (kind, note) = match fault {
        AllowedFault::Memory => (TextFaultKind::Memory, Note::Kind),
        AllowedFault::TooMany => (TextFaultKind::TooMany, Note::Fixed(TOO_MANY_POSITIONS)),
        AllowedFault::TooLong => (TextFaultKind::TooMany, Note::Fixed(TOO_LONG)),
        AllowedFault::NoRow { rows } => {
            (TextFaultKind::Range, Note::of_made(no_row(alloc, rows)))
        }
    };
    Refusal::of_input(kind, note)
}

/// Reads a script to its end, and gives a line for each outcome that a run of it can have on a new machine, if each node
/// submits its operations in their order, up to four at once, each on another line, or each when all before it are performed:
/// what each load and each lock operation replied, by node and then by serial; what each word that the script may write holds
/// at the end; and whether a run in which each node goes in order can have the outcome, too. They stand by their numbers. The
/// next line says how many outcomes there are. If the text of the script ends in a condition, the last line says whether it is
/// true of the outcomes, and it is Unlawful if it isn't. With a number, it gives a schedule to the row with this number, from 1.
///
/// A script with a fault is refused, as are a reader that fails, too long an input and running out of memory, at line 0. A
/// script of which some number of steps leads to more than 100,000 positions is refused as `too-many` at line 0, as is a
/// schedule of more than 500,000 events; and a number that isn't that of a row as `range` at line 0. After a failed read
/// nothing more is read.
pub fn allowed<R: Read>(alloc: Global, request: AllowedRequest, reader: &mut Tap<R>) -> Answered
    requires { has_failed reader.old ≡ false }
    ensures { HasAnswered R.remaining reader.old reader.new (IsAllowedAnswer request)
        (IsAllowedRefusal request) result }
{
    let (litmus, last) = read_conditioned(alloc, reader)?;
    match answer_of(alloc, &litmus, &last, request) {
        Ok(answer) => Ok(answer),
        Err(fault) => Err(refusal_of(alloc, fault)),
    }
}
