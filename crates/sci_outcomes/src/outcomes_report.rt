//! The command `outcomes`: the outcomes of a script that is run many times.

ghost use Rattle.std.specs.{Prelude.{◌≡◌, ◌⊎◌, ◌++◌, ◌+◌, ◌<◌, List, false, true, option_map, IfErr, IfOk, OnOk}, List.{flat_map}};
ghost use Rattle.sci_text.specs.{declared.fault.TextFaultKind.TheVariants.{Memory, TooMany}, Script.{ScriptValue}, Tap.{has_failed}};
ghost use Rattle.sci_drive.specs.Rounds.{most_pending};
ghost use Rattle.sci_command.specs.Answer.{HasAnswered};
ghost use Rattle.sci_allowed.specs.Allowed.{IsLitmus, IsTooBig};
ghost use Rattle.sci_outcomes.specs.{Rows.{HasCounted}, Trials.{AreWithin}, declared.{fault.TrialsFault.{TrialsFault}, outcome.Sighting.{Sighting}}};
ghost use Rattle.sci_outcomes.specs.OutcomesAnswer.{AreAsked, IsOutcomesAnswer, IsOutcomesRefusal, IsTable, count_text, outcomes_text as outcomes_text_of};
ghost use Rattle.sci_outcomes.specs.OutcomesAnswer.{row_text, seed_text, total_text, trials_of, unseen_text, whole_text as whole_text_of};
ghost use Rattle.sci_outcomes.specs.OutcomesAnswer.{sample_shown as sample_shown_of, whole_shown as whole_shown_of, whole_total_text};

use crate::fault::TrialsFault;
use crate::histogram::{Histogram, Row};
use crate::outcomes_json::{AllRows, outcomes_json};
use crate::said::{Said, ending_of, push_said, said_of, said_of_all};
use crate::trials::{Trials, Turns, counted};
use sci_allowed::{
    AllowedRow, FinalCondition, Litmus, TOO_MANY_POSITIONS, push_outcome, read_conditioned,
    sense_words,
};
use sci_command::{Answer, Answered, Note, Refusal, push_labelled};
use sci_drive::Issuing;
use sci_orders::OrdersFault;
use sci_text::{Tap, TextFaultKind, push_text};
use std::alloc::{AllocError, Global};
use std::io::Read;
use std::thread::Threads;

/// How many runs there are at most.
pub const MAX_RUNS: u64 = 1_000_000;

const _: () = prove!(MAX_RUNS == 1_000_000);

/// How many runs there are, if the words don't say.
pub const RUNS: u64 = 1_000;

const _: () = prove!(RUNS == 1_000);

/// The seed of the first run, if the words don't say.
pub const SEED: u64 = 1;

const _: () = prove!(SEED == 1);

/// What is asked of the outcomes of a script.
#[derive(Clone, Copy)]
pub struct OutcomesRequest {
    /// How many runs there are, 1 to 1,000,000, or None for 1,000.
    pub runs: Option<u64>,
    /// In which order the nodes take turns, or None for one that is drawn from seed 1 in the first run.
    pub turns: Option<Turns>,
    /// When the operations of a node are submitted.
    pub issuing: Issuing,
    /// Whether all other outcomes that a run can have are listed, too.
    pub all: bool,
    /// Whether one JSON object is written, and not lines.
    pub json: bool,
}

impl OutcomesRequest {
    /// The runs that are asked for.
    fn trials(self) -> Trials
        ensures { result ≡ trials_of self }
    {
        Trials {
            runs: self.runs.unwrap_or(RUNS),
            turns: self.turns.unwrap_or(Turns::Drawn { seed: SEED }),
            issuing: self.issuing,
        }
    }
}

/// What the runs of a script had, and all rows of the script, if they are asked for.
#[derive(Drop)]
struct Sample {
    histogram: Histogram,
    allowed: Option<Vec<AllowedRow>>,
}

/// Appends the seed of the run with this number, if its order of turns was drawn.
#[tactic(auto, unfolding(crate::specs::OutcomesAnswer::seed_text))]
fn push_seed(out: &mut Vec<u8>, turns: Turns, number: u64) -> Result<(), AllocError>
    ensures { OnOk result (out.new.items ≡ out.old.items ++ seed_text turns number) }
{
    match turns {
        Turns::Drawn { seed } => push_labelled(out, b" seed", seed.wrapping_add(number)),
        Turns::Threads => Ok(()),
    }
}

/// Appends how many runs gave the outcome of a row, the seed of the first of them, and whether it is in program order.
#[tactic(auto, unfolding(crate::specs::OutcomesAnswer::count_text))]
fn push_count(out: &mut Vec<u8>, turns: Turns, row: &Row) -> Result<(), AllocError>
    ensures { OnOk result (out.new.items ≡ out.old.items ++ count_text turns row.now) }
{
    push_labelled(out, b": count", row.runs)?;
    push_seed(out, turns, row.first)?;
    push_text(out, sense_words(row.in_order))
}

/// Appends the line of a row.
#[tactic(auto, unfolding(crate::specs::OutcomesAnswer::row_text))]
fn push_row(out: &mut Vec<u8>, turns: Turns, row: &Row) -> Result<(), AllocError>
    ensures { OnOk result (out.new.items ≡ out.old.items ++ row_text turns row.now) }
{
    push_outcome(out, &row.outcome)?;
    push_count(out, turns, row)
}

/// Appends how many outcomes and runs there were.
#[tactic(auto, unfolding(crate::specs::OutcomesAnswer::total_text))]
fn push_total(out: &mut Vec<u8>, outcomes: u64, runs: u64) -> Result<(), AllocError>
    ensures { OnOk result (out.new.items ≡ out.old.items ++ total_text outcomes runs) }
{
    push_labelled(out, b"outcomes", outcomes)?;
    push_labelled(out, b" runs", runs)?;
    push_text(out, "\n")
}

/// What is said of a script with a run that is given up.
const GIVEN_UP: &str =
    "a run has more than 500,000 events, or isn't done after 1,000,000,000 turns";

/// What is said of a script whose outcomes are too many.
const CROWDED: &str = "the outcomes that differ have more than 16,000,000 operations in all";

/// Why the outcomes of the runs aren't known, as a fault of the whole input.
fn trials_refusal(fault: TrialsFault) -> Refusal
    ensures line { result.fault.line ≡ 0 }
    ensures kind { (result.fault.kind ≡ TooMany) ⊎ (result.fault.kind ≡ Memory) }
    ensures many { result.fault.kind ≡ TooMany →
        (fault ≡ TrialsFault.GivenUp) ⊎ (fault ≡ TrialsFault.Crowded) }
{
    let (kind, note) = match fault {
        TrialsFault::Memory => (TextFaultKind::Memory, Note::Kind),
        TrialsFault::GivenUp => (TextFaultKind::TooMany, Note::Fixed(GIVEN_UP)),
        TrialsFault::Crowded => (TextFaultKind::TooMany, Note::Fixed(CROWDED)),
    };
    Refusal::of_input(kind, note)
}

/// The text of the rows of runs.
fn outcomes_text(alloc: Global, trials: Trials, rows: &[Row]) -> Result<Vec<u8>, AllocError>
    ensures { IfOk result (λ text. text.items ≡ outcomes_text_of trials rows.now) }
{
    let mut text = Vec::new(alloc);
    for row in rows {
        push_row(&mut text, trials.turns, row)?;
    }
    push_total(&mut text, rows.len() as u64, trials.runs)?;
    Ok(text)
}

/// Appends the line of an outcome that no run had.
#[tactic(auto, unfolding(crate::specs::OutcomesAnswer::unseen_text))]
fn push_unseen(out: &mut Vec<u8>, row: &AllowedRow) -> Result<(), AllocError>
    ensures { OnOk result (out.new.items ≡ out.old.items ++ unseen_text row.now) }
{
    push_outcome(out, &row.outcome)?;
    push_text(out, ": count 0")?;
    push_text(out, sense_words(row.in_order))
}

/// Appends how many outcomes there are, how many were seen, and how many runs there were.
#[tactic(auto, unfolding(crate::specs::OutcomesAnswer::whole_total_text))]
fn push_whole_total(
    out: &mut Vec<u8>,
    outcomes: u64,
    seen: u64,
    runs: u64,
) -> Result<(), AllocError>
    ensures { OnOk result (out.new.items ≡ out.old.items ++ whole_total_text outcomes seen runs) }
{
    push_labelled(out, b"outcomes", outcomes)?;
    push_labelled(out, b" seen", seen)?;
    push_labelled(out, b" runs", runs)?;
    push_text(out, "\n")
}

/// The text of the rows of runs, and of those that no run had.
fn whole_text(
    alloc: Global,
    trials: Trials,
    rows: &[Row],
    unseen: &[AllowedRow],
) -> Result<Vec<u8>, AllocError>
    ensures { IfOk result (λ text. text.items ≡ whole_text_of trials rows.now unseen.now) }
{
    let mut text = Vec::new(alloc);
    for row in rows {
        push_row(&mut text, trials.turns, row)?;
    }
    for other in unseen {
        push_unseen(&mut text, other)?;
    }
    let seen = rows.len() as u64;
    push_whole_total(
        &mut text,
        seen.wrapping_add(unseen.len() as u64),
        seen,
        trials.runs,
    )?;
    Ok(text)
}

/// What is written of the rows of runs, and of what they say of a condition.
fn sample_shown(
    alloc: Global,
    request: OutcomesRequest,
    rows: &[Row],
    said: Option<Said>,
) -> Result<Vec<u8>, AllocError>
    ensures { IfOk result (λ text. text.items ≡ sample_shown_of request rows.now said) }
{
    let trials = request.trials();
    if request.json {
        let all = AllRows {
            seen: rows,
            unseen: &[],
        };
        return outcomes_json(alloc, trials, all, said);
    }
    let mut text = outcomes_text(alloc, trials, rows)?;
    push_said(&mut text, said)?;
    Ok(text)
}

/// What is written of the rows of runs, of those that no run had, and of what all of them say of a condition.
fn whole_shown(
    alloc: Global,
    request: OutcomesRequest,
    rows: AllRows,
    said: Option<Said>,
) -> Result<Vec<u8>, AllocError>
    ensures { IfOk result (λ text. text.items
        ≡ whole_shown_of request rows.entry.seen.now rows.entry.unseen.now said) }
{
    let trials = request.trials();
    if request.json {
        return outcomes_json(alloc, trials, rows, said);
    }
    let mut text = whole_text(alloc, trials, rows.seen, rows.unseen)?;
    push_said(&mut text, said)?;
    Ok(text)
}

/// The table of what runs had, and what is said of the condition of the script, if it has one.
fn table(
    alloc: Global,
    request: OutcomesRequest,
    last: &Option<FinalCondition>,
    sample: Sample,
) -> Result<Answer, AllocError>
    ensures { IfOk result (λ answer. (script : ScriptValue) (seen : List Sighting) →
        AreWithin script sample.histogram → HasCounted sample.histogram seen →
        IsTable request script last.now seen (option_map (λ rows. rows.items) sample.allowed) answer.text.items answer.outcome) }
{
    let Sample { histogram, allowed } = sample;
    match allowed {
        None => {
            let rows = histogram.rows(alloc)?;
            let said = said_of(last, &rows);
            Ok(Answer {
                text: sample_shown(alloc, request, &rows, said)?,
                outcome: ending_of(said),
            })
        }
        Some(allowed) => {
            let said = said_of_all(last, &allowed);
            let unseen = histogram.unseen(alloc, allowed)?;
            let rows = histogram.rows(alloc)?;
            let all = AllRows {
                seen: &rows,
                unseen: &unseen,
            };
            Ok(Answer {
                text: whole_shown(alloc, request, all, said)?,
                outcome: ending_of(said),
            })
        }
    }
}

/// Why the rows of a script aren't known, as a fault of the whole input.
fn big_refusal(fault: OrdersFault) -> Refusal
    ensures line { result.fault.line ≡ 0 }
    ensures kind { (result.fault.kind ≡ TooMany) ⊎ (result.fault.kind ≡ Memory) }
    ensures many { result.fault.kind ≡ TooMany → fault ≡ OrdersFault.TooMany }
{
    let (kind, note) = match fault {
        OrdersFault::Memory => (TextFaultKind::Memory, Note::Kind),
        OrdersFault::TooMany => (TextFaultKind::TooMany, Note::Fixed(TOO_MANY_POSITIONS)),
    };
    Refusal::of_input(kind, note)
}

/// All rows of a script, if they are asked for. A refusal has line 0.
fn asked_rows(
    alloc: Global,
    litmus: &Litmus,
    request: OutcomesRequest,
) -> Result<Option<Vec<AllowedRow>>, OrdersFault>
    requires { IsLitmus litmus.now }
    ensures rows { IfOk result (λ rows. AreAsked request.all litmus.now.script (most_pending request.issuing)
        (option_map (λ rows. rows.items) rows)) }
    ensures many { IfErr result (λ fault. fault ≡ OrdersFault.TooMany → (request.all ≡ true)
        × IsTooBig litmus.now.script (most_pending request.issuing)) }
{
    if request.all {
        Ok(Some(litmus.rows(alloc, request.issuing)?))
    } else {
        Ok(None)
    }
}

/// Reads a script to its end, runs it many times by the policy on a new machine, each time in an order that is drawn from the
/// next seed or by one thread a node, and gives a line for each outcome: what each load and each lock operation replied, by
/// node and then by serial; what each word that the script may write holds at the end; how many runs gave the outcome; the
/// seed of the first of them, unless they are by threads; and whether the log of one of them is sequentially consistent in
/// program order. The most frequent stands first, and those that are as frequent by their numbers. The next line says how many
/// outcomes and runs there were. If the text of the script ends in a condition, the last line says what the runs show of it, and
/// it is Unlawful if it isn't true of them. That the log of each run is lawful is a theorem, and isn't looked at.
///
/// If all outcomes are asked for, a line with count 0 follows for each other outcome that a run of the script can have, sorted,
/// as `allowed` gives them, and the last lines say how many outcomes there are in all and how many were seen, and whether the
/// condition is true of all of them. With `json` the same is one JSON object.
///
/// A script with a fault is refused, as are a reader that fails, too long an input and running out of memory, at line 0; a run
/// of more than 500,000 events or 1,000,000,000 turns, as `too-many` at line 0; and so are runs whose outcomes have more than
/// 16,000,000 operations in all, each that differs with all operations of the script; and a script of which some number of steps
/// leads to more than 100,000 positions, if all outcomes are asked for. After a failed read nothing more is read.
pub fn outcomes_of<T: Threads + Sync, R: Read>(
    rt: &T,
    alloc: Global,
    request: OutcomesRequest,
    reader: &mut Tap<R>,
) -> Answered
    requires { has_failed reader.old ≡ false }
    ensures { HasAnswered R.remaining reader.old reader.new (IsOutcomesAnswer request)
        (IsOutcomesRefusal request) result }
{
    let (litmus, last) = read_conditioned(alloc, reader)?;
    let allowed = match asked_rows(alloc, &litmus, request) {
        Ok(rows) => rows,
        Err(fault) => return Err(big_refusal(fault)),
    };
    let histogram = match counted(rt, alloc, &litmus.script, request.trials()) {
        Ok(histogram) => histogram,
        Err(fault) => return Err(trials_refusal(fault)),
    };
    let answer = table(alloc, request, &last, Sample { histogram, allowed })?;
    Ok(answer)
}
