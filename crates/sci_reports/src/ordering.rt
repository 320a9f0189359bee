//! The command `order`: whether a log is sequentially consistent, or a cycle of entries that shows that it is not.

ghost use Rattle.std.specs.{Prelude.{◌≡◌, ◌≤◌, ◌+◌, ◌++◌, ◌↔◌, ℕ, List, false, length, IfOk, OnOk}, List.{flat_map}};
ghost use Rattle.sci_words.specs.declared.limits.TheConstants.{MAX_LINES, MAX_OPERATIONS};
ghost use Rattle.sci_history.specs.{Audit.{AreWithin, entries_of}, Cycle.{IsOrdered}, Lawful.{Lawful}, Placed.{log_of}};
ghost use Rattle.sci_text.specs.{FirstFault.{IsTold}, Log.{entry_line}, LogFault.{IsLogFault}, Tap.{has_failed}};
ghost use Rattle.sci_command.specs.{Answer.{HasAnswered}, declared.outcome.Outcome.{Outcome}};
ghost use Rattle.sci_reports.specs.OrderAnswer.{IsFound, AreNumbered, IsOrderAnswer, IsOrderOf, IsOrderText, cycle_text as cycle_text_of};
ghost use Rattle.sci_reports.specs.OrderAnswer.{cycle_shown as cycle_shown_of, fault_shown as fault_shown_of, found_shown as found_shown_of};
ghost use Rattle.sci_reports.specs.OrderAnswer.{found_text as found_text_of, place_text, sense_text, shown_text, step_text, why_text};
ghost use Rattle.sci_reports.specs.{OrderWords.{order_name as order_name_of, reason_text}, ReadLog.{IsReadLog}};

use crate::numbered::line_of_entry;
use crate::order_json::{cycle_json, fault_json, found_json};
use crate::read_log::ReadLog;
use sci_command::{Answer, Answered, Outcome, verdict_line};
use sci_history::{
    Entry, Last, LineFault, Logs, OrderVerdict, Reason, Step, Verdict, audit, sequential_order,
    serial_order_is_lawful,
};
use sci_text::{Tap, push_entry, push_field, push_text, read_input};
use std::alloc::{AllocError, Global};
use std::io::Read;

/// In which order each node's entries have to stand.
#[derive(Clone, Copy)]
pub enum NodeOrder {
    /// As in the node's log: as they were performed.
    Logged,
    /// By their serials: as they were issued, which is the order of the program.
    BySerial,
}

/// What is asked of an order of all entries.
#[derive(Clone, Copy)]
pub struct OrderRequest {
    /// In which order each node's entries have to stand in it.
    pub keeps: NodeOrder,
    /// Whether its entries are written, if there is one.
    pub shows: bool,
    /// Whether the answer is one JSON object.
    pub json: bool,
}

/// What is searched for in the logs of a text.
#[derive(Clone, Copy)]
struct Search {
    /// What is asked for.
    request: OrderRequest,
    /// How many lines the text has before the entries.
    before: usize,
}

/// An entry of a cycle, and the number of the text's line on which it stands.
#[derive(Clone, Copy)]
pub struct NumberedStep {
    pub step: Step,
    pub line: Option<usize>,
}

/// The name of the order in which each node's entries have to stand.
#[tactic(auto, unfolding(crate::specs::OrderWords::order_name))]
pub(crate) fn order_name(keeps: NodeOrder) -> &'static str
    ensures { result.now ≡ order_name_of keeps }
{
    match keeps {
        NodeOrder::Logged => "log order",
        NodeOrder::BySerial => "program order",
    }
}

/// Why an entry comes after another.
#[tactic(auto, unfolding(crate::specs::OrderWords::reason_text))]
pub(crate) fn reason_words(keeps: NodeOrder, reason: Reason) -> &'static str
    ensures { result.now ≡ reason_text keeps reason }
{
    match reason {
        Reason::Logged => order_name(keeps),
        Reason::ReadsFrom => "write before read",
        Reason::FromRead => "read before write",
        Reason::Coherence => "version order",
    }
}

/// The words that say that there is an order, and in which sense.
#[tactic(auto, unfolding(crate::specs::OrderAnswer::sense_text))]
fn sense_words(keeps: NodeOrder) -> &'static str
    ensures { result.now ≡ sense_text keeps }
{
    match keeps {
        NodeOrder::Logged => "sequentially consistent",
        NodeOrder::BySerial => "sequentially consistent in program order",
    }
}

/// Appends the number of the line on which an entry stands, if it stands on one.
#[tactic(auto, unfolding(crate::specs::OrderAnswer::place_text))]
fn push_place(out: &mut Vec<u8>, line: Option<usize>) -> Result<(), AllocError>
    ensures { OnOk result (out.new.items ≡ out.old.items ++ place_text line) }
{
    match line {
        None => Ok(()),
        Some(line) => {
            push_text(out, "line")?;
            push_field(out, line as u64)?;
            push_text(out, ": ")
        }
    }
}

/// Appends why an entry of a cycle comes after the one on the next line, and the line feed.
#[tactic(auto, unfolding(crate::specs::OrderAnswer::why_text))]
fn push_why(out: &mut Vec<u8>, keeps: NodeOrder, reason: Reason) -> Result<(), AllocError>
    ensures { OnOk result (out.new.items ≡ out.old.items ++ why_text keeps reason) }
{
    push_text(out, " comes after the next: ")?;
    push_text(out, reason_words(keeps, reason))?;
    push_text(out, "\n")?;
    Ok(())
}

/// Appends the line of an entry of a cycle.
#[tactic(auto, unfolding(crate::specs::OrderAnswer::step_text))]
fn push_step(out: &mut Vec<u8>, keeps: NodeOrder, it: &NumberedStep) -> Result<(), AllocError>
    ensures { OnOk result (out.new.items ≡ out.old.items ++ step_text keeps it.now) }
{
    push_place(out, it.line)?;
    push_entry(out, &it.step.entry)?;
    push_why(out, keeps, it.step.reason)
}

/// The entries of a cycle with the lines of the text on which they stand.
fn numbered(
    alloc: Global,
    before: usize,
    logs: &Logs,
    steps: &[Step],
) -> Result<Vec<NumberedStep>, AllocError>
    requires few { (n : ℕ) → length (log_of logs.now n) ≤ MAX_OPERATIONS }
    requires before { before ≤ MAX_LINES + 1 }
    ensures { IfOk result (λ numbered. AreNumbered before logs.now steps.now numbered.items) }
{
    let mut numbered = Vec::with_capacity(alloc, steps.len())?;
    for step in steps {
        let line = line_of_entry(logs, before, &step.entry);
        numbered.push(NumberedStep { step: *step, line })?;
    }
    Ok(numbered)
}

/// Appends the lines of the entries of a cycle.
fn push_steps(out: &mut Vec<u8>, keeps: NodeOrder, steps: &[NumberedStep]) -> Result<(), AllocError>
    ensures { OnOk result (out.new.items ≡ out.old.items ++ flat_map (step_text keeps) steps.now) }
{
    for step in steps {
        push_step(out, keeps, step)?;
    }
    Ok(())
}

/// The text of a cycle: that there is no order, and its entries.
#[tactic(auto, unfolding(crate::specs::OrderAnswer::cycle_text))]
fn cycle_text(
    alloc: Global,
    keeps: NodeOrder,
    steps: &[NumberedStep],
) -> Result<Vec<u8>, AllocError>
    ensures { IfOk result (λ text. text.items ≡ cycle_text_of keeps steps.now) }
{
    let mut text = Vec::new(alloc);
    push_text(&mut text, "not ")?;
    push_text(&mut text, sense_words(keeps))?;
    push_text(&mut text, "\n")?;
    push_steps(&mut text, keeps, steps)?;
    Ok(text)
}

/// Appends an entry, and the line feed.
#[tactic(auto, unfolding(sci_text::specs::Log::entry_line))]
fn push_entry_line(out: &mut Vec<u8>, entry: &Entry) -> Result<(), AllocError>
    ensures { OnOk result (out.new.items ≡ out.old.items ++ entry_line entry.now) }
{
    push_entry(out, entry)?;
    push_text(out, "\n")?;
    Ok(())
}

/// Appends the entries of an order, a line each, if they are shown.
#[tactic(auto, unfolding(crate::specs::OrderAnswer::shown_text))]
fn push_shown(out: &mut Vec<u8>, shows: bool, order: &[&Entry]) -> Result<(), AllocError>
    ensures { OnOk result
        (out.new.items ≡ out.old.items ++ shown_text shows (entries_of order.now)) }
{
    if !shows {
        return Ok(());
    }
    for entry in order {
        push_entry_line(out, entry)?;
    }
    Ok(())
}

/// The text of an order: that there is one, and its entries.
#[tactic(auto, unfolding(crate::specs::OrderAnswer::found_text))]
fn found_text(alloc: Global, request: OrderRequest, order: &[&Entry]) -> Result<Vec<u8>, AllocError>
    ensures { IfOk result
        (λ text. text.items ≡ found_text_of request (entries_of order.now)) }
{
    let mut text = Vec::new(alloc);
    push_text(&mut text, sense_words(request.keeps))?;
    push_text(&mut text, "\n")?;
    push_shown(&mut text, request.shows, order)?;
    Ok(text)
}

/// What is written of the fault of logs that aren't lawful.
fn fault_shown(
    alloc: Global,
    request: OrderRequest,
    fault: LineFault,
    line: u8,
) -> Result<Vec<u8>, AllocError>
    ensures { IfOk result
        (λ text. text.items ≡ fault_shown_of request line fault.kind fault.at) }
{
    if request.json {
        return fault_json(alloc, fault, line);
    }
    verdict_line(
        alloc,
        Verdict::Fault {
            line,
            kind: fault.kind,
            at: fault.at,
        },
    )
}

/// What is written of an order.
fn found_shown(
    alloc: Global,
    request: OrderRequest,
    order: &[&Entry],
) -> Result<Vec<u8>, AllocError>
    ensures { IfOk result
        (λ text. text.items ≡ found_shown_of request (entries_of order.now)) }
{
    if request.json {
        found_json(alloc, request, order)
    } else {
        found_text(alloc, request, order)
    }
}

/// What is written of a cycle.
fn cycle_shown(
    alloc: Global,
    request: OrderRequest,
    steps: &[NumberedStep],
) -> Result<Vec<u8>, AllocError>
    ensures { IfOk result (λ text. text.items ≡ cycle_shown_of request steps.now) }
{
    if request.json {
        cycle_json(alloc, request.keeps, steps)
    } else {
        cycle_text(alloc, request.keeps, steps)
    }
}

/// The text of what a search for an order of logs found, and how the command ends.
fn told(
    alloc: Global,
    search: Search,
    logs: &Logs,
    verdict: &OrderVerdict,
) -> Result<Answer, AllocError>
    requires few { (n : ℕ) → length (log_of logs.now n) ≤ MAX_OPERATIONS }
    requires before { search.before ≤ MAX_LINES + 1 }
    ensures text { IfOk result (λ x.
        IsOrderText search.request search.before logs.now verdict.now x.text.items) }
    ensures judged { IfOk result (λ x. x.outcome ≡ Outcome.Refused → ⊥) }
    ensures ends { IfOk result (λ x. (x.outcome ≡ Outcome.Done) ↔ IsOrdered verdict.now) }
{
    match verdict {
        OrderVerdict::Fault { line, kind, at } => {
            let fault = LineFault {
                kind: *kind,
                at: *at,
            };
            Ok(Answer {
                text: fault_shown(alloc, search.request, fault, *line)?,
                outcome: Outcome::Unlawful,
            })
        }
        OrderVerdict::Order(order) => {
            Ok(Answer {
                text: found_shown(alloc, search.request, order)?,
                outcome: Outcome::Done,
            })
        }
        OrderVerdict::Cycle(steps) => {
            let steps = numbered(alloc, search.before, logs, steps)?;
            Ok(Answer {
                text: cycle_shown(alloc, search.request, &steps)?,
                outcome: Outcome::Unlawful,
            })
        }
    }
}

/// The text of what a search finds in lawful logs for an order in which each node's entries stand by serial, and how the
/// command ends.
fn found_by_serial(
    alloc: Global,
    search: Search,
    logs: &Logs,
    last: &Last,
) -> Result<Answer, AllocError>
    requires keeps { search.request.keeps ≡ NodeOrder.BySerial }
    requires few { (n : ℕ) → length (log_of logs.now n) ≤ MAX_OPERATIONS }
    requires before { search.before ≤ MAX_LINES + 1 }
    requires within { AreWithin (length last.now) logs.now }
    requires lawful { Lawful logs.now last.now }
    ensures { IfOk result (λ x.
        IsFound search.request search.before logs.now last.now x.text.items x.outcome) }
{
    serial_order_is_lawful();
    // Read, so that the prover knows that there are sixteen logs, and that each has its own node's entries.
    let _nodes = logs.nodes();
    let sorted = logs.by_serial(alloc)?;
    let _nodes = sorted.nodes();
    let verdict = sequential_order(alloc, &sorted, last)?;
    told(alloc, search, logs, &verdict)
}

/// The same of logs that may not be lawful.
fn found_if_lawful(
    alloc: Global,
    search: Search,
    logs: &Logs,
    last: &Last,
) -> Result<Answer, AllocError>
    requires keeps { search.request.keeps ≡ NodeOrder.BySerial }
    requires few { (n : ℕ) → length (log_of logs.now n) ≤ MAX_OPERATIONS }
    requires before { search.before ≤ MAX_LINES + 1 }
    requires within { AreWithin (length last.now) logs.now }
    ensures { IfOk result (λ x.
        IsFound search.request search.before logs.now last.now x.text.items x.outcome) }
{
    let verdict = audit(alloc, logs, last)?;
    match verdict {
        Verdict::Lawful => found_by_serial(alloc, search, logs, last),
        Verdict::Fault { line, kind, at } => Ok(Answer {
            text: fault_shown(alloc, search.request, LineFault { kind, at }, line)?,
            outcome: Outcome::Unlawful,
        }),
    }
}

/// The text of what a search for an order found in logs, and how the command ends.
fn found(alloc: Global, search: Search, logs: &Logs, last: &Last) -> Result<Answer, AllocError>
    requires few { (n : ℕ) → length (log_of logs.now n) ≤ MAX_OPERATIONS }
    requires before { search.before ≤ MAX_LINES + 1 }
    requires within { AreWithin (length last.now) logs.now }
    ensures { IfOk result (λ x.
        IsFound search.request search.before logs.now last.now x.text.items x.outcome) }
{
    match search.request.keeps {
        NodeOrder::Logged => told(alloc, search, logs, &sequential_order(alloc, logs, last)?),
        NodeOrder::BySerial => found_if_lawful(alloc, search, logs, last),
    }
}

impl ReadLog {
    /// What `order` writes of the log, and how it ends. Refused if memory is.
    pub fn ordered(&self, alloc: Global, request: OrderRequest) -> Result<Answer, AllocError>
        requires { (text : List ℕ) × IsReadLog text self.now }
        ensures { (text : List ℕ) → IsReadLog text self.now
            → IfOk result (λ x. IsOrderOf request text x.text.items x.outcome) }
    {
        let search = Search {
            request,
            before: self.before,
        };
        found(alloc, search, &self.logs, &self.last)
    }
}

/// Reads a log to its end and searches for one order of all its entries that makes it sequentially consistent, and in which
/// each node's entries stand in the order that is asked for: as in its log, or by their serials. Done, with the line
/// `sequentially consistent` (and ` in program order` if it is by serials), if there is one; if asked, its entries follow,
/// a line each. Unlawful if the log isn't lawful, with the line of an audit; and if there is no order, with the line `not
/// sequentially consistent` (` in program order`) and a cycle of at most 32 entries, a line each, with the number of the
/// log's line: each comes after the one on the next line in every such order, and the last after the first, for the reason
/// beside it. With `json` the same is one JSON object. A text with a fault is refused, as are a reader that fails, too long an input and running out of memory, at
/// line 0. After a failed read nothing more is read.
pub fn order<R: Read>(alloc: Global, request: OrderRequest, reader: &mut Tap<R>) -> Answered
    requires { has_failed reader.old ≡ false }
    ensures { HasAnswered R.remaining reader.old reader.new (IsOrderAnswer request) (IsTold IsLogFault) result }
{
    let bytes = read_input(alloc, reader)?;
    let log = ReadLog::of(alloc, &bytes)?;
    Ok(log.ordered(alloc, request)?)
}
