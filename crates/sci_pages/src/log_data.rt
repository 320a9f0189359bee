//! The data of a page of a log.

ghost use Rattle.std.specs.Prelude.{◌≡◌, ◌≤◌, ◌++◌, true, false, IfErr, IfOk, OnOk};
ghost use Rattle.sci_text.specs.LogValue.{entry_count};
ghost use Rattle.sci_reports.specs.ReadLog.{IsReadLog};
ghost use Rattle.sci_pages.specs.declared.kind.PageKind.{PageKind};
ghost use Rattle.sci_pages.specs.{PageAnswer.{AreLogData, AsksForAll}, WithoutData.{IsWithoutData}};

use crate::limits::MAX_PAGE_ENTRIES;
use crate::refusals::{no_part_of_a_log, too_many_entries};
use sci_charts::ChartRequest;
use sci_command::Refusal;
use sci_reports::{NodeOrder, OrderRequest, ReadLog};
use sci_text::push_text;
use std::alloc::{AllocError, Global};

/// What is asked of an order: all its entries, if there is one.
const SHOWN: OrderRequest = OrderRequest {
    keeps: NodeOrder::Logged,
    shows: true,
    json: false,
};

/// The same of the order of the program.
const SHOWN_BY_SERIAL: OrderRequest = OrderRequest {
    keeps: NodeOrder::BySerial,
    shows: true,
    json: false,
};

/// The line before what `explain` writes.
pub const EXPLAINED: &str = "sciview explain\n";

/// The line before what `order` writes.
pub const ORDERED: &str = "sciview order --show\n";

/// The line before what `order` writes of the order of the program.
pub const ORDERED_BY_SERIAL: &str = "sciview order --by-serial --show\n";

/// Whether neither a line nor some events are asked for.
fn asks_for_all(request: ChartRequest) -> bool
    ensures yes { result ≡ true → AsksForAll request }
    ensures no { result ≡ false → AsksForAll request → ⊥ }
{
    match (request.line, request.events) {
        (None, None) => true,
        _ => false,
    }
}

/// Appends what a command writes, behind the line that says the command.
fn push_said(out: &mut Vec<u8>, command: &str, said: &[u8]) -> Result<(), AllocError>
    ensures { OnOk result (out.new.items ≡ out.old.items ++ (command.now ++ said.now)) }
{
    push_text(out, command)?;
    out.extend_from_slice(said)
}

/// The log, and what the commands write of it.
fn data_of(alloc: Global, text: &[u8], log: &ReadLog) -> Result<Vec<u8>, AllocError>
    requires { IsReadLog text.now log.now }
    ensures { entry_count log.now.logs ≤ MAX_PAGE_ENTRIES
        → IfOk result (λ body. AreLogData text.now body.items) }
{
    let explained = log.explained(alloc, false)?;
    let ordered = log.ordered(alloc, SHOWN)?;
    let by_serial = log.ordered(alloc, SHOWN_BY_SERIAL)?;
    let mut data = Vec::from_slice(alloc, text)?;
    push_said(&mut data, EXPLAINED, &explained.text)?;
    push_said(&mut data, ORDERED, &ordered.text)?;
    push_said(&mut data, ORDERED_BY_SERIAL, &by_serial.text)?;
    Ok(data)
}

/// The data of the page of a log, from its text. Refused for the first fault of the text; or as `range` at line 0, if a line or
/// some events are asked for; or as `too-many` at line 0, if the log has more entries than a page has.
pub fn log_data(alloc: Global, request: ChartRequest, text: &[u8]) -> Result<Vec<u8>, Refusal>
    ensures data { IfOk result (λ body. AsksForAll request × AreLogData text.now body.items) }
    ensures fault { IfErr result (λ refusal. IsWithoutData PageKind.Log request text.now refusal.fault) }
{
    if !asks_for_all(request) {
        return Err(no_part_of_a_log());
    }
    let log = ReadLog::of(alloc, text)?;
    if log.entries() > MAX_PAGE_ENTRIES as usize {
        return Err(too_many_entries());
    }
    Ok(data_of(alloc, text, &log)?)
}
