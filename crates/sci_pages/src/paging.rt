//! The command `page`: a page of HTML that steps through a schedule, or shows a log.

ghost use Rattle.std.specs.Prelude.{◌≡◌, false, IfErr, IfOk, option_map};
ghost use Rattle.sci_text.specs.Tap.{has_failed};
ghost use Rattle.sci_command.specs.{Answer.{HasAnswered}, declared.outcome.Outcome.{Outcome}};
ghost use Rattle.sci_pages.specs.PageAnswer.{AreDataFor, IsPageAnswer, IsPageOf, IsPageRefusal};
ghost use Rattle.sci_pages.specs.WithoutData.{IsWithoutData, IsWithoutPage};

use crate::kind::PageKind;
use crate::limits::MAX_PAGE_BYTES;
use crate::log_data::log_data;
use crate::page_text::framed;
use crate::refusals::too_many_bytes;
use crate::schedule_data::schedule_data;
use sci_charts::ChartRequest;
use sci_command::{Answer, Answered, Outcome, Refusal};
use sci_text::{Tap, read_input};
use std::alloc::Global;
use std::io::Read;

/// The data of the page of a text, as what it begins as.
fn data_for(
    alloc: Global,
    kind: PageKind,
    request: ChartRequest,
    text: &[u8],
) -> Result<Vec<u8>, Refusal>
    ensures data { IfOk result (λ body. AreDataFor kind request text.now body.items) }
    ensures fault { IfErr result (λ refusal. IsWithoutData kind request text.now refusal.fault) }
{
    match kind {
        PageKind::Schedule => schedule_data(alloc, request, text),
        PageKind::Log => log_data(alloc, request, text),
    }
}

/// The page of a text, as what it begins as.
fn page_of(alloc: Global, request: ChartRequest, title: Option<&str>, text: &[u8]) -> Answered
    ensures page { IfOk result (λ x. (x.outcome ≡ Outcome.Done)
        × IsPageOf request (option_map (λ it. it.now) title.entry) text.now x.text.items) }
    ensures fault { IfErr result (λ refusal.
        IsWithoutPage request (option_map (λ it. it.now) title.entry) text.now refusal.fault) }
{
    let kind = PageKind::of(text);
    let data = data_for(alloc, kind, request, text)?;
    let page = framed(alloc, kind, title, &data)?;
    if page.len() > MAX_PAGE_BYTES as usize {
        return Err(too_many_bytes());
    }
    Ok(Answer {
        text: page,
        outcome: Outcome::Done,
    })
}

/// Reads a schedule or a log to its end, and gives a page of HTML with this title, or with one for all of its kind: Done. An input
/// that begins with `l` is a log, and each other one a schedule.
///
/// The page of a schedule steps through its events, which are applied in text order to a new machine whose nodes may each issue
/// 65,536 operations (events that are not enabled change nothing). Its data are the size of the machine, and of each event the
/// JSON object that `trace` writes and, behind it, the line of `lists`, if the event may have changed a list. With a line it has
/// the events about that line alone, and with lines of the schedule those on these lines alone.
///
/// The data of the page of a log are the log itself, and what `explain`, `order` and `order --by-serial` write of it.
///
/// An input with a fault is refused, as are a reader that fails, too long an input and running out of memory, at line 0. So are a
/// line that the machine doesn't have, and a line or events that are asked for of a log, as `range` at line 0; and more than
/// 10,000 events or entries, and a page above 5,000,000 bytes, as `too-many` at line 0. After a failed read nothing more is read.
pub fn page<R: Read>(
    alloc: Global,
    request: ChartRequest,
    title: Option<&str>,
    reader: &mut Tap<R>,
) -> Answered
    requires { has_failed reader.old ≡ false }
    ensures { HasAnswered R.remaining reader.old reader.new
        (IsPageAnswer request (option_map (λ it. it.now) title.entry))
        (IsPageRefusal request (option_map (λ it. it.now) title.entry)) result }
{
    let bytes = read_input(alloc, reader)?;
    page_of(alloc, request, title, &bytes)
}
