//! The command `lists`: the sharing list of a line behind each event that may have changed it.

ghost use Rattle.std.specs.Prelude.{◌≡◌, ◌≤◌, ◌+◌, ◌++◌, ◌<◌, ℕ, List, [], codes, length, false, Some, IfOk, IfSome, OnOk};
ghost use Rattle.std.specs.List.{flat_map};
ghost use Rattle.sci_words.specs.declared.limits.TheConstants.{MAX_TEXT_LINE_BYTES};
ghost use Rattle.sci_core.specs.Core.{step, stepping};
ghost use Rattle.sci_statistics.specs.About.{line_changed as line_changed_of};
ghost use Rattle.sci_command.specs.Beginning.{before};
ghost use Rattle.sci_text.specs.Tap.{has_failed};
ghost use Rattle.sci_command.specs.{Answer.{HasAnswered}, declared.outcome.Outcome.{Outcome}, AskedLine.{IsAskedFault}};
ghost use Rattle.sci_traces.specs.ListsAnswer.{AreListed, IsListLine, IsListed, IsListsAnswer, authority_text, front_text, home_name_text, last_text};
ghost use Rattle.sci_traces.specs.ListsAnswer.{line_within, listed_line as listed_line_of, member_text, name_text, place_text};

use sci_command::{Answer, Answered, Outcome, is_asked, put_contents, read_asked};
use sci_core::{ApplyFault, Machine};
use sci_statistics::{held_at, home_at, line_changed};
use sci_text::{LineEnd, Schedule, Tap, push_number, push_text};
use sci_words::{Event, MAX_OPERATIONS, Stamped};
use std::alloc::{AllocError, Global};
use std::io::Read;

/// The line in which the first event of a schedule stands.
const FIRST_EVENT_LINE: u64 = 2;

/// The line that an event may change, if the machine has it.
fn line_concerned(machine: &Machine, event: &Event) -> Option<u8>
    ensures line { result ≡ line_within machine.now (line_changed_of machine.now event.now) }
    ensures inside { IfSome result (λ line. line < machine.now.size.lines) }
{
    match line_changed(machine, event) {
        Some(line) if line < machine.extent().lines => Some(line),
        _ => None,
    }
}

/// The line of which an event's list is shown: the one that it may change, if that is asked for.
pub fn listed_line(machine: &Machine, asked: Option<u8>, event: &Event) -> Option<u8>
    ensures shown { result ≡ listed_line_of asked machine.now event.now }
    ensures inside { IfSome result (λ line. line < machine.now.size.lines) }
{
    let line = line_concerned(machine, event);
    if is_asked(asked, line) { line } else { None }
}

/// The name of a line's state in a node's cache: none if there is no such node or line.
#[tactic(auto, unfolding(crate::specs::ListsAnswer::name_text))]
fn name_at(machine: &Machine, n: u8, line: u8) -> &'static str
    ensures { result.now ≡ name_text machine.now n line }
{
    match held_at(machine, n, line) {
        None => "",
        Some(held) => held.name(),
    }
}

/// The name of the state of a line's home: none if it isn't at this node.
#[tactic(auto, unfolding(crate::specs::ListsAnswer::home_name_text))]
fn home_name_at(machine: &Machine, n: u8, line: u8) -> &'static str
    ensures { result.now ≡ home_name_text machine.now n line }
{
    match home_at(machine, n, line) {
        None => "",
        Some(home) => home.state().name(),
    }
}

/// What stands before the state of a member of a list, if its number is below sixteen.
#[tactic(auto, unfolding(crate::specs::ListsAnswer::front_text, sci_text::specs::Number::number))]
fn member_front(n: u8) -> Option<&'static str>
    ensures { IfSome result (λ front. front.now ≡ front_text n) }
{
    match n {
        0 => Some(" -> 0 "),
        1 => Some(" -> 1 "),
        2 => Some(" -> 2 "),
        3 => Some(" -> 3 "),
        4 => Some(" -> 4 "),
        5 => Some(" -> 5 "),
        6 => Some(" -> 6 "),
        7 => Some(" -> 7 "),
        8 => Some(" -> 8 "),
        9 => Some(" -> 9 "),
        10 => Some(" -> 10 "),
        11 => Some(" -> 11 "),
        12 => Some(" -> 12 "),
        13 => Some(" -> 13 "),
        14 => Some(" -> 14 "),
        15 => Some(" -> 15 "),
        _ => None,
    }
}

/// Appends what stands before the state of a member. It is one piece, since a long schedule has millions of members.
#[tactic(auto, unfolding(crate::specs::ListsAnswer::front_text))]
fn push_front(out: &mut Vec<u8>, n: u8) -> Result<(), AllocError>
    ensures { OnOk result (out.new.items ≡ out.old.items ++ front_text n) }
{
    if let Some(front) = member_front(n) {
        return push_text(out, front);
    }
    push_text(out, " -> ")?;
    push_number(out, u64::from(n))?;
    push_text(out, " ")
}

/// Appends a member of a list.
#[tactic(auto, unfolding(crate::specs::ListsAnswer::member_text))]
fn push_member(out: &mut Vec<u8>, machine: &Machine, line: u8, n: u8) -> Result<(), AllocError>
    ensures { OnOk result (out.new.items ≡ out.old.items ++ member_text machine.now line n) }
{
    push_front(out, n)?;
    push_text(out, name_at(machine, n, line))
}

/// Appends the members of a list.
fn push_members(
    out: &mut Vec<u8>,
    machine: &Machine,
    line: u8,
    nodes: &[u8],
) -> Result<(), AllocError>
    ensures { OnOk result
        (out.new.items ≡ out.old.items ++ flat_map (member_text machine.now line) nodes.now) }
{
    for n in nodes {
        push_member(out, machine, line, *n)?;
    }
    Ok(())
}

/// Puts the node that may change a line, if there is one. Requires that there is room for 32 bytes.
#[tactic(auto, unfolding(crate::specs::ListsAnswer::authority_text))]
fn put_authority(end: &mut LineEnd, authority: Option<u8>)
    requires { 32 + length end.old ≤ MAX_TEXT_LINE_BYTES }
    ensures { end.new ≡ authority_text authority ++ end.old }
{
    match authority {
        None => {}
        Some(n) => {
            end.put_field(u64::from(n));
            end.put_text("; authority");
        }
    }
}

/// Puts the last contents of a line, and the line feed. Requires that there is room for 197 bytes.
#[tactic(auto, unfolding(crate::specs::ListsAnswer::last_text))]
fn put_last(end: &mut LineEnd, contents: &Stamped)
    requires { end.old ≡ [] }
    ensures text { end.new ≡ last_text contents.now }
    ensures short { length end.new ≤ 197 }
{
    end.put_text("\n");
    put_contents(end, contents);
    end.put_text("; last");
}

/// Appends the node that may change a line, if there is one, the line's last contents, and the line feed.
fn push_last(out: &mut Vec<u8>, authority: Option<u8>, contents: &Stamped) -> Result<(), AllocError>
    ensures { OnOk result (out.new.items
        ≡ out.old.items ++ (authority_text authority ++ last_text contents.now)) }
{
    let mut end = LineEnd::new();
    put_last(&mut end, contents);
    put_authority(&mut end, authority);
    out.extend_from_slice(end.as_slice())
}

/// Appends the home of a line, its list, its authority and its last contents.
fn push_list(
    alloc: Global,
    out: &mut Vec<u8>,
    machine: &Machine,
    line: u8,
) -> Result<(), AllocError>
    requires { line < machine.now.size.lines }
    ensures { OnOk result ((text : List ℕ)
        × (out.new.items ≡ out.old.items ++ text) × IsListLine machine.now line text) }
{
    let sharing = machine.sharing(alloc, line)?;
    let home = line % machine.extent().nodes;
    push_text(out, home_name_at(machine, home, line))?;
    push_members(out, machine, line, &sharing.nodes)?;
    push_last(out, sharing.authority, &sharing.last)
}

/// Appends the number of an event's line in the schedule, and the line of memory that the event is about.
#[tactic(auto, unfolding(crate::specs::ListsAnswer::place_text))]
fn push_place(out: &mut Vec<u8>, number: u64, line: u8) -> Result<(), AllocError>
    ensures { OnOk result
        (out.new.items ≡ out.old.items ++ (place_text number line ++ codes ": ")) }
{
    let mut end = LineEnd::new();
    end.put_text(": ");
    end.put_field(u64::from(line));
    end.put_text(" line");
    end.put_number(number);
    out.extend_from_slice(end.as_slice())
}

/// Where an event stands in the schedule, and the line of memory whose list is shown behind it, if one is.
#[derive(Clone, Copy)]
pub struct ListPlace {
    /// The number of the event's line in the schedule.
    pub number: u64,
    /// The line of memory.
    pub line: Option<u8>,
}

/// Appends the line that is shown behind an event which led to this state: where it stands, and its list. Nothing if it shows no
/// list. Refused if memory is.
pub fn push_list_behind(
    alloc: Global,
    out: &mut Vec<u8>,
    machine: &Machine,
    place: ListPlace,
) -> Result<(), AllocError>
    requires { IfSome place.line (λ line. line < machine.now.size.lines) }
    ensures { OnOk result ((text : List ℕ) × (out.new.items ≡ out.old.items ++ text)
        × IsListed place.number place.line (Some machine.now) text) }
{
    let Some(line) = place.line else {
        return Ok(());
    };
    push_place(out, place.number, line)?;
    push_list(alloc, out, machine, line)
}

/// Takes a step, and appends the list that is shown behind it, if the event is enabled.
fn push_listed(
    alloc: Global,
    out: &mut Vec<u8>,
    machine: &mut Machine,
    place: ListPlace,
    event: &Event,
) -> Result<(), AllocError>
    requires { IfSome place.line (λ line. line < machine.old.size.lines) }
    ensures text { OnOk result ((text : List ℕ) × (out.new.items ≡ out.old.items ++ text)
        × IsListed place.number place.line (stepping machine.old event.now) text) }
    ensures step { OnOk result (machine.new ≡ step machine.old event.now) }
{
    match machine.apply(event) {
        Ok(()) => {}
        Err(ApplyFault::NotEnabled) => return Ok(()),
        Err(ApplyFault::Memory(refused)) => return Err(refused),
    }
    push_list_behind(alloc, out, machine, place)
}

/// The lists behind the events of a schedule: of the line that is asked for, or of all.
fn lists_of(alloc: Global, asked: Option<u8>, schedule: &Schedule) -> Result<Vec<u8>, AllocError>
    ensures { IfOk result (λ text.
        AreListed asked (before schedule.now) 2 schedule.now.events text.items) }
{
    let mut machine = Machine::new(alloc, schedule.extent(), MAX_OPERATIONS)?;
    let mut text = Vec::new(alloc);
    let mut number = FIRST_EVENT_LINE;
    for event in schedule.events() {
        let line = listed_line(&machine, asked, event);
        match push_listed(
            alloc,
            &mut text,
            &mut machine,
            ListPlace { number, line },
            event,
        ) {
            Ok(()) => {}
            Err(refused) => return Err(refused),
        }
        number += 1;
    }
    Ok(text)
}

/// Reads a schedule to its end, applies its events in text order to a new machine whose nodes may each issue 65,536
/// operations, and gives a line behind each event that is enabled and may change a line of the machine, or the line that is
/// asked for: the number of the event's line in the schedule, the line of memory, the name of the home's state, the members
/// of the line's list from the head on, the node that may change the line or is about to, and the line's last contents. It
/// is Done. A schedule with a fault is refused, as are a reader that fails, too long an input and running out of memory, at
/// line 0, and a line that the machine doesn't have, as `range` at line 0. After a failed read nothing more is read.
pub fn lists<R: Read>(alloc: Global, asked: Option<u8>, reader: &mut Tap<R>) -> Answered
    requires { has_failed reader.old ≡ false }
    ensures { HasAnswered R.remaining reader.old reader.new (IsListsAnswer asked) (IsAskedFault asked) result }
{
    let schedule = read_asked(alloc, asked, reader)?;
    let text = lists_of(alloc, asked, &schedule)?;
    Ok(Answer {
        text,
        outcome: Outcome::Done,
    })
}
