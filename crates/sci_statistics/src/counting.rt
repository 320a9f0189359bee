//! The command `stats`: figures of a schedule.

ghost use Rattle.std.specs.{Prelude.{◌≡◌, ◌≤◌, ◌++◌, false, length, None, IfOk, IsSome, OnOk}, List.{flat_map}};
ghost use Rattle.sci_words.specs.declared.limits.TheConstants.{MAX_EVENTS};
ghost use Rattle.sci_command.specs.{Answer.{HasAnswered, answer_in}, Beginning.{AreDeadIn}, Input.{IsReadAs}};
ghost use Rattle.sci_text.specs.Tap.{has_failed, tapped};
ghost use Rattle.sci_statistics.specs.StatsAnswer.{HasNode, IsStatsAnswer, IsStatsFault, line_part, node_part, passages_text, stats_text};
ghost use Rattle.sci_statistics.specs.StatsRows.{shown as shown_of};

use crate::event_figures::EventFigures;
use crate::figures::{push_events, push_line, push_node, push_packets, push_waits};
use crate::line_figures::LineFigures;
use crate::node_figures::NodeFigures;
use crate::passage::Passage;
use crate::stats_json::stats_json;
use crate::waits::NodeWaits;
use crate::walk::passages_of;
use sci_command::{Answer, Asked, Outcome, Replayed, read_asked};
use sci_core::DeadEvents;
use sci_text::{Schedule, Tap};
use std::alloc::{AllocError, Global};
use std::io::Read;

/// What is asked of figures.
#[derive(Clone, Copy)]
pub struct StatsRequest {
    /// The line of memory whose figures are shown, or None for all lines.
    pub line: Option<u8>,
    /// The node whose figures are shown, or None for all nodes.
    pub node: Option<u8>,
    /// Whether they are shown as one JSON object.
    pub json: bool,
}

/// The one that is asked for, or all of this many. Refused if memory is.
fn shown(alloc: Global, asked: Option<u8>, count: u8) -> Result<Vec<u8>, AllocError>
    ensures { IfOk result (λ found. found.items ≡ shown_of asked count) }
{
    let mut found = Vec::new(alloc);
    if let Some(n) = asked {
        found.push(n)?;
        return Ok(found);
    }
    for n in 0..count {
        found.push(n)?;
    }
    Ok(found)
}

/// The node that is asked for, if the machine of a schedule doesn't have it.
fn node_lacking(schedule: &Schedule, asked: Option<u8>) -> Option<u8>
    ensures has { result ≡ None → HasNode asked schedule.now }
    ensures lacks { IsSome result → HasNode asked schedule.now → ⊥ }
{
    let node = asked?;
    if node < schedule.extent().nodes {
        None
    } else {
        Some(node)
    }
}

/// Appends what happened to a line. Requires that there are at most 500,000 events.
#[tactic(auto, unfolding(crate::specs::StatsAnswer::line_part))]
fn push_line_part(
    alloc: Global,
    out: &mut Vec<u8>,
    passages: &[Passage],
    line: u8,
) -> Result<(), AllocError>
    requires { length passages.now ≤ MAX_EVENTS }
    ensures { OnOk result (out.new.items ≡ out.old.items ++ line_part passages.now line) }
{
    let figures = LineFigures::of(alloc, passages, line)?;
    push_line(alloc, out, line, &figures)
}

/// Appends what a node did, and how long its operations waited. Requires that there are at most 500,000 events.
#[tactic(auto, unfolding(crate::specs::StatsAnswer::node_part))]
fn push_node_part(
    alloc: Global,
    out: &mut Vec<u8>,
    passages: &[Passage],
    node: u8,
) -> Result<(), AllocError>
    requires { length passages.now ≤ MAX_EVENTS }
    ensures { OnOk result (out.new.items ≡ out.old.items ++ node_part passages.now node) }
{
    let figures = NodeFigures::of(alloc, passages, node)?;
    push_node(alloc, out, node, &figures)?;
    let waits = NodeWaits::of(alloc, passages, node)?;
    push_waits(alloc, out, node, &waits)
}

/// Appends what happened to each of these lines. Requires that there are at most 500,000 events.
fn push_lines(
    alloc: Global,
    out: &mut Vec<u8>,
    passages: &[Passage],
    lines: &[u8],
) -> Result<(), AllocError>
    requires { length passages.now ≤ MAX_EVENTS }
    ensures { OnOk result (out.new.items ≡ out.old.items
        ++ flat_map (line_part passages.now) lines.now) }
{
    for line in lines {
        push_line_part(alloc, out, passages, *line)?;
    }
    Ok(())
}

/// Appends what each of these nodes did. Requires that there are at most 500,000 events.
fn push_nodes(
    alloc: Global,
    out: &mut Vec<u8>,
    passages: &[Passage],
    nodes: &[u8],
) -> Result<(), AllocError>
    requires { length passages.now ≤ MAX_EVENTS }
    ensures { OnOk result (out.new.items ≡ out.old.items
        ++ flat_map (node_part passages.now) nodes.now) }
{
    for node in nodes {
        push_node_part(alloc, out, passages, *node)?;
    }
    Ok(())
}

/// The figures of all passages, and of these lines and nodes, in lines. Requires that there are at most 500,000 events.
#[tactic(auto, unfolding(crate::specs::StatsAnswer::passages_text))]
fn stats_lines(
    alloc: Global,
    passages: &[Passage],
    lines: &[u8],
    nodes: &[u8],
) -> Result<Vec<u8>, AllocError>
    requires { length passages.now ≤ MAX_EVENTS }
    ensures { IfOk result (λ text. text.items ≡ passages_text lines.now nodes.now passages.now) }
{
    let mut text = Vec::new(alloc);
    push_events(&mut text, &EventFigures::of(passages))?;
    push_packets(&mut text, passages)?;
    push_lines(alloc, &mut text, passages, lines)?;
    push_nodes(alloc, &mut text, passages, nodes)?;
    Ok(text)
}

/// The figures of a schedule.
fn stats_of(
    alloc: Global,
    request: StatsRequest,
    schedule: &Schedule,
) -> Result<Vec<u8>, AllocError>
    ensures { IfOk result (λ text. text.items ≡ stats_text request schedule.now) }
{
    let extent = schedule.extent();
    let passages = passages_of(alloc, extent, schedule.events())?;
    let lines = shown(alloc, request.line, extent.lines)?;
    let nodes = shown(alloc, request.node, extent.nodes)?;
    if request.json {
        stats_json(alloc, &passages, &lines, &nodes)
    } else {
        stats_lines(alloc, &passages, &lines, &nodes)
    }
}

/// Reads a schedule to its end, applies its events in text order to a new machine whose nodes may each issue 65,536
/// operations (events that are not enabled change nothing), and gives figures, one on each line, as `NAME VALUE`, or as one
/// JSON object: of all events and packets, of each line of memory and of each node. It is Done. If a line or a node is asked for, the figures of
/// the other lines or nodes are left out. Beside them are the events that weren't enabled. A schedule with a fault is refused, as are a reader that fails, too long an input
/// and running out of memory, at line 0, and a line or a node that the machine doesn't have, as `range` at line 0. After a
/// failed read nothing more is read.
pub fn stats<R: Read>(alloc: Global, request: StatsRequest, reader: &mut Tap<R>) -> Replayed
    requires { has_failed reader.old ≡ false }
    ensures answer { HasAnswered R.remaining reader.old reader.new (IsStatsAnswer request)
        (IsStatsFault request) (answer_in result) }
    ensures dead { IfOk result (λ answered. IsReadAs (R.remaining (tapped reader.old))
        (has_failed reader.new) (λ bytes. AreDeadIn bytes answered.1)) }
{
    let schedule = read_asked(alloc, request.line, reader)?;
    if let Some(node) = node_lacking(&schedule, request.node) {
        return Err(Asked::Node.refused(alloc, node, schedule.extent().nodes));
    }
    let text = stats_of(alloc, request, &schedule)?;
    let dead = DeadEvents::of(alloc, schedule.extent(), schedule.events())?;
    let answer = Answer {
        text,
        outcome: Outcome::Done,
    };
    Ok((answer, dead))
}
