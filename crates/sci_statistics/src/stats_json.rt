//! Figures as JSON objects.

ghost use Rattle.std.specs.{Prelude.{◌≡◌, ◌≤◌, ◌++◌, IfOk, OnOk, codes, length, map}, List.{flat_map}};
ghost use Rattle.sci_json.specs.Members.{Adds, array_member, object_line, object_member};
ghost use Rattle.sci_words.specs.declared.limits.TheConstants.{MAX_EVENTS};
ghost use Rattle.sci_statistics.specs.StatsJson.{coverage_json as coverage_json_of, coverage_members, event_members, line_members, line_object, node_members};
ghost use Rattle.sci_statistics.specs.StatsJson.{node_object, packet_members, pair_members, pair_object, row_member, row_members, stats_members, tally_member};
ghost use Rattle.sci_statistics.specs.StatsJson.{tally_members, wait_member, wait_members};
ghost use Rattle.sci_statistics.specs.StatsRows.{command_row, named};
ghost use Rattle.sci_statistics.specs.Figures.{event_figures};

use crate::coverage::Coverage;
use crate::coverage_lines::{met_count, never_count};
use crate::event_figures::{EventFigures, Tally};
use crate::line_figures::LineFigures;
use crate::node_figures::NodeFigures;
use crate::packet_figures::packets_with;
use crate::passage::Passage;
use crate::rows::{line_rows, node_rows, packet_rows};
use crate::tables::pairs;
use crate::transition::Transition;
use crate::waits::{NodeWaits, WaitFigures};
use json::Writer;
use sci_json::{into_line, write_number, write_text};
use sci_packets::Command;
use std::alloc::{AllocError, Global};

/// Writes a figure by its name.
#[tactic(auto, unfolding(crate::specs::StatsJson::row_member))]
fn write_row(out: &mut Writer, row: &(&str, u64)) -> Result<(), AllocError>
    ensures { OnOk result (Adds out.old out.new (row_member (named row.now))) }
{
    write_number(out, row.0, row.1)
}

/// Writes figures, each by its name.
fn write_rows(out: &mut Writer, rows: &[(&str, u64)]) -> Result<(), AllocError>
    ensures { OnOk result (Adds out.old out.new (row_members (map named rows.now))) }
{
    for row in rows {
        write_row(out, row)?;
    }
    Ok(())
}

/// Writes how many events were enabled, and how many weren't.
#[tactic(auto, unfolding(crate::specs::StatsJson::tally_members))]
fn write_counts(out: &mut Writer, tally: Tally) -> Result<(), AllocError>
    ensures { OnOk result (Adds out.old out.new (tally_members tally)) }
{
    write_number(out, "enabled", tally.enabled)?;
    write_number(out, "not_enabled", tally.not_enabled)
}

/// Writes the same of a kind.
#[tactic(auto, unfolding(crate::specs::StatsJson::tally_member, sci_json::specs::Members::object_member))]
fn write_tally(out: &mut Writer, name: &str, tally: Tally) -> Result<(), AllocError>
    ensures { OnOk result (Adds out.old out.new (tally_member name.now tally)) }
{
    out.key(name)?;
    out.begin_object()?;
    write_counts(out, tally)?;
    out.end_object()
}

/// Writes how many events there were.
#[tactic(auto, unfolding(crate::specs::StatsJson::event_members))]
fn write_events(out: &mut Writer, figures: &EventFigures) -> Result<(), AllocError>
    ensures { OnOk result (Adds out.old out.new (event_members figures.now)) }
{
    write_counts(out, figures.all)?;
    write_tally(out, "issue", figures.issue)?;
    write_tally(out, "perform", figures.perform)?;
    write_tally(out, "ask", figures.ask)?;
    write_tally(out, "serve", figures.serve)?;
    write_tally(out, "refuse", figures.refuse)?;
    write_tally(out, "reply", figures.reply)?;
    write_tally(out, "accept", figures.accept)
}

/// Writes how many packets with a command were sent.
#[tactic(auto, unfolding(crate::specs::StatsJson::row_member))]
fn write_command(out: &mut Writer, passages: &[Passage], command: Command) -> Result<(), AllocError>
    ensures { OnOk result (Adds out.old out.new (row_member (command_row passages.now command))) }
{
    write_number(out, command.name(), packets_with(passages, command))
}

/// Writes how many packets with each of these commands were sent.
fn write_commands(
    out: &mut Writer,
    passages: &[Passage],
    commands: &[Command],
) -> Result<(), AllocError>
    ensures { OnOk result (Adds out.old out.new
        (row_members (map (command_row passages.now) commands.now))) }
{
    for command in commands {
        write_command(out, passages, *command)?;
    }
    Ok(())
}

/// Writes how many packets there were. Requires that there are at most 500,000 events.
#[tactic(auto, unfolding(crate::specs::StatsJson::packet_members))]
fn write_packets(out: &mut Writer, passages: &[Passage]) -> Result<(), AllocError>
    requires { length passages.now ≤ MAX_EVENTS }
    ensures { OnOk result (Adds out.old out.new (packet_members passages.now)) }
{
    write_rows(out, &packet_rows(passages))?;
    write_commands(out, passages, &Command::ALL)
}

/// Writes what happened to a line.
#[tactic(auto, unfolding(crate::specs::StatsJson::line_members))]
fn write_line_members(out: &mut Writer, line: u8, figures: &LineFigures) -> Result<(), AllocError>
    ensures { OnOk result (Adds out.old out.new (line_members line figures.now)) }
{
    write_number(out, "line", u64::from(line))?;
    write_rows(out, &line_rows(figures))?;
    write_number(out, "list_total", figures.members.total)?;
    write_number(out, "events", figures.events)
}

/// Writes how long operations waited.
#[tactic(auto, unfolding(crate::specs::StatsJson::wait_members))]
fn write_wait_members(out: &mut Writer, waits: &WaitFigures) -> Result<(), AllocError>
    ensures { OnOk result (Adds out.old out.new (wait_members waits.now)) }
{
    write_number(out, "count", waits.count)?;
    write_number(out, "least", waits.least)?;
    write_number(out, "total", waits.total)?;
    write_number(out, "greatest", waits.greatest)
}

/// Writes the same as an object.
#[tactic(auto, unfolding(crate::specs::StatsJson::wait_member, sci_json::specs::Members::object_member))]
fn write_wait(out: &mut Writer, name: &str, waits: &WaitFigures) -> Result<(), AllocError>
    ensures { OnOk result (Adds out.old out.new (wait_member name.now waits.now)) }
{
    out.key(name)?;
    out.begin_object()?;
    write_wait_members(out, waits)?;
    out.end_object()
}

/// Writes what a node did, and how long its operations waited.
#[tactic(auto, unfolding(crate::specs::StatsJson::node_members))]
fn write_node_members(
    out: &mut Writer,
    node: u8,
    figures: &NodeFigures,
    waits: &NodeWaits,
) -> Result<(), AllocError>
    ensures { OnOk result (Adds out.old out.new (node_members node figures.now waits.now)) }
{
    write_number(out, "node", u64::from(node))?;
    write_rows(out, &node_rows(figures))?;
    write_wait(out, "wait", &waits.all)?;
    write_wait(out, "wait_loads", &waits.loads)?;
    write_wait(out, "wait_makers", &waits.makers)
}

/// Writes the object of a line. Requires that there are at most 500,000 events.
#[tactic(auto, unfolding(crate::specs::StatsJson::line_object, sci_json::specs::Members::object_of))]
fn write_line(
    alloc: Global,
    out: &mut Writer,
    passages: &[Passage],
    line: u8,
) -> Result<(), AllocError>
    requires { length passages.now ≤ MAX_EVENTS }
    ensures { OnOk result (Adds out.old out.new (line_object passages.now line)) }
{
    let figures = LineFigures::of(alloc, passages, line)?;
    out.begin_object()?;
    write_line_members(out, line, &figures)?;
    out.end_object()
}

/// Writes the object of a node. Requires that there are at most 500,000 events.
#[tactic(auto, unfolding(crate::specs::StatsJson::node_object, sci_json::specs::Members::object_of))]
fn write_node(
    alloc: Global,
    out: &mut Writer,
    passages: &[Passage],
    node: u8,
) -> Result<(), AllocError>
    requires { length passages.now ≤ MAX_EVENTS }
    ensures { OnOk result (Adds out.old out.new (node_object passages.now node)) }
{
    let figures = NodeFigures::of(alloc, passages, node)?;
    let waits = NodeWaits::of(alloc, passages, node)?;
    out.begin_object()?;
    write_node_members(out, node, &figures, &waits)?;
    out.end_object()
}

/// Writes the objects of lines. Requires that there are at most 500,000 events.
fn write_lines(
    alloc: Global,
    out: &mut Writer,
    passages: &[Passage],
    lines: &[u8],
) -> Result<(), AllocError>
    requires { length passages.now ≤ MAX_EVENTS }
    ensures { OnOk result (Adds out.old out.new (flat_map (line_object passages.now) lines.now)) }
{
    for line in lines {
        write_line(alloc, out, passages, *line)?;
    }
    Ok(())
}

/// Writes the objects of nodes. Requires that there are at most 500,000 events.
fn write_nodes(
    alloc: Global,
    out: &mut Writer,
    passages: &[Passage],
    nodes: &[u8],
) -> Result<(), AllocError>
    requires { length passages.now ≤ MAX_EVENTS }
    ensures { OnOk result (Adds out.old out.new (flat_map (node_object passages.now) nodes.now)) }
{
    for node in nodes {
        write_node(alloc, out, passages, *node)?;
    }
    Ok(())
}

/// Writes the array of lines.
#[tactic(auto, unfolding(sci_json::specs::Members::array_member))]
fn write_line_array(
    alloc: Global,
    out: &mut Writer,
    passages: &[Passage],
    lines: &[u8],
) -> Result<(), AllocError>
    requires { length passages.now ≤ MAX_EVENTS }
    ensures { OnOk result (Adds out.old out.new
        (array_member (codes "lines") (flat_map (line_object passages.now) lines.now))) }
{
    out.key("lines")?;
    out.begin_array()?;
    write_lines(alloc, out, passages, lines)?;
    out.end_array()
}

/// Writes the array of nodes.
#[tactic(auto, unfolding(sci_json::specs::Members::array_member))]
fn write_node_array(
    alloc: Global,
    out: &mut Writer,
    passages: &[Passage],
    nodes: &[u8],
) -> Result<(), AllocError>
    requires { length passages.now ≤ MAX_EVENTS }
    ensures { OnOk result (Adds out.old out.new
        (array_member (codes "nodes") (flat_map (node_object passages.now) nodes.now))) }
{
    out.key("nodes")?;
    out.begin_array()?;
    write_nodes(alloc, out, passages, nodes)?;
    out.end_array()
}

/// Writes the object of all events.
#[tactic(auto, unfolding(sci_json::specs::Members::object_member))]
fn write_event_object(out: &mut Writer, passages: &[Passage]) -> Result<(), AllocError>
    ensures { OnOk result (Adds out.old out.new
        (object_member (codes "events") (event_members (event_figures passages.now)))) }
{
    out.key("events")?;
    out.begin_object()?;
    write_events(out, &EventFigures::of(passages))?;
    out.end_object()
}

/// Writes the object of all packets. Requires that there are at most 500,000 events.
#[tactic(auto, unfolding(sci_json::specs::Members::object_member))]
fn write_packet_object(out: &mut Writer, passages: &[Passage]) -> Result<(), AllocError>
    requires { length passages.now ≤ MAX_EVENTS }
    ensures { OnOk result (Adds out.old out.new
        (object_member (codes "packets") (packet_members passages.now))) }
{
    out.key("packets")?;
    out.begin_object()?;
    write_packets(out, passages)?;
    out.end_object()
}

/// The figures of all passages, and of these lines and nodes, as one JSON object and a line feed. Requires that there are at
/// most 500,000 events. Refused if memory is.
#[tactic(auto, unfolding(sci_json::specs::Members::object_line, sci_json::specs::Members::object_of, crate::specs::StatsJson::stats_members))]
pub fn stats_json(
    alloc: Global,
    passages: &[Passage],
    lines: &[u8],
    nodes: &[u8],
) -> Result<Vec<u8>, AllocError>
    requires { length passages.now ≤ MAX_EVENTS }
    ensures { IfOk result (λ text. text.items
        ≡ object_line (stats_members lines.now nodes.now passages.now)) }
{
    let mut writer = Writer::new(Vec::new(alloc));
    writer.begin_object()?;
    write_event_object(&mut writer, passages)?;
    write_packet_object(&mut writer, passages)?;
    write_line_array(alloc, &mut writer, passages, lines)?;
    write_node_array(alloc, &mut writer, passages, nodes)?;
    writer.end_object()?;
    into_line(writer)
}

/// Writes what is known of a pair.
#[tactic(auto, unfolding(crate::specs::StatsJson::pair_members))]
fn write_pair_members(
    out: &mut Writer,
    coverage: &Coverage,
    pair: Transition,
) -> Result<(), AllocError>
    ensures { OnOk result (Adds out.old out.new (pair_members coverage.now pair)) }
{
    write_text(out, "place", pair.state.place_word())?;
    write_text(out, "state", pair.state.name())?;
    write_text(out, "met", pair.met.word())?;
    write_text(out, "what", pair.met.what_word())?;
    write_number(out, "count", coverage.times(pair))
}

/// Writes the object of a pair.
#[tactic(auto, unfolding(crate::specs::StatsJson::pair_object, sci_json::specs::Members::object_of))]
fn write_pair(out: &mut Writer, coverage: &Coverage, pair: Transition) -> Result<(), AllocError>
    ensures { OnOk result (Adds out.old out.new (pair_object coverage.now pair)) }
{
    out.begin_object()?;
    write_pair_members(out, coverage, pair)?;
    out.end_object()
}

/// Writes the objects of pairs.
fn write_pairs(
    out: &mut Writer,
    coverage: &Coverage,
    pairs: &[Transition],
) -> Result<(), AllocError>
    ensures { OnOk result (Adds out.old out.new (flat_map (pair_object coverage.now) pairs.now)) }
{
    for pair in pairs {
        write_pair(out, coverage, *pair)?;
    }
    Ok(())
}

/// Writes the array of pairs.
#[tactic(auto, unfolding(sci_json::specs::Members::array_member))]
fn write_pair_array(
    out: &mut Writer,
    coverage: &Coverage,
    pairs: &[Transition],
) -> Result<(), AllocError>
    ensures { OnOk result (Adds out.old out.new
        (array_member (codes "pairs") (flat_map (pair_object coverage.now) pairs.now))) }
{
    out.key("pairs")?;
    out.begin_array()?;
    write_pairs(out, coverage, pairs)?;
    out.end_array()
}

/// What a coverage says of these pairs, as one JSON object and a line feed.
#[tactic(auto, unfolding(sci_json::specs::Members::object_line, sci_json::specs::Members::object_of, crate::specs::StatsJson::coverage_members))]
fn pairs_json(
    alloc: Global,
    coverage: &Coverage,
    pairs: &[Transition],
) -> Result<Vec<u8>, AllocError>
    ensures { IfOk result (λ text. text.items
        ≡ object_line (coverage_members coverage.now pairs.now)) }
{
    let mut writer = Writer::new(Vec::new(alloc));
    writer.begin_object()?;
    write_number(&mut writer, "met", met_count(coverage, pairs))?;
    write_number(&mut writer, "never", never_count(coverage, pairs))?;
    write_pair_array(&mut writer, coverage, pairs)?;
    writer.end_object()?;
    into_line(writer)
}

/// What a coverage says of the pairs of the tables, as one JSON object and a line feed: how many came, how many never did,
/// and each with its count. Refused if memory is.
pub fn coverage_json(alloc: Global, coverage: &Coverage) -> Result<Vec<u8>, AllocError>
    ensures { IfOk result (λ text. text.items ≡ coverage_json_of coverage.now) }
{
    let pairs = pairs(alloc)?;
    pairs_json(alloc, coverage, &pairs)
}
