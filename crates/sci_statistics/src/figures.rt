//! Figures in text, one on each line.

ghost use Rattle.std.specs.Prelude.{◌≡◌, ◌<◌, ◌≤◌, ◌/◌, ◌++◌, IfOk, OnOk, codes, length, map};
ghost use Rattle.sci_words.specs.declared.limits.TheConstants.{MAX_EVENTS};
ghost use Rattle.sci_statistics.specs.StatsAnswer.{figure_text, figures_text, group_of as group_text, hundredths_of, line_text, mean_text, packets_text};
ghost use Rattle.sci_statistics.specs.StatsAnswer.{wait_group as wait_group_text, wait_text, waits_text};
ghost use Rattle.sci_statistics.specs.StatsRows.{command_row, event_rows, named, node_rows as node_rows_of};

use crate::event_figures::EventFigures;
use crate::line_figures::LineFigures;
use crate::node_figures::NodeFigures;
use crate::packet_figures::packets_with;
use crate::passage::Passage;
use crate::rows::{line_rows, node_rows, packet_rows};
use crate::waits::{NodeWaits, WaitFigures};
use sci_packets::Command;
use sci_text::{push_field, push_number, push_text};
use std::alloc::{AllocError, Global};

/// Appends a figure of a group: its name and its value.
#[tactic(auto, unfolding(crate::specs::StatsAnswer::figure_text))]
fn push_figure(out: &mut Vec<u8>, group: &[u8], figure: &(&str, u64)) -> Result<(), AllocError>
    ensures { OnOk result
        (out.new.items ≡ out.old.items ++ figure_text group.now (named figure.now)) }
{
    out.extend_from_slice(group)?;
    push_text(out, figure.0)?;
    push_field(out, figure.1)?;
    push_text(out, "\n")
}

/// Appends the figures of a group.
pub(crate) fn push_figures(
    out: &mut Vec<u8>,
    group: &[u8],
    figures: &[(&str, u64)],
) -> Result<(), AllocError>
    ensures { OnOk result
        (out.new.items ≡ out.old.items ++ figures_text group.now (map named figures.now)) }
{
    for figure in figures {
        push_figure(out, group, figure)?;
    }
    Ok(())
}

/// A mean: what was added up, and of how many.
#[derive(Clone, Copy)]
struct Mean {
    total: u64,
    count: u64,
}

/// The whole of a mean, and the hundredths above it: both 0 of nothing.
fn parts_of(mean: Mean) -> (u64, u8)
    ensures whole { result.0 ≡ mean.total / mean.count }
    ensures hundredths { result.1 ≡ hundredths_of mean.total mean.count }
    ensures below { result.1 < 100 }
{
    if mean.count == 0 {
        return (0, 0);
    }
    let hundredths = u128::from(mean.total) * 100 / u128::from(mean.count) % 100;
    (mean.total / mean.count, hundredths as u8)
}

/// Appends a mean of a group, to two places.
#[tactic(auto, unfolding(crate::specs::StatsAnswer::mean_text))]
fn push_mean(out: &mut Vec<u8>, group: &[u8], name: &str, mean: Mean) -> Result<(), AllocError>
    ensures { OnOk result (out.new.items
        ≡ out.old.items ++ mean_text group.now name.now mean.total mean.count) }
{
    let (whole, hundredths) = parts_of(mean);
    out.extend_from_slice(group)?;
    push_text(out, name)?;
    push_field(out, whole)?;
    out.extend_from_slice(&[b'.', b'0' + hundredths / 10, b'0' + hundredths % 10, b'\n'])
}

/// The name of the group of a line or a node, with its number.
#[tactic(auto, unfolding(crate::specs::StatsAnswer::group_of))]
fn group_of(alloc: Global, name: &str, n: u8) -> Result<Vec<u8>, AllocError>
    ensures { IfOk result (λ group. group.items ≡ group_text name.now n) }
{
    let mut group = Vec::new(alloc);
    push_text(&mut group, name)?;
    push_number(&mut group, u64::from(n))?;
    push_text(&mut group, ".")?;
    Ok(group)
}

/// Appends how many events there were.
#[tactic(auto, unfolding(crate::specs::StatsRows::event_rows))]
pub fn push_events(out: &mut Vec<u8>, figures: &EventFigures) -> Result<(), AllocError>
    ensures { OnOk result
        (out.new.items ≡ out.old.items ++ figures_text (codes "events.") (event_rows figures.now)) }
{
    let rows = [
        ("enabled", figures.all.enabled),
        ("not_enabled", figures.all.not_enabled),
        ("issue.enabled", figures.issue.enabled),
        ("issue.not_enabled", figures.issue.not_enabled),
        ("perform.enabled", figures.perform.enabled),
        ("perform.not_enabled", figures.perform.not_enabled),
        ("ask.enabled", figures.ask.enabled),
        ("ask.not_enabled", figures.ask.not_enabled),
        ("serve.enabled", figures.serve.enabled),
        ("serve.not_enabled", figures.serve.not_enabled),
        ("refuse.enabled", figures.refuse.enabled),
        ("refuse.not_enabled", figures.refuse.not_enabled),
        ("reply.enabled", figures.reply.enabled),
        ("reply.not_enabled", figures.reply.not_enabled),
        ("accept.enabled", figures.accept.enabled),
        ("accept.not_enabled", figures.accept.not_enabled),
    ];
    push_figures(out, b"events.", &rows)
}

/// Appends how many packets with each of these commands were sent.
fn push_commands(
    out: &mut Vec<u8>,
    passages: &[Passage],
    commands: &[Command],
) -> Result<(), AllocError>
    ensures { OnOk result (out.new.items ≡ out.old.items
        ++ figures_text (codes "packets.") (map (command_row passages.now) commands.now)) }
{
    for command in commands {
        let count = packets_with(passages, *command);
        push_figure(out, b"packets.", &(command.name(), count))?;
    }
    Ok(())
}

/// Appends how many packets were sent, their bytes as they are spelled, the most that were under way at once (sent, and not
/// yet taken), and how many with each command. Requires that there are at most 500,000 events.
#[tactic(auto, unfolding(crate::specs::StatsAnswer::packets_text))]
pub fn push_packets(out: &mut Vec<u8>, passages: &[Passage]) -> Result<(), AllocError>
    requires { length passages.now ≤ MAX_EVENTS }
    ensures { OnOk result (out.new.items ≡ out.old.items ++ packets_text passages.now) }
{
    push_figures(out, b"packets.", &packet_rows(passages))?;
    push_commands(out, passages, &Command::ALL)
}

/// Appends what happened to a line.
#[tactic(auto, unfolding(crate::specs::StatsAnswer::line_text))]
pub fn push_line(
    alloc: Global,
    out: &mut Vec<u8>,
    line: u8,
    figures: &LineFigures,
) -> Result<(), AllocError>
    ensures { OnOk result (out.new.items ≡ out.old.items ++ line_text line figures.now) }
{
    let group = group_of(alloc, "line.", line)?;
    push_figures(out, &group, &line_rows(figures))?;
    let members = Mean {
        total: figures.members.total,
        count: figures.events,
    };
    push_mean(out, &group, "mean_list", members)
}

/// Appends what a node did.
pub fn push_node(
    alloc: Global,
    out: &mut Vec<u8>,
    node: u8,
    figures: &NodeFigures,
) -> Result<(), AllocError>
    ensures { OnOk result (out.new.items
        ≡ out.old.items ++ figures_text (group_text (codes "node.") node) (node_rows_of figures.now)) }
{
    let group = group_of(alloc, "node.", node)?;
    push_figures(out, &group, &node_rows(figures))
}

/// Appends the least, the mean and the greatest of some waits.
#[tactic(auto, unfolding(crate::specs::StatsAnswer::wait_text))]
fn push_wait(out: &mut Vec<u8>, group: &[u8], waits: &WaitFigures) -> Result<(), AllocError>
    ensures { OnOk result (out.new.items ≡ out.old.items ++ wait_text group.now waits.now) }
{
    push_figure(out, group, &("least", waits.least))?;
    let mean = Mean {
        total: waits.total,
        count: waits.count,
    };
    push_mean(out, group, "mean", mean)?;
    push_figure(out, group, &("greatest", waits.greatest))
}

/// The name of the group of some waits of a node.
fn wait_group(alloc: Global, node: u8, name: &str) -> Result<Vec<u8>, AllocError>
    ensures { IfOk result (λ group. group.items ≡ wait_group_text node name.now) }
{
    let mut group = group_of(alloc, "node.", node)?;
    push_text(&mut group, name)?;
    Ok(group)
}

/// Appends how long the operations of a node waited.
#[tactic(auto, unfolding(crate::specs::StatsAnswer::waits_text))]
pub fn push_waits(
    alloc: Global,
    out: &mut Vec<u8>,
    node: u8,
    waits: &NodeWaits,
) -> Result<(), AllocError>
    ensures { OnOk result (out.new.items ≡ out.old.items ++ waits_text node waits.now) }
{
    let all = wait_group(alloc, node, "wait.")?;
    push_wait(out, &all, &waits.all)?;
    let loads = wait_group(alloc, node, "wait.loads.")?;
    push_wait(out, &loads, &waits.loads)?;
    let makers = wait_group(alloc, node, "wait.makers.")?;
    push_wait(out, &makers, &waits.makers)
}
