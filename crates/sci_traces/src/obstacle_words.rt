//! Why an event isn't enabled, in words.

ghost use Rattle.std.specs.Prelude.{◌≡◌, ◌++◌, OnOk};
ghost use Rattle.sci_text.specs.Schedule.{first_node};
ghost use Rattle.sci_traces.specs.ObstacleWords.{lacking_words, line_named as line_named_of, node_line_words, node_words, obstacle_words};
ghost use Rattle.sci_traces.specs.ObstacleWords.{packet_wanted as packet_wanted_of, state_words, unasked_words, waiting_words};
ghost use Rattle.sci_traces.specs.ObstacleWords.{word_asked as word_asked_of};

use sci_command::push_labelled;
use sci_core::{Obstacle, node_of};
use sci_text::{push_field, push_text};
use sci_words::Event;
use std::alloc::AllocError;

/// The line that an Issue, a Perform or an Ask names, and 0 for another event.
#[tactic(auto, unfolding(crate::specs::ObstacleWords::line_named))]
pub fn line_named(event: &Event) -> u8
    ensures { result ≡ line_named_of event.now }
{
    match *event {
        Event::Issue { op, .. } => op.line,
        Event::Perform { line, .. } | Event::Ask { line, .. } => line,
        _ => 0,
    }
}

/// The word for what an Ask asks.
#[tactic(auto, unfolding(crate::specs::ObstacleWords::word_asked))]
fn word_asked(event: &Event) -> &'static str
    ensures { result.now ≡ word_asked_of event.now }
{
    match *event {
        Event::Ask { kind, .. } => kind.word(),
        _ => "",
    }
}

/// The kind of packet that an event takes.
#[tactic(auto, unfolding(crate::specs::ObstacleWords::packet_wanted))]
fn packet_wanted(event: &Event) -> &'static str
    ensures { result.now ≡ packet_wanted_of event.now }
{
    match *event {
        Event::Accept { .. } => "no answer from",
        _ => "no request from",
    }
}

/// The sender of a packet that is taken, and else the node whose event it is.
fn sender_named(event: &Event) -> u8
    ensures { result ≡ first_node event.now }
{
    match *event {
        Event::Serve { from, .. } | Event::Refuse { from, .. } | Event::Accept { from, .. } => from,
        _ => node_of(event),
    }
}

/// Appends `node N` and what is said of it.
#[tactic(auto, unfolding(crate::specs::ObstacleWords::node_words))]
fn push_node_words(out: &mut Vec<u8>, n: u8, said: &str) -> Result<(), AllocError>
    ensures { OnOk result (out.new.items ≡ out.old.items ++ node_words n said.now) }
{
    push_labelled(out, b"node", u64::from(n))?;
    push_text(out, said)
}

/// Appends `node N`, what is said of it, and a line.
#[tactic(auto, unfolding(crate::specs::ObstacleWords::node_line_words))]
fn push_node_line_words(out: &mut Vec<u8>, n: u8, said: &str, line: u8) -> Result<(), AllocError>
    ensures { OnOk result (out.new.items ≡ out.old.items ++ node_line_words n said.now line) }
{
    push_labelled(out, b"node", u64::from(n))?;
    push_text(out, said)?;
    push_field(out, u64::from(line))
}

/// Appends `line L of node N is STATE` and what is said of it.
#[tactic(auto, unfolding(crate::specs::ObstacleWords::state_words))]
fn push_state_words(
    out: &mut Vec<u8>,
    n: u8,
    line: u8,
    state: &[u8],
    said: &str,
) -> Result<(), AllocError>
    ensures { OnOk result
        (out.new.items ≡ out.old.items ++ state_words n line state.now said.now) }
{
    push_labelled(out, b"line", u64::from(line))?;
    push_labelled(out, b" of node", u64::from(n))?;
    push_text(out, " is ")?;
    out.extend_from_slice(state)?;
    push_text(out, said)
}

/// Appends `line L of node N is STATE, which doesn't ask KIND`.
#[tactic(auto, unfolding(crate::specs::ObstacleWords::unasked_words))]
fn push_unasked_words(
    out: &mut Vec<u8>,
    n: u8,
    line: u8,
    state: &[u8],
    kind: &str,
) -> Result<(), AllocError>
    ensures { OnOk result
        (out.new.items ≡ out.old.items ++ unasked_words n line state.now kind.now) }
{
    push_state_words(out, n, line, state, ", which doesn't ask ")?;
    push_text(out, kind)?;
    Ok(())
}

/// Appends `no answer from J to N is under way`.
#[tactic(auto, unfolding(crate::specs::ObstacleWords::lacking_words))]
fn push_lacking_words(out: &mut Vec<u8>, wanted: &str, from: u64, n: u64) -> Result<(), AllocError>
    ensures { OnOk result
        (out.new.items ≡ out.old.items ++ lacking_words wanted.now from n) }
{
    push_text(out, wanted)?;
    push_field(out, from)?;
    push_text(out, " to")?;
    push_field(out, n)?;
    push_text(out, " is under way")?;
    Ok(())
}

/// Appends `node N has an answer waiting: reply N first`.
#[tactic(auto, unfolding(crate::specs::ObstacleWords::waiting_words))]
fn push_waiting_words(out: &mut Vec<u8>, n: u8) -> Result<(), AllocError>
    ensures { OnOk result (out.new.items ≡ out.old.items ++ waiting_words n) }
{
    push_node_line_words(out, n, " has an answer waiting: reply", n)?;
    push_text(out, " first")?;
    Ok(())
}

/// Appends what stands in the way of an event, if the line that it names is in a state with these words. Refused if
/// memory is.
#[tactic(auto, unfolding(crate::specs::ObstacleWords::obstacle_words))]
pub fn push_obstacle(
    out: &mut Vec<u8>,
    obstacle: Obstacle,
    event: &Event,
    state: &[u8],
) -> Result<(), AllocError>
    ensures { OnOk result
        (out.new.items ≡ out.old.items ++ obstacle_words obstacle event.now state.now) }
{
    let n = node_of(event);
    let line = line_named(event);
    match obstacle {
        Obstacle::NoSuchNode => push_text(out, "the machine has no such node"),
        Obstacle::NoSuchSender => push_text(out, "the machine has no such sender"),
        Obstacle::NoSuchLine => push_text(out, "the machine has no such line"),
        Obstacle::NoSuchWord => push_text(out, "a line has no such word"),
        Obstacle::AlreadyPending => {
            push_node_line_words(out, n, " has an operation pending on line", line)
        }
        Obstacle::NoIssueLeft => push_node_words(out, n, " has issued all that it may"),
        Obstacle::NothingPending => {
            push_node_line_words(out, n, " has no operation pending on line", line)
        }
        Obstacle::NotAllowed => push_state_words(
            out,
            n,
            line,
            state,
            ", which doesn't allow the operation that is pending",
        ),
        Obstacle::NotAsked => push_unasked_words(out, n, line, state, word_asked(event)),
        Obstacle::NoSlot => {
            push_state_words(out, n, line, state, ", and the node has no free slot")
        }
        Obstacle::NothingUnderWay => {
            let from = u64::from(sender_named(event));
            push_lacking_words(out, packet_wanted(event), from, u64::from(n))
        }
        Obstacle::AnswerWaits => push_waiting_words(out, n),
        Obstacle::SetbackComes => push_text(out, "a setback can't be refused"),
        Obstacle::NoAnswerWaits => push_node_words(out, n, " has no answer waiting"),
    }
}
