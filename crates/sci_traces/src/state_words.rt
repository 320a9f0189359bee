//! The words for the states of a line, in a node's cache and at its home.

ghost use Rattle.std.specs.Prelude.{◌≡◌, ◌++◌, OnOk};
ghost use Rattle.sci_cache.specs.Held.{state_of};
ghost use Rattle.sci_traces.specs.StateWords.{home_text, node_text, sent_text, state_text, version_text};

use sci_cache::Held;
use sci_command::push_labelled;
use sci_home::Home;
use sci_packets::NodeId;
use sci_text::{push_number, push_text};
use sci_words::Stamped;
use std::alloc::AllocError;

/// Appends a label and a node, if there is one.
#[tactic(auto, unfolding(crate::specs::StateWords::node_text))]
pub fn push_node(out: &mut Vec<u8>, label: &[u8], node: Option<NodeId>) -> Result<(), AllocError>
    ensures { OnOk result (out.new.items ≡ out.old.items ++ node_text label.now node) }
{
    match node {
        None => Ok(()),
        Some(id) => push_labelled(out, label, u64::from(id.get())),
    }
}

/// Appends that a request was sent, if it was.
#[tactic(auto, unfolding(crate::specs::StateWords::sent_text))]
fn push_sent(out: &mut Vec<u8>, sent: bool) -> Result<(), AllocError>
    ensures { OnOk result (out.new.items ≡ out.old.items ++ sent_text sent) }
{
    if sent {
        push_text(out, " sent")
    } else {
        Ok(())
    }
}

/// Appends the version of contents, if there are any.
#[tactic(auto, unfolding(crate::specs::StateWords::version_text))]
fn push_version(out: &mut Vec<u8>, contents: Option<Stamped>) -> Result<(), AllocError>
    ensures { OnOk result (out.new.items ≡ out.old.items ++ version_text contents) }
{
    match contents {
        None => Ok(()),
        Some(contents) => {
            push_text(out, " @")?;
            push_number(out, contents.version)
        }
    }
}

/// Appends a cache's state: its name, its neighbours, whether its request was sent, and the version of its contents, as
/// `Below forward 2 backward 0 @3`. Refused if memory is.
#[tactic(auto, unfolding(crate::specs::StateWords::state_text))]
pub fn push_state(out: &mut Vec<u8>, held: &Held) -> Result<(), AllocError>
    ensures { OnOk result (out.new.items ≡ out.old.items ++ state_text (state_of held.now)) }
{
    push_text(out, held.name())?;
    push_node(out, b" forward", held.forward())?;
    push_node(out, b" backward", held.backward())?;
    push_sent(out, held.is_sent())?;
    push_version(out, held.contents())
}

/// Appends a home's state: its name, the head of the line's list, and the version of its contents, as `FRESH head 1 @3`.
/// Refused if memory is.
#[tactic(auto, unfolding(crate::specs::StateWords::home_text))]
pub fn push_home(out: &mut Vec<u8>, home: &Home) -> Result<(), AllocError>
    ensures { OnOk result (out.new.items ≡ out.old.items ++ home_text home.now) }
{
    push_text(out, home.state().name())?;
    push_node(out, b" head", home.state().head())?;
    push_version(out, home.current())
}
