//! Packets, states, operations and entries as members of JSON objects.

ghost use Rattle.std.specs.Prelude.{◌≡◌, ◌++◌, OnOk};
ghost use Rattle.sci_cache.specs.{Cache.{letter_of}, Held.{state_of}};
ghost use Rattle.sci_json.specs.Members.{Adds, optional_member};
ghost use Rattle.sci_json.specs.Parts.{both_members, contents_members, entry_members, home_members, identifier_members, lock_members};
ghost use Rattle.sci_json.specs.Parts.{operand_members, operation_members, packet_members, reply_member, said_members, state_members};
ghost use Rattle.sci_json.specs.Parts.{version_member};

use crate::members::{write_flag, write_null, write_number, write_text, write_word, write_words};
use json::Writer;
use sci_cache::Held;
use sci_history::Entry;
use sci_home::Home;
use sci_packets::{Body, NodeId, Packet};
use sci_text::act_word;
use sci_words::{Act, LockOp, Op, Reply, Stamped, Word};
use std::alloc::AllocError;

/// Writes a member that is a node, if there is one.
#[tactic(auto, unfolding(crate::specs::Members::optional_member))]
fn write_node(out: &mut Writer, name: &str, node: Option<NodeId>) -> Result<(), AllocError>
    ensures { OnOk result (Adds out.old out.new (optional_member name.now node)) }
{
    match node {
        None => Ok(()),
        Some(id) => write_number(out, name, u64::from(id.get())),
    }
}

/// Writes the identifier of a packet, or that there is none.
#[tactic(auto, unfolding(crate::specs::Parts::identifier_members))]
fn write_identifier(out: &mut Writer, identifier: Option<NodeId>) -> Result<(), AllocError>
    ensures { OnOk result (Adds out.old out.new (identifier_members identifier)) }
{
    match identifier {
        None => write_null(out, "id"),
        Some(id) => write_number(out, "id", u64::from(id.get())),
    }
}

/// Writes the version and the words of a line's contents. Refused if memory is.
#[tactic(auto, unfolding(crate::specs::Parts::contents_members))]
pub fn write_contents(out: &mut Writer, contents: &Stamped) -> Result<(), AllocError>
    ensures { OnOk result (Adds out.old out.new (contents_members contents.now)) }
{
    write_number(out, "version", contents.version)?;
    write_words(out, "words", &contents.line)
}

/// Writes what a command says beside its header.
#[tactic(auto, unfolding(crate::specs::Parts::said_members))]
fn write_said(out: &mut Writer, body: &Body) -> Result<(), AllocError>
    ensures { OnOk result (Adds out.old out.new (said_members body.now)) }
{
    match body {
        Body::Roll { forward } | Body::Purged { forward } => write_identifier(out, *forward),
        Body::Setback { backward } => write_identifier(out, Some(*backward)),
        Body::Mgone { old_head } => write_identifier(out, Some(*old_head)),
        Body::Wback(contents) | Body::Mdata(contents) | Body::Cdata(contents) => {
            write_contents(out, contents)
        }
        Body::Fdata { old_head, contents } => {
            write_identifier(out, *old_head)?;
            write_contents(out, contents)
        }
        _ => Ok(()),
    }
}

/// Writes the members of a packet. Refused if memory is.
#[tactic(auto, unfolding(crate::specs::Parts::packet_members))]
pub fn write_packet(out: &mut Writer, packet: &Packet) -> Result<(), AllocError>
    ensures { OnOk result (Adds out.old out.new (packet_members (letter_of packet.now))) }
{
    write_text(out, "command", packet.body.command().name())?;
    write_number(out, "to", u64::from(packet.target.get()))?;
    write_number(out, "from", u64::from(packet.source.get()))?;
    write_number(out, "control", u64::from(packet.control))?;
    write_number(out, "line", packet.line)?;
    write_said(out, &packet.body)
}

/// Writes the version of contents, if there are any.
#[tactic(auto, unfolding(crate::specs::Parts::version_member))]
fn write_version(out: &mut Writer, contents: Option<Stamped>) -> Result<(), AllocError>
    ensures { OnOk result (Adds out.old out.new (version_member contents)) }
{
    match contents {
        None => Ok(()),
        Some(contents) => write_number(out, "version", contents.version),
    }
}

/// Writes the members of a cache's state. Refused if memory is.
#[tactic(auto, unfolding(crate::specs::Parts::state_members))]
pub fn write_state(out: &mut Writer, held: &Held) -> Result<(), AllocError>
    ensures { OnOk result (Adds out.old out.new (state_members (state_of held.now))) }
{
    write_text(out, "state", held.name())?;
    write_node(out, "forward", held.forward())?;
    write_node(out, "backward", held.backward())?;
    write_flag(out, "sent", held.is_sent())?;
    write_version(out, held.contents())
}

/// Writes the members of a home's state. Refused if memory is.
#[tactic(auto, unfolding(crate::specs::Parts::home_members))]
pub fn write_home(out: &mut Writer, home: &Home) -> Result<(), AllocError>
    ensures { OnOk result (Adds out.old out.new (home_members home.now)) }
{
    write_text(out, "state", home.state().name())?;
    write_node(out, "head", home.state().head())?;
    write_version(out, home.current())
}

/// Writes two operands.
#[tactic(auto, unfolding(crate::specs::Parts::both_members))]
fn write_both(out: &mut Writer, arg: Word, datum: Word) -> Result<(), AllocError>
    ensures { OnOk result (Adds out.old out.new (both_members arg datum)) }
{
    write_word(out, "arg", arg)?;
    write_word(out, "datum", datum)
}

/// Writes the operands of a lock operation.
#[tactic(auto, unfolding(crate::specs::Parts::lock_members))]
fn write_lock(out: &mut Writer, lock: LockOp) -> Result<(), AllocError>
    ensures { OnOk result (Adds out.old out.new (lock_members lock)) }
{
    match lock {
        LockOp::FetchAdd { datum } => write_word(out, "datum", datum),
        LockOp::MaskSwap { arg, datum }
        | LockOp::CompareSwap { arg, datum }
        | LockOp::BoundedAdd { arg, datum }
        | LockOp::WrapAdd { arg, datum } => write_both(out, arg, datum),
    }
}

/// Writes the operands of an operation.
#[tactic(auto, unfolding(crate::specs::Parts::operand_members))]
fn write_operands(out: &mut Writer, act: Act) -> Result<(), AllocError>
    ensures { OnOk result (Adds out.old out.new (operand_members act)) }
{
    match act {
        Act::Load => Ok(()),
        Act::Store(word) => write_word(out, "datum", word),
        Act::Lock(lock) => write_lock(out, lock),
    }
}

/// Writes the members of an operation. Refused if memory is.
#[tactic(auto, unfolding(crate::specs::Parts::operation_members))]
pub fn write_operation(out: &mut Writer, op: Op) -> Result<(), AllocError>
    ensures { OnOk result (Adds out.old out.new (operation_members op)) }
{
    write_text(out, "operation", act_word(op.act))?;
    write_number(out, "line", u64::from(op.line))?;
    write_number(out, "word", u64::from(op.word))?;
    write_operands(out, op.act)
}

/// Writes what an operation answered.
#[tactic(auto, unfolding(crate::specs::Parts::reply_member))]
fn write_reply(out: &mut Writer, reply: Reply) -> Result<(), AllocError>
    ensures { OnOk result (Adds out.old out.new (reply_member reply)) }
{
    match reply {
        Reply::Stored => write_null(out, "reply"),
        Reply::Got(word) => write_word(out, "reply", word),
    }
}

/// Writes the members of an entry. Refused if memory is.
#[tactic(auto, unfolding(crate::specs::Parts::entry_members))]
pub fn write_entry(out: &mut Writer, entry: &Entry) -> Result<(), AllocError>
    ensures { OnOk result (Adds out.old out.new (entry_members entry.now)) }
{
    write_number(out, "node", u64::from(entry.node))?;
    write_number(out, "serial", u64::from(entry.serial))?;
    write_operation(out, entry.op)?;
    write_reply(out, entry.reply)?;
    write_number(out, "version", entry.version)
}
