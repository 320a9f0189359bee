//! The table of packets: what each body puts into its packet, and which body is put there.

ghost use Rattle.std.specs.{Prelude.{◌≡◌, IfOk, length}, Result.{result_err}};
ghost use Rattle.sci_packets.specs.{Fields.{contents_for}, Table.{parts as parts_with, parts_of, body_fault}};

use crate::body::Body;
use crate::command::Command;
use crate::contents::Spelled;
use crate::fault::PacketFault;
use crate::node_id::NodeId;
use sci_words::Stamped;

/// The body of a packet with this command and identifier, of which the contents are read where it is spelled.
#[tactic(auto, unfolding(crate::specs::Table::parts_of, crate::specs::Table::is_misnamed, crate::specs::Table::body_fault))]
pub fn body_of<S: Spelled>(
    command: Command,
    identifier: Option<NodeId>,
    spelled: &S,
) -> Result<Body, PacketFault>
    ensures parts { IfOk result
        (λ body. parts_of body ≡ parts_with command identifier (contents_for command (S.bytes spelled.now))) }
    ensures fault { result_err result ≡ body_fault command identifier (length (S.bytes spelled.now)) }
{
    if identifier.is_some() && !command.names() {
        return Err(PacketFault::BadIdentifier);
    }
    let body = match command {
        Command::Roll => Body::Roll {
            forward: identifier,
        },
        Command::Purged => Body::Purged {
            forward: identifier,
        },
        Command::Fdata => Body::Fdata {
            old_head: identifier,
            contents: spelled.contents()?,
        },
        Command::Setback => Body::Setback {
            backward: identifier.ok_or(PacketFault::BadIdentifier)?,
        },
        Command::Mgone => Body::Mgone {
            old_head: identifier.ok_or(PacketFault::BadIdentifier)?,
        },
        Command::Wback => Body::Wback(spelled.contents()?),
        Command::Mdata => Body::Mdata(spelled.contents()?),
        Command::Cdata => Body::Cdata(spelled.contents()?),
        Command::Mread => Body::Mread,
        Command::Cread => Body::Cread,
        Command::Purge => Body::Purge,
        Command::Fread => Body::Fread,
        Command::Claim => Body::Claim,
        Command::Clear => Body::Clear,
        Command::Rolled => Body::Rolled,
        Command::Wbok => Body::Wbok,
        Command::Wbno => Body::Wbno,
        Command::Told => Body::Told,
        Command::Busy => Body::Busy,
    };
    Ok(body)
}

impl Body {
    ghost use Rattle.std.specs.{Prelude.{◌<◌, ◌↔◌, IsTrue}, Option.{option_copied}};
    ghost use Rattle.sci_packets.specs.Table.{IsRequest, command_number, command_of};

    /// The command of a packet with this body.
    #[tactic(auto, unfolding(crate::specs::Table::parts_of))]
    pub fn command(&self) -> Command
        ensures { result ≡ command_of self.now }
    {
        match *self {
            Body::Mread => Command::Mread,
            Body::Cread => Command::Cread,
            Body::Purge => Command::Purge,
            Body::Roll { .. } => Command::Roll,
            Body::Wback(_) => Command::Wback,
            Body::Setback { .. } => Command::Setback,
            Body::Fread => Command::Fread,
            Body::Claim => Command::Claim,
            Body::Clear => Command::Clear,
            Body::Mdata(_) => Command::Mdata,
            Body::Mgone { .. } => Command::Mgone,
            Body::Cdata(_) => Command::Cdata,
            Body::Purged { .. } => Command::Purged,
            Body::Rolled => Command::Rolled,
            Body::Wbok => Command::Wbok,
            Body::Wbno => Command::Wbno,
            Body::Told => Command::Told,
            Body::Busy => Command::Busy,
            Body::Fdata { .. } => Command::Fdata,
        }
    }

    /// The identifier of a packet with this body, None if it is none or unused.
    #[tactic(auto, unfolding(crate::specs::Table::parts_of))]
    pub fn identifier(&self) -> Option<NodeId>
        ensures { result ≡ (parts_of self.now).identifier }
    {
        match *self {
            Body::Roll { forward: id }
            | Body::Purged { forward: id }
            | Body::Fdata { old_head: id, .. } => id,
            Body::Setback { backward: id } | Body::Mgone { old_head: id } => Some(id),
            _ => None,
        }
    }

    /// What follows the header of a packet with this body.
    #[tactic(auto, unfolding(crate::specs::Table::parts_of))]
    pub fn contents(&self) -> Option<&Stamped>
        ensures { option_copied result ≡ (parts_of self.now).contents }
    {
        match self {
            Body::Wback(contents) | Body::Mdata(contents) | Body::Cdata(contents) => Some(contents),
            Body::Fdata { contents, .. } => Some(contents),
            _ => None,
        }
    }

    /// Whether the packet asks something. Each other packet answers.
    #[tactic(auto, unfolding(crate::specs::Table::parts_of))]
    pub fn is_request(&self) -> bool
        ensures request { IsTrue result ↔ IsRequest self.now }
        // The requests are the commands below 0x0100.
        ensures number { IsTrue result ↔ (command_number (command_of self.now) < 0x0100) }
    {
        self.command().number() < 0x0100
    }
}
