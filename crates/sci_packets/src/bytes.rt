//! Packets as bytes.

ghost use Rattle.std.specs.Prelude.{◌≡◌, ◌≤◌, ◌<◌, ◌^◌, ◌↔◌, ℕ, IfOk, IfErr, IsOk, IsErr, IfSome, Ok, length, take, drop, ◌++◌, ◌⊎◌, if◌then◌else◌};
ghost use Rattle.std.specs.{Result.{result_err}, Option.{is_some}};
ghost use Rattle.sci_packets.specs.{declared.packet.Packet.{Packet}, Fault.{fault_of}};
ghost use Rattle.sci_packets.specs.Fields.{header_in, contents_for};
ghost use Rattle.sci_packets.specs.Spelling.{IsPacket, Spells, NoneSpells, header_of, spelling};
ghost use Rattle.sci_packets.specs.Table.{command_of, number_of, parts_of};

use crate::body::Body;
use crate::command::Command;
use crate::contents::{InBytes, LONG, Spelled, write_contents};
use crate::fault::PacketFault;
use crate::header::Header;
use crate::node_id::{NO_NODE, NodeId};
use crate::packet::Packet;
use crate::table::body_of;
use sci_words::LINE_BYTES;

/// The bytes of a packet without contents.
const SHORT: usize = 16;

/// Writes the packet over the first bytes, and answers how many: 16, or 88 with contents. The bytes after
/// the packet stay.
#[tactic(auto, using(crate::proofs::Packets::packet_made))]
pub fn encode(p: &Packet, to: &mut [u8; 88]) -> usize
    ensures bytes { to.new ≡ spelling p.now ++ drop result to.old }
    ensures length { result ≡ length (spelling p.now) }
    ensures sizes { (result ≡ 16) ⊎ (result ≡ 88) }
    ensures packet { IsPacket p.now }
{
    header_for(p).write(to);
    match p.body.contents() {
        None => SHORT,
        Some(contents) => {
            write_contents(contents, to);
            LONG
        }
    }
}

/// The header of a packet.
pub fn header_for(p: &Packet) -> Header
    ensures header { result ≡ header_of p.now }
    ensures offset { result.offset < 2 ^ 48 }
    ensures nodes { (p.now.target < 0xFFFF) × (p.now.source < 0xFFFF) }
    ensures identifier { IfSome (parts_of p.now.body).identifier (λ id. id < 0xFFFF) }
{
    // Before the command: see `to_words`.
    let identifier = number_in(p.body.identifier());
    Header {
        target: p.target.get(),
        command: p.body.command().number(),
        source: p.source.get(),
        control: p.control,
        offset: p.line * LINE_BYTES as u64,
        identifier,
    }
}

/// The bytes of a packet with this body.
#[tactic(auto, unfolding(crate::specs::Table::parts_of))]
pub fn size_of(body: &Body) -> usize
    ensures { result ≡ (if is_some (parts_of body.now).contents then 88 else 16) }
{
    body.command().packet_bytes()
}

/// The number of an identifier, 0xFFFF for none.
fn number_in(identifier: Option<NodeId>) -> u16
    ensures number { result ≡ number_of identifier }
    ensures below { IfSome identifier (λ id. id < 0xFFFF) }
{
    match identifier {
        None => NO_NODE,
        Some(id) => id.get(),
    }
}

/// The identifier of a node that must be there.
fn node(number: u16) -> Result<NodeId, PacketFault>
    ensures node { IfOk result (λ id. id ≡ number) }
    ensures below { IsOk result ↔ (number < 0xFFFF) }
    ensures fault { IfErr result (λ e. e ≡ PacketFault.BadIdentifier) }
{
    NodeId::new(number).ok_or(PacketFault::BadIdentifier)
}

/// The packet with this header, of which the contents are read where it is spelled.
#[tactic(auto, unfolding(crate::specs::Fault::fault_of, crate::specs::Fault::header_fault))]
pub fn packet_of<S: Spelled>(header: Header, spelled: &S) -> Result<Packet, PacketFault>
    requires long { 16 ≤ length (S.bytes spelled.now) }
    requires header { header ≡ header_in (S.bytes spelled.now) }
    requires offset { header.offset < 2 ^ 48 }
    ensures header { IfOk result (λ p. header_of p ≡ header_in (S.bytes spelled.now)) }
    ensures contents { IfOk result (λ p. (parts_of p.body).contents
        ≡ contents_for (command_of p.body) (S.bytes spelled.now)) }
    ensures nodes { IfOk result (λ p. (p.target < 0xFFFF) × (p.source < 0xFFFF)) }
    ensures identifier { IfOk result
        (λ p. IfSome (parts_of p.body).identifier (λ id. id < 0xFFFF)) }
    ensures fault { result_err result ≡ fault_of (S.bytes spelled.now) }
{
    let command = Command::with_number(header.command).ok_or(PacketFault::UnknownCommand)?;
    if header.offset % LINE_BYTES as u64 != 0 {
        return Err(PacketFault::BadOffset);
    }
    let target = node(header.target)?;
    let source = node(header.source)?;
    let body = body_of(command, NodeId::new(header.identifier), spelled)?;
    Ok(Packet {
        target,
        source,
        control: header.control,
        line: header.offset / LINE_BYTES as u64,
        body,
    })
}

/// The packet at the beginning of the bytes, and how many they are: 16, or 88 with contents. Bytes after it
/// are not looked at.
///
/// Refusals, in this order: `Short` below 16 bytes, `UnknownCommand`, `BadOffset` if the offset is no
/// multiple of 64, `BadIdentifier` if target or source is 0xFFFF, an unused identifier isn't, or that of
/// Mgone or Setback is, and `Short` if contents are wanted and there are fewer than 88 bytes.
pub fn decode(bytes: &[u8]) -> Result<(Packet, usize), PacketFault>
    // The first bytes spell the packet.
    ensures found { IfOk result (λ found. Spells found.0 (take found.1 bytes.now)) }
    ensures length { IfOk result (λ found. found.1 ≤ length bytes.now) }

    // If the first bytes spell a packet, that is the answer.
    ensures only { (p : Packet) (k : ℕ) → k ≤ length bytes.now → Spells p (take k bytes.now) →
        result ≡ Ok (p, k) }

    // It is refused exactly if they spell none, with the first fault.
    ensures none { IsErr result ↔ NoneSpells bytes.now }
    ensures fault { result_err result ≡ fault_of bytes.now }
{
    if bytes.len() < SHORT {
        return Err(PacketFault::Short);
    }
    let packet = packet_of(Header::read(bytes), &InBytes { bytes })?;
    let len = size_of(&packet.body);
    Ok((packet, len))
}
