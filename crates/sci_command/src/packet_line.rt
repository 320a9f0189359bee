//! The lines that packets are printed as.

ghost use Rattle.std.specs.{Prelude.{◌≡◌, ◌≤◌, ◌+◌, ◌++◌, length, OnOk}, List.{flat_map}};
ghost use Rattle.sci_words.specs.declared.limits.TheConstants.{MAX_TEXT_LINE_BYTES};
ghost use Rattle.sci_text.specs.Number.{field};
ghost use Rattle.sci_command.specs.PacketLine.{contents_text, head_text, identifier_text, packet_line, said_text, tail_text};

use sci_packets::{Body, NodeId, Packet};
use sci_text::LineEnd;
use sci_words::{Line, Stamped, WORDS_PER_LINE};
use std::alloc::AllocError;

/// Puts an identifier, as ` id 3`, or that there is none, as ` id none`. Requires that there is room for 24 bytes.
#[tactic(auto, unfolding(crate::specs::PacketLine::identifier_text))]
fn put_identifier(end: &mut LineEnd, identifier: Option<NodeId>)
    requires { 24 + length end.old ≤ MAX_TEXT_LINE_BYTES }
    ensures text { end.new ≡ identifier_text identifier ++ end.old }
    ensures short { length end.new ≤ 24 + length end.old }
{
    match identifier {
        None => end.put_text(" id none"),
        Some(id) => {
            end.put_field(u64::from(id.get()));
            end.put_text(" id");
        }
    }
}

/// Puts the words of a line, with a space before each. Requires that there is room for eight fields.
fn put_words(end: &mut LineEnd, line: &Line)
    requires { 168 + length end.old ≤ MAX_TEXT_LINE_BYTES }
    ensures text { end.new ≡ flat_map field line.now ++ end.old }
    ensures short { length end.new ≤ 168 + length end.old }
{
    let words = line.words();
    for done in 0..WORDS_PER_LINE {
        end.put_field(words[WORDS_PER_LINE - 1 - done]);
    }
}

/// Puts contents: ` @V`, their version, and the eight words, with a space before each. Requires that there is
/// room for 190 bytes.
#[tactic(auto, unfolding(crate::specs::PacketLine::contents_text))]
pub fn put_contents(end: &mut LineEnd, contents: &Stamped)
    requires { 190 + length end.old ≤ MAX_TEXT_LINE_BYTES }
    ensures text { end.new ≡ contents_text contents.now ++ end.old }
    ensures short { length end.new ≤ 190 + length end.old }
{
    put_words(end, &contents.line);
    end.put_number(contents.version);
    end.put_text(" @");
}

/// Appends contents, as `put_contents` puts them. Refused if memory is.
pub fn push_contents(out: &mut Vec<u8>, contents: &Stamped) -> Result<(), AllocError>
    ensures { OnOk result (out.new.items ≡ out.old.items ++ contents_text contents.now) }
{
    let mut end = LineEnd::new();
    put_contents(&mut end, contents);
    out.extend_from_slice(end.as_slice())
}

/// Puts what a command says behind its header. Requires that there is room for 214 bytes.
#[tactic(auto, unfolding(crate::specs::PacketLine::said_text))]
fn put_said(end: &mut LineEnd, body: &Body)
    requires { 214 + length end.old ≤ MAX_TEXT_LINE_BYTES }
    ensures { end.new ≡ said_text body.now ++ end.old }
{
    match body {
        Body::Roll { forward } | Body::Purged { forward } => put_identifier(end, *forward),
        Body::Setback { backward } => put_identifier(end, Some(*backward)),
        Body::Mgone { old_head } => put_identifier(end, Some(*old_head)),
        Body::Wback(contents) | Body::Mdata(contents) | Body::Cdata(contents) => {
            put_contents(end, contents);
        }
        Body::Fdata { old_head, contents } => {
            put_contents(end, contents);
            put_identifier(end, *old_head);
        }
        _ => {}
    }
}

/// What the line of a packet begins with: `NAME to T from S control K line L`, all in decimal.
#[tactic(auto, unfolding(crate::specs::PacketLine::head_text), using(crate::proofs::Names::name_short))]
pub fn packet_head(packet: &Packet) -> LineEnd
    ensures { result ≡ head_text packet.now.target packet.now.source packet.now.control
        packet.now.line packet.now.body }
{
    let mut head = LineEnd::new();
    head.put_field(packet.line);
    head.put_text(" line");
    head.put_field(u64::from(packet.control));
    head.put_text(" control");
    head.put_field(u64::from(packet.source.get()));
    head.put_text(" from");
    head.put_field(u64::from(packet.target.get()));
    head.put_text(" to");
    head.put_text(packet.body.command().name());
    head
}

/// What the line of a packet ends with: ` id I` or ` id none` if the command uses its identifier, ` @V w0 w1 w2 w3 w4 w5 w6
/// w7` if it carries contents, and the line feed, all in decimal.
#[tactic(auto, unfolding(crate::specs::PacketLine::tail_text))]
pub fn packet_tail(packet: &Packet) -> LineEnd
    ensures { result ≡ tail_text packet.now.body }
{
    let mut tail = LineEnd::new();
    tail.put_text("\n");
    put_said(&mut tail, &packet.body);
    tail
}

/// Appends the line of a packet: its head, and its tail. Refused if memory is.
#[tactic(auto, unfolding(crate::specs::PacketLine::packet_line, crate::specs::PacketLine::line_of_packet))]
pub fn push_packet(out: &mut Vec<u8>, packet: &Packet) -> Result<(), AllocError>
    ensures { OnOk result (out.new.items ≡ out.old.items ++ packet_line packet.now) }
{
    out.extend_from_slice(packet_head(packet).as_slice())?;
    out.extend_from_slice(packet_tail(packet).as_slice())
}
