//! Lines of texts, as the programs read and write them.

ghost use Rattle.std.specs.Prelude.{◌≡◌, IfOk};
ghost use Rattle.sci_text.specs.{Log.{entry_line}, Schedule.{event_line}, Script.{machine_line}};
ghost use Rattle.sci_command.specs.PacketLine.{packet_line};
ghost use Rattle.sci_c_values.specs.{Entry.{SaysEntry}, Operation.{SaysEvent}, Packet.{SaysPacket}};
ghost use Rattle.sci_c.specs.{Packet.{IsPacketRefusal}, Texts.{IsOutOfRange, IsWriting, SaysSize}};

use crate::packet::status_of_refusal;
use crate::room::put_over;
use sci_c_values::{
    SCI_NO_MEMORY, SCI_RANGE, SciEntry, SciEvent, SciPacket, entry_in, event_in, packet_in,
};
use sci_command::push_packet;
use sci_history::Entry;
use sci_packets::Packet;
use sci_text::{push_entry, push_event_line, push_machine_line};
use sci_words::{Event, Extent};
use std::alloc::{AllocError, Global};

fn size_text(alloc: Global, extent: Extent) -> Result<Vec<u8>, AllocError>
    ensures { IfOk result (λ text. text.items ≡ machine_line extent.nodes extent.lines extent.slots) }
{
    let mut text = Vec::new(alloc);
    push_machine_line(&mut text, extent)?;
    Ok(text)
}

fn event_text(alloc: Global, event: Event) -> Result<Vec<u8>, AllocError>
    ensures { IfOk result (λ text. text.items ≡ event_line event) }
{
    let mut text = Vec::new(alloc);
    push_event_line(&mut text, event)?;
    Ok(text)
}

#[tactic(auto, unfolding(sci_text::specs::Log::entry_line))]
fn entry_text(alloc: Global, entry: &Entry) -> Result<Vec<u8>, AllocError>
    ensures { IfOk result (λ text. text.items ≡ entry_line entry.now) }
{
    let mut text = Vec::new(alloc);
    push_entry(&mut text, entry)?;
    text.push(b'\n')?;
    Ok(text)
}

fn packet_text(alloc: Global, packet: &Packet) -> Result<Vec<u8>, AllocError>
    ensures { IfOk result (λ text. text.items ≡ packet_line packet.now) }
{
    let mut text = Vec::new(alloc);
    push_packet(&mut text, packet)?;
    Ok(text)
}

/// Writes the line of a packet, as it is printed, over the first bytes, and how many.
#[unsafe(no_mangle)]
pub extern "C" fn sci_packet_write(
    alloc: Global,
    packet: &SciPacket,
    text: &mut [u8],
    used: &mut usize,
) -> u32
    ensures { IsWriting (SaysPacket packet.now) (IsPacketRefusal packet.now) packet_line
        text.old text.new used.old used.new result }
{
    let said = match packet_in(packet) {
        Ok(said) => said,
        Err(refusal) => return status_of_refusal(refusal),
    };
    match packet_text(alloc, &said) {
        Ok(made) => put_over(&made, text, used),
        Err(_) => SCI_NO_MEMORY,
    }
}

/// Writes the line of a machine's size, with which a schedule begins, over the first bytes, and how many.
#[unsafe(no_mangle)]
pub extern "C" fn sci_size_write(
    alloc: Global,
    nodes: u8,
    lines: u8,
    slots: u8,
    text: &mut [u8],
    used: &mut usize,
) -> u32
    ensures { IsWriting (SaysSize nodes lines slots) (IsOutOfRange (SaysSize nodes lines slots))
        (λ _. machine_line nodes lines slots)
        text.old text.new used.old used.new result }
{
    let Some(extent) = Extent::new(nodes, lines, slots) else {
        return SCI_RANGE;
    };
    match size_text(alloc, extent) {
        Ok(made) => put_over(&made, text, used),
        Err(_) => SCI_NO_MEMORY,
    }
}

/// Writes the line of an event in a schedule over the first bytes, and how many.
#[unsafe(no_mangle)]
pub extern "C" fn sci_event_write(
    alloc: Global,
    event: &SciEvent,
    text: &mut [u8],
    used: &mut usize,
) -> u32
    ensures { IsWriting (SaysEvent event.now) (IsOutOfRange (SaysEvent event.now)) event_line
        text.old text.new used.old used.new result }
{
    let Some(said) = event_in(event) else {
        return SCI_RANGE;
    };
    match event_text(alloc, said) {
        Ok(made) => put_over(&made, text, used),
        Err(_) => SCI_NO_MEMORY,
    }
}

/// Writes the line of an entry in a log over the first bytes, and how many.
#[unsafe(no_mangle)]
pub extern "C" fn sci_entry_write(
    alloc: Global,
    entry: &SciEntry,
    text: &mut [u8],
    used: &mut usize,
) -> u32
    ensures { IsWriting (SaysEntry entry.now) (IsOutOfRange (SaysEntry entry.now)) entry_line
        text.old text.new used.old used.new result }
{
    let Some(said) = entry_in(entry) else {
        return SCI_RANGE;
    };
    match entry_text(alloc, &said) {
        Ok(made) => put_over(&made, text, used),
        Err(_) => SCI_NO_MEMORY,
    }
}
