//! Packets as bytes and as words.

ghost use Rattle.std.specs.Prelude.{◌≡◌, ◌≢◌};
ghost use Rattle.sci_packets.specs.Fault.{fault_of, fault_of_words};
ghost use Rattle.sci_packets.specs.Spelling.{NoneSpells, NoneSpellsInWords, Spells, SpellsInWords, spelling, words_of};
ghost use Rattle.sci_c_values.specs.declared.status.TheConstants.{SCI_OK};
ghost use Rattle.sci_c.specs.Packet.{IsPacketRefusal, IsRead, IsWritten, fault_status, refusal_number};

use sci_c_values::{
    PacketRefusal, SCI_OK, SCI_RANGE, SciPacket, packet_in, packet_out, status_of_fault,
};
use sci_packets::{decode, encode, from_words, to_words};

/// The status of a struct that says no packet.
pub(crate) fn status_of_refusal(refusal: PacketRefusal) -> u32
    ensures { result ≡ refusal_number refusal }
{
    match refusal {
        PacketRefusal::Range => SCI_RANGE,
        PacketRefusal::Fault(fault) => status_of_fault(fault),
    }
}

/// Reads the packet that the bytes begin with, and how many bytes it has: 16, or 88 with contents.
#[unsafe(no_mangle)]
pub extern "C" fn sci_packet_decode(bytes: &[u8], packet: &mut SciPacket, used: &mut usize) -> u32
    ensures status { result ≡ fault_status (fault_of bytes.now) }
    ensures found { result ≡ SCI_OK → IsRead Spells bytes.now used.new packet.new }
    ensures refused { result ≢ SCI_OK → NoneSpells bytes.now }
    ensures same { result ≢ SCI_OK → packet.new ≡ packet.old }
    ensures same_used { result ≢ SCI_OK → used.new ≡ used.old }
{
    match decode(bytes) {
        Ok((found, count)) => {
            *packet = packet_out(&found);
            *used = count;
            SCI_OK
        }
        Err(fault) => status_of_fault(fault),
    }
}

/// Writes the packet over the first bytes, and how many: 16, or 88 with contents. The bytes after it stay.
#[unsafe(no_mangle)]
pub extern "C" fn sci_packet_encode(
    packet: &SciPacket,
    bytes: &mut [u8; 88],
    used: &mut usize,
) -> u32
    ensures written { result ≡ SCI_OK → IsWritten spelling packet.now bytes.old bytes.new used.new }
    ensures refused { result ≢ SCI_OK → IsPacketRefusal packet.now result }
    ensures same { result ≢ SCI_OK → bytes.new ≡ bytes.old }
    ensures same_used { result ≢ SCI_OK → used.new ≡ used.old }
{
    match packet_in(packet) {
        Ok(found) => {
            *used = encode(&found, bytes);
            SCI_OK
        }
        Err(refusal) => status_of_refusal(refusal),
    }
}

/// Reads the packet that the words begin with, and how many words it has: 2, or 11 with contents.
#[unsafe(no_mangle)]
pub extern "C" fn sci_packet_from_words(
    words: &[u64],
    packet: &mut SciPacket,
    used: &mut usize,
) -> u32
    ensures status { result ≡ fault_status (fault_of_words words.now) }
    ensures found { result ≡ SCI_OK → IsRead SpellsInWords words.now used.new packet.new }
    ensures refused { result ≢ SCI_OK → NoneSpellsInWords words.now }
    ensures same { result ≢ SCI_OK → packet.new ≡ packet.old }
    ensures same_used { result ≢ SCI_OK → used.new ≡ used.old }
{
    match from_words(words) {
        Ok((found, count)) => {
            *packet = packet_out(&found);
            *used = count;
            SCI_OK
        }
        Err(fault) => status_of_fault(fault),
    }
}

/// Writes the packet over the first words, and how many: 2, or 11 with contents. The words after it stay.
#[unsafe(no_mangle)]
pub extern "C" fn sci_packet_to_words(
    packet: &SciPacket,
    words: &mut [u64; 11],
    used: &mut usize,
) -> u32
    ensures written { result ≡ SCI_OK → IsWritten words_of packet.now words.old words.new used.new }
    ensures refused { result ≢ SCI_OK → IsPacketRefusal packet.now result }
    ensures same { result ≢ SCI_OK → words.new ≡ words.old }
    ensures same_used { result ≢ SCI_OK → used.new ≡ used.old }
{
    match packet_in(packet) {
        Ok(found) => {
            *used = to_words(&found, words);
            SCI_OK
        }
        Err(refusal) => status_of_refusal(refusal),
    }
}
