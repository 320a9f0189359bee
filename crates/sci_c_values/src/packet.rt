//! Packets.

ghost use Rattle.std.specs.Prelude.{◌≡◌, ◌<◌, ◌+◌, ◌*◌, ◌^◌, ◌∷◌, IfOk, IfErr};
ghost use Rattle.sci_c_values.specs.Packet.{IsPlain, IsRefusalOf, SaysPacket, first_of, fault_number, second_of, struct_words};

use crate::status::{SCI_BAD_IDENTIFIER, SCI_BAD_OFFSET, SCI_SHORT, SCI_UNKNOWN_COMMAND};
use sci_packets::{Packet, PacketFault, from_words, to_words};

/// A packet. `has_contents` is 1 if it carries a line of memory, with its version. An identifier of 0xFFFF is no node.
#[repr(C)]
#[derive(Clone, Copy)]
pub struct SciPacket {
    pub target: u16,
    pub command: u16,
    pub source: u16,
    pub control: u16,
    pub line: u64,
    pub identifier: u16,
    pub has_contents: u16,
    pub reserved: u32,
    pub version: u64,
    pub words: [u64; 8],
}

/// Why a struct says no packet.
#[derive(Clone, Copy, Debug, PartialEq, Eq)]
pub enum PacketRefusal {
    /// The line is 2^42 or more, or `has_contents` is neither 0 nor 1, or is 1 and the command carries none.
    Range,
    /// The words of the struct are those of no packet.
    Fault(PacketFault),
}

/// Most lines that a packet can name.
const LINES: u64 = 0x400_0000_0000;

/// The number of a fault.
pub fn status_of_fault(fault: PacketFault) -> u32
    ensures { result ≡ fault_number fault }
{
    match fault {
        PacketFault::Short => SCI_SHORT,
        PacketFault::UnknownCommand => SCI_UNKNOWN_COMMAND,
        PacketFault::BadOffset => SCI_BAD_OFFSET,
        PacketFault::BadIdentifier => SCI_BAD_IDENTIFIER,
    }
}

impl SciPacket {
    /// Target, command, source and control in one word.
    fn first_word(&self) -> u64
        ensures { result ≡ first_of self.now }
    {
        let front = u64::from(self.target) * 0x1_0000 + u64::from(self.command);
        (front * 0x1_0000 + u64::from(self.source)) * 0x1_0000 + u64::from(self.control)
    }

    /// The offset of the line, and the identifier, in one word.
    fn second_word(&self) -> u64
        requires { self.now.line < 2 ^ 42 }
        ensures { result ≡ second_of self.now }
    {
        self.line * 0x40_0000 + u64::from(self.identifier)
    }

    /// The words of the packet, and zeros.
    fn words(&self) -> [u64; 11]
        requires { self.now.line < 2 ^ 42 }
        ensures { result ≡ first_of self.now ∷ second_of self.now ∷ self.now.version ∷ self.now.words }
    {
        let [a, b, c, d, e, f, g, h] = self.words;
        [
            self.first_word(),
            self.second_word(),
            self.version,
            a,
            b,
            c,
            d,
            e,
            f,
            g,
            h,
        ]
    }
}

/// The packet that the struct says, or why it says none.
pub fn packet_in(packet: &SciPacket) -> Result<Packet, PacketRefusal>
    ensures says { IfOk result (SaysPacket packet.now) }
    ensures refused { IfErr result (IsRefusalOf packet.now) }
{
    if packet.line >= LINES || packet.has_contents > 1 {
        return Err(PacketRefusal::Range);
    }
    let words = packet.words();
    let count = if packet.has_contents == 0 { 2 } else { 11 };
    match from_words(&words[..count]) {
        Ok((found, used)) if used == count => Ok(found),
        Ok(_) => Err(PacketRefusal::Range),
        Err(fault) => Err(PacketRefusal::Fault(fault)),
    }
}

/// A word without its last 16 bits, and these.
fn parted(word: u64) -> (u64, u16)
    ensures word { word ≡ result.0 * 2 ^ 16 + result.1 }
    ensures front { result.0 < 2 ^ 48 }
    ensures back { result.1 < 2 ^ 16 }
{
    (word / 0x1_0000, (word % 0x1_0000) as u16)
}

/// The struct of a packet. Contents that it doesn't carry are 0.
pub fn packet_out(packet: &Packet) -> SciPacket
    ensures says { SaysPacket result packet.now }
    ensures plain { IsPlain result }
{
    let mut words = [0; 11];
    let count = to_words(packet, &mut words);
    let [first, second, version, a, b, c, d, e, f, g, h] = words;
    let (before_control, control) = parted(first);
    let (before_source, source) = parted(before_control);
    let (target, command) = parted(before_source);
    let (offset, identifier) = parted(second);
    SciPacket {
        target: target as u16,
        command,
        source,
        control,
        line: offset / 64,
        identifier,
        has_contents: u16::from(count == 11),
        reserved: 0,
        version,
        words: [a, b, c, d, e, f, g, h],
    }
}
