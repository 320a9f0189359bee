//! The header of a packet: six fields in 16 bytes.

ghost use Rattle.std.specs.Prelude.{◌≡◌, ◌≤◌, ◌<◌, ◌^◌, length, drop};

use byteorder::{BigEndian, ByteOrder};

/// The fields of a header, in their order.
#[derive(Clone, Copy)]
pub struct Header {
    pub target: u16,
    pub command: u16,
    pub source: u16,
    pub control: u16,
    /// Below 2^48.
    pub offset: u64,
    pub identifier: u16,
}

impl Header {
    ghost use Rattle.sci_packets.specs.Fields.{spelled, header_in, field_at, word_bytes};
    ghost use Rattle.sci_packets.specs.Spelling.{first_word, second_word};

    /// The header that bytes begin with.
    #[tactic(auto, unfolding(crate::specs::Fields::header_in, crate::specs::Fields::field_at))]
    pub fn read(bytes: &[u8]) -> Header
        requires { 16 ≤ length bytes.now }
        ensures header { result ≡ header_in bytes.now }
        ensures offset { result.offset < 2 ^ 48 }
    {
        Header {
            target: BigEndian::read_u16(bytes),
            command: BigEndian::read_u16(&bytes[2..]),
            source: BigEndian::read_u16(&bytes[4..]),
            control: BigEndian::read_u16(&bytes[6..]),
            offset: BigEndian::read_u48(&bytes[8..]),
            identifier: BigEndian::read_u16(&bytes[14..]),
        }
    }

    /// Writes the header over the first bytes.
    #[tactic(auto, unfolding(crate::specs::Fields::spelled, crate::specs::Fields::field))]
    pub fn write(self, to: &mut [u8])
        requires room { 16 ≤ length to.old }
        requires offset { self.offset < 2 ^ 48 }
        ensures bytes { to.new ≡ spelled self (drop 16 to.old) }
        ensures control { self.control < 2 ^ 16 }
    {
        BigEndian::write_u16(to, self.target);
        BigEndian::write_u16(&mut to[2..], self.command);
        BigEndian::write_u16(&mut to[4..], self.source);
        BigEndian::write_u16(&mut to[6..], self.control);
        BigEndian::write_u48(&mut to[8..], self.offset);
        BigEndian::write_u16(&mut to[14..], self.identifier);
    }

    /// The header that words begin with.
    pub fn of_words(words: &[u64]) -> Header
        requires { 2 ≤ length words.now }
        ensures header { result ≡ header_in (word_bytes words.now) }
        ensures offset { result.offset < 2 ^ 48 }
    {
        let first = words[0];
        let second = words[1];
        Header {
            target: (first / 0x1_0000_0000_0000 % 0x1_0000) as u16,
            command: (first / 0x1_0000_0000 % 0x1_0000) as u16,
            source: (first / 0x1_0000 % 0x1_0000) as u16,
            control: (first % 0x1_0000) as u16,
            offset: second / 0x1_0000,
            identifier: (second % 0x1_0000) as u16,
        }
    }

    /// Target, command, source and control in one word.
    pub fn first_word(&self) -> u64
        ensures word { result ≡ first_word self.now }
        ensures control { self.now.control < 2 ^ 16 }
    {
        let front = u64::from(self.target) * 0x1_0000 + u64::from(self.command);
        (front * 0x1_0000 + u64::from(self.source)) * 0x1_0000 + u64::from(self.control)
    }

    /// Offset and identifier in one word.
    pub fn second_word(&self) -> u64
        requires { self.now.offset < 2 ^ 48 }
        ensures { result ≡ second_word self.now }
    {
        self.offset * 0x1_0000 + u64::from(self.identifier)
    }
}
