//! Packets as words: each eight bytes are one word, the highest byte first.

ghost use Rattle.std.specs.Prelude.{◌≡◌, ◌≤◌, ◌↔◌, ◌⊎◌, ◌/◌, ◌%◌, ◌^◌, ℕ, IfOk, IfSome, IsErr, if◌then◌else◌, length, take, drop, ◌++◌};
ghost use Rattle.std.specs.{Result.{result_err}, Option.{is_some}};
ghost use Rattle.sci_packets.specs.{declared.packet.Packet.{Packet}, Fault.{fault_of_words}};
ghost use Rattle.sci_packets.specs.Spelling.{CountsWords, IsContents, IsPacket, SpellsInWords, NoneSpellsInWords, words_of};
ghost use Rattle.sci_packets.specs.{Fields.{contents_words}, Table.{carries, command_with, parts_of}};

use crate::body::Body;
use crate::bytes::{header_for, packet_of, size_of};
use crate::command::Command;
use crate::contents::{InWords, LONG_WORDS, write_contents_words};
use crate::fault::PacketFault;
use crate::header::Header;
use crate::packet::Packet;

/// The words of a packet without contents.
const SHORT_WORDS: usize = 2;

/// Writes the packet over the first words, and answers how many: 2, or 11 with contents. The words after
/// the packet stay.
#[tactic(auto, using(crate::proofs::Packets::packet_made))]
pub fn to_words(p: &Packet, to: &mut [u64; 11]) -> usize
    ensures words { to.new ≡ words_of p.now ++ drop result to.old }
    ensures length { result ≡ length (words_of p.now) }
    ensures sizes { (result ≡ 2) ⊎ (result ≡ 11) }
    ensures packet { IsPacket p.now }
{
    // Contents, then the identifier, and the command last: in another order the compiler makes of these matches one jump
    // through a table, which costs more than all of them.
    let count = write_rest(&p.body, to);
    let header = header_for(p);
    to[0] = header.first_word();
    to[1] = header.second_word();
    count
}

/// Writes what a packet with this body has behind its header, and answers how many words the packet has.
fn write_rest(body: &Body, to: &mut [u64; 11]) -> usize
    ensures words { to.new
        ≡ take 2 to.old ++ (contents_words (parts_of body.now).contents ++ drop result to.old) }
    ensures count { result ≡ (if is_some (parts_of body.now).contents then 11 else 2) }
    ensures contents { IfSome (parts_of body.now).contents IsContents }
{
    match body.contents() {
        None => SHORT_WORDS,
        Some(contents) => {
            write_contents_words(contents.version, &contents.line, to);
            LONG_WORDS
        }
    }
}

/// How many words the packet has whose first word this is: 2, or 11 if its command is one with contents. A word that
/// begins no packet is counted by the same 16 bits, the second highest.
pub fn word_count(first: u64) -> usize
    ensures command { result ≡ (if carries (command_with (first / 2 ^ 32 % 2 ^ 16)) then 11 else 2) }
    ensures packet { CountsWords first result }
    ensures sizes { (result ≡ 2) ⊎ (result ≡ 11) }
{
    match Command::with_number((first / 0x1_0000_0000 % 0x1_0000) as u16) {
        Some(command) if command.takes_contents() => LONG_WORDS,
        _ => SHORT_WORDS,
    }
}

/// The packet at the beginning of the words, and how many they are: 2, or 11 with contents. Words after it
/// are not looked at.
///
/// Refusals as of `decode`, with 2 and 11 words in place of 16 and 88 bytes.
pub fn from_words(words: &[u64]) -> Result<(Packet, usize), PacketFault>
    // The first words are those of the packet.
    ensures found { IfOk result (λ found. SpellsInWords found.0 (take found.1 words.now)) }
    ensures length { IfOk result (λ found. found.1 ≤ length words.now) }

    // If the first words are those of a packet, that is the answer.
    ensures only { (p : Packet) (k : ℕ) → k ≤ length words.now →
        SpellsInWords p (take k words.now) → result ≡ Ok (p, k) }

    // It is refused exactly if they are those of none, with the first fault.
    ensures none { IsErr result ↔ NoneSpellsInWords words.now }
    ensures fault { result_err result ≡ fault_of_words words.now }
{
    if words.len() < SHORT_WORDS {
        return Err(PacketFault::Short);
    }
    let packet = packet_of(Header::of_words(words), &InWords { words })?;
    Ok((packet, size_of(&packet.body) / 8))
}
