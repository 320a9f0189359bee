//! The command `decode`: a line for each packet.

ghost use Rattle.std.specs.Prelude.{◌≡◌, ◌↔◌, ◌≤◌, ℕ, List, [], None, false, length, IsSome};
ghost use Rattle.sci_text.specs.Tap.{has_failed, is_called_again, tapped};
ghost use Rattle.sci_command.specs.{declared.outcome.Outcome.{Outcome}, Writing.{HasCarriedOut, IsPrinted}};
ghost use Rattle.scimem.specs.Decoding.{IsDecoded, IsDecodedBeside, refusal, fault_word};

use sci_command::{
    Ended, Note, Outcome, Refusal, packet_head, packet_tail, print_end, print_piece, word_of_fault,
    write_answer,
};
use sci_packets::{PacketFault, decode};
use sci_text::{LineEnd, Tap, TextFaultKind, read_input};
use std::alloc::Global;
use std::io::{Read, Write};

/// The word for what is wrong with a packet.
#[tactic(auto, unfolding(crate::specs::Decoding::fault_word))]
fn word_of(fault: PacketFault) -> &'static str
    ensures word { result.now ≡ fault_word fault }
    ensures short { length result.now ≤ 16 }
{
    match fault {
        PacketFault::Short => "short",
        PacketFault::UnknownCommand => "unknown-command",
        PacketFault::BadOffset => "bad-offset",
        PacketFault::BadIdentifier => "bad-identifier",
    }
}

/// The refusal of what begins at `place`, for this reason.
#[tactic(auto, unfolding(crate::specs::Decoding::refusal))]
fn refusal_of(place: u64, word: &str) -> LineEnd
    requires { length word.now ≤ 16 }
    ensures { result ≡ refusal place word.now }
{
    let mut line = LineEnd::new();
    line.put_text("\n");
    line.put_text(word);
    line.put_text(": ");
    line.put_field(place);
    line.put_text("refused at byte");
    line
}

/// Prints the lines of the packets that the bytes are, and then the refusal of what is no packet; and tells how the command
/// ends, if no write fails. A part of the text may wait then. Requires that nothing waits before.
fn print_packets<W: Write>(writer: &mut Tap<W>, waiting: &mut Vec<u8>, input: &[u8]) -> Outcome
    requires { waiting.old.items ≡ [] }
    ensures printed { (text : List ℕ) × IsDecoded input.now text result
        × IsPrinted (W.contents (tapped writer.old)) (W.contents (tapped writer.new))
        (has_failed writer.new) waiting.new.items text }
    ensures again { is_called_again writer.new ≡ is_called_again writer.old }
{
    let mut rest = input;
    while !rest.is_empty() {
        match decode(rest) {
            Ok((packet, len)) => {
                print_piece(writer, waiting, packet_head(&packet).as_slice());
                print_piece(writer, waiting, packet_tail(&packet).as_slice());
                rest = &rest[len..];
            }
            Err(fault) => {
                let place = (input.len() - rest.len()) as u64;
                print_piece(
                    writer,
                    waiting,
                    refusal_of(place, word_of(fault)).as_slice(),
                );
                return Outcome::Refused;
            }
        }
    }
    Outcome::Done
}

/// What is said of a decoding that ends so, if no write fails, besides its refusal.
fn no_packet(outcome: Outcome) -> Option<Refusal>
    ensures { IsSome result ↔ (outcome ≡ Outcome.Refused) }
{
    match outcome {
        Outcome::Done | Outcome::Unlawful => None,
        Outcome::Refused => {
            let words = Note::Fixed("the bytes from the refused one on begin with no packet");
            Some(Refusal::of_input(TextFaultKind::Syntax, words))
        }
    }
}

/// Reads the input to its end, and writes a line for each packet: `NAME to T from S control K line L`, then
/// ` id I` or ` id none` if the command uses its identifier, and ` @V w0 w1 w2 w3 w4 w5 w6 w7` if it
/// carries contents, all in decimal. A run of packets is Done.
///
/// Refused, with one more line: `refused at byte K: KIND` at the first byte of what is no packet, and KIND is
/// `short`, `unknown-command`, `bad-offset` or `bad-identifier`; and, with no line before it, `refused at byte 0:
/// KIND` if a read fails (`read`), for an input of more than 134,217,728 bytes (`too-many`), and if there is no memory for
/// the input (`memory`). The lines take no memory that could be refused, so they are written as they are made. After a failed
/// read or write nothing more is read or written; after a failed write it is Refused.
pub fn decode_bytes<R: Read, W: Write>(
    alloc: Global,
    reader: &mut Tap<R>,
    writer: &mut Tap<W>,
) -> Ended
    requires reader { has_failed reader.old ≡ false }
    requires writer { has_failed writer.old ≡ false }
    ensures answer { HasCarriedOut R.remaining W.contents reader.old reader.new writer.old writer.new
        result.outcome (IsDecodedBeside result.refusal) }
    ensures dead { result.dead ≡ None }
{
    match read_input(alloc, reader) {
        Ok(input) => {
            let mut waiting = Vec::new(alloc);
            let outcome = print_packets(writer, &mut waiting, &input);
            Ended {
                outcome: print_end(writer, &waiting, outcome),
                refusal: no_packet(outcome),
                dead: None,
            }
        }
        Err(fault) => {
            let line = refusal_of(0, word_of_fault(fault.kind));
            Ended {
                outcome: write_answer(writer, line.as_slice(), Outcome::Refused),
                refusal: Some(Refusal::from(fault)),
                dead: None,
            }
        }
    }
}
