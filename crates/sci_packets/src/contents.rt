//! The contents of a packet: nine words in the 72 bytes behind the header.

ghost use Rattle.std.specs.Prelude.{◌≡◌, ◌≤◌, ◌<◌, ◌^◌, ℕ, slice_index, ◌++◌, ◌∷◌, nat_lt, if◌then◌else◌, Some, None, IfOk, length, take, drop};
ghost use Rattle.std.specs.Result.{result_err};
ghost use Rattle.sci_words.specs.declared.limits.TheConstants.{WORDS_PER_LINE};
ghost use Rattle.sci_packets.specs.{Fields.{contents_in, words_at, word_bytes, field_at}, Spelling.{IsContents}};

use crate::fault::PacketFault;
use byteorder::{BigEndian, ByteOrder};
use sci_words::{Line, Stamped, WORDS_PER_LINE, Word};

/// The bytes of a packet with contents.
pub const LONG: usize = 88;

/// The words of a packet with contents.
pub const LONG_WORDS: usize = 11;

/// Reads the words of a line, so that the prover knows that they are words.
fn read_words(line: &Line)
    ensures width { length line.now ≡ WORDS_PER_LINE }
    ensures fits { (i : ℕ) → slice_index line.now i < 2 ^ 64 }
{
    for i in 0..WORDS_PER_LINE as u8 {
        let _word = line.word(i);
    }
}

/// What a packet was spelled in, of which its contents are read.
pub trait Spelled {
    ghost use Rattle.std.specs.Prelude.{◌≡◌, ℕ, List, nat_lt, if◌then◌else◌, Some, None, IfOk, length};
    ghost use Rattle.std.specs.Result.{result_err};
    ghost use Rattle.sci_packets.specs.Fields.{contents_in};

    /// As bytes.
    ghost bytes: { Self → List ℕ };

    /// The contents behind the header, or `Short` if there are fewer than 88 bytes.
    fn contents(&self) -> Result<Stamped, PacketFault>
        ensures contents { IfOk result (λ stamped. stamped ≡ contents_in (bytes self.now)) }
        ensures fault { result_err result
            ≡ (if nat_lt (length (bytes self.now)) 88 then Some PacketFault.Short else None) };
}

/// Bytes that may begin with a packet.
#[derive(Clone, Copy, Drop)]
pub struct InBytes<'a> {
    /// The bytes.
    pub bytes: &'a [u8],
}

impl<'a> Spelled for InBytes<'a> {
    ghost bytes = { λ spelled. spelled.bytes.now };

    #[tactic(auto, unfolding(crate::specs::Fields::contents_in, crate::specs::Fields::field_at))]
    fn contents(&self) -> Result<Stamped, PacketFault> {
        if self.bytes.len() < LONG {
            return Err(PacketFault::Short);
        }
        let mut words = [0; WORDS_PER_LINE];
        BigEndian::read_u64_into(&self.bytes[24..LONG], &mut words);
        Ok(Stamped {
            line: Line::of_words(&words),
            version: BigEndian::read_u64(&self.bytes[16..]),
        })
    }
}

/// Words that may begin with a packet.
#[derive(Clone, Copy, Drop)]
pub struct InWords<'a> {
    /// The words.
    pub words: &'a [Word],
}

impl<'a> Spelled for InWords<'a> {
    ghost use Rattle.sci_packets.specs.Fields.{word_bytes};

    ghost bytes = { λ spelled. word_bytes spelled.words.now };

    fn contents(&self) -> Result<Stamped, PacketFault> {
        contents_of(self.words)
    }
}

/// The contents behind the two words of a header, or `Short` if there are fewer than eleven words.
fn contents_of(words: &[Word]) -> Result<Stamped, PacketFault>
    ensures contents { IfOk result (λ stamped. stamped ≡ contents_in (word_bytes words.now)) }
    ensures fault { result_err result
        ≡ (if nat_lt (length (word_bytes words.now)) 88 then Some PacketFault.Short else None) }
{
    if words.len() < LONG_WORDS {
        return Err(PacketFault::Short);
    }
    let mut line = [0; WORDS_PER_LINE];
    line.copy_from_slice(&words[3..LONG_WORDS]);
    Ok(Stamped {
        line: Line::of_words(&line),
        version: words[2],
    })
}

/// Writes contents behind a header.
#[tactic(auto, unfolding(crate::specs::Fields::field))]
pub fn write_contents(stamped: &Stamped, to: &mut [u8; LONG])
    ensures bytes { to.new ≡ take 16 to.old ++ word_bytes (stamped.now.version ∷ stamped.now.line) }
    ensures contents { IsContents stamped.now }
{
    let version = stamped.version;
    BigEndian::write_u64(&mut to[16..], version);
    read_words(&stamped.line);
    BigEndian::write_u64_into(stamped.line.words(), &mut to[24..]);
}

/// Writes a version and a line behind the words of a header.
pub fn write_contents_words(version: u64, line: &Line, to: &mut [Word; LONG_WORDS])
    ensures words { to.new ≡ take 2 to.old ++ version ∷ line.now }
    ensures version { version < 2 ^ 64 }
    ensures width { length line.now ≡ WORDS_PER_LINE }
    ensures fits { (i : ℕ) → slice_index line.now i < 2 ^ 64 }
{
    read_words(line);
    to[2] = version;
    to[3..].copy_from_slice(line.words());
}
