//! Laws of the spellings, each the contract of a function that does nothing.

ghost use Rattle.std.specs.Prelude.{◌≡◌, ◌<◌, ◌^◌, ◌⊎◌, ◌++◌, ℕ, List, [], length, slice_index};
ghost use Rattle.sci_packets.specs.{declared.packet.Packet.{Packet}, Fields.{word_bytes}};
ghost use Rattle.sci_packets.specs.Spelling.{IsPacket, Spells, SpellsInWords, spelling, words_of};

/// No spelling is a proper prefix of another: nothing follows the shorter one.
pub fn no_proper_prefix()
    ensures { (p q : Packet) (bytes more : List ℕ) → Spells p bytes → Spells q (bytes ++ more) →
        more ≡ [] }
{}

/// Two packets with one spelling are the same packet.
pub fn one_packet()
    ensures { (p q : Packet) (bytes : List ℕ) → Spells p bytes → Spells q bytes → p ≡ q }
{}

/// No first word is 0.
pub fn first_word_is_not_zero()
    ensures { (p : Packet) (words : List ℕ) → SpellsInWords p words → 0 < slice_index words 0 }
{}

/// The words of a packet give back that packet alone, and what follows them, whatever follows them.
pub fn words_give_back()
    ensures { (p q : Packet) (more others : List ℕ) → IsPacket p → IsPacket q →
        words_of p ++ more ≡ words_of q ++ others → (p ≡ q) × (more ≡ others) }
{}

/// Two packets whose words agree as far as both go are the same packet.
pub fn one_packet_by_words()
    ensures { (p q : Packet) → IsPacket p → IsPacket q →
        ((i : ℕ) → i < length (words_of p) → i < length (words_of q) → slice_index (words_of p) i ≡ slice_index (words_of q) i) → p ≡ q }
{}

/// A packet has 2 words, or 11.
pub fn word_count()
    ensures { (p : Packet) → IsPacket p → (length (words_of p) ≡ 2) ⊎ (length (words_of p) ≡ 11) }
{}

/// Each word of a packet has 64 bits.
pub fn words_fit()
    ensures { (p : Packet) (i : ℕ) → IsPacket p → slice_index (words_of p) i < 2 ^ 64 }
{}

/// The words of a packet, each as eight bytes with the highest first, are its spelling.
pub fn words_are_the_bytes()
    ensures { (p : Packet) → IsPacket p → word_bytes (words_of p) ≡ spelling p }
{}
