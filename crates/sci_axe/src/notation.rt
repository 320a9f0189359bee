//! The words and numbers of Axe's notation.

ghost use Rattle.std.specs.Prelude.{◌≡◌, ◌≤◌, ◌<◌};
ghost use Rattle.sci_text.specs.Reading.{Gives, after as after_of};
ghost use Rattle.sci_axe.specs.Notation.{based_read, behind as behind_of, behind_blanks, digit_value as digit_value_of, digits_read, is_blank as is_blank_of, is_end as is_end_of};
ghost use Rattle.sci_axe.specs.Notation.{number_read, with_digit as with_digit_of};
ghost use denote.Ref.{Bor};

/// A number of a text, or None if it is 2^64 or more.
pub type Number = Option<u64>;

/// Whether a byte is a space, a tab or a carriage return.
fn is_blank(byte: u8) -> bool
    ensures { result ≡ is_blank_of byte }
{
    byte == b' ' || byte == b'\t' || byte == b'\r'
}

/// The bytes behind blanks.
#[tactic(auto, unfolding(crate::specs::Notation::behind_blanks))]
pub fn after_blanks(bytes: &[u8]) -> &[u8]
    ensures { result.now ≡ behind_blanks bytes.now }
{
    let mut rest = bytes;
    while let [byte, more @ ..] = rest {
        if !is_blank(*byte) {
            return rest;
        }
        rest = more;
    }
    rest
}

/// Whether only blanks are left, and a comment.
#[tactic(auto, unfolding(crate::specs::Notation::is_end))]
pub fn is_end(bytes: &[u8]) -> bool
    ensures { result ≡ is_end_of bytes.now }
{
    match after_blanks(bytes) {
        [] => true,
        [byte, ..] => *byte == b'#',
    }
}

/// The bytes after a mark, if they begin with it.
fn after<'a>(mark: &[u8], bytes: &'a [u8]) -> Option<&'a [u8]>
    ensures { Gives (λ (rest : Bor _). rest.now) result (after_of mark.now bytes.now) }
{
    bytes.strip_prefix(mark)
}

/// The bytes after a mark, if it stands at the front behind blanks.
#[tactic(auto, unfolding(crate::specs::Notation::behind))]
pub fn behind<'a>(mark: &[u8], bytes: &'a [u8]) -> Option<&'a [u8]>
    ensures { Gives (λ (rest : Bor _). rest.now) result (behind_of mark.now bytes.now) }
{
    after(mark, after_blanks(bytes))
}

/// The value of a digit, or 255 for what is no digit.
#[tactic(auto, unfolding(crate::specs::Notation::digit_value))]
fn digit_value(byte: u8) -> u8
    ensures value { result ≡ digit_value_of byte }
{
    match byte {
        b'0'..=b'9' => byte - b'0',
        b'a'..=b'f' => byte - b'a' + 10,
        b'A'..=b'F' => byte - b'A' + 10,
        _ => 255,
    }
}

/// The number with one more digit at its end.
#[tactic(auto, unfolding(crate::specs::Notation::with_digit))]
fn with_digit(base: u8, number: Number, digit: u8) -> Number
    ensures { result ≡ with_digit_of base number digit }
{
    number?
        .checked_mul(u64::from(base))?
        .checked_add(u64::from(digit))
}

/// The number whose first digits are those of `front` and whose others stand at the front of `bytes`, and the bytes after it.
#[tactic(auto, unfolding(crate::specs::Notation::digits_read))]
fn with_digits(base: u8, front: Number, bytes: &[u8]) -> (Number, &[u8])
    ensures { (result.0, result.1.now) ≡ digits_read base front bytes.now }
{
    let mut number = front;
    let mut rest = bytes;
    while let [byte, more @ ..] = rest {
        let digit = digit_value(*byte);
        if digit >= base {
            return (number, rest);
        }
        number = with_digit(base, number, digit);
        rest = more;
    }
    (number, rest)
}

/// The number in a base at the front of `bytes`, and the bytes after it.
#[tactic(auto, unfolding(crate::specs::Notation::based_read))]
fn based(base: u8, bytes: &[u8]) -> Option<(Number, &[u8])>
    ensures { Gives (λ x. (x.0, x.1.now)) result (based_read base bytes.now) }
{
    match bytes {
        [byte, rest @ ..] => {
            let digit = digit_value(*byte);
            if digit >= base {
                return None;
            }
            Some(with_digits(base, Some(u64::from(digit)), rest))
        }
        [] => None,
    }
}

/// The number at the front behind blanks, hexadecimal behind `0x` and else decimal, and the bytes after it.
#[tactic(auto, unfolding(crate::specs::Notation::number_read))]
pub fn number(bytes: &[u8]) -> Option<(Number, &[u8])>
    ensures { Gives (λ x. (x.0, x.1.now)) result (number_read bytes.now) }
{
    match behind(b"0x", bytes) {
        Some(digits) => based(16, digits),
        None => based(10, after_blanks(bytes)),
    }
}
