//! Numbers in decimal digits.

ghost use Rattle.std.specs.Prelude.{◌≡◌, ◌↔◌, ◌≤◌, ◌<◌, ◌^◌, ℕ, Some};
ghost use Rattle.sci_text.specs.{Number.{number}, Reading.{Gives, with_digit, digits_read, number_read, field_read}};

/// A number of a text, or None if it is 2^64 or more.
pub type Number = Option<u64>;

/// The lowest number of 19 digits. Each below it has room for a digit more in 64 bits.
const LONG: u64 = 1_000_000_000_000_000_000;

/// The number with one more digit at its end.
#[tactic(auto, unfolding(crate::specs::Reading::with_digit))]
fn with_digit(number: Number, digit: u8) -> Number
    requires { 48 ≤ digit }
    ensures { result ≡ with_digit number digit }
{
    number?
        .checked_mul(10)?
        .checked_add(u64::from(digit - b'0'))
}

/// The number whose first digits are those of `front` and whose others stand at the front of `bytes`, and
/// the bytes after it.
#[tactic(auto, unfolding(crate::specs::Reading::digits_read))]
fn with_digits(front: Number, bytes: &[u8]) -> (Number, &[u8])
    ensures { (result.0, result.1.now) ≡ digits_read front bytes.now }
{
    let mut number = front;
    let mut rest = bytes;
    while let [digit @ b'0'..=b'9', more @ ..] = rest {
        number = with_digit(number, *digit);
        rest = more;
    }
    (number, rest)
}

/// As `with_digits`, for first digits that are a number of 64 bits. Only a long number is tested digit by digit for
/// whether it still is one.
#[tactic(auto, unfolding(crate::specs::Reading::digits_read, crate::specs::Reading::with_digit))]
fn with_more_digits(front: u64, bytes: &[u8]) -> (Number, &[u8])
    ensures { (result.0, result.1.now) ≡ digits_read (Some front) bytes.now }
{
    let mut number = front;
    let mut rest = bytes;
    while let [digit @ b'0'..=b'9', more @ ..] = rest {
        if number >= LONG {
            return with_digits(Some(number), rest);
        }
        number = number * 10 + u64::from(*digit - b'0');
        rest = more;
    }
    (Some(number), rest)
}

/// The number at the front of `bytes`, and the bytes after it. It has no leading zero, and any number of
/// digits.
#[tactic(auto, unfolding(crate::specs::Reading::number_read))]
pub fn number(bytes: &[u8]) -> Option<(Number, &[u8])>
    ensures { Gives (λ x. (x.0, x.1.now)) result (number_read bytes.now) }
{
    match bytes {
        [b'0', rest @ ..] => Some((Some(0), rest)),
        [digit @ b'1'..=b'9', rest @ ..] => Some(with_more_digits(u64::from(*digit - b'0'), rest)),
        _ => None,
    }
}

/// The number that these bytes are, all of them. None if they are no number, or one of 2^64 or more.
pub fn whole_number(bytes: &[u8]) -> Option<u64>
    ensures { (n : ℕ) → (result ≡ Some n) ↔ ((bytes.now ≡ number n) × (n < 2 ^ 64)) }
{
    let (value, rest) = number(bytes)?;
    if rest.is_empty() { value } else { None }
}

/// The number behind one space at the front of `bytes`, and the bytes after it.
#[tactic(auto, unfolding(crate::specs::Reading::field_read))]
pub fn field(bytes: &[u8]) -> Option<(Number, &[u8])>
    ensures { Gives (λ x. (x.0, x.1.now)) result (field_read bytes.now) }
{
    match bytes {
        [b' ', rest @ ..] => number(rest),
        _ => None,
    }
}
