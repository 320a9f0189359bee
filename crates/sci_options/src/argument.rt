//! What stands behind an option.

ghost use Rattle.std.specs.Prelude.{◌≡◌, ◌↔◌, ◌<◌, ◌≤◌, ◌^◌, ℕ, Some, map};
ghost use Rattle.sci_text.specs.Number.{number};
ghost use Rattle.sci_options.specs.Options.{Follows, FollowsInOne, FollowsInTwo, Says};
ghost use Rattle.sci_options.specs.declared.argument.Value.{Value};

use sci_text::whole_number;

/// The words that stand behind an option.
#[derive(Clone, Copy)]
pub enum Argument {
    /// No word.
    Nothing,
    /// A number below `count`, of one of `count` things.
    Place { count: u8 },
    /// A number from `least` to `greatest`.
    Number { least: u64, greatest: u64 },
    /// Two numbers below 2^64, the first not above the last.
    TwoNumbers,
}

/// What such words say.
#[derive(Clone, Copy)]
pub enum Value {
    /// Nothing but that the option is given.
    Nothing,
    /// The number of one of `count` things.
    Place(u8),
    /// A number.
    Number(u64),
    /// Two numbers.
    TwoNumbers { first: u64, last: u64 },
}

/// The number below a count that a word says. None if it says none.
fn place_said(word: &str, count: u8) -> Option<u8>
    ensures { (n : ℕ) → (result ≡ Some n) ↔ ((word.now ≡ number n) × (n < count)) }
{
    let place = whole_number(word.as_bytes())?;
    if place >= u64::from(count) {
        return None;
    }
    Some(place as u8)
}

/// The number within limits that a word says. None if it says none.
fn number_said(word: &str, least: u64, greatest: u64) -> Option<u64>
    ensures { (n : ℕ) → (result ≡ Some n) ↔
        ((word.now ≡ number n) × (least ≤ n) × (n ≤ greatest)) }
{
    let number = whole_number(word.as_bytes())?;
    if number < least || number > greatest {
        return None;
    }
    Some(number)
}

/// Two numbers that two words say, the first not above the last. None if they say none.
fn two_said(first: &str, last: &str) -> Option<(u64, u64)>
    ensures { (m : ℕ) (n : ℕ) → (result ≡ Some (m, n)) ↔
        ((first.now ≡ number m) × (last.now ≡ number n) × (m ≤ n) × (n < 2 ^ 64)) }
{
    let first = whole_number(first.as_bytes())?;
    let last = whole_number(last.as_bytes())?;
    if first > last {
        return None;
    }
    Some((first, last))
}

impl Argument {
    /// What one word says, if the argument is one word. None if it isn't, or the word doesn't say one.
    pub fn said_by(self, word: &str) -> Option<Value>
        ensures { (value : Value) → (result ≡ Some value) ↔ Says self value word.now }
    {
        match self {
            Argument::Nothing | Argument::TwoNumbers => None,
            Argument::Place { count } => {
                let place = place_said(word, count)?;
                Some(Value::Place(place))
            }
            Argument::Number { least, greatest } => {
                let number = number_said(word, least, greatest)?;
                Some(Value::Number(number))
            }
        }
    }

    /// What the first word says, which is one word. None if there is none, or it doesn't say a value for the argument.
    fn in_first(self, words: &[&str]) -> Option<(Value, usize)>
        ensures { (value : Value) (count : ℕ) → (result ≡ Some (value, count)) ↔
            FollowsInOne self value (map (λ word. word.now) words.now) count }
    {
        let (word, _rest) = words.split_first()?;
        let value = self.said_by(word)?;
        Some((value, 1))
    }

    /// What the words in front say, and how many words that are. None if they don't say a value for the argument.
    pub fn in_front(self, words: &[&str]) -> Option<(Value, usize)>
        ensures { (value : Value) (count : ℕ) → (result ≡ Some (value, count)) ↔
            Follows self value (map (λ word. word.now) words.now) count }
    {
        match self {
            Argument::Nothing => Some((Value::Nothing, 0)),
            Argument::TwoNumbers => two_in_front(words),
            Argument::Place { .. } => self.in_first(words),
            Argument::Number { .. } => self.in_first(words),
        }
    }
}

/// What the first two words say. None if they don't say two numbers, the first not above the last.
fn two_in_front(words: &[&str]) -> Option<(Value, usize)>
    ensures { (value : Value) (count : ℕ) → (result ≡ Some (value, count)) ↔
        FollowsInTwo value (map (λ word. word.now) words.now) count }
{
    let (first, more) = words.split_first()?;
    let (last, _rest) = more.split_first()?;
    let (first, last) = two_said(first, last)?;
    Some((Value::TwoNumbers { first, last }, 2))
}
