//! What all words of a command line give.

ghost use Rattle.std.specs.Prelude.{◌≡◌, false, map};
ghost use Rattle.sci_options.specs.{Options.{begins_option, is_given, number_in, place_in, two_in, value_of}, Given.{IsReading, Takes, lacks_memory}};

use crate::argument::{Argument, Value};
use crate::option_name::OptionName;
use crate::setting::{OptionRow, Setting, argument_of, setting_in_front};
use std::alloc::Global;

/// What words give.
#[derive(Drop)]
pub struct Given<'a> {
    /// The options with their values, as they come.
    pub settings: Vec<Setting>,
    /// The words that stand alone, as they come.
    pub alone: Vec<&'a str>,
}

/// Why words give nothing: the first word that is wrong.
#[derive(Clone, Copy, Drop)]
pub enum Wrong<'a> {
    /// It names no option that the command takes.
    NoOption(&'a str),
    /// It names an option, and what stands behind it isn't what it takes.
    NoValue(OptionName, Argument),
    /// It names an option that was given before.
    Again(OptionName),
    /// No word is wrong, but there is no memory for what they give.
    Memory,
}

/// The value of an option among settings. None if it isn't given.
fn value_of(settings: &[Setting], name: OptionName) -> Option<Value>
    ensures { result ≡ value_of name settings.now }
{
    for setting in settings {
        if setting.name == name {
            return Some(setting.value);
        }
    }
    None
}

impl Given<'_> {
    /// Whether an option is given.
    pub fn has(&self, name: OptionName) -> bool
        ensures { result ≡ is_given name self.now.settings.items }
    {
        self.settings.iter().any(|setting| setting.name == name)
    }

    /// The place that an option says. None if it isn't given, or says none.
    pub fn place(&self, name: OptionName) -> Option<u8>
        ensures { result ≡ place_in (value_of name self.now.settings.items) }
    {
        match value_of(&self.settings, name)? {
            Value::Place(place) => Some(place),
            _ => None,
        }
    }

    /// The number that an option says. None if it isn't given, or says none.
    pub fn number(&self, name: OptionName) -> Option<u64>
        ensures { result ≡ number_in (value_of name self.now.settings.items) }
    {
        match value_of(&self.settings, name)? {
            Value::Number(number) => Some(number),
            _ => None,
        }
    }

    /// The two numbers that an option says. None if it isn't given, or says none.
    pub fn two_numbers(&self, name: OptionName) -> Option<(u64, u64)>
        ensures { result ≡ two_in (value_of name self.now.settings.items) }
    {
        match value_of(&self.settings, name)? {
            Value::TwoNumbers { first, last } => Some((first, last)),
            _ => None,
        }
    }
}

/// Whether a word begins an option: a minus, with something behind it.
fn begins_option(word: &str) -> bool
    ensures { result ≡ begins_option word.now }
{
    match word.as_bytes() {
        [first, _, ..] => *first == b'-',
        _ => false,
    }
}

/// Why a word begins no option of a table with a value.
fn wrong_at<'a>(options: &[OptionRow], word: &'a str) -> Wrong<'a>
    ensures { lacks_memory result ≡ false }
{
    let word_alone = match word.split_once('=') {
        Some((front, _)) => front,
        None => word,
    };
    let Some(name) = OptionName::of(word_alone) else {
        return Wrong::NoOption(word);
    };
    match argument_of(options, name) {
        Some(argument) => Wrong::NoValue(name, argument),
        None => Wrong::NoOption(word),
    }
}

impl<'a> Given<'a> {
    /// Adds what the words in front give, by a table of options, and returns how many words that are.
    fn take(&mut self, options: &[OptionRow], words: &[&'a str]) -> Result<usize, Wrong<'a>>
        ensures { Takes options.now self.old self.new (map (λ word. word.now) words.now) result }
    {
        let Some((word, more)) = words.split_first() else {
            return Ok(0);
        };
        if !begins_option(word) {
            return match self.alone.push(*word) {
                Ok(()) => Ok(1),
                Err(_) => Err(Wrong::Memory),
            };
        }
        let Some((setting, count)) = setting_in_front(options, word, more) else {
            return Err(wrong_at(options, word));
        };
        if self.has(setting.name) {
            return Err(Wrong::Again(setting.name));
        }
        match self.settings.push(setting) {
            Ok(()) => Ok(1 + count),
            Err(_) => Err(Wrong::Memory),
        }
    }
}

/// What words give, by a table of options, or else the first word that is wrong.
pub fn read_words<'a>(
    alloc: Global,
    options: &[OptionRow],
    words: &[&'a str],
) -> Result<Given<'a>, Wrong<'a>>
    ensures { IsReading options.now (map (λ word. word.now) words.now) result }
{
    let mut given = Given {
        settings: Vec::new(alloc),
        alone: Vec::new(alloc),
    };
    let mut at = 0;
    while at < words.len() {
        match given.take(options, &words[at..]) {
            Ok(count) => at += count,
            Err(wrong) => return Err(wrong),
        }
    }
    Ok(given)
}
