//! An option with its value, in front of words.

ghost use Rattle.std.specs.Prelude.{◌≡◌, ◌↔◌, ℕ, Some, map};
ghost use Rattle.sci_options.specs.Options.{Begins, IsJoined, IsParted, argument_of};
ghost use Rattle.sci_options.specs.declared.setting.Setting.{Setting};

use crate::argument::{Argument, Value};
use crate::option_name::OptionName;

/// An option that a command takes.
#[derive(Clone, Copy)]
pub struct OptionRow {
    /// Which option it is.
    pub name: OptionName,
    /// What stands behind it.
    pub argument: Argument,
}

/// An option that is given, with its value.
#[derive(Clone, Copy)]
pub struct Setting {
    /// Which option it is.
    pub name: OptionName,
    /// What it says.
    pub value: Value,
}

/// What stands behind an option of a table. None if the table doesn't have it.
pub(crate) fn argument_of(options: &[OptionRow], name: OptionName) -> Option<Argument>
    ensures { result ≡ argument_of options.now name }
{
    for row in options {
        if row.name == name {
            return Some(row.argument);
        }
    }
    None
}

/// The setting that a word and the words behind it begin with, and how many of those it takes. None if they begin with none
/// of the table.
fn parted(options: &[OptionRow], word: &str, more: &[&str]) -> Option<(Setting, usize)>
    ensures { (setting : Setting) (count : ℕ) → (result ≡ Some (setting, count)) ↔
        IsParted options.now word.now (map (λ word. word.now) more.now) setting count }
{
    let name = OptionName::of(word)?;
    let argument = argument_of(options, name)?;
    let (value, count) = argument.in_front(more)?;
    Some((Setting { name, value }, count))
}

/// The setting that the two sides of a `=` say. None if they say none of the table.
fn joined(options: &[OptionRow], word: &str, text: &str) -> Option<Setting>
    ensures { (setting : Setting) → (result ≡ Some setting) ↔
        IsJoined options.now word.now text.now setting }
{
    let name = OptionName::of(word)?;
    let argument = argument_of(options, name)?;
    let value = argument.said_by(text)?;
    Some(Setting { name, value })
}

/// The setting that a word and the words behind it begin with, as `--line 5` or `--line=5`, and how many words behind it
/// belong to it. None if they begin with none of the table.
pub(crate) fn setting_in_front(
    options: &[OptionRow],
    word: &str,
    more: &[&str],
) -> Option<(Setting, usize)>
    ensures { (setting : Setting) (count : ℕ) → (result ≡ Some (setting, count)) ↔
        Begins options.now word.now (map (λ word. word.now) more.now) setting count }
{
    match word.split_once('=') {
        Some((name, text)) => {
            let setting = joined(options, name, text)?;
            Some((setting, 0))
        }
        None => parted(options, word, more),
    }
}
