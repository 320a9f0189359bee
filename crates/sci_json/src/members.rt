//! The members of JSON objects.

ghost use Rattle.std.specs.Prelude.{◌≡◌, ◌++◌, ◌∷◌, [], IfOk, OnOk};
ghost use Rattle.json.specs.Print.{print};
ghost use Rattle.sci_json.specs.Members.{Adds, flag_member, null_member, number_member, optional_member, text_member, truth_member, word_member};
ghost use Rattle.sci_json.specs.Members.{words_member};

use json::Writer;
use sci_words::{Line, Word};
use std::alloc::AllocError;

/// Writes a member that is a number.
#[tactic(auto, unfolding(crate::specs::Members::number_member))]
pub fn write_number(out: &mut Writer, name: &str, n: u64) -> Result<(), AllocError>
    ensures { OnOk result (Adds out.old out.new (number_member name.now n)) }
{
    out.key(name)?;
    out.u64(n)
}

/// Writes a member that is a word of memory or an operand, as a string: readers that hold numbers as doubles would round
/// it.
#[tactic(auto, unfolding(crate::specs::Members::word_member))]
pub fn write_word(out: &mut Writer, name: &str, word: Word) -> Result<(), AllocError>
    ensures { OnOk result (Adds out.old out.new (word_member name.now word)) }
{
    out.key(name)?;
    out.quoted_u64(word)
}

/// Writes a member that is a text.
#[tactic(auto, unfolding(crate::specs::Members::text_member))]
pub fn write_text(out: &mut Writer, name: &str, text: &str) -> Result<(), AllocError>
    ensures { OnOk result (Adds out.old out.new (text_member name.now text.now)) }
{
    out.key(name)?;
    out.string(text)
}

/// Writes a member that is true or false.
#[tactic(auto, unfolding(crate::specs::Members::truth_member))]
pub fn write_truth(out: &mut Writer, name: &str, truth: bool) -> Result<(), AllocError>
    ensures { OnOk result (Adds out.old out.new (truth_member name.now truth)) }
{
    out.key(name)?;
    out.boolean(truth)
}

/// Writes a member that is null.
#[tactic(auto, unfolding(crate::specs::Members::null_member))]
pub fn write_null(out: &mut Writer, name: &str) -> Result<(), AllocError>
    ensures { OnOk result (Adds out.old out.new (null_member name.now)) }
{
    out.key(name)?;
    out.null()
}

/// Writes a member that is true, or none.
#[tactic(auto, unfolding(crate::specs::Members::flag_member))]
pub fn write_flag(out: &mut Writer, name: &str, flag: bool) -> Result<(), AllocError>
    ensures { OnOk result (Adds out.old out.new (flag_member name.now flag)) }
{
    if flag {
        write_truth(out, name, true)
    } else {
        Ok(())
    }
}

/// Writes a member that is the words of a line, each a string.
#[tactic(auto, unfolding(crate::specs::Members::words_member, crate::specs::Members::array_member))]
pub fn write_words(out: &mut Writer, name: &str, line: &Line) -> Result<(), AllocError>
    ensures { OnOk result (Adds out.old out.new (words_member name.now line.now)) }
{
    out.key(name)?;
    out.begin_array()?;
    for word in line.words() {
        out.quoted_u64(*word)?;
    }
    out.end_array()
}

/// The text that was written, and a line feed behind it. Refused if memory is.
pub fn into_line(writer: Writer) -> Result<Vec<u8>, AllocError>
    ensures { IfOk result (λ text. text.items ≡ writer.before ++ (print writer.tokens ++ 10 ∷ [])) }
{
    let mut text = writer.into_inner();
    text.push(b'\n')?;
    Ok(text)
}
