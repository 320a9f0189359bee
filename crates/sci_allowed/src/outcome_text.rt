//! The text of an outcome.

ghost use Rattle.std.specs.{Prelude.{◌≡◌, ◌++◌, OnOk}, List.{flat_map}};
ghost use Rattle.sci_allowed.specs.OutcomeText.{held_text, outcome_text, replied_text, sense_text};

use crate::outcome::{FinalWord, Outcome, Replied};
use sci_text::{push_number, push_text};
use std::alloc::AllocError;

/// Appends what an operation replied.
#[tactic(auto, unfolding(crate::specs::OutcomeText::replied_text))]
fn push_replied(out: &mut Vec<u8>, replied: &Replied) -> Result<(), AllocError>
    ensures { OnOk result (out.new.items ≡ out.old.items ++ replied_text replied.now) }
{
    push_number(out, u64::from(replied.node))?;
    push_text(out, ":")?;
    push_number(out, u64::from(replied.serial))?;
    push_text(out, "=")?;
    push_number(out, replied.word)?;
    push_text(out, " ")
}

/// Appends what a word holds.
#[tactic(auto, unfolding(crate::specs::OutcomeText::held_text))]
fn push_held(out: &mut Vec<u8>, held: &FinalWord) -> Result<(), AllocError>
    ensures { OnOk result (out.new.items ≡ out.old.items ++ held_text held.now) }
{
    push_text(out, " ")?;
    push_number(out, u64::from(held.line))?;
    push_text(out, ".")?;
    push_number(out, u64::from(held.word))?;
    push_text(out, "=")?;
    push_number(out, held.value)
}

/// Appends what operations replied.
fn push_replies(out: &mut Vec<u8>, replies: &[Replied]) -> Result<(), AllocError>
    ensures { OnOk result (out.new.items ≡ out.old.items ++ flat_map replied_text replies.now) }
{
    for replied in replies {
        push_replied(out, replied)?;
    }
    Ok(())
}

/// Appends what words hold.
fn push_words(out: &mut Vec<u8>, words: &[FinalWord]) -> Result<(), AllocError>
    ensures { OnOk result (out.new.items ≡ out.old.items ++ flat_map held_text words.now) }
{
    for held in words {
        push_held(out, held)?;
    }
    Ok(())
}

/// Appends an outcome.
#[tactic(auto, unfolding(crate::specs::OutcomeText::outcome_text))]
pub fn push_outcome(out: &mut Vec<u8>, outcome: &Outcome) -> Result<(), AllocError>
    ensures { OnOk result (out.new.items ≡ out.old.items ++ outcome_text outcome.now) }
{
    push_replies(out, &outcome.replies)?;
    push_text(out, "|")?;
    push_words(out, &outcome.last)
}

/// The words that say whether an outcome is in program order.
#[tactic(auto, unfolding(crate::specs::OutcomeText::sense_text))]
pub fn sense_words(in_order: bool) -> &'static str
    ensures { result.now ≡ sense_text in_order }
{
    if in_order {
        " in program order\n"
    } else {
        " reordered\n"
    }
}
