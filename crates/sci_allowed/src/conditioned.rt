//! A script whose text may end in a condition.

ghost use Rattle.std.specs.Prelude.{ℕ, List, ◌≡◌, ◌≢◌, ◌<◌, ◌≤◌, ◌+◌, Some, false, length, IfErr, IfOk, IfSome, IfNone, OnOk};
ghost use Rattle.sci_text.specs.{FirstFault.{AreRead, IsRefusal, IsTold}, Tap.{has_failed, is_called_again, tapped}};
ghost use Rattle.sci_allowed.specs.Allowed.{IsLitmus};
ghost use Rattle.sci_allowed.specs.Conditioned.{IsConditioned, IsConditionedFault, IsFrontLength, IsLastLineAt, IsLineRefusal, IsQuantified, IsSaidAs};

use crate::condition::FinalCondition;
use crate::condition_refusal::refusal_of;
use crate::condition_text::{ConditionReader, Unread, quantifier_in_front, syntax};
use crate::litmus::Litmus;
use sci_command::{Refusal, TextKind};
use sci_text::{Tap, read_input, script_of};
use sci_words::MAX_TEXT_LINE_BYTES;
use std::alloc::{AllocError, Global};
use std::io::Read;

/// Where the last line of a text begins.
fn last_line(input: &[u8]) -> usize
    ensures { IsLastLineAt input.now result }
{
    let mut at = input.len().saturating_sub(1);
    while at > 0 && input[at - 1] != b'\n' {
        at -= 1;
    }
    at
}

/// How many bytes stand in front of the line of a condition: all if there is no such line.
fn front_length(input: &[u8]) -> usize
    ensures { IsFrontLength input.now result }
{
    let at = last_line(input);
    match quantifier_in_front(&input[at..]) {
        Some(_) => at,
        None => input.len(),
    }
}

/// The condition that a line says. Refused if memory is, or if the line has a fault, first if it has a fault of its form.
fn condition_on(alloc: Global, litmus: &Litmus, line: &[u8]) -> Result<FinalCondition, Unread>
    requires { IsLitmus litmus.now }
    ensures { IfOk result (λ said. IsSaidAs litmus.now.script (Some said) line.now) }
{
    let [words @ .., b'\n'] = line else {
        return Err(syntax(&[], "a line feed"));
    };
    if words.len() > MAX_TEXT_LINE_BYTES {
        return Err(syntax(&[], "at most 256 bytes"));
    }
    let judging = ConditionReader {
        alloc,
        litmus,
        judges: true,
    };
    match judging.final_condition(words) {
        Err(Unread::Fault(fault)) if fault.is_range => {
            let lenient = ConditionReader {
                alloc,
                litmus,
                judges: false,
            };
            match lenient.final_condition(words) {
                Ok(_) => Err(Unread::Fault(fault)),
                Err(first) => Err(first),
            }
        }
        read => read,
    }
}

/// The condition that the last line of an input says. A refusal names the line, or has line 0 if memory was refused.
fn condition_of(
    alloc: Global,
    litmus: &Litmus,
    input: &[u8],
    line: &[u8],
) -> Result<FinalCondition, Refusal>
    requires { IsLitmus litmus.now }
    ensures said { IfOk result (λ said. IsSaidAs litmus.now.script (Some said) line.now) }
    ensures fault { IfErr result (λ refusal. IsLineRefusal litmus.now.script refusal.fault) }
{
    match condition_on(alloc, litmus, line) {
        Ok(said) => Ok(said),
        Err(Unread::Memory) => Err(Refusal::from(AllocError)),
        Err(Unread::Fault(fault)) => {
            let number = litmus.script.operations().len() + 2;
            Err(refusal_of(alloc, input, line, number, fault))
        }
    }
}

/// A script that is looked at, and what is said of all its outcomes at the end of its text.
pub type Conditioned = (Litmus, Option<FinalCondition>);

/// The script and the condition whose text the bytes are. A refusal names the first line with a fault, or has line 0 if memory
/// was refused.
fn conditioned_of(alloc: Global, input: &[u8]) -> Result<Conditioned, Refusal>
    ensures ok { IfOk result (λ x. IsConditioned x.0.script x.1 input.now) }
    ensures litmus { IfOk result (λ x. IsLitmus x.0) }
    ensures fault { IfErr result (λ refusal. IsRefusal IsConditionedFault input.now refusal.fault) }
{
    let (front, line) = input.split_at(front_length(input));
    let script = match script_of(alloc, front) {
        Ok(script) => script,
        Err(fault) => {
            return Err(Refusal::of_text(alloc, TextKind::Script.known(), input, fault));
        }
    };
    let litmus = Litmus::of(alloc, script)?;
    if line.is_empty() {
        return Ok((litmus, None));
    }
    let said = condition_of(alloc, &litmus, input, line)?;
    Ok((litmus, Some(said)))
}

/// The script that the reader gives, read to its end, and the condition at the end of its text, if there is one. A text with a
/// fault is refused, as are a reader that fails, too long an input and running out of memory, at line 0.
pub fn read_conditioned<R: Read>(alloc: Global, reader: &mut Tap<R>) -> Result<Conditioned, Refusal>
    requires { has_failed reader.old ≡ false }
    ensures text { IfOk result (λ x. (input : List ℕ)
        × AreRead (R.remaining (tapped reader.old)) input × IsConditioned x.0.script x.1 input) }
    ensures litmus { IfOk result (λ x. IsLitmus x.0) }
    ensures unfailed { OnOk result (has_failed reader.new ≡ false) }
    ensures fault { IfErr result (λ refusal. IsTold IsConditionedFault refusal.fault.kind
        (R.remaining (tapped reader.old)) (has_failed reader.new) refusal.fault.line) }
    ensures again { is_called_again reader.new ≡ is_called_again reader.old }
{
    let input = read_input(alloc, reader)?;
    conditioned_of(alloc, &input)
}
