//! The whole text of a trace.

ghost use Rattle.std.specs.Prelude.{◌≡◌, ◌++◌, ◌∷◌, [], ℕ, true, IfOk, IfErr, OnOk, Some};
ghost use Rattle.std.specs.{BTreeMap.{get}, Ordering.{nat_cmp}};
ghost use Rattle.sci_text.specs.FirstFault.{IsRefusal};
ghost use Rattle.sci_judge.specs.Access.{AreKnown};
ghost use Rattle.sci_axe.specs.Line.{line_read};
ghost use denote.Ref.{Bor};
ghost use Rattle.sci_axe.specs.declared.line.Said.TheVariants.{Ended};
ghost use Rattle.sci_axe.specs.Trace.{AddsLine, IsKnown, IsLineRefusal, IsTrace, IsTraceFault, LastWords, IsWrong, is_free_for, known_in, learnt};
ghost use Rattle.sci_axe.specs.Trace.{line_split};

use crate::line::{LastWord, Said, line};
use sci_judge::{Access, Trace};
use sci_text::{TextFault, TextFaultKind};
use sci_words::Word;
use std::alloc::{AllocError, Global};
use std::collections::BTreeMap;

/// The first line, without its line feed, and the bytes after it.
#[tactic(auto, unfolding(crate::specs::Trace::line_split))]
fn first_line(bytes: &[u8]) -> (&[u8], &[u8])
    ensures { (result.0.now, result.1.now) ≡ line_split bytes.now }
{
    for place in 0..bytes.len() {
        if bytes[place] == b'\n' {
            return (&bytes[..place], &bytes[place + 1..]);
        }
    }
    (bytes, &[])
}

/// What a line says, or what is wrong with it.
fn said(number: usize, bytes: &[u8]) -> Result<Said, TextFaultKind>
    ensures ok { IfOk result (λ said. line_read number bytes.now ≡ Some (Some said)) }
    ensures known { IfOk result IsKnown }
    ensures fault { IfErr result (λ kind. (known : LastWords) → IsWrong known number bytes.now kind) }
{
    match line(number, bytes) {
        None => Err(TextFaultKind::Syntax),
        Some(None) => Err(TextFaultKind::Range),
        Some(Some(said)) => Ok(said),
    }
}

/// Ends the operations with one. Refused if memory is.
fn push(accesses: &mut Vec<Access>, access: Access) -> Result<(), AllocError>
    ensures { OnOk result (accesses.new.items ≡ accesses.old.items ++ access ∷ []) }
{
    accesses.push(access)?;
    Ok(())
}

/// Adds the last word at an address, and answers whether no other one was known. Refused if memory is.
fn learn(words: &mut BTreeMap<u64, Word>, last: LastWord) -> Result<bool, AllocError>
    ensures learnt { OnOk result ((address : ℕ) → get nat_cmp words.new address
        ≡ learnt (λ at. get nat_cmp words.old at) (Ended last) address) }
    ensures free { IfOk result (λ free. free
        ≡ is_free_for (get nat_cmp words.old last.address) last.word) }
{
    match words.insert(last.address, last.word)? {
        None => Ok(true),
        Some(known) => Ok(known == last.word),
    }
}

/// Adds what the first line says, and answers the bytes after it.
fn add_line<'a>(trace: &mut Trace, number: usize, bytes: &'a [u8]) -> Result<&'a [u8], TextFault>
    ensures ok { IfOk result (λ (rest : Bor _).
        AddsLine number bytes.now rest.now trace.old trace.new) }
    ensures fault { IfErr result (IsLineRefusal (known_in trace.old) number bytes.now) }
{
    let (front, rest) = first_line(bytes);
    match said(number, front) {
        Err(kind) => Err(TextFault { line: number, kind }),
        Ok(Said::Nothing) => Ok(rest),
        Ok(Said::Did(access)) => {
            push(&mut trace.accesses, access)?;
            Ok(rest)
        }
        Ok(Said::Ended(last)) => {
            if learn(&mut trace.last, last)? {
                return Ok(rest);
            }
            Err(TextFault {
                line: number,
                kind: TextFaultKind::Range,
            })
        }
    }
}

/// The trace whose text the bytes are. A refusal names the first line that is wrong, or has line 0 if memory was refused.
pub fn trace_of(alloc: Global, input: &[u8]) -> Result<Trace, TextFault>
    ensures ok { IfOk result (λ trace. IsTrace input.now trace) }
    ensures known { IfOk result (λ trace. AreKnown trace.accesses.items) }
    ensures fault { IfErr result (IsRefusal IsTraceFault input.now) }
{
    let mut trace = Trace {
        accesses: Vec::new(alloc),
        last: BTreeMap::new(alloc),
    };
    let mut rest = input;
    let mut number = 1;
    while !rest.is_empty() {
        rest = add_line(&mut trace, number, rest)?;
        number += 1;
    }
    Ok(trace)
}
