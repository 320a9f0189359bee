//! Traces.

ghost use Rattle.std.specs.Prelude.{◌≡◌, All, IfOk, IfSome, None, false, map, true};
ghost use Rattle.std.specs.{BTreeMap.{get}, Ordering.{nat_cmp}};
ghost use Rattle.sci_judge.specs.Access.{AreKnown};
ghost use Rattle.sci_c_traces.specs.Trace.{AreAtOdds, AreLastWords, IsAccess, IsLearnt, IsOther, SayNoTrace, SaysTrace, access_of};

use crate::access::SciAccess;
use sci_judge::{Access, Trace};
use sci_words::Word;
use std::alloc::{AllocError, Global};
use std::collections::BTreeMap;

/// The last word at an address.
#[repr(C)]
#[derive(Clone, Copy)]
pub struct SciLastWord {
    pub address: u64,
    pub word: u64,
}

/// The operations that structs say, or None if one says none. Refused if memory is.
fn accesses_in(alloc: Global, structs: &[SciAccess]) -> Result<Option<Vec<Access>>, AllocError>
    ensures some { IfOk result (λ made. IfSome made (λ accesses. accesses.items ≡ map access_of structs.now)) }
    ensures each { IfOk result (λ made. IfSome made (λ accesses. All IsAccess structs.now)) }
    ensures none { IfOk result (λ made. made ≡ None → All IsAccess structs.now → ⊥) }
{
    if !structs.iter().all(|access| access.is_access()) {
        return Ok(None);
    }
    let accesses = structs.iter().map(|access| access.access()).collect(alloc)?;
    Ok(Some(accesses))
}

/// Adds the last word at an address, and answers whether no other one was known. Refused if memory is.
fn learn(words: &mut BTreeMap<u64, Word>, last: &SciLastWord) -> Result<bool, AllocError>
    ensures free { IfOk result (λ free. free ≡ true →
        IsLearnt last.now (λ at. get nat_cmp words.old at) (λ at. get nat_cmp words.new at)) }
    ensures odd { IfOk result (λ free. free ≡ false → IsOther last.now (λ at. get nat_cmp words.old at)) }
{
    match words.insert(last.address, last.word)? {
        None => Ok(true),
        Some(known) => Ok(known == last.word),
    }
}

/// The last words that structs say, or None if they say two at one address. Refused if memory is.
fn last_words(
    alloc: Global,
    structs: &[SciLastWord],
) -> Result<Option<BTreeMap<u64, Word>>, AllocError>
    ensures some { IfOk result (λ made. IfSome made (λ words. AreLastWords structs.now (λ at. get nat_cmp words at))) }
    ensures none { IfOk result (λ made. made ≡ None → AreAtOdds structs.now) }
{
    let mut words = BTreeMap::new(alloc);
    for last in structs {
        if !learn(&mut words, last)? {
            return Ok(None);
        }
    }
    Ok(Some(words))
}

/// The trace that structs say, or None if they say none. Refused if memory is.
#[tactic(auto, using(crate::proofs::LastWords::all_known))]
pub(crate) fn trace_in(
    alloc: Global,
    accesses: &[SciAccess],
    last: &[SciLastWord],
) -> Result<Option<Trace>, AllocError>
    ensures some { IfOk result (λ made. IfSome made (SaysTrace accesses.now last.now)) }
    ensures known { IfOk result (λ made. IfSome made (λ trace. AreKnown trace.accesses.items)) }
    ensures none { IfOk result (λ made. made ≡ None → SayNoTrace accesses.now last.now) }
{
    let Some(operations) = accesses_in(alloc, accesses)? else {
        return Ok(None);
    };
    let Some(words) = last_words(alloc, last)? else {
        return Ok(None);
    };
    Ok(Some(Trace {
        accesses: operations,
        last: words,
    }))
}
