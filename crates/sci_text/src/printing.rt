//! Texts, appended to a buffer piece by piece.

ghost use Rattle.std.specs.Prelude.{◌≡◌, ◌+◌, ◌≤◌, ◌++◌, length, OnErr, OnOk};
ghost use Rattle.sci_words.specs.declared.limits.TheConstants.{MAX_TEXT_LINE_BYTES};
ghost use Rattle.sci_text.specs.Number.{number as number_text, field as field_text};
ghost use Rattle.sci_text.specs.Operation.{act_operands, act_word as word_of, lock_operands, lock_word as lock_word_of, operation as operation_text};

use crate::line_end::LineEnd;
use itoa::Buffer;
use sci_words::{Act, LockOp, Op};
use std::alloc::AllocError;

/// Appends a word of the grammar.
pub fn push_text(out: &mut Vec<u8>, text: &str) -> Result<(), AllocError>
    ensures text { OnOk result (out.new.items ≡ out.old.items ++ text.now) }
    ensures same { OnErr result (out.new.items ≡ out.old.items) }
{
    out.extend_from_slice(text.as_bytes())
}

/// Appends a number in decimal digits.
#[tactic(auto, using(crate::proofs::Digits::number_decimal))]
pub fn push_number(out: &mut Vec<u8>, n: u64) -> Result<(), AllocError>
    ensures text { OnOk result (out.new.items ≡ out.old.items ++ number_text n) }
    ensures same { OnErr result (out.new.items ≡ out.old.items) }
{
    let mut digits = Buffer::new();
    out.extend_from_slice(digits.format(n).as_bytes())
}

/// Appends a space and a number.
#[tactic(auto, unfolding(crate::specs::Number::field))]
pub fn push_field(out: &mut Vec<u8>, n: u64) -> Result<(), AllocError>
    ensures text { OnOk result (out.new.items ≡ out.old.items ++ field_text n) }
    ensures same { OnErr result (out.new.items ≡ out.old.items) }
{
    let end = out.len();
    out.push(b' ')?;
    let pushed = push_number(out, n);
    if pushed.is_err() {
        out.truncate(end);
    }
    pushed
}

fn lock_word(lock: LockOp) -> &'static str
    ensures word { result.now ≡ lock_word_of lock }
    ensures short { length result.now ≤ 12 }
{
    match lock {
        LockOp::MaskSwap { .. } => "mask-swap",
        LockOp::CompareSwap { .. } => "compare-swap",
        LockOp::FetchAdd { .. } => "fetch-add",
        LockOp::BoundedAdd { .. } => "bounded-add",
        LockOp::WrapAdd { .. } => "wrap-add",
    }
}

/// The word that names what an operation does, as it stands in scripts and logs: `load`, `store`, `mask-swap` and so on.
pub fn act_word(act: Act) -> &'static str
    ensures word { result.now ≡ word_of act }
    ensures short { length result.now ≤ 12 }
{
    match act {
        Act::Load => "load",
        Act::Store(_) => "store",
        Act::Lock(lock) => lock_word(lock),
    }
}

fn put_lock_operands(line: &mut LineEnd, lock: LockOp)
    requires { 42 + length line.old ≤ MAX_TEXT_LINE_BYTES }
    ensures text { line.new ≡ lock_operands lock ++ line.old }
    ensures short { length line.new ≤ 42 + length line.old }
{
    match lock {
        LockOp::FetchAdd { datum } => line.put_field(datum),
        LockOp::MaskSwap { arg, datum }
        | LockOp::CompareSwap { arg, datum }
        | LockOp::BoundedAdd { arg, datum }
        | LockOp::WrapAdd { arg, datum } => {
            line.put_field(datum);
            line.put_field(arg);
        }
    }
}

fn put_operands(line: &mut LineEnd, act: Act)
    requires { 42 + length line.old ≤ MAX_TEXT_LINE_BYTES }
    ensures text { line.new ≡ act_operands act ++ line.old }
    ensures short { length line.new ≤ 42 + length line.old }
{
    match act {
        Act::Load => {}
        Act::Store(word) => line.put_field(word),
        Act::Lock(lock) => put_lock_operands(line, lock),
    }
}

#[tactic(auto, unfolding(crate::specs::Operation::operation))]
pub fn put_operation(line: &mut LineEnd, op: Op)
    requires { 96 + length line.old ≤ MAX_TEXT_LINE_BYTES }
    ensures text { line.new ≡ operation_text op ++ line.old }
    ensures short { length line.new ≤ 96 + length line.old }
{
    put_operands(line, op.act);
    line.put_field(u64::from(op.word));
    line.put_field(u64::from(op.line));
    line.put_text(act_word(op.act));
}
