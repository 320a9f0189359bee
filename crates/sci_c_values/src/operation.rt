//! Operations and events.

ghost use Rattle.std.specs.Prelude.{◌≡◌, MatchOption};
ghost use Rattle.sci_c_values.specs.{Operation.{SaysAct, SaysEvent, SaysOp, op_struct}, Saying.{SaysNone}};

use sci_words::{Act, AskKind, Event, LockOp, Op};

/// An operation. `act` is 0 for a load and 1 for a store of `datum`. The lock operations MaskSwap, CompareSwap, FetchAdd,
/// BoundedAdd and WrapAdd are 2 to 6. An operand that the act doesn't have is not looked at.
#[repr(C)]
#[derive(Clone, Copy)]
pub struct SciOp {
    pub act: u8,
    pub line: u8,
    pub word: u8,
    pub reserved: u8,
    pub arg: u64,
    pub datum: u64,
}

/// An event. `kind` is 0 to 6 for Issue, Perform, Ask, Serve, Refuse, Reply and Accept. A field that the kind doesn't have
/// is not looked at.
#[repr(C)]
#[derive(Clone, Copy)]
pub struct SciEvent {
    pub kind: u8,
    pub node: u8,
    pub from: u8,
    pub line: u8,
    pub ask: u8,
    pub op: SciOp,
}

/// The act that an operation says, or None if it says none.
fn act_in(op: &SciOp) -> Option<Act>
    ensures { MatchOption result (SaysNone (SaysAct op.now)) (SaysAct op.now) }
{
    let SciOp { arg, datum, .. } = *op;
    Some(match op.act {
        0 => Act::Load,
        1 => Act::Store(datum),
        2 => Act::Lock(LockOp::MaskSwap { arg, datum }),
        3 => Act::Lock(LockOp::CompareSwap { arg, datum }),
        4 => Act::Lock(LockOp::FetchAdd { datum }),
        5 => Act::Lock(LockOp::BoundedAdd { arg, datum }),
        6 => Act::Lock(LockOp::WrapAdd { arg, datum }),
        _ => return None,
    })
}

/// The operation that the struct says, or None if it says none.
pub fn op_in(op: &SciOp) -> Option<Op>
    ensures { MatchOption result (SaysNone (SaysOp op.now)) (SaysOp op.now) }
{
    Some(Op {
        act: act_in(op)?,
        line: op.line,
        word: op.word,
    })
}

/// The struct of an operation. An operand that the act doesn't have is 0.
pub fn op_out(op: &Op) -> SciOp
    ensures { result ≡ op_struct op.now }
{
    let (act, arg, datum) = match op.act {
        Act::Load => (0, 0, 0),
        Act::Store(datum) => (1, 0, datum),
        Act::Lock(LockOp::MaskSwap { arg, datum }) => (2, arg, datum),
        Act::Lock(LockOp::CompareSwap { arg, datum }) => (3, arg, datum),
        Act::Lock(LockOp::FetchAdd { datum }) => (4, 0, datum),
        Act::Lock(LockOp::BoundedAdd { arg, datum }) => (5, arg, datum),
        Act::Lock(LockOp::WrapAdd { arg, datum }) => (6, arg, datum),
    };
    SciOp {
        act,
        line: op.line,
        word: op.word,
        reserved: 0,
        arg,
        datum,
    }
}

/// The event that the struct says, or None if it says none.
pub fn event_in(event: &SciEvent) -> Option<Event>
    ensures { MatchOption result (SaysNone (SaysEvent event.now)) (SaysEvent event.now) }
{
    let SciEvent {
        kind,
        node,
        from,
        line,
        ask,
        ..
    } = *event;
    Some(match kind {
        0 => Event::Issue {
            node,
            op: op_in(&event.op)?,
        },
        1 => Event::Perform { node, line },
        2 => Event::Ask {
            node,
            line,
            kind: AskKind::with_number(ask)?,
        },
        3 => Event::Serve { from, node },
        4 => Event::Refuse { from, node },
        5 => Event::Reply { node },
        6 => Event::Accept { from, node },
        _ => return None,
    })
}
