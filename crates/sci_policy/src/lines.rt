//! What a policy sees of a node's lines.

ghost use Rattle.std.specs.Prelude.{◌≡◌, ◌<◌, ◌&&◌, ℕ, Bool, true, false, None, Some, IfSome, option_map};
ghost use Rattle.sci_cache.specs.{LineSet.{is_in}, Held.{state_of}, State.{Out, is_out as is_out_in}};
ghost use Rattle.sci_cache.specs.Kinds.{is_of};
ghost use Rattle.sci_policy.specs.Policy.{awaits_home as awaits_home_in, is_busy_now as is_busy_now_in};
ghost use Rattle.sci_policy.specs.Lines.{can_be_due as can_be_due_in, can_drain as can_drain_in, has_maker as has_maker_on, is_head as is_head_in};
ghost use Rattle.sci_policy.specs.Lines.{least, oldest as oldest_with, own_ask as own_ask_in, state_on};
ghost use Rattle.sci_policy.specs.Scan.{IsTest, is_older_than};
ghost use Rattle.sci_core.specs.Node.{lines_of};

use sci_cache::{Held, LineKind, LineSet};
use sci_core::Node;
use sci_words::AskKind;

/// The state of a line, or None if there is no such line.
pub(crate) fn held_on(node: &Node, line: u8) -> Option<&Held>
    ensures here { IfSome result (λ held. state_of held.now ≡ state_on node.now line) }
    ensures beyond { result ≡ None → state_on node.now line ≡ Out }
{
    if line < node.extent().lines {
        Some(node.held(line))
    } else {
        None
    }
}

/// Whether a line claims its list, or is the head of a fresh list with a next entry.
pub(crate) fn can_be_due(node: &Node, line: u8) -> bool
    ensures { result ≡ can_be_due_in (state_on node.now line) }
{
    match held_on(node, line) {
        Some(Held::FreshHead(head)) => head.forward.is_some(),
        Some(Held::Claiming(_)) => true,
        _ => false,
    }
}

/// Whether a line purges its list, or can.
pub(crate) fn can_drain(node: &Node, line: u8) -> bool
    ensures { result ≡ can_drain_in (state_on node.now line) }
{
    match held_on(node, line) {
        Some(Held::Head(head)) => head.forward.is_some(),
        Some(Held::Purging(_)) => true,
        _ => false,
    }
}

/// Whether a line is the head of a list that may write.
pub(crate) fn is_head(node: &Node, line: u8) -> bool
    ensures { result ≡ is_head_in (state_on node.now line) }
{
    matches!(held_on(node, line), Some(Held::Head(_)))
}

/// Whether a line awaits its home's word on its list.
pub(crate) fn awaits_home(node: &Node, line: u8) -> bool
    ensures { result ≡ awaits_home_in (state_on node.now line) }
{
    matches!(
        held_on(node, line),
        Some(Held::Claiming(_) | Held::Clearing(_) | Held::Returning(_))
    )
}

/// Whether a line would answer a Cread as busy, and soon won't.
pub(crate) fn is_busy_now(node: &Node, line: u8) -> bool
    ensures { result ≡ is_busy_now_in (state_on node.now line) }
{
    matches!(
        held_on(node, line),
        Some(Held::Asking(_) | Held::Joining(_) | Held::FreshJoining(_) | Held::Purging(_))
    )
}

/// Whether a line has no entry.
pub(crate) fn is_out(node: &Node, line: u8) -> bool
    ensures { result ≡ is_out_in (state_on node.now line) }
{
    matches!(held_on(node, line), Some(Held::Out(_)) | None)
}

/// Whether a maker is pending on a line.
pub(crate) fn has_maker(node: &Node, line: u8) -> bool
    ensures { result ≡ has_maker_on node.now line }
{
    match node.pending(line) {
        Some(pending) => pending.op.is_maker(),
        None => false,
    }
}

/// What a line with an entry asks.
pub(crate) fn own_ask(node: &Node, line: u8) -> Option<AskKind>
    ensures { result ≡ own_ask_in (has_maker_on node.now line) (state_on node.now line) }
{
    match held_on(node, line)? {
        Held::Joining(state) if !state.sent => Some(AskKind::Cread),
        Held::FreshJoining(state) if !state.sent => Some(AskKind::Cread),
        Held::Head(head) if head.forward.is_some() => Some(AskKind::Purge),
        Held::Head(_) => Some(AskKind::Wback),
        Held::FreshHead(head) if head.forward.is_some() || has_maker(node, line) => {
            Some(AskKind::Claim)
        }
        Held::FreshHead(_) => Some(AskKind::Clear),
        Held::Below(_) => Some(AskKind::Roll),
        Held::Telling(state) if !state.sent => Some(AskKind::Setback),
        _ => None,
    }
}

/// The least line of a kind, or None if there is none. It looks at no line.
pub(crate) fn least_of(node: &Node, kind: LineKind) -> Option<u8>
    ensures { result ≡ least node.now (λ line. is_of kind (state_on node.now line)) }
{
    node.lines_of(kind).next_from(0)
}

/// Among the lines of a set that have an operation pending and pass a test, the one whose operation is the oldest, or None
/// if there is none. It looks at no other line. Requires that the node has these lines.
pub(crate) fn oldest<F: Fn(u8) -> bool>(node: &Node, lines: LineSet, test: F) -> Option<u8>
    requires here { (line : ℕ) → is_in lines line ≡ true → line < lines_of node.now }
    requires test { (line : ℕ) → line < lines_of node.now → F.pre test line }
    ensures { (tested : ℕ → Bool) → IsTest (lines_of node.now) (F.post test) tested →
        result ≡ oldest_with node.now (λ line. is_in lines line && tested line) }
{
    let mut found = None;
    let mut from = 0;
    'lines: while let Some(line) = lines.next_from(from) {
        from = line + 1;
        let Some(pending) = node.pending(line) else {
            continue;
        };
        if is_older(pending.serial, found) && test(line) {
            found = Some((line, pending.serial));
        }
    }
    found.map(|(line, _)| line)
}

/// Whether a serial is below that of what was found, if anything was.
fn is_older(serial: u32, found: Option<(u8, u32)>) -> bool
    ensures { result ≡ is_older_than serial found }
{
    match found {
        Some((_, least)) => serial < least,
        None => true,
    }
}
