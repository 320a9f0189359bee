//! Nodes: the controller that a simulator has at each processor.

ghost use denote.RawPtr.{null_ptr};
ghost use Rattle.std.specs.Prelude.{◌≡◌, ◌≢◌, ◌≤◌, ◌<◌, ◌↔◌, ◌⊎◌, ◌∷◌, [], Some, None, ◌%◌, IfSome, slice_get};
ghost use Rattle.sci_home.specs.Serving.{current_of};
ghost use Rattle.sci_core.specs.Node.{IsAtRest, home_of, lines_of, node_issuing, node_performing, node_replying, pending_on};
ghost use Rattle.sci_core.specs.Size.{IsMachineSize};
ghost use Rattle.sci_c_values.specs.declared.status.TheConstants.{SCI_FULL, SCI_NOT_ENABLED, SCI_OK, SCI_RANGE};
ghost use Rattle.sci_c_values.specs.{Operation.{SaysOp}, Saying.{SaysNone}};
ghost use Rattle.sci_words.specs.declared.event.TheConstants.AskKind.{ALL};
ghost use Rattle.sci_c.specs.{Calls.{IsChange, IsLook}, Closing.{IsClosed, IsOpened}, Kinds.{ChangesBy, On, OnNode, node_in}, Machine.{size}};
ghost use Rattle.sci_c.specs.Node.{HasIssuedAll, HasNoContents, IsAsk, IsHomeContents, IsIssue, IsNoAsk, IsNoIssue, IsOpeningNode, IsPendingOf};
ghost use Rattle.sci_c.specs.Node.{IsPerformed, IsReply, MayNotIssue};

use crate::closing::{closed, opened};
use crate::controller::Controller;
use crate::handle::SciObject;
use crate::thing::Thing;
use sci_c_values::{
    SCI_FULL, SCI_MISUSE, SCI_NO_MEMORY, SCI_NOT_ENABLED, SCI_OK, SCI_RANGE, SciEntry, SciOp,
    SciStamped, entry_out, op_in, op_out, stamped_out,
};
use sci_core::Node;
use sci_packets::encode;
use sci_policy::Policy;
use sci_words::{AskKind, Extent, MAX_OPERATIONS, Op, Stamped, WORDS_PER_LINE};
use std::alloc::Global;

/// Puts a node's controller into an empty object.
#[unsafe(no_mangle)]
pub extern "C" fn sci_node_open(
    alloc: Global,
    object: &mut SciObject,
    me: u8,
    nodes: u8,
    lines: u8,
    slots: u8,
    limit: u32,
) -> u32
    ensures { IsOpened ((me < nodes) × IsMachineSize (size nodes lines slots limit))
        (IsOpeningNode me (size nodes lines slots limit))
        object.old.value result object.new.value }
{
    if object.live() != 0 {
        return SCI_MISUSE;
    }
    let Some(extent) = Extent::new(nodes, lines, slots) else {
        return SCI_RANGE;
    };
    if me >= extent.nodes || limit == 0 || limit > MAX_OPERATIONS {
        return SCI_RANGE;
    }
    let Ok(node) = Node::new(alloc, me, extent, limit) else {
        return SCI_NO_MEMORY;
    };
    let policy = Policy::new();
    opened(alloc, object, Thing::Node(Controller { node, policy }))
}

/// Lets a node's controller go, and leaves the object empty.
#[unsafe(no_mangle)]
pub extern "C" fn sci_node_close(alloc: Global, object: &mut SciObject) -> u32
    ensures closed { IsClosed node_in object.old.value result object.new.value }
    ensures no_pointer { result ≡ SCI_OK → object.new.at ≡ null_ptr }
{
    let is_of_kind = object.node().is_some();
    closed(alloc, object, is_of_kind)
}

/// The status of an operation that the node may not issue: SCI_FULL if only the count of its operations is in the way.
fn status_of_no_issue(node: &Node, op: &Op) -> u32
    requires { node_issuing node.now op.now ≡ None }
    ensures full { result ≡ SCI_FULL → HasIssuedAll op.now node.now }
    ensures refused { result ≡ SCI_NOT_ENABLED → MayNotIssue op.now node.now }
    ensures status { (result ≡ SCI_FULL) ⊎ (result ≡ SCI_NOT_ENABLED) }
{
    // Asked, so that the prover knows that the operands are words.
    let _may = node.may_issue(op);
    let is_free = op.line < node.extent().lines
        && usize::from(op.word) < WORDS_PER_LINE
        && node.pending(op.line).is_none();
    if is_free { SCI_FULL } else { SCI_NOT_ENABLED }
}

/// Issues an operation, and gives its serial.
#[unsafe(no_mangle)]
pub extern "C" fn sci_node_issue(object: &mut SciObject, op: &SciOp, serial: &mut u32) -> u32
    ensures done { result ≡ SCI_OK → ChangesBy node_in object.old.value object.new.value
        (OnNode (IsIssue op.now serial.new)) }
    ensures refused { result ≡ SCI_NOT_ENABLED → On node_in object.old.value
        (λ c. IsNoIssue MayNotIssue op.now c.node) }
    ensures full { result ≡ SCI_FULL → On node_in object.old.value (λ c. IsNoIssue HasIssuedAll op.now c.node) }
    ensures range { result ≡ SCI_RANGE → SaysNone (SaysOp op.now) }
    ensures change { IsChange node_in (SCI_NOT_ENABLED ∷ SCI_RANGE ∷ SCI_FULL ∷ [])
        object.old.value result object.new.value }
    ensures same_serial { result ≢ SCI_OK → serial.new ≡ serial.old }
{
    let Some(controller) = object.node() else {
        return SCI_MISUSE;
    };
    let Some(said) = op_in(op) else {
        return SCI_RANGE;
    };
    match controller.node.issue(said) {
        Some(number) => {
            *serial = number;
            SCI_OK
        }
        None => status_of_no_issue(&controller.node, &said),
    }
}

/// Performs the operation that is pending on a line, and gives its entry.
#[unsafe(no_mangle)]
pub extern "C" fn sci_node_perform(object: &mut SciObject, line: u8, entry: &mut SciEntry) -> u32
    ensures done { result ≡ SCI_OK → ChangesBy node_in object.old.value object.new.value
        (OnNode (IsPerformed line entry.new)) }
    ensures refused { result ≡ SCI_NOT_ENABLED → On node_in object.old.value
        (λ c. node_performing c.node line ≡ None) }
    ensures change { IsChange node_in (SCI_NOT_ENABLED ∷ []) object.old.value result object.new.value }
    ensures same_entry { result ≢ SCI_OK → entry.new ≡ entry.old }
{
    let Some(controller) = object.node() else {
        return SCI_MISUSE;
    };
    match controller.node.perform(line) {
        Some(done) => {
            *entry = entry_out(&done);
            SCI_OK
        }
        None => SCI_NOT_ENABLED,
    }
}

/// Asks about a line. The request stands over the first bytes, and is to be sent to its target.
#[unsafe(no_mangle)]
pub extern "C" fn sci_node_ask(
    object: &mut SciObject,
    line: u8,
    ask: u8,
    bytes: &mut [u8; 88],
    used: &mut usize,
) -> u32
    ensures done { result ≡ SCI_OK → ChangesBy node_in object.old.value object.new.value
        (OnNode (IsAsk line ask bytes.old bytes.new used.new)) }
    ensures refused { result ≡ SCI_NOT_ENABLED → On node_in object.old.value (λ c. IsNoAsk line ask c.node) }
    ensures range { result ≡ SCI_RANGE → slice_get ALL ask ≡ None }
    ensures change { IsChange node_in (SCI_NOT_ENABLED ∷ SCI_RANGE ∷ []) object.old.value result object.new.value }
    ensures same_bytes { result ≢ SCI_OK → bytes.new ≡ bytes.old }
    ensures same_used { result ≢ SCI_OK → used.new ≡ used.old }
{
    let Some(controller) = object.node() else {
        return SCI_MISUSE;
    };
    let Some(kind) = AskKind::with_number(ask) else {
        return SCI_RANGE;
    };
    match controller.node.ask(line, kind) {
        Some(packet) => {
            *used = encode(&packet, bytes);
            SCI_OK
        }
        None => SCI_NOT_ENABLED,
    }
}

/// Takes the answer that waits. It stands over the first bytes, and is to be sent to its target.
#[unsafe(no_mangle)]
pub extern "C" fn sci_node_take_answer(
    object: &mut SciObject,
    bytes: &mut [u8; 88],
    used: &mut usize,
) -> u32
    ensures done { result ≡ SCI_OK → ChangesBy node_in object.old.value object.new.value
        (OnNode (IsReply bytes.old bytes.new used.new)) }
    ensures refused { result ≡ SCI_NOT_ENABLED → On node_in object.old.value (λ c. node_replying c.node ≡ None) }
    ensures change { IsChange node_in (SCI_NOT_ENABLED ∷ []) object.old.value result object.new.value }
    ensures same_bytes { result ≢ SCI_OK → bytes.new ≡ bytes.old }
    ensures same_used { result ≢ SCI_OK → used.new ≡ used.old }
{
    let Some(controller) = object.node() else {
        return SCI_MISUSE;
    };
    match controller.node.take_answer() {
        Some(packet) => {
            *used = encode(&packet, bytes);
            SCI_OK
        }
        None => SCI_NOT_ENABLED,
    }
}

/// Gives the operation that is pending on a line, and its serial.
#[unsafe(no_mangle)]
pub extern "C" fn sci_node_pending(
    object: &mut SciObject,
    line: u8,
    op: &mut SciOp,
    serial: &mut u32,
) -> u32
    ensures found { result ≡ SCI_OK → On node_in object.old.value (λ c. IsPendingOf line serial.new op.new c.node) }
    ensures none { result ≡ SCI_NOT_ENABLED → On node_in object.old.value (λ c. pending_on c.node line ≡ None) }
    ensures same_op { result ≢ SCI_OK → op.new ≡ op.old }
    ensures same_serial { result ≢ SCI_OK → serial.new ≡ serial.old }
    ensures kept { IsLook node_in (SCI_NOT_ENABLED ∷ []) object.old.value result object.new.value }
{
    let Some(controller) = object.node() else {
        return SCI_MISUSE;
    };
    match controller.node.pending(line) {
        Some(pending) => {
            *op = op_out(&pending.op);
            *serial = pending.serial;
            SCI_OK
        }
        None => SCI_NOT_ENABLED,
    }
}

/// Gives whether no operation is pending and no line has an entry: 1, and else 0.
#[unsafe(no_mangle)]
pub extern "C" fn sci_node_is_at_rest(object: &mut SciObject, at_rest: &mut u32) -> u32
    ensures rest { result ≡ SCI_OK → On node_in object.old.value (λ c. (at_rest.new ≡ 1) ↔ IsAtRest c.node) }
    ensures flag { result ≡ SCI_OK → at_rest.new ≤ 1 }
    ensures same { result ≢ SCI_OK → at_rest.new ≡ at_rest.old }
    ensures kept { IsLook node_in [] object.old.value result object.new.value }
{
    let Some(controller) = object.node() else {
        return SCI_MISUSE;
    };
    *at_rest = if controller.node.is_at_rest() { 1 } else { 0 };
    SCI_OK
}

/// Reads the contents of a line whose home is at the node, if the home has them.
#[unsafe(no_mangle)]
pub extern "C" fn sci_node_home(object: &mut SciObject, line: u8, contents: &mut SciStamped) -> u32
    ensures found { result ≡ SCI_OK → On node_in object.old.value (λ c. IsHomeContents line contents.new c.node) }
    ensures none { result ≡ SCI_NOT_ENABLED → On node_in object.old.value (λ c. HasNoContents line c.node) }
    ensures range { result ≡ SCI_RANGE → On node_in object.old.value (λ c. lines_of c.node ≤ line) }
    ensures same { result ≢ SCI_OK → contents.new ≡ contents.old }
    ensures kept { IsLook node_in (SCI_NOT_ENABLED ∷ SCI_RANGE ∷ []) object.old.value result object.new.value }
{
    let Some(controller) = object.node() else {
        return SCI_MISUSE;
    };
    if line >= controller.node.extent().lines {
        return SCI_RANGE;
    }
    match home_contents(&controller.node, line) {
        Some(found) => {
            *contents = stamped_out(&found);
            SCI_OK
        }
        None => SCI_NOT_ENABLED,
    }
}

/// The contents of a line, if its home is at the node and has them.
fn home_contents(node: &Node, line: u8) -> Option<Stamped>
    requires { line < lines_of node.now }
    ensures mine { IfSome result (λ found. line % node.now.cache.nodes ≡ node.now.cache.me) }
    ensures found { IfSome result (λ found. current_of (home_of node.now line) ≡ Some found) }
    ensures none { result ≡ None → line % node.now.cache.nodes ≡ node.now.cache.me
        → current_of (home_of node.now line) ≡ None }
{
    match node.home(line) {
        Some(home) => home.current(),
        None => None,
    }
}
