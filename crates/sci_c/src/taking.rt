//! What a node does with a packet that has come to it.

ghost use Rattle.std.specs.Prelude.{◌≡◌, ◌≢◌, ◌<◌, ◌↔◌, IsTrue, Some, None, false};
ghost use Rattle.sci_cache.specs.Cache.{letter_of};
ghost use Rattle.sci_core.specs.Node.{IsForNode, IsServable, node_refusing, node_serving};
ghost use Rattle.sci_core.specs.WellFormed.{BodyNamesNodes};
ghost use Rattle.sci_words.specs.declared.limits.TheConstants.{MAX_NODES};
ghost use Rattle.sci_c_values.specs.declared.status.TheConstants.{SCI_OK};
ghost use Rattle.sci_c.specs.Taking.{IsAnswerFor, IsDeciding, IsGiving, IsOfMachine, IsRequestFor, IsTakable, accepting_asked, node_taking};
ghost use Rattle.sci_c.specs.Taking.{is_from_asked as is_from_asked_of, noting, noting_none, policy_noting};

use crate::handle::SciObject;
use sci_c_values::{SCI_MISUSE, SCI_NOT_ENABLED, SCI_OK, SCI_RANGE, decision_out, status_of_fault};
use sci_cache::Held;
use sci_core::Node;
use sci_home::is_for_home;
use sci_packets::{Body, Packet, decode};
use sci_policy::Policy;

/// Whether the node that a packet names, if it names one, is one of this many.
fn names_nodes(body: &Body, nodes: u16) -> bool
    ensures { IsTrue result ↔ BodyNamesNodes nodes body.now }
{
    let named = match *body {
        Body::Roll { forward: named }
        | Body::Purged { forward: named }
        | Body::Fdata {
            old_head: named,
            ..
        } => named,
        Body::Setback { backward: named } | Body::Mgone { old_head: named } => Some(named),
        _ => None,
    };
    match named {
        Some(named) => named.get() < nodes,
        None => true,
    }
}

/// Whether the sender of a packet is a node of the machine, and the node that it names, if it names one.
fn is_of_machine(node: &Node, packet: &Packet) -> bool
    ensures is { IsTrue result ↔ IsOfMachine node.now (letter_of packet.now) }
    ensures sender { IsTrue result → packet.now.source < MAX_NODES }
{
    let nodes = u16::from(node.extent().nodes);
    packet.source.get() < nodes && names_nodes(&packet.body, nodes)
}

/// Whether a packet is for this node, and about a line of the machine.
fn is_for_node(node: &Node, packet: &Packet) -> bool
    ensures { IsTrue result ↔ IsForNode node.now (letter_of packet.now) }
{
    packet.target.get() == u16::from(node.me()) && packet.line < u64::from(node.extent().lines)
}

/// Whether a packet is a request that this node may be given.
fn is_servable(node: &Node, packet: &Packet) -> bool
    ensures { IsTrue result ↔ IsServable node.now (letter_of packet.now) }
{
    if !is_for_node(node, packet) || !packet.is_request() {
        return false;
    }
    !is_for_home(&packet.body)
        || packet.line % u64::from(node.extent().nodes) == u64::from(node.me())
}

/// Whether a packet is a request that this node may be given, and one of this machine.
pub(crate) fn is_request_for(node: &Node, packet: &Packet) -> bool
    ensures is { IsTrue result ↔ IsRequestFor node.now (letter_of packet.now) }
    ensures sender { IsTrue result → packet.now.source < MAX_NODES }
{
    is_of_machine(node, packet) && is_servable(node, packet)
}

/// Whether the line asked no other node than the one that sends the answer. Requires that the answer is for this node and
/// about a line of the machine.
fn is_from_asked(node: &Node, answer: &Packet) -> bool
    requires { IsForNode node.now (letter_of answer.now) }
    ensures { result ≡ is_from_asked_of node.now (letter_of answer.now) }
{
    let nodes = node.extent().nodes;
    let line = answer.line as u8;
    let held = node.held(line);
    if matches!(held, Held::Rolling(_)) {
        return true;
    }
    match held.asked_node(u16::from(line % nodes)) {
        Some(asked) => asked == answer.source.get(),
        None => true,
    }
}

/// What a node does with a packet: it serves or refuses a request, or accepts an answer.
#[derive(Clone, Copy)]
pub(crate) enum Taking {
    Serve,
    Refuse,
    Accept,
}

impl Taking {
    /// Notes in the policy that a request was served or refused. Requires that its sender is a node of the machine.
    pub(crate) fn note(self, policy: &mut Policy, packet: &Packet)
        requires { packet.now.source < MAX_NODES }
        ensures { policy.new ≡ policy_noting self (letter_of packet.now) policy.old }
    {
        match self {
            Taking::Serve | Taking::Refuse => policy.served(packet.source.get() as u8),
            Taking::Accept => {}
        }
    }

    /// Whether the packet may be given to the node for it.
    pub(crate) fn may(self, node: &Node, packet: &Packet) -> bool
        ensures may { IsTrue result ↔ IsTakable self node.now (letter_of packet.now) }
        ensures sender { IsTrue result → packet.now.source < MAX_NODES }
    {
        match self {
            Taking::Serve | Taking::Refuse => is_request_for(node, packet),
            Taking::Accept => is_of_machine(node, packet) && is_for_node(node, packet),
        }
    }

    /// Gives the packet to the node. False, unchanged, if the node doesn't take it.
    pub(crate) fn give(self, node: &mut Node, packet: &Packet) -> bool
        requires { IsTakable self node.old (letter_of packet.now) }
        ensures taken { IsTrue result
            → node_taking self node.old (letter_of packet.now) ≡ Some node.new }
        ensures not { result ≡ false → node_taking self node.old (letter_of packet.now) ≡ None }
        ensures same { result ≡ false → node.new ≡ node.old }
    {
        match self {
            Taking::Serve => node.serve(packet),
            Taking::Refuse => node.refuse(packet),
            Taking::Accept => is_from_asked(node, packet) && node.accept(packet),
        }
    }
}

/// Serves the request that the bytes begin with. Its answer waits then.
#[unsafe(no_mangle)]
pub extern "C" fn sci_node_serve(object: &mut SciObject, bytes: &[u8]) -> u32
    ensures { IsGiving IsRequestFor node_serving noting bytes.now object.old.value result object.new.value }
{
    take(object, Taking::Serve, bytes)
}

/// Answers the request that the bytes begin with as busy. The answer waits then.
#[unsafe(no_mangle)]
pub extern "C" fn sci_node_refuse(object: &mut SciObject, bytes: &[u8]) -> u32
    ensures { IsGiving IsRequestFor node_refusing noting bytes.now object.old.value result object.new.value }
{
    take(object, Taking::Refuse, bytes)
}

/// Accepts the answer that the bytes begin with.
#[unsafe(no_mangle)]
pub extern "C" fn sci_node_accept(object: &mut SciObject, bytes: &[u8]) -> u32
    ensures { IsGiving IsAnswerFor accepting_asked noting_none bytes.now object.old.value result object.new.value }
{
    take(object, Taking::Accept, bytes)
}

/// Gives the node the packet that the bytes begin with.
fn take(object: &mut SciObject, taking: Taking, bytes: &[u8]) -> u32
    ensures { IsGiving (IsTakable taking) (node_taking taking) (policy_noting taking)
        bytes.now object.old.value result object.new.value }
{
    let Some(controller) = object.node() else {
        return SCI_MISUSE;
    };
    match decode(bytes) {
        Ok((packet, _)) => {
            if !taking.may(&controller.node, &packet) {
                return SCI_RANGE;
            }
            if !taking.give(&mut controller.node, &packet) {
                return SCI_NOT_ENABLED;
            }
            taking.note(&mut controller.policy, &packet);
            SCI_OK
        }
        Err(fault) => status_of_fault(fault),
    }
}

/// Gives what the node's policy does with the request that the bytes begin with: it is kept, refused or served.
#[unsafe(no_mangle)]
pub extern "C" fn sci_node_decide(object: &mut SciObject, bytes: &[u8], decision: &mut u32) -> u32
    ensures kept { IsDeciding bytes.now decision.new object.old.value result object.new.value }
    ensures same { result ≢ SCI_OK → decision.new ≡ decision.old }
{
    let Some(controller) = object.node() else {
        return SCI_MISUSE;
    };
    match decode(bytes) {
        Ok((packet, _)) => {
            if !is_request_for(&controller.node, &packet) {
                return SCI_RANGE;
            }
            *decision = decision_out(controller.policy.decide(&controller.node, &packet));
            SCI_OK
        }
        Err(fault) => status_of_fault(fault),
    }
}
