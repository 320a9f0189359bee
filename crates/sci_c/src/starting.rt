//! A node that goes on with an empty log: a new one, whose homes are told what those of the old one know.

ghost use Rattle.std.specs.Prelude.{◌≡◌, ◌≤◌, ◌<◌, ◌⊎◌, ◌∷◌, [], ◌%◌, ◌*◌, IfOk, IsSome, None, length};
ghost use Rattle.sci_words.specs.declared.limits.TheConstants.{MAX_OPERATIONS};
ghost use Rattle.sci_packets.specs.Table.{IsRequest};
ghost use Rattle.sci_home.specs.Serving.{IsForHome, home_serving, opening_home};
ghost use Rattle.sci_core.specs.Node.{IsAtRest, home_of, home_place, lines_of};
ghost use Rattle.sci_c_values.specs.declared.status.TheConstants.{SCI_NO_MEMORY, SCI_NOT_ENABLED, SCI_OK, SCI_RANGE};
ghost use Rattle.sci_c.specs.{Calls.{IsChange}, Kinds.{ChangesBy, On, node_in}};
ghost use Rattle.sci_c.specs.Starting.{HasHomes, IsFresh, IsStarted, told, with_home};

use crate::handle::SciObject;
use sci_c_values::{SCI_MISUSE, SCI_NO_MEMORY, SCI_NOT_ENABLED, SCI_OK, SCI_RANGE};
use sci_core::Node;
use sci_home::HomeState;
use sci_packets::{Body, NodeId, Packet};
use sci_words::MAX_OPERATIONS;
use std::alloc::{AllocError, Global};

/// Has the home of a line serve a request, and drops the answer.
fn tell(node: &mut Node, line: u8, source: NodeId, body: Body)
    requires line { line < lines_of node.old }
    requires mine { line % node.old.cache.nodes ≡ node.old.cache.me }
    requires silent { node.old.waiting ≡ None }
    requires home { IsForHome body }
    requires asks { IsRequest body }
    requires serves { IsSome (home_serving (home_of node.old line) source body) }
    ensures { node.new ≡ told node.old line source body }
{
    let Some(target) = NodeId::new(u16::from(node.me())) else {
        unreachable!()
    };
    let request = Packet {
        target,
        source,
        control: 0,
        line: u64::from(line),
        body,
    };
    let _served = node.serve(&request);
    let _answer = node.take_answer();
}

/// Tells a home that nobody has touched what it is to know.
fn tell_state(node: &mut Node, line: u8, state: HomeState)
    requires line { line < lines_of node.old }
    requires mine { line % node.old.cache.nodes ≡ node.old.cache.me }
    requires silent { node.old.waiting ≡ None }
    requires room { home_place node.old line < length node.old.homes }
    requires untouched { home_of node.old line ≡ opening_home }
    ensures { node.new ≡ with_home node.old line state }
{
    let Some(reader) = NodeId::new(0) else {
        unreachable!()
    };
    match state {
        HomeState::Home(contents) => {
            tell(node, line, reader, Body::Mread);
            tell(node, line, reader, Body::Wback(contents));
        }
        HomeState::Gone { head } => tell(node, line, head, Body::Mread),
        HomeState::Fresh { head, contents } => {
            tell(node, line, reader, Body::Mread);
            tell(node, line, reader, Body::Wback(contents));
            tell(node, line, head, Body::Fread);
        }
    }
}

/// A new node with this limit, whose homes know what those of the node know. Refused if memory is.
fn started(alloc: Global, node: &Node, limit: u32) -> Result<Node, AllocError>
    requires some { 1 ≤ limit }
    requires few { limit ≤ MAX_OPERATIONS }
    ensures fresh { IfOk result (IsFresh node.now limit) }
    ensures homes { IfOk result (HasHomes node.now) }
{
    let extent = node.extent();
    if node.me() >= extent.nodes {
        return Err(AllocError);
    }
    let mut fresh = Node::new(alloc, node.me(), extent, limit)?;
    for line in 0..extent.lines {
        if let Some(home) = node.home(line) {
            tell_state(&mut fresh, line, home.state());
        }
    }
    Ok(fresh)
}

/// Begins again with an empty log: serials from 0, and this many operations to issue. The homes know what they knew.
#[unsafe(no_mangle)]
pub extern "C" fn sci_node_start_log(alloc: Global, object: &mut SciObject, limit: u32) -> u32
    ensures done { result ≡ SCI_OK → ChangesBy node_in object.old.value object.new.value (IsStarted limit) }
    ensures refused { result ≡ SCI_NOT_ENABLED → On node_in object.old.value
        (λ c. (IsAtRest c.node → ⊥) ⊎ IsSome c.node.waiting) }
    ensures range { result ≡ SCI_RANGE → (limit ≡ 0) ⊎ (MAX_OPERATIONS < limit) }
    ensures change { IsChange node_in (SCI_NOT_ENABLED ∷ SCI_RANGE ∷ SCI_NO_MEMORY ∷ [])
        object.old.value result object.new.value }
{
    let Some(controller) = object.node() else {
        return SCI_MISUSE;
    };
    if limit == 0 || limit > MAX_OPERATIONS {
        return SCI_RANGE;
    }
    if !controller.node.is_at_rest() || controller.node.waiting().is_some() {
        return SCI_NOT_ENABLED;
    }
    match started(alloc, &controller.node, limit) {
        Ok(node) => {
            controller.node = node;
            SCI_OK
        }
        Err(_) => SCI_NO_MEMORY,
    }
}
