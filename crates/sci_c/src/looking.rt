//! What a node, and a machine, have of a line, and the packets that are under way.

ghost use Rattle.std.specs.Prelude.{◌≡◌, ◌≢◌, ◌≤◌, ◌<◌, ◌⊎◌, ◌∷◌, [], None, MatchOption, slice_get};
ghost use Rattle.sci_core.specs.{Core.{kind_number, lane_of, node_at}, Node.{lines_of, pending_on}};
ghost use Rattle.sci_c_values.specs.declared.status.TheConstants.{SCI_FULL, SCI_NO_MEMORY, SCI_NOT_ENABLED, SCI_OK, SCI_RANGE};
ghost use Rattle.sci_c_values.specs.{Operation.{SaysEvent}, Saying.{SaysNone}};
ghost use Rattle.sci_c.specs.{Calls.{IsLook}, Kinds.{On, machine_in, node_in}, Node.{IsPendingOf}};
ghost use Rattle.sci_c.specs.Looking.{HasNoLine, HasNoPacket, HasNoSuchLane, IsAnswerOf, IsHeldOf, IsHomeOf, IsHomeElsewhere, IsObstacleTo, IsPacketAt, IsPacketIn};
ghost use Rattle.sci_c.specs.Looking.{IsLongerSharing, IsSharingOf};

use crate::handle::SciObject;
use crate::room::put_over;
use sci_c_values::{
    SCI_MISUSE, SCI_NO_MEMORY, SCI_NOT_ENABLED, SCI_OK, SCI_RANGE, SciEvent, SciHeld, SciHome,
    SciOp, SciPacket, event_in, held_out, home_out, obstacle_out, op_out, packet_out,
};
use sci_core::{LaneKind, Machine, Node};
use std::alloc::Global;

/// Reads the cache's state for a line.
fn read_held(node: &Node, line: u8, held: &mut SciHeld) -> u32
    ensures found { result ≡ SCI_OK → IsHeldOf line held.new node.now }
    ensures range { result ≡ SCI_RANGE → lines_of node.now ≤ line }
    ensures same { result ≢ SCI_OK → held.new ≡ held.old }
    ensures status { (result ≡ SCI_OK) ⊎ (result ≡ SCI_RANGE) }
{
    if line >= node.extent().lines {
        return SCI_RANGE;
    }
    *held = held_out(node.held(line));
    SCI_OK
}

/// Reads the home's state of a line.
fn read_home(node: &Node, line: u8, home: &mut SciHome) -> u32
    ensures found { result ≡ SCI_OK → IsHomeOf line home.new node.now }
    ensures none { result ≡ SCI_NOT_ENABLED → IsHomeElsewhere line node.now }
    ensures range { result ≡ SCI_RANGE → lines_of node.now ≤ line }
    ensures same { result ≢ SCI_OK → home.new ≡ home.old }
    ensures status { (result ≡ SCI_OK) ⊎ ((result ≡ SCI_NOT_ENABLED) ⊎ (result ≡ SCI_RANGE)) }
{
    if line >= node.extent().lines {
        return SCI_RANGE;
    }
    match node.home(line) {
        Some(found) => {
            *home = home_out(found);
            SCI_OK
        }
        None => SCI_NOT_ENABLED,
    }
}

/// Reads the answer that waits at a node.
fn read_answer(node: &Node, packet: &mut SciPacket) -> u32
    ensures found { result ≡ SCI_OK → IsAnswerOf packet.new node.now }
    ensures none { result ≡ SCI_NOT_ENABLED → node.now.waiting ≡ None }
    ensures same { result ≢ SCI_OK → packet.new ≡ packet.old }
    ensures status { (result ≡ SCI_OK) ⊎ (result ≡ SCI_NOT_ENABLED) }
{
    match node.waiting() {
        Some(answer) => {
            *packet = packet_out(answer);
            SCI_OK
        }
        None => SCI_NOT_ENABLED,
    }
}

/// Reads the state of a node's cache for a line.
#[unsafe(no_mangle)]
pub extern "C" fn sci_node_held(object: &mut SciObject, line: u8, held: &mut SciHeld) -> u32
    ensures found { result ≡ SCI_OK → On node_in object.old.value (λ c. IsHeldOf line held.new c.node) }
    ensures range { result ≡ SCI_RANGE → On node_in object.old.value (λ c. lines_of c.node ≤ line) }
    ensures same { result ≢ SCI_OK → held.new ≡ held.old }
    ensures kept { IsLook node_in (SCI_RANGE ∷ []) object.old.value result object.new.value }
{
    let Some(controller) = object.node() else {
        return SCI_MISUSE;
    };
    read_held(&controller.node, line, held)
}

/// Reads the state of the home of a line, if it is at the node.
#[unsafe(no_mangle)]
pub extern "C" fn sci_node_home_state(object: &mut SciObject, line: u8, home: &mut SciHome) -> u32
    ensures found { result ≡ SCI_OK → On node_in object.old.value (λ c. IsHomeOf line home.new c.node) }
    ensures none { result ≡ SCI_NOT_ENABLED → On node_in object.old.value (λ c. IsHomeElsewhere line c.node) }
    ensures range { result ≡ SCI_RANGE → On node_in object.old.value (λ c. lines_of c.node ≤ line) }
    ensures same { result ≢ SCI_OK → home.new ≡ home.old }
    ensures kept { IsLook node_in (SCI_NOT_ENABLED ∷ SCI_RANGE ∷ []) object.old.value result object.new.value }
{
    let Some(controller) = object.node() else {
        return SCI_MISUSE;
    };
    read_home(&controller.node, line, home)
}

/// Reads the answer that waits at a node, and leaves it there.
#[unsafe(no_mangle)]
pub extern "C" fn sci_node_answer(object: &mut SciObject, packet: &mut SciPacket) -> u32
    ensures found { result ≡ SCI_OK → On node_in object.old.value (λ c. IsAnswerOf packet.new c.node) }
    ensures none { result ≡ SCI_NOT_ENABLED → On node_in object.old.value (λ c. c.node.waiting ≡ None) }
    ensures same { result ≢ SCI_OK → packet.new ≡ packet.old }
    ensures kept { IsLook node_in (SCI_NOT_ENABLED ∷ []) object.old.value result object.new.value }
{
    let Some(controller) = object.node() else {
        return SCI_MISUSE;
    };
    read_answer(&controller.node, packet)
}

/// Reads the state of a line in the cache of one of the machine's nodes.
#[unsafe(no_mangle)]
pub extern "C" fn sci_machine_held(
    object: &mut SciObject,
    node: u8,
    line: u8,
    held: &mut SciHeld,
) -> u32
    ensures found { result ≡ SCI_OK → On machine_in object.old.value
        (λ machine. (node < machine.size.nodes) × IsHeldOf line held.new (node_at machine node)) }
    ensures range { result ≡ SCI_RANGE → On machine_in object.old.value (HasNoLine node line) }
    ensures same { result ≢ SCI_OK → held.new ≡ held.old }
    ensures kept { IsLook machine_in (SCI_RANGE ∷ []) object.old.value result object.new.value }
{
    let Some(machine) = object.machine() else {
        return SCI_MISUSE;
    };
    if node >= machine.extent().nodes {
        return SCI_RANGE;
    }
    read_held(machine.node(node), line, held)
}

/// Reads the state of the home of a line, if it is at this node of the machine.
#[unsafe(no_mangle)]
pub extern "C" fn sci_machine_home(
    object: &mut SciObject,
    node: u8,
    line: u8,
    home: &mut SciHome,
) -> u32
    ensures found { result ≡ SCI_OK → On machine_in object.old.value
        (λ machine. (node < machine.size.nodes) × IsHomeOf line home.new (node_at machine node)) }
    ensures none { result ≡ SCI_NOT_ENABLED → On machine_in object.old.value
        (λ machine. (node < machine.size.nodes) × IsHomeElsewhere line (node_at machine node)) }
    ensures range { result ≡ SCI_RANGE → On machine_in object.old.value (HasNoLine node line) }
    ensures same { result ≢ SCI_OK → home.new ≡ home.old }
    ensures kept { IsLook machine_in (SCI_NOT_ENABLED ∷ SCI_RANGE ∷ []) object.old.value result object.new.value }
{
    let Some(machine) = object.machine() else {
        return SCI_MISUSE;
    };
    if node >= machine.extent().nodes {
        return SCI_RANGE;
    }
    read_home(machine.node(node), line, home)
}

/// Gives the operation that is pending on a line at one of the machine's nodes, and its serial.
#[unsafe(no_mangle)]
pub extern "C" fn sci_machine_pending(
    object: &mut SciObject,
    node: u8,
    line: u8,
    op: &mut SciOp,
    serial: &mut u32,
) -> u32
    ensures found { result ≡ SCI_OK → On machine_in object.old.value
        (λ machine. (node < machine.size.nodes) × IsPendingOf line serial.new op.new (node_at machine node)) }
    ensures none { result ≡ SCI_NOT_ENABLED → On machine_in object.old.value
        (λ machine. (node < machine.size.nodes) × (pending_on (node_at machine node) line ≡ None)) }
    ensures range { result ≡ SCI_RANGE → On machine_in object.old.value (λ machine. machine.size.nodes ≤ node) }
    ensures same_op { result ≢ SCI_OK → op.new ≡ op.old }
    ensures same_serial { result ≢ SCI_OK → serial.new ≡ serial.old }
    ensures kept { IsLook machine_in (SCI_NOT_ENABLED ∷ SCI_RANGE ∷ []) object.old.value result object.new.value }
{
    let Some(machine) = object.machine() else {
        return SCI_MISUSE;
    };
    if node >= machine.extent().nodes {
        return SCI_RANGE;
    }
    match machine.node(node).pending(line) {
        Some(pending) => {
            *op = op_out(&pending.op);
            *serial = pending.serial;
            SCI_OK
        }
        None => SCI_NOT_ENABLED,
    }
}

/// Reads the answer that waits at one of the machine's nodes.
#[unsafe(no_mangle)]
pub extern "C" fn sci_machine_answer(
    object: &mut SciObject,
    node: u8,
    packet: &mut SciPacket,
) -> u32
    ensures found { result ≡ SCI_OK → On machine_in object.old.value
        (λ machine. (node < machine.size.nodes) × IsAnswerOf packet.new (node_at machine node)) }
    ensures none { result ≡ SCI_NOT_ENABLED → On machine_in object.old.value
        (λ machine. (node < machine.size.nodes) × ((node_at machine node).waiting ≡ None)) }
    ensures range { result ≡ SCI_RANGE → On machine_in object.old.value (λ machine. machine.size.nodes ≤ node) }
    ensures same { result ≢ SCI_OK → packet.new ≡ packet.old }
    ensures kept { IsLook machine_in (SCI_NOT_ENABLED ∷ SCI_RANGE ∷ []) object.old.value result object.new.value }
{
    let Some(machine) = object.machine() else {
        return SCI_MISUSE;
    };
    if node >= machine.extent().nodes {
        return SCI_RANGE;
    }
    read_answer(machine.node(node), packet)
}

/// The kind of lanes with this number: 0 for requests, 1 for answers.
fn lane_kind(number: u32) -> Option<LaneKind>
    ensures { MatchOption result (2 ≤ number) (λ kind. kind_number kind ≡ number) }
{
    match number {
        0 => Some(LaneKind::Requests),
        1 => Some(LaneKind::Answers),
        _ => None,
    }
}

/// Reads the packet at a place of a lane, counted from the oldest.
fn read_packet(
    machine: &Machine,
    kind: LaneKind,
    ends: (u8, u8),
    place: usize,
    packet: &mut SciPacket,
) -> u32
    requires from { ends.0 < machine.now.size.nodes }
    requires to { ends.1 < machine.now.size.nodes }
    ensures found { result ≡ SCI_OK → IsPacketAt (lane_of machine.now kind ends.0 ends.1) place packet.new }
    ensures none { result ≡ SCI_NOT_ENABLED → slice_get (lane_of machine.now kind ends.0 ends.1) place ≡ None }
    ensures same { result ≢ SCI_OK → packet.new ≡ packet.old }
    ensures status { (result ≡ SCI_OK) ⊎ (result ≡ SCI_NOT_ENABLED) }
{
    match machine.lane(kind, ends.0, ends.1).get(place) {
        Some(found) => {
            *packet = packet_out(found);
            SCI_OK
        }
        None => SCI_NOT_ENABLED,
    }
}

/// Reads the packet at a place of a lane, counted from the oldest. Lanes of requests have the number 0, those of answers 1.
#[unsafe(no_mangle)]
pub extern "C" fn sci_machine_packet(
    object: &mut SciObject,
    lane: u32,
    from: u8,
    to: u8,
    place: usize,
    packet: &mut SciPacket,
) -> u32
    ensures found { result ≡ SCI_OK → On machine_in object.old.value (IsPacketIn lane from to place packet.new) }
    ensures none { result ≡ SCI_NOT_ENABLED → On machine_in object.old.value (HasNoPacket lane from to place) }
    ensures range { result ≡ SCI_RANGE → On machine_in object.old.value (HasNoSuchLane lane from to) }
    ensures same { result ≢ SCI_OK → packet.new ≡ packet.old }
    ensures kept { IsLook machine_in (SCI_NOT_ENABLED ∷ SCI_RANGE ∷ []) object.old.value result object.new.value }
{
    let Some(machine) = object.machine() else {
        return SCI_MISUSE;
    };
    let nodes = machine.extent().nodes;
    let Some(kind) = lane_kind(lane) else {
        return SCI_RANGE;
    };
    if from >= nodes || to >= nodes {
        return SCI_RANGE;
    }
    read_packet(machine, kind, (from, to), place, packet)
}

/// Writes the sharing list of a line over the first bytes, if there is room, and how many nodes it has.
#[unsafe(no_mangle)]
pub extern "C" fn sci_machine_sharing(
    alloc: Global,
    object: &mut SciObject,
    line: u8,
    nodes: &mut [u8],
    used: &mut usize,
) -> u32
    ensures found { result ≡ SCI_OK → On machine_in object.old.value (IsSharingOf line nodes.old nodes.new used.new) }
    ensures full { result ≡ SCI_FULL → On machine_in object.old.value (IsLongerSharing line nodes.old used.new) }
    ensures range { result ≡ SCI_RANGE → On machine_in object.old.value (λ machine. machine.size.lines ≤ line) }
    ensures memory { result ≡ SCI_NO_MEMORY → On machine_in object.old.value (λ machine. line < machine.size.lines) }
    ensures same { result ≢ SCI_OK → nodes.new ≡ nodes.old }
    ensures same_used { result ≢ SCI_OK → result ≢ SCI_FULL → used.new ≡ used.old }
    ensures kept { IsLook machine_in (SCI_NO_MEMORY ∷ SCI_RANGE ∷ SCI_FULL ∷ [])
        object.old.value result object.new.value }
{
    let Some(machine) = object.machine() else {
        return SCI_MISUSE;
    };
    if line >= machine.extent().lines {
        return SCI_RANGE;
    }
    match machine.sharing_list(alloc, line) {
        Ok(members) => put_over(&members, nodes, used),
        Err(_) => SCI_NO_MEMORY,
    }
}

/// Gives why an event isn't enabled: the first thing that stands in its way, or 0 if it is enabled.
#[unsafe(no_mangle)]
pub extern "C" fn sci_machine_obstacle(
    object: &mut SciObject,
    event: &SciEvent,
    obstacle: &mut u32,
) -> u32
    ensures found { result ≡ SCI_OK → On machine_in object.old.value (IsObstacleTo event.now obstacle.new) }
    ensures range { result ≡ SCI_RANGE → SaysNone (SaysEvent event.now) }
    ensures same { result ≢ SCI_OK → obstacle.new ≡ obstacle.old }
    ensures kept { IsLook machine_in (SCI_RANGE ∷ []) object.old.value result object.new.value }
{
    let Some(machine) = object.machine() else {
        return SCI_MISUSE;
    };
    let Some(event) = event_in(event) else {
        return SCI_RANGE;
    };
    *obstacle = obstacle_out(machine.obstacle_to(&event));
    SCI_OK
}
