//! A whole turn of a node, by its policy.

ghost use Rattle.std.specs.Prelude.{◌≡◌, ◌≢◌, ◌<◌, ◌≤◌, ◌+◌, ◌∷◌, [], ℕ, List, IsTrue, true, false, length};
ghost use Rattle.sci_c_values.specs.declared.packet.SciPacket.{SciPacket as SciPacketValue};
ghost use Rattle.sci_c.specs.declared.taking.Taking.{Taking as TakingValue};
ghost use Rattle.sci_words.specs.declared.limits.TheConstants.{MAX_NODES};
ghost use Rattle.sci_cache.specs.Cache.{letter_of};
ghost use Rattle.sci_c_values.specs.declared.status.TheConstants.{SCI_FULL, SCI_OK, SCI_RANGE};
ghost use Rattle.sci_c.specs.{Calls.{IsChange}, Kinds.{ChangesBy, node_in}, Taking.{IsRequestFor}};
ghost use Rattle.sci_c.specs.Turning.{AcceptsAt, AcceptsStruct, Asks, AsksSome, EndsAsking, HasDone, HasTakenStruct, IsTurn, Keeps};
ghost use Rattle.sci_c.specs.Turning.{LeavesRequest, Replies, Sends, SendsNone, TakesAt, UpTo, stage};

use crate::controller::Controller;
use crate::handle::SciObject;
use crate::taking::{Taking, is_request_for};
use sci_c_values::{
    SCI_FULL, SCI_MISUSE, SCI_OK, SCI_RANGE, SciPacket, SciWant, packet_in, packet_out, want_out,
};
use sci_packets::Packet;
use sci_policy::{Decision, Want};

/// How often a node asks at most in a turn.
const ASKS: usize = 4;

/// Puts a packet to send at the next place of the room. Requires that there is one.
fn send(packet: &Packet, room: &mut [SciPacket], used: &mut usize)
    requires { used.old < length room.old }
    ensures sent { Sends (letter_of packet.now) room.old used.old room.new used.new }
    ensures one { used.new ≡ used.old + 1 }
    ensures room { length room.new ≡ length room.old }
{
    room[*used] = packet_out(packet);
    *used += 1;
}

/// Sends the answer that waits, if one does. Requires that there is room for it.
fn reply(controller: &mut Controller, room: &mut [SciPacket], used: &mut usize)
    requires { used.old < length room.old }
    ensures replies { (taken : List ℕ) → Replies (stage controller.old taken room.old used.old)
        (stage controller.new taken room.new used.new) }
    ensures few { used.new ≤ used.old + 1 }
    ensures room { length room.new ≡ length room.old }
{
    if let Some(answer) = controller.node.take_answer() {
        send(&answer, room, used);
    }
}

/// Accepts the answer that a struct says, if it says one that the node accepts: 1, and else 0.
fn accept_struct(controller: &mut Controller, said: &SciPacket) -> u8
    ensures { AcceptsStruct said.now controller.old controller.new result }
{
    let Ok(packet) = packet_in(said) else {
        return 0;
    };
    if !Taking::Accept.may(&controller.node, &packet) {
        return 0;
    }
    if Taking::Accept.give(&mut controller.node, &packet) {
        1
    } else {
        0
    }
}

/// Accepts the answers among the packets that have come, and marks them. Requires as many marks.
fn accept_all(controller: &mut Controller, came: &[SciPacket], taken: &mut [u8])
    requires { length came.now ≤ length taken.old }
    ensures accepts { (room : List SciPacketValue) (used : ℕ) → UpTo (AcceptsAt came.now) (length came.now)
        (stage controller.old taken.old room used) (stage controller.new taken.new room used) }
    ensures marks { length taken.new ≡ length taken.old }
{
    for i in 0..came.len() {
        taken[i] = accept_struct(controller, &came[i]);
    }
}

/// Serves or refuses a request, as the policy decides. False, unchanged, if it is kept or an answer waits. Requires that it
/// may be given to the node, and that its sender is a node.
fn take_request(controller: &mut Controller, packet: &Packet) -> bool
    requires may { IsRequestFor controller.old.node (letter_of packet.now) }
    requires sender { packet.now.source < MAX_NODES }
    ensures done { IsTrue result → (taking : TakingValue)
        × HasDone taking (letter_of packet.now) controller.old controller.new }
    ensures keeps { result ≡ false → Keeps (letter_of packet.now) controller.old }
    ensures same { result ≡ false → controller.new ≡ controller.old }
{
    let taking = match controller.policy.decide(&controller.node, packet) {
        Decision::Keep => return false,
        Decision::Refuse => Taking::Refuse,
        Decision::Serve => Taking::Serve,
    };
    if !taking.give(&mut controller.node, packet) {
        return false;
    }
    taking.note(&mut controller.policy, packet);
    true
}

/// Takes the request that a struct says, if it says one that may be given to the node and that the policy doesn't keep, and
/// sends its answer. False, unchanged, if not. Requires that there is room.
fn take_struct(
    controller: &mut Controller,
    said: &SciPacket,
    room: &mut [SciPacket],
    used: &mut usize,
) -> bool
    requires { used.old < length room.old }
    ensures taken { IsTrue result → (taken : List ℕ) → HasTakenStruct said.now
        (stage controller.old taken room.old used.old) (stage controller.new taken room.new used.new) }
    ensures leaves { result ≡ false → LeavesRequest said.now controller.old }
    ensures same { result ≡ false → controller.new ≡ controller.old }
    ensures none_sent { result ≡ false → SendsNone room.old used.old room.new used.new }
    ensures few { used.new ≤ used.old + 1 }
    ensures room { length room.new ≡ length room.old }
{
    let Ok(packet) = packet_in(said) else {
        return false;
    };
    if !is_request_for(&controller.node, &packet) {
        return false;
    }
    if !take_request(controller, &packet) {
        return false;
    }
    reply(controller, room, used);
    true
}

/// Takes the requests among the packets that have come, marks those that were taken, and sends their answers. Requires as
/// many marks, and room for an answer to each.
fn take_all(
    controller: &mut Controller,
    came: &[SciPacket],
    taken: &mut [u8],
    room: &mut [SciPacket],
    used: &mut usize,
)
    requires marks { length came.now ≤ length taken.old }
    requires room { used.old + length came.now ≤ length room.old }
    ensures takes { UpTo (TakesAt came.now) (length came.now) (stage controller.old taken.old room.old used.old)
        (stage controller.new taken.new room.new used.new) }
    ensures few { used.new ≤ used.old + length came.now }
    ensures room { length room.new ≡ length room.old }
{
    for i in 0..came.len() {
        if take_struct(controller, &came[i], room, used) {
            taken[i] = 1;
        }
    }
}

/// Asks what the policy wants, and sends the request. False if the policy wants to ask nothing, with what it wants. Requires
/// that there is room.
fn ask_once(
    controller: &mut Controller,
    room: &mut [SciPacket],
    used: &mut usize,
    want: &mut SciWant,
) -> bool
    requires { used.old < length room.old }
    ensures asks { IsTrue result → (taken : List ℕ) (i : ℕ) → Asks i (stage controller.old taken room.old used.old)
        (stage controller.new taken room.new used.new) }
    ensures ends { result ≡ false → (taken : List ℕ) → EndsAsking want.new
        (stage controller.old taken room.old used.old) (stage controller.new taken room.new used.new) }
    ensures few { used.new ≤ used.old + 1 }
    ensures room { length room.new ≡ length room.old }
{
    let wanted = controller.policy.next(&controller.node);
    if let Some(Want::Ask(line, kind)) = wanted {
        if let Some(request) = controller.node.ask(line, kind) {
            send(&request, room, used);
            return true;
        }
    }
    *want = want_out(wanted);
    false
}

/// Asks up to four times what the policy wants, and gives what it wants then, or nothing if it asked four times. Requires
/// room for four packets.
fn ask_some(
    controller: &mut Controller,
    room: &mut [SciPacket],
    used: &mut usize,
    want: &mut SciWant,
)
    requires { used.old + 4 ≤ length room.old }
    ensures { (taken : List ℕ) → AsksSome want.new (stage controller.old taken room.old used.old)
        (stage controller.new taken room.new used.new) }
{
    for _asked in 0..ASKS {
        if !ask_once(controller, room, used, want) {
            return;
        }
    }
    *want = want_out(None);
}

/// Takes a turn of a node. Requires a mark for each packet that has come, and room for five packets more.
fn take_turn(
    controller: &mut Controller,
    came: &[SciPacket],
    taken: &mut [u8],
    room: &mut [SciPacket],
    used: &mut usize,
) -> SciWant
    requires marks { length came.now ≤ length taken.old }
    requires room { length came.now + 5 ≤ length room.old }
    ensures { IsTurn came.now result (stage controller.old taken.old room.old 0)
        (stage controller.new taken.new room.new used.new) }
{
    let mut want = want_out(None);
    *used = 0;
    controller.policy.begin_turn();
    reply(controller, room, used);
    accept_all(controller, came, taken);
    take_all(controller, came, taken, room, used);
    ask_some(controller, room, used, &mut want);
    want
}

/// Takes a turn of the node by its policy, with the packets that have come, and gives the packets to send, how many they are,
/// a mark for each packet that was taken, and what the node wants then.
#[unsafe(no_mangle)]
pub extern "C" fn sci_node_turn(
    object: &mut SciObject,
    came: &[SciPacket],
    taken: &mut [u8],
    sent: &mut [SciPacket],
    used: &mut usize,
    want: &mut SciWant,
) -> u32
    ensures done { result ≡ SCI_OK → ChangesBy node_in object.old.value object.new.value (λ before after.
        IsTurn came.now want.new (stage before taken.old sent.old 0) (stage after taken.new sent.new used.new)) }
    ensures range { result ≡ SCI_RANGE → length taken.old < length came.now }
    ensures marks { result ≡ SCI_OK → length came.now ≤ length taken.old }
    ensures full { result ≡ SCI_FULL → (length came.now ≤ length taken.old) × (length sent.old < length came.now + 5) }
    ensures room { result ≡ SCI_OK → length came.now + 5 ≤ length sent.old }
    ensures change { IsChange node_in (SCI_RANGE ∷ SCI_FULL ∷ []) object.old.value result object.new.value }
    ensures same_taken { result ≢ SCI_OK → taken.new ≡ taken.old }
    ensures same_sent { result ≢ SCI_OK → sent.new ≡ sent.old }
    ensures same_used { result ≢ SCI_OK → used.new ≡ used.old }
    ensures same_want { result ≢ SCI_OK → want.new ≡ want.old }
{
    let Some(controller) = object.node() else {
        return SCI_MISUSE;
    };
    if taken.len() < came.len() {
        return SCI_RANGE;
    }
    if sent.len() < came.len() + 1 + ASKS {
        return SCI_FULL;
    }
    *want = take_turn(controller, came, taken, sent, used);
    SCI_OK
}
