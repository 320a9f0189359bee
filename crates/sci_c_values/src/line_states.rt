//! What a node has of a line: its cache's state, and its home's.

ghost use Rattle.std.specs.Prelude.{◌≡◌, Bool};
ghost use Rattle.sci_packets.specs.Table.{number_of};
ghost use Rattle.sci_cache.specs.Held.{state_of};
ghost use Rattle.sci_c_values.specs.LineStates.{contents_struct, flag, held_struct, home_number, home_struct, state_number};

use crate::stamped::{SciStamped, stamped_out};
use sci_cache::Held;
use sci_home::{Home, HomeState};
use sci_packets::NodeId;
use sci_words::{Stamped, WORDS_PER_LINE};

/// A cache's state for a line. `waits` is 1 if its request is under way, and `has_contents` if it has `contents`. `forward`
/// and `backward` are 0xFFFF where there is no such node.
#[repr(C)]
#[derive(Clone, Copy)]
pub struct SciHeld {
    pub state: u8,
    pub waits: u8,
    pub has_contents: u8,
    pub reserved: u8,
    pub forward: u16,
    pub backward: u16,
    pub contents: SciStamped,
}

/// A home's state. `has_contents` is 1 if it has `contents`. `head` is 0xFFFF where there is no such node.
#[repr(C)]
#[derive(Clone, Copy)]
pub struct SciHome {
    pub state: u8,
    pub has_contents: u8,
    pub head: u16,
    pub reserved: u32,
    pub contents: SciStamped,
}

/// The number of no node.
const NO_NODE: u16 = 0xFFFF;

/// 1 for true, and 0 for false.
fn flag_out(is: bool) -> u8
    ensures { result ≡ flag is }
{
    if is { 1 } else { 0 }
}

/// The number of a node, 0xFFFF for none.
fn node_out(node: Option<NodeId>) -> u16
    ensures { result ≡ number_of node }
{
    match node {
        Some(node) => node.get(),
        None => NO_NODE,
    }
}

/// The struct of contents, all 0 if there are none.
fn contents_out(contents: Option<Stamped>) -> SciStamped
    ensures { result ≡ contents_struct contents }
{
    match contents {
        Some(contents) => stamped_out(&contents),
        None => SciStamped {
            version: 0,
            words: [0; WORDS_PER_LINE],
        },
    }
}

/// The number of a cache's state.
fn state_out(held: &Held) -> u8
    ensures { result ≡ state_number (state_of held.now) }
{
    match held {
        Held::Out(_) => 0,
        Held::Asking(_) => 1,
        Held::Joining(_) => 2,
        Held::FreshJoining(_) => 3,
        Held::Head(_) => 4,
        Held::FreshHead(_) => 5,
        Held::Below(_) => 6,
        Held::Purging(_) => 7,
        Held::Claiming(_) => 8,
        Held::Clearing(_) => 9,
        Held::Returning(_) => 10,
        Held::Rolling(_) => 11,
        Held::Telling(_) => 12,
        Held::Fading(_) => 13,
    }
}

/// The struct of a cache's state for a line.
pub fn held_out(held: &Held) -> SciHeld
    ensures { result ≡ held_struct (state_of held.now) }
{
    let contents = held.contents();
    SciHeld {
        state: state_out(held),
        waits: flag_out(held.waits()),
        has_contents: flag_out(contents.is_some()),
        reserved: 0,
        forward: node_out(held.forward()),
        backward: node_out(held.backward()),
        contents: contents_out(contents),
    }
}

/// The number of a home's state.
fn home_state_out(home: &HomeState) -> u8
    ensures { result ≡ home_number home.now }
{
    match home {
        HomeState::Home(_) => 0,
        HomeState::Fresh { .. } => 1,
        HomeState::Gone { .. } => 2,
    }
}

/// The struct of a home's state.
pub fn home_out(home: &Home) -> SciHome
    ensures { result ≡ home_struct home.now }
{
    let (state, contents) = (home.state(), home.current());
    SciHome {
        state: home_state_out(&state),
        has_contents: flag_out(contents.is_some()),
        head: node_out(state.head()),
        reserved: 0,
        contents: contents_out(contents),
    }
}
