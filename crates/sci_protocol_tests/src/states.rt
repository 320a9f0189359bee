//! The states of caches and homes in words: a name, the nodes that are named, whether a request is sent, and the contents.

use crate::words::{Link, push_contents, push_link};
use sci_cache::Held;
use sci_home::HomeState;
use std::alloc::{AllocError, Global};

/// The node behind, or the one that is to become it.
fn behind(held: &Held) -> Option<Link> {
    match held {
        Held::Joining(state) => Some(("old", Some(state.old_head))),
        Held::FreshJoining(state) => Some(("old", Some(state.old_head))),
        Held::Head(state) => Some(("forward", state.forward)),
        Held::FreshHead(state) => Some(("forward", state.forward)),
        Held::Below(state) => Some(("forward", state.forward)),
        Held::Purging(state) => Some(("next", Some(state.next))),
        Held::Claiming(state) => Some(("forward", state.forward)),
        Held::Rolling(state) => Some(("forward", state.forward)),
        Held::Telling(state) => Some(("behind", Some(state.behind))),
        _ => None,
    }
}

/// The node before.
fn before(held: &Held) -> Option<Link> {
    match held {
        Held::Below(state) => Some(("backward", Some(state.backward))),
        Held::Rolling(state) => Some(("backward", Some(state.backward))),
        Held::Telling(state) => Some(("before", Some(state.before))),
        _ => None,
    }
}

/// The state of a line in a cache, as `Below forward none backward 1 @1 7` or `Joining old 0 sent`.
pub fn state_text(alloc: Global, held: &Held) -> Result<String, AllocError> {
    let mut text = String::from_str(alloc, held.name())?;
    if let Some((label, node)) = behind(held) {
        push_link(&mut text, label, node)?;
    }
    if let Some((label, node)) = before(held) {
        push_link(&mut text, label, node)?;
    }
    if held.is_sent() {
        text.push_str(" sent")?;
    }
    if let Some(contents) = held.contents() {
        text.push(' ')?;
        push_contents(&mut text, &contents)?;
    }
    Ok(text)
}

/// The state of a line's home, as `GONE 1` or `FRESH 0 @0 0`.
pub fn home_text(alloc: Global, state: &HomeState) -> Result<String, AllocError> {
    let mut text = String::from_str(alloc, state.name())?;
    if let Some(head) = state.head() {
        let head = head.get();
        write!(text, " {head}")?;
    }
    match state {
        HomeState::Home(contents) | HomeState::Fresh { contents, .. } => {
            text.push(' ')?;
            push_contents(&mut text, contents)?;
        }
        HomeState::Gone { .. } => {}
    }
    Ok(text)
}
