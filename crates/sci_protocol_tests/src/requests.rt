//! What each state asks, and which answers each request can have.

use sci_cache::Held;
use sci_packets::{Body, NodeId};
use sci_words::AskKind;

/// The request of this kind that a state makes, and to whom; None stands for the line's home.
pub fn request_of(held: &Held, kind: AskKind) -> Option<(Option<NodeId>, Body)> {
    match (held, kind) {
        (Held::Out(_), AskKind::Mread) => Some((None, Body::Mread)),
        (Held::Out(_), AskKind::Fread) => Some((None, Body::Fread)),
        (Held::Joining(state), AskKind::Cread) if !state.sent => {
            Some((Some(state.old_head), Body::Cread))
        }
        (Held::FreshJoining(state), AskKind::Cread) if !state.sent => {
            Some((Some(state.old_head), Body::Cread))
        }
        (Held::Head(state), AskKind::Purge) => Some((Some(state.forward?), Body::Purge)),
        (Held::Head(state), AskKind::Wback) if state.forward.is_none() => Some((
            None,
            Body::Wback(state.contents),
        )),
        (Held::FreshHead(_), AskKind::Claim) => Some((None, Body::Claim)),
        (Held::FreshHead(state), AskKind::Clear) if state.forward.is_none() => Some((
            None,
            Body::Clear,
        )),
        (Held::Below(state), AskKind::Roll) => {
            let forward = state.forward;
            Some((Some(state.backward), Body::Roll { forward }))
        }
        (Held::Telling(state), AskKind::Setback) if !state.sent => {
            let backward = state.before;
            Some((Some(state.behind), Body::Setback { backward }))
        }
        _ => None,
    }
}

/// Whether an answer is one that a request can have.
pub fn is_answered_by(request: &Body, answer: &Body) -> bool {
    match (request, answer) {
        (Body::Mread, Body::Mdata(_) | Body::Mgone { .. }) => true,
        (Body::Fread, Body::Fdata { .. } | Body::Mgone { .. }) => true,
        (Body::Claim | Body::Clear | Body::Wback(_), Body::Wbok | Body::Wbno) => true,
        (Body::Cread, Body::Cdata(_) | Body::Busy) => true,
        (Body::Purge, Body::Purged { .. } | Body::Busy) => true,
        (Body::Roll { .. }, Body::Rolled | Body::Busy) => true,
        (Body::Setback { .. }, Body::Told) => true,
        _ => false,
    }
}
