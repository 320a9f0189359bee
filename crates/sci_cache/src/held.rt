//! The state of a cache for one line, whichever it is.

ghost use Rattle.std.specs.Prelude.{◌≡◌, option_map, false};
ghost use Rattle.sci_cache.specs.{Asking.{asking}, State.{Joining as Joining_of}};

use crate::fault::NotAwaited;
use crate::states::*;
use sci_packets::{Body, NodeId};
use sci_words::AskKind;

/// The state of a cache for one line.
#[derive(Clone, Copy, Debug, PartialEq, Eq)]
pub enum Held {
    Out(OutState),
    Asking(Asking),
    Joining(Joining),
    FreshJoining(FreshJoining),
    Head(HeadState),
    FreshHead(FreshHead),
    Below(Below),
    Purging(Purging),
    Claiming(Claiming),
    Clearing(Clearing),
    Returning(Returning),
    Rolling(Rolling),
    Telling(Telling),
    Fading(Fading),
}

impl Held {
    ghost use Rattle.std.specs.Prelude.{◌≡◌, IfSome, IsSome, IfOk, IsErr, Some, None, option_map};
    ghost use Rattle.sci_cache.specs.{State.{is_out as is_out_of, state_name}, Asking.{asking}, Accepting.{accepting, settled as settled_of}};
    ghost use Rattle.sci_cache.specs.Held.{state_of};

    /// The name of the state.
    #[tactic(auto, unfolding(crate::specs::State::state_name))]
    pub fn name(&self) -> &'static str
        ensures { result.now ≡ state_name (state_of self.now) }
    {
        match self {
            Held::Out(_) => "Out",
            Held::Asking(_) => "Asking",
            Held::Joining(_) => "Joining",
            Held::FreshJoining(_) => "FreshJoining",
            Held::Head(_) => "Head",
            Held::FreshHead(_) => "FreshHead",
            Held::Below(_) => "Below",
            Held::Purging(_) => "Purging",
            Held::Claiming(_) => "Claiming",
            Held::Clearing(_) => "Clearing",
            Held::Returning(_) => "Returning",
            Held::Rolling(_) => "Rolling",
            Held::Telling(_) => "Telling",
            Held::Fading(_) => "Fading",
        }
    }

    /// Whether the line has no entry.
    pub fn is_out(&self) -> bool
        ensures { result ≡ is_out_of (state_of self.now) }
    {
        matches!(self, Held::Out(_))
    }

    /// The request of this kind that the state makes, with its target (None for the line's home), or None if it makes
    /// none.
    pub(crate) fn asked(&self, kind: AskKind) -> Option<(Option<NodeId>, Body)>
        ensures request { result
            ≡ option_map (λ asked. (asked.to, asked.request)) (asking (state_of self.now) kind) }
        ensures made { IfSome result (λ _. IsSome (asking (state_of self.now) kind)) }
    {
        match self {
            Held::Out(_) => match kind {
                AskKind::Mread => Some((None, Body::Mread)),
                AskKind::Fread => Some((None, Body::Fread)),
                _ => None,
            },
            Held::Joining(state) if !state.sent => cread_of(kind, state.old_head),
            Held::FreshJoining(state) if !state.sent => cread_of(kind, state.old_head),
            Held::Head(state) => match kind {
                AskKind::Purge => state.forward.map(|next| (Some(next), Body::Purge)),
                AskKind::Wback if state.forward.is_none() => {
                    Some((None, Body::Wback(state.contents)))
                }
                _ => None,
            },
            Held::FreshHead(state) => match kind {
                AskKind::Claim => Some((None, Body::Claim)),
                AskKind::Clear if state.forward.is_none() => Some((None, Body::Clear)),
                _ => None,
            },
            Held::Below(state) if kind == AskKind::Roll => Some((
                Some(state.backward),
                Body::Roll {
                    forward: state.forward,
                },
            )),
            Held::Telling(state) if !state.sent && kind == AskKind::Setback => Some((
                Some(state.behind),
                Body::Setback {
                    backward: state.before,
                },
            )),
            _ => None,
        }
    }

    /// Makes the request of this kind, whose answer is awaited then. Requires that the state makes it.
    pub(crate) fn ask(&mut self, kind: AskKind)
        requires { IsSome (asking (state_of self.old) kind) }
        ensures { IfSome (asking (state_of self.old) kind)
            (λ asked. state_of self.new ≡ asked.next) }
    {
        match self {
            Held::Out(state) => *self = state.ask(),
            Held::Joining(state) => *self = state.ask(),
            Held::FreshJoining(state) => *self = state.ask(),
            Held::Head(state) => *self = state.ask(),
            Held::FreshHead(state) => *self = state.ask(kind),
            Held::Below(state) => *self = state.ask(),
            Held::Telling(state) => *self = state.ask(),
            _ => {}
        }
    }

    /// Takes an answer. Refused, unchanged, if the state doesn't list the answer.
    pub(crate) fn accept(&mut self, answer: &Body) -> Result<(), NotAwaited>
        ensures taken { IfOk result
            (λ _. accepting (state_of self.old) answer.now ≡ Some (state_of self.new)) }
        ensures refused { IsErr result → accepting (state_of self.old) answer.now ≡ None }
        ensures same { IsErr result → self.new ≡ self.old }
    {
        let accepted = match self {
            Held::Asking(state) => state.accept(answer),
            Held::Joining(state) => state.accept(answer),
            Held::FreshJoining(state) => state.accept(answer),
            Held::Purging(state) => state.accept(answer),
            Held::Claiming(state) => state.accept(answer),
            Held::Clearing(state) => state.accept(answer),
            Held::Returning(state) => state.accept(answer),
            Held::Rolling(state) => state.accept(answer),
            Held::Telling(state) => state.accept(answer),
            Held::Fading(state) => state.accept(answer),
            _ => None,
        };
        match accepted {
            Some(next) => {
                *self = next;
                Ok(())
            }
            None => Err(NotAwaited),
        }
    }

    /// The state once the answer that is under way, if any, has come. An answer that the state doesn't list leaves it.
    pub fn settled(&self, answer: &Option<Body>) -> Held
        ensures { state_of result ≡ settled_of (state_of self.now) answer.now }
    {
        let mut next = *self;
        if let Some(body) = answer {
            let _ = next.accept(body);
        }
        next
    }
}

/// The Cread of a joining member to the old head, if that is what is asked.
fn cread_of(kind: AskKind, old_head: NodeId) -> Option<(Option<NodeId>, Body)>
    ensures { result
        ≡ option_map (λ asked. (asked.to, asked.request))
        (asking (Joining_of old_head false) kind) }
{
    match kind {
        AskKind::Cread => Some((Some(old_head), Body::Cread)),
        _ => None,
    }
}
