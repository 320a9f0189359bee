//! What each state does with an answer.

ghost use Rattle.std.specs.Prelude.{◌≡◌, option_map};
ghost use Rattle.sci_cache.specs.State.{Asking as Asking_of, Joining as Joining_of, FreshJoining as FreshJoining_of, Purging as Purging_of};
ghost use Rattle.sci_cache.specs.State.{Claiming as Claiming_of, Clearing as Clearing_of, Returning as Returning_of, Rolling as Rolling_of};
ghost use Rattle.sci_cache.specs.{State.{Telling as Telling_of, Fading as Fading_of}, Accepting.{accepting}};
ghost use Rattle.sci_cache.specs.Held.{state_of};

use crate::held::Held;
use crate::states::*;
use sci_packets::{Body, NodeId};
use sci_words::Stamped;

fn head(forward: Option<NodeId>, contents: Stamped) -> Held
    ensures { result ≡ Held.Head (record { forward = forward; contents = contents }) }
{
    Held::Head(HeadState { forward, contents })
}

fn fresh_head(forward: Option<NodeId>, contents: Stamped) -> Held
    ensures { result ≡ Held.FreshHead (record { forward = forward; contents = contents }) }
{
    Held::FreshHead(FreshHead { forward, contents })
}

impl Asking {
    /// Takes the home's answer. None if it isn't awaited.
    pub(crate) fn accept(self, answer: &Body) -> Option<Held>
        ensures { accepting Asking_of answer.now ≡ option_map state_of result }
    {
        match *answer {
            Body::Mdata(contents) => Some(head(None, contents)),
            Body::Mgone { old_head } => Some(Held::Joining(Joining {
                old_head,
                sent: false,
            })),
            Body::Fdata {
                old_head: None,
                contents,
            } => Some(fresh_head(None, contents)),
            Body::Fdata {
                old_head: Some(old_head),
                contents,
            } => Some(Held::FreshJoining(FreshJoining {
                old_head,
                sent: false,
                contents,
            })),
            Body::Busy => Some(Held::Out(OutState)),
            _ => None,
        }
    }
}

impl Joining {
    /// Takes the old head's answer. None if it isn't awaited.
    pub(crate) fn accept(self, answer: &Body) -> Option<Held>
        ensures { accepting (Joining_of self.old_head self.sent) answer.now
            ≡ option_map state_of result }
    {
        if !self.sent {
            return None;
        }
        match *answer {
            Body::Cdata(contents) => Some(head(Some(self.old_head), contents)),
            Body::Busy => Some(Held::Joining(Joining {
                old_head: self.old_head,
                sent: false,
            })),
            _ => None,
        }
    }
}

impl FreshJoining {
    /// Takes the old head's answer. None if it isn't awaited.
    pub(crate) fn accept(self, answer: &Body) -> Option<Held>
        ensures { accepting (FreshJoining_of self.old_head self.sent self.contents) answer.now
            ≡ option_map state_of result }
    {
        if !self.sent {
            return None;
        }
        match *answer {
            Body::Cdata(_) => Some(fresh_head(Some(self.old_head), self.contents)),
            Body::Busy => Some(Held::FreshJoining(FreshJoining {
                old_head: self.old_head,
                sent: false,
                contents: self.contents,
            })),
            _ => None,
        }
    }
}

impl Purging {
    /// Takes the answer of the entry that was told to leave. None if it isn't awaited.
    pub(crate) fn accept(self, answer: &Body) -> Option<Held>
        ensures { accepting (Purging_of self.next self.contents) answer.now
            ≡ option_map state_of result }
    {
        match *answer {
            Body::Purged { forward } => Some(head(forward, self.contents)),
            Body::Busy => Some(head(Some(self.next), self.contents)),
            _ => None,
        }
    }
}

impl Claiming {
    /// Takes the home's answer. None if it isn't awaited.
    pub(crate) fn accept(self, answer: &Body) -> Option<Held>
        ensures { accepting (Claiming_of self.forward self.contents) answer.now
            ≡ option_map state_of result }
    {
        match *answer {
            Body::Wbok => Some(head(self.forward, self.contents)),
            Body::Wbno | Body::Busy => Some(fresh_head(self.forward, self.contents)),
            _ => None,
        }
    }
}

impl Clearing {
    /// Takes the home's answer. None if it isn't awaited.
    pub(crate) fn accept(self, answer: &Body) -> Option<Held>
        ensures { accepting (Clearing_of self.contents) answer.now ≡ option_map state_of result }
    {
        match *answer {
            Body::Wbok => Some(Held::Out(OutState)),
            Body::Wbno | Body::Busy => Some(fresh_head(None, self.contents)),
            _ => None,
        }
    }
}

impl Returning {
    /// Takes the home's answer. None if it isn't awaited.
    pub(crate) fn accept(self, answer: &Body) -> Option<Held>
        ensures { accepting (Returning_of self.contents) answer.now ≡ option_map state_of result }
    {
        match *answer {
            Body::Wbok => Some(Held::Out(OutState)),
            Body::Wbno | Body::Busy => Some(head(None, self.contents)),
            _ => None,
        }
    }
}

impl Rolling {
    /// Takes the answer of the entry before. None if it isn't awaited.
    pub(crate) fn accept(self, answer: &Body) -> Option<Held>
        ensures { accepting (Rolling_of self.forward self.backward self.contents) answer.now
            ≡ option_map state_of result }
    {
        match *answer {
            Body::Rolled => Some(match self.forward {
                None => Held::Out(OutState),
                Some(behind) => Held::Telling(Telling {
                    behind,
                    before: self.backward,
                    sent: false,
                }),
            }),
            Body::Busy => Some(Held::Below(Below {
                forward: self.forward,
                backward: self.backward,
                contents: self.contents,
            })),
            _ => None,
        }
    }
}

impl Telling {
    /// Takes the answer of the entry behind. None if it isn't awaited.
    pub(crate) fn accept(self, answer: &Body) -> Option<Held>
        ensures { accepting (Telling_of self.behind self.before self.sent) answer.now
            ≡ option_map state_of result }
    {
        if !self.sent {
            return None;
        }
        match *answer {
            Body::Told => Some(Held::Out(OutState)),
            _ => None,
        }
    }
}

impl Fading {
    /// Takes the answer to its Roll. None if it isn't awaited.
    pub(crate) fn accept(self, answer: &Body) -> Option<Held>
        ensures { accepting Fading_of answer.now ≡ option_map state_of result }
    {
        match *answer {
            Body::Busy => Some(Held::Out(OutState)),
            _ => None,
        }
    }
}
