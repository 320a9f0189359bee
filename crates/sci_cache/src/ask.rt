//! What each state becomes by its asks.

ghost use Rattle.std.specs.Prelude.{◌≡◌, IfSome};
ghost use Rattle.sci_words.specs.declared.event.AskKind.{AskKind};
ghost use Rattle.sci_cache.specs.Asking.{asking};
ghost use Rattle.sci_cache.specs.State.{Out, Joining as Joining_of, FreshJoining as FreshJoining_of, Head, FreshHead as FreshHead_of, Below as Below_of};
ghost use Rattle.sci_cache.specs.{State.{Telling as Telling_of}, Held.{state_of}};

use crate::held::Held;
use crate::states::*;
use sci_words::AskKind;

impl OutState {
    /// Goes on to await the home's answer.
    pub(crate) fn ask(self) -> Held
        ensures { (kind : AskKind) →
            IfSome (asking Out kind) (λ asked. state_of result ≡ asked.next) }
    {
        Held::Asking(Asking)
    }
}

impl Joining {
    /// Goes on to await the old head's answer.
    pub(crate) fn ask(self) -> Held
        ensures { (kind : AskKind) →
            IfSome (asking (Joining_of self.old_head self.sent) kind)
            (λ asked. state_of result ≡ asked.next) }
    {
        Held::Joining(Joining {
            old_head: self.old_head,
            sent: true,
        })
    }
}

impl FreshJoining {
    /// Goes on to await the old head's answer.
    pub(crate) fn ask(self) -> Held
        ensures { (kind : AskKind) →
            IfSome (asking (FreshJoining_of self.old_head self.sent self.contents) kind)
            (λ asked. state_of result ≡ asked.next) }
    {
        Held::FreshJoining(FreshJoining {
            old_head: self.old_head,
            sent: true,
            contents: self.contents,
        })
    }
}

impl HeadState {
    /// Goes on to await the answer of the next entry, which is to leave, or of the home, which takes the contents.
    pub(crate) fn ask(self) -> Held
        ensures { (kind : AskKind) →
            IfSome (asking (Head self.forward self.contents) kind)
            (λ asked. state_of result ≡ asked.next) }
    {
        match self.forward {
            Some(next) => Held::Purging(Purging {
                next,
                contents: self.contents,
            }),
            None => Held::Returning(Returning {
                contents: self.contents,
            }),
        }
    }
}

impl FreshHead {
    /// Goes on to await the home's answer to a request of this kind.
    pub(crate) fn ask(self, kind: AskKind) -> Held
        ensures { IfSome (asking (FreshHead_of self.forward self.contents) kind)
            (λ asked. state_of result ≡ asked.next) }
    {
        match kind {
            AskKind::Claim => Held::Claiming(Claiming {
                forward: self.forward,
                contents: self.contents,
            }),
            _ => Held::Clearing(Clearing {
                contents: self.contents,
            }),
        }
    }
}

impl Below {
    /// Goes on to await the answer of the entry before it.
    pub(crate) fn ask(self) -> Held
        ensures { (kind : AskKind) →
            IfSome (asking (Below_of self.forward self.backward self.contents) kind)
            (λ asked. state_of result ≡ asked.next) }
    {
        Held::Rolling(Rolling {
            forward: self.forward,
            backward: self.backward,
            contents: self.contents,
        })
    }
}

impl Telling {
    /// Goes on to await the answer of the entry behind.
    pub(crate) fn ask(self) -> Held
        ensures { (kind : AskKind) →
            IfSome (asking (Telling_of self.behind self.before self.sent) kind)
            (λ asked. state_of result ≡ asked.next) }
    {
        Held::Telling(Telling {
            behind: self.behind,
            before: self.before,
            sent: true,
        })
    }
}
