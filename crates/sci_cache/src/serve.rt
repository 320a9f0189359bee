//! What each state does with a request of another cache.

ghost use Rattle.std.specs.Prelude.{◌≡◌, if◌then◌else◌, ◌==◌, Some};
ghost use Rattle.sci_cache.specs.Serving.{IsForCache, serving, serving_cread, serving_purge, serving_roll, serving_setback, is_next};
ghost use Rattle.sci_cache.specs.Held.{state_of};

use crate::held::Held;
use crate::states::*;
use sci_packets::{Body, NodeId};
use sci_words::Stamped;

impl Held {
    /// Serves a request of `sender`, a Cread, Purge, Roll or Setback, and gives the answer.
    pub(crate) fn serve(&mut self, sender: NodeId, request: &Body) -> Body
        requires { IsForCache request.now }
        ensures { serving (state_of self.old) sender request.now
            ≡ Some (state_of self.new, result) }
    {
        match *request {
            Body::Cread => self.serve_cread(sender),
            Body::Purge => self.serve_purge(),
            Body::Roll { forward } => self.serve_roll(sender, forward),
            Body::Setback { backward } => self.serve_setback(sender, backward),
            _ => unreachable!(),
        }
    }

    fn serve_cread(&mut self, joiner: NodeId) -> Body
        ensures { (state_of self.new, result) ≡ serving_cread (state_of self.old) joiner }
    {
        let below = match self {
            Held::Head(state) => below(state.forward, joiner, state.contents),
            Held::FreshHead(state) => below(state.forward, joiner, state.contents),
            _ => return Body::Busy,
        };
        let answer = Body::Cdata(below.contents);
        *self = Held::Below(below);
        answer
    }

    fn serve_purge(&mut self) -> Body
        ensures { (state_of self.new, result) ≡ serving_purge (state_of self.old) }
    {
        match self {
            Held::Below(state) => {
                let forward = state.forward;
                *self = Held::Out(OutState);
                Body::Purged { forward }
            }
            Held::Rolling(state) => {
                let forward = state.forward;
                *self = Held::Fading(Fading);
                Body::Purged { forward }
            }
            _ => Body::Busy,
        }
    }

    fn serve_roll(&mut self, leaver: NodeId, behind: Option<NodeId>) -> Body
        ensures { (state_of self.new, result) ≡ serving_roll (state_of self.old) leaver behind }
    {
        match self {
            Held::Head(state) => pass_on(&mut state.forward, leaver, behind),
            Held::FreshHead(state) => pass_on(&mut state.forward, leaver, behind),
            Held::Below(state) => pass_on(&mut state.forward, leaver, behind),
            _ => Body::Busy,
        }
    }

    fn serve_setback(&mut self, leaver: NodeId, before: NodeId) -> Body
        ensures { (state_of self.new, result) ≡ serving_setback (state_of self.old) leaver before }
    {
        match self {
            Held::Below(state) => set_back(&mut state.backward, leaver, before),
            Held::Rolling(state) => set_back(&mut state.backward, leaver, before),
            _ => {}
        }
        Body::Told
    }
}

/// A head with this next entry and these contents, once `joiner` has joined before it.
fn below(forward: Option<NodeId>, joiner: NodeId, contents: Stamped) -> Below
    ensures { result ≡ record { forward = forward; backward = joiner; contents = contents } }
{
    Below {
        forward,
        backward: joiner,
        contents,
    }
}

/// Lets `leaver` leave if it is the next entry: `behind` is the next entry then. Gives the answer to it.
fn pass_on(forward: &mut Option<NodeId>, leaver: NodeId, behind: Option<NodeId>) -> Body
    ensures link { forward.new ≡ (if is_next forward.old leaver then behind else forward.old) }
    ensures answer { result ≡ (if is_next forward.old leaver then Body.Rolled else Body.Busy) }
{
    match *forward {
        Some(next) if next.get() == leaver.get() => {
            *forward = behind;
            Body::Rolled
        }
        _ => Body::Busy,
    }
}

/// Takes `before` as the entry before, if that was `leaver`.
fn set_back(backward: &mut NodeId, leaver: NodeId, before: NodeId)
    ensures { backward.new ≡ (if backward.old == leaver then before else backward.old) }
{
    if backward.get() == leaver.get() {
        *backward = before;
    }
}
