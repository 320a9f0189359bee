//! What a home knows.

ghost use Rattle.std.specs.Prelude.{◌≡◌};

use sci_packets::{Body, NodeId};
use sci_words::Stamped;

/// What the home of a line knows (after the memory's states of IEEE Std 1596-1992).
#[derive(Clone, Copy, Debug, PartialEq, Eq)]
pub enum HomeState {
    /// No cache has the line; these are its contents (HOME).
    Home(Stamped),
    /// Caches may read the line, and `head` is the first of their list; the contents are current (FRESH).
    Fresh { head: NodeId, contents: Stamped },
    /// A cache may write the line, and `head` is the first of its list (GONE).
    Gone { head: NodeId },
}

impl HomeState {
    ghost use Rattle.std.specs.Prelude.{◌≡◌};
    ghost use Rattle.sci_home.specs.Serving.{head_of, home_name, serving_mread, serving_fread, serving_claim, serving_clear, serving_wback};

    /// The name of the state, as in the standard.
    #[tactic(auto, unfolding(crate::specs::Serving::home_name))]
    pub fn name(&self) -> &'static str
        ensures { result.now ≡ home_name self.now }
    {
        match self {
            HomeState::Home(_) => "HOME",
            HomeState::Fresh { .. } => "FRESH",
            HomeState::Gone { .. } => "GONE",
        }
    }

    /// The head of the list that the home knows.
    pub fn head(&self) -> Option<NodeId>
        ensures { result ≡ head_of self.now }
    {
        match self {
            HomeState::Home(_) => None,
            HomeState::Fresh { head, .. } | HomeState::Gone { head } => Some(*head),
        }
    }

    /// Serves an Mread of `sender`, and gives the answer.
    pub(crate) fn serve_mread(&mut self, sender: NodeId) -> Body
        ensures { (self.new, result) ≡ serving_mread self.old sender }
    {
        let answer = match self {
            HomeState::Home(contents) => Body::Mdata(*contents),
            HomeState::Fresh { head, .. } | HomeState::Gone { head } => Body::Mgone {
                old_head: *head,
            },
        };
        *self = HomeState::Gone { head: sender };
        answer
    }

    /// Serves an Fread of `sender`, and gives the answer.
    pub(crate) fn serve_fread(&mut self, sender: NodeId) -> Body
        ensures { (self.new, result) ≡ serving_fread self.old sender }
    {
        match self {
            HomeState::Home(contents) => {
                let contents = *contents;
                self.share(sender, None, &contents)
            }
            HomeState::Fresh { head, contents } => {
                let (head, contents) = (*head, *contents);
                self.share(sender, Some(head), &contents)
            }
            HomeState::Gone { head } => {
                let old_head = *head;
                *self = HomeState::Gone { head: sender };
                Body::Mgone { old_head }
            }
        }
    }

    /// Serves a Claim of `sender`, and gives the answer.
    pub(crate) fn serve_claim(&mut self, sender: NodeId) -> Body
        ensures { (self.new, result) ≡ serving_claim self.old sender }
    {
        match self {
            HomeState::Fresh { head, .. } if head.get() == sender.get() => {
                *self = HomeState::Gone { head: sender };
                Body::Wbok
            }
            _ => Body::Wbno,
        }
    }

    /// Serves a Clear of `sender`, and gives the answer.
    pub(crate) fn serve_clear(&mut self, sender: NodeId) -> Body
        ensures { (self.new, result) ≡ serving_clear self.old sender }
    {
        match self {
            HomeState::Fresh { head, contents } if head.get() == sender.get() => {
                *self = HomeState::Home(*contents);
                Body::Wbok
            }
            _ => Body::Wbno,
        }
    }

    /// Serves a Wback of `sender` with these contents, and gives the answer.
    pub(crate) fn serve_wback(&mut self, sender: NodeId, back: Stamped) -> Body
        ensures { (self.new, result) ≡ serving_wback self.old sender back }
    {
        match self {
            HomeState::Gone { head } if head.get() == sender.get() => {
                *self = HomeState::Home(back);
                Body::Wbok
            }
            _ => Body::Wbno,
        }
    }

    /// Makes `reader` the head of a fresh list, and gives the answer to it.
    fn share(&mut self, reader: NodeId, old_head: Option<NodeId>, contents: &Stamped) -> Body
        ensures state { self.new ≡ HomeState.Fresh reader contents.now }
        ensures answer { result ≡ Body.Fdata old_head contents.now }
    {
        *self = HomeState::Fresh {
            head: reader,
            contents: *contents,
        };
        Body::Fdata {
            old_head,
            contents: *contents,
        }
    }
}
