//! What the machine has of a line: its sharing list, from the home's head along the links of its members, the one of them
//! that may change the line, and the line's last contents.

ghost use Rattle.std.specs.Prelude.{◌≡◌, None, IfSome, IsSome};

use crate::state::State;
use sci_packets::NodeId;
use sci_words::Stamped;
use std::alloc::{AllocError, Global};

/// What the machine has of a line.
#[derive(Drop)]
pub struct Sharing {
    /// The sharing list: the numbers of its members, each once, from the home's head along their links.
    pub nodes: Vec<u8>,
    /// The one node that may change the line or is about to, or None if the home has the line alone.
    pub authority: Option<u8>,
    /// The line's last contents.
    pub last: Stamped,
}

/// The member that may change a line or is about to, with the line's contents.
#[derive(Clone, Copy)]
struct Authority {
    node: u8,
    contents: Stamped,
}

/// The members of a list, and the authority among them.
#[derive(Drop)]
struct Members {
    nodes: Vec<u8>,
    authority: Option<Authority>,
}

/// Notes the authority: a node that has the contents.
fn note(found: &mut Option<Authority>, node: u8, contents: Option<Stamped>)
    ensures here { IfSome contents
        (λ c. IfSome found.new (λ at. (at.node ≡ node) × (at.contents ≡ c)) × IsSome found.new) }
    ensures before { contents ≡ None → found.new ≡ found.old }
{
    if let Some(contents) = contents {
        *found = Some(Authority { node, contents });
    }
}

impl State {
    ghost use Rattle.std.specs.Prelude.{◌≡◌, ◌<◌, ℕ, All, IfOk, IfSome, IsSome, Some, None};
    ghost use Rattle.sci_home.specs.Serving.{head_of};
    ghost use Rattle.sci_cache.specs.Member.{contents_held};
    ghost use Rattle.sci_core.specs.Shape.{HasShape, IsAuthority};
    ghost use Rattle.sci_core.specs.Sharing.{home_at, last_at, settled_at};
    ghost use Rattle.sci_core.specs.{SharingList.{IsSharingList, link_at}, Tidy.{IsTidy}, WellFormed.{IsWellFormed}};

    /// The head of a line's list, or None if the home has the line alone. Requires that there is such a
    /// line.
    fn head(&self, line: u8) -> Option<NodeId>
        requires well { IsWellFormed self.now }
        requires line { line < self.now.size.lines }
        ensures { result ≡ head_of (home_at self.now line) }
    {
        match self.node(line % self.nodes()).home(line) {
            Some(home) => home.state().head(),
            None => unreachable!(),
        }
    }

    /// The entry behind a member of the list of a line. Notes the member, if it is the authority. Requires that
    /// there are such a node and such a line, and that the node is a member.
    fn behind(&self, line: u8, n: u8, found: &mut Option<Authority>) -> Option<NodeId>
        requires well { IsWellFormed self.now }
        requires tidy { IsTidy self.now }
        requires n { n < self.now.size.nodes }
        requires line { line < self.now.size.lines }
        requires member { link_at self.now line n ≡ None → ⊥ }
        ensures behind { link_at self.now line n ≡ Some result }
        ensures here { IfSome (contents_held (settled_at self.now line n))
            (λ c. IfSome found.new (λ at. (at.node ≡ n) × (at.contents ≡ c)) × IsSome found.new) }
        ensures before { contents_held (settled_at self.now line n) ≡ None
            → found.new ≡ found.old }
    {
        let settled = self.node(n).held(line).settled(&self.answer_to(n, line));
        note(found, n, settled.contents_held());
        match settled.link() {
            Some(behind) => behind,
            None => unreachable!(),
        }
    }

    /// The members of the list of a line. Requires that there is such a line. Refused if memory is.
    fn members(&self, alloc: Global, line: u8) -> Result<Members, AllocError>
        requires well { IsWellFormed self.now }
        requires tidy { IsTidy self.now }
        requires shape { HasShape self.now line }
        requires line { line < self.now.size.lines }
        ensures list { IfOk result (λ members. IsSharingList self.now line members.nodes.items) }
        ensures here { IfOk result (λ members.
            IfSome members.authority (λ at. at.node < self.now.size.nodes)) }
        ensures found { IfOk result (λ members. IfSome members.authority
            (λ at. contents_held (settled_at self.now line at.node) ≡ Some at.contents)) }
        ensures none { IfOk result (λ members. members.authority ≡ None →
            All (λ n. contents_held (settled_at self.now line n) ≡ None) members.nodes.items) }
    {
        let mut nodes = Vec::with_capacity(alloc, usize::from(self.nodes()))?;
        let mut authority = None;
        let mut next = self.head(line);
        for _place in 0..self.nodes() {
            let Some(id) = next else {
                return Ok(Members { nodes, authority });
            };
            let node = id.get() as u8;
            next = self.behind(line, node, &mut authority);
            nodes.push(node)?;
        }
        Ok(Members { nodes, authority })
    }

    /// What the machine has of a line, found in one walk along its list. Requires that there is such a line.
    /// Refused if memory is.
    pub(crate) fn sharing(&self, alloc: Global, line: u8) -> Result<Sharing, AllocError>
        requires well { IsWellFormed self.now }
        requires tidy { IsTidy self.now }
        requires shape { HasShape self.now line }
        requires line { line < self.now.size.lines }
        ensures list { IfOk result (λ sharing. IsSharingList self.now line sharing.nodes.items) }
        ensures here { IfOk result (λ sharing.
            IfSome sharing.authority (λ n. n < self.now.size.nodes)) }
        ensures found { IfOk result (λ sharing.
            IfSome sharing.authority (IsAuthority self.now line)) }
        ensures none { IfOk result (λ sharing. sharing.authority ≡ None → (n : ℕ) →
            n < self.now.size.nodes → IsAuthority self.now line n → ⊥) }
        ensures last { IfOk result (λ sharing. sharing.last ≡ last_at self.now line) }
    {
        let members = self.members(alloc, line)?;
        let Members { nodes, authority } = members;
        if let Some(at) = authority {
            return Ok(Sharing {
                nodes,
                authority: Some(at.node),
                last: at.contents,
            });
        }
        match self.home_contents(line) {
            Some(last) => Ok(Sharing {
                nodes,
                authority: None,
                last,
            }),
            None => unreachable!(),
        }
    }
}
