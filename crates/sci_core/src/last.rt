//! The last contents of each line, wherever they are.

ghost use Rattle.std.specs.Prelude.{◌≡◌, ◌&&◌, not, ◌<◌, ◌≤◌, ◌%◌, filter, map, option_to_list, Some, None};
ghost use Rattle.sci_packets.specs.Table.{is_request};
ghost use Rattle.sci_cache.specs.Cache.{letter_of};
ghost use Rattle.sci_core.specs.Sharing.{is_about, answer_in};

use crate::lane::{Lane, LaneKind};
use crate::node::Node;
use crate::state::State;
use sci_cache::Held;
use sci_packets::{Body, Packet};
use sci_words::{Line, Stamped};

/// Whether a packet is an answer to node `n` about a line.
fn answers(packet: &Packet, n: u8, line: u8) -> bool
    ensures { result
        ≡ (is_about n line (letter_of packet.now) && not (is_request packet.now.body)) }
{
    !packet.is_request() && packet.line == u64::from(line) && packet.target.get() == u16::from(n)
}

/// The first answer to node `n` about a line among packets.
fn answer_among(packets: &[Packet], n: u8, line: u8) -> Option<Body>
    ensures { result ≡ answer_in (filter (is_about n line) (map letter_of packets.now)) }
{
    for packet in packets {
        if answers(packet, n, line) {
            return Some(packet.body);
        }
    }
    None
}

/// The answer that waits at a node, if it is for node `n` and about a line.
fn waiting_answer(node: &Node, n: u8, line: u8) -> Option<Body>
    ensures { result ≡ answer_in (filter (is_about n line) (option_to_list node.now.waiting)) }
{
    match node.waiting() {
        Some(letter) if answers(letter, n, line) => Some(letter.body),
        _ => None,
    }
}

impl Lane {
    ghost use Rattle.std.specs.Prelude.{◌≡◌, filter};
    ghost use Rattle.sci_core.specs.Sharing.{is_about, answer_in};

    /// The first answer to node `n` about a line in this lane.
    pub(crate) fn answer_to(&self, n: u8, line: u8) -> Option<Body>
        ensures { result ≡ answer_in (filter (is_about n line) self.now) }
    {
        let (older, newer) = self.slices();
        match answer_among(older, n, line) {
            Some(body) => Some(body),
            None => answer_among(newer, n, line),
        }
    }
}

impl State {
    ghost use Rattle.std.specs.Prelude.{◌≡◌, ◌<◌, ◌++◌, ℕ, None, IfSome, filter, option_to_list};
    ghost use Rattle.sci_core.specs.{declared.lane.LaneKind.TheVariants.{Answers}, Core.{lane_of, node_at}};
    ghost use Rattle.sci_core.specs.{WellFormed.{IsWellFormed}, Shape.{IsAuthority}};
    ghost use Rattle.sci_core.specs.Sharing.{answer_in, answer_to as answer_to_of, is_about, settled_at, home_at};
    ghost use Rattle.sci_core.specs.{Sharing.{last_at as last_at_of}, Tidy.{IsTidy}};
    ghost use Rattle.sci_home.specs.Serving.{current_of};
    ghost use Rattle.sci_cache.specs.Member.{contents_held};

    /// The answer that is under way from one node to node `n` about a line: one that waits there, or one in the lane.
    pub(crate) fn answer_from(&self, from: u8, n: u8, line: u8) -> Option<Body>
        requires from { from < self.now.size.nodes }
        requires n { n < self.now.size.nodes }
        ensures { result ≡ answer_in (filter (is_about n line)
            (option_to_list (node_at self.now from).waiting ++ lane_of self.now Answers from n)) }
    {
        match waiting_answer(self.node(from), n, line) {
            Some(body) => Some(body),
            None => self.lane(LaneKind::Answers, from, n).answer_to(n, line),
        }
    }

    /// The answer that is under way to node `n` about a line, from whichever node.
    pub(crate) fn answer_to(&self, n: u8, line: u8) -> Option<Body>
        requires well { IsWellFormed self.now }
        requires tidy { IsTidy self.now }
        requires n { n < self.now.size.nodes }
        requires line { line < self.now.size.lines }
        ensures { result ≡ answer_to_of self.now n line }
    {
        match self.answer_where_asked(n, line) {
            Some(answer) => answer,
            None => self.answer_from_any(n, line),
        }
    }

    /// The answer that is under way to node `n` about a line, looked for at one node after another.
    fn answer_from_any(&self, n: u8, line: u8) -> Option<Body>
        requires well { IsWellFormed self.now }
        requires tidy { IsTidy self.now }
        requires n { n < self.now.size.nodes }
        requires line { line < self.now.size.lines }
        ensures { result ≡ answer_to_of self.now n line }
    {
        for from in 0..self.nodes() {
            if let Some(body) = self.answer_from(from, n, line) {
                return Some(body);
            }
        }
        None
    }

    /// The contents of a line in node `n`, if it is the one that may change the line or is about to.
    /// Requires that there are such a node and such a line.
    fn authority(&self, line: u8, n: u8) -> Option<Stamped>
        requires well { IsWellFormed self.now }
        requires tidy { IsTidy self.now }
        requires n { n < self.now.size.nodes }
        requires line { line < self.now.size.lines }
        ensures { result ≡ contents_held (settled_at self.now line n) }
    {
        match self.node(n).held(line) {
            // These have no contents of their own, or await no answer: no packet is looked at.
            Held::Out(_) | Held::Below(_) => None,
            Held::Head(state) => Some(state.contents),
            Held::FreshHead(state) => Some(state.contents),
            held => {
                let answer = self.answer_to(n, line);
                held.settled(&answer).contents_held()
            }
        }
    }

    /// The first node that may change a line or is about to. Requires that there is such a line.
    pub(crate) fn first_authority(&self, line: u8) -> Option<u8>
        requires well { IsWellFormed self.now }
        requires tidy { IsTidy self.now }
        requires line { line < self.now.size.lines }
        ensures here { IfSome result (λ n. n < self.now.size.nodes) }
        ensures found { IfSome result (IsAuthority self.now line) }
        ensures none { result ≡ None → (n : ℕ) → n < self.now.size.nodes
            → IsAuthority self.now line n → ⊥ }
    {
        for n in 0..self.nodes() {
            if self.authority(line, n).is_some() {
                return Some(n);
            }
        }
        None
    }

    /// The contents of a line at its home, if nobody may have written since. Requires that there
    /// is such a line.
    pub(crate) fn home_contents(&self, line: u8) -> Option<Stamped>
        requires well { IsWellFormed self.now }
        requires line { line < self.now.size.lines }
        ensures { result ≡ current_of (home_at self.now line) }
    {
        match self.node(line % self.nodes()).home(line) {
            Some(home) => home.current(),
            None => unreachable!(),
        }
    }

    /// The last contents of a line: its home's if nobody may have written since, else the authority's.
    /// Requires that there is such a line.
    pub(crate) fn last_at(&self, line: u8) -> Stamped
        requires well { IsWellFormed self.now }
        requires tidy { IsTidy self.now }
        requires line { line < self.now.size.lines }
        ensures { result ≡ last_at_of self.now line }
    {
        if let Some(contents) = self.home_contents(line) {
            return contents;
        }
        for n in 0..self.nodes() {
            if let Some(contents) = self.authority(line, n) {
                return contents;
            }
        }
        Stamped {
            line: Line::zero(),
            version: 0,
        }
    }
}
