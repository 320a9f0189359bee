//! The cache of a node, to which packets are carried by hand.

ghost use Rattle.std.specs.Prelude.{IsTrue, length, ◌<◌, ◌≤◌};

use sci_cache::{AskFault, Cache, Held};
use sci_packets::{Body, Packet};
use sci_words::{AskKind, Extent, Op, Reply};
use std::alloc::Global;
use std::test::*;

/// The cache of a node. It takes no packet of another node or about a line that it lacks.
#[derive(Drop)]
pub struct Sharer {
    me: u8,
    lines: u8,
    cache: Cache,
    ghost has_lines: { lines ≤ length cache.lines },
}

impl Sharer {
    /// The cache of node `me`, with no entry for any line.
    pub fn new(alloc: Global, me: u8, extent: Extent) -> Result<Sharer, Fail> {
        if me >= extent.nodes {
            return Err(Fail::from("no such node"));
        }
        Ok(Sharer {
            me,
            lines: extent.lines,
            cache: Cache::new(alloc, me, extent)?,
        })
    }

    /// A copy of the cache.
    pub fn copy(&self, alloc: Global) -> Result<Sharer, Fail> {
        Ok(Sharer {
            me: self.me,
            lines: self.lines,
            cache: self.cache.try_clone(alloc)?,
        })
    }

    /// Whether the packet is for this node, about one of its lines.
    fn is_mine(&self, packet: &Packet) -> bool
        ensures { IsTrue result → packet.now.line < length self.now.cache.lines }
    {
        packet.target.get() == u16::from(self.me) && packet.line < u64::from(self.lines)
    }

    /// The request of this kind about a line, or why it isn't asked, which must be what `asked` gives before.
    pub fn ask(&mut self, line: u8, kind: AskKind) -> Option<Result<Packet, AskFault>> {
        if line >= self.lines {
            return None;
        }
        let told = self.cache.asked(line, kind);
        let made = self.cache.ask(line, kind);
        if made == told { Some(made) } else { None }
    }

    /// Makes the request of this kind about a line in two calls, by a look and an act.
    pub fn ask_in_two_calls(&mut self, line: u8, kind: AskKind) -> Option<Packet> {
        if line >= self.lines {
            return None;
        }
        match self.cache.asked(line, kind) {
            Ok(request) => {
                self.cache.apply_ask(line, kind);
                Some(request)
            }
            Err(_) => None,
        }
    }

    /// The answer to a request, or None if it isn't for this cache.
    pub fn serve(&mut self, request: &Packet) -> Option<Packet> {
        if !self.is_mine(request) {
            return None;
        }
        match request.body {
            Body::Cread | Body::Purge | Body::Roll { .. } | Body::Setback { .. } => {
                Some(self.cache.serve(request))
            }
            _ => None,
        }
    }

    /// Takes an answer, and says whether it was awaited.
    pub fn accept(&mut self, answer: &Packet) -> bool {
        self.is_mine(answer) && self.cache.accept(answer).is_ok()
    }

    /// The reply and the version of an operation, or None if it isn't allowed.
    pub fn perform(&mut self, op: Op) -> Option<(Reply, u64)> {
        if op.line >= self.lines || op.word >= 8 {
            return None;
        }
        self.cache.perform(&op)
    }

    /// The state of a line.
    pub fn held(&self, line: u8) -> Option<&Held> {
        if line >= self.lines {
            return None;
        }
        Some(self.cache.held(line))
    }
}
