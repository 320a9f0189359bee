//! A cache's part for one line.

use crate::fault::NotAwaited;
use crate::held::Held;
use crate::states::OutState;
use sci_packets::{Body, NodeId};
use sci_words::{AskKind, Op, Reply};
use std::marker::Model;

/// A cache's part for one line: its state, and its asks counted modulo `CONTROLS`.
#[derive(Debug, Drop)]
pub(crate) struct CachedLine {
    held: Held,
    asks: u16,
}

impl Model for CachedLine {
    ghost use Rattle.std.specs.Prelude.{◌<◌};
    ghost use Rattle.sci_cache.specs.Line.{LineState};

    ghost Value = { LineState };

    ghost use Rattle.sci_cache.specs.Held.{state_of};

    ghost view = { λ line. record { state = state_of line.held; asks = line.asks } };
}

impl CachedLine {
    ghost use Rattle.std.specs.Prelude.{◌≡◌, ◌<◌, IfOk, IfErr, IfSome, IsErr, IsSome, Ok, Err, Some, None};
    ghost use Rattle.sci_words.specs.declared.limits.TheConstants.{WORDS_PER_LINE};
    ghost use Rattle.sci_cache.specs.{State.{CacheState, is_out}, Asking.{asking}, Serving.{IsForCache, serving}};
    ghost use Rattle.sci_cache.specs.Performing.{performing};
    ghost use Rattle.sci_cache.specs.Line.{untouched, line_asking, line_asked, line_in, line_accepting, next_control};
    ghost use Rattle.sci_cache.specs.Held.{state_of};

    /// A line that was never asked for.
    pub(crate) fn new() -> CachedLine
        ensures { result ≡ untouched }
    {
        CachedLine {
            held: Held::Out(OutState),
            asks: 0,
        }
    }

    /// The same line.
    pub(crate) fn copy(&self) -> CachedLine
        ensures { result ≡ self.now }
    {
        CachedLine {
            held: self.held,
            asks: self.asks,
        }
    }

    /// The state.
    pub(crate) fn held(&self) -> &Held
        ensures { state_of result.now ≡ self.now.state }
    {
        &self.held
    }

    /// Whether the line has no entry.
    pub(crate) fn is_out(&self) -> bool
        ensures { result ≡ is_out self.now.state }
    {
        self.held.is_out()
    }

    /// The control number of the line's next ask.
    pub(crate) fn next_control(&self) -> u16
        ensures { result ≡ next_control self.now }
    {
        self.asks
    }

    /// Makes the request of this kind. Requires that the state makes it.
    pub(crate) fn ask(&mut self, kind: AskKind)
        requires { IsSome (asking self.old.state kind) }
        ensures { IfSome (asking self.old.state kind)
            (λ asked. self.new ≡ line_asked self.old asked) }
    {
        self.held.ask(kind);
        self.asks = self.asks.wrapping_add(1);
    }

    /// Serves a request of `sender`, a Cread, Purge, Roll or Setback, and gives the answer.
    pub(crate) fn serve(&mut self, sender: NodeId, request: &Body) -> Body
        requires { IsForCache request.now }
        ensures case { serving self.old.state sender request.now ≡ Some (self.new.state, result) }
        ensures asks { self.new.asks ≡ self.old.asks }
    {
        self.held.serve(sender, request)
    }

    /// Takes an answer with this control number. Unchanged on refusal.
    pub(crate) fn accept(&mut self, control: u16, answer: &Body) -> Result<(), NotAwaited>
        ensures taken { IfOk result
            (λ _. line_accepting self.old control answer.now ≡ Some self.new.state) }
        ensures asks { self.new.asks ≡ self.old.asks }
        ensures refused { IsErr result → line_accepting self.old control answer.now ≡ None }
        ensures same { IsErr result → self.new ≡ self.old }
    {
        if control != self.asks.wrapping_sub(1) {
            return Err(NotAwaited);
        }
        self.held.accept(answer)
    }

    /// Performs an operation: its reply, and the version that it read or made. None, unchanged, if the state doesn't
    /// allow it.
    pub(crate) fn perform(&mut self, op: &Op) -> Option<(Reply, u64)>
        requires { op.now.word < WORDS_PER_LINE }
        ensures done { IfSome result
            (λ answer. performing self.old.state op.now
            ≡ Some (record { reply = answer.0; version = answer.1; next = self.new.state })) }
        ensures asks { self.new.asks ≡ self.old.asks }
        ensures refused { result ≡ None → performing self.old.state op.now ≡ None }
        ensures same { result ≡ None → self.new ≡ self.old }
    {
        self.held.perform(op)
    }
}
