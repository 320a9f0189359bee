//! The home part of a node's controller, for one line.

ghost use Rattle.std.specs.Prelude.{◌≡◌};
ghost use Rattle.sci_home.specs.Serving.{is_for_home as is_for_home_of};

use crate::state::HomeState;
use sci_packets::{Body, Packet};
use sci_words::{Line, Stamped};
use std::marker::Model;

/// The home of a line. Contracts see it as its state.
#[derive(Debug, PartialEq, Eq, Drop)]
pub struct Home {
    state: HomeState,
}

impl Model for Home {
    ghost use Rattle.sci_home.specs.declared.state.HomeState.{HomeState};

    ghost Value = { HomeState };

    ghost view = { λ home. home.state };

    ghost inverse = { λ state. record { state = state } };
}

/// Whether a request is for the home of its line: an Mread, Fread, Claim, Clear or Wback. Every other request is for
/// a cache.
pub fn is_for_home(request: &Body) -> bool
    ensures { result ≡ is_for_home_of request.now }
{
    matches!(
        request,
        Body::Mread | Body::Fread | Body::Claim | Body::Clear | Body::Wback(_)
    )
}

impl Home {
    ghost use Rattle.std.specs.Prelude.{◌≡◌, Some};
    ghost use Rattle.sci_home.specs.Serving.{opening_home, IsForHome, home_serving, current_of};

    /// The home of a line that nobody has touched: HOME with zero words at version 0.
    pub fn new() -> Home
        ensures { result ≡ opening_home }
    {
        Home {
            state: HomeState::Home(Stamped {
                line: Line::zero(),
                version: 0,
            }),
        }
    }

    /// Serves a request for the line and gives the answer, which goes back to the request's sender. Requires
    /// that the request is an Mread, Fread, Claim, Clear or Wback.
    pub fn serve(&mut self, request: &Packet) -> Packet
        requires { IsForHome request.now.body }
        ensures case { home_serving self.old request.now.source request.now.body
            ≡ Some (self.new, result.body) }
        ensures target { result.target ≡ request.now.source }
        ensures source { result.source ≡ request.now.target }
        ensures control { result.control ≡ request.now.control }
        ensures line { result.line ≡ request.now.line }
    {
        let sender = request.source;
        let answer = match request.body {
            Body::Mread => self.state.serve_mread(sender),
            Body::Fread => self.state.serve_fread(sender),
            Body::Claim => self.state.serve_claim(sender),
            Body::Clear => self.state.serve_clear(sender),
            Body::Wback(contents) => self.state.serve_wback(sender, contents),
            _ => unreachable!(),
        };
        request.answer(answer)
    }

    /// The state.
    pub fn state(&self) -> HomeState
        ensures { result ≡ self.now }
    {
        self.state
    }

    /// A home in the same state.
    pub fn copy(&self) -> Home
        ensures { result ≡ self.now }
    {
        Home { state: self.state }
    }

    /// The contents of the line if the home has them (HOME or FRESH), and else None.
    pub fn current(&self) -> Option<Stamped>
        ensures { result ≡ current_of self.now }
    {
        match self.state {
            HomeState::Home(contents) | HomeState::Fresh { contents, .. } => Some(contents),
            HomeState::Gone { .. } => None,
        }
    }
}
