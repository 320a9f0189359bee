//! A node of a run: its policy, and the driver that takes it through its operations.

ghost use Rattle.std.specs.Prelude.{◌≡◌, ◌↔◌, ◌≤◌, All, IfOk, length, map, true};
ghost use Rattle.sci_words.specs.declared.limits.TheConstants.{MAX_OPERATIONS};
ghost use Rattle.sci_policy.specs.Policy.{opening_policy};
ghost use Rattle.sci_drive.specs.Driving.{IsAnswered, opening_driver};

use crate::recorder::Recorder;
use crate::seat::Seat;
use sci_drive::{Driver, Issuing, OpenGate, Round};
use sci_policy::Policy;
use sci_words::Op;
use std::alloc::{AllocError, Global};

/// A node of a run: its policy, and the driver that takes it through its operations.
#[derive(Drop)]
pub(crate) struct Player<'a> {
    pub(crate) driver: Driver<'a>,
    pub(crate) policy: Policy,
}

/// The players of all nodes, each with its operations, of which none has done anything. Refused if memory is.
pub(crate) fn new_players<'a>(
    alloc: Global,
    operations: &'a [Vec<Op>],
    issuing: Issuing,
) -> Result<Vec<Player<'a>>, AllocError>
    requires few { All (λ own. length own.items ≤ MAX_OPERATIONS) operations.now }
    ensures drivers { IfOk result (λ players. map (λ player. player.driver) players.items
        ≡ map (λ own. opening_driver own.items issuing) operations.now) }
    ensures policies { IfOk result (λ players.
        All (λ player. player.policy ≡ opening_policy) players.items) }
{
    let mut players = Vec::with_capacity(alloc, operations.len())?;
    for own in operations {
        players.push(Player {
            driver: Driver::new(own, issuing),
            policy: Policy::new(),
        })?;
    }
    Ok(players)
}

/// Whether each operation of all players has its entry.
pub(crate) fn are_answered(players: &[Player<'_>]) -> bool
    ensures { (result ≡ true) ↔ All (λ player. IsAnswered player.driver) players.now }
{
    for player in players {
        if !player.driver.is_answered() {
            return false;
        }
    }
    true
}

impl<'a> Player<'a> {
    ghost use Rattle.std.specs.Prelude.{◌≡◌, ◌<◌, List};
    ghost use Rattle.sci_core.specs.Core.{node_at};
    ghost use Rattle.sci_drive.specs.Driving.{IsDriven, IsInOrder};
    ghost use Rattle.sci_policy.specs.Deeds.{Deed};
    ghost use Rattle.sci_drive.specs.Rounds.{HasDone};
    ghost use Rattle.sci_runs.specs.{Goings.{DoesDeedsAt, StopsAt, place}, Played.{IsOpenRound}, Recorded.{SparesOthers}};

    /// Does a round at a node. Requires that there is such a node, and that this player has driven it. Refused where an
    /// event is lost, and the recorder has the reason.
    pub(crate) fn round(&mut self, recorder: &mut Recorder, node: u8) -> Result<Round, AllocError>
        requires some { node < recorder.old.core.size.nodes }
        requires driven { IsDriven self.old.driver (node_at recorder.old.core node) }
        ensures driven { IsDriven self.new.driver (node_at recorder.new.core node) }
        ensures order { IsInOrder self.old.driver (node_at recorder.old.core node) →
            IsInOrder self.new.driver (node_at recorder.new.core node) }
        ensures script { self.new.driver.script ≡ self.old.driver.script }
        ensures goes { (deeds : List Deed) × IsOpenRound deeds self.old.driver self.new.driver
            (node_at recorder.old.core node) (node_at recorder.new.core node) result
            × HasDone (DoesDeedsAt node) (StopsAt node) deeds
            (place self.old.policy recorder.old) (place self.new.policy recorder.new) result }
        ensures spares { SparesOthers node recorder.old.core recorder.new.core }
    {
        let mut seat = Seat {
            recorder,
            policy: &mut self.policy,
            node,
        };
        self.driver.round(&mut seat, &mut OpenGate)
    }
}
