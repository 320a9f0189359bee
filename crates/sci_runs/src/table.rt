//! The nodes of a run, and the machine that they share.

ghost use Rattle.std.specs.Prelude.{◌≤◌, All, length};
ghost use Rattle.sci_words.specs.declared.limits.TheConstants.{MAX_OPERATIONS};

use crate::fault::RunFault;
use crate::order::Order;
use crate::player::{Player, are_answered, new_players};
use crate::recorder::{Ended, Recorder};
use sci_drive::Issuing;
use sci_text::Script;
use sci_words::Op;
use std::alloc::Global;
use std::marker::Model;

/// The nodes of a run at work on a script, and the machine that they share. Contracts see the script, when its operations
/// are submitted, the machine's recorder, and the drivers and the policies of all nodes.
#[derive(Drop)]
pub(crate) struct Table<'a> {
    script: &'a Script,
    issuing: Issuing,
    recorder: Recorder,
    players: Vec<Player<'a>>,
}

impl<'a> Model for Table<'a> {
    ghost use Rattle.std.specs.Prelude.{map};
    ghost use Rattle.sci_runs.specs.Players.{AreAtWork, TableOf};

    ghost Value = { TableOf };

    ghost view = { λ table. record {
      script = table.script.now;
      issuing = table.issuing;
      recorder = table.recorder;
      drivers = map (λ player. player.driver) table.players.items;
      policies = map (λ player. player.policy) table.players.items;
    } };

    ghost invariant = { λ table. AreAtWork (record {
      script = table.script.now;
      issuing = table.issuing;
      recorder = table.recorder;
      drivers = map (λ player. player.driver) table.players.items;
      policies = map (λ player. player.policy) table.players.items;
    }) };
}

/// The most operations of a node, and at least 1: this many entries of its log need room. Requires that each has at most 65,536.
fn most_operations(operations: &[Vec<Op>]) -> u32
    requires few { All (λ own. length own.items ≤ MAX_OPERATIONS) operations.now }
    ensures some { 1 ≤ result }
    ensures few { result ≤ MAX_OPERATIONS }
    ensures all { All (λ own. length own.items ≤ result) operations.now }
{
    let mut most = 1;
    for own in operations {
        most = most.max(own.len() as u32);
    }
    most
}

/// How far a run has come.
#[derive(Clone, Copy)]
pub(crate) struct Ran {
    /// Whether each operation of the script has its entry.
    pub(crate) done: bool,
    /// How many turns the nodes have taken.
    pub(crate) turns: u64,
}

impl<'a> Table<'a> {
    ghost use Rattle.std.specs.Prelude.{◌≡◌, ◌<◌, ◌≤◌, ◌↔◌, ℕ, All, IfErr, IfOk, None, true, false, length, slice_index_or};
    ghost use Rattle.sci_words.specs.declared.limits.TheConstants.{MAX_OPERATIONS};
    ghost use Rattle.sci_core.specs.Core.{run};
    ghost use Rattle.sci_runs.specs.declared.fault.RunFault.TheVariants.{Memory, TooMany};
    ghost use Rattle.sci_text.specs.Script.{operations_of};
    ghost use Rattle.sci_drive.specs.ScriptLogs.{size_for};
    ghost use Rattle.sci_runs.specs.{Played.{Begins, FillsAt, HasNoRoom, IsRound, Played}, Players.{moment_of}};
    ghost use Rattle.sci_drive.specs.Driving.{IsAnswered};
    ghost use Rattle.sci_runs.specs.{Recorded.{raised}, Runs.{IsRunOf}};

    /// A new machine of the size that the script says, whose nodes have done nothing. Requires the operations of each node.
    /// Refused if memory is.
    pub(crate) fn new(
        alloc: Global,
        script: &'a Script,
        operations: &'a [Vec<Op>],
        issuing: Issuing,
    ) -> Result<Table<'a>, RunFault>
        requires nodes { length operations.now ≡ script.now.nodes }
        requires each { (node : ℕ) (d : _) → node < script.now.nodes →
            (slice_index_or operations.now node d).items ≡ operations_of node script.now.operations }
        requires few { All (λ own. length own.items ≤ MAX_OPERATIONS) operations.now }
        ensures script { IfOk result (λ table. table.script ≡ script.now) }
        ensures issuing { IfOk result (λ table. table.issuing ≡ issuing) }
        ensures begins { IfOk result (λ table. Begins script.now issuing (moment_of table)) }
        ensures none { IfOk result (λ table. table.recorder.lost ≡ None) }
        ensures memory { IfErr result (λ fault. fault ≡ Memory) }
    {
        let recorder = Recorder::new(alloc, script.extent(), most_operations(operations))?;
        let players = new_players(alloc, operations, issuing)?;
        Ok(Table {
            script,
            issuing,
            recorder,
            players,
        })
    }

    /// Whether each operation of the script has its entry.
    fn is_done(&self) -> bool
        ensures { (result ≡ true) ↔ All IsAnswered self.now.drivers }
    {
        are_answered(&self.players)
    }

    /// Does a round of a node. Requires that there is such a node. Refused if memory is, or if an event was lost.
    fn round(&mut self, node: u8) -> Result<(), RunFault>
        requires { node < self.old.script.nodes }
        ensures recorded { IfOk result (λ _. self.new.recorder.lost ≡ None) }
        ensures round { IfOk result (λ _. IsRound node (moment_of self.old) (moment_of self.new)) }
        ensures full { IfErr result (λ fault. fault ≡ TooMany →
            self.old.recorder.lost ≡ None → FillsAt node (moment_of self.old)) }
        ensures script { self.new.script ≡ self.old.script }
        ensures issuing { self.new.issuing ≡ self.old.issuing }
    {
        let round = self.players[usize::from(node)].round(&mut self.recorder, node);
        if let Some(fault) = self.recorder.lost() {
            return Err(fault);
        }
        let _round = round?;
        Ok(())
    }

    /// The nodes take turns in this order, at most this many, until each operation of the script has its entry. Requires that
    /// no event was lost. Refused if memory is, or if there are more than 500,000 events.
    pub(crate) fn go_on(&mut self, order: &mut Order, turns: u64) -> Result<Ran, RunFault>
        requires recorded { self.old.recorder.lost ≡ None }
        ensures recorded { IfOk result (λ _. self.new.recorder.lost ≡ None) }
        ensures script { self.new.script ≡ self.old.script }
        ensures issuing { self.new.issuing ≡ self.old.issuing }
        ensures answered { IfOk result (λ ran. (ran.done ≡ true) ↔
            All IsAnswered self.new.drivers) }
        ensures played { IfOk result (λ ran. Played self.old.script.nodes ran.turns
            order.old (moment_of self.old) order.new (moment_of self.new)) }
        ensures full { IfErr result (λ fault. fault ≡ TooMany → HasNoRoom
            self.old.script.nodes turns order.old (moment_of self.old)) }
        ensures turns { IfOk result (λ ran. ran.turns ≤ turns) }
        ensures all { IfOk result (λ ran. ran.done ≡ false → ran.turns ≡ turns) }
    {
        let nodes = self.script.extent().nodes;
        for turn in 0..turns {
            if self.is_done() {
                return Ok(Ran {
                    done: true,
                    turns: turn,
                });
            }
            self.round(order.next(nodes))?;
        }
        Ok(Ran {
            done: self.is_done(),
            turns,
        })
    }

    /// The schedule of the run so far, and the machine that it leads to. Requires that no event was lost.
    pub(crate) fn finish(self) -> Ended
        requires { self.recorder.lost ≡ None }
        ensures run { IsRunOf self.entry.script self.entry.issuing false result.schedule }
        ensures whole { All IsAnswered self.entry.drivers →
            IsRunOf self.entry.script self.entry.issuing true result.schedule }
        ensures events { result.schedule.events ≡ self.entry.recorder.schedule.events }
        ensures machine { result.machine ≡ self.entry.recorder.core }
        ensures led { run (size_for self.entry.script) result.schedule.events
            ≡ raised MAX_OPERATIONS result.machine }
        ensures lines { result.machine.size.lines ≡ self.entry.script.lines }
    {
        self.recorder.finish()
    }
}
