//! A worker that is driven through a whole script.

ghost use Rattle.std.specs.Prelude.{◌≡◌, ◌≤◌, ◌<◌, ℕ, [], ◌∷◌, List, true, false, length, IfOk};
ghost use Rattle.sci_words.specs.declared.limits.TheConstants.{MAX_OPERATIONS};
ghost use Rattle.sci_history.specs.Sequential.{IsInProgramOrder};
ghost use Rattle.sci_policy.specs.Deeds.{Deed};
ghost use Rattle.sci_drive.specs.Calls.{AreCallsOf, Call, EndWithAllDone, Rest, times_done};
ghost use Rattle.sci_drive.specs.declared.driver.Issuing.TheVariants.{Ahead, InOrder};
ghost use Rattle.sci_drive.specs.declared.running.TheConstants.{RESTLESS_TURNS};
ghost use Rattle.sci_drive.specs.Driving.{DriverOf, HasSubmittedNothing, opening_driver};
ghost use Rattle.sci_drive.specs.{Resting.{IsAsked, RestsInTime, in_a_row, is_rest_due}, Rounds.{AreDrivenRounds}};
ghost use Rattle.sci_drive.specs.Script.{IsFrontOf, IsLogOf, IsWholeLogOf};

use crate::driver::{Driver, Issuing, Round};
use crate::gate::Gate;
use crate::laws::new_drivers_may_drive;
use sci_policy::Worker;
use sci_words::Op;
use std::alloc::AllocError;

/// After this many turns in a row without an entry or a rest there is a rest, though packets may have moved.
const RESTLESS_TURNS: u32 = 16;

const _: () = prove!(RESTLESS_TURNS == 16);

/// How a script was driven.
#[derive(Clone, Copy, Debug, PartialEq, Eq)]
pub struct Ran {
    /// Whether each operation has its entry, and the gate said that all are done.
    pub finished: bool,
    /// How many turns were done.
    pub turns: u32,
}

/// Drives a worker through a script, a round at a time, for at most this many turns. It ends finished as soon as the
/// whole script is answered and the gate says that all are done. The gate's rest is called after each turn in which
/// nothing moved, and after 16 turns in a row without an entry or a rest. Up to four operations are pending at once,
/// each on another line, and they may be performed in another order than the script's.
///
/// Requires that the worker has submitted nothing, and that the script has at most 65,536 operations. An
/// operation that the worker refuses is tried again in each round. Refused if a turn of the worker is.
///
/// However it ends:
///
/// - Each entry has the operation that its serial names, and no serial stands twice.
/// - Each entry was reported to the gate once, in the order of the log.
/// - An operation was submitted only if `may_issue` had answered true for it, and its entry was reported after that.
/// - `done` was called once at most, and no entry was reported after it.
/// - Unless a turn was refused, it is as many rounds of a driver as it took turns, one after another (`Driver::round`). Behind
///   each the gate rests exactly if nothing moved, or it was the 16th in a row without an entry or a rest; but not behind the
///   last of a run that has finished.
/// - Unless a turn was refused, it took at most 16 turns for each entry and each rest, and 16 more.
///
/// Finished, each operation of the script has just one entry, `done` was called, and the last call was an `all_done` that
/// answered true. It took as many turns as it says.
pub fn drive<W: Worker, G: Gate>(
    worker: &mut W,
    script: &[Op],
    gate: &mut G,
    turns: u32,
) -> Result<Ran, AllocError>
    requires fresh { HasSubmittedNothing (W.node worker.old) }
    requires few { length script.now ≤ MAX_OPERATIONS }
    ensures named { IsLogOf script.now (W.node worker.new).log }
    ensures whole { IfOk result (λ ran.
        ran.finished ≡ true → IsWholeLogOf script.now (W.node worker.new).log) }
    ensures turns { IfOk result (λ ran. ran.turns ≤ turns) }
    ensures all { IfOk result (λ ran. ran.finished ≡ false → ran.turns ≡ turns) }
    ensures calls { (calls : List Call) × G.hears gate.old calls gate.new
        × AreCallsOf (W.node worker.new) calls
        × IfOk result (λ ran. (ran.finished ≡ true →
        (times_done calls ≡ 1) × EndWithAllDone calls)
        × RestsInTime ran.turns calls) }
    ensures rounds { IfOk result (λ ran. (restless : ℕ) × (deeds : List Deed) × (driver : DriverOf)
        × W.does worker.old deeds worker.new
        × AreDrivenRounds G.hears ran.turns ran.finished restless deeds gate.old gate.new
        (opening_driver script.now Ahead) driver (W.node worker.old) (W.node worker.new)) }
    ensures stays { W.stays worker.old worker.new }
{
    new_drivers_may_drive();
    let mut driver = Driver::new(script, Issuing::Ahead);
    driver.go_on(worker, gate, turns)
}

/// Has the gate rest after a round in which nothing moved, and after 16 in a row without an entry or a rest. It gives how
/// many there are in a row then.
fn rest_if_due<G: Gate>(gate: &mut G, round: &Round, restless: u32) -> u32
    requires few { restless < RESTLESS_TURNS }
    ensures few { result < RESTLESS_TURNS }
    ensures rests { is_rest_due round.now restless ≡ true →
        G.hears gate.old (Rest ∷ []) gate.new × (result ≡ 0) }
    ensures goes_on { is_rest_due round.now restless ≡ false →
        G.hears gate.old [] gate.new × (result ≡ in_a_row round.now restless) }
{
    let in_a_row = if round.answered { 0 } else { restless + 1 };
    if (!round.answered && round.progress.is_idle()) || in_a_row >= RESTLESS_TURNS {
        gate.rest();
        return 0;
    }
    in_a_row
}

impl<'a> Driver<'a> {
    ghost use Rattle.std.specs.Prelude.{◌≡◌, ◌≤◌, ℕ, List, true, false, IfOk};
    ghost use Rattle.sci_policy.specs.Deeds.{Deed};
    ghost use Rattle.sci_drive.specs.{Calls.{AreCalls, Call, EndWithAllDone}, Driving.{IsAnswered, IsDriven, IsInOrder}};

    /// Whether the gate has heard that the whole script is answered, and says that all are done. It isn't asked before.
    fn is_over<G: Gate>(&self, gate: &mut G) -> bool
        ensures asked { IsAsked G.hears self.now gate.old gate.new result }
    {
        self.was_done && gate.all_done()
    }

    /// Goes on with the script, a round at a time, for at most this many turns. It ends finished as soon as the whole script
    /// is answered and the gate says that all are done. The gate's rest is called after each turn in which nothing moved,
    /// and after 16 turns in a row without an entry or a rest. Requires the worker that this driver has driven. Refused if
    /// a turn of the worker is.
    pub fn go_on<W: Worker, G: Gate>(
        &mut self,
        worker: &mut W,
        gate: &mut G,
        turns: u32,
    ) -> Result<Ran, AllocError>
        requires driven { IsDriven self.old (W.node worker.old) }
        ensures driven { IsDriven self.new (W.node worker.new) }
        ensures order { IsInOrder self.old (W.node worker.old) →
            IsInOrder self.new (W.node worker.new) }
        ensures answered { IfOk result (λ ran. ran.finished ≡ true → IsAnswered self.new) }
        ensures turns { IfOk result (λ ran. ran.turns ≤ turns) }
        ensures all { IfOk result (λ ran. ran.finished ≡ false → ran.turns ≡ turns) }
        ensures calls { (calls : List Call) × G.hears gate.old calls gate.new
            × AreCalls self.old self.new (W.node worker.old) (W.node worker.new) calls
            × IfOk result (λ ran. (ran.finished ≡ true → EndWithAllDone calls)
            × RestsInTime ran.turns calls) }
        ensures rounds { IfOk result (λ ran. (restless : ℕ) × (deeds : List Deed)
            × W.does worker.old deeds worker.new
            × AreDrivenRounds G.hears ran.turns ran.finished restless deeds gate.old gate.new
            self.old self.new (W.node worker.old) (W.node worker.new)) }
        ensures script { self.new.script ≡ self.old.script }
        ensures issuing { self.new.issuing ≡ self.old.issuing }
        ensures told { IfOk result (λ ran. ran.finished ≡ true → self.new.was_done ≡ true) }
        ensures stays { W.stays worker.old worker.new }
    {
        let mut restless = 0;
        for turn in 0..turns {
            let round = self.round(worker, gate)?;
            if self.is_over(gate) {
                return Ok(Ran {
                    finished: true,
                    turns: turn + 1,
                });
            }
            restless = rest_if_due(gate, &round, restless);
        }
        Ok(Ran {
            finished: false,
            turns,
        })
    }
}
