//! A script, and all outcomes that its runs can have.

ghost use Rattle.std.specs.Prelude.{◌≡◌, length, map, slice_get, All, IfErr, IfOk};
ghost use Rattle.sci_text.specs.Script.{IsScript};
ghost use Rattle.sci_drive.specs.ScriptLogs.{size_for};
ghost use Rattle.sci_orders.specs.declared.fault.OrdersFault.TheVariants.{TooMany};
ghost use Rattle.sci_orders.specs.{Eager.{AreTooMany}, Positions.{own_of, position_of}};
ghost use Rattle.sci_allowed.specs.Allowed.{AreAllowed, AreSeenAt, HaveRuns, IsLitmus, seen_at, shares_of};
ghost use Rattle.sci_allowed.specs.{Condition.{has_term, replies_word as replies_word_of}, Outcome.{shown_of}};

use crate::condition::Term;
use crate::outcome::{Outcome, outcome_of};
use crate::place::{Place, is_written, written_places};
use sci_orders::{Orders, OrdersFault, Standing};
use sci_text::{Script, operations_by_node};
use sci_words::{Act, MAX_OPERATIONS, Op};
use std::alloc::{AllocError, Global};

/// Whether what is done replies a word.
fn replies_word(act: Act) -> bool
    ensures { result ≡ replies_word_of act }
{
    !matches!(act, Act::Store(_))
}

/// A script that is looked at.
#[derive(Drop)]
pub struct Litmus {
    /// The script.
    pub script: Script,
    /// Each node's operations, in their order.
    operations: Vec<Vec<Op>>,
    /// The words that it may write.
    places: Vec<Place>,
}

impl Litmus {
    /// Looks at a script. Refused if memory is.
    pub(crate) fn of(alloc: Global, script: Script) -> Result<Litmus, AllocError>
        requires { IsScript script }
        ensures litmus { IfOk result IsLitmus }
        ensures script { IfOk result (λ litmus. litmus.script ≡ script) }
    {
        let operations = operations_by_node(alloc, &script)?;
        let places = written_places(alloc, script.extent().lines, script.operations())?;
        Ok(Litmus {
            script,
            operations,
            places,
        })
    }

    /// The operation of a node with this serial.
    fn operation(&self, node: u8, serial: u32) -> Option<Op>
        requires { IsLitmus self.now }
        ensures { result ≡ slice_get (own_of (shares_of self.now.script) node) serial }
    {
        let own = self.operations.get(usize::from(node))?;
        own.get(serial as usize).copied()
    }

    /// Whether the script has what a term names: the reply of an operation, or a word that some operation may write.
    pub(crate) fn has(&self, term: Term) -> bool
        requires { IsLitmus self.now }
        ensures { result ≡ has_term self.now.script term }
    {
        match term {
            Term::Replied(said) => match self.operation(said.node, said.serial) {
                Some(op) => replies_word(op.act),
                None => false,
            },
            Term::Held(said) => {
                let place = Place {
                    line: said.line,
                    word: said.word,
                };
                is_written(place, self.script.operations())
            }
        }
    }

    /// Its orders, if at most this number of operations waits at a node.
    pub(crate) fn orders(&self, window: usize) -> Orders<'_>
        ensures operations { result.operations.now ≡ self.now.operations.items }
        ensures window { result.window ≡ window }
    {
        Orders {
            operations: &self.operations,
            window,
        }
    }

    /// Where its runs end, if at most this number of operations waits at a node. Refused as `Orders::outcomes`.
    pub(crate) fn standings(
        &self,
        alloc: Global,
        window: usize,
    ) -> Result<Vec<Standing>, OrdersFault>
        requires { IsLitmus self.now }
        ensures runs { IfOk result (λ standings. HaveRuns (size_for self.now.script)
            (shares_of self.now.script) window (map position_of standings.items)) }
        ensures many { IfErr result (λ fault. fault ≡ TooMany →
            AreTooMany self.now.script.lines (shares_of self.now.script) window) }
    {
        self.orders(window)
            .outcomes(alloc, self.script.extent(), MAX_OPERATIONS)
    }

    /// The outcome of a run that ends here. Refused if memory is.
    pub(crate) fn outcome_of(
        &self,
        alloc: Global,
        standing: &Standing,
    ) -> Result<Outcome, AllocError>
        requires litmus { IsLitmus self.now }
        requires nodes { length standing.now.answers.items ≡ self.now.script.nodes }
        ensures { IfOk result (λ outcome.
            shown_of outcome ≡ seen_at self.now.script (position_of standing.now)) }
    {
        outcome_of(alloc, &self.operations, &self.places, standing)
    }

    /// The outcome of each run that ends in one of these standings. Refused if memory is.
    fn outcomes_of(&self, alloc: Global, standings: &[Standing]) -> Result<Vec<Outcome>, AllocError>
        requires litmus { IsLitmus self.now }
        requires nodes { All (λ standing. length standing.answers.items ≡ self.now.script.nodes) standings.now }
        ensures { IfOk result (λ outcomes. AreSeenAt self.now.script standings.now outcomes.items) }
    {
        let mut outcomes = Vec::with_capacity(alloc, standings.len())?;
        for standing in standings {
            outcomes.push(self.outcome_of(alloc, standing)?)?;
        }
        Ok(outcomes)
    }

    /// All outcomes of its runs, if at most this number of operations waits at a node: by what was replied, then by the
    /// words, each once. Refused if memory is, and as too many if some number of steps leads to more than 100,000 positions.
    pub(crate) fn outcomes(&self, alloc: Global, window: usize) -> Result<Vec<Outcome>, OrdersFault>
        requires { IsLitmus self.now }
        ensures allowed { IfOk result (λ outcomes. AreAllowed self.now.script window outcomes.items) }
        ensures many { IfErr result (λ fault. fault ≡ TooMany →
            AreTooMany self.now.script.lines (shares_of self.now.script) window) }
    {
        let standings = self.standings(alloc, window)?;
        let mut outcomes = self.outcomes_of(alloc, &standings)?;
        outcomes.sort()?;
        outcomes.dedup();
        Ok(outcomes)
    }
}
