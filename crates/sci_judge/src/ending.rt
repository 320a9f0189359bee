//! The last word, if it is known: its stretch has to stand behind all others.
//!
//! Nothing here is relied on: what is found is checked.

use crate::chains::{Chains, Edge};
use crate::stretches::{Stop, element};
use crate::witness::{Step, Witness};
use std::alloc::Global;

/// That an atomic reads the last word and writes another one.
fn left_behind(alloc: Global, atomic: usize) -> Result<Stop, Stop> {
    let steps = vec![in alloc; Step::Ends(atomic), Step::Swaps(atomic)]?;
    Ok(Stop::Refuted(Witness::Circle(steps)))
}

impl Chains<'_> {
    /// That an operation of another chain comes behind one of the chain of the last word.
    fn behind_last(&self, alloc: Global, edge: Edge, last: usize) -> Result<Stop, Stop> {
        let mut steps = vec![in alloc;
            Step::Follows {
                earlier: edge.earlier,
                later: edge.later,
            },
        ]?;
        self.raise(&mut steps, self.left(edge.earlier)?, last)?;
        if self.found(edge.later)? != self.left(edge.later)? {
            steps.push(Step::Swaps(edge.later))?;
        }
        steps.push(Step::Ends(edge.later))?;
        Ok(Stop::Refuted(Witness::Circle(steps)))
    }

    /// That a word of another chain is written, though the last word is one of the first chain.
    fn behind_start(&self, alloc: Global, writer: usize, last: usize) -> Result<Stop, Stop> {
        let mut steps = vec![in alloc; Step::Starts(writer)]?;
        self.raise(&mut steps, 0, last)?;
        steps.push(Step::Ends(writer))?;
        Ok(Stop::Refuted(Witness::Circle(steps)))
    }

    /// Looks whether something has to stand behind the last word, whose stretch this is, though its chain ends with it.
    fn look_behind(&self, alloc: Global, last: usize) -> Result<(), Stop> {
        let chain = self.chain_of(last)?;
        for edge in self.edges() {
            if self.ends(edge)?.0 == chain {
                return Err(self.behind_last(alloc, *edge, last)?);
            }
        }
        for other in 0..self.count() {
            if other == chain {
                continue;
            }
            if chain == 0 {
                let head = element(&self.heads, other)?;
                if let Some(writer) = element(&self.stretches.writer, head)? {
                    return Err(self.behind_start(alloc, writer, last)?);
                }
            }
            if self.first_end(chain)? < self.last_begin(other)? {
                return Err(self.behind_last(alloc, self.time_edge(chain, other)?, last)?);
            }
        }
        Ok(())
    }

    /// An order of the chains in which the one of the last word stands behind all others, if that word is known.
    pub fn ended(&self, alloc: Global, order: &[usize]) -> Result<Vec<usize>, Stop> {
        let mut ended = Vec::with_capacity(alloc, order.len())?;
        let last = self.stretches.last;
        let chain = match last {
            None => None,
            Some(stretch) => Some(self.chain_of(stretch)?),
        };
        if let Some(stretch) = last {
            if let Some(atomic) = element(&self.stretches.leaver, stretch)? {
                return Err(left_behind(alloc, atomic)?);
            }
            self.look_behind(alloc, stretch)?;
        }
        for other in order {
            if Some(*other) != chain {
                ended.push(*other)?;
            }
        }
        if let Some(chain) = chain {
            ended.push(chain)?;
        }
        Ok(ended)
    }
}
