//! The gate of nodes that only wait for each other's end.

use crossbeam_utils::CachePadded;
use sci_drive::Gate;
use sci_history::Entry;
use std::alloc::{AllocError, Global};
use std::sync::atomic::{AtomicU64, Ordering};
use std::{hint, thread};

/// This many rests after an answer are spins, each of as many pauses. All further rests are yields.
const SPINS: u32 = 4;

/// Lets a node submit each operation as soon as it can, counts the nodes that are done, and yields the thread where
/// nothing moves. After an answer it spins a few times first: a yield is a call of the kernel, and the answer to a request
/// is often there before it returns. Contracts see that it allows each operation.
#[derive(Drop)]
pub struct YieldingGate<'a> {
    done: &'a AtomicU64,
    nodes: u8,
    /// How often it has rested since an operation was answered, at most `SPINS`. Padded, since the gate stands beside what
    /// other threads store to.
    rests: CachePadded<u32>,
}

impl<'a> YieldingGate<'a> {
    ghost use Rattle.std.specs.Prelude.{◌≡◌, IfOk, length};

    /// One gate for each of this many nodes, which count those that are done in one word. It is 0 before the run. Refused
    /// if memory is.
    pub fn for_nodes(
        alloc: Global,
        nodes: u8,
        done: &'a AtomicU64,
    ) -> Result<Vec<YieldingGate<'a>>, AllocError>
        ensures { IfOk result (λ gates. length gates.items ≡ nodes) }
    {
        let mut gates = Vec::with_capacity(alloc, nodes as usize)?;
        for _node in 0..nodes {
            gates.push(YieldingGate {
                done,
                nodes,
                rests: CachePadded::new(0),
            })?;
        }
        Ok(gates)
    }
}

impl<'a> Gate for YieldingGate<'a> {
    ghost use Rattle.std.proofs.lemmas.List.Elements.{All-append, All-nil};
    ghost use Rattle.sci_drive.specs.Calls.{Allows, AllowAll};

    ghost hears = { λ old calls new. AllowAll calls };

    fn may_issue(&mut self, _index: u32) -> bool {
        true
    }

    fn answered(&mut self, _entry: &Entry) {
        *self.rests = 0;
    }

    fn done(&mut self) {
        let _before = self.done.fetch_add(1, Ordering::SeqCst);
    }

    fn all_done(&mut self) -> bool {
        self.done.load(Ordering::SeqCst) >= u64::from(self.nodes)
    }

    fn rest(&mut self) {
        if *self.rests < SPINS {
            *self.rests += 1;
            for _ in 0..SPINS {
                hint::spin_loop();
            }
        } else {
            thread::yield_now();
        }
    }

    ghost hears_nothing = { λ x. All-nil Allows };

    ghost hears_on = { λ x y z calls more first second. All-append Allows calls more first second };
}
