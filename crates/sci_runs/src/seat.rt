//! A node of a machine whose events are recorded, as a worker.

ghost use Rattle.std.specs.Prelude.{◌<◌};

use crate::recorder::Recorder;
use crate::turn::turn_on;
use sci_history::Entry;
use sci_policy::{Policy, Progress, SubmitFault, Worker};
use sci_words::Op;
use std::alloc::AllocError;

/// A node of the machine, with its policy.
#[derive(Drop)]
pub(crate) struct Seat<'a> {
    pub(crate) recorder: &'a mut Recorder,
    pub(crate) policy: &'a mut Policy,
    pub(crate) node: u8,
    ghost some: { node < recorder.now.core.size.nodes },
}

impl<'a> Worker for Seat<'a> {
    ghost use Rattle.std.specs.Prelude.{◌≡◌, ℕ};
    ghost use Rattle.sci_core.specs.Core.{node_at};
    ghost use Rattle.std.proofs.Common.{refl, subst, ◌∙◌};
    ghost use Rattle.sci_runs.specs.{Goings.{DoesDeeds, Stops, goes_itself, goes_on}, Recorded.{SparesOthers}};

    ghost node = { λ seat. node_at seat.recorder.now.core seat.node };

    ghost stays = { λ old new. (new.node ≡ old.node)
        × (new.recorder.ghost_name ≡ old.recorder.ghost_name)
        × (new.policy.ghost_name ≡ old.policy.ghost_name)
        × SparesOthers old.node old.recorder.now.core new.recorder.now.core };

    ghost does = { λ old deeds new. (new.node ≡ old.node)
        × DoesDeeds old.node deeds old.policy.now old.recorder.now new.policy.now new.recorder.now };

    ghost stopped = { λ old new. (new.node ≡ old.node)
        × Stops old.node old.policy.now old.recorder.now new.policy.now new.recorder.now };

    fn submit(&mut self, op: Op) -> Result<u32, SubmitFault> {
        self.recorder.submit(self.node, op)
    }

    fn perform(&mut self, line: u8) -> Option<Entry> {
        self.recorder.perform(self.node, line)
    }

    fn turn(&mut self) -> Result<Progress, AllocError> {
        turn_on(self.recorder, self.policy, self.node)
    }

    ghost stays_itself = { λ x. (
      refl,
      refl,
      refl,
      record { size = refl; others = λ m apart. refl },
    ) };

    ghost stays_through = { λ x y z one two. (
      two.0 ∙ one.0,
      two.1 ∙ one.1,
      two.2 ∙ one.2,
      record {
        size = two.3.size ∙ one.3.size;
        others = λ m apart. two.3.others m (λ is. apart (is ∙ one.0)) ∙ one.3.others m apart;
      },
    ) };

    ghost does_nothing = { λ x. (refl, goes_itself x.node x.policy.now x.recorder.now) };

    ghost does_on = { λ x y z deeds more first second. (
      second.0 ∙ first.0,
      goes_on x.node deeds more x.policy.now y.policy.now z.policy.now x.recorder.now
          y.recorder.now z.recorder.now first.1
          (subst (λ (n : ℕ). DoesDeeds n more y.policy.now y.recorder.now
          z.policy.now z.recorder.now) first.0 second.1),
    ) };
}
