//! A gate that is always open.

use crate::gate::Gate;
use sci_history::Entry;

/// A gate that is always open: each operation may be submitted as soon as it can be. It waits for nobody, and takes no note
/// of what it hears.
#[derive(Drop)]
pub struct OpenGate;

impl Gate for OpenGate {
    ghost use Rattle.std.proofs.lemmas.List.Elements.{All-append, All-nil};
    ghost use Rattle.sci_drive.specs.Calls.{IsOpen};
    ghost use Rattle.std.specs.Prelude.{All};

    ghost hears = { λ old calls new. All IsOpen calls };

    fn may_issue(&mut self, _index: u32) -> bool {
        true
    }

    fn answered(&mut self, _entry: &Entry) {}

    fn done(&mut self) {}

    fn all_done(&mut self) -> bool {
        true
    }

    fn rest(&mut self) {}

    ghost hears_nothing = { λ x. All-nil IsOpen };

    ghost hears_on = { λ x y z calls more first second. All-append IsOpen calls more first second };
}
