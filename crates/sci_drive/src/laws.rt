//! Laws of drivers: each is the contract of a function that does nothing.

ghost use Rattle.std.specs.Prelude.{List};
ghost use Rattle.sci_words.specs.declared.operation.Op.{Op};
ghost use Rattle.sci_core.specs.Node.{NodeOf};
ghost use Rattle.sci_drive.specs.declared.driver.Issuing.{Issuing, TheVariants.{InOrder}};
ghost use Rattle.sci_drive.specs.Driving.{HasSubmittedNothing, IsDriven, IsInOrder, opening_driver};

/// A new driver may drive a worker that has submitted nothing; and if it issues in order, the log so far stands in order.
pub fn new_drivers_may_drive()
    ensures driven { (script : List Op) (issuing : Issuing) (node : NodeOf) → HasSubmittedNothing node →
        IsDriven (opening_driver script issuing) node }
    ensures order { (script : List Op) (node : NodeOf) → HasSubmittedNothing node →
        IsInOrder (opening_driver script InOrder) node }
{}
