//! Laws of traces without versions, each the contract of a function that does nothing.

ghost use Rattle.std.specs.Prelude.{ℕ, Bool, List, Option};
ghost use Rattle.sci_judge.specs.declared.{access.Access.{Access}, cycle.Link.{Link}, trace.Trace.{Trace}, witness.Witness.{Witness}};
ghost use Rattle.sci_judge.specs.{Access.{AreKnown}, Coherent.{IsCoherent}, Cycle.{HasNoOrderAtAll, IsCycle}, Witness.{IsWitness}};

/// Operations at one address with a witness are not coherent: no versions explain them.
pub fn witnesses_rule_out_coherence()
    ensures { (timed : Bool) (accesses : List Access) (last : Option ℕ) (witness : Witness) →
        AreKnown accesses → IsWitness timed accesses last witness →
        IsCoherent timed accesses last → ⊥ }
{}

/// A trace with a cycle has no order of all operations: no log of it, by whatever versions explain it, is sequentially consistent.
pub fn cycles_rule_out_order()
    ensures { (timed : Bool) (trace : Trace) (links : List Link) → AreKnown trace.accesses.items →
        IsCycle timed trace links → HasNoOrderAtAll timed trace }
{}
