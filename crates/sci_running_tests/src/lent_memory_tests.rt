//! Turns whose allocations are refused. With every allocation granted each turn is taken whole. `make faults` refuses one
//! allocation in turn: then the turn that needed it keeps what it had done, and later turns go on from there.

use sci_core::Machine;
use sci_history::{Verdict, audit};
use sci_locked::{perform_on, submit_on, turn_on};
use sci_policy::Policy;
use sci_words::{Act, Extent, LockOp, Op};
use std::alloc::Global;
use std::test::*;

/// What every node does: it adds one to word 0 of line 0.
fn add_one() -> Op {
    let act = Act::Lock(LockOp::FetchAdd { datum: 1 });
    Op {
        line: 0,
        word: 0,
        act,
    }
}

/// A node submits its operation.
fn submit(machine: &mut Machine, n: u8) -> Result<(), Fail> {
    if n >= machine.extent().nodes {
        return Err(Fail::from("no node"));
    }
    match submit_on(machine, n, add_one()) {
        Ok(_serial) => Ok(()),
        Err(_) => Err(Fail::from("an operation that was refused")),
    }
}

/// A node performs its operation if it can, and takes a turn. The answer is how many turns were refused memory.
fn go(machine: &mut Machine, policy: &mut Policy, n: u8) -> u32 {
    if n >= machine.extent().nodes {
        return 0;
    }
    let _entry = perform_on(machine, n, 0);
    match turn_on(machine, policy, n) {
        Ok(_progress) => 0,
        Err(_) => 1,
    }
}

/// An error unless each of two nodes has performed its operation.
fn is_done(machine: &Machine) -> Result<(), Fail> {
    for n in 0..machine.extent().nodes {
        let found = machine.node(n).log().len();
        if found != 1 {
            return Err(Fail::new(format_args!("node {n} has {found} entries")));
        }
    }
    Ok(())
}

/// An error unless the logs are lawful. It says nothing if memory is refused here.
fn is_lawful(alloc: Global, machine: &Machine) -> Result<(), Fail> {
    let Ok(logs) = machine.logs(alloc) else {
        return Ok(());
    };
    match audit(alloc, &logs, &machine.last()) {
        Ok(Verdict::Lawful) | Err(_) => Ok(()),
        Ok(found) => Err(Fail::new(format_args!("{found:?}"))),
    }
}

#[test]
fn a_refused_turn_keeps_what_was_done(rt: HostRuntime) -> Result<(), Fail> {
    let extent = Extent::new(2, 1, 1).ok_or("an extent")?;
    let Ok(mut machine) = Machine::new(rt.alloc(), extent, 1) else {
        return Ok(());
    };
    submit(&mut machine, 0)?;
    submit(&mut machine, 1)?;
    let mut first = Policy::new();
    let mut second = Policy::new();
    let mut refused = 0u32;
    for _round in 0..20 {
        refused = refused.saturating_add(go(&mut machine, &mut first, 0));
        refused = refused.saturating_add(go(&mut machine, &mut second, 1));
    }
    assert!(rt; refused <= 1, "{refused} turns were refused memory");
    is_done(&machine)?;
    is_lawful(rt.alloc(), &machine)
}
