//! Calls whose allocations are refused. With every allocation granted each gives its answer. `make faults` refuses one
//! allocation in turn: the call that needed it says so and changes nothing, and the same call then gives the answer.

use crate::machine_tests::{entry, schedule};
use sci_cache::{Cache, Held};
use sci_core::*;
use sci_words::{Event, Extent};
use std::alloc::{AllocError, Global};
use std::process::Abort;
use std::test::*;

/// What a call gives, which is made again if memory is refused.
macro_rules! again {
    ($call:expr) => {
        match $call {
            Ok(made) => made,
            Err(_) => $call.ok().ok_or("refused twice")?,
        }
    };
}

/// A machine of this size in which each node may issue one operation.
fn machine(alloc: Global, size: (u8, u8, u8)) -> Result<Machine, Fail> {
    let extent = Extent::new(size.0, size.1, size.2).ok_or("an extent")?;
    Ok(again!(Machine::new(alloc, extent, 1)))
}

/// The log of node 0 is this entry alone.
fn expect_logged(rt: &(impl Abort + AllocGlobal), machine: &Machine) -> Result<(), Fail> {
    let logs = again!(machine.logs(rt.alloc()));
    assert_eq!(rt; logs.of(0), [entry()].as_slice());
    assert_eq!(rt; logs.of(1).len(), 0);
    Ok(())
}

#[test]
fn memory_for_a_machine(rt: HostRuntime) -> Result<(), Fail> {
    let mut first = machine(rt.alloc(), (2, 3, 1))?;
    let mut copy = again!(first.try_clone(rt.alloc()));
    assert_eq!(rt; Some(copy.extent()), Extent::new(2, 3, 1));
    for event in &schedule() {
        let done = first.apply(event);
        assert!(rt; done.is_ok() || first.apply(event).is_ok(), "{event:?}");
        let done = copy.apply(event);
        assert!(rt; done.is_ok() || copy.apply(event).is_ok(), "{event:?}");
    }
    expect_logged(&rt, &first)?;
    expect_logged(&rt, &copy)
}

#[test]
fn memory_for_a_node(rt: HostRuntime) -> Result<(), Fail> {
    let extent = Extent::new(1, 2, 1).ok_or("an extent")?;
    let mut node = again!(Node::new(rt.alloc(), 0, extent, 1));
    assert_eq!(rt; node.issue(entry().op), Some(0));
    let copy = again!(node.try_clone(rt.alloc()));
    assert_eq!(rt; copy.log().len(), 0);
    assert!(rt; !copy.is_at_rest());
    Ok(())
}

/// How many packets node 0 has sent to itself that were not taken.
fn under_way(machine: &Machine) -> usize {
    if machine.extent().nodes == 0 {
        return 0;
    }
    let requests = machine.count(LaneKind::Requests, 0, 0);
    requests.saturating_add(machine.count(LaneKind::Answers, 0, 0))
}

#[test]
fn a_refused_event_changes_nothing(rt: HostRuntime) -> Result<(), Fail> {
    let mut machine = machine(rt.alloc(), (1, 1, 1))?;
    for event in &schedule() {
        let before = under_way(&machine);
        match machine.apply(event) {
            Ok(()) => {}
            Err(fault) => {
                assert_eq!(rt; fault, ApplyFault::Memory(AllocError), "{event:?}");
                let grows = matches!(event, Event::Ask { .. } | Event::Reply { .. });
                assert!(rt; grows, "{event:?}");
                assert_eq!(rt; under_way(&machine), before, "{event:?}");
                assert_eq!(rt; machine.apply(event), Ok(()), "{event:?}");
            }
        }
    }
    expect_logged(&rt, &machine)
}

// What was done before the refused event is not enabled once more, so that the whole schedule can be run again.
#[test]
fn a_refused_run_stands_before_its_event(rt: HostRuntime) -> Result<(), Fail> {
    let mut machine = machine(rt.alloc(), (1, 1, 1))?;
    let events = schedule();
    if machine.run(&events).is_err() {
        assert_eq!(rt; machine.last().lines(), 1);
        assert_eq!(rt; machine.run(&events), Ok(()));
    }
    expect_logged(&rt, &machine)
}

#[test]
fn a_refused_settling_can_go_on(rt: HostRuntime) -> Result<(), Fail> {
    let mut machine = machine(rt.alloc(), (2, 1, 1))?;
    let events = schedule();
    if machine.run(&events[..3]).is_err() {
        assert_eq!(rt; machine.run(&events[..3]), Ok(()));
    }
    if machine.drain().is_err() {
        assert!(rt; machine.drain().is_ok());
    }
    if machine.settle().is_err() {
        assert!(rt; machine.settle().is_ok());
    }
    assert_eq!(rt; machine.settle(), Ok(0));
    expect_logged(&rt, &machine)
}

#[test]
fn a_refused_cache_is_none(rt: HostRuntime) -> Result<(), Fail> {
    let extent = Extent::new(1, 64, 1).ok_or("an extent")?;
    match Cache::new(rt.alloc(), 0, extent) {
        Ok(cache) => assert!(rt; matches!(cache.held(63), Held::Out(_))),
        Err(fault) => assert_eq!(rt; fault, AllocError),
    }
    Ok(())
}

#[test]
fn a_refused_copy_is_none(rt: HostRuntime) -> Result<(), Fail> {
    let extent = Extent::new(1, 64, 1).ok_or("an extent")?;
    let Ok(cache) = Cache::new(rt.alloc(), 0, extent) else {
        return Ok(());
    };
    let copy = match cache.try_clone(rt.alloc()) {
        Ok(copy) => copy,
        Err(fault) => {
            assert_eq!(rt; fault, AllocError);
            cache.try_clone(rt.alloc()).ok().ok_or("refused twice")?
        }
    };
    assert!(rt; matches!(copy.held(63), Held::Out(_)));
    Ok(())
}
