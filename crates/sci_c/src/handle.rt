//! A machine, a node, logs or a scoreboard behind a pointer that C keeps.

ghost use Rattle.std.specs.Prelude.{◌≡◌, Option, Some, None};
ghost use types.Logic.{sem};
ghost use Rattle.sci_c.specs.declared.thing.Thing.{Thing};

use crate::controller::Controller;
use crate::journal::Journal;
use crate::loose::{Loose, loosened};
use crate::thing::Thing;
use sci_core::Machine;
use sci_windows::Scoreboard;
use std::alloc::Global;
use std::marker::Model;
use std::ptr::null_mut;

/// What the pointer leads to, of which C sees nothing.
#[repr(C)]
pub struct SciOpaque {
    nothing: [u8; 0],
}

/// What C keeps of a machine, a node, logs or a scoreboard. All zero, it is empty.
#[repr(C)]
pub struct SciObject {
    at: *mut SciOpaque,
    live: u32,
    pub ghost value: { Option Thing },
}

impl Model for SciObject {
    ghost use Rattle.sci_c.specs.Object.{object_owns};

    ghost also_owns = { λ object. object_owns object.at object.live object.value };
}

impl SciObject {
    ghost use denote.RawPtr.{null_ptr};
    ghost use Rattle.std.specs.{Borrow.{Lends, LendsIf}, Prelude.{IsSome, MatchOption, option_map}};
    ghost use Rattle.sci_core.specs.contracts.machine.Machine.{the_row as machine_row};
    ghost use Rattle.sci_windows.specs.contracts.scoreboard.Scoreboard.{the_row as board_row};
    ghost use Rattle.sci_c.specs.contracts.{controller.Controller.{the_row as node_row}, handle.SciObject.{the_row}, journal.Journal.{the_row as journal_row}, thing.Thing.{the_row as thing_row}};
    ghost use Rattle.sci_c.specs.{Kinds.{board_in, logs_in, machine_in, node_in}, Lending.{LendsKept, with_thing}, Object.{live_of}};
    ghost use Rattle.sci_c.specs.declared.thing.Thing.TheVariants as thing;

    /// 1 if there is a thing, and else 0.
    pub(crate) fn live(&mut self) -> u32
        ensures live { result ≡ live_of self.old.value }
        ensures same { self.new ≡ self.old }
    {
        self.live
    }

    /// Keeps a thing. Requires that the object is empty.
    pub(crate) fn keep(&mut self, thing: Box<Thing, Global>)
        requires { self.old.value ≡ None }
        ensures { self.new.value ≡ Some thing.value }
    {
        self.put(loosened(thing));
    }

    fn put(&mut self, loose: Loose<Thing>)
        requires { self.old.value ≡ None }
        ensures { self.new.value ≡ Some loose.value }
    {
        let Loose { at } = loose;
        self.at = at as *mut SciOpaque;
        self.live = 1;
    }

    /// Takes the thing out, which leaves the object empty. Requires that there is one.
    pub(crate) fn take(&mut self, alloc: Global) -> Box<Thing, Global>
        requires { IsSome self.old.value }
        ensures thing { self.old.value ≡ Some result.value }
        ensures empty { self.new.value ≡ None }
    {
        self.live = 0;
        unsafe { Box::from_raw(alloc, self.at as *mut Thing) }
    }

    /// Leaves no pointer in an empty object. Requires that it is empty.
    pub(crate) fn forget(&mut self)
        requires { self.old.value ≡ None }
        ensures at { self.new.at ≡ null_ptr }
        ensures empty { self.new.value ≡ None }
    {
        self.at = null_mut();
    }

    /// The machine, if it keeps one.
    pub(crate) fn machine(&mut self) -> Option<&mut Machine>
        ensures* writes_back { sem 𝓛 (LendsKept machine_row thing.Machine self.entry result) }
        ensures value { machine_in self.old.value ≡ option_map (λ machine. machine.now) result }
    {
        match self.thing()? {
            Thing::Machine(machine) => Some(machine),
            _ => None,
        }
    }

    /// The node with its policy, if it keeps one.
    pub(crate) fn node(&mut self) -> Option<&mut Controller>
        ensures* writes_back { sem 𝓛 (LendsKept node_row thing.Node self.entry result) }
        ensures value { node_in self.old.value ≡ option_map (λ controller. controller.now) result }
    {
        match self.thing()? {
            Thing::Node(controller) => Some(controller),
            _ => None,
        }
    }

    /// The logs, if it keeps them.
    pub(crate) fn logs(&mut self) -> Option<&mut Journal>
        ensures* writes_back { sem 𝓛 (LendsKept journal_row thing.Logs self.entry result) }
        ensures value { logs_in self.old.value ≡ option_map (λ journal. journal.now) result }
    {
        match self.thing()? {
            Thing::Logs(journal) => Some(journal),
            _ => None,
        }
    }

    /// The scoreboard, if it keeps one.
    pub(crate) fn board(&mut self) -> Option<&mut Scoreboard>
        ensures* writes_back { sem 𝓛 (LendsKept board_row thing.Scoreboard self.entry result) }
        ensures value { board_in self.old.value ≡ option_map (λ board. board.now) result }
    {
        match self.thing()? {
            Thing::Scoreboard(board) => Some(board),
            _ => None,
        }
    }

    /// The thing, if there is one.
    fn thing(&mut self) -> Option<&mut Thing>
        ensures* writes_back { sem 𝓛 (LendsIf the_row thing_row self.entry result (with_thing self.old) self.old) }
        ensures value { MatchOption result (self.old.value ≡ None) (λ lent. with_thing self.old lent.now ≡ self.old) }
    {
        if self.live() == 0 {
            return None;
        }
        Some(self.as_mut())
    }

    /// The thing. Requires that there is one.
    fn as_mut(&mut self) -> &mut Thing
        requires { IsSome self.old.value }
        ensures* writes_back { sem 𝓛 (Lends the_row thing_row self.entry result (with_thing self.old)) }
        ensures value { with_thing self.old result.now ≡ self.old }
    {
        unsafe { &mut *(self.at as *mut Thing) }
    }
}
