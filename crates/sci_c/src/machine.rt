//! Machines.

ghost use denote.RawPtr.{null_ptr};
ghost use Rattle.std.specs.Prelude.{◌≡◌, ◌≢◌, ◌≤◌, ◌↔◌, ◌⊎◌, ◌∷◌, [], IfOk, OnOk, None, IsSome, length};
ghost use Rattle.sci_history.specs.{Lawful.{Lawful}, Sequential.{IsSequentiallyConsistent}};
ghost use Rattle.sci_core.specs.{Outcome.{logs_of}, Sharing.{last_of}};
ghost use Rattle.sci_core.specs.Size.{IsMachineSize};
ghost use Rattle.sci_c_values.specs.declared.status.TheConstants.{SCI_MISUSE, SCI_NOT_ENABLED, SCI_NO_MEMORY, SCI_OK, SCI_RANGE};
ghost use Rattle.sci_c_values.specs.{Operation.{SaysEvent}, Saying.{SaysNone}};
ghost use Rattle.sci_c.specs.{Calls.{IsAnswer, IsChange, IsLook}, Closing.{IsClosed, IsOpened}, Kinds.{ChangesBy, On, machine_in}};
ghost use Rattle.sci_c.specs.Machine.{AreLogsOf, HasNoAuthority, IsAuthorityOf, IsMachineLast, IsNotEnabled, IsOpening, IsPartOfSettling, IsSending};
ghost use Rattle.sci_c.specs.{Journal.{journal_of}, Machine.{IsSettling, IsStep, size}};

use crate::closing::{closed, opened};
use crate::handle::SciObject;
use crate::journal::{Journal, zeros};
use crate::thing::Thing;
use sci_c_values::{
    SCI_MISUSE, SCI_NO_MEMORY, SCI_NOT_ENABLED, SCI_OK, SCI_RANGE, SciEvent, SciStamped, event_in,
    stamped_out,
};
use sci_core::{ApplyFault, Machine};
use sci_history::Last;
use sci_words::{Extent, MAX_OPERATIONS};
use std::alloc::{AllocError, Global};

/// Puts a machine in which no line was touched into an empty object.
#[unsafe(no_mangle)]
pub extern "C" fn sci_machine_open(
    alloc: Global,
    object: &mut SciObject,
    nodes: u8,
    lines: u8,
    slots: u8,
    limit: u32,
) -> u32
    ensures { IsOpened (IsMachineSize (size nodes lines slots limit)) (IsOpening (size nodes lines slots limit))
        object.old.value result object.new.value }
{
    if object.live() != 0 {
        return SCI_MISUSE;
    }
    let Some(extent) = Extent::new(nodes, lines, slots) else {
        return SCI_RANGE;
    };
    if limit == 0 || limit > MAX_OPERATIONS {
        return SCI_RANGE;
    }
    let Ok(machine) = Machine::new(alloc, extent, limit) else {
        return SCI_NO_MEMORY;
    };
    opened(alloc, object, Thing::Machine(machine))
}

/// Applies the event to the machine.
#[unsafe(no_mangle)]
pub extern "C" fn sci_machine_step(object: &mut SciObject, event: &SciEvent) -> u32
    ensures done { result ≡ SCI_OK → ChangesBy machine_in object.old.value object.new.value (IsStep event.now) }
    ensures refused { result ≡ SCI_NOT_ENABLED → On machine_in object.old.value (IsNotEnabled event.now) }
    ensures memory { result ≡ SCI_NO_MEMORY → On machine_in object.old.value (IsSending event.now) }
    ensures range { result ≡ SCI_RANGE → SaysNone (SaysEvent event.now) }
    ensures change { IsChange machine_in (SCI_NO_MEMORY ∷ SCI_NOT_ENABLED ∷ SCI_RANGE ∷ [])
        object.old.value result object.new.value }
{
    let Some(machine) = object.machine() else {
        return SCI_MISUSE;
    };
    let Some(event) = event_in(event) else {
        return SCI_RANGE;
    };
    match machine.apply(&event) {
        Ok(()) => SCI_OK,
        Err(ApplyFault::NotEnabled) => SCI_NOT_ENABLED,
        Err(ApplyFault::Memory(_)) => SCI_NO_MEMORY,
    }
}

/// Lets a machine go, and leaves the object empty.
#[unsafe(no_mangle)]
pub extern "C" fn sci_machine_close(alloc: Global, object: &mut SciObject) -> u32
    ensures closed { IsClosed machine_in object.old.value result object.new.value }
    ensures no_pointer { result ≡ SCI_OK → object.new.at ≡ null_ptr }
{
    let is_of_kind = object.machine().is_some();
    closed(alloc, object, is_of_kind)
}

/// Brings the machine to rest, and gives the number of events. If memory is refused, the machine stands where the events
/// made so far lead.
#[unsafe(no_mangle)]
pub extern "C" fn sci_machine_settle(object: &mut SciObject, events: &mut u32) -> u32
    ensures settled { result ≡ SCI_OK → ChangesBy machine_in object.old.value object.new.value (IsSettling events.new) }
    ensures memory { result ≡ SCI_NO_MEMORY → ChangesBy machine_in object.old.value object.new.value IsPartOfSettling }
    ensures answer { IsAnswer machine_in (SCI_NO_MEMORY ∷ []) object.old.value result }
    ensures same { result ≡ SCI_MISUSE → object.new.value ≡ object.old.value }
    ensures same_events { result ≢ SCI_OK → events.new ≡ events.old }
{
    let Some(machine) = object.machine() else {
        return SCI_MISUSE;
    };
    match machine.settle() {
        Ok(count) => {
            *events = count;
            SCI_OK
        }
        Err(_) => SCI_NO_MEMORY,
    }
}

/// Reads the last contents of a line.
#[unsafe(no_mangle)]
pub extern "C" fn sci_machine_last(
    object: &mut SciObject,
    line: u8,
    contents: &mut SciStamped,
) -> u32
    ensures found { result ≡ SCI_OK → On machine_in object.old.value (IsMachineLast line contents.new) }
    ensures range { result ≡ SCI_RANGE → On machine_in object.old.value (λ machine. machine.size.lines ≤ line) }
    ensures same { result ≢ SCI_OK → contents.new ≡ contents.old }
    ensures kept { IsLook machine_in (SCI_RANGE ∷ []) object.old.value result object.new.value }
{
    let Some(machine) = object.machine() else {
        return SCI_MISUSE;
    };
    if line >= machine.extent().lines {
        return SCI_RANGE;
    }
    *contents = stamped_out(&machine.last_contents(line));
    SCI_OK
}

/// Gives the one node that may change a line or is about to. Not enabled if the home has the line alone.
#[unsafe(no_mangle)]
pub extern "C" fn sci_machine_authority(object: &mut SciObject, line: u8, node: &mut u8) -> u32
    ensures found { result ≡ SCI_OK → On machine_in object.old.value (IsAuthorityOf line node.new) }
    ensures none { result ≡ SCI_NOT_ENABLED → On machine_in object.old.value (HasNoAuthority line) }
    ensures range { result ≡ SCI_RANGE → On machine_in object.old.value (λ machine. machine.size.lines ≤ line) }
    ensures same { result ≢ SCI_OK → node.new ≡ node.old }
    ensures kept { IsLook machine_in (SCI_NOT_ENABLED ∷ SCI_RANGE ∷ []) object.old.value result object.new.value }
{
    let Some(machine) = object.machine() else {
        return SCI_MISUSE;
    };
    if line >= machine.extent().lines {
        return SCI_RANGE;
    }
    match machine.authority(line) {
        Some(found) => {
            *node = found;
            SCI_OK
        }
        None => SCI_NOT_ENABLED,
    }
}

/// Makes lines the last contents of a machine. Requires that there are as many.
fn put_last(last: &mut Last, machine: &Machine)
    requires { length last.old ≡ machine.now.size.lines }
    ensures { last.new ≡ last_of machine.now }
{
    for line in 0..machine.extent().lines {
        last.set(line, machine.last_contents(line));
    }
}

/// The logs of a machine, with its last contents. Refused if memory is.
fn journal_in(alloc: Global, machine: &Machine) -> Result<Journal, AllocError>
    ensures journal { IfOk result (λ journal. journal ≡
        journal_of machine.now.size.nodes (logs_of machine.now) (last_of machine.now)) }
    ensures lawful { OnOk result (Lawful (logs_of machine.now) (last_of machine.now)) }
    ensures consistent { OnOk result (IsSequentiallyConsistent (logs_of machine.now) (last_of machine.now)) }
{
    let extent = machine.extent();
    let logs = machine.logs(alloc)?;
    let mut last = zeros(alloc, extent.lines)?;
    put_last(&mut last, machine);
    Ok(Journal::of(extent.nodes, logs, last))
}

/// Puts the machine's logs and last contents into an empty object of logs.
#[unsafe(no_mangle)]
pub extern "C" fn sci_machine_logs(
    alloc: Global,
    object: &mut SciObject,
    logs: &mut SciObject,
) -> u32
    ensures done { result ≡ SCI_OK → On machine_in object.old.value (AreLogsOf logs.new.value) }
    ensures misuse { (result ≡ SCI_MISUSE) ↔ ((machine_in object.old.value ≡ None) ⊎ IsSome logs.old.value) }
    ensures status { (result ≡ SCI_OK) ⊎ ((result ≡ SCI_NO_MEMORY) ⊎ (result ≡ SCI_MISUSE)) }
    ensures same { result ≢ SCI_OK → logs.new.value ≡ logs.old.value }
    ensures kept { object.new.value ≡ object.old.value }
{
    if logs.live() != 0 {
        return SCI_MISUSE;
    }
    let Some(machine) = object.machine() else {
        return SCI_MISUSE;
    };
    match journal_in(alloc, machine) {
        Ok(journal) => opened(alloc, logs, Thing::Logs(journal)),
        Err(_) => SCI_NO_MEMORY,
    }
}
