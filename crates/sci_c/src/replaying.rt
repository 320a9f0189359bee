//! Machines that schedules lead to.

ghost use Rattle.std.specs.Prelude.{◌≡◌, ◌≢◌, ◌≤◌, ◌<◌, ◌⊎◌, ◌↔◌, ◌∷◌, [], None, IfOk, IsSome};
ghost use Rattle.sci_words.specs.declared.limits.TheConstants.{MAX_OPERATIONS};
ghost use Rattle.sci_text.specs.ScheduleFault.{IsScheduleFault};
ghost use Rattle.sci_c_values.specs.declared.status.TheConstants.{SCI_MISUSE, SCI_NO_MEMORY, SCI_OK, SCI_RANGE, SCI_TEXT};
ghost use Rattle.sci_c.specs.{Calls.{IsOneOf}, Replaying.{IsKeptLed, IsLed, IsReplayed}, Texts.{IsTextFault}};

use crate::closing::opened;
use crate::handle::SciObject;
use crate::texts::status_of_text;
use crate::thing::Thing;
use sci_c_values::{SCI_MISUSE, SCI_NO_MEMORY, SCI_OK, SCI_RANGE, SciDead, SciTextFault, dead_out};
use sci_core::{DeadEvents, Machine};
use sci_text::{Schedule, schedule_of};
use sci_words::MAX_OPERATIONS;
use std::alloc::{AllocError, Global};

/// The machine where a schedule leads, whose nodes may each issue `limit` operations, and the events that weren't enabled.
/// Requires that the limit is 1 to 65,536.
fn led(
    alloc: Global,
    schedule: &Schedule,
    limit: u32,
) -> Result<(Machine, Option<DeadEvents>), AllocError>
    requires some { 1 ≤ limit }
    requires few { limit ≤ MAX_OPERATIONS }
    ensures { IfOk result (λ led. IsLed schedule.now limit led.0 led.1) }
{
    let mut machine = Machine::new(alloc, schedule.extent(), limit)?;
    let dead = DeadEvents::among(&mut machine, schedule.events())?;
    Ok((machine, dead))
}

/// Puts the machine where the schedule leads whose text the bytes are into an empty object, and gives the events that weren't
/// enabled.
#[unsafe(no_mangle)]
pub extern "C" fn sci_machine_replay(
    alloc: Global,
    object: &mut SciObject,
    text: &[u8],
    limit: u32,
    dead: &mut SciDead,
    fault: &mut SciTextFault,
) -> u32
    ensures done { result ≡ SCI_OK → IsReplayed text.now limit dead.new object.new.value }
    ensures fault { result ≡ SCI_TEXT → IsTextFault IsScheduleFault text.now fault.new }
    ensures misuse { (result ≡ SCI_MISUSE) ↔ IsSome object.old.value }
    ensures range { result ≡ SCI_RANGE → (limit ≡ 0) ⊎ (MAX_OPERATIONS < limit) }
    ensures limit { result ≢ SCI_MISUSE → result ≢ SCI_RANGE → (1 ≤ limit) × (limit ≤ MAX_OPERATIONS) }
    ensures status { IsOneOf (SCI_OK ∷ SCI_TEXT ∷ SCI_NO_MEMORY ∷ SCI_RANGE ∷ SCI_MISUSE ∷ []) result }
    ensures same { result ≢ SCI_OK → object.new.value ≡ object.old.value }
    ensures same_dead { result ≢ SCI_OK → dead.new ≡ dead.old }
    ensures same_fault { result ≢ SCI_TEXT → fault.new ≡ fault.old }
{
    if object.live() != 0 {
        return SCI_MISUSE;
    }
    if limit == 0 || limit > MAX_OPERATIONS {
        return SCI_RANGE;
    }
    match schedule_of(alloc, text) {
        Ok(schedule) => put_led(alloc, object, &schedule, limit, dead),
        Err(refused) => status_of_text(refused, fault),
    }
}

/// Puts the machine where a schedule leads into an empty object, and gives the events that weren't enabled. Requires that the
/// object is empty, and that the limit is 1 to 65,536.
fn put_led(
    alloc: Global,
    object: &mut SciObject,
    schedule: &Schedule,
    limit: u32,
    dead: &mut SciDead,
) -> u32
    requires empty { object.old.value ≡ None }
    requires some { 1 ≤ limit }
    requires few { limit ≤ MAX_OPERATIONS }
    ensures done { result ≡ SCI_OK → IsKeptLed schedule.now limit dead.new object.new.value }
    ensures status { (result ≡ SCI_OK) ⊎ (result ≡ SCI_NO_MEMORY) }
    ensures same { result ≢ SCI_OK → object.new.value ≡ object.old.value }
    ensures same_dead { result ≢ SCI_OK → dead.new ≡ dead.old }
{
    let Ok((machine, found)) = led(alloc, schedule, limit) else {
        return SCI_NO_MEMORY;
    };
    let status = opened(alloc, object, Thing::Machine(machine));
    if status == SCI_OK {
        *dead = dead_out(found);
    }
    status
}
