//! One order of all entries of logs.

ghost use Rattle.std.specs.Prelude.{◌≡◌, ◌≢◌, ◌<◌, ◌⊎◌, ◌↔◌, ◌∷◌, [], IfOk, None, Some, length, map};
ghost use Rattle.sci_c_values.specs.declared.status.TheConstants.{SCI_FULL, SCI_MISUSE, SCI_NO_MEMORY, SCI_OK};
ghost use Rattle.sci_c.specs.{Calls.{IsLook}, declared.ordering.TheConstants.{CYCLE, ORDER, UNLAWFUL}, Kinds.{On, logs_in}};
ghost use Rattle.sci_c_values.specs.Entry.{entry_struct};
ghost use Rattle.sci_c.specs.{Begun.{AreLawful, AreOrdered}, Journal.{IsBeginning}, Written.{StandOver}};
ghost use Rattle.sci_c.specs.Order.{HasOrder, IsFoundOrder, IsOrderKind, IsOrdering, ref_struct, step_struct};

use crate::handle::SciObject;
use crate::journal::Journal;
use crate::room::put_over;
use sci_c_values::{SCI_MISUSE, SCI_NO_MEMORY, SCI_OK, SciEntry, entry_out};
use sci_history::{Entry, Last, OrderVerdict, Step, sequential_order};
use sci_windows::{WindowOrder, order_from};
use std::alloc::{AllocError, Global};

/// There is an order.
const ORDER: u32 = 0;

/// There is none: each entry of a cycle would have to come after the next.
const CYCLE: u32 = 1;

/// The logs are not lawful.
const UNLAWFUL: u32 = 2;

/// What a look for an order finds.
#[derive(Drop)]
pub enum FoundOrder {
    /// The logs aren't lawful.
    Unlawful,
    /// All entries, in one order.
    Order(Vec<SciEntry>),
    /// The entries of a cycle.
    Cycle(Vec<SciEntry>),
}

/// The structs of entries behind references.
fn structs_of(alloc: Global, order: &[&Entry]) -> Result<Vec<SciEntry>, AllocError>
    ensures { IfOk result (λ made. made.items ≡ map ref_struct order.now) }
{
    order.iter().map(|entry| entry_out(entry)).collect(alloc)
}

/// The structs of entries.
fn entry_structs(alloc: Global, order: &[Entry]) -> Result<Vec<SciEntry>, AllocError>
    ensures { IfOk result (λ made. made.items ≡ map entry_struct order.now) }
{
    order.iter().map(|entry| entry_out(entry)).collect(alloc)
}

/// The structs of the entries of a cycle.
fn cycle_structs(alloc: Global, steps: &[Step]) -> Result<Vec<SciEntry>, AllocError>
    ensures { IfOk result (λ made. made.items ≡ map step_struct steps.now) }
{
    steps
        .iter()
        .map(|step| entry_out(&step.entry))
        .collect(alloc)
}

/// What a look for an order finds in logs that begin with zeros.
fn found_from_zeros(alloc: Global, journal: &Journal) -> Result<FoundOrder, AllocError>
    requires { journal.now.first ≡ None }
    ensures found { IfOk result (IsFoundOrder journal.now) }
    ensures order { IfOk result (λ found. HasOrder found ↔ (AreLawful journal.now × AreOrdered journal.now)) }
{
    let logs = journal.logs();
    // Asked, so that the prover knows that there are sixteen logs, each with its own node's entries.
    let _sixteen = logs.nodes();
    match sequential_order(alloc, logs, journal.last())? {
        OrderVerdict::Fault { .. } => Ok(FoundOrder::Unlawful),
        OrderVerdict::Order(order) => {
            let made = structs_of(alloc, &order)?;
            Ok(FoundOrder::Order(made))
        }
        OrderVerdict::Cycle(steps) => {
            let made = cycle_structs(alloc, &steps)?;
            Ok(FoundOrder::Cycle(made))
        }
    }
}

/// What a look for an order finds in logs that begin with contents that were given.
fn found_from(alloc: Global, journal: &Journal, first: &Last) -> Result<FoundOrder, AllocError>
    requires first { journal.now.first ≡ Some first.now }
    requires begins { IsBeginning (length journal.now.last) journal.now.first }
    ensures found { IfOk result (IsFoundOrder journal.now) }
    ensures order { IfOk result (λ found. HasOrder found ↔ (AreLawful journal.now × AreOrdered journal.now)) }
{
    match order_from(alloc, journal.logs(), first, journal.last())? {
        WindowOrder::Fault { .. } => Ok(FoundOrder::Unlawful),
        WindowOrder::Order(order) => {
            let made = entry_structs(alloc, &order)?;
            Ok(FoundOrder::Order(made))
        }
        WindowOrder::Cycle(steps) => {
            let made = cycle_structs(alloc, &steps)?;
            Ok(FoundOrder::Cycle(made))
        }
    }
}

/// Writes entries over the first ones, if there is room, with the kind of answer, and how many there are.
fn put(
    found: u32,
    made: &[SciEntry],
    kind: &mut u32,
    entries: &mut [SciEntry],
    used: &mut usize,
) -> u32
    ensures written { result ≡ SCI_OK → StandOver made.now entries.old entries.new used.new }
    ensures kind { result ≡ SCI_OK → kind.new ≡ found }
    ensures full { result ≡ SCI_FULL → length entries.old < used.new }
    ensures used { used.new ≡ length made.now }
    ensures status { (result ≡ SCI_OK) ⊎ (result ≡ SCI_FULL) }
    ensures same { result ≢ SCI_OK → entries.new ≡ entries.old }
    ensures same_kind { result ≢ SCI_OK → kind.new ≡ kind.old }
{
    let status = put_over(made, entries, used);
    if status == SCI_OK {
        *kind = found;
    }
    status
}

/// What a look for an order finds.
fn found_in(alloc: Global, journal: &Journal) -> Result<FoundOrder, AllocError>
    ensures found { IfOk result (IsFoundOrder journal.now) }
    ensures order { IfOk result (λ found. HasOrder found ↔ (AreLawful journal.now × AreOrdered journal.now)) }
{
    match journal.first() {
        Some(first) => found_from(alloc, journal, first),
        None => found_from_zeros(alloc, journal),
    }
}

/// Looks for one order of all entries.
fn found_order(
    alloc: Global,
    journal: &Journal,
    kind: &mut u32,
    entries: &mut [SciEntry],
    used: &mut usize,
) -> u32
    ensures answer { IsOrdering entries.old entries.new kind.new used.new result journal.now }
    ensures status { (result ≡ SCI_OK) ⊎ ((result ≡ SCI_FULL) ⊎ (result ≡ SCI_NO_MEMORY)) }
    ensures same { result ≢ SCI_OK → entries.new ≡ entries.old }
    ensures same_kind { result ≢ SCI_OK → kind.new ≡ kind.old }
    ensures same_used { result ≡ SCI_NO_MEMORY → used.new ≡ used.old }
{
    match found_in(alloc, journal) {
        Ok(FoundOrder::Order(made)) => put(ORDER, &made, kind, entries, used),
        Ok(FoundOrder::Cycle(made)) => put(CYCLE, &made, kind, entries, used),
        Ok(FoundOrder::Unlawful) => put(UNLAWFUL, &[], kind, entries, used),
        Err(_) => SCI_NO_MEMORY,
    }
}

/// The number of what a look for an order finds in logs that begin with zeros.
fn kind_from_zeros(alloc: Global, journal: &Journal) -> Result<u32, AllocError>
    requires { journal.now.first ≡ None }
    ensures { IfOk result (λ kind. IsOrderKind kind journal.now) }
{
    let logs = journal.logs();
    // Asked, so that the prover knows that there are sixteen logs, each with its own node's entries.
    let _sixteen = logs.nodes();
    let verdict = sequential_order(alloc, logs, journal.last())?;
    match verdict {
        OrderVerdict::Order(_order) => Ok(ORDER),
        OrderVerdict::Cycle(_steps) => Ok(CYCLE),
        OrderVerdict::Fault { .. } => Ok(UNLAWFUL),
    }
}

/// The same in logs that begin with contents that were given.
fn kind_from(alloc: Global, journal: &Journal, first: &Last) -> Result<u32, AllocError>
    requires first { journal.now.first ≡ Some first.now }
    requires begins { IsBeginning (length journal.now.last) journal.now.first }
    ensures { IfOk result (λ kind. IsOrderKind kind journal.now) }
{
    match order_from(alloc, journal.logs(), first, journal.last())? {
        WindowOrder::Order(_order) => Ok(ORDER),
        WindowOrder::Cycle(_steps) => Ok(CYCLE),
        WindowOrder::Fault { .. } => Ok(UNLAWFUL),
    }
}

/// Looks for one order of all entries, and gives the number of what it finds.
fn found_kind(alloc: Global, journal: &Journal) -> Result<u32, AllocError>
    ensures { IfOk result (λ kind. IsOrderKind kind journal.now) }
{
    match journal.first() {
        Some(first) => kind_from(alloc, journal, first),
        None => kind_from_zeros(alloc, journal),
    }
}

/// Looks for one order of all entries, and says alone whether there is one, a cycle that shows that there is none, or logs
/// that are not lawful.
#[unsafe(no_mangle)]
pub extern "C" fn sci_logs_order_kind(alloc: Global, object: &mut SciObject, kind: &mut u32) -> u32
    ensures found { result ≡ SCI_OK → On logs_in object.old.value (IsOrderKind kind.new) }
    ensures same { result ≢ SCI_OK → kind.new ≡ kind.old }
    ensures kept { IsLook logs_in (SCI_NO_MEMORY ∷ []) object.old.value result object.new.value }
{
    let Some(journal) = object.logs() else {
        return SCI_MISUSE;
    };
    match found_kind(alloc, journal) {
        Ok(found) => {
            *kind = found;
            SCI_OK
        }
        Err(_) => SCI_NO_MEMORY,
    }
}

/// Looks for one order of all entries that makes logs sequentially consistent, and writes it over the first entries, or a
/// cycle that shows that there is none.
#[unsafe(no_mangle)]
pub extern "C" fn sci_logs_order(
    alloc: Global,
    object: &mut SciObject,
    kind: &mut u32,
    entries: &mut [SciEntry],
    used: &mut usize,
) -> u32
    ensures answer { result ≢ SCI_MISUSE → On logs_in object.old.value
        (IsOrdering entries.old entries.new kind.new used.new result) }
    ensures same { result ≢ SCI_OK → entries.new ≡ entries.old }
    ensures same_kind { result ≢ SCI_OK → kind.new ≡ kind.old }
    ensures same_used { result ≢ SCI_OK → result ≢ SCI_FULL → used.new ≡ used.old }
    ensures kept { IsLook logs_in (SCI_NO_MEMORY ∷ SCI_FULL ∷ []) object.old.value result object.new.value }
{
    let Some(journal) = object.logs() else {
        return SCI_MISUSE;
    };
    found_order(alloc, journal, kind, entries, used)
}
