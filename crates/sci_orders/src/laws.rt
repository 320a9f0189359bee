//! Laws of orders, each the contract of a function that does nothing.
//!
//! An order is a list of Issues and Performs. Which of them one memory of one thread allows, and what it makes of them,
//! is said by `specs/Plain.antt`; what of a schedule of the machine is such an order, by `specs/Witness.antt`.

ghost use Rattle.std.specs.Prelude.{◌≡◌, ◌*◌, ℕ, List, length};
ghost use Rattle.sci_words.specs.declared.event.Event.{Event};
ghost use Rattle.sci_history.specs.Oracle.{Issue};
ghost use Rattle.sci_core.specs.{Core.{Core, opening, run, run_from}, Done.{done, done_from}, Sharing.{last_of}};
ghost use Rattle.sci_core.specs.{Reached.{IsReachable, IsReached}, Settling.{AreMade}, Size.{Size, IsMachineSize, IsSize}};
ghost use Rattle.sci_orders.specs.Plain.{AreAllowed, opening_plain, plain_done, plain_of, plain_run};
ghost use Rattle.sci_orders.specs.Witness.{any_event, AreFor, IsExplainedBy, IsOracleRun, one_by_one, schedule_of, seen, seen_from};
ghost use Rattle.sci_orders.specs.Positions.{IsReachedIn, Operations, Position, operation_count, own_of};
ghost use Rattle.sci_orders.specs.Orders.{HasRun, IsOrderOf, IsOutcomeOf, IsScriptOf, issues_at};

/// The Issues and Performs of each schedule are an order that one memory of one thread allows, with the same entries and
/// the same last contents.
pub fn each_schedule_has_an_order()
    ensures { (size : Size) (schedule : List Event) → IsSize size →
        IsExplainedBy size schedule (seen size schedule) }
{}

/// Each order that one memory of one thread allows is that of a schedule of the machine, whatever waits meanwhile. The
/// schedule is this one, in which each event is enabled when it comes.
pub fn each_order_has_a_schedule()
    ensures seen { (size : Size) (order : List Event) → IsMachineSize size → AreAllowed (opening_plain size) order →
        seen size (schedule_of size order) ≡ order }
    ensures enabled { (size : Size) (order : List Event) → IsMachineSize size → AreAllowed (opening_plain size) order →
        AreMade any_event (opening size) (schedule_of size order) }
{}

/// If the operations of a script are issued and performed one after another, as the script has them, this schedule of the
/// machine makes the entries that the oracle makes.
pub fn each_script_has_a_schedule()
    ensures { (size : Size) (script : List Issue) → IsMachineSize size → AreFor size script →
        IsOracleRun size script (schedule_of size (one_by_one script)) }
{}

/// Each run of a script by the machine ends in a position to which two steps of each operation lead on one memory of one
/// thread.
pub fn each_run_is_reached()
    ensures { (size : Size) (operations : Operations) (window : ℕ) (schedule : List Event) → IsSize size →
        IsScriptOf size operations → IsOrderOf operations window (seen size schedule) →
        (p : Position) × IsReachedIn size.lines operations window (operation_count operations * 2) p
        × IsOutcomeOf size operations (done size schedule) (last_of (run size schedule)) p }
{}

/// Each such position is the end of a run of the script by the machine.
pub fn each_position_has_a_run()
    ensures { (size : Size) (operations : Operations) (window : ℕ) (p : Position) → IsMachineSize size →
        IsScriptOf size operations → IsReachedIn size.lines operations window (operation_count operations * 2) p →
        (schedule : List Event) × HasRun size operations window p schedule }
{}

/// If each node issues its operations in their order and each is performed, no more of them wait than there are. So a
/// window of this width leaves out no order.
pub fn each_whole_order_is_an_order()
    ensures { (operations : Operations) (order : List Event) → ((n : ℕ) → issues_at n order ≡ own_of operations n) →
        length order ≡ operation_count operations * 2 → IsOrderOf operations (operation_count operations) order }
{}

/// From every reached state, wherever packets are under way, the machine does what one memory may do in the place of
/// this state. Afterwards it stands for that memory again.
pub fn each_state_is_followed()
    ensures allowed { (core : Core) (events : List Event) → IsReachable core →
        AreAllowed (plain_of core) (seen_from core events) }
    ensures follows { (core : Core) (events : List Event) → IsReachable core →
        plain_of (run_from core events) ≡ plain_run (plain_of core) (seen_from core events) }
    ensures done { (core : Core) (events : List Event) → IsReachable core →
        done_from core events ≡ plain_done (plain_of core) (seen_from core events) }
{}

/// From every reached state the machine can still do whatever that memory may do. So no packet that was sent rules out
/// any order.
pub fn each_state_can_go_on()
    ensures { (core : Core) (order : List Event) → IsReached core → AreAllowed (plain_of core) order →
        (events : List Event) × (seen_from core events ≡ order) }
{}
