//! Laws of logs' texts, each the contract of a function that does nothing.

ghost use Rattle.std.specs.Prelude.{◌≡◌, ℕ, List};
ghost use Rattle.sci_words.specs.declared.stamped.Stamped.{Stamped};
ghost use Rattle.sci_history.specs.declared.entry.Entry.{Entry};
ghost use Rattle.sci_text.specs.{FirstFault.{HasNoFault, HasOneFault}, Log.{log_text}, LogValue.{AreLogs, IsLogs}};
ghost use Rattle.sci_text.specs.LogFault.{IsLogFault};

use sci_history::one_partition;

/// Logs and last contents that a text in either format says are those of their text in format 2.
pub fn written_again()
    ensures { (nodes : ℕ) (logs : List (List Entry)) (last : List Stamped)
        → AreLogs nodes logs last → IsLogs (log_text nodes logs last) nodes logs last }
{}

/// A text is of one log: it determines the number of nodes, the logs and the last contents.
pub fn one_log()
    ensures { (input : List ℕ) (n m : ℕ) (a b : List (List Entry)) (x y : List Stamped)
        → IsLogs input n a x → IsLogs input m b y → (n ≡ m) × (a ≡ b) × (x ≡ y) }
{
    one_partition();
}

/// The text of a log has no line with a fault.
pub fn no_log_fault()
    ensures { (input : List ℕ) (nodes : ℕ) (logs : List (List Entry)) (last : List Stamped)
        → IsLogs input nodes logs last → HasNoFault IsLogFault input }
{
    one_partition();
}

/// Bytes have at most one first line that is faulty in a log, and one fault there.
pub fn one_log_fault()
    ensures { HasOneFault IsLogFault }
{
    one_partition();
}
