//! Laws of windows, each the contract of a function that does nothing.

ghost use Rattle.std.specs.Prelude.{◌≡◌, ◌↔◌, ◌<◌, ◌++◌, ◌∷◌, [], ℕ, List, Option, length, replicate};
ghost use Rattle.sci_words.specs.{declared.{limits.TheConstants.{MAX_NODES}, stamped.Stamped.{Stamped}}, Stamped.{zero_stamped}};
ghost use Rattle.sci_history.specs.{declared.{entry.Entry.{Entry}, verdict.FaultKind.{FaultKind}}, Audit.{IsLineFault}, Lawful.{Lawful}, Placed.{AreOwn}};
ghost use Rattle.sci_windows.specs.{Fault.{IsLineFaultFrom}, Window.{AreIssuedBefore, LawfulFrom, counting_on, joined}};
ghost use Rattle.sci_windows.specs.declared.line_so_far.LineSoFar.{LineSoFar};
ghost use Rattle.sci_windows.specs.Scoreboard.{AreTaken, BeginWith, Breaks, begun_lines, contents_of, line_at, logs_told};

/// Logs are lawful from zero words at version 0 exactly if they are lawful, and their faults are then those of an audit.
pub fn windows_from_zeros()
    ensures lawful { (logs : List (List Entry)) (last : List Stamped) (lines : ℕ) → AreOwn logs → length logs ≡ MAX_NODES →
        LawfulFrom logs (replicate lines zero_stamped) last ↔ Lawful logs last }
    ensures faults { (entries : List Entry) (last : Stamped) (kind : FaultKind) (named : Option (ℕ × ℕ)) →
        IsLineFaultFrom entries zero_stamped last kind named ↔ IsLineFault entries last kind named }
{}

/// Two windows that meet are one lawful run: the last contents of the one are the first of the next, and each node
/// issued its operations of the one before those of the next.
pub fn windows_meet()
    ensures { (a b : List (List Entry)) (first middle last : List Stamped) → AreIssuedBefore a b →
        LawfulFrom a first middle → LawfulFrom b middle last → LawfulFrom (joined a b) first last }
{}

/// The serials of a window may be counted on from any number of operations of each node: it stays as lawful. So a window whose
/// serials begin with 0 again can be joined to the one before.
pub fn windows_go_on()
    ensures { (counts : ℕ → ℕ) (logs : List (List Entry)) (first last : List Stamped) →
        LawfulFrom logs first last → LawfulFrom (counting_on counts logs) first last }
{}

/// The entries that a scoreboard took are logs that are lawful, from the contents with which its lines began to those that they
/// have.
pub fn what_is_taken_is_lawful()
    ensures { (first : List Stamped) (told : List Entry) (lines : List LineSoFar) → AreTaken (begun_lines first) told lines →
        LawfulFrom (logs_told told) first (contents_of lines) }
{}

/// A scoreboard gives no false alarm: after the entries that it took, no lawful logs have an entry that it says is at fault,
/// whatever is in them after it, and whatever their last contents are.
pub fn what_breaks_is_unlawful()
    ensures { (first last : List Stamped) (told : List Entry) (lines : List LineSoFar) (entry : Entry) (kind : FaultKind)
        (logs : List (List Entry)) → AreTaken (begun_lines first) told lines →
        entry.node < MAX_NODES → Breaks (line_at lines entry.op.line) entry kind →
        BeginWith (told ++ entry ∷ []) logs → LawfulFrom logs first last → ⊥ }
{}
