//! Laws of the definitions that contracts cite: each is the contract of a function that does nothing, so that
//! a reader of the definitions sees that they say what they mean.

ghost use Rattle.std.specs.Prelude.{true, ◌≡◌, ◌≤◌, ◌<◌, ◌↔◌, ◌∷◌, ◌++◌, [], List, ℕ, Option, map, filter, length, AllPairs};
ghost use Rattle.std.specs.List.{AllByRecursion, flat_map};
ghost use Rattle.sci_words.specs.declared.{limits.TheConstants.{MAX_NODES, WORDS_PER_LINE}, operation.Act.{Act}};
ghost use Rattle.sci_words.specs.declared.{operation.{Op.{Op}, Reply.{Reply}}, stamped.Stamped.{Stamped}};
ghost use Rattle.sci_words.specs.Stamped.{zero_stamped};
ghost use Rattle.sci_history.specs.declared.{entry.Entry.{Entry}, verdict.FaultKind.{FaultKind}};
ghost use Rattle.sci_history.specs.{declared.order_verdict.Step.{Step}, Audit.{AreWithin, HasNoFault, IsLineFault}};
ghost use Rattle.sci_history.specs.{Cycle.{IsCycle}, History.{HasHistory}, Lawful.{IsLawfulLine, Lawful}};
ghost use Rattle.sci_history.specs.Memory.{IsRun, stamped_at, words_of_lines, zero_memory};
ghost use Rattle.sci_history.specs.Oracle.{IsInRange, Issue, oracle_last, oracle_logs};
ghost use Rattle.sci_history.specs.Placed.{AreOwn, is_making, is_of_node, is_on_line, log_of, on_line, pair_of};
ghost use Rattle.sci_history.specs.Seen.{DidOn};
ghost use Rattle.sci_history.specs.Sequential.{AreInProgramOrder, IsInProgramOrder, IsSequentialOrder, IsSequentiallyConsistent, by_serial};

/// A script's logs and last contents on one memory of one thread are lawful, whatever operations it has within
/// the limits.
pub fn oracle_is_lawful()
    ensures { (lines : ℕ) (script : List Issue) → AllByRecursion (IsInRange lines) script →
        Lawful (oracle_logs lines script) (oracle_last lines script) }
{}

/// Logs of which a line has a history are lawful on that line: it is enough to know some order in which the
/// operations took effect.
pub fn history_is_lawful()
    ensures { (logs : List (List Entry)) (line : ℕ) (last : Stamped) → length logs ≡ MAX_NODES →
        HasHistory logs line last → IsLawfulLine logs line last }
{}

/// Logs have one lawful end. A line without entries has zero words at version 0 there.
pub fn one_lawful_end()
    ensures same { (logs : List (List Entry)) (a b : List Stamped) → Lawful logs a → Lawful logs b →
        (line : ℕ) → stamped_at a line ≡ stamped_at b line }
    ensures zero { (logs : List (List Entry)) (last : List Stamped) → Lawful logs last →
        (line : ℕ) → on_line line logs ≡ [] → stamped_at last line ≡ zero_stamped }
{}

/// A run of operations and of those after them goes through the memory where the first run ends.
pub fn runs_compose()
    ensures { (xs ys : List (Op × Reply)) (old new : List (List ℕ)) →
        IsRun (xs ++ ys) old new
        ↔ ((middle : List (List ℕ)) × IsRun xs old middle × IsRun ys middle new) }
{}

/// A run is a function of the memory that it begins with: the same operations get the same replies and come to the
/// same end.
pub fn runs_are_functions()
    ensures { (xs ys : List (Op × Reply)) (old new other : List (List ℕ)) →
        map (λ x. x.0) xs ≡ map (λ y. y.0) ys →
        IsRun xs old new → IsRun ys old other → (xs ≡ ys) × (new ≡ other) }
{}

/// No read is stale: what a node did on a line before one of its operations there, a load too, has no version
/// above that operation's.
pub fn no_stale_read()
    ensures { (logs : List (List Entry)) (last : List Stamped) (line node : ℕ)
        (before after : List Entry) (entry : Entry) → Lawful logs last → node < MAX_NODES →
        filter (is_on_line line) (log_of logs node) ≡ before ++ entry ∷ after →
        AllByRecursion (λ earlier. earlier.version ≤ entry.version) before }
{}

/// Two processors, or one, never read two different words at one version of a line.
pub fn one_word_at_a_version()
    ensures { (logs : List (List Entry)) (last : List Stamped) (line n m : ℕ) (x y : Entry) →
        AreOwn logs → length logs ≡ MAX_NODES → Lawful logs last → DidOn logs line n x →
        DidOn logs line m y →
        x.op.act ≡ Act.Load → y.op.act ≡ Act.Load → x.op.word ≡ y.op.word →
        x.version ≡ y.version → x.reply ≡ y.reply }
{}

/// A store that was answered is seen by every load at its version or a later one, until another maker is at that
/// word.
pub fn stores_are_seen()
    ensures { (logs : List (List Entry)) (last : List Stamped) (line n m word : ℕ) (x y : Entry) →
        AreOwn logs → length logs ≡ MAX_NODES → Lawful logs last → DidOn logs line n x →
        DidOn logs line m y →
        x.op.act ≡ Act.Store word → x.op.word < WORDS_PER_LINE → y.op.act ≡ Act.Load →
        y.op.word ≡ x.op.word →
        x.version ≤ y.version →
        ((k : ℕ) (z : Entry) → DidOn logs line k z → is_making z ≡ true → x.version < z.version →
        z.version ≤ y.version → z.op.word ≡ x.op.word → ⊥) →
        y.reply ≡ Reply.Got word }
{}

/// An audit's five kinds of fault are what lawfulness rules out: a line of logs is lawful exactly if no kind fails
/// on it, in logs that each have their own node's entries.
pub fn lawful_is_faultless()
    ensures lawful { (logs : List (List Entry)) (line : ℕ) (last : Stamped) → AreOwn logs →
        length logs ≡ MAX_NODES →
        IsLawfulLine logs line last ↔ HasNoFault (on_line line logs) last }
    ensures faulty { (entries : List Entry) (last : Stamped) (kind : FaultKind)
        (named : Option (ℕ × ℕ)) →
        IsLineFault entries last kind named → HasNoFault entries last → ⊥ }
{}

/// Logs that each have their own node's entries are known by all entries in reading order: a node's log is its own
/// among them.
pub fn one_partition()
    ensures one { (a b : List (List Entry)) → AreOwn a → AreOwn b → length a ≡ MAX_NODES →
        length b ≡ MAX_NODES →
        flat_map (λ log. log) a ≡ flat_map (λ log. log) b → a ≡ b }
    ensures own { (logs : List (List Entry)) (node : ℕ) → AreOwn logs → length logs ≡ MAX_NODES →
        node < MAX_NODES →
        filter (is_of_node node) (flat_map (λ log. log) logs) ≡ log_of logs node }
{}

/// An order that makes logs sequentially consistent is a run of the whole memory, from the zero memory to the last
/// words: all lines together are one memory of one thread.
pub fn orders_are_runs()
    ensures { (logs : List (List Entry)) (last : List Stamped) (order : List Entry) → IsSequentialOrder logs last order →
        IsRun (map pair_of order) (zero_memory (length last)) (words_of_lines last) }
{}

/// Logs that are sequentially consistent are lawful, if on each line the serials of each node rise; they do if each
/// log is in program order.
pub fn sequential_logs_are_lawful()
    ensures lawful { (logs : List (List Entry)) (last : List Stamped) → length logs ≡ MAX_NODES →
        IsSequentiallyConsistent logs last →
        ((line node : ℕ) → AllPairs (λ x y. x.serial < y.serial) (filter (is_on_line line) (log_of logs node))) →
        Lawful logs last }
    ensures serials { (log : List Entry) (line : ℕ) → IsInProgramOrder log →
        AllPairs (λ x y. x.serial < y.serial) (filter (is_on_line line) log) }
{}

/// Logs with a cycle aren't sequentially consistent, whatever their last contents are: in any order each entry of the
/// cycle would stand before itself.
pub fn cycles_rule_out_orders()
    ensures { (logs : List (List Entry)) (last : List Stamped) (steps : List Step) → IsCycle logs steps →
        IsSequentiallyConsistent logs last → ⊥ }
{}

/// Lawful logs stay lawful when each node's entries are put in the order issued, and logs in program order stay as they are.
pub fn serial_order_is_lawful()
    ensures lawful { (logs : List (List Entry)) (last : List Stamped) → length logs ≡ MAX_NODES → Lawful logs last →
        Lawful (by_serial logs) last }
    ensures within { (lines : ℕ) (logs : List (List Entry)) → AreWithin lines logs →
        AreWithin lines (by_serial logs) }
    ensures issued { (logs : List (List Entry)) → AreInProgramOrder logs → by_serial logs ≡ logs }
{}
