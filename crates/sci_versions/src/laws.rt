//! Laws of logs without versions, each the contract of a function that does nothing.
//!
//! A trace is logs whose versions aren't known, as a processor or a simulator shows them. It is coherent if some
//! versions make it lawful.

ghost use Rattle.std.specs.Prelude.{◌≡◌, ◌≢◌, ◌<◌, ℕ, List, length};
ghost use Rattle.sci_words.specs.declared.limits.TheConstants.{MAX_NODES, WORDS_PER_LINE};
ghost use Rattle.sci_words.specs.declared.{operation.{Act.{Act}, Reply.{Reply}}, stamped.Stamped.{Stamped}};
ghost use Rattle.sci_history.specs.{declared.entry.Entry.{Entry}, Lawful.{Lawful}, Placed.{AreOwn}, Seen.{DidOn}};
ghost use Rattle.sci_versions.specs.{Stretches.{IsCycle, IsWritten}, Versions.{AgreesWith, HasVersions, KnownWords}};

/// Lawful logs have versions: their own.
pub fn lawful_logs_have_versions()
    ensures { (logs : List (List Entry)) (last : List Stamped) (known : KnownWords) →
        AreOwn logs → length logs ≡ MAX_NODES → Lawful logs last → AgreesWith known last →
        HasVersions logs known }
{}

/// In lawful logs a load gets 0 or a value that some maker left. So a trace in which a load gets another value has no
/// versions.
pub fn values_are_written()
    ensures { (logs : List (List Entry)) (last : List Stamped) (line node value : ℕ) (entry : Entry) →
        AreOwn logs → length logs ≡ MAX_NODES → Lawful logs last →
        DidOn logs line node entry → entry.op.act ≡ Act.Load → entry.op.word < WORDS_PER_LINE →
        entry.reply ≡ Reply.Got value → value ≢ 0 → IsWritten logs line entry.op.word value }
{}

/// Logs whose values of a word go round in a cycle are not lawful, whatever their versions and last contents are.
pub fn lawful_logs_have_no_cycle()
    ensures { (logs : List (List Entry)) (last : List Stamped) (line word : ℕ) (steps : List (Entry × Entry)) →
        AreOwn logs → length logs ≡ MAX_NODES → Lawful logs last → word < WORDS_PER_LINE →
        IsCycle logs line word steps → ⊥ }
{}

/// A trace whose values of a word go round in a cycle has no versions, so a cycle shows that a trace is not coherent.
pub fn cycles_rule_out_versions()
    ensures { (trace : List (List Entry)) (known : KnownWords) (line word : ℕ) (steps : List (Entry × Entry)) →
        word < WORDS_PER_LINE → IsCycle trace line word steps → HasVersions trace known → ⊥ }
{}
