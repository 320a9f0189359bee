//! Laws of the commands, each the contract of a function that does nothing.

ghost use Rattle.std.specs.Prelude.{◌≡◌, ℕ, List};
ghost use Rattle.sci_command.specs.{declared.outcome.Outcome.{Outcome}, VerdictLine.{verdict_text}};
ghost use Rattle.scimem.specs.{Decoding.{IsDecoded}, LogAnswer.{IsAuditOf}, OracleAnswer.{IsOracleOf}};
ghost use Rattle.scimem.specs.{ReplayAnswer.{IsReplayOf}, ThreadsAnswer.{IsThreadsOf}};
ghost use Rattle.sci_history.specs.declared.verdict.Verdict.TheVariants as verdicts;

use sci_packets::laws::{no_proper_prefix, one_packet};
use sci_text::one_log;

/// Bytes have one text, and one end of the command: no run of packets is refused, and what is no run is never
/// Done.
pub fn one_decoding()
    ensures { (input text other : List ℕ) (outcome another : Outcome)
        → IsDecoded input text outcome → IsDecoded input other another
        → (text ≡ other) × (outcome ≡ another) }
{
    no_proper_prefix();
    one_packet();
}

/// What `replay` writes for any schedule an audit finds lawful.
pub fn replays_are_lawful()
    ensures { (input text said : List ℕ) (outcome : Outcome)
        → IsReplayOf input text → IsAuditOf text said outcome
        → (said ≡ verdict_text verdicts.Lawful) × (outcome ≡ Outcome.Done) }
{
    one_log();
}

/// What `oracle` writes for any script an audit finds lawful.
pub fn oracles_are_lawful()
    ensures { (input text said : List ℕ) (outcome : Outcome)
        → IsOracleOf input text → IsAuditOf text said outcome
        → (said ≡ verdict_text verdicts.Lawful) × (outcome ≡ Outcome.Done) }
{
    one_log();
}

/// What `threads` writes for any script an audit finds lawful.
pub fn runs_are_lawful()
    ensures { (turns : ℕ) (input text said : List ℕ) (ends outcome : Outcome)
        → IsThreadsOf turns input text ends → IsAuditOf text said outcome
        → (said ≡ verdict_text verdicts.Lawful) × (outcome ≡ Outcome.Done) }
{
    one_log();
}
