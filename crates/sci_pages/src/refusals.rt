//! Why there is no page, in words.

ghost use Rattle.std.specs.Prelude.{◌≡◌};
ghost use Rattle.sci_text.specs.declared.fault.TextFaultKind.TheVariants.{Range, TooMany};

use sci_command::{Note, Refusal};
use sci_text::TextFaultKind;

const TOO_MANY_EVENTS: &str =
    "a page has at most 10,000 events: --events FIRST LAST or --line L takes some of them";

const TOO_MANY_ENTRIES: &str =
    "a page has at most 10,000 entries of a log: sciview order and sciview explain have no such limit";

const TOO_MANY_BYTES: &str =
    "a page has at most 5,000,000 bytes: of a schedule --events FIRST LAST or --line L takes some events";

const NO_PART_OF_A_LOG: &str =
    "a page of a log has all its entries: --line and --events take events of a schedule";

/// The refusal of a page that would have too many events: TooMany, at line 0.
pub fn too_many_events() -> Refusal
    ensures line { result.fault.line ≡ 0 }
    ensures kind { result.fault.kind ≡ TooMany }
{
    Refusal::of_input(TextFaultKind::TooMany, Note::Fixed(TOO_MANY_EVENTS))
}

/// The refusal of a page that would have too many entries: TooMany, at line 0.
pub fn too_many_entries() -> Refusal
    ensures line { result.fault.line ≡ 0 }
    ensures kind { result.fault.kind ≡ TooMany }
{
    Refusal::of_input(TextFaultKind::TooMany, Note::Fixed(TOO_MANY_ENTRIES))
}

/// The refusal of a page that would have too many bytes: TooMany, at line 0.
pub fn too_many_bytes() -> Refusal
    ensures line { result.fault.line ≡ 0 }
    ensures kind { result.fault.kind ≡ TooMany }
{
    Refusal::of_input(TextFaultKind::TooMany, Note::Fixed(TOO_MANY_BYTES))
}

/// The refusal of a part of a log: Range, at line 0.
pub fn no_part_of_a_log() -> Refusal
    ensures line { result.fault.line ≡ 0 }
    ensures kind { result.fault.kind ≡ Range }
{
    Refusal::of_input(TextFaultKind::Range, Note::Fixed(NO_PART_OF_A_LOG))
}
