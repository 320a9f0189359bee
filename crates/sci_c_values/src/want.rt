//! What a policy decides.

ghost use Rattle.std.specs.Prelude.{◌≡◌, Some, slice_get};
ghost use Rattle.sci_words.specs.{declared.event.TheConstants.AskKind.{ALL}, Event.{ask_number}};
ghost use Rattle.sci_c_values.specs.Want.{decision_number, want_struct};

use sci_policy::{Decision, Want};
use sci_words::AskKind;

/// What a node does next. `kind` is 0 for nothing, 1 to perform the operation that is pending on `line`, and 2 to send a
/// request of the kind `ask` about `line`.
#[repr(C)]
#[derive(Clone, Copy)]
pub struct SciWant {
    pub kind: u8,
    pub line: u8,
    pub ask: u8,
    pub reserved: u8,
}

/// The number of a kind of requests.
fn ask_out(kind: AskKind) -> u8
    ensures number { result ≡ ask_number kind }
    ensures place { slice_get ALL result ≡ Some kind }
{
    kind as u8
}

/// The struct of what a node does next.
pub fn want_out(want: Option<Want>) -> SciWant
    ensures { result ≡ want_struct want }
{
    let (kind, line, ask) = match want {
        None => (0, 0, 0),
        Some(Want::Perform(line)) => (1, line, 0),
        Some(Want::Ask(line, kind)) => (2, line, ask_out(kind)),
    };
    SciWant {
        kind,
        line,
        ask,
        reserved: 0,
    }
}

/// The number of what is done with a request: 0 to keep it, 1 to refuse it, 2 to serve it.
pub fn decision_out(decision: Decision) -> u32
    ensures { result ≡ decision_number decision }
{
    match decision {
        Decision::Keep => 0,
        Decision::Refuse => 1,
        Decision::Serve => 2,
    }
}
