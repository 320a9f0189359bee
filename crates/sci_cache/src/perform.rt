//! What a processor can do with the contents of each state.

ghost use Rattle.std.specs.Prelude.{◌≡◌, ◌<◌, ◌^◌, ◌-◌, true, None, Some, option_map, if◌then◌else◌, nat_lt};
ghost use Rattle.sci_words.specs.{declared.limits.TheConstants.{WORDS_PER_LINE}, Operation.{is_maker}};
ghost use Rattle.sci_words.specs.Stamped.{after, reply_of};
ghost use Rattle.sci_cache.specs.{Performing.{performing}, Held.{state_of}};

use crate::held::Held;
use sci_words::{Op, Reply, Stamped};

impl Held {
    /// Performs an operation, and gives its reply and the version that it read or made. None, unchanged, if the state
    /// doesn't allow it.
    pub(crate) fn perform(&mut self, op: &Op) -> Option<(Reply, u64)>
        requires { op.now.word < WORDS_PER_LINE }
        ensures case { performing (state_of self.old) op.now
            ≡ option_map
            (λ answer. record { reply = answer.0; version = answer.1; next = state_of self.new })
            result }
        ensures same { result ≡ None → self.new ≡ self.old }
    {
        match self {
            Held::Head(state) if op.is_maker() && state.forward.is_none() => {
                make(&mut state.contents, op)
            }
            Held::Head(state) => load(&state.contents, op),
            Held::FreshHead(state) => load(&state.contents, op),
            Held::Below(state) => load(&state.contents, op),
            _ => None,
        }
    }
}

/// Performs a load of these contents. None for a maker.
fn load(contents: &Stamped, op: &Op) -> Option<(Reply, u64)>
    requires { op.now.word < WORDS_PER_LINE }
    ensures { result
        ≡ (if is_maker op.now
        then None
        else Some (reply_of contents.now.line op.now, contents.now.version)) }
{
    if op.is_maker() {
        return None;
    }
    let (_, reply) = (*contents).after(*op);
    Some((reply, contents.version))
}

/// Performs a maker on contents of which there is no other copy. None, unchanged, if their version is the greatest.
fn make(contents: &mut Stamped, op: &Op) -> Option<(Reply, u64)>
    requires word { op.now.word < WORDS_PER_LINE }
    requires maker { is_maker op.now ≡ true }
    ensures answer { result
        ≡ (if nat_lt contents.old.version (2 ^ 64 - 1)
        then Some (reply_of contents.old.line op.now, (after contents.old op.now).version)
        else None) }
    ensures contents { contents.new
        ≡ (if nat_lt contents.old.version (2 ^ 64 - 1)
        then after contents.old op.now
        else contents.old) }
{
    if contents.version == u64::MAX {
        return None;
    }
    let reply = contents.apply(*op);
    Some((reply, contents.version))
}
