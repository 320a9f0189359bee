//! The library itself.

ghost use Rattle.std.specs.Prelude.{◌≡◌, ◌∷◌, []};

use crate::handle::SciObject;
use sci_c_traces::{SciAccess, SciJudgement, SciLastWord, SciTraceWay};
use sci_c_values::{
    SciDead, SciEntry, SciEvent, SciHeld, SciHome, SciOp, SciPacket, SciSeen, SciStamped,
    SciTextFault, SciVerdict, SciWant,
};
use std::mem::size_of;

/// 65,536 times the major number of the version, and the minor number.
const VERSION: u32 = 1;

const OP: usize = size_of::<SciOp>();

const EVENT: usize = size_of::<SciEvent>();

const PACKET: usize = size_of::<SciPacket>();

const STAMPED: usize = size_of::<SciStamped>();

const ENTRY: usize = size_of::<SciEntry>();

const VERDICT: usize = size_of::<SciVerdict>();

const TEXT_FAULT: usize = size_of::<SciTextFault>();

const OBJECT: usize = size_of::<SciObject>();

const HELD: usize = size_of::<SciHeld>();

const HOME: usize = size_of::<SciHome>();

const SEEN: usize = size_of::<SciSeen>();

const WANT: usize = size_of::<SciWant>();

const DEAD: usize = size_of::<SciDead>();

const ACCESS: usize = size_of::<SciAccess>();

const LAST_WORD: usize = size_of::<SciLastWord>();

const TRACE_WAY: usize = size_of::<SciTraceWay>();

const JUDGEMENT: usize = size_of::<SciJudgement>();

/// The version of the library.
#[unsafe(no_mangle)]
pub extern "C" fn sci_version() -> u32
    ensures { result ≡ 1 }
{
    VERSION
}

/// Writes the sizes of the structs.
#[unsafe(no_mangle)]
pub extern "C" fn sci_layout(sizes: &mut [u64; 8])
    ensures { sizes.new ≡ 24 ∷ 32 ∷ 96 ∷ 72 ∷ 48 ∷ 20 ∷ 16 ∷ 16 ∷ [] }
{
    *sizes = [
        OP as u64,
        EVENT as u64,
        PACKET as u64,
        STAMPED as u64,
        ENTRY as u64,
        VERDICT as u64,
        TEXT_FAULT as u64,
        OBJECT as u64,
    ];
}

/// Writes the sizes of the structs for looks, for what a policy decides, for what a schedule didn't do, and for traces.
#[unsafe(no_mangle)]
pub extern "C" fn sci_layout_more(sizes: &mut [u64; 9])
    ensures { sizes.new ≡ 80 ∷ 80 ∷ 152 ∷ 4 ∷ 12 ∷ 56 ∷ 16 ∷ 16 ∷ 32 ∷ [] }
{
    *sizes = [
        HELD as u64,
        HOME as u64,
        SEEN as u64,
        WANT as u64,
        DEAD as u64,
        ACCESS as u64,
        LAST_WORD as u64,
        TRACE_WAY as u64,
        JUDGEMENT as u64,
    ];
}
