//! The commands, each by its word.

ghost use Rattle.std.specs.Prelude.{◌≡◌, false};
ghost use Rattle.sci_text.specs.Tap.{has_failed, tapped};
ghost use Rattle.scimem.specs.CommandAnswer.{AreDeadOf, IsToldOf};
ghost use Rattle.sci_command.specs.Writing.{HasCarriedOut};

use crate::audit::audit_text;
use crate::choice::Command;
use crate::decode::decode_bytes;
use crate::oracle::oracle;
use crate::replay::replay;
use crate::threads::threads;
use crate::upgrade::upgrade;
use sci_command::{Ended, finish, parted};
use sci_text::Tap;
use std::alloc::Global;
use std::io::{Read, Write};
use std::thread::Threads;

/// Carries out a command: reads its input to the end, and writes its answer. After the first read or write that fails
/// nothing more is read or written.
pub fn carried_out<T: Threads + Sync, R: Read, W: Write>(
    rt: &T,
    alloc: Global,
    command: Command,
    reader: &mut Tap<R>,
    writer: &mut Tap<W>,
) -> Ended
    requires reader { has_failed reader.old ≡ false }
    requires writer { has_failed writer.old ≡ false }
    ensures answer { HasCarriedOut R.remaining W.contents reader.old reader.new writer.old writer.new
        result.outcome (IsToldOf command result.refusal) }
    ensures dead { AreDeadOf command (R.remaining (tapped reader.old)) (has_failed reader.new)
        result.refusal result.dead }
{
    match command {
        Command::Oracle => finish(writer, oracle(alloc, reader)),
        Command::Replay => {
            let (answered, dead) = parted(replay(alloc, reader));
            finish(writer, answered).beside(dead)
        }
        Command::Threads { turns } => finish(writer, threads(rt, alloc, reader, turns)),
        Command::Decode => decode_bytes(alloc, reader, writer),
        Command::Audit => finish(writer, audit_text(alloc, reader)),
        Command::Upgrade => finish(writer, upgrade(alloc, reader)),
    }
}
