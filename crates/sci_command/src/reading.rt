//! Reading the text that a command is about. A refusal says what is wrong with the line.

ghost use Rattle.std.specs.Prelude.{ℕ, List, ◌≡◌, false, IfOk, OnOk, IfErr};
ghost use Rattle.sci_text.specs.{FirstFault.{AreRead, IsRefusal, IsTold}, Tap.{has_failed, is_called_again, tapped}};
ghost use Rattle.sci_text.specs.{LogFault.{IsLogFault}, LogValue.{AreLogs, IsLogs}};
ghost use Rattle.sci_text.specs.{Schedule.{IsSchedule, schedule_text}, ScheduleFault.{IsScheduleFault}};
ghost use Rattle.sci_text.specs.{Script.{IsScript, script_text}, ScriptFault.{IsScriptFault}};

use crate::refusal::Refusal;
use crate::text_lines::TextKind;
use sci_history::{Last, Logs};
use sci_text::{Schedule, Script, Tap, read_input, schedule_of, script_of};
use std::alloc::Global;
use std::io::Read;

/// The script that the reader gives, read to its end. Refused as by `read_script` of `sci_text`.
pub fn read_script<R: Read>(alloc: Global, reader: &mut Tap<R>) -> Result<Script, Refusal>
    requires { has_failed reader.old ≡ false }
    ensures text { IfOk result (λ script.
        AreRead (R.remaining (tapped reader.old)) (script_text script)) }
    ensures good { IfOk result IsScript }
    ensures unfailed { OnOk result (has_failed reader.new ≡ false) }
    ensures fault { IfErr result (λ refusal. IsTold IsScriptFault refusal.fault.kind
        (R.remaining (tapped reader.old)) (has_failed reader.new) refusal.fault.line) }
    ensures again { is_called_again reader.new ≡ is_called_again reader.old }
{
    let input = read_input(alloc, reader)?;
    match script_of(alloc, &input) {
        Ok(script) => Ok(script),
        Err(fault) => Err(Refusal::of_text(alloc, TextKind::Script.known(), &input, fault)),
    }
}

/// The schedule that the reader gives, read to its end. Refused as by `read_schedule` of `sci_text`.
pub fn read_schedule<R: Read>(alloc: Global, reader: &mut Tap<R>) -> Result<Schedule, Refusal>
    requires { has_failed reader.old ≡ false }
    ensures text { IfOk result (λ schedule.
        AreRead (R.remaining (tapped reader.old)) (schedule_text schedule)) }
    ensures good { IfOk result IsSchedule }
    ensures unfailed { OnOk result (has_failed reader.new ≡ false) }
    ensures fault { IfErr result (λ refusal. IsTold IsScheduleFault refusal.fault.kind
        (R.remaining (tapped reader.old)) (has_failed reader.new) refusal.fault.line) }
    ensures again { is_called_again reader.new ≡ is_called_again reader.old }
{
    let input = read_input(alloc, reader)?;
    match schedule_of(alloc, &input) {
        Ok(schedule) => Ok(schedule),
        Err(fault) => Err(Refusal::of_text(alloc, TextKind::Schedule.known(), &input, fault)),
    }
}

/// The logs and the last contents whose text the bytes are, with the number of nodes. Refused as by `logs_of` of `sci_text`.
pub fn logs_of(alloc: Global, input: &[u8]) -> Result<(u8, Logs, Box<Last, Global>), Refusal>
    ensures ok { IfOk result (λ x. IsLogs input.now x.0 x.1 x.2.value) }
    ensures good { IfOk result (λ x. AreLogs x.0 x.1 x.2.value) }
    ensures fault { IfErr result (λ refusal. IsRefusal IsLogFault input.now refusal.fault) }
{
    match sci_text::logs_of(alloc, input) {
        Ok(read) => Ok(read),
        Err(fault) => Err(Refusal::of_text(alloc, TextKind::Log.known(), input, fault)),
    }
}

/// The same of the bytes that the reader gives, read to its end. Refused as by `read_logs` of `sci_text`.
pub fn read_logs<R: Read>(
    alloc: Global,
    reader: &mut Tap<R>,
) -> Result<(u8, Logs, Box<Last, Global>), Refusal>
    requires { has_failed reader.old ≡ false }
    ensures text { IfOk result (λ x. (input : List ℕ)
        × AreRead (R.remaining (tapped reader.old)) input × IsLogs input x.0 x.1 x.2.value) }
    ensures good { IfOk result (λ x. AreLogs x.0 x.1 x.2.value) }
    ensures unfailed { OnOk result (has_failed reader.new ≡ false) }
    ensures fault { IfErr result (λ refusal. IsTold IsLogFault refusal.fault.kind
        (R.remaining (tapped reader.old)) (has_failed reader.new) refusal.fault.line) }
    ensures again { is_called_again reader.new ≡ is_called_again reader.old }
{
    let input = read_input(alloc, reader)?;
    logs_of(alloc, &input)
}
