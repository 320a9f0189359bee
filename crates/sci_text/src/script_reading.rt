//! Reading a script to its end, and judging it then.

ghost use Rattle.std.specs.{Prelude.{◌≡◌, ◌≤◌, false, length, IfOk, OnOk, IfErr, Some}, Io.KnownBytes.{IsAtEnd}};
ghost use Rattle.sci_words.specs.declared.limits.TheConstants.{MAX_INPUT_BYTES};
ghost use Rattle.sci_text.specs.Tap.{tapped, has_failed, is_called_again};
ghost use Rattle.sci_text.specs.{Script.{ScriptValue, IsScript, script_text}, FirstFault.{AreRead, GivesOnly, IsTold}};
ghost use Rattle.sci_text.specs.ScriptFault.{IsScriptFault};

use crate::fault::TextFault;
use crate::reading::read_input;
use crate::script::Script;
use crate::script_lines::script_of;
use crate::tap::Tap;
use std::alloc::Global;
use std::io::Read;

/// The script that the reader gives, read to its end. A refusal names the first fault and its line: Read if the
/// reader failed, TooMany for an input above 134,217,728 bytes and Memory, all for the whole input; else the first
/// faulty line, with Syntax before Range before TooMany. Memory is answered only if an allocation failed.
pub fn read_script<R: Read>(alloc: Global, reader: &mut Tap<R>) -> Result<Script, TextFault>
    requires { has_failed reader.old ≡ false }

    // The input is the text of the script.
    ensures text { IfOk result (λ script.
        AreRead (R.remaining (tapped reader.old)) (script_text script)) }
    ensures good { IfOk result IsScript }
    ensures end { OnOk result (IsAtEnd (R.remaining (tapped reader.new))) }
    ensures unfailed { OnOk result (has_failed reader.new ≡ false) }

    // If it is the text of a script, that script is read.
    ensures only { (script : ScriptValue) → IsScript script
        → length (script_text script) ≤ MAX_INPUT_BYTES
        → R.remaining (tapped reader.old) ≡ Some (script_text script) → GivesOnly script result }

    // Else the first fault is reported.
    ensures fault { IfErr result (λ fault. IsTold IsScriptFault fault.kind
        (R.remaining (tapped reader.old)) (has_failed reader.new) fault.line) }
    ensures again { is_called_again reader.new ≡ is_called_again reader.old }
{
    let input = read_input(alloc, reader)?;
    script_of(alloc, &input)
}
