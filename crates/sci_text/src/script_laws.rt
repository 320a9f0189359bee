//! Laws of scripts' texts, each the contract of a function that does nothing.

ghost use Rattle.sci_text.specs.FirstFault.{IsOfOne, HasNoFault, HasOneFault};
ghost use Rattle.sci_text.specs.{Script.{ScriptValue, IsScript, script_text}, ScriptFault.{IsScriptFault}};

/// The text of a script determines the script.
pub fn one_script()
    ensures { IsOfOne IsScript script_text }
{}

/// The text of a script has no line with a fault.
pub fn no_fault()
    ensures { (s : ScriptValue) → IsScript s → HasNoFault IsScriptFault (script_text s) }
{}

/// Bytes have at most one first faulty line, and one fault there.
pub fn one_fault()
    ensures { HasOneFault IsScriptFault }
{}
