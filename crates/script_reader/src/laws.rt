//! What the definitions of scripts and their faults come to.

ghost use Rattle.std.specs.Prelude.{◌≡◌, ℕ, List};
ghost use Rattle.script_reader.specs.declared.script.Script.{Script};
ghost use Rattle.script_reader.specs.declared.script.ScriptFault.{ScriptFault};
ghost use Rattle.script_reader.specs.Scripts.{IsScript, IsScriptFault};

/// Bytes are at most one script, have at most one first fault, and never are one and have the other.
pub fn bytes_are_one_script()
    ensures one_script { (bytes : List ℕ) (s t : Script) → IsScript bytes s → IsScript bytes t
        → s ≡ t }
    ensures one_fault { (bytes : List ℕ) (f g : ScriptFault) → IsScriptFault bytes f
        → IsScriptFault bytes g → f ≡ g }
    ensures not_both { (bytes : List ℕ) (s : Script) (f : ScriptFault) → IsScript bytes s
        → IsScriptFault bytes f → ⊥ }
{}
