//! Laws of the definitions, as contracts of functions without a body.

ghost use Rattle.std.specs.Prelude.{◌≡◌, ◌⊎◌, ℕ, List};
ghost use Rattle.net_script.specs.Faults.{IsFirstLineFault};
ghost use Rattle.net_script.specs.Lines.{IsScriptLine};
ghost use Rattle.net_script.specs.declared.line.ScriptLine.{ScriptLine as ScriptLineValue};
ghost use Rattle.net_script.specs.declared.refusal.Code.{Code as CodeValue};

/// Each line says something or has a first fault, and never both: the definitions leave no line out, whatever bytes it has and
/// however many. What it says is one thing, and what it has is one fault.
pub fn each_line_says_something_or_has_a_fault()
    ensures one { (line : List ℕ) → ((value : ScriptLineValue) × IsScriptLine value line)
        ⊎ ((fault : CodeValue) × (value : ℕ) × IsFirstLineFault line fault value) }
    ensures never_both { (line : List ℕ) (said : ScriptLineValue) (fault : CodeValue) (value : ℕ)
        → IsScriptLine said line → IsFirstLineFault line fault value → ⊥ }
    ensures one_value { (line : List ℕ) (a b : ScriptLineValue)
        → IsScriptLine a line → IsScriptLine b line → a ≡ b }
    ensures one_fault { (line : List ℕ) (a b : CodeValue) (m n : ℕ)
        → IsFirstLineFault line a m → IsFirstLineFault line b n → (a ≡ b) × (m ≡ n) }
{}
