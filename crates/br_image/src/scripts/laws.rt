// What holds of scripts.

ghost use Rattle.std.specs.Prelude.{◌≡◌, ◌⊎◌, ℕ, List};
ghost use Rattle.br_image.specs.declared.scripts.values.RunScript.{RunScript};
ghost use Rattle.br_image.specs.declared.scripts.values.InterpScript.{InterpScript};
ghost use Rattle.br_image.specs.declared.scripts.values.ScriptFault.{ScriptFault};
ghost use Rattle.br_image.specs.Scripts.{run_parts, interp_parts, IsRunScript};
ghost use Rattle.br_image.specs.Scripts.{IsInterpScript, IsScriptFault};

/// Each text begins with a run script or has a fault, and never both, and never two scripts or two
/// faults.
pub fn one_run_script_or_one_fault()
    ensures either { (text : List ℕ) → ((s : RunScript) × (at : ℕ) × IsRunScript text s at)
        ⊎ ((f : ScriptFault) × IsScriptFault run_parts text f) }
    ensures not_both { (text : List ℕ) (s : RunScript) (at : ℕ) (f : ScriptFault) →
        IsRunScript text s at → IsScriptFault run_parts text f → ⊥ }
    ensures one_script { (text : List ℕ) (s t : RunScript) (at to : ℕ) → IsRunScript text s at →
        IsRunScript text t to → (s ≡ t) × (at ≡ to) }
    ensures one_fault { (text : List ℕ) (f g : ScriptFault) → IsScriptFault run_parts text f →
        IsScriptFault run_parts text g → f ≡ g }
{}

/// Each text begins with an interp script or has a fault, and never both, and never two scripts or
/// two faults.
pub fn one_interp_script_or_one_fault()
    ensures either { (text : List ℕ) → ((s : InterpScript) × (at : ℕ) × IsInterpScript text s at)
        ⊎ ((f : ScriptFault) × IsScriptFault interp_parts text f) }
    ensures not_both { (text : List ℕ) (s : InterpScript) (at : ℕ) (f : ScriptFault) →
        IsInterpScript text s at → IsScriptFault interp_parts text f → ⊥ }
    ensures one_script { (text : List ℕ) (s t : InterpScript) (at to : ℕ) →
        IsInterpScript text s at → IsInterpScript text t to → (s ≡ t) × (at ≡ to) }
    ensures one_fault { (text : List ℕ) (f g : ScriptFault) → IsScriptFault interp_parts text f →
        IsScriptFault interp_parts text g → f ≡ g }
{}
