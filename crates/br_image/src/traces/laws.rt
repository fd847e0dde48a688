// What holds of trace texts.

ghost use Rattle.std.specs.Prelude.{◌≡◌, ◌⊎◌, ℕ, List};
ghost use Rattle.br_bytes.specs.declared.run.Event.{Event};
ghost use Rattle.br_image.specs.declared.traces.reading.TraceFault.{TraceFault};
ghost use Rattle.br_image.specs.Traces.{IsTrace, IsTraceFault};

/// Each text is a trace text or has a fault, and never both, and tells one list of events or one
/// fault.
pub fn one_trace_or_one_fault()
    ensures either { (text : List ℕ) →
        ((events : List Event) × IsTrace text events) ⊎ ((f : TraceFault) × IsTraceFault text f) }
    ensures not_both { (text : List ℕ) (events : List Event) (f : TraceFault) →
        IsTrace text events → IsTraceFault text f → ⊥ }
    ensures one_trace { (text : List ℕ) (xs ys : List Event) → IsTrace text xs →
        IsTrace text ys → xs ≡ ys }
    ensures one_fault { (text : List ℕ) (f g : TraceFault) → IsTraceFault text f →
        IsTraceFault text g → f ≡ g }
{}
