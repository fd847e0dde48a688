// Laws of needs. Each function does nothing: what it ensures is the law.

ghost use Rattle.std.specs.Prelude.{◌≡◌, ℕ, ◌+◌, ◌≤◌, List, Some, min, map, slice_get};
ghost use Rattle.std.specs.Option.{option_map, unwrap_or};
ghost use Rattle.br_flatimp.specs.declared.program.FlatFunc.{FlatFunc};
ghost use Rattle.br_flatimp.specs.Parts.{callees};
ghost use Rattle.br_flatimp.specs.Sizes.{HasNoRecursion, largest, need, nest, own_need};
ghost use Rattle.br_flatimp.specs.WellFormed.{IsRegisterForm};

/// Where no function has a path of calls to itself, what a function needs is what it needs for
/// itself and the most that one of its callees needs, or 4,294,967,295 where that is less.
pub fn needs_add_up()
    ensures { (fs : List FlatFunc) (f : ℕ) (caller : FlatFunc) → HasNoRecursion fs →
        slice_get fs f ≡ Some caller →
        need fs caller ≡ min 4294967295 (own_need caller + largest
        (map (λ g. unwrap_or (option_map (need fs) (slice_get fs g)) 0) (callees caller))) }
{}

/// In register form a function needs at most 120 bytes for its names, a word for each of
/// 29 registers and one more. Numbers for the functions bound their needs, where the
/// number of each is at least 120, its largest sum of nested buffer sizes and the
/// largest number of its callees together.
pub fn needs_are_bounded()
    ensures own { (fs : List FlatFunc) (f : ℕ) (caller : FlatFunc) → IsRegisterForm fs →
        slice_get fs f ≡ Some caller → own_need caller ≤ 120 + nest caller }
    ensures bounded { (fs : List FlatFunc) (bound : ℕ → ℕ) → IsRegisterForm fs
        → ((f : ℕ) (caller : FlatFunc) → slice_get fs f ≡ Some caller →
        120 + nest caller + largest (map bound (callees caller)) ≤ bound f)
        → (f : ℕ) (caller : FlatFunc) → slice_get fs f ≡ Some caller → need fs caller ≤ bound f }
{}
