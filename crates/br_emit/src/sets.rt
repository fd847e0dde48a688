// Sets of registers, as words with a bit for each.

ghost use Rattle.std.specs.Prelude.{◌≡◌, ℕ, ◌<◌, ◌&&◌, ◌||◌, not, true, ◌∷◌, [], get_or};
ghost use Rattle.br_flatimp.specs.Liveness.{is_in};
ghost use Rattle.br_emit.specs.Registers.{has};

/// Every register.
pub const EVERY: u32 = 0xffff_ffff;

/// Whether a register is in a set.
pub fn contains(set: u32, x: u32) -> bool
    ensures { result ≡ has set x }
{
    x < 32 && set >> x & 1 == 1
}

/// One register.
pub fn just(x: u32) -> u32
    ensures { (y : ℕ) → y < 32 → has result y ≡ is_in (x ∷ []) y }
{
    if x < 32 { 1 << x } else { 0 }
}

/// The registers of either.
pub fn union(a: u32, b: u32) -> u32
    ensures { (x : ℕ) → has result x ≡ (has a x || has b x) }
{
    a | b
}

/// The registers of both.
pub fn common(a: u32, b: u32) -> u32
    ensures { (x : ℕ) → has result x ≡ (has a x && has b x) }
{
    a & b
}

/// The registers of the first that are not in the second.
pub fn without(a: u32, b: u32) -> u32
    ensures { (x : ℕ) → has result x ≡ (has a x && not (has b x)) }
{
    a & !b
}

/// Whether each register of the first is in the second.
pub fn is_within(a: u32, b: u32) -> bool
    ensures { result ≡ true → (x : ℕ) → has a x ≡ true → has b x ≡ true }
{
    without(a, b) == 0
}

/// The registers of a list.
pub fn all_of(xs: &[u32]) -> u32
    ensures { (y : ℕ) → y < 32 → has result y ≡ is_in xs.now y }
{
    let mut set = 0;
    for x in xs {
        set = union(set, just(*x));
    }
    set
}

/// The set of a number, or none where it has none.
pub fn set_at(sets: &[u32], n: usize) -> u32
    ensures { result ≡ get_or sets.now n 0 }
{
    match sets.get(n) {
        Some(set) => *set,
        None => 0,
    }
}
