// Which names get different new names.

ghost use Rattle.std.specs.Prelude.{◌≡◌, ℕ, ◌+◌, ◌/◌, ◌<◌, ◌^◌, ◌==◌, ◌&&◌, ◌↔◌, false, IsTrue};
ghost use Rattle.std.specs.Prelude.{length, map, slice_index};
ghost use Rattle.std.specs.List.{AllByRecursion, list_any};
ghost use Rattle.br_flatimp.specs.WellFormed.{all_differ, are_below};
ghost use Rattle.br_live.specs.BitSets.{set_of};
ghost use Rattle.br_regalloc_check.specs.Walks.{IsApartBelow};

use br_live::BitSet;

/// Whether there is one new name for each of so many names, and each is below their count.
pub(crate) fn are_names(names: u32, to: &[u32]) -> bool
    ensures { result ≡ ((length to.now == names) && are_below names to.now) }
{
    to.len() == names as usize && are_below(names, to)
}

fn are_below(names: u32, xs: &[u32]) -> bool
    ensures { result ≡ are_below names xs.now }
{
    xs.iter().all(|x| *x < names)
}

/// Whether no two of these names get one new name.
pub(crate) fn differ(to: &[u32], xs: &[u32]) -> bool
    requires { IsTrue (are_below (length to.now) xs.now) }
    ensures { result ≡ all_differ (map (slice_index to.now) xs.now) }
{
    let mut rest = xs;
    while let [x, others @ ..] = rest {
        if is_shared(to, to[*x as usize], others) {
            return false;
        }
        rest = others;
    }
    true
}

// Whether one of these names gets a new name.
fn is_shared(to: &[u32], new: u32, xs: &[u32]) -> bool
    requires { IsTrue (are_below (length to.now) xs.now) }
    ensures { result ≡ list_any (λ y. y == new) (map (slice_index to.now) xs.now) }
{
    let mut rest = xs;
    while let [x, others @ ..] = rest {
        if to[*x as usize] == new {
            return true;
        }
        rest = others;
    }
    false
}

/// Whether the new name of each of these names is that of no other name of a set.
pub(crate) fn are_apart(to: &[u32], xs: &[u32], live: &BitSet) -> bool
    requires bound { live.now.bound ≡ length to.now }
    requires few { length to.now < 2 ^ 32 }
    requires names { IsTrue (are_below (length to.now) xs.now) }
    ensures { IsTrue result ↔ AllByRecursion
        (λ x. IsApartBelow (length to.now) (slice_index to.now) x (set_of live.now)) xs.now }
{
    let mut rest = xs;
    while let [x, others @ ..] = rest {
        if !is_apart(to, *x, live) {
            return false;
        }
        rest = others;
    }
    true
}

/// Whether the new name of a name is that of no other name of a set.
pub(crate) fn is_apart(to: &[u32], x: u32, live: &BitSet) -> bool
    requires bound { live.now.bound ≡ length to.now }
    requires few { length to.now < 2 ^ 32 }
    requires name { x < length to.now }
    ensures { IsTrue result ↔
        IsApartBelow (length to.now) (slice_index to.now) x (set_of live.now) }
{
    for k in 0..live.words().len() {
        if !is_absent(k, live) && !is_apart_in_word(to, x, k, live) {
            return false;
        }
    }
    true
}

// Whether a word of a set has none of its 32 numbers.
fn is_absent(k: usize, live: &BitSet) -> bool
    requires { k < (live.now.bound + 31) / 32 }
    ensures { IsTrue result → (z : ℕ) → z < live.now.bound → z / 32 ≡ k →
        set_of live.now z ≡ false }
{
    live.words()[k] == 0
}

// Whether the new name of a name is that of no other of the 32 names in a word of a set.
fn is_apart_in_word(to: &[u32], x: u32, k: usize, live: &BitSet) -> bool
    requires bound { live.now.bound ≡ length to.now }
    requires few { length to.now < 2 ^ 32 }
    requires name { x < length to.now }
    requires word { k < (length to.now + 31) / 32 }
    ensures { IsTrue result ↔ ((z : ℕ) → z < length to.now → z / 32 ≡ k →
        IsTrue (set_of live.now z) → slice_index to.now z ≡ slice_index to.now x → z ≡ x) }
{
    let start = 32 * k;
    for z in start..to.len().min(start + 32) {
        if to[z] == to[x as usize] && z != x as usize && live.contains(z as u32) {
            return false;
        }
    }
    true
}
