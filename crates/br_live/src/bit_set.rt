// Sets of numbers below a bound, a bit for each number.

ghost use Rattle.std.specs.Prelude.{◌≡◌, ◌≢◌, ℕ, ◌+◌, ◌/◌, ◌%◌, ◌*◌, ◌<◌, ◌≤◌, ◌∷◌, []};
ghost use Rattle.std.specs.Prelude.{length, slice_index, IfOk, IsTrue, ◌↔◌, if◌then◌else◌};
ghost use Rattle.std.specs.Int.{bit_at};
ghost use Rattle.br_flatimp.specs.Liveness.{is_in, nothing, union, without};
ghost use Rattle.br_flatimp.specs.WellFormed.{are_below};
ghost use Rattle.br_live.specs.Sets.{Holds, common, difference};

use crate::words::{Join, clear_bit, join_words, set_bit};
use br_base::NoMemory;
use std::alloc::Global;
use std::marker::Model;

/// A set of numbers below a bound. It takes four bytes of memory for each 32 numbers below the
/// bound. Contracts see the bound, and the set as `set_of`.
#[derive(Drop)]
pub struct BitSet {
    bound: u32,
    words: Vec<u32>,
    pub ghost held: { Holds bound words.items },
}

impl BitSet {
    ghost use Rattle.br_live.specs.BitSets.{set_of};

    /// The empty set of numbers below `n`.
    pub fn new(alloc: Global, n: u32) -> Result<BitSet, NoMemory>
        ensures bound { IfOk result (λ s. s.bound ≡ n) }
        ensures set { IfOk result (λ s. set_of s ≡ nothing) }
    {
        let words = vec![in alloc; 0; (n as usize + 31) / 32]?;
        Ok(BitSet { bound: n, words })
    }

    /// Adds a number.
    pub fn insert(&mut self, x: u32)
        requires { x < self.old.bound }
        ensures bound { self.new.bound ≡ self.old.bound }
        ensures set { set_of self.new ≡ union (set_of self.old) (is_in (x ∷ [])) }
    {
        set_bit(self.words.as_mut_slice(), x);
    }

    /// Takes a number away.
    pub fn remove(&mut self, x: u32)
        requires { x < self.old.bound }
        ensures bound { self.new.bound ≡ self.old.bound }
        ensures set { set_of self.new ≡ without (set_of self.old) (x ∷ []) }
    {
        clear_bit(self.words.as_mut_slice(), x);
    }

    /// Whether a number is in the set.
    pub fn contains(&self, x: u32) -> bool
        requires { x < self.now.bound }
        ensures { result ≡ set_of self.now x }
    {
        (self.words[(x / 32) as usize] >> (x % 32)) & 1 == 1
    }

    /// Adds numbers.
    pub(crate) fn insert_all(&mut self, xs: &[u32])
        requires { IsTrue (are_below self.old.bound xs.now) }
        ensures bound { self.new.bound ≡ self.old.bound }
        ensures set { set_of self.new ≡ union (set_of self.old) (is_in xs.now) }
    {
        for x in xs {
            self.insert(*x);
        }
    }

    /// Takes numbers away.
    pub(crate) fn remove_all(&mut self, xs: &[u32])
        requires { IsTrue (are_below self.old.bound xs.now) }
        ensures bound { self.new.bound ≡ self.old.bound }
        ensures set { set_of self.new ≡ without (set_of self.old) xs.now }
    {
        for x in xs {
            self.remove(*x);
        }
    }

    /// Adds the members of another set below the same bound, and answers whether the set grew.
    pub fn union_with(&mut self, other: &BitSet) -> bool
        requires { self.old.bound ≡ other.now.bound }
        ensures bound { self.new.bound ≡ self.old.bound }
        ensures set { set_of self.new ≡ union (set_of self.old) (set_of other.now) }
        ensures grew { IsTrue result ↔ (set_of self.new ≢ set_of self.old) }
    {
        join_words(
            Join::Union,
            self.words.as_mut_slice(),
            other.words.as_slice(),
        )
    }

    /// Takes away the members of another set below the same bound.
    pub fn subtract(&mut self, other: &BitSet)
        requires { self.old.bound ≡ other.now.bound }
        ensures bound { self.new.bound ≡ self.old.bound }
        ensures set { set_of self.new ≡ difference (set_of self.old) (set_of other.now) }
    {
        join_words(
            Join::Without,
            self.words.as_mut_slice(),
            other.words.as_slice(),
        );
    }

    /// Keeps the members that are in another set below the same bound too.
    pub fn keep_common(&mut self, other: &BitSet)
        requires { self.old.bound ≡ other.now.bound }
        ensures bound { self.new.bound ≡ self.old.bound }
        ensures set { set_of self.new ≡ common (set_of self.old) (set_of other.now) }
    {
        join_words(
            Join::Common,
            self.words.as_mut_slice(),
            other.words.as_slice(),
        );
    }

    /// The same set once more.
    pub fn copy(&self, alloc: Global) -> Result<BitSet, NoMemory>
        ensures bound { IfOk result (λ s. s.bound ≡ self.now.bound) }
        ensures set { IfOk result (λ s. set_of s ≡ set_of self.now) }
    {
        let words = self.words.as_slice().to_vec(alloc)?;
        Ok(BitSet {
            bound: self.bound,
            words,
        })
    }

    /// As many words as the bound divided by 32 and rounded up. The bit x mod 32 of word x / 32,
    /// counted from 0, is 1 exactly where x is in the set; the bits from the bound on are 0.
    pub fn words(&self) -> &[u32]
        ensures count { length result.now ≡ (self.now.bound + 31) / 32 }
        ensures members { (x : ℕ) → x < self.now.bound →
            bit_at (slice_index result.now (x / 32)) (x % 32)
            ≡ (if set_of self.now x then 1 else 0) }
        ensures above { (x : ℕ) → self.now.bound ≤ x →
            bit_at (slice_index result.now (x / 32)) (x % 32) ≡ 0 }
    {
        self.words.as_slice()
    }
}
