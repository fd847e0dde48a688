// The registers that a function has to leave as they were.

ghost use Rattle.std.specs.Prelude.{◌≡◌, ◌++◌, ◌∷◌, [], ℕ, ◌<◌, ◌≤◌};
ghost use Rattle.std.specs.Prelude.{◌||◌, filter, if◌then◌else◌, length};
ghost use Rattle.br_flatimp.specs.Sizes.{nest};
ghost use Rattle.br_emit.specs.Code.{framed, is_saved, registers};
ghost use Rattle.br_emit.specs.Registers.{forgets_of, has};

use crate::changing::changed_by_all;
use crate::linking::links;
use crate::sets::{all_of, contains, set_at, without};
use br_flatimp::FlatFunc;
use std::marker::Model;

// The register of return addresses.
const RETURN_ADDRESS: u32 = 1;

/// At most 32 registers in order. Contracts see the list of them.
#[derive(Drop)]
pub struct Registers {
    registers: [u32; 32],
    count: usize,
}

impl Model for Registers {
    ghost use Rattle.std.specs.Prelude.{ℕ, List, take, ◌≤◌};

    ghost Value = { List ℕ };

    ghost view = { λ r. take r.count r.registers };

    ghost invariant = { λ r. r.count ≤ 32 };
}

impl Registers {
    /// None of them.
    pub fn new() -> Registers
        ensures { result ≡ [] }
    {
        Registers {
            registers: [0; 32],
            count: 0,
        }
    }

    /// One more.
    pub fn push(&mut self, r: u32)
        requires { length self.old < 32 }
        ensures { self.new ≡ self.old ++ r ∷ [] }
    {
        self.registers[self.count] = r;
        self.count += 1;
    }

    /// The registers in order.
    pub fn as_slice(&self) -> &[u32]
        ensures { result.now ≡ self.now }
    {
        &self.registers[..self.count]
    }
}

/// The registers in the frame of a function: x1 where its code may change it, and those from 3 to
/// 31 that the function or a callee changes, that are not its results, and that its callers may
/// miss. What calls may change is given, and whether the whole code is near.
pub fn framed(near: bool, sets: &[u32], n: usize, f: &FlatFunc) -> Registers
    requires { nest f.now ≤ 1048576 }
    ensures { result ≡ framed near (forgets_of sets.now) n f.now }
{
    let changes = contains(changed_by_all(sets, f.body.as_slice()), RETURN_ADDRESS);
    let own = links(near, f);
    in_order(first(either(changes, own)), saved(sets, n, f))
}

/// The registers that a function has to leave as they were, as a set.
pub fn saved(sets: &[u32], n: usize, f: &FlatFunc) -> u32
    ensures { (r : ℕ) → r < 32 → has result r ≡ is_saved (forgets_of sets.now) n f.now r }
{
    let changed = changed_by_all(sets, f.body.as_slice());
    let kept = without(changed, all_of(f.results.as_slice()));
    without(kept, set_at(sets, n))
}

fn either(a: bool, b: bool) -> bool
    ensures { result ≡ (a || b) }
{
    a || b
}

// x1, or no register.
fn first(link: bool) -> Registers
    ensures { result ≡ (if link then 1 ∷ [] else []) }
{
    let mut found = Registers::new();
    if link {
        found.push(RETURN_ADDRESS);
    }
    found
}

// The registers of a set from 3 to 31, in order, after others.
fn in_order(before: Registers, set: u32) -> Registers
    requires { length before ≤ 1 }
    ensures { result ≡ before ++ filter (has set) registers }
{
    let mut found = before;
    for r in 3..32u32 {
        keep(&mut found, set, r);
    }
    found
}

// The register too, where it is in a set.
fn keep(found: &mut Registers, set: u32, r: u32)
    requires few { length found.old < 32 }
    ensures { found.new ≡ found.old ++ (if has set r then r ∷ [] else []) }
{
    if contains(set, r) {
        found.push(r);
    }
}
