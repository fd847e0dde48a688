// The functions of a program by name.

ghost use Rattle.std.specs.Prelude.{◌≡◌, ℕ, List, IfOk, option_copied};
ghost use Rattle.std.specs.HashMap.{get_by};
ghost use Rattle.std.specs.Str.{bytes_eq};
ghost use Rattle.std.proofs.Props.{props};
ghost use Rattle.br_syntax.specs.Functions.{function_named, number_named};

use br_base::NoMemory;
use br_syntax::Func;
use indexmap::IndexMap;
use std::alloc::Global;

/// The functions of a program, and the number of the first of each name.
#[derive(Drop)]
pub struct Index<'a> {
    pub funcs: &'a [Func],
    numbers: IndexMap<&'a [u8], usize>,
    ghost numbered: { (x : List ℕ) → get_by (λ k. bytes_eq x k.now) numbers
        ≡ number_named funcs.now x } by { Prim.hlevel props },
}

impl<'a> Index<'a> {
    /// The functions by name.
    pub fn new(alloc: Global, funcs: &'a [Func]) -> Result<Index<'a>, NoMemory>
        ensures { IfOk result (λ index. index.funcs.now ≡ funcs.now) }
    {
        let mut numbers = IndexMap::new(alloc);
        for (i, f) in funcs.iter().enumerate() {
            let name = f.name.bytes();
            if !numbers.contains_key(name) {
                numbers.insert(name, i)?;
            }
        }
        Ok(Index { funcs, numbers })
    }

    /// The number of the first function of a name, counted from 0 in the order of the text.
    pub fn number(&self, name: &[u8]) -> Option<usize>
        ensures { result ≡ number_named self.now.funcs.now name.now }
    {
        self.numbers.get(name).copied()
    }

    /// The first function of a name.
    #[tactic(auto, using(crate::proofs::Positions::positions))]
    pub fn function(&self, name: &[u8]) -> Option<&Func>
        ensures { option_copied result ≡ function_named self.now.funcs.now name.now }
    {
        match self.number(name) {
            Some(n) => Some(&self.funcs[n]),
            None => None,
        }
    }
}
