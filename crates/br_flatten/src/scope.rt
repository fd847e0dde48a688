// What the statements of a function depend on: the numbers of its variables, of the
// literals that it holds, and of functions.

ghost use Rattle.std.specs.Prelude.{◌≡◌, ◌≤◌, List, map, length, IfOk};
ghost use Rattle.br_flatten.specs.Flatten.{callee_number, expression, number};
ghost use Rattle.br_flatten.specs.Scope.{scoped};
ghost use Rattle.br_flatten.specs.Scope.{holder, temporaries};

use br_base::{Name, NoMemory};
use br_numbering::Numbering;
use br_syntax::{Expr, Func};
use sqlite_items::Items;
use std::alloc::Global;

/// The functions of a program by name. There are at most 32,768.
#[derive(Drop)]
pub(crate) struct Functions<'a> {
    pub(crate) funcs: &'a [Func],
    pub(crate) names: Numbering<'a>,
    pub(crate) ghost numbered: { names ≡ map (λ f. f.name) funcs.now },
    pub(crate) ghost few: { length funcs.now ≤ 32768 },
}

/// A function whose body is flattened. It has at most 32,768
/// variables, and holds at most eight literals.
#[derive(Drop)]
pub(crate) struct Scope<'a> {
    pub(crate) alloc: Global,
    pub(crate) functions: &'a Functions<'a>,
    pub(crate) variables: &'a Numbering<'a>,
    pub(crate) held: &'a [u32],
    pub(crate) ghost few: { length variables.now ≤ 32768 },
    pub(crate) ghost few_held: { length held.now ≤ 8 },
}

impl<'a> Scope<'a> {
    /// The number of a variable.
    #[tactic(auto, using(crate::proofs::NumberedNames::numbers))]
    pub(crate) fn variable(&self, x: &Name) -> u32
        ensures { result ≡ number self.now.variables.now x.now }
    {
        self.variables.number(x.bytes()) as u32
    }

    /// The numbers of variables.
    pub(crate) fn variables(&self, xs: &[Name]) -> Result<Items<u32>, NoMemory>
        ensures { IfOk result
            (λ ns. ns ≡ map (number self.now.variables.now) xs.now) }
    {
        let mut numbers = Items::new(self.alloc);
        for x in xs {
            numbers.push(self.variable(x))?;
        }
        Ok(numbers)
    }

    /// The literal that an expression is.
    pub(crate) fn literal(&self, e: &Expr) -> Option<u32>
        ensures { result
            ≡ (expression (scoped self.now.variables.now self.now.held.now) e.now).literal }
    {
        match e {
            Expr::Literal(n) => Some(*n),
            Expr::Var(_) | Expr::Load(_, _) | Expr::Table(_, _, _) => None,
            Expr::Op(_, _, _) | Expr::Ite(_, _, _) => None,
        }
    }

    /// The number of the variable or of the held literal that an expression is.
    pub(crate) fn named(&self, e: &Expr) -> Option<u32>
        ensures { result
            ≡ (expression (scoped self.now.variables.now self.now.held.now) e.now).variable }
    {
        match e {
            Expr::Var(y) => Some(self.variable(y)),
            Expr::Literal(n) => self.holder(*n),
            Expr::Load(_, _) | Expr::Table(_, _, _) => None,
            Expr::Op(_, _, _) | Expr::Ite(_, _, _) => None,
        }
    }

    // The number of a literal, where it is held.
    fn holder(&self, n: u32) -> Option<u32>
        ensures { result ≡ holder (scoped self.now.variables.now self.now.held.now) n }
    {
        let mut number = self.variables.len() as u32;
        for k in self.held {
            if *k == n {
                return Some(number);
            }
            number += 1;
        }
        None
    }

    /// The first temporary.
    pub(crate) fn temporaries(&self) -> u32
        ensures { result ≡ temporaries (scoped self.now.variables.now self.now.held.now) }
    {
        self.variables.len() as u32 + self.held.len() as u32
    }

    /// The number of the first function of a name.
    #[tactic(auto, using(crate::proofs::NumberedNames::numbers))]
    pub(crate) fn callee(&self, x: &Name) -> u32
        ensures { result ≡ callee_number self.now.functions.now.funcs.now x.now }
    {
        self.functions.names.number(x.bytes()) as u32
    }
}
