// The names of a function's variables.

ghost use Rattle.std.specs.Prelude.{◌≡◌, [], Some, length, slice_get, IfOk};
ghost use Rattle.std.specs.List.{IsDistinct};
ghost use Rattle.std.specs.Str.{bytes_eq};
ghost use Rattle.br_numbering.specs.Names.{number};
ghost use Rattle.br_source_meaning.specs.Names.{name_at, Numbers};

use br_base::{Name, NoMemory};
use br_numbering::Numbering;
use std::alloc::Global;
use std::marker::Model;

/// Names, each of which has its place among them as its number. The first is empty, so that a
/// number that no name has stands for a variable too. Contracts see them as a list.
#[derive(Drop)]
pub(crate) struct VariableNames<'a> {
    names: Numbering<'a>,
}

impl<'a> Model for VariableNames<'a> {
    ghost use Rattle.std.specs.Prelude.{◌≡◌, ℕ, List, [], Some, slice_get};
    ghost use Rattle.std.specs.Coded.{coded_list, coded_ℕ};

    ghost Value = { List (List ℕ) };

    ghost coded = { coded_list (coded_list coded_ℕ) };

    ghost view = { λ n. n.names };

    ghost invariant = { λ n. slice_get n.names 0 ≡ Some [] };
}

impl<'a> VariableNames<'a> {
    /// The empty name alone.
    pub(crate) fn new(alloc: Global) -> Result<VariableNames<'a>, NoMemory> {
        let mut names = Numbering::new(alloc);
        names.add(b"".as_slice())?;
        Ok(VariableNames { names })
    }

    /// The number of a name, which is added where it is not there.
    pub(crate) fn number(&mut self, x: &'a Name) -> Result<usize, NoMemory>
        ensures { IfOk result (λ k. Numbers self.old self.new (λ names. name_at names k) x.now) }
    {
        let k = self.names.add(x.bytes())?;
        Ok(k)
    }

    /// How many names there are. All differ, and the first is empty.
    pub(crate) fn len(&self) -> usize
        ensures len { result ≡ length self.now }
        ensures first { slice_get self.now 0 ≡ Some [] }
        ensures distinct { IsDistinct bytes_eq self.now }
    {
        self.names.len()
    }

    /// The number of a name, or how many names there are where it is not there.
    pub(crate) fn place(&self, x: &Name) -> usize
        ensures { result ≡ number self.now x.now }
    {
        self.names.number(x.bytes())
    }
}
