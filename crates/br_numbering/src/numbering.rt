// Names, numbered in the order in which they were added.

ghost use Rattle.std.specs.Prelude.{◌≡◌, [], length, OnOk, OnErr, IfOk};
ghost use Rattle.std.specs.List.{IsDistinct};
ghost use Rattle.std.specs.Str.{bytes_eq};
ghost use Rattle.br_numbering.specs.Names.{number, with_name, with_names};

use br_base::{Name, NoMemory};
use indexmap::IndexSet;
use std::alloc::Global;
use std::marker::Model;

/// Different names, each of which has its place among them as its number. Contracts see them as a
/// list.
#[derive(Drop)]
pub struct Numbering<'a> {
    names: IndexSet<&'a [u8]>,
}

impl<'a> Model for Numbering<'a> {
    ghost use Rattle.std.specs.Prelude.{ℕ, List, map};
    ghost use Rattle.std.specs.Coded.{coded_list, coded_ℕ};

    ghost Value = { List (List ℕ) };

    ghost coded = { coded_list (coded_list coded_ℕ) };

    ghost view = { λ n. map (λ k. k.now) n.names.keys };
}

impl<'a> Numbering<'a> {
    /// No names.
    pub fn new(alloc: Global) -> Numbering<'a>
        ensures { result ≡ [] }
    {
        Numbering {
            names: IndexSet::new(alloc),
        }
    }

    /// Adds a name at the end, where it is not there yet, and answers its number.
    pub fn add(&mut self, name: &'a [u8]) -> Result<usize, NoMemory>
        ensures names { OnOk result (self.new ≡ with_name self.old name.now) }
        ensures number { IfOk result (λ k. k ≡ number self.new name.now) }
        ensures failed { OnErr result (self.new ≡ self.old) }
    {
        let (k, _) = self.names.insert_full(name)?;
        Ok(k)
    }

    /// Adds names in turn.
    pub fn add_all(&mut self, names: &'a [Name]) -> Result<(), NoMemory>
        ensures { OnOk result (self.new ≡ with_names self.old names.now) }
    {
        for name in names {
            self.add(name.bytes())?;
        }
        Ok(())
    }

    /// How many names there are. All differ.
    pub fn len(&self) -> usize
        ensures len { result ≡ length self.now }
        ensures distinct { IsDistinct bytes_eq self.now }
    {
        self.names.len()
    }

    /// The number of a name, or how many names there are where it is not there.
    pub fn number(&self, name: &[u8]) -> usize
        ensures { result ≡ number self.now name.now }
    {
        match self.names.get_index_of(name) {
            Some(k) => k,
            None => self.names.len(),
        }
    }
}
