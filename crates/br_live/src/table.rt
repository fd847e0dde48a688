// Which names are live after each statement.

ghost use Rattle.std.specs.Prelude.{◌≡◌, ◌<◌, length, map};

use crate::bit_set::BitSet;

/// The names that are live after each statement of a function, by the statement's number in
/// preorder, counted from 0. It keeps one set for each statement, so it takes four bytes of memory
/// for each 32 names of each statement: a function of 32,768 statements and as many names takes 128
/// MiB. Contracts see the statements' sets as `rows`.
#[derive(Drop)]
pub struct LiveTable {
    sets: Vec<BitSet>,
}

impl LiveTable {
    ghost use Rattle.br_live.specs.BitSets.{set_of};
    ghost use Rattle.br_live.specs.Tables.{row, row_at, rows};

    /// The table with these sets after the statements, in the order of their numbers.
    pub fn from_sets(sets: Vec<BitSet>) -> LiveTable
        ensures { rows result ≡ map row sets.items }
    {
        LiveTable { sets }
    }

    /// Of how many statements it tells.
    #[cfg(test)]
    pub(crate) fn len(&self) -> usize
        ensures { result ≡ length (rows self.now) }
    {
        self.sets.len()
    }

    /// Whether a name is live after a statement.
    pub fn after(&self, stmt: u32, name: u32) -> bool
        requires statement { stmt < length (rows self.now) }
        requires name { name < (row_at self.now stmt).bound }
        ensures { result ≡ (row_at self.now stmt).set name }
    {
        self.sets[stmt as usize].contains(name)
    }

    /// The names that are live after a statement.
    pub fn set(&self, stmt: u32) -> &BitSet
        requires { stmt < length (rows self.now) }
        ensures bound { result.now.bound ≡ (row_at self.now stmt).bound }
        ensures set { set_of result.now ≡ (row_at self.now stmt).set }
    {
        &self.sets[stmt as usize]
    }
}
