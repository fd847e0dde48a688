// Sets of names, as words with a bit for each name.

use br_base::NoMemory;
use std::alloc::Global;

/// A set of names of a function.
#[derive(Drop)]
pub(crate) struct NameSet {
    words: Vec<u32>,
}

impl NameSet {
    /// The empty set of so many names.
    pub(crate) fn new(alloc: Global, names: u32) -> Result<NameSet, NoMemory> {
        let words = vec![in alloc; 0u32; names as usize / 32 + 1]?;
        Ok(NameSet { words })
    }

    /// The same set once more.
    pub(crate) fn copy(&self, alloc: Global) -> Result<NameSet, NoMemory> {
        let words = self.words.as_slice().to_vec(alloc)?;
        Ok(NameSet { words })
    }

    pub(crate) fn insert(&mut self, x: u32) {
        let at = (x / 32) as usize;
        if at < self.words.len() {
            self.words[at] = self.words[at] | 1 << (x % 32);
        }
    }

    pub(crate) fn remove(&mut self, x: u32) {
        let at = (x / 32) as usize;
        if at < self.words.len() {
            self.words[at] = self.words[at] & !(1 << (x % 32));
        }
    }

    pub(crate) fn contains(&self, x: u32) -> bool {
        let at = (x / 32) as usize;
        at < self.words.len() && self.words[at] >> (x % 32) & 1 == 1
    }

    /// Adds the members of another set.
    pub(crate) fn join(&mut self, other: &NameSet) {
        for k in 0..self.words.len() {
            if k < other.words.len() {
                self.words[k] = self.words[k] | other.words[k];
            }
        }
    }

    /// Adds the members of another set that are not in a third.
    pub(crate) fn join_without(&mut self, other: &NameSet, third: &NameSet) {
        for k in 0..self.words.len() {
            if k < other.words.len() && k < third.words.len() {
                self.words[k] = self.words[k] | other.words[k] & !third.words[k];
            }
        }
    }

    /// Keeps the members that are in another set too.
    pub(crate) fn keep_common(&mut self, other: &NameSet) {
        for k in 0..self.words.len() {
            if k < other.words.len() {
                self.words[k] = self.words[k] & other.words[k];
            }
        }
    }

    /// The words of the set: that at k has the names from 32 k on.
    pub(crate) fn words(&self) -> &[u32] {
        self.words.as_slice()
    }
}
