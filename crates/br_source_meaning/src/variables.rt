// The local variables of a function that runs.

ghost use Rattle.std.specs.Prelude.{◌≡◌, ◌<◌, [], Some, length, slice_get, IfOk};
ghost use Rattle.std.specs.List.{IsDistinct, IsDistinct-prop};
ghost use Rattle.std.specs.Str.{bytes_eq};
ghost use Rattle.br_source_meaning.specs.Values.{with_local, without_local, no_locals};
ghost use Rattle.br_source_meaning.specs.Runs.{with_locals};
ghost use Rattle.br_source_meaning.specs.Names.{name_at, names_at};
ghost use Rattle.br_source_meaning.specs.Variables.{locals_of, with_word};

use crate::variable_names::VariableNames;
use br_base::{Name, NoMemory};
use sqlite_items::Items;
use std::alloc::Global;

/// Variables by their numbers: the word of each, where it is set.
#[derive(Drop)]
pub(crate) struct Variables<'x, 'a> {
    pub(crate) names: &'x VariableNames<'a>,
    pub(crate) words: Items<Option<u32>>,
    ghost distinct: { IsDistinct bytes_eq names.now } by { IsDistinct-prop bytes_eq names.now },
    ghost first: { slice_get names.now 0 ≡ Some [] },
    ghost same_length: { length words ≡ length names.now },
}

impl<'x, 'a> Variables<'x, 'a> {
    /// None is set.
    pub(crate) fn new(
        alloc: Global,
        names: &'x VariableNames<'a>,
    ) -> Result<Variables<'x, 'a>, NoMemory>
        ensures names { IfOk result (λ v. v.names.now ≡ names.now) }
        ensures unset { IfOk result (λ v. locals_of v.names.now v.words ≡ no_locals) }
    {
        let mut words = Vec::new(alloc);
        words.resize(names.len(), None)?;
        Ok(Variables {
            names,
            words: Items::from_vec(words),
        })
    }

    // The place of the word of a number.
    fn place(&self, k: usize) -> usize
        ensures within { result < length self.now.words }
        ensures same { name_at self.now.names.now k ≡ name_at self.now.names.now result }
    {
        if k < self.words.len() { k } else { 0 }
    }

    /// The word of a variable, where it is set.
    pub(crate) fn get(&self, k: usize) -> Option<u32>
        ensures { result ≡ locals_of self.now.names.now self.now.words
            (name_at self.now.names.now k) }
    {
        self.words.as_slice()[self.place(k)]
    }

    /// The word of the variable of a name, where it is set.
    pub(crate) fn named(&self, x: &Name) -> Option<u32>
        ensures { result ≡ locals_of self.now.names.now self.now.words x.now }
    {
        let k = self.names.place(x);
        if k < self.words.len() {
            self.get(k)
        } else {
            None
        }
    }

    // Sets or removes a variable.
    fn put(&mut self, k: usize, word: Option<u32>)
        ensures names { self.new.names.now ≡ self.old.names.now }
        ensures words { locals_of self.old.names.now self.new.words
            ≡ with_word (name_at self.old.names.now k) word
            (locals_of self.old.names.now self.old.words) }
    {
        let at = self.place(k);
        self.words.set(at, word);
    }

    /// Sets a variable.
    pub(crate) fn set(&mut self, k: usize, v: u32)
        ensures names { self.new.names.now ≡ self.old.names.now }
        ensures words { locals_of self.old.names.now self.new.words
            ≡ with_local (name_at self.old.names.now k) v
            (locals_of self.old.names.now self.old.words) }
    {
        self.put(k, Some(v));
    }

    /// Removes a variable, where it is set.
    pub(crate) fn unset(&mut self, k: usize)
        ensures names { self.new.names.now ≡ self.old.names.now }
        ensures words { locals_of self.old.names.now self.new.words
            ≡ without_local (name_at self.old.names.now k)
            (locals_of self.old.names.now self.old.words) }
    {
        self.put(k, None);
    }

    /// Variables set to words in turn, as far as both lists go.
    pub(crate) fn set_all(&mut self, ks: &[usize], vs: &[u32])
        ensures names { self.new.names.now ≡ self.old.names.now }
        ensures words { locals_of self.old.names.now self.new.words
            ≡ with_locals (names_at self.old.names.now ks.now) vs.now
            (locals_of self.old.names.now self.old.words) }
    {
        if let (Some((k, ks)), Some((v, vs))) = (ks.split_first(), vs.split_first()) {
            self.set(*k, *v);
            self.set_all(ks, vs);
        }
    }
}
