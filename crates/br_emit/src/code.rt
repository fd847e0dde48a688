// Words that are written one after another into room that was taken before.

ghost use Rattle.std.specs.Prelude.{◌≡◌, ◌++◌, ◌∷◌, [], ◌-◌, ◌<◌, ◌^◌};
ghost use Rattle.std.specs.Prelude.{All, slice_set, length, IfOk};
ghost use Rattle.br_rv32im.specs.Encoding.{Fits};
ghost use Rattle.br_emit.specs.Code.{Does, Raw};
ghost use Rattle.br_emit.specs.Buffer.{appended};

use br_base::NoMemory;
use br_rv32im::{Ins, encode};
use sqlite_items::Items;
use std::alloc::Global;
use std::marker::Model;

/// Words in order. Contracts see the words and the room for more.
#[derive(Drop)]
pub struct Code {
    words: Vec<u32>,
}

impl Model for Code {
    ghost use Rattle.std.specs.Prelude.{◌-◌, vec_len, vec_capacity};
    ghost use Rattle.br_emit.specs.Buffer.{Written};

    ghost Value = { Written };

    ghost view = { λ c. record {
      words = c.words.items;
      room = vec_capacity c.words - vec_len c.words;
    } };
}

impl Code {
    /// No words, and room for `words`.
    pub fn with_room(alloc: Global, words: u32) -> Result<Code, NoMemory>
        ensures { IfOk result (λ c. c ≡ record { words = []; room = words }) }
    {
        let words = Vec::with_capacity(alloc, words as usize)?;
        Ok(Code { words })
    }

    /// The words so far.
    pub fn words(&self) -> &[u32]
        ensures { result.now ≡ self.now.words }
    {
        self.words.as_slice()
    }

    /// The words as items.
    pub fn into_words(self) -> Items<u32>
        ensures value { result ≡ self.words }
        ensures words { All (λ w. w < 2 ^ 32) self.words }
    {
        items(self.words)
    }

    /// One more word.
    pub fn push(&mut self, word: u32)
        requires { 0 < self.old.room }
        ensures { self.new
            ≡ record { words = self.old.words ++ word ∷ []; room = self.old.room - 1 } }
    {
        self.words.push_reserved(word);
    }

    /// Another word in place of the one at `at`.
    pub fn patch(&mut self, at: usize, word: u32)
        requires { at < length self.old.words }
        ensures { self.new
            ≡ record { words = slice_set self.old.words at word; room = self.old.room } }
    {
        self.words[at] = word;
    }

    /// One more instruction.
    pub fn put(&mut self, i: Ins)
        requires room { 0 < self.old.room }
        requires fits { Fits i }
        ensures { self.new ≡ appended self.old (Does i ∷ []) }
    {
        self.push(encode(i));
    }

    /// One more word of a table.
    pub fn put_bytes(&mut self, a: u8, b: u8, c: u8, d: u8)
        requires { 0 < self.old.room }
        ensures { self.new ≡ appended self.old (Raw a b c d ∷ []) }
    {
        self.push(u32::from_le_bytes([a, b, c, d]));
    }
}

fn items(words: Vec<u32>) -> Items<u32>
    ensures value { result ≡ words.items }
    ensures words { All (λ w. w < 2 ^ 32) words.items }
{
    let _first = words.as_slice().first();
    Items::from_vec(words)
}
