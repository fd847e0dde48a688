// The one buffer that code is written into.

ghost use Rattle.std.specs.Prelude.{◌≡◌, ◌≤◌, ◌<◌, ◌^◌, ◌++◌, ◌∷◌, []};
ghost use Rattle.std.specs.Prelude.{◌-◌, All, slice_set, length, IfOk};

use crate::code::Code;
use crate::numbers::Numbers;
use br_base::NoMemory;
use sqlite_items::Items;
use std::alloc::Global;
use std::marker::Model;

/// Code that is being written: words, and the offsets at which functions begin. All its
/// room is taken when it is made. Contracts see its words, its offsets and its room
/// left for words, functions and calls.
#[derive(Drop)]
pub struct CodeBuffer {
    pub(crate) code: Code,
    pub(crate) offsets: Numbers,
    // A call takes no room: where each function stands is known before a call is written.
    calls: u32,
    // What is found before a function is written: which functions are called, what calls of them
    // may change, where they stand, and how long the parts of one function are.
    pub(crate) called: Vec<bool>,
    pub(crate) forgotten: Vec<u32>,
    pub(crate) targets: Numbers,
    pub(crate) lengths: Numbers,
}

impl Model for CodeBuffer {
    ghost use Rattle.std.specs.Prelude.{◌+◌, ◌≤◌, length, vec_capacity};
    ghost use Rattle.br_emit.specs.Buffer.{Held};

    ghost Value = { Held };

    ghost view = { λ b. record {
      words = b.code.words;
      offsets = b.offsets.numbers;
      word_room = b.code.room;
      function_room = b.offsets.room;
      call_room = b.calls;
    } };

    // What words and functions have room for, there is room to find.
    ghost invariant = { λ b. (b.code.room ≤ b.lengths.room + length b.lengths.numbers)
        × (b.offsets.room ≤ vec_capacity b.called) × (b.offsets.room ≤ vec_capacity b.forgotten)
        × (b.offsets.room ≤ b.targets.room + length b.targets.numbers) };
}

impl CodeBuffer {
    /// A buffer with no words and no offsets, and with room for so many words, functions and calls.
    pub fn with_room(
        alloc: Global,
        words: u32,
        functions: u32,
        calls: u32,
    ) -> Result<CodeBuffer, NoMemory>
        ensures words { IfOk result (λ b. b.words ≡ []) }
        ensures offsets { IfOk result (λ b. b.offsets ≡ []) }
        ensures word_room { IfOk result (λ b. words ≤ b.word_room) }
        ensures function_room { IfOk result (λ b. functions ≤ b.function_room) }
        ensures call_room { IfOk result (λ b. calls ≤ b.call_room) }
    {
        let code = Code::with_room(alloc, words)?;
        let offsets = Numbers::with_room(alloc, functions as usize)?;
        let called = Vec::with_capacity(alloc, functions as usize)?;
        let forgotten = Vec::with_capacity(alloc, functions as usize)?;
        let targets = Numbers::with_room(alloc, functions as usize)?;
        let lengths = Numbers::with_room(alloc, words as usize)?;
        Ok(CodeBuffer {
            code,
            offsets,
            calls,
            called,
            forgotten,
            targets,
            lengths,
        })
    }

    /// One more word.
    pub fn push(&mut self, w: u32)
        requires { 0 < self.old.word_room }
        ensures { self.new ≡ record self.old {
          words = self.old.words ++ w ∷ [];
          word_room = self.old.word_room - 1;
        } }
    {
        self.code.push(w);
    }

    /// Another word in place of the one numbered `at`, counted from 0.
    pub fn patch(&mut self, at: u32, w: u32)
        requires { at < length self.old.words }
        ensures { self.new ≡ record self.old { words = slice_set self.old.words at w } }
    {
        self.code.patch(at as usize, w);
    }

    /// The words so far.
    pub fn words(&self) -> &[u32]
        ensures { result.now ≡ self.now.words }
    {
        self.code.words()
    }

    /// The offsets in bytes at which the functions begin that are written.
    pub fn offsets(&self) -> &[u32]
        ensures { result.now ≡ self.now.offsets }
    {
        self.offsets.as_slice()
    }

    // The words as items.
    pub(crate) fn into_words(self) -> Items<u32>
        ensures value { result ≡ self.words }
        ensures words { All (λ w. w < 2 ^ 32) self.words }
    {
        self.code.into_words()
    }
}
