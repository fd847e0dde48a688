// Numbers in room that was taken before.

ghost use Rattle.std.specs.Prelude.{◌≡◌, ◌++◌, ◌∷◌, [], ◌+◌, ◌-◌, ◌<◌, ◌≤◌};
ghost use Rattle.std.specs.Prelude.{length, drop, get_or, slice_set, IfOk};
ghost use Rattle.br_emit.specs.Buffer.{noted};

use br_base::NoMemory;
use std::alloc::Global;
use std::marker::Model;

/// Numbers in order. Contracts see them and the room for more.
#[derive(Drop)]
pub struct Numbers {
    numbers: Vec<u32>,
}

impl Model for Numbers {
    ghost use Rattle.std.specs.Prelude.{◌-◌, vec_len, vec_capacity};
    ghost use Rattle.br_emit.specs.Buffer.{Noted};

    ghost Value = { Noted };

    ghost view = { λ l. record {
      numbers = l.numbers.items;
      room = vec_capacity l.numbers - vec_len l.numbers;
    } };
}

impl Numbers {
    /// No numbers, and room for so many.
    pub fn with_room(alloc: Global, room: usize) -> Result<Numbers, NoMemory>
        ensures { IfOk result (λ l. l ≡ record { numbers = []; room = room }) }
    {
        let numbers = Vec::with_capacity(alloc, room)?;
        Ok(Numbers { numbers })
    }

    /// The numbers so far.
    pub fn as_slice(&self) -> &[u32]
        ensures { result.now ≡ self.now.numbers }
    {
        self.numbers.as_slice()
    }

    /// One more number.
    pub fn push(&mut self, n: u32)
        requires { 1 ≤ self.old.room }
        ensures { self.new ≡ noted self.old (n ∷ []) }
    {
        self.numbers.push_reserved(n);
    }

    /// A place for two numbers that are not known yet.
    pub fn reserve(&mut self) -> usize
        requires { 2 ≤ self.old.room }
        ensures at { result ≡ length self.old.numbers }
        ensures noted { self.new ≡ noted self.old (0 ∷ 0 ∷ []) }
    {
        let at = self.numbers.len();
        self.numbers.push_reserved(0);
        self.numbers.push_reserved(0);
        at
    }

    /// The two numbers at a place.
    pub fn set(&mut self, at: usize, a: u32, b: u32)
        requires { at + 1 < length self.old.numbers }
        ensures { self.new ≡ record {
          numbers =
              slice_set (slice_set self.old.numbers at a) (at + 1) b;
          room = self.old.room;
        } }
    {
        self.numbers[at] = a;
        self.numbers[at + 1] = b;
    }

    /// No numbers, with the room that they had.
    pub fn clear(&mut self)
        ensures { self.new
            ≡ record { numbers = []; room = self.old.room + length self.old.numbers } }
    {
        self.numbers.clear();
    }
}

/// Numbers that are taken one after another. Contracts see those that are left.
#[derive(Drop)]
pub struct Left<'a> {
    numbers: &'a [u32],
}

impl<'a> Model for Left<'a> {
    ghost use Rattle.std.specs.Prelude.{ℕ, List};

    ghost Value = { List ℕ };

    ghost view = { λ l. l.numbers.now };
}

impl<'a> Left<'a> {
    /// All of them are left.
    pub fn new(numbers: &'a [u32]) -> Left<'a>
        ensures { result ≡ numbers.now }
    {
        Left { numbers }
    }

    /// The next one.
    pub fn next(&mut self) -> u32
        requires { 0 < length self.old }
        ensures value { result ≡ get_or self.old 0 0 }
        ensures left { self.new ≡ drop 1 self.old }
    {
        let n = self.numbers[0];
        self.numbers = &self.numbers[1..];
        n
    }
}
