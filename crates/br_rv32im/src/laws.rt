// Laws of the instruction table. Each function does nothing: what it ensures is the law.

ghost use Rattle.std.specs.Prelude.{◌≡◌, ℕ};
ghost use Rattle.br_words.specs.Words.{IsWord};
ghost use Rattle.br_rv32im.specs.Encoding.{Fits, word_of};
ghost use Rattle.br_rv32im.specs.Row.{row_of};

use crate::instruction::Ins;

/// Each instruction whose fields are in range is exactly one word, and no word is two instructions.
pub fn instructions_and_words_match()
    ensures word { (i : Ins) → Fits i → IsWord (word_of i) }
    ensures decoded { (i : Ins) → Fits i → row_of (word_of i) ≡ Some i }
    ensures in_range { (w : ℕ) (i : Ins) → IsWord w → row_of w ≡ Some i → Fits i }
    ensures only { (w : ℕ) (i : Ins) → IsWord w → row_of w ≡ Some i → w ≡ word_of i }
{}
