// Words that hold sets bit by bit, and how two of them are joined.

ghost use Rattle.std.specs.Prelude.{◌≡◌, ℕ, ◌/◌, ◌<◌, ◌==◌, ◌&&◌, ◌||◌};
ghost use Rattle.std.specs.Prelude.{true, false, not, length, ◌≢◌};
ghost use Rattle.std.specs.Int.{bit_at};
ghost use Rattle.br_live.specs.Sets.{joined, members};

/// What becomes of one set with another.
#[derive(Clone, Copy)]
pub(crate) enum Join {
    /// The members of either.
    Union,
    /// The members of the first that are not in the second.
    Without,
    /// The members of both.
    Common,
}

/// Sets the bit of a number.
pub(crate) fn set_bit(words: &mut [u32], x: u32)
    requires { x / 32 < length words.old }
    ensures { (y : ℕ) → members words.new y ≡ (members words.old y || (x == y)) }
{
    let at = (x / 32) as usize;
    words[at] = words[at] | 1 << (x % 32);
}

/// Clears the bit of a number.
pub(crate) fn clear_bit(words: &mut [u32], x: u32)
    requires { x / 32 < length words.old }
    ensures { (y : ℕ) → members words.new y ≡ (members words.old y && not (x == y)) }
{
    let at = (x / 32) as usize;
    words[at] = words[at] & !(1 << (x % 32));
}

/// Joins the first words with the others, and answers whether that changed them.
pub(crate) fn join_words(how: Join, words: &mut [u32], others: &[u32]) -> bool
    requires { length words.old ≡ length others.now }
    ensures members { (x : ℕ) →
        members words.new x ≡ joined how (members words.old x) (members others.now x) }
    ensures same { result ≡ false → words.new ≡ words.old }
    ensures changed { result ≡ true → members words.new ≢ members words.old }
{
    let mut changed = false;
    for k in 0..words.len() {
        let word = joined_word(how, words[k], others[k]);
        let differs = differ(word, words[k]);
        if differs {
            words[k] = word;
            changed = true;
        }
    }
    changed
}

fn joined_word(how: Join, a: u32, b: u32) -> u32
    ensures { (i : ℕ) → i < 32 →
        (bit_at result i == 1) ≡ joined how (bit_at a i == 1) (bit_at b i == 1) }
{
    match how {
        Join::Union => a | b,
        Join::Without => a & !b,
        Join::Common => a & b,
    }
}

// Whether two words are different, and so some bit of them.
fn differ(a: u32, b: u32) -> bool
    ensures same { result ≡ false → a ≡ b }
    ensures bits { result ≡ true → ((i : ℕ) → i < 32 → (bit_at a i == 1) ≡ (bit_at b i == 1)) → ⊥ }
{
    a != b
}
