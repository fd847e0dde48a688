// What holds of memories. These functions do nothing: each contract is a law of the definitions.

ghost use Rattle.std.specs.Prelude.{◌≡◌, ◌≢◌, ℕ, ◌+◌, ◌%◌, ◌^◌, ◌<◌, ◌↔◌, Some, None};
ghost use Rattle.std.specs.FinMap as map;
ghost use Rattle.br_words.specs.declared.size.Size.{Size};
ghost use Rattle.br_words.specs.Size.{size_of};
ghost use Rattle.br_bytes.specs.Memory.{Memory, place, get_number, put_number};

/// What was put is what is there afterwards: the low bytes of the value.
pub fn get_after_put()
    ensures { (before after : Memory) (a v : ℕ) (size : Size) →
        put_number before a (size_of size) v ≡ Some after →
        get_number after a (size_of size) ≡ Some (v % 256 ^ size_of size) }
{}

/// What is put changes no byte but its own.
pub fn put_leaves_others()
    ensures { (before after : Memory) (a v q : ℕ) (size : Size) →
        put_number before a (size_of size) v ≡ Some after →
        ((i : ℕ) → i < size_of size → q ≢ place (a + i)) →
        map.get after q ≡ map.get before q }
{}

/// Getting and putting fail alike: where one of the bytes is missing, and nowhere else.
pub fn get_and_put_miss_alike()
    ensures get { (m : Memory) (a : ℕ) (size : Size) →
        (get_number m a (size_of size) ≡ None)
        ↔ ((i : ℕ) × (i < size_of size) × (map.get m (place (a + i)) ≡ None)) }
    ensures put { (m : Memory) (a v : ℕ) (size : Size) →
        (put_number m a (size_of size) v ≡ None)
        ↔ ((i : ℕ) × (i < size_of size) × (map.get m (place (a + i)) ≡ None)) }
{}
