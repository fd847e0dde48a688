// Where the functions of a program stand in its code.

ghost use Rattle.std.specs.Prelude.{◌≡◌, ◌+◌, ◌*◌, ◌≤◌, ◌∷◌, [], map, length, if◌then◌else◌};
ghost use Rattle.std.specs.List.{AllByRecursion};
ghost use Rattle.br_emit.specs.Sizes.{callable_words, function_words};
ghost use Rattle.br_emit.specs.Sizes.{begins, entries, program_words};
ghost use Rattle.br_emit.specs.Registers.{forgets_of};
ghost use Rattle.br_emit.specs.Buffer.{noted};
ghost use Rattle.br_emit.specs.Code.{address_of};
ghost use Rattle.br_emit.specs.Written.{flagged, Writable, offset_of};

use crate::functions::{callable_words, direct_words};
use crate::jumps::call_words;
use crate::numbers::Numbers;
use crate::programs::is_flagged;
use br_flatimp::FlatFunc;
use br_words::Layout;

// The address of the function numbered n, which stands at a place in the code, and the offset of
// its entry. The answer is the place after both.
fn place_function(
    targets: &mut Numbers,
    offsets: &mut Numbers,
    lengths: &mut Numbers,
    near: bool,
    sets: &[u32],
    called: bool,
    n: usize,
    place: u32,
    f: &FlatFunc,
) -> u32
    requires targets { 1 ≤ targets.old.room }
    requires offsets { 1 ≤ offsets.old.room }
    requires writable { Writable near (lengths.old.room + length lengths.old.numbers) f.now }
    requires few { place + function_words near (forgets_of sets.now) called n f.now ≤ 1048576 }
    ensures place { result ≡ place + function_words near (forgets_of sets.now) called n f.now }
    ensures targets { targets.new ≡ noted targets.old (address_of place ∷ []) }
    ensures offsets { offsets.new ≡ noted offsets.old (offset_of (if called
        then place + callable_words near (forgets_of sets.now) n f.now else place) ∷ []) }
    ensures kept { lengths.new.room + length lengths.new.numbers
        ≡ lengths.old.room + length lengths.old.numbers }
{
    lengths.clear();
    targets.push(Layout::Two.code_base() + 4 * place);
    if called {
        let words = callable_words(lengths, near, sets, n, f);
        offsets.push(4 * (place + words));
        place + words + 2 + call_words(near)
    } else {
        offsets.push(4 * place);
        place + direct_words(lengths, near, f)
    }
}

/// The addresses of functions that stand one after another and the offsets of their entries,
/// given whether the whole code is near, what calls may change, and which of them are called. The
/// answer is how many words all of them take.
pub fn place_functions(
    targets: &mut Numbers,
    offsets: &mut Numbers,
    lengths: &mut Numbers,
    near: bool,
    sets: &[u32],
    called: &[bool],
    funcs: &[FlatFunc],
) -> u32
    requires targets { length funcs.now ≤ targets.old.room }
    requires offsets { length funcs.now ≤ offsets.old.room }
    requires writable { AllByRecursion
        (Writable near (lengths.old.room + length lengths.old.numbers)) funcs.now }
    requires few { program_words near (forgets_of sets.now) (flagged called.now) 0 funcs.now
        ≤ 1048576 }
    ensures words { result
        ≡ program_words near (forgets_of sets.now) (flagged called.now) 0 funcs.now }
    ensures targets { targets.new ≡ noted targets.old
        (map address_of (begins near (forgets_of sets.now) (flagged called.now) 0 0 funcs.now)) }
    ensures offsets { offsets.new ≡ noted offsets.old
        (map offset_of (entries near (forgets_of sets.now) (flagged called.now) 0 0 funcs.now)) }
    ensures kept { lengths.new.room + length lengths.new.numbers
        ≡ lengths.old.room + length lengths.old.numbers }
{
    let mut place = 0u32;
    let mut n = 0usize;
    for f in funcs {
        place = place_function(
            targets,
            offsets,
            lengths,
            near,
            sets,
            is_flagged(called, n),
            n,
            place,
            f,
        );
        n += 1;
    }
    place
}
