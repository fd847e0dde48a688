// The code of the functions of a program.

ghost use Rattle.std.specs.Prelude.{◌≡◌, ◌+◌, ◌≤◌, ◌++◌, ℕ, IsTrue, length};
ghost use Rattle.std.specs.List.{AllByRecursion, list_all};
ghost use Rattle.br_flatimp.specs.Parts.{throughout};
ghost use Rattle.br_flatimp.specs.Sizes.{nest};
ghost use Rattle.br_emit.specs.Code.{AllFit, callable_items, entry_items};
ghost use Rattle.br_emit.specs.Sizes.{sized_all};
ghost use Rattle.br_emit.specs.Buffer.{appended};
ghost use Rattle.br_emit.specs.Registers.{forgets_of};
ghost use Rattle.br_emit.specs.Ready.{Ready, InReach, is_encodable, aimed};
ghost use Rattle.br_emit.specs.Written.{one_items, rest_items, flagged, Writable};

use crate::code::Code;
use crate::framing::entry;
use crate::functions::{callable, direct, nest_all};
use crate::measuring::measure_all;
use crate::numbers::Numbers;
use crate::targets::Targets;
use br_flatimp::FlatFunc;

// The lengths of the parts in a function, in place of those before.
fn measure_function(lengths: &mut Numbers, targets: &Targets, f: &FlatFunc)
    requires nest { nest f.now ≤ 1048576 }
    requires parts { length (sized_all targets.now.near f.now.body (nest f.now)).parts
        ≤ lengths.old.room + length lengths.old.numbers }
    requires few { (sized_all targets.now.near f.now.body (nest f.now)).words ≤ 1048576 }
    ensures numbers { lengths.new.numbers
        ≡ (sized_all targets.now.near f.now.body (nest f.now)).parts }
    ensures kept { lengths.new.room + length lengths.new.numbers
        ≡ lengths.old.room + length lengths.old.numbers }
{
    lengths.clear();
    let buffers = nest_all(f.body.as_slice());
    measure_all(lengths, targets.near(), f.body.as_slice(), buffers);
}

// The code of the function numbered n, where it is called, and its entry.
fn write_called(
    code: &mut Code,
    targets: &Targets,
    lengths: &[u32],
    sets: &[u32],
    n: usize,
    target: u32,
    f: &FlatFunc,
)
    requires targets { (g : ℕ) → InReach ((aimed targets.now).at g) }
    requires target { InReach target }
    requires nest { nest f.now ≤ 1048576 }
    requires form { IsTrue (list_all (throughout is_encodable) f.now.body) }
    requires ready { Ready (callable_items (aimed targets.now) (forgets_of sets.now) n f.now
        ++ entry_items targets.now.near target)
        (sized_all targets.now.near f.now.body (nest f.now)).parts code.old lengths.now }
    ensures code { code.new ≡ appended code.old (callable_items (aimed targets.now)
        (forgets_of sets.now) n f.now ++ entry_items targets.now.near target) }
    ensures fit { AllFit (callable_items (aimed targets.now) (forgets_of sets.now) n f.now
        ++ entry_items targets.now.near target) }
{
    callable(code, targets, lengths, sets, n, f);
    entry(code, targets.near(), target);
}

// The code of the function numbered n and its entry, or its entry alone where nobody calls it.
fn write_function(
    code: &mut Code,
    targets: &Targets,
    lengths: &mut Numbers,
    sets: &[u32],
    called: bool,
    n: usize,
    target: u32,
    f: &FlatFunc,
)
    requires targets { (g : ℕ) → InReach ((aimed targets.now).at g) }
    requires target { InReach target }
    requires writable { Writable targets.now.near
        (lengths.old.room + length lengths.old.numbers) f.now }
    requires room { length (one_items (aimed targets.now) (forgets_of sets.now) called n target
        f.now) ≤ code.old.room }
    requires few { length
        (one_items (aimed targets.now) (forgets_of sets.now) called n target f.now) ≤ 1048576 }
    ensures code { code.new ≡ appended code.old
        (one_items (aimed targets.now) (forgets_of sets.now) called n target f.now) }
    ensures fit { AllFit
        (one_items (aimed targets.now) (forgets_of sets.now) called n target f.now) }
    ensures kept { lengths.new.room + length lengths.new.numbers
        ≡ lengths.old.room + length lengths.old.numbers }
{
    measure_function(lengths, targets, f);
    if called {
        write_called(code, targets, lengths.as_slice(), sets, n, target, f);
    } else {
        direct(code, targets, lengths.as_slice(), f);
    }
}

// Whether the flag of a number is set.
pub fn is_flagged(flags: &[bool], n: usize) -> bool
    ensures { result ≡ flagged flags.now n }
{
    match flags.get(n) {
        Some(flag) => *flag,
        None => false,
    }
}

/// The code of functions, one after another, given where each stands, what calls may
/// change, and which of them are called.
pub fn write_functions(
    code: &mut Code,
    targets: &Targets,
    lengths: &mut Numbers,
    sets: &[u32],
    called: &[bool],
    funcs: &[FlatFunc],
)
    requires targets { (g : ℕ) → InReach ((aimed targets.now).at g) }
    requires writable { AllByRecursion
        (Writable targets.now.near (lengths.old.room + length lengths.old.numbers)) funcs.now }
    requires room { length (rest_items (aimed targets.now) (forgets_of sets.now)
        (flagged called.now) 0 funcs.now) ≤ code.old.room }
    requires few { length (rest_items (aimed targets.now) (forgets_of sets.now) (flagged called.now)
        0 funcs.now) ≤ 1048576 }
    ensures code { code.new ≡ appended code.old
        (rest_items (aimed targets.now) (forgets_of sets.now) (flagged called.now) 0 funcs.now) }
    ensures fit { AllFit
        (rest_items (aimed targets.now) (forgets_of sets.now) (flagged called.now) 0 funcs.now) }
    ensures kept { lengths.new.room + length lengths.new.numbers
        ≡ lengths.old.room + length lengths.old.numbers }
{
    let mut n = 0usize;
    for f in funcs {
        write_function(
            code,
            targets,
            lengths,
            sets,
            is_flagged(called, n),
            n,
            targets.at(n),
            f,
        );
        n += 1;
    }
}
