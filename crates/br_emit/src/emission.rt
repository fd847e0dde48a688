// The image of a program.

ghost use Rattle.std.specs.Prelude.{◌≡◌, ◌≤◌, [], All, map, length, IfOk};
ghost use Rattle.std.specs.List.{AllByRecursion};
ghost use Rattle.br_base.specs.Name.{IsName};
ghost use Rattle.br_words.specs.declared.layout.Layout.TheVariants.{Two};
ghost use Rattle.br_words.specs.Layout.{most_words, most_stack};
ghost use Rattle.br_flatimp.specs.Sizes.{flat_bulk};
ghost use Rattle.br_flatimp.specs.WellFormed.{IsRegisterForm};
ghost use Rattle.br_emit.specs.Emitted.{AreNeeds, AllDescribed, IsOffset, ShowsProgram};
ghost use Rattle.br_emit.specs.Emitted.{HasFewNames, entry_of, entries_of};
ghost use Rattle.br_emit.specs.Registers.{IsWritten};
ghost use Rattle.br_emit.specs.Written.{CanWrite};

use crate::buffer::CodeBuffer;
use crate::called::flag_called;
use crate::forgotten::{fill, find_forgotten};
use crate::laws::code_shows_its_program;
use crate::places::place_functions;
use crate::programs::write_functions;
use crate::room::{is_near_program, most_words};
use crate::targets::Targets;
use br_base::NoMemory;
use br_flatimp::{FlatFunc, FlatProgram};
use br_image::{Entry, Image};
use br_words::Layout;
use sqlite_items::Items;
use std::alloc::Global;

/// The image of a program in register form, in the second
/// layout: for each function an entry with its
/// name, its counts and its need, and at most as many words of code as the program's flat bulk. Its code
/// shows each call of each function (Integration Verification across Software and Hardware for a
/// Simple Embedded System, PLDI 2021). The needs are the bytes of stack of each function, in the
/// order of the functions. The one error is want of memory.
pub fn emit(alloc: Global, p: &FlatProgram, needs: &[u32]) -> Result<Image, NoMemory>
    requires register_form { IsRegisterForm p.now.funcs }
    requires needs { AreNeeds p.now.funcs needs.now }
    requires stack { All (λ need. need ≤ most_stack) needs.now }
    requires size { flat_bulk p.now.funcs ≤ most_words Two }
    ensures layout { IfOk result (λ i. i.layout ≡ Two) }
    ensures entries { IfOk result (λ i. AllDescribed p.now.funcs needs.now i.entries) }
    ensures words { IfOk result (λ i. length i.code ≤ flat_bulk p.now.funcs) }
    ensures shows { IfOk result (λ i. ShowsProgram p.now.funcs i.entries i.code) }
{
    let funcs = p.funcs.as_slice();
    let mut code = buffer_for(alloc, funcs)?;
    emit_into(p, needs, &mut code);
    let entries = entries(alloc, funcs, code.offsets(), needs)?;
    let words = code.into_words();
    Ok(Image {
        layout: Layout::Two,
        entries,
        code: words,
    })
}

/// Writes the code of a program in register form, and the offset of each function's entry, into a
/// buffer with nothing in it. With the given needs these make an image as [`emit`]
/// answers it. There has to be room for the program's flat bulk in words and for
/// each function, and no memory is taken.
pub fn emit_into(p: &FlatProgram, needs: &[u32], code: &mut CodeBuffer)
    requires register_form { IsRegisterForm p.now.funcs }
    requires needs { AreNeeds p.now.funcs needs.now }
    requires stack { All (λ need. need ≤ most_stack) needs.now }
    requires size { flat_bulk p.now.funcs ≤ most_words Two }
    requires no_words { code.old.words ≡ [] }
    requires no_offsets { code.old.offsets ≡ [] }
    requires word_room { flat_bulk p.now.funcs ≤ code.old.word_room }
    requires function_room { length p.now.funcs ≤ code.old.function_room }
    ensures count { length code.new.offsets ≡ length p.now.funcs }
    ensures offsets { All (IsOffset (length code.new.words)) code.new.offsets }
    ensures entries { AllDescribed p.now.funcs needs.now
        (entries_of code.new.offsets needs.now 0 p.now.funcs) }
    ensures words { length code.new.words ≤ flat_bulk p.now.funcs }
    ensures shows { ShowsProgram p.now.funcs (entries_of code.new.offsets needs.now 0 p.now.funcs)
        code.new.words }
{
    code_shows_its_program();
    write_into(p.funcs.as_slice(), code);
}

// Writes the code of functions, and the offsets of their entries.
fn write_into(funcs: &[FlatFunc], code: &mut CodeBuffer)
    requires can_write { CanWrite code.old.word_room funcs.now }
    requires no_words { code.old.words ≡ [] }
    requires no_offsets { code.old.offsets ≡ [] }
    requires word_room { flat_bulk funcs.now ≤ code.old.word_room }
    requires function_room { length funcs.now ≤ code.old.function_room }
    ensures { IsWritten funcs.now code.new.words code.new.offsets }
{
    let near = is_near_program(funcs);
    code.targets.clear();
    flag_called(&mut code.called, funcs);
    let called = code.called.as_slice();
    fill(&mut code.forgotten, funcs.len());
    let sets = code.forgotten.as_mut_slice();
    find_forgotten(sets, funcs);
    place_functions(
        &mut code.targets,
        &mut code.offsets,
        &mut code.lengths,
        near,
        sets,
        called,
        funcs,
    );
    let targets = Targets::new(near, code.targets.as_slice());
    write_functions(
        &mut code.code,
        &targets,
        &mut code.lengths,
        sets,
        called,
        funcs,
    );
}

// A buffer with room for the code of functions.
fn buffer_for(alloc: Global, funcs: &[FlatFunc]) -> Result<CodeBuffer, NoMemory>
    requires { flat_bulk funcs.now ≤ most_words Two }
    ensures no_words { IfOk result (λ b. b.words ≡ []) }
    ensures no_offsets { IfOk result (λ b. b.offsets ≡ []) }
    ensures word_room { IfOk result (λ b. flat_bulk funcs.now ≤ b.word_room) }
    ensures function_room { IfOk result (λ b. length funcs.now ≤ b.function_room) }
{
    CodeBuffer::with_room(alloc, most_words(funcs), funcs.len() as u32, 0)
}

// The entries of functions, by the offsets and needs of all of them.
fn entries(
    alloc: Global,
    funcs: &[FlatFunc],
    offsets: &[u32],
    needs: &[u32],
) -> Result<Items<Entry>, NoMemory>
    requires offsets { length offsets.now ≡ length funcs.now }
    requires needs { length needs.now ≡ length funcs.now }
    requires counts { AllByRecursion HasFewNames funcs.now }
    ensures entries { IfOk result (λ es. es ≡ entries_of offsets.now needs.now 0 funcs.now) }
    ensures names { IfOk result (λ _. AllByRecursion (λ f. IsName f.name) funcs.now) }
{
    let mut entries = Items::new(alloc);
    let mut n = 0usize;
    for f in funcs {
        entries.push(entry(f, offsets[n], needs[n])?)?;
        n += 1;
    }
    Ok(entries)
}

// The entry of a function.
fn entry(f: &FlatFunc, offset: u32, need: u32) -> Result<Entry, NoMemory>
    requires { HasFewNames f.now }
    ensures entry { IfOk result (λ e. e ≡ entry_of f.now offset need) }
    ensures name { IfOk result (λ _. IsName f.now.name) }
{
    // What a name is made of is what `bytes` says of it.
    let _bytes = f.name.bytes();
    Ok(Entry {
        name: f.name.copy()?,
        args: f.args.len() as u32,
        results: f.results.len() as u32,
        offset,
        need,
    })
}
