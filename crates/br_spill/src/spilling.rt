// Functions and programs whose words are passed in registers.

ghost use Rattle.std.specs.Prelude.{◌≡◌, ◌≤◌, true, IfOk, OnOk};
ghost use Rattle.br_flatimp.specs.Refines.{Refines, meaning};
ghost use Rattle.br_flatimp.specs.WellFormed.{IsRegisterForm, IsWellFormed};
ghost use Rattle.br_spill.specs.Spill.{AreAsLean, HasWords, SpilledFunctions, StayLean};
ghost use Rattle.br_spill.specs.Spill.{function_words_fit, in_buffer, layout_by, program_by};
ghost use Rattle.br_spill.specs.Spill.{spilled_function, spilled_program, wide_program};

use crate::bodies::statements;
use crate::laws::{
    layouts_fit, spilled_programs_are_as_lean, spilled_programs_are_in_register_form,
    spilled_programs_are_well_formed, spilled_programs_refine, spilled_programs_stay_lean,
    wide_layouts_fit,
};
use crate::moves::BUFFER;
use crate::passing::{passes, registers, takes};
use crate::place::{Kind, Places, register_count, slots};
use br_base::NoMemory;
use br_flatimp::{FlatFunc, FlatProgram, Stmt};
use sqlite_items::Items;
use std::alloc::Global;

/// The program in register form of a well formed flat program. A function of at most 21 names keeps
/// them in registers; of more, the first 18 names have registers, and the others words of a buffer
/// around its body. A function that has no buffer then misses no operand where it missed none, and
/// has no dead statement but copies where it had no dead one. Answers want of memory alone.
pub fn spill(alloc: Global, p: FlatProgram) -> Result<FlatProgram, NoMemory>
    requires { IsWellFormed p.funcs }
    ensures program { IfOk result (λ q. q.funcs ≡ spilled_program p.funcs) }
    ensures form { IfOk result (λ q. IsRegisterForm q.funcs) }
    ensures refines { IfOk result (λ q. Refines (meaning q.funcs) (meaning p.funcs)) }
    ensures lean { IfOk result (λ q. StayLean q.funcs p.funcs) }
{
    layouts_fit();
    spilled_programs_refine();
    spilled_programs_are_in_register_form();
    spilled_programs_stay_lean();
    let funcs = functions(alloc, Kind::Narrow, p.funcs.as_slice())?;
    Ok(FlatProgram { funcs })
}

/// A well formed flat program, with words passed in registers: the name numbered x becomes 32 + x,
/// 10 to 17 pass words and hold no name, and no other register below 32 is used. A function of more
/// than 1,048,544 names is as `spill` makes it. Each function comes from the one at its place by a
/// layout that fits. One that has no more buffers than that one misses no operand where that one
/// misses none, and has no dead statement but copies where that one has no dead one. Answers want
/// of memory alone.
pub fn pass_in_registers(alloc: Global, p: &FlatProgram) -> Result<FlatProgram, NoMemory>
    requires { IsWellFormed p.now.funcs }
    ensures program { IfOk result (λ q. q.funcs ≡ wide_program p.now.funcs) }
    ensures spilled { IfOk result (λ q. SpilledFunctions q.funcs p.now.funcs) }
    ensures well_formed { IfOk result (λ q. IsWellFormed q.funcs) }
    ensures refines { IfOk result (λ q. Refines (meaning q.funcs) (meaning p.now.funcs)) }
    ensures lean { IfOk result (λ q. AreAsLean q.funcs p.now.funcs) }
{
    wide_layouts_fit();
    spilled_programs_refine();
    spilled_programs_are_well_formed();
    spilled_programs_are_as_lean();
    let funcs = functions(alloc, Kind::Wide, p.funcs.as_slice())?;
    Ok(FlatProgram { funcs })
}

/// The functions of functions by layouts of a kind, well formed or not.
pub(crate) fn functions(
    alloc: Global,
    kind: Kind,
    fs: &[FlatFunc],
) -> Result<Items<FlatFunc>, NoMemory>
    ensures program { IfOk result (λ qs. qs ≡ program_by kind fs.now) }
    ensures words { OnOk result (HasWords fs.now) }
{
    let mut made = Items::new(alloc);
    for f in fs {
        made.push(function(alloc, kind, f)?)?;
    }
    Ok(made)
}

// The function of a function by the layout of a kind.
fn function(alloc: Global, kind: Kind, f: &FlatFunc) -> Result<FlatFunc, NoMemory>
    ensures same { IfOk result (λ q. q ≡ spilled_function (layout_by kind f.now.names) f.now) }
    ensures words { OnOk result (function_words_fit f.now ≡ true) }
{
    let places = Places {
        kind,
        names: f.names,
    };
    let args = registers(alloc, f.args.len())?;
    let results = registers(alloc, f.results.len())?;
    let mut body = Items::new(alloc);
    takes(places, f.args.as_slice(), &mut body)?;
    statements(alloc, places, f.body.as_slice(), &mut body)?;
    passes(places, f.results.as_slice(), &mut body)?;
    Ok(FlatFunc {
        name: f.name.copy()?,
        args,
        results,
        names: register_count(places),
        body: in_buffer(alloc, slots(places), body)?,
    })
}

// Statements within the buffer, where it has words.
fn in_buffer(alloc: Global, words: u32, body: Items<Stmt>) -> Result<Items<Stmt>, NoMemory>
    requires { words ≤ 1048558 }
    ensures { IfOk result (λ all. all ≡ in_buffer words body) }
{
    if words == 0 {
        return Ok(body);
    }
    let mut all = Items::new(alloc);
    all.push(Stmt::Stackalloc(BUFFER, 4 * words, body))?;
    Ok(all)
}
