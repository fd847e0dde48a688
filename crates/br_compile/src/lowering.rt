// From a source text to a flat program in register form.

ghost use Rattle.std.specs.Prelude.{◌≡◌, ◌≤◌, List, length, IfOk, IfErr, IsTrue};
ghost use Rattle.std.specs.List.{AllByRecursion, list_all};
ghost use Rattle.br_base.specs.Faults.{IfFault};
ghost use Rattle.br_sexpr.specs.Reads.{most_bytes, Reads};
ghost use Rattle.br_syntax.specs.Denotes.{Denotes};
ghost use Rattle.br_syntax.specs.declared.program.Func.{Func};
ghost use Rattle.br_measure.specs.Faults.{IsSound};
ghost use Rattle.br_flatimp.specs.Liveness.{has_no_dead};
ghost use Rattle.br_flatimp.specs.Missed.{has_no_missed};
ghost use Rattle.br_flatimp.specs.Refines.{Refines, meaning};
ghost use Rattle.br_flatimp.specs.WellFormed.{IsWellFormed};
ghost use Rattle.br_compile.specs.declared.refusal.Refusal.{Refusal};
ghost use Rattle.br_compile.specs.Refusal.{Accepts, IsFaultOf, IsShapeRefusal, IsNameRefusal};
ghost use Rattle.br_compile.specs.Lowered.{AreSmall, HaveGrown, IsFlat};
ghost use Rattle.br_compile.specs.Lowered.{IsInRegisters, IsLean, IsLowered};

use crate::refusal::Refusal;
use br_base::{NoMemory, OrMemory};
use br_deadcode::remove_dead;
use br_flatimp::{FlatFunc, FlatProgram, Proposal, refines_composes};
use br_flatten::flatten;
use br_immediates::use_immediates;
use br_live::names_are_below;
use br_measure::{Checked, check, measures_add_up, sound_programs_have_no_fault};
use br_regalloc_check::assign;
use br_regalloc_propose::{propose, propose_registers};
use br_sexpr::{MOST_BYTES, Tree, one_answer, read};
use br_spill::{
    is_in_register_form, layouts_fit, pass_in_registers, spill, spilled_functions_keep_sizes,
    wide_layouts_fit,
};
use br_stack_need::{needs, needs_are_bounded};
use br_syntax::{Program, from_tree};
use sqlite_items::Items;
use std::alloc::Global;

/// A flat program in register form, made of a source text.
#[derive(Debug, Drop)]
pub struct Lowered {
    /// The functions, in the order of the text.
    pub flat: FlatProgram,
    /// The bytes of stack that each function needs.
    pub needs: Vec<u32>,
    /// The bulk of the source program.
    pub bulk: u32,
}

/// The flat program in register form of the program that a source text stands for. It refines that
/// program and has its functions in order, each needs at most the measure of its source, and its
/// flat bulk is at most 24 words for each unit of the program's bulk. In a function without
/// buffers no operand is a name that could be a constant, and no statement but a copy writes a
/// name that is never read and does nothing else.
///
/// An `Err` that is no want of memory is the first thing that refuses the text.
pub fn lower(alloc: Global, text: &[u8]) -> Result<Lowered, OrMemory<Refusal>>
    ensures lowered { IfOk result (λ l. (fs : List Func) × Accepts text.now fs
        × IsLowered l.flat.funcs l.needs.items l.bulk fs) }
    ensures unrefused { IfOk result (λ _. (r : Refusal) → IsFaultOf text.now r → ⊥) }
    ensures refused { IfErr result (λ e. IfFault e (λ r. IsFaultOf text.now r)) }
{
    one_answer();
    sound_programs_have_no_fault();
    if text.len() > MOST_BYTES {
        return Err(OrMemory::Fault(Refusal::InputTooLong));
    }
    let trees = trees_of(alloc, text)?;
    let program = program_of(alloc, trees.as_slice())?;
    let checked = checked_of(alloc, program)?;
    let made = lowered_program(alloc, &checked)?;
    Ok(made)
}

// The passes from a checked program to register form.
fn lowered_program(alloc: Global, program: &Checked) -> Result<Lowered, NoMemory>
    ensures lowered { IfOk result (λ l. IsLowered l.flat.funcs l.needs.items l.bulk program.now) }
{
    let _source = program.program();
    let flat = in_registers(alloc, program)?;
    let needs = needs(alloc, &flat)?;
    Ok(Lowered {
        flat,
        needs,
        bulk: program.bulk(),
    })
}

// Registers alone are tried first. Where a function needs more of them than there are, the names of
// all functions become few by another way, and those past the registers words of a buffer.
fn in_registers(alloc: Global, program: &Checked) -> Result<FlatProgram, NoMemory>
    ensures lowered { IfOk result (λ q. IsInRegisters q.funcs program.now) }
    ensures lean { IfOk result (λ q. AllByRecursion IsLean q.funcs) }
{
    measures_add_up();
    needs_are_bounded();
    layouts_fit();
    spilled_functions_keep_sizes();
    refines_composes();
    let _source = program.program();
    let first = flatten(alloc, program)?;
    let flat = lean_program(alloc, first)?;
    let alone = with_registers(alloc, &flat)?;
    if is_in_register_form(&alone) {
        return Ok(alone);
    }
    let named = with_few_names(alloc, flat)?;
    let spilled = spill(alloc, named)?;
    Ok(spilled)
}

// The program whose words are passed in registers, and whose names are then those registers that
// are proposed, in each function where it may take them.
fn with_registers(alloc: Global, p: &FlatProgram) -> Result<FlatProgram, NoMemory>
    requires small { AreSmall p.now.funcs }
    ensures well_formed { IfOk result (λ q. IsWellFormed q.funcs) }
    ensures refines { IfOk result (λ q. Refines (meaning q.funcs) (meaning p.now.funcs)) }
    ensures grown { IfOk result (λ q. HaveGrown q.funcs p.now.funcs) }
    ensures lean { IfOk result (λ q. IsTrue (list_all has_no_missed p.now.funcs) →
        IsTrue (list_all has_no_dead p.now.funcs) → AllByRecursion IsLean q.funcs) }
{
    wide_layouts_fit();
    spilled_functions_keep_sizes();
    refines_composes();
    let wide = pass_in_registers(alloc, p)?;
    let proposals = propose_registers(alloc, &wide)?;
    let named = assign(alloc, wide, proposals.as_slice())?;
    Ok(named)
}

// The flat program whose functions have the names that are proposed, each where it may.
fn with_few_names(alloc: Global, p: FlatProgram) -> Result<FlatProgram, NoMemory>
    requires small { AreSmall p.funcs }
    ensures flat { IfOk result (λ q. (fs : List Func) → IsFlat p.funcs fs → IsFlat q.funcs fs) }
    ensures none_missed { IfOk result
        (λ q. IsTrue (list_all has_no_missed p.funcs) → IsTrue (list_all has_no_missed q.funcs)) }
    ensures none_dead { IfOk result
        (λ q. IsTrue (list_all has_no_dead p.funcs) → IsTrue (list_all has_no_dead q.funcs)) }
{
    refines_composes();
    let proposals = proposals_for(alloc, p.funcs.as_slice())?;
    let named = assign(alloc, p, proposals.as_slice())?;
    Ok(named)
}

// What is proposed for each function.
fn proposals_for(alloc: Global, fs: &[FlatFunc]) -> Result<Vec<Proposal>, NoMemory>
    requires { IsWellFormed fs.now }
    ensures { IfOk result (λ ps. length ps.items ≡ length fs.now) }
{
    names_are_below();
    let mut proposals = Vec::new(alloc);
    for f in fs {
        proposals.push(propose(alloc, f)?)?;
    }
    Ok(proposals)
}

// A flat program with constants for names where they fit, and without dead statements.
fn lean_program(alloc: Global, p: FlatProgram) -> Result<FlatProgram, NoMemory>
    requires { IsWellFormed p.funcs }
    ensures flat { IfOk result (λ q. (fs : List Func) → IsFlat p.funcs fs → IsFlat q.funcs fs) }
    ensures none_missed { IfOk result (λ q. IsTrue (list_all has_no_missed q.funcs)) }
    ensures none_dead { IfOk result (λ q. IsTrue (list_all has_no_dead q.funcs)) }
{
    refines_composes();
    let constants = use_immediates(alloc, p)?;
    let live = remove_dead(alloc, constants)?;
    Ok(live)
}

fn trees_of(alloc: Global, text: &[u8]) -> Result<Items<Tree>, OrMemory<Refusal>>
    requires { length text.now ≤ most_bytes }
    ensures trees { IfOk result (λ trees. Reads text.now trees) }
    ensures refused { IfErr result (λ e. IfFault e (λ r. IsFaultOf text.now r)) }
{
    read(alloc, text).map_err(|cause| cause.map(Refusal::Text))
}

fn program_of(alloc: Global, trees: &[Tree]) -> Result<Program, OrMemory<Refusal>>
    ensures denotes { IfOk result (λ p. Denotes trees.now p.funcs) }
    ensures refused { IfErr result (λ e. IfFault e (λ r. IsShapeRefusal trees.now r)) }
{
    from_tree(alloc, trees).map_err(|cause| cause.map(Refusal::Shape))
}

fn checked_of(alloc: Global, program: Program) -> Result<Checked, OrMemory<Refusal>>
    ensures kept { IfOk result (λ c. c ≡ program.funcs) }
    ensures sound { IfOk result (λ c. IsSound c) }
    ensures refused { IfErr result (λ e. IfFault e (λ r. IsNameRefusal program.funcs r)) }
{
    check(alloc, program).map_err(|cause| cause.map(Refusal::Names))
}
