// From a source text to its image.

ghost use Rattle.std.specs.Prelude.{◌≡◌, List, IfOk, IfErr};
ghost use Rattle.br_base.specs.Faults.{IfFault};
ghost use Rattle.br_words.specs.declared.layout.Layout.TheVariants.{Two};
ghost use Rattle.br_syntax.specs.declared.program.Func.{Func};
ghost use Rattle.br_compile.specs.declared.refusal.Refusal.{Refusal};
ghost use Rattle.br_compile.specs.Refusal.{Accepts, IsFaultOf};
ghost use Rattle.br_compile.specs.Implements.{Implements};
ghost use Rattle.br_compile.specs.FirstSteps.{ImplementsAtFirst};

use crate::laws::texts_are_accepted_or_at_fault;
use crate::lowering::lower;
use crate::refusal::Refusal;
use br_base::OrMemory;
use br_emit::emit;
use br_image::Image;
use br_stack_need::needs_add_up;
use std::alloc::Global;

/// The image of the program that a source text stands for. It implements that program: whatever the
/// arguments, the memory, the answers of devices and the leftover contents of registers and stack,
/// unless a run of the source is undefined, the machine shows a run of the source and nothing else.
/// After any number of steps, also where the program never ends, it shows the first events of such
/// a run. The image has the second layout.
///
/// An `Err` that is no want of memory is the first thing that refuses the text.
pub fn compile(alloc: Global, text: &[u8]) -> Result<Image, OrMemory<Refusal>>
    ensures implements { IfOk result
        (λ i. (fs : List Func) × Accepts text.now fs × Implements i fs) }
    ensures first_steps { IfOk result
        (λ i. (fs : List Func) → Accepts text.now fs → ImplementsAtFirst i fs) }
    ensures layout { IfOk result (λ i. i.layout ≡ Two) }
    ensures unrefused { IfOk result (λ _. (r : Refusal) → IsFaultOf text.now r → ⊥) }
    ensures refused { IfErr result (λ e. IfFault e (λ r. IsFaultOf text.now r)) }
{
    texts_are_accepted_or_at_fault();
    needs_add_up();
    let lowered = lower(alloc, text)?;
    let image = emit(alloc, &lowered.flat, lowered.needs.as_slice())?;
    Ok(image)
}
