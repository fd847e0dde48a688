// The firmware as a program.

ghost use Rattle.std.specs.Prelude.{IfOk};
ghost use Rattle.br_lightbulb.specs.Firmware.{IsFirmware};

use crate::text::TEXT;
use br_base::NoMemory;
use br_sexpr::read;
use br_syntax::{Program, from_tree};
use std::alloc::Global;

/// The firmware, with the offsets of its text.
pub fn program(alloc: Global) -> Result<Program, NoMemory>
    ensures { IfOk result (λ p. IsFirmware p.funcs) }
{
    match read(alloc, TEXT) {
        Ok(trees) => match from_tree(alloc, trees.as_slice()) {
            Ok(program) => Ok(program),
            Err(_) => Err(NoMemory),
        },
        Err(_) => Err(NoMemory),
    }
}
