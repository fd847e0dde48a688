//! Reads a source text and prints its flat program after flattening, after each pass that makes it
//! smaller and after words are passed in registers, and then what `lower` makes of it, one
//! statement a line. For those who work on the passes: the program `brc` has no word for it.
#![tactic(auto)]

mod statements;

use anyhow::{Result, bail};
use br_base::{StdSource, read_all};
use br_compile::lower;
use br_deadcode::remove_dead;
use br_flatimp::FlatProgram;
use br_flatten::flatten;
use br_immediates::use_immediates;
use br_measure::{Checked, check};
use br_sexpr::{MOST_BYTES, read};
use br_spill::pass_in_registers;
use br_syntax::from_tree;
use statements::write_function;
use std::alloc::Global;

fn main(rt: HostRuntime) -> Result<()> {
    let Ok(text) = read_all(rt.alloc(), &mut StdSource::new(rt.stdin()), MOST_BYTES) else {
        bail!("the text is not read");
    };
    let program = checked(rt.alloc(), &text)?;
    let Ok(flat) = flatten(rt.alloc(), &program) else {
        bail!("no memory");
    };
    show(&rt, "flatten", 'n', &flat)?;
    let Ok(flat) = use_immediates(rt.alloc(), flat) else {
        bail!("no memory");
    };
    show(&rt, "use immediates", 'n', &flat)?;
    let Ok(flat) = remove_dead(rt.alloc(), flat) else {
        bail!("no memory");
    };
    show(&rt, "remove dead", 'n', &flat)?;
    let Ok(flat) = pass_in_registers(rt.alloc(), &flat) else {
        bail!("no memory");
    };
    show(&rt, "pass in registers", 'x', &flat)?;
    let Ok(lowered) = lower(rt.alloc(), &text) else {
        bail!("no memory");
    };
    show(&rt, "lower", 'x', &lowered.flat)
}

/// The program of a text.
fn checked(alloc: Global, text: &[u8]) -> Result<Checked> {
    if text.len() > MOST_BYTES {
        bail!("the text is too long");
    }
    let Ok(trees) = read(alloc, text) else {
        bail!("the text has no trees");
    };
    let Ok(program) = from_tree(alloc, trees.as_slice()) else {
        bail!("the trees are no program");
    };
    match check(alloc, program) {
        Ok(program) => Ok(program),
        Err(_) => bail!("the program is refused"),
    }
}

/// Prints the functions of a program below the name of the pass that made it.
fn show(rt: &(impl Print + AllocGlobal), pass: &str, letter: char, p: &FlatProgram) -> Result<()> {
    let mut text = String::new(rt.alloc());
    for f in p.funcs.as_slice() {
        write_function(&mut text, letter, f)?;
    }
    rt.println(format_args!("; {pass}\n{text}"))?;
    Ok(())
}
