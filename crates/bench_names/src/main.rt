//! How many names a program has, how many registers are proposed for them, and how long that takes.
//! Only with the word `time` does it read a source text and write a line; `bench/names` gives it.
#![tactic(auto)]

ghost use Rattle.std.specs.Prelude.{IfOk};
ghost use Rattle.br_flatimp.specs.WellFormed.{IsWellFormed};

use anyhow::{Result, bail};
use br_base::{StdSource, read_all};
use br_deadcode::remove_dead;
use br_flatimp::{FlatFunc, FlatProgram, Proposal};
use br_flatten::flatten;
use br_immediates::use_immediates;
use br_measure::{Checked, check};
use br_regalloc_propose::propose_registers;
use br_sexpr::{MOST_BYTES, read};
use br_spill::pass_in_registers;
use br_syntax::from_tree;
use std::alloc::Global;
use std::env;
use std::time::{CpuClock, Duration};

fn main(rt: HostRuntime) -> Result<()> {
    let Some(word) = env::args(&rt)?.nth(1) else {
        return Ok(());
    };
    if word.as_str() != "time" {
        return Ok(());
    }
    let Ok(text) = read_all(rt.alloc(), &mut StdSource::new(rt.stdin()), MOST_BYTES) else {
        bail!("the text is not read");
    };
    measure(&rt, &text)
}

/// Writes for a text how many functions it has, the most names of one of them, the most registers
/// that are proposed for one, and the microseconds that it takes to propose all. A function that
/// keeps its names, since they do not suffice, has no register.
fn measure(rt: &(impl Print + CpuClock + AllocGlobal), text: &[u8]) -> Result<()> {
    let small = small_program(rt.alloc(), text)?;
    let functions = small.funcs.len();
    let names = most_names(small.funcs.as_slice());
    let wide = wide_program(rt.alloc(), &small)?;
    let begun = rt.process_cpu_time()?;
    let Ok(proposals) = propose_registers(rt.alloc(), &wide) else {
        bail!("no memory");
    };
    let ended = rt.process_cpu_time()?;
    let registers = most_registers(proposals.as_slice());
    let micros = ended.saturating_sub(begun).as_nanos() / 1000;
    rt.println(format_args!("{functions} {names} {registers} {micros}"))?;
    Ok(())
}

/// The flat program of a text, without what its constants and its dead statements make longer.
fn small_program(alloc: Global, text: &[u8]) -> Result<FlatProgram>
    ensures { IfOk result (λ p. IsWellFormed p.funcs) }
{
    let program = checked(alloc, text)?;
    let Ok(flat) = flatten(alloc, &program) else {
        bail!("no memory");
    };
    let Ok(flat) = use_immediates(alloc, flat) else {
        bail!("no memory");
    };
    match remove_dead(alloc, flat) {
        Ok(flat) => Ok(flat),
        Err(_) => bail!("no memory"),
    }
}

/// The program of a text.
fn checked(alloc: Global, text: &[u8]) -> Result<Checked> {
    if text.len() > MOST_BYTES {
        bail!("the text is too long");
    }
    let Ok(trees) = read(alloc, text) else {
        bail!("the text has no trees");
    };
    let Ok(program) = from_tree(alloc, trees.as_slice()) else {
        bail!("the trees are no program");
    };
    match check(alloc, program) {
        Ok(program) => Ok(program),
        Err(_) => bail!("the program is refused"),
    }
}

fn wide_program(alloc: Global, p: &FlatProgram) -> Result<FlatProgram>
    requires { IsWellFormed p.now.funcs }
{
    match pass_in_registers(alloc, p) {
        Ok(wide) => Ok(wide),
        Err(_) => bail!("no memory"),
    }
}

/// The most names that a function has.
fn most_names(fs: &[FlatFunc]) -> u32 {
    let mut most = 0;
    for f in fs {
        most = f.names.max(most);
    }
    most
}

/// The most registers that are proposed for the names of a function.
fn most_registers(proposals: &[Proposal]) -> u32 {
    let mut most = 0;
    for p in proposals {
        most = registers_of(p.to.as_slice()).max(most);
    }
    most
}

/// How many registers names have that were none.
fn registers_of(to: &[u32]) -> u32 {
    let mut set = 0u32;
    let mut x = 0u32;
    for r in to {
        if x >= 32 && *r < 32 {
            set = set | 1 << *r;
        }
        x = x.saturating_add(1);
    }
    set.count_ones()
}
