//! How long `flatten` takes for the program of a text. The words are the number of times that it is
//! tried, of which the least counts, and nothing is done without one; `bench/flatten` gives it.
//! With 0 the program is only read and checked.
#![tactic(auto)]

use anyhow::{Result, bail};
use br_base::{StdSource, read_all};
use br_flatten::flatten;
use br_measure::{Checked, check};
use br_sexpr::{MOST_BYTES, read};
use br_syntax::from_tree;
use std::alloc::Global;
use std::env;
use std::time::CpuClock;

fn main(rt: HostRuntime) -> Result<()> {
    let Some(word) = env::args(&rt)?.nth(1) else {
        return Ok(());
    };
    let Ok(runs) = word.as_str().parse::<u32>() else {
        bail!("the word is no number");
    };
    let Ok(text) = read_all(rt.alloc(), &mut StdSource::new(rt.stdin()), MOST_BYTES) else {
        bail!("the text is not read");
    };
    let program = checked(rt.alloc(), &text)?;
    let least = least(&rt, &program, runs)?;
    println!(rt; "{least}")?;
    Ok(())
}

/// The least nanoseconds of some runs.
fn least(rt: &(impl CpuClock + AllocGlobal), program: &Checked, runs: u32) -> Result<u128> {
    let mut least = u128::MAX;
    for _ in 0..runs {
        let start = rt.process_cpu_time()?;
        let Ok(_flat) = flatten(rt.alloc(), program) else {
            bail!("no memory");
        };
        let spent = rt.process_cpu_time()?.saturating_sub(start).as_nanos();
        least = least.min(spent);
    }
    Ok(least)
}

/// The program of a text.
fn checked(alloc: Global, text: &[u8]) -> Result<Checked> {
    if text.len() > MOST_BYTES {
        bail!("the text is too long");
    }
    let Ok(trees) = read(alloc, text) else {
        bail!("the text has no trees");
    };
    let Ok(program) = from_tree(alloc, trees.as_slice()) else {
        bail!("the trees are no program");
    };
    match check(alloc, program) {
        Ok(program) => Ok(program),
        Err(_) => bail!("the program is refused"),
    }
}
