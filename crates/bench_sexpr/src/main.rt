//! How long reading and printing take, for texts of several kinds and sizes. Only with the word
//! `time` does it measure and write; `bench/sexpr` gives it.
#![tactic(auto)]

use anyhow::{Result, bail};
use br_sexpr::{MOST_BYTES, print, read};
use std::alloc::{AllocError, Global};
use std::env;
use std::time::{CpuClock, Duration};

const SIZES: [usize; 4] = [16_384, 65_536, 262_144, MOST_BYTES];

const RUNS: usize = 9;

fn main(rt: HostRuntime) -> Result<()> {
    let Some(word) = env::args(&rt)?.nth(1) else {
        return Ok(());
    };
    if word.as_str() != "time" {
        return Ok(());
    }
    println!(rt; "picoseconds a byte, reading and printing")?;
    measure_kind(&rt, "names", b"name another_name_9 ")?;
    measure_kind(&rt, "numbers", b"0 4294967295 0xFFFFFFFF 10 ")?;
    measure_kind(&rt, "one name", b"n")?;
    measure_kind(&rt, "comments", b"; a comment ()&\n")?;
    measure_kind(&rt, "commands", b"(set y 16) (skip)\n")?;
    measure_kind(&rt, "flat", b"(a)")?;
    let deep = nested(rt.alloc())?;
    measure_kind(&rt, "deep", &deep)?;
    Ok(())
}

fn measure_kind(rt: &(impl Print + CpuClock + AllocGlobal), kind: &str, part: &[u8]) -> Result<()> {
    for size in SIZES {
        let text = repeated(rt.alloc(), part, size)?;
        measure(rt, kind, &text)?;
    }
    Ok(())
}

/// The best of some runs of each.
fn measure(rt: &(impl Print + CpuClock + AllocGlobal), kind: &str, text: &[u8]) -> Result<()> {
    let mut reading = u128::MAX;
    let mut printing = u128::MAX;
    for _ in 0..RUNS {
        let (read, printed) = run(rt, text)?;
        reading = reading.min(read);
        printing = printing.min(printed);
    }
    let len = text.len();
    rt.println(format_args!("{kind:>10} {len:>8} {reading:>8} {printing:>8}"))?;
    Ok(())
}

fn run(rt: &(impl CpuClock + AllocGlobal), text: &[u8]) -> Result<(u128, u128)> {
    if text.len() > MOST_BYTES {
        bail!("the text is too long");
    }
    let begun = rt.process_cpu_time()?;
    let Ok(trees) = read(rt.alloc(), text) else {
        bail!("the text is not read");
    };
    let was_read = rt.process_cpu_time()?;
    let Ok(printed) = print(rt.alloc(), trees.as_slice()) else {
        bail!("the trees are not printed");
    };
    let was_printed = rt.process_cpu_time()?;
    Ok((
        each(was_read, begun, text.len()),
        each(was_printed, was_read, printed.len()),
    ))
}

/// Picoseconds a byte.
fn each(end: Duration, begun: Duration, len: usize) -> u128 {
    let spent = end.saturating_sub(begun).as_nanos();
    match len {
        0 => 0,
        _ => spent.saturating_mul(1000) / len as u128,
    }
}

/// Whole parts, as many as fit in this many bytes.
fn repeated(alloc: Global, part: &[u8], size: usize) -> Result<Vec<u8>, AllocError> {
    let mut text = Vec::new(alloc);
    for _ in 0..size / part.len().max(1) {
        text.extend_from_slice(part)?;
    }
    Ok(text)
}

/// As many lists in one another as there may be.
fn nested(alloc: Global) -> Result<Vec<u8>, AllocError> {
    let mut text = vec![in alloc; b'('; 256]?;
    text.resize(512, b')')?;
    Ok(text)
}
