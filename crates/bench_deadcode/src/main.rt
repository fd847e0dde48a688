//! How long a pass takes for a function. One word names the kind of the function, and the next the
//! pass. Without words it does nothing; `bench/deadcode` gives them one after the other.
#![tactic(auto)]

mod bodies;

ghost use Rattle.br_flatimp.specs.WellFormed.{IsWellFormed};

use anyhow::{Result, bail};
use bodies::body_of;
use br_base::Name;
use br_deadcode::remove_dead;
use br_flatimp::{FlatFunc, FlatProgram, Stmt, well_formed};
use br_immediates::use_immediates;
use br_live::{live_after, names_are_below};
use sqlite_items::Items;
use std::alloc::Global;
use std::env;
use std::time::{CpuClock, Duration};

fn main(rt: HostRuntime) -> Result<()> {
    let mut words = env::args(&rt)?;
    let Some(kind) = words.nth(1) else {
        return Ok(());
    };
    let Some(pass) = words.next() else {
        bail!("no pass");
    };
    let Some((names, body)) = body_of(rt.alloc(), kind.as_str())? else {
        bail!("no such kind");
    };
    measure(&rt, pass.as_str(), names, body)
}

/// Prints how many milliseconds a pass takes for a function with an argument 0 and a result 1, and
/// how many statements and names the function has.
fn measure(
    rt: &(impl Print + CpuClock + AllocGlobal),
    pass: &str,
    names: u32,
    body: Items<Stmt>,
) -> Result<()> {
    let alloc = rt.alloc();
    let Some(name) = Name::from_bytes(Vec::from_slice(alloc, b"f")?) else {
        bail!("no name");
    };
    let statements = count(body.as_slice());
    let mut funcs = Items::new(alloc);
    funcs.push(FlatFunc {
        name,
        args: Items::from_slice(alloc, &[0])?,
        results: Items::from_slice(alloc, &[1])?,
        names,
        body,
    })?;
    let p = FlatProgram { funcs };
    if !well_formed(&p) {
        bail!("not well formed");
    }
    let taken = spent(rt, pass, p)?.as_millis();
    rt.println(format_args!("{taken} {statements} {names}"))?;
    Ok(())
}

/// How many statements there are, those in parts of others counted.
#[cycle(count)]
fn count(body: &[Stmt]) -> usize {
    let mut total = 0usize;
    for s in body {
        total = total.saturating_add(1).saturating_add(within(s));
    }
    total
}

/// How many statements stand in the parts of one.
#[cycle(count)]
fn within(s: &Stmt) -> usize {
    match s {
        Stmt::Stackalloc(_, _, body) => count(body.as_slice()),
        Stmt::If(_, first, second) | Stmt::Loop(first, _, second) => {
            count(first.as_slice()).saturating_add(count(second.as_slice()))
        }
        _ => 0,
    }
}

/// The processor time of a pass.
fn spent(rt: &(impl CpuClock + AllocGlobal), pass: &str, p: FlatProgram) -> Result<Duration>
    requires { IsWellFormed p.funcs }
{
    let alloc = rt.alloc();
    let start = rt.process_cpu_time()?;
    match pass.as_bytes() {
        b"immediates" => {
            let Ok(_made) = use_immediates(alloc, p) else {
                bail!("no memory");
            };
        }
        b"live" => make_table(alloc, &p)?,
        b"dead" => {
            let Ok(_left) = remove_dead(alloc, p) else {
                bail!("no memory");
            };
        }
        _ => bail!("no such pass"),
    }
    Ok(rt.process_cpu_time()?.saturating_sub(start))
}

/// Makes the table of the only function.
fn make_table(alloc: Global, p: &FlatProgram) -> Result<()>
    requires { IsWellFormed p.now.funcs }
{
    names_are_below();
    let [f] = p.funcs.as_slice() else {
        bail!("not one function");
    };
    let Ok(_table) = live_after(alloc, f) else {
        bail!("no memory");
    };
    Ok(())
}
