//! The program `brc`: standard input, standard output, standard error and the words of the command
//! line are handed to the top call, whose status it exits with.
#![tactic(auto)]

use br_base::{NoMemory, Status, StdSink, StdSource};
use br_top::tool;
use std::env;
use std::process::ExitCode;

fn main(rt: HostRuntime) -> ExitCode {
    let status = match words(&rt) {
        Ok(words) => tool(
            rt.alloc(),
            &words,
            &mut StdSource::new(rt.stdin()),
            &mut StdSink::new(rt.stdout()),
            &mut StdSink::new(rt.stderr()),
        ),
        Err(NoMemory) => Status::NoMemory,
    };
    ExitCode::from(status.code())
}

// The words of the command line, without the program's own name.
fn words(rt: &HostRuntime) -> Result<Vec<String>, NoMemory> {
    let words = env::args(rt).map_err(|_| NoMemory)?;
    Ok(words.skip(1).collect(rt.alloc())?)
}
