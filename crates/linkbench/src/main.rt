// Runs scripts of calls on links, from standard input or from files, and prints each answer.
#![tactic(auto)]

mod acting;
mod bench;
mod chosen;
mod source;
mod trouble;

use bench::Bench;
use source::Source;
use std::io::{BufReader, Read};
use std::process::ExitCode;
use std::{env, fs};
use trouble::Trouble;

fn run_script(rt: &HostRuntime, reader: impl Read + Drop) -> Result<(), Trouble> {
    let reader = BufReader::new(rt.alloc(), reader)?;
    Bench::new(rt, Source::new(rt.alloc(), reader)).run()
}

fn run_file(rt: &HostRuntime, name: &str) -> Result<(), Trouble> {
    println!(rt; "== {name}")?;
    run_script(rt, fs::open(rt, name)?)
}

// Runs standard input; what ends the run early is told.
fn run_input(rt: &HostRuntime) -> Result<(), Trouble> {
    let ran = run_script(rt, rt.stdin());
    if let Err(trouble) = &ran {
        eprintln!(rt; "{trouble}")?;
    }
    ran
}

// Runs a file; what ends the run early is told with the file's name.
fn run_named(rt: &HostRuntime, name: &str) -> Result<(), Trouble> {
    let ran = run_file(rt, name);
    if let Err(trouble) = &ran {
        eprintln!(rt; "{name}: {trouble}")?;
    }
    ran
}

fn run(rt: &HostRuntime) -> Result<(), Trouble> {
    let mut names = env::args(rt)?;
    let _program = names.next();
    if names.len() == 0 {
        return run_input(rt);
    }
    for name in names {
        run_named(rt, name.as_str())?;
    }
    Ok(())
}

// What ended the run early was told already.
fn main(rt: HostRuntime) -> ExitCode {
    match run(&rt) {
        Ok(()) => ExitCode::SUCCESS,
        Err(_) => ExitCode::FAILURE,
    }
}
