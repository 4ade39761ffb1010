//! `cedar`: tells what is wrong in policies, lists them, and lays them out.
#![tactic(auto)]

use cedar_tool::disk::Filesystem;
use cedar_tool::run::{self, Texts};
use cedar_tool::streams::{Console, Input, Output};
use std::env;
use std::io::{BufWriter, IsTerminal};
use std::process::ExitCode;

fn main(rt: HostRuntime) -> ExitCode {
    ExitCode::from(on_process(&rt))
}

/// Runs on the process's arguments, files and streams, and answers the status.
fn on_process(rt: &HostRuntime) -> u8 {
    let alloc = rt.alloc();
    let mut errors = Output::new(rt.stderr());
    let words = match run::arguments(rt) {
        Ok(words) => words,
        Err(error) => return run::refuse_arguments(error, &mut errors),
    };
    let Ok(writer) = BufWriter::new(alloc, rt.stdout()) else {
        return run::refuse_run(&mut errors);
    };
    let mut console = Console {
        output: Output::new(writer),
        errors,
        is_terminal: rt.stderr().is_terminal() && env::var(rt, "NO_COLOR").is_err(),
    };
    let mut texts = Texts {
        input: Input::new(rt.stdin()),
        disk: Filesystem::new(rt),
    };
    run::run(alloc, words.as_slice(), &mut texts, &mut console)
}
