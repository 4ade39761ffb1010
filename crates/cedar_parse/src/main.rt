//! `cedar-parse`: reads a Cedar text from standard input and prints what the parser makes of it,
//! or its faults.
#![tactic(auto)]

use cedar_command::run;
use cedar_command::streams::{Input, Output};
use std::io::BufWriter;
use std::process::ExitCode;

fn main(rt: HostRuntime) -> ExitCode {
    ExitCode::from(on_streams(&rt))
}

/// Runs on the process's arguments and streams, and answers the status.
fn on_streams(rt: &HostRuntime) -> u8 {
    let alloc = rt.alloc();
    let mut err = Output::new(rt.stderr());
    let words = match run::arguments(rt) {
        Ok(words) => words,
        Err(error) => return run::refuse_arguments(error, &mut err),
    };
    match BufWriter::new(alloc, rt.stdout()) {
        Ok(writer) => {
            let mut input = Input::new(rt.stdin());
            let mut out = Output::new(writer);
            run::run(alloc, words.as_slice(), &mut input, &mut out, &mut err)
        }
        Err(_) => run::refuse(&mut err),
    }
}
