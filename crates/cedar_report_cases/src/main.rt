//! `cedar-report-cases`: reads the files of cases that its arguments name, makes each case's
//! report, and writes how many cases agree and what each other one wants and gets.
#![tactic(auto)]

mod calls;
mod judge;
mod signs;

use std::{env, fs, io};

fn main(rt: HostRuntime) -> io::Result<()> {
    for name in env::args(&rt)?.skip(1) {
        let source = fs::read_to_string(&rt, name.as_str())?;
        let judge = judge::judge_file(rt.alloc(), source.as_str())?;
        println!(rt; "{name}: {judge}")?;
    }
    Ok(())
}
