//! `cedar-cases`: reads the files of cases that its arguments name, makes each case's call, and
//! writes how many cases agree and what each other one wants and gets.
#![tactic(auto)]

mod beginnings;
mod calls;
mod conversions;
mod counted;
mod escapes;
mod faults;
mod formatted;
mod judge;
mod kept;
mod laid;
mod nested;
mod parts;
mod policies;
mod policy_parts;
mod reports;
mod runs;
mod tables;
mod texts;
mod trees;
mod values;
mod written;

use std::{env, fs, io};

fn main(rt: HostRuntime) -> io::Result<()> {
    for name in env::args(&rt)?.skip(1) {
        let source = fs::read_to_string(&rt, name.as_str())?;
        let judge = judge::judge_file(rt.alloc(), source.as_str())?;
        println!(rt; "{name}: {judge}")?;
    }
    Ok(())
}
