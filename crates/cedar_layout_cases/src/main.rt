//! `cedar-layout-cases`: judges the files that its arguments name, and writes how many cases of
//! each agree, and what each other one wants and gets.
//!
//! A name that ends with `.pairs` is a table of pairs of words; any other stands for a text
//! `NAME.before`, and `NAME.after` is what it has to be laid out as.
#![tactic(auto)]

mod kept;
mod pairs;
mod verdict;
mod whole;

use crate::pairs::judge_pairs;
use crate::whole::judge_file;
use std::{env, fs, io};

fn main(rt: HostRuntime) -> io::Result<()> {
    for name in env::args(&rt)?.skip(1) {
        let verdict = if name.as_str().ends_with(".pairs") {
            let table = fs::read_to_string(&rt, name.as_str())?;
            judge_pairs(rt.alloc(), table.as_str())?
        } else {
            let from = format!(in rt.alloc(); "{name}.before")?;
            let to = format!(in rt.alloc(); "{name}.after")?;
            let before = fs::read_to_string(&rt, from.as_str())?;
            let after = fs::read_to_string(&rt, to.as_str())?;
            judge_file(rt.alloc(), before.as_str(), after.as_str())?
        };
        println!(rt; "{name}: {verdict}")?;
    }
    Ok(())
}
