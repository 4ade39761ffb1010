//! Judges the cases of a file: what a report writes is compared with what its case wants.
//!
//! A line behind `>> ` names how the reports of the cases below it are written. A case is a text, in
//! lines, and behind it, each behind `=> `, the lines that have to be written; an empty line ends
//! it. Lines that begin with `#` are for the reader, and so a text's line that does begins with
//! `$[23]`.

use crate::calls::written;
use crate::signs::shown;
use std::alloc::{AllocError, Global};
use std::fmt;

/// How a file's cases went, and what is read of the next one.
#[derive(Drop)]
pub(crate) struct Judge {
    /// What stands behind the last `>> `.
    call: String,
    text: Option<String>,
    wanted: Option<String>,
    agreeing: u64,
    differing: u64,
    /// What is said of the cases that don't agree.
    told: String,
}

/// How many cases agree; where some don't, how many those are, and each of them.
impl fmt::Display for Judge {
    fn fmt<W: fmt::Write>(&self, f: &mut fmt::Formatter<W>) -> fmt::Result {
        write!(f, "{} agree", self.agreeing)?;
        if self.told.is_empty() {
            return Ok(());
        }
        write!(f, "; {} differ{}", self.differing, self.told)
    }
}

/// Judges all cases of a file.
pub(crate) fn judge_file(alloc: Global, source: &str) -> Result<Judge, AllocError> {
    let mut judge = Judge {
        call: String::new(alloc),
        text: None,
        wanted: None,
        agreeing: 0,
        differing: 0,
        told: String::new(alloc),
    };
    for line in source.lines() {
        judge.read(alloc, line)?;
    }
    judge.finish(alloc)?;
    Ok(judge)
}

impl Judge {
    /// Reads a line.
    fn read(&mut self, alloc: Global, line: &str) -> Result<(), AllocError> {
        if line.is_empty() {
            return self.finish(alloc);
        }
        if let Some(call) = line.strip_prefix(">> ") {
            self.call = String::from_str(alloc, call)?;
            return Ok(());
        }
        if let Some(wanted) = line.strip_prefix("=>") {
            let wanted = wanted.strip_prefix(" ").unwrap_or(wanted);
            return add(alloc, &mut self.wanted, wanted);
        }
        if line.starts_with('#') {
            return Ok(());
        }
        add(alloc, &mut self.text, line)
    }

    /// Judges what was read of a case, if anything was.
    fn finish(&mut self, alloc: Global) -> Result<(), AllocError> {
        match (self.text.take(), self.wanted.take()) {
            (None, None) => Ok(()),
            (text, wanted) => {
                let text = text.unwrap_or(String::new(alloc));
                let wanted = wanted.unwrap_or(String::new(alloc));
                self.compare(alloc, text.as_str(), wanted.as_str())
            }
        }
    }

    fn compare(&mut self, alloc: Global, text: &str, wanted: &str) -> Result<(), AllocError> {
        let given = written(alloc, self.call.as_str(), text)?;
        if given.as_str().trim_end() == wanted {
            self.agreeing = self.agreeing.saturating_add(1);
            return Ok(());
        }
        self.differing = self.differing.saturating_add(1);
        let call = self.call.as_str();
        let told = format!(in alloc; "\n\n>> {call}\n{text}\nwanted:\n{wanted}\ngiven:\n{given}")?;
        self.told.push_str(told.as_str())
    }
}

/// Puts what a line stands for behind the lines that are there.
fn add(alloc: Global, lines: &mut Option<String>, line: &str) -> Result<(), AllocError> {
    let line = shown(alloc, line)?;
    match lines {
        Some(text) => {
            text.push('\n')?;
            text.push_str(line.as_str())
        }
        None => {
            *lines = Some(line);
            Ok(())
        }
    }
}
