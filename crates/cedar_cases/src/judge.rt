//! Judges the cases of a file: what each call gives is compared with what its case wants.
//!
//! A line behind `>> ` names the call of the cases below it, with words of its own behind the
//! name. A case is a text, in lines, and behind it, each behind `=> `, the lines that the call has
//! to give; an empty line ends it. Lines that begin with `#` are for the reader. The beginnings of
//! the text are tried too, it is laid out over lines, and what it means is written and read again,
//! without a line that says so; behind `>> whole ` the call alone is tried.

use crate::beginnings::try_beginnings;
use crate::calls::answer;
use crate::escapes::unescape;
use crate::laid::lays_out;
use crate::reports::add_line;
use crate::written::writes;
use std::alloc::{AllocError, Global};
use std::fmt;

/// How a file's cases went, and what is read of the next one.
#[derive(Drop)]
pub(crate) struct Judge {
    /// What stands behind the last `>> `, or behind the last `>> whole `.
    call: String,
    /// Whether it was that, so that the call alone is tried.
    is_whole: bool,
    text: Option<String>,
    wanted: Option<String>,
    agreeing: u64,
    differing: u64,
    /// How many beginnings of texts went as they have to.
    beginnings: u64,
    /// How many didn't.
    astray: u64,
    /// What is said of the cases that don't agree, and of the beginnings that went astray.
    told: String,
}

/// How many cases agree, and how many beginnings of their texts do; where some don't, how many
/// those are, and each of them.
impl fmt::Display for Judge {
    fn fmt<W: fmt::Write>(&self, f: &mut fmt::Formatter<W>) -> fmt::Result {
        write!(
            f,
            "{} agree, and {} beginnings",
            self.agreeing, self.beginnings
        )?;
        if self.told.is_empty() {
            return Ok(());
        }
        write!(
            f,
            "; {} differ, and {} beginnings{}",
            self.differing, self.astray, self.told
        )
    }
}

/// Judges all cases of a file.
pub(crate) fn judge_file(alloc: Global, source: &str) -> Result<Judge, AllocError> {
    let mut judge = Judge {
        call: String::new(alloc),
        is_whole: false,
        text: None,
        wanted: None,
        agreeing: 0,
        differing: 0,
        beginnings: 0,
        astray: 0,
        told: String::new(alloc),
    };
    for line in source.lines() {
        judge.read(alloc, line)?;
    }
    judge.finish(alloc)?;
    Ok(judge)
}

impl Judge {
    /// Reads a line.
    fn read(&mut self, alloc: Global, line: &str) -> Result<(), AllocError> {
        if line.is_empty() {
            return self.finish(alloc);
        }
        if let Some(call) = line.strip_prefix(">> ") {
            let named = call.strip_prefix("whole ");
            self.is_whole = named.is_some();
            self.call = String::from_str(alloc, named.unwrap_or(call))?;
            return Ok(());
        }
        if let Some(wanted) = line.strip_prefix("=>") {
            let wanted = wanted.strip_prefix(" ").unwrap_or(wanted);
            return add(alloc, &mut self.wanted, wanted);
        }
        if line.starts_with('#') {
            return Ok(());
        }
        add(alloc, &mut self.text, line)
    }

    /// Judges what was read of a case, if anything was.
    fn finish(&mut self, alloc: Global) -> Result<(), AllocError> {
        match (self.text.take(), self.wanted.take()) {
            (None, None) => Ok(()),
            (text, wanted) => {
                let text = text.unwrap_or(String::new(alloc));
                let wanted = wanted.unwrap_or(String::new(alloc));
                self.judge(alloc, text.as_str(), wanted.as_str())
            }
        }
    }

    /// Makes the call, and compares; then for all beginnings of the text.
    fn judge(&mut self, alloc: Global, text: &str, wanted: &str) -> Result<(), AllocError> {
        self.compare(alloc, text, wanted)?;
        if self.is_whole {
            return Ok(());
        }
        let went = try_beginnings(alloc, self.call.as_str(), text, wanted)?;
        self.beginnings = self
            .beginnings
            .saturating_add(went.tried.saturating_sub(went.astray));
        self.astray = self.astray.saturating_add(went.astray);
        self.told.push_str(went.told.as_str())
    }

    fn compare(&mut self, alloc: Global, text: &str, wanted: &str) -> Result<(), AllocError> {
        let mut given = answer(alloc, self.call.as_str(), text)?;
        if !self.is_whole {
            lays_out(alloc, &mut given, text)?;
            writes(alloc, &mut given, self.call.as_str(), text)?;
        }
        if given.as_str() == wanted {
            self.agreeing = self.agreeing.saturating_add(1);
            return Ok(());
        }
        self.differing = self.differing.saturating_add(1);
        let call = self.call.as_str();
        let told = format!(in alloc; "\n\n>> {call}\n{text}\nwanted:\n{wanted}\ngiven:\n{given}")?;
        self.told.push_str(told.as_str())
    }
}

/// Puts what a line stands for behind the lines that are there.
fn add(alloc: Global, lines: &mut Option<String>, line: &str) -> Result<(), AllocError> {
    let line = match unescape(alloc, line)? {
        Some(text) => text,
        None => format!(in alloc; "no such escape: {line}")?,
    };
    match lines {
        Some(text) => add_line(text, line.as_str()),
        None => {
            *lines = Some(line);
            Ok(())
        }
    }
}
