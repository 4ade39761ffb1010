//! Pairs of words, with each kind of gap and comment between them.
//!
//! A row of the table is two words, `together` or `apart`, and how deep the second stands where a
//! comment stands between the two. Both stand in the body of a condition. A line that begins with
//! `#` is for the reader.

use crate::kept::{judge_kept, laid};
use crate::verdict::Verdict;
use cedar_layout::LayoutOptions;
use std::alloc::{AllocError, Global};

/// Two words of a condition's body.
#[derive(Clone, Copy)]
struct Pair<'a> {
    first: &'a str,
    second: &'a str,
    /// What stands between them on a line.
    joint: &'a str,
    /// The spaces before the second word where it begins a line.
    depth: &'a str,
}

/// What stands between two words without a comment.
const GAPS: [&str; 8] = [
    " ",
    "  \t",
    "\n",
    "\n\n\n",
    "\r\n",
    "\r",
    " \u{b}\u{c} ",
    "\u{a0}\n",
];

/// What stands between two words with a comment or two, and what is to stand there: behind the
/// first word, and, where a comment has a line of its own, behind that line's depth.
const COMMENTS: [(&str, &str, &str); 7] = [
    (" //c\n", " //c\n", ""),
    (" \t// c d \t\n\t", " // c d\n", ""),
    (" // c\r\n", " // c\n", ""),
    (" // c\r", " // c\n", ""),
    ("\n// c\n", "\n", "// c\n"),
    ("\n\n// c\n\n\n", "\n\n", "// c\n\n"),
    (" // b\n // c\n", " // b\n", "// c\n"),
];

/// Judges all rows of a table.
pub(crate) fn judge_pairs(alloc: Global, table: &str) -> Result<Verdict, AllocError> {
    let mut verdict = Verdict::new(alloc);
    for line in table.lines() {
        if !line.starts_with('#') {
            if let Some(pair) = pair_of(line) {
                judge_pair(alloc, &mut verdict, line, pair)?;
            } else {
                verdict.compare(line, "a pair", "no pair")?;
            }
        }
    }
    Ok(verdict)
}

fn pair_of(line: &str) -> Option<Pair<'_>> {
    let mut parts = line.split_whitespace();
    let first = parts.next()?;
    let second = parts.next()?;
    let joint = match parts.next()? {
        "together" => "",
        "apart" => " ",
        _ => return None,
    };
    let depth = match parts.next()? {
        "2" => "  ",
        "4" => "    ",
        _ => return None,
    };
    Some(Pair {
        first,
        second,
        joint,
        depth,
    })
}

fn judge_pair(
    alloc: Global,
    verdict: &mut Verdict,
    row: &str,
    pair: Pair<'_>,
) -> Result<(), AllocError> {
    let Pair {
        first,
        second,
        joint,
        depth,
    } = pair;
    let flat = format!(in alloc; "when {{ {first}{joint}{second} }}\n")?;
    for gap in GAPS {
        let text = format!(in alloc; "when{{{first}{gap}{second}}}")?;
        judge(alloc, verdict, row, text.as_str(), flat.as_str())?;
    }
    for (gap, beside, below) in COMMENTS {
        let text = format!(in alloc; "when{{{first}{gap}{second}}}")?;
        let indent = if below.is_empty() { "" } else { depth };
        let between = format!(in alloc; "{beside}{indent}{below}{depth}")?;
        let wanted = format!(in alloc; "when {{\n  {first}{between}{second}\n}}\n")?;
        judge(alloc, verdict, row, text.as_str(), wanted.as_str())?;
    }
    Ok(())
}

fn judge(
    alloc: Global,
    verdict: &mut Verdict,
    row: &str,
    text: &str,
    wanted: &str,
) -> Result<(), AllocError> {
    let given = laid(alloc, text, &LayoutOptions::default())?;
    verdict.compare(row, wanted, given.as_str())?;
    judge_kept(alloc, verdict, row, text)
}
