//! What a layout keeps, found without its contract: at several widths, how many words there are
//! and each character that isn't white space; and a second run's answer.

use crate::verdict::Verdict;
use cedar_layout::{LayoutError, LayoutOptions, lay_out};
use cedar_lexer::lexer::Lexer;
use std::alloc::{AllocError, Global};

/// The widths at which each text is tried.
const WIDTHS: [usize; 4] = [1, 20, 80, 10_000];

/// The text laid out, or why it isn't.
pub(crate) fn laid(
    alloc: Global,
    text: &str,
    options: &LayoutOptions,
) -> Result<String, AllocError> {
    match lay_out(alloc, text, options) {
        Ok(out) => Ok(out),
        Err(LayoutError::InvalidToken(bad)) => { format!(in alloc; "bad place: {}", bad.location) }
        Err(LayoutError::Memory(refused)) => Err(refused),
    }
}

/// Compares a text with its layout at each width, and the layout with that of a second run.
pub(crate) fn judge_kept(
    alloc: Global,
    verdict: &mut Verdict,
    case: &str,
    text: &str,
) -> Result<(), AllocError> {
    let seen = seen_of(alloc, text)?;
    for width in WIDTHS {
        let options = LayoutOptions {
            width,
            ..LayoutOptions::default()
        };
        let once = laid(alloc, text, &options)?;
        let again = laid(alloc, once.as_str(), &options)?;
        verdict.compare(case, once.as_str(), again.as_str())?;
        let kept = seen_of(alloc, once.as_str())?;
        verdict.compare(case, seen.as_str(), kept.as_str())?;
    }
    Ok(())
}

/// How many words a text has, and what of it is no white space.
fn seen_of(alloc: Global, text: &str) -> Result<String, AllocError> {
    let words = Lexer::new(text).count();
    let mut seen = format!(in alloc; "{words} words: ")?;
    for c in text.chars() {
        if !c.is_whitespace() {
            seen.push(c)?;
        }
    }
    Ok(seen)
}
