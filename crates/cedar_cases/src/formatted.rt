//! The formatter: what it gives for a text, and what has to hold of it for each text of a set.

use crate::conversions::same;
use crate::faults::{Told, tell_failure};
use crate::reports::add;
use crate::tables::styles;
use cedar_policy_parser::formatter::format_policies;
use cedar_policy_parser::{ExtStyles, parse_policyset};
use cedar_policy_store::PolicySet;
use std::alloc::{AllocError, Global};

/// The text's policies in lines, or its faults.
pub(crate) fn answer(alloc: Global, words: &str, text: &str) -> Result<String, AllocError> {
    let styles = styles(alloc, words)?;
    let lines = in_lines(alloc, text, &styles);
    drop(styles);
    lines
}

fn in_lines(alloc: Global, text: &str, styles: &ExtStyles) -> Result<String, AllocError> {
    match format_policies(alloc, text, styles) {
        Ok(lines) => Ok(lines),
        Err(failure) => tell_failure(alloc, Told::Message, failure),
    }
}

/// Puts a line behind those that are there where a text that means a set isn't formatted to lines
/// that mean the same set and that are formatted to themselves, or where one that means none has
/// other faults for the formatter.
pub(crate) fn formats(
    alloc: Global,
    lines: &mut String,
    text: &str,
    styles: &ExtStyles,
) -> Result<(), AllocError> {
    let formatted = in_lines(alloc, text, styles)?;
    let once = parse_policyset(alloc, text, styles);
    let twice = parse_policyset(alloc, formatted.as_str(), styles);
    let told = same::<PolicySet>(alloc, once, twice)?;
    if told.as_str() != "the same" {
        return match told == formatted {
            true => Ok(()),
            false => add(lines, "formatted it means another set, or has other faults"),
        };
    }
    let again = in_lines(alloc, formatted.as_str(), styles)?;
    match again == formatted {
        true => Ok(()),
        false => add(lines, "formatted again it differs"),
    }
}
