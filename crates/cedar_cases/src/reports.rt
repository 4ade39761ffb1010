//! What is told of a call, line by line.

use cedar_syntax::TryClone;
use std::alloc::{AllocError, Global};
use std::fmt::Display;

/// Puts a line behind those that are there, be it an empty one.
pub(crate) fn add_line(lines: &mut String, line: &str) -> Result<(), AllocError> {
    lines.push('\n')?;
    lines.push_str(line)
}

/// Puts a line behind those that are there, or as the first one.
pub(crate) fn add(lines: &mut String, line: &str) -> Result<(), AllocError> {
    if lines.is_empty() {
        return lines.push_str(line);
    }
    add_line(lines, line)
}

/// The value's text; a line more where it is another under `{:#}`, or where a copy isn't equal.
pub(crate) fn report<T: Display + TryClone + Clone + PartialEq + Drop>(
    alloc: Global,
    value: &T,
) -> Result<String, AllocError> {
    let mut lines = format!(in alloc; "{value}")?;
    let alternate = format!(in alloc; "{value:#}")?;
    if alternate != lines {
        add(&mut lines, "under {:#} it is:")?;
        add(&mut lines, alternate.as_str())?;
    }
    copies(&mut lines, value)?;
    Ok(lines)
}

/// Puts a line behind those that are there where a copy of the value isn't equal to it.
pub(crate) fn copies<T: TryClone + Clone + PartialEq + Drop>(
    lines: &mut String,
    value: &T,
) -> Result<(), AllocError> {
    if !is_copied(value)? {
        add(lines, "a copy by `try_clone` differs")?;
    }
    if !is_cloned(value)? {
        add(lines, "a copy by `clone` differs")?;
    }
    Ok(())
}

/// Whether a copy equals its source.
fn is_copied<T: TryClone + PartialEq + Drop>(value: &T) -> Result<bool, AllocError> {
    let copy = value.try_clone()?;
    Ok(copy == *value)
}

/// Whether a clone equals its source.
fn is_cloned<T: Clone + PartialEq + Drop>(value: &T) -> Result<bool, AllocError> {
    let copy = value.clone()?;
    Ok(copy == *value)
}
