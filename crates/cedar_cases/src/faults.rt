//! Faults, as text.

use crate::reports::{add, copies};
use cedar_syntax::err::{Failure, ParseError, ToASTErrorKind, ToCSTError};
use std::alloc::{AllocError, Global};

/// How much is told of a fault of a text.
#[derive(Clone, Copy)]
pub(crate) enum Told {
    /// Its place and its message.
    Message,
    /// Also its label, its hint and the kinds that were expected, as far as there are any.
    All,
}

/// The faults of a failure, in lines; each begins with one for its place and message. Want of
/// memory is answered as that.
pub(crate) fn tell_failure(
    alloc: Global,
    told: Told,
    failure: Failure,
) -> Result<String, AllocError> {
    let lines = faults_of(alloc, told, &failure);
    drop(failure);
    lines
}

fn faults_of(alloc: Global, told: Told, failure: &Failure) -> Result<String, AllocError> {
    let mut lines = String::new(alloc);
    match failure {
        Failure::Memory(error) => return Err(*error),
        Failure::Errors(faults) => {
            for fault in faults {
                add_fault(alloc, told, &mut lines, fault)?;
            }
        }
    }
    copies(&mut lines, failure)?;
    Ok(lines)
}

/// Puts a fault behind the lines that are there.
fn add_fault(
    alloc: Global,
    told: Told,
    lines: &mut String,
    fault: &ParseError,
) -> Result<(), AllocError> {
    let line = match fault.primary_source_span() {
        Some(span) => format!(in alloc; "{}..{}: {fault}", span.offset(), span.end()),
        None => format!(in alloc; "-: {fault}"),
    };
    add(lines, line?.as_str())?;
    match (told, fault) {
        (Told::All, ParseError::ToCST(fault)) => add_expected(alloc, lines, fault),
        (Told::Message, ParseError::ToCST(_)) => Ok(()),
        (Told::Message, ParseError::ToAST(fault)) => add_left_side(alloc, lines, fault.kind()),
        (Told::All, ParseError::ToAST(refused)) => {
            add_left_side(alloc, lines, refused.kind())?;
            add_hints(alloc, lines, fault)
        }
    }
}

/// Puts the label and the hint of a fault, as far as there are any, behind the lines that are
/// there.
fn add_hints(alloc: Global, lines: &mut String, fault: &ParseError) -> Result<(), AllocError> {
    add_indented(alloc, lines, fault.label(alloc)?)?;
    add_indented(alloc, lines, fault.help(alloc)?)
}

/// Puts what is told of a text's fault beside its message behind the lines that are there.
fn add_expected(alloc: Global, lines: &mut String, fault: &ToCSTError) -> Result<(), AllocError> {
    add_indented(alloc, lines, fault.label(alloc)?)?;
    add_indented(alloc, lines, fault.help(alloc)?)?;
    let mut names = String::new(alloc);
    for kind in fault.expected_kinds() {
        names.push(' ')?;
        names.push_str(kind.name())?;
    }
    if names.is_empty() {
        return Ok(());
    }
    let line = format!(in alloc; " {names}")?;
    add(lines, line.as_str())
}

/// Puts a line, if there is one, behind those that are there.
fn add_indented(alloc: Global, lines: &mut String, line: Option<String>) -> Result<(), AllocError> {
    match line {
        Some(line) => {
            let line = format!(in alloc; "  {line}")?;
            add(lines, line.as_str())
        }
        None => Ok(()),
    }
}

/// Puts the left side of an `is` of no type behind the lines that are there: no message shows it.
fn add_left_side(
    alloc: Global,
    lines: &mut String,
    kind: &ToASTErrorKind,
) -> Result<(), AllocError> {
    match kind {
        ToASTErrorKind::InvalidIsType { lhs, .. } => {
            let line = format!(in alloc; "  left of it: {lhs}")?;
            add(lines, line.as_str())
        }
        _ => Ok(()),
    }
}
