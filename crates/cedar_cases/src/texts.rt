//! The calls on texts without a tree: tokens, how deep they nest, escapes, identifiers, and what
//! is told of kinds that were expected.

use crate::kept::tell_extended;
use crate::reports::{add, copies};
use crate::values::write_pattern;
use cedar_expressions::{AnyId, Id, Text, UnreservedId};
use cedar_lexer::lexer::Lexer;
use cedar_syntax::cst::Policies;
use cedar_syntax::err::{
    RawFault, ToCSTError, UnescapeError, UnescapeFailure, expected_to_string, policy_token_config,
};
use cedar_text::nesting;
use cedar_text::unescape::{to_pattern, to_unescaped_string};
use std::alloc::{AllocError, Global};
use std::rc::RcStr;

/// The calls that there are.
#[derive(Clone, Copy)]
pub(crate) enum TextCall {
    Lexer,
    Nesting,
    UnescapedString,
    Pattern,
    Identifiers,
    Expected,
    HelpOfInvalidToken,
    Extend,
}

/// What a call gives for a text.
pub(crate) fn answer(alloc: Global, call: TextCall, text: &str) -> Result<String, AllocError> {
    match call {
        TextCall::Lexer => tokens(alloc, text),
        TextCall::Nesting => format!(in alloc; "{}", nesting(text)),
        TextCall::UnescapedString => unescaped_string(alloc, text),
        TextCall::Pattern => pattern(alloc, text),
        TextCall::Identifiers => identifiers(alloc, text),
        TextCall::Expected => tell_expected(alloc, text),
        TextCall::HelpOfInvalidToken => help_of_invalid_token(alloc, text),
        TextCall::Extend => tell_extended::<Policies>(alloc, text),
    }
}

/// A line for each token: its bytes, its kind's name and its text; and one for the bad place, if
/// there is one. Behind them nothing comes, however often it is asked.
fn tokens(alloc: Global, text: &str) -> Result<String, AllocError> {
    let mut lines = String::new(alloc);
    let mut lexer = Lexer::new(text);
    while let Some(answer) = lexer.next() {
        let line = match answer {
            Ok(token) => {
                let (start, end, name) = (token.start, token.end, token.kind.name());
                format!(in alloc; "{start}..{end}: {name} {}", token.text)
            }
            Err(invalid) => format!(in alloc; "{}: no token", invalid.location),
        };
        add(&mut lines, line?.as_str())?;
    }
    if lexer.next().is_some() || lexer.next().is_some() {
        add(&mut lines, "a token behind the last one")?;
    }
    Ok(lines)
}

/// The text that a raw text stands for, or its faults.
fn unescaped_string(alloc: Global, raw: &str) -> Result<String, AllocError> {
    match to_unescaped_string(alloc, raw) {
        Ok(text) => Ok(text),
        Err(failure) => escape_faults(alloc, raw, failure),
    }
}

/// The pattern that a raw text stands for, or its faults.
fn pattern(alloc: Global, raw: &str) -> Result<String, AllocError> {
    match to_pattern(alloc, raw) {
        Ok(pattern) => {
            let mut text = String::new(alloc);
            write_pattern(pattern.as_slice(), &mut text)?;
            Ok(text)
        }
        Err(failure) => escape_faults(alloc, raw, failure),
    }
}

fn escape_faults(alloc: Global, raw: &str, failure: UnescapeFailure) -> Result<String, AllocError> {
    let mut lines = String::new(alloc);
    match &failure {
        UnescapeFailure::Memory(error) => return Err(*error),
        UnescapeFailure::Errors(faults) => {
            for fault in faults.iter() {
                add_escape_fault(alloc, &mut lines, raw, fault)?;
            }
        }
    }
    copies(&mut lines, &failure)?;
    drop(failure);
    Ok(lines)
}

/// Puts a line for a fault behind those that are there: its bytes, its kind and its message.
fn add_escape_fault(
    alloc: Global,
    lines: &mut String,
    raw: &str,
    fault: &UnescapeError,
) -> Result<(), AllocError> {
    let (range, kind) = (fault.range(), fault.kind());
    let line = format!(in alloc; "{}..{}: {kind:?}: {fault}", range.start, range.end)?;
    add(lines, line.as_str())?;
    if fault.input() != raw {
        add(lines, "a fault of another text")?;
    }
    Ok(())
}

/// The types of identifiers that a text is.
fn identifiers(alloc: Global, text: &str) -> Result<String, AllocError> {
    let mut types = String::new(alloc);
    if let Some(any) = AnyId::new(Text::from_str(alloc, text)?) {
        types.push_str("AnyId")?;
        copies(&mut types, &any)?;
    }
    if let Some(id) = Id::new(Text::from_str(alloc, text)?) {
        types.push_str(" Id")?;
        copies(&mut types, &id)?;
        if let Ok(unreserved) = UnreservedId::try_from(id) {
            types.push_str(" UnreservedId")?;
            copies(&mut types, &unreserved)?;
        }
    }
    Ok(types)
}

/// What is said of expected kinds, of which the text has the names with a space between two.
fn tell_expected(alloc: Global, text: &str) -> Result<String, AllocError> {
    let mut names = Vec::new(alloc);
    for name in text.split(' ') {
        if !name.is_empty() {
            names.push(name)?;
        }
    }
    let config = policy_token_config(alloc)?;
    let said = expected_to_string(alloc, names.as_slice(), &config)?;
    drop(config);
    or_none(alloc, said)
}

/// The hint of the fault that no token begins in a text at a place, whose number stands before the
/// text.
fn help_of_invalid_token(alloc: Global, text: &str) -> Result<String, AllocError> {
    let Some((location, text)) = text.split_once(' ') else {
        return String::from_str(alloc, "one word");
    };
    let Ok(location) = location.parse() else {
        return String::from_str(alloc, "no number");
    };
    let raw = RawFault::InvalidToken { location };
    let fault = ToCSTError::new(raw, RcStr::from_str(alloc, text)?);
    let help = fault.help(alloc);
    drop(fault);
    or_none(alloc, help?)
}

/// The text, or `None`.
fn or_none(alloc: Global, text: Option<String>) -> Result<String, AllocError> {
    match text {
        Some(text) => Ok(text),
        None => String::from_str(alloc, "None"),
    }
}
