//! Values as text: what the writer gives for what a text means, and what has to hold of it for each
//! text that means something.

use crate::faults::{Told, tell_failure};
use crate::reports::add;
use crate::tables::styles;
use cedar_expressions::Expr;
use cedar_policy_parser::{
    ExtStyles, NotWritten, expr_to_cedar, parse_expression, parse_policyset, policyset_to_cedar,
    static_policy_to_cedar, template_to_cedar,
};
use cedar_policy_store::PolicySet;
use cedar_syntax::err::Failure;
use either::Either;
use std::alloc::{AllocError, Global};

/// What a text can mean, and is written as.
pub(crate) trait Meant: PartialEq + Drop + Sized {
    fn read(alloc: Global, text: &str, styles: &ExtStyles) -> Result<Self, Failure>;

    fn write(&self, alloc: Global, styles: &ExtStyles) -> Result<String, NotWritten>;
}

impl Meant for Expr {
    fn read(alloc: Global, text: &str, styles: &ExtStyles) -> Result<Expr, Failure> {
        parse_expression(alloc, text, styles)
    }

    fn write(&self, alloc: Global, styles: &ExtStyles) -> Result<String, NotWritten> {
        expr_to_cedar(alloc, self, styles)
    }
}

impl Meant for PolicySet {
    fn read(alloc: Global, text: &str, styles: &ExtStyles) -> Result<PolicySet, Failure> {
        parse_policyset(alloc, text, styles)
    }

    fn write(&self, alloc: Global, styles: &ExtStyles) -> Result<String, NotWritten> {
        policyset_to_cedar(alloc, self, styles)
    }
}

/// What is written of what a text means, under the table that the words name; or its faults.
pub(crate) fn answer<T: Meant>(
    alloc: Global,
    words: &str,
    text: &str,
) -> Result<String, AllocError> {
    let styles = styles(alloc, words)?;
    let answer = match T::read(alloc, text, &styles) {
        Ok(value) => written::<T>(alloc, &value, &styles),
        Err(failure) => tell_failure(alloc, Told::Message, failure),
    };
    drop(styles);
    answer
}

/// What is written of a value; or why it isn't.
fn written<T: Meant>(alloc: Global, value: &T, styles: &ExtStyles) -> Result<String, AllocError> {
    told(alloc, value.write(alloc, styles))
}

fn told(alloc: Global, written: Result<String, NotWritten>) -> Result<String, AllocError> {
    match written {
        Ok(line) => Ok(line),
        Err(NotWritten::Memory) => Err(AllocError),
        Err(refusal) => format!(in alloc; "{refusal}"),
    }
}

/// Puts a line behind those that are there where a text that means an expression or a set, under
/// the table that the words name or under Cedar's own, isn't written as a text that means the same
/// and that is written as itself. (Of texts between which a line `==` stands, each.)
pub(crate) fn writes(
    alloc: Global,
    lines: &mut String,
    words: &str,
    text: &str,
) -> Result<(), AllocError> {
    let named = styles(alloc, words)?;
    add_changes(alloc, lines, text, &named)?;
    drop(named);
    let cedar = ExtStyles::cedar(alloc)?;
    add_changes(alloc, lines, text, &cedar)?;
    drop(cedar);
    Ok(())
}

fn add_changes(
    alloc: Global,
    lines: &mut String,
    text: &str,
    styles: &ExtStyles,
) -> Result<(), AllocError> {
    for part in text.split("\n==\n") {
        add_change::<Expr>(alloc, lines, part, styles)?;
        add_change::<PolicySet>(alloc, lines, part, styles)?;
        one_by_one(alloc, lines, part, styles)?;
    }
    Ok(())
}

fn add_change<T: Meant>(
    alloc: Global,
    lines: &mut String,
    text: &str,
    styles: &ExtStyles,
) -> Result<(), AllocError> {
    match T::read(alloc, text, styles) {
        Ok(value) => match change::<T>(alloc, &value, styles)? {
            Some(told) => add(lines, told),
            None => Ok(()),
        },
        Err(Failure::Memory(error)) => Err(error),
        Err(Failure::Errors(_)) => Ok(()),
    }
}

/// What becomes another when it is written and read again, if anything does.
fn change<T: Meant>(
    alloc: Global,
    value: &T,
    styles: &ExtStyles,
) -> Result<Option<&'static str>, AllocError> {
    let line = written::<T>(alloc, value, styles)?;
    match T::read(alloc, line.as_str(), styles) {
        Ok(again) => {
            if again != *value {
                return Ok(Some("written it means another value"));
            }
            let twice = written::<T>(alloc, &again, styles)?;
            Ok((twice != line).then_some("written again it differs"))
        }
        Err(Failure::Memory(error)) => Err(error),
        Err(Failure::Errors(_)) => Ok(Some("written it means nothing")),
    }
}

/// Puts a line behind those that are there where a text means a set whose text isn't its policies'
/// texts, each in a line.
fn one_by_one(
    alloc: Global,
    lines: &mut String,
    text: &str,
    styles: &ExtStyles,
) -> Result<(), AllocError> {
    match parse_policyset(alloc, text, styles) {
        Ok(set) => {
            if in_lines(alloc, &set, styles)? != written::<PolicySet>(alloc, &set, styles)? {
                return add(lines, "written one by one it differs");
            }
            Ok(())
        }
        Err(Failure::Memory(error)) => Err(error),
        Err(Failure::Errors(_)) => Ok(()),
    }
}

fn in_lines(alloc: Global, set: &PolicySet, styles: &ExtStyles) -> Result<String, AllocError> {
    let mut lines = String::new(alloc);
    for policy in set.iter(alloc)? {
        let line = match policy {
            Either::Left(policy) => static_policy_to_cedar(alloc, policy, styles),
            Either::Right(template) => template_to_cedar(alloc, template, styles),
        };
        lines.push_str(told(alloc, line)?.as_str())?;
        lines.push('\n')?;
    }
    Ok(lines)
}
