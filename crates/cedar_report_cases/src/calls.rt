//! The ways in which a case's report is written, by their names.

use cedar_policy_parser::err::{Failure, ParseErrors};
use cedar_policy_parser::{ExtStyles, Id, Name, Text, UnreservedId, parse_policyset};
use cedar_report::{Palette, Report};
use std::alloc::{AllocError, Global};
use std::collections::BTreeSet;
use std::fmt;

/// The name under which texts are told.
const NAME: &str = "case";

/// What is written of a text: `human`, `colour`, `plain` or `json` of its faults; behind `beyond `
/// of what is told behind a bad place too, behind `bare ` without extensions, behind `few ` with two
/// of one's own, behind `encoding ` of the bytes that the text has in hex digits. `ok` where there is
/// nothing to tell.
pub(crate) fn written(alloc: Global, call: &str, text: &str) -> Result<String, AllocError> {
    match call.strip_prefix("encoding ") {
        Some(way) => of_bytes(alloc, way, text),
        None => of_text(alloc, call, text),
    }
}

fn of_text(alloc: Global, words: &str, text: &str) -> Result<String, AllocError> {
    let (table, call) = words.split_once(' ').unwrap_or(("", words));
    let (styles, call) = match table {
        "bare" => (bare(alloc), call),
        "few" => (few(alloc)?, call),
        _ => (ExtStyles::cedar(alloc)?, words),
    };
    let faults = match parse_policyset(alloc, text, &styles) {
        Ok(_) => return String::from_str(alloc, "ok"),
        Err(Failure::Memory(error)) => return Err(error),
        Err(Failure::Errors(faults)) => faults,
    };
    let report = told(alloc, call, text, &faults, &styles)?;
    let way = call.strip_prefix("beyond ").unwrap_or(call);
    in_way(alloc, way, &report)
}

/// The table without extensions.
fn bare(alloc: Global) -> ExtStyles {
    ExtStyles::new(BTreeSet::new(alloc), BTreeSet::new(alloc))
}

/// The table of the function `region` and the method `isNearby`.
fn few(alloc: Global) -> Result<ExtStyles, AllocError> {
    let mut functions = BTreeSet::new(alloc);
    if let Some(id) = identifier(alloc, "region")? {
        functions.insert(Name::from(id))?;
    }
    let mut methods = BTreeSet::new(alloc);
    if let Some(id) = identifier(alloc, "isNearby")? {
        methods.insert(id)?;
    }
    Ok(ExtStyles::new(functions, methods))
}

fn identifier(alloc: Global, word: &str) -> Result<Option<UnreservedId>, AllocError> {
    match Id::new(Text::from_str(alloc, word)?) {
        Some(id) => Ok(UnreservedId::try_from(id).ok()),
        None => Ok(None),
    }
}

fn told<'a>(
    alloc: Global,
    call: &str,
    text: &'a str,
    faults: &ParseErrors,
    styles: &ExtStyles,
) -> Result<Report<'a>, AllocError> {
    if call.starts_with("beyond ") {
        Report::beyond(alloc, NAME, text, faults, styles)
    } else {
        Report::of(alloc, NAME, text, faults)
    }
}

fn of_bytes(alloc: Global, way: &str, digits: &str) -> Result<String, AllocError> {
    let mut bytes = Vec::new(alloc);
    for pair in digits.split_whitespace() {
        bytes.push(u8::from_str_radix(pair, 16).unwrap_or(0))?;
    }
    match Report::not_utf8(alloc, NAME, bytes.as_slice())? {
        Some(report) => in_way(alloc, way, &report),
        None => String::from_str(alloc, "ok"),
    }
}

fn in_way(alloc: Global, way: &str, report: &Report<'_>) -> Result<String, AllocError> {
    let mut out = String::new(alloc);
    match write(alloc, way, report, &mut out) {
        Ok(()) => Ok(out),
        Err(_) => Err(AllocError),
    }
}

fn write(alloc: Global, way: &str, report: &Report<'_>, out: &mut String) -> fmt::Result {
    match way {
        "human" => report.write_human(Palette::plain(), out),
        "colour" => report.write_human(Palette::ansi(), out),
        "plain" => report.write_plain(out),
        "json" => report.write_json(alloc, out),
        _ => Ok(out.push_str("no such way")?),
    }
}
