//! What the words of a command ask for.

use crate::request::{Colours, Format, Purpose, Request, Task};
use cedar_command::request::{command_of, table_named};
use cedar_policy_parser::{ExtStyles, LayoutOptions};
use clap::ArgMatches;
use std::alloc::{AllocError, Global};

/// Why words that the program knows ask for nothing.
#[derive(Clone, Copy)]
pub enum Unasked {
    /// A name can't be an extension's.
    Name,
    /// Memory was refused.
    Memory,
}

impl From<AllocError> for Unasked {
    fn from(_error: AllocError) -> Unasked {
        Unasked::Memory
    }
}

/// What a command's words ask for, on a terminal or not.
pub fn request_of(
    alloc: Global,
    name: &str,
    matches: &ArgMatches<'_>,
    is_terminal: bool,
) -> Result<Request, Unasked> {
    Ok(Request {
        task: task_of(name, matches),
        format: format_of(matches, is_terminal),
        styles: styles_of(alloc, matches)?,
    })
}

/// What is asked of each text.
fn task_of(name: &str, matches: &ArgMatches<'_>) -> Task {
    match name {
        "format" => Task::Format(layout_of(matches), purpose_of(matches)),
        "list" => Task::List,
        _ => Task::Check,
    }
}

fn layout_of(matches: &ArgMatches<'_>) -> LayoutOptions {
    let default = LayoutOptions::default();
    LayoutOptions {
        width: matches
            .get_one::<usize>("line-width")
            .unwrap_or(default.width),
        indent: matches
            .get_one::<usize>("indent-width")
            .unwrap_or(default.indent),
    }
}

fn purpose_of(matches: &ArgMatches<'_>) -> Purpose {
    if matches.get_flag("write") {
        Purpose::Write
    } else if matches.get_flag("check") {
        Purpose::Check
    } else {
        Purpose::Print
    }
}

fn format_of(matches: &ArgMatches<'_>, is_terminal: bool) -> Format {
    match matches.get_str("error-format") {
        Some("plain") => Format::Plain,
        Some("json") => Format::Json,
        _ => Format::Human(colours_of(matches.get_str("color"), is_terminal)),
    }
}

fn colours_of(word: Option<&str>, is_terminal: bool) -> Colours {
    match word {
        Some("always") => Colours::Ansi,
        Some("never") => Colours::None,
        _ if is_terminal => Colours::Ansi,
        _ => Colours::None,
    }
}

/// What policies may call: Cedar's own extensions, unless these are left out, and those of the
/// words.
fn styles_of(alloc: Global, matches: &ArgMatches<'_>) -> Result<ExtStyles, Unasked> {
    let mut words = named_words(alloc, matches)?;
    if command_of(words.as_slice()).is_none() {
        return Err(Unasked::Name);
    }
    if matches.get_flag("no-extensions") {
        return Ok(table_named(alloc, words.as_slice())?);
    }
    let own = ExtStyles::cedar(alloc)?;
    if words.len() == 1 {
        return Ok(own);
    }
    add_table(alloc, &own, &mut words)?;
    Ok(table_named(alloc, words.as_slice())?)
}

/// The functions and methods that are named, in the words of `cedar-parse`.
fn named_words(alloc: Global, matches: &ArgMatches<'_>) -> Result<Vec<String>, AllocError> {
    let mut words = Vec::new(alloc);
    words.push(String::from_str(alloc, "policies")?)?;
    let functions = matches.get_strs("extension-function").unwrap_or(&[]);
    add_words(alloc, &mut words, "fn:", functions)?;
    let methods = matches.get_strs("extension-method").unwrap_or(&[]);
    add_words(alloc, &mut words, "method:", methods)?;
    Ok(words)
}

fn add_words(
    alloc: Global,
    words: &mut Vec<String>,
    front: &str,
    names: &[&str],
) -> Result<(), AllocError> {
    for name in names {
        words.push(format!(in alloc; "{front}{name}")?)?;
    }
    Ok(())
}

/// Adds the extensions of a table.
fn add_table(alloc: Global, styles: &ExtStyles, words: &mut Vec<String>) -> Result<(), AllocError> {
    for name in styles.functions() {
        words.push(format!(in alloc; "fn:{name}")?)?;
    }
    for name in styles.methods() {
        words.push(format!(in alloc; "method:{name}")?)?;
    }
    Ok(())
}
