//! The words that the program knows.

use clap::{Arg, ArgAction, Command, value_parser};
use std::alloc::{AllocError, Global};

const FORMATS: &[&str] = &["human", "plain", "json"];

const COLOURS: &[&str] = &["auto", "always", "never"];

/// The program with its commands.
pub fn command<'a>(alloc: Global) -> Result<Command<'a>, AllocError> {
    let check = Command::new(alloc, "check-parse").about("Tells what is wrong in policies");
    let list = Command::new(alloc, "list").about("Lists policies, each as a JSON object on a line");
    Command::new(alloc, "cedar")
        .bin_name("cedar")?
        .version("0.2.0")
        .about("Reads policies of the Cedar language")
        .subcommand_required(true)
        .arg_required_else_help(true)
        .subcommand(with_options(alloc, check)?)?
        .subcommand(format(alloc)?)?
        .subcommand(with_options(alloc, list)?)
}

/// The command `format`.
fn format<'a>(alloc: Global) -> Result<Command<'a>, AllocError> {
    let format = Command::new(alloc, "format").about("Lays policies out anew, with their comments");
    with_faults(alloc, format.arg(files(alloc))?)?
        .arg(counted(
            alloc,
            "line-width",
            'l',
            "80",
            "How many characters a line has at most, where it can be broken",
        ))?
        .arg(counted(
            alloc,
            "indent-width",
            'i',
            "2",
            "By how many spaces a line stands further in than what it is a part of",
        ))?
        .arg(
            flag(
                alloc,
                "write",
                "Writes each file anew, instead of standard output",
            )
            .short('w')
            .requires_arg("policies")?,
        )?
        .arg(
            flag(
                alloc,
                "check",
                "Tells which texts aren't laid out so, and writes nothing",
            )
            .short('c')
            .conflicts_with("write")?,
        )
}

/// A command with the options that texts are read with.
fn with_options<'a>(alloc: Global, command: Command<'a>) -> Result<Command<'a>, AllocError> {
    with_faults(alloc, command.arg(files(alloc))?)?
        .arg(named(
            alloc,
            "extension-function",
            "A function that policies may call beside Cedar's own",
        ))?
        .arg(named(
            alloc,
            "extension-method",
            "A method that policies may call beside Cedar's own",
        ))?
        .arg(flag(
            alloc,
            "no-extensions",
            "Lets policies call none of Cedar's own extensions",
        ))
}

/// A command with the options that faults are told with.
fn with_faults<'a>(alloc: Global, command: Command<'a>) -> Result<Command<'a>, AllocError> {
    command
        .arg(
            chosen(
                alloc,
                "error-format",
                FORMATS,
                "human",
                "How faults are told; json goes to standard output",
            )
            .short('f')
            .value_name("FORMAT"),
        )?
        .arg(chosen(
            alloc,
            "color",
            COLOURS,
            "auto",
            "Whether faults are told in colours",
        )
        .value_name("WHEN"))
}

fn files<'a>(alloc: Global) -> Arg<'a> {
    Arg::new(alloc, "policies")
        .short('p')
        .long("policies")
        .value_name("FILE")
        .action(ArgAction::Append)
        .help("A file of policies, again for more; without one standard input is read")
}

fn chosen<'a>(
    alloc: Global,
    name: &'a str,
    values: &'a [&'a str],
    default: &'a str,
    help: &'a str,
) -> Arg<'a> {
    Arg::new(alloc, name)
        .long(name)
        .value_parser(values)
        .default_value(default)
        .action(ArgAction::Set)
        .help(help)
}

fn counted<'a>(
    alloc: Global,
    name: &'a str,
    short: char,
    default: &'a str,
    help: &'a str,
) -> Arg<'a> {
    Arg::new(alloc, name)
        .long(name)
        .short(short)
        .value_parser(value_parser!(usize))
        .default_value(default)
        .value_name("NUMBER")
        .action(ArgAction::Set)
        .help(help)
}

fn named<'a>(alloc: Global, name: &'a str, help: &'a str) -> Arg<'a> {
    Arg::new(alloc, name)
        .long(name)
        .value_name("NAME")
        .action(ArgAction::Append)
        .help(help)
}

fn flag<'a>(alloc: Global, name: &'a str, help: &'a str) -> Arg<'a> {
    Arg::new(alloc, name)
        .long(name)
        .action(ArgAction::SetTrue)
        .help(help)
}
