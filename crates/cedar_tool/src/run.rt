//! A run of the program: its words, its texts, what it writes and its status.
ghost use Rattle.std.specs.Prelude.{◌≡◌, ◌≢◌, IfOk, IfErr};
ghost use Rattle.std.specs.IoError.{error_kind};
ghost use Rattle.cedar_tool.specs.Ends.{RunEnds, IsSaid, IsShown, IsStopped, TellsRunEnd, sources_of, run_status};
ghost use Rattle.cedar_tool.specs.Streams.{StopsRun, output_state, output_writing};
ghost use Rattle.cedar_tool.specs.declared.ending.Ending.{Ending as How};
ghost use Rattle.cedar_tool.specs.declared.ending.Ending.TheVariants as ending;

use crate::command::command;
use crate::disk::Disk;
use crate::ending::Ending;
use crate::request::Request;
pub use crate::serve::Texts;
use crate::serve::serve;
use crate::streams::{Console, Output};
use crate::words::{Unasked, request_of};
use clap::ArgMatches;
use clap::error::{self, Error};
use std::alloc::Global;
use std::env::Env;
use std::io::{ErrorKind, Read, Write};
use std::{env, io};

/// What is said where memory is refused.
const NO_MEMORY: &str = "cedar: want of memory";

/// The arguments of the process, the program's name first.
pub fn arguments<R: Env + AllocGlobal>(rt: &R) -> io::Result<Vec<String>> {
    let mut words = Vec::new(rt.alloc());
    for word in env::args(rt)? {
        words.push(word)?;
    }
    Ok(words)
}

/// Does what `words` ask, the program's name first, and answers the status: 0 where all that is
/// asked was done and holds, 1 where a text is refused or isn't laid out, 2 where the words ask for
/// nothing, 3 for want of memory, 4 where a file or a stream failed. All files are tried, whatever
/// one of them says. What is asked for goes to `console.output`, faults as JSON too; what else is
/// said goes to `console.errors`.
pub fn run<R: Read + Drop, D: Disk, O: Write, E: Write>(
    alloc: Global,
    words: &[String],
    texts: &mut Texts<R, D>,
    console: &mut Console<O, E>,
) -> u8
    ensures { (end : How) × (result ≡ run_status end)
        × RunEnds (sources_of R.remaining D.files texts.old texts.new)
        (output_writing O.contents console.old.output console.new.output)
        (output_state console.new.output) console.old.errors console.new.errors end }
{
    match answer(alloc, words, texts, console) {
        Ok(ending) => ending.status(),
        Err(error) => stop(error, console).status(),
    }
}

/// Ends a run for which no memory was left before it began.
pub fn refuse_run<E: Write>(errors: &mut Output<E>) -> u8
    ensures { TellsRunEnd ending.Memory (output_state errors.new) result }
{
    say(Ending::Memory, NO_MEMORY, errors).status()
}

/// Ends a run whose arguments can't be had: a usage fault where one isn't UTF-8, else want of
/// memory.
pub fn refuse_arguments<E: Write>(error: io::Error, errors: &mut Output<E>) -> u8
    ensures usage { error_kind error ≡ ErrorKind.InvalidData
        → TellsRunEnd ending.Usage (output_state errors.new) result }
    ensures memory { error_kind error ≢ ErrorKind.InvalidData
        → TellsRunEnd ending.Memory (output_state errors.new) result }
{
    match error.kind() {
        ErrorKind::InvalidData => {
            say(Ending::Usage, "error: an argument isn't UTF-8", errors).status()
        }
        _ => refuse_run(errors),
    }
}

/// Says why a run ended; where that fails it is a stream that ended it.
fn say<E: Write>(ending: Ending, message: &str, errors: &mut Output<E>) -> Ending
    ensures { IsSaid ending (output_state errors.new) result }
{
    match writeln!(errors, "{message}") {
        Ok(()) => ending,
        Err(_) => Ending::Stream,
    }
}

/// Says why a run stopped before all texts were tried.
fn stop<O: Write, E: Write>(error: io::Error, console: &mut Console<O, E>) -> Ending
    requires { StopsRun console.old error }
    ensures output { console.new.output ≡ console.old.output }
    ensures stopped { IsStopped (output_state console.new.output)
        (output_state console.new.errors) result }
{
    match error.kind() {
        ErrorKind::OutOfMemory => say(Ending::Memory, NO_MEMORY, &mut console.errors),
        _ => {
            // Where it is this stream that failed nothing can be said.
            let _ = writeln!(&mut console.errors, "cedar: <stdout>: {error}");
            Ending::Stream
        }
    }
}

/// Does what the words ask.
fn answer<R: Read + Drop, D: Disk, O: Write, E: Write>(
    alloc: Global,
    words: &[String],
    texts: &mut Texts<R, D>,
    console: &mut Console<O, E>,
) -> io::Result<Ending>
    ensures ends { IfOk result (RunEnds (sources_of R.remaining D.files texts.old texts.new)
        (output_writing O.contents console.old.output console.new.output)
        (output_state console.new.output) console.old.errors console.new.errors) }
    ensures stops { IfErr result (StopsRun console.new) }
{
    let command = command(alloc)?;
    match command.try_get_matches_from(words) {
        Ok(matches) => obey(alloc, &matches, texts, console),
        Err(error) => show(&error, console),
    }
}

/// Does what a command's words ask.
fn obey<R: Read + Drop, D: Disk, O: Write, E: Write>(
    alloc: Global,
    matches: &ArgMatches<'_>,
    texts: &mut Texts<R, D>,
    console: &mut Console<O, E>,
) -> io::Result<Ending>
    ensures ends { IfOk result (RunEnds (sources_of R.remaining D.files texts.old texts.new)
        (output_writing O.contents console.old.output console.new.output)
        (output_state console.new.output) console.old.errors console.new.errors) }
    ensures stops { IfErr result (StopsRun console.new) }
{
    match matches.subcommand() {
        Some((name, matches)) => obey_command(alloc, name, matches, texts, console),
        None => misuse("no command is given", console),
    }
}

/// Does what the words of a command of this name ask.
fn obey_command<R: Read + Drop, D: Disk, O: Write, E: Write>(
    alloc: Global,
    name: &str,
    matches: &ArgMatches<'_>,
    texts: &mut Texts<R, D>,
    console: &mut Console<O, E>,
) -> io::Result<Ending>
    ensures ends { IfOk result (RunEnds (sources_of R.remaining D.files texts.old texts.new)
        (output_writing O.contents console.old.output console.new.output)
        (output_state console.new.output) console.old.errors console.new.errors) }
    ensures stops { IfErr result (StopsRun console.new) }
{
    match request_of(alloc, name, matches, console.is_terminal) {
        Ok(request) => {
            let names = matches.get_strs("policies").unwrap_or(&[]);
            fulfil(alloc, &request, names, texts, console)
        }
        Err(Unasked::Name) => misuse(NO_NAME, console),
        Err(Unasked::Memory) => Err(io::Error::from(ErrorKind::OutOfMemory)),
    }
}

/// Does what is requested of the texts of these names, and passes on what was written.
fn fulfil<R: Read + Drop, D: Disk, O: Write, E: Write>(
    alloc: Global,
    request: &Request,
    names: &[&str],
    texts: &mut Texts<R, D>,
    console: &mut Console<O, E>,
) -> io::Result<Ending>
    ensures ends { IfOk result (RunEnds (sources_of R.remaining D.files texts.old texts.new)
        (output_writing O.contents console.old.output console.new.output)
        (output_state console.new.output) console.old.errors console.new.errors) }
    ensures stops { IfErr result (StopsRun console.new) }
{
    let verdict = serve(alloc, request, names, texts, console)?;
    console.output.flush()?;
    Ok(Ending::Answered(verdict))
}

const NO_NAME: &str =
    "the name of an extension is identifiers joined by `::`, that of a method one identifier";

/// Writes what the words ask for, help or the version, or what is wrong with them.
fn show<O: Write, E: Write>(error: &Error, console: &mut Console<O, E>) -> io::Result<Ending>
    ensures ends { IfOk result (IsShown console.old console.new) }
    ensures stops { IfErr result (StopsRun console.new) }
{
    if error.kind() == error::ErrorKind::OutOfMemory {
        return Err(io::Error::from(ErrorKind::OutOfMemory));
    }
    if error.use_stderr() {
        write!(&mut console.errors, "{error}")?;
        return Ok(Ending::Usage);
    }
    write!(&mut console.output, "{error}")?;
    console.output.flush()?;
    Ok(Ending::Shown)
}

/// Says what is wrong with words that the program knows.
fn misuse<O: Write, E: Write>(message: &str, console: &mut Console<O, E>) -> io::Result<Ending>
    ensures ends { IfOk result (IsShown console.old console.new) }
    ensures stops { IfErr result (StopsRun console.new) }
{
    writeln!(&mut console.errors, "error: {message}")?;
    Ok(Ending::Usage)
}
