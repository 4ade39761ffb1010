//! What a request makes of its texts.
ghost use Rattle.std.specs.Prelude.{◌≡◌, [], IfOk, IfErr, OnOk, map};
ghost use Rattle.cedar_conversion.specs.strict.Table.{table_of};
ghost use Rattle.cedar_tool.specs.Answers.{IsServed, IsTried, AreTried};
ghost use Rattle.cedar_tool.specs.Ends.{AreTreated, sources_of};
ghost use Rattle.cedar_tool.specs.Streams.{IsWant, SpeaksOf, StopsRun, output_state, output_writing};
ghost use Rattle.cedar_tool.specs.declared.ending.Verdict.TheVariants as verdict;

use crate::check::{check, tell_not_utf8};
use crate::disk::Disk;
use crate::ending::Verdict;
use crate::format::{Layout, format};
use crate::list::list;
use crate::request::{Request, Task};
use crate::streams::{Console, Input, WriterState};
use crate::texts::{Named, Source};
use std::alloc::Global;
use std::io::{self, ErrorKind, Read, Write};
use std::str;

/// The name under which standard input is told.
const INPUT: &str = "<stdin>";

/// Where the texts of a run come from: a reader, where no file is named, and files.
#[derive(Drop)]
pub struct Texts<R, D> {
    pub input: Input<R>,
    pub disk: D,
}

/// Tries all files of these names, or standard input where there are none. Only want of memory, or
/// one of the two writers that fails, ends it before.
pub(crate) fn serve<R: Read + Drop, D: Disk, O: Write, E: Write>(
    alloc: Global,
    request: &Request,
    names: &[&str],
    texts: &mut Texts<R, D>,
    console: &mut Console<O, E>,
) -> io::Result<Verdict>
    ensures treated { IfOk result (λ v. AreTreated request.now
        (sources_of R.remaining D.files texts.old texts.new) (map (λ name. name.now) names.now) v
        (output_writing O.contents console.old.output console.new.output)) }
    ensures said { IfOk result (λ v. SpeaksOf v request.now.format
        console.old.errors console.new.errors) }
    ensures stops { IfErr result (StopsRun console.new) }
{
    if names.is_empty() {
        return serve_input(alloc, request, texts, console);
    }
    serve_files(alloc, request, names, &mut texts.disk, console)
}

/// Answers standard input.
fn serve_input<R: Read + Drop, D: Disk, O: Write, E: Write>(
    alloc: Global,
    request: &Request,
    texts: &mut Texts<R, D>,
    console: &mut Console<O, E>,
) -> io::Result<Verdict>
    ensures treated { IfOk result (λ v. AreTreated request.now
        (sources_of R.remaining D.files texts.old texts.new) [] v
        (output_writing O.contents console.old.output console.new.output)) }
    ensures said { IfOk result (λ v. SpeaksOf v request.now.format
        console.old.errors console.new.errors) }
    ensures stops { IfErr result (StopsRun console.new) }
{
    match texts.input.bytes(alloc) {
        Ok(bytes) => {
            let named = Named {
                name: INPUT,
                bytes: bytes.as_slice(),
            };
            serve_bytes(alloc, request, &named, &mut texts.disk, console)
        }
        Err(error) => fail(INPUT, error, console),
    }
}

/// Answers all files of these names.
fn serve_files<D: Disk, O: Write, E: Write>(
    alloc: Global,
    request: &Request,
    names: &[&str],
    disk: &mut D,
    console: &mut Console<O, E>,
) -> io::Result<Verdict>
    ensures tried { IfOk result (λ v. AreTried D.files request.now
        (map (λ name. name.now) names.now) disk.old disk.new v
        (output_writing O.contents console.old.output console.new.output)) }
    ensures said { IfOk result (λ v. SpeaksOf v request.now.format
        console.old.errors console.new.errors) }
    ensures stops { IfErr result (StopsRun console.new) }
{
    let mut verdict = Verdict::Accepted;
    for name in names {
        let last = serve_file(alloc, request, *name, disk, console)?;
        verdict = verdict.and(last);
    }
    Ok(verdict)
}

/// Answers a file.
fn serve_file<D: Disk, O: Write, E: Write>(
    alloc: Global,
    request: &Request,
    name: &str,
    disk: &mut D,
    console: &mut Console<O, E>,
) -> io::Result<Verdict>
    ensures tried { IfOk result (λ v. IsTried D.files request.now name.now disk.old disk.new v
        (output_writing O.contents console.old.output console.new.output)) }
    ensures said { IfOk result (λ v. SpeaksOf v request.now.format
        console.old.errors console.new.errors) }
    ensures stops { IfErr result (StopsRun console.new) }
{
    match disk.read(alloc, name) {
        Ok(bytes) => {
            let named = Named {
                name,
                bytes: bytes.as_slice(),
            };
            serve_bytes(alloc, request, &named, disk, console)
        }
        Err(error) => fail(name, error, console),
    }
}

/// Answers what was read under a name.
fn serve_bytes<D: Disk, O: Write, E: Write>(
    alloc: Global,
    request: &Request,
    named: &Named<'_>,
    disk: &mut D,
    console: &mut Console<O, E>,
) -> io::Result<Verdict>
    ensures served { IfOk result (λ v. IsServed D.files request.now.task request.now.format
        (table_of request.now.styles) named.now.name.now named.now.bytes.now
        disk.old disk.new v
        (output_writing O.contents console.old.output console.new.output)) }
    ensures said { IfOk result (λ v. SpeaksOf v request.now.format
        console.old.errors console.new.errors) }
    ensures stops { IfErr result (StopsRun console.new) }
{
    let name = named.name;
    match str::from_utf8(named.bytes) {
        Ok(text) => serve_text(alloc, request, &Source { name, text }, disk, console),
        Err(_) => tell_not_utf8(alloc, request.format, named, console),
    }
}

/// Answers a text.
fn serve_text<D: Disk, O: Write, E: Write>(
    alloc: Global,
    request: &Request,
    source: &Source<'_>,
    disk: &mut D,
    console: &mut Console<O, E>,
) -> io::Result<Verdict>
    ensures served { IfOk result (λ v. IsServed D.files request.now.task request.now.format
        (table_of request.now.styles) source.now.name.now source.now.text.now
        disk.old disk.new v
        (output_writing O.contents console.old.output console.new.output)) }
    ensures said { IfOk result (λ v. SpeaksOf v request.now.format
        console.old.errors console.new.errors) }
    ensures stops { IfErr result (StopsRun console.new) }
{
    match request.task {
        Task::Check => check(alloc, request, source, console),
        Task::List => list(alloc, request, source, console),
        Task::Format(options, purpose) => {
            let layout = Layout {
                request,
                options,
                purpose,
            };
            format(alloc, &layout, source, disk, console)
        }
    }
}

/// Says of a text why it couldn't be read or written; want of memory ends the run.
pub(crate) fn fail<O: Write, E: Write>(
    name: &str,
    error: io::Error,
    console: &mut Console<O, E>,
) -> io::Result<Verdict>
    ensures verdict { IfOk result (λ v. (v ≡ verdict.Failed) × ¬ IsWant error) }
    ensures output { console.new.output ≡ console.old.output }
    ensures said { OnOk result (output_state console.new.errors ≡ WriterState.Written) }
    ensures stops { IfErr result (StopsRun console.new) }
{
    match error.kind() {
        ErrorKind::OutOfMemory => Err(error),
        _ => {
            writeln!(&mut console.errors, "cedar: {name}: {error}")?;
            Ok(Verdict::Failed)
        }
    }
}
