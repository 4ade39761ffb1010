//! `format`: a text laid out anew, with its comments.
ghost use Rattle.std.specs.Prelude.{◌≡◌, IfOk, IfErr, OnOk, string_bytes};
ghost use Rattle.cedar_command.specs.Streams.{AreBytesWritten};
ghost use Rattle.cedar_conversion.specs.strict.Table.{table_of};
ghost use Rattle.cedar_grammar.specs.faults.MendedFaults.{IsMendedRefusal, PoliciesBefore};
ghost use Rattle.cedar_grammar.specs.grammar.LoosePolicies.{ReadsPolicies};
ghost use Rattle.cedar_policy_parser.specs.meaning.LaidOut.{IsLayoutOf};
ghost use Rattle.cedar_syntax.specs.faults.ParseErrors.{IsMemory};
ghost use Rattle.cedar_tool.specs.Answers.{HasPolicies, IsServed};
ghost use Rattle.cedar_tool.specs.Layouts.{Compares, Rewrites};
ghost use Rattle.cedar_tool.specs.Streams.{SpeaksOf, StopsRun, output_state, output_writing};
ghost use Rattle.cedar_tool.specs.declared.ending.Verdict.TheVariants as verdict;
ghost use Rattle.cedar_tool.specs.declared.request.Task.TheVariants as task;

use crate::check::{refuse, tell};
use crate::disk::Disk;
use crate::ending::Verdict;
use crate::remark::not_laid_out;
use crate::request::{Format, Purpose, Request};
use crate::serve::fail;
use crate::streams::{Console, WriterState};
use crate::texts::Source;
use cedar_policy_parser::err::Failure;
use cedar_policy_parser::{LayoutOptions, layout_policies};
use std::alloc::Global;
use std::io::{self, Write};

/// How a text is to be laid out, and what becomes of that.
#[derive(Drop)]
pub(crate) struct Layout<'a> {
    pub request: &'a Request,
    pub options: LayoutOptions,
    pub purpose: Purpose,
}

/// Lays a text out as it is asked for; or tells its faults.
pub(crate) fn format<D: Disk, O: Write, E: Write>(
    alloc: Global,
    layout: &Layout<'_>,
    source: &Source<'_>,
    disk: &mut D,
    console: &mut Console<O, E>,
) -> io::Result<Verdict>
    requires { layout.now.request.now.task
        ≡ task.Format layout.now.options layout.now.purpose }
    ensures served { IfOk result (λ v. IsServed D.files layout.now.request.now.task
        layout.now.request.now.format (table_of layout.now.request.now.styles)
        source.now.name.now source.now.text.now disk.old disk.new v
        (output_writing O.contents console.old.output console.new.output)) }
    ensures said { IfOk result (λ v. SpeaksOf v layout.now.request.now.format
        console.old.errors console.new.errors) }
    ensures stops { IfErr result (StopsRun console.new) }
{
    match laid_of(alloc, source.text, &layout.options) {
        Ok(laid) => match layout.purpose {
            Purpose::Print => print(laid.as_str(), console),
            Purpose::Check => compare(alloc, layout.request.format, source, laid.as_str(), console),
            Purpose::Write => rewrite(alloc, source, laid.as_str(), disk, console),
        },
        Err(failure) => refuse(alloc, layout.request, source, &failure, console),
    }
}

/// The text laid out.
fn laid_of(alloc: Global, text: &str, options: &LayoutOptions) -> Result<String, Failure>
    ensures laid { IfOk result (λ laid. IsLayoutOf options.now text.now (string_bytes laid)) }
    ensures only { HasPolicies text.now → IfErr result IsMemory }
    ensures refused { IfErr result (IsMendedRefusal ReadsPolicies PoliciesBefore text.now) }
{
    layout_policies(alloc, text, options)
}

/// Writes what was laid out to standard output.
fn print<O: Write, E: Write>(laid: &str, console: &mut Console<O, E>) -> io::Result<Verdict>
    ensures verdict { IfOk result (λ v. v ≡ verdict.Accepted) }
    ensures written { OnOk result (AreBytesWritten laid.now
        (output_writing O.contents console.old.output console.new.output)) }
    ensures quiet { console.new.errors ≡ console.old.errors }
    ensures stops { IfErr result (StopsRun console.new) }
{
    write!(&mut console.output, "{laid}")?;
    Ok(Verdict::Accepted)
}

/// Whether a text is what it is laid out as; else where they part is told.
fn compare<O: Write, E: Write>(
    alloc: Global,
    format: Format,
    source: &Source<'_>,
    laid: &str,
    console: &mut Console<O, E>,
) -> io::Result<Verdict>
    ensures compared { IfOk result (Compares O.contents format source.now.name.now
        source.now.text.now laid.now console.old console.new) }
    ensures stops { IfErr result (StopsRun console.new) }
{
    if laid == source.text {
        return Ok(Verdict::Accepted);
    }
    let report = not_laid_out(alloc, source.name, source.text, laid)?;
    tell(alloc, &report, format, console)?;
    Ok(Verdict::Refused)
}

/// Puts what was laid out in the place of its file, unless that holds these bytes.
fn rewrite<D: Disk, O: Write, E: Write>(
    alloc: Global,
    source: &Source<'_>,
    laid: &str,
    disk: &mut D,
    console: &mut Console<O, E>,
) -> io::Result<Verdict>
    ensures rewritten { IfOk result (Rewrites D.files source.now.name.now
        source.now.text.now laid.now disk.old disk.new) }
    ensures output { console.new.output ≡ console.old.output }
    ensures quiet { IfOk result (λ v. v ≡ verdict.Accepted
        → console.new.errors ≡ console.old.errors) }
    ensures said { IfOk result (λ v. v ≡ verdict.Failed
        → output_state console.new.errors ≡ WriterState.Written) }
    ensures stops { IfErr result (StopsRun console.new) }
{
    if laid == source.text {
        return Ok(Verdict::Accepted);
    }
    match disk.replace(alloc, source.name, laid) {
        Ok(()) => Ok(Verdict::Accepted),
        Err(error) => fail(source.name, error, console),
    }
}
