//! Whether a text means policies, and what is told where it doesn't.
ghost use Rattle.std.specs.Prelude.{◌≡◌, ℕ, List, IfOk, IfErr, IsUtf8, OnOk};
ghost use Rattle.cedar_conversion.specs.strict.Table.{table_of};
ghost use Rattle.cedar_policy_parser.specs.faults.Refused.{RefusesSet};
ghost use Rattle.cedar_policy_parser.specs.meaning.Formatted.{MeansSet};
ghost use Rattle.cedar_policy_store.specs.PlaceFree.{set_meaning};
ghost use Rattle.cedar_report.specs.Encoding.{TellsEncoding};
ghost use Rattle.cedar_report.specs.declared.finding.Finding.{Finding};
ghost use Rattle.cedar_syntax.specs.faults.ParseErrors.{IsMemory};
ghost use Rattle.cedar_tool.specs.Answers.{HasMeaning, IsJudged};
ghost use Rattle.cedar_tool.specs.Streams.{SpeaksOf, StopsRun, output_writing};
ghost use Rattle.cedar_tool.specs.Told.{IsToldOn, TellsRefusal, FindsFaults};
ghost use Rattle.cedar_tool.specs.declared.ending.Verdict.TheVariants as verdict;
ghost use Rattle.cedar_tool.specs.declared.request.Task.TheVariants as task;

use crate::ending::Verdict;
use crate::remark::told;
use crate::request::{Format, Request, Task};
use crate::streams::Console;
use crate::texts::{Named, Source};
use cedar_policy_parser::err::{Failure, ParseErrors};
use cedar_policy_parser::{ExtStyles, PolicySet, parse_policyset};
use cedar_report::Report;
use std::alloc::{AllocError, Global};
use std::io::{self, Write};

/// Whether a text means policies; else its faults are told.
pub(crate) fn check<O: Write, E: Write>(
    alloc: Global,
    request: &Request,
    source: &Source<'_>,
    console: &mut Console<O, E>,
) -> io::Result<Verdict>
    requires { request.now.task ≡ task.Check }
    ensures judged { IfOk result (λ v. IsJudged task.Check request.now.format
        (table_of request.now.styles) source.now.name.now source.now.text.now v
        (output_writing O.contents console.old.output console.new.output)) }
    ensures said { IfOk result (λ v. SpeaksOf v request.now.format
        console.old.errors console.new.errors) }
    ensures stops { IfErr result (StopsRun console.new) }
{
    match set_of(alloc, source.text, &request.styles) {
        Ok(set) => Ok(accept(set)),
        Err(failure) => refuse(alloc, request, source, &failure, console),
    }
}

/// The set that a text means under a table.
pub(crate) fn set_of(alloc: Global, text: &str, styles: &ExtStyles) -> Result<PolicySet, Failure>
    ensures meant { IfOk result (λ set. HasMeaning (table_of styles.now) text.now) }
    ensures set { IfOk result (λ set. MeansSet
        (table_of styles.now) text.now (set_meaning set)) }
    ensures only { HasMeaning (table_of styles.now) text.now → IfErr result IsMemory }
    ensures refused { IfErr result (λ failure. RefusesSet (table_of styles.now) failure text.now) }
{
    parse_policyset(alloc, text, styles)
}

/// The verdict on a text that means a set, which is let go.
fn accept(set: PolicySet) -> Verdict
    ensures { result ≡ verdict.Accepted }
{
    drop(set);
    Verdict::Accepted
}

/// Tells why a text is refused; want of memory ends the run.
pub(crate) fn refuse<O: Write, E: Write>(
    alloc: Global,
    request: &Request,
    source: &Source<'_>,
    failure: &Failure,
    console: &mut Console<O, E>,
) -> io::Result<Verdict>
    ensures verdict { IfOk result (λ v. (v ≡ verdict.Refused) × ¬ (IsMemory failure.now)) }
    ensures told { OnOk result (TellsRefusal O.contents request.now.task request.now.format
        (table_of request.now.styles) source.now.name.now source.now.text.now failure.now
        console.old console.new) }
    ensures stops { IfErr result (StopsRun console.new) }
{
    match failure {
        Failure::Memory(error) => Err(io::Error::from(*error)),
        Failure::Errors(faults) => {
            let report = report_of(alloc, request, source, faults)?;
            tell(alloc, &report, request.format, console)?;
            Ok(Verdict::Refused)
        }
    }
}

/// What is told of the faults of a text; of one that is to be laid out no more than why it has no
/// tree.
fn report_of<'a>(
    alloc: Global,
    request: &Request,
    source: &Source<'a>,
    faults: &ParseErrors,
) -> Result<Report<'a>, AllocError>
    ensures name { IfOk result (λ report. report.name.now ≡ source.now.name.now) }
    ensures tells { IfOk result (λ report. FindsFaults request.now.task
        (table_of request.now.styles) source.now.text.now faults.now report.findings.items) }
{
    match request.task {
        Task::Check | Task::List => {
            Report::beyond(alloc, source.name, source.text, faults, &request.styles)
        }
        Task::Format(_, _) => Report::of(alloc, source.name, source.text, faults),
    }
}

/// Tells of bytes that they aren't UTF-8.
pub(crate) fn tell_not_utf8<O: Write, E: Write>(
    alloc: Global,
    format: Format,
    named: &Named<'_>,
    console: &mut Console<O, E>,
) -> io::Result<Verdict>
    requires { ¬ (IsUtf8 named.now.bytes.now) }
    ensures verdict { IfOk result (λ v. v ≡ verdict.Refused) }
    ensures told { OnOk result ((shown : List ℕ) × (findings : List Finding)
        × TellsEncoding named.now.bytes.now shown findings
        × IsToldOn O.contents format named.now.name.now findings console.old console.new) }
    ensures stops { IfErr result (StopsRun console.new) }
{
    let found = Report::not_utf8(alloc, named.name, named.bytes)?;
    match found {
        Some(report) => {
            tell(alloc, &report, format, console)?;
            Ok(Verdict::Refused)
        }
        None => unreachable!(),
    }
}

/// Writes what is told where it belongs.
pub(crate) fn tell<O: Write, E: Write>(
    alloc: Global,
    report: &Report<'_>,
    format: Format,
    console: &mut Console<O, E>,
) -> io::Result<()>
    ensures told { OnOk result (IsToldOn O.contents format report.now.name.now
        report.now.findings.items console.old console.new) }
    ensures stops { IfErr result (StopsRun console.new) }
{
    let told = told(alloc, report, format)?;
    match format {
        Format::Json => write!(&mut console.output, "{told}"),
        Format::Plain => write!(&mut console.errors, "{told}"),
        Format::Human(_) => write!(&mut console.errors, "{told}"),
    }
}
