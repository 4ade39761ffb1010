//! `list`: each policy as a JSON object on a line.
ghost use Rattle.std.specs.Prelude.{◌≡◌, IfOk, IfErr, List, ℕ};
ghost use Rattle.cedar_command.specs.Streams.{AreBytesWritten};
ghost use Rattle.cedar_conversion.specs.strict.Table.{table_of};
ghost use Rattle.cedar_tool.specs.Answers.{IsJudged};
ghost use Rattle.cedar_tool.specs.Listed.{AreJsonLines, listed_data};
ghost use Rattle.cedar_tool.specs.Streams.{SpeaksOf, StopsRun, output_writing};
ghost use Rattle.cedar_tool.specs.declared.ending.Verdict.TheVariants as verdict;
ghost use Rattle.cedar_tool.specs.declared.request.Task.TheVariants as task;

use crate::check::{refuse, set_of};
use crate::ending::Verdict;
use crate::lines::{numbered_line, set_size};
use crate::request::Request;
use crate::streams::Console;
use crate::texts::Source;
use cedar_policy_parser::PolicySet;
use cedar_report::Lines;
use std::alloc::Global;
use std::io::{self, Write};

/// Lists the policies of a text, in the order in which they stand there; or tells its faults.
pub(crate) fn list<O: Write, E: Write>(
    alloc: Global,
    request: &Request,
    source: &Source<'_>,
    console: &mut Console<O, E>,
) -> io::Result<Verdict>
    requires { request.now.task ≡ task.List }
    ensures judged { IfOk result (λ v. IsJudged task.List request.now.format
        (table_of request.now.styles) source.now.name.now source.now.text.now v
        (output_writing O.contents console.old.output console.new.output)) }
    ensures said { IfOk result (λ v. SpeaksOf v request.now.format
        console.old.errors console.new.errors) }
    ensures stops { IfErr result (StopsRun console.new) }
{
    match set_of(alloc, source.text, &request.styles) {
        Ok(set) => list_set(alloc, source, &set, console),
        Err(failure) => refuse(alloc, request, source, &failure, console),
    }
}

/// A line for each policy.
fn list_set<O: Write, E: Write>(
    alloc: Global,
    source: &Source<'_>,
    set: &PolicySet,
    console: &mut Console<O, E>,
) -> io::Result<Verdict>
    ensures verdict { IfOk result (λ v. v ≡ verdict.Accepted) }
    ensures listed { IfOk result (λ v. (lines : List ℕ)
        × AreJsonLines (listed_data source.now.name.now source.now.text.now set.now) lines
        × AreBytesWritten lines (output_writing O.contents console.old.output console.new.output)) }
    ensures quiet { console.new.errors ≡ console.old.errors }
    ensures stops { IfErr result (StopsRun console.new) }
{
    let lines = Lines::of(alloc, source.text)?;
    for number in 0..set_size(set) {
        let line = numbered_line(alloc, source.name, &lines, set, number)?;
        write!(&mut console.output, "{line}")?;
    }
    Ok(Verdict::Accepted)
}
