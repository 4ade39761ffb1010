//! The command `format`: a text's policies, each on a line of its own.
ghost use Rattle.std.specs.Prelude.{◌≡◌, IfOk, OnOk, IfErr, string_bytes};
ghost use Rattle.cedar_conversion.specs.strict.Table.{table_of};
ghost use Rattle.cedar_policy_parser.specs.meaning.Formatted.{AreLinesOf};
ghost use Rattle.cedar_command.specs.Ends.{IsMeant, IsVerdict, IsAnswerWritten, RefusesFor, StopsWriting};
ghost use Rattle.cedar_command.specs.Streams.{writer_state, writing, AreBytesWritten, FailsFor};
ghost use Rattle.cedar_command.specs.declared.run.Verdict.TheVariants as verdict;
ghost use Rattle.cedar_command.specs.declared.request.Command.TheVariants as command;
ghost use Rattle.cedar_syntax.specs.faults.ParseErrors.{IsMemory};

use crate::run::{Verdict, print_failure};
use crate::streams::{Output, Stop};
use cedar_policy_parser::ExtStyles;
use cedar_policy_parser::formatter::format_policies;
use cedar_syntax::err::Failure;
use std::alloc::Global;
use std::io::Write;

/// Prints the text's policies in lines, or its faults.
pub(crate) fn format<O: Write>(
    alloc: Global,
    styles: &ExtStyles,
    text: &str,
    out: &mut Output<O>,
) -> Result<Verdict, Stop>
    ensures verdict { IfOk result (λ v.
        IsVerdict command.Format (table_of styles.now) text.now v) }
    ensures written { IfOk result (λ v. IsAnswerWritten command.Format
        (table_of styles.now) text.now v (writing O.contents out.old out.new)) }
    ensures stops { IfErr result (λ stop.
        StopsWriting (out.new ≡ out.old) (writer_state out.new) stop) }
{
    match lines_of(alloc, styles, text) {
        Ok(lines) => print_lines(lines.as_str(), out),
        Err(failure) => print_failure(&failure, out),
    }
}

/// The lines of a text that means a set of policies under a table.
fn lines_of(alloc: Global, styles: &ExtStyles, text: &str) -> Result<String, Failure>
    ensures meant { IfOk result (λ lines. IsMeant command.Format (table_of styles.now) text.now) }
    ensures lines { IfOk result (λ lines. AreLinesOf (string_bytes lines) text.now) }
    ensures only { IsMeant command.Format (table_of styles.now) text.now → IfErr result IsMemory }
    ensures refused { IfErr result (λ failure.
        RefusesFor command.Format (table_of styles.now) text.now failure) }
{
    format_policies(alloc, text, styles)
}

fn print_lines<O: Write>(lines: &str, out: &mut Output<O>) -> Result<Verdict, Stop>
    ensures verdict { IfOk result (λ v. v ≡ verdict.Accepted) }
    ensures written { OnOk result (AreBytesWritten lines.now
        (writing O.contents out.old out.new)) }
    ensures failed { IfErr result (FailsFor (writer_state out.new)) }
{
    write!(out, "{lines}")?;
    Ok(Verdict::Accepted)
}
