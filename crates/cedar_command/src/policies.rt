//! The command `policies`: a text's policies, each by its name, and how many they are.
ghost use Rattle.std.specs.Prelude.{◌≡◌, IfOk, IfErr, OnOk};
ghost use Rattle.cedar_conversion.specs.strict.Table.{table_of};
ghost use Rattle.cedar_policy_conversion.specs.PolicyMeaning.{policy_id};
ghost use Rattle.cedar_policy_parser.specs.meaning.Formatted.{MeansSet};
ghost use Rattle.cedar_policy_store.specs.PlaceFree.{set_meaning};
ghost use Rattle.cedar_command.specs.Ends.{IsMeant, IsVerdict, IsAnswerWritten, IsAnswerBegun, RefusesFor, StopsWriting};
ghost use Rattle.cedar_command.specs.PolicyLines.{AreFirstLinesWritten, kind_line, policy_line, policy_lines, set_lines, set_size};
ghost use Rattle.cedar_command.specs.Streams.{stream, writer_state, writing, AreBytesWritten, FailsFor};
ghost use Rattle.cedar_command.specs.declared.run.Verdict.TheVariants as verdict;
ghost use Rattle.cedar_command.specs.declared.request.Command.TheVariants as command;
ghost use Rattle.cedar_syntax.specs.faults.ParseErrors.{IsMemory};

use crate::run::{Verdict, print_failure};
use crate::streams::{Output, Stop};
use cedar_policy_parser::cst_to_ast::policy_id;
use cedar_policy_parser::{ExtStyles, parse_policyset};
use cedar_policy_store::{PolicyID, PolicySet};
use cedar_syntax::err::Failure;
use std::alloc::Global;
use std::io::Write;

/// Prints the text's policies and how many they are, or its faults.
pub(crate) fn policies<O: Write>(
    alloc: Global,
    styles: &ExtStyles,
    text: &str,
    out: &mut Output<O>,
) -> Result<Verdict, Stop>
    ensures verdict { IfOk result (λ v.
        IsVerdict command.Policies (table_of styles.now) text.now v) }
    ensures written { IfOk result (λ v. IsAnswerWritten command.Policies
        (table_of styles.now) text.now v (writing O.contents out.old out.new)) }
    ensures stops { IfErr result (λ stop. StopsWriting (IsAnswerBegun command.Policies
        (table_of styles.now) text.now (stream O.contents out.old out.new))
        (writer_state out.new) stop) }
{
    match set_of(alloc, styles, text) {
        Ok(set) => print_policies(alloc, &set, out),
        Err(failure) => print_failure(&failure, out),
    }
}

/// The set that a text means under a table.
fn set_of(alloc: Global, styles: &ExtStyles, text: &str) -> Result<PolicySet, Failure>
    ensures meant { IfOk result (λ set. IsMeant command.Policies (table_of styles.now) text.now) }
    ensures set { IfOk result (λ set. MeansSet
        (table_of styles.now) text.now (set_meaning set)) }
    ensures only { IsMeant command.Policies (table_of styles.now) text.now
        → IfErr result IsMemory }
    ensures refused { IfErr result (λ failure.
        RefusesFor command.Policies (table_of styles.now) text.now failure) }
{
    parse_policyset(alloc, text, styles)
}

/// One line a policy, in the order of the text, and one with their number.
fn print_policies<O: Write>(
    alloc: Global,
    set: &PolicySet,
    out: &mut Output<O>,
) -> Result<Verdict, Stop>
    ensures verdict { IfOk result (λ v. v ≡ verdict.Accepted) }
    ensures written { OnOk result (AreBytesWritten (set_lines set.now)
        (writing O.contents out.old out.new)) }
    ensures stops { IfErr result (λ stop. StopsWriting (AreFirstLinesWritten set.now
        (writing O.contents out.old out.new)) (writer_state out.new) stop) }
{
    let count = set_size(set);
    print_numbered(alloc, set, count, out)?;
    writeln!(out, "ok {count}")?;
    Ok(Verdict::Accepted)
}

/// How many policies a set has, the templates among them.
fn set_size(set: &PolicySet) -> usize
    ensures { result ≡ set_size set.now }
{
    let templates = set.templates().count();
    set.static_policies().count().saturating_add(templates)
}

/// The policies of the first numbers.
fn print_numbered<O: Write>(
    alloc: Global,
    set: &PolicySet,
    count: usize,
    out: &mut Output<O>,
) -> Result<(), Stop>
    ensures written { OnOk result (AreBytesWritten (policy_lines set.now count)
        (writing O.contents out.old out.new)) }
    ensures stops { IfErr result (λ stop. StopsWriting (AreFirstLinesWritten set.now
        (writing O.contents out.old out.new)) (writer_state out.new) stop) }
{
    for number in 0..count {
        print_policy(alloc, set, number, out)?;
    }
    Ok(())
}

/// The policy of a number: `policy3 static`, or `policy3 template`.
fn print_policy<O: Write>(
    alloc: Global,
    set: &PolicySet,
    number: usize,
    out: &mut Output<O>,
) -> Result<(), Stop>
    ensures written { OnOk result (AreBytesWritten (policy_line set.now (policy_id number))
        (writing O.contents out.old out.new)) }
    ensures stops { IfErr result (λ stop.
        StopsWriting (out.new ≡ out.old) (writer_state out.new) stop) }
{
    let Ok(id) = policy_id(alloc, number) else {
        return Err(Stop::Memory);
    };
    print_kind(set.static_policy(&id).is_some(), &id, "static", out)?;
    print_kind(set.template(&id).is_some(), &id, "template", out)
}

/// A policy's line, where it is of this kind.
fn print_kind<O: Write>(
    is_kind: bool,
    id: &PolicyID,
    kind: &str,
    out: &mut Output<O>,
) -> Result<(), Stop>
    ensures written { OnOk result (AreBytesWritten (kind_line is_kind id.now kind.now)
        (writing O.contents out.old out.new)) }
    ensures failed { IfErr result (FailsFor (writer_state out.new)) }
{
    if is_kind {
        writeln!(out, "{} {kind}", id.as_str())?;
    }
    Ok(())
}
