//! Policies written anew, each on a line.
ghost use Rattle.std.specs.Prelude.{IfOk, IfErr, string_bytes};
ghost use Rattle.cedar_conversion.specs.strict.CedarExtensions.{cedar_extensions};
ghost use Rattle.cedar_conversion.specs.strict.Table.{table_of};
ghost use Rattle.cedar_policy_parser.specs.faults.Refused.{RefusesSet};
ghost use Rattle.cedar_syntax.specs.faults.ParseErrors.{IsMemory};
ghost use Rattle.cedar_answers.specs.Answers.{AnswersLines, AreLinesFor, MeansPolicySet};

use crate::answer::{CedarAnswer, NO_MEMORY, NOT_UTF8, bare};
use crate::refusals::{refused, with_text};
use cedar_policy_parser::err::Failure;
use cedar_policy_parser::{ExtStyles, format_policies};
use std::alloc::Global;

/// The policies of a text in lines, under Cedar's own extensions.
pub fn answer(alloc: Global, text: &[u8]) -> CedarAnswer
    ensures { AnswersLines cedar_extensions text.now result }
{
    match str::from_utf8(text) {
        Ok(text) => answer_text(alloc, text),
        Err(_) => bare(NOT_UTF8),
    }
}

fn answer_text(alloc: Global, text: &str) -> CedarAnswer
    ensures { AnswersLines cedar_extensions text.now result }
{
    match ExtStyles::cedar(alloc) {
        Ok(styles) => answer_under(alloc, text, &styles),
        Err(_) => bare(NO_MEMORY),
    }
}

fn answer_under(alloc: Global, text: &str, styles: &ExtStyles) -> CedarAnswer
    ensures { AnswersLines (table_of styles.now) text.now result }
{
    match lines_of(alloc, text, styles) {
        Ok(lines) => with_text(lines),
        Err(failure) => refused(alloc, text, &failure),
    }
}

/// The policies that a text means, each on a line. Any other text is refused with its faults, or
/// it is want of memory.
fn lines_of(alloc: Global, text: &str, styles: &ExtStyles) -> Result<String, Failure>
    ensures meant { IfOk result (λ lines. MeansPolicySet (table_of styles.now) text.now) }
    ensures lines { IfOk result (λ lines. AreLinesFor
        (table_of styles.now) text.now (string_bytes lines)) }
    ensures only { MeansPolicySet (table_of styles.now) text.now → IfErr result IsMemory }
    ensures refused { IfErr result (λ failure. RefusesSet
        (table_of styles.now) failure text.now) }
{
    format_policies(alloc, text, styles)
}
