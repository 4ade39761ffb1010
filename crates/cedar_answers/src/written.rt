//! Policies written anew from what they mean.
ghost use Rattle.std.specs.Prelude.{ℕ, List, IfOk, IfErr, string_bytes};
ghost use Rattle.cedar_conversion.specs.strict.CedarExtensions.{cedar_extensions};
ghost use Rattle.cedar_conversion.specs.strict.Table.{table_of};
ghost use Rattle.cedar_policy_parser.specs.faults.Refused.{RefusesSet};
ghost use Rattle.cedar_policy_parser.specs.meaning.Formatted.{MeansSet};
ghost use Rattle.cedar_policy_store.specs.PlaceFree.{set_meaning};
ghost use Rattle.cedar_syntax.specs.faults.ParseErrors.{IsMemory};
ghost use Rattle.cedar_syntax.specs.tokens.Signs.{sign_limit};
ghost use Rattle.cedar_writer.specs.WrittenTexts.{IsTextOfSet};
ghost use Rattle.cedar_answers.specs.Answers.{AnswersWritten, IsWrittenOf, MeansPolicySet};

use crate::answer::{CedarAnswer, NO_MEMORY, NOT_UTF8, bare};
use crate::refusals::{refused, with_text};
use cedar_policy_parser::err::Failure;
use cedar_policy_parser::{ExtStyles, NotWritten, PolicySet, parse_policyset, policyset_to_cedar};
use std::alloc::{AllocError, Global};

/// The policies of a text written anew, under Cedar's own extensions.
pub fn answer(alloc: Global, text: &[u8]) -> CedarAnswer
    ensures { AnswersWritten cedar_extensions text.now result }
{
    match str::from_utf8(text) {
        Ok(text) => answer_text(alloc, text),
        Err(_) => bare(NOT_UTF8),
    }
}

fn answer_text(alloc: Global, text: &str) -> CedarAnswer
    ensures { AnswersWritten cedar_extensions text.now result }
{
    match ExtStyles::cedar(alloc) {
        Ok(styles) => answer_under(alloc, text, &styles),
        Err(_) => bare(NO_MEMORY),
    }
}

fn answer_under(alloc: Global, text: &str, styles: &ExtStyles) -> CedarAnswer
    ensures { AnswersWritten (table_of styles.now) text.now result }
{
    match written_of(alloc, text, styles) {
        Ok(written) => with_text(written),
        Err(failure) => refused(alloc, text, &failure),
    }
}

/// The policies that a text means, written anew as a text that means the same set. Any other text
/// is refused with its faults, or it is want of memory.
fn written_of(alloc: Global, text: &str, styles: &ExtStyles) -> Result<String, Failure>
    ensures meant { IfOk result (λ written. MeansPolicySet (table_of styles.now) text.now) }
    ensures written { IfOk result (λ written. IsWrittenOf
        (table_of styles.now) text.now (string_bytes written)) }
    ensures only { MeansPolicySet (table_of styles.now) text.now → IfErr result IsMemory }
    ensures refused { IfErr result (λ failure. RefusesSet
        (table_of styles.now) failure text.now) }
{
    let set = parse_policyset(alloc, text, styles)?;
    let written = set_text(alloc, &set, styles)?;
    Ok(written)
}

/// The text of a set that some text means.
fn set_text(alloc: Global, set: &PolicySet, styles: &ExtStyles) -> Result<String, AllocError>
    requires { (text : List ℕ) × MeansSet (table_of styles.now) text (set_meaning set.now) }
    ensures { IfOk result (λ written. IsTextOfSet
        (table_of styles.now) sign_limit set.now (string_bytes written)) }
{
    match policyset_to_cedar(alloc, set, styles) {
        Ok(written) => Ok(written),
        Err(NotWritten::Memory) => Err(AllocError),
        // What a text means can be written.
        Err(NotWritten::NotWritable(_)) => unreachable!(),
    }
}
