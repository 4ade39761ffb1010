//! A text of policies laid out over lines.
ghost use Rattle.std.specs.Prelude.{IfOk, IfErr, string_bytes};
ghost use Rattle.cedar_syntax.specs.faults.ParseErrors.{IsMemory};
ghost use Rattle.cedar_answers.specs.Answers.{AnswersLayout, HasPolicyTree, IsLaidOutText, RefusesTree};

use crate::answer::{CedarAnswer, NOT_UTF8, bare};
use crate::refusals::{refused, with_text};
use cedar_policy_parser::err::Failure;
use cedar_policy_parser::{LayoutOptions, layout_policies};
use std::alloc::Global;

/// A text laid out over lines, as wide and as far indented as it is told.
pub fn answer(alloc: Global, text: &[u8], width: usize, indent: usize) -> CedarAnswer
    ensures { AnswersLayout (record { width = width; indent = indent }) text.now result }
{
    let options = LayoutOptions { width, indent };
    match str::from_utf8(text) {
        Ok(text) => answer_text(alloc, text, &options),
        Err(_) => bare(NOT_UTF8),
    }
}

fn answer_text(alloc: Global, text: &str, options: &LayoutOptions) -> CedarAnswer
    ensures { AnswersLayout options.now text.now result }
{
    match layout_of(alloc, text, options) {
        Ok(out) => with_text(out),
        Err(failure) => refused(alloc, text, &failure),
    }
}

/// A text laid out over lines, with its comments, whether its policies mean something or not. A
/// text that has no tree is refused with its faults, or it is want of memory.
fn layout_of(alloc: Global, text: &str, options: &LayoutOptions) -> Result<String, Failure>
    ensures read { IfOk result (λ out. HasPolicyTree text.now) }
    ensures laid { IfOk result (λ out. IsLaidOutText options.now text.now (string_bytes out)) }
    ensures only { HasPolicyTree text.now → IfErr result IsMemory }
    ensures refused { IfErr result (λ failure. RefusesTree failure text.now) }
{
    layout_policies(alloc, text, options)
}
