//! The parser for hosts in C, Rust, Python and Go: a text in, its policies or its faults out, as
//! plain structs that the host reads in place.
//!
//! An answer is made in the memory of the host's heap and belongs to the host; `cedar.h` says how
//! it is freed. A text may call the functions and methods of Cedar's own extensions. Each call
//! answers every text: it neither recurses, aborts nor blocks.
#![tactic(auto)]

ghost use Rattle.std.specs.Prelude.{◌≡◌};
ghost use Rattle.cedar_conversion.specs.strict.CedarExtensions.{cedar_extensions};
ghost use Rattle.cedar_answers.specs.Answers.{AnswersExpression, AnswersLayout, AnswersLines, AnswersPolicies, AnswersWritten};
ghost use Rattle.cedar_answers.specs.Places.{IsPlaced};

use cedar_answers::{
    CedarAnswer, CedarPosition, expressions, layouts, lines, places, policies, written,
};
use std::alloc::Global;

/// The layout of the structs.
#[unsafe(no_mangle)]
pub extern "C" fn cedar_c_abi() -> u32
    ensures { result ≡ 1 }
{
    1
}

/// Parses policies. The answer's status is 0 with the policies that the text means, 1 with the
/// faults for which it means none, 2 where it isn't UTF-8, or 3 for want of memory.
#[unsafe(no_mangle)]
pub extern "C" fn cedar_c_parse_policies(alloc: Global, text: &[u8], out: &mut CedarAnswer)
    ensures { AnswersPolicies cedar_extensions text.now out.new }
{
    *out = policies::answer(alloc, text);
}

/// Parses one expression, and prints its tree. The status is as that of `cedar_c_parse_policies`.
#[unsafe(no_mangle)]
pub extern "C" fn cedar_c_parse_expression(alloc: Global, text: &[u8], out: &mut CedarAnswer)
    ensures { AnswersExpression cedar_extensions text.now out.new }
{
    *out = expressions::answer(alloc, text);
}

/// Writes policies anew, each on a line of its own, without comments. The status is as that of
/// `cedar_c_parse_policies`.
#[unsafe(no_mangle)]
pub extern "C" fn cedar_c_format_policies(alloc: Global, text: &[u8], out: &mut CedarAnswer)
    ensures { AnswersLines cedar_extensions text.now out.new }
{
    *out = lines::answer(alloc, text);
}

/// Lays a text of policies out over lines with its comments, as wide and as far indented as it is
/// told. The status is 0 where the text has a tree, whether that means something or not, 1 with
/// the faults for which it has none, 2 where it isn't UTF-8, or 3 for want of memory.
#[unsafe(no_mangle)]
pub extern "C" fn cedar_c_layout_policies(
    alloc: Global,
    text: &[u8],
    width: usize,
    indent: usize,
    out: &mut CedarAnswer,
)
    ensures { AnswersLayout (record { width = width; indent = indent }) text.now out.new }
{
    *out = layouts::answer(alloc, text, width, indent);
}

/// Writes the policies that a text means anew, each on a line of its own, in the order of their
/// names: annotations in the order of their keys, no comments, no parentheses but those that the
/// meaning needs. What is written means the same set as the text. The status is as that of
/// `cedar_c_parse_policies`.
#[unsafe(no_mangle)]
pub extern "C" fn cedar_c_write_policies(alloc: Global, text: &[u8], out: &mut CedarAnswer)
    ensures { AnswersWritten cedar_extensions text.now out.new }
{
    *out = written::answer(alloc, text);
}

/// The line and the columns of a byte of a text; of its end, where the byte lies behind it. It
/// answers 0 with the place in `out`, or 2 where the text isn't UTF-8, or 3 for want of memory,
/// with zeros.
#[unsafe(no_mangle)]
pub extern "C" fn cedar_c_position(
    alloc: Global,
    text: &[u8],
    offset: usize,
    out: &mut CedarPosition,
) -> u32
    ensures { IsPlaced text.now offset result out.new }
{
    let place = places::answer(alloc, text, offset);
    *out = place.position;
    place.status
}
