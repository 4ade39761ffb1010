//! Literals: truth values, numbers and strings.
ghost use Rattle.std.specs.Prelude.{◌≡◌, Ok};
ghost use Rattle.std.specs.Option.{option_copied};
ghost use Rattle.cedar_expressions.specs.Value.{Value};
ghost use Rattle.cedar_syntax.specs.trees.Forms.{located, primary_form, member_form};
ghost use Rattle.cedar_conversion.specs.outcome.Conversion.{literal_outcome, held_string, number_outcome, number_in, literal_alone, lone_literal};
ghost use Rattle.cedar_conversion.specs.outcome.Held.{bare_truth};
ghost use Rattle.cedar_conversion.specs.outcome.Detail as d;
ghost use Rattle.cedar_conversion.specs.outcome.Outcome.{integer_literal_too_large, invalid_string};
ghost use Rattle.cedar_conversion.specs.outcome.Seen.{Gives};
ghost use Rattle.cedar_conversion.specs.machines.Views.{TellsAlone, TellsOne, plain};

use crate::answer::failure::BoxedFailure;
use crate::answer::special::{ExprOrSpecial, builder_at, empty_node, refusal, refusal_with};
use crate::answer::{Converted, empty_node_in, put};
use crate::operators::single_child::SingleChild;
use cedar_expressions::{ExprBuilderInfallibleBuild, Literal, Text, TryClone};
use cedar_syntax::cst;
use cedar_syntax::err::ToASTErrorKind;
use cedar_syntax::loc::Loc;
use cedar_syntax::node::Node;
use std::alloc::Global;

/// The largest number behind a `-`.
pub(crate) const LARGEST: u64 = 0x8000_0000_0000_0000;

/// A number that is too large behind no `-`.
#[cold]
#[inline(never)]
fn too_large(alloc: Global, loc: &Option<Loc>, number: u64) -> BoxedFailure
    ensures { TellsOne result (integer_literal_too_large, loc.now, d.number number) }
{
    refusal(alloc, ToASTErrorKind::IntegerLiteralTooLarge(number), loc)
}

#[inline(always)]
fn number<B: ExprBuilderInfallibleBuild>(
    alloc: Global,
    loc: &Option<Loc>,
    number: u64,
) -> Result<ExprOrSpecial<B::Expr>, BoxedFailure>
    ensures { Gives (plain B.meaning) result (number_outcome loc.now number) }
{
    if number >= LARGEST {
        return Err(too_large(alloc, loc, number));
    }
    let place = loc.try_clone()?;
    let literal = builder_at::<B>(alloc, loc).val(Literal::Long(number as i64))?;
    Ok(ExprOrSpecial::Expr(literal, place))
}

/// A string that no text is written as, with its raw text.
pub(crate) fn invalid_raw(alloc: Global, raw: &Text, loc: &Option<Loc>) -> BoxedFailure
    ensures { TellsAlone result invalid_string loc.now }
{
    let kind = raw.try_clone().map(ToASTErrorKind::InvalidString);
    refusal_with(alloc, kind, loc)
}

/// A string, which has the place of its literal.
#[inline(always)]
fn raw_string<E>(
    alloc: Global,
    loc: &Option<Loc>,
    node: &Node<Option<cst::Str>>,
) -> Result<ExprOrSpecial<E>, BoxedFailure>
    ensures { (meaning : E → Value)
        → Gives (plain meaning) result (held_string loc.now node.now.loc node.now.node) }
{
    match &node.node {
        Some(cst::Str::String(raw)) => {
            let raw = raw.try_clone()?;
            Ok(ExprOrSpecial::StrLit(raw, loc.try_clone()?))
        }
        Some(cst::Str::Invalid(raw)) => Err(invalid_raw(alloc, raw, &node.loc)),
        None => Err(empty_node(alloc, &node.loc)),
    }
}

#[inline(always)]
fn truth<E>(value: bool, loc: &Option<Loc>) -> Result<ExprOrSpecial<E>, BoxedFailure>
    ensures { (meaning : E → Value) → Gives (plain meaning) result
        (Ok (bare_truth loc.now value)) }
{
    Ok(ExprOrSpecial::BoolLit(value, loc.try_clone()?))
}

// ---- literals, each in a function of its own: none has room for what another one moves

#[inline(never)]
fn truth_in<B: ExprBuilderInfallibleBuild>(
    value: bool,
    loc: &Option<Loc>,
    answer: &mut Converted<B::Expr>,
)
    ensures { Gives (plain B.meaning) answer.new (Ok (bare_truth loc.now value)) }
{
    put(answer, truth::<B::Expr>(value, loc))
}

#[inline(never)]
fn number_in<B: ExprBuilderInfallibleBuild>(
    alloc: Global,
    loc: &Option<Loc>,
    value: u64,
    answer: &mut Converted<B::Expr>,
)
    ensures { Gives (plain B.meaning) answer.new (number_outcome loc.now value) }
{
    // A call for each: through one call both answers would be joined in a room first.
    match number::<B>(alloc, loc, value) {
        Ok(number) => put(answer, Ok(number)),
        Err(failure) => put(answer, Err(failure)),
    }
}

#[inline(never)]
fn string_in<B: ExprBuilderInfallibleBuild>(
    alloc: Global,
    loc: &Option<Loc>,
    node: &Node<Option<cst::Str>>,
    answer: &mut Converted<B::Expr>,
)
    ensures { Gives (plain B.meaning) answer.new
        (held_string loc.now node.now.loc node.now.node) }
{
    put(answer, raw_string::<B::Expr>(alloc, loc, node))
}

/// A literal.
pub(crate) fn literal<B: ExprBuilderInfallibleBuild>(
    alloc: Global,
    node: &Node<Option<cst::Literal>>,
    answer: &mut Converted<B::Expr>,
)
    ensures { Gives (plain B.meaning) answer.new (literal_outcome node.now.loc node.now.node) }
{
    match &node.node {
        Some(cst::Literal::True) => truth_in::<B>(true, &node.loc, answer),
        Some(cst::Literal::False) => truth_in::<B>(false, &node.loc, answer),
        Some(cst::Literal::Num(value)) => number_in::<B>(alloc, &node.loc, *value, answer),
        Some(cst::Literal::Str(inner)) => string_in::<B>(alloc, &node.loc, inner, answer),
        None => empty_node_in::<B>(alloc, &node.loc, answer),
    }
}

/// The literal that a primary is, if it is one.
fn literal_alone(node: &Node<Option<cst::Primary>>) -> Option<&cst::Literal>
    ensures { option_copied result ≡ literal_alone (located primary_form node.now) }
{
    match &node.node {
        Some(cst::Primary::Literal(inner)) => inner.node.as_ref(),
        Some(cst::Primary::Ref(_)) => None,
        Some(cst::Primary::Name(_)) => None,
        Some(cst::Primary::Slot(_)) => None,
        Some(cst::Primary::Expr(_)) => None,
        Some(cst::Primary::EList(_)) => None,
        Some(cst::Primary::RInits(_)) => None,
        None => None,
    }
}

/// The literal that a member is, if it is a literal and no more.
pub fn literal_of(node: &Node<Option<cst::Member>>) -> Option<&cst::Literal>
    ensures { option_copied result ≡ lone_literal (located member_form node.now) }
{
    match &node.node {
        Some(member) => match member.single_child() {
            Some(item) => literal_alone(item),
            None => None,
        },
        None => None,
    }
}

/// The number that a member is, if it is a number and no more.
pub(crate) fn bare_number(node: &Node<Option<cst::Member>>) -> Option<u64>
    ensures { result ≡ number_in (lone_literal (located member_form node.now)) }
{
    match literal_of(node) {
        Some(cst::Literal::Num(number)) => Some(*number),
        _ => None,
    }
}
