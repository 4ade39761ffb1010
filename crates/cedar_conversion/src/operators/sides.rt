//! `has`, `like`, `is` and `is .. in`, of what their sides give.
ghost use Rattle.cedar_expressions.specs.Value.{Value};
ghost use Rattle.cedar_conversion.specs.outcome.Conversion.{ValueAndType, beside_type, match_outcome, type_test_outcome, type_within_outcome, with_attributes};
ghost use Rattle.cedar_conversion.specs.parts.HasSide.{Attributes as Named};
ghost use Rattle.cedar_conversion.specs.outcome.Held.{Held, as_pattern};
ghost use Rattle.cedar_conversion.specs.outcome.Outcome.{Outcome, both, next};
ghost use Rattle.cedar_conversion.specs.outcome.Seen.{Gives};
ghost use Rattle.cedar_conversion.specs.machines.Applied.{Matched, seen_attributes, seen_pattern, seen_type};
ghost use Rattle.cedar_conversion.specs.machines.Views.{plain};

use crate::answer::failure::{BoxedFailure, flatten_tuple_2};
use crate::answer::special::{ExprOrSpecial, builder_at, expr_at};
use crate::answer::wanted::{into_entity_type, into_pattern};
use crate::operators::has_side::Attributes;
use cedar_expressions::{EntityType, ExprBuilderInfallibleBuild, PatternElem};
use cedar_syntax::loc::Loc;
use std::alloc::Global;

/// `has`: the right side, and then the left one.
#[inline(never)]
pub(crate) fn has_from<B: ExprBuilderInfallibleBuild>(
    alloc: Global,
    loc: &Option<Loc>,
    right: Result<Attributes, BoxedFailure>,
    target: Result<B::Expr, BoxedFailure>,
) -> Result<ExprOrSpecial<B::Expr>, BoxedFailure>
    ensures { (r : Outcome Named) (x : Outcome Value) → Gives seen_attributes right r
        → Gives B.meaning target x → Gives (plain B.meaning) result
        (next r (λ named. next x (with_attributes loc.now named))) }
{
    let (first, rest) = right?;
    let target = target?;
    expr_at::<B>(
        builder_at::<B>(alloc, loc).extended_has_attr(target, first, rest)?,
        loc,
    )
}

/// The right side's conversion, and then a value and the pattern right of its `like` joined.
fn pattern_beside<B: ExprBuilderInfallibleBuild>(
    alloc: Global,
    target: Result<B::Expr, BoxedFailure>,
    right: Result<ExprOrSpecial<B::Expr>, BoxedFailure>,
) -> Result<(B::Expr, Vec<PatternElem>), BoxedFailure>
    ensures { (x : Outcome Value) (h : Outcome Held) → Gives B.meaning target x
        → Gives (plain B.meaning) right h → Gives (seen_pattern B.meaning) result
        (next h (λ held. both x (as_pattern held))) }
{
    let right = right?;
    let pattern = into_pattern::<B>(alloc, &right);
    drop(right);
    flatten_tuple_2(target, pattern)
}

/// A value and the pattern right of its `like`.
fn match_from<B: ExprBuilderInfallibleBuild>(
    alloc: Global,
    loc: &Option<Loc>,
    pair: Result<(B::Expr, Vec<PatternElem>), BoxedFailure>,
) -> Result<ExprOrSpecial<B::Expr>, BoxedFailure>
    ensures { (p : Outcome Matched) → Gives (seen_pattern B.meaning) pair p
        → Gives (plain B.meaning) result (next p (match_outcome loc.now)) }
{
    let (target, pattern) = pair?;
    expr_at::<B>(builder_at::<B>(alloc, loc).like(target, pattern)?, loc)
}

/// `like`: the right side's conversion, and then the left side and the pattern joined.
#[inline(never)]
pub(crate) fn like_from<B: ExprBuilderInfallibleBuild>(
    alloc: Global,
    loc: &Option<Loc>,
    target: Result<B::Expr, BoxedFailure>,
    right: Result<ExprOrSpecial<B::Expr>, BoxedFailure>,
) -> Result<ExprOrSpecial<B::Expr>, BoxedFailure>
    ensures { (x : Outcome Value) (h : Outcome Held) → Gives B.meaning target x
        → Gives (plain B.meaning) right h → Gives (plain B.meaning) result
        (next h (λ held. next (both x (as_pattern held)) (match_outcome loc.now))) }
{
    match_from::<B>(alloc, loc, pattern_beside::<B>(alloc, target, right))
}

/// The right side's conversion, and then a value and the entity type right of its `is` joined.
/// `loc` is the value's place.
#[inline(never)]
pub(crate) fn type_beside<B: ExprBuilderInfallibleBuild>(
    alloc: Global,
    loc: &Option<Loc>,
    target: Result<B::Expr, BoxedFailure>,
    right: Result<ExprOrSpecial<B::Expr>, BoxedFailure>,
) -> Result<(B::Expr, EntityType), BoxedFailure>
    ensures { (x : Outcome Value) (h : Outcome Held) → Gives B.meaning target x
        → Gives (plain B.meaning) right h
        → Gives (seen_type B.meaning) result (next h (beside_type x)) }
{
    let right = right?;
    let left = if target.is_ok() { loc.as_ref() } else { None };
    flatten_tuple_2(target, into_entity_type::<B>(alloc, left, right))
}

/// `is`.
#[inline(never)]
pub(crate) fn is_from<B: ExprBuilderInfallibleBuild>(
    alloc: Global,
    loc: &Option<Loc>,
    typed_value: Result<(B::Expr, EntityType), BoxedFailure>,
) -> Result<ExprOrSpecial<B::Expr>, BoxedFailure>
    ensures { (p : Outcome ValueAndType) → Gives (seen_type B.meaning) typed_value p
        → Gives (plain B.meaning) result (next p (type_test_outcome loc.now)) }
{
    let (target, entity_type) = typed_value?;
    expr_at::<B>(
        builder_at::<B>(alloc, loc).is_entity_type(target, entity_type)?,
        loc,
    )
}

/// `is` with `in`: what is typed, and then what stands behind `in`.
#[inline(never)]
pub(crate) fn is_in_from<B: ExprBuilderInfallibleBuild>(
    alloc: Global,
    loc: &Option<Loc>,
    typed_value: Result<(B::Expr, EntityType), BoxedFailure>,
    within: Result<B::Expr, BoxedFailure>,
) -> Result<ExprOrSpecial<B::Expr>, BoxedFailure>
    ensures { (p : Outcome ValueAndType) (x : Outcome Value)
        → Gives (seen_type B.meaning) typed_value p
        → Gives B.meaning within x → Gives (plain B.meaning) result
        (next p (λ q. next x (type_within_outcome loc.now q))) }
{
    let (target, entity_type) = typed_value?;
    let within = within?;
    let builder = builder_at::<B>(alloc, loc);
    expr_at::<B>(builder.is_in_entity_type(target, entity_type, within)?, loc)
}
