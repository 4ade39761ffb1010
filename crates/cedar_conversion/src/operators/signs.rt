//! Signs before an operand.
ghost use Rattle.std.specs.Prelude.{◌≡◌, ◌≤◌, ◌⊎◌, IfOk, IfSome, IsSome, MatchOption, pos, neg_ℤ, Ok, true, false};
ghost use Rattle.cedar_expressions.specs.Meaning.{operator_call};
ghost use Rattle.cedar_conversion.specs.outcome.Conversion.{application_outcome, dashes_outcome, negative as negative_of, signs_outcome};
ghost use Rattle.cedar_conversion.specs.outcome.Detail.{sign};
ghost use Rattle.cedar_conversion.specs.outcome.Held.{Held};
ghost use Rattle.cedar_conversion.specs.outcome.Outcome.{Outcome, detailed_outcome, unary_op_limit};
ghost use Rattle.cedar_conversion.specs.outcome.Seen.{Gives};
ghost use Rattle.cedar_conversion.specs.strict.Strict.{iteration, largest};
ghost use Rattle.cedar_conversion.specs.machines.Nested.{is_counted};
ghost use Rattle.cedar_conversion.specs.machines.Views.{TellsOne, plain};

use crate::answer::failure::BoxedFailure;
use crate::answer::special::{ExprOrSpecial, builder_at, expr_at, expr_of, refusal};
use crate::leaves::literals::LARGEST;
use cedar_expressions::{ExprBuilderInfallibleBuild, Literal, UnaryOp};
use cedar_syntax::cst::NegOp;
use cedar_syntax::err::ToASTErrorKind;
use cedar_syntax::loc::Loc;
use std::alloc::{AllocError, Global};

/// One sign before an expression.
#[inline(always)]
fn signed_once<B: ExprBuilderInfallibleBuild>(
    alloc: Global,
    loc: &Option<Loc>,
    op: UnaryOp,
    inner: B::Expr,
) -> Result<B::Expr, AllocError>
    ensures { IfOk result (λ e. B.meaning e ≡ operator_call op (B.meaning inner)) }
{
    let builder = builder_at::<B>(alloc, loc);
    match op {
        UnaryOp::Not => builder.not(inner),
        UnaryOp::Neg => builder.neg(inner),
    }
}

/// As many of one sign before an expression.
fn repeat_sign<B: ExprBuilderInfallibleBuild>(
    alloc: Global,
    loc: &Option<Loc>,
    op: UnaryOp,
    count: u8,
    inner: B::Expr,
) -> Result<B::Expr, BoxedFailure>
    ensures { Gives B.meaning result (Ok (iteration count (operator_call op) (B.meaning inner))) }
{
    let mut all = inner;
    for i in 0..count {
        all = signed_once::<B>(alloc, loc, op, all)?;
    }
    Ok(all)
}

fn negate(number: u64) -> i64
    requires { number ≤ largest }
    ensures { result ≡ neg_ℤ (pos number) }
{
    if number == LARGEST {
        i64::MIN
    } else {
        -(number as i64)
    }
}

/// The last `-` and a number as one literal, which stands at the number (`at`), and the other `-`
/// before it.
fn negative<B: ExprBuilderInfallibleBuild>(
    alloc: Global,
    loc: &Option<Loc>,
    at: &Option<Loc>,
    others: u8,
    number: u64,
) -> Result<ExprOrSpecial<B::Expr>, BoxedFailure>
    ensures { Gives (plain B.meaning) result (negative_of loc.now others number) }
{
    if number > LARGEST {
        return Err(refusal(alloc, ToASTErrorKind::IntegerLiteralTooLarge(number), loc));
    }
    let literal = builder_at::<B>(alloc, at).val(Literal::Long(negate(number)))?;
    expr_at::<B>(
        repeat_sign::<B>(alloc, loc, UnaryOp::Neg, others, literal)?,
        loc,
    )
}

/// Signs above the limit.
fn unary_op_limit(alloc: Global, op: UnaryOp, loc: &Option<Loc>) -> BoxedFailure
    ensures { TellsOne result (unary_op_limit, loc.now, sign op) }
{
    refusal(alloc, ToASTErrorKind::UnaryOpLimit(op), loc)
}

/// What signs give whatever their operand, which stands at `at`, gives, or `None` where the
/// operand is needed.
pub(crate) fn without_operand<B: ExprBuilderInfallibleBuild>(
    alloc: Global,
    loc: &Option<Loc>,
    at: &Option<Loc>,
    op: Option<NegOp>,
    bare: Option<u64>,
) -> Option<Result<ExprOrSpecial<B::Expr>, BoxedFailure>>
    ensures given { MatchOption result (is_counted op ≡ true) (λ answer.
        (x : Outcome Held) → Gives (plain B.meaning) answer (signs_outcome loc.now op bare x)) }
    ensures unasked { IfSome result (λ answer. (is_counted op ≡ false) ⊎ IsSome bare) }
{
    match op {
        None | Some(NegOp::Bang(_)) => None,
        Some(NegOp::OverBang) => Some(Err(unary_op_limit(alloc, UnaryOp::Not, loc))),
        Some(NegOp::OverDash) => Some(Err(unary_op_limit(alloc, UnaryOp::Neg, loc))),
        Some(NegOp::Dash(count)) => match bare {
            None => None,
            Some(number) => {
                if count == 0 {
                    return None;
                }
                Some(negative::<B>(alloc, loc, at, count - 1, number))
            }
        },
    }
}

/// What signs give before what is no number, of what their operand gives.
fn apply_sign<B: ExprBuilderInfallibleBuild>(
    alloc: Global,
    loc: &Option<Loc>,
    op: UnaryOp,
    count: u8,
    item: Result<ExprOrSpecial<B::Expr>, BoxedFailure>,
) -> Result<ExprOrSpecial<B::Expr>, BoxedFailure>
    ensures { (x : Outcome Held) → Gives (plain B.meaning) item x
        → Gives (plain B.meaning) result
        (application_outcome loc.now count (operator_call op) x) }
{
    if count == 0 {
        return item;
    }
    let inner = expr_of::<B>(alloc, item)?;
    expr_at::<B>(repeat_sign::<B>(alloc, loc, op, count, inner)?, loc)
}

/// What `-` gives, of what its operand gives.
fn apply_dashes<B: ExprBuilderInfallibleBuild>(
    alloc: Global,
    loc: &Option<Loc>,
    count: u8,
    bare: Option<u64>,
    item: Result<ExprOrSpecial<B::Expr>, BoxedFailure>,
) -> Result<ExprOrSpecial<B::Expr>, BoxedFailure>
    ensures { (x : Outcome Held) → Gives (plain B.meaning) item x
        → Gives (plain B.meaning) result (dashes_outcome loc.now count bare x) }
{
    match bare {
        Some(number) => {
            if count == 0 {
                return item;
            }
            negative::<B>(alloc, loc, loc, count - 1, number)
        }
        None => apply_sign::<B>(alloc, loc, UnaryOp::Neg, count, item),
    }
}

/// Signs above the limit, whatever their operand gives.
fn refuse_signs<B: ExprBuilderInfallibleBuild>(
    alloc: Global,
    loc: &Option<Loc>,
    op: UnaryOp,
    item: Result<ExprOrSpecial<B::Expr>, BoxedFailure>,
) -> Result<ExprOrSpecial<B::Expr>, BoxedFailure>
    ensures { Gives (plain B.meaning) result
        (detailed_outcome unary_op_limit loc.now (sign op)) }
{
    drop(item);
    Err(unary_op_limit(alloc, op, loc))
}

/// What signs give, of what their operand gives.
pub(crate) fn signed_from<B: ExprBuilderInfallibleBuild>(
    alloc: Global,
    loc: &Option<Loc>,
    op: Option<NegOp>,
    bare: Option<u64>,
    item: Result<ExprOrSpecial<B::Expr>, BoxedFailure>,
) -> Result<ExprOrSpecial<B::Expr>, BoxedFailure>
    ensures { (x : Outcome Held) → Gives (plain B.meaning) item x
        → Gives (plain B.meaning) result (signs_outcome loc.now op bare x) }
{
    match op {
        None => item,
        Some(NegOp::Bang(count)) => apply_sign::<B>(alloc, loc, UnaryOp::Not, count, item),
        Some(NegOp::Dash(count)) => apply_dashes::<B>(alloc, loc, count, bare, item),
        Some(NegOp::OverBang) => refuse_signs::<B>(alloc, loc, UnaryOp::Not, item),
        Some(NegOp::OverDash) => refuse_signs::<B>(alloc, loc, UnaryOp::Neg, item),
    }
}
