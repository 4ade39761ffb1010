//! Conditionals and parentheses.
ghost use Rattle.cedar_expressions.specs.Value.{Value};
ghost use Rattle.cedar_conversion.specs.outcome.Conversion.{conditional_outcome, expression_at as made_at};
ghost use Rattle.cedar_conversion.specs.outcome.Held.{Held, as_expression};
ghost use Rattle.cedar_conversion.specs.outcome.Outcome.{Outcome, both, next};
ghost use Rattle.cedar_conversion.specs.outcome.Seen.{Gives};
ghost use Rattle.cedar_conversion.specs.machines.Views.{plain};

use crate::answer::failure::{BoxedFailure, flatten_tuple_2};
use crate::answer::special::{ExprOrSpecial, builder_at, expr_at, expr_of};
use cedar_expressions::ExprBuilderInfallibleBuild;
use cedar_syntax::loc::Loc;
use std::alloc::Global;

/// What stands in parentheses, which is an expression and nothing else, at its own place.
pub(crate) fn parens_from<B: ExprBuilderInfallibleBuild>(
    alloc: Global,
    loc: &Option<Loc>,
    inner: Result<ExprOrSpecial<B::Expr>, BoxedFailure>,
) -> Result<ExprOrSpecial<B::Expr>, BoxedFailure>
    ensures { (x : Outcome Held) → Gives (plain B.meaning) inner x
        → Gives (plain B.meaning) result (next (next x as_expression) (made_at loc.now)) }
{
    expr_at::<B>(expr_of::<B>(alloc, inner)?, loc)
}

/// A conditional of its three parts.
pub(crate) fn if_from<B: ExprBuilderInfallibleBuild>(
    alloc: Global,
    loc: &Option<Loc>,
    guard: Result<B::Expr, BoxedFailure>,
    consequent: Result<B::Expr, BoxedFailure>,
    alternative: Result<B::Expr, BoxedFailure>,
) -> Result<ExprOrSpecial<B::Expr>, BoxedFailure>
    ensures { (x y z : Outcome Value) → Gives B.meaning guard x → Gives B.meaning consequent y
        → Gives B.meaning alternative z
        → Gives (plain B.meaning) result (next (both (both x y) z) (conditional_outcome loc.now)) }
{
    let first_two = flatten_tuple_2(guard, consequent);
    let ((guard, consequent), alternative) = flatten_tuple_2(first_two, alternative)?;
    let builder = builder_at::<B>(alloc, loc);
    expr_at::<B>(builder.ite(guard, consequent, alternative)?, loc)
}
