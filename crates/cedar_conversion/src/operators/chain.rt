//! A first part and those behind operators: disjunctions, conjunctions, relations, sums and
//! products.
ghost use Rattle.std.specs.Prelude.{◌≡◌, List};
ghost use Rattle.cedar_expressions.specs.Value.{Value};
ghost use Rattle.cedar_syntax.specs.trees.Tree.{Operator, Level, disjunction, conjunction, relation, sum, product, or_or, and_and, compare, add, multiply};
ghost use Rattle.cedar_conversion.specs.outcome.Conversion.{Part, operands_outcome, level_outcome, comparison_outcome, factor};
ghost use Rattle.cedar_conversion.specs.outcome.Held.{Held, as_expression};
ghost use Rattle.cedar_conversion.specs.outcome.Outcome.{Outcome, both, next};
ghost use Rattle.cedar_conversion.specs.outcome.Seen.{Gives};
ghost use Rattle.cedar_conversion.specs.machines.Views.{plain, alike_view, rest_view, empty_view, sides_outcome, alike_outcome};

use crate::answer::failure::{BoxedFailure, flatten_tuple_2};
use crate::answer::lists::bodies_of;
use crate::answer::special::{ExprOrSpecial, builder_at, expr_at, into_expr, refusal};
use crate::answer::{Converted, Values, behind, put, take, value_in};
use cedar_expressions::{AddOp, ExprBuilderInfallibleBuild};
use cedar_syntax::cst::{MultOp, RelOp};
use cedar_syntax::err::ToASTErrorKind;
use cedar_syntax::loc::Loc;
use std::alloc::Global;

/// What stands before a further part, and how values behind it are joined.
pub(crate) trait Joins: Copy {
    ghost operator: { Self → Operator };

    ghost level: { Level };

    /// The expression of a first value and those behind operators.
    fn combine<B: ExprBuilderInfallibleBuild>(
        alloc: Global,
        loc: &Option<Loc>,
        first: B::Expr,
        rest: Vec<(Self, B::Expr)>,
    ) -> Result<ExprOrSpecial<B::Expr>, BoxedFailure>
        ensures { Gives (plain B.meaning) result
            (level_outcome level loc.now (rest_view operator B.meaning rest) (B.meaning first)) };
}

/// How values behind one and the same operator are joined.
pub(crate) trait JoinsAlike {
    ghost operator: { Operator };

    ghost level: { Level };

    /// The expression of a first value and those behind the operator.
    fn combine<B: ExprBuilderInfallibleBuild>(
        alloc: Global,
        loc: &Option<Loc>,
        first: B::Expr,
        rest: Vec<B::Expr>,
    ) -> Result<ExprOrSpecial<B::Expr>, BoxedFailure>
        ensures { Gives (plain B.meaning) result
            (level_outcome level loc.now (alike_view operator B.meaning rest) (B.meaning first)) };
}

/// `||`.
pub(crate) struct OrOr;

/// `&&`.
pub(crate) struct AndAnd;

impl JoinsAlike for OrOr {
    ghost operator = { or_or };

    ghost level = { disjunction };

    fn combine<B: ExprBuilderInfallibleBuild>(
        alloc: Global,
        loc: &Option<Loc>,
        first: B::Expr,
        rest: Vec<B::Expr>,
    ) -> Result<ExprOrSpecial<B::Expr>, BoxedFailure> {
        expr_at::<B>(builder_at::<B>(alloc, loc).or_nary(first, rest)?, loc)
    }
}

impl JoinsAlike for AndAnd {
    ghost operator = { and_and };

    ghost level = { conjunction };

    fn combine<B: ExprBuilderInfallibleBuild>(
        alloc: Global,
        loc: &Option<Loc>,
        first: B::Expr,
        rest: Vec<B::Expr>,
    ) -> Result<ExprOrSpecial<B::Expr>, BoxedFailure> {
        expr_at::<B>(builder_at::<B>(alloc, loc).and_naryl(first, rest)?, loc)
    }
}

impl Joins for AddOp {
    ghost operator = { add };

    ghost level = { sum };

    fn combine<B: ExprBuilderInfallibleBuild>(
        alloc: Global,
        loc: &Option<Loc>,
        first: B::Expr,
        rest: Vec<(AddOp, B::Expr)>,
    ) -> Result<ExprOrSpecial<B::Expr>, BoxedFailure>
        ensures { Gives (plain B.meaning) result
            (level_outcome sum loc.now (rest_view add B.meaning rest) (B.meaning first)) }
    {
        expr_at::<B>(builder_at::<B>(alloc, loc).add_nary(first, rest)?, loc)
    }
}

impl Joins for MultOp {
    ghost operator = { multiply };

    ghost level = { product };

    fn combine<B: ExprBuilderInfallibleBuild>(
        alloc: Global,
        loc: &Option<Loc>,
        first: B::Expr,
        rest: Vec<(MultOp, B::Expr)>,
    ) -> Result<ExprOrSpecial<B::Expr>, BoxedFailure>
        ensures { Gives (plain B.meaning) result
            (level_outcome product loc.now (rest_view multiply B.meaning rest) (B.meaning first)) }
    {
        let rest = bodies_of(alloc, rest)?;
        expr_at::<B>(builder_at::<B>(alloc, loc).mul_nary(first, rest)?, loc)
    }
}

fn relate<B: ExprBuilderInfallibleBuild>(
    alloc: Global,
    loc: &Option<Loc>,
    left: B::Expr,
    op: RelOp,
    right: B::Expr,
) -> Result<ExprOrSpecial<B::Expr>, BoxedFailure>
    ensures { Gives (plain B.meaning) result
        (comparison_outcome loc.now op (B.meaning left) (B.meaning right)) }
{
    let builder = builder_at::<B>(alloc, loc);
    let related = match op {
        RelOp::Less => builder.less(left, right),
        RelOp::LessEq => builder.lesseq(left, right),
        RelOp::GreaterEq => builder.greatereq(left, right),
        RelOp::Greater => builder.greater(left, right),
        RelOp::NotEq => builder.noteq(left, right),
        RelOp::Eq => builder.is_eq(left, right),
        RelOp::In => builder.is_in(left, right),
        RelOp::InvalidSingleEq => return Err(refusal(alloc, ToASTErrorKind::InvalidSingleEq, loc)),
    };
    expr_at::<B>(related?, loc)
}

impl Joins for RelOp {
    ghost operator = { compare };

    ghost level = { relation };

    fn combine<B: ExprBuilderInfallibleBuild>(
        alloc: Global,
        loc: &Option<Loc>,
        first: B::Expr,
        rest: Vec<(RelOp, B::Expr)>,
    ) -> Result<ExprOrSpecial<B::Expr>, BoxedFailure>
        ensures { Gives (plain B.meaning) result
            (level_outcome relation loc.now (rest_view compare B.meaning rest) (B.meaning first)) }
    {
        match rest.into_iter().next() {
            None => expr_at::<B>(first, loc),
            Some((op, second)) => relate::<B>(alloc, loc, first, op, second),
        }
    }
}

/// A comparison of a first side and the other one, which the answer is.
#[inline(never)]
pub(crate) fn comparison_in<B: ExprBuilderInfallibleBuild>(
    alloc: Global,
    loc: &Option<Loc>,
    first: &mut Converted<B::Expr>,
    op: RelOp,
    answer: &mut Converted<B::Expr>,
)
    ensures { (x y : Outcome Held) → Gives (plain B.meaning) first.old x
        → Gives (plain B.meaning) answer.old y → Gives (plain B.meaning) answer.new
        (next (both x (next y as_expression)) (sides_outcome loc.now op)) }
{
    match value_in::<B>(alloc, answer) {
        Ok(second) => put(answer, compared::<B>(alloc, loc, first, op, second)),
        Err(failure) => put(answer, Err(behind(first, failure))),
    }
}

/// A comparison of a first side, once it is an expression, and the other one.
#[inline(always)]
fn compared<B: ExprBuilderInfallibleBuild>(
    alloc: Global,
    loc: &Option<Loc>,
    first: &mut Converted<B::Expr>,
    op: RelOp,
    second: B::Expr,
) -> Result<ExprOrSpecial<B::Expr>, BoxedFailure>
    ensures { (x : Outcome Held) → Gives (plain B.meaning) first.old x
        → Gives (plain B.meaning) result (next (next x as_expression)
        (λ a. comparison_outcome loc.now op a (B.meaning second))) }
{
    let first = value_in::<B>(alloc, first)?;
    relate::<B>(alloc, loc, first, op, second)
}

/// A factor behind an operator: a division or a remainder is refused once the factor is given.
pub(crate) fn factor_of<B: ExprBuilderInfallibleBuild>(
    alloc: Global,
    loc: &Option<Loc>,
    op: MultOp,
    converted: Result<B::Expr, BoxedFailure>,
) -> Result<B::Expr, BoxedFailure>
    ensures { (x : Outcome Value) → Gives B.meaning converted x
        → Gives B.meaning result (next x (factor loc.now (multiply op))) }
{
    let expr = converted?;
    match op {
        MultOp::Times => Ok(expr),
        MultOp::Divide => Err(refusal(alloc, ToASTErrorKind::UnsupportedDivision, loc)),
        MultOp::Mod => Err(refusal(alloc, ToASTErrorKind::UnsupportedModulo, loc)),
    }
}

/// A first part and those behind operators: one part alone is itself.
pub(crate) fn chain_from<B: ExprBuilderInfallibleBuild, O: Joins + Drop>(
    alloc: Global,
    loc: &Option<Loc>,
    first: Result<ExprOrSpecial<B::Expr>, BoxedFailure>,
    rest: Result<Vec<(O, B::Expr)>, BoxedFailure>,
    allowed: Result<(), BoxedFailure>,
) -> Result<ExprOrSpecial<B::Expr>, BoxedFailure>
    ensures { (x : Outcome Held) (ps : Outcome (List Part)) (u : Outcome (Unit {0}))
        → Gives (plain B.meaning) first x → Gives (rest_view O.operator B.meaning) rest ps
        → Gives empty_view allowed u → Gives (plain B.meaning) result
        (next (both (both x ps) u) (operands_outcome O.level loc.now)) }
{
    let parts = flatten_tuple_2(first, rest);
    let ((first, rest), ()) = flatten_tuple_2(parts, allowed)?;
    if rest.is_empty() {
        return Ok(first);
    }
    let first = into_expr::<B>(alloc, first)?;
    O::combine::<B>(alloc, loc, first, rest)
}

/// A first part and those behind one and the same operator, left in `answer`.
#[inline(never)]
pub(crate) fn alike_in<B: ExprBuilderInfallibleBuild, O: JoinsAlike>(
    alloc: Global,
    loc: &Option<Loc>,
    first: &mut Converted<B::Expr>,
    rest: Values<B::Expr>,
    answer: &mut Converted<B::Expr>,
)
    ensures { (x : Outcome Held) (ps : Outcome (List Part))
        → Gives (plain B.meaning) first.old x → Gives (alike_view O.operator B.meaning) rest ps
        → Gives (plain B.meaning) answer.new
        (next (both x ps) (alike_outcome O.level loc.now)) }
{
    put(answer, alike_from::<B, O>(alloc, loc, first, rest))
}

/// A first part and those behind one and the same operator: one part alone is itself.
#[inline(always)]
fn alike_from<B: ExprBuilderInfallibleBuild, O: JoinsAlike>(
    alloc: Global,
    loc: &Option<Loc>,
    first: &mut Converted<B::Expr>,
    rest: Values<B::Expr>,
) -> Result<ExprOrSpecial<B::Expr>, BoxedFailure>
    ensures { (x : Outcome Held) (ps : Outcome (List Part))
        → Gives (plain B.meaning) first.old x → Gives (alike_view O.operator B.meaning) rest ps
        → Gives (plain B.meaning) result
        (next (both x ps) (alike_outcome O.level loc.now)) }
{
    match rest {
        Ok(rest) => {
            if rest.is_empty() {
                return take(first);
            }
            let first = value_in::<B>(alloc, first)?;
            O::combine::<B>(alloc, loc, first, rest)
        }
        Err(failure) => Err(behind(first, failure)),
    }
}
