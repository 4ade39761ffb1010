//! What a part of the conversion answers, left where its caller wants it.
//!
//! A large value that a call returns is copied into the frame of each caller that hands it on.
//! With its place handed down instead, a level of nesting holds a copy only where it has several
//! parts, and one part alone goes through its levels without a frame.
ghost use Rattle.std.specs.Prelude.{◌≡◌, ◌∷◌, [], List};
ghost use Rattle.cedar_expressions.specs.Value.{Value};
ghost use Rattle.cedar_syntax.specs.trees.Tree.{Operator};
ghost use Rattle.cedar_conversion.specs.outcome.Conversion.{Part, conditional_outcome, expression_at as made_at};
ghost use Rattle.cedar_conversion.specs.outcome.Held.{Held, as_expression};
ghost use Rattle.cedar_conversion.specs.parts.Members.{Access as Given, member_outcome, some_accesses};
ghost use Rattle.cedar_conversion.specs.outcome.Outcome.{Outcome, both, empty_node, next, fault_outcome};
ghost use Rattle.cedar_conversion.specs.outcome.Seen.{Gives};
ghost use Rattle.cedar_conversion.specs.strict.Table.{table_of};
ghost use Rattle.cedar_conversion.specs.machines.Applied.{seen_access, seen_accesses};
ghost use Rattle.cedar_conversion.specs.machines.AsExpression.{IsExpressionOf};
ghost use Rattle.cedar_conversion.specs.machines.Views.{alike_view, rest_view, refused, one_more, plain};
ghost use Rattle.cedar_syntax.specs.faults.Joined.{TellsBoth};

pub mod failure;
pub(crate) mod fault_deque;
pub mod faults;
pub mod lists;
pub mod places;
pub mod special;
pub mod wanted;

use crate::answer::failure::{BoxedFailure, joined};
use crate::answer::lists::{add, more};
use crate::answer::special::{ExprOrSpecial, empty_node, expr_of};
use crate::operators::conditional::{if_from, parens_from};
use crate::primaries::collections::Accesses;
use crate::primaries::members::{AccessValue, accessed_in, lone_accessed_in};
use crate::primaries::methods::CallSite;
use cedar_expressions::{ExprBuilderInfallibleBuild, TryClone};
use cedar_syntax::loc::Loc;
use std::alloc::{AllocError, Global};
use std::mem;

/// What a conversion answers.
pub type Converted<E> = Result<ExprOrSpecial<E>, BoxedFailure>;

/// Parts behind operators.
pub(crate) type Parts<O, E> = Result<Vec<(O, E)>, BoxedFailure>;

/// Parts that stand behind the same operator, or behind none.
pub(crate) type Values<E> = Result<Vec<E>, BoxedFailure>;

/// A place for an answer, before there is one.
pub fn placeholder<T>() -> Result<T, BoxedFailure> {
    Err(BoxedFailure::from(AllocError))
}

/// Leaves an answer. Mostly there is none yet, and so nothing large to let go.
#[inline(always)]
pub(crate) fn put<T: Drop>(place: &mut Result<T, BoxedFailure>, answer: Result<T, BoxedFailure>)
    ensures { place.new ≡ answer }
{
    match place {
        Ok(_) => put_over(place, answer),
        Err(_) => *place = answer,
    }
}

/// Leaves an answer in the place of another one.
#[cold]
#[inline(never)]
fn put_over<T: Drop>(place: &mut Result<T, BoxedFailure>, answer: Result<T, BoxedFailure>)
    ensures { place.new ≡ answer }
{
    *place = answer;
}

/// Takes the answer that was left.
#[inline(always)]
pub(crate) fn take<T: Drop>(place: &mut Result<T, BoxedFailure>) -> Result<T, BoxedFailure>
    ensures { result ≡ place.old }
{
    mem::replace(place, placeholder::<T>())
}

// ---- the expression that the answer is, where an expression is wanted: a function for each
// form, so that none has room for what another one moves

#[inline(never)]
pub(crate) fn value_in<B: ExprBuilderInfallibleBuild>(
    alloc: Global,
    answer: &mut Converted<B::Expr>,
) -> Result<B::Expr, BoxedFailure>
    ensures { IsExpressionOf B.meaning answer.old result }
{
    match answer {
        Ok(ExprOrSpecial::Expr(_, _)) => made_value::<B>(alloc, answer),
        _ => special_value::<B>(alloc, answer),
    }
}

#[inline(always)]
fn made_value<B: ExprBuilderInfallibleBuild>(
    alloc: Global,
    answer: &mut Converted<B::Expr>,
) -> Result<B::Expr, BoxedFailure>
    ensures { IsExpressionOf B.meaning answer.old result }
{
    match take(answer) {
        Ok(ExprOrSpecial::Expr(expr, _)) => Ok(expr),
        other => expr_of::<B>(alloc, other),
    }
}

#[inline(always)]
fn taken_value<B: ExprBuilderInfallibleBuild>(
    alloc: Global,
    answer: &mut Converted<B::Expr>,
) -> Result<B::Expr, BoxedFailure>
    ensures { IsExpressionOf B.meaning answer.old result }
{
    expr_of::<B>(alloc, take(answer))
}

#[inline(never)]
fn special_value<B: ExprBuilderInfallibleBuild>(
    alloc: Global,
    answer: &mut Converted<B::Expr>,
) -> Result<B::Expr, BoxedFailure>
    ensures { IsExpressionOf B.meaning answer.old result }
{
    match answer {
        Ok(ExprOrSpecial::Var(_, _)) => taken_value::<B>(alloc, answer),
        _ => literal_value::<B>(alloc, answer),
    }
}

#[inline(never)]
fn literal_value<B: ExprBuilderInfallibleBuild>(
    alloc: Global,
    answer: &mut Converted<B::Expr>,
) -> Result<B::Expr, BoxedFailure>
    ensures { IsExpressionOf B.meaning answer.old result }
{
    match answer {
        Ok(ExprOrSpecial::BoolLit(_, _)) => taken_value::<B>(alloc, answer),
        _ => other_value::<B>(alloc, answer),
    }
}

#[inline(never)]
fn other_value<B: ExprBuilderInfallibleBuild>(
    alloc: Global,
    answer: &mut Converted<B::Expr>,
) -> Result<B::Expr, BoxedFailure>
    ensures { IsExpressionOf B.meaning answer.old result }
{
    taken_value::<B>(alloc, answer)
}

/// Adds the expression that the answer is behind the values so far, which one operator joins.
#[inline(never)]
pub(crate) fn gather_value<B: ExprBuilderInfallibleBuild>(
    alloc: Global,
    all: &mut Values<B::Expr>,
    answer: &mut Converted<B::Expr>,
)
    ensures { (operator : Operator) (ps : Outcome (List Part)) (x : Outcome Held)
        → Gives (alike_view operator B.meaning) all.old ps → Gives (plain B.meaning) answer.old x
        → Gives (alike_view operator B.meaning) all.new
        (one_more operator ps (next x as_expression)) }
{
    match answer {
        Ok(ExprOrSpecial::Expr(_, _)) => add(all, made_value::<B>(alloc, answer)),
        _ => add(all, special_value::<B>(alloc, answer)),
    }
}

/// Adds the expression that the answer is behind the parts so far.
#[inline(never)]
pub(crate) fn gather<B: ExprBuilderInfallibleBuild, O: Copy + Drop>(
    alloc: Global,
    all: &mut Parts<O, B::Expr>,
    op: O,
    answer: &mut Converted<B::Expr>,
)
    ensures { (operator : O → Operator) (ps : Outcome (List Part)) (x : Outcome Held)
        → Gives (rest_view operator B.meaning) all.old ps → Gives (plain B.meaning) answer.old x
        → Gives (rest_view operator B.meaning) all.new
        (one_more (operator op) ps (next x as_expression)) }
{
    match answer {
        Ok(ExprOrSpecial::Expr(_, _)) => more::<B, O>(all, op, made_value::<B>(alloc, answer)),
        _ => gather_special::<B, O>(alloc, all, op, answer),
    }
}

/// The same of a form that isn't an expression yet.
#[inline(never)]
fn gather_special<B: ExprBuilderInfallibleBuild, O: Copy + Drop>(
    alloc: Global,
    all: &mut Parts<O, B::Expr>,
    op: O,
    answer: &mut Converted<B::Expr>,
)
    ensures { (operator : O → Operator) (ps : Outcome (List Part)) (x : Outcome Held)
        → Gives (rest_view operator B.meaning) all.old ps → Gives (plain B.meaning) answer.old x
        → Gives (rest_view operator B.meaning) all.new
        (one_more (operator op) ps (next x as_expression)) }
{
    more::<B, O>(all, op, special_value::<B>(alloc, answer))
}

/// What stands in parentheses, at its own place.
#[inline(never)]
pub(crate) fn parens_in<B: ExprBuilderInfallibleBuild>(
    alloc: Global,
    loc: &Option<Loc>,
    answer: &mut Converted<B::Expr>,
)
    ensures { (x : Outcome Held) → Gives (plain B.meaning) answer.old x
        → Gives (plain B.meaning) answer.new (next (next x as_expression) (made_at loc.now)) }
{
    match answer {
        Ok(ExprOrSpecial::Expr(_, place)) => match loc.try_clone() {
            Ok(loc) => *place = loc,
            Err(error) => put(answer, Err(BoxedFailure::from(error))),
        },
        _ => {
            let inner = take(answer);
            put(answer, parens_from::<B>(alloc, loc, inner));
        }
    }
}

/// A conditional of its guard, its first part, and its last part, which the answer is.
#[inline(never)]
pub(crate) fn if_in<B: ExprBuilderInfallibleBuild>(
    alloc: Global,
    loc: &Option<Loc>,
    guard: &mut Result<B::Expr, BoxedFailure>,
    consequent: &mut Result<B::Expr, BoxedFailure>,
    answer: &mut Converted<B::Expr>,
)
    ensures { (x y : Outcome Value) (h : Outcome Held) → Gives B.meaning guard.old x
        → Gives B.meaning consequent.old y → Gives (plain B.meaning) answer.old h
        → Gives (plain B.meaning) answer.new
        (next (both (both x y) (next h as_expression)) (conditional_outcome loc.now)) }
{
    let alternative = value_in::<B>(alloc, answer);
    let guard = take(guard);
    let consequent = take(consequent);
    put(
        answer,
        if_from::<B>(alloc, loc, guard, consequent, alternative),
    );
}

/// A primary and its accesses.
#[inline(never)]
pub(crate) fn member_in<B: ExprBuilderInfallibleBuild>(
    site: CallSite<'_>,
    item: &mut Converted<B::Expr>,
    accesses: &mut Accesses<B::Expr>,
    answer: &mut Converted<B::Expr>,
)
    ensures { (x : Outcome Held) (all : Outcome (List Given)) → Gives (plain B.meaning) item.old x
        → Gives (seen_accesses B.meaning) accesses.old all
        → Gives (plain B.meaning) answer.new (next (both x all)
        (λ p. member_outcome (table_of site.entry.styles.now) site.entry.loc.now p.0 p.1)) }
{
    match take(accesses) {
        Ok(accesses) => accessed_in::<B>(site, item, accesses, answer),
        Err(failure) => put(answer, Err(behind(item, failure))),
    }
}

/// A primary and its one access.
#[inline(never)]
pub(crate) fn lone_access_in<B: ExprBuilderInfallibleBuild>(
    site: CallSite<'_>,
    item: &mut Converted<B::Expr>,
    given: &mut Result<AccessValue<B::Expr>, BoxedFailure>,
    answer: &mut Converted<B::Expr>,
)
    ensures { (x : Outcome Held) (a : Outcome Given) → Gives (plain B.meaning) item.old x
        → Gives (seen_access B.meaning) given.old a
        → Gives (plain B.meaning) answer.new (next (both x a)
        (λ p. some_accesses (table_of site.entry.styles.now) site.entry.loc.now p.0 (p.1 ∷ []))) }
{
    match take(given) {
        Ok(access) => lone_accessed_in::<B>(site, item, access, answer),
        Err(failure) => put(answer, Err(behind(item, failure))),
    }
}

/// A failure, behind that of a part before it if that fails too.
#[cold]
#[inline(never)]
pub(crate) fn behind<T: Drop>(
    first: &mut Result<T, BoxedFailure>,
    failure: BoxedFailure,
) -> BoxedFailure
    ensures { TellsBoth result first.old (refused failure) }
{
    match take(first) {
        Ok(value) => {
            drop(value);
            failure
        }
        Err(first) => joined(first, failure),
    }
}

/// A node with nothing in it.
#[inline(never)]
pub(crate) fn empty_node_in<B: ExprBuilderInfallibleBuild>(
    alloc: Global,
    loc: &Option<Loc>,
    answer: &mut Converted<B::Expr>,
)
    ensures { Gives (plain B.meaning) answer.new (fault_outcome empty_node loc.now) }
{
    put(answer, Err(empty_node(alloc, loc)));
}
