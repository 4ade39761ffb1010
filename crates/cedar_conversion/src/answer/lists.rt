//! Parts that are given, one after another.
ghost use Rattle.std.specs.Prelude.{◌≡◌, ◌<◌, ◌^◌, ◌∷◌, List, [], MatchOption, Ok, Err, length, map, IfOk, alloc_error};
ghost use Rattle.cedar_expressions.specs.Value.{Value};
ghost use Rattle.cedar_syntax.specs.trees.Forms.{parts_of};
ghost use Rattle.cedar_syntax.specs.trees.Located.{Located};
ghost use Rattle.cedar_syntax.specs.trees.Tree.{Operator, relation};
ghost use Rattle.cedar_syntax.specs.declared.err.faults.Failure.TheVariants.{Memory};
ghost use Rattle.cedar_conversion.specs.outcome.Conversion.{Part, operator_limit};
ghost use Rattle.cedar_conversion.specs.outcome.Outcome.{Outcome};
ghost use Rattle.cedar_conversion.specs.outcome.Seen.{Gives};
ghost use Rattle.cedar_conversion.specs.machines.Views.{Grows, empty_view, one_more, rest_view};

use crate::answer::failure::{BoxedFailure, flatten_tuple_2};
use crate::answer::special::refusal;
use crate::answer::{put, take};
use cedar_expressions::ExprBuilderInfallibleBuild;
use cedar_syntax::err::ToASTErrorKind;
use cedar_syntax::loc::Loc;
use std::alloc::{AllocError, Global};

/// One more item behind those so far, or the faults of both.
fn push_both<T: Drop>(
    all: Result<Vec<T>, BoxedFailure>,
    next: Result<T, BoxedFailure>,
) -> Result<Vec<T>, BoxedFailure>
    ensures { Grows all next result }
{
    let (mut all, next) = flatten_tuple_2(all, next)?;
    all.push(next)?;
    Ok(all)
}

/// A failure behind the items so far: their own is joined to it.
#[cold]
#[inline(never)]
fn add_failure<T: Drop>(all: &mut Result<Vec<T>, BoxedFailure>, failure: BoxedFailure)
    ensures { Grows all.old (Err failure) all.new }
{
    let held = take(all);
    put(all, push_both(held, Err(failure)));
}

/// Memory for one item more is wanting.
#[cold]
#[inline(never)]
fn want_memory<T: Drop>(all: &mut Result<Vec<T>, BoxedFailure>, error: AllocError)
    ensures { all.new ≡ Err (Memory alloc_error) }
{
    put(all, Err(BoxedFailure::from(error)));
}

/// One more item behind those so far, where they stand.
#[inline(always)]
fn add_item<T: Drop>(all: &mut Result<Vec<T>, BoxedFailure>, item: T)
    ensures { Grows all.old (Ok item) all.new }
{
    match all {
        Ok(items) => match items.reserve(1) {
            Ok(()) => items.push_reserved(item),
            Err(error) => want_memory(all, error),
        },
        Err(_) => drop(item),
    }
}

/// One more item behind those so far, where they stand, or the faults of both.
#[inline(always)]
pub fn add<T: Drop>(all: &mut Result<Vec<T>, BoxedFailure>, next: Result<T, BoxedFailure>)
    ensures { Grows all.old next all.new }
{
    match next {
        Ok(item) => add_item(all, item),
        Err(failure) => add_failure(all, failure),
    }
}

/// An empty list with room for so many items.
pub fn with_room<T>(alloc: Global, count: usize) -> Result<Vec<T>, BoxedFailure>
    ensures { Gives (λ list. list.items) result (Ok []) }
{
    Ok(Vec::with_capacity(alloc, count)?)
}

/// The only one of several things, if it is alone.
pub(crate) fn only_one<T>(all: &[T]) -> Option<&T>
    ensures { MatchOption result (Unit {0}) (λ one. all.now ≡ one.now ∷ []) }
{
    match all.split_first() {
        Some((one, others)) => { if others.is_empty() { Some(one) } else { None } }
        None => None,
    }
}

/// One more value behind an operator, where those so far stand.
#[inline(always)]
pub(crate) fn more<B: ExprBuilderInfallibleBuild, O: Copy + Drop>(
    all: &mut Result<Vec<(O, B::Expr)>, BoxedFailure>,
    op: O,
    next: Result<B::Expr, BoxedFailure>,
)
    ensures { (operator : O → Operator) (ps : Outcome (List Part)) (x : Outcome Value)
        → Gives (rest_view operator B.meaning) all.old ps → Gives B.meaning next x
        → Gives (rest_view operator B.meaning) all.new (one_more (operator op) ps x) }
{
    match next {
        Ok(value) => add_item(all, (op, value)),
        Err(failure) => add_failure(all, failure),
    }
}

/// The values without their operators.
pub(crate) fn bodies_of<O: Copy, E: Drop>(
    alloc: Global,
    parts: Vec<(O, E)>,
) -> Result<Vec<E>, AllocError>
    ensures { IfOk result (λ all. all.items ≡ map (λ p. p.1) parts.items) }
{
    let mut all = Vec::new(alloc);
    for (_, value) in parts {
        all.push(value)?;
    }
    Ok(all)
}

/// Refuses two operators of a relation or more.
pub(crate) fn at_most_one<T>(
    alloc: Global,
    loc: &Option<Loc>,
    parts: &[T],
) -> Result<(), BoxedFailure>
    requires { length parts.now < 2 ^ 64 }
    ensures { (f : T → Operator × Located)
        → Gives empty_view result (operator_limit relation loc.now (parts_of (map f parts.now))) }
{
    if parts.len() > 1 {
        Err(refusal(alloc, ToASTErrorKind::AmbiguousOperators, loc))
    } else {
        Ok(())
    }
}
