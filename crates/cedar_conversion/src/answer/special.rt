//! Expressions, and what is one but may be something else where it stands bare; refusals at a
//! place.
ghost use Rattle.std.specs.Prelude.{◌≡◌, ℕ, List, Some, IfOk, Ok};
ghost use Rattle.std.specs.Option.{option_map};
ghost use Rattle.cedar_expressions.specs.Path.{name_text};
ghost use Rattle.cedar_conversion.specs.outcome.Held.{Held, expression, as_expression};
ghost use Rattle.cedar_conversion.specs.outcome.Detail.{Detail, spelling};
ghost use Rattle.cedar_conversion.specs.outcome.Outcome.{Kind, Outcome, arbitrary_variable, empty_node, next};
ghost use Rattle.cedar_conversion.specs.outcome.Places.{bytes_of};
ghost use Rattle.cedar_conversion.specs.parts.Names.{content_outcome};
ghost use Rattle.cedar_conversion.specs.outcome.Seen.{Gives, detail_of, kind_of};
ghost use Rattle.cedar_conversion.specs.machines.Views.{TellsAlone, TellsOne, plain};

use crate::answer::failure::BoxedFailure;
use crate::answer::places::bytes_of;
use crate::leaves::strings::text_of;
use cedar_expressions::{ExprBuilderInfallibleBuild, Literal, Name, Text, TryClone, Var};
use cedar_syntax::err::{ParseErrors, ToASTError, ToASTErrorKind};
use cedar_syntax::loc::Loc;
use cedar_syntax::node::Node;
use std::alloc::{AllocError, Global};
use std::fmt::Display;

/// An expression, or a form that is one where an expression is wanted and something else
/// elsewhere, with its place.
#[derive(Drop)]
pub enum ExprOrSpecial<E> {
    Expr(E, Option<Loc>),
    Var(Var, Option<Loc>),
    /// A name that is no variable.
    Name(Name, Option<Loc>),
    BoolLit(bool, Option<Loc>),
    /// A string as it is written. Its escape faults are told once it is wanted as an expression.
    StrLit(Text, Option<Loc>),
}

/// A builder for a node at a place.
pub fn builder_at<B: ExprBuilderInfallibleBuild>(alloc: Global, loc: &Option<Loc>) -> B
    ensures { B.node_place result ≡ option_map bytes_of loc.now }
{
    B::new(alloc).with_maybe_source_loc(bytes_of(loc))
}

/// An expression that was made, at its place.
pub(crate) fn expr_at<B: ExprBuilderInfallibleBuild>(
    expr: B::Expr,
    loc: &Option<Loc>,
) -> Result<ExprOrSpecial<B::Expr>, BoxedFailure>
    ensures { Gives (plain B.meaning) result (Ok (expression loc.now (B.meaning expr))) }
{
    Ok(ExprOrSpecial::Expr(expr, loc.try_clone()?))
}

/// A value, with a place that is copied. Where that is refused, a caller then drops nothing on its
/// way out.
fn with_place<T: Drop>(value: T, loc: &Option<Loc>) -> Result<(T, Option<Loc>), AllocError>
    ensures { IfOk result (λ both. both ≡ (value, loc.now)) }
{
    let loc = loc.try_clone()?;
    Ok((value, loc))
}

/// One fault at a place of its own.
fn fault_at(alloc: Global, kind: ToASTErrorKind, loc: Option<Loc>) -> BoxedFailure
    ensures { TellsOne result (kind_of kind, loc, detail_of kind) }
{
    let faults = ParseErrors::from_ast(alloc, ToASTError::new(kind, loc));
    BoxedFailure::of_errors(alloc, faults)
}

/// One fault at a place.
pub fn refusal(alloc: Global, kind: ToASTErrorKind, loc: &Option<Loc>) -> BoxedFailure
    ensures { TellsOne result (kind_of kind, loc.now, detail_of kind) }
{
    match with_place(kind, loc) {
        Ok((kind, loc)) => fault_at(alloc, kind, loc),
        Err(error) => BoxedFailure::from(error),
    }
}

/// One fault at a place, of a kind for which memory may have been wanting.
pub fn refusal_with(
    alloc: Global,
    kind: Result<ToASTErrorKind, AllocError>,
    loc: &Option<Loc>,
) -> BoxedFailure
    ensures { (k : Kind) (d : Detail)
        → IfOk kind (λ kind. (kind_of kind ≡ k) × (detail_of kind ≡ d))
        → TellsOne result (k, loc.now, d) }
{
    match kind {
        Ok(kind) => refusal(alloc, kind, loc),
        Err(error) => BoxedFailure::from(error),
    }
}

/// A value as it is printed.
pub(crate) fn to_text<T: Display>(alloc: Global, value: &T) -> Result<Text, AllocError>
    ensures { (shown : List ℕ) → T.Display.output value.now ≡ Some shown
        → IfOk result (λ text. text ≡ shown) }
{
    match format!(in alloc; "{value}") {
        Ok(shown) => Text::from_string(shown),
        Err(error) => Err(AllocError::from(error)),
    }
}

/// A node with nothing in it, or with a form that its caller has another call for.
pub fn empty_node(alloc: Global, loc: &Option<Loc>) -> BoxedFailure
    ensures { TellsAlone result empty_node loc.now }
{
    refusal(alloc, ToASTErrorKind::EmptyNodeInvariantViolation, loc)
}

/// What a node holds; an empty one is refused.
#[inline(always)]
pub fn content<T>(alloc: Global, node: &Node<Option<T>>) -> Result<&T, BoxedFailure>
    ensures { Gives (λ inner. inner.now) result (content_outcome node.now.loc node.now.node) }
{
    match &node.node {
        Some(inner) => Ok(inner),
        None => Err(empty_node(alloc, &node.loc)),
    }
}

/// A name where an expression is wanted.
#[cold]
#[inline(never)]
fn arbitrary_variable(alloc: Global, name: &Name, loc: &Option<Loc>) -> BoxedFailure
    ensures { TellsOne result (arbitrary_variable, loc.now, spelling (name_text name.now)) }
{
    let kind = to_text(alloc, name).map(ToASTErrorKind::ArbitraryVariable);
    refusal_with(alloc, kind, loc)
}

/// The expression that a form is where an expression is wanted.
#[inline(always)]
pub(crate) fn into_expr<B: ExprBuilderInfallibleBuild>(
    alloc: Global,
    special: ExprOrSpecial<B::Expr>,
) -> Result<B::Expr, BoxedFailure>
    ensures { Gives B.meaning result (as_expression (plain B.meaning special)) }
{
    match special {
        ExprOrSpecial::Expr(expr, _) => Ok(expr),
        ExprOrSpecial::Var(var, loc) => Ok(builder_at::<B>(alloc, &loc).var(var)?),
        ExprOrSpecial::Name(name, loc) => Err(arbitrary_variable(alloc, &name, &loc)),
        ExprOrSpecial::BoolLit(value, loc) => {
            Ok(builder_at::<B>(alloc, &loc).val(Literal::Bool(value))?)
        }
        ExprOrSpecial::StrLit(raw, loc) => text_of::<B>(alloc, &raw, &loc),
    }
}

/// The expression that a conversion gives.
#[inline(always)]
pub fn expr_of<B: ExprBuilderInfallibleBuild>(
    alloc: Global,
    converted: Result<ExprOrSpecial<B::Expr>, BoxedFailure>,
) -> Result<B::Expr, BoxedFailure>
    ensures { (x : Outcome Held) → Gives (plain B.meaning) converted x
        → Gives B.meaning result (next x as_expression) }
{
    into_expr::<B>(alloc, converted?)
}
