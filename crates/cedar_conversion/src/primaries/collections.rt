//! Sets, records and the accesses of a member, of what their parts give.
ghost use Rattle.std.specs.Prelude.{◌≡◌, List, Ok};
ghost use Rattle.cedar_syntax.specs.trees.Tree.{beside};
ghost use Rattle.cedar_conversion.specs.outcome.Conversion.{Part, bodies, record_outcome, set_value_outcome};
ghost use Rattle.cedar_conversion.specs.outcome.Held.{Held, as_attribute, as_string};
ghost use Rattle.cedar_conversion.specs.parts.Members.{Access as Given, call, field, index};
ghost use Rattle.cedar_conversion.specs.parts.Names.{unreserved_ident as unreserved_outcome};
ghost use Rattle.cedar_conversion.specs.outcome.Outcome.{Outcome, both, next, item_more};
ghost use Rattle.cedar_conversion.specs.outcome.Seen.{Gives};
ghost use Rattle.cedar_expressions.specs.Value.{Value};
ghost use Rattle.cedar_conversion.specs.machines.Applied.{Pair, seen_access, seen_accesses, seen_pair, seen_pairs};
ghost use Rattle.cedar_conversion.specs.machines.Views.{alike_view, plain};

use crate::answer::failure::{BoxedFailure, flatten_tuple_2};
use crate::answer::lists::add;
use crate::answer::special::{ExprOrSpecial, builder_at, expr_at, refusal};
use crate::answer::wanted::{into_attribute, string_from};
use crate::answer::{Values, take};
use crate::leaves::names::unreserved_ident;
use crate::primaries::members::AccessValue;
use cedar_expressions::{ExprBuilderInfallibleBuild, RecordError, Text};
use cedar_syntax::cst::Ident;
use cedar_syntax::err::ToASTErrorKind;
use cedar_syntax::loc::Loc;
use cedar_syntax::node::Node;
use std::alloc::Global;

/// A record's key and its value.
pub(crate) type Keyed<E> = (Text, E);

/// The pairs of a record.
pub(crate) type Pairs<E> = Result<Vec<Keyed<E>>, BoxedFailure>;

/// The accesses of a member.
pub(crate) type Accesses<E> = Result<Vec<AccessValue<E>>, BoxedFailure>;

/// A set of its items.
#[inline(never)]
pub(crate) fn set_from<B: ExprBuilderInfallibleBuild>(
    alloc: Global,
    loc: &Option<Loc>,
    items: Values<B::Expr>,
) -> Result<ExprOrSpecial<B::Expr>, BoxedFailure>
    ensures { (ps : Outcome (List Part)) → Gives (alike_view beside B.meaning) items ps
        → Gives (plain B.meaning) result (next ps (set_value_outcome loc.now)) }
{
    expr_at::<B>(builder_at::<B>(alloc, loc).set(items?)?, loc)
}

/// A field or a method's name.
#[inline(never)]
pub(crate) fn field_from<E>(
    alloc: Global,
    node: &Node<Option<Ident>>,
) -> Result<AccessValue<E>, BoxedFailure>
    ensures { (meaning : E → Value) → Gives (seen_access meaning) result
        (next (unreserved_outcome node.now) (λ id. Ok (field id))) }
{
    Ok(AccessValue::Field(unreserved_ident(alloc, node)?))
}

/// A call's arguments.
#[inline(never)]
pub(crate) fn call_from<B: ExprBuilderInfallibleBuild>(
    items: Values<B::Expr>,
) -> Result<AccessValue<B::Expr>, BoxedFailure>
    ensures { (ps : Outcome (List Part)) → Gives (alike_view beside B.meaning) items ps
        → Gives (seen_access B.meaning) result (next ps (λ qs. Ok (call (bodies qs)))) }
{
    Ok(AccessValue::Call(items?))
}

/// An index: a string and nothing else.
#[inline(never)]
pub(crate) fn index_from<B: ExprBuilderInfallibleBuild>(
    alloc: Global,
    inner: Result<ExprOrSpecial<B::Expr>, BoxedFailure>,
) -> Result<AccessValue<B::Expr>, BoxedFailure>
    ensures { (h : Outcome Held) → Gives (plain B.meaning) inner h
        → Gives (seen_access B.meaning) result
        (next (next h as_string) (λ text. Ok (index text))) }
{
    Ok(AccessValue::Index(string_from::<B>(alloc, inner)?))
}

/// Adds an access behind those so far.
#[inline(never)]
pub(crate) fn add_access<B: ExprBuilderInfallibleBuild>(
    all: &mut Accesses<B::Expr>,
    given: &mut Result<AccessValue<B::Expr>, BoxedFailure>,
)
    ensures { (xs : Outcome (List Given)) (x : Outcome Given)
        → Gives (seen_accesses B.meaning) all.old xs → Gives (seen_access B.meaning) given.old x
        → Gives (seen_accesses B.meaning) all.new (item_more xs x) }
{
    add(all, take(given));
}

/// A pair of a record: the key's conversion, and then key and value joined.
#[inline(never)]
pub(crate) fn pair_from<B: ExprBuilderInfallibleBuild>(
    alloc: Global,
    key: Result<ExprOrSpecial<B::Expr>, BoxedFailure>,
    value: Result<B::Expr, BoxedFailure>,
) -> Result<Keyed<B::Expr>, BoxedFailure>
    ensures { (h : Outcome Held) (x : Outcome Value) → Gives (plain B.meaning) key h
        → Gives B.meaning value x → Gives (seen_pair B.meaning) result
        (next h (λ held. both (as_attribute held) x)) }
{
    let key = key?;
    let attribute = into_attribute::<B>(alloc, &key);
    drop(key);
    flatten_tuple_2(attribute, value)
}

/// Adds a pair behind those so far.
#[inline(never)]
pub(crate) fn add_pair<B: ExprBuilderInfallibleBuild>(
    all: &mut Pairs<B::Expr>,
    next: Result<Keyed<B::Expr>, BoxedFailure>,
)
    ensures { (xs : Outcome (List Pair)) (x : Outcome Pair)
        → Gives (seen_pairs B.meaning) all.old xs → Gives (seen_pair B.meaning) next x
        → Gives (seen_pairs B.meaning) all.new (item_more xs x) }
{
    add(all, next);
}

/// A record of its pairs: a repeated key is refused.
#[inline(never)]
pub(crate) fn record_from<B: ExprBuilderInfallibleBuild>(
    alloc: Global,
    loc: &Option<Loc>,
    pairs: Pairs<B::Expr>,
) -> Result<ExprOrSpecial<B::Expr>, BoxedFailure>
    ensures { (ps : Outcome (List Pair)) → Gives (seen_pairs B.meaning) pairs ps
        → Gives (plain B.meaning) result (next ps (record_outcome loc.now)) }
{
    match builder_at::<B>(alloc, loc).record(pairs?) {
        Ok(expr) => expr_at::<B>(expr, loc),
        Err(RecordError::Memory(error)) => Err(BoxedFailure::from(error)),
        Err(RecordError::Construction(error)) => {
            let kind = ToASTErrorKind::ExpressionConstructionError(error);
            Err(refusal(alloc, kind, loc))
        }
    }
}
