//! The conversion of members and primaries: the levels below the operators (`levels`).
ghost use Rattle.std.specs.Prelude.{◌≡◌, ◌∷◌, [], List, Option, Some};
ghost use Rattle.cedar_syntax.specs.declared.cst.Expr.{Expr as Tree};
ghost use Rattle.cedar_syntax.specs.declared.cst.MemAccess.TheVariants as accesses;
ghost use Rattle.cedar_syntax.specs.declared.cst.Primary.TheVariants as primaries;
ghost use Rattle.cedar_syntax.specs.declared.cst.RecInit.{RecInit as Init};
ghost use Rattle.cedar_syntax.specs.declared.node.Node.{Node as Held};
ghost use Rattle.cedar_syntax.specs.trees.Forms.{located, expr_form, member_form, primary_form, access_form, init_form};
ghost use Rattle.cedar_conversion.specs.outcome.Conversion.{access_outcome, expression_at, outcome, pair_outcome};
ghost use Rattle.cedar_conversion.specs.parts.Leaves.{entity_leaf, name_leaf, slot_leaf};
ghost use Rattle.cedar_conversion.specs.parts.Literals.{literal_outcome};
ghost use Rattle.cedar_conversion.specs.outcome.Held.{as_expression};
ghost use Rattle.cedar_conversion.specs.outcome.Outcome.{Outcome, item_more, next};
ghost use Rattle.cedar_conversion.specs.outcome.Seen.{Gives};
ghost use Rattle.cedar_conversion.specs.strict.Table.{table_of};
ghost use Rattle.cedar_conversion.specs.machines.Applied.{Pair, seen_access, seen_pairs};
ghost use Rattle.cedar_conversion.specs.machines.Nested.{nested};
ghost use Rattle.cedar_conversion.specs.machines.Taking.{AnswersForm, AnswersNode, Taking};
ghost use Rattle.cedar_conversion.specs.machines.Views.{plain};

pub(crate) mod collections;
pub(crate) mod members;
pub mod methods;

use crate::answer::failure::BoxedFailure;
use crate::answer::lists::{only_one, with_room};
use crate::answer::special::empty_node;
use crate::answer::{
    Converted, Values, empty_node_in, gather_value, lone_access_in, member_in, parens_in,
    placeholder, put, take, value_in,
};
use crate::leaves::entities::entity;
use crate::leaves::literals::literal;
use crate::leaves::names::variable_or_name;
use crate::leaves::slots::slot;
use crate::nesting::{Answers, Nests};
use crate::operators::single_child::SingleChild;
use crate::primaries::collections::{
    Accesses, Pairs, add_access, add_pair, call_from, field_from, index_from, pair_from,
    record_from, set_from,
};
use crate::primaries::members::AccessValue;
use crate::primaries::methods::CallSite;
use crate::styles::ExtStyles;
use cedar_expressions::ExprBuilderInfallibleBuild;
use cedar_syntax::cst;
use cedar_syntax::node::Node;
use std::alloc::Global;

/// A primary with its accesses, or without any.
#[inline(never)]
pub(crate) fn member<B: ExprBuilderInfallibleBuild, N: Nests<B>>(
    alloc: Global,
    answers: &mut Answers<B::Expr>,
    styles: &ExtStyles,
    node: &Node<Option<cst::Member>>,
)
    ensures { AnswersNode B.meaning (table_of styles.now) N.waits answers.old answers.new
        (located member_form node.now) }
{
    let loc = &node.loc;
    match &node.node {
        Some(tree) => match tree.single_child() {
            Some(item) => primary::<B, N>(alloc, answers, styles, item),
            None => member_chain::<B, N>(CallSite { alloc, styles, loc }, answers, tree),
        },
        None => empty_node_in::<B>(alloc, loc, &mut answers.answer),
    }
}

/// A primary and its accesses.
#[inline(never)]
fn member_chain<B: ExprBuilderInfallibleBuild, N: Nests<B>>(
    site: CallSite<'_>,
    answers: &mut Answers<B::Expr>,
    member: &cst::Member,
)
    ensures { AnswersForm B.meaning (table_of site.entry.styles.now) N.waits
        answers.old answers.new site.entry.loc.now (member_form member.now) }
{
    primary::<B, N>(site.alloc, answers, site.styles, &member.item);
    let mut item = take(&mut answers.answer);
    let mut given = placeholder();
    match only_one(member.access.as_slice()) {
        Some(part) => {
            access::<B, N>(site.alloc, answers, site.styles, part, &mut given);
            lone_access_in::<B>(site, &mut item, &mut given, &mut answers.answer)
        }
        None => {
            let mut all: Accesses<B::Expr> = with_room(site.alloc, member.access.len());
            for part in member.access.as_slice() {
                access::<B, N>(site.alloc, answers, site.styles, part, &mut given);
                add_access::<B>(&mut all, &mut given);
            }
            member_in::<B>(site, &mut item, &mut all, &mut answers.answer)
        }
    }
}

/// One access, left in `given`. What is left in `answers` beside it is of no use.
#[inline(never)]
fn access<B: ExprBuilderInfallibleBuild, N: Nests<B>>(
    alloc: Global,
    answers: &mut Answers<B::Expr>,
    styles: &ExtStyles,
    node: &Node<Option<cst::MemAccess>>,
    given: &mut Result<AccessValue<B::Expr>, BoxedFailure>,
)
    ensures { Taking (N.waits (table_of styles.now)) answers.old.nested
        (nested (located access_form node.now)) answers.new.nested
        (Gives (seen_access B.meaning) given.new
        (access_outcome (table_of styles.now) (located access_form node.now))) }
{
    match &node.node {
        Some(cst::MemAccess::Field(ident)) => put(given, field_from::<B::Expr>(alloc, ident)),
        Some(cst::MemAccess::Call(_)) => arguments::<B, N>(alloc, answers, styles, node, given),
        Some(cst::MemAccess::Index(inner)) => {
            N::answer(alloc, answers, styles, inner);
            let index = take(&mut answers.answer);
            put(given, index_from::<B>(alloc, index))
        }
        None => put(given, Err(empty_node(alloc, &node.loc))),
    }
}

/// A call's arguments, as one access. Another access than a call is its caller's.
#[inline(never)]
fn arguments<B: ExprBuilderInfallibleBuild, N: Nests<B>>(
    alloc: Global,
    answers: &mut Answers<B::Expr>,
    styles: &ExtStyles,
    node: &Node<Option<cst::MemAccess>>,
    given: &mut Result<AccessValue<B::Expr>, BoxedFailure>,
)
    ensures { (a : List (Held (Option Tree))) → node.now.node ≡ Some (accesses.Call a)
        → Taking (N.waits (table_of styles.now)) answers.old.nested
        (nested (located access_form node.now)) answers.new.nested
        (Gives (seen_access B.meaning) given.new
        (access_outcome (table_of styles.now) (located access_form node.now))) }
{
    let Some(cst::MemAccess::Call(items)) = &node.node else {
        return put(given, Err(empty_node(alloc, &node.loc)));
    };
    let mut all: Values<B::Expr> = with_room(alloc, items.len());
    for part in items.as_slice() {
        N::answer(alloc, answers, styles, part);
        gather_value::<B>(alloc, &mut all, &mut answers.answer);
    }
    put(given, call_from::<B>(all))
}

/// A primary: parentheses go through.
#[inline(never)]
fn primary<B: ExprBuilderInfallibleBuild, N: Nests<B>>(
    alloc: Global,
    answers: &mut Answers<B::Expr>,
    styles: &ExtStyles,
    node: &Node<Option<cst::Primary>>,
)
    ensures { AnswersNode B.meaning (table_of styles.now) N.waits answers.old answers.new
        (located primary_form node.now) }
{
    match &node.node {
        Some(cst::Primary::Expr(inner)) => parens::<B, N>(alloc, answers, styles, inner),
        Some(cst::Primary::EList(_)) => set::<B, N>(alloc, answers, styles, node),
        Some(cst::Primary::RInits(_)) => record::<B, N>(alloc, answers, styles, node),
        Some(cst::Primary::Literal(inner)) => literal::<B>(alloc, inner, &mut answers.answer),
        Some(cst::Primary::Ref(inner)) => entity_in::<B>(
            alloc,
            inner.as_ref(),
            &mut answers.answer,
        ),
        Some(cst::Primary::Name(inner)) => {
            variable_or_name::<B>(alloc, &node.loc, inner, &mut answers.answer)
        }
        Some(cst::Primary::Slot(inner)) => slot_in::<B>(alloc, inner, &mut answers.answer),
        None => empty_node_in::<B>(alloc, &node.loc, &mut answers.answer),
    }
}

/// What stands in parentheses, at its own place.
#[inline(never)]
fn parens<B: ExprBuilderInfallibleBuild, N: Nests<B>>(
    alloc: Global,
    answers: &mut Answers<B::Expr>,
    styles: &ExtStyles,
    inner: &Node<Option<cst::Expr>>,
)
    ensures { Taking (N.waits (table_of styles.now)) answers.old.nested
        (located expr_form inner.now ∷ []) answers.new.nested
        (Gives (plain B.meaning) answers.new.answer
        (next (next (outcome (table_of styles.now) (located expr_form inner.now)) as_expression)
        (expression_at inner.now.loc))) }
{
    N::answer(alloc, answers, styles, inner);
    parens_in::<B>(alloc, &inner.loc, &mut answers.answer)
}

// ---- primaries with no expression in them: what they hold stands in no other frame

#[inline(never)]
fn entity_in<B: ExprBuilderInfallibleBuild>(
    alloc: Global,
    node: &Node<Option<cst::Ref>>,
    answer: &mut Converted<B::Expr>,
)
    ensures { Gives (plain B.meaning) answer.new (entity_leaf node.now) }
{
    put(answer, entity::<B>(alloc, node))
}

#[inline(never)]
fn slot_in<B: ExprBuilderInfallibleBuild>(
    alloc: Global,
    node: &Node<Option<cst::Slot>>,
    answer: &mut Converted<B::Expr>,
)
    ensures { Gives (plain B.meaning) answer.new (slot_leaf node.now) }
{
    put(answer, slot::<B>(alloc, node))
}

// ---- sets and records

/// A set. Another primary is its caller's.
#[inline(never)]
fn set<B: ExprBuilderInfallibleBuild, N: Nests<B>>(
    alloc: Global,
    answers: &mut Answers<B::Expr>,
    styles: &ExtStyles,
    node: &Node<Option<cst::Primary>>,
)
    ensures { (a : List (Held (Option Tree))) → node.now.node ≡ Some (primaries.EList a)
        → AnswersNode B.meaning (table_of styles.now) N.waits answers.old answers.new
        (located primary_form node.now) }
{
    let Some(cst::Primary::EList(items)) = &node.node else {
        return empty_node_in::<B>(alloc, &node.loc, &mut answers.answer);
    };
    let mut all: Values<B::Expr> = with_room(alloc, items.len());
    for part in items.as_slice() {
        N::answer(alloc, answers, styles, part);
        gather_value::<B>(alloc, &mut all, &mut answers.answer);
    }
    put(&mut answers.answer, set_from::<B>(alloc, &node.loc, all))
}

/// A record. Another primary is its caller's.
#[inline(never)]
fn record<B: ExprBuilderInfallibleBuild, N: Nests<B>>(
    alloc: Global,
    answers: &mut Answers<B::Expr>,
    styles: &ExtStyles,
    node: &Node<Option<cst::Primary>>,
)
    ensures { (a : List (Held (Option Init))) → node.now.node ≡ Some (primaries.RInits a)
        → AnswersNode B.meaning (table_of styles.now) N.waits answers.old answers.new
        (located primary_form node.now) }
{
    let Some(cst::Primary::RInits(inits)) = &node.node else {
        return empty_node_in::<B>(alloc, &node.loc, &mut answers.answer);
    };
    let mut all: Pairs<B::Expr> = with_room(alloc, inits.len());
    for part in inits.as_slice() {
        init::<B, N>(alloc, answers, styles, part, &mut all);
    }
    put(&mut answers.answer, record_from::<B>(alloc, &node.loc, all))
}

/// A pair of a record, added behind those so far. What is left in `answers` beside it is of no use.
#[inline(never)]
fn init<B: ExprBuilderInfallibleBuild, N: Nests<B>>(
    alloc: Global,
    answers: &mut Answers<B::Expr>,
    styles: &ExtStyles,
    node: &Node<Option<cst::RecInit>>,
    all: &mut Pairs<B::Expr>,
)
    ensures { (xs : Outcome (List Pair)) → Gives (seen_pairs B.meaning) all.old xs
        → Taking (N.waits (table_of styles.now)) answers.old.nested
        (nested (located init_form node.now)) answers.new.nested
        (Gives (seen_pairs B.meaning) all.new
        (item_more xs (pair_outcome (table_of styles.now) (located init_form node.now)))) }
{
    match &node.node {
        Some(pair) => {
            N::answer(alloc, answers, styles, &pair.0);
            let key = take(&mut answers.answer);
            N::answer(alloc, answers, styles, &pair.1);
            let value = value_in::<B>(alloc, &mut answers.answer);
            add_pair::<B>(all, pair_from::<B>(alloc, key, value))
        }
        None => add_pair::<B>(all, Err(empty_node(alloc, &node.loc))),
    }
}
