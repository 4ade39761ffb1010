//! The conversion of one expression, by the answers of those nested in it: each call opens one
//! node, converts its parts and joins what they gave.
//!
//! The answer is left where the caller wants it (`answers`), so a node with one part goes through
//! without a frame of its own; a tree with several goes to the function of its level's chain. What
//! answers for nested expressions is the caller's choice (`nesting`): so no function calls itself,
//! however deeply a text nests.
ghost use Rattle.std.specs.Prelude.{◌≡◌, List, Option};
ghost use Rattle.cedar_syntax.specs.declared.cst.RelOp.{RelOp};
ghost use Rattle.cedar_syntax.specs.declared.node.Node.{Node as Held};
ghost use Rattle.cedar_syntax.specs.declared.cst.Add.{Add as Sum};
ghost use Rattle.cedar_syntax.specs.declared.cst.Expr.{Expr as Tree};
ghost use Rattle.cedar_syntax.specs.declared.cst.ExprData.TheVariants as datas;
ghost use Rattle.cedar_syntax.specs.declared.cst.Relation.TheVariants as relations;
ghost use Rattle.cedar_syntax.specs.trees.Forms.{located, expr_form, data_form, or_form, and_form, relation_form, add_form, mult_form, unary_form};
ghost use Rattle.cedar_conversion.specs.strict.Table.{table_of};
ghost use Rattle.cedar_conversion.specs.machines.Taking.{AnswersForm, AnswersNode};

use crate::answer::lists::{at_most_one, more, only_one, with_room};
use crate::answer::{
    Parts, Values, empty_node_in, gather, gather_value, if_in, put, take, value_in,
};
use crate::convert::data_of;
use crate::leaves::literals::bare_number;
use crate::nesting::{Answers, Nests};
use crate::operators::chain::{AndAnd, OrOr, alike_in, chain_from, comparison_in, factor_of};
use crate::operators::has_side::right_side;
use crate::operators::sides::{has_from, is_from, is_in_from, like_from, type_beside};
use crate::operators::signs::{signed_from, without_operand};
use crate::operators::single_child::SingleChild;
use crate::primaries::member;
use crate::primaries::methods::CallSite;
use crate::styles::ExtStyles;
use cedar_expressions::{AddOp, ExprBuilderInfallibleBuild};
use cedar_syntax::cst::{self, MultOp, RelOp};
use cedar_syntax::node::Node;
use std::alloc::Global;

/// An expression: a disjunction goes through, as one part alone does at each level below.
#[inline(never)]
pub(crate) fn expression<B: ExprBuilderInfallibleBuild, N: Nests<B>>(
    alloc: Global,
    answers: &mut Answers<B::Expr>,
    styles: &ExtStyles,
    node: &Node<Option<cst::Expr>>,
)
    ensures { AnswersNode B.meaning (table_of styles.now) N.waits answers.old answers.new
        (located expr_form node.now) }
{
    let loc = &node.loc;
    match &node.node {
        Some(tree) => {
            let data = data_of(tree);
            match data {
                cst::ExprData::Or(part) => or::<B, N>(alloc, answers, styles, part),
                cst::ExprData::If(_, _, _) => {
                    conditional::<B, N>(CallSite { alloc, styles, loc }, answers, data)
                }
            }
        }
        None => empty_node_in::<B>(alloc, loc, &mut answers.answer),
    }
}

/// A conditional. A disjunction is its caller's.
#[inline(never)]
fn conditional<B: ExprBuilderInfallibleBuild, N: Nests<B>>(
    site: CallSite<'_>,
    answers: &mut Answers<B::Expr>,
    tree: &cst::ExprData,
)
    ensures { (a b c : Held (Option Tree)) → tree.now ≡ datas.If a b c
        → AnswersForm B.meaning (table_of site.entry.styles.now) N.waits
        answers.old answers.new site.entry.loc.now (data_form tree.now) }
{
    let CallSite { alloc, styles, loc } = site;
    let cst::ExprData::If(guard, consequent, alternative) = tree else {
        return empty_node_in::<B>(alloc, loc, &mut answers.answer);
    };
    N::answer(alloc, answers, styles, guard);
    let mut guard = value_in::<B>(alloc, &mut answers.answer);
    N::answer(alloc, answers, styles, consequent);
    let mut consequent = value_in::<B>(alloc, &mut answers.answer);
    N::answer(alloc, answers, styles, alternative);
    if_in::<B>(alloc, loc, &mut guard, &mut consequent, &mut answers.answer)
}

/// A disjunction, or its one part.
#[inline(never)]
fn or<B: ExprBuilderInfallibleBuild, N: Nests<B>>(
    alloc: Global,
    answers: &mut Answers<B::Expr>,
    styles: &ExtStyles,
    node: &Node<Option<cst::Or>>,
)
    ensures { AnswersNode B.meaning (table_of styles.now) N.waits answers.old answers.new
        (located or_form node.now) }
{
    let loc = &node.loc;
    match &node.node {
        Some(tree) => match tree.single_child() {
            Some(part) => and::<B, N>(alloc, answers, styles, part),
            None => or_chain::<B, N>(CallSite { alloc, styles, loc }, answers, tree),
        },
        None => empty_node_in::<B>(alloc, loc, &mut answers.answer),
    }
}

#[inline(never)]
fn or_chain<B: ExprBuilderInfallibleBuild, N: Nests<B>>(
    site: CallSite<'_>,
    answers: &mut Answers<B::Expr>,
    or: &cst::Or,
)
    ensures { AnswersForm B.meaning (table_of site.entry.styles.now) N.waits
        answers.old answers.new site.entry.loc.now (or_form or.now) }
{
    and::<B, N>(site.alloc, answers, site.styles, &or.initial);
    let mut first = take(&mut answers.answer);
    let mut rest: Values<B::Expr> = with_room(site.alloc, or.extended.len());
    for part in or.extended.as_slice() {
        and::<B, N>(site.alloc, answers, site.styles, part);
        gather_value::<B>(site.alloc, &mut rest, &mut answers.answer);
    }
    alike_in::<B, OrOr>(site.alloc, site.loc, &mut first, rest, &mut answers.answer)
}

/// A conjunction, or its one part.
#[inline(never)]
fn and<B: ExprBuilderInfallibleBuild, N: Nests<B>>(
    alloc: Global,
    answers: &mut Answers<B::Expr>,
    styles: &ExtStyles,
    node: &Node<Option<cst::And>>,
)
    ensures { AnswersNode B.meaning (table_of styles.now) N.waits answers.old answers.new
        (located and_form node.now) }
{
    let loc = &node.loc;
    match &node.node {
        Some(tree) => match tree.single_child() {
            Some(part) => relation::<B, N>(alloc, answers, styles, part),
            None => and_chain::<B, N>(CallSite { alloc, styles, loc }, answers, tree),
        },
        None => empty_node_in::<B>(alloc, loc, &mut answers.answer),
    }
}

#[inline(never)]
fn and_chain<B: ExprBuilderInfallibleBuild, N: Nests<B>>(
    site: CallSite<'_>,
    answers: &mut Answers<B::Expr>,
    and: &cst::And,
)
    ensures { AnswersForm B.meaning (table_of site.entry.styles.now) N.waits
        answers.old answers.new site.entry.loc.now (and_form and.now) }
{
    relation::<B, N>(site.alloc, answers, site.styles, &and.initial);
    let mut first = take(&mut answers.answer);
    let mut rest: Values<B::Expr> = with_room(site.alloc, and.extended.len());
    for part in and.extended.as_slice() {
        relation::<B, N>(site.alloc, answers, site.styles, part);
        gather_value::<B>(site.alloc, &mut rest, &mut answers.answer);
    }
    alike_in::<B, AndAnd>(site.alloc, site.loc, &mut first, rest, &mut answers.answer)
}

/// A relation, or its one part.
#[inline(never)]
fn relation<B: ExprBuilderInfallibleBuild, N: Nests<B>>(
    alloc: Global,
    answers: &mut Answers<B::Expr>,
    styles: &ExtStyles,
    node: &Node<Option<cst::Relation>>,
)
    ensures { AnswersNode B.meaning (table_of styles.now) N.waits answers.old answers.new
        (located relation_form node.now) }
{
    let loc = &node.loc;
    match &node.node {
        Some(tree) => match tree.single_child() {
            Some(part) => add::<B, N>(alloc, answers, styles, part),
            None => relation_chain::<B, N>(CallSite { alloc, styles, loc }, answers, tree),
        },
        None => empty_node_in::<B>(alloc, loc, &mut answers.answer),
    }
}

#[inline(never)]
fn relation_chain<B: ExprBuilderInfallibleBuild, N: Nests<B>>(
    site: CallSite<'_>,
    answers: &mut Answers<B::Expr>,
    relation: &cst::Relation,
)
    ensures { AnswersForm B.meaning (table_of site.entry.styles.now) N.waits
        answers.old answers.new site.entry.loc.now (relation_form relation.now) }
{
    let CallSite { alloc, styles, loc } = site;
    match relation {
        cst::Relation::Common { initial, extended } => match only_one(extended.as_slice()) {
            Some(side) => {
                add::<B, N>(alloc, answers, styles, initial);
                let mut first = take(&mut answers.answer);
                add::<B, N>(alloc, answers, styles, &side.1);
                comparison_in::<B>(alloc, loc, &mut first, side.0, &mut answers.answer)
            }
            None => comparisons::<B, N>(site, answers, relation),
        },
        cst::Relation::Has { .. } => has::<B, N>(site, answers, relation),
        cst::Relation::Like { .. } => like::<B, N>(site, answers, relation),
        cst::Relation::IsIn { .. } => is_in::<B, N>(site, answers, relation),
    }
}

/// A first side and any number of others. Another relation than this is its caller's.
#[inline(never)]
fn comparisons<B: ExprBuilderInfallibleBuild, N: Nests<B>>(
    site: CallSite<'_>,
    answers: &mut Answers<B::Expr>,
    relation: &cst::Relation,
)
    ensures { (a : Held (Option Sum)) (b : List (RelOp × Held (Option Sum)))
        → relation.now ≡ relations.Common a b
        → AnswersForm B.meaning (table_of site.entry.styles.now) N.waits
        answers.old answers.new site.entry.loc.now (relation_form relation.now) }
{
    let cst::Relation::Common {
        initial: left,
        extended,
    } = relation
    else {
        return empty_node_in::<B>(site.alloc, site.loc, &mut answers.answer);
    };
    add::<B, N>(site.alloc, answers, site.styles, left);
    let first = take(&mut answers.answer);
    let mut rest: Parts<RelOp, B::Expr> = Ok(Vec::new(site.alloc));
    for (op, part) in extended.as_slice() {
        add::<B, N>(site.alloc, answers, site.styles, part);
        gather::<B, RelOp>(site.alloc, &mut rest, *op, &mut answers.answer);
    }
    let allowed = at_most_one(site.alloc, site.loc, extended.as_slice());
    put(
        &mut answers.answer,
        chain_from::<B, RelOp>(site.alloc, site.loc, first, rest, allowed),
    )
}

/// `has`. Another relation than this is its caller's.
#[inline(never)]
fn has<B: ExprBuilderInfallibleBuild, N: Nests<B>>(
    site: CallSite<'_>,
    answers: &mut Answers<B::Expr>,
    relation: &cst::Relation,
)
    ensures { (a b : Held (Option Sum)) → relation.now ≡ relations.Has a b
        → AnswersForm B.meaning (table_of site.entry.styles.now) N.waits
        answers.old answers.new site.entry.loc.now (relation_form relation.now) }
{
    let cst::Relation::Has { target, field } = relation else {
        return empty_node_in::<B>(site.alloc, site.loc, &mut answers.answer);
    };
    let right = right_side::<B>(site.alloc, field.as_ref());
    add::<B, N>(site.alloc, answers, site.styles, target);
    let target = value_in::<B>(site.alloc, &mut answers.answer);
    put(
        &mut answers.answer,
        has_from::<B>(site.alloc, site.loc, right, target),
    )
}

/// `like`. Another relation than this is its caller's.
#[inline(never)]
fn like<B: ExprBuilderInfallibleBuild, N: Nests<B>>(
    site: CallSite<'_>,
    answers: &mut Answers<B::Expr>,
    relation: &cst::Relation,
)
    ensures { (a b : Held (Option Sum)) → relation.now ≡ relations.Like a b
        → AnswersForm B.meaning (table_of site.entry.styles.now) N.waits
        answers.old answers.new site.entry.loc.now (relation_form relation.now) }
{
    let cst::Relation::Like { target, pattern } = relation else {
        return empty_node_in::<B>(site.alloc, site.loc, &mut answers.answer);
    };
    add::<B, N>(site.alloc, answers, site.styles, target);
    let target = value_in::<B>(site.alloc, &mut answers.answer);
    add::<B, N>(site.alloc, answers, site.styles, pattern.as_ref());
    let pattern = take(&mut answers.answer);
    put(
        &mut answers.answer,
        like_from::<B>(site.alloc, site.loc, target, pattern),
    )
}

/// `is` alone or with `in`. Another relation than these is its caller's.
#[inline(never)]
fn is_in<B: ExprBuilderInfallibleBuild, N: Nests<B>>(
    site: CallSite<'_>,
    answers: &mut Answers<B::Expr>,
    relation: &cst::Relation,
)
    ensures { (a b : Held (Option Sum)) (c : Option (Held (Option Sum)))
        → relation.now ≡ relations.IsIn a b c
        → AnswersForm B.meaning (table_of site.entry.styles.now) N.waits
        answers.old answers.new site.entry.loc.now (relation_form relation.now) }
{
    let CallSite { alloc, styles, loc } = site;
    let cst::Relation::IsIn {
        target,
        entity_type,
        in_entity,
    } = relation
    else {
        return empty_node_in::<B>(alloc, loc, &mut answers.answer);
    };
    add::<B, N>(alloc, answers, styles, target);
    let left = value_in::<B>(alloc, &mut answers.answer);
    add::<B, N>(alloc, answers, styles, entity_type.as_ref());
    let right = take(&mut answers.answer);
    let pair = type_beside::<B>(alloc, &target.loc, left, right);
    match in_entity {
        None => put(&mut answers.answer, is_from::<B>(alloc, loc, pair)),
        Some(within) => {
            add::<B, N>(alloc, answers, styles, within.as_ref());
            let within = value_in::<B>(alloc, &mut answers.answer);
            put(
                &mut answers.answer,
                is_in_from::<B>(alloc, loc, pair, within),
            )
        }
    }
}

/// A sum, or its one part.
#[inline(never)]
pub(crate) fn add<B: ExprBuilderInfallibleBuild, N: Nests<B>>(
    alloc: Global,
    answers: &mut Answers<B::Expr>,
    styles: &ExtStyles,
    node: &Node<Option<cst::Add>>,
)
    ensures { AnswersNode B.meaning (table_of styles.now) N.waits answers.old answers.new
        (located add_form node.now) }
{
    let loc = &node.loc;
    match &node.node {
        Some(tree) => match tree.single_child() {
            Some(part) => mult::<B, N>(alloc, answers, styles, part),
            None => add_chain::<B, N>(CallSite { alloc, styles, loc }, answers, tree),
        },
        None => empty_node_in::<B>(alloc, loc, &mut answers.answer),
    }
}

#[inline(never)]
fn add_chain<B: ExprBuilderInfallibleBuild, N: Nests<B>>(
    site: CallSite<'_>,
    answers: &mut Answers<B::Expr>,
    add: &cst::Add,
)
    ensures { AnswersForm B.meaning (table_of site.entry.styles.now) N.waits
        answers.old answers.new site.entry.loc.now (add_form add.now) }
{
    mult::<B, N>(site.alloc, answers, site.styles, &add.initial);
    let first = take(&mut answers.answer);
    let mut rest: Parts<AddOp, B::Expr> = with_room(site.alloc, add.extended.len());
    for (op, part) in add.extended.as_slice() {
        mult::<B, N>(site.alloc, answers, site.styles, part);
        gather::<B, AddOp>(site.alloc, &mut rest, *op, &mut answers.answer);
    }
    put(
        &mut answers.answer,
        chain_from::<B, AddOp>(site.alloc, site.loc, first, rest, Ok(())),
    )
}

/// A product, or its one part.
#[inline(never)]
fn mult<B: ExprBuilderInfallibleBuild, N: Nests<B>>(
    alloc: Global,
    answers: &mut Answers<B::Expr>,
    styles: &ExtStyles,
    node: &Node<Option<cst::Mult>>,
)
    ensures { AnswersNode B.meaning (table_of styles.now) N.waits answers.old answers.new
        (located mult_form node.now) }
{
    let loc = &node.loc;
    match &node.node {
        Some(tree) => match tree.single_child() {
            Some(part) => unary::<B, N>(alloc, answers, styles, part),
            None => mult_chain::<B, N>(CallSite { alloc, styles, loc }, answers, tree),
        },
        None => empty_node_in::<B>(alloc, loc, &mut answers.answer),
    }
}

#[inline(never)]
fn mult_chain<B: ExprBuilderInfallibleBuild, N: Nests<B>>(
    site: CallSite<'_>,
    answers: &mut Answers<B::Expr>,
    mult: &cst::Mult,
)
    ensures { AnswersForm B.meaning (table_of site.entry.styles.now) N.waits
        answers.old answers.new site.entry.loc.now (mult_form mult.now) }
{
    unary::<B, N>(site.alloc, answers, site.styles, &mult.initial);
    let first = take(&mut answers.answer);
    let mut rest: Parts<MultOp, B::Expr> = Ok(Vec::new(site.alloc));
    for (op, part) in mult.extended.as_slice() {
        unary::<B, N>(site.alloc, answers, site.styles, part);
        let part = value_in::<B>(site.alloc, &mut answers.answer);
        let factor = factor_of::<B>(site.alloc, site.loc, *op, part);
        more::<B, MultOp>(&mut rest, *op, factor);
    }
    put(
        &mut answers.answer,
        chain_from::<B, MultOp>(site.alloc, site.loc, first, rest, Ok(())),
    )
}

/// An operand, with signs or without.
#[inline(never)]
fn unary<B: ExprBuilderInfallibleBuild, N: Nests<B>>(
    alloc: Global,
    answers: &mut Answers<B::Expr>,
    styles: &ExtStyles,
    node: &Node<Option<cst::Unary>>,
)
    ensures { AnswersNode B.meaning (table_of styles.now) N.waits answers.old answers.new
        (located unary_form node.now) }
{
    let loc = &node.loc;
    match &node.node {
        Some(tree) => match tree.single_child() {
            Some(item) => member::<B, N>(alloc, answers, styles, item),
            None => signs::<B, N>(CallSite { alloc, styles, loc }, answers, tree),
        },
        None => empty_node_in::<B>(alloc, loc, &mut answers.answer),
    }
}

#[inline(never)]
fn signs<B: ExprBuilderInfallibleBuild, N: Nests<B>>(
    site: CallSite<'_>,
    answers: &mut Answers<B::Expr>,
    unary: &cst::Unary,
)
    ensures { AnswersForm B.meaning (table_of site.entry.styles.now) N.waits
        answers.old answers.new site.entry.loc.now (unary_form unary.now) }
{
    let bare = bare_number(&unary.item);
    match without_operand::<B>(site.alloc, site.loc, &unary.item.loc, unary.op, bare) {
        Some(given) => put(&mut answers.answer, given),
        None => {
            member::<B, N>(site.alloc, answers, site.styles, &unary.item);
            let item = take(&mut answers.answer);
            put(
                &mut answers.answer,
                signed_from::<B>(site.alloc, site.loc, unary.op, bare, item),
            )
        }
    }
}
