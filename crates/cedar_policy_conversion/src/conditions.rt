//! Conditions: `when` and `unless` with an expression without slots.
ghost use Rattle.std.specs.Prelude.{◌≡◌, IfOk, map};
ghost use Rattle.std.specs.Option.{option_map};
ghost use Rattle.cedar_expressions.specs.Meaning.{expr_meaning, unplaced};
ghost use Rattle.cedar_syntax.specs.declared.err.faults.ParseError.TheVariants.{ToAST};
ghost use Rattle.cedar_policy_conversion.specs.Conditions as k;
ghost use Rattle.cedar_conversion.specs.outcome.Detail as d;
ghost use Rattle.cedar_conversion.specs.outcome.Outcome.{empty_clause, invalid_condition, faults_outcome};
ghost use Rattle.cedar_policy_conversion.specs.PolicyMeaning.{joint_condition};
ghost use Rattle.cedar_policy_conversion.specs.machines.PolicyViews.{meanings};
ghost use Rattle.cedar_conversion.specs.outcome.Seen.{Gives, itself, named_fault};
ghost use Rattle.cedar_conversion.specs.strict.Table.{table_of};
ghost use Rattle.cedar_conversion.specs.machines.Views.{TellsOne, empty_view};

use crate::cst_to_ast::{ExprAst, ExtStyles};
use crate::expressions::expression;
use cedar_conversion::answer::failure::{BoxedFailure, go_on};
use cedar_conversion::answer::faults::{add_fault, place_within};
use cedar_conversion::answer::lists::{add, with_room};
use cedar_conversion::answer::special::{builder_at, content, empty_node, refusal_with};
use cedar_conversion::primaries::methods::CallSite;
use cedar_expressions::{Expr, ExprBuilder, ExprBuilderInfallibleBuild, Slot, TryClone};
use cedar_syntax::cst::{Cond, Ident};
use cedar_syntax::err::{ToASTError, ToASTErrorKind};
use cedar_syntax::loc::Loc;
use cedar_syntax::node::Node;
use std::alloc::{AllocError, Global};

/// A condition's word that is neither `when` nor `unless`.
fn other_word(alloc: Global, loc: &Option<Loc>, word: &Ident) -> BoxedFailure
    ensures { TellsOne result (invalid_condition, loc.now, d.word word.now) }
{
    let kind = word.try_clone().map(ToASTErrorKind::InvalidCondition);
    refusal_with(alloc, kind, loc)
}

/// Whether a condition's word is `when`; else it is `unless`.
fn is_when(alloc: Global, node: &Node<Option<Ident>>) -> Result<bool, BoxedFailure>
    ensures { Gives itself result (k.is_when node.now) }
{
    match &node.node {
        Some(Ident::When) => Ok(true),
        Some(Ident::Unless) => Ok(false),
        Some(word) => Err(other_word(alloc, &node.loc, word)),
        None => Err(empty_node(alloc, &node.loc)),
    }
}

/// A condition with nothing in it.
fn empty_clause(site: CallSite<'_>, word: &Option<Ident>) -> BoxedFailure
    ensures { TellsOne result (empty_clause, site.entry.loc.now, d.word_there word.now) }
{
    let kind = word.try_clone().map(ToASTErrorKind::EmptyClause);
    refusal_with(site.alloc, kind, site.loc)
}

/// The expression of a condition.
fn clause(site: CallSite<'_>, cond: &Cond) -> Result<Expr, BoxedFailure>
    ensures { Gives expr_meaning result
        (k.clause (table_of site.entry.styles.now) site.entry.loc.now cond.now.cond.node
        cond.now.expr) }
{
    match &cond.expr {
        Some(expr) => expression::<ExprBuilder<()>>(site.alloc, site.styles, expr),
        None => Err(empty_clause(site, &cond.cond.node)),
    }
}

/// A slot in a condition.
fn slot_fault(slot: Slot, word: &'static str, loc: &Option<Loc>) -> Result<ToASTError, AllocError>
    ensures { IfOk result (λ made. named_fault (ToAST made)
        ≡ k.condition_slot_fault loc.now word.now slot) }
{
    let loc = place_within(loc, slot.place)?;
    Ok(ToASTError::new(ToASTErrorKind::slots_in_condition_clause(slot, word), loc))
}

/// The word of a condition.
fn condition_word(when: bool) -> &'static str
    ensures { result.now ≡ k.condition_word when }
{
    if when { "when" } else { "unless" }
}

/// Refuses each slot of a condition.
fn refuse_slots(site: CallSite<'_>, word: &'static str, slots: &[Slot]) -> Result<(), BoxedFailure>
    ensures { Gives empty_view result
        (faults_outcome (map (k.condition_slot_fault site.entry.loc.now word.now) slots.now)) }
{
    let mut all: Result<(), BoxedFailure> = Ok(());
    for slot in slots {
        all = add_fault(site.alloc, all, slot_fault(*slot, word, site.loc));
        go_on(&all)?;
    }
    all
}

/// Refuses a condition in which slots stand.
fn refuse_slots_of(site: CallSite<'_>, when: bool, expr: &Expr) -> Result<(), BoxedFailure>
    ensures { Gives empty_view result
        (k.slots_outcome site.entry.loc.now (k.condition_word when) (expr_meaning expr.now)) }
{
    let word = condition_word(when);
    let slots = expr.slots(site.alloc)?;
    refuse_slots(site, word, slots.as_slice())
}

/// `unless` is `not`.
fn condition_value(site: CallSite<'_>, when: bool, expr: Expr) -> Result<Expr, AllocError>
    ensures { IfOk result (λ e. expr_meaning e ≡ k.condition_value when (expr_meaning expr)) }
{
    if when {
        Ok(expr)
    } else {
        builder_at::<ExprBuilder<()>>(site.alloc, site.loc).not(expr)
    }
}

fn condition_of(site: CallSite<'_>, cond: &Cond) -> Result<Expr, BoxedFailure>
    ensures { Gives unplaced result
        (k.condition_of (table_of site.entry.styles.now) site.entry.loc.now cond.now) }
{
    let when = is_when(site.alloc, &cond.cond)?;
    let expr = clause(site, cond)?;
    refuse_slots_of(site, when, &expr)?;
    Ok(condition_value(site, when, expr)?)
}

fn condition(
    alloc: Global,
    styles: &ExtStyles,
    node: &Node<Option<Cond>>,
) -> Result<Expr, BoxedFailure>
    ensures { Gives unplaced result
        (k.condition_outcome (table_of styles.now) node.now) }
{
    let site = CallSite {
        alloc,
        styles,
        loc: &node.loc,
    };
    condition_of(site, content(alloc, node)?)
}

/// The conditions of a policy, joined.
pub(crate) fn conditions(
    alloc: Global,
    styles: &ExtStyles,
    nodes: &[Node<Option<Cond>>],
) -> Result<Vec<Expr>, BoxedFailure>
    ensures { Gives meanings result
        (k.conditions_outcome (table_of styles.now) nodes.now) }
{
    let mut all: Result<Vec<Expr>, BoxedFailure> = with_room(alloc, nodes.len());
    for node in nodes {
        add(&mut all, condition(alloc, styles, node));
        go_on(&all)?;
    }
    all
}

/// Conditions folded to the right with `&&`: none asks for nothing.
pub(crate) fn join_conditions(
    alloc: Global,
    loc: &Option<Loc>,
    conditions: Vec<Expr>,
) -> Result<Option<Expr>, AllocError>
    ensures { IfOk result (λ c. option_map unplaced c
        ≡ joint_condition (map unplaced conditions.items)) }
{
    let mut earlier = conditions;
    let Some(mut all) = earlier.pop() else {
        return Ok(None);
    };
    while let Some(condition) = earlier.pop() {
        all = builder_at::<ExprBuilder<()>>(alloc, loc).and(condition, all)?;
    }
    Ok(Some(all))
}
