//! Trees of which a node stands elsewhere than they say, or nowhere.
use super::assertions::{holds, holds_for, made, refusal, says};
use super::places::place;
use super::policies::{id, no_styles};
use super::policy_trees::{parts, spans, tells_sides, tree};
use super::texts::built;
use super::trees::{expr, named, node, related, sum};
use cedar_expressions::ExprBuilder;
use cedar_policy_parser::cst_to_ast::PolicyAst;
use cedar_syntax::Boxed;
use cedar_syntax::cst::{
    Ident, Literal, Policy, PolicyImpl, Primary, RelOp, Relation, Slot, VariableDef,
};
use cedar_syntax::err::Failure;
use cedar_syntax::loc::Loc;
use cedar_syntax::node::Node;
use std::process::Abort;

/// So many faults, none of which has a place.
fn stand_nowhere(rt: &impl Abort, failure: &Failure, count: usize) {
    let Failure::Errors(faults) = failure else {
        return holds_for(rt, false, &"want of memory");
    };
    holds(rt, faults.len() == count);
    for fault in faults.iter() {
        holds(rt, fault.primary_source_span().is_none());
    }
}

/// A policy with the slot at 43..53 in a condition, which stands there.
fn slotted(rt: &(impl Abort + AllocGlobal), loc: Option<Loc>) -> PolicyImpl {
    let text = "permit(principal, action, resource) when { ?principal == 1 };";
    let mut parts = parts(rt, text);
    let mut cond = parts.conds.pop().expect(rt, "no condition");
    cond.loc = loc;
    made(rt, parts.conds.push(cond));
    parts
}

/// What is said of the slot.
const SAID_OF_SLOT: &str = "found template slot ?principal in a `when` clause";

#[test]
fn a_slot_is_told_at_a_condition_that_ends_in_it(rt: HostRuntime) {
    let styles = no_styles(&rt);
    let parts = slotted(&rt, Some(place(&rt, 0, 52)));
    let failure = refusal(&rt, tree(parts).to_template(rt.alloc(), id(&rt), &styles));
    drop(styles);
    spans(&rt, &failure, &[(0, 52)]);
    says(&rt, failure, SAID_OF_SLOT);
}

#[test]
fn a_slot_in_a_condition_without_a_place_is_told_without_one(rt: HostRuntime) {
    let styles = no_styles(&rt);
    let tree = tree(slotted(&rt, None));
    let failure = refusal(&rt, tree.to_template(rt.alloc(), id(&rt), &styles));
    stand_nowhere(&rt, &failure, 1);
    says(&rt, failure, SAID_OF_SLOT);
    let failure = refusal(&rt, tree.to_policy(rt.alloc(), id(&rt), &styles));
    drop((styles, tree));
    stand_nowhere(&rt, &failure, 2);
    says(&rt, failure, SAID_OF_SLOT);
}

/// A template of which the slot, `?resource`, has no place.
fn template(rt: &(impl Abort + AllocGlobal)) -> PolicyImpl {
    with_slot(rt, node(Primary::Slot(node(Slot::Resource))))
}

/// A policy whose resource is this slot.
fn with_slot(rt: &(impl Abort + AllocGlobal), slot: Node<Option<Primary>>) -> PolicyImpl {
    let resource = VariableDef {
        variable: node(Ident::Resource),
        unused_type_name: None,
        entity_type: None,
        ineq: Some((RelOp::Eq, expr(rt, sum(rt, None, slot)))),
    };
    let mut parts = parts(rt, "permit(principal, action, resource);");
    drop(parts.variables.pop());
    made(rt, parts.variables.push(node(resource)));
    parts
}

/// What is said of a template.
const SAID_OF_TEMPLATE: &str =
    "expected a static policy, got a template containing the slot ?resource";

#[test]
fn a_template_is_told_at_its_place_where_its_slot_has_none(rt: HostRuntime) {
    let styles = no_styles(&rt);
    let policy = Policy::Policy(template(&rt));
    let placed = Node::with_source_loc(Some(policy), place(&rt, 0, 10));
    let failure = refusal(&rt, placed.to_policy(rt.alloc(), id(&rt), &styles));
    drop(placed);
    spans(&rt, &failure, &[(0, 10)]);
    says(&rt, failure, SAID_OF_TEMPLATE);
    let unplaced = tree(template(&rt));
    let failure = refusal(&rt, unplaced.to_policy(rt.alloc(), id(&rt), &styles));
    drop((styles, unplaced));
    stand_nowhere(&rt, &failure, 1);
    says(&rt, failure, SAID_OF_TEMPLATE);
}

#[test]
fn a_slot_outside_of_its_policy_is_told_where_it_stands(rt: HostRuntime) {
    let styles = no_styles(&rt);
    let slot = Node::with_source_loc(Some(Slot::Resource), place(&rt, 43, 52));
    let primary = Node::with_source_loc(Some(Primary::Slot(slot)), place(&rt, 43, 52));
    let policy = Policy::Policy(with_slot(&rt, primary));
    let placed = Node::with_source_loc(Some(policy), place(&rt, 0, 10));
    let failure = refusal(&rt, placed.to_policy(rt.alloc(), id(&rt), &styles));
    drop((styles, placed));
    spans(&rt, &failure, &[(43, 52)]);
    says(&rt, failure, SAID_OF_TEMPLATE);
}

#[test]
fn a_type_outside_of_its_source_is_told_as_invalid_in_an_expression(rt: HostRuntime) {
    let number = Node::with_source_loc(Some(Literal::Num(1)), place(&rt, 43, 103));
    let primary = Node::with_source_loc(Some(Primary::Literal(number)), place(&rt, 43, 103));
    let right = sum(&rt, None, primary);
    let is = Relation::IsIn {
        target: sum(&rt, None, named(&rt, Ident::Principal)),
        entity_type: made(&rt, Boxed::new(rt.alloc(), right)),
        in_entity: None,
    };
    let expr = related(&rt, is);
    let failure = refusal(&rt, built::<ExprBuilder<()>>(rt.alloc(), &expr));
    drop(expr);
    spans(&rt, &failure, &[(43, 103)]);
    // (A left side without a place is told as `..`.)
    tells_sides(&rt, &failure, "..", "<invalid>");
    drop(failure);
}
