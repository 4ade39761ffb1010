//! Trees of policies that no text gives, and what hinders their conversion.
use super::assertions::{holds, holds_for, made, refusal};
use super::places::{place, text};
use super::policies::{id, no_styles, policy};
use super::round_trip::tree_of;
use super::trees::{expr, sum};
use cedar_policy_parser::cst_to_ast::{PoliciesAst, PolicyAst, PolicyImplAst, Scope};
use cedar_syntax::Items;
use cedar_syntax::cst::{
    Add, Cond, Expr, Ident, Literal, Name, NegOp, Policies, Policy, PolicyImpl, Primary, RelOp,
    VariableDef,
};
use cedar_syntax::err::{Failure, ParseError, ToASTErrorKind};
use cedar_syntax::loc::SourceSpan;
use cedar_syntax::node::Node;
use std::process::Abort;

/// A policy that asks for nothing.
const PERMIT: &str = "permit(principal, action, resource);";

/// An empty node at a place.
fn empty<T>(rt: &(impl Abort + AllocGlobal), start: usize, end: usize) -> Node<Option<T>> {
    Node::with_maybe_source_loc(None, Some(place(rt, start, end)))
}

/// A word as no text spells it, at a place.
pub(super) fn word(
    rt: &(impl Abort + AllocGlobal),
    spelling: &str,
    start: usize,
    end: usize,
) -> Node<Option<Ident>> {
    let ident = Ident::Ident(text(rt, spelling));
    Node::with_maybe_source_loc(Some(ident), Some(place(rt, start, end)))
}

/// What a policy's tree holds, to be changed.
pub(super) fn parts(rt: &(impl Abort + AllocGlobal), text: &str) -> PolicyImpl {
    let (policy, loc) = policy(rt, text).into_inner();
    drop(loc);
    let Policy::Policy(parts) = policy.expect(rt, "an empty node");
    parts
}

/// The tree that holds these parts.
pub(super) fn tree(parts: PolicyImpl) -> Node<Option<Policy>> {
    Node::new(Some(Policy::Policy(parts)))
}

/// The failure is an empty node, at these bytes and alone.
fn is_empty_node(rt: &impl Abort, failure: &Failure, start: usize, end: usize) {
    spans(rt, failure, &[(start, end)]);
    if let Failure::Errors(faults) = failure {
        let ParseError::ToAST(fault) = faults.first() else {
            return holds_for(rt, false, &"not a fault of the tree");
        };
        holds(
            rt,
            matches!(fault.kind(), ToASTErrorKind::EmptyNodeInvariantViolation),
        );
    }
}

/// Each call that reads a policy is refused by the empty node at these bytes.
fn each_call_finds_it_empty(
    rt: &(impl Abort + AllocGlobal),
    tree: Node<Option<Policy>>,
    start: usize,
    end: usize,
) {
    let styles = no_styles(rt);
    let failure = refusal(rt, tree.to_template(rt.alloc(), id(rt), &styles));
    is_empty_node(rt, &failure, start, end);
    let alike = refusal(rt, tree.to_policy_template(rt.alloc(), id(rt), &styles));
    is_empty_node(rt, &alike, start, end);
    let either = refusal(rt, tree.to_policy_or_template(rt.alloc(), id(rt), &styles));
    is_empty_node(rt, &either, start, end);
    let alone = refusal(rt, tree.to_policy(rt.alloc(), id(rt), &styles));
    is_empty_node(rt, &alone, start, end);
    drop((failure, alike, either, alone));
    let mut items = Items::new(rt.alloc());
    made(rt, items.push(tree));
    let set = Node::new(Some(Policies(items)));
    let failure = refusal(rt, set.to_policyset(rt.alloc(), &styles));
    is_empty_node(rt, &failure, start, end);
    drop((styles, set, failure));
}

#[test]
fn an_empty_policy_is_refused_by_each_call(rt: HostRuntime) {
    each_call_finds_it_empty(&rt, empty(&rt, 3, 5), 3, 5);
}

#[test]
fn an_empty_set_is_refused(rt: HostRuntime) {
    let styles = no_styles(&rt);
    let node: Node<Option<Policies>> = empty(&rt, 3, 5);
    let failure = refusal(&rt, node.to_policyset(rt.alloc(), &styles));
    is_empty_node(&rt, &failure, 3, 5);
    let unnamed = refusal(&rt, node.with_generated_policyids(rt.alloc()));
    is_empty_node(&rt, &unnamed, 3, 5);
    drop((styles, node, failure, unnamed));
}

#[test]
fn an_empty_policy_of_a_set_is_refused(rt: HostRuntime) {
    let styles = no_styles(&rt);
    let mut items = Items::new(rt.alloc());
    made(&rt, items.push(policy(&rt, PERMIT)));
    made(&rt, items.push(empty(&rt, 7, 9)));
    let node = Node::new(Some(Policies(items)));
    let failure = refusal(&rt, node.to_policyset(rt.alloc(), &styles));
    is_empty_node(&rt, &failure, 7, 9);
    drop((styles, node, failure));
}

#[test]
fn an_empty_element_is_no_extra_one(rt: HostRuntime) {
    let styles = no_styles(&rt);
    let mut parts = parts(&rt, PERMIT);
    made(&rt, parts.variables.push(empty(&rt, 7, 9)));
    let failure = refusal(&rt, parts.extract_scope(rt.alloc(), &styles));
    is_empty_node(&rt, &failure, 7, 9);
    drop((styles, failure));
    each_call_finds_it_empty(&rt, tree(parts), 7, 9);
}

#[test]
fn an_empty_scope_misses_three_elements(rt: HostRuntime) {
    let styles = no_styles(&rt);
    let mut parts = parts(&rt, PERMIT);
    parts.variables = Items::new(rt.alloc());
    let failure = refusal(&rt, parts.extract_scope(rt.alloc(), &styles));
    spans(&rt, &failure, &[(6, 6), (6, 6), (6, 6)]);
    parts.effect = Node::new(Some(Ident::Permit));
    let unplaced = refusal(&rt, parts.extract_scope(rt.alloc(), &styles));
    if let Failure::Errors(faults) = &unplaced {
        holds(
            &rt,
            faults.len() == 3 && faults.primary_source_span().is_none(),
        );
    }
    drop((styles, parts, failure, unplaced));
}

#[test]
fn a_spelled_word_is_no_word(rt: HostRuntime) {
    let styles = no_styles(&rt);
    let mut parts = parts(&rt, "permit(principal, action, resource) when { true };");
    parts.effect = word(&rt, "permit", 0, 6);
    let failure = refusal(&rt, tree(parts).to_template(rt.alloc(), id(&rt), &styles));
    spans(&rt, &failure, &[(0, 6)]);
    drop((styles, failure));
}

#[test]
fn an_empty_condition_word_is_refused(rt: HostRuntime) {
    let styles = no_styles(&rt);
    let mut parts = parts(&rt, PERMIT);
    let cond = Cond {
        cond: empty(&rt, 3, 5),
        expr: None,
    };
    made(&rt, parts.conds.push(Node::new(Some(cond))));
    let failure = refusal(&rt, tree(parts).to_template(rt.alloc(), id(&rt), &styles));
    is_empty_node(&rt, &failure, 3, 5);
    drop((styles, failure));
}

#[test]
fn an_empty_annotation_is_refused(rt: HostRuntime) {
    let styles = no_styles(&rt);
    let mut parts = parts(&rt, "@a permit(principal, action, resource);");
    made(&rt, parts.annotations.push(empty(&rt, 3, 5)));
    let failure = refusal(&rt, tree(parts).to_policy(rt.alloc(), id(&rt), &styles));
    is_empty_node(&rt, &failure, 3, 5);
    drop((styles, failure));
}

/// What a policy asks whose resource has this name behind `:`, this type, and this operator with
/// its right side.
fn asked(
    rt: &(impl Abort + AllocGlobal),
    unused_type_name: Option<Node<Option<Name>>>,
    entity_type: Option<Node<Option<Add>>>,
    ineq: Option<(RelOp, Node<Option<Expr>>)>,
) -> Result<Scope, Failure> {
    let resource = VariableDef {
        variable: Node::with_source_loc(Some(Ident::Resource), place(rt, 26, 34)),
        unused_type_name,
        entity_type,
        ineq,
    };
    let mut parts = parts(rt, PERMIT);
    drop(parts.variables.pop());
    made(rt, parts.variables.push(Node::new(Some(resource))));
    let styles = no_styles(rt);
    let scope = parts.extract_scope(rt.alloc(), &styles);
    drop((styles, parts));
    scope
}

#[test]
fn an_empty_type_name_and_no_signs_ask_nothing(rt: HostRuntime) {
    let scope = asked(&rt, Some(empty(&rt, 7, 9)), None, None);
    asks(&rt, scope, "principal, action, resource");
    for op in &[NegOp::Bang(0), NegOp::Dash(0)] {
        let entity = tree_of::<Primary>(&rt, "User::\"a\"");
        let right = expr(&rt, sum(&rt, Some(*op), entity));
        let scope = asked(&rt, None, None, Some((RelOp::Eq, right)));
        let wanted = "principal, action, resource == User::\"a\"";
        asks(&rt, scope, wanted);
    }
}

#[test]
fn a_type_outside_of_its_source_is_told_as_invalid(rt: HostRuntime) {
    let number = Node::with_source_loc(Some(Literal::Num(1)), place(&rt, 43, 103));
    let primary = Node::with_source_loc(Some(Primary::Literal(number)), place(&rt, 43, 103));
    let failure = refusal(&rt, asked(&rt, None, Some(sum(&rt, None, primary)), None));
    spans(&rt, &failure, &[(43, 103)]);
    tells_sides(&rt, &failure, "resource", "<invalid>");
    drop(failure);
}

#[test]
fn a_slot_is_told_within_its_condition_or_at_it(rt: HostRuntime) {
    let styles = no_styles(&rt);
    let text = "permit(principal, action, resource) when { ?principal == 1 };";
    let read = policy(&rt, text);
    let failure = refusal(&rt, read.to_template(rt.alloc(), id(&rt), &styles));
    let told = "43..53: found template slot ?principal in a `when` clause";
    tells(&rt, failure, told);
    let mut parts = parts(&rt, text);
    let mut cond = parts.conds.pop().expect(&rt, "no condition");
    cond.loc = Some(place(&rt, 0, 3));
    made(&rt, parts.conds.push(cond));
    let failure = refusal(&rt, tree(parts).to_template(rt.alloc(), id(&rt), &styles));
    let told = "0..3: found template slot ?principal in a `when` clause";
    tells(&rt, failure, told);
    drop((styles, read));
}

/// The bytes at which each fault stands.
pub(super) fn spans(rt: &impl Abort, failure: &Failure, wanted: &[(usize, usize)]) {
    let Failure::Errors(faults) = failure else {
        return holds_for(rt, false, &"want of memory");
    };
    holds(rt, faults.len() == wanted.len());
    for (fault, (start, end)) in faults.iter().zip(wanted) {
        holds(
            rt,
            fault.primary_source_span() == Some(SourceSpan::between(*start, *end)),
        );
    }
}

/// The failure is just these faults, told as the program does.
pub(super) fn tells(rt: &(impl Abort + AllocGlobal), failure: Failure, wanted: &str) {
    let mut told = String::new(rt.alloc());
    if let Failure::Errors(faults) = &failure {
        for fault in faults.iter() {
            let span = fault.primary_source_span().expect(rt, "no place");
            let (start, end) = (span.offset(), span.end());
            let line = made(rt, format!(in rt.alloc(); "{start}..{end}: {fault}\n"));
            made(rt, told.push_str(line.as_str()));
        }
    }
    holds_for(rt, told.as_str().trim_end() == wanted, &told);
    drop((failure, told));
}

/// The scope asks just this, or has just these faults.
pub(super) fn asks(rt: &(impl Abort + AllocGlobal), scope: Result<Scope, Failure>, wanted: &str) {
    match scope {
        Ok((principal, action, resource)) => {
            let asked = format!(in rt.alloc(); "{principal}, {action}, {resource}");
            let asked = made(rt, asked);
            holds_for(rt, asked.as_str() == wanted, &asked);
            drop((principal, action, resource, asked));
        }
        Err(failure) => tells(rt, failure, wanted),
    }
}

/// The last fault is of an `is` of no type, and has these sides.
pub(super) fn tells_sides(rt: &impl Abort, failure: &Failure, left: &str, right: &str) {
    let Failure::Errors(faults) = failure else {
        return holds_for(rt, false, &"want of memory");
    };
    let Some(ParseError::ToAST(fault)) = faults.iter().last() else {
        return holds_for(rt, false, &"not a fault of the tree");
    };
    let ToASTErrorKind::InvalidIsType { lhs, rhs } = fault.kind() else {
        return holds_for(rt, false, fault);
    };
    holds_for(rt, lhs.as_str() == left && rhs.as_str() == right, fault);
}
