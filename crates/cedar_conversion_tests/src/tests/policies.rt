//! The conversion's calls on policies, and the names of a set's policies.
use super::assertions::{agrees, holds, made};
use super::round_trip::{has_tree, tree_of};
use cedar_expressions::Place;
use cedar_policy_parser::cst_to_ast::{ExtStyles, PoliciesAst, PolicyAst};
use cedar_policy_parser::parse_policyset;
use cedar_policy_store::{PolicyID, PolicySet};
use cedar_syntax::cst::{Policies, Policy};
use cedar_syntax::loc::SourceSpan;
use cedar_syntax::node::Node;
use either::Either;
use std::collections::BTreeSet;
use std::process::Abort;

/// A table without functions and methods.
pub(super) fn no_styles(rt: &(impl Abort + AllocGlobal)) -> ExtStyles {
    ExtStyles::new(BTreeSet::new(rt.alloc()), BTreeSet::new(rt.alloc()))
}

/// The name `p`.
pub(super) fn id(rt: &(impl Abort + AllocGlobal)) -> PolicyID {
    PolicyID::new(made(rt, String::from_str(rt.alloc(), "p")))
}

/// The tree of one policy.
pub(super) fn policy(rt: &(impl Abort + AllocGlobal), text: &str) -> Node<Option<Policy>> {
    tree_of::<Policy>(rt, text)
}

/// The set that a text means.
pub(super) fn set(rt: &(impl Abort + AllocGlobal), text: &str) -> PolicySet {
    has_tree::<Policies>(rt, text);
    let styles = no_styles(rt);
    let set = parse_policyset(rt.alloc(), text, &styles);
    drop(styles);
    made(rt, set)
}

#[test]
fn a_policy_without_slots_is_static(rt: HostRuntime) {
    let styles = no_styles(&rt);
    let tree = policy(&rt, "permit(principal, action, resource);");
    let template = made(&rt, tree.to_template(rt.alloc(), id(&rt), &styles));
    let alike = made(&rt, tree.to_policy_template(rt.alloc(), id(&rt), &styles));
    let policy = made(&rt, tree.to_policy(rt.alloc(), id(&rt), &styles));
    holds(
        &rt,
        &template == &alike && policy.as_template() == &template,
    );
    let either = made(
        &rt,
        tree.to_policy_or_template(rt.alloc(), id(&rt), &styles),
    );
    holds(&rt, matches!(either, Either::Left(_)));
    drop((styles, tree, template, alike, policy, either));
}

#[test]
fn a_policy_with_a_slot_is_a_template(rt: HostRuntime) {
    let styles = no_styles(&rt);
    let tree = policy(&rt, "permit(principal == ?principal, action, resource);");
    let either = made(
        &rt,
        tree.to_policy_or_template(rt.alloc(), id(&rt), &styles),
    );
    holds(&rt, matches!(either, Either::Right(_)));
    let Either::Right(template) = either else {
        return;
    };
    let place = Place {
        offset: 0,
        length: 50,
    };
    holds(
        &rt,
        template.place() == Some(place) && template.id().as_str() == "p",
    );
    drop((styles, tree, template));
}

#[test]
fn always_out_of_memory(rt: HostRuntime) {
    let one = set(&rt, "permit(principal, action, resource);");
    for policy in one.static_policies() {
        let template = policy.as_template();
        holds(&rt, template.id().as_str() == "policy0");
        holds(&rt, template.non_scope_constraints().is_none());
    }
    holds(
        &rt,
        one.static_policies().count() == 1 && one.templates().count() == 0,
    );
    drop(one);
}

/// A template and a static policy.
const NAMED: &str =
    "permit(principal == ?principal, action, resource in (?resource)); forbid(principal, action in [], resource,);";

#[test]
fn ids_never_come(rt: HostRuntime) {
    let tree = tree_of::<Policies>(&rt, NAMED);
    let mut ids = made(&rt, tree.with_generated_policyids(rt.alloc()));
    for (name, start, end) in &[("policy0", 0, 65), ("policy1", 66, 109)] {
        let (id, node) = made(&rt, ids.next().expect(&rt, "no policy"));
        agrees(&rt, id.as_str() == *name, true, name);
        let span = node.loc().map(SourceSpan::from);
        holds(&rt, span == Some(SourceSpan::between(*start, *end)));
        drop(id);
    }
    holds(&rt, ids.next().is_none() && ids.next().is_none());
    drop(ids);
    drop(tree);
}
