//! What no text shows: where the slot stands that a fault holds, and how often a caller's function
//! is called.
use super::assertions::{holds, made, refusal};
use super::policies::{id, no_styles, policy};
use cedar_expressions::{Place, Slot, SlotId};
use cedar_policy_parser::cst_to_ast::{AnnotationAst, PolicyAst, PolicyImplAst};
use cedar_syntax::cst::{Policy, PolicyImpl};
use cedar_syntax::err::{Failure, ParseError, ToASTErrorKind};
use cedar_syntax::loc::Loc;
use cedar_syntax::node::Node;
use std::cell::Cell;
use std::process::Abort;

/// The slot that a fault holds, if it is of one.
fn slot_of(fault: &ParseError) -> Option<Slot> {
    let ParseError::ToAST(fault) = fault else {
        return None;
    };
    match fault.kind() {
        ToASTErrorKind::SlotsInConditionClause(found) => Some(found.slot),
        ToASTErrorKind::ExpectedStaticPolicy(found) => Some(found.slot),
        _ => None,
    }
}

/// The slot of a variable at these bytes.
fn slot_at(id: SlotId, offset: usize, length: usize) -> Slot {
    Slot {
        id,
        place: Some(Place { offset, length }),
    }
}

/// Each fault holds the slot that is wanted there.
fn holds_slots(rt: &impl Abort, failure: &Failure, wanted: &[Slot]) {
    let Failure::Errors(faults) = failure else {
        return holds(rt, false);
    };
    holds(rt, faults.len() == wanted.len());
    for (fault, slot) in faults.iter().zip(wanted) {
        holds(rt, slot_of(fault) == Some(*slot));
    }
}

#[test]
fn slots_of_conditions_are_held_with_their_places(rt: HostRuntime) {
    let text =
        "permit(principal, action, resource) when { ?principal == 1 } unless { [?resource] };";
    let (tree, styles) = (policy(&rt, text), no_styles(&rt));
    let failure = refusal(&rt, tree.to_policy(rt.alloc(), id(&rt), &styles));
    let first = slot_at(SlotId::Principal, 43, 10);
    let second = slot_at(SlotId::Resource, 71, 9);
    holds_slots(&rt, &failure, &[first, second, first, second]);
    drop((failure, styles, tree));
}

#[test]
fn the_slot_of_a_template_is_held_with_its_place(rt: HostRuntime) {
    let text = "permit(principal in ?principal, action, resource == ?resource);";
    let (tree, styles) = (policy(&rt, text), no_styles(&rt));
    let failure = refusal(&rt, tree.to_policy(rt.alloc(), id(&rt), &styles));
    holds_slots(&rt, &failure, &[slot_at(SlotId::Principal, 20, 10)]);
    drop((failure, styles, tree));
}

/// What the tree of a policy holds.
fn parts_of<'a>(rt: &impl Abort, node: &'a Node<Option<Policy>>) -> &'a PolicyImpl {
    let Policy::Policy(parts) = node.as_inner().expect(rt, "an empty node");
    parts
}

#[test]
fn an_annotation_is_handed_on_once(rt: HostRuntime) {
    let tree = policy(&rt, "@a(\"b\") @c permit(principal, action, resource);");
    let parts = parts_of(&rt, &tree);
    let calls = Cell::new(0u64);
    let counting = |_text: Option<String>, _loc: Option<&Loc>| {
        calls.set(calls.get().wrapping_add(1));
    };
    for annotation in parts.annotations.as_slice() {
        drop(made(&rt, annotation.to_kv_pair(rt.alloc(), counting)));
    }
    holds(&rt, calls.get() == 2);
    drop(made(&rt, parts.get_ast_annotations(rt.alloc(), counting)));
    holds(&rt, calls.get() == 4);
    drop(tree);
}
