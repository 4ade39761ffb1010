//! Templates and static policies: their parts, their slots in order, what is refused, and that a
//! copy equals its source.
use super::assertions::{
    agrees, copies, copies_of, equal, holds, holds_for, made, refusal, says, says_and_copies, shows,
};
use super::builder::build;
use super::names::text;
use cedar_expressions::{
    AnyId, Eid, EntityType, EntityUID, Expr, ExprBuilderInfallibleBuild, Id, InternalName, Items,
    Name, NodePlace, Place, Slot, SlotId,
};
use cedar_policy_store::{
    ActionConstraint, Annotation, Annotations, Effect, EntityReference, NotStatic, PolicyID,
    PrincipalConstraint, PrincipalOrResourceConstraint, ResourceConstraint, StaticPolicy, Template,
    UnexpectedSlotError,
};
use std::collections::BTreeMap;
use std::process::Abort;

/// A text of its own.
fn string(rt: &(impl Abort + AllocGlobal), text: &str) -> String {
    made(rt, String::from_str(rt.alloc(), text))
}

/// The name of a policy.
pub(super) fn id(rt: &(impl Abort + AllocGlobal), text: &str) -> PolicyID {
    PolicyID::new(string(rt, text))
}

/// Three bytes from an offset on.
fn at(offset: usize) -> Option<Place> {
    Some(Place { offset, length: 3 })
}

/// The type of one identifier.
fn typed(rt: &(impl Abort + AllocGlobal), word: &str) -> EntityType {
    let id = Id::new(text(rt, word)).expect(rt, "no identifier");
    let name = InternalName::new(id, Vec::new(rt.alloc()));
    EntityType::from(made(rt, Name::try_from(name)))
}

/// An entity `a` of a type.
pub(super) fn entity(rt: &(impl Abort + AllocGlobal), word: &str) -> EntityUID {
    EntityUID::from_components(typed(rt, word), Eid::new(text(rt, "a")))
}

/// A reference to an entity of type `User`.
fn user(rt: &(impl Abort + AllocGlobal)) -> EntityReference {
    EntityReference::EUID(entity(rt, "User"))
}

/// A slot at an offset.
fn slot_at(offset: usize) -> EntityReference {
    EntityReference::Slot(NodePlace::from(at(offset)))
}

/// What may be asked of a principal or a resource.
#[derive(Clone, Copy)]
pub(super) enum Asked {
    Any,
    EqUser,
    EqSlot,
    InUser,
    InSlot,
    Is,
    IsInUser,
    IsInSlot,
}

/// The constraint, its slot at an offset.
fn constraint(
    rt: &(impl Abort + AllocGlobal),
    asked: Asked,
    offset: usize,
) -> PrincipalOrResourceConstraint {
    match asked {
        Asked::Any => PrincipalOrResourceConstraint::Any,
        Asked::EqUser => PrincipalOrResourceConstraint::Eq(user(rt)),
        Asked::EqSlot => PrincipalOrResourceConstraint::Eq(slot_at(offset)),
        Asked::InUser => PrincipalOrResourceConstraint::In(user(rt)),
        Asked::InSlot => PrincipalOrResourceConstraint::In(slot_at(offset)),
        Asked::Is => PrincipalOrResourceConstraint::Is(typed(rt, "T")),
        Asked::IsInUser => PrincipalOrResourceConstraint::IsIn(typed(rt, "T"), user(rt)),
        Asked::IsInSlot => PrincipalOrResourceConstraint::IsIn(typed(rt, "T"), slot_at(offset)),
    }
}

/// The annotation `a`.
fn annotations(rt: &(impl Abort + AllocGlobal), value: &str) -> Annotations {
    let mut by_key = BTreeMap::new(rt.alloc());
    let key = AnyId::new(text(rt, "a")).expect(rt, "no identifier");
    let value = Some(string(rt, value));
    let annotation = Annotation::with_optional_value(rt.alloc(), value, at(1));
    drop(made(rt, by_key.insert(key, annotation)));
    Annotations::from(by_key)
}

/// A template with slots at the offsets 10 and 20, and a condition.
pub(super) fn template(
    rt: &(impl Abort + AllocGlobal),
    name: &str,
    asked: (Asked, Asked),
    condition: Option<Expr>,
) -> Template {
    Template::new(
        id(rt, name),
        at(0),
        annotations(rt, "x"),
        Effect::Permit,
        PrincipalConstraint::new(constraint(rt, asked.0, 10)),
        ActionConstraint::Any,
        ResourceConstraint::new(constraint(rt, asked.1, 20)),
        condition,
    )
}

/// A template that asks for nothing.
pub(super) fn plain(rt: &(impl Abort + AllocGlobal), name: &str) -> Template {
    template(rt, name, (Asked::Any, Asked::Any), None)
}

/// A static policy that asks for nothing.
pub(super) fn policy(rt: &(impl Abort + AllocGlobal), name: &str) -> StaticPolicy {
    made(rt, StaticPolicy::try_from(plain(rt, name)))
}

/// A condition that is a slot at the offset 30.
pub(super) fn slot_in_condition(rt: &(impl Abort + AllocGlobal)) -> Expr {
    made(
        rt,
        build(rt)
            .with_maybe_source_loc(at(30))
            .slot(SlotId::Principal),
    )
}

#[test]
fn names_of_policies(rt: HostRuntime) {
    let (first, tenth) = (id(&rt, "policy1"), id(&rt, "policy10"));
    holds(&rt, first < tenth && first.as_str() == "policy1");
    holds(&rt, tenth.into_string().as_str() == "policy10");
    says_and_copies(&rt, first, "policy1");
    says_and_copies(&rt, id(&rt, ""), "");
}

#[test]
fn effects_are_written(rt: HostRuntime) {
    shows(&rt, &Effect::Permit, "permit");
    shows(&rt, &Effect::Forbid, "forbid");
    copies(&rt, Effect::Forbid);
}

#[test]
fn an_annotation_without_a_value_has_the_empty_text(rt: HostRuntime) {
    let bare = Annotation::with_optional_value(rt.alloc(), None, at(3));
    holds(&rt, bare.as_str() == "" && bare.place() == at(3));
    says_and_copies(&rt, bare, "");
    let value = Some(string(&rt, "x"));
    says_and_copies(
        &rt,
        Annotation::with_optional_value(rt.alloc(), value, None),
        "x",
    );
}

#[test]
fn annotations_by_key(rt: HostRuntime) {
    let all = annotations(&rt, "x");
    let (known, other) = (AnyId::new(text(&rt, "a")), AnyId::new(text(&rt, "b")));
    let known = known.expect(&rt, "no identifier");
    let other = other.expect(&rt, "no identifier");
    holds(
        &rt,
        all.len() == 1 && !all.is_empty() && all.iter().count() == 1,
    );
    holds(&rt, all.get(&known).is_some() && all.get(&other).is_none());
    copies_of(&rt, &all);
    agrees(
        &rt,
        equal(all, annotations(&rt, "y")),
        false,
        "another value",
    );
    drop((known, other));
}

/// What is asked, whether it has a slot, and how it is written.
const CONSTRAINTS: [(Asked, bool, &str); 8] = [
    (Asked::Any, false, "any"),
    (Asked::EqUser, false, "== User::\"a\""),
    (Asked::EqSlot, true, "== ?"),
    (Asked::InUser, false, "in User::\"a\""),
    (Asked::InSlot, true, "in ?"),
    (Asked::Is, false, "is T"),
    (Asked::IsInUser, false, "is T in User::\"a\""),
    (Asked::IsInSlot, true, "is T in ?"),
];

#[test]
fn constraints_have_the_slot_of_their_variable(rt: HostRuntime) {
    for (asked, has_slot, written) in &CONSTRAINTS {
        let principal = PrincipalConstraint::new(constraint(&rt, *asked, 7));
        let resource = ResourceConstraint::new(constraint(&rt, *asked, 8));
        let (id, other) = (SlotId::Principal, SlotId::Resource);
        let wanted = has_slot.then_some(Slot { id, place: at(7) });
        holds_for(&rt, principal.slot() == wanted, written);
        let id = other;
        let wanted = has_slot.then_some(Slot { id, place: at(8) });
        holds_for(&rt, resource.slot() == wanted, written);
        shows(&rt, principal.as_inner(), written);
        shows(&rt, resource.as_inner(), written);
        drop((principal, resource));
    }
}

#[test]
fn constraints_are_copied(rt: HostRuntime) {
    for (asked, _, written) in &CONSTRAINTS {
        let principal = PrincipalConstraint::new(constraint(&rt, *asked, 7));
        copies(&rt, principal.into_inner());
        copies(&rt, PrincipalConstraint::new(constraint(&rt, *asked, 7)));
        copies(&rt, ResourceConstraint::new(constraint(&rt, *asked, 7)));
        let (here, there) = (constraint(&rt, *asked, 7), constraint(&rt, *asked, 8));
        agrees(&rt, equal(here, there), true, written);
    }
    copies(&rt, user(&rt));
    says(&rt, slot_at(3), "?");
}

/// The types of a list's entities, and those of them that are no action types, in order.
const ACTIONS: [(&str, &str); 6] = [
    ("", ""),
    ("Action", ""),
    ("Action Action", ""),
    ("User", "User"),
    ("Action User Action Group", "User Group"),
    ("Actions Action action", "Actions action"),
];

/// Entities of these types.
fn entities(rt: &(impl Abort + AllocGlobal), types: &str) -> Vec<EntityUID> {
    let mut all = Vec::new(rt.alloc());
    for word in types.split_whitespace() {
        made(rt, all.push(entity(rt, word)));
    }
    all
}

#[test]
fn actions_of_other_types_are_answered_in_order(rt: HostRuntime) {
    for (types, failing) in &ACTIONS {
        let asked = ActionConstraint::In(Items::from(entities(&rt, types)));
        let same = ActionConstraint::In(Items::from(entities(&rt, types)));
        let others = entities(&rt, failing);
        match made(&rt, asked.contains_only_action_types(rt.alloc())) {
            Ok(constraint) => {
                agrees(&rt, others.is_empty(), true, types);
                agrees(&rt, constraint, same, types);
            }
            Err((first, rest)) => {
                let mut found = Vec::new(rt.alloc());
                made(&rt, found.push(first));
                for entity in rest {
                    made(&rt, found.push(entity));
                }
                agrees(&rt, Items::from(found), Items::from(others), types);
                drop(same);
            }
        }
    }
}

#[test]
fn one_action_or_none(rt: HostRuntime) {
    let any = made(
        &rt,
        ActionConstraint::Any.contains_only_action_types(rt.alloc()),
    );
    agrees(&rt, any.is_ok(), true, "any");
    drop(any);
    let action = ActionConstraint::Eq(entity(&rt, "Action"));
    copies_of(&rt, &action);
    shows(&rt, &action, "action == Action::\"a\"");
    agrees(
        &rt,
        made(&rt, action.contains_only_action_types(rt.alloc())).is_ok(),
        true,
        "action",
    );
    let user = ActionConstraint::Eq(entity(&rt, "User"));
    let (first, rest) = refusal(&rt, made(&rt, user.contains_only_action_types(rt.alloc())));
    agrees(&rt, rest.is_empty(), true, "one alone");
    agrees(&rt, first, entity(&rt, "User"), "the user");
}

/// The principal's constraint, the resource's, whether the condition is a slot, and the offsets of
/// all slots in order.
const SLOTS: [(Asked, Asked, bool, &[usize]); 6] = [
    (Asked::Any, Asked::Is, false, &[]),
    (Asked::EqSlot, Asked::EqUser, false, &[10]),
    (Asked::InUser, Asked::InSlot, false, &[20]),
    (Asked::IsInSlot, Asked::EqSlot, false, &[10, 20]),
    (Asked::Any, Asked::Any, true, &[30]),
    (Asked::EqSlot, Asked::IsInSlot, true, &[10, 20, 30]),
];

#[test]
fn slots_stand_in_order(rt: HostRuntime) {
    for (principal, resource, has_condition, offsets) in &SLOTS {
        let condition = if *has_condition {
            Some(slot_in_condition(&rt))
        } else {
            None
        };
        let template = template(&rt, "t", (*principal, *resource), condition);
        let slots = made(&rt, template.slots(rt.alloc()));
        holds(&rt, slots.len() == offsets.len());
        for (slot, offset) in slots.iter().zip(offsets.iter()) {
            holds(&rt, slot.place == at(*offset));
            holds(&rt, (slot.id == SlotId::Resource) == (*offset == 20));
        }
        let first = made(&rt, template.first_slot(rt.alloc()));
        holds(&rt, first == slots.first().copied());
        drop((template, slots));
    }
}

#[test]
fn a_template_without_slots_is_static(rt: HostRuntime) {
    for (principal, resource, has_condition, offsets) in &SLOTS {
        let condition = if *has_condition {
            Some(slot_in_condition(&rt))
        } else {
            None
        };
        let template = template(&rt, "t", (*principal, *resource), condition);
        let first = made(&rt, template.first_slot(rt.alloc()));
        match StaticPolicy::try_from(template) {
            Ok(policy) => {
                holds(&rt, offsets.is_empty());
                drop(policy);
            }
            Err(refused) => {
                match refused.reason() {
                    NotStatic::UnexpectedSlot(UnexpectedSlotError::FoundSlot(slot)) => {
                        holds(&rt, first == Some(slot));
                    }
                    NotStatic::Memory(_) => holds(&rt, false),
                }
                drop(refused);
            }
        }
    }
}

#[test]
fn a_slot_is_told(rt: HostRuntime) {
    let asked = template(&rt, "t", (Asked::EqSlot, Asked::EqSlot), None);
    let refused = refusal(&rt, StaticPolicy::try_from(asked));
    shows(
        &rt,
        &refused,
        "found slot `?principal` where slots are not allowed",
    );
    copies(&rt, refused);
}

#[test]
fn a_template_has_its_parts(rt: HostRuntime) {
    let whole = template(
        &rt,
        "t",
        (Asked::Is, Asked::EqSlot),
        Some(slot_in_condition(&rt)),
    );
    holds(&rt, whole.id().as_str() == "t" && whole.place() == at(0));
    holds(
        &rt,
        whole.effect() == Effect::Permit && whole.annotations().len() == 1,
    );
    shows(&rt, whole.principal_constraint(), "principal is T");
    shows(&rt, whole.action_constraint(), "action");
    shows(&rt, whole.resource_constraint(), "resource == ?resource");
    agrees(
        &rt,
        whole.non_scope_constraints().is_some(),
        true,
        "a condition",
    );
    says_and_copies(
        &rt,
        whole,
        "t: @a(\"x\") permit(principal is T, action, resource == ?resource) when ?principal",
    );
}

#[test]
fn equality_looks_at_no_place(rt: HostRuntime) {
    let elsewhere = Template::new(
        id(&rt, "t"),
        at(99),
        annotations(&rt, "x"),
        Effect::Permit,
        PrincipalConstraint::new(constraint(&rt, Asked::EqSlot, 98)),
        ActionConstraint::Any,
        ResourceConstraint::new(constraint(&rt, Asked::Any, 97)),
        None,
    );
    let here = template(&rt, "t", (Asked::EqSlot, Asked::Any), None);
    agrees(&rt, equal(here, elsewhere), true, "elsewhere");
    agrees(
        &rt,
        equal(plain(&rt, "t"), plain(&rt, "u")),
        false,
        "another name",
    );
    let (none, some) = (
        plain(&rt, "t"),
        template(&rt, "t", (Asked::Is, Asked::Any), None),
    );
    agrees(&rt, equal(none, some), false, "another constraint");
}

#[test]
fn static_policies_are_their_templates(rt: HostRuntime) {
    let policy = policy(&rt, "p");
    holds(&rt, policy.id().as_str() == "p");
    shows(
        &rt,
        policy.as_template(),
        "p: @a(\"x\") permit(principal, action, resource)",
    );
    says_and_copies(
        &rt,
        policy,
        "p: @a(\"x\") permit(principal, action, resource)",
    );
    let held = Template::from(self::policy(&rt, "p"));
    agrees(&rt, held, plain(&rt, "p"), "the template");
}
