//! Templates linked: the policy that each becomes, and each refusal, which leaves the set as it was.
use super::assertions::{agrees, copies, equal, holds, list_of_two, made, refusal, shows};
use super::builder::{PLACE, build, set_of_slots};
use super::store::{Asked, entity, id, policy, slot_in_condition, template};
use cedar_expressions::{Expr, ExprBuilderInfallibleBuild, Literal, Slot, SlotEntities, SlotId};
use cedar_policy_store::{LinkError, PolicySet, StaticPolicy};
use std::process::Abort;

/// The entity `User::"a"` for these slots.
fn entities(
    rt: &(impl Abort + AllocGlobal),
    for_principal: bool,
    for_resource: bool,
) -> SlotEntities {
    let mut entities = SlotEntities::none();
    if for_principal {
        entities.principal = Some(entity(rt, "User"));
    }
    if for_resource {
        entities.resource = Some(entity(rt, "User"));
    }
    entities
}

/// That entity as an expression.
fn user(rt: &(impl Abort + AllocGlobal)) -> Expr {
    made(rt, build(rt).val(Literal::EntityUID(entity(rt, "User"))))
}

/// A set with the static policy `p` and the template `t`.
fn set_with(
    rt: &(impl Abort + AllocGlobal),
    asked: (Asked, Asked),
    condition: Option<Expr>,
) -> PolicySet {
    let mut set = PolicySet::new(rt.alloc());
    made(rt, set.add_static(policy(rt, "p")));
    made(rt, set.add_template(template(rt, "t", asked, condition)));
    set
}

/// What a template asks, for which slots entities are given, and what the policy asks then.
const LINKED: [((Asked, Asked), (bool, bool), (Asked, Asked)); 6] = [
    (
        (Asked::EqSlot, Asked::Any),
        (true, false),
        (Asked::EqUser, Asked::Any),
    ),
    (
        (Asked::InSlot, Asked::Is),
        (true, false),
        (Asked::InUser, Asked::Is),
    ),
    (
        (Asked::IsInSlot, Asked::EqUser),
        (true, false),
        (Asked::IsInUser, Asked::EqUser),
    ),
    (
        (Asked::Any, Asked::EqSlot),
        (false, true),
        (Asked::Any, Asked::EqUser),
    ),
    (
        (Asked::EqSlot, Asked::IsInSlot),
        (true, true),
        (Asked::EqUser, Asked::IsInUser),
    ),
    (
        (Asked::Any, Asked::Any),
        (false, false),
        (Asked::Any, Asked::Any),
    ),
];

#[test]
fn a_linked_policy_has_entities_for_slots(rt: HostRuntime) {
    for (asked, given, wanted) in &LINKED {
        let mut set = set_with(&rt, *asked, None);
        let given = entities(&rt, given.0, given.1);
        made(&rt, set.link(&id(&rt, "t"), id(&rt, "l"), &given));
        holds(&rt, set.len() == 3);
        let policy = made(
            &rt,
            StaticPolicy::try_from(template(&rt, "l", *wanted, None)),
        );
        holds(&rt, set.static_policy(&id(&rt, "l")) == Some(&policy));
        drop((set, given, policy));
    }
}

#[test]
fn a_slot_of_the_condition_has_an_entity(rt: HostRuntime) {
    let asked = (Asked::Any, Asked::Any);
    let mut set = set_with(&rt, asked, Some(slot_in_condition(&rt)));
    let given = entities(&rt, true, false);
    made(&rt, set.link(&id(&rt, "t"), id(&rt, "l"), &given));
    let condition = user(&rt);
    let wanted = template(&rt, "l", asked, Some(condition));
    let wanted = made(&rt, StaticPolicy::try_from(wanted));
    holds(&rt, set.static_policy(&id(&rt, "l")) == Some(&wanted));
    drop((set, given, wanted));
}

#[test]
fn a_template_is_linked_alone(rt: HostRuntime) {
    let found = template(&rt, "t", (Asked::EqSlot, Asked::Any), None);
    let given = entities(&rt, true, false);
    let linked = made(&rt, found.link(id(&rt, "l"), &given));
    let wanted = template(&rt, "l", (Asked::EqUser, Asked::Any), None);
    agrees(
        &rt,
        linked,
        made(&rt, StaticPolicy::try_from(wanted)),
        "linked",
    );
    let refused = refusal(&rt, found.link(id(&rt, "l"), &SlotEntities::none()));
    agrees(
        &rt,
        refused,
        LinkError::NoEntity(SlotId::Principal),
        "no entity",
    );
    drop((found, given));
}

/// The slot of the resource that stands in the set of slots.
const LEFT: [Slot; 1] = [Slot {
    id: SlotId::Resource,
    place: Some(PLACE),
}];

#[test]
fn slots_without_an_entity_stay(rt: HostRuntime) {
    let set = set_of_slots(&rt);
    let given = entities(&rt, true, false);
    let filled = made(&rt, set.with_entities(&given));
    let slots = made(&rt, filled.slots(rt.alloc()));
    holds(&rt, slots.as_slice() == LEFT.as_slice());
    let resource = made(&rt, build(&rt).slot(SlotId::Resource));
    let first = made(&rt, build(&rt).is_eq(user(&rt), resource));
    let wanted = list_of_two(&rt, first, user(&rt));
    holds(&rt, equal(filled, made(&rt, build(&rt).set(wanted))));
    let kept = made(&rt, set.with_entities(&SlotEntities::none()));
    holds(&rt, equal(set, kept));
    drop((given, slots));
}

/// The link of the template under a name is refused, and the set is as it was.
fn refuses(
    rt: &(impl Abort + AllocGlobal),
    names: (&str, &str),
    given: (bool, bool),
    told: &str,
) -> LinkError {
    let asked = (Asked::EqSlot, Asked::Any);
    let mut set = set_with(rt, asked, None);
    let given = entities(rt, given.0, given.1);
    let refused = refusal(rt, set.link(&id(rt, names.0), id(rt, names.1), &given));
    shows(rt, &refused, told);
    agrees(rt, set, set_with(rt, asked, None), told);
    drop(given);
    refused
}

/// The names that the set has.
const KNOWN: [&str; 2] = ["p", "t"];

#[test]
fn a_link_is_refused(rt: HostRuntime) {
    let refused = refuses(&rt, ("p", "l"), (true, false), "no template has the id `p`");
    agrees(
        &rt,
        refused,
        LinkError::NoSuchTemplate { id: id(&rt, "p") },
        "no template",
    );
    for name in &KNOWN {
        let mut set = set_with(&rt, (Asked::EqSlot, Asked::Any), None);
        let given = entities(&rt, false, true);
        let refused = refusal(&rt, set.link(&id(&rt, "t"), id(&rt, name), &given));
        agrees(
            &rt,
            refused,
            LinkError::Occupied { id: id(&rt, name) },
            name,
        );
        drop((set, given));
    }
    let told = "duplicate template or policy id `p`";
    copies(&rt, refuses(&rt, ("t", "p"), (true, false), told));
    let told = "no entity for the slot `?principal`";
    let refused = refuses(&rt, ("t", "l"), (false, true), told);
    agrees(&rt, refused, LinkError::NoEntity(SlotId::Principal), told);
    let told = "the template has no slot `?resource`";
    let refused = refuses(&rt, ("t", "l"), (true, true), told);
    agrees(&rt, refused, LinkError::NoSlot(SlotId::Resource), told);
}
