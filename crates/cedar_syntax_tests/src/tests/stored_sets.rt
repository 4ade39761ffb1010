//! Sets of policies: what is found by name, what is refused, and that a copy equals its source.
use super::assertions::{
    agrees, copies, equal, holds, holds_for, made, refusal, says, says_and_copies, shows,
};
use super::store::{Asked, id, plain, policy, template};
use cedar_policy_store::{PolicySet, PolicySetError, StaticPolicy, Template};
use either::Either;
use std::process::Abort;

/// A set with the static policy `p` and the template `t`.
fn set_of_two(rt: &(impl Abort + AllocGlobal)) -> PolicySet {
    let mut set = PolicySet::new(rt.alloc());
    made(rt, set.add_static(policy(rt, "p")));
    made(
        rt,
        set.add_template(template(rt, "t", (Asked::EqSlot, Asked::Any), None)),
    );
    set
}

#[test]
fn a_set_finds_by_name(rt: HostRuntime) {
    let set = set_of_two(&rt);
    for (name, is_static, is_template) in &[
        ("p", true, false),
        ("t", false, true),
        ("q", false, false),
    ] {
        let id = id(&rt, name);
        holds_for(&rt, set.static_policy(&id).is_some() == *is_static, name);
        holds_for(&rt, set.template(&id).is_some() == *is_template, name);
        drop(id);
    }
    holds(
        &rt,
        set.static_policies().count() == 1 && set.templates().count() == 1,
    );
    says_and_copies(&rt, set, "1 static policies, 1 templates");
}

#[test]
fn a_known_name_is_refused(rt: HostRuntime) {
    for name in &["p", "t"] {
        let mut set = set_of_two(&rt);
        let wanted = PolicySetError::Occupied { id: id(&rt, name) };
        agrees(
            &rt,
            refusal(&rt, set.add_static(policy(&rt, name))),
            wanted,
            name,
        );
        let wanted = PolicySetError::Occupied { id: id(&rt, name) };
        agrees(
            &rt,
            refusal(&rt, set.add_template(plain(&rt, name))),
            wanted,
            name,
        );
        agrees(&rt, set, set_of_two(&rt), "unchanged");
    }
}

#[test]
fn a_known_name_is_told(rt: HostRuntime) {
    let mut set = set_of_two(&rt);
    let refused = refusal(&rt, set.add_static(policy(&rt, "t")));
    shows(&rt, &refused, "duplicate template or policy id `t`");
    copies(&rt, refused);
    drop(set);
}

#[test]
fn sets_are_equal_by_their_policies(rt: HostRuntime) {
    let mut more = set_of_two(&rt);
    made(&rt, more.add_static(policy(&rt, "q")));
    agrees(&rt, equal(set_of_two(&rt), more), false, "one more");
    agrees(
        &rt,
        PolicySet::new(rt.alloc()),
        PolicySet::new(rt.alloc()),
        "no policy",
    );
    says(
        &rt,
        PolicySet::new(rt.alloc()),
        "0 static policies, 0 templates",
    );
}

/// A static policy of this name, or a template where it has a slot.
fn either(
    rt: &(impl Abort + AllocGlobal),
    name: &str,
    is_static: bool,
) -> Either<StaticPolicy, Template> {
    if is_static {
        Either::Left(policy(rt, name))
    } else {
        Either::Right(template(rt, name, (Asked::EqSlot, Asked::Any), None))
    }
}

/// Whether what was taken out is a static policy, a template, or nothing.
fn is_static(taken: Option<Either<StaticPolicy, Template>>) -> Option<bool> {
    match taken {
        Some(Either::Left(policy)) => {
            drop(policy);
            Some(true)
        }
        Some(Either::Right(template)) => {
            drop(template);
            Some(false)
        }
        None => None,
    }
}

#[test]
fn what_is_added_is_counted_and_taken_out(rt: HostRuntime) {
    let mut set = PolicySet::new(rt.alloc());
    holds(&rt, set.is_empty() && set.len() == 0);
    made(&rt, set.add(either(&rt, "p", true)));
    made(&rt, set.add(either(&rt, "t", false)));
    agrees(&rt, set.len(), 2, "two");
    for (name, kind) in &[("t", Some(false)), ("p", Some(true)), ("q", None)] {
        let id = id(&rt, name);
        holds_for(&rt, set.contains(&id) == kind.is_some(), name);
        holds_for(&rt, is_static(set.remove(&id)) == *kind, name);
        holds_for(&rt, !set.contains(&id), name);
        drop(id);
    }
    holds(&rt, set.is_empty());
    drop(set);
}

#[test]
fn a_known_name_is_not_added(rt: HostRuntime) {
    for is_static in &[true, false] {
        let mut set = set_of_two(&rt);
        let wanted = PolicySetError::Occupied { id: id(&rt, "p") };
        agrees(
            &rt,
            refusal(&rt, set.add(either(&rt, "p", *is_static))),
            wanted,
            "p",
        );
        agrees(&rt, set, set_of_two(&rt), "unchanged");
    }
}

/// Names in the order in which a set lists them.
const ORDER: [&str; 8] = [
    "",
    "007",
    "7",
    "10",
    "a",
    "policy2",
    "policy10",
    "policy10b",
];

#[test]
fn policies_are_listed_by_their_numbers(rt: HostRuntime) {
    let mut set = PolicySet::new(rt.alloc());
    for place in &[3, 6, 0, 5, 1, 7, 4, 2] {
        made(&rt, set.add(either(&rt, ORDER[*place], *place % 2 == 0)));
    }
    for (listed, (place, wanted)) in made(&rt, set.iter(rt.alloc())).zip(ORDER.iter().enumerate()) {
        let (name, is_static) = match listed {
            Either::Left(policy) => (policy.id().as_str(), true),
            Either::Right(template) => (template.id().as_str(), false),
        };
        holds_for(&rt, name == *wanted, &name);
        holds_for(&rt, is_static == (place % 2 == 0), &name);
    }
    let count = made(&rt, set.iter(rt.alloc())).count();
    agrees(&rt, count, 8, "all");
    drop(set);
}
