//! The program that links a template.
use super::super::assertions::{holds_for, made};
use cedar_policy_parser::err::Failure;
use cedar_policy_parser::text_to_cst::parse_ref;
use cedar_policy_parser::{
    EntityUID, ExtStyles, LinkError, NotWritten, PolicyID, PolicySet, RefAst, SlotEntities,
    parse_policyset, policyset_to_cedar, static_policy_to_cedar,
};
use std::alloc::Global;
use std::fmt;

/// Writes the policies of a text, and one by which `User::"alice"` may do what the template
/// `policy0` among them says.
fn report<W: fmt::Write>(alloc: Global, text: &str, out: &mut W) -> fmt::Result {
    let styles = ExtStyles::cedar(alloc)?;
    let mut set = match parse_policyset(alloc, text, &styles) {
        Ok(set) => set,
        Err(Failure::Memory(_)) => return Err(fmt::Error),
        Err(Failure::Errors(faults)) => return writeln!(out, "{faults}"),
    };
    let Ok(user) = entity(alloc, "User::\"alice\"") else {
        return Err(fmt::Error);
    };
    let name = format!(in alloc; "policy{}", set.len())?;
    match grant(alloc, &mut set, name, user) {
        Ok(()) => {}
        Err(LinkError::Memory(_)) => return Err(fmt::Error),
        Err(refusal) => return writeln!(out, "{refusal}"),
    }
    match policyset_to_cedar(alloc, &set, &styles) {
        Ok(lines) => out.write_str(lines.as_str()),
        Err(NotWritten::Memory) => Err(fmt::Error),
        Err(refusal) => writeln!(out, "{refusal}"),
    }
}

/// Lets a user do what the template `policy0` says, by a policy under a name of its own.
fn grant(
    alloc: Global,
    set: &mut PolicySet,
    name: String,
    user: EntityUID,
) -> Result<(), LinkError> {
    let template = PolicyID::new(String::from_str(alloc, "policy0")?);
    let entities = SlotEntities {
        principal: Some(user),
        resource: None,
    };
    set.link(&template, PolicyID::new(name), &entities)
}

/// The entity that a text is.
fn entity(alloc: Global, text: &str) -> Result<EntityUID, Failure> {
    parse_ref(alloc, text)?.to_ref(alloc)
}

const TEMPLATE: &str = "permit(principal == ?principal, action == Action::\"read\", resource) \
    when { resource.open };";

/// What a set of the template says once it is linked for the user.
const LINKED: &str = "permit (principal == ?principal, action == Action::\"read\", resource) \
    when { resource.open };\n\
    permit (principal == User::\"alice\", action == Action::\"read\", resource) \
    when { resource.open };\n";

/// The second line alone.
const GRANTED: &str = "permit (principal == User::\"alice\", action == Action::\"read\", \
    resource) when { resource.open };";

#[test]
fn writes_what_it_linked(rt: HostRuntime) {
    let mut out = String::new(rt.alloc());
    made(&rt, report(rt.alloc(), TEMPLATE, &mut out));
    holds_for(&rt, out.as_str() == LINKED, &out);
    drop(out);
}

#[test]
fn grants_once_under_a_name(rt: HostRuntime) {
    let alloc = rt.alloc();
    let styles = made(&rt, ExtStyles::cedar(alloc));
    let mut set = made(&rt, parse_policyset(alloc, TEMPLATE, &styles));
    for is_first in &[true, false] {
        let user = made(&rt, entity(alloc, "User::\"alice\""));
        let name = made(&rt, String::from_str(alloc, "a"));
        let granted = grant(alloc, &mut set, name, user);
        holds_for(&rt, granted.is_ok() == *is_first, &"a");
        drop(granted);
    }
    let id = PolicyID::new(made(&rt, String::from_str(alloc, "a")));
    let policy = set.static_policy(&id).expect(&rt, "not linked");
    let line = made(&rt, static_policy_to_cedar(alloc, policy, &styles));
    holds_for(&rt, line.as_str() == GRANTED, &line);
    drop((id, line));
    drop(set);
    drop(styles);
}
