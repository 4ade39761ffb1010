//! The program that makes a policy from values, and writes it.
use super::super::assertions::{holds_for, made};
use cedar_policy_parser::{
    ActionConstraint, Annotations, Effect, Eid, EntityReference, EntityType, EntityUID, Expr,
    ExprBuilder, ExprBuilderInfallibleBuild, ExtStyles, Id, Name, NotWritten, PolicyID,
    PrincipalConstraint, PrincipalOrResourceConstraint, ResourceConstraint, Template, Text,
    UnreservedId, Var, parse_policyset, template_to_cedar,
};
use std::alloc::{AllocError, Global};
use std::collections::BTreeMap;
use std::fmt;
use std::process::Abort;

/// Writes for each line of a text a policy by which the user of this identifier may read the
/// document `7`.
fn report<W: fmt::Write>(alloc: Global, text: &str, out: &mut W) -> fmt::Result {
    for user in text.lines() {
        match share(alloc, ("User", user), ("Document", "7")) {
            Ok(Some(line)) => writeln!(out, "{line}")?,
            Ok(None) => writeln!(out, "a type isn't a name")?,
            Err(NotWritten::Memory) => return Err(fmt::Error),
            Err(refusal) => writeln!(out, "{refusal}")?,
        }
    }
    Ok(())
}

/// A policy by which a user may read a document that is the user's own, whatever characters their
/// names have; `None` where one of the types isn't a name.
fn share(
    alloc: Global,
    user: (&str, &str),
    document: (&str, &str),
) -> Result<Option<String>, NotWritten> {
    let Some(user) = entity(alloc, user.0, user.1)? else {
        return Ok(None);
    };
    let Some(action) = entity(alloc, "Action", "read")? else {
        return Ok(None);
    };
    let Some(document) = entity(alloc, document.0, document.1)? else {
        return Ok(None);
    };
    let user = PrincipalOrResourceConstraint::Eq(EntityReference::EUID(user));
    let document = PrincipalOrResourceConstraint::Eq(EntityReference::EUID(document));
    let policy = Template::new(
        PolicyID::new(String::from_str(alloc, "share")?),
        None,
        Annotations::from(BTreeMap::new(alloc)),
        Effect::Permit,
        PrincipalConstraint::new(user),
        ActionConstraint::Eq(action),
        ResourceConstraint::new(document),
        Some(is_own(alloc)?),
    );
    let line = template_to_cedar(alloc, &policy, &ExtStyles::cedar(alloc)?)?;
    Ok(Some(line))
}

/// `resource.owner == principal`
fn is_own(alloc: Global) -> Result<Expr, AllocError> {
    let resource = builder(alloc).var(Var::Resource)?;
    let owner = builder(alloc).get_attr(resource, Text::from_str(alloc, "owner")?)?;
    let principal = builder(alloc).var(Var::Principal)?;
    builder(alloc).is_eq(owner, principal)
}

fn builder(alloc: Global) -> ExprBuilder<()> {
    ExprBuilder::new(alloc)
}

/// The entity of a type and an identifier, which may have any characters.
fn entity(alloc: Global, kind: &str, id: &str) -> Result<Option<EntityUID>, AllocError> {
    let Some(kind) = Id::new(Text::from_str(alloc, kind)?) else {
        return Ok(None);
    };
    let Ok(kind) = UnreservedId::try_from(kind) else {
        return Ok(None);
    };
    let id = Eid::new(Text::from_str(alloc, id)?);
    let kind = EntityType::from(Name::from(kind));
    Ok(Some(EntityUID::from_components(kind, id)))
}

/// Users and documents, and the policy.
const ROWS: [((&str, &str), (&str, &str), &str); 2] = [
    (
        ("User", "alice"),
        ("Document", "7"),
        "permit (principal == User::\"alice\", action == Action::\"read\", \
         resource == Document::\"7\") when { resource.owner == principal };",
    ),
    (
        (
            "User",
            "eve\", action, resource); permit(principal, action, resource); //",
        ),
        ("Document", "\\\n"),
        "permit (principal == User::\"eve\\\", action, resource); \
         permit(principal, action, resource); //\", action == Action::\"read\", \
         resource == Document::\"\\\\\\n\") when { resource.owner == principal };",
    ),
];

#[test]
fn shares_documents(rt: HostRuntime) {
    let styles = made(&rt, ExtStyles::cedar(rt.alloc()));
    for (user, document, wanted) in &ROWS {
        let line = made(&rt, share(rt.alloc(), *user, *document)).expect(&rt, "no name");
        holds_for(&rt, line.as_str() == *wanted, &line);
        let set = made(&rt, parse_policyset(rt.alloc(), line.as_str(), &styles));
        holds_for(&rt, set.len() == 1, &line);
        drop(set);
        drop(line);
    }
    drop(styles);
}

#[test]
fn shares_nothing_of_no_type(rt: HostRuntime) {
    for kind in &["", "in", "a b", "__cedar"] {
        let line = made(&rt, share(rt.alloc(), (*kind, "a"), ("Document", "7")));
        holds_for(&rt, line.is_none(), kind);
        drop(line);
    }
}

/// What is written of two users.
const LINES: &str = "permit (principal == User::\"alice\", action == Action::\"read\", \
    resource == Document::\"7\") when { resource.owner == principal };\n\
    permit (principal == User::\"\\\"\", action == Action::\"read\", \
    resource == Document::\"7\") when { resource.owner == principal };\n";

#[test]
fn shares_with_the_user_of_each_line(rt: HostRuntime) {
    let mut out = String::new(rt.alloc());
    made(&rt, report(rt.alloc(), "alice\n\"\n", &mut out));
    holds_for(&rt, out.as_str() == LINES, &out);
    drop(out);
}
