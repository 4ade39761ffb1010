//! The program that lists policies.
use super::super::assertions::{holds_for, made};
use cedar_policy_parser::err::Failure;
use cedar_policy_parser::position::Position;
use cedar_policy_parser::{ExtStyles, Template, parse_policyset};
use std::alloc::Global;
use std::fmt;
use std::process::Abort;

/// Writes a line for each policy of a text, or what is wrong with the text.
fn report<W: fmt::Write>(alloc: Global, text: &str, out: &mut W) -> fmt::Result {
    let set = match parse_policyset(alloc, text, &ExtStyles::cedar(alloc)?) {
        Ok(set) => set,
        Err(Failure::Memory(_)) => return Err(fmt::Error),
        Err(Failure::Errors(faults)) => return writeln!(out, "{faults}"),
    };
    for policy in set.iter(alloc)? {
        let policy = policy.either(|policy| policy.as_template(), |template| template);
        tell(text, policy, out)?;
    }
    Ok(())
}

/// Writes where a policy stands, its name, its effect, its annotations and its scope.
fn tell<W: fmt::Write>(text: &str, policy: &Template, out: &mut W) -> fmt::Result {
    if let Some(place) = policy.place() {
        let at = Position::of(text, place.offset);
        write!(out, "{}:{}: ", at.line, at.column)?;
    }
    write!(
        out,
        "{} {} {}",
        policy.id(),
        policy.effect(),
        policy.annotations()
    )?;
    let principal = policy.principal_constraint();
    let action = policy.action_constraint();
    let resource = policy.resource_constraint();
    writeln!(out, "{principal}, {action}, {resource}")
}

/// Texts of policies, and what is told of them.
const ROWS: [(&str, &str); 3] = [
    (
        "// whom we trust\n\
         @id(\"edit\") @note(\"all\")\n\
         permit(principal in Group::\"editors\", action, resource);\n  \
         forbid(principal == ?principal, action, resource is Draft);",
        "2:1: policy0 permit @id(\"edit\") @note(\"all\") \
         principal in Group::\"editors\", action, resource\n\
         4:3: policy1 forbid principal == ?principal, action, resource is Draft\n",
    ),
    (
        "@note(\"\\u{202e}a\\\"b\\n\") \
         permit(principal == User::\"\\u{202e}a\\\"b\", action, resource);\n\
         permit(principal is User in Group::\"g\", action == Action::\"a\", \
         resource in Album::\"b\");\n\
         permit(principal is App::User, action in [Action::\"a\", Action::\"b\"], \
         resource == ?resource);\n\
         permit(principal, action in Action::\"a\", resource is Photo in ?resource);",
        "1:1: policy0 permit @note(\"\\u{202e}a\\\"b\\n\") \
         principal == User::\"\\u{202e}a\\\"b\", action, resource\n\
         2:1: policy1 permit principal is User in Group::\"g\", action == Action::\"a\", \
         resource in Album::\"b\"\n\
         3:1: policy2 permit principal is App::User, action in [Action::\"a\", Action::\"b\"], \
         resource == ?resource\n\
         4:1: policy3 permit principal, action in [Action::\"a\"], \
         resource is Photo in ?resource\n",
    ),
    ("", ""),
];

#[test]
fn lists_policies(rt: HostRuntime) {
    for (text, wanted) in &ROWS {
        let mut out = String::new(rt.alloc());
        made(&rt, report(rt.alloc(), text, &mut out));
        holds_for(&rt, out.as_str() == *wanted, &out);
        drop(out);
    }
}
