//! The program that splits a text into policies, and makes their set again.
use super::super::assertions::{holds_for, made};
use cedar_policy_parser::cst_to_ast::PolicyAst;
use cedar_policy_parser::err::Failure;
use cedar_policy_parser::text_to_cst::parse_policy;
use cedar_policy_parser::{
    ExtStyles, PolicyID, PolicySet, PolicySetError, TryClone, parse_policyset,
};
use std::alloc::{AllocError, Global};
use std::fmt;
use std::process::Abort;

/// Writes each policy of a text with the comments before it, and whether the set that is made of
/// these pieces is that of the text.
fn report<W: fmt::Write>(alloc: Global, text: &str, out: &mut W) -> fmt::Result {
    let styles = ExtStyles::cedar(alloc)?;
    let set = match parse_policyset(alloc, text, &styles) {
        Ok(set) => set,
        Err(Failure::Memory(_)) => return Err(fmt::Error),
        Err(Failure::Errors(faults)) => return writeln!(out, "{faults}"),
    };
    let stored = split(alloc, text, &set)?;
    for (id, source) in &stored {
        writeln!(out, "-- {id}\n{source}")?;
    }
    match load(alloc, stored.as_slice(), &styles) {
        Ok(Some(again)) => {
            let told = if again == set { "the same" } else { "another" };
            writeln!(out, "-- {told}")
        }
        Ok(None) => writeln!(out, "-- a name stands twice"),
        Err(Failure::Memory(_)) => Err(fmt::Error),
        Err(Failure::Errors(faults)) => writeln!(out, "{faults}"),
    }
}

/// Each policy of a text under its name, from the end of the one before it to its own.
fn split(
    alloc: Global,
    text: &str,
    set: &PolicySet,
) -> Result<Vec<(PolicyID, String)>, AllocError> {
    let mut stored = Vec::new(alloc);
    let mut end = 0;
    for policy in set.iter(alloc)? {
        let policy = policy.either(|policy| policy.as_template(), |template| template);
        if let Some(place) = policy.place() {
            let next = place.offset.saturating_add(place.length);
            let source = text.get(end..next).unwrap_or("").trim();
            let source = String::from_str(alloc, source)?;
            stored.push((policy.id().try_clone()?, source))?;
            end = next;
        }
    }
    Ok(stored)
}

/// The set of the policies that were stored; `None` where a name stands twice, so that no policy
/// is lost.
fn load(
    alloc: Global,
    stored: &[(PolicyID, String)],
    styles: &ExtStyles,
) -> Result<Option<PolicySet>, Failure> {
    let mut set = PolicySet::new(alloc);
    for (id, source) in stored {
        let tree = parse_policy(alloc, source.as_str())?;
        let policy = tree.to_policy_or_template(alloc, id.try_clone()?, styles)?;
        match set.add(policy) {
            Ok(()) => {}
            Err(PolicySetError::Memory(error)) => return Err(Failure::Memory(error)),
            Err(PolicySetError::Occupied { .. }) => return Ok(None),
        }
    }
    Ok(Some(set))
}

/// Texts of policies, and their pieces.
const ROWS: [(&str, &str); 3] = [
    (
        "// first\n\
         permit(principal, action, resource); // behind\n\n\
         // second\n\
         @id(\"b\")\n\
         forbid(principal == ?principal, action, resource) // inside\n\
         when { true };\n\
         // last\n",
        "-- policy0\n\
         // first\n\
         permit(principal, action, resource);\n\
         -- policy1\n\
         // behind\n\n\
         // second\n\
         @id(\"b\")\n\
         forbid(principal == ?principal, action, resource) // inside\n\
         when { true };\n\
         -- the same\n",
    ),
    (
        "permit(principal, action, resource);permit(principal, action, resource);",
        "-- policy0\n\
         permit(principal, action, resource);\n\
         -- policy1\n\
         permit(principal, action, resource);\n\
         -- the same\n",
    ),
    ("// nothing", "-- the same\n"),
];

#[test]
fn splits_texts(rt: HostRuntime) {
    for (text, wanted) in &ROWS {
        let mut out = String::new(rt.alloc());
        made(&rt, report(rt.alloc(), text, &mut out));
        holds_for(&rt, out.as_str() == *wanted, &out);
        drop(out);
    }
}

/// Two policies, stored under one name.
const OF_ONE_NAME: [&str; 2] = [
    "permit(principal, action, resource);",
    "forbid(principal, action, resource);",
];

#[test]
fn loads_no_name_twice(rt: HostRuntime) {
    let styles = made(&rt, ExtStyles::cedar(rt.alloc()));
    let mut stored = Vec::new(rt.alloc());
    for source in &OF_ONE_NAME {
        let id = PolicyID::new(made(&rt, String::from_str(rt.alloc(), "a")));
        let source = made(&rt, String::from_str(rt.alloc(), source));
        made(&rt, stored.push((id, source)));
    }
    let set = made(&rt, load(rt.alloc(), stored.as_slice(), &styles));
    holds_for(&rt, set.is_none(), &"a");
    drop((set, stored));
    drop(styles);
}
