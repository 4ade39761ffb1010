//! The program that lints policies.
use super::super::assertions::{holds_for, made};
use super::super::deep::negations;
use cedar_policy_parser::err::Failure;
use cedar_policy_parser::position::Position;
use cedar_policy_parser::{
    BinaryCall, BinaryOp, Expr, ExprBuilder, ExprBuilderInfallibleBuild, ExprKind, ExtStyles,
    Place, Template, UnaryCall, expr_to_cedar, parse_policyset,
};
use std::alloc::Global;
use std::fmt;
use std::process::Abort;

/// Writes what three rules find in a text's policies.
fn report<W: fmt::Write>(alloc: Global, text: &str, out: &mut W) -> fmt::Result {
    let styles = ExtStyles::cedar(alloc)?;
    let set = match parse_policyset(alloc, text, &styles) {
        Ok(set) => set,
        Err(Failure::Memory(_)) => return Err(fmt::Error),
        Err(Failure::Errors(faults)) => return writeln!(out, "{faults}"),
    };
    for policy in set.iter(alloc)? {
        let policy = policy.either(|policy| policy.as_template(), |template| template);
        lint(alloc, text, policy, &styles, out)?;
    }
    Ok(())
}

/// A policy without a condition, and what is found in its condition.
fn lint<W: fmt::Write>(
    alloc: Global,
    text: &str,
    policy: &Template,
    styles: &ExtStyles,
    out: &mut W,
) -> fmt::Result {
    let Some(condition) = policy.non_scope_constraints() else {
        return warn(text, policy.place(), "a policy without a condition", out);
    };
    for expr in condition.subexpressions(alloc)? {
        if let Some(found) = found_in(alloc, expr, styles)? {
            warn(text, expr.place(), found, out)?;
        }
    }
    Ok(())
}

/// What the rules find in an expression itself.
fn found_in(
    alloc: Global,
    expr: &Expr,
    styles: &ExtStyles,
) -> Result<Option<&'static str>, fmt::Error> {
    match expr.kind() {
        ExprKind::Unary(UnaryCall::ExtendedHasAttr(_, _), _) => Ok(Some("`has`")),
        ExprKind::Binary(BinaryCall::Op(BinaryOp::Eq), sides) => {
            let sides = sides.as_ref();
            let left = cedar(alloc, &sides.0, styles)?;
            let right = cedar(alloc, &sides.1, styles)?;
            Ok((left == right).then_some("`==` of two equal sides"))
        }
        _ => Ok(None),
    }
}

/// An expression that was read, as Cedar text. It has one, so only memory can be wanting.
fn cedar(alloc: Global, expr: &Expr, styles: &ExtStyles) -> Result<String, fmt::Error> {
    match expr_to_cedar(alloc, expr, styles) {
        Ok(text) => Ok(text),
        Err(_) => Err(fmt::Error),
    }
}

fn warn<W: fmt::Write>(text: &str, place: Option<Place>, found: &str, out: &mut W) -> fmt::Result {
    if let Some(place) = place {
        let at = Position::of(text, place.offset);
        write!(out, "{}:{}: ", at.line, at.column)?;
    }
    writeln!(out, "{found}")
}

/// Texts of policies, and what is found in them.
const ROWS: [(&str, &str); 3] = [
    (
        "permit(principal, action, resource);\n\
         permit(principal, action, resource)\n\
         when { context has mfa && resource.owner == resource.owner };",
        "1:1: a policy without a condition\n3:8: `has`\n3:27: `==` of two equal sides\n",
    ),
    (
        "forbid(principal, action, resource) unless {\n  \
         [1 == 2, {a: 1 + 2 == 1 + 2}.a].contains(!(principal has a.b)) };",
        "2:16: `==` of two equal sides\n2:46: `has`\n",
    ),
    (
        "permit(principal == ?principal, action, resource);",
        "1:1: a policy without a condition\n",
    ),
];

#[test]
fn lints_policies(rt: HostRuntime) {
    for (text, wanted) in &ROWS {
        let mut out = String::new(rt.alloc());
        made(&rt, report(rt.alloc(), text, &mut out));
        holds_for(&rt, out.as_str() == *wanted, &out);
        drop(out);
    }
}

/// So many negations in one another that a stack of 8 MB hasn't 140 bytes for each.
const LEVELS: usize = 60_000;

#[test]
fn compares_deep_sides(rt: HostRuntime) {
    let styles = made(&rt, ExtStyles::cedar(rt.alloc()));
    let sides = (negations(&rt, LEVELS), negations(&rt, LEVELS));
    let build = ExprBuilder::<()>::new(rt.alloc());
    let equality = made(&rt, build.is_eq(sides.0, sides.1));
    let found = made(&rt, found_in(rt.alloc(), &equality, &styles));
    holds_for(&rt, found.is_some(), &"two deep sides");
    drop(equality);
    drop(styles);
}
