//! How expressions and policies are shown: whole, an expression by its builder calls.
use super::assertions::{made, says, shows, shows_alike};
use cedar_expressions::Expr;
use cedar_policy_parser::cst_to_ast::ExtStyles;
use cedar_policy_parser::{parse_expression, parse_policyset};
use cedar_policy_store::PolicySet;
use either::Either;
use std::process::Abort;

/// The expression that a text means under Cedar's own table.
fn expression(rt: &(impl Abort + AllocGlobal), text: &str) -> Expr {
    let styles = made(rt, ExtStyles::cedar(rt.alloc()));
    let answer = parse_expression(rt.alloc(), text, &styles);
    drop(styles);
    made(rt, answer)
}

/// Expressions without operators, and how they are shown.
const VALUES: [(&str, &str); 26] = [
    ("true", "true"),
    ("-9223372036854775808", "-9223372036854775808"),
    (
        "\"a\\\"b\\\\c\\n\\u{200b}é\"",
        "\"a\\\"b\\\\c\\n\\u{200b}é\"",
    ),
    ("A::B::\"a\\\"b\"", "A::B::\"a\\\"b\""),
    ("context", "context"),
    ("if true then 1 else 2", "ite(true, 1, 2)"),
    ("principal.a", "get_attr(principal, \"a\")"),
    ("principal[\"a\\\"b\"]", "get_attr(principal, \"a\\\"b\")"),
    ("principal has a", "extended_has_attr(principal, \"a\")"),
    (
        "principal has a.b.c",
        "extended_has_attr(principal, \"a\", \"b\", \"c\")",
    ),
    (
        "context.a like \"*a\\*\\\"\"",
        "like(get_attr(context, \"a\"), \"*a\\*\\\"\")",
    ),
    ("principal is A::B", "is_entity_type(principal, A::B)"),
    (
        "principal is A in resource",
        "is_in_entity_type(principal, A, resource)",
    ),
    ("[]", "set()"),
    ("[1]", "set(1)"),
    ("[1, [2, 3]]", "set(1, set(2, 3))"),
    ("{}", "record()"),
    ("{a: 1}", "record(\"a\": 1)"),
    (
        "{b: 1, \"a\\\"\": {c: 2}}",
        "record(\"b\": 1, \"a\\\"\": record(\"c\": 2))",
    ),
    ("ip(\"::1\")", "call_extension_fn(ip, \"::1\")"),
    ("context.isIpv4()", "call_extension_fn(isIpv4, context)"),
    (
        "context.isInRange(resource)",
        "call_extension_fn(isInRange, context, resource)",
    ),
    ("context.isEmpty()", "is_empty(context)"),
    ("context.contains(1)", "contains(context, 1)"),
    ("context.containsAll([1])", "contains_all(context, set(1))"),
    ("context.containsAny([])", "contains_any(context, set())"),
];

/// Expressions with operators, and how they are shown.
const OPERATORS: [(&str, &str); 17] = [
    ("!true", "not(true)"),
    ("-context", "neg(context)"),
    ("principal.getTag(\"a\")", "get_tag(principal, \"a\")"),
    ("principal.hasTag(\"a\")", "has_tag(principal, \"a\")"),
    ("1 < 2", "less(1, 2)"),
    ("1 <= 2", "lesseq(1, 2)"),
    ("1 > 2", "greater(1, 2)"),
    ("1 >= 2", "greatereq(1, 2)"),
    ("1 == 2", "is_eq(1, 2)"),
    ("1 != 2", "noteq(1, 2)"),
    ("principal in resource", "is_in(principal, resource)"),
    ("true || false", "or_nary(true, false)"),
    ("true && false && true", "and_naryl(true, false, true)"),
    ("1 + 2", "add_nary(1, + 2)"),
    ("1 - 2 + 3", "add_nary(1, - 2, + 3)"),
    ("2 * 3 * 4", "mul_nary(2, 3, 4)"),
    (
        "(1 + 2) * 3 == 9 && true",
        "and_naryl(is_eq(mul_nary(add_nary(1, + 2), 3), 9), true)",
    ),
];

#[test]
fn values_are_shown_by_their_calls(rt: HostRuntime) {
    for (text, shown) in &VALUES {
        says(&rt, expression(&rt, text), shown);
    }
}

#[test]
fn operators_are_shown_by_their_calls(rt: HostRuntime) {
    for (text, shown) in &OPERATORS {
        says(&rt, expression(&rt, text), shown);
    }
    shows_alike(&rt, &expression(&rt, "[1, {a: -context}]"));
}

/// Policies, and how they are shown behind their names.
const POLICIES: [(&str, &str); 6] = [
    (
        "permit(principal, action, resource);",
        "policy0: permit(principal, action, resource)",
    ),
    (
        "@note(\"a\\\"b\") @id(\"c\") @bare forbid(principal == A::\"\\n\", action, resource in B::C::\"b\") when { context.mfa };",
        "policy0: @bare(\"\") @id(\"c\") @note(\"a\\\"b\") forbid(principal == A::\"\\n\", action, resource in B::C::\"b\") when get_attr(context, \"mfa\")",
    ),
    (
        "permit(principal is A, action == Action::\"a\", resource is A::B in C::\"c\") when { 1 } unless { 2 };",
        "policy0: permit(principal is A, action == Action::\"a\", resource is A::B in C::\"c\") when and(1, not(2))",
    ),
    (
        "permit(principal in ?principal, action in [Action::\"a\", Action::\"b\", B::Action::\"c\"], resource == ?resource);",
        "policy0: permit(principal in ?principal, action in [Action::\"a\", Action::\"b\", B::Action::\"c\"], resource == ?resource)",
    ),
    (
        "permit(principal == ?principal, action in Action::\"a\", resource in ?resource);",
        "policy0: permit(principal == ?principal, action in [Action::\"a\"], resource in ?resource)",
    ),
    (
        "permit(principal is A in ?principal, action in [], resource is A in ?resource);",
        "policy0: permit(principal is A in ?principal, action in [], resource is A in ?resource)",
    ),
];

/// The set that a text means under Cedar's own table.
fn set(rt: &(impl Abort + AllocGlobal), text: &str) -> PolicySet {
    let styles = made(rt, ExtStyles::cedar(rt.alloc()));
    let answer = parse_policyset(rt.alloc(), text, &styles);
    drop(styles);
    made(rt, answer)
}

/// Each policy of the set is shown so.
fn all_show(rt: &(impl Abort + AllocGlobal), set: &PolicySet, shown: &str) {
    for policy in made(rt, set.iter(rt.alloc())) {
        match policy {
            Either::Left(policy) => shows(rt, policy, shown),
            Either::Right(template) => shows(rt, template, shown),
        }
    }
}

#[test]
fn policies_are_shown_whole(rt: HostRuntime) {
    for (text, shown) in &POLICIES {
        let set = set(&rt, text);
        all_show(&rt, &set, shown);
        drop(set);
    }
}
