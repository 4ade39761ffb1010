//! Operands of each level of the grammar in each place: parentheses stand exactly where an operand
//! is looser than its place.
use super::assertions::{holds_for, made};
use cedar_policy_parser::{ExtStyles, expr_to_cedar, parse_expression};
use std::fmt::Write;
use std::process::Abort;

/// The levels of the grammar, from the loosest to the tightest.
#[derive(Clone, Copy)]
enum Level {
    Expression,
    Or,
    And,
    Relation,
    Sum,
    Product,
    Unary,
    Member,
    Primary,
}

/// Expressions, each with the level that it is read as.
const OPERANDS: [(Level, &str); 17] = [
    (Level::Expression, "if principal then action else context"),
    (Level::Or, "principal || action"),
    (Level::And, "principal && action"),
    (Level::Relation, "principal < action"),
    (Level::Relation, "principal in action"),
    (Level::Relation, "principal has a.b"),
    (Level::Relation, "principal like \"*\""),
    (Level::Relation, "principal is T in action"),
    (Level::Sum, "principal + action - context"),
    (Level::Product, "principal * action"),
    (Level::Unary, "!principal"),
    (Level::Unary, "-principal"),
    (Level::Unary, "-1"),
    (Level::Member, "principal.a"),
    (Level::Member, "principal.isEmpty()"),
    (Level::Primary, "principal"),
    (Level::Primary, "[principal]"),
];

/// What stands before and behind an operand, and the level that is read there.
const PLACES: [(Level, &str, &str); 22] = [
    (Level::Expression, "[", "]"),
    (Level::Expression, "{ a : ", " }"),
    (Level::Expression, "ip(", ")"),
    (Level::Expression, "context.contains(", ")"),
    (Level::Expression, "if ", " then context else context"),
    (Level::Expression, "if context then ", " else context"),
    (Level::Expression, "if context then context else ", ""),
    (Level::And, "", " || context"),
    (Level::And, "context || ", ""),
    (Level::Relation, "", " && context"),
    (Level::Relation, "context && ", ""),
    (Level::Sum, "", " == context"),
    (Level::Sum, "context in ", ""),
    (Level::Sum, "", " has b"),
    (Level::Sum, "", " is T"),
    (Level::Sum, "context is T in ", ""),
    (Level::Product, "", " + context"),
    (Level::Product, "context - ", ""),
    (Level::Unary, "", " * context"),
    (Level::Unary, "context * ", ""),
    (Level::Member, "!", ""),
    (Level::Member, "", ".b"),
];

/// A text with parentheses around the operand, or without.
fn text(rt: &(impl Abort + AllocGlobal), parts: (&str, &str, &str), closed: bool) -> String {
    let (before, operand, behind) = parts;
    let mut text = String::new(rt.alloc());
    if closed {
        made(rt, write!(text, "{before}({operand}){behind}"));
    } else {
        made(rt, write!(text, "{before}{operand}{behind}"));
    }
    text
}

/// The operand is written in parentheses in each place that is tighter, and bare elsewhere.
fn stands(rt: &(impl Abort + AllocGlobal), level: Level, operand: &str, styles: &ExtStyles) {
    for (wanted, before, behind) in &PLACES {
        let parts = (*before, operand, *behind);
        let closed = text(rt, parts, true);
        let value = made(rt, parse_expression(rt.alloc(), closed.as_str(), styles));
        let line = made(rt, expr_to_cedar(rt.alloc(), &value, styles));
        let expected = text(rt, parts, (level as u8) < *wanted as u8);
        holds_for(rt, line == expected, &line);
        let again = made(rt, parse_expression(rt.alloc(), line.as_str(), styles));
        holds_for(rt, again == value, &line);
        drop((value, again));
        drop((closed, line, expected));
    }
}

#[test]
fn writes_parentheses_where_they_are_needed(rt: HostRuntime) {
    let styles = made(&rt, ExtStyles::cedar(rt.alloc()));
    for (level, operand) in &OPERANDS {
        stands(&rt, *level, operand, &styles);
    }
    drop(styles);
}
