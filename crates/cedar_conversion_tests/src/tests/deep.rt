//! Texts that nest deeply.
use super::assertions::{made, says};
use super::round_trip::prints;
use cedar_policy_parser::cst_to_ast::ExtStyles;
use cedar_policy_parser::parse_expression;
use cedar_syntax::cst::Expr;
use std::collections::BTreeSet;
use std::process::Abort;

/// The part so many times.
fn repeated(rt: &(impl Abort + AllocGlobal), part: &str, count: usize) -> String {
    let mut text = String::new(rt.alloc());
    for _ in 0..count {
        made(rt, text.push_str(part));
    }
    text
}

#[test]
fn five_hundred_sets_are_read(rt: HostRuntime) {
    let mut text = repeated(&rt, "[ ", 500);
    let closing = repeated(&rt, "] ", 500);
    made(&rt, text.push_str(closing.as_str()));
    prints::<Expr>(&rt, text.as_str(), text.as_str().trim_end());
}

#[test]
fn five_hundred_parentheses_hold_a_value(rt: HostRuntime) {
    let mut text = repeated(&rt, "(", 500);
    made(&rt, text.push('1'));
    let closing = repeated(&rt, ")", 500);
    made(&rt, text.push_str(closing.as_str()));
    let styles = ExtStyles::new(BTreeSet::new(rt.alloc()), BTreeSet::new(rt.alloc()));
    let answer = parse_expression(rt.alloc(), text.as_str(), &styles);
    drop((text, styles));
    says(&rt, made(&rt, answer), "1");
}

/// `inner` within so many calls that open and close so.
fn within(
    rt: &(impl Abort + AllocGlobal),
    (open, inner, close): (&str, &str, &str),
    count: usize,
) -> String {
    let mut text = repeated(rt, open, count);
    made(rt, text.push_str(inner));
    let closing = repeated(rt, close, count);
    made(rt, text.push_str(closing.as_str()));
    text
}

#[test]
fn two_hundred_negations_are_shown(rt: HostRuntime) {
    let text = within(&rt, ("!(", "true", ")"), 200);
    let shown = within(&rt, ("not(", "true", ")"), 200);
    let styles = ExtStyles::new(BTreeSet::new(rt.alloc()), BTreeSet::new(rt.alloc()));
    let answer = parse_expression(rt.alloc(), text.as_str(), &styles);
    drop((text, styles));
    says(&rt, made(&rt, answer), shown.as_str());
}
