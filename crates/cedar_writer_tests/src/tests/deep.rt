//! Deep values, which are listed, written and let go without recursion.
use super::assertions::{holds_for, made};
use cedar_policy_parser::{
    Expr, ExprBuilder, ExprBuilderInfallibleBuild, ExtStyles, Var, expr_to_cedar,
};
use std::process::Abort;

/// So many negations in one another that a stack of 8 MB hasn't 200 bytes for each.
const LEVELS: usize = 50_000;

/// A variable within that many negations.
pub(super) fn negations(rt: &(impl Abort + AllocGlobal), levels: usize) -> Expr {
    let mut value = made(rt, ExprBuilder::<()>::new(rt.alloc()).var(Var::Principal));
    for _ in 0..levels {
        value = made(rt, ExprBuilder::<()>::new(rt.alloc()).not(value));
    }
    value
}

#[test]
fn lists_deep_negations(rt: HostRuntime) {
    let value = negations(&rt, LEVELS);
    // Each negation, and the variable.
    let count = made(&rt, value.subexpressions(rt.alloc())).count();
    holds_for(&rt, count == LEVELS + 1, &count);
    drop(value);
}

#[test]
fn writes_deep_negations(rt: HostRuntime) {
    let value = negations(&rt, LEVELS);
    let styles = made(&rt, ExtStyles::cedar(rt.alloc()));
    let line = made(&rt, expr_to_cedar(rt.alloc(), &value, &styles));
    // A `!` for each negation, parentheses around each but the outermost, and the variable.
    let length = LEVELS + 2 * (LEVELS - 1) + "principal".len();
    holds_for(&rt, line.len() == length, &line.len());
    drop((value, line));
    drop(styles);
}
