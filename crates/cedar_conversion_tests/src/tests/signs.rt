//! Signs that no text gives: none at all, and more than a text may have.
use super::assertions::{agrees, holds, made};
use super::places::text;
use super::policies::no_styles;
use super::texts::built;
use super::trees::{expr, hinders_whole, named, number, related, string, sum};
use cedar_expressions::{Expr, ExprBuilder, ExprKind, Literal, UnaryCall, UnaryOp};
use cedar_policy_parser::parse_expression;
use cedar_syntax::Boxed;
use cedar_syntax::cst::{self, Add, Ident, NegOp, Relation, Str};
use cedar_syntax::node::Node;
use std::process::Abort;

/// What no signs are made as.
const NO_SIGNS: [NegOp; 2] = [NegOp::Bang(0), NegOp::Dash(0)];

/// The tree means what the text does.
fn means(rt: &(impl Abort + AllocGlobal), tree: Node<Option<cst::Expr>>, text: &str) {
    let value = made(rt, built::<ExprBuilder<()>>(rt.alloc(), &tree));
    let styles = no_styles(rt);
    let wanted = parse_expression(rt.alloc(), text, &styles);
    drop((tree, styles));
    agrees(rt, value, made(rt, wanted), text);
}

#[test]
fn no_signs_are_the_item_alone(rt: HostRuntime) {
    for op in &NO_SIGNS {
        let principal = named(&rt, Ident::Principal);
        means(&rt, expr(&rt, sum(&rt, Some(*op), principal)), "principal");
        let one = number(1);
        means(&rt, expr(&rt, sum(&rt, Some(*op), one)), "1");
    }
}

/// `principal`, left of something.
fn left(rt: &(impl Abort + AllocGlobal)) -> Node<Option<Add>> {
    sum(rt, None, named(rt, Ident::Principal))
}

/// The word or the string `a` behind no signs, right of something.
fn right(rt: &(impl Abort + AllocGlobal), op: NegOp, is_string: bool) -> Boxed<Node<Option<Add>>> {
    let primary = match is_string {
        true => string(Str::String(text(rt, "a"))),
        false => named(rt, Ident::Ident(text(rt, "a"))),
    };
    made(rt, Boxed::new(rt.alloc(), sum(rt, Some(op), primary)))
}

#[test]
fn no_signs_stand_right_of_has_and_is(rt: HostRuntime) {
    for op in &NO_SIGNS {
        let has = Relation::Has {
            target: left(&rt),
            field: right(&rt, *op, false),
        };
        means(&rt, related(&rt, has), "principal has a");
        let is = Relation::IsIn {
            target: left(&rt),
            entity_type: right(&rt, *op, false),
            in_entity: None,
        };
        means(&rt, related(&rt, is), "principal is a");
    }
}

#[test]
fn no_signs_stand_right_of_has_and_like_before_a_string(rt: HostRuntime) {
    for op in &NO_SIGNS {
        let has = Relation::Has {
            target: left(&rt),
            field: right(&rt, *op, true),
        };
        means(&rt, related(&rt, has), "principal has \"a\"");
        let like = Relation::Like {
            target: left(&rt),
            pattern: right(&rt, *op, true),
        };
        means(&rt, related(&rt, like), "principal like \"a\"");
    }
}

#[test]
fn no_dash_makes_no_number_fit(rt: HostRuntime) {
    let large = number(9223372036854775808);
    let expr = expr(&rt, sum(&rt, Some(NegOp::Dash(0)), large));
    let told = "integer literal `9223372036854775808` is too large";
    hinders_whole(&rt, expr, told);
}

/// How many `neg` stand before a number, and the number.
fn negated(expr: &Expr) -> Option<(usize, i64)> {
    let mut rest = expr;
    for count in 0..201usize {
        match rest.kind() {
            ExprKind::Unary(UnaryCall::Op(UnaryOp::Neg), operand) => rest = operand.as_ref(),
            ExprKind::Val(Literal::Long(number)) => return Some((count, *number)),
            _ => return None,
        }
    }
    None
}

#[test]
fn each_dash_but_the_last_is_a_call(rt: HostRuntime) {
    let tree = expr(&rt, sum(&rt, Some(NegOp::Dash(200)), number(1)));
    let value = made(&rt, built::<ExprBuilder<()>>(rt.alloc(), &tree));
    holds(&rt, negated(&value) == Some((199, -1)));
    drop((tree, value));
}
