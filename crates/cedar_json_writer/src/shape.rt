//! Which expressions are conditions that were joined, or a negated one.
ghost use Rattle.std.specs.Prelude.{◌≡◌, false, MatchOption};
ghost use Rattle.cedar_expressions.specs.Meaning.{expr_meaning, unary_call, binary_call, between_call};
ghost use Rattle.cedar_expressions.specs.Value as v;
ghost use Rattle.cedar_json_writer.specs.machines.Shapes.{IsFormOf, is_a_negation, is_conjoined};

use cedar_expressions::{BinaryCall, BinaryOp, Expr, ExprKind, UnaryCall, UnaryOp};

/// The forms that a policy's conditions tell apart.
#[derive(Clone, Copy)]
pub enum Shape<'a> {
    /// A negation, which is written as `unless`.
    Negation(&'a Expr),
    /// Two conditions that were joined.
    Joint(&'a (Expr, Expr)),
    /// Any other.
    Other,
}

/// The form of an expression.
pub fn shape_of(expr: &Expr) -> Shape<'_>
    ensures { IsFormOf (expr_meaning expr.now) result }
{
    match expr.kind() {
        ExprKind::Val(_) => Shape::Other,
        ExprKind::Var(_) => Shape::Other,
        ExprKind::Slot(_) => Shape::Other,
        ExprKind::Ite(_) => Shape::Other,
        ExprKind::Unary(call, a) => unary_shape(call, a.as_ref()),
        ExprKind::Binary(call, parts) => binary_shape(call, parts.as_ref()),
        ExprKind::Nary(_, _, _) => Shape::Other,
        ExprKind::Sum(_, _) => Shape::Other,
        ExprKind::List(_, _) => Shape::Other,
        ExprKind::Record(_) => Shape::Other,
    }
}

fn unary_shape<'a>(call: &UnaryCall, a: &'a Expr) -> Shape<'a>
    ensures { IsFormOf (unary_call call.now (expr_meaning a.now)) result }
{
    match call {
        UnaryCall::Op(UnaryOp::Not) => Shape::Negation(a),
        UnaryCall::Op(UnaryOp::Neg) => Shape::Other,
        UnaryCall::IsEmpty => Shape::Other,
        UnaryCall::Like(_) => Shape::Other,
        UnaryCall::Is(_) => Shape::Other,
        UnaryCall::GetAttr(_) => Shape::Other,
        UnaryCall::ExtendedHasAttr(_, _) => Shape::Other,
    }
}

fn binary_shape<'a>(call: &BinaryCall, parts: &'a (Expr, Expr)) -> Shape<'a>
    ensures { IsFormOf (binary_call call.now (expr_meaning parts.now.0)
        (expr_meaning parts.now.1)) result }
{
    match call {
        BinaryCall::Op(op) => between_shape(*op, parts),
        BinaryCall::IsIn(_) => Shape::Other,
    }
}

fn between_shape(op: BinaryOp, parts: &(Expr, Expr)) -> Shape<'_>
    ensures { IsFormOf (between_call op (expr_meaning parts.now.0)
        (expr_meaning parts.now.1)) result }
{
    match op {
        BinaryOp::And => Shape::Joint(parts),
        BinaryOp::Less | BinaryOp::LessEq | BinaryOp::Greater | BinaryOp::GreaterEq => Shape::Other,
        BinaryOp::Eq | BinaryOp::NotEq | BinaryOp::In => Shape::Other,
        BinaryOp::Contains | BinaryOp::ContainsAll | BinaryOp::ContainsAny => Shape::Other,
        BinaryOp::GetTag | BinaryOp::HasTag => Shape::Other,
    }
}

/// What an expression negates, if it is a negation.
pub fn negated(expr: &Expr) -> Option<&Expr>
    ensures { MatchOption result (is_a_negation (expr_meaning expr.now) ≡ false)
        (λ a. expr_meaning expr.now ≡ v.not (expr_meaning a.now)) }
{
    match shape_of(expr) {
        Shape::Negation(a) => Some(a),
        Shape::Joint(_) => None,
        Shape::Other => None,
    }
}

/// Two conditions that were joined, if the expression is that.
pub fn joined(expr: &Expr) -> Option<&(Expr, Expr)>
    ensures { MatchOption result (is_conjoined (expr_meaning expr.now) ≡ false)
        (λ both. expr_meaning expr.now
        ≡ v.and (expr_meaning both.now.0) (expr_meaning both.now.1)) }
{
    match shape_of(expr) {
        Shape::Negation(_) => None,
        Shape::Joint(both) => Some(both),
        Shape::Other => None,
    }
}
