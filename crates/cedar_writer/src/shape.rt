//! What of an expression's form decides how it is written where it stands.
ghost use Rattle.std.specs.Prelude.{◌≡◌, false, MatchOption};
ghost use Rattle.cedar_expressions.specs.Meaning.{expr_meaning, unary_call, operator_call, binary_call, between_call};
ghost use Rattle.cedar_expressions.specs.Value as v;
ghost use Rattle.cedar_writer.specs.Writing.{is_natural};
ghost use Rattle.cedar_writer.specs.machines.Shapes.{IsShapeOf, is_logical_not, is_joint};

use cedar_expressions::{BinaryCall, BinaryOp, Expr, ExprKind, Literal, UnaryCall, UnaryOp};

/// The forms that are written otherwise in some places.
#[derive(Clone, Copy)]
pub enum Shape<'a> {
    /// A number that isn't negative: one literal with a `-` before it.
    Natural,
    /// A negation: as a condition `unless`.
    Negation(&'a Expr),
    /// Two conditions that were joined.
    Joint(&'a (Expr, Expr)),
    /// Any other.
    Other,
}

/// The form of an expression.
pub fn shape_of(expr: &Expr) -> Shape<'_>
    ensures { IsShapeOf (expr_meaning expr.now) result }
{
    match expr.kind() {
        ExprKind::Val(literal) => literal_shape(literal),
        ExprKind::Var(_) => Shape::Other,
        ExprKind::Slot(_) => Shape::Other,
        ExprKind::Ite(_) => Shape::Other,
        ExprKind::Unary(call, a) => unary_shape(call, a.as_ref()),
        ExprKind::Binary(call, parts) => binary_shape(call, parts.as_ref()),
        ExprKind::Nary(_, _, _) => Shape::Other,
        ExprKind::Sum(_, _) => Shape::Other,
        ExprKind::List(_, _) => Shape::Other,
        ExprKind::Record(_) => Shape::Other,
    }
}

fn literal_shape<'a>(literal: &Literal) -> Shape<'a>
    ensures { IsShapeOf (v.val literal.now) result }
{
    match literal {
        Literal::Long(number) => if *number < 0 {
            Shape::Other
        } else {
            Shape::Natural
        },
        Literal::Bool(_) => Shape::Other,
        Literal::String(_) => Shape::Other,
        Literal::EntityUID(_) => Shape::Other,
    }
}

fn unary_shape<'a>(call: &UnaryCall, a: &'a Expr) -> Shape<'a>
    ensures { IsShapeOf (unary_call call.now (expr_meaning a.now)) result }
{
    match call {
        UnaryCall::Op(op) => sign_shape(*op, a),
        UnaryCall::IsEmpty => Shape::Other,
        UnaryCall::Like(_) => Shape::Other,
        UnaryCall::Is(_) => Shape::Other,
        UnaryCall::GetAttr(_) => Shape::Other,
        UnaryCall::ExtendedHasAttr(_, _) => Shape::Other,
    }
}

fn sign_shape(op: UnaryOp, a: &Expr) -> Shape<'_>
    ensures { IsShapeOf (operator_call op (expr_meaning a.now)) result }
{
    match op {
        UnaryOp::Not => Shape::Negation(a),
        UnaryOp::Neg => Shape::Other,
    }
}

fn binary_shape<'a>(call: &BinaryCall, parts: &'a (Expr, Expr)) -> Shape<'a>
    ensures { IsShapeOf (binary_call call.now (expr_meaning parts.now.0)
        (expr_meaning parts.now.1)) result }
{
    match call {
        BinaryCall::Op(op) => between_shape(*op, parts),
        BinaryCall::IsIn(_) => Shape::Other,
    }
}

fn between_shape(op: BinaryOp, parts: &(Expr, Expr)) -> Shape<'_>
    ensures { IsShapeOf (between_call op (expr_meaning parts.now.0)
        (expr_meaning parts.now.1)) result }
{
    match op {
        BinaryOp::And => Shape::Joint(parts),
        BinaryOp::Less | BinaryOp::LessEq | BinaryOp::Greater | BinaryOp::GreaterEq => Shape::Other,
        BinaryOp::Eq | BinaryOp::NotEq | BinaryOp::In => Shape::Other,
        BinaryOp::Contains | BinaryOp::ContainsAll | BinaryOp::ContainsAny => Shape::Other,
        BinaryOp::GetTag | BinaryOp::HasTag => Shape::Other,
    }
}

/// Whether an expression is a number that isn't negative.
pub fn is_natural(expr: &Expr) -> bool
    ensures { result ≡ is_natural (expr_meaning expr.now) }
{
    match shape_of(expr) {
        Shape::Natural => true,
        Shape::Negation(_) => false,
        Shape::Joint(_) => false,
        Shape::Other => false,
    }
}

/// What an expression negates, if it is a negation.
pub fn negated(expr: &Expr) -> Option<&Expr>
    ensures { MatchOption result (is_logical_not (expr_meaning expr.now) ≡ false)
        (λ a. expr_meaning expr.now ≡ v.not (expr_meaning a.now)) }
{
    match shape_of(expr) {
        Shape::Natural => None,
        Shape::Negation(a) => Some(a),
        Shape::Joint(_) => None,
        Shape::Other => None,
    }
}

/// Two conditions that were joined, if the expression is that.
pub fn joined(expr: &Expr) -> Option<&(Expr, Expr)>
    ensures { MatchOption result (is_joint (expr_meaning expr.now) ≡ false)
        (λ both. expr_meaning expr.now
        ≡ v.and (expr_meaning both.now.0) (expr_meaning both.now.1)) }
{
    match shape_of(expr) {
        Shape::Natural => None,
        Shape::Negation(_) => None,
        Shape::Joint(both) => Some(both),
        Shape::Other => None,
    }
}
