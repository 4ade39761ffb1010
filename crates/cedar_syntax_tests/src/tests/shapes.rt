//! What kind of node an expression is.
use cedar_expressions::{
    BinaryCall, BinaryOp, Expr, ExprKind, ListCall, Literal, NaryOp, SlotId, UnaryCall, UnaryOp,
    Var,
};

/// The kind of a node, without its parts.
#[derive(Clone, Copy, PartialEq)]
pub(super) enum Shape {
    Number(i64),
    OtherConstant,
    Var(Var),
    Slot(SlotId),
    Conditional,
    Prefixed(UnaryOp),
    IsEmpty,
    Like,
    Is,
    GetAttr,
    HasAttr,
    Joined(BinaryOp),
    IsIn,
    Repeated(NaryOp),
    Sum,
    Set,
    Extension,
    Record,
}

/// The kind of a node.
pub(super) fn shape_of(expr: &Expr) -> Shape {
    match expr.kind() {
        ExprKind::Val(Literal::Long(number)) => Shape::Number(*number),
        ExprKind::Val(_) => Shape::OtherConstant,
        ExprKind::Var(var) => Shape::Var(*var),
        ExprKind::Slot(slot) => Shape::Slot(*slot),
        ExprKind::Ite(_) => Shape::Conditional,
        ExprKind::Unary(call, _) => unary_shape(call),
        ExprKind::Binary(BinaryCall::Op(op), _) => Shape::Joined(*op),
        ExprKind::Binary(BinaryCall::IsIn(_), _) => Shape::IsIn,
        ExprKind::Nary(op, _, _) => Shape::Repeated(*op),
        ExprKind::Sum(_, _) => Shape::Sum,
        ExprKind::List(ListCall::Set, _) => Shape::Set,
        ExprKind::List(ListCall::Extension(_), _) => Shape::Extension,
        ExprKind::Record(_) => Shape::Record,
    }
}

/// The kind of a call of one expression.
fn unary_shape(call: &UnaryCall) -> Shape {
    match call {
        UnaryCall::Op(op) => Shape::Prefixed(*op),
        UnaryCall::IsEmpty => Shape::IsEmpty,
        UnaryCall::Like(_) => Shape::Like,
        UnaryCall::Is(_) => Shape::Is,
        UnaryCall::GetAttr(_) => Shape::GetAttr,
        UnaryCall::ExtendedHasAttr(_, _) => Shape::HasAttr,
    }
}
