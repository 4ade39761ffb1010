//! How tight an expression stands: what the places of the grammar want, and which of them an
//! expression may stand in without parentheses.
ghost use Rattle.std.specs.Prelude.{◌≡◌};
ghost use Rattle.cedar_expressions.specs.Meaning.{expr_meaning, unary_call, binary_call, between_call, nary_call, list_call};
ghost use Rattle.cedar_expressions.specs.Value.{Value, Values};
ghost use Rattle.cedar_writer.specs.Writing.{sort_of, literal_sort, suits};
ghost use Rattle.cedar_writer.specs.machines.Todos.{sort_seen};

use cedar_expressions::{
    BinaryCall, BinaryOp, Expr, ExprKind, ListCall, Literal, NaryOp, UnaryCall,
};

/// What tokens are read as, from the loosest to the tightest.
#[derive(Debug, Clone, Copy, PartialEq, Eq)]
pub enum Sort {
    Expression,
    Disjunction,
    Conjunction,
    Relation,
    Sum,
    Product,
    Signed,
    Member,
    Primary,
}

impl Sort {
    /// Whether what is read as another sort may stand bare where this one is wanted.
    pub fn takes(self, other: Sort) -> bool
        ensures { result ≡ suits (sort_seen self) (sort_seen other) }
    {
        self as u8 <= other as u8
    }
}

/// The tightest sort that an expression is read as.
pub fn sort_of(expr: &Expr) -> Sort
    ensures { sort_seen result ≡ sort_of (expr_meaning expr.now) }
{
    match expr.kind() {
        ExprKind::Val(literal) => literal_sort(literal),
        ExprKind::Var(_) => Sort::Primary,
        ExprKind::Slot(_) => Sort::Primary,
        ExprKind::Ite(_) => Sort::Expression,
        ExprKind::Unary(call, _) => unary_sort(call),
        ExprKind::Binary(call, _) => binary_sort(call),
        ExprKind::Nary(op, _, _) => nary_sort(*op),
        ExprKind::Sum(_, _) => Sort::Sum,
        ExprKind::List(call, _) => list_sort(call),
        ExprKind::Record(_) => Sort::Primary,
    }
}

/// A negative number is a sign and a number.
fn literal_sort(literal: &Literal) -> Sort
    ensures { sort_seen result ≡ literal_sort literal.now }
{
    match literal {
        Literal::Long(number) if *number < 0 => Sort::Signed,
        _ => Sort::Primary,
    }
}

fn unary_sort(call: &UnaryCall) -> Sort
    ensures { (a : Value) → sort_seen result ≡ sort_of (unary_call call.now a) }
{
    match call {
        UnaryCall::Op(_) => Sort::Signed,
        UnaryCall::IsEmpty | UnaryCall::GetAttr(_) => Sort::Member,
        UnaryCall::Like(_) | UnaryCall::Is(_) | UnaryCall::ExtendedHasAttr(_, _) => Sort::Relation,
    }
}

fn binary_sort(call: &BinaryCall) -> Sort
    ensures { (a b : Value) → sort_seen result ≡ sort_of (binary_call call.now a b) }
{
    match call {
        BinaryCall::Op(op) => operator_sort(*op),
        BinaryCall::IsIn(_) => Sort::Relation,
    }
}

fn operator_sort(op: BinaryOp) -> Sort
    ensures { (a b : Value) → sort_seen result ≡ sort_of (between_call op a b) }
{
    match op {
        BinaryOp::And => Sort::Expression,
        BinaryOp::Less
        | BinaryOp::LessEq
        | BinaryOp::Greater
        | BinaryOp::GreaterEq
        | BinaryOp::Eq
        | BinaryOp::NotEq
        | BinaryOp::In => Sort::Relation,
        BinaryOp::Contains
        | BinaryOp::ContainsAll
        | BinaryOp::ContainsAny
        | BinaryOp::GetTag
        | BinaryOp::HasTag => Sort::Member,
    }
}

fn nary_sort(op: NaryOp) -> Sort
    ensures { (a : Value) (bs : Values) → sort_seen result ≡ sort_of (nary_call op a bs) }
{
    match op {
        NaryOp::Or => Sort::Disjunction,
        NaryOp::And => Sort::Conjunction,
        NaryOp::Mul => Sort::Product,
    }
}

fn list_sort(call: &ListCall) -> Sort
    ensures { (items : Values) → sort_seen result ≡ sort_of (list_call call.now items) }
{
    match call {
        ListCall::Set => Sort::Primary,
        ListCall::Extension(_) => Sort::Member,
    }
}
