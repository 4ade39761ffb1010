//! An expression: its kind and its place.
ghost use Rattle.std.specs.Prelude.{◌≡◌};
ghost use Rattle.cedar_expressions.specs.Placed.{place_of};

use crate::{
    AddOp, Boxed, EntityType, Items, Literal, Name, NodePlace, PatternElem, Place, SlotId, Text,
    TryClone, UnaryOp, Var,
};
use std::alloc::AllocError;

/// An expression: the tree of the builder calls that made it. Equality looks at no place.
#[cycle(expr)]
#[derive(Debug, PartialEq, Eq)]
pub struct Expr {
    kind: ExprKind,
    place: NodePlace,
}

/// What an expression is, with its parts.
#[cycle(expr)]
#[derive(Debug, Drop, PartialEq, Eq)]
pub enum ExprKind {
    /// A constant.
    Val(Literal),
    /// A variable.
    Var(Var),
    /// A slot of a template.
    Slot(SlotId),
    /// `if .. then .. else ..`.
    Ite(Boxed<(Expr, Expr, Expr)>),
    /// A call of one expression.
    Unary(UnaryCall, Boxed<Expr>),
    /// A call of two expressions.
    Binary(BinaryCall, Boxed<(Expr, Expr)>),
    /// A first operand and later ones, with one operator between each two.
    Nary(NaryOp, Boxed<Expr>, Items<Expr>),
    /// A first operand and later ones, each behind its own `+` or `-`.
    Sum(Boxed<Expr>, Items<(AddOp, Expr)>),
    /// A call of a list of expressions.
    List(ListCall, Items<Expr>),
    /// A record: its pairs in the order in which they were given.
    Record(Items<(Text, Expr)>),
}

/// A loop, so that an expression of any depth is let go in a small stack (`release.rt`).
impl Drop for Expr {
    fn drop(self) {
        let mut waiting = self.fork();
        while let Some(fork) = waiting {
            waiting = fork.descend();
        }
    }
}

/// The calls of one expression, with what else they take.
#[derive(Debug, Drop, PartialEq, Eq)]
pub enum UnaryCall {
    /// `!` or `-` before the expression.
    Op(UnaryOp),
    /// The method `isEmpty`.
    IsEmpty,
    /// `like` with a pattern.
    Like(Items<PatternElem>),
    /// `is` with a type.
    Is(EntityType),
    /// An attribute.
    GetAttr(Text),
    /// `has` with an attribute, and attributes within attributes.
    ExtendedHasAttr(Text, Items<Text>),
}

/// The calls of two expressions, with what else they take.
#[derive(Debug, Drop, PartialEq, Eq)]
pub enum BinaryCall {
    /// An operator between the two, or a method of the first.
    Op(BinaryOp),
    /// `is` with a type between the first and `in` with the second.
    IsIn(EntityType),
}

/// The operators between two expressions, and the methods of one argument.
#[derive(Debug, Clone, Copy, PartialEq, Eq)]
pub enum BinaryOp {
    And,
    Less,
    LessEq,
    Greater,
    GreaterEq,
    Eq,
    NotEq,
    In,
    Contains,
    ContainsAll,
    ContainsAny,
    GetTag,
    HasTag,
}

/// The operators between operands of any number.
#[derive(Debug, Clone, Copy, PartialEq, Eq)]
pub enum NaryOp {
    Or,
    And,
    Mul,
}

/// The calls of a list of expressions.
#[derive(Debug, Drop, PartialEq, Eq)]
pub enum ListCall {
    /// A set of elements.
    Set,
    /// A call of an extension function.
    Extension(Name),
}

impl Expr {
    /// The expression of a kind with its parts, at a place if one is known.
    pub(crate) fn at(kind: ExprKind, place: Option<Place>) -> Expr
        ensures { result ≡ record { kind = kind; place = record { place = place } } }
    {
        Expr {
            kind,
            place: NodePlace::from(place),
        }
    }

    /// What the expression is, with its parts.
    pub fn kind(&self) -> &ExprKind
        ensures { result.now ≡ self.now.kind }
    {
        &self.kind
    }

    /// The kind with its parts, moved out.
    pub(crate) fn into_kind(self) -> ExprKind
        ensures { result ≡ self.kind }
    {
        let Expr { kind, place: _ } = self;
        kind
    }

    /// Where the expression stands, if that is known.
    pub fn place(&self) -> Option<Place>
        ensures { result ≡ place_of self.now }
    {
        self.place.get()
    }
}

impl TryClone for UnaryCall {
    fn try_clone(&self) -> Result<UnaryCall, AllocError> {
        match self {
            UnaryCall::Op(op) => Ok(UnaryCall::Op(*op)),
            UnaryCall::IsEmpty => Ok(UnaryCall::IsEmpty),
            UnaryCall::Like(pattern) => Ok(UnaryCall::Like(pattern.try_clone()?)),
            UnaryCall::Is(entity_type) => Ok(UnaryCall::Is(entity_type.try_clone()?)),
            UnaryCall::GetAttr(attr) => Ok(UnaryCall::GetAttr(attr.try_clone()?)),
            UnaryCall::ExtendedHasAttr(first, rest) => {
                let first = first.try_clone()?;
                Ok(UnaryCall::ExtendedHasAttr(first, rest.try_clone()?))
            }
        }
    }
}

impl TryClone for BinaryCall {
    fn try_clone(&self) -> Result<BinaryCall, AllocError> {
        match self {
            BinaryCall::Op(op) => Ok(BinaryCall::Op(*op)),
            BinaryCall::IsIn(entity_type) => Ok(BinaryCall::IsIn(entity_type.try_clone()?)),
        }
    }
}

impl TryClone for ListCall {
    fn try_clone(&self) -> Result<ListCall, AllocError> {
        match self {
            ListCall::Set => Ok(ListCall::Set),
            ListCall::Extension(function) => Ok(ListCall::Extension(function.try_clone()?)),
        }
    }
}
