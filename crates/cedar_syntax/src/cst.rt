//! The syntax trees. A node is `Node<Option<T>>`: empty where a fault was found.
ghost use Rattle.std.specs.Prelude.{◌≡◌, ◌<◌, ◌+◌, suc, IfOk};
ghost use Rattle.cedar_syntax.specs.declared.cst.ExprImpl.{out-ExprImpl};
ghost use Rattle.cedar_syntax.specs.declared.cst.Expr.TheVariants as variants;
ghost use Rattle.cedar_syntax.specs.trees.Trees.{impl_of};
ghost use Rattle.cedar_syntax.specs.trees.Weight.{expr_weight, impl_weight, linked_weight, data_weight, waiting_weight};

use crate::depth::Depth;
use crate::dismantle::Dismantle;
use crate::node::Node;
pub use cedar_expressions::AddOp;
use cedar_expressions::{Boxed, Items, Text};
use std::alloc::{AllocError, Global};
use std::mem;

/// The policies of a set.
#[derive(Debug, Drop, PartialEq, Eq)]
pub struct Policies(pub Items<Node<Option<Policy>>>);

/// `@key` or `@key("value")` before a policy.
#[derive(Debug, Drop, PartialEq, Eq)]
pub struct Annotation {
    pub key: Node<Option<Ident>>,
    pub value: Option<Node<Option<Str>>>,
}

/// A string as it is written, without its quotes. `Invalid` is made by hand alone.
#[derive(Debug, Drop, PartialEq, Eq)]
pub enum Str {
    String(Text),
    Invalid(Text),
}

/// A policy: its annotations, `permit` or `forbid` as it is written, the elements of its scope and
/// its conditions.
#[derive(Debug, Drop, PartialEq, Eq)]
pub struct PolicyImpl {
    pub annotations: Items<Node<Option<Annotation>>>,
    pub effect: Node<Option<Ident>>,
    pub variables: Items<Node<Option<VariableDef>>>,
    pub conds: Items<Node<Option<Cond>>>,
}

/// A policy.
#[derive(Debug, Drop, PartialEq, Eq)]
pub enum Policy {
    Policy(PolicyImpl),
}

/// An element of a scope: a variable; a name behind `:`, which has no meaning; a type behind `is`;
/// an operator and what stands right of it.
#[derive(Debug, Drop, PartialEq, Eq)]
pub struct VariableDef {
    pub variable: Node<Option<Ident>>,
    pub unused_type_name: Option<Node<Option<Name>>>,
    pub entity_type: Option<Node<Option<Add>>>,
    pub ineq: Option<(RelOp, Node<Option<Expr>>)>,
}

/// An identifier: one of the words, or another text. `Invalid` is made by hand alone.
#[derive(Debug, Drop, PartialEq, Eq, Hash)]
pub enum Ident {
    Principal,
    Action,
    Resource,
    Context,
    True,
    False,
    Permit,
    Forbid,
    When,
    Unless,
    In,
    Has,
    Like,
    Is,
    If,
    Then,
    Else,
    Ident(Text),
    Invalid(Text),
}

/// A condition: its word, and what its braces hold.
#[derive(Debug, Drop, PartialEq, Eq)]
pub struct Cond {
    pub cond: Node<Option<Ident>>,
    pub expr: Option<Node<Option<Expr>>>,
}

/// What an expression holds, in memory of its own.
#[cycle(cst)]
#[derive(Debug, PartialEq, Eq)]
pub struct ExprImpl {
    pub expr: Boxed<Linked>,
}

/// What an expression holds, and how it is dropped. While trees are dropped, another expression
/// waits behind it.
#[cycle(cst)]
#[derive(Debug, Drop, PartialEq, Eq)]
pub struct Linked {
    pub content: ExprData,
    pub(crate) depth: Depth,
    pub(crate) next: Option<Expr>,
}

/// An expression.
#[cycle(cst)]
#[derive(Debug, Drop, PartialEq, Eq)]
pub enum Expr {
    Expr(ExprImpl),
}

/// A chain of `||`, or `if` with its guard and its two parts.
#[cycle(cst)]
#[derive(Debug, Drop, PartialEq, Eq)]
pub enum ExprData {
    Or(Node<Option<Or>>),
    If(Node<Option<Expr>>, Node<Option<Expr>>, Node<Option<Expr>>),
}

/// Operands of `||`, one or more.
#[cycle(cst)]
#[derive(Debug, Drop, PartialEq, Eq)]
pub struct Or {
    pub initial: Node<Option<And>>,
    pub extended: Items<Node<Option<And>>>,
}

/// Operands of `&&`, one or more.
#[cycle(cst)]
#[derive(Debug, Drop, PartialEq, Eq)]
pub struct And {
    pub initial: Node<Option<Relation>>,
    pub extended: Items<Node<Option<Relation>>>,
}

/// A sum alone or with others behind comparisons; or `has`, `like` or `is` with their right sides.
#[cycle(cst)]
#[derive(Debug, Drop, PartialEq, Eq)]
pub enum Relation {
    Common {
        initial: Node<Option<Add>>,
        extended: Items<(RelOp, Node<Option<Add>>)>,
    },
    Has {
        target: Node<Option<Add>>,
        field: Boxed<Node<Option<Add>>>,
    },
    Like {
        target: Node<Option<Add>>,
        pattern: Boxed<Node<Option<Add>>>,
    },
    IsIn {
        target: Node<Option<Add>>,
        entity_type: Boxed<Node<Option<Add>>>,
        in_entity: Option<Boxed<Node<Option<Add>>>>,
    },
}

/// Comparisons. `InvalidSingleEq` is a lone `=`, which has no meaning.
#[derive(Debug, Clone, Copy, PartialEq, Eq)]
pub enum RelOp {
    Less,
    LessEq,
    GreaterEq,
    Greater,
    NotEq,
    Eq,
    In,
    InvalidSingleEq,
}

/// The operators of products; only `*` has a meaning.
#[derive(Debug, Clone, Copy, PartialEq, Eq)]
pub enum MultOp {
    Times,
    Divide,
    Mod,
}

/// So many signs before an operand are counted; more are one form, whatever their number.
pub const SIGN_LIMIT: u8 = 8;

/// The signs before an operand, which are counted up to the limit.
#[derive(Debug, Clone, Copy, PartialEq, Eq)]
pub enum NegOp {
    Bang(u8),
    OverBang,
    Dash(u8),
    OverDash,
}

/// Operands of `+` and `-`, one or more.
#[cycle(cst)]
#[derive(Debug, Drop, PartialEq, Eq)]
pub struct Add {
    pub initial: Node<Option<Mult>>,
    pub extended: Items<(AddOp, Node<Option<Mult>>)>,
}

/// Operands of `*`, `/` and `%`, one or more.
#[cycle(cst)]
#[derive(Debug, Drop, PartialEq, Eq)]
pub struct Mult {
    pub initial: Node<Option<Unary>>,
    pub extended: Items<(MultOp, Node<Option<Unary>>)>,
}

/// An operand behind its signs.
#[cycle(cst)]
#[derive(Debug, Drop, PartialEq, Eq)]
pub struct Unary {
    pub op: Option<NegOp>,
    pub item: Node<Option<Member>>,
}

/// A primary and its accesses.
#[cycle(cst)]
#[derive(Debug, Drop, PartialEq, Eq)]
pub struct Member {
    pub item: Node<Option<Primary>>,
    pub access: Items<Node<Option<MemAccess>>>,
}

/// `.field`, `(arguments)` or `["index"]` behind a primary.
#[cycle(cst)]
#[derive(Debug, Drop, PartialEq, Eq)]
pub enum MemAccess {
    Field(Node<Option<Ident>>),
    Call(Items<Node<Option<Expr>>>),
    Index(Node<Option<Expr>>),
}

/// What an operand begins with: a literal, an entity, a name, a slot, an expression in
/// parentheses, a set or a record.
#[cycle(cst)]
#[derive(Debug, Drop, PartialEq, Eq)]
pub enum Primary {
    Literal(Node<Option<Literal>>),
    Ref(Boxed<Node<Option<Ref>>>),
    Name(Node<Option<Name>>),
    Slot(Node<Option<Slot>>),
    Expr(Node<Option<Expr>>),
    EList(Items<Node<Option<Expr>>>),
    RInits(Items<Node<Option<RecInit>>>),
}

/// An identifier behind others, parted by `::`.
#[derive(Debug, Drop, PartialEq, Eq, Hash)]
pub struct Name {
    pub path: Items<Node<Option<Ident>>>,
    pub name: Node<Option<Ident>>,
}

/// An entity: a type and an id, or a type and a record, which has no meaning.
#[derive(Debug, Drop, PartialEq, Eq)]
pub enum Ref {
    Uid {
        path: Node<Option<Name>>,
        eid: Node<Option<Str>>,
    },
    Ref {
        path: Node<Option<Name>>,
        rinits: Items<Node<Option<RefInit>>>,
    },
}

/// A pair of an entity's record.
#[derive(Debug, Drop, PartialEq, Eq)]
pub struct RefInit(pub Node<Option<Ident>>, pub Node<Option<Literal>>);

/// A pair of a record: its key and its value.
#[cycle(cst)]
#[derive(Debug, Drop, PartialEq, Eq)]
pub struct RecInit(pub Node<Option<Expr>>, pub Node<Option<Expr>>);

/// `true`, `false`, a number or a string.
#[derive(Debug, Drop, PartialEq, Eq)]
pub enum Literal {
    True,
    False,
    Num(u64),
    Str(Node<Option<Str>>),
}

/// `?principal`, `?resource`, or another slot as it is written, which has no meaning.
#[derive(Debug, Drop, PartialEq, Eq)]
pub enum Slot {
    Principal,
    Resource,
    Other(Text),
}

impl ExprImpl {
    /// Puts what an expression holds into memory of its own.
    pub fn new(alloc: Global, content: ExprData) -> Result<ExprImpl, AllocError>
        ensures { IfOk result (λ made. made ≡ impl_of content) }
    {
        ExprImpl::nested(alloc, content, true)
    }

    /// The same, by one who knows how deep it nests. One that isn't deep is dropped faster, and
    /// takes stack for each expression in the other.
    #[inline(always)]
    pub fn nested(alloc: Global, content: ExprData, is_deep: bool) -> Result<ExprImpl, AllocError>
        ensures { IfOk result (λ made. made ≡ impl_of content) }
    {
        let depth = Depth::new(is_deep);
        let next = None;
        let linked = Linked {
            content,
            depth,
            next,
        };
        let expr = Boxed::new(alloc, linked)?;
        Ok(ExprImpl { expr })
    }

    /// What it holds, lent.
    pub fn as_ref(&self) -> &ExprData
        ensures { result.now ≡ (out-ExprImpl self.now).expr.content }
    {
        &self.expr.as_ref().content
    }

    /// Whether it may nest deeper than calls may go.
    #[inline(always)]
    pub(crate) fn may_be_deep(&self) -> bool {
        self.expr.as_ref().depth.may_be_deep()
    }

    /// Where its memory comes from.
    pub fn alloc(&self) -> Global {
        self.expr.alloc()
    }

    /// What it holds, in its memory.
    #[tactic(auto, using(crate::proofs::Weights::impl_out))]
    #[inline(always)]
    fn cell(self) -> Box<Linked>
        ensures { impl_weight self ≡ linked_weight result.value }
    {
        let ExprImpl { expr } = self;
        expr.into_box()
    }

    /// What it holds, and what waits behind it.
    #[tactic(auto, using(crate::proofs::Weights::linked_out))]
    #[inline(always)]
    fn parts(self) -> (ExprData, Option<Expr>)
        ensures { impl_weight self ≡ suc (data_weight result.0 + waiting_weight result.1) }
    {
        let Linked {
            content,
            depth: _,
            next,
        } = Box::into_inner(self.cell());
        (content, next)
    }

    /// Lets it go, and all that is in it, without recursion.
    #[cold]
    fn let_go(self) {
        let (content, next) = self.parts();
        let mut pending = content.dismantle(next);
        while let Some(expr) = pending {
            let (content, next) = expr.parts();
            pending = content.dismantle(next);
        }
    }
}

/// What an expression holds, before those that wait; and what waited behind it.
#[tactic(auto, using(crate::proofs::Weights::linked_out))]
#[inline(always)]
fn put_before(cell: Box<Linked>, pending: Option<Expr>) -> (Box<Linked>, Option<Expr>)
    ensures weight { linked_weight result.0.value + waiting_weight result.1
        ≡ linked_weight cell.value + waiting_weight pending }
    ensures less { waiting_weight result.1 < linked_weight cell.value }
{
    let mut cell = cell;
    let behind = mem::replace(&mut cell.next, pending);
    (cell, behind)
}

impl Expr {
    /// Its one form, lent.
    pub fn inner(&self) -> &ExprImpl
        ensures { self.now ≡ variants.Expr result.now }
    {
        match self {
            Expr::Expr(inner) => inner,
        }
    }

    /// Its one form.
    #[inline(always)]
    fn into_impl(self) -> ExprImpl
        ensures { self ≡ variants.Expr result }
    {
        match self {
            Expr::Expr(inner) => inner,
        }
    }

    /// What it holds, in its memory.
    #[tactic(auto, using(crate::proofs::Weights::expr_out))]
    #[inline(always)]
    fn cell(self) -> Box<Linked>
        ensures { expr_weight self ≡ linked_weight result.value }
    {
        self.into_impl().cell()
    }

    /// The expression that holds this.
    #[inline(always)]
    fn of_cell(cell: Box<Linked>) -> Expr
        ensures { expr_weight result ≡ linked_weight cell.value }
    {
        let expr = Boxed::from(cell);
        Expr::Expr(ExprImpl { expr })
    }

    /// What it holds, and what waits behind it.
    #[tactic(auto, using(crate::proofs::Weights::expr_out))]
    #[inline(always)]
    fn parts(self) -> (ExprData, Option<Expr>)
        ensures { expr_weight self ≡ suc (data_weight result.0 + waiting_weight result.1) }
    {
        self.into_impl().parts()
    }

    /// Lets it wait before those that wait.
    #[inline(always)]
    pub(crate) fn wait(self, pending: Option<Expr>) -> Expr
        ensures { expr_weight result ≡ expr_weight self + waiting_weight pending }
    {
        let (cell, behind) = put_before(self.cell(), pending);
        let first = Expr::of_cell(cell);
        match behind {
            None => first,
            Some(others) => others.join(first),
        }
    }

    /// Puts these before those that wait. Nothing waits behind an expression but while trees are
    /// dropped, so this is never so.
    #[cold]
    fn join(self, first: Expr) -> Expr
        ensures { expr_weight result ≡ expr_weight self + expr_weight first }
    {
        let mut row = first;
        let mut rest = self;
        'rest: loop {
            let (cell, behind) = put_before(rest.cell(), Some(row));
            row = Expr::of_cell(cell);
            match behind {
                None => return row,
                Some(others) => rest = others,
            }
        }
    }
}

/// What may be deep is taken apart by a loop; else the calls go down the tree, which is faster.
impl Drop for ExprImpl {
    #[cycle(drop)]
    fn drop(self) {
        if self.may_be_deep() {
            self.let_go();
        } else {
            let ExprImpl { expr: _ } = self;
        }
    }
}

impl Relation {
    /// Where the memory of its further parts comes from.
    pub(crate) fn alloc(&self) -> Global {
        match self {
            Relation::Common { extended, .. } => extended.alloc(),
            Relation::Has { field, .. } => field.alloc(),
            Relation::Like { pattern, .. } => pattern.alloc(),
            Relation::IsIn { entity_type, .. } => entity_type.alloc(),
        }
    }
}
