//! Trees of expressions that no text gives, and what hinders their conversion.
use super::assertions::{made, refusal, says};
use super::places::text;
use super::texts::built;
use cedar_expressions::{ExprBuilder, Var};
use cedar_policy_parser::cst_to_ast::ExprAst;
use cedar_syntax::Items;
use cedar_syntax::cst::{
    Add, And, Expr, ExprData, ExprImpl, Ident, Literal, MemAccess, Member, Mult, Name, NegOp, Or,
    Primary, Relation, Slot, Str, Unary,
};
use cedar_syntax::node::Node;
use std::process::Abort;

/// A node without a place.
pub(super) fn node<T>(value: T) -> Node<Option<T>> {
    Node::new(Some(value))
}

/// The sum that is this primary alone, with this sign.
pub(super) fn sum(
    rt: &(impl Abort + AllocGlobal),
    op: Option<NegOp>,
    primary: Node<Option<Primary>>,
) -> Node<Option<Add>> {
    accessed(rt, op, primary, Items::new(rt.alloc()))
}

/// The same with accesses behind the primary.
pub(super) fn accessed(
    rt: &(impl Abort + AllocGlobal),
    op: Option<NegOp>,
    primary: Node<Option<Primary>>,
    access: Items<Node<Option<MemAccess>>>,
) -> Node<Option<Add>> {
    let item = node(Member {
        item: primary,
        access,
    });
    let mult = Mult {
        initial: node(Unary { op, item }),
        extended: Items::new(rt.alloc()),
    };
    node(Add {
        initial: node(mult),
        extended: Items::new(rt.alloc()),
    })
}

/// The expression that is this sum alone.
pub(super) fn expr(rt: &(impl Abort + AllocGlobal), sum: Node<Option<Add>>) -> Node<Option<Expr>> {
    let relation = Relation::Common {
        initial: sum,
        extended: Items::new(rt.alloc()),
    };
    related(rt, relation)
}

/// The expression that is this relation alone.
pub(super) fn related(rt: &(impl Abort + AllocGlobal), relation: Relation) -> Node<Option<Expr>> {
    let and = And {
        initial: node(relation),
        extended: Items::new(rt.alloc()),
    };
    let or = Or {
        initial: node(and),
        extended: Items::new(rt.alloc()),
    };
    node(Expr::Expr(made(rt, ExprImpl::new(rt.alloc(), ExprData::Or(node(or))))))
}

/// The primary that is this word alone.
pub(super) fn named(rt: &impl AllocGlobal, word: Ident) -> Node<Option<Primary>> {
    let name = Name {
        path: Items::new(rt.alloc()),
        name: node(word),
    };
    node(Primary::Name(node(name)))
}

/// The primary that is this string.
pub(super) fn string(string: Str) -> Node<Option<Primary>> {
    node(Primary::Literal(node(Literal::Str(node(string)))))
}

/// The primary that is this number.
pub(super) fn number(value: u64) -> Node<Option<Primary>> {
    node(Primary::Literal(node(Literal::Num(value))))
}

/// The conversion of an expression is refused, and says this.
pub(super) fn hinders_whole(
    rt: &(impl Abort + AllocGlobal),
    expr: Node<Option<Expr>>,
    message: &str,
) {
    let answer = built::<ExprBuilder<()>>(rt.alloc(), &expr);
    drop(expr);
    says(rt, refusal(rt, answer), message);
}

/// The conversion of the expression that is this primary alone is refused, and says this.
fn hinders(rt: &(impl Abort + AllocGlobal), primary: Node<Option<Primary>>, message: &str) {
    hinders_whole(rt, expr(rt, sum(rt, None, primary)), message);
}

#[test]
fn what_no_text_has_is_told(rt: HostRuntime) {
    let empty = "internal invariant violated. Parsed data node should not be empty";
    hinders(&rt, Node::new(None), empty);
    hinders(&rt, node(Primary::Literal(Node::new(None))), empty);
    hinders(&rt, node(Primary::Slot(Node::new(None))), empty);
    let invalid = string(Str::Invalid(text(&rt, "a\"b")));
    hinders(&rt, invalid, "invalid string literal: a\"b");
    let slot = node(Primary::Slot(node(Slot::Other(text(&rt, "?x")))));
    hinders(&rt, slot, "`?x` is not a valid template slot");
}

#[test]
fn an_empty_name_is_told_as_a_name(rt: HostRuntime) {
    let name = node(Primary::Name(Node::new(None)));
    let expr = expr(&rt, sum(&rt, None, name));
    let failure = refusal(&rt, expr.to_ref_or_slot(rt.alloc(), Var::Principal));
    drop(expr);
    let told = "expected an entity uid or matching template slot, found name";
    says(&rt, failure, told);
}
