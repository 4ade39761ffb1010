//! Trees made by hand: a copy of each type equals its source, and its text under `{:#}` is that
//! under `{}`.
use super::assertions::{agrees, made, shows_alike_and_copies};
use super::names::text;
use cedar_expressions::{AddOp, TryClone};
use cedar_syntax::cst::{
    Add, And, Annotation, Cond, Expr, ExprData, ExprImpl, Ident, Literal, MemAccess, Member, Mult,
    MultOp, Name, NegOp, Or, Policies, Policy, PolicyImpl, Primary, RecInit, Ref, RefInit, RelOp,
    Relation, Slot, Str, Unary, VariableDef,
};
use cedar_syntax::node::Node;
use cedar_syntax::{Boxed, Items};
use std::fmt::Display;
use std::process::Abort;

/// A node without a place.
fn node<T>(value: T) -> Node<Option<T>> {
    Node::new(Some(value))
}

/// A list of one.
fn one<T: Drop>(rt: &(impl Abort + AllocGlobal), item: T) -> Items<T> {
    let mut items = Items::new(rt.alloc());
    made(rt, items.push(item));
    items
}

/// The value is copied, and shown under `{:#}` as under `{}`.
fn copies<T: Display + TryClone + Clone + PartialEq + Drop>(
    rt: &(impl Abort + AllocGlobal),
    value: T,
) {
    shows_alike_and_copies(rt, &value);
}

#[test]
fn words_and_names_are_copied(rt: HostRuntime) {
    copies(&rt, RelOp::Eq);
    copies(&rt, MultOp::Mod);
    copies(&rt, NegOp::OverBang);
    copies(&rt, Ident::Ident(text(&rt, "a")));
    copies(&rt, Slot::Other(text(&rt, "?a")));
    copies(&rt, Str::Invalid(text(&rt, "a")));
    copies(&rt, literal(&rt));
    copies(&rt, name(&rt));
}

#[test]
fn operators_are_copied_by_their_own_calls(rt: HostRuntime) {
    agrees(&rt, made(&rt, RelOp::In.try_clone()), RelOp::In, "in");
    agrees(&rt, made(&rt, MultOp::Mod.try_clone()), MultOp::Mod, "%");
    let signs = NegOp::Dash(3);
    agrees(&rt, made(&rt, signs.try_clone()), signs, "---");
}

/// `"a"`.
fn literal(rt: &(impl Abort + AllocGlobal)) -> Literal {
    Literal::Str(node(Str::String(text(rt, "a"))))
}

/// `A::principal`.
fn name(rt: &(impl Abort + AllocGlobal)) -> Name {
    Name {
        path: one(rt, node(Ident::Ident(text(rt, "A")))),
        name: node(Ident::Principal),
    }
}

#[test]
fn references_are_copied(rt: HostRuntime) {
    let uid = Ref::Uid {
        path: node(name(&rt)),
        eid: Node::new(None),
    };
    copies(&rt, uid);
    copies(&rt, RefInit(node(Ident::In), node(literal(&rt))));
    let field = RefInit(Node::new(None), node(literal(&rt)));
    let reference = Ref::Ref {
        path: Node::new(None),
        rinits: one(&rt, node(field)),
    };
    copies(&rt, reference);
}

#[test]
fn operands_are_copied(rt: HostRuntime) {
    copies(&rt, Primary::Slot(node(Slot::Principal)));
    copies(&rt, Primary::EList(one(&rt, nothing(&rt))));
    copies(&rt, MemAccess::Field(node(Ident::Has)));
    copies(&rt, MemAccess::Index(nothing(&rt)));
    copies(&rt, MemAccess::Call(one(&rt, nothing(&rt))));
    copies(&rt, RecInit(Node::new(None), nothing(&rt)));
}

/// A sum that holds nothing.
fn boxed(rt: &(impl Abort + AllocGlobal)) -> Boxed<Node<Option<Add>>> {
    let add = Add {
        initial: Node::new(None),
        extended: Items::new(rt.alloc()),
    };
    made(rt, Boxed::new(rt.alloc(), node(add)))
}

#[test]
fn relations_are_copied(rt: HostRuntime) {
    let has = Relation::Has {
        target: Node::new(None),
        field: boxed(&rt),
    };
    copies(&rt, has);
    let like = Relation::Like {
        target: Node::new(None),
        pattern: boxed(&rt),
    };
    copies(&rt, like);
    let is_in = Relation::IsIn {
        target: Node::new(None),
        entity_type: boxed(&rt),
        in_entity: Some(boxed(&rt)),
    };
    copies(&rt, is_in);
}

#[test]
fn chains_are_copied(rt: HostRuntime) {
    let or = Or {
        initial: Node::new(None),
        extended: one(&rt, Node::new(None)),
    };
    copies(&rt, or);
    let and = And {
        initial: Node::new(None),
        extended: one(&rt, Node::new(None)),
    };
    copies(&rt, and);
    let relation = Relation::Common {
        initial: Node::new(None),
        extended: one(&rt, (RelOp::Less, Node::new(None))),
    };
    copies(&rt, relation);
    let add = Add {
        initial: Node::new(None),
        extended: one(&rt, (AddOp::Minus, Node::new(None))),
    };
    copies(&rt, add);
}

#[test]
fn products_and_their_parts_are_copied(rt: HostRuntime) {
    let mult = Mult {
        initial: Node::new(None),
        extended: one(&rt, (MultOp::Divide, Node::new(None))),
    };
    copies(&rt, mult);
    let unary = Unary {
        op: Some(NegOp::Bang(2)),
        item: Node::new(None),
    };
    copies(&rt, unary);
    let member = Member {
        item: Node::new(None),
        access: one(&rt, node(MemAccess::Field(node(Ident::In)))),
    };
    copies(&rt, member);
}

#[test]
fn expressions_are_copied(rt: HostRuntime) {
    copies(&rt, choice(&rt));
    copies(&rt, made(&rt, ExprImpl::new(rt.alloc(), choice(&rt))));
    let expr = made(&rt, ExprImpl::new(rt.alloc(), choice(&rt)));
    copies(&rt, Expr::Expr(expr));
}

/// An `if` that holds nothing.
fn choice(rt: &(impl Abort + AllocGlobal)) -> ExprData {
    ExprData::If(nothing(rt), Node::new(None), nothing(rt))
}

/// An annotation without a value.
fn annotation() -> Annotation {
    Annotation {
        key: node(Ident::Is),
        value: None,
    }
}

/// `principal == 1`.
fn variable(expr: Node<Option<Expr>>) -> VariableDef {
    VariableDef {
        variable: node(Ident::Principal),
        unused_type_name: None,
        entity_type: None,
        ineq: Some((RelOp::Eq, expr)),
    }
}

/// `when { .. }`.
fn condition(expr: Node<Option<Expr>>) -> Cond {
    Cond {
        cond: node(Ident::When),
        expr: Some(expr),
    }
}

/// A policy of one annotation, one variable and one condition.
fn policy_impl(rt: &(impl Abort + AllocGlobal)) -> PolicyImpl {
    PolicyImpl {
        annotations: one(rt, node(annotation())),
        effect: node(Ident::Permit),
        variables: one(rt, node(variable(nothing(rt)))),
        conds: one(rt, node(condition(nothing(rt)))),
    }
}

#[test]
fn policies_are_copied(rt: HostRuntime) {
    copies(&rt, annotation());
    copies(&rt, variable(nothing(&rt)));
    copies(&rt, condition(nothing(&rt)));
    copies(&rt, policy_impl(&rt));
    copies(&rt, Policy::Policy(policy_impl(&rt)));
    let policy = node(Policy::Policy(policy_impl(&rt)));
    copies(&rt, Policies(one(&rt, policy)));
}

/// An expression that holds nothing.
fn nothing(rt: &(impl Abort + AllocGlobal)) -> Node<Option<Expr>> {
    let expr = made(rt, ExprImpl::new(rt.alloc(), ExprData::Or(Node::new(None))));
    node(Expr::Expr(expr))
}
