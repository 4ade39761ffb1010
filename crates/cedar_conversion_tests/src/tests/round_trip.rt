//! The trees of texts. What a tree is printed as is read again by the same call, and is the same
//! tree, places aside, with the same text: each test that wants a tree of a text has it from here.
use super::assertions::{holds_for, made, shows};
use cedar_syntax::cst::{Expr, Ident, Name, Policies, Policy, Primary, Ref};
use cedar_syntax::err::Failure;
use cedar_syntax::node::Node;
use cedar_text::text_to_cst::{
    parse_expr, parse_ident, parse_name, parse_policies, parse_policy, parse_primary, parse_ref,
};
use std::alloc::Global;
use std::fmt;
use std::process::Abort;

/// A tree, and the call that reads a text as one.
pub(super) trait Tree: fmt::Display + PartialEq + Drop {
    fn read(alloc: Global, text: &str) -> Result<Node<Option<Self>>, Failure>;
}

impl Tree for Expr {
    fn read(alloc: Global, text: &str) -> Result<Node<Option<Expr>>, Failure> {
        parse_expr(alloc, text)
    }
}

impl Tree for Primary {
    fn read(alloc: Global, text: &str) -> Result<Node<Option<Primary>>, Failure> {
        parse_primary(alloc, text)
    }
}

impl Tree for Ref {
    fn read(alloc: Global, text: &str) -> Result<Node<Option<Ref>>, Failure> {
        parse_ref(alloc, text)
    }
}

impl Tree for Name {
    fn read(alloc: Global, text: &str) -> Result<Node<Option<Name>>, Failure> {
        parse_name(alloc, text)
    }
}

impl Tree for Ident {
    fn read(alloc: Global, text: &str) -> Result<Node<Option<Ident>>, Failure> {
        parse_ident(alloc, text)
    }
}

impl Tree for Policy {
    fn read(alloc: Global, text: &str) -> Result<Node<Option<Policy>>, Failure> {
        parse_policy(alloc, text)
    }
}

impl Tree for Policies {
    fn read(alloc: Global, text: &str) -> Result<Node<Option<Policies>>, Failure> {
        parse_policies(alloc, text)
    }
}

/// What a node holds.
pub(super) fn inside<'a, T>(rt: &impl Abort, node: &'a Node<Option<T>>) -> &'a T {
    node.as_inner().expect(rt, "an empty node")
}

/// The tree of a text, printed and read again, is the same.
fn is_read_again<T: Tree>(rt: &(impl Abort + AllocGlobal), tree: &Node<Option<T>>, text: &str) {
    let whole = inside(rt, tree);
    let printed = made(rt, format!(in rt.alloc(); "{whole}"));
    let again = made(rt, T::read(rt.alloc(), printed.as_str()));
    holds_for(rt, again == *tree, &text);
    shows(rt, inside(rt, &again), printed.as_str());
}

/// The tree of a text that has one.
pub(super) fn tree_of<T: Tree>(rt: &(impl Abort + AllocGlobal), text: &str) -> Node<Option<T>> {
    let tree = made(rt, T::read(rt.alloc(), text));
    is_read_again(rt, &tree, text);
    tree
}

/// The text has a tree.
pub(super) fn has_tree<T: Tree>(rt: &(impl Abort + AllocGlobal), text: &str) {
    drop(tree_of::<T>(rt, text));
}

/// The text has a tree with this text.
pub(super) fn prints<T: Tree>(rt: &(impl Abort + AllocGlobal), text: &str, printed: &str) {
    let tree = tree_of::<T>(rt, text);
    shows(rt, inside(rt, &tree), printed);
}
