//! The calls that read a text as a tree. What a tree is printed as is read again by the same call,
//! and has to be the same tree, places aside; and it nests no deeper than is told of the text.

use crate::faults::{Told, tell_failure};
use crate::nested::add_nesting;
use crate::reports::{add, report};
use cedar_syntax::TryClone;
use cedar_syntax::cst::{Expr, Ident, Name, Policies, Policy, Primary, Ref};
use cedar_syntax::err::Failure;
use cedar_syntax::node::Node;
use cedar_text::text_to_cst::{
    parse_expr, parse_ident, parse_name, parse_policies, parse_policy, parse_primary, parse_ref,
};
use std::alloc::{AllocError, Global};
use std::fmt::Display;

/// A tree, and the call that reads a text as one.
pub(crate) trait Tree: Display + TryClone + Clone + PartialEq + Drop {
    fn read(alloc: Global, text: &str) -> Result<Node<Option<Self>>, Failure>;
}

impl Tree for Expr {
    fn read(alloc: Global, text: &str) -> Result<Node<Option<Expr>>, Failure> {
        parse_expr(alloc, text)
    }
}

impl Tree for Primary {
    fn read(alloc: Global, text: &str) -> Result<Node<Option<Primary>>, Failure> {
        parse_primary(alloc, text)
    }
}

impl Tree for Ref {
    fn read(alloc: Global, text: &str) -> Result<Node<Option<Ref>>, Failure> {
        parse_ref(alloc, text)
    }
}

impl Tree for Name {
    fn read(alloc: Global, text: &str) -> Result<Node<Option<Name>>, Failure> {
        parse_name(alloc, text)
    }
}

impl Tree for Ident {
    fn read(alloc: Global, text: &str) -> Result<Node<Option<Ident>>, Failure> {
        parse_ident(alloc, text)
    }
}

impl Tree for Policy {
    fn read(alloc: Global, text: &str) -> Result<Node<Option<Policy>>, Failure> {
        parse_policy(alloc, text)
    }
}

impl Tree for Policies {
    fn read(alloc: Global, text: &str) -> Result<Node<Option<Policies>>, Failure> {
        parse_policies(alloc, text)
    }
}

/// The calls that there are.
#[derive(Clone, Copy)]
pub(crate) enum TreeCall {
    Expr,
    Primary,
    Ref,
    Name,
    Ident,
    Policy,
    Policies,
}

/// What a call gives for a text: the tree's text, or all that is told of the faults. Behind the
/// word `place` the tree's bytes stand before its text.
pub(crate) fn answer(
    alloc: Global,
    call: TreeCall,
    words: &str,
    text: &str,
) -> Result<String, AllocError> {
    match call {
        TreeCall::Expr => read_as::<Expr>(alloc, words, text),
        TreeCall::Primary => read_as::<Primary>(alloc, words, text),
        TreeCall::Ref => read_as::<Ref>(alloc, words, text),
        TreeCall::Name => read_as::<Name>(alloc, words, text),
        TreeCall::Ident => read_as::<Ident>(alloc, words, text),
        TreeCall::Policy => read_as::<Policy>(alloc, words, text),
        TreeCall::Policies => read_as::<Policies>(alloc, words, text),
    }
}

/// Why a call refuses a text, if it does.
pub(crate) fn refusal(alloc: Global, call: TreeCall, text: &str) -> Option<Failure> {
    match call {
        TreeCall::Expr => Expr::read(alloc, text).err(),
        TreeCall::Primary => Primary::read(alloc, text).err(),
        TreeCall::Ref => Ref::read(alloc, text).err(),
        TreeCall::Name => Name::read(alloc, text).err(),
        TreeCall::Ident => Ident::read(alloc, text).err(),
        TreeCall::Policy => Policy::read(alloc, text).err(),
        TreeCall::Policies => Policies::read(alloc, text).err(),
    }
}

fn read_as<T: Tree>(alloc: Global, words: &str, text: &str) -> Result<String, AllocError> {
    match T::read(alloc, text) {
        Ok(node) => {
            let mut lines = show::<T>(alloc, words, &node)?;
            add_nesting(alloc, &mut lines, text, &node)?;
            Ok(lines)
        }
        Err(failure) => tell_failure(alloc, Told::All, failure),
    }
}

fn show<T: Tree>(alloc: Global, words: &str, node: &Node<Option<T>>) -> Result<String, AllocError> {
    let Some(tree) = node.as_inner() else {
        return String::from_str(alloc, "an empty node");
    };
    let mut lines = report(alloc, tree)?;
    add_again(alloc, &mut lines, node)?;
    match &node.loc {
        Some(loc) if words == "place" => {
            format!(in alloc; "{}..{}\n{lines}", loc.start(), loc.end())
        }
        _ => Ok(lines),
    }
}

/// Puts a line behind those that are there where the text has a tree that isn't read again, or
/// that nests deeper than is told.
pub(crate) fn reads_again<T: Tree>(
    alloc: Global,
    lines: &mut String,
    text: &str,
) -> Result<(), AllocError> {
    match T::read(alloc, text) {
        Ok(node) => {
            add_again(alloc, lines, &node)?;
            add_nesting(alloc, lines, text, &node)
        }
        Err(failure) => {
            drop(failure);
            Ok(())
        }
    }
}

/// Puts a line behind those that are there where what the tree is printed as isn't read as the
/// same tree.
pub(crate) fn add_again<T: Tree>(
    alloc: Global,
    lines: &mut String,
    node: &Node<Option<T>>,
) -> Result<(), AllocError> {
    match node.as_inner() {
        Some(tree) if !is_read_again(alloc, node, tree)? => add(lines, "read again it differs"),
        _ => Ok(()),
    }
}

/// Whether the tree's text is a text of the same tree.
fn is_read_again<T: Tree>(
    alloc: Global,
    node: &Node<Option<T>>,
    tree: &T,
) -> Result<bool, AllocError> {
    let printed = format!(in alloc; "{tree}")?;
    match T::read(alloc, printed.as_str()) {
        Ok(again) => Ok(again == *node),
        Err(Failure::Memory(error)) => Err(error),
        Err(Failure::Errors(faults)) => {
            drop(faults);
            Ok(false)
        }
    }
}
