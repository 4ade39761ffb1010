//! The conversions of trees and of their parts.

use crate::counted::{Counted, CountingBuilder};
use crate::faults::{Told, tell_failure};
use crate::kept::{Added, PolicyIds, SharedTree};
use crate::policy_parts::{
    ExtractScope, GetAstAnnotations, ToKvPair, ToPolicy, ToPolicyOrTemplate, ToPolicyTemplate,
    ToTemplate,
};
use crate::reports::report;
use crate::tables::styles;
use crate::trees::{Tree, add_again};
use cedar_expressions::{ExprBuilder, TryClone, Var};
use cedar_policy_parser::cst_to_ast::{
    ExprAst, IdentAst, MemberAst, OneOrMultipleRefs, PrimaryAst, RefAst,
};
use cedar_syntax::cst::{Expr, ExprData, Ident, Member, Primary, Ref, Relation};
use cedar_syntax::err::Failure;
use cedar_syntax::node::Node;
use std::alloc::{AllocError, Global};
use std::fmt::Display;

/// The calls that there are.
#[derive(Clone, Copy)]
pub(crate) enum PartCall {
    ExprToRef,
    ExprToRefOrSlot,
    ExprToRefs,
    BuilderCalls,
    MemberToLit,
    PrimaryToStringLiteral,
    RefToRef,
    IdentToValidIdent,
    IdentToAnyIdent,
    AnnotationToKvPair,
    GetAstAnnotations,
    ExtractScope,
    PolicyToTemplate,
    PolicyToPolicyTemplate,
    PolicyToPolicyOrTemplate,
    PolicyToPolicy,
    GeneratedPolicyIds,
    SharedTree,
    Added,
}

/// What a call gives for the tree of a text: a value, or faults. The words name the variable that
/// is referred to, or what may be called.
pub(crate) fn answer(
    alloc: Global,
    call: PartCall,
    words: &str,
    text: &str,
) -> Result<String, AllocError> {
    match call {
        PartCall::ExprToRef => convert::<ToRef>(alloc, words, text),
        PartCall::ExprToRefOrSlot => convert::<ToRefOrSlot>(alloc, words, text),
        PartCall::ExprToRefs => convert::<ToRefs>(alloc, words, text),
        PartCall::BuilderCalls => convert::<BuilderCalls>(alloc, words, text),
        PartCall::MemberToLit => convert::<ToLit>(alloc, words, text),
        PartCall::PrimaryToStringLiteral => convert::<ToStringLiteral>(alloc, words, text),
        PartCall::RefToRef => convert::<RefToRef>(alloc, words, text),
        PartCall::IdentToValidIdent => convert::<ToValidIdent>(alloc, words, text),
        PartCall::IdentToAnyIdent => convert::<ToAnyIdent>(alloc, words, text),
        PartCall::AnnotationToKvPair => convert::<ToKvPair>(alloc, words, text),
        PartCall::GetAstAnnotations => convert::<GetAstAnnotations>(alloc, words, text),
        PartCall::ExtractScope => convert::<ExtractScope>(alloc, words, text),
        PartCall::PolicyToTemplate => convert::<ToTemplate>(alloc, words, text),
        PartCall::PolicyToPolicyTemplate => convert::<ToPolicyTemplate>(alloc, words, text),
        PartCall::PolicyToPolicyOrTemplate => convert::<ToPolicyOrTemplate>(alloc, words, text),
        PartCall::PolicyToPolicy => convert::<ToPolicy>(alloc, words, text),
        PartCall::GeneratedPolicyIds => convert::<PolicyIds>(alloc, words, text),
        PartCall::SharedTree => convert::<SharedTree>(alloc, words, text),
        PartCall::Added => convert::<Added>(alloc, words, text),
    }
}

/// Why a text has no tree for a call, if it hasn't; the call is made where it has.
pub(crate) fn refusal(alloc: Global, call: PartCall, words: &str, text: &str) -> Option<Failure> {
    match call {
        PartCall::ExprToRef => hindrance::<ToRef>(alloc, words, text),
        PartCall::ExprToRefOrSlot => hindrance::<ToRefOrSlot>(alloc, words, text),
        PartCall::ExprToRefs => hindrance::<ToRefs>(alloc, words, text),
        PartCall::BuilderCalls => hindrance::<BuilderCalls>(alloc, words, text),
        PartCall::MemberToLit => hindrance::<ToLit>(alloc, words, text),
        PartCall::PrimaryToStringLiteral => hindrance::<ToStringLiteral>(alloc, words, text),
        PartCall::RefToRef => hindrance::<RefToRef>(alloc, words, text),
        PartCall::IdentToValidIdent => hindrance::<ToValidIdent>(alloc, words, text),
        PartCall::IdentToAnyIdent => hindrance::<ToAnyIdent>(alloc, words, text),
        PartCall::AnnotationToKvPair => hindrance::<ToKvPair>(alloc, words, text),
        PartCall::GetAstAnnotations => hindrance::<GetAstAnnotations>(alloc, words, text),
        PartCall::ExtractScope => hindrance::<ExtractScope>(alloc, words, text),
        PartCall::PolicyToTemplate => hindrance::<ToTemplate>(alloc, words, text),
        PartCall::PolicyToPolicyTemplate => hindrance::<ToPolicyTemplate>(alloc, words, text),
        PartCall::PolicyToPolicyOrTemplate => hindrance::<ToPolicyOrTemplate>(alloc, words, text),
        PartCall::PolicyToPolicy => hindrance::<ToPolicy>(alloc, words, text),
        PartCall::GeneratedPolicyIds => hindrance::<PolicyIds>(alloc, words, text),
        PartCall::SharedTree => hindrance::<SharedTree>(alloc, words, text),
        PartCall::Added => hindrance::<Added>(alloc, words, text),
    }
}

/// A call on the tree of a text.
pub(crate) trait Conversion {
    type From: Tree;

    fn tell(
        alloc: Global,
        words: &str,
        node: &Node<Option<Self::From>>,
    ) -> Result<String, AllocError>;
}

fn convert<C: Conversion>(alloc: Global, words: &str, text: &str) -> Result<String, AllocError> {
    match C::From::read(alloc, text) {
        Ok(node) => {
            let mut lines = C::tell(alloc, words, &node)?;
            add_again(alloc, &mut lines, &node)?;
            Ok(lines)
        }
        Err(failure) => tell_failure(alloc, Told::Message, failure),
    }
}

fn hindrance<C: Conversion>(alloc: Global, words: &str, text: &str) -> Option<Failure> {
    attempt::<C>(alloc, words, text).err()
}

/// Makes the call where the text has a tree, and lets go what is told of it.
fn attempt<C: Conversion>(alloc: Global, words: &str, text: &str) -> Result<(), Failure> {
    let node = C::From::read(alloc, text)?;
    let told = C::tell(alloc, words, &node);
    drop(node);
    drop(told?);
    Ok(())
}

/// The value's text, or the faults.
pub(crate) fn value<T: Display + TryClone + Clone + PartialEq + Drop>(
    alloc: Global,
    answer: Result<T, Failure>,
) -> Result<String, AllocError> {
    match answer {
        Ok(value) => report(alloc, &value),
        Err(failure) => tell_failure(alloc, Told::Message, failure),
    }
}

/// The variable that the words name; the action where they name none.
fn var_of(words: &str) -> Var {
    match words {
        "principal" => Var::Principal,
        "resource" => Var::Resource,
        "context" => Var::Context,
        _ => Var::Action,
    }
}

struct ToRef;

impl Conversion for ToRef {
    type From = Expr;

    fn tell(alloc: Global, words: &str, node: &Node<Option<Expr>>) -> Result<String, AllocError> {
        value(alloc, node.to_ref(alloc, var_of(words)))
    }
}

struct ToRefOrSlot;

impl Conversion for ToRefOrSlot {
    type From = Expr;

    fn tell(alloc: Global, words: &str, node: &Node<Option<Expr>>) -> Result<String, AllocError> {
        value(alloc, node.to_ref_or_slot(alloc, var_of(words)))
    }
}

struct ToRefs;

impl Conversion for ToRefs {
    type From = Expr;

    fn tell(alloc: Global, words: &str, node: &Node<Option<Expr>>) -> Result<String, AllocError> {
        match node.to_refs(alloc, var_of(words)) {
            Ok(OneOrMultipleRefs::Single(entity)) => report(alloc, &entity),
            Ok(OneOrMultipleRefs::Multiple(entities)) => list_text(alloc, entities.as_slice()),
            Err(failure) => tell_failure(alloc, Told::Message, failure),
        }
    }
}

/// The items' texts in brackets.
fn list_text<T: Display>(alloc: Global, items: &[T]) -> Result<String, AllocError> {
    let mut text = String::from_str(alloc, "[")?;
    let mut comma = "";
    for item in items {
        let item = format!(in alloc; "{comma}{item}")?;
        text.push_str(item.as_str())?;
        comma = ", ";
    }
    text.push(']')?;
    Ok(text)
}

struct BuilderCalls;

impl Conversion for BuilderCalls {
    type From = Expr;

    fn tell(alloc: Global, words: &str, node: &Node<Option<Expr>>) -> Result<String, AllocError> {
        let styles = styles(alloc, words)?;
        let answer = node.to_expr::<CountingBuilder<ExprBuilder<()>>>(alloc, &styles);
        drop(styles);
        count_calls(alloc, answer)
    }
}

/// How many calls of the builder made an expression.
fn count_calls<E: Drop>(
    alloc: Global,
    answer: Result<Counted<E>, Failure>,
) -> Result<String, AllocError> {
    match answer {
        Ok(counted) => format!(in alloc; "{}", counted.nodes()),
        Err(failure) => tell_failure(alloc, Told::Message, failure),
    }
}

struct ToLit;

impl Conversion for ToLit {
    type From = Expr;

    fn tell(alloc: Global, _words: &str, node: &Node<Option<Expr>>) -> Result<String, AllocError> {
        let Some(member) = member_of(node) else {
            return String::from_str(alloc, "no member");
        };
        match member.to_lit() {
            Some(literal) => report(alloc, literal),
            None => String::from_str(alloc, "None"),
        }
    }
}

/// The member that an expression is, if it is one without operators.
fn member_of(node: &Node<Option<Expr>>) -> Option<&Node<Option<Member>>> {
    let Expr::Expr(whole) = node.as_inner()?;
    let ExprData::Or(or) = whole.as_ref() else {
        return None;
    };
    let and = &or.as_inner()?.initial;
    let Relation::Common { initial: sum, .. } = and.as_inner()?.initial.as_inner()? else {
        return None;
    };
    let product = &sum.as_inner()?.initial;
    Some(&product.as_inner()?.initial.as_inner()?.item)
}

struct ToStringLiteral;

impl Conversion for ToStringLiteral {
    type From = Primary;

    fn tell(
        alloc: Global,
        _words: &str,
        node: &Node<Option<Primary>>,
    ) -> Result<String, AllocError> {
        match node.to_string_literal::<ExprBuilder<()>>(alloc) {
            Ok(text) => Ok(text),
            Err(failure) => tell_failure(alloc, Told::Message, failure),
        }
    }
}

struct RefToRef;

impl Conversion for RefToRef {
    type From = Ref;

    fn tell(alloc: Global, _words: &str, node: &Node<Option<Ref>>) -> Result<String, AllocError> {
        value(alloc, node.to_ref(alloc))
    }
}

struct ToValidIdent;

impl Conversion for ToValidIdent {
    type From = Ident;

    fn tell(alloc: Global, _words: &str, node: &Node<Option<Ident>>) -> Result<String, AllocError> {
        value(alloc, node.to_valid_ident(alloc))
    }
}

struct ToAnyIdent;

impl Conversion for ToAnyIdent {
    type From = Ident;

    fn tell(alloc: Global, _words: &str, node: &Node<Option<Ident>>) -> Result<String, AllocError> {
        value(alloc, node.to_any_ident(alloc))
    }
}
