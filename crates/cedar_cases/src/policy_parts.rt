//! The conversions of policies and of their parts.

use crate::faults::{Told, tell_failure};
use crate::parts::Conversion;
use crate::policies::policy_text;
use crate::reports::{add, copies};
use crate::tables::{has_word, styles};
use crate::values::value_text;
use cedar_expressions::{AnyId, TryClone};
use cedar_policy_parser::cst_to_ast::{AnnotationAst, PolicyAst, PolicyImplAst};
use cedar_policy_store::{PolicyID, StaticPolicy, Template};
use cedar_syntax::cst::{Annotation, Policy, PolicyImpl};
use cedar_syntax::err::Failure;
use cedar_syntax::loc::Loc;
use cedar_syntax::node::Node;
use either::Either;
use std::alloc::{AllocError, Global};
use std::collections::BTreeMap;
use std::fmt::Display;

/// What a policy's tree holds.
fn parts_of(node: &Node<Option<Policy>>) -> Option<&PolicyImpl> {
    let Policy::Policy(parts) = node.as_inner()?;
    Some(parts)
}

/// The call of this name.
pub(crate) struct ToKvPair;

impl Conversion for ToKvPair {
    type From = Policy;

    fn tell(
        alloc: Global,
        _words: &str,
        node: &Node<Option<Policy>>,
    ) -> Result<String, AllocError> {
        let mut lines = String::new(alloc);
        if let Some(parts) = parts_of(node) {
            for annotation in parts.annotations.as_slice() {
                let line = annotation_text(alloc, annotation)?;
                add(&mut lines, line.as_str())?;
            }
        }
        Ok(lines)
    }
}

/// An annotation's key and what it says, or its faults.
fn annotation_text(
    alloc: Global,
    annotation: &Node<Option<Annotation>>,
) -> Result<String, AllocError> {
    let itself = |text: Option<String>, _loc: Option<&Loc>| text;
    match annotation.to_kv_pair(alloc, itself) {
        Ok((key, text)) => key_line(alloc, &key, &text),
        Err(failure) => tell_failure(alloc, Told::Message, failure),
    }
}

/// A key and what is said of it, as far as anything is.
fn key_line(alloc: Global, key: &AnyId, text: &Option<String>) -> Result<String, AllocError> {
    match text {
        Some(text) => format!(in alloc; "{key} \"{text}\""),
        None => format!(in alloc; "{key}"),
    }
}

/// The call of this name.
pub(crate) struct GetAstAnnotations;

impl Conversion for GetAstAnnotations {
    type From = Policy;

    fn tell(
        alloc: Global,
        _words: &str,
        node: &Node<Option<Policy>>,
    ) -> Result<String, AllocError> {
        let Some(parts) = parts_of(node) else {
            return String::from_str(alloc, "an empty node");
        };
        let itself = |text: Option<String>, _loc: Option<&Loc>| text;
        match parts.get_ast_annotations(alloc, itself) {
            Ok(by_key) => annotations_text(alloc, &by_key),
            Err(failure) => tell_failure(alloc, Told::Message, failure),
        }
    }
}

/// A line for each annotation, in the order of the keys.
fn annotations_text(
    alloc: Global,
    by_key: &BTreeMap<AnyId, Option<String>>,
) -> Result<String, AllocError> {
    let mut lines = String::new(alloc);
    for (key, text) in by_key.iter() {
        let line = key_line(alloc, key, text)?;
        add(&mut lines, line.as_str())?;
    }
    Ok(lines)
}

/// The call of this name.
pub(crate) struct ExtractScope;

impl Conversion for ExtractScope {
    type From = Policy;

    fn tell(alloc: Global, words: &str, node: &Node<Option<Policy>>) -> Result<String, AllocError> {
        let Some(parts) = parts_of(node) else {
            return String::from_str(alloc, "an empty node");
        };
        let styles = styles(alloc, words)?;
        let scope = parts.extract_scope(alloc, &styles);
        drop(styles);
        scope_text(alloc, scope)
    }
}

/// What is asked of the principal, the action and the resource.
fn scope_text<P, A, R>(
    alloc: Global,
    scope: Result<(P, A, R), Failure>,
) -> Result<String, AllocError>
where
    P: Display + TryClone + Clone + PartialEq + Drop,
    A: Display + TryClone + Clone + PartialEq + Drop,
    R: Display + TryClone + Clone + PartialEq + Drop,
{
    match scope {
        Ok((principal, action, resource)) => {
            let mut lines = format!(in alloc; "{principal}, {action}, {resource}")?;
            copies(&mut lines, &principal)?;
            copies(&mut lines, &action)?;
            copies(&mut lines, &resource)?;
            Ok(lines)
        }
        Err(failure) => tell_failure(alloc, Told::Message, failure),
    }
}

/// The name `p`.
fn id(alloc: Global) -> Result<PolicyID, AllocError> {
    Ok(PolicyID::new(String::from_str(alloc, "p")?))
}

/// A policy or a template, as text.
trait Held: TryClone + Clone + PartialEq + Drop {
    fn text(&self, alloc: Global) -> Result<String, AllocError>;
}

impl Held for StaticPolicy {
    fn text(&self, alloc: Global) -> Result<String, AllocError> {
        policy_text(alloc, "static", self.as_template())
    }
}

impl Held for Template {
    fn text(&self, alloc: Global) -> Result<String, AllocError> {
        policy_text(alloc, "template", self)
    }
}

fn what_is_held<T: Held>(alloc: Global, answer: Result<T, Failure>) -> Result<String, AllocError> {
    match answer {
        Ok(policy) => {
            let mut lines = policy.text(alloc)?;
            copies(&mut lines, &policy)?;
            Ok(lines)
        }
        Err(failure) => tell_failure(alloc, Told::Message, failure),
    }
}

/// The value of a template's condition, with the bytes of each node.
fn condition_text(alloc: Global, answer: Result<Template, Failure>) -> Result<String, AllocError> {
    match answer {
        Ok(template) => match template.non_scope_constraints() {
            Some(condition) => value_text(alloc, condition, true),
            None => String::from_str(alloc, "no condition"),
        },
        Err(failure) => tell_failure(alloc, Told::Message, failure),
    }
}

/// The call of this name. Behind the word `places` it tells the condition alone, with the bytes of
/// each node.
pub(crate) struct ToTemplate;

impl Conversion for ToTemplate {
    type From = Policy;

    fn tell(alloc: Global, words: &str, node: &Node<Option<Policy>>) -> Result<String, AllocError> {
        let (id, styles) = (id(alloc)?, styles(alloc, words)?);
        let answer = node.to_template(alloc, id, &styles);
        drop(styles);
        if has_word(words, "places") {
            return condition_text(alloc, answer);
        }
        what_is_held::<Template>(alloc, answer)
    }
}

/// The call of this name.
pub(crate) struct ToPolicyTemplate;

impl Conversion for ToPolicyTemplate {
    type From = Policy;

    fn tell(alloc: Global, words: &str, node: &Node<Option<Policy>>) -> Result<String, AllocError> {
        let (id, styles) = (id(alloc)?, styles(alloc, words)?);
        let answer = node.to_policy_template(alloc, id, &styles);
        drop(styles);
        what_is_held::<Template>(alloc, answer)
    }
}

/// The call of this name.
pub(crate) struct ToPolicyOrTemplate;

impl Conversion for ToPolicyOrTemplate {
    type From = Policy;

    fn tell(alloc: Global, words: &str, node: &Node<Option<Policy>>) -> Result<String, AllocError> {
        let (id, styles) = (id(alloc)?, styles(alloc, words)?);
        let answer = node.to_policy_or_template(alloc, id, &styles);
        drop(styles);
        match answer {
            Ok(Either::Left(policy)) => what_is_held::<StaticPolicy>(alloc, Ok(policy)),
            Ok(Either::Right(template)) => what_is_held::<Template>(alloc, Ok(template)),
            Err(failure) => tell_failure(alloc, Told::Message, failure),
        }
    }
}

/// The call of this name.
pub(crate) struct ToPolicy;

impl Conversion for ToPolicy {
    type From = Policy;

    fn tell(alloc: Global, words: &str, node: &Node<Option<Policy>>) -> Result<String, AllocError> {
        let (id, styles) = (id(alloc)?, styles(alloc, words)?);
        let answer = node.to_policy(alloc, id, &styles);
        drop(styles);
        what_is_held::<StaticPolicy>(alloc, answer)
    }
}
