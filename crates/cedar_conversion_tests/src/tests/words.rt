//! Words that no text gives: spellings that are no identifiers, and words that are spelled and so
//! are none of the words that mean something.
use super::assertions::{made, refusal, says};
use super::places::{place, text};
use super::policies::{id, no_styles};
use super::policy_trees::{parts, spans, tells, tree, word};
use super::trees::{accessed, expr, hinders_whole, named, node, number, sum};
use cedar_policy_parser::cst_to_ast::{AnnotationAst, IdentAst, PolicyAst, PolicyImplAst};
use cedar_syntax::Items;
use cedar_syntax::cst::{Annotation, Cond, Ident, MemAccess, VariableDef};
use cedar_syntax::err::Failure;
use cedar_syntax::loc::Loc;
use cedar_syntax::node::Node;
use std::process::Abort;

/// Spellings that are no identifiers, whether the word is made as one that isn't valid, and what
/// is said of it.
const NO_IDENTIFIERS: [(&str, bool, &str); 3] = [
    ("", false, "invalid identifier: "),
    ("a b", false, "invalid identifier: a b"),
    ("x", true, "invalid identifier: x"),
];

/// A word that is spelled so.
fn spelled(rt: &(impl Abort + AllocGlobal), spelling: &str, is_invalid: bool) -> Ident {
    let spelling = text(rt, spelling);
    match is_invalid {
        true => Ident::Invalid(spelling),
        false => Ident::Ident(spelling),
    }
}

/// The failure is of a word at the bytes 3..5 alone, and says this.
fn is_of_word(rt: &(impl Abort + AllocGlobal), failure: Failure, message: &str) {
    spans(rt, &failure, &[(3, 5)]);
    says(rt, failure, message);
}

#[test]
fn no_identifier_is_refused_by_both_calls(rt: HostRuntime) {
    for (spelling, is_invalid, message) in &NO_IDENTIFIERS {
        let ident = spelled(&rt, spelling, *is_invalid);
        let node = Node::with_source_loc(Some(ident), place(&rt, 3, 5));
        is_of_word(&rt, refusal(&rt, node.to_valid_ident(rt.alloc())), message);
        is_of_word(&rt, refusal(&rt, node.to_any_ident(rt.alloc())), message);
        drop(node);
    }
}

#[test]
fn no_identifier_is_refused_as_a_name_or_a_field(rt: HostRuntime) {
    for (spelling, is_invalid, message) in &NO_IDENTIFIERS {
        let name = named(&rt, spelled(&rt, spelling, *is_invalid));
        hinders_whole(&rt, expr(&rt, sum(&rt, None, name)), message);
        let mut access = Items::new(rt.alloc());
        let field = MemAccess::Field(node(spelled(&rt, spelling, *is_invalid)));
        made(&rt, access.push(node(field)));
        let principal = named(&rt, Ident::Principal);
        let sum = accessed(&rt, None, principal, access);
        hinders_whole(&rt, expr(&rt, sum), message);
    }
}

#[test]
fn no_identifier_is_refused_as_an_annotation(rt: HostRuntime) {
    for (spelling, is_invalid, message) in &NO_IDENTIFIERS {
        let itself = |text: Option<String>, _loc: Option<&Loc>| text;
        let ident = spelled(&rt, spelling, *is_invalid);
        let annotation = Annotation {
            key: Node::with_source_loc(Some(ident), place(&rt, 3, 5)),
            value: None,
        };
        let node = node(annotation);
        is_of_word(
            &rt,
            refusal(&rt, node.to_kv_pair(rt.alloc(), itself)),
            message,
        );
        drop(node);
    }
}

#[test]
fn a_spelled_variable_is_a_name(rt: HostRuntime) {
    let name = named(&rt, Ident::Ident(text(&rt, "principal")));
    let expr = expr(&rt, sum(&rt, None, name));
    hinders_whole(&rt, expr, "invalid variable: principal");
}

#[test]
fn a_spelled_variable_is_none_of_the_scope(rt: HostRuntime) {
    let styles = no_styles(&rt);
    let resource = VariableDef {
        variable: word(&rt, "resource", 26, 34),
        unused_type_name: None,
        entity_type: None,
        ineq: None,
    };
    let mut parts = parts(&rt, "permit(principal, action, resource);");
    drop(parts.variables.pop());
    made(&rt, parts.variables.push(node(resource)));
    let failure = refusal(&rt, parts.extract_scope(rt.alloc(), &styles));
    let told = "26..34: found an invalid variable in the policy scope: resource";
    tells(&rt, failure, told);
    drop((styles, parts));
}

#[test]
fn a_spelled_condition_is_none(rt: HostRuntime) {
    let styles = no_styles(&rt);
    let cond = Cond {
        cond: word(&rt, "when", 36, 40),
        expr: Some(expr(&rt, sum(&rt, None, number(1)))),
    };
    let mut parts = parts(&rt, "permit(principal, action, resource);");
    made(&rt, parts.conds.push(node(cond)));
    let failure = refusal(&rt, tree(parts).to_template(rt.alloc(), id(&rt), &styles));
    tells(&rt, failure, "36..40: invalid policy condition: when");
    drop(styles);
}
