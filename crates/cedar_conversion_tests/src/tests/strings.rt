//! Strings that no text gives, wherever one may stand.
use super::assertions::{made, refusal, says};
use super::places::{place, text};
use super::policies::{id, no_styles};
use super::policy_trees::{parts, tells, tree};
use super::trees::{accessed, expr, hinders_whole, named, node, related, string, sum};
use cedar_expressions::{ExprBuilder, Var};
use cedar_policy_parser::cst_to_ast::{
    AnnotationAst, ExprAst, PolicyAst, PolicyImplAst, PrimaryAst, RefAst,
};
use cedar_syntax::cst::{Annotation, Expr, Ident, MemAccess, Name, Primary, Ref, Relation, Str};
use cedar_syntax::loc::Loc;
use cedar_syntax::node::Node;
use cedar_syntax::{Boxed, Items};
use std::process::Abort;

/// What is said of the string.
const MESSAGE: &str = "invalid string literal: y";

/// A string that isn't valid.
fn invalid(rt: &(impl Abort + AllocGlobal)) -> Str {
    Str::Invalid(text(rt, "y"))
}

/// The entity of type `User` with that id.
fn entity(rt: &(impl Abort + AllocGlobal)) -> Ref {
    let name = Name {
        path: Items::new(rt.alloc()),
        name: node(Ident::Ident(text(rt, "User"))),
    };
    Ref::Uid {
        path: node(name),
        eid: node(invalid(rt)),
    }
}

/// The expression that is this entity alone.
fn of_entity(rt: &(impl Abort + AllocGlobal)) -> Node<Option<Expr>> {
    let entity = made(rt, Boxed::new(rt.alloc(), node(entity(rt))));
    expr(rt, sum(rt, None, node(Primary::Ref(entity))))
}

#[test]
fn an_entity_is_refused_by_each_call(rt: HostRuntime) {
    let alone = node(entity(&rt));
    says(&rt, refusal(&rt, alone.to_ref(rt.alloc())), MESSAGE);
    drop(alone);
    let expr = of_entity(&rt);
    let var = Var::Principal;
    says(&rt, refusal(&rt, expr.to_ref(rt.alloc(), var)), MESSAGE);
    let slot = expr.to_ref_or_slot(rt.alloc(), var);
    says(&rt, refusal(&rt, slot), MESSAGE);
    let refs = expr.to_refs(rt.alloc(), Var::Action);
    drop(expr);
    says(&rt, refusal(&rt, refs), MESSAGE);
    hinders_whole(&rt, of_entity(&rt), MESSAGE);
}

#[test]
fn a_literal_is_refused(rt: HostRuntime) {
    let literal = string(invalid(&rt));
    let answer = literal.to_string_literal::<ExprBuilder<()>>(rt.alloc());
    drop(literal);
    says(&rt, refusal(&rt, answer), MESSAGE);
    let sum = sum(&rt, None, string(invalid(&rt)));
    hinders_whole(&rt, expr(&rt, sum), MESSAGE);
}

#[test]
fn an_index_is_refused(rt: HostRuntime) {
    let index = expr(&rt, sum(&rt, None, string(invalid(&rt))));
    let mut access = Items::new(rt.alloc());
    made(&rt, access.push(node(MemAccess::Index(index))));
    let principal = named(&rt, Ident::Principal);
    let sum = accessed(&rt, None, principal, access);
    hinders_whole(&rt, expr(&rt, sum), MESSAGE);
}

#[test]
fn a_pattern_and_an_attribute_are_refused(rt: HostRuntime) {
    let right = sum(&rt, None, string(invalid(&rt)));
    let like = Relation::Like {
        target: sum(&rt, None, named(&rt, Ident::Principal)),
        pattern: made(&rt, Boxed::new(rt.alloc(), right)),
    };
    hinders_whole(&rt, related(&rt, like), MESSAGE);
    let right = sum(&rt, None, string(invalid(&rt)));
    let has = Relation::Has {
        target: sum(&rt, None, named(&rt, Ident::Principal)),
        field: made(&rt, Boxed::new(rt.alloc(), right)),
    };
    hinders_whole(&rt, related(&rt, has), MESSAGE);
}

/// The annotation `@a` with that string, at its place.
fn annotation(rt: &(impl Abort + AllocGlobal)) -> Node<Option<Annotation>> {
    let value = Node::with_source_loc(Some(invalid(rt)), place(rt, 3, 6));
    node(Annotation {
        key: node(Ident::Ident(text(rt, "a"))),
        value: Some(value),
    })
}

#[test]
fn an_annotation_is_refused_by_each_call(rt: HostRuntime) {
    let told = "3..6: invalid string literal: y";
    let alone = annotation(&rt);
    let itself = |text: Option<String>, _loc: Option<&Loc>| text;
    tells(
        &rt,
        refusal(&rt, alone.to_kv_pair(rt.alloc(), itself)),
        told,
    );
    drop(alone);
    let mut parts = parts(&rt, "permit(principal, action, resource);");
    made(&rt, parts.annotations.push(annotation(&rt)));
    let itself = |text: Option<String>, _loc: Option<&Loc>| text;
    let by_key = parts.get_ast_annotations(rt.alloc(), itself);
    tells(&rt, refusal(&rt, by_key), told);
    let styles = no_styles(&rt);
    let template = tree(parts).to_template(rt.alloc(), id(&rt), &styles);
    drop(styles);
    tells(&rt, refusal(&rt, template), told);
}
