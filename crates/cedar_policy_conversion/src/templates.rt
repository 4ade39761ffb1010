//! Policies: templates and static policies.
ghost use Rattle.std.specs.Prelude.{◌≡◌, ◌∷◌, ◌++◌, [], Option, IfOk, OnOk, slice_get, string_bytes, unwrap_or};
ghost use Rattle.std.specs.Option.{option_map};
ghost use Rattle.cedar_expressions.specs.Placed.{marked_place};
ghost use Rattle.cedar_syntax.specs.declared.cst.Policy.TheVariants as variants;
ghost use Rattle.cedar_syntax.specs.declared.err.faults.ParseError.TheVariants.{ToAST};
ghost use Rattle.cedar_syntax.specs.faults.ParseErrors.{faults_of};
ghost use Rattle.cedar_syntax.specs.declared.loc.Loc.{Loc};
ghost use Rattle.cedar_conversion.specs.outcome.Detail as d;
ghost use Rattle.cedar_conversion.specs.outcome.Outcome.{Outcome, invalid_effect, expected_static_policy};
ghost use Rattle.cedar_policy_conversion.specs.Policies as k;
ghost use Rattle.cedar_policy_conversion.specs.machines.PolicyViews.{IsConditionFree, parts_view};
ghost use Rattle.cedar_conversion.specs.outcome.Seen.{Gives, Refuses, itself, named_faults, named_fault};
ghost use Rattle.cedar_conversion.specs.strict.Table.{table_of};
ghost use Rattle.cedar_conversion.specs.machines.Views.{TellsOne, lent_bytes, optional_fault};

use crate::annotations::annotations;
use crate::conditions::{conditions, join_conditions};
use crate::cst_to_ast::ExtStyles;
use crate::scope::{Scope, scope_of};
use cedar_conversion::answer::failure::{BoxedFailure, flatten_tuple_2};
use cedar_conversion::answer::places::{bytes_at, bytes_of};
use cedar_conversion::answer::special::{empty_node, refusal, refusal_with};
use cedar_expressions::{AnyId, Expr, Place, Slot, TryClone};
use cedar_policy_store::{Annotation, Annotations, Effect, PolicyID, StaticPolicy, Template};
use cedar_syntax::cst::{Ident, Policy, PolicyImpl};
use cedar_syntax::err::{self, ParseError, ParseErrors, ToASTError, ToASTErrorKind};
use cedar_syntax::loc::{Loc, SourceSpan};
use cedar_syntax::node::Node;
use either::Either;
use std::alloc::{AllocError, Global};
use std::collections::BTreeMap;

fn inner_of(policy: &Policy) -> &PolicyImpl
    ensures { policy.now ≡ variants.Policy result.now }
{
    match policy {
        Policy::Policy(inner) => inner,
    }
}

/// A policy's first word that is neither `permit` nor `forbid`.
fn other_word(alloc: Global, loc: &Option<Loc>, word: &Ident) -> BoxedFailure
    ensures { TellsOne result (invalid_effect, loc.now, d.word word.now) }
{
    let kind = word.try_clone().map(ToASTErrorKind::InvalidEffect);
    refusal_with(alloc, kind, loc)
}

fn effect(alloc: Global, node: &Node<Option<Ident>>) -> Result<Effect, BoxedFailure>
    ensures { Gives itself result (k.effect_outcome node.now) }
{
    match &node.node {
        Some(Ident::Permit) => Ok(Effect::Permit),
        Some(Ident::Forbid) => Ok(Effect::Forbid),
        Some(word) => Err(other_word(alloc, &node.loc, word)),
        None => Err(empty_node(alloc, &node.loc)),
    }
}

/// The annotations of a policy.
fn kept_annotations(alloc: Global, policy: &PolicyImpl) -> Result<Annotations, BoxedFailure>
    ensures { Gives itself result (k.kept_outcome policy.now.annotations) }
{
    let make = |text: Option<String>, loc: Option<&Loc>| -> Annotation
        ensures value { result.value ≡ unwrap_or (option_map string_bytes text) [] }
        ensures place { marked_place result.place ≡ lent_bytes loc.entry }
    { Annotation::with_optional_value(alloc, text, bytes_at(loc)) };
    let by_key = annotations::<Annotation, _>(alloc, policy.annotations.as_slice(), &make)?;
    Ok(Annotations::from(by_key))
}

/// Effect and annotations, scope and conditions.
type Parts = ((Effect, Annotations), (Scope, Vec<Expr>));

/// The parts of a policy, joined.
fn parts(alloc: Global, styles: &ExtStyles, policy: &PolicyImpl) -> Result<Parts, BoxedFailure>
    ensures { Gives parts_view result
        (k.parts_outcome (table_of styles.now) policy.now) }
{
    let maybe_effect = effect(alloc, &policy.effect);
    let maybe_annotations = kept_annotations(alloc, policy);
    let first = flatten_tuple_2(maybe_effect, maybe_annotations);
    let maybe_scope = scope_of(
        alloc,
        styles,
        &policy.effect.loc,
        policy.variables.as_slice(),
    );
    let maybe_conditions = conditions(alloc, styles, policy.conds.as_slice());
    let second = flatten_tuple_2(maybe_scope, maybe_conditions);
    flatten_tuple_2(first, second)
}

/// The template of these parts under a name, at a place.
fn constructed(
    alloc: Global,
    id: PolicyID,
    loc: &Option<Loc>,
    parts: Parts,
) -> Result<Template, AllocError>
    ensures { IfOk result (λ t. k.template_parts t
        ≡ k.given_parts id loc.now (parts_view parts)) }
{
    let ((effect, annotations), (scope, conditions)) = parts;
    let (principal, action, resource) = scope;
    let condition = join_conditions(alloc, loc, conditions)?;
    Ok(Template::new(
        id,
        bytes_of(loc),
        annotations,
        effect,
        principal,
        action,
        resource,
        condition,
    ))
}

/// The template that a policy's tree stands for.
pub(crate) fn template(
    alloc: Global,
    styles: &ExtStyles,
    id: PolicyID,
    node: &Node<Option<Policy>>,
) -> Result<Template, BoxedFailure>
    ensures { Gives k.template_parts result
        (k.template_outcome (table_of styles.now) id node.now) }
{
    match &node.node {
        Some(policy) => {
            let parts = parts(alloc, styles, inner_of(policy))?;
            Ok(constructed(alloc, id, &node.loc, parts)?)
        }
        None => Err(empty_node(alloc, &node.loc)),
    }
}

// ---- static policies

/// The first slot of a template's scope.
fn slot_in_scope(template: &Template) -> Option<Slot>
    ensures { result ≡ slice_get (k.scope_slots (k.template_parts template.now)) 0 }
{
    match template.principal_constraint().slot() {
        Some(slot) => Some(slot),
        None => template.resource_constraint().slot(),
    }
}

/// A static policy, or a template with a slot, which only its scope may have.
pub(crate) fn static_or_template(
    alloc: Global,
    styles: &ExtStyles,
    id: PolicyID,
    node: &Node<Option<Policy>>,
) -> Result<Either<StaticPolicy, Template>, BoxedFailure>
    ensures { Gives k.either_parts result
        (k.either_outcome (table_of styles.now) id node.now) }
{
    let template = template(alloc, styles, id, node)?;
    match slot_in_scope(&template) {
        Some(_) => Ok(Either::Right(template)),
        None => Ok(Either::Left(StaticPolicy::of_static(template))),
    }
}

/// The bytes of a slot in the policy's text, where they are a range.
fn slot_bytes(loc: &Loc, bytes: Place) -> Result<Loc, AllocError>
    ensures { IfOk result (λ place. place ≡ k.slot_bytes loc.now bytes) }
{
    match SourceSpan::new(bytes.offset, bytes.length) {
        Some(span) => loc.span(span),
        None => loc.try_clone(),
    }
}

/// The place of a slot, else the policy's.
fn slot_place(loc: &Option<Loc>, bytes: Option<Place>) -> Result<Option<Loc>, AllocError>
    ensures { IfOk result (λ place. place ≡ k.slot_place loc.now bytes) }
{
    match (loc, bytes) {
        (Some(loc), Some(bytes)) => Ok(Some(slot_bytes(loc, bytes)?)),
        _ => loc.try_clone(),
    }
}

/// A template where a static policy is wanted.
fn found_slot(alloc: Global, slot: Slot, loc: &Option<Loc>) -> BoxedFailure
    ensures { TellsOne result
        (expected_static_policy, k.slot_place loc.now slot.place, d.slot slot) }
{
    match slot_place(loc, slot.place) {
        Ok(place) => refusal(alloc, ToASTErrorKind::expected_static_policy(slot), &place),
        Err(error) => BoxedFailure::from(error),
    }
}

/// What stands behind a slot in a condition where a static policy is wanted.
fn static_fault(fault: &ParseError) -> Result<Option<ToASTError>, AllocError>
    ensures { IfOk result (λ made. k.slot_faults (named_fault fault.now ∷ [])
        ≡ optional_fault made) }
{
    match fault {
        ParseError::ToAST(fault) => match &fault.kind {
            ToASTErrorKind::SlotsInConditionClause(inner) => {
                let loc = fault.loc.try_clone()?;
                let kind = ToASTErrorKind::expected_static_policy(inner.slot);
                Ok(Some(ToASTError::new(kind, loc)))
            }
            _ => Ok(None),
        },
        ParseError::ToCST(_) => Ok(None),
    }
}

/// Adds what stands behind a fault where a static policy is wanted.
fn add_static_fault(more: &mut Vec<ParseError>, fault: &ParseError) -> Result<(), AllocError>
    ensures { OnOk result (named_faults more.new.items
        ≡ named_faults more.old.items ++ k.slot_faults (named_fault fault.now ∷ [])) }
{
    if let Some(fault) = static_fault(fault)? {
        more.push(ParseError::ToAST(fault))?;
    }
    Ok(())
}

/// The faults behind those of slots in conditions, in order.
fn static_faults(alloc: Global, faults: &ParseErrors) -> Result<Vec<ParseError>, AllocError>
    ensures { IfOk result (λ more. named_faults more.items
        ≡ k.slot_faults (named_faults (faults_of faults.now))) }
{
    let mut more = Vec::new(alloc);
    for fault in faults.iter() {
        add_static_fault(&mut more, fault)?;
    }
    Ok(more)
}

/// Adds faults behind those that are there.
fn add_faults(faults: &mut ParseErrors, more: Vec<ParseError>) -> Result<(), AllocError>
    ensures { OnOk result (named_faults (faults_of faults.new)
        ≡ named_faults (faults_of faults.old) ++ named_faults more.items) }
{
    for fault in more {
        faults.faults.push(fault)?;
    }
    Ok(())
}

/// Adds behind faults one more for each slot in a condition.
fn add_static_faults(alloc: Global, faults: &mut ParseErrors) -> Result<(), AllocError>
    ensures { OnOk result (named_faults (faults_of faults.new)
        ≡ named_faults (faults_of faults.old) ++ k.slot_faults
        (named_faults (faults_of faults.old))) }
{
    let more = static_faults(alloc, faults)?;
    add_faults(faults, more)
}

/// A template that is a static policy, or its first slot refused, which only its scope may have.
fn only_static(
    alloc: Global,
    loc: &Option<Loc>,
    template: Template,
) -> Result<StaticPolicy, BoxedFailure>
    requires { IsConditionFree template }
    ensures { Gives k.template_parts result
        (k.unless_slots loc.now (k.scope_slots (k.template_parts template))
        (k.template_parts template)) }
{
    match slot_in_scope(&template) {
        Some(slot) => Err(found_slot(alloc, slot, loc)),
        None => Ok(StaticPolicy::of_static(template)),
    }
}

/// What refuses a static policy where this refuses a template.
fn refused_static(alloc: Global, failure: BoxedFailure) -> BoxedFailure
    ensures { (place : Option Loc) (o : Outcome k.TemplateParts)
        → Refuses failure o → Refuses result (k.only_static place o) }
{
    match err::Failure::from(failure) {
        err::Failure::Memory(error) => BoxedFailure::from(error),
        err::Failure::Errors(mut faults) => match add_static_faults(alloc, &mut faults) {
            Ok(()) => BoxedFailure::of_errors(alloc, faults),
            Err(error) => BoxedFailure::from(error),
        },
    }
}

/// The static policy that a policy's tree stands for.
pub(crate) fn static_policy(
    alloc: Global,
    styles: &ExtStyles,
    id: PolicyID,
    node: &Node<Option<Policy>>,
) -> Result<StaticPolicy, BoxedFailure>
    ensures { Gives k.template_parts result
        (k.static_outcome (table_of styles.now) id node.now) }
{
    match template(alloc, styles, id, node) {
        Ok(template) => only_static(alloc, &node.loc, template),
        Err(failure) => Err(refused_static(alloc, failure)),
    }
}
