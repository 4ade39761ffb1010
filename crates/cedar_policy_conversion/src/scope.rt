//! The scope of a policy: what is asked of the principal, the action and the resource.
ghost use Rattle.std.specs.Prelude.{◌≡◌, IfOk, Ok, [], ◌∷◌, drop};
ghost use Rattle.std.specs.Option.{option_copied};
ghost use Rattle.cedar_policy_store.specs.declared.constraints.ActionConstraint.{ActionConstraint as Action};
ghost use Rattle.cedar_policy_store.specs.declared.constraints.PrincipalConstraint.{PrincipalConstraint as Principal};
ghost use Rattle.cedar_policy_store.specs.declared.constraints.ResourceConstraint.{ResourceConstraint as Resource};
ghost use Rattle.cedar_syntax.specs.declared.err.faults.ParseError.TheVariants.{ToAST};
ghost use Rattle.cedar_conversion.specs.outcome.Detail.{variable};
ghost use Rattle.cedar_conversion.specs.outcome.Outcome.{Outcome, both, next, missing_scope_variable};
ghost use Rattle.cedar_policy_conversion.specs.Scope as s;
ghost use Rattle.cedar_conversion.specs.outcome.Seen.{Gives, itself, named_fault};
ghost use Rattle.cedar_conversion.specs.strict.Table.{table_of};
ghost use Rattle.cedar_conversion.specs.machines.Views.{TellsOne, empty_view};

mod action;
mod element;

use crate::cst_to_ast::ExtStyles;
use crate::scope::action::action;
use crate::scope::element::{principal, resource};
use cedar_conversion::answer::failure::{BoxedFailure, flatten_tuple_2, go_on};
use cedar_conversion::answer::faults::add_fault;
use cedar_conversion::answer::special::refusal;
use cedar_expressions::{Boxed, TryClone, Var};
use cedar_policy_store::{ActionConstraint, PrincipalConstraint, ResourceConstraint};
use cedar_syntax::cst::VariableDef;
use cedar_syntax::err::{ToASTError, ToASTErrorKind};
use cedar_syntax::loc::{Loc, SourceSpan};
use cedar_syntax::node::Node;
use std::alloc::{AllocError, Global};

/// A place that is known, else the last one before it.
fn or_before<'a>(before: &'a Option<Loc>, place: &'a Option<Loc>) -> &'a Option<Loc>
    ensures { result.now ≡ s.or_before before.now place.now }
{
    match place {
        Some(_) => place,
        None => before,
    }
}

/// The place of an element that is there, else the last one before it.
fn place_behind<'a>(
    before: &'a Option<Loc>,
    element: Option<&'a Node<Option<VariableDef>>>,
) -> &'a Option<Loc>
    ensures { result.now ≡ s.place_behind before.now (option_copied element.entry) }
{
    match element {
        Some(node) => or_before(before, &node.loc),
        None => before,
    }
}

/// No bytes, at the end of a place.
fn end_place(place: &Option<Loc>) -> Result<Option<Loc>, AllocError>
    ensures { IfOk result (λ end. end ≡ s.end_place place.now) }
{
    match place {
        Some(loc) => {
            let end = loc.span(SourceSpan::between(loc.end(), loc.end()))?;
            Ok(Some(end))
        }
        None => Ok(None),
    }
}

/// An element that isn't there.
fn missing(alloc: Global, var: Var, before: &Option<Loc>) -> BoxedFailure
    ensures { TellsOne result
        (missing_scope_variable, s.end_place before.now, variable var) }
{
    match end_place(before) {
        Ok(place) => refusal(alloc, ToASTErrorKind::MissingScopeVariable(var), &place),
        Err(error) => BoxedFailure::from(error),
    }
}

/// The element of a variable, if it is there; `before` is the last place before it.
fn there<'a>(
    alloc: Global,
    var: Var,
    before: &Option<Loc>,
    element: Option<&'a Node<Option<VariableDef>>>,
) -> Result<&'a Node<Option<VariableDef>>, BoxedFailure>
    ensures { Gives (λ node. node.now) result
        (s.if_there var (λ node. Ok node) before.now (option_copied element.entry)) }
{
    match element {
        Some(node) => Ok(node),
        None => Err(missing(alloc, var, before)),
    }
}

/// A fault of an element beyond the third.
fn extra_fault(alloc: Global, node: &Node<Option<VariableDef>>) -> Result<ToASTError, AllocError>
    ensures { IfOk result (λ made. named_fault (ToAST made)
        ≡ s.extra_element_fault node.now.loc node.now.node) }
{
    let loc = node.loc.try_clone()?;
    match &node.node {
        Some(element) => {
            let element = Boxed::new(alloc, element.try_clone()?)?;
            Ok(ToASTError::new(ToASTErrorKind::ExtraScopeElement(element), loc))
        }
        None => Ok(ToASTError::new(ToASTErrorKind::EmptyNodeInvariantViolation, loc)),
    }
}

/// Refuses each element beyond the third.
fn refuse_extra(alloc: Global, others: &[Node<Option<VariableDef>>]) -> Result<(), BoxedFailure>
    ensures { Gives empty_view result (s.no_extra others.now) }
{
    let mut all: Result<(), BoxedFailure> = Ok(());
    for node in others {
        all = add_fault(alloc, all, extra_fault(alloc, node));
        go_on(&all)?;
    }
    all
}

/// The elements beyond the third.
fn others(elements: &[Node<Option<VariableDef>>]) -> &[Node<Option<VariableDef>>]
    ensures { result.now ≡ drop 3 elements.now }
{
    if elements.len() < 3 {
        &elements[elements.len()..]
    } else {
        &elements[3..]
    }
}

/// What is asked of the principal, the action and the resource.
pub type Scope = (PrincipalConstraint, ActionConstraint, ResourceConstraint);

/// The elements joined, `place` being where the effect stands.
pub(crate) fn scope_of(
    alloc: Global,
    styles: &ExtStyles,
    place: &Option<Loc>,
    elements: &[Node<Option<VariableDef>>],
) -> Result<Scope, BoxedFailure>
    ensures { Gives itself result
        (s.elements_outcome (table_of styles.now) place.now elements.now) }
{
    let first = elements.get(0);
    let second = elements.get(1);
    let third = elements.get(2);
    let behind_first = place_behind(place, first);
    let behind_second = place_behind(behind_first, second);
    join_elements(
        principal(alloc, styles, place, first),
        action(alloc, styles, behind_first, second),
        resource(alloc, styles, behind_second, third),
        refuse_extra(alloc, others(elements)),
    )
}

/// The elements of a scope joined, and what is refused beside them.
fn join_elements(
    principal: Result<PrincipalConstraint, BoxedFailure>,
    action: Result<ActionConstraint, BoxedFailure>,
    resource: Result<ResourceConstraint, BoxedFailure>,
    extra: Result<(), BoxedFailure>,
) -> Result<Scope, BoxedFailure>
    ensures { (p : Outcome Principal) (a : Outcome Action) (r : Outcome Resource)
        (x : Outcome (Unit {0})) → Gives itself principal p → Gives itself action a
        → Gives itself resource r → Gives empty_view extra x
        → Gives itself result (next (both (both p a) (both r x)) s.three) }
{
    let first = flatten_tuple_2(principal, action);
    let second = flatten_tuple_2(resource, extra);
    let ((principal, action), (resource, ())) = flatten_tuple_2(first, second)?;
    Ok((principal, action, resource))
}
