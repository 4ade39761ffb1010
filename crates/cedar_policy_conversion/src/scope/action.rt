//! The element of a scope that asks of the action.
ghost use Rattle.std.specs.Prelude.{◌≡◌, ◌∷◌, IfOk};
ghost use Rattle.std.specs.Option.{option_copied};
ghost use Rattle.cedar_expressions.specs.declared.atoms.Var.TheVariants as vars;
ghost use Rattle.cedar_conversion.specs.outcome.Detail.{entities};
ghost use Rattle.cedar_conversion.specs.outcome.Outcome.{invalid_action_type};
ghost use Rattle.cedar_policy_conversion.specs.Scope as s;
ghost use Rattle.cedar_conversion.specs.outcome.Seen.{Gives, itself};
ghost use Rattle.cedar_conversion.specs.strict.Table.{table_of};
ghost use Rattle.cedar_conversion.specs.machines.Views.{TellsOne, empty_view};

use crate::cst_to_ast::ExtStyles;
use crate::scope::element::{is_inverted, refuse_type_name, scope_variable};
use crate::scope::there;
use crate::to_ref_or_refs::{OneOrMultipleRefs, SingleEntity, to_ref_or_refs};
use cedar_conversion::answer::failure::{BoxedFailure, go_on};
use cedar_conversion::answer::special::{content, refusal};
use cedar_conversion::primaries::methods::CallSite;
use cedar_expressions::{EntityUID, Items, Var};
use cedar_policy_store::ActionConstraint;
use cedar_syntax::cst::{self, Add, RelOp, VariableDef};
use cedar_syntax::err::parse_errors::InvalidActionType;
use cedar_syntax::err::{NonEmpty, ToASTErrorKind};
use cedar_syntax::loc::Loc;
use cedar_syntax::node::Node;
use std::alloc::{AllocError, Global};

/// Refuses another variable than the action.
fn action_alone(alloc: Global, loc: &Option<Loc>, got: Var) -> Result<(), BoxedFailure>
    ensures { Gives empty_view result (s.action_alone loc.now got) }
{
    match got {
        Var::Action => Ok(()),
        Var::Principal | Var::Resource | Var::Context => {
            let kind = ToASTErrorKind::IncorrectVariable {
                expected: Var::Action,
                got,
            };
            Err(refusal(alloc, kind, loc))
        }
    }
}

/// Refuses a type behind `is`.
fn refuse_entity_type(
    alloc: Global,
    loc: &Option<Loc>,
    node: &Option<Node<Option<Add>>>,
) -> Result<(), BoxedFailure>
    ensures { Gives empty_view result (s.no_entity_type loc.now node.now) }
{
    match node {
        Some(_) => Err(refusal(alloc, ToASTErrorKind::IsInActionScope, loc)),
        None => Ok(()),
    }
}

fn action_variable(
    alloc: Global,
    loc: &Option<Loc>,
    element: &VariableDef,
) -> Result<(), BoxedFailure>
    ensures { Gives empty_view result (s.action_variable loc.now element.now) }
{
    action_alone(alloc, loc, scope_variable(alloc, &element.variable)?)?;
    refuse_type_name(alloc, &element.unused_type_name)?;
    refuse_entity_type(alloc, loc, &element.entity_type)
}

/// `in` one entity is a list of one.
fn within(alloc: Global, refs: OneOrMultipleRefs) -> Result<ActionConstraint, AllocError>
    ensures { IfOk result (λ c. c ≡ s.within refs) }
{
    match refs {
        OneOrMultipleRefs::Single(uid) => {
            let mut uids = Items::new(alloc);
            uids.push(uid)?;
            Ok(ActionConstraint::In(uids))
        }
        OneOrMultipleRefs::Multiple(uids) => Ok(ActionConstraint::In(uids)),
    }
}

fn action_in(
    site: CallSite<'_>,
    right: &Node<Option<cst::Expr>>,
) -> Result<ActionConstraint, BoxedFailure>
    ensures { Gives itself result (s.action_in (table_of site.entry.styles.now) site.entry.loc.now
        right.now) }
{
    let answer = to_ref_or_refs::<OneOrMultipleRefs>(site.alloc, Var::Action, right);
    go_on(&answer)?;
    match answer {
        Ok(refs) => Ok(within(site.alloc, refs)?),
        Err(failure) => {
            if is_inverted(site, RelOp::In, right)? {
                return Err(refusal(site.alloc, ToASTErrorKind::IsInActionScope, site.loc));
            }
            Err(failure)
        }
    }
}

fn action_eq(
    alloc: Global,
    right: &Node<Option<cst::Expr>>,
) -> Result<ActionConstraint, BoxedFailure>
    ensures { Gives itself result (s.action_eq right.now) }
{
    let SingleEntity(uid) = to_ref_or_refs::<SingleEntity>(alloc, Var::Action, right)?;
    Ok(ActionConstraint::Eq(uid))
}

fn action_by(
    site: CallSite<'_>,
    op: RelOp,
    right: &Node<Option<cst::Expr>>,
) -> Result<ActionConstraint, BoxedFailure>
    ensures { Gives itself result (s.action_by (table_of site.entry.styles.now)
        site.entry.loc.now op right.now) }
{
    match op {
        RelOp::In => action_in(site, right),
        RelOp::Eq => action_eq(site.alloc, right),
        RelOp::InvalidSingleEq => {
            Err(refusal(site.alloc, ToASTErrorKind::InvalidSingleEq, site.loc))
        }
        RelOp::Less | RelOp::LessEq | RelOp::GreaterEq | RelOp::Greater | RelOp::NotEq => {
            let kind = ToASTErrorKind::InvalidActionScopeOperator(op);
            Err(refusal(site.alloc, kind, site.loc))
        }
    }
}

/// Entities that have no action type.
fn other_types(
    alloc: Global,
    loc: &Option<Loc>,
    first: EntityUID,
    rest: Vec<EntityUID>,
) -> BoxedFailure
    ensures { TellsOne result (invalid_action_type, loc.now, entities (first ∷ rest.items)) }
{
    let euids = NonEmpty {
        head: first,
        tail: Items::from(rest),
    };
    refusal(
        alloc,
        ToASTErrorKind::InvalidActionType(InvalidActionType { euids }),
        loc,
    )
}

/// Refuses entities that have no action type.
fn only_actions(
    alloc: Global,
    loc: &Option<Loc>,
    constraint: ActionConstraint,
) -> Result<ActionConstraint, BoxedFailure>
    ensures { Gives itself result (s.only_actions loc.now constraint) }
{
    match constraint.contains_only_action_types(alloc)? {
        Ok(constraint) => Ok(constraint),
        Err((first, rest)) => Err(other_types(alloc, loc, first, rest)),
    }
}

fn action_of(site: CallSite<'_>, element: &VariableDef) -> Result<ActionConstraint, BoxedFailure>
    ensures { Gives itself result (s.action_of (table_of site.entry.styles.now) site.entry.loc.now
        element.now) }
{
    action_variable(site.alloc, site.loc, element)?;
    match &element.ineq {
        Some(ineq) => {
            let constraint = action_by(site, ineq.0, &ineq.1)?;
            only_actions(site.alloc, &ineq.1.loc, constraint)
        }
        None => Ok(ActionConstraint::Any),
    }
}

/// What the element of the action asks, if it is there; `before` is the last place before it.
pub(crate) fn action(
    alloc: Global,
    styles: &ExtStyles,
    before: &Option<Loc>,
    element: Option<&Node<Option<VariableDef>>>,
) -> Result<ActionConstraint, BoxedFailure>
    ensures { Gives itself result (s.if_there vars.Action
        (s.action_outcome (table_of styles.now)) before.now (option_copied element.entry)) }
{
    let node = there(alloc, Var::Action, before, element)?;
    let site = CallSite {
        alloc,
        styles,
        loc: &node.loc,
    };
    action_of(site, content(alloc, node)?)
}
