//! An element of a scope that asks of the principal or the resource; what both kinds of elements
//! begin with.
ghost use Rattle.std.specs.Prelude.{◌≡◌, Some, IfOk};
ghost use Rattle.std.specs.Option.{option_copied};
ghost use Rattle.cedar_expressions.specs.Meaning.{expr_meaning};
ghost use Rattle.cedar_expressions.specs.Value.{Value};
ghost use Rattle.cedar_expressions.specs.declared.atoms.Var.TheVariants as vars;
ghost use Rattle.cedar_syntax.specs.declared.cst.RelOp.TheVariants as rel;
ghost use Rattle.cedar_syntax.specs.trees.Forms.{located, expr_form};
ghost use Rattle.cedar_conversion.specs.outcome.Conversion.{value_outcome};
ghost use Rattle.cedar_conversion.specs.outcome.Detail as d;
ghost use Rattle.cedar_conversion.specs.outcome.Outcome.{Outcome, invalid_scope_variable};
ghost use Rattle.cedar_policy_conversion.specs.Scope as s;
ghost use Rattle.cedar_policy_conversion.specs.machines.PolicyViews.{is_call};
ghost use Rattle.cedar_conversion.specs.outcome.Seen.{Gives, Refuses, itself};
ghost use Rattle.cedar_conversion.specs.strict.Table.{table_of};
ghost use Rattle.cedar_conversion.specs.machines.Views.{TellsOne, empty_view};

use crate::cst_to_ast::ExtStyles;
use crate::expressions::expression;
use crate::scope::there;
use crate::to_ref_or_refs::to_ref_or_refs;
use cedar_conversion::answer::failure::{BoxedFailure, go_on};
use cedar_conversion::answer::special::{content, empty_node, refusal, refusal_with};
use cedar_conversion::answer::wanted::into_entity_type;
use cedar_conversion::answer::{Converted, placeholder};
use cedar_conversion::convert::add;
use cedar_conversion::primaries::methods::CallSite;
use cedar_expressions::{EntityType, Expr, ExprBuilder, ExprKind, TryClone, UnaryCall, Var};
use cedar_policy_store::{
    EntityReference, PrincipalConstraint, PrincipalOrResourceConstraint, ResourceConstraint,
};
use cedar_syntax::cst::{self, Add, Ident, Name, RelOp, VariableDef};
use cedar_syntax::err::{self, ToASTErrorKind};
use cedar_syntax::loc::Loc;
use cedar_syntax::node::Node;
use std::alloc::{AllocError, Global};

// ---- an element's variable

/// A word that is no variable of a scope.
fn other_word(alloc: Global, loc: &Option<Loc>, word: &Ident) -> BoxedFailure
    ensures { TellsOne result (invalid_scope_variable, loc.now, d.word word.now) }
{
    let kind = word.try_clone().map(ToASTErrorKind::InvalidScopeVariable);
    refusal_with(alloc, kind, loc)
}

/// The variable that an element begins with.
pub(crate) fn scope_variable(alloc: Global, node: &Node<Option<Ident>>) -> Result<Var, BoxedFailure>
    ensures { Gives itself result (s.scope_variable node.now) }
{
    match &node.node {
        Some(Ident::Principal) => Ok(Var::Principal),
        Some(Ident::Action) => Ok(Var::Action),
        Some(Ident::Resource) => Ok(Var::Resource),
        Some(word) => Err(other_word(alloc, &node.loc, word)),
        None => Err(empty_node(alloc, &node.loc)),
    }
}

/// Refuses a name behind `:`.
pub(crate) fn refuse_type_name(
    alloc: Global,
    name: &Option<Node<Option<Name>>>,
) -> Result<(), BoxedFailure>
    ensures { Gives empty_view result (s.no_type_name name.now) }
{
    match name {
        Some(node) => match &node.node {
            Some(_) => Err(refusal(alloc, ToASTErrorKind::TypeConstraints, &node.loc)),
            None => Ok(()),
        },
        None => Ok(()),
    }
}

/// The variable of an element without a name behind `:`.
fn element_variable(alloc: Global, element: &VariableDef) -> Result<Var, BoxedFailure>
    ensures { Gives itself result (s.element_variable element.now) }
{
    let var = scope_variable(alloc, &element.variable)?;
    refuse_type_name(alloc, &element.unused_type_name)?;
    Ok(var)
}

// ---- `in` with a right side that `is` makes

/// Whether a call of one expression is `is`.
fn is_call(call: &UnaryCall) -> bool
    ensures { result ≡ is_call call.now }
{
    match call {
        UnaryCall::Is(_) => true,
        UnaryCall::Op(_)
        | UnaryCall::IsEmpty
        | UnaryCall::Like(_)
        | UnaryCall::GetAttr(_)
        | UnaryCall::ExtendedHasAttr(_, _) => false,
    }
}

/// Whether `is` makes an expression.
fn made_by_is(expr: &Expr) -> bool
    ensures { result ≡ s.made_by_is (expr_meaning expr.now) }
{
    match expr.kind() {
        ExprKind::Unary(call, _) => is_call(call),
        ExprKind::Val(_) => false,
        ExprKind::Var(_) => false,
        ExprKind::Slot(_) => false,
        ExprKind::Ite(_) => false,
        ExprKind::Binary(_, _) => false,
        ExprKind::Nary(_, _, _) => false,
        ExprKind::Sum(_, _) => false,
        ExprKind::List(_, _) => false,
        ExprKind::Record(_) => false,
    }
}

/// A right side that doesn't convert isn't made by `is`: its faults are told elsewhere.
fn not_made_by_is(failure: BoxedFailure) -> Result<bool, AllocError>
    ensures { (o : Outcome Value) → Refuses failure o → IfOk result (λ b. b ≡ s.is_made_by_is o) }
{
    match err::Failure::from(failure) {
        err::Failure::Memory(error) => Err(error),
        err::Failure::Errors(_) => Ok(false),
    }
}

/// Whether `is` makes a right side.
fn right_by_is(site: CallSite<'_>, right: &Node<Option<cst::Expr>>) -> Result<bool, AllocError>
    ensures { IfOk result (λ b. b ≡ s.is_made_by_is
        (value_outcome (table_of site.entry.styles.now) (located expr_form right.now))) }
{
    match expression::<ExprBuilder<()>>(site.alloc, site.styles, right) {
        Ok(expr) => {
            let is_made = made_by_is(&expr);
            drop(expr);
            Ok(is_made)
        }
        Err(failure) => not_made_by_is(failure),
    }
}

/// Whether an `in` stands before a right side that `is` makes.
pub(crate) fn is_inverted(
    site: CallSite<'_>,
    op: RelOp,
    right: &Node<Option<cst::Expr>>,
) -> Result<bool, AllocError>
    ensures { IfOk result (λ b. b ≡ s.is_inverted (table_of site.entry.styles.now) op right.now) }
{
    match op {
        RelOp::In => right_by_is(site, right),
        RelOp::Less
        | RelOp::LessEq
        | RelOp::GreaterEq
        | RelOp::Greater
        | RelOp::NotEq
        | RelOp::Eq
        | RelOp::InvalidSingleEq => Ok(false),
    }
}

// ---- principal and resource

/// The type right of `is`; `left` is the place of the variable before it.
fn type_of(
    site: CallSite<'_>,
    left: &Option<Loc>,
    node: &Node<Option<Add>>,
) -> Result<EntityType, BoxedFailure>
    ensures { Gives itself result (s.type_outcome (table_of site.entry.styles.now) node.now) }
{
    let mut right: Converted<Expr> = placeholder();
    add::<ExprBuilder<()>>(site.alloc, site.styles, node, &mut right);
    into_entity_type::<ExprBuilder<()>>(site.alloc, left.as_ref(), right?)
}

fn is_in(
    site: CallSite<'_>,
    left: &Option<Loc>,
    node: &Node<Option<Add>>,
    reference: EntityReference,
) -> Result<PrincipalOrResourceConstraint, BoxedFailure>
    ensures { Gives itself result
        (s.type_and (table_of site.entry.styles.now) reference node.now) }
{
    let entity_type = type_of(site, left, node)?;
    Ok(PrincipalOrResourceConstraint::IsIn(entity_type, reference))
}

/// `==` with an entity or a slot, without a type.
fn by_eq(
    site: CallSite<'_>,
    element: &VariableDef,
    reference: EntityReference,
) -> Result<PrincipalOrResourceConstraint, BoxedFailure>
    ensures { Gives itself result (s.operator_outcome (table_of site.entry.styles.now)
        site.entry.loc.now rel.Eq element.now.entity_type reference) }
{
    match &element.entity_type {
        Some(_) => Err(refusal(site.alloc, ToASTErrorKind::IsWithEq, site.loc)),
        None => Ok(PrincipalOrResourceConstraint::Eq(reference)),
    }
}

/// `in` with an entity or a slot, beside a type if there is one.
fn by_in(
    site: CallSite<'_>,
    element: &VariableDef,
    reference: EntityReference,
) -> Result<PrincipalOrResourceConstraint, BoxedFailure>
    ensures { Gives itself result (s.operator_outcome (table_of site.entry.styles.now)
        site.entry.loc.now rel.In element.now.entity_type reference) }
{
    match &element.entity_type {
        Some(node) => is_in(site, &element.variable.loc, node, reference),
        None => Ok(PrincipalOrResourceConstraint::In(reference)),
    }
}

/// What an operator asks with an entity or a slot, beside a type if there is one.
fn operator_constraint(
    site: CallSite<'_>,
    op: RelOp,
    element: &VariableDef,
    reference: EntityReference,
) -> Result<PrincipalOrResourceConstraint, BoxedFailure>
    ensures { Gives itself result (s.operator_outcome (table_of site.entry.styles.now)
        site.entry.loc.now op element.now.entity_type reference) }
{
    match op {
        RelOp::Eq => by_eq(site, element, reference),
        RelOp::In => by_in(site, element, reference),
        RelOp::InvalidSingleEq => {
            Err(refusal(site.alloc, ToASTErrorKind::InvalidSingleEq, site.loc))
        }
        RelOp::Less | RelOp::LessEq | RelOp::GreaterEq | RelOp::Greater | RelOp::NotEq => {
            Err(refusal(
                site.alloc,
                ToASTErrorKind::InvalidScopeOperator(op),
                site.loc,
            ))
        }
    }
}

/// A type alone, or nothing.
fn type_constraint(
    site: CallSite<'_>,
    element: &VariableDef,
) -> Result<PrincipalOrResourceConstraint, BoxedFailure>
    ensures { Gives itself result
        (s.asked_type (table_of site.entry.styles.now) element.now.entity_type) }
{
    match &element.entity_type {
        Some(node) => {
            let entity_type = type_of(site, &element.variable.loc, node)?;
            Ok(PrincipalOrResourceConstraint::Is(entity_type))
        }
        None => Ok(PrincipalOrResourceConstraint::Any),
    }
}

/// What an operator and its right side ask of an element's variable. What `is` makes refers to
/// nothing, so only a right side that is refused is looked at for it.
fn constraint_beside(
    site: CallSite<'_>,
    var: Var,
    element: &VariableDef,
    ineq: &(RelOp, Node<Option<cst::Expr>>),
) -> Result<PrincipalOrResourceConstraint, BoxedFailure>
    ensures { Gives itself result (s.constraint_outcome (table_of site.entry.styles.now)
        site.entry.loc.now var element.now.entity_type (Some ineq.now)) }
{
    let answer = to_ref_or_refs::<EntityReference>(site.alloc, var, &ineq.1);
    go_on(&answer)?;
    match answer {
        Ok(reference) => operator_constraint(site, ineq.0, element, reference),
        Err(failure) => {
            if is_inverted(site, ineq.0, &ineq.1)? {
                return Err(refusal(site.alloc, ToASTErrorKind::InvertedIsIn, site.loc));
            }
            Err(failure)
        }
    }
}

/// What an element asks of its variable.
fn element_constraint(
    site: CallSite<'_>,
    var: Var,
    element: &VariableDef,
) -> Result<PrincipalOrResourceConstraint, BoxedFailure>
    ensures { Gives itself result (s.constraint_outcome (table_of site.entry.styles.now)
        site.entry.loc.now var element.now.entity_type element.now.ineq) }
{
    match &element.ineq {
        Some(ineq) => constraint_beside(site, var, element, ineq),
        None => type_constraint(site, element),
    }
}

fn is_principal(got: Var) -> bool
    ensures { result ≡ s.stands_there vars.Principal got }
{
    match got {
        Var::Principal => true,
        Var::Action | Var::Resource | Var::Context => false,
    }
}

fn is_resource(got: Var) -> bool
    ensures { result ≡ s.stands_there vars.Resource got }
{
    match got {
        Var::Resource => true,
        Var::Principal | Var::Action | Var::Context => false,
    }
}

/// Whether the variable that an element has is the one whose place it is.
fn stands_there(expected: Var, got: Var) -> bool
    ensures { result ≡ s.stands_there expected got }
{
    match expected {
        Var::Principal => is_principal(got),
        Var::Resource => is_resource(got),
        Var::Action | Var::Context => false,
    }
}

fn element_of(
    site: CallSite<'_>,
    expected: Var,
    element: &VariableDef,
) -> Result<PrincipalOrResourceConstraint, BoxedFailure>
    ensures { Gives itself result (s.element_of (table_of site.entry.styles.now) expected
        site.entry.loc.now element.now) }
{
    let got = element_variable(site.alloc, element)?;
    let constraint = element_constraint(site, got, element)?;
    if stands_there(expected, got) {
        Ok(constraint)
    } else {
        drop(constraint);
        let kind = ToASTErrorKind::IncorrectVariable { expected, got };
        Err(refusal(site.alloc, kind, site.loc))
    }
}

/// What the element of the principal or of the resource asks, if it is there; `before` is the
/// last place before it.
fn element(
    alloc: Global,
    styles: &ExtStyles,
    expected: Var,
    before: &Option<Loc>,
    node: Option<&Node<Option<VariableDef>>>,
) -> Result<PrincipalOrResourceConstraint, BoxedFailure>
    ensures { Gives itself result (s.if_there expected
        (s.element_outcome (table_of styles.now) expected) before.now
        (option_copied node.entry)) }
{
    let node = there(alloc, expected, before, node)?;
    let site = CallSite {
        alloc,
        styles,
        loc: &node.loc,
    };
    element_of(site, expected, content(alloc, node)?)
}

pub(crate) fn principal(
    alloc: Global,
    styles: &ExtStyles,
    before: &Option<Loc>,
    node: Option<&Node<Option<VariableDef>>>,
) -> Result<PrincipalConstraint, BoxedFailure>
    ensures { Gives itself result (s.if_there vars.Principal
        (s.principal_outcome (table_of styles.now)) before.now (option_copied node.entry)) }
{
    let constraint = element(alloc, styles, Var::Principal, before, node)?;
    Ok(PrincipalConstraint::new(constraint))
}

pub(crate) fn resource(
    alloc: Global,
    styles: &ExtStyles,
    before: &Option<Loc>,
    node: Option<&Node<Option<VariableDef>>>,
) -> Result<ResourceConstraint, BoxedFailure>
    ensures { Gives itself result (s.if_there vars.Resource
        (s.resource_outcome (table_of styles.now)) before.now (option_copied node.entry)) }
{
    let constraint = element(alloc, styles, Var::Resource, before, node)?;
    Ok(ResourceConstraint::new(constraint))
}
