//! A policy: made, and then handed out.
ghost use Rattle.std.specs.Prelude.{◌≡◌, IfOk, Some, string_bytes};
ghost use Rattle.std.specs.Option.{option_map};
ghost use Rattle.cedar_grammar.specs.printing.PrintLaw.{node_text};
ghost use Rattle.cedar_syntax.specs.trees.Unplaced.{policy_tree};
ghost use Rattle.cedar_answers.specs.Made.{policy_made, scope_made};
ghost use Rattle.cedar_answers.specs.Places.{node_range};
ghost use Rattle.cedar_answers.specs.Told.{action_told, constraint_told, is_forbid_told, numbered_told, policy_read, policy_told};

use crate::annotations::{handed_annotations, made_annotations};
use crate::answer::{CedarPolicy, CedarRange};
use crate::made::{MadePolicy, MadeScopes};
use crate::places::{range_of, range_or_none};
use crate::scope::{handed_scope, made_action, made_constraint};
use crate::texts::handed_text;
use cedar_policy_parser::cst::Policy;
use cedar_policy_parser::cst_to_ast::policy_id;
use cedar_policy_parser::node::Node;
use cedar_policy_parser::{Effect, PolicySet, Template};
use cedar_report::{Extent, Lines};
use std::alloc::{AllocError, Global};

/// What is told of the policy of a number, whose tree stands at this node; nothing where the set
/// has no such policy.
pub(crate) fn made_numbered(
    alloc: Global,
    lines: &Lines<'_>,
    count: usize,
    node: &Node<Option<Policy>>,
    set: &PolicySet,
) -> Result<Option<MadePolicy>, AllocError>
    ensures { IfOk result (λ made. option_map policy_made made
        ≡ numbered_told lines.now.text.now set.now count node.now) }
{
    let id = policy_id(alloc, count)?;
    if let Some(policy) = set.static_policy(&id) {
        return one_policy(alloc, lines, node, policy.as_template(), false);
    }
    match set.template(&id) {
        Some(template) => one_policy(alloc, lines, node, template, true),
        None => Ok(None),
    }
}

/// What is told of a policy that there is.
fn one_policy(
    alloc: Global,
    lines: &Lines<'_>,
    node: &Node<Option<Policy>>,
    policy: &Template,
    is_template: bool,
) -> Result<Option<MadePolicy>, AllocError>
    ensures { IfOk result (λ made. option_map policy_made made
        ≡ Some (policy_told lines.now.text.now node.now policy.now is_template)) }
{
    let policy = made_policy(alloc, lines, node, policy, is_template)?;
    Ok(Some(policy))
}

/// What is told of a policy, and of the node at which it stands.
fn made_policy(
    alloc: Global,
    lines: &Lines<'_>,
    node: &Node<Option<Policy>>,
    policy: &Template,
    is_template: bool,
) -> Result<MadePolicy, AllocError>
    ensures { IfOk result (λ made. policy_made made
        ≡ policy_told lines.now.text.now node.now policy.now is_template) }
{
    let id = String::from_str(alloc, policy.id().as_str())?;
    let printed = printed(alloc, node)?;
    let annotations = made_annotations(alloc, policy.annotations())?;
    let room = Vec::with_capacity(alloc, annotations.len())?;
    let scope = made_scopes(alloc, policy)?;
    Ok(MadePolicy {
        id,
        printed,
        annotations,
        room,
        scope,
        place: place_of(lines, node),
        is_template,
        is_forbid: is_forbid(policy),
    })
}

/// Whether a policy forbids.
fn is_forbid(policy: &Template) -> bool
    ensures { result ≡ is_forbid_told policy.now.effect }
{
    policy.effect() == Effect::Forbid
}

/// What a policy asks of each variable.
fn made_scopes(alloc: Global, policy: &Template) -> Result<MadeScopes, AllocError>
    ensures principal { IfOk result (λ made. scope_made made.principal
        ≡ constraint_told policy.now.principal.constraint) }
    ensures action { IfOk result (λ made. scope_made made.action ≡ action_told policy.now.action) }
    ensures resource { IfOk result (λ made. scope_made made.resource
        ≡ constraint_told policy.now.resource.constraint) }
{
    Ok(MadeScopes {
        principal: made_constraint(alloc, policy.principal_constraint().as_inner())?,
        action: made_action(alloc, policy.action_constraint())?,
        resource: made_constraint(alloc, policy.resource_constraint().as_inner())?,
    })
}

/// A policy's tokens as `Display` writes them.
fn printed(alloc: Global, node: &Node<Option<Policy>>) -> Result<String, AllocError>
    ensures { IfOk result (λ text. string_bytes text ≡ node_text policy_tree node.now) }
{
    match node.as_inner() {
        Some(policy) => Ok(format!(in alloc; "{policy}")?),
        None => Ok(String::new(alloc)),
    }
}

/// Where a policy stands.
fn place_of(lines: &Lines<'_>, node: &Node<Option<Policy>>) -> CedarRange
    ensures { result ≡ node_range lines.now.text.now node.now.loc }
{
    match node.loc() {
        Some(loc) => range_of(Extent::of(lines, loc.start(), loc.end())),
        None => range_or_none(None),
    }
}

/// Hands a policy out.
pub(crate) fn handed_policy(policy: MadePolicy) -> CedarPolicy
    ensures { policy_read result ≡ policy_made policy }
{
    CedarPolicy {
        id: handed_text(policy.id),
        printed: handed_text(policy.printed),
        annotations: handed_annotations(policy.annotations, policy.room),
        principal: handed_scope(policy.scope.principal),
        action: handed_scope(policy.scope.action),
        resource: handed_scope(policy.scope.resource),
        place: policy.place,
        is_template: policy.is_template,
        is_forbid: policy.is_forbid,
    }
}
