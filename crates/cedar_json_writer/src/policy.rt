//! Policies and templates, and sets of them.
ghost use Rattle.std.specs.Prelude.{◌≡◌, ◌∷◌, ◌++◌, [], codes, map};
ghost use Rattle.std.specs.FinMap as maps;
ghost use Rattle.std.specs.List.{flat_map};
ghost use Rattle.std.specs.Option.{option_copied, option_map};
ghost use Rattle.json.specs.Token as token;
ghost use Rattle.json.specs.Tree.{json_tokens, items_tokens, members_tokens};
ghost use Rattle.cedar_expressions.specs.Meaning.{unplaced};
ghost use Rattle.cedar_policy_store.specs.PlaceFree.{at_value, annotation_value, template_meaning};
ghost use Rattle.cedar_policy_store.specs.PolicyText.{effect_text};
ghost use Rattle.cedar_json_writer.specs.Forms.{value_json};
ghost use Rattle.cedar_json_writer.specs.FunctionKeys.{keys_called};
ghost use Rattle.cedar_json_writer.specs.PolicyForms.{annotations_member, body_json, text_members, condition_items, condition_json, conditions_apart, conditions_listed, keys_called_by, policy_json, policy_members, set_json};
ghost use Rattle.cedar_json_writer.specs.machines.Outputs.{Appends, Checks, scope_tokens};

use crate::refusal::ToJsonError;
use crate::scope::{write_action, write_constraint};
use crate::shape::{joined, negated};
use crate::writer::write_expr;
use cedar_expressions::{Expr, SlotId};
use cedar_policy_store::{Annotations, Effect, PolicySet, Template};
use json::Writer;
use std::alloc::{AllocError, Global};

/// Writes a set: its static policies and its templates, each under its name, and no links.
pub fn write_set(alloc: Global, set: &PolicySet, out: &mut Writer) -> Result<(), ToJsonError>
    ensures tokens { Appends result out.old out.new (json_tokens (set_json
        (map template_meaning (maps.values set.now.policies))
        (map template_meaning (maps.values set.now.templates)))) }
    ensures called { Checks (flat_map keys_called_by (map template_meaning
        (maps.values set.now.policies ++ maps.values set.now.templates))) result }
{
    out.begin_object()?;
    out.key("staticPolicies")?;
    write_static_policies(alloc, set, out)?;
    out.key("templates")?;
    write_templates(alloc, set, out)?;
    Ok(write_no_links(out)?)
}

fn write_static_policies(
    alloc: Global,
    set: &PolicySet,
    out: &mut Writer,
) -> Result<(), ToJsonError>
    ensures tokens { Appends result out.old out.new (token.begin_object ∷ members_tokens
        (policy_members (map template_meaning (maps.values set.now.policies)))) }
    ensures called { Checks (flat_map keys_called_by
        (map template_meaning (maps.values set.now.policies))) result }
{
    out.begin_object()?;
    for policy in set.static_policies() {
        write_named(alloc, policy.as_template(), out)?;
    }
    Ok(out.end_object()?)
}

fn write_templates(alloc: Global, set: &PolicySet, out: &mut Writer) -> Result<(), ToJsonError>
    ensures tokens { Appends result out.old out.new (token.begin_object ∷ members_tokens
        (policy_members (map template_meaning (maps.values set.now.templates)))) }
    ensures called { Checks (flat_map keys_called_by
        (map template_meaning (maps.values set.now.templates))) result }
{
    out.begin_object()?;
    for template in set.templates() {
        write_named(alloc, template, out)?;
    }
    Ok(out.end_object()?)
}

/// An empty list of links, and the brace that closes the set.
fn write_no_links(out: &mut Writer) -> Result<(), AllocError>
    ensures { Appends result out.old out.new (token.key (codes "templateLinks") ∷ token.begin_array
        ∷ token.end_array ∷ token.end_object ∷ []) }
{
    out.key("templateLinks")?;
    out.begin_array()?;
    out.end_array()?;
    out.end_object()
}

/// A policy or a template as a member of a set.
fn write_named(alloc: Global, template: &Template, out: &mut Writer) -> Result<(), ToJsonError>
    ensures tokens { Appends result out.old out.new (token.key template.now.id
        ∷ json_tokens (policy_json (template_meaning template.now))) }
    ensures called { Checks (keys_called_by (template_meaning template.now)) result }
{
    out.key(template.id().as_str())?;
    write_template(alloc, template, out)
}

/// Writes a policy or a template, without its name.
pub fn write_template(
    alloc: Global,
    template: &Template,
    out: &mut Writer,
) -> Result<(), ToJsonError>
    ensures tokens { Appends result out.old out.new
        (json_tokens (policy_json (template_meaning template.now))) }
    ensures called { Checks (keys_called_by (template_meaning template.now)) result }
{
    write_scope(alloc, template, out)?;
    write_conditions_member(alloc, template.non_scope_constraints(), out)?;
    Ok(write_annotations_member(template.annotations(), out)?)
}

/// The brace that opens a policy, its effect and its scope.
fn write_scope(alloc: Global, template: &Template, out: &mut Writer) -> Result<(), AllocError>
    ensures { Appends result out.old out.new (scope_tokens (template_meaning template.now)) }
{
    write_effect(template.effect(), out)?;
    out.key("principal")?;
    let principal = template.principal_constraint().as_inner();
    write_constraint(alloc, SlotId::Principal, principal, out)?;
    out.key("action")?;
    write_action(alloc, template.action_constraint(), out)?;
    out.key("resource")?;
    let resource = template.resource_constraint().as_inner();
    write_constraint(alloc, SlotId::Resource, resource, out)
}

fn write_effect(effect: Effect, out: &mut Writer) -> Result<(), AllocError>
    ensures { Appends result out.old out.new (token.begin_object ∷ token.key (codes "effect")
        ∷ token.string (effect_text effect) ∷ []) }
{
    out.begin_object()?;
    out.key("effect")?;
    match effect {
        Effect::Permit => out.string("permit"),
        Effect::Forbid => out.string("forbid"),
    }
}

/// The conditions as a member.
fn write_conditions_member(
    alloc: Global,
    condition: Option<&Expr>,
    out: &mut Writer,
) -> Result<(), ToJsonError>
    ensures tokens { Appends result out.old out.new (token.key (codes "conditions")
        ∷ token.begin_array ∷ items_tokens (condition_items (conditions_listed
        (option_map unplaced (option_copied condition.entry))))) }
    ensures called { Checks (flat_map (λ c. keys_called c []) (conditions_listed
        (option_map unplaced (option_copied condition.entry)))) result }
{
    out.key("conditions")?;
    out.begin_array()?;
    write_condition_list(alloc, condition, out)?;
    Ok(out.end_array()?)
}

fn write_condition_list(
    alloc: Global,
    condition: Option<&Expr>,
    out: &mut Writer,
) -> Result<(), ToJsonError>
    ensures tokens { Appends result out.old out.new
        (flat_map (λ c. json_tokens (condition_json c)) (conditions_listed
        (option_map unplaced (option_copied condition.entry)))) }
    ensures called { Checks (flat_map (λ c. keys_called c []) (conditions_listed
        (option_map unplaced (option_copied condition.entry)))) result }
{
    match condition {
        None => Ok(()),
        Some(condition) => write_conditions(alloc, condition, out),
    }
}

/// Conditions that were joined, written apart again.
fn write_conditions(alloc: Global, condition: &Expr, out: &mut Writer) -> Result<(), ToJsonError>
    ensures tokens { Appends result out.old out.new
        (flat_map (λ c. json_tokens (condition_json c))
        (conditions_apart (unplaced condition.now))) }
    ensures called { Checks (flat_map (λ c. keys_called c [])
        (conditions_apart (unplaced condition.now))) result }
{
    let mut left = condition;
    while let Some(both) = joined(left) {
        write_condition(alloc, &both.0, out)?;
        left = &both.1;
    }
    write_condition(alloc, left, out)
}

/// A condition: `when` and an expression, or `unless` and what it negates.
fn write_condition(alloc: Global, condition: &Expr, out: &mut Writer) -> Result<(), ToJsonError>
    ensures tokens { Appends result out.old out.new
        (json_tokens (condition_json (unplaced condition.now))) }
    ensures called { Checks (keys_called (unplaced condition.now) []) result }
{
    match negated(condition) {
        Some(body) => write_body(alloc, "unless", body, out),
        None => write_body(alloc, "when", condition, out),
    }
}

fn write_body(alloc: Global, kind: &str, body: &Expr, out: &mut Writer) -> Result<(), ToJsonError>
    ensures tokens { Appends result out.old out.new
        (json_tokens (body_json kind.now (unplaced body.now))) }
    ensures called { Checks (keys_called (unplaced body.now) []) result }
{
    write_kind(kind, out)?;
    write_expr(alloc, body, out)?;
    Ok(out.end_object()?)
}

/// What stands before a condition's expression.
fn write_kind(kind: &str, out: &mut Writer) -> Result<(), AllocError>
    ensures { Appends result out.old out.new (token.begin_object ∷ token.key (codes "kind")
        ∷ token.string kind.now ∷ token.key (codes "body") ∷ []) }
{
    out.begin_object()?;
    out.key("kind")?;
    out.string(kind)?;
    out.key("body")
}

/// The annotations as a member, if there are any, and the brace that closes the policy.
fn write_annotations_member(annotations: &Annotations, out: &mut Writer) -> Result<(), AllocError>
    ensures { Appends result out.old out.new (members_tokens (annotations_member
        (map (at_value annotation_value) (maps.entries annotations.now)))) }
{
    if annotations.is_empty() {
        return out.end_object();
    }
    out.key("annotations")?;
    out.begin_object()?;
    write_annotations(annotations, out)?;
    out.end_object()
}

/// The annotations, and the brace that closes their object.
fn write_annotations(annotations: &Annotations, out: &mut Writer) -> Result<(), AllocError>
    ensures { Appends result out.old out.new (members_tokens (text_members
        (map (at_value annotation_value) (maps.entries annotations.now)))) }
{
    for (key, annotation) in annotations.iter() {
        out.key(key.as_str())?;
        out.string(annotation.as_str())?;
    }
    out.end_object()
}
