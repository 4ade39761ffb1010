//! Policies, templates and sets of them, as text.

use crate::reports::{add, copies};
use crate::values::value_text;
use cedar_policy_store::{Annotations, PolicyID, PolicySet, Template};
use std::alloc::{AllocError, Global};

/// A line for each policy of a set, by its name.
pub(crate) fn set_text(alloc: Global, set: &PolicySet) -> Result<String, AllocError> {
    let mut lines = String::new(alloc);
    let templates = set.templates().count();
    let count = set.static_policies().count().saturating_add(templates);
    for number in 0..count {
        let id = PolicyID::new(format!(in alloc; "policy{number}")?);
        add_policy(alloc, &mut lines, set, &id)?;
    }
    copies(&mut lines, set)?;
    Ok(lines)
}

/// Puts a line for the policy of a name, if there is one, behind those that are there.
fn add_policy(
    alloc: Global,
    lines: &mut String,
    set: &PolicySet,
    id: &PolicyID,
) -> Result<(), AllocError> {
    if let Some(policy) = set.static_policy(id) {
        let line = policy_text(alloc, "static", policy.as_template())?;
        add(lines, line.as_str())?;
    }
    if let Some(template) = set.template(id) {
        let line = policy_text(alloc, "template", template)?;
        add(lines, line.as_str())?;
    }
    Ok(())
}

/// A policy's name, what it is, its annotations in the order of their keys, its effect, and what
/// it asks.
pub(crate) fn policy_text(
    alloc: Global,
    what: &str,
    policy: &Template,
) -> Result<String, AllocError> {
    let annotations = annotations_text(alloc, policy.annotations())?;
    let condition = condition_text(alloc, policy)?;
    let (id, effect) = (policy.id(), policy.effect());
    let (principal, resource) = (policy.principal_constraint(), policy.resource_constraint());
    let action = policy.action_constraint();
    let scope = format!(in alloc; "{principal}, {action}, {resource}")?;
    format!(in alloc; "{id} {what}:{annotations} {effect}({scope}){condition}")
}

/// Each annotation as it may be written, behind a space.
fn annotations_text(alloc: Global, annotations: &Annotations) -> Result<String, AllocError> {
    let mut text = String::new(alloc);
    for (key, value) in annotations.iter() {
        let annotation = format!(in alloc; " @{key}(\"{value}\")")?;
        text.push_str(annotation.as_str())?;
    }
    Ok(text)
}

/// The condition's value behind ` when `, if there is a condition.
fn condition_text(alloc: Global, policy: &Template) -> Result<String, AllocError> {
    match policy.non_scope_constraints() {
        Some(condition) => {
            let value = value_text(alloc, condition, false)?;
            format!(in alloc; " when {value}")
        }
        None => Ok(String::new(alloc)),
    }
}
