//! A policy as a JSON object on a line. Its fields stand in byte order; docs/USING.md tells them.
ghost use Rattle.std.specs.Prelude.{◌≡◌, IfOk, string_bytes};
ghost use Rattle.cedar_policy_store.specs.PolicyText.{effect_text};
ghost use Rattle.cedar_policy_store.specs.TemplateSlots.{template_slots};
ghost use Rattle.cedar_command.specs.PolicyLines.{set_size};
ghost use Rattle.cedar_report.specs.JsonLines.{optional_range_data};
ghost use Rattle.serde_json.specs.Data.{string};
ghost use Rattle.serde_json.specs.View.{view};
ghost use Rattle.cedar_tool.specs.Listed.{annotations_data, slots_data, line_data, policy_extent, policy_data, numbered_data, IsJsonLine, AreJsonLines};

use cedar_policy_parser::cst_to_ast::policy_id;
use cedar_policy_parser::{PolicySet, Template};
use cedar_report::{Extent, Lines};
use serde_json::{Map, Value, json};
use std::alloc::{AllocError, Global};

/// How many policies a set has, the templates among them.
pub(crate) fn set_size(set: &PolicySet) -> usize
    ensures { result ≡ set_size set.now }
{
    let templates = set.templates().count();
    set.static_policies().count().saturating_add(templates)
}

/// The line of the policy of a number, in the text of these lines; nothing where the set has none.
pub(crate) fn numbered_line(
    alloc: Global,
    name: &str,
    lines: &Lines<'_>,
    set: &PolicySet,
    number: usize,
) -> Result<String, AllocError>
    ensures { IfOk result (λ line. AreJsonLines
        (numbered_data name.now lines.now.text.now set.now number) (string_bytes line)) }
{
    let id = policy_id(alloc, number)?;
    if let Some(policy) = set.static_policy(&id) {
        return line_of(alloc, name, lines, "static", policy.as_template());
    }
    match set.template(&id) {
        Some(template) => line_of(alloc, name, lines, "template", template),
        None => Ok(String::new(alloc)),
    }
}

/// A policy's line.
fn line_of(
    alloc: Global,
    name: &str,
    lines: &Lines<'_>,
    kind: &str,
    policy: &Template,
) -> Result<String, AllocError>
    ensures { IfOk result (λ line. IsJsonLine
        (policy_data name.now lines.now.text.now kind.now policy.now) (string_bytes line)) }
{
    let object = object(alloc, name, lines, kind, policy)?;
    let mut line = object.to_string(alloc)?;
    line.push('\n')?;
    Ok(line)
}

fn object(
    alloc: Global,
    name: &str,
    lines: &Lines<'_>,
    kind: &str,
    policy: &Template,
) -> Result<Value, AllocError>
    ensures { IfOk result (λ value. view value
        ≡ policy_data name.now lines.now.text.now kind.now policy.now) }
{
    let annotations = annotations(alloc, policy)?;
    let effect = effect(alloc, policy)?;
    let id = id(alloc, policy)?;
    let line = first_line(alloc, lines, policy)?;
    let range = policy_range(alloc, lines, policy)?;
    let slots = slots(alloc, policy)?;
    json!(in alloc; {
        "annotations": annotations,
        "effect": effect,
        "file": name,
        "id": id,
        "kind": kind,
        "line": line,
        "range": range,
        "slots": slots
    })
}

fn annotations(alloc: Global, policy: &Template) -> Result<Value, AllocError>
    ensures { IfOk result (λ value. view value ≡ annotations_data policy.now.annotations) }
{
    let mut members = Map::new(alloc);
    for (key, annotation) in policy.annotations().iter() {
        let key = String::from_str(alloc, key.as_str())?;
        let text = Value::try_from_str(alloc, annotation.as_str())?;
        drop(members.insert(key, text)?);
    }
    Ok(Value::Object(members))
}

fn effect(alloc: Global, policy: &Template) -> Result<Value, AllocError>
    ensures { IfOk result (λ value. view value ≡ string (effect_text policy.now.effect)) }
{
    Ok(Value::String(format!(in alloc; "{}", policy.effect())?))
}

fn id(alloc: Global, policy: &Template) -> Result<Value, AllocError>
    ensures { IfOk result (λ value. view value ≡ string policy.now.id) }
{
    Value::try_from_str(alloc, policy.id().as_str())
}

fn slots(alloc: Global, policy: &Template) -> Result<Value, AllocError>
    ensures { IfOk result (λ value. view value ≡ slots_data (template_slots policy.now)) }
{
    let mut names = Vec::new(alloc);
    for slot in policy.slots(alloc)?.iter() {
        names.push(Value::String(format!(in alloc; "{slot}")?))?;
    }
    Ok(Value::Array(names))
}

/// Where a policy stands in the text of these lines.
fn extent(lines: &Lines<'_>, policy: &Template) -> Option<Extent>
    ensures { result ≡ policy_extent lines.now.text.now policy.now }
{
    let place = policy.place()?;
    let end = place.offset.saturating_add(place.length);
    Some(Extent::of(lines, place.offset, end))
}

/// The line on which a policy begins.
fn first_line(alloc: Global, lines: &Lines<'_>, policy: &Template) -> Result<Value, AllocError>
    ensures { IfOk result (λ value. view value
        ≡ line_data (policy_extent lines.now.text.now policy.now)) }
{
    match extent(lines, policy) {
        Some(extent) => json!(in alloc; extent.from.line as u64),
        None => Ok(Value::Null),
    }
}

fn policy_range(alloc: Global, lines: &Lines<'_>, policy: &Template) -> Result<Value, AllocError>
    ensures { IfOk result (λ value. view value
        ≡ optional_range_data (policy_extent lines.now.text.now policy.now)) }
{
    match extent(lines, policy) {
        Some(extent) => extent.json(alloc),
        None => Ok(Value::Null),
    }
}
