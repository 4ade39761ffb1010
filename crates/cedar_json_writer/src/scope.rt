//! What a policy asks of the principal, the action and the resource.
ghost use Rattle.std.specs.Prelude.{codes};
ghost use Rattle.json.specs.Json.{array, member, no_members};
ghost use Rattle.json.specs.Tree.{json_tokens, items_tokens, members_tokens};
ghost use Rattle.cedar_policy_store.specs.PlaceFree.{constraint_meaning, reference_meaning, own_slot};
ghost use Rattle.cedar_json_writer.specs.Forms.{entity_json};
ghost use Rattle.cedar_json_writer.specs.PolicyForms.{constraint_json, reference_member, action_json, entities_member, entity_items};
ghost use Rattle.cedar_json_writer.specs.machines.Outputs.{Appends, op_tokens, is_tokens};

use crate::opening::slot_word;
use crate::writer::write_name;
use cedar_expressions::{EntityType, EntityUID, SlotId};
use cedar_policy_store::{ActionConstraint, EntityReference, PrincipalOrResourceConstraint};
use json::Writer;
use std::alloc::{AllocError, Global};

/// Writes what is asked of the variable that has this slot.
pub fn write_constraint(
    alloc: Global,
    slot: SlotId,
    constraint: &PrincipalOrResourceConstraint,
    out: &mut Writer,
) -> Result<(), AllocError>
    ensures { Appends result out.old out.new
        (json_tokens (constraint_json slot (constraint_meaning constraint.now))) }
{
    match constraint {
        PrincipalOrResourceConstraint::Any => {
            write_op("All", out)?;
            out.end_object()
        }
        PrincipalOrResourceConstraint::Eq(reference) => {
            write_op("==", out)?;
            write_reference(alloc, slot, reference, out)
        }
        PrincipalOrResourceConstraint::In(reference) => {
            write_op("in", out)?;
            write_reference(alloc, slot, reference, out)
        }
        PrincipalOrResourceConstraint::Is(entity_type) => {
            write_type(alloc, entity_type, out)?;
            out.end_object()
        }
        PrincipalOrResourceConstraint::IsIn(entity_type, reference) => {
            write_type(alloc, entity_type, out)?;
            out.key("in")?;
            out.begin_object()?;
            write_reference(alloc, slot, reference, out)?;
            out.end_object()
        }
    }
}

/// The brace that opens an object, and its member `op`.
fn write_op(op: &str, out: &mut Writer) -> Result<(), AllocError>
    ensures { Appends result out.old out.new (op_tokens op.now) }
{
    out.begin_object()?;
    out.key("op")?;
    out.string(op)
}

/// The same of `is`, and the type.
fn write_type(alloc: Global, entity_type: &EntityType, out: &mut Writer) -> Result<(), AllocError>
    ensures { Appends result out.old out.new (is_tokens entity_type.now) }
{
    write_op("is", out)?;
    out.key("entity_type")?;
    write_name(alloc, entity_type.name(), out)
}

/// An entity, or the slot, and the brace that closes the object.
fn write_reference(
    alloc: Global,
    slot: SlotId,
    reference: &EntityReference,
    out: &mut Writer,
) -> Result<(), AllocError>
    ensures { Appends result out.old out.new
        (members_tokens (reference_member slot (reference_meaning reference.now))) }
{
    match reference {
        EntityReference::EUID(entity) => write_entity_member(alloc, entity, out),
        EntityReference::Slot(_) => write_slot_member(slot, out),
    }
}

fn write_slot_member(slot: SlotId, out: &mut Writer) -> Result<(), AllocError>
    ensures { Appends result out.old out.new (members_tokens (reference_member slot own_slot)) }
{
    out.key("slot")?;
    out.string(slot_word(slot))?;
    out.end_object()
}

fn write_entity_member(
    alloc: Global,
    entity: &EntityUID,
    out: &mut Writer,
) -> Result<(), AllocError>
    ensures { Appends result out.old out.new (members_tokens
        (member (codes "entity") (entity_json entity.now) no_members)) }
{
    out.key("entity")?;
    write_entity(alloc, entity, out)?;
    out.end_object()
}

/// An entity where nothing else can stand.
fn write_entity(alloc: Global, entity: &EntityUID, out: &mut Writer) -> Result<(), AllocError>
    ensures { Appends result out.old out.new (json_tokens (entity_json entity.now)) }
{
    out.begin_object()?;
    out.key("type")?;
    write_name(alloc, entity.entity_type().name(), out)?;
    out.key("id")?;
    out.string(entity.eid().as_str())?;
    out.end_object()
}

/// Writes what is asked of the action.
pub fn write_action(
    alloc: Global,
    action: &ActionConstraint,
    out: &mut Writer,
) -> Result<(), AllocError>
    ensures { Appends result out.old out.new (json_tokens (action_json action.now)) }
{
    match action {
        ActionConstraint::Any => {
            write_op("All", out)?;
            out.end_object()
        }
        ActionConstraint::Eq(entity) => {
            write_op("==", out)?;
            write_entity_member(alloc, entity, out)
        }
        ActionConstraint::In(entities) => {
            write_op("in", out)?;
            write_entities_member(alloc, entities.as_slice(), out)
        }
    }
}

/// One entity, or a list of them, and the brace that closes the object.
fn write_entities_member(
    alloc: Global,
    entities: &[EntityUID],
    out: &mut Writer,
) -> Result<(), AllocError>
    ensures { Appends result out.old out.new (members_tokens (entities_member entities.now)) }
{
    match entities.split_first() {
        None => write_entity_list(alloc, entities, out),
        Some((entity, others)) => if others.is_empty() {
            write_entity_member(alloc, entity, out)
        } else {
            write_entity_list(alloc, entities, out)
        },
    }
}

/// A list of entities as a member, and the brace that closes the object.
fn write_entity_list(
    alloc: Global,
    entities: &[EntityUID],
    out: &mut Writer,
) -> Result<(), AllocError>
    ensures { Appends result out.old out.new (members_tokens
        (member (codes "entities") (array (entity_items entities.now)) no_members)) }
{
    out.key("entities")?;
    out.begin_array()?;
    write_entities(alloc, entities, out)?;
    out.end_object()
}

/// Entities, and the bracket that closes their array.
fn write_entities(alloc: Global, entities: &[EntityUID], out: &mut Writer) -> Result<(), AllocError>
    ensures { Appends result out.old out.new (items_tokens (entity_items entities.now)) }
{
    for entity in entities {
        write_entity(alloc, entity, out)?;
    }
    out.end_array()
}
