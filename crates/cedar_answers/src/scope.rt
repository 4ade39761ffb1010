//! The parts of a policy's scope: made, and then handed out.
ghost use Rattle.std.specs.Prelude.{◌≡◌, IfOk, string_bytes};
ghost use Rattle.std.specs.Option.{option_copied};
ghost use Rattle.cedar_answers.specs.Made.{entities_made, scope_made};
ghost use Rattle.cedar_answers.specs.Told.{action_told, constraint_told, is_slot_told, listing_told, referred_told, referring_told, scope_read, type_told, typed_told};

use crate::answer::CedarScope;
use crate::entities::{handed_entities, lone, made_entities};
use crate::made::{MadeEntity, MadeScope};
use crate::texts::handed_text;
use cedar_policy_parser::{
    ActionConstraint, EntityReference, EntityType, PrincipalOrResourceConstraint,
};
use std::alloc::{AllocError, Global};

/// What is asked of a principal or a resource.
pub(crate) fn made_constraint(
    alloc: Global,
    constraint: &PrincipalOrResourceConstraint,
) -> Result<MadeScope, AllocError>
    ensures { IfOk result (λ made. scope_made made ≡ constraint_told constraint.now) }
{
    match constraint {
        PrincipalOrResourceConstraint::Any => listing(alloc, "All", Vec::new(alloc)),
        PrincipalOrResourceConstraint::Eq(reference) => referring(alloc, "==", None, reference),
        PrincipalOrResourceConstraint::In(reference) => referring(alloc, "in", None, reference),
        PrincipalOrResourceConstraint::Is(entity_type) => typed(alloc, entity_type),
        PrincipalOrResourceConstraint::IsIn(entity_type, reference) => {
            referring(alloc, "is", Some(entity_type), reference)
        }
    }
}

/// What is asked of an action.
pub(crate) fn made_action(
    alloc: Global,
    constraint: &ActionConstraint,
) -> Result<MadeScope, AllocError>
    ensures { IfOk result (λ made. scope_made made ≡ action_told constraint.now) }
{
    match constraint {
        ActionConstraint::Any => listing(alloc, "All", Vec::new(alloc)),
        ActionConstraint::Eq(entity) => listing(alloc, "==", lone(alloc, entity)?),
        ActionConstraint::In(entities) => {
            listing(alloc, "in", made_entities(alloc, entities.as_slice())?)
        }
    }
}

/// An operator with a list of entities.
fn listing(
    alloc: Global,
    operator: &'static str,
    entities: Vec<MadeEntity>,
) -> Result<MadeScope, AllocError>
    ensures { IfOk result (λ made. scope_made made
        ≡ listing_told operator.now (entities_made entities.items)) }
{
    let room = Vec::with_capacity(alloc, entities.len())?;
    Ok(MadeScope {
        operator,
        entity_type: String::new(alloc),
        entities,
        room,
        is_slot: false,
    })
}

/// `is` and a type.
fn typed(alloc: Global, entity_type: &EntityType) -> Result<MadeScope, AllocError>
    ensures { IfOk result (λ made. scope_made made ≡ typed_told entity_type.now) }
{
    Ok(MadeScope {
        operator: "is",
        entity_type: format!(in alloc; "{entity_type}")?,
        entities: Vec::new(alloc),
        room: Vec::new(alloc),
        is_slot: false,
    })
}

/// An operator with an entity or a slot, behind a type if there is one.
fn referring(
    alloc: Global,
    operator: &'static str,
    entity_type: Option<&EntityType>,
    reference: &EntityReference,
) -> Result<MadeScope, AllocError>
    ensures { IfOk result (λ made. scope_made made ≡ referring_told operator.now
        (option_copied entity_type.entry) reference.now) }
{
    let entity_type = type_text(alloc, entity_type)?;
    let entities = referred(alloc, reference)?;
    let room = Vec::with_capacity(alloc, entities.len())?;
    Ok(MadeScope {
        operator,
        entity_type,
        entities,
        room,
        is_slot: is_slot(reference),
    })
}

/// The text of a type, where there is one.
fn type_text(alloc: Global, entity_type: Option<&EntityType>) -> Result<String, AllocError>
    ensures { IfOk result (λ text. string_bytes text
        ≡ type_told (option_copied entity_type.entry)) }
{
    match entity_type {
        Some(entity_type) => format!(in alloc; "{entity_type}"),
        None => Ok(String::new(alloc)),
    }
}

/// The entity of a reference, where it isn't a slot.
fn referred(alloc: Global, reference: &EntityReference) -> Result<Vec<MadeEntity>, AllocError>
    ensures { IfOk result (λ all. entities_made all.items ≡ referred_told reference.now) }
{
    match reference {
        EntityReference::EUID(entity) => lone(alloc, entity),
        EntityReference::Slot(_) => Ok(Vec::new(alloc)),
    }
}

/// Whether a reference is a slot.
fn is_slot(reference: &EntityReference) -> bool
    ensures { result ≡ is_slot_told reference.now }
{
    match reference {
        EntityReference::EUID(_) => false,
        EntityReference::Slot(_) => true,
    }
}

/// Hands a scope's part out.
pub(crate) fn handed_scope(made: MadeScope) -> CedarScope
    ensures { scope_read result ≡ scope_made made }
{
    CedarScope {
        operator: made.operator.as_bytes(),
        entity_type: handed_text(made.entity_type),
        entities: handed_entities(made.entities, made.room),
        is_slot: made.is_slot,
    }
}
