//! The entities of a scope: made, and then handed out.
ghost use Rattle.std.specs.Prelude.{◌≡◌, ◌≤◌, [], ◌∷◌, length, map, IfOk};
ghost use Rattle.std.specs.Vec.{vec_capacity};
ghost use Rattle.cedar_answers.specs.Made.{entity_made, entities_made};
ghost use Rattle.cedar_answers.specs.Told.{entities_read, entity_read, entity_told};

use crate::answer::CedarEntity;
use crate::made::MadeEntity;
use crate::texts::handed_text;
use cedar_policy_parser::EntityUID;
use std::alloc::{AllocError, Global};

/// An entity's type and id.
fn made_entity(alloc: Global, entity: &EntityUID) -> Result<MadeEntity, AllocError>
    ensures { IfOk result (λ made. entity_made made ≡ entity_told entity.now) }
{
    let entity_type = entity.entity_type();
    Ok(MadeEntity {
        entity_type: format!(in alloc; "{entity_type}")?,
        id: String::from_str(alloc, entity.eid().as_str())?,
    })
}

/// One entity as a list.
pub(crate) fn lone(alloc: Global, entity: &EntityUID) -> Result<Vec<MadeEntity>, AllocError>
    ensures { IfOk result (λ all. entities_made all.items ≡ entity_told entity.now ∷ []) }
{
    let mut all = Vec::with_capacity(alloc, 1)?;
    all.push(made_entity(alloc, entity)?)?;
    Ok(all)
}

/// The entities of a list, in order.
pub(crate) fn made_entities(
    alloc: Global,
    entities: &[EntityUID],
) -> Result<Vec<MadeEntity>, AllocError>
    ensures { IfOk result (λ all. entities_made all.items ≡ map entity_told entities.now) }
{
    let mut all = Vec::with_capacity(alloc, entities.len())?;
    for entity in entities {
        all.push(made_entity(alloc, entity)?)?;
    }
    Ok(all)
}

/// Hands all out; there is room for it.
pub(crate) fn handed_entities(
    made: Vec<MadeEntity>,
    room: Vec<CedarEntity>,
) -> &'static [CedarEntity]
    requires fits { length made.items ≤ vec_capacity room }
    requires empty { room.items ≡ [] }
    ensures { entities_read result.now ≡ entities_made made.items }
{
    let mut all = room;
    for entity in made {
        all.push_reserved(handed_entity(entity));
    }
    all.leak()
}

fn handed_entity(entity: MadeEntity) -> CedarEntity
    ensures { entity_read result ≡ entity_made entity }
{
    CedarEntity {
        entity_type: handed_text(entity.entity_type),
        id: handed_text(entity.id),
    }
}
