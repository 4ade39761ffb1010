//! Entities for the slots of a template.
ghost use Rattle.std.specs.Prelude.{◌≡◌, None};
ghost use Rattle.std.specs.Option.{option_copied};
ghost use Rattle.cedar_expressions.specs.Filled.{entity_for};

use crate::{EntityUID, SlotId};

/// What stands in the place of each slot, where anything does.
#[derive(Debug, Drop, PartialEq, Eq)]
pub struct SlotEntities {
    /// In the place of `?principal`.
    pub principal: Option<EntityUID>,
    /// In the place of `?resource`.
    pub resource: Option<EntityUID>,
}

impl SlotEntities {
    /// No entity for either slot.
    pub fn none() -> SlotEntities
        ensures { result ≡ record { principal = None; resource = None } }
    {
        SlotEntities {
            principal: None,
            resource: None,
        }
    }

    /// The entity for a slot, if there is one.
    pub fn get(&self, id: SlotId) -> Option<&EntityUID>
        ensures { option_copied result ≡ entity_for self.now id }
    {
        match id {
            SlotId::Principal => self.principal.as_ref(),
            SlotId::Resource => self.resource.as_ref(),
        }
    }
}
