//! Slots: which slot of a template a form is, and which variable of the scope can have it.
ghost use Rattle.std.specs.Prelude.{◌≡◌};
ghost use Rattle.cedar_syntax.specs.trees.Slots.{GivesSlot, matches as matches_var};

use crate::cst::Slot;
use crate::err::{Failure, ParseErrors, ToASTError, ToASTErrorKind};
use cedar_expressions::{SlotId, TryClone, Var};
use std::alloc::Global;

impl Slot {
    /// Whether this is the slot of a variable of the scope: `?principal` of `principal`,
    /// `?resource` of `resource`.
    pub fn matches(&self, var: Var) -> bool
        ensures { result ≡ matches_var self.now var }
    {
        match (self, var) {
            (Slot::Principal, Var::Principal) => true,
            (Slot::Resource, Var::Resource) => true,
            _ => false,
        }
    }

    /// The slot of a template that this is, or `InvalidSlot` without a place. For `?principal` and
    /// `?resource` it takes no memory.
    pub fn to_slot_id(&self, alloc: Global) -> Result<SlotId, Failure>
        ensures { GivesSlot self.now result }
    {
        match self {
            Slot::Principal => Ok(SlotId::Principal),
            Slot::Resource => Ok(SlotId::Resource),
            Slot::Other(text) => {
                let kind = ToASTErrorKind::InvalidSlot(text.try_clone()?);
                let fault = ToASTError::new(kind, None);
                Err(Failure::Errors(ParseErrors::from_ast(alloc, fault)))
            }
        }
    }
}

impl From<SlotId> for Slot {
    ghost use Rattle.std.specs.Prelude.{◌≡◌};
    ghost use Rattle.cedar_syntax.specs.trees.Slots.{written_slot};

    ghost from_gives = { λ id slot. slot ≡ written_slot id };

    fn from(id: SlotId) -> Slot {
        match id {
            SlotId::Principal => Slot::Principal,
            SlotId::Resource => Slot::Resource,
        }
    }
}
