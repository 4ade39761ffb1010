//! Where a value stands, which its meaning doesn't see.
ghost use Rattle.std.specs.Prelude.{◌≡◌, true};
ghost use Rattle.cedar_expressions.specs.Placed.{marked_place};
ghost use Rattle.std.specs.Cmp.Rules.{comparing};
ghost use Rattle.std.proofs.Common.{rules};

use crate::{SlotId, TryClone};
use std::alloc::AllocError;
use std::fmt;

/// Where something stands in a text: `length` bytes from `offset` on. Nothing is claimed of either
/// number.
#[derive(Debug, Clone, Copy, PartialEq, Eq)]
pub struct Place {
    pub offset: usize,
    pub length: usize,
}

/// A slot with the place where it stands, if that is known.
#[derive(Debug, Clone, Copy, PartialEq, Eq)]
pub struct Slot {
    pub id: SlotId,
    pub place: Option<Place>,
}

/// The place of a node, if it is known. All of them are equal, so that equality of trees looks at
/// no place.
#[derive(Debug, Clone, Copy)]
pub struct NodePlace {
    place: Option<Place>,
}

impl NodePlace {
    /// The place.
    pub fn get(self) -> Option<Place>
        ensures { result ≡ marked_place self }
    {
        self.place
    }
}

impl From<Option<Place>> for NodePlace {
    ghost from_gives = { λ place mark. mark ≡ record { place = place } };

    fn from(place: Option<Place>) -> NodePlace {
        NodePlace { place }
    }
}

impl PartialEq for NodePlace {
    ghost eq = { λ _ _. true };

    ghost laws = { Prim.search (comparing, rules) };

    fn eq(&self, _other: &Self) -> bool {
        true
    }
}

impl Eq for NodePlace {
    ghost laws = { Prim.search rules };
}

impl TryClone for Place {
    fn try_clone(&self) -> Result<Place, AllocError> {
        Ok(*self)
    }
}

impl TryClone for Slot {
    fn try_clone(&self) -> Result<Slot, AllocError> {
        Ok(*self)
    }
}

impl fmt::Display for Place {
    ghost use Rattle.std.proofs.Common.{Some};
    ghost use Rattle.cedar_expressions.specs.Written.{place_text};

    ghost output = { λ place. Some (place_text place) };

    fn fmt<W: fmt::Write>(&self, f: &mut fmt::Formatter<W>) -> fmt::Result {
        write!(f, "{} bytes from {} on", self.length, self.offset)
    }
}

impl fmt::Display for Slot {
    ghost use Rattle.std.proofs.Common.{Some};
    ghost use Rattle.cedar_expressions.specs.Written.{slot_text};

    ghost output = { λ slot. Some (slot_text slot.id) };

    fn fmt<W: fmt::Write>(&self, f: &mut fmt::Formatter<W>) -> fmt::Result {
        self.id.fmt(f)
    }
}
