//! Entities: a type, which is a name, and an id.
ghost use Rattle.std.specs.Prelude.{◌≡◌};

use crate::escape::EscapedText;
use crate::{Name, Text, TryClone};
use std::alloc::AllocError;
use std::fmt;

/// The identifier of an entity within its type: any text.
#[derive(Debug, Drop, PartialEq, Eq)]
pub struct Eid {
    text: Text,
}

impl Eid {
    /// The identifier with a text.
    pub fn new(text: Text) -> Eid
        ensures { result.text ≡ text }
    {
        Eid { text }
    }

    /// The text of the identifier.
    pub fn as_str(&self) -> &str
        ensures { result.now ≡ self.now.text }
    {
        self.text.as_str()
    }
}

/// The type of an entity.
#[derive(Debug, Drop, PartialEq, Eq)]
pub struct EntityType {
    name: Name,
}

impl EntityType {
    /// The name of the type.
    pub fn name(&self) -> &Name
        ensures { result.now ≡ self.now.name }
    {
        &self.name
    }
}

impl From<Name> for EntityType {
    ghost from_gives = { λ name entity_type. entity_type ≡ record { name = name } };

    fn from(name: Name) -> EntityType {
        EntityType { name }
    }
}

/// An entity: its type and its identifier.
#[derive(Debug, Drop, PartialEq, Eq)]
pub struct EntityUID {
    entity_type: EntityType,
    eid: Eid,
}

impl EntityUID {
    /// The entity of a type and an identifier.
    pub fn from_components(entity_type: EntityType, eid: Eid) -> EntityUID
        ensures { result ≡ record { entity_type = entity_type; eid = eid } }
    {
        EntityUID { entity_type, eid }
    }

    /// The type of the entity.
    pub fn entity_type(&self) -> &EntityType
        ensures { result.now ≡ self.now.entity_type }
    {
        &self.entity_type
    }

    /// The identifier within the type.
    pub fn eid(&self) -> &Eid
        ensures { result.now ≡ self.now.eid }
    {
        &self.eid
    }
}

impl TryClone for Eid {
    fn try_clone(&self) -> Result<Eid, AllocError> {
        Ok(Eid {
            text: self.text.try_clone()?,
        })
    }
}

impl Clone for Eid {
    ghost is_clone = { λ x y. y ≡ x };

    fn clone(&self) -> Result<Eid, AllocError> {
        self.try_clone()
    }
}

impl TryClone for EntityType {
    fn try_clone(&self) -> Result<EntityType, AllocError> {
        Ok(EntityType {
            name: self.name.try_clone()?,
        })
    }
}

impl Clone for EntityType {
    ghost is_clone = { λ x y. y ≡ x };

    fn clone(&self) -> Result<EntityType, AllocError> {
        self.try_clone()
    }
}

impl TryClone for EntityUID {
    fn try_clone(&self) -> Result<EntityUID, AllocError> {
        Ok(EntityUID {
            entity_type: self.entity_type.try_clone()?,
            eid: self.eid.try_clone()?,
        })
    }
}

impl Clone for EntityUID {
    ghost is_clone = { λ x y. y ≡ x };

    fn clone(&self) -> Result<EntityUID, AllocError> {
        self.try_clone()
    }
}

impl fmt::Display for Eid {
    ghost use Rattle.std.proofs.Common.{Some};

    ghost output = { λ eid. Some eid.text };

    fn fmt<W: fmt::Write>(&self, f: &mut fmt::Formatter<W>) -> fmt::Result {
        f.write_str(self.as_str())
    }
}

impl fmt::Display for EntityType {
    ghost use Rattle.std.proofs.Common.{Some};
    ghost use Rattle.cedar_expressions.specs.Path.{name_text};

    ghost output = { λ entity_type. Some (name_text entity_type.name) };

    fn fmt<W: fmt::Write>(&self, f: &mut fmt::Formatter<W>) -> fmt::Result {
        self.name.fmt(f)
    }
}

/// The type, `::` and the identifier as a string is written: the text is read as this entity.
impl fmt::Display for EntityUID {
    ghost use Rattle.std.proofs.Common.{Some};
    ghost use Rattle.cedar_expressions.specs.Written.{entity_text};

    ghost output = { λ entity. Some (entity_text entity) };

    fn fmt<W: fmt::Write>(&self, f: &mut fmt::Formatter<W>) -> fmt::Result {
        let identifier = EscapedText::new(self.eid.as_str());
        write!(f, "{}::\"{identifier}\"", self.entity_type)
    }
}
