//! Names: an identifier behind others, parted by `::`.
ghost use Rattle.std.specs.Prelude.{◌≡◌, [], MatchResult, false, true};
ghost use Rattle.std.specs.List.{list_any};
ghost use Rattle.cedar_expressions.specs.Path.{Path, is_reserved_namespace, has_reserved_namespace, name_text};

use crate::{Id, Items, TryClone, UnreservedId};
use std::alloc::AllocError;
use std::error::Error;
use std::fmt;
use std::marker::Model;

/// A name that may hold `__cedar`: identifiers before the last `::`, and a last one.
#[derive(Debug, Drop, PartialEq, Eq, PartialOrd, Ord, Hash)]
pub struct InternalName {
    path: Items<Id>,
    id: Id,
}

impl Model for InternalName {
    ghost use Rattle.cedar_expressions.specs.Path.{Path};

    ghost Value = { Path };

    ghost view = { λ fields. record { path = fields.path; id = fields.id } };

    ghost inverse = { λ name. record { path = name.path; id = name.id } };
}

impl InternalName {
    /// The name of a last identifier and those before it.
    pub fn new(basename: Id, path: Vec<Id>) -> InternalName
        ensures { result ≡ record { path = path.items; id = basename } }
    {
        InternalName {
            path: Items::from(path),
            id: basename,
        }
    }

    /// The last identifier.
    pub fn basename(&self) -> &Id
        ensures { result.now ≡ self.now.id }
    {
        &self.id
    }

    /// The identifiers before the last one.
    pub fn namespace_components(&self) -> &[Id]
        ensures { result.now ≡ self.now.path }
    {
        self.path.as_slice()
    }

    /// Whether an identifier of the name is the reserved `__cedar`.
    pub fn is_reserved(&self) -> bool
        ensures { result ≡ has_reserved_namespace self.now }
    {
        any_reserved(self.path.as_slice()) || self.id.is_reserved()
    }
}

/// Whether some identifier is the reserved `__cedar`.
fn any_reserved(ids: &[Id]) -> bool
    ensures { result ≡ list_any is_reserved_namespace ids.now }
{
    ids.iter().any(|id| id.is_reserved())
}

/// A name without `__cedar`.
#[derive(Debug, Drop, PartialEq, Eq, PartialOrd, Ord, Hash)]
pub struct Name {
    name: InternalName,
}

impl Model for Name {
    ghost use Rattle.std.specs.Prelude.{◌≡◌, false};
    ghost use Rattle.cedar_expressions.specs.Path.{Path, has_reserved_namespace};

    ghost Value = { Path };

    ghost view = { λ fields. fields.name };

    ghost invariant = { λ fields. has_reserved_namespace fields.name ≡ false };

    ghost inverse = { λ name. record { name = name } };
}

impl Name {
    /// The last identifier.
    pub fn basename(&self) -> &Id
        ensures { result.now ≡ self.now.id }
    {
        self.name.basename()
    }

    /// The same name where reserved ones may stand too.
    pub fn as_internal(&self) -> &InternalName
        ensures same { result.now ≡ self.now }
        ensures unreserved { has_reserved_namespace self.now ≡ false }
    {
        &self.name
    }

    /// The same name, moved out.
    pub fn into_internal(self) -> InternalName
        ensures { result ≡ self }
    {
        let Name { name } = self;
        name
    }
}

impl From<UnreservedId> for Name {
    ghost use Rattle.std.specs.Prelude.{◌≡◌, []};

    ghost from_gives = { λ id name. name ≡ record { path = []; id = id } };

    fn from(id: UnreservedId) -> Name {
        let alloc = id.alloc();
        Name {
            name: InternalName::new(Id::from(id), Vec::new(alloc)),
        }
    }
}

impl TryFrom<InternalName> for Name {
    type Error = ReservedNameError;

    ghost use Rattle.std.specs.Prelude.{◌≡◌, MatchResult, true, false};
    ghost use Rattle.cedar_expressions.specs.Path.{has_reserved_namespace};

    ghost try_from_gives = { λ name result. MatchResult result (λ unreserved. (unreserved ≡ name)
        × (has_reserved_namespace name ≡ false)) (λ error. (error.name ≡ name)
        × (has_reserved_namespace name ≡ true)) };

    fn try_from(name: InternalName) -> Result<Name, ReservedNameError> {
        if name.is_reserved() {
            Err(ReservedNameError { name })
        } else {
            Ok(Name { name })
        }
    }
}

impl TryFrom<Id> for UnreservedId {
    type Error = ReservedNameError;

    ghost use Rattle.std.specs.Prelude.{◌≡◌, [], MatchResult, true, false};
    ghost use Rattle.cedar_expressions.specs.Path.{is_reserved_namespace};

    ghost try_from_gives = { λ id result. MatchResult result (λ unreserved. (unreserved ≡ id)
        × (is_reserved_namespace id ≡ false)) (λ error.
        (error.name ≡ record { path = []; id = id }) × (is_reserved_namespace id ≡ true)) };

    fn try_from(id: Id) -> Result<UnreservedId, ReservedNameError> {
        let alloc = id.alloc();
        match UnreservedId::unless_reserved(id) {
            Ok(unreserved) => Ok(unreserved),
            Err(id) => Err(ReservedNameError {
                name: InternalName::new(id, Vec::new(alloc)),
            }),
        }
    }
}

/// The refusal of a name that holds `__cedar`, with the name.
#[derive(Debug, Drop, PartialEq, Eq)]
pub struct ReservedNameError {
    name: InternalName,
}

impl ReservedNameError {
    /// The name that was refused.
    pub fn name(&self) -> &InternalName
        ensures { result.now ≡ self.now.name }
    {
        &self.name
    }
}

impl fmt::Display for ReservedNameError {
    ghost use Rattle.std.proofs.Common.{Some};
    ghost use Rattle.cedar_expressions.specs.Written.{reserved_text};

    ghost output = { λ error. Some (reserved_text error) };

    fn fmt<W: fmt::Write>(&self, f: &mut fmt::Formatter<W>) -> fmt::Result {
        write!(
            f,
            "the name `{}` is reserved: it holds `__cedar`",
            self.name
        )
    }
}

impl Error for ReservedNameError {}

impl fmt::Display for InternalName {
    ghost use Rattle.std.proofs.Common.{Some};
    ghost use Rattle.cedar_expressions.specs.Path.{name_text};

    ghost output = { λ name. Some (name_text name) };

    fn fmt<W: fmt::Write>(&self, f: &mut fmt::Formatter<W>) -> fmt::Result {
        for id in self.path.as_slice() {
            write!(f, "{id}::")?;
        }
        f.write_str(self.id.as_str())
    }
}

impl fmt::Display for Name {
    ghost use Rattle.std.proofs.Common.{Some};
    ghost use Rattle.cedar_expressions.specs.Path.{name_text};

    ghost output = { λ name. Some (name_text name) };

    fn fmt<W: fmt::Write>(&self, f: &mut fmt::Formatter<W>) -> fmt::Result {
        self.name.fmt(f)
    }
}

impl TryClone for InternalName {
    fn try_clone(&self) -> Result<InternalName, AllocError> {
        Ok(InternalName {
            path: self.path.try_clone()?,
            id: self.id.try_clone()?,
        })
    }
}

impl Clone for InternalName {
    ghost is_clone = { λ x y. y ≡ x };

    fn clone(&self) -> Result<InternalName, AllocError> {
        self.try_clone()
    }
}

impl TryClone for Name {
    fn try_clone(&self) -> Result<Name, AllocError> {
        Ok(Name {
            name: self.name.try_clone()?,
        })
    }
}

impl Clone for Name {
    ghost is_clone = { λ x y. y ≡ x };

    fn clone(&self) -> Result<Name, AllocError> {
        self.try_clone()
    }
}

impl TryClone for ReservedNameError {
    fn try_clone(&self) -> Result<ReservedNameError, AllocError> {
        Ok(ReservedNameError {
            name: self.name.try_clone()?,
        })
    }
}

impl Clone for ReservedNameError {
    ghost is_clone = { λ x y. y ≡ x };

    fn clone(&self) -> Result<ReservedNameError, AllocError> {
        self.try_clone()
    }
}
