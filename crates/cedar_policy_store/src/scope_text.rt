//! How constraints of a scope are shown behind the variable that they are of.
ghost use Rattle.std.specs.Prelude.{◌≡◌};
ghost use Rattle.cedar_policy_store.specs.PolicyText.{slot_variable};

use crate::constraints::{EntityReference, PrincipalOrResourceConstraint};
use cedar_expressions::{EntityUID, SlotId, Var};
use std::fmt;

/// A reference in a constraint of this slot's variable.
#[derive(Clone, Copy)]
pub(crate) struct Referred<'a> {
    id: SlotId,
    reference: &'a EntityReference,
}

impl fmt::Display for Referred<'_> {
    ghost use Rattle.std.proofs.Common.{Some};
    ghost use Rattle.cedar_policy_store.specs.PolicyText.{slotted_text};

    ghost output = { λ referred. Some (slotted_text referred.id referred.reference.now) };

    fn fmt<W: fmt::Write>(&self, f: &mut fmt::Formatter<W>) -> fmt::Result {
        match self.reference {
            EntityReference::EUID(entity) => entity.fmt(f),
            EntityReference::Slot(_) => self.id.fmt(f),
        }
    }
}

/// What is asked of this slot's variable.
#[derive(Clone, Copy)]
pub(crate) struct AskedOf<'a> {
    id: SlotId,
    constraint: &'a PrincipalOrResourceConstraint,
}

impl<'a> AskedOf<'a> {
    /// The slot's variable.
    fn variable(&self) -> Var
        ensures { result ≡ slot_variable self.now.id }
    {
        match self.id {
            SlotId::Principal => Var::Principal,
            SlotId::Resource => Var::Resource,
        }
    }

    /// A reference in the constraint.
    fn referred(&self, reference: &'a EntityReference) -> Referred<'a>
        ensures id { result.id ≡ self.now.id }
        ensures reference { result.reference.now ≡ reference.now }
    {
        Referred {
            id: self.id,
            reference,
        }
    }
}

impl fmt::Display for AskedOf<'_> {
    ghost use Rattle.std.proofs.Common.{Some};
    ghost use Rattle.cedar_policy_store.specs.PolicyText.{asked_of_text};

    ghost output = { λ asked. Some (asked_of_text asked.id asked.constraint.now) };

    fn fmt<W: fmt::Write>(&self, f: &mut fmt::Formatter<W>) -> fmt::Result {
        let variable = self.variable();
        match self.constraint {
            PrincipalOrResourceConstraint::Any => variable.fmt(f),
            PrincipalOrResourceConstraint::Eq(reference) => {
                write!(f, "{variable} == {}", self.referred(reference))
            }
            PrincipalOrResourceConstraint::In(reference) => {
                write!(f, "{variable} in {}", self.referred(reference))
            }
            PrincipalOrResourceConstraint::Is(entity_type) => {
                write!(f, "{variable} is {entity_type}")
            }
            PrincipalOrResourceConstraint::IsIn(entity_type, reference) => {
                let reference = self.referred(reference);
                write!(f, "{variable} is {entity_type} in {reference}")
            }
        }
    }
}

impl PrincipalOrResourceConstraint {
    /// The constraint as one of this slot's variable, to be shown.
    pub(crate) fn asked_of(&self, id: SlotId) -> AskedOf<'_>
        ensures id { result.id ≡ id }
        ensures constraint { result.constraint.now ≡ self.now }
    {
        AskedOf {
            id,
            constraint: self,
        }
    }
}

/// Later entities of a list, each behind a comma.
#[derive(Clone, Copy)]
pub(crate) struct MoreEntities<'a>(pub(crate) &'a [EntityUID]);

impl fmt::Display for MoreEntities<'_> {
    ghost use Rattle.std.proofs.Common.{Some};
    ghost use Rattle.cedar_policy_store.specs.PolicyText.{more_entities_text};

    ghost output = { λ more. Some (more_entities_text more.0.now) };

    fn fmt<W: fmt::Write>(&self, f: &mut fmt::Formatter<W>) -> fmt::Result {
        for entity in self.0 {
            write!(f, ", {entity}")?;
        }
        Ok(())
    }
}
