//! What a policy asks of the principal, the action and the resource.
ghost use Rattle.std.specs.Prelude.{◌≡◌, ◌∷◌, [], IfOk, MatchResult};
ghost use Rattle.std.specs.List.{list_all};
ghost use Rattle.cedar_policy_store.specs.Actions.{is_action, but_actions, named_entities};
ghost use Rattle.cedar_policy_store.specs.TemplateSlots.{reference_slot, constraint_slot};

use crate::scope_text::MoreEntities;
use cedar_expressions::{EntityType, EntityUID, Items, NodePlace, Slot, SlotId, TryClone};
use std::alloc::{AllocError, Global};
use std::fmt;

/// An entity, or the slot of the variable that the constraint is of. Equality looks at no place.
#[derive(Debug, Drop, PartialEq, Eq)]
pub enum EntityReference {
    /// An entity.
    EUID(EntityUID),
    /// The variable's slot, with the place where it stands.
    Slot(NodePlace),
}

/// What is asked of a principal or a resource.
#[derive(Debug, Drop, PartialEq, Eq)]
pub enum PrincipalOrResourceConstraint {
    /// Nothing.
    Any,
    /// To be an entity.
    Eq(EntityReference),
    /// To be in an entity.
    In(EntityReference),
    /// To be of a type.
    Is(EntityType),
    /// To be of a type, and in an entity.
    IsIn(EntityType, EntityReference),
}

/// What is asked of the principal.
#[derive(Debug, PartialEq, Eq)]
pub struct PrincipalConstraint {
    constraint: PrincipalOrResourceConstraint,
}

impl Drop for PrincipalConstraint {
    fn drop(self) {
        let PrincipalConstraint { constraint: asked } = self;
        drop(asked);
    }
}

/// What is asked of the resource.
#[derive(Debug, PartialEq, Eq)]
pub struct ResourceConstraint {
    constraint: PrincipalOrResourceConstraint,
}

impl Drop for ResourceConstraint {
    fn drop(self) {
        let ResourceConstraint { constraint: asked } = self;
        drop(asked);
    }
}

/// What is asked of the action.
#[derive(Debug, Drop, PartialEq, Eq)]
pub enum ActionConstraint {
    /// Nothing.
    Any,
    /// To be an entity.
    Eq(EntityUID),
    /// To be in one of some entities; `in` one entity is a list of one.
    In(Items<EntityUID>),
}

impl EntityReference {
    /// The slot that the reference is in a constraint of a slot's variable, if it is one.
    fn slot_of(&self, id: SlotId) -> Option<Slot>
        ensures { result ≡ reference_slot id self.now }
    {
        match self {
            EntityReference::EUID(_) => None,
            EntityReference::Slot(mark) => Some(Slot {
                id,
                place: mark.get(),
            }),
        }
    }
}

impl PrincipalOrResourceConstraint {
    /// The slot in a constraint of a slot's variable, if there is one.
    fn slot_of(&self, id: SlotId) -> Option<Slot>
        ensures { result ≡ constraint_slot id self.now }
    {
        match self {
            PrincipalOrResourceConstraint::Any | PrincipalOrResourceConstraint::Is(_) => None,
            PrincipalOrResourceConstraint::Eq(reference) => reference.slot_of(id),
            PrincipalOrResourceConstraint::In(reference) => reference.slot_of(id),
            PrincipalOrResourceConstraint::IsIn(_, reference) => reference.slot_of(id),
        }
    }
}

impl PrincipalConstraint {
    /// What is asked of the principal.
    pub fn new(constraint: PrincipalOrResourceConstraint) -> PrincipalConstraint
        ensures { result.constraint ≡ constraint }
    {
        PrincipalConstraint { constraint }
    }

    /// What is asked.
    pub fn as_inner(&self) -> &PrincipalOrResourceConstraint
        ensures { result.now ≡ self.now.constraint }
    {
        &self.constraint
    }

    /// What is asked, moved out.
    pub fn into_inner(self) -> PrincipalOrResourceConstraint
        ensures { result ≡ self.constraint }
    {
        let PrincipalConstraint { constraint } = self;
        constraint
    }

    /// The slot `?principal` with its place, where the constraint has it.
    pub fn slot(&self) -> Option<Slot>
        ensures { result ≡ constraint_slot SlotId.Principal self.now.constraint }
    {
        self.constraint.slot_of(SlotId::Principal)
    }
}

impl ResourceConstraint {
    /// What is asked of the resource.
    pub fn new(constraint: PrincipalOrResourceConstraint) -> ResourceConstraint
        ensures { result.constraint ≡ constraint }
    {
        ResourceConstraint { constraint }
    }

    /// What is asked.
    pub fn as_inner(&self) -> &PrincipalOrResourceConstraint
        ensures { result.now ≡ self.now.constraint }
    {
        &self.constraint
    }

    /// What is asked, moved out.
    pub fn into_inner(self) -> PrincipalOrResourceConstraint
        ensures { result ≡ self.constraint }
    {
        let ResourceConstraint { constraint } = self;
        constraint
    }

    /// The slot `?resource` with its place, where the constraint has it.
    pub fn slot(&self) -> Option<Slot>
        ensures { result ≡ constraint_slot SlotId.Resource self.now.constraint }
    {
        self.constraint.slot_of(SlotId::Resource)
    }
}

impl ActionConstraint {
    /// The constraint as it is where each of its entities has an action type, one whose last
    /// identifier is `Action`; else its entities that have none, in order. Want of memory hands
    /// nothing back.
    pub fn contains_only_action_types(
        self,
        alloc: Global,
    ) -> Result<Result<ActionConstraint, (EntityUID, Vec<EntityUID>)>, AllocError>
        ensures { IfOk result (λ answer. MatchResult answer
            (λ same. (same ≡ self) × (but_actions (named_entities self) ≡ []))
            (λ others. but_actions (named_entities self) ≡ others.0 ∷ others.1.items)) }
    {
        match self {
            ActionConstraint::Any => Ok(Ok(ActionConstraint::Any)),
            ActionConstraint::Eq(entity) => Ok(if has_action_type(&entity) {
                Ok(ActionConstraint::Eq(entity))
            } else {
                Err((entity, Vec::new(alloc)))
            }),
            ActionConstraint::In(entities) => match all_but_actions(alloc, entities)? {
                Ok(entities) => Ok(Ok(ActionConstraint::In(entities))),
                Err(others) => Ok(Err(others)),
            },
        }
    }
}

/// The list as it is where each entity has an action type, else those that have none, in order.
fn all_but_actions(
    alloc: Global,
    entities: Items<EntityUID>,
) -> Result<Result<Items<EntityUID>, (EntityUID, Vec<EntityUID>)>, AllocError>
    ensures { IfOk result (λ answer. MatchResult answer
        (λ same. (same ≡ entities) × (but_actions entities ≡ []))
        (λ others. but_actions entities ≡ others.0 ∷ others.1.items)) }
{
    if are_actions(entities.as_slice()) {
        return Ok(Ok(entities));
    }
    let mut others = without_actions(alloc, entities.into_vec())?;
    let first = others.remove(0);
    Ok(Err((first, others)))
}

/// Whether each entity has an action type.
fn are_actions(entities: &[EntityUID]) -> bool
    ensures { result ≡ list_all is_action entities.now }
{
    entities.iter().all(|entity| has_action_type(entity))
}

/// The entities that have no action type, in order.
fn without_actions(alloc: Global, entities: Vec<EntityUID>) -> Result<Vec<EntityUID>, AllocError>
    ensures { IfOk result (λ others. others.items ≡ but_actions entities.items) }
{
    let mut others = Vec::new(alloc);
    for entity in entities {
        if !has_action_type(&entity) {
            others.push(entity)?;
        }
    }
    Ok(others)
}

/// Whether the last identifier of the entity's type is `Action`.
fn has_action_type(entity: &EntityUID) -> bool
    ensures { result ≡ is_action entity.now }
{
    entity.entity_type().name().basename().as_str() == "Action"
}

impl TryClone for EntityReference {
    fn try_clone(&self) -> Result<EntityReference, AllocError> {
        match self {
            EntityReference::EUID(entity) => Ok(EntityReference::EUID(entity.try_clone()?)),
            EntityReference::Slot(mark) => Ok(EntityReference::Slot(*mark)),
        }
    }
}

impl TryClone for PrincipalOrResourceConstraint {
    fn try_clone(&self) -> Result<PrincipalOrResourceConstraint, AllocError> {
        match self {
            PrincipalOrResourceConstraint::Any => Ok(PrincipalOrResourceConstraint::Any),
            PrincipalOrResourceConstraint::Eq(reference) => {
                Ok(PrincipalOrResourceConstraint::Eq(reference.try_clone()?))
            }
            PrincipalOrResourceConstraint::In(reference) => {
                Ok(PrincipalOrResourceConstraint::In(reference.try_clone()?))
            }
            PrincipalOrResourceConstraint::Is(entity_type) => {
                Ok(PrincipalOrResourceConstraint::Is(entity_type.try_clone()?))
            }
            PrincipalOrResourceConstraint::IsIn(entity_type, reference) => {
                let entity_type = entity_type.try_clone()?;
                let reference = reference.try_clone()?;
                Ok(PrincipalOrResourceConstraint::IsIn(entity_type, reference))
            }
        }
    }
}

impl TryClone for PrincipalConstraint {
    fn try_clone(&self) -> Result<PrincipalConstraint, AllocError> {
        Ok(PrincipalConstraint {
            constraint: self.constraint.try_clone()?,
        })
    }
}

impl TryClone for ResourceConstraint {
    fn try_clone(&self) -> Result<ResourceConstraint, AllocError> {
        Ok(ResourceConstraint {
            constraint: self.constraint.try_clone()?,
        })
    }
}

impl TryClone for ActionConstraint {
    fn try_clone(&self) -> Result<ActionConstraint, AllocError> {
        match self {
            ActionConstraint::Any => Ok(ActionConstraint::Any),
            ActionConstraint::Eq(entity) => Ok(ActionConstraint::Eq(entity.try_clone()?)),
            ActionConstraint::In(entities) => Ok(ActionConstraint::In(entities.try_clone()?)),
        }
    }
}

impl Clone for EntityReference {
    ghost is_clone = { λ x y. y ≡ x };

    fn clone(&self) -> Result<EntityReference, AllocError> {
        self.try_clone()
    }
}

impl Clone for PrincipalOrResourceConstraint {
    ghost is_clone = { λ x y. y ≡ x };

    fn clone(&self) -> Result<PrincipalOrResourceConstraint, AllocError> {
        self.try_clone()
    }
}

impl Clone for PrincipalConstraint {
    ghost is_clone = { λ x y. y ≡ x };

    fn clone(&self) -> Result<PrincipalConstraint, AllocError> {
        self.try_clone()
    }
}

impl Clone for ResourceConstraint {
    ghost is_clone = { λ x y. y ≡ x };

    fn clone(&self) -> Result<ResourceConstraint, AllocError> {
        self.try_clone()
    }
}

impl Clone for ActionConstraint {
    ghost is_clone = { λ x y. y ≡ x };

    fn clone(&self) -> Result<ActionConstraint, AllocError> {
        self.try_clone()
    }
}

/// The entity, or `?`: a reference alone doesn't know whose slot it is.
impl fmt::Display for EntityReference {
    ghost use Rattle.std.proofs.Common.{Some};
    ghost use Rattle.cedar_policy_store.specs.PolicyText.{reference_text};

    ghost output = { λ reference. Some (reference_text reference) };

    fn fmt<W: fmt::Write>(&self, f: &mut fmt::Formatter<W>) -> fmt::Result {
        match self {
            EntityReference::EUID(entity) => entity.fmt(f),
            EntityReference::Slot(_) => f.write_str("?"),
        }
    }
}

/// What is asked, behind the variable that it is asked of, with `?` for that variable's slot.
impl fmt::Display for PrincipalOrResourceConstraint {
    ghost use Rattle.std.proofs.Common.{Some};
    ghost use Rattle.cedar_policy_store.specs.PolicyText.{constraint_text};

    ghost output = { λ constraint. Some (constraint_text constraint) };

    fn fmt<W: fmt::Write>(&self, f: &mut fmt::Formatter<W>) -> fmt::Result {
        match self {
            PrincipalOrResourceConstraint::Any => f.write_str("any"),
            PrincipalOrResourceConstraint::Eq(reference) => write!(f, "== {reference}"),
            PrincipalOrResourceConstraint::In(reference) => write!(f, "in {reference}"),
            PrincipalOrResourceConstraint::Is(entity_type) => write!(f, "is {entity_type}"),
            PrincipalOrResourceConstraint::IsIn(entity_type, reference) => {
                write!(f, "is {entity_type} in {reference}")
            }
        }
    }
}

/// As a policy's scope has it: `principal`, `principal == User::"a"`, `principal is T in
/// ?principal`.
impl fmt::Display for PrincipalConstraint {
    ghost use Rattle.std.proofs.Common.{Some};
    ghost use Rattle.cedar_policy_store.specs.PolicyText.{principal_text};

    ghost output = { λ principal. Some (principal_text principal) };

    fn fmt<W: fmt::Write>(&self, f: &mut fmt::Formatter<W>) -> fmt::Result {
        self.constraint.asked_of(SlotId::Principal).fmt(f)
    }
}

/// As a policy's scope has it: `resource`, `resource in Album::"a"`, `resource == ?resource`.
impl fmt::Display for ResourceConstraint {
    ghost use Rattle.std.proofs.Common.{Some};
    ghost use Rattle.cedar_policy_store.specs.PolicyText.{resource_text};

    ghost output = { λ resource. Some (resource_text resource) };

    fn fmt<W: fmt::Write>(&self, f: &mut fmt::Formatter<W>) -> fmt::Result {
        self.constraint.asked_of(SlotId::Resource).fmt(f)
    }
}

/// As a policy's scope has it: `action`, `action == Action::"a"`, `action in [Action::"a"]`.
impl fmt::Display for ActionConstraint {
    ghost use Rattle.std.proofs.Common.{Some};
    ghost use Rattle.cedar_policy_store.specs.PolicyText.{action_text};

    ghost output = { λ action. Some (action_text action) };

    fn fmt<W: fmt::Write>(&self, f: &mut fmt::Formatter<W>) -> fmt::Result {
        match self {
            ActionConstraint::Any => f.write_str("action"),
            ActionConstraint::Eq(entity) => write!(f, "action == {entity}"),
            ActionConstraint::In(entities) => match entities.as_slice().split_first() {
                None => f.write_str("action in []"),
                Some((first, more)) => write!(f, "action in [{first}{}]", MoreEntities(more)),
            },
        }
    }
}
