//! Policies made of a template, by entities in the place of its slots.
ghost use Rattle.std.specs.Prelude.{◌≡◌, OnOk, OnErr, IfOk, IfErr, is_some};
ghost use Rattle.std.specs.Option.{option_copied, option_map};
ghost use Rattle.cedar_expressions.specs.Copies.{copied};
ghost use Rattle.cedar_expressions.specs.Filled.{entity_for, filled, slots_left};
ghost use Rattle.cedar_expressions.specs.Meaning.{expr_meaning};
ghost use Rattle.cedar_policy_store.specs.Links.{constraint_with, reference_with, among_slots, is_same_slot, Fits, IsFilled, IsLinked, IsMisfit, IsSlotRefusal, IsLinkRefusal, SetWithLinked};
ghost use Rattle.cedar_policy_store.specs.TemplateSlots.{condition_slots, template_slots};

use crate::held::beside;
use crate::{
    EntityReference, PolicyID, PolicySet, PolicySetError, PrincipalConstraint,
    PrincipalOrResourceConstraint, ResourceConstraint, StaticPolicy, Template,
};
use cedar_expressions::{EntityUID, Expr, Slot, SlotEntities, SlotId, TryClone};
use std::alloc::AllocError;
use std::error::Error;
use std::fmt;

/// Why a template wasn't linked; the set is as it was.
#[derive(Debug, Drop, PartialEq, Eq)]
pub enum LinkError {
    /// Want of memory.
    Memory(AllocError),
    /// The set has no template of this name.
    NoSuchTemplate { id: PolicyID },
    /// The set has a static policy or a template of the new name.
    Occupied { id: PolicyID },
    /// A slot of the template has no entity.
    NoEntity(SlotId),
    /// There is an entity for a slot that the template hasn't.
    NoSlot(SlotId),
}

impl From<AllocError> for LinkError {
    ghost use Rattle.std.specs.Prelude.{◌≡◌};
    ghost use Rattle.cedar_policy_store.specs.declared.link.LinkError.TheVariants.{Memory};

    ghost from_gives = { λ want error. error ≡ Memory want };

    fn from(want: AllocError) -> LinkError {
        LinkError::Memory(want)
    }
}

impl PolicySet {
    /// Adds the static policy that a template becomes with entities in the place of its slots,
    /// under a new name; the template stays. Refused with `NoSuchTemplate` where the set has no
    /// template of the name; else with `Occupied` where it has a policy or a template of the new
    /// one; else with `NoEntity` or `NoSlot` where the slots aren't those that have an entity,
    /// that of the principal first. After a refusal, want of memory too, the set is as it was.
    ///
    ///     let entities = SlotEntities { principal: Some(user), resource: None };
    ///     set.link(&template, policy, &entities)?;
    pub fn link(
        &mut self,
        template: &PolicyID,
        id: PolicyID,
        entities: &SlotEntities,
    ) -> Result<(), LinkError>
        ensures added { OnOk result
            (SetWithLinked self.old template.now id entities.now self.new) }
        ensures refused { IfErr result (IsLinkRefusal self.old template.now id entities.now) }
        ensures unchanged { OnErr result (self.new ≡ self.old) }
    {
        let Some(found) = self.template(template) else {
            return Err(LinkError::NoSuchTemplate {
                id: template.try_clone()?,
            });
        };
        if self.contains(&id) {
            return Err(LinkError::Occupied { id });
        }
        let policy = found.link(id, entities)?;
        match self.add_static(policy) {
            Ok(()) => Ok(()),
            Err(PolicySetError::Memory(want)) => Err(LinkError::Memory(want)),
            Err(PolicySetError::Occupied { id }) => Err(LinkError::Occupied { id }),
        }
    }
}

impl Template {
    /// The static policy that the template becomes under a name, with entities in the place of its
    /// slots. Refused with `NoEntity` or `NoSlot` where the slots aren't those that have an
    /// entity, that of the principal first, or for want of memory.
    pub fn link(&self, id: PolicyID, entities: &SlotEntities) -> Result<StaticPolicy, LinkError>
        ensures linked { IfOk result (IsLinked self.now id entities.now) }
        ensures refused { IfErr result (IsSlotRefusal self.now entities.now) }
    {
        let slots = self.slots(self.id().alloc())?;
        fit(slots.as_slice(), SlotId::Principal, entities)?;
        fit(slots.as_slice(), SlotId::Resource, entities)?;
        Ok(StaticPolicy::of_static(self.with_entities(id, entities)?))
    }

    /// The template under a name, with entities in the place of its slots; a slot without an
    /// entity stays.
    fn with_entities(&self, id: PolicyID, entities: &SlotEntities) -> Result<Template, AllocError>
        ensures { IfOk result (IsFilled self.now id entities.now) }
    {
        let parts = beside(id, self.annotations().try_clone())?;
        let principal = filled_constraint(
            self.principal_constraint().as_inner(),
            entities.principal.as_ref(),
        );
        let parts = beside(parts, principal)?;
        let parts = beside(parts, self.action_constraint().try_clone())?;
        let resource = filled_constraint(
            self.resource_constraint().as_inner(),
            entities.resource.as_ref(),
        );
        let parts = beside(parts, resource)?;
        let condition = filled_condition(self.non_scope_constraints(), entities);
        let (parts, condition) = beside(parts, condition)?;
        let ((((id, annotations), principal), action), resource) = parts;
        Ok(Template::new(
            id,
            self.place(),
            annotations,
            self.effect(),
            PrincipalConstraint::new(principal),
            action,
            ResourceConstraint::new(resource),
            condition,
        ))
    }
}

/// Refuses a slot that has an entity and doesn't stand among these, or stands there without one.
fn fit(slots: &[Slot], id: SlotId, entities: &SlotEntities) -> Result<(), LinkError>
    ensures fits { OnOk result (Fits slots.now entities.now id) }
    ensures refused { IfErr result (IsMisfit slots.now entities.now id) }
{
    let stands = stands_among(id, slots);
    match entities.get(id) {
        Some(_) => {
            if stands {
                Ok(())
            } else {
                Err(LinkError::NoSlot(id))
            }
        }
        None => {
            if stands {
                Err(LinkError::NoEntity(id))
            } else {
                Ok(())
            }
        }
    }
}

/// Whether a slot stands among some.
fn stands_among(id: SlotId, slots: &[Slot]) -> bool
    ensures { result ≡ among_slots id slots.now }
{
    slots.iter().any(|slot| is_same(id, slot.id))
}

fn is_same(id: SlotId, other: SlotId) -> bool
    ensures { result ≡ is_same_slot id other }
{
    match (id, other) {
        (SlotId::Principal, SlotId::Principal) => true,
        (SlotId::Principal, SlotId::Resource) => false,
        (SlotId::Resource, SlotId::Principal) => false,
        (SlotId::Resource, SlotId::Resource) => true,
    }
}

/// The condition with entities in the place of its slots.
fn filled_condition(
    condition: Option<&Expr>,
    entities: &SlotEntities,
) -> Result<Option<Expr>, AllocError>
    ensures { IfOk result (λ copy.
        copy ≡ option_map (copied entities.now) (option_copied condition.entry)) }
{
    match condition {
        None => Ok(None),
        Some(condition) => Ok(Some(condition.with_entities(entities)?)),
    }
}

/// What is asked, with an entity in the place of the variable's slot.
fn filled_constraint(
    asked: &PrincipalOrResourceConstraint,
    entity: Option<&EntityUID>,
) -> Result<PrincipalOrResourceConstraint, AllocError>
    ensures { IfOk result (λ copy.
        copy ≡ constraint_with (option_copied entity.entry) asked.now) }
{
    match asked {
        PrincipalOrResourceConstraint::Any => Ok(PrincipalOrResourceConstraint::Any),
        PrincipalOrResourceConstraint::Eq(one) => {
            Ok(PrincipalOrResourceConstraint::Eq(filled_reference(one, entity)?))
        }
        PrincipalOrResourceConstraint::In(one) => {
            Ok(PrincipalOrResourceConstraint::In(filled_reference(one, entity)?))
        }
        PrincipalOrResourceConstraint::Is(entity_type) => {
            Ok(PrincipalOrResourceConstraint::Is(entity_type.try_clone()?))
        }
        PrincipalOrResourceConstraint::IsIn(entity_type, one) => {
            let entity_type = entity_type.try_clone()?;
            let one = filled_reference(one, entity)?;
            Ok(PrincipalOrResourceConstraint::IsIn(entity_type, one))
        }
    }
}

/// An entity, or the one in the place of the variable's slot.
fn filled_reference(
    one: &EntityReference,
    entity: Option<&EntityUID>,
) -> Result<EntityReference, AllocError>
    ensures { IfOk result (λ copy.
        copy ≡ reference_with (option_copied entity.entry) one.now) }
{
    match one {
        EntityReference::EUID(own) => Ok(EntityReference::EUID(own.try_clone()?)),
        EntityReference::Slot(mark) => match entity {
            Some(entity) => Ok(EntityReference::EUID(entity.try_clone()?)),
            None => Ok(EntityReference::Slot(*mark)),
        },
    }
}

impl fmt::Display for LinkError {
    ghost use Rattle.std.proofs.Common.{Some};
    ghost use Rattle.cedar_policy_store.specs.PolicyText.{link_error_text};

    ghost output = { λ error. Some (link_error_text error) };

    fn fmt<W: fmt::Write>(&self, f: &mut fmt::Formatter<W>) -> fmt::Result {
        match self {
            LinkError::Memory(_) => f.write_str("want of memory"),
            LinkError::NoSuchTemplate { id } => write!(f, "no template has the id `{id}`"),
            LinkError::Occupied { id } => write!(f, "duplicate template or policy id `{id}`"),
            LinkError::NoEntity(slot) => write!(f, "no entity for the slot `{slot}`"),
            LinkError::NoSlot(slot) => write!(f, "the template has no slot `{slot}`"),
        }
    }
}

impl Error for LinkError {}

impl TryClone for LinkError {
    fn try_clone(&self) -> Result<LinkError, AllocError> {
        match self {
            LinkError::Memory(want) => Ok(LinkError::Memory(*want)),
            LinkError::NoSuchTemplate { id } => Ok(LinkError::NoSuchTemplate {
                id: id.try_clone()?,
            }),
            LinkError::Occupied { id } => Ok(LinkError::Occupied {
                id: id.try_clone()?,
            }),
            LinkError::NoEntity(slot) => Ok(LinkError::NoEntity(*slot)),
            LinkError::NoSlot(slot) => Ok(LinkError::NoSlot(*slot)),
        }
    }
}

impl Clone for LinkError {
    ghost is_clone = { λ x y. y ≡ x };

    fn clone(&self) -> Result<LinkError, AllocError> {
        self.try_clone()
    }
}
