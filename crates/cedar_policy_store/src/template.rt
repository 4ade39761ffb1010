//! A policy with its parts, in which slots may stand.
ghost use Rattle.std.specs.Prelude.{◌≡◌, IfOk, slice_get, Option};
ghost use Rattle.std.specs.Option.{option_copied};
ghost use Rattle.cedar_expressions.specs.Placed.{marked_place};
ghost use Rattle.cedar_policy_store.specs.TemplateSlots.{template_slots};

use crate::held::beside;
use crate::{
    ActionConstraint, Annotations, Effect, PolicyID, PrincipalConstraint, ResourceConstraint,
};
use cedar_expressions::{Expr, NodePlace, Place, Slot, TryClone};
use std::alloc::{AllocError, Global};
use std::fmt;

/// A policy in which the slots `?principal` and `?resource` may stand. Equality looks at no place.
#[derive(Debug, PartialEq, Eq)]
pub struct Template {
    id: PolicyID,
    place: NodePlace,
    annotations: Annotations,
    effect: Effect,
    principal: PrincipalConstraint,
    action: ActionConstraint,
    resource: ResourceConstraint,
    condition: Option<Expr>,
}

/// In a call of its own, so that what drops a template doesn't show each of its parts.
impl Drop for Template {
    fn drop(self) {
        let Template {
            id,
            place: _,
            annotations,
            effect: _,
            principal,
            action,
            resource,
            condition,
        } = self;
        drop((id, annotations));
        drop((principal, action, resource));
        drop(condition);
    }
}

impl Template {
    /// The template of these parts, at a place if one is known. It takes no memory.
    pub fn new(
        id: PolicyID,
        place: Option<Place>,
        annotations: Annotations,
        effect: Effect,
        principal: PrincipalConstraint,
        action: ActionConstraint,
        resource: ResourceConstraint,
        condition: Option<Expr>,
    ) -> Template
        ensures id { result.id ≡ id }
        ensures place { marked_place result.place ≡ place }
        ensures annotations { result.annotations ≡ annotations }
        ensures effect { result.effect ≡ effect }
        ensures principal { result.principal ≡ principal }
        ensures action { result.action ≡ action }
        ensures resource { result.resource ≡ resource }
        ensures condition { result.condition ≡ condition }
    {
        Template {
            id,
            place: NodePlace::from(place),
            annotations,
            effect,
            principal,
            action,
            resource,
            condition,
        }
    }

    /// The template's name within a set.
    pub fn id(&self) -> &PolicyID
        ensures { result.now ≡ self.now.id }
    {
        &self.id
    }

    /// Where the template stands, if that is known; a policy that was linked stands where its
    /// template does.
    pub fn place(&self) -> Option<Place>
        ensures { result ≡ marked_place self.now.place }
    {
        self.place.get()
    }

    /// The annotations.
    pub fn annotations(&self) -> &Annotations
        ensures { result.now ≡ self.now.annotations }
    {
        &self.annotations
    }

    /// What the template does where it applies.
    pub fn effect(&self) -> Effect
        ensures { result ≡ self.now.effect }
    {
        self.effect
    }

    /// What is asked of the principal.
    pub fn principal_constraint(&self) -> &PrincipalConstraint
        ensures { result.now ≡ self.now.principal }
    {
        &self.principal
    }

    /// What is asked of the action.
    pub fn action_constraint(&self) -> &ActionConstraint
        ensures { result.now ≡ self.now.action }
    {
        &self.action
    }

    /// What is asked of the resource.
    pub fn resource_constraint(&self) -> &ResourceConstraint
        ensures { result.now ≡ self.now.resource }
    {
        &self.resource
    }

    /// What is asked beside the scope, if anything is.
    pub fn non_scope_constraints(&self) -> Option<&Expr>
        ensures { option_copied result ≡ self.now.condition }
    {
        self.condition.as_ref()
    }

    /// The name, moved out.
    pub fn into_id(self) -> PolicyID
        ensures { result ≡ self.id }
    {
        let Template {
            id,
            place: _,
            annotations,
            effect: _,
            principal,
            action,
            resource,
            condition,
        } = self;
        drop((annotations, principal, action, resource, condition));
        id
    }

    /// Each slot with its place: the principal's, the resource's, and then those of the condition
    /// from the left.
    pub fn slots(&self, alloc: Global) -> Result<Vec<Slot>, AllocError>
        ensures { IfOk result (λ slots. slots.items ≡ template_slots self.now) }
    {
        let mut slots = Vec::new(alloc);
        if let Some(slot) = self.principal.slot() {
            slots.push(slot)?;
        }
        if let Some(slot) = self.resource.slot() {
            slots.push(slot)?;
        }
        if let Some(condition) = &self.condition {
            slots.extend_from_slice(condition.slots(alloc)?.as_slice())?;
        }
        Ok(slots)
    }

    /// The first of the slots, if there is one.
    pub fn first_slot(&self, alloc: Global) -> Result<Option<Slot>, AllocError>
        ensures { IfOk result (λ first. first ≡ slice_get (template_slots self.now) 0) }
    {
        let slots = self.slots(alloc)?;
        Ok(slots.first().copied())
    }
}

impl TryClone for Template {
    fn try_clone(&self) -> Result<Template, AllocError> {
        let parts = beside(self.id.try_clone()?, self.annotations.try_clone())?;
        let parts = beside(parts, self.principal.try_clone())?;
        let parts = beside(parts, self.action.try_clone())?;
        let parts = beside(parts, self.resource.try_clone())?;
        let (parts, condition) = beside(parts, self.condition.try_clone())?;
        let ((((id, annotations), principal), action), resource) = parts;
        Ok(Template {
            id,
            place: self.place,
            annotations,
            effect: self.effect,
            principal,
            action,
            resource,
            condition,
        })
    }
}

impl Clone for Template {
    ghost is_clone = { λ x y. y ≡ x };

    fn clone(&self) -> Result<Template, AllocError> {
        self.try_clone()
    }
}

/// The name, and the whole policy: its annotations, its effect and its scope as they are written,
/// and behind `when` the condition by its builder calls, as `Display` shows an expression:
/// `policy0: @id("a") permit(principal == User::"a", action, resource) when get_attr(context,
/// "mfa")`. But for places nothing is left out. It fails where memory to show the condition is
/// wanting. (`template_to_cedar` gives Cedar text.)
impl fmt::Display for Template {
    ghost use Rattle.std.proofs.Common.{Some};
    ghost use Rattle.cedar_policy_store.specs.PolicyText.{template_text};

    ghost output = { λ template. Some (template_text template) };

    fn fmt<W: fmt::Write>(&self, f: &mut fmt::Formatter<W>) -> fmt::Result {
        write!(f, "{}: {}{}(", self.id, self.annotations, self.effect)?;
        write!(f, "{}, {}, {})", self.principal, self.action, self.resource)?;
        match &self.condition {
            Some(condition) => write!(f, " when {condition}"),
            None => Ok(()),
        }
    }
}
