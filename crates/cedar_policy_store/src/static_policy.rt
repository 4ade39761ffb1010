//! Policies without slots.
ghost use Rattle.std.specs.Prelude.{◌≡◌, [], slice_get};
ghost use Rattle.cedar_policy_store.specs.TemplateSlots.{template_slots};
ghost use Rattle.cedar_policy_store.specs.StaticPolicies.{AnswersStatic};
ghost use Rattle.cedar_policy_store.specs.declared.static_policy.NotStatic.TheVariants.{UnexpectedSlot};
ghost use Rattle.cedar_policy_store.specs.declared.static_policy.UnexpectedSlotError.TheVariants.{FoundSlot};

use crate::{PolicyID, Template};
use cedar_expressions::{Slot, TryClone};
use std::alloc::AllocError;
use std::error::Error;
use std::fmt;
use std::marker::Model;

/// A policy without slots, which contracts see as its template. Equality looks at no place.
#[derive(Debug, Drop, PartialEq, Eq)]
pub struct StaticPolicy {
    template: Template,
}

impl Model for StaticPolicy {
    ghost use Rattle.std.specs.Prelude.{◌≡◌, []};
    ghost use Rattle.cedar_policy_store.specs.declared.template.Template.{Template};
    ghost use Rattle.cedar_policy_store.specs.contracts.template.Template as whole;
    ghost use Rattle.cedar_policy_store.specs.TemplateSlots.{template_slots};

    ghost Value = { Template };

    ghost coded = { whole.the_row.coded };

    ghost view = { λ policy. policy.template };

    ghost invariant = { λ policy. template_slots policy.template ≡ [] };

    ghost inverse = { λ template. record { template = template } };
}

impl StaticPolicy {
    /// The policy that a template without slots is.
    pub fn of_static(template: Template) -> StaticPolicy
        requires { template_slots template ≡ [] }
        ensures { result ≡ template }
    {
        StaticPolicy { template }
    }

    /// The template that the policy is.
    pub fn as_template(&self) -> &Template
        ensures same { result.now ≡ self.now }
        ensures no_slots { template_slots self.now ≡ [] }
    {
        &self.template
    }

    /// The policy's name within a set.
    pub fn id(&self) -> &PolicyID
        ensures { result.now ≡ self.now.id }
    {
        self.template.id()
    }
}

/// The template that the policy is, moved out.
impl From<StaticPolicy> for Template {
    ghost from_gives = { λ policy template. template ≡ policy };

    fn from(policy: StaticPolicy) -> Template {
        let StaticPolicy { template } = policy;
        template
    }
}

/// Succeeds exactly for a template without slots, want of memory aside; else the refusal has its
/// first slot, and hands the template back as it was.
///
///     match StaticPolicy::try_from(template) {
///         Ok(policy) => set.add_static(policy)?,
///         Err(refused) => match refused.reason() {
///             NotStatic::UnexpectedSlot(_) => set.add_template(refused.into_template())?,
///             NotStatic::Memory(want) => return Err(PolicySetError::from(want)),
///         },
///     }
impl TryFrom<Template> for StaticPolicy {
    type Error = RefusedTemplate;

    ghost use Rattle.cedar_policy_store.specs.StaticPolicies.{AnswersStatic};

    ghost try_from_gives = { AnswersStatic };

    fn try_from(template: Template) -> Result<StaticPolicy, RefusedTemplate> {
        match template.first_slot(template.id().alloc()) {
            Ok(first) => unless_slot(template, first),
            Err(want) => Err(RefusedTemplate {
                template,
                reason: NotStatic::Memory(want),
            }),
        }
    }
}

/// The policy that a template is, unless there is this slot, its first.
fn unless_slot(template: Template, first: Option<Slot>) -> Result<StaticPolicy, RefusedTemplate>
    requires { first ≡ slice_get (template_slots template) 0 }
    ensures { AnswersStatic template result }
{
    match first {
        None => Ok(StaticPolicy { template }),
        Some(slot) => Err(RefusedTemplate::with_slot(template, slot)),
    }
}

/// A template that was refused as a static policy, as it was, and why.
#[derive(Debug, Drop, PartialEq, Eq)]
pub struct RefusedTemplate {
    template: Template,
    reason: NotStatic,
}

/// Why a template was refused as a static policy.
#[derive(Debug, Clone, Copy, PartialEq, Eq)]
pub enum NotStatic {
    /// Want of memory to look at it.
    Memory(AllocError),
    /// A slot stands in it.
    UnexpectedSlot(UnexpectedSlotError),
}

impl RefusedTemplate {
    fn with_slot(template: Template, slot: Slot) -> RefusedTemplate
        ensures { result
            ≡ record { template = template; reason = UnexpectedSlot (FoundSlot slot) } }
    {
        RefusedTemplate {
            template,
            reason: NotStatic::UnexpectedSlot(UnexpectedSlotError::FoundSlot(slot)),
        }
    }

    /// The template.
    pub fn as_template(&self) -> &Template
        ensures { result.now ≡ self.now.template }
    {
        &self.template
    }

    /// Why it was refused.
    pub fn reason(&self) -> NotStatic
        ensures { result ≡ self.now.reason }
    {
        self.reason
    }

    /// The template, moved out.
    pub fn into_template(self) -> Template
        ensures { result ≡ self.template }
    {
        let RefusedTemplate {
            template,
            reason: _,
        } = self;
        template
    }
}

impl fmt::Display for NotStatic {
    ghost use Rattle.std.proofs.Common.{Some};
    ghost use Rattle.cedar_policy_store.specs.PolicyText.{not_static_text};

    ghost output = { λ reason. Some (not_static_text reason) };

    fn fmt<W: fmt::Write>(&self, f: &mut fmt::Formatter<W>) -> fmt::Result {
        match self {
            NotStatic::Memory(_) => f.write_str("want of memory"),
            NotStatic::UnexpectedSlot(error) => error.fmt(f),
        }
    }
}

impl fmt::Display for RefusedTemplate {
    ghost use Rattle.std.proofs.Common.{Some};
    ghost use Rattle.cedar_policy_store.specs.PolicyText.{not_static_text};

    ghost output = { λ refused. Some (not_static_text refused.reason) };

    fn fmt<W: fmt::Write>(&self, f: &mut fmt::Formatter<W>) -> fmt::Result {
        self.reason.fmt(f)
    }
}

impl Error for RefusedTemplate {}

impl TryClone for RefusedTemplate {
    fn try_clone(&self) -> Result<RefusedTemplate, AllocError> {
        let template = self.template.try_clone()?;
        Ok(RefusedTemplate {
            template,
            reason: self.reason,
        })
    }
}

impl Clone for RefusedTemplate {
    ghost is_clone = { λ x y. y ≡ x };

    fn clone(&self) -> Result<RefusedTemplate, AllocError> {
        self.try_clone()
    }
}

/// Why a template is no policy: a slot stands in it.
#[derive(Debug, Clone, Copy, PartialEq, Eq)]
pub enum UnexpectedSlotError {
    /// The first slot of the template.
    FoundSlot(Slot),
}

impl TryClone for UnexpectedSlotError {
    fn try_clone(&self) -> Result<UnexpectedSlotError, AllocError> {
        Ok(*self)
    }
}

impl fmt::Display for UnexpectedSlotError {
    ghost use Rattle.std.proofs.Common.{Some};
    ghost use Rattle.cedar_policy_store.specs.PolicyText.{unexpected_slot_text};

    ghost output = { λ error. Some (unexpected_slot_text error) };

    fn fmt<W: fmt::Write>(&self, f: &mut fmt::Formatter<W>) -> fmt::Result {
        match self {
            UnexpectedSlotError::FoundSlot(slot) => {
                write!(f, "found slot `{slot}` where slots are not allowed")
            }
        }
    }
}

impl Error for UnexpectedSlotError {}

impl TryClone for StaticPolicy {
    fn try_clone(&self) -> Result<StaticPolicy, AllocError> {
        Ok(StaticPolicy {
            template: self.template.try_clone()?,
        })
    }
}

impl Clone for StaticPolicy {
    ghost is_clone = { λ x y. y ≡ x };

    fn clone(&self) -> Result<StaticPolicy, AllocError> {
        self.try_clone()
    }
}

/// As its template.
impl fmt::Display for StaticPolicy {
    ghost use Rattle.std.proofs.Common.{Some};
    ghost use Rattle.cedar_policy_store.specs.PolicyText.{template_text};

    ghost output = { λ policy. Some (template_text policy) };

    fn fmt<W: fmt::Write>(&self, f: &mut fmt::Formatter<W>) -> fmt::Result {
        self.template.fmt(f)
    }
}
