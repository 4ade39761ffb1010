//! The faults of trees that are types of their own.
ghost use Rattle.std.specs.Prelude.{◌≡◌, IfOk};
ghost use Rattle.std.proofs.Common.{Some};
ghost use Rattle.cedar_syntax.specs.messages.Faults.{static_policy_message, template_message, condition_slot_message, action_type_message, argument_text, argument_message, quoted_entity};

use crate::err::NonEmpty;
use crate::err::conjunction::{Listed, write_list};
use cedar_expressions::{EntityUID, Slot, TryClone};
use cedar_policy_store::UnexpectedSlotError;
use either::Either;
use std::alloc::AllocError;
use std::error::Error;
use std::fmt;

/// A template where a policy without slots was wanted.
#[derive(Debug, Clone, Copy, PartialEq, Eq)]
pub struct ExpectedStaticPolicy {
    /// a slot of the template
    pub slot: Slot,
}

/// With the slot that was found.
impl From<UnexpectedSlotError> for ExpectedStaticPolicy {
    ghost use Rattle.cedar_policy_store.specs.declared.static_policy.UnexpectedSlotError.TheVariants.{FoundSlot};

    ghost from_gives = { λ error fault. error ≡ FoundSlot fault.slot };

    fn from(error: UnexpectedSlotError) -> ExpectedStaticPolicy {
        let UnexpectedSlotError::FoundSlot(slot) = error;
        ExpectedStaticPolicy { slot }
    }
}

impl ExpectedStaticPolicy {
    /// A copy that equals its source.
    pub fn try_clone(&self) -> Result<ExpectedStaticPolicy, AllocError>
        ensures { IfOk result (λ copy. copy ≡ self.now) }
    {
        Ok(*self)
    }
}

impl TryClone for ExpectedStaticPolicy {
    fn try_clone(&self) -> Result<ExpectedStaticPolicy, AllocError> {
        ExpectedStaticPolicy::try_clone(self)
    }
}

impl fmt::Display for ExpectedStaticPolicy {
    ghost output = { λ fault. Some (static_policy_message fault) };

    fn fmt<W: fmt::Write>(&self, f: &mut fmt::Formatter<W>) -> fmt::Result {
        write!(
            f,
            "expected a static policy, got a template containing the slot {}",
            self.slot.id
        )
    }
}

impl Error for ExpectedStaticPolicy {}

/// A policy without slots where a template was wanted.
#[derive(Debug, Clone, Copy, PartialEq, Eq)]
pub struct ExpectedTemplate {}

impl ExpectedTemplate {
    /// A copy that equals its source.
    pub fn try_clone(&self) -> Result<ExpectedTemplate, AllocError>
        ensures { IfOk result (λ copy. copy ≡ self.now) }
    {
        Ok(*self)
    }
}

impl TryClone for ExpectedTemplate {
    fn try_clone(&self) -> Result<ExpectedTemplate, AllocError> {
        ExpectedTemplate::try_clone(self)
    }
}

impl fmt::Display for ExpectedTemplate {
    ghost output = { λ _. Some template_message };

    fn fmt<W: fmt::Write>(&self, f: &mut fmt::Formatter<W>) -> fmt::Result {
        f.write_str("expected a template, got a static policy")
    }
}

impl Error for ExpectedTemplate {}

/// A slot in a condition.
#[derive(Debug, Clone, Copy, PartialEq, Eq)]
pub struct SlotsInConditionClause {
    /// the slot
    pub slot: Slot,
    /// the condition's word, `when` or `unless`
    pub clause_type: &'static str,
}

impl SlotsInConditionClause {
    /// A copy that equals its source.
    pub fn try_clone(&self) -> Result<SlotsInConditionClause, AllocError>
        ensures { IfOk result (λ copy. copy ≡ self.now) }
    {
        Ok(*self)
    }
}

impl TryClone for SlotsInConditionClause {
    fn try_clone(&self) -> Result<SlotsInConditionClause, AllocError> {
        SlotsInConditionClause::try_clone(self)
    }
}

impl fmt::Display for SlotsInConditionClause {
    ghost output = { λ fault. Some (condition_slot_message fault) };

    fn fmt<W: fmt::Write>(&self, f: &mut fmt::Formatter<W>) -> fmt::Result {
        write!(
            f,
            "found template slot {} in a `{}` clause",
            self.slot.id, self.clause_type
        )
    }
}

impl Error for SlotsInConditionClause {}

/// Entities in the scope's place for an action whose type isn't an action's.
#[derive(Debug, Drop, PartialEq, Eq)]
pub struct InvalidActionType {
    /// those entities, in order
    pub euids: NonEmpty<EntityUID>,
}

impl InvalidActionType {
    /// A copy that equals its source.
    pub fn try_clone(&self) -> Result<InvalidActionType, AllocError>
        ensures { IfOk result (λ copy. copy ≡ self.now) }
    {
        Ok(InvalidActionType {
            euids: self.euids.try_clone()?,
        })
    }
}

impl TryClone for InvalidActionType {
    fn try_clone(&self) -> Result<InvalidActionType, AllocError> {
        InvalidActionType::try_clone(self)
    }
}

impl Clone for InvalidActionType {
    ghost is_clone = { λ fault copy. copy ≡ fault };

    fn clone(&self) -> Result<InvalidActionType, AllocError> {
        InvalidActionType::try_clone(self)
    }
}

/// In backquotes.
impl Listed for EntityUID {
    ghost text = { quoted_entity };

    fn write_listed<W: fmt::Write>(&self, f: &mut fmt::Formatter<W>) -> fmt::Result {
        write!(f, "`{self}`")
    }
}

impl fmt::Display for InvalidActionType {
    ghost output = { λ fault. Some (action_type_message fault) };

    fn fmt<W: fmt::Write>(&self, f: &mut fmt::Formatter<W>) -> fmt::Result {
        if self.euids.tail.is_empty() {
            f.write_str("expected an entity uid with type `Action` but got ")?;
        } else {
            f.write_str("expected entity uids with type `Action` but got ")?;
        }
        write_list(&self.euids.head, self.euids.tail.as_slice(), "and", f)
    }
}

impl Error for InvalidActionType {}

/// What can stand right of a scope's operator.
#[derive(Debug, Clone, Copy, PartialEq, Eq)]
pub enum Ref {
    /// one entity
    Single,
    /// entities between brackets
    Set,
    /// a slot
    Template,
}

impl Ref {
    /// A copy that equals its source.
    pub fn try_clone(&self) -> Result<Ref, AllocError>
        ensures { IfOk result (λ copy. copy ≡ self.now) }
    {
        Ok(*self)
    }
}

impl TryClone for Ref {
    fn try_clone(&self) -> Result<Ref, AllocError> {
        Ref::try_clone(self)
    }
}

impl fmt::Display for Ref {
    ghost output = { λ reference. Some (argument_text reference) };

    fn fmt<W: fmt::Write>(&self, f: &mut fmt::Formatter<W>) -> fmt::Result {
        f.write_str(match self {
            Ref::Single => "single entity uid",
            Ref::Set => "set of entity uids",
            Ref::Template => "template slot",
        })
    }
}

/// Something else right of a scope's operator than can stand there.
#[derive(Debug, Clone, Copy, PartialEq, Eq)]
pub struct WrongEntityArgument {
    /// what can stand there: one of these, or either of two
    pub expected: Either<Ref, (Ref, Ref)>,
    /// what stands there
    pub got: Ref,
}

impl WrongEntityArgument {
    /// A copy that equals its source.
    pub fn try_clone(&self) -> Result<WrongEntityArgument, AllocError>
        ensures { IfOk result (λ copy. copy ≡ self.now) }
    {
        Ok(*self)
    }
}

impl TryClone for WrongEntityArgument {
    fn try_clone(&self) -> Result<WrongEntityArgument, AllocError> {
        WrongEntityArgument::try_clone(self)
    }
}

impl fmt::Display for WrongEntityArgument {
    ghost output = { λ fault. Some (argument_message fault) };

    fn fmt<W: fmt::Write>(&self, f: &mut fmt::Formatter<W>) -> fmt::Result {
        let got = self.got;
        match self.expected {
            Either::Left(one) => write!(f, "expected {one}, found {got}"),
            Either::Right((first, second)) => {
                write!(f, "expected {first} or {second}, found {got}")
            }
        }
    }
}

impl Error for WrongEntityArgument {}
