//! Copies of the trees that hold no expression, and of policies.
ghost use Rattle.std.specs.Prelude.{◌≡◌, IfOk};

use crate::cst::{
    Annotation, Cond, Ident, Literal, MultOp, Name, NegOp, Policies, Policy, PolicyImpl, Ref,
    RefInit, RelOp, Slot, Str, VariableDef,
};
use cedar_expressions::TryClone;
use std::alloc::AllocError;

impl TryClone for Policies {
    fn try_clone(&self) -> Result<Policies, AllocError> {
        Ok(Policies(self.0.try_clone()?))
    }
}

impl Policies {
    /// An equal value, places included, or want of memory.
    pub fn try_clone(&self) -> Result<Policies, AllocError>
        ensures { IfOk result (λ copy. copy ≡ self.now) }
    {
        TryClone::try_clone(self)
    }
}

impl TryClone for Annotation {
    fn try_clone(&self) -> Result<Annotation, AllocError> {
        let key = self.key.try_clone()?;
        Ok(Annotation {
            key,
            value: self.value.try_clone()?,
        })
    }
}

impl Annotation {
    /// An equal value, places included, or want of memory.
    pub fn try_clone(&self) -> Result<Annotation, AllocError>
        ensures { IfOk result (λ copy. copy ≡ self.now) }
    {
        TryClone::try_clone(self)
    }
}

impl TryClone for Str {
    fn try_clone(&self) -> Result<Str, AllocError> {
        match self {
            Str::String(value) => Ok(Str::String(value.try_clone()?)),
            Str::Invalid(value) => Ok(Str::Invalid(value.try_clone()?)),
        }
    }
}

impl Str {
    /// An equal value, places included, or want of memory.
    pub fn try_clone(&self) -> Result<Str, AllocError>
        ensures { IfOk result (λ copy. copy ≡ self.now) }
    {
        TryClone::try_clone(self)
    }
}

impl TryClone for PolicyImpl {
    fn try_clone(&self) -> Result<PolicyImpl, AllocError> {
        let annotations = self.annotations.try_clone()?;
        let effect = self.effect.try_clone()?;
        let variables = self.variables.try_clone()?;
        Ok(PolicyImpl {
            annotations,
            effect,
            variables,
            conds: self.conds.try_clone()?,
        })
    }
}

impl PolicyImpl {
    /// An equal value, places included, or want of memory.
    pub fn try_clone(&self) -> Result<PolicyImpl, AllocError>
        ensures { IfOk result (λ copy. copy ≡ self.now) }
    {
        TryClone::try_clone(self)
    }
}

impl TryClone for Policy {
    fn try_clone(&self) -> Result<Policy, AllocError> {
        match self {
            Policy::Policy(value) => Ok(Policy::Policy(value.try_clone()?)),
        }
    }
}

impl Policy {
    /// An equal value, places included, or want of memory.
    pub fn try_clone(&self) -> Result<Policy, AllocError>
        ensures { IfOk result (λ copy. copy ≡ self.now) }
    {
        TryClone::try_clone(self)
    }
}

impl TryClone for VariableDef {
    fn try_clone(&self) -> Result<VariableDef, AllocError> {
        let variable = self.variable.try_clone()?;
        let unused_type_name = self.unused_type_name.try_clone()?;
        let entity_type = self.entity_type.try_clone()?;
        Ok(VariableDef {
            variable,
            unused_type_name,
            entity_type,
            ineq: self.ineq.try_clone()?,
        })
    }
}

impl VariableDef {
    /// An equal value, places included, or want of memory.
    pub fn try_clone(&self) -> Result<VariableDef, AllocError>
        ensures { IfOk result (λ copy. copy ≡ self.now) }
    {
        TryClone::try_clone(self)
    }
}

impl TryClone for Ident {
    fn try_clone(&self) -> Result<Ident, AllocError> {
        match self {
            Ident::Principal => Ok(Ident::Principal),
            Ident::Action => Ok(Ident::Action),
            Ident::Resource => Ok(Ident::Resource),
            Ident::Context => Ok(Ident::Context),
            Ident::True => Ok(Ident::True),
            Ident::False => Ok(Ident::False),
            Ident::Permit => Ok(Ident::Permit),
            Ident::Forbid => Ok(Ident::Forbid),
            Ident::When => Ok(Ident::When),
            Ident::Unless => Ok(Ident::Unless),
            Ident::In => Ok(Ident::In),
            Ident::Has => Ok(Ident::Has),
            Ident::Like => Ok(Ident::Like),
            Ident::Is => Ok(Ident::Is),
            Ident::If => Ok(Ident::If),
            Ident::Then => Ok(Ident::Then),
            Ident::Else => Ok(Ident::Else),
            Ident::Ident(value) => Ok(Ident::Ident(value.try_clone()?)),
            Ident::Invalid(value) => Ok(Ident::Invalid(value.try_clone()?)),
        }
    }
}

impl Ident {
    /// An equal value, places included, or want of memory.
    pub fn try_clone(&self) -> Result<Ident, AllocError>
        ensures { IfOk result (λ copy. copy ≡ self.now) }
    {
        TryClone::try_clone(self)
    }
}

impl TryClone for Cond {
    fn try_clone(&self) -> Result<Cond, AllocError> {
        let cond = self.cond.try_clone()?;
        Ok(Cond {
            cond,
            expr: self.expr.try_clone()?,
        })
    }
}

impl Cond {
    /// An equal value, places included, or want of memory.
    pub fn try_clone(&self) -> Result<Cond, AllocError>
        ensures { IfOk result (λ copy. copy ≡ self.now) }
    {
        TryClone::try_clone(self)
    }
}

impl TryClone for RelOp {
    fn try_clone(&self) -> Result<RelOp, AllocError> {
        Ok(*self)
    }
}

impl RelOp {
    /// An equal value, places included, or want of memory.
    pub fn try_clone(&self) -> Result<RelOp, AllocError>
        ensures { IfOk result (λ copy. copy ≡ self.now) }
    {
        TryClone::try_clone(self)
    }
}

impl TryClone for MultOp {
    fn try_clone(&self) -> Result<MultOp, AllocError> {
        Ok(*self)
    }
}

impl MultOp {
    /// An equal value, places included, or want of memory.
    pub fn try_clone(&self) -> Result<MultOp, AllocError>
        ensures { IfOk result (λ copy. copy ≡ self.now) }
    {
        TryClone::try_clone(self)
    }
}

impl TryClone for NegOp {
    fn try_clone(&self) -> Result<NegOp, AllocError> {
        Ok(*self)
    }
}

impl NegOp {
    /// An equal value, places included, or want of memory.
    pub fn try_clone(&self) -> Result<NegOp, AllocError>
        ensures { IfOk result (λ copy. copy ≡ self.now) }
    {
        TryClone::try_clone(self)
    }
}

impl TryClone for Name {
    fn try_clone(&self) -> Result<Name, AllocError> {
        let path = self.path.try_clone()?;
        Ok(Name {
            path,
            name: self.name.try_clone()?,
        })
    }
}

impl Name {
    /// An equal value, places included, or want of memory.
    pub fn try_clone(&self) -> Result<Name, AllocError>
        ensures { IfOk result (λ copy. copy ≡ self.now) }
    {
        TryClone::try_clone(self)
    }
}

impl TryClone for Ref {
    fn try_clone(&self) -> Result<Ref, AllocError> {
        match self {
            Ref::Uid { path, eid } => {
                let path = path.try_clone()?;
                Ok(Ref::Uid {
                    path,
                    eid: eid.try_clone()?,
                })
            }
            Ref::Ref { path, rinits } => {
                let path = path.try_clone()?;
                Ok(Ref::Ref {
                    path,
                    rinits: rinits.try_clone()?,
                })
            }
        }
    }
}

impl Ref {
    /// An equal value, places included, or want of memory.
    pub fn try_clone(&self) -> Result<Ref, AllocError>
        ensures { IfOk result (λ copy. copy ≡ self.now) }
    {
        TryClone::try_clone(self)
    }
}

impl TryClone for RefInit {
    fn try_clone(&self) -> Result<RefInit, AllocError> {
        let first = self.0.try_clone()?;
        Ok(RefInit(first, self.1.try_clone()?))
    }
}

impl RefInit {
    /// An equal value, places included, or want of memory.
    pub fn try_clone(&self) -> Result<RefInit, AllocError>
        ensures { IfOk result (λ copy. copy ≡ self.now) }
    {
        TryClone::try_clone(self)
    }
}

impl TryClone for Literal {
    fn try_clone(&self) -> Result<Literal, AllocError> {
        match self {
            Literal::True => Ok(Literal::True),
            Literal::False => Ok(Literal::False),
            Literal::Num(value) => Ok(Literal::Num(*value)),
            Literal::Str(value) => Ok(Literal::Str(value.try_clone()?)),
        }
    }
}

impl Literal {
    /// An equal value, places included, or want of memory.
    pub fn try_clone(&self) -> Result<Literal, AllocError>
        ensures { IfOk result (λ copy. copy ≡ self.now) }
    {
        TryClone::try_clone(self)
    }
}

impl TryClone for Slot {
    fn try_clone(&self) -> Result<Slot, AllocError> {
        match self {
            Slot::Principal => Ok(Slot::Principal),
            Slot::Resource => Ok(Slot::Resource),
            Slot::Other(value) => Ok(Slot::Other(value.try_clone()?)),
        }
    }
}

impl Slot {
    /// An equal value, places included, or want of memory.
    pub fn try_clone(&self) -> Result<Slot, AllocError>
        ensures { IfOk result (λ copy. copy ≡ self.now) }
    {
        TryClone::try_clone(self)
    }
}
