//! `Clone` of the trees, by their copies.
ghost use Rattle.std.specs.Prelude.{◌≡◌};

use crate::cst::{
    Add, And, Annotation, Cond, Expr, ExprData, ExprImpl, Ident, Literal, MemAccess, Member, Mult,
    Name, Or, Policies, Policy, PolicyImpl, Primary, RecInit, Ref, RefInit, Relation, Slot, Str,
    Unary, VariableDef,
};
use std::alloc::AllocError;

impl Clone for Policies {
    ghost is_clone = { λ x y. y ≡ x };

    fn clone(&self) -> Result<Policies, AllocError> {
        self.try_clone()
    }
}

impl Clone for Annotation {
    ghost is_clone = { λ x y. y ≡ x };

    fn clone(&self) -> Result<Annotation, AllocError> {
        self.try_clone()
    }
}

impl Clone for Str {
    ghost is_clone = { λ x y. y ≡ x };

    fn clone(&self) -> Result<Str, AllocError> {
        self.try_clone()
    }
}

impl Clone for PolicyImpl {
    ghost is_clone = { λ x y. y ≡ x };

    fn clone(&self) -> Result<PolicyImpl, AllocError> {
        self.try_clone()
    }
}

impl Clone for Policy {
    ghost is_clone = { λ x y. y ≡ x };

    fn clone(&self) -> Result<Policy, AllocError> {
        self.try_clone()
    }
}

impl Clone for VariableDef {
    ghost is_clone = { λ x y. y ≡ x };

    fn clone(&self) -> Result<VariableDef, AllocError> {
        self.try_clone()
    }
}

impl Clone for Ident {
    ghost is_clone = { λ x y. y ≡ x };

    fn clone(&self) -> Result<Ident, AllocError> {
        self.try_clone()
    }
}

impl Clone for Cond {
    ghost is_clone = { λ x y. y ≡ x };

    fn clone(&self) -> Result<Cond, AllocError> {
        self.try_clone()
    }
}

impl Clone for Name {
    ghost is_clone = { λ x y. y ≡ x };

    fn clone(&self) -> Result<Name, AllocError> {
        self.try_clone()
    }
}

impl Clone for Ref {
    ghost is_clone = { λ x y. y ≡ x };

    fn clone(&self) -> Result<Ref, AllocError> {
        self.try_clone()
    }
}

impl Clone for RefInit {
    ghost is_clone = { λ x y. y ≡ x };

    fn clone(&self) -> Result<RefInit, AllocError> {
        self.try_clone()
    }
}

impl Clone for Literal {
    ghost is_clone = { λ x y. y ≡ x };

    fn clone(&self) -> Result<Literal, AllocError> {
        self.try_clone()
    }
}

impl Clone for Slot {
    ghost is_clone = { λ x y. y ≡ x };

    fn clone(&self) -> Result<Slot, AllocError> {
        self.try_clone()
    }
}

impl Clone for ExprImpl {
    ghost is_clone = { λ x y. y ≡ x };

    fn clone(&self) -> Result<ExprImpl, AllocError> {
        self.try_clone()
    }
}

impl Clone for Expr {
    ghost is_clone = { λ x y. y ≡ x };

    fn clone(&self) -> Result<Expr, AllocError> {
        self.try_clone()
    }
}

impl Clone for ExprData {
    ghost is_clone = { λ x y. y ≡ x };

    fn clone(&self) -> Result<ExprData, AllocError> {
        self.try_clone()
    }
}

impl Clone for Or {
    ghost is_clone = { λ x y. y ≡ x };

    fn clone(&self) -> Result<Or, AllocError> {
        self.try_clone()
    }
}

impl Clone for And {
    ghost is_clone = { λ x y. y ≡ x };

    fn clone(&self) -> Result<And, AllocError> {
        self.try_clone()
    }
}

impl Clone for Relation {
    ghost is_clone = { λ x y. y ≡ x };

    fn clone(&self) -> Result<Relation, AllocError> {
        self.try_clone()
    }
}

impl Clone for Add {
    ghost is_clone = { λ x y. y ≡ x };

    fn clone(&self) -> Result<Add, AllocError> {
        self.try_clone()
    }
}

impl Clone for Mult {
    ghost is_clone = { λ x y. y ≡ x };

    fn clone(&self) -> Result<Mult, AllocError> {
        self.try_clone()
    }
}

impl Clone for Unary {
    ghost is_clone = { λ x y. y ≡ x };

    fn clone(&self) -> Result<Unary, AllocError> {
        self.try_clone()
    }
}

impl Clone for Member {
    ghost is_clone = { λ x y. y ≡ x };

    fn clone(&self) -> Result<Member, AllocError> {
        self.try_clone()
    }
}

impl Clone for MemAccess {
    ghost is_clone = { λ x y. y ≡ x };

    fn clone(&self) -> Result<MemAccess, AllocError> {
        self.try_clone()
    }
}

impl Clone for Primary {
    ghost is_clone = { λ x y. y ≡ x };

    fn clone(&self) -> Result<Primary, AllocError> {
        self.try_clone()
    }
}

impl Clone for RecInit {
    ghost is_clone = { λ x y. y ≡ x };

    fn clone(&self) -> Result<RecInit, AllocError> {
        self.try_clone()
    }
}
