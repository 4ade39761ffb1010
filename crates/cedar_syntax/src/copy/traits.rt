//! `TryClone` of the trees, by their copies.
use crate::cst::{
    Add, And, Expr, ExprData, ExprImpl, MemAccess, Member, Mult, Or, Primary, RecInit, Relation,
    Unary,
};
use cedar_expressions::TryClone;
use std::alloc::AllocError;

impl TryClone for ExprImpl {
    fn try_clone(&self) -> Result<ExprImpl, AllocError> {
        ExprImpl::try_clone(self)
    }
}

impl TryClone for Expr {
    fn try_clone(&self) -> Result<Expr, AllocError> {
        Expr::try_clone(self)
    }
}

impl TryClone for ExprData {
    fn try_clone(&self) -> Result<ExprData, AllocError> {
        ExprData::try_clone(self)
    }
}

impl TryClone for Or {
    fn try_clone(&self) -> Result<Or, AllocError> {
        Or::try_clone(self)
    }
}

impl TryClone for And {
    fn try_clone(&self) -> Result<And, AllocError> {
        And::try_clone(self)
    }
}

impl TryClone for Relation {
    fn try_clone(&self) -> Result<Relation, AllocError> {
        Relation::try_clone(self)
    }
}

impl TryClone for Add {
    fn try_clone(&self) -> Result<Add, AllocError> {
        Add::try_clone(self)
    }
}

impl TryClone for Mult {
    fn try_clone(&self) -> Result<Mult, AllocError> {
        Mult::try_clone(self)
    }
}

impl TryClone for Unary {
    fn try_clone(&self) -> Result<Unary, AllocError> {
        Unary::try_clone(self)
    }
}

impl TryClone for Member {
    fn try_clone(&self) -> Result<Member, AllocError> {
        Member::try_clone(self)
    }
}

impl TryClone for MemAccess {
    fn try_clone(&self) -> Result<MemAccess, AllocError> {
        MemAccess::try_clone(self)
    }
}

impl TryClone for Primary {
    fn try_clone(&self) -> Result<Primary, AllocError> {
        Primary::try_clone(self)
    }
}

impl TryClone for RecInit {
    fn try_clone(&self) -> Result<RecInit, AllocError> {
        RecInit::try_clone(self)
    }
}
