//! Trees are taken apart without recursion: the expressions in them wait, all else is dropped.
//! What is taken apart is handed on by value; the hints keep a level from being copied for each
//! function that it goes through.
ghost use Rattle.std.specs.Prelude.{◌≡◌, ◌+◌, ℕ};
ghost use Rattle.std.specs.List.{sum_by};
ghost use Rattle.cedar_syntax.specs.trees.Weight.{waiting_weight, option_weight, data_weight, or_weight, and_weight, relation_weight, add_weight, mult_weight, unary_weight, member_weight, access_weight, primary_weight, expr_weight, init_weight};

use crate::cst::{
    Add, And, Expr, ExprData, MemAccess, Member, Mult, Or, Primary, RecInit, Relation, Unary,
};
use crate::node::Node;
use cedar_expressions::{Boxed, Items};

/// A tree that can be taken apart.
pub trait Dismantle {
    ghost weight: { Self → ℕ };

    /// Takes it apart: each expression in it waits, all else is dropped.
    fn dismantle(self, pending: Option<Expr>) -> Option<Expr>
    where
        Self: Sized,
        ensures { waiting_weight result ≡ weight self + waiting_weight pending };
}

impl<T: Dismantle> Dismantle for Option<T> {
    ghost weight = { option_weight T.weight };

    #[inline(always)]
    fn dismantle(self, pending: Option<Expr>) -> Option<Expr> {
        match self {
            None => pending,
            Some(value) => value.dismantle(pending),
        }
    }
}

impl<T: Dismantle> Dismantle for Node<T> {
    ghost weight = { λ n. T.weight n.node };

    #[inline(always)]
    fn dismantle(self, pending: Option<Expr>) -> Option<Expr> {
        let (node, _) = self.into_inner();
        node.dismantle(pending)
    }
}

impl<T: Dismantle> Dismantle for Boxed<T> {
    ghost weight = { T.weight };

    #[inline(never)]
    fn dismantle(self, pending: Option<Expr>) -> Option<Expr> {
        self.into_inner().dismantle(pending)
    }
}

/// An operator and the operand behind it.
impl<A: Drop, T: Dismantle> Dismantle for (A, T) {
    ghost weight = { λ pair. T.weight pair.1 };

    #[inline(always)]
    fn dismantle(self, pending: Option<Expr>) -> Option<Expr> {
        let (_, operand) = self;
        operand.dismantle(pending)
    }
}

impl<T: Dismantle> Dismantle for Items<T> {
    ghost weight = { sum_by T.weight };

    #[inline(never)]
    fn dismantle(self, pending: Option<Expr>) -> Option<Expr> {
        let mut items = self.into_vec();
        let mut pending = pending;
        while let Some(item) = items.pop() {
            pending = item.dismantle(pending);
        }
        items.destroy_empty();
        pending
    }
}

impl Dismantle for Expr {
    ghost weight = { expr_weight };

    fn dismantle(self, pending: Option<Expr>) -> Option<Expr> {
        Some(self.wait(pending))
    }
}

impl Dismantle for ExprData {
    ghost weight = { data_weight };

    #[inline(always)]
    fn dismantle(self, pending: Option<Expr>) -> Option<Expr> {
        match self {
            ExprData::Or(or) => or.dismantle(pending),
            ExprData::If(guard, consequent, alternative) => {
                let pending = guard.dismantle(pending);
                let pending = consequent.dismantle(pending);
                alternative.dismantle(pending)
            }
        }
    }
}

impl Dismantle for Or {
    ghost weight = { or_weight };

    #[inline(always)]
    fn dismantle(self, pending: Option<Expr>) -> Option<Expr> {
        let Or { initial, extended } = self;
        let pending = initial.dismantle(pending);
        extended.dismantle(pending)
    }
}

impl Dismantle for And {
    ghost weight = { and_weight };

    #[inline(always)]
    fn dismantle(self, pending: Option<Expr>) -> Option<Expr> {
        let And { initial, extended } = self;
        let pending = initial.dismantle(pending);
        extended.dismantle(pending)
    }
}

impl Dismantle for Relation {
    ghost weight = { relation_weight };

    #[inline(always)]
    fn dismantle(self, pending: Option<Expr>) -> Option<Expr> {
        match self {
            Relation::Common { initial, extended } => {
                let pending = initial.dismantle(pending);
                extended.dismantle(pending)
            }
            Relation::Has { target, field } => {
                let pending = target.dismantle(pending);
                field.dismantle(pending)
            }
            Relation::Like { target, pattern } => {
                let pending = target.dismantle(pending);
                pattern.dismantle(pending)
            }
            Relation::IsIn {
                target,
                entity_type,
                in_entity,
            } => {
                let pending = target.dismantle(pending);
                let pending = entity_type.dismantle(pending);
                in_entity.dismantle(pending)
            }
        }
    }
}

impl Dismantle for Add {
    ghost weight = { add_weight };

    #[inline(always)]
    fn dismantle(self, pending: Option<Expr>) -> Option<Expr> {
        let Add { initial, extended } = self;
        let pending = initial.dismantle(pending);
        extended.dismantle(pending)
    }
}

impl Dismantle for Mult {
    ghost weight = { mult_weight };

    #[inline(always)]
    fn dismantle(self, pending: Option<Expr>) -> Option<Expr> {
        let Mult { initial, extended } = self;
        let pending = initial.dismantle(pending);
        extended.dismantle(pending)
    }
}

impl Dismantle for Unary {
    ghost weight = { unary_weight };

    #[inline(always)]
    fn dismantle(self, pending: Option<Expr>) -> Option<Expr> {
        let Unary { op: _, item } = self;
        item.dismantle(pending)
    }
}

impl Dismantle for Member {
    ghost weight = { member_weight };

    #[inline(always)]
    fn dismantle(self, pending: Option<Expr>) -> Option<Expr> {
        let Member { item, access } = self;
        let pending = item.dismantle(pending);
        access.dismantle(pending)
    }
}

impl Dismantle for MemAccess {
    ghost weight = { access_weight };

    #[inline(never)]
    fn dismantle(self, pending: Option<Expr>) -> Option<Expr> {
        match self {
            MemAccess::Field(_) => pending,
            MemAccess::Call(arguments) => arguments.dismantle(pending),
            MemAccess::Index(index) => index.dismantle(pending),
        }
    }
}

impl Dismantle for Primary {
    ghost weight = { primary_weight };

    #[inline(never)]
    fn dismantle(self, pending: Option<Expr>) -> Option<Expr> {
        match self {
            Primary::Literal(_) => pending,
            Primary::Ref(_) => pending,
            Primary::Name(_) => pending,
            Primary::Slot(_) => pending,
            Primary::Expr(expr) => expr.dismantle(pending),
            Primary::EList(elements) => elements.dismantle(pending),
            Primary::RInits(fields) => fields.dismantle(pending),
        }
    }
}

impl Dismantle for RecInit {
    ghost weight = { init_weight };

    #[inline(never)]
    fn dismantle(self, pending: Option<Expr>) -> Option<Expr> {
        let RecInit(key, value) = self;
        let pending = key.dismantle(pending);
        value.dismantle(pending)
    }
}
