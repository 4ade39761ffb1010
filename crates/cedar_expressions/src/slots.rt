//! The slots of an expression, from the left, and all expressions in it.
ghost use Rattle.std.specs.Prelude.{◌≡◌, ◌++◌, IfOk, OnOk, map};
ghost use Rattle.std.specs.Option.{option_to_list};
ghost use Rattle.std.specs.Vec.Iter.{into_iter_items};
ghost use Rattle.cedar_expressions.specs.Slots.{slots_in};
ghost use Rattle.cedar_expressions.specs.Walks.{own_slot};
ghost use Rattle.cedar_expressions.specs.Parts.{subexpressions};

use crate::parts::push_parts;
use crate::stack::Stack;
use crate::{Expr, ExprKind, Slot};
use std::alloc::{AllocError, Global};
use std::vec::IntoIter;

/// An expression and all in it.
pub type Subexpressions<'a> = IntoIter<&'a Expr>;

impl Expr {
    /// Each slot of the expression from the left, with the place of its node.
    #[tactic(auto, using(crate::proofs::PartsAt::found_on, crate::proofs::PartsAt::fewer))]
    pub fn slots(&self, alloc: Global) -> Result<Vec<Slot>, AllocError>
        ensures { IfOk result (λ slots. slots.items ≡ slots_in self.now) }
    {
        let mut found = Vec::new(alloc);
        let mut rest = Stack::with_room(alloc)?;
        rest.push(self)?;
        while let Some(expr) = rest.pop() {
            push_slot(&mut found, expr.slot_here())?;
            push_parts(expr, &mut rest)?;
        }
        Ok(found)
    }

    /// The slot that the expression itself is.
    fn slot_here(&self) -> Option<Slot>
        ensures { result ≡ own_slot self.now }
    {
        match self.kind() {
            ExprKind::Val(_) => None,
            ExprKind::Var(_) => None,
            ExprKind::Slot(id) => Some(Slot {
                id: *id,
                place: self.place(),
            }),
            ExprKind::Ite(_) => None,
            ExprKind::Unary(_, _) => None,
            ExprKind::Binary(_, _) => None,
            ExprKind::Nary(_, _, _) => None,
            ExprKind::Sum(_, _) => None,
            ExprKind::List(_, _) => None,
            ExprKind::Record(_) => None,
        }
    }

    /// The expression and all expressions in it, each before those in it, and these from the left,
    /// however deep they are. (`kind` and `place` tell what each is, and where it stands.)
    ///
    ///     for part in value.subexpressions(alloc)? {
    ///         if let ExprKind::Unary(UnaryCall::GetAttr(name), _) = part.kind() {
    ///             writeln!(out, "{name}")?;
    ///         }
    ///     }
    pub fn subexpressions<'a>(&'a self, alloc: Global) -> Result<Subexpressions<'a>, AllocError>
        ensures { IfOk result (λ all. map (λ e. e.now) (into_iter_items all)
            ≡ subexpressions self.now) }
    {
        Ok(self.all_within(alloc)?.into_iter())
    }

    /// The same, in a list.
    #[tactic(auto, using(crate::proofs::PartsAt::met_on, crate::proofs::PartsAt::fewer))]
    pub(crate) fn all_within<'a>(&'a self, alloc: Global) -> Result<Vec<&'a Expr>, AllocError>
        ensures { IfOk result (λ all. map (λ e. e.now) all.items ≡ subexpressions self.now) }
    {
        let mut all = Vec::new(alloc);
        let mut rest = Stack::with_room(alloc)?;
        rest.push(self)?;
        while let Some(expr) = rest.pop() {
            all.push(expr)?;
            push_parts(expr, &mut rest)?;
        }
        Ok(all)
    }
}

/// Adds a slot behind those that were found before, if there is one.
fn push_slot(found: &mut Vec<Slot>, slot: Option<Slot>) -> Result<(), AllocError>
    ensures { OnOk result (found.new.items ≡ found.old.items ++ option_to_list slot) }
{
    match slot {
        None => Ok(()),
        Some(slot) => {
            found.push(slot)?;
            Ok(())
        }
    }
}
