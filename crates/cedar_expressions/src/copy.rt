//! Copies of expressions, which can be refused memory, by a loop, however deep they are: all
//! expressions in one are listed, each before those in it; then each is copied, from the last to
//! the first, of the copies of its parts, which are the newest on a stack.
ghost use Rattle.std.specs.Prelude.{◌≡◌, ◌++◌, ◌∷◌, ◌<◌, ◌≤◌, IfOk, OnOk, length, map, List};
ghost use Rattle.cedar_expressions.specs.declared.expr.Expr.{Expr};
ghost use Rattle.cedar_expressions.specs.Meaning.{expr_meaning};
ghost use Rattle.cedar_expressions.specs.Parts.{kind_parts};
ghost use Rattle.cedar_expressions.specs.Filled.{entity_for, filled, slots_left};
ghost use Rattle.cedar_expressions.specs.Slots.{slots_in};
ghost use Rattle.cedar_expressions.specs.Copies.{slot_copy, copied, kind_copied, HoldsCopies};

use crate::stack::Stack;
use crate::{Boxed, Expr, ExprKind, Items, Literal, SlotEntities, SlotId, TryClone};
use std::alloc::{AllocError, Global};

impl Expr {
    /// An equal expression, places included.
    #[tactic(auto, using(crate::proofs::FilledAt::copy_same))]
    pub fn try_clone(&self) -> Result<Expr, AllocError>
        ensures { IfOk result (λ copy. copy ≡ self.now) }
    {
        self.copy_with(&SlotEntities::none())
    }

    /// The expression with entities in the place of its slots, which means what the expression
    /// does with them there; a slot without an entity stays, and so does each place.
    #[tactic(auto, using(crate::proofs::FilledAt::copy_means, crate::proofs::FilledAt::copy_slots))]
    pub fn with_entities(&self, entities: &SlotEntities) -> Result<Expr, AllocError>
        ensures copy { IfOk result (λ copy. copy ≡ copied entities.now self.now) }
        ensures meaning { IfOk result (λ copy.
            expr_meaning copy ≡ filled entities.now (expr_meaning self.now)) }
        ensures slots { IfOk result (λ copy.
            slots_in copy ≡ slots_left entities.now (slots_in self.now)) }
    {
        self.copy_with(entities)
    }

    fn copy_with(&self, entities: &SlotEntities) -> Result<Expr, AllocError>
        ensures { IfOk result (λ copy. copy ≡ copied entities.now self.now) }
    {
        match self.kind() {
            ExprKind::Val(literal) => Ok(Expr::at(
                ExprKind::Val(literal.try_clone()?),
                self.place(),
            )),
            ExprKind::Var(var) => Ok(Expr::at(ExprKind::Var(*var), self.place())),
            ExprKind::Slot(id) => Ok(Expr::at(slot_kind(*id, entities)?, self.place())),
            ExprKind::Ite(parts) => copy_all(self, entities, parts.alloc()),
            ExprKind::Unary(_, operand) => copy_all(self, entities, operand.alloc()),
            ExprKind::Binary(_, parts) => copy_all(self, entities, parts.alloc()),
            ExprKind::Nary(_, first, _) => copy_all(self, entities, first.alloc()),
            ExprKind::Sum(first, _) => copy_all(self, entities, first.alloc()),
            ExprKind::List(_, items) => copy_all(self, entities, items.alloc()),
            ExprKind::Record(pairs) => copy_all(self, entities, pairs.alloc()),
        }
    }
}

/// The copy, by an explicit list of what has still to be copied.
fn copy_all(expr: &Expr, entities: &SlotEntities, alloc: Global) -> Result<Expr, AllocError>
    ensures { IfOk result (λ copy. copy ≡ copied entities.now expr.now) }
{
    let all = expr.all_within(alloc)?;
    let mut copies = Stack::with_room(alloc)?;
    let mut left = all.len();
    while left > 0 {
        left -= 1;
        copy_node(all[left], entities, &mut copies)?;
    }
    Ok(take_copy(&mut copies))
}

/// The copy of a node in the place of the copies of its parts.
#[tactic(auto, using(crate::proofs::CopiesAt::of_expr))]
fn copy_node(
    expr: &Expr,
    entities: &SlotEntities,
    copies: &mut Stack<Expr>,
) -> Result<(), AllocError>
    requires { length (kind_parts expr.now.kind) ≤ length copies.old }
    ensures { (rest : List Expr)
        → HoldsCopies entities.now (kind_parts expr.now.kind) copies.old rest
        → OnOk result (copies.new ≡ copied entities.now expr.now ∷ rest) }
{
    let kind = copy_kind(expr.kind(), entities, copies)?;
    copies.push(Expr::at(kind, expr.place()))
}

/// The newest copy, taken out.
fn take_copy(copies: &mut Stack<Expr>) -> Expr
    requires { 0 < length copies.old }
    ensures { copies.old ≡ result ∷ copies.new }
{
    match copies.pop() {
        Some(copy) => copy,
        None => unreachable!(),
    }
}

/// The copy of what a node is, of the copies of its parts.
fn copy_kind(
    kind: &ExprKind,
    entities: &SlotEntities,
    copies: &mut Stack<Expr>,
) -> Result<ExprKind, AllocError>
    requires { length (kind_parts kind.now) ≤ length copies.old }
    ensures copy { (rest : List Expr)
        → HoldsCopies entities.now (kind_parts kind.now) copies.old rest
        → IfOk result (λ copy. copy ≡ kind_copied entities.now kind.now) }
    ensures left { (rest : List Expr)
        → HoldsCopies entities.now (kind_parts kind.now) copies.old rest
        → OnOk result (copies.new ≡ rest) }
{
    match kind {
        ExprKind::Val(literal) => Ok(ExprKind::Val(literal.try_clone()?)),
        ExprKind::Var(var) => Ok(ExprKind::Var(*var)),
        ExprKind::Slot(id) => slot_kind(*id, entities),
        ExprKind::Ite(parts) => Ok(ExprKind::Ite(copy_three(parts.alloc(), copies)?)),
        ExprKind::Unary(call, operand) => {
            let copy = copy_one(operand.alloc(), copies)?;
            Ok(ExprKind::Unary(call.try_clone()?, copy))
        }
        ExprKind::Binary(call, parts) => {
            let copy = copy_two(parts.alloc(), copies)?;
            Ok(ExprKind::Binary(call.try_clone()?, copy))
        }
        ExprKind::Nary(op, first, rest) => {
            let copy = copy_one(first.alloc(), copies)?;
            Ok(ExprKind::Nary(*op, copy, copy_items(rest, copies)?))
        }
        ExprKind::Sum(first, rest) => {
            let copy = copy_one(first.alloc(), copies)?;
            Ok(ExprKind::Sum(copy, copy_marked(rest, copies)?))
        }
        ExprKind::List(call, items) => {
            let copy = copy_items(items, copies)?;
            Ok(ExprKind::List(call.try_clone()?, copy))
        }
        ExprKind::Record(pairs) => Ok(ExprKind::Record(copy_marked(pairs, copies)?)),
    }
}

/// What a slot's node becomes.
fn slot_kind(id: SlotId, entities: &SlotEntities) -> Result<ExprKind, AllocError>
    ensures { IfOk result (λ copy. copy ≡ slot_copy (entity_for entities.now id) id) }
{
    match entities.get(id) {
        None => Ok(ExprKind::Slot(id)),
        Some(entity) => Ok(ExprKind::Val(Literal::EntityUID(entity.try_clone()?))),
    }
}

fn copy_one(alloc: Global, copies: &mut Stack<Expr>) -> Result<Boxed<Expr>, AllocError>
    requires { 0 < length copies.old }
    ensures { IfOk result (λ copy. copies.old ≡ copy ∷ copies.new) }
{
    Boxed::new(alloc, take_copy(copies))
}

fn copy_two(alloc: Global, copies: &mut Stack<Expr>) -> Result<Boxed<(Expr, Expr)>, AllocError>
    requires { 1 < length copies.old }
    ensures { IfOk result (λ copy. copies.old ≡ copy.0 ∷ copy.1 ∷ copies.new) }
{
    let first = take_copy(copies);
    let second = take_copy(copies);
    Boxed::new(alloc, (first, second))
}

fn copy_three(
    alloc: Global,
    copies: &mut Stack<Expr>,
) -> Result<Boxed<(Expr, Expr, Expr)>, AllocError>
    requires { 2 < length copies.old }
    ensures { IfOk result (λ copy. copies.old ≡ copy.0 ∷ copy.1 ∷ copy.2 ∷ copies.new) }
{
    let first = take_copy(copies);
    let second = take_copy(copies);
    let third = take_copy(copies);
    Boxed::new(alloc, (first, second, third))
}

fn copy_items(items: &Items<Expr>, copies: &mut Stack<Expr>) -> Result<Items<Expr>, AllocError>
    requires { length items.now ≤ length copies.old }
    ensures taken { IfOk result (λ all. copies.old ≡ all ++ copies.new) }
    ensures number { IfOk result (λ all. length all ≡ length items.now) }
{
    let mut all = Items::new(items.alloc());
    let mut left = items.len();
    while left > 0 {
        left -= 1;
        all.push(take_copy(copies))?;
    }
    Ok(all)
}

/// The copies of expressions that stand behind marks: operators or keys.
fn copy_marked<M: TryClone + Drop>(
    items: &Items<(M, Expr)>,
    copies: &mut Stack<Expr>,
) -> Result<Items<(M, Expr)>, AllocError>
    requires { length items.now ≤ length copies.old }
    ensures taken { IfOk result (λ all. copies.old ≡ map (λ t. t.1) all ++ copies.new) }
    ensures marks { IfOk result (λ all. map (λ t. t.0) all ≡ map (λ t. t.0) items.now) }
{
    let mut all = Items::new(items.alloc());
    for item in items.as_slice() {
        let mark = item.0.try_clone()?;
        all.push((mark, take_copy(copies)))?;
    }
    Ok(all)
}

impl TryClone for Expr {
    fn try_clone(&self) -> Result<Expr, AllocError> {
        Expr::try_clone(self)
    }
}

impl Clone for Expr {
    ghost is_clone = { λ x y. y ≡ x };

    fn clone(&self) -> Result<Expr, AllocError> {
        Expr::try_clone(self)
    }
}
