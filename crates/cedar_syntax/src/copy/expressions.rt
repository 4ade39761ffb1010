//! Copies of expressions, without recursion. All expressions of a tree are listed, each before
//! those in it; then each is copied, the last first, by the copies of those that stand straight in
//! it, which are the newest copies then.
ghost use Rattle.std.specs.Prelude.{◌≡◌, ◌++◌, [], List, IfOk, IsNone, IsOkAnd};
ghost use Rattle.cedar_syntax.specs.declared.cst.Expr.{Expr};
ghost use Rattle.cedar_syntax.specs.trees.Inside.{expr_inside, linked_inside, Leads, lent};
ghost use Rattle.cedar_syntax.specs.printing.Pieces.{exprs_in, next_exprs};

use crate::cst::{
    Add, AddOp, And, Expr, ExprData, ExprImpl, Linked, MemAccess, Member, Mult, MultOp, Or,
    Primary, RecInit, Ref, RelOp, Relation, Unary,
};
use crate::dismantle::Dismantle;
use crate::node::Node;
use crate::pieces::{Piece, Unfold};
use crate::stack::Stack;
use cedar_expressions::{Boxed, Items, TryClone};
use std::alloc::{AllocError, Global};

/// What is held beside what was made. Where making can be refused, a caller then drops nothing on
/// its way out.
pub(crate) fn beside<A: Drop, B>(held: A, made: Result<B, AllocError>) -> Result<(A, B), AllocError>
    ensures { IfOk result (λ both. IsOkAnd made (λ one. both ≡ (held, one))) }
{
    let made = made?;
    Ok((held, made))
}

/// The same of a part of a tree, which is taken apart where making was refused: so a copy's way
/// out isn't one more place where trees are dropped, and the compiler makes the drop of a tree in
/// one piece.
fn part_beside<A: Dismantle, B>(held: A, made: Result<B, AllocError>) -> Result<(A, B), AllocError>
    ensures { IfOk result (λ both. IsOkAnd made (λ one. both ≡ (held, one))) }
{
    match made {
        Ok(made) => Ok((held, made)),
        Err(refused) => {
            let _ = held.dismantle(None);
            Err(refused)
        }
    }
}

/// A tree that is copied by the copies of the expressions that stand straight in it.
pub(crate) trait Holds: Unfold + Sized {
    /// An equal tree, which takes those copies off the stack, the first of them on top.
    fn copy(&self, copies: &mut Stack<Expr>) -> Result<Self, AllocError>
    where
        ensures { (rest : List Expr) → copies.old ≡ Self.inside self.now ++ rest
            → IfOk result (λ copy. (copy ≡ self.now) × (copies.new ≡ rest)) };
}

impl<T: Holds> Holds for Option<T> {
    fn copy(&self, copies: &mut Stack<Expr>) -> Result<Option<T>, AllocError> {
        match self {
            None => Ok(None),
            Some(value) => Ok(Some(value.copy(copies)?)),
        }
    }
}

impl<T: Holds + Drop> Holds for Node<T> {
    fn copy(&self, copies: &mut Stack<Expr>) -> Result<Node<T>, AllocError> {
        let loc = self.loc.try_clone()?;
        let (loc, node) = beside(loc, self.node.copy(copies))?;
        Ok(Node { node, loc })
    }
}

impl<T: Holds + Drop> Holds for Boxed<T> {
    fn copy(&self, copies: &mut Stack<Expr>) -> Result<Boxed<T>, AllocError> {
        Boxed::new(self.alloc(), self.as_ref().copy(copies)?)
    }
}

/// An operator and the operand behind it.
impl<A: Holds + Copy, T: Holds + Drop> Holds for (A, T) {
    fn copy(&self, copies: &mut Stack<Expr>) -> Result<(A, T), AllocError> {
        let op = self.0.copy(copies)?;
        let operand = self.1.copy(copies)?;
        Ok((op, operand))
    }
}

impl Holds for RelOp {
    fn copy(&self, _copies: &mut Stack<Expr>) -> Result<RelOp, AllocError> {
        Ok(*self)
    }
}

impl Holds for AddOp {
    fn copy(&self, _copies: &mut Stack<Expr>) -> Result<AddOp, AllocError> {
        Ok(*self)
    }
}

impl Holds for MultOp {
    fn copy(&self, _copies: &mut Stack<Expr>) -> Result<MultOp, AllocError> {
        Ok(*self)
    }
}

impl<T: Holds + Drop> Holds for Items<T> {
    fn copy(&self, copies: &mut Stack<Expr>) -> Result<Items<T>, AllocError> {
        let mut items = Vec::new(self.alloc());
        for item in self.as_slice() {
            items.reserve(1)?;
            items.push_reserved(item.copy(copies)?);
        }
        Ok(Items::from(items))
    }
}

impl Holds for Expr {
    fn copy(&self, copies: &mut Stack<Expr>) -> Result<Expr, AllocError> {
        match copies.pop() {
            Some(copy) => Ok(copy),
            None => Err(AllocError),
        }
    }
}

impl Linked {
    /// An equal value, which takes the copies of the expressions in it.
    fn copy(&self, copies: &mut Stack<Expr>) -> Result<Linked, AllocError>
        ensures { (rest : List Expr) → copies.old ≡ linked_inside self.now ++ rest
            → IfOk result (λ copy. (copy ≡ self.now) × (copies.new ≡ rest)) }
    {
        let content = self.content.copy(copies)?;
        let (content, next) = part_beside(content, self.next.copy(copies))?;
        Ok(Linked {
            content,
            depth: self.depth.copy(),
            next,
        })
    }
}

impl Expr {
    /// An equal expression, which takes the copies of those that stand straight in it.
    fn level(&self, copies: &mut Stack<Expr>) -> Result<Expr, AllocError>
        ensures { (rest : List Expr) → copies.old ≡ expr_inside self.now ++ rest
            → IfOk result (λ copy. (copy ≡ self.now) × (copies.new ≡ rest)) }
    {
        match self {
            Expr::Expr(whole) => {
                let linked = whole.expr.as_ref().copy(copies)?;
                let expr = Boxed::new(whole.alloc(), linked)?;
                Ok(Expr::Expr(ExprImpl { expr }))
            }
        }
    }
}

impl Holds for ExprData {
    fn copy(&self, copies: &mut Stack<Expr>) -> Result<ExprData, AllocError> {
        match self {
            ExprData::Or(or) => Ok(ExprData::Or(or.copy(copies)?)),
            ExprData::If(guard, consequent, alternative) => {
                let guard = guard.copy(copies)?;
                let (guard, consequent) = part_beside(guard, consequent.copy(copies))?;
                let ((guard, consequent), alternative) = part_beside(
                    (guard, consequent),
                    alternative.copy(copies),
                )?;
                Ok(ExprData::If(guard, consequent, alternative))
            }
        }
    }
}

impl Holds for Or {
    fn copy(&self, copies: &mut Stack<Expr>) -> Result<Or, AllocError> {
        let initial = self.initial.copy(copies)?;
        let (initial, extended) = part_beside(initial, self.extended.copy(copies))?;
        Ok(Or { initial, extended })
    }
}

impl Holds for And {
    fn copy(&self, copies: &mut Stack<Expr>) -> Result<And, AllocError> {
        let initial = self.initial.copy(copies)?;
        let (initial, extended) = part_beside(initial, self.extended.copy(copies))?;
        Ok(And { initial, extended })
    }
}

impl Holds for Relation {
    fn copy(&self, copies: &mut Stack<Expr>) -> Result<Relation, AllocError> {
        match self {
            Relation::Common { initial, extended } => {
                let initial = initial.copy(copies)?;
                let (initial, extended) = part_beside(initial, extended.copy(copies))?;
                Ok(Relation::Common { initial, extended })
            }
            Relation::Has { target, field } => {
                let target = target.copy(copies)?;
                let (target, field) = part_beside(target, field.copy(copies))?;
                Ok(Relation::Has { target, field })
            }
            Relation::Like { target, pattern } => {
                let target = target.copy(copies)?;
                let (target, pattern) = part_beside(target, pattern.copy(copies))?;
                Ok(Relation::Like { target, pattern })
            }
            Relation::IsIn {
                target,
                entity_type,
                in_entity,
            } => {
                let target = target.copy(copies)?;
                let parts = part_beside(target, entity_type.copy(copies))?;
                let ((target, entity_type), in_entity) = part_beside(
                    parts,
                    in_entity.copy(copies),
                )?;
                Ok(Relation::IsIn {
                    target,
                    entity_type,
                    in_entity,
                })
            }
        }
    }
}

impl Holds for Add {
    fn copy(&self, copies: &mut Stack<Expr>) -> Result<Add, AllocError> {
        let initial = self.initial.copy(copies)?;
        let (initial, extended) = part_beside(initial, self.extended.copy(copies))?;
        Ok(Add { initial, extended })
    }
}

impl Holds for Mult {
    fn copy(&self, copies: &mut Stack<Expr>) -> Result<Mult, AllocError> {
        let initial = self.initial.copy(copies)?;
        let (initial, extended) = part_beside(initial, self.extended.copy(copies))?;
        Ok(Mult { initial, extended })
    }
}

impl Holds for Unary {
    fn copy(&self, copies: &mut Stack<Expr>) -> Result<Unary, AllocError> {
        let item = self.item.copy(copies)?;
        Ok(Unary { op: self.op, item })
    }
}

impl Holds for Member {
    fn copy(&self, copies: &mut Stack<Expr>) -> Result<Member, AllocError> {
        let item = self.item.copy(copies)?;
        let (item, access) = part_beside(item, self.access.copy(copies))?;
        Ok(Member { item, access })
    }
}

impl Holds for MemAccess {
    fn copy(&self, copies: &mut Stack<Expr>) -> Result<MemAccess, AllocError> {
        match self {
            MemAccess::Field(field) => Ok(MemAccess::Field(field.try_clone()?)),
            MemAccess::Call(arguments) => Ok(MemAccess::Call(arguments.copy(copies)?)),
            MemAccess::Index(index) => Ok(MemAccess::Index(index.copy(copies)?)),
        }
    }
}

impl Holds for Primary {
    fn copy(&self, copies: &mut Stack<Expr>) -> Result<Primary, AllocError> {
        match self {
            Primary::Literal(value) => Ok(Primary::Literal(value.try_clone()?)),
            Primary::Ref(value) => Ok(Primary::Ref(copy_ref(value)?)),
            Primary::Name(value) => Ok(Primary::Name(value.try_clone()?)),
            Primary::Slot(value) => Ok(Primary::Slot(value.try_clone()?)),
            Primary::Expr(value) => Ok(Primary::Expr(value.copy(copies)?)),
            Primary::EList(elements) => Ok(Primary::EList(elements.copy(copies)?)),
            Primary::RInits(fields) => Ok(Primary::RInits(fields.copy(copies)?)),
        }
    }
}

fn copy_ref(part: &Boxed<Node<Option<Ref>>>) -> Result<Boxed<Node<Option<Ref>>>, AllocError>
    ensures { IfOk result (λ copy. copy ≡ part.now) }
{
    let copy = part.as_ref().try_clone()?;
    Boxed::new(part.alloc(), copy)
}

impl Holds for RecInit {
    fn copy(&self, copies: &mut Stack<Expr>) -> Result<RecInit, AllocError> {
        let key = self.0.copy(copies)?;
        let (key, value) = part_beside(key, self.1.copy(copies))?;
        Ok(RecInit(key, value))
    }
}

// ---- whole trees

/// The next expression among the pieces, which goes with those before it.
fn next_expr<'a>(pieces: &mut Stack<Piece<'a>>) -> Option<&'a Expr>
    ensures next { exprs_in pieces.old ≡ next_exprs result ++ exprs_in pieces.new }
    ensures ended { IsNone result → pieces.new ≡ [] }
{
    while let Some(piece) = pieces.pop() {
        if let Some(expr) = piece.expr() {
            return Some(expr);
        }
    }
    None
}

/// The expressions of a tree, each before those in it; the last is on top.
fn listed<'a, T: Unfold>(alloc: Global, tree: &'a T) -> Result<Stack<&'a Expr>, AllocError>
    ensures { IfOk result (λ order. Leads (lent order) [] (T.inside tree.now)) }
{
    let mut order = Stack::new(alloc);
    let mut pieces = Stack::new(alloc);
    tree.unfold(&mut pieces)?;
    while let Some(expr) = next_expr(&mut pieces) {
        order.push(expr)?;
        let linked = expr.inner().expr.as_ref();
        linked.next.unfold(&mut pieces)?;
        linked.content.unfold(&mut pieces)?;
    }
    Ok(order)
}

/// An equal tree.
fn copied<T: Holds>(alloc: Global, tree: &T) -> Result<T, AllocError>
    ensures { IfOk result (λ copy. copy ≡ tree.now) }
{
    let mut order = listed(alloc, tree)?;
    let mut copies = Stack::new(alloc);
    while let Some(expr) = order.pop() {
        let copy = expr.level(&mut copies)?;
        copies.push(copy)?;
    }
    tree.copy(&mut copies)
}

impl Expr {
    /// An equal value, places included, or want of memory.
    pub fn try_clone(&self) -> Result<Expr, AllocError>
        ensures { IfOk result (λ copy. copy ≡ self.now) }
    {
        copied(self.inner().alloc(), self)
    }
}

impl Or {
    /// An equal value, places included, or want of memory.
    pub fn try_clone(&self) -> Result<Or, AllocError>
        ensures { IfOk result (λ copy. copy ≡ self.now) }
    {
        copied(self.extended.alloc(), self)
    }
}

impl And {
    /// An equal value, places included, or want of memory.
    pub fn try_clone(&self) -> Result<And, AllocError>
        ensures { IfOk result (λ copy. copy ≡ self.now) }
    {
        copied(self.extended.alloc(), self)
    }
}

impl Relation {
    /// An equal value, places included, or want of memory.
    pub fn try_clone(&self) -> Result<Relation, AllocError>
        ensures { IfOk result (λ copy. copy ≡ self.now) }
    {
        copied(self.alloc(), self)
    }
}

impl Add {
    /// An equal value, places included, or want of memory.
    pub fn try_clone(&self) -> Result<Add, AllocError>
        ensures { IfOk result (λ copy. copy ≡ self.now) }
    {
        copied(self.extended.alloc(), self)
    }
}

impl Mult {
    /// An equal value, places included, or want of memory.
    pub fn try_clone(&self) -> Result<Mult, AllocError>
        ensures { IfOk result (λ copy. copy ≡ self.now) }
    {
        copied(self.extended.alloc(), self)
    }
}

impl Member {
    /// An equal value, places included, or want of memory.
    pub fn try_clone(&self) -> Result<Member, AllocError>
        ensures { IfOk result (λ copy. copy ≡ self.now) }
    {
        copied(self.access.alloc(), self)
    }
}

impl Unary {
    /// An equal value, places included, or want of memory.
    pub fn try_clone(&self) -> Result<Unary, AllocError>
        ensures { IfOk result (λ copy. copy ≡ self.now) }
    {
        let item = self.item.try_clone()?;
        Ok(Unary { op: self.op, item })
    }
}

impl Linked {
    /// An equal value, places included, or want of memory.
    fn try_clone(&self) -> Result<Linked, AllocError>
        ensures { IfOk result (λ copy. copy ≡ self.now) }
    {
        let content = self.content.try_clone()?;
        let (content, next) = beside(content, self.next.try_clone())?;
        Ok(Linked {
            content,
            depth: self.depth.copy(),
            next,
        })
    }
}

impl ExprImpl {
    /// An equal value, places included, or want of memory.
    pub fn try_clone(&self) -> Result<ExprImpl, AllocError>
        ensures { IfOk result (λ copy. copy ≡ self.now) }
    {
        let linked = self.expr.as_ref().try_clone()?;
        let expr = Boxed::new(self.alloc(), linked)?;
        Ok(ExprImpl { expr })
    }
}

impl ExprData {
    /// An equal value, places included, or want of memory.
    pub fn try_clone(&self) -> Result<ExprData, AllocError>
        ensures { IfOk result (λ copy. copy ≡ self.now) }
    {
        match self {
            ExprData::Or(or) => Ok(ExprData::Or(or.try_clone()?)),
            ExprData::If(guard, consequent, alternative) => {
                let guard = guard.try_clone()?;
                let parts = beside(guard, consequent.try_clone())?;
                let ((guard, consequent), alternative) = beside(parts, alternative.try_clone())?;
                Ok(ExprData::If(guard, consequent, alternative))
            }
        }
    }
}

impl MemAccess {
    /// An equal value, places included, or want of memory.
    pub fn try_clone(&self) -> Result<MemAccess, AllocError>
        ensures { IfOk result (λ copy. copy ≡ self.now) }
    {
        match self {
            MemAccess::Field(field) => Ok(MemAccess::Field(field.try_clone()?)),
            MemAccess::Call(arguments) => Ok(MemAccess::Call(arguments.try_clone()?)),
            MemAccess::Index(index) => Ok(MemAccess::Index(index.try_clone()?)),
        }
    }
}

impl Primary {
    /// An equal value, places included, or want of memory.
    pub fn try_clone(&self) -> Result<Primary, AllocError>
        ensures { IfOk result (λ copy. copy ≡ self.now) }
    {
        match self {
            Primary::Literal(value) => Ok(Primary::Literal(value.try_clone()?)),
            Primary::Ref(value) => Ok(Primary::Ref(copy_ref(value)?)),
            Primary::Name(value) => Ok(Primary::Name(value.try_clone()?)),
            Primary::Slot(value) => Ok(Primary::Slot(value.try_clone()?)),
            Primary::Expr(value) => Ok(Primary::Expr(value.try_clone()?)),
            Primary::EList(elements) => Ok(Primary::EList(elements.try_clone()?)),
            Primary::RInits(fields) => Ok(Primary::RInits(fields.try_clone()?)),
        }
    }
}

impl RecInit {
    /// An equal value, places included, or want of memory.
    pub fn try_clone(&self) -> Result<RecInit, AllocError>
        ensures { IfOk result (λ copy. copy ≡ self.now) }
    {
        let key = self.0.try_clone()?;
        let (key, value) = beside(key, self.1.try_clone())?;
        Ok(RecInit(key, value))
    }
}
