//! The last operand is put on the level that ends with it, where the level's operands stay; and a
//! level that has ended is taken out once, when its tree is put where it stays itself.
ghost use Rattle.std.specs.Prelude.{◌≡◌, [], None, Some, IfOk, OnOk, IsSome, IsTrue};
ghost use Rattle.cedar_grammar.specs.machines.Machine.{option_image};
ghost use Rattle.cedar_expression_machine.specs.declared.expression.state.PendingRelation.TheVariants as left;
ghost use Rattle.cedar_expression_machine.specs.declared.expression.state.OperandMode.TheVariants as mode;
ghost use Rattle.cedar_expression_machine.specs.machines.Closing.{fresh, levels_of, made_expr, onward, or_at, relation_at};
ghost use Rattle.cedar_expression_machine.specs.machines.ExpressionModes.{HasNoRelation, HasNoSum, HasOperand, IsCommon, chain_extent, compared, conjoined, disjoined};
ghost use Rattle.cedar_expression_machine.specs.machines.ExpressionStates.{going_on};

use crate::expression::levels::alone::{
    add_with_places, alone_expr, and_of, common_of, expr_of, or_of, places_of,
};
use crate::expression::levels::chain::push_plain_node;
use crate::expression::levels::close::expr_of_relation;
use crate::expression::state::{
    Chain, OperandPlace, PendingOperators, PendingRelation, Spanned, State,
};
use cedar_expressions::{Boxed, Items};
use cedar_grammar::never;
use cedar_grammar::reading::extent::{Extent, join_extents};
use cedar_grammar::reading::node_builder::NodeBuilder;
use cedar_syntax::cst::{And, Expr, Or, Relation};
use cedar_syntax::node::Node;
use std::alloc::AllocError;

/// A level's operands, taken out.
#[inline(always)]
fn take_chain<T: Drop>(
    slot: &mut Option<Boxed<Chain<T, Node<Option<T>>>>>,
) -> Chain<T, Node<Option<T>>>
    requires { (c : _) × (slot.old ≡ Some c) }
    ensures chain { slot.old ≡ Some result }
    ensures after { slot.new ≡ None }
{
    match slot.take() {
        Some(chain) => chain.into_inner(),
        None => never!(),
    }
}

/// The bytes of a level's operands.
#[inline(always)]
fn chain_extent<T: Drop>(slot: &Option<Boxed<Chain<T, Node<Option<T>>>>>) -> Option<Extent>
    ensures { result ≡ chain_extent slot.now }
{
    match slot {
        Some(chain) => chain.as_ref().extent,
        None => None,
    }
}

/// The operator behind a level's operands.
#[inline(always)]
pub fn mark_chain<T: Drop>(slot: &mut Option<Boxed<Chain<T, Node<Option<T>>>>>, mark: Extent)
    ensures { slot.new ≡ option_image (λ c. onward c mark) slot.old }
{
    match slot {
        Some(chain) => {
            let chain = chain.as_mut();
            chain.extent = join_extents(chain.extent, Some(mark));
        }
        None => (),
    }
}

impl PendingOperators {
    /// Whether comparisons are begun, and no level below them.
    #[inline(always)]
    fn compares(&self) -> bool
        ensures sums { IsTrue result → HasNoSum self.now }
        ensures common { IsTrue result → IsCommon self.now.relation }
    {
        self.has_no_sum() && self.is_common()
    }
}

impl State {
    /// The last operand of comparisons, which is their last sum: it is put where it stays.
    #[inline(never)]
    fn link_common(&mut self, builder: NodeBuilder<'_>) -> Result<(), AllocError>
        requires operand { HasOperand self.old.mode }
        requires sums { HasNoSum self.old.levels }
        requires common { IsCommon self.old.levels.relation }
        ensures { (p : _) (m : _) → self.old.levels.relation ≡ Some (left.Common p)
            → self.old.mode ≡ mode.Have m None → OnOk result (self.new
            ≡ going_on self.old.stack (compared builder.entry.source.now self.old.levels p m)) }
    {
        let operand = self.operand();
        let extent = join_extents(operand.signs.extent, operand.extent);
        let places = places_of(builder, operand)?;
        let loc = builder.loc_at(extent)?;
        match &mut self.levels.relation {
            Some(left) => match left.as_mut() {
                PendingRelation::Common(begun) => {
                    begun.chain.extent = join_extents(begun.chain.extent, extent);
                    let operand = self.mode.take_operand(OperandPlace::Operand);
                    let node = Node {
                        node: Some(add_with_places(builder.alloc, operand, places)),
                        loc,
                    };
                    begun.chain.extended.push((begun.op, node))
                }
                _ => never!(),
            },
            None => never!(),
        }
    }

    /// The bytes of the relation that ends with the operand, where comparisons are begun.
    #[inline(always)]
    fn compared_extent(&self) -> Option<Extent>
        requires operand { HasOperand self.now.mode }
        requires sums { HasNoSum self.now.levels }
        requires common { IsCommon self.now.levels.relation }
        ensures { (src : _) (m : _) → self.now.mode ≡ mode.Have m None
            → result ≡ (relation_at src self.now.levels m).extent }
    {
        let operand = self.operand();
        let extent = join_extents(operand.signs.extent, operand.extent);
        match &self.levels.relation {
            Some(left) => match left.as_ref() {
                PendingRelation::Common(begun) => join_extents(begun.chain.extent, extent),
                _ => never!(),
            },
            None => never!(),
        }
    }

    /// The relation that ends with the operand, where comparisons are begun.
    #[inline(always)]
    fn take_compared(&mut self, builder: NodeBuilder<'_>) -> Result<Spanned<Relation>, AllocError>
        requires operand { HasOperand self.old.mode }
        requires sums { HasNoSum self.old.levels }
        requires common { IsCommon self.old.levels.relation }
        ensures closed { IfOk result (λ closed. (m : _) → self.old.mode ≡ mode.Have m None
            → closed ≡ relation_at builder.entry.source.now self.old.levels m) }
        ensures after { OnOk result
            (self.new ≡ going_on self.old.stack (levels_of self.old.levels.branches
            self.old.levels.or self.old.levels.and None None None)) }
    {
        self.link_common(builder)?;
        Ok(self.levels.take_common())
    }

    /// `&&` behind comparisons.
    #[inline(never)]
    fn and_compared(&mut self, builder: NodeBuilder<'_>) -> Result<(), AllocError>
        requires operand { HasOperand self.old.mode }
        requires sums { HasNoSum self.old.levels }
        requires common { IsCommon self.old.levels.relation }
        ensures { (m : _) → self.old.mode ≡ mode.Have m None → OnOk result (self.new
            ≡ going_on self.old.stack (conjoined builder.entry.source.now self.old.levels m)) }
    {
        let extent = self.compared_extent();
        let loc = builder.loc_at(extent)?;
        let item = self.take_compared(builder)?;
        let node = Node {
            node: Some(item.tree),
            loc,
        };
        push_plain_node(builder.alloc, &mut self.levels.and, node, extent)
    }

    /// `&&` behind a relation.
    #[inline(never)]
    fn and_sided(&mut self, builder: NodeBuilder<'_>) -> Result<(), AllocError>
        requires operand { HasOperand self.old.mode }
        ensures { (m : _) → self.old.mode ≡ mode.Have m None → OnOk result (self.new
            ≡ going_on self.old.stack (conjoined builder.entry.source.now self.old.levels m)) }
    {
        let operand = self.take_operand(OperandPlace::Operand);
        let item = self.levels.close_sided(builder, operand)?;
        let extent = item.extent;
        push_plain_node(
            builder.alloc,
            &mut self.levels.and,
            item.into_node(builder)?,
            extent,
        )
    }

    /// `&&` behind an operand alone.
    #[inline(never)]
    fn and_alone(&mut self, builder: NodeBuilder<'_>) -> Result<(), AllocError>
        requires operand { HasOperand self.old.mode }
        requires levels { HasNoRelation self.old.levels }
        requires and { IsSome self.old.levels.and }
        ensures { (m : _) → self.old.mode ≡ mode.Have m None → OnOk result (self.new
            ≡ going_on self.old.stack (conjoined builder.entry.source.now self.old.levels m)) }
    {
        let operand = self.operand();
        let extent = join_extents(operand.signs.extent, operand.extent);
        let places = places_of(builder, operand)?;
        let of_add = builder.loc_at(extent)?;
        let loc = builder.loc_at(extent)?;
        match &mut self.levels.and {
            Some(level) => {
                let chain = level.as_mut();
                chain.extent = join_extents(chain.extent, extent);
                let operand = self.mode.take_operand(OperandPlace::Operand);
                let add = add_with_places(builder.alloc, operand, places);
                let node = Node {
                    node: Some(common_of(builder.alloc, add, of_add)),
                    loc,
                };
                chain.extended.push(node)
            }
            None => never!(),
        }
    }

    /// The first `&&`, behind an operand alone.
    #[inline(never)]
    fn begin_and(&mut self, builder: NodeBuilder<'_>) -> Result<(), AllocError>
        requires operand { HasOperand self.old.mode }
        requires levels { HasNoRelation self.old.levels }
        requires and { self.old.levels.and ≡ None }
        ensures { (m : _) → self.old.mode ≡ mode.Have m None → OnOk result (self.new
            ≡ going_on self.old.stack (conjoined builder.entry.source.now self.old.levels m)) }
    {
        let operand = self.operand();
        let extent = join_extents(operand.signs.extent, operand.extent);
        let places = places_of(builder, operand)?;
        let of_add = builder.loc_at(extent)?;
        let loc = builder.loc_at(extent)?;
        let operand = self.take_operand(OperandPlace::Operand);
        let add = add_with_places(builder.alloc, operand, places);
        let node = Node {
            node: Some(common_of(builder.alloc, add, of_add)),
            loc,
        };
        let chain = Chain {
            initial: node,
            extended: Items::new(builder.alloc),
            extent,
        };
        self.levels.and = Some(Boxed::new(builder.alloc, chain)?);
        Ok(())
    }

    /// The relation that ends with the operand goes on a chain of `&&`.
    #[inline(always)]
    pub fn link_and(&mut self, builder: NodeBuilder<'_>) -> Result<(), AllocError>
        requires operand { HasOperand self.old.mode }
        ensures { (m : _) → self.old.mode ≡ mode.Have m None → OnOk result (self.new
            ≡ going_on self.old.stack (conjoined builder.entry.source.now self.old.levels m)) }
    {
        if self.levels.has_no_relation() {
            if self.levels.and.is_some() {
                return self.and_alone(builder);
            }
            return self.begin_and(builder);
        }
        if self.levels.compares() {
            return self.and_compared(builder);
        }
        self.and_sided(builder)
    }

    /// `||` behind a chain of `&&`.
    #[inline(never)]
    fn or_joined(&mut self, builder: NodeBuilder<'_>) -> Result<(), AllocError>
        requires operand { HasOperand self.old.mode }
        ensures { (m : _) → self.old.mode ≡ mode.Have m None → OnOk result (self.new
            ≡ going_on self.old.stack (disjoined builder.entry.source.now self.old.levels m)) }
    {
        self.link_and(builder)?;
        let extent = chain_extent(&self.levels.and);
        let loc = builder.loc_at(extent)?;
        let chain = take_chain(&mut self.levels.and);
        let node = Node {
            node: Some(And {
                initial: chain.initial,
                extended: chain.extended,
            }),
            loc,
        };
        push_plain_node(builder.alloc, &mut self.levels.or, node, extent)
    }

    /// `||` behind comparisons.
    #[inline(never)]
    fn or_compared(&mut self, builder: NodeBuilder<'_>) -> Result<(), AllocError>
        requires operand { HasOperand self.old.mode }
        requires sums { HasNoSum self.old.levels }
        requires common { IsCommon self.old.levels.relation }
        requires and { self.old.levels.and ≡ None }
        ensures { (m : _) → self.old.mode ≡ mode.Have m None → OnOk result (self.new
            ≡ going_on self.old.stack (disjoined builder.entry.source.now self.old.levels m)) }
    {
        let extent = self.compared_extent();
        let of_relation = builder.loc_at(extent)?;
        let loc = builder.loc_at(extent)?;
        let item = self.take_compared(builder)?;
        let node = Node {
            node: Some(and_of(builder.alloc, item.tree, of_relation)),
            loc,
        };
        push_plain_node(builder.alloc, &mut self.levels.or, node, extent)
    }

    /// `||` behind another relation.
    #[inline(never)]
    fn or_related(&mut self, builder: NodeBuilder<'_>) -> Result<(), AllocError>
        requires operand { HasOperand self.old.mode }
        requires and { self.old.levels.and ≡ None }
        ensures { (m : _) → self.old.mode ≡ mode.Have m None → OnOk result (self.new
            ≡ going_on self.old.stack (disjoined builder.entry.source.now self.old.levels m)) }
    {
        let operand = self.take_operand(OperandPlace::Operand);
        let item = self.levels.close_relation(builder, operand)?;
        let extent = item.extent;
        let of_relation = builder.loc_at(extent)?;
        let loc = builder.loc_at(extent)?;
        let node = Node {
            node: Some(and_of(builder.alloc, item.tree, of_relation)),
            loc,
        };
        push_plain_node(builder.alloc, &mut self.levels.or, node, extent)
    }

    /// The conjunction that ends with the operand goes on a chain of `||`.
    #[inline(always)]
    pub fn link_or(&mut self, builder: NodeBuilder<'_>) -> Result<(), AllocError>
        requires operand { HasOperand self.old.mode }
        ensures { (m : _) → self.old.mode ≡ mode.Have m None → OnOk result (self.new
            ≡ going_on self.old.stack (disjoined builder.entry.source.now self.old.levels m)) }
    {
        if self.levels.and.is_some() {
            return self.or_joined(builder);
        }
        if self.levels.compares() {
            return self.or_compared(builder);
        }
        self.or_related(builder)
    }

    /// The expression that is the operand alone.
    #[inline(never)]
    fn expr_of_operand(&mut self, builder: NodeBuilder<'_>) -> Result<Spanned<Expr>, AllocError>
        requires operand { HasOperand self.old.mode }
        requires levels { self.old.levels ≡ fresh self.old.levels.branches }
        ensures closed { IfOk result (λ closed. (m : _) → self.old.mode ≡ mode.Have m None
            → closed ≡ made_expr builder.entry.source.now
            (or_at builder.entry.source.now self.old.levels m)) }
        ensures after { OnOk result
            (self.new ≡ going_on self.old.stack (fresh self.old.levels.branches)) }
    {
        let operand = self.take_operand(OperandPlace::Operand);
        alone_expr(builder, operand, self.is_deep())
    }

    /// The expression that ends with the operand, where a chain of `||` is begun.
    #[inline(never)]
    fn expr_of_or(&mut self, builder: NodeBuilder<'_>) -> Result<Spanned<Expr>, AllocError>
        requires operand { HasOperand self.old.mode }
        ensures closed { IfOk result (λ closed. (m : _) → self.old.mode ≡ mode.Have m None
            → closed ≡ made_expr builder.entry.source.now
            (or_at builder.entry.source.now self.old.levels m)) }
        ensures after { OnOk result
            (self.new ≡ going_on self.old.stack (fresh self.old.levels.branches)) }
    {
        self.link_or(builder)?;
        let extent = chain_extent(&self.levels.or);
        let loc = builder.loc_at(extent)?;
        let chain = take_chain(&mut self.levels.or);
        let or = Or {
            initial: chain.initial,
            extended: chain.extended,
        };
        let tree = expr_of(builder.alloc, or, loc, self.is_deep())?;
        Ok(Spanned { tree, extent })
    }

    /// The same, where one of `&&` is, and none of `||`.
    #[inline(never)]
    fn expr_of_and(&mut self, builder: NodeBuilder<'_>) -> Result<Spanned<Expr>, AllocError>
        requires operand { HasOperand self.old.mode }
        requires or { self.old.levels.or ≡ None }
        ensures closed { IfOk result (λ closed. (m : _) → self.old.mode ≡ mode.Have m None
            → closed ≡ made_expr builder.entry.source.now
            (or_at builder.entry.source.now self.old.levels m)) }
        ensures after { OnOk result
            (self.new ≡ going_on self.old.stack (fresh self.old.levels.branches)) }
    {
        self.link_and(builder)?;
        let extent = chain_extent(&self.levels.and);
        let of_and = builder.loc_at(extent)?;
        let loc = builder.loc_at(extent)?;
        let chain = take_chain(&mut self.levels.and);
        let and = And {
            initial: chain.initial,
            extended: chain.extended,
        };
        let or = or_of(builder.alloc, and, of_and);
        let tree = expr_of(builder.alloc, or, loc, self.is_deep())?;
        Ok(Spanned { tree, extent })
    }

    /// The same, where comparisons are all that is begun.
    #[inline(never)]
    fn expr_of_common(&mut self, builder: NodeBuilder<'_>) -> Result<Spanned<Expr>, AllocError>
        requires operand { HasOperand self.old.mode }
        requires sums { HasNoSum self.old.levels }
        requires common { IsCommon self.old.levels.relation }
        requires or { self.old.levels.or ≡ None }
        requires and { self.old.levels.and ≡ None }
        ensures closed { IfOk result (λ closed. (m : _) → self.old.mode ≡ mode.Have m None
            → closed ≡ made_expr builder.entry.source.now
            (or_at builder.entry.source.now self.old.levels m)) }
        ensures after { OnOk result
            (self.new ≡ going_on self.old.stack (fresh self.old.levels.branches)) }
    {
        let extent = self.compared_extent();
        let of_relation = builder.loc_at(extent)?;
        let of_and = builder.loc_at(extent)?;
        let loc = builder.loc_at(extent)?;
        let item = self.take_compared(builder)?;
        let and = and_of(builder.alloc, item.tree, of_relation);
        let or = or_of(builder.alloc, and, of_and);
        let tree = expr_of(builder.alloc, or, loc, self.is_deep())?;
        Ok(Spanned { tree, extent })
    }

    /// The same, where no chain of either is.
    #[inline(never)]
    fn expr_of_related(&mut self, builder: NodeBuilder<'_>) -> Result<Spanned<Expr>, AllocError>
        requires operand { HasOperand self.old.mode }
        requires or { self.old.levels.or ≡ None }
        requires and { self.old.levels.and ≡ None }
        ensures closed { IfOk result (λ closed. (m : _) → self.old.mode ≡ mode.Have m None
            → closed ≡ made_expr builder.entry.source.now
            (or_at builder.entry.source.now self.old.levels m)) }
        ensures after { OnOk result
            (self.new ≡ going_on self.old.stack (fresh self.old.levels.branches)) }
    {
        let operand = self.take_operand(OperandPlace::Operand);
        let item = self.levels.close_relation(builder, operand)?;
        expr_of_relation(builder, item, self.is_deep())
    }

    /// The expression without `if` that ends with the operand.
    pub fn close_expr(&mut self, builder: NodeBuilder<'_>) -> Result<Spanned<Expr>, AllocError>
        requires operand { HasOperand self.old.mode }
        ensures closed { IfOk result (λ closed. (m : _) → self.old.mode ≡ mode.Have m None
            → closed ≡ made_expr builder.entry.source.now
            (or_at builder.entry.source.now self.old.levels m)) }
        ensures after { OnOk result
            (self.new ≡ going_on self.old.stack (fresh self.old.levels.branches)) }
    {
        if self.levels.has_no_operator() {
            return self.expr_of_operand(builder);
        }
        if self.levels.or.is_some() {
            return self.expr_of_or(builder);
        }
        if self.levels.and.is_some() {
            return self.expr_of_and(builder);
        }
        if self.levels.compares() {
            return self.expr_of_common(builder);
        }
        self.expr_of_related(builder)
    }
}
