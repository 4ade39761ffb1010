//! Closes what is begun: a level is taken out of its slot, and becomes a tree with its last
//! operand.
ghost use Rattle.std.specs.Prelude.{◌≡◌, [], None, IfOk, OnOk, IsTrue};
ghost use Rattle.cedar_grammar.specs.grammar.Place.{joint_extent};
ghost use Rattle.cedar_syntax.specs.trees.Trees.{if_of};
ghost use Rattle.cedar_expression_machine.specs.machines.Closing.{add_at, fresh, levels_of, made_and, made_expr, made_or, mult_at, node_of, plain_chain, spanned_tree, relation_at, unary_at, with_branches};
ghost use Rattle.cedar_expression_machine.specs.machines.ExpressionModes.{HasNoRelation, HasNoSum};

use crate::expression::depth::branches_are_deep;
use crate::expression::levels::alone::{alone_add, alone_relation, and_of, expr_of, or_of};
use crate::expression::levels::chain::close_pending;
use crate::expression::state::{Branch, Chain, Operand, PendingOperators, Spanned};
use cedar_grammar::reading::extent::join_extents;
use cedar_grammar::reading::node_builder::NodeBuilder;
use cedar_syntax::cst::{Add, Expr, ExprData, ExprImpl, Mult, Relation, Unary};
use cedar_syntax::stack::Stack;
use std::alloc::AllocError;

/// The operand with its signs and accesses.
#[inline(always)]
pub fn close_unary(builder: NodeBuilder<'_>, operand: Operand) -> Result<Spanned<Unary>, AllocError>
    ensures { IfOk result (λ unary. unary ≡ unary_at builder.entry.source.now operand) }
{
    let Operand {
        signs,
        member,
        extent,
        is_if: _,
    } = operand;
    let item = builder.node_at(extent, member)?;
    Ok(Spanned {
        tree: Unary { op: signs.op, item },
        extent: join_extents(signs.extent, extent),
    })
}

/// The expression that is this relation alone. Places come first: behind them nothing is refused
/// but the memory for it.
#[inline(never)]
pub fn expr_of_relation(
    builder: NodeBuilder<'_>,
    item: Spanned<Relation>,
    is_deep: bool,
) -> Result<Spanned<Expr>, AllocError>
    ensures { IfOk result (λ expr. expr ≡ made_expr builder.entry.source.now
        (made_or (plain_chain builder.entry.source.now None
        (made_and (plain_chain builder.entry.source.now None item))))) }
{
    let extent = item.extent;
    let of_relation = builder.loc_at(extent)?;
    let of_and = builder.loc_at(extent)?;
    let loc = builder.loc_at(extent)?;
    let and = and_of(builder.alloc, item.tree, of_relation);
    let or = or_of(builder.alloc, and, of_and);
    let tree = expr_of(builder.alloc, or, loc, is_deep)?;
    Ok(Spanned { tree, extent })
}

/// A conditional whose last part this is.
fn close_branch(
    builder: NodeBuilder<'_>,
    branch: Branch,
    item: Spanned<Expr>,
    is_deep: bool,
) -> Result<Spanned<Expr>, AllocError>
    ensures { IfOk result (λ expr. expr ≡ spanned_tree (joint_extent branch.extent item.extent)
        (if_of branch.guard branch.yes (node_of builder.entry.source.now item))) }
{
    let Branch { guard, yes, extent } = branch;
    let extent = join_extents(extent, item.extent);
    let last = item.into_node(builder)?;
    let expr = ExprImpl::nested(builder.alloc, ExprData::If(guard, yes, last), is_deep)?;
    Ok(Spanned {
        tree: Expr::Expr(expr),
        extent,
    })
}

/// The outermost `if` of those that end with the expression. None is begun any more.
#[inline(never)]
pub fn close_branches(
    builder: NodeBuilder<'_>,
    branches: &mut Stack<Branch>,
    item: Spanned<Expr>,
    is_deep: bool,
) -> Result<Spanned<Expr>, AllocError>
    ensures closed { IfOk result
        (λ expr. expr ≡ with_branches builder.entry.source.now branches.old item) }
    ensures after { OnOk result (branches.new ≡ []) }
{
    let is_deep = is_deep || branches_are_deep(branches);
    let mut item = item;
    while let Some(branch) = branches.pop() {
        item = close_branch(builder, branch, item, is_deep)?;
    }
    Ok(item)
}

impl PendingOperators {
    /// Whether no level of a sum is begun.
    #[inline(always)]
    pub fn has_no_sum(&self) -> bool
        ensures { IsTrue result → HasNoSum self.now }
    {
        self.mult.is_none() && self.add.is_none()
    }

    /// Whether no level of a relation is begun.
    #[inline(always)]
    pub fn has_no_relation(&self) -> bool
        ensures { IsTrue result → HasNoRelation self.now }
    {
        self.relation.is_none() && self.has_no_sum()
    }

    /// Whether nothing is begun.
    #[inline(always)]
    pub fn is_fresh(&self) -> bool
        ensures { IsTrue result → self.now ≡ fresh [] }
    {
        self.has_no_operator() && self.branches.top().is_none()
    }

    /// Whether no level of an expression is begun, but for the `if`s around it.
    #[inline(always)]
    pub fn has_no_operator(&self) -> bool
        ensures { IsTrue result → self.now ≡ fresh self.now.branches }
    {
        self.or.is_none() && self.and.is_none() && self.has_no_relation()
    }

    /// The product that ends with the operand.
    #[inline(always)]
    pub fn close_mult(
        &mut self,
        builder: NodeBuilder<'_>,
        operand: Operand,
    ) -> Result<Spanned<Mult>, AllocError>
        ensures closed { IfOk result (λ closed. closed
            ≡ mult_at builder.entry.source.now self.old operand) }
        ensures after { OnOk result (self.new ≡ record self.old { mult = None }) }
    {
        let unary = close_unary(builder, operand)?;
        let Chain {
            initial,
            extended,
            extent,
        } = close_pending(builder, &mut self.mult, unary)?;
        Ok(Spanned {
            tree: Mult { initial, extended },
            extent,
        })
    }

    /// The sum that ends with the operand.
    #[inline(always)]
    pub fn close_add(
        &mut self,
        builder: NodeBuilder<'_>,
        operand: Operand,
    ) -> Result<Spanned<Add>, AllocError>
        ensures closed { IfOk result (λ closed. closed
            ≡ add_at builder.entry.source.now self.old operand) }
        ensures after { OnOk result (self.new ≡ record self.old { add = None; mult = None }) }
    {
        if self.has_no_sum() {
            return alone_add(builder, operand);
        }
        self.close_sum(builder, operand)
    }

    /// The same, where a product or a sum is begun.
    #[inline(never)]
    fn close_sum(
        &mut self,
        builder: NodeBuilder<'_>,
        operand: Operand,
    ) -> Result<Spanned<Add>, AllocError>
        ensures closed { IfOk result (λ closed. closed
            ≡ add_at builder.entry.source.now self.old operand) }
        ensures after { OnOk result (self.new ≡ record self.old { add = None; mult = None }) }
    {
        let mult = self.close_mult(builder, operand)?;
        let Chain {
            initial,
            extended,
            extent,
        } = close_pending(builder, &mut self.add, mult)?;
        Ok(Spanned {
            tree: Add { initial, extended },
            extent,
        })
    }

    /// The relation that ends with the operand, whatever is begun.
    #[inline(never)]
    pub fn close_sided(
        &mut self,
        builder: NodeBuilder<'_>,
        operand: Operand,
    ) -> Result<Spanned<Relation>, AllocError>
        ensures closed { IfOk result (λ closed. closed
            ≡ relation_at builder.entry.source.now self.old operand) }
        ensures after { OnOk result
            (self.new ≡ levels_of self.old.branches self.old.or self.old.and None None None) }
    {
        let add = self.close_add(builder, operand)?;
        self.relate(builder, add)
    }

    /// The relation that ends with the operand.
    #[inline(always)]
    pub fn close_relation(
        &mut self,
        builder: NodeBuilder<'_>,
        operand: Operand,
    ) -> Result<Spanned<Relation>, AllocError>
        ensures closed { IfOk result (λ closed. closed
            ≡ relation_at builder.entry.source.now self.old operand) }
        ensures after { OnOk result
            (self.new ≡ levels_of self.old.branches self.old.or self.old.and None None None) }
    {
        if self.has_no_relation() {
            return alone_relation(builder, operand);
        }
        self.close_sided(builder, operand)
    }
}
