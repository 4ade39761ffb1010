//! An operator behind an operand: it closes the levels that bind tighter, and goes on the level
//! that is its own.
ghost use Rattle.std.specs.Prelude.{◌≡◌, Some, None, IsSome, OnOk};
ghost use Rattle.cedar_grammar.specs.declared.reading.class.FollowClass.TheVariants as operators;
ghost use Rattle.cedar_expression_machine.specs.machines.ExpressionModes.{HasNoSum, HasOperand, followed};

use crate::expression::levels::alone::{mult_with_places, places_of};
use crate::expression::levels::chain::{begin_pending, push_pending};
use crate::expression::levels::close::close_unary;
use crate::expression::levels::last::mark_chain;
use crate::expression::state::{OperandPlace, OperatorAt, Spanned, State};
use cedar_expressions::Boxed;
use cedar_grammar::never;
use cedar_grammar::reading::extent::{Extent, join_extents};
use cedar_grammar::reading::node_builder::NodeBuilder;
use cedar_syntax::cst::{AddOp, MultOp};
use cedar_syntax::node::Node;
use std::alloc::AllocError;

impl State {
    /// `*`, `/` or `%`.
    #[inline(never)]
    pub fn multiply(
        &mut self,
        builder: NodeBuilder<'_>,
        mark: OperatorAt<MultOp>,
    ) -> Result<(), AllocError>
        requires { HasOperand self.old.mode }
        ensures { OnOk result (Some self.new ≡ followed builder.entry.source.now self.old
            (operators.Multiply mark.op) mark.extent) }
    {
        let operand = self.take_operand(OperandPlace::Operand);
        let item = close_unary(builder, operand)?;
        push_pending(builder, &mut self.levels.mult, item, mark)
    }

    /// `+` or `-`.
    #[inline(never)]
    pub fn sum(
        &mut self,
        builder: NodeBuilder<'_>,
        mark: OperatorAt<AddOp>,
    ) -> Result<(), AllocError>
        requires { HasOperand self.old.mode }
        ensures { OnOk result (Some self.new
            ≡ followed builder.entry.source.now self.old (operators.Sum mark.op) mark.extent) }
    {
        if self.levels.mult.is_some() {
            return self.sum_product(builder, mark);
        }
        if self.levels.add.is_some() {
            return self.sum_alone(builder, mark);
        }
        self.begin_sum(builder, mark)
    }

    /// `+` or `-` behind a product.
    #[inline(never)]
    fn sum_product(
        &mut self,
        builder: NodeBuilder<'_>,
        mark: OperatorAt<AddOp>,
    ) -> Result<(), AllocError>
        requires { HasOperand self.old.mode }
        ensures { OnOk result (Some self.new
            ≡ followed builder.entry.source.now self.old (operators.Sum mark.op) mark.extent) }
    {
        let operand = self.take_operand(OperandPlace::Operand);
        let item = self.levels.close_mult(builder, operand)?;
        push_pending(builder, &mut self.levels.add, item, mark)
    }

    /// The first `+` or `-`, behind an operand alone.
    #[inline(never)]
    fn begin_sum(
        &mut self,
        builder: NodeBuilder<'_>,
        mark: OperatorAt<AddOp>,
    ) -> Result<(), AllocError>
        requires operand { HasOperand self.old.mode }
        requires sums { HasNoSum self.old.levels }
        ensures { OnOk result (Some self.new
            ≡ followed builder.entry.source.now self.old (operators.Sum mark.op) mark.extent) }
    {
        let operand = self.operand();
        let extent = join_extents(operand.signs.extent, operand.extent);
        let places = places_of(builder, operand)?;
        let operand = self.take_operand(OperandPlace::Operand);
        let tree = mult_with_places(builder.alloc, operand, places.of_member, places.of_unary);
        let begun = begin_pending(
            builder.alloc,
            Spanned { tree, extent },
            places.of_mult,
            mark,
        );
        self.levels.add = Some(Boxed::new(builder.alloc, begun)?);
        Ok(())
    }

    /// `+` or `-` behind an operand alone.
    #[inline(never)]
    fn sum_alone(
        &mut self,
        builder: NodeBuilder<'_>,
        mark: OperatorAt<AddOp>,
    ) -> Result<(), AllocError>
        requires operand { HasOperand self.old.mode }
        requires level { self.old.levels.mult ≡ None }
        requires begun { IsSome self.old.levels.add }
        ensures { OnOk result (Some self.new
            ≡ followed builder.entry.source.now self.old (operators.Sum mark.op) mark.extent) }
    {
        let operand = self.operand();
        let extent = join_extents(operand.signs.extent, operand.extent);
        let places = places_of(builder, operand)?;
        match &mut self.levels.add {
            Some(level) => {
                let begun = level.as_mut();
                let extent = join_extents(extent, Some(mark.extent));
                begun.chain.extent = join_extents(begun.chain.extent, extent);
                let before = begun.op;
                begun.op = mark.op;
                let operand = self.mode.take_operand(OperandPlace::Operand);
                let tree = mult_with_places(
                    builder.alloc,
                    operand,
                    places.of_member,
                    places.of_unary,
                );
                let node = Node {
                    node: Some(tree),
                    loc: places.of_mult,
                };
                begun.chain.extended.push((before, node))
            }
            None => never!(),
        }
    }

    /// `&&`.
    #[inline(never)]
    pub fn and_then(&mut self, builder: NodeBuilder<'_>, mark: Extent) -> Result<(), AllocError>
        requires { HasOperand self.old.mode }
        ensures { OnOk result (Some self.new
            ≡ followed builder.entry.source.now self.old operators.And mark) }
    {
        self.link_and(builder)?;
        mark_chain(&mut self.levels.and, mark);
        Ok(())
    }

    /// `||`.
    #[inline(never)]
    pub fn or_else(&mut self, builder: NodeBuilder<'_>, mark: Extent) -> Result<(), AllocError>
        requires { HasOperand self.old.mode }
        ensures { OnOk result (Some self.new
            ≡ followed builder.entry.source.now self.old operators.Or mark) }
    {
        self.link_or(builder)?;
        mark_chain(&mut self.levels.or, mark);
        Ok(())
    }
}
