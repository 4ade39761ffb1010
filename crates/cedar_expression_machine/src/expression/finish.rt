//! The tree at the end of the tokens.
ghost use Rattle.std.specs.Prelude.{◌≡◌, Some, IfOk, OnOk, IsTrue};
ghost use Rattle.cedar_expression_machine.specs.machines.ExpressionModes.{IsReduced};
ghost use Rattle.cedar_expression_machine.specs.machines.WholeExpressions.{state_ends, whole_expression_reader, whole_primary_reader, whole_sum_reader};

use crate::expression::state::{OperandMode, OperandPlace, State};
use cedar_grammar::reading::node_builder::NodeBuilder;
use cedar_syntax::cst::{Add, Expr, Primary};
use cedar_syntax::node::Node;
use std::alloc::AllocError;

impl State {
    /// Words that are begun at the end become the last operand.
    fn reduce_last(&mut self, builder: NodeBuilder<'_>) -> Result<(), AllocError>
        requires { IsTrue (state_ends self.old) }
        ensures { OnOk result (IsReduced builder.entry.source.now self.old self.new) }
    {
        match &self.mode {
            OperandMode::Word { .. } => self.reduce(builder),
            OperandMode::Want { .. } | OperandMode::Have { .. } => Ok(()),
        }
    }

    /// The expression that has ended. Nothing is said of the state behind it.
    #[inline(never)]
    pub fn finish_expr(
        &mut self,
        builder: NodeBuilder<'_>,
    ) -> Result<Node<Option<Expr>>, AllocError>
        requires { IsTrue (state_ends self.old) }
        ensures { IfOk result (λ tree. whole_expression_reader.finish builder.entry.source.now
            self.old ≡ Some tree) }
    {
        self.reduce_last(builder)?;
        self.close_node(builder, OperandPlace::Operand)
    }

    /// The sum that has ended. Nothing is said of the state behind it.
    #[inline(never)]
    pub fn finish_sum(&mut self, builder: NodeBuilder<'_>) -> Result<Node<Option<Add>>, AllocError>
        requires { IsTrue (state_ends self.old) }
        ensures { IfOk result (λ tree. whole_sum_reader.finish builder.entry.source.now self.old
            ≡ Some tree) }
    {
        self.reduce_last(builder)?;
        let operand = self.take_operand(OperandPlace::Operand);
        let item = self.levels.close_add(builder, operand)?;
        item.into_node(builder)
    }

    /// The primary that has ended. Nothing is said of the state behind it.
    pub fn finish_primary(
        &mut self,
        builder: NodeBuilder<'_>,
    ) -> Result<Node<Option<Primary>>, AllocError>
        requires { IsTrue (state_ends self.old) }
        ensures { IfOk result (λ tree.
            whole_primary_reader.finish builder.entry.source.now self.old ≡ Some tree) }
    {
        self.reduce_last(builder)?;
        let operand = self.take_operand(OperandPlace::Operand);
        Ok(operand.member.item)
    }
}
