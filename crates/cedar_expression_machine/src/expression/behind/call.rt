//! Accesses behind an operand: a field, a call, an index.
ghost use Rattle.std.specs.Prelude.{◌≡◌, ◌∷◌, Some, OnOk};
ghost use Rattle.cedar_lexer.specs.Token.{lexeme_of};
ghost use Rattle.cedar_grammar.specs.declared.reading.class.AccessStart.TheVariants as opens;
ghost use Rattle.cedar_grammar.specs.declared.reading.class.Closing.TheVariants as closing;
ghost use Rattle.cedar_grammar.specs.declared.reading.class.FollowClass.TheVariants as operators;
ghost use Rattle.cedar_expression_machine.specs.declared.expression.state.Act.TheVariants as acts;
ghost use Rattle.cedar_expression_machine.specs.machines.Closing.{with_access};
ghost use Rattle.cedar_expression_machine.specs.declared.expression.state.Frame.TheVariants as frame;
ghost use Rattle.cedar_expression_machine.specs.machines.ExpressionModes.{HasOperand, followed};
ghost use Rattle.cedar_expression_machine.specs.machines.Expressions.{expression_act};
ghost use Rattle.cedar_expression_machine.specs.machines.Having.{call_more, frame_ending};
ghost use Rattle.cedar_expression_machine.specs.machines.Named.{named_reader};
ghost use Rattle.cedar_expression_machine.specs.machines.Wanting.{list_ending};
ghost use Rattle.cedar_expression_machine.specs.machines.WholeExpressions.{IsPlanned};

use crate::expression::brackets::paren::bracket_extent;
use crate::expression::levels::begin::have;
use crate::expression::state::{
    Call, Frame, Index, Operand, OperandMode, OperandPlace, Spanned, State,
};
use cedar_expressions::Items;
use cedar_grammar::never;
use cedar_grammar::reading::extent::{Extent, join_extents};
use cedar_grammar::reading::node_builder::NodeBuilder;
use cedar_grammar::reading::place::token_extent;
use cedar_grammar::reading::tokens::ident_node;
use cedar_lexer::token::Token;
use cedar_syntax::cst::{Expr, MemAccess};
use std::alloc::{AllocError, Global};

impl Operand {
    /// One access more.
    #[inline(always)]
    pub fn push(
        &mut self,
        builder: NodeBuilder<'_>,
        access: Spanned<MemAccess>,
    ) -> Result<(), AllocError>
        ensures { OnOk result (self.new ≡ with_access builder.entry.source.now self.old access) }
    {
        self.extent = join_extents(self.extent, access.extent);
        self.member.access.push(access.into_node(builder)?)
    }
}

impl Call {
    /// One argument more.
    pub fn push(&mut self, builder: NodeBuilder<'_>, item: Spanned<Expr>) -> Result<(), AllocError>
        ensures { OnOk result (self.new ≡ call_more builder.entry.source.now self.old item) }
    {
        self.items.push(item.into_node(builder)?)
    }
}

impl State {
    /// `.` behind an operand, which stays where it is.
    pub fn begin_field(&mut self, opened: Extent)
        requires { HasOperand self.old.mode }
        ensures { (src : _) → Some self.new
            ≡ followed src self.old (operators.Access opens.Dot) opened }
    {
        match &mut self.mode {
            OperandMode::Have { dot, .. } => *dot = Some(opened),
            OperandMode::Want { .. } | OperandMode::Word { .. } => never!(),
        }
    }

    /// `(` behind an operand.
    #[inline(never)]
    pub fn open_call(&mut self, alloc: Global, opened: Extent) -> Result<(), AllocError>
        requires { HasOperand self.old.mode }
        ensures { (src : _) → OnOk result (Some self.new
            ≡ followed src self.old (operators.Access opens.Paren) opened) }
    {
        let operand = self.take_operand(OperandPlace::Item);
        let outer = self.take_levels(alloc);
        let items = Items::new(alloc);
        self.stack.push(Frame::Call(Call {
            outer,
            operand,
            opened,
            items,
        }))
    }

    /// `[` behind an operand.
    #[inline(never)]
    pub fn open_index(&mut self, alloc: Global, opened: Extent) -> Result<(), AllocError>
        requires { HasOperand self.old.mode }
        ensures { (src : _) → OnOk result (Some self.new
            ≡ followed src self.old (operators.Access opens.Bracket) opened) }
    {
        let operand = self.take_operand(OperandPlace::Expr);
        let outer = self.take_levels(alloc);
        self.stack.push(Frame::Index(Index {
            outer,
            operand,
            opened,
        }))
    }

    /// `)` behind the arguments.
    #[inline(never)]
    pub fn close_call(&mut self, builder: NodeBuilder<'_>, end: Extent) -> Result<(), AllocError>
        requires { (f : _) × (st : _) × (self.old.stack ≡ frame.Call f ∷ st) }
        ensures { OnOk result
            (Some self.new ≡ list_ending builder.entry.source.now self.old.stack end) }
    {
        match self.stack.pop() {
            Some(Frame::Call(frame)) => {
                let Call {
                    outer,
                    mut operand,
                    opened,
                    items,
                } = frame;
                let tree = MemAccess::Call(items);
                let extent = bracket_extent(opened, end);
                operand.push(builder, Spanned { tree, extent })?;
                self.restore(outer);
                self.set_mode(have(operand));
                Ok(())
            }
            _ => never!(),
        }
    }

    /// `]` behind the index.
    #[inline(never)]
    pub fn close_index(
        &mut self,
        builder: NodeBuilder<'_>,
        item: Spanned<Expr>,
        end: Extent,
    ) -> Result<(), AllocError>
        requires { (f : _) × (st : _) × (self.old.stack ≡ frame.Index f ∷ st) }
        ensures { OnOk result (Some self.new
            ≡ frame_ending builder.entry.source.now self.old.stack item closing.Bracket end) }
    {
        let tree = MemAccess::Index(item.into_node(builder)?);
        match self.stack.pop() {
            Some(Frame::Index(frame)) => {
                let Index {
                    outer,
                    mut operand,
                    opened,
                } = frame;
                let extent = bracket_extent(opened, end);
                operand.push(builder, Spanned { tree, extent })?;
                self.restore(outer);
                self.set_mode(have(operand));
                Ok(())
            }
            _ => never!(),
        }
    }

    /// An identifier behind `.`: the operand takes it where it stays.
    #[inline(never)]
    pub fn read_field(
        &mut self,
        builder: NodeBuilder<'_>,
        token: &Token<'_>,
    ) -> Result<(), AllocError>
        requires { IsPlanned self.old token.now.kind acts.Field }
        ensures { OnOk result (Some self.new ≡ expression_act builder.entry.source.now named_reader
            self.old acts.Field (lexeme_of token.now)) }
    {
        match &mut self.mode {
            OperandMode::Have { operand, dot } => {
                let extent = join_extents(*dot, Some(token_extent(token)));
                let field = ident_node(builder, token)?;
                let tree = MemAccess::Field(field);
                operand.push(builder, Spanned { tree, extent })?;
                *dot = None;
                Ok(())
            }
            OperandMode::Want { .. } | OperandMode::Word { .. } => unreachable!(),
        }
    }
}
