//! An expression in parentheses.
ghost use Rattle.std.specs.Prelude.{◌≡◌, ◌∷◌, Some, OnOk};
ghost use Rattle.cedar_grammar.specs.declared.reading.class.Closing.TheVariants as closing;
ghost use Rattle.cedar_expression_machine.specs.declared.expression.state.Frame.TheVariants as frame;
ghost use Rattle.cedar_expression_machine.specs.machines.ExpressionModes.{WantsOperand, mode_signs};
ghost use Rattle.cedar_expression_machine.specs.machines.ExpressionStates.{around};
ghost use Rattle.cedar_expression_machine.specs.machines.Having.{frame_ending};
ghost use Rattle.cedar_expression_machine.specs.machines.Wanting.{paren_opening};

use crate::expression::state::{Frame, OperandPlace, Paren, Spanned, State};
use cedar_grammar::never;
use cedar_grammar::reading::extent::{Extent, join_extents};
use cedar_grammar::reading::node_builder::NodeBuilder;
use cedar_syntax::cst::{Expr, Primary};
use std::alloc::{AllocError, Global};

/// From an open bracket to its end.
pub fn bracket_extent(opened: Extent, end: Extent) -> Option<Extent>
    ensures { result ≡ around opened end }
{
    join_extents(Some(opened), Some(end))
}

impl State {
    /// `(` where an operand is wanted.
    #[inline(never)]
    pub fn open_paren(&mut self, alloc: Global, opened: Extent) -> Result<(), AllocError>
        requires { WantsOperand self.old.mode }
        ensures { OnOk result (self.new ≡ paren_opening self.old.stack self.old.levels
            (mode_signs self.old.mode) opened) }
    {
        let signs = self.prefix().signs;
        self.want_again(OperandPlace::Expr);
        let outer = self.take_levels(alloc);
        self.stack.push(Frame::Paren(Paren {
            outer,
            signs,
            opened,
        }))
    }

    /// `)` behind the expression.
    #[inline(never)]
    pub fn close_paren(
        &mut self,
        builder: NodeBuilder<'_>,
        item: Spanned<Expr>,
        end: Extent,
    ) -> Result<(), AllocError>
        requires { (f : _) × (st : _) × (self.old.stack ≡ frame.Paren f ∷ st) }
        ensures { OnOk result (Some self.new
            ≡ frame_ending builder.entry.source.now self.old.stack item closing.Paren end) }
    {
        let tree = Primary::Expr(item.into_node(builder)?);
        match self.stack.pop() {
            Some(Frame::Paren(frame)) => {
                let Paren {
                    outer,
                    signs,
                    opened,
                } = frame;
                let extent = bracket_extent(opened, end);
                self.restore(outer);
                self.have_primary(builder, signs, Spanned { tree, extent })
            }
            _ => never!(),
        }
    }
}
