//! `if`, `then` and `else`.
ghost use Rattle.std.specs.Prelude.{◌≡◌, Some, OnOk};
ghost use Rattle.cedar_grammar.specs.declared.reading.class.Closing.TheVariants as closing;
ghost use Rattle.cedar_grammar.specs.declared.reading.class.FollowClass.TheVariants as operators;
ghost use Rattle.cedar_expression_machine.specs.machines.ExpressionModes.{IsFollowed, followed};

use crate::expression::state::{Branch, Frame, Guard, OperandPlace, State, Then};
use cedar_grammar::never;
use cedar_grammar::reading::extent::{Extent, join_extents};
use cedar_grammar::reading::node_builder::NodeBuilder;
use cedar_grammar::reading::put::put;
use std::alloc::AllocError;

impl State {
    /// `then` behind the guard.
    #[inline(never)]
    pub fn end_guard(&mut self, builder: NodeBuilder<'_>, word: Extent) -> Result<(), AllocError>
        requires { IsFollowed self.old (operators.Ends closing.Then) }
        ensures { OnOk result (Some self.new ≡ followed builder.entry.source.now self.old
            (operators.Ends closing.Then) word) }
    {
        let item = self.close(builder, OperandPlace::Expr)?;
        match self.stack.pop() {
            Some(Frame::Guard(Guard { branches, opened })) => {
                let extent = join_extents(join_extents(opened, item.extent), Some(word));
                let guard = item.into_node(builder)?;
                self.stack.push(Frame::Then(Then {
                    branches,
                    guard,
                    extent,
                }))
            }
            _ => never!(),
        }
    }

    /// `else` behind the part for yes.
    #[inline(never)]
    pub fn end_then(&mut self, builder: NodeBuilder<'_>, word: Extent) -> Result<(), AllocError>
        requires { IsFollowed self.old (operators.Ends closing.Else) }
        ensures { OnOk result (Some self.new ≡ followed builder.entry.source.now self.old
            (operators.Ends closing.Else) word) }
    {
        let item = self.close(builder, OperandPlace::Expr)?;
        match self.stack.pop() {
            Some(
                Frame::Then(
                    Then {
                        mut branches,
                        guard,
                        extent,
                    },
                ),
            ) => {
                let extent = join_extents(join_extents(extent, item.extent), Some(word));
                let yes = item.into_node(builder)?;
                branches.push(Branch { guard, yes, extent })?;
                put(&mut self.levels.branches, branches);
                Ok(())
            }
            _ => never!(),
        }
    }
}
