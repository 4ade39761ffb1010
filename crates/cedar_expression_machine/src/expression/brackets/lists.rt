//! What ends a list where an item may begin.
ghost use Rattle.std.specs.Prelude.{◌≡◌, Some, OnOk};
ghost use Rattle.cedar_expression_machine.specs.machines.ExpressionModes.{MayEndList};
ghost use Rattle.cedar_expression_machine.specs.machines.Wanting.{list_ending};

use crate::expression::state::{Frame, State};
use cedar_grammar::never;
use cedar_grammar::reading::extent::Extent;
use cedar_grammar::reading::node_builder::NodeBuilder;
use std::alloc::AllocError;

impl State {
    /// What ends a list, where an operand is wanted.
    #[inline(never)]
    pub fn end_list(&mut self, builder: NodeBuilder<'_>, end: Extent) -> Result<(), AllocError>
        requires { MayEndList self.old.stack }
        ensures { OnOk result (Some self.new
            ≡ list_ending builder.entry.source.now self.old.stack end) }
    {
        match self.stack.top() {
            Some(Frame::Set(_)) => self.close_set(builder, end),
            Some(Frame::Call(_)) => self.close_call(builder, end),
            Some(Frame::Record(_)) => self.close_record(builder, end),
            _ => never!(),
        }
    }
}
