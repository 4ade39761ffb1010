//! A set in brackets.
ghost use Rattle.std.specs.Prelude.{◌≡◌, ◌∷◌, OnOk};
ghost use Rattle.cedar_expression_machine.specs.declared.expression.state.Frame.TheVariants as frame;
ghost use Rattle.cedar_expression_machine.specs.machines.ExpressionModes.{WantsOperand, mode_signs};
ghost use Rattle.cedar_expression_machine.specs.machines.Having.{set_more};
ghost use Rattle.cedar_expression_machine.specs.machines.Wanting.{list_ending, set_opening};

use crate::expression::brackets::paren::bracket_extent;
use crate::expression::state::{Frame, OperandPlace, Set, Spanned, State};
use cedar_expressions::Items;
use cedar_grammar::never;
use cedar_grammar::reading::extent::Extent;
use cedar_grammar::reading::node_builder::NodeBuilder;
use cedar_syntax::cst::{Expr, Primary};
use std::alloc::{AllocError, Global};

impl Set {
    /// One element more.
    pub fn push(&mut self, builder: NodeBuilder<'_>, item: Spanned<Expr>) -> Result<(), AllocError>
        ensures { OnOk result (self.new ≡ set_more builder.entry.source.now self.old item) }
    {
        self.items.push(item.into_node(builder)?)
    }
}

impl State {
    /// `[` where an operand is wanted.
    #[inline(never)]
    pub fn open_set(&mut self, alloc: Global, opened: Extent) -> Result<(), AllocError>
        requires { WantsOperand self.old.mode }
        ensures { OnOk result (self.new ≡ set_opening self.old.stack self.old.levels
            (mode_signs self.old.mode) opened) }
    {
        let signs = self.prefix().signs;
        self.want_again(OperandPlace::Item);
        let outer = self.take_levels(alloc);
        let items = Items::new(alloc);
        self.stack.push(Frame::Set(Set {
            outer,
            signs,
            opened,
            items,
        }))
    }

    /// `]` behind the elements.
    #[inline(never)]
    pub fn close_set(&mut self, builder: NodeBuilder<'_>, end: Extent) -> Result<(), AllocError>
        requires { (f : _) × (st : _) × (self.old.stack ≡ frame.Set f ∷ st) }
        ensures { OnOk result
            (Some self.new ≡ list_ending builder.entry.source.now self.old.stack end) }
    {
        match self.stack.pop() {
            Some(Frame::Set(frame)) => {
                let Set {
                    outer,
                    signs,
                    opened,
                    items,
                } = frame;
                let tree = Primary::EList(items);
                let extent = bracket_extent(opened, end);
                self.restore(outer);
                self.have_primary(builder, signs, Spanned { tree, extent })
            }
            _ => never!(),
        }
    }
}
