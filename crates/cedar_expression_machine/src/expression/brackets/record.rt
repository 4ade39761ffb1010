//! A record in braces: keys and values.
ghost use Rattle.std.specs.Prelude.{◌≡◌, [], ◌∷◌, Some, IsSome, OnOk};
ghost use Rattle.cedar_grammar.specs.declared.reading.class.Closing.TheVariants as closing;
ghost use Rattle.cedar_grammar.specs.declared.reading.class.FollowClass.TheVariants as operators;
ghost use Rattle.cedar_expression_machine.specs.declared.expression.state.Frame.TheVariants as frame;
ghost use Rattle.cedar_expression_machine.specs.declared.expression.state.OperandPlace.TheVariants as place;
ghost use Rattle.cedar_expression_machine.specs.machines.ExpressionModes.{HasRecord, IsFollowed, WantsOperand, followed, mode_signs};
ghost use Rattle.cedar_expression_machine.specs.machines.ExpressionStates.{opening};
ghost use Rattle.cedar_expression_machine.specs.machines.Having.{record_more, value_beginning};
ghost use Rattle.cedar_expression_machine.specs.machines.Wanting.{list_ending, record_opening};

use crate::expression::brackets::paren::bracket_extent;
use crate::expression::state::{Frame, Key, OperandPlace, Record, Spanned, State};
use cedar_expressions::Items;
use cedar_grammar::never;
use cedar_grammar::reading::extent::{Extent, join_extents};
use cedar_grammar::reading::node_builder::NodeBuilder;
use cedar_grammar::reading::put::put;
use cedar_syntax::cst::{Expr, Primary, RecInit};
use cedar_syntax::node::Node;
use std::alloc::{AllocError, Global};

impl Record {
    /// The value of the pair that is begun: one pair more.
    pub fn push(&mut self, builder: NodeBuilder<'_>, item: Spanned<Expr>) -> Result<(), AllocError>
        requires { IsSome self.old.key }
        ensures { (k : _) → self.old.key ≡ Some k
            → OnOk result (self.new ≡ record_more builder.entry.source.now self.old k item) }
    {
        match self.key.take() {
            Some(Key { node, extent }) => {
                let extent = join_extents(extent, item.extent);
                let pair = RecInit(node, item.into_node(builder)?);
                self.items.push(builder.node_at(extent, pair)?)
            }
            None => never!(),
        }
    }
}

impl State {
    /// `{` where an operand is wanted.
    #[inline(never)]
    pub fn open_record(&mut self, alloc: Global, opened: Extent) -> Result<(), AllocError>
        requires { WantsOperand self.old.mode }
        ensures { OnOk result (self.new ≡ record_opening self.old.stack self.old.levels
            (mode_signs self.old.mode) opened) }
    {
        let signs = self.prefix().signs;
        self.want_again(OperandPlace::Key);
        let outer = self.take_levels(alloc);
        let items = Items::new(alloc);
        self.stack.push(Frame::Record(Record {
            outer,
            signs,
            opened,
            items,
            key: None,
        }))
    }

    /// `}` behind the pairs.
    #[inline(never)]
    pub fn close_record(&mut self, builder: NodeBuilder<'_>, end: Extent) -> Result<(), AllocError>
        requires { HasRecord self.old.stack }
        ensures { OnOk result
            (Some self.new ≡ list_ending builder.entry.source.now self.old.stack end) }
    {
        match self.stack.pop() {
            Some(Frame::Record(frame)) => {
                let Record {
                    outer,
                    signs,
                    opened,
                    items,
                    key: _,
                } = frame;
                let tree = Primary::RInits(items);
                let extent = bracket_extent(opened, end);
                self.restore(outer);
                self.have_primary(builder, signs, Spanned { tree, extent })
            }
            _ => never!(),
        }
    }

    /// A key and its colon are put into the record: the value begins.
    pub fn begin_value(&mut self, key: Spanned<Node<Option<Expr>>>, colon: Extent)
        requires record { HasRecord self.old.stack }
        requires begun { self.old ≡ opening self.old.stack [] place.Expr }
        ensures { (f : _) (st : _) → self.old.stack ≡ frame.Record f ∷ st
            → self.new ≡ value_beginning st f key.tree key.extent colon }
    {
        let extent = join_extents(key.extent, Some(colon));
        match self.stack.top_mut() {
            Some(frame) => match frame {
                Frame::Record(record) => {
                    let node = key.tree;
                    put(&mut record.key, Some(Key { node, extent }));
                }
                _ => never!(),
            },
            None => never!(),
        }
    }

    /// `:` behind a key.
    #[inline(never)]
    pub fn end_key(&mut self, builder: NodeBuilder<'_>, colon: Extent) -> Result<(), AllocError>
        requires { IsFollowed self.old (operators.Ends closing.Colon) }
        ensures { OnOk result (Some self.new ≡ followed builder.entry.source.now self.old
            (operators.Ends closing.Colon) colon) }
    {
        let item = self.close(builder, OperandPlace::Expr)?;
        let extent = item.extent;
        let tree = item.into_node(builder)?;
        self.begin_value(Spanned { tree, extent }, colon);
        Ok(())
    }

    /// `}` behind a value.
    #[inline(never)]
    pub fn end_value(&mut self, builder: NodeBuilder<'_>, end: Extent) -> Result<(), AllocError>
        requires { IsFollowed self.old (operators.Ends closing.Brace) }
        ensures { OnOk result (Some self.new ≡ followed builder.entry.source.now self.old
            (operators.Ends closing.Brace) end) }
    {
        let item = self.close(builder, OperandPlace::Operand)?;
        match self.stack.top_mut() {
            Some(frame) => match frame {
                Frame::Record(record) => {
                    record.push(builder, item)?;
                    self.close_record(builder, end)
                }
                _ => never!(),
            },
            None => never!(),
        }
    }
}
