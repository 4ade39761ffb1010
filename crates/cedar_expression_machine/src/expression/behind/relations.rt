//! Comparisons, and the words `has`, `like` and `is` behind a left side.
ghost use Rattle.std.specs.Prelude.{◌≡◌, Some, None, IfOk, OnOk};
ghost use Rattle.cedar_grammar.specs.grammar.Place.{joint_extent};
ghost use Rattle.cedar_grammar.specs.declared.reading.class.FollowClass.TheVariants as operators;
ghost use Rattle.cedar_expression_machine.specs.declared.expression.state.PendingRelation.TheVariants as left;
ghost use Rattle.cedar_expression_machine.specs.machines.Closing.{marked_chain, node_of, pending};
ghost use Rattle.cedar_expression_machine.specs.machines.ExpressionModes.{HasNoRelation, HasOperand, IsFollowed, IsTyped, followed};
ghost use Rattle.cedar_expression_machine.specs.machines.Having.{before, side_of, side_place};

use crate::expression::levels::alone::{add_with_places, places_of};
use crate::expression::levels::chain::begin_pending;
use crate::expression::state::{OperandPlace, OperatorAt, PendingRelation, Spanned, State};
use cedar_expressions::Boxed;
use cedar_grammar::never;
use cedar_grammar::reading::class::SideWord;
use cedar_grammar::reading::extent::{Extent, join_extents};
use cedar_grammar::reading::node_builder::NodeBuilder;
use cedar_grammar::reading::put::put;
use cedar_syntax::cst::{Add, RelOp};
use cedar_syntax::node::Node;
use std::alloc::{AllocError, Global};

/// A left side and the word behind it.
fn spanned_left(
    builder: NodeBuilder<'_>,
    item: Spanned<Add>,
    word: Extent,
) -> Result<Spanned<Node<Option<Add>>>, AllocError>
    ensures { IfOk result (λ left. left ≡ before builder.entry.source.now item word) }
{
    let extent = join_extents(item.extent, Some(word));
    Ok(Spanned {
        tree: item.into_node(builder)?,
        extent,
    })
}

/// A left side behind which stands one of the words.
fn side_of(side: SideWord, left: Spanned<Node<Option<Add>>>) -> PendingRelation
    ensures { result ≡ side_of side left }
{
    match side {
        SideWord::Has => PendingRelation::Has(left),
        SideWord::Like => PendingRelation::Like(left),
        SideWord::Is => PendingRelation::Is(left),
    }
}

/// What is wanted behind the word.
fn side_place(side: SideWord) -> OperandPlace
    ensures { result ≡ side_place side }
{
    match side {
        SideWord::Has => OperandPlace::Has,
        SideWord::Like => OperandPlace::Operand,
        SideWord::Is => OperandPlace::Operand,
    }
}

impl State {
    /// The right side begins behind this left side.
    #[inline(always)]
    fn begin_right(&mut self, alloc: Global, left: PendingRelation) -> Result<(), AllocError>
        ensures { OnOk result (self.new ≡ record self.old {
          levels = record self.old.levels { relation = Some left };
        }) }
    {
        let left = Boxed::new(alloc, left)?;
        put(&mut self.levels.relation, Some(left));
        Ok(())
    }

    /// A comparison behind a sum alone.
    #[inline(never)]
    fn compare_first(
        &mut self,
        builder: NodeBuilder<'_>,
        item: Spanned<Add>,
        mark: OperatorAt<RelOp>,
    ) -> Result<(), AllocError>
        ensures { OnOk result (self.new ≡ record self.old {
          levels = record self.old.levels {
            relation = Some (left.Common (pending
                (marked_chain builder.entry.source.now None item) mark.op mark.extent));
          };
        }) }
    {
        let loc = builder.loc_at(item.extent)?;
        let begun = begin_pending(builder.alloc, item, loc, mark);
        self.begin_right(builder.alloc, PendingRelation::Common(begun))
    }

    /// `in` behind `is` and its type.
    #[inline(never)]
    fn begin_is_in(
        &mut self,
        builder: NodeBuilder<'_>,
        item: Spanned<Add>,
        word: Extent,
    ) -> Result<(), AllocError>
        requires { IsTyped self.old.levels.relation }
        ensures { (y : _) → self.old.levels.relation ≡ Some (left.Is y)
            → OnOk result (self.new ≡ record self.old {
              levels = record self.old.levels {
                relation = Some (left.IsIn y.tree
                    (node_of builder.entry.source.now item)
                    (joint_extent (joint_extent y.extent item.extent) (Some word)));
              };
            }) }
    {
        match self.levels.relation.take() {
            Some(begun) => match begun.into_inner() {
                PendingRelation::Is(left) => {
                    let extent = join_extents(join_extents(left.extent, item.extent), Some(word));
                    let target = left.tree;
                    let entity_type = item.into_node(builder)?;
                    let left = PendingRelation::IsIn {
                        target,
                        entity_type,
                        extent,
                    };
                    self.begin_right(builder.alloc, left)
                }
                PendingRelation::Common(_)
                | PendingRelation::Has(_)
                | PendingRelation::Like(_)
                | PendingRelation::IsIn { .. } => { never!() }
            },
            None => never!(),
        }
    }

    /// A comparison.
    pub fn compare(
        &mut self,
        builder: NodeBuilder<'_>,
        mark: OperatorAt<RelOp>,
    ) -> Result<(), AllocError>
        requires { IsFollowed self.old (operators.Compare mark.op) }
        ensures { OnOk result (Some self.new ≡ followed builder.entry.source.now self.old
            (operators.Compare mark.op) mark.extent) }
    {
        if self.levels.has_no_relation() {
            return self.compare_alone(builder, mark);
        }
        self.compare_begun(builder, mark)
    }

    /// A comparison behind an operand alone, which is taken out when nothing but the memory for
    /// the left side can be refused any more.
    #[inline(never)]
    fn compare_alone(
        &mut self,
        builder: NodeBuilder<'_>,
        mark: OperatorAt<RelOp>,
    ) -> Result<(), AllocError>
        requires operand { HasOperand self.old.mode }
        requires levels { HasNoRelation self.old.levels }
        ensures { OnOk result (Some self.new ≡ followed builder.entry.source.now self.old
            (operators.Compare mark.op) mark.extent) }
    {
        let operand = self.operand();
        let extent = join_extents(operand.signs.extent, operand.extent);
        let places = places_of(builder, operand)?;
        let loc = builder.loc_at(extent)?;
        let operand = self.take_operand(OperandPlace::Operand);
        let tree = add_with_places(builder.alloc, operand, places);
        let begun = begin_pending(builder.alloc, Spanned { tree, extent }, loc, mark);
        self.begin_right(builder.alloc, PendingRelation::Common(begun))
    }

    /// A comparison where some level of a relation is begun.
    #[inline(never)]
    fn compare_begun(
        &mut self,
        builder: NodeBuilder<'_>,
        mark: OperatorAt<RelOp>,
    ) -> Result<(), AllocError>
        requires { IsFollowed self.old (operators.Compare mark.op) }
        ensures { OnOk result (Some self.new ≡ followed builder.entry.source.now self.old
            (operators.Compare mark.op) mark.extent) }
    {
        let operand = self.take_operand(OperandPlace::Operand);
        let item = self.levels.close_add(builder, operand)?;
        match &mut self.levels.relation {
            None => self.compare_first(builder, item, mark),
            Some(begun) => match begun.as_mut() {
                PendingRelation::Common(begun) => begun.push(builder, item, mark),
                PendingRelation::Is(_) => self.begin_is_in(builder, item, mark.extent),
                PendingRelation::Has(_) | PendingRelation::Like(_) | PendingRelation::IsIn { .. } =>
                    never!(),
            },
        }
    }

    /// One of the words: no relation is begun before it.
    #[inline(never)]
    pub fn side(
        &mut self,
        builder: NodeBuilder<'_>,
        mark: OperatorAt<SideWord>,
    ) -> Result<(), AllocError>
        requires { IsFollowed self.old (operators.Side mark.op) }
        ensures { OnOk result (Some self.new ≡ followed builder.entry.source.now self.old
            (operators.Side mark.op) mark.extent) }
    {
        let operand = self.take_operand(side_place(mark.op));
        let item = self.levels.close_add(builder, operand)?;
        let left = side_of(mark.op, spanned_left(builder, item, mark.extent)?);
        self.begin_right(builder.alloc, left)
    }
}
