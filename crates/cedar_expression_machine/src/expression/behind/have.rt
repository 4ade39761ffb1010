//! A token behind an operand. Where a large part of the tree is made there is a function for that
//! alone, so that the functions which each token goes through have small frames.
ghost use Rattle.std.specs.Prelude.{◌≡◌, [], Some, None, IfOk, OnOk};
ghost use Rattle.cedar_lexer.specs.Token.{lexeme_of};
ghost use Rattle.cedar_grammar.specs.grammar.Place.{extent_of};
ghost use Rattle.cedar_grammar.specs.declared.reading.class.Closing.TheVariants as closing;
ghost use Rattle.cedar_grammar.specs.declared.reading.class.FollowClass.TheVariants as operators;
ghost use Rattle.cedar_expression_machine.specs.declared.expression.state.OperandMode.TheVariants as mode;
ghost use Rattle.cedar_expression_machine.specs.machines.Closing.{whole, node_of, fresh};
ghost use Rattle.cedar_expression_machine.specs.machines.ExpressionModes.{HasOperand, IsFollowed, followed};
ghost use Rattle.cedar_expression_machine.specs.machines.ExpressionStates.{state, wants};

use crate::expression::levels::alone::{expr_alone, places_of, upper_places};
use crate::expression::levels::close::close_branches;
use crate::expression::state::{Frame, OperandPlace, OperatorAt, Spanned, State};
use cedar_grammar::never;
use cedar_grammar::reading::class::{AccessStart, Closing, FollowClass};
use cedar_grammar::reading::extent::{Extent, join_extents};
use cedar_grammar::reading::node_builder::NodeBuilder;
use cedar_grammar::reading::place::token_extent;
use cedar_lexer::token::Token;
use cedar_syntax::cst::Expr;
use cedar_syntax::node::Node;
use std::alloc::AllocError;

impl State {
    /// The expression that ends with the operand; behind what ends it, an operand may be wanted at
    /// this place.
    #[inline(never)]
    pub fn close(
        &mut self,
        builder: NodeBuilder<'_>,
        place: OperandPlace,
    ) -> Result<Spanned<Expr>, AllocError>
        requires { HasOperand self.old.mode }
        ensures closed { IfOk result (λ item. (m : _) → self.old.mode ≡ mode.Have m None
            → item ≡ whole builder.entry.source.now self.old.levels m) }
        ensures after { OnOk result (self.new ≡ state self.old.stack (fresh []) (wants place)) }
    {
        if self.levels.is_fresh() {
            return self.close_alone(builder, place);
        }
        self.close_begun(builder, place)
    }

    /// The same, where some level is begun.
    #[inline(never)]
    fn close_begun(
        &mut self,
        builder: NodeBuilder<'_>,
        place: OperandPlace,
    ) -> Result<Spanned<Expr>, AllocError>
        requires { HasOperand self.old.mode }
        ensures closed { IfOk result (λ item. (m : _) → self.old.mode ≡ mode.Have m None
            → item ≡ whole builder.entry.source.now self.old.levels m) }
        ensures after { OnOk result (self.new ≡ state self.old.stack (fresh []) (wants place)) }
    {
        let item = self.close_expr(builder)?;
        self.want_again(place);
        match self.levels.branches.top() {
            None => Ok(item),
            Some(_) => {
                let is_deep = self.is_deep();
                close_branches(builder, &mut self.levels.branches, item, is_deep)
            }
        }
    }

    /// The same, where the operand is all. It is taken out when nothing but the memory for the
    /// tree can be refused any more, so that it is copied to where it stays.
    #[inline(always)]
    fn close_alone(
        &mut self,
        builder: NodeBuilder<'_>,
        place: OperandPlace,
    ) -> Result<Spanned<Expr>, AllocError>
        requires operand { HasOperand self.old.mode }
        requires levels { self.old.levels ≡ fresh [] }
        ensures closed { IfOk result (λ item. (m : _) → self.old.mode ≡ mode.Have m None
            → item ≡ whole builder.entry.source.now self.old.levels m) }
        ensures after { OnOk result (self.new ≡ state self.old.stack (fresh []) (wants place)) }
    {
        let operand = self.operand();
        let extent = join_extents(operand.signs.extent, operand.extent);
        let places = places_of(builder, operand)?;
        let upper = upper_places(builder, extent)?;
        let is_deep = self.is_deep();
        let tree = expr_alone(
            builder.alloc,
            self.take_operand(place),
            places,
            upper,
            is_deep,
        )?;
        Ok(Spanned { tree, extent })
    }

    /// The same as a node.
    pub fn close_node(
        &mut self,
        builder: NodeBuilder<'_>,
        place: OperandPlace,
    ) -> Result<Node<Option<Expr>>, AllocError>
        requires { HasOperand self.old.mode }
        ensures closed { IfOk result (λ node. (m : _) → self.old.mode ≡ mode.Have m None
            → node ≡ node_of builder.entry.source.now
            (whole builder.entry.source.now self.old.levels m)) }
        ensures after { OnOk result (self.new ≡ state self.old.stack (fresh []) (wants place)) }
    {
        let item = self.close(builder, place)?;
        item.into_node(builder)
    }

    /// `,` behind an item: it is put where it stays, and the next is wanted.
    #[inline(never)]
    fn end_item(&mut self, builder: NodeBuilder<'_>) -> Result<(), AllocError>
        requires { IsFollowed self.old (operators.Ends closing.Comma) }
        ensures { (end : _) → OnOk result (Some self.new ≡ followed builder.entry.source.now
            self.old (operators.Ends closing.Comma) end) }
    {
        let item = self.close(builder, OperandPlace::Item)?;
        match self.stack.top_mut() {
            Some(frame) => match frame {
                Frame::Set(set) => set.push(builder, item),
                Frame::Call(call) => call.push(builder, item),
                Frame::Record(record) => {
                    record.push(builder, item)?;
                    self.want_again(OperandPlace::Key);
                    Ok(())
                }
                Frame::Paren(_) | Frame::Index(_) | Frame::Guard(_) | Frame::Then(_) => { never!() }
            },
            None => never!(),
        }
    }

    /// `)` behind an expression: it ends the parentheses, or the arguments of a call.
    #[inline(never)]
    fn end_by_paren(&mut self, builder: NodeBuilder<'_>, end: Extent) -> Result<(), AllocError>
        requires { IsFollowed self.old (operators.Ends closing.Paren) }
        ensures { OnOk result (Some self.new ≡ followed builder.entry.source.now self.old
            (operators.Ends closing.Paren) end) }
    {
        let item = self.close(builder, OperandPlace::Operand)?;
        match self.stack.top_mut() {
            Some(frame) => match frame {
                Frame::Paren(_) => self.close_paren(builder, item, end),
                Frame::Call(call) => {
                    call.push(builder, item)?;
                    self.close_call(builder, end)
                }
                Frame::Set(_)
                | Frame::Index(_)
                | Frame::Record(_)
                | Frame::Guard(_)
                | Frame::Then(_) => never!(),
            },
            None => never!(),
        }
    }

    /// `]` behind an expression: it ends a set, or an index.
    #[inline(never)]
    fn end_by_bracket(&mut self, builder: NodeBuilder<'_>, end: Extent) -> Result<(), AllocError>
        requires { IsFollowed self.old (operators.Ends closing.Bracket) }
        ensures { OnOk result (Some self.new ≡ followed builder.entry.source.now self.old
            (operators.Ends closing.Bracket) end) }
    {
        let item = self.close(builder, OperandPlace::Operand)?;
        match self.stack.top_mut() {
            Some(frame) => match frame {
                Frame::Set(set) => {
                    set.push(builder, item)?;
                    self.close_set(builder, end)
                }
                Frame::Index(_) => self.close_index(builder, item, end),
                Frame::Paren(_)
                | Frame::Call(_)
                | Frame::Record(_)
                | Frame::Guard(_)
                | Frame::Then(_) => never!(),
            },
            None => never!(),
        }
    }

    /// What ends an expression, behind its last operand.
    fn end(&mut self, builder: NodeBuilder<'_>, mark: OperatorAt<Closing>) -> Result<(), AllocError>
        requires { IsFollowed self.old (operators.Ends mark.op) }
        ensures { OnOk result (Some self.new ≡ followed builder.entry.source.now self.old
            (operators.Ends mark.op) mark.extent) }
    {
        match mark.op {
            Closing::Comma => self.end_item(builder),
            Closing::Paren => self.end_by_paren(builder, mark.extent),
            Closing::Bracket => self.end_by_bracket(builder, mark.extent),
            Closing::Brace => self.end_value(builder, mark.extent),
            Closing::Colon => self.end_key(builder, mark.extent),
            Closing::Then => self.end_guard(builder, mark.extent),
            Closing::Else => self.end_then(builder, mark.extent),
        }
    }

    /// A token of this class behind an operand.
    pub fn follow(
        &mut self,
        builder: NodeBuilder<'_>,
        operator: FollowClass,
        token: &Token<'_>,
    ) -> Result<(), AllocError>
        requires { IsFollowed self.old operator }
        ensures { OnOk result (Some self.new ≡ followed builder.entry.source.now self.old operator
            (extent_of (lexeme_of token.now))) }
    {
        let extent = token_extent(token);
        match operator {
            FollowClass::Access(AccessStart::Dot) => {
                self.begin_field(extent);
                Ok(())
            }
            FollowClass::Access(AccessStart::Paren) => self.open_call(builder.alloc, extent),
            FollowClass::Access(AccessStart::Bracket) => self.open_index(builder.alloc, extent),
            FollowClass::Multiply(op) => self.multiply(builder, OperatorAt { op, extent }),
            FollowClass::Sum(op) => self.sum(builder, OperatorAt { op, extent }),
            FollowClass::Compare(op) => self.compare(builder, OperatorAt { op, extent }),
            FollowClass::Side(op) => self.side(builder, OperatorAt { op, extent }),
            FollowClass::And => self.and_then(builder, extent),
            FollowClass::Or => self.or_else(builder, extent),
            FollowClass::Ends(op) => self.end(builder, OperatorAt { op, extent }),
            FollowClass::Other => never!(),
        }
    }
}
