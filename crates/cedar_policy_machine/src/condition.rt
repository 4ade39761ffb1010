//! A condition: a word, and an expression in braces, or none.
ghost use Rattle.std.specs.Prelude.{◌≡◌, Some, None, IfOk, OnOk};
ghost use Rattle.cedar_lexer.specs.Token.{lexeme_of};
ghost use Rattle.cedar_grammar.specs.grammar.WrittenTokens.{IsWritten};
ghost use Rattle.cedar_grammar.specs.machines.Judged.{done_as};
ghost use Rattle.cedar_policy_machine.specs.declared.condition.ConditionPart.TheVariants as part;
ghost use Rattle.cedar_policy_machine.specs.machines.Condition.{condition_state, body_going, in_body, behind_body, condition_reader, IsBodyPlan, HasBody};

use crate::annotation::if_mark;
use cedar_grammar::never;
use cedar_grammar::reading::driver::PushParser;
use cedar_grammar::reading::node_builder::NodeBuilder;
use cedar_grammar::reading::put::{put, take_node};
use cedar_grammar::reading::token_read::TokenRead;
use cedar_grammar::reading::tokens::{ident_node, if_ident};
use cedar_lexer::token::{Token, TokenKind};
use cedar_syntax::cst::{Cond, Expr, Ident};
use cedar_syntax::node::Node;
use std::alloc::{AllocError, Global};

/// What stands behind the word of a condition, with the state `E` of the expression that is begun.
#[derive(Drop)]
pub enum ConditionPart<E> {
    /// The word is to come.
    Start,
    /// Behind the word.
    Word,
    /// Behind `{`, before the first token of the expression.
    Opened,
    Body(E),
    /// Behind `}`.
    Closed(Option<Node<Option<Expr>>>),
}

/// What has been read of a condition.
#[derive(Drop)]
pub struct ConditionState<E> {
    pub word: Node<Option<Ident>>,
    pub part: ConditionPart<E>,
}

/// What is done with a token of a condition, whose body does `A` with one.
#[derive(Drop, Clone, Copy)]
pub enum ConditionAct<A> {
    Word,
    /// `{`
    Open,
    /// The first token of the body.
    First(A),
    Body(A),
    /// `}` behind the body, or behind nothing.
    Close,
    CloseEmpty,
}

impl<E: PushParser<Node<Option<Expr>>>> ConditionState<E> {
    /// The first token in braces.
    #[inline(never)]
    fn enter(
        &mut self,
        builder: NodeBuilder<'_>,
        act: E::Act,
        token: &Token<'_>,
    ) -> Result<TokenRead, AllocError>
        requires written { IsWritten (lexeme_of token.now) }
        requires is_planned { E.reader.plan E.reader.start token.now.kind ≡ Some act }
        ensures { IfOk result (λ read. done_as read self.new
            ≡ body_going self.old (E.reader.act builder.entry.source.now E.reader.start act
            (lexeme_of token.now))) }
    {
        put(&mut self.part, ConditionPart::Body(E::start(builder.alloc)));
        self.go_on(builder, act, token)
    }

    /// A token of the body.
    #[inline(always)]
    fn go_on(
        &mut self,
        builder: NodeBuilder<'_>,
        act: E::Act,
        token: &Token<'_>,
    ) -> Result<TokenRead, AllocError>
        requires written { IsWritten (lexeme_of token.now) }
        requires is_planned { IsBodyPlan E.reader.plan self.old.part token.now.kind act }
        ensures { IfOk result (λ read. done_as read self.new
            ≡ in_body builder.entry.source.now E.reader self.old self.old.part act
            (lexeme_of token.now)) }
    {
        match &mut self.part {
            ConditionPart::Body(held) => held.act(builder, act, token),
            _ => never!(),
        }
    }

    /// The word. Each part is turned to in a function of its own, so that what is done with other
    /// tokens clears no room for it.
    #[inline(never)]
    fn name(&mut self, word: Node<Option<Ident>>)
        ensures { self.new ≡ condition_state word part.Word }
    {
        put(&mut self.word, word);
        put(&mut self.part, ConditionPart::Word);
    }

    /// `{`
    #[inline(never)]
    fn open(&mut self)
        ensures { self.new ≡ condition_state self.old.word part.Opened }
    {
        put(&mut self.part, ConditionPart::Opened);
    }

    /// `}` behind nothing.
    #[inline(never)]
    fn close_empty(&mut self)
        ensures { self.new ≡ condition_state self.old.word (part.Closed None) }
    {
        put(&mut self.part, ConditionPart::Closed(None));
    }

    /// `}` behind the body, which has ended.
    #[inline(never)]
    fn close(&mut self, builder: NodeBuilder<'_>) -> Result<(), AllocError>
        requires { HasBody E.reader.ends self.old.part }
        ensures { OnOk result (Some self.new
            ≡ behind_body builder.entry.source.now E.reader self.old self.old.part) }
    {
        match &mut self.part {
            ConditionPart::Body(held) => {
                let body = held.finish(builder)?;
                put(&mut self.part, ConditionPart::Closed(Some(body)));
                Ok(())
            }
            _ => never!(),
        }
    }

    /// Does with a token what is planned, before the body and behind it.
    #[inline(never)]
    fn act_around(
        &mut self,
        builder: NodeBuilder<'_>,
        act: ConditionAct<E::Act>,
        token: &Token<'_>,
    ) -> Result<TokenRead, AllocError>
        requires written { IsWritten (lexeme_of token.now) }
        requires is_planned { (condition_reader E.reader).plan self.old token.now.kind
            ≡ Some act }
        ensures { IfOk result (λ read. done_as read self.new ≡ (condition_reader E.reader).act
            builder.entry.source.now self.old act (lexeme_of token.now)) }
    {
        match act {
            ConditionAct::Body(act) => self.go_on(builder, act, token),
            ConditionAct::First(act) => self.enter(builder, act, token),
            ConditionAct::Word => {
                self.name(ident_node(builder, token)?);
                Ok(TokenRead::Done)
            }
            ConditionAct::Open => {
                self.open();
                Ok(TokenRead::Done)
            }
            ConditionAct::Close => {
                self.close(builder)?;
                Ok(TokenRead::Done)
            }
            ConditionAct::CloseEmpty => {
                self.close_empty();
                Ok(TokenRead::Done)
            }
        }
    }
}

impl<E: PushParser<Node<Option<Expr>>>> PushParser<Cond> for ConditionState<E> {
    ghost use Rattle.cedar_policy_machine.specs.machines.Condition.{condition_reader};

    type Act = ConditionAct<E::Act>;

    ghost reader = { condition_reader E.reader };

    fn start(_: Global) -> ConditionState<E> {
        ConditionState {
            word: Node {
                node: None,
                loc: None,
            },
            part: ConditionPart::Start,
        }
    }

    fn first(kind: TokenKind) -> Option<ConditionAct<E::Act>> {
        if_ident(kind, ConditionAct::Word)
    }

    #[inline(always)]
    fn plan(&self, kind: TokenKind) -> Option<ConditionAct<E::Act>> {
        match &self.part {
            ConditionPart::Body(held) => match held.plan(kind) {
                Some(act) => Some(ConditionAct::Body(act)),
                None => {
                    let closes = matches!(kind, TokenKind::CloseBrace) && held.ends();
                    if_mark(closes, ConditionAct::Close)
                }
            },
            ConditionPart::Opened => match E::first(kind) {
                Some(act) => Some(ConditionAct::First(act)),
                None => if_mark(
                    matches!(kind, TokenKind::CloseBrace),
                    ConditionAct::CloseEmpty,
                ),
            },
            ConditionPart::Start => if_ident(kind, ConditionAct::Word),
            ConditionPart::Word => {
                if_mark(matches!(kind, TokenKind::OpenBrace), ConditionAct::Open)
            }
            ConditionPart::Closed(_) => None,
        }
    }

    fn ends(&self) -> bool {
        matches!(&self.part, ConditionPart::Closed(_))
    }

    #[inline(always)]
    fn act(
        &mut self,
        builder: NodeBuilder<'_>,
        act: ConditionAct<E::Act>,
        token: &Token<'_>,
    ) -> Result<TokenRead, AllocError> {
        match act {
            ConditionAct::Body(act) => self.go_on(builder, act, token),
            ConditionAct::First(_)
            | ConditionAct::Word
            | ConditionAct::Open
            | ConditionAct::Close
            | ConditionAct::CloseEmpty => self.act_around(builder, act, token),
        }
    }

    fn finish(&mut self, builder: NodeBuilder<'_>) -> Result<Cond, AllocError> {
        match &mut self.part {
            ConditionPart::Closed(expr) => Ok(Cond {
                cond: take_node(&mut self.word),
                expr: expr.take(),
            }),
            _ => never!(),
        }
    }
}
