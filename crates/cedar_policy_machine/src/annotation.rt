//! An annotation: `@`, a key, and possibly a string in parentheses.
ghost use Rattle.std.specs.Prelude.{◌≡◌, Some, None, cond, OnOk};
ghost use Rattle.cedar_lexer.specs.Token.{lexeme_of};
ghost use Rattle.cedar_lexer.specs.declared.token.TokenKind.TheVariants as kind;
ghost use Rattle.cedar_grammar.specs.grammar.WrittenTokens.{Written};
ghost use Rattle.cedar_policy_machine.specs.machines.Annotation.{annotation_shape, annotation_opening, annotation_filling, annotation_closing, has_key, wants_value, has_value};

use cedar_grammar::never;
use cedar_grammar::reading::driver::PushParser;
use cedar_grammar::reading::node_builder::NodeBuilder;
use cedar_grammar::reading::put::take_node;
use cedar_grammar::reading::token_read::TokenRead;
use cedar_grammar::reading::tokens::{ident_node, if_ident, string_node};
use cedar_lexer::token::{Token, TokenKind};
use cedar_syntax::cst::{Annotation, Ident, Str};
use cedar_syntax::node::Node;
use std::alloc::{AllocError, Global};
use std::mem;

/// What has been read of an annotation.
#[derive(Drop)]
pub enum AnnotationState {
    Start,
    /// Behind `@`.
    At,
    Key(Node<Option<Ident>>),
    /// Behind `(`.
    Open(Node<Option<Ident>>),
    Value(Node<Option<Ident>>, Node<Option<Str>>),
    /// Behind `)`.
    Closed(Node<Option<Ident>>, Node<Option<Str>>),
}

/// What is done with a token of an annotation.
#[derive(Drop, Clone, Copy)]
pub enum AnnotationAct {
    /// `@`
    Mark,
    Key,
    /// `(`
    Open,
    Value,
    /// `)`
    Close,
}

/// This act, where a token of this kind is this mark.
pub fn if_mark<A: Drop>(is_mark: bool, act: A) -> Option<A>
    ensures { result ≡ cond is_mark (Some act) None }
{
    if is_mark { Some(act) } else { None }
}

impl AnnotationState {
    /// What has been read becomes this. What stands there holds no memory: its nodes are taken out
    /// before. So nothing is let go, and the compiler copies nothing out of the state to do so.
    #[inline(always)]
    fn set(&mut self, next: AnnotationState)
        ensures { self.new ≡ next }
    {
        mem::forget(mem::replace(self, next));
    }

    /// `(` behind the key.
    fn open(&mut self)
        requires { annotation_shape self.old ≡ has_key }
        ensures { Some self.new ≡ annotation_opening self.old }
    {
        match self {
            AnnotationState::Key(key) => {
                let key = take_node(key);
                self.set(AnnotationState::Open(key));
            }
            _ => never!(),
        }
    }

    /// The string behind `(`.
    fn fill(&mut self, builder: NodeBuilder<'_>, token: &Token<'_>) -> Result<(), AllocError>
        requires written { Written kind.StringLit token.now.text.now }
        requires open { annotation_shape self.old ≡ wants_value }
        ensures { OnOk result (Some self.new
            ≡ annotation_filling builder.entry.source.now self.old (lexeme_of token.now)) }
    {
        match self {
            AnnotationState::Open(key) => {
                let value = string_node(builder, token)?;
                let key = take_node(key);
                self.set(AnnotationState::Value(key, value));
                Ok(())
            }
            _ => never!(),
        }
    }

    /// `)` behind the string.
    fn close(&mut self)
        requires { annotation_shape self.old ≡ has_value }
        ensures { Some self.new ≡ annotation_closing self.old }
    {
        match self {
            AnnotationState::Value(key, value) => {
                let key = take_node(key);
                let value = take_node(value);
                self.set(AnnotationState::Closed(key, value));
            }
            _ => never!(),
        }
    }
}

impl PushParser<Annotation> for AnnotationState {
    ghost use Rattle.cedar_policy_machine.specs.machines.Annotation.{annotation_reader};

    type Act = AnnotationAct;

    ghost reader = { annotation_reader };

    fn start(_: Global) -> AnnotationState {
        AnnotationState::Start
    }

    fn first(kind: TokenKind) -> Option<AnnotationAct> {
        if_mark(matches!(kind, TokenKind::At), AnnotationAct::Mark)
    }

    fn plan(&self, kind: TokenKind) -> Option<AnnotationAct> {
        match self {
            AnnotationState::Start => AnnotationState::first(kind),
            AnnotationState::At => if_ident(kind, AnnotationAct::Key),
            AnnotationState::Key(_) => {
                if_mark(matches!(kind, TokenKind::OpenParen), AnnotationAct::Open)
            }
            AnnotationState::Open(_) => {
                if_mark(matches!(kind, TokenKind::StringLit), AnnotationAct::Value)
            }
            AnnotationState::Value(_, _) => {
                if_mark(matches!(kind, TokenKind::CloseParen), AnnotationAct::Close)
            }
            AnnotationState::Closed(_, _) => None,
        }
    }

    fn ends(&self) -> bool {
        matches!(
            self,
            AnnotationState::Key(_) | AnnotationState::Closed(_, _)
        )
    }

    fn act(
        &mut self,
        builder: NodeBuilder<'_>,
        act: AnnotationAct,
        token: &Token<'_>,
    ) -> Result<TokenRead, AllocError> {
        match act {
            AnnotationAct::Mark => self.set(AnnotationState::At),
            AnnotationAct::Key => {
                let key = ident_node(builder, token)?;
                self.set(AnnotationState::Key(key));
            }
            AnnotationAct::Open => self.open(),
            AnnotationAct::Value => self.fill(builder, token)?,
            AnnotationAct::Close => self.close(),
        }
        Ok(TokenRead::Done)
    }

    fn finish(&mut self, builder: NodeBuilder<'_>) -> Result<Annotation, AllocError> {
        match self {
            AnnotationState::Key(key) => Ok(Annotation {
                key: take_node(key),
                value: None,
            }),
            AnnotationState::Closed(key, value) => Ok(Annotation {
                key: take_node(key),
                value: Some(take_node(value)),
            }),
            _ => never!(),
        }
    }
}
