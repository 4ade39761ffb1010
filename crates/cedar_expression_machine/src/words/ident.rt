//! One identifier as a whole text.

use crate::words::nodes::{word_node, word_of};
use crate::words::state::IdentState;
use cedar_grammar::never;
use cedar_grammar::reading::driver::PushParser;
use cedar_grammar::reading::node_builder::NodeBuilder;
use cedar_grammar::reading::token_read::TokenRead;
use cedar_grammar::reading::tokens::if_ident;
use cedar_lexer::token::{Token, TokenKind};
use cedar_syntax::cst::Ident;
use cedar_syntax::node::Node;
use std::alloc::{AllocError, Global};
use std::mem;

impl PushParser<Node<Option<Ident>>> for IdentState {
    ghost use Rattle.cedar_expression_machine.specs.machines.Words.{ident_reader};

    type Act = ();

    ghost reader = { ident_reader };

    fn start(alloc: Global) -> IdentState {
        IdentState::Start
    }

    fn first(kind: TokenKind) -> Option<()> {
        if_ident(kind, ())
    }

    fn plan(&self, kind: TokenKind) -> Option<()> {
        match self {
            IdentState::Start => if_ident(kind, ()),
            IdentState::Have(_) => None,
        }
    }

    fn ends(&self) -> bool {
        matches!(self, IdentState::Have(_))
    }

    fn act(
        &mut self,
        builder: NodeBuilder<'_>,
        _act: (),
        token: &Token<'_>,
    ) -> Result<TokenRead, AllocError> {
        *self = IdentState::Have(word_of(builder.alloc, token)?);
        Ok(TokenRead::Done)
    }

    fn finish(&mut self, builder: NodeBuilder<'_>) -> Result<Node<Option<Ident>>, AllocError> {
        match mem::replace(self, IdentState::Start) {
            IdentState::Start => never!(),
            IdentState::Have(word) => word_node(builder.source, word),
        }
    }
}
