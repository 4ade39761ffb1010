//! Words as nodes.
ghost use Rattle.std.specs.Prelude.{◌≡◌, [], Some, IsTrue, IfOk};
ghost use Rattle.cedar_lexer.specs.Token.{lexeme_of};
ghost use Rattle.cedar_syntax.specs.tokens.Tokens.{any_of};
ghost use Rattle.cedar_grammar.specs.grammar.Place.{extent_of};
ghost use Rattle.cedar_grammar.specs.machines.Machine.{is_some};
ghost use Rattle.cedar_expression_machine.specs.machines.Words.{word_node};

use crate::words::state::Word;
use cedar_expressions::Source;
use cedar_grammar::reading::place::{node_at, token_extent};
use cedar_grammar::reading::tokens::ident_of;
use cedar_lexer::token::Token;
use cedar_syntax::cst::Ident;
use cedar_syntax::node::Node;
use std::alloc::{AllocError, Global};

/// An identifier as a node, at its bytes.
pub fn word_node(source: &Source, word: Word) -> Result<Node<Option<Ident>>, AllocError>
    ensures { IfOk result (λ node. node ≡ word_node source.now word) }
{
    let Word { ident, extent } = word;
    node_at(source, Some(extent), ident)
}

/// The identifier that a token is, and its bytes.
#[inline(always)]
pub fn word_of(alloc: Global, token: &Token<'_>) -> Result<Word, AllocError>
    requires { IsTrue (is_some (any_of token.now.kind [])) }
    ensures ident { IfOk result (λ word. Some word.ident ≡ any_of token.now.kind
        token.now.text.now) }
    ensures extent { IfOk result (λ word. word.extent ≡ extent_of (lexeme_of token.now)) }
{
    let ident = ident_of(alloc, token)?;
    let extent = token_extent(token);
    Ok(Word { ident, extent })
}
