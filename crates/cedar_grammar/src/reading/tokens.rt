//! Single tokens: what is done where one is an identifier, and trees of one token as nodes.
ghost use Rattle.std.specs.Prelude.{◌≡◌, [], Some, IsTrue, IfOk};
ghost use Rattle.cedar_lexer.specs.Token.{lexeme_of};
ghost use Rattle.cedar_lexer.specs.declared.token.TokenKind.TheVariants as kind;
ghost use Rattle.cedar_syntax.specs.tokens.Tokens.{any_of};
ghost use Rattle.cedar_grammar.specs.grammar.WrittenTokens.{Written};
ghost use Rattle.cedar_grammar.specs.machines.Machine.{is_some};
ghost use Rattle.cedar_grammar.specs.machines.SingleTokens.{if_any, token_node, string_node};

use crate::never;
use crate::reading::identifier::{as_ident, is_ident};
use crate::reading::literal::between_quotes;
use crate::reading::node_builder::NodeBuilder;
use crate::reading::place::{node_at, token_extent};
use cedar_expressions::{Source, Text};
use cedar_lexer::token::{Token, TokenKind};
use cedar_syntax::cst::{Ident, Str};
use cedar_syntax::node::Node;
use std::alloc::{AllocError, Global};

/// This act, where a token of this kind is an identifier.
#[inline(always)]
pub fn if_ident<A: Drop>(kind: TokenKind, act: A) -> Option<A>
    ensures { result ≡ if_any kind act }
{
    if is_ident(kind) { Some(act) } else { None }
}

/// The identifier that a token is.
#[inline(always)]
pub fn ident_of(alloc: Global, token: &Token<'_>) -> Result<Ident, AllocError>
    requires { IsTrue (is_some (any_of token.now.kind [])) }
    ensures { IfOk result (λ ident. Some ident ≡ any_of token.now.kind token.now.text.now) }
{
    let Some(ident) = as_ident(alloc, token.kind, token.text)? else {
        never!()
    };
    Ok(ident)
}

/// The identifier that a token is, as a node.
#[inline(always)]
pub fn ident_node(
    builder: NodeBuilder<'_>,
    token: &Token<'_>,
) -> Result<Node<Option<Ident>>, AllocError>
    requires { IsTrue (is_some (any_of token.now.kind [])) }
    ensures { IfOk result (λ node. (ident : _) → any_of token.now.kind token.now.text.now ≡ Some
        ident
        → node ≡ token_node builder.entry.source.now (lexeme_of token.now) ident) }
{
    let ident = ident_of(builder.alloc, token)?;
    token_node(builder.source, token, ident)
}

/// A tree of one token as a node, at its bytes.
pub fn token_node<T: Drop>(
    source: &Source,
    token: &Token<'_>,
    tree: T,
) -> Result<Node<Option<T>>, AllocError>
    ensures { IfOk result (λ node. node ≡ token_node source.now (lexeme_of token.now) tree) }
{
    node_at(source, Some(token_extent(token)), tree)
}

/// A string as a node, at its bytes.
#[inline(always)]
pub fn string_node(
    builder: NodeBuilder<'_>,
    token: &Token<'_>,
) -> Result<Node<Option<Str>>, AllocError>
    requires { Written kind.StringLit token.now.text.now }
    ensures { IfOk result
        (λ node. node ≡ string_node builder.entry.source.now (lexeme_of token.now)) }
{
    let raw = Str::String(Text::from_str(builder.alloc, between_quotes(token.text))?);
    builder.node_at(Some(token_extent(token)), raw)
}
