//! Nodes with their places.
ghost use Rattle.std.specs.Prelude.{◌≡◌, IfOk};
ghost use Rattle.cedar_lexer.specs.Token.{lexeme_of};
ghost use Rattle.cedar_grammar.specs.grammar.Place.{extent_of, loc_at, node_at};

use crate::reading::extent::Extent;
use cedar_expressions::Source;
use cedar_lexer::token::Token;
use cedar_syntax::loc::{Loc, SourceSpan};
use cedar_syntax::node::Node;
use std::alloc::AllocError;

/// The bytes that a token takes.
pub fn token_extent(token: &Token<'_>) -> Extent
    ensures { result ≡ extent_of (lexeme_of token.now) }
{
    Extent {
        start: token.start,
        end: token.end,
    }
}

/// The place of these bytes of the source.
#[inline(always)]
pub fn loc_at(source: &Source, extent: Option<Extent>) -> Result<Option<Loc>, AllocError>
    ensures { IfOk result (λ loc. loc ≡ loc_at source.now extent) }
{
    match extent {
        None => Ok(None),
        Some(extent) => Ok(Some(Loc {
            span: SourceSpan::between(extent.start, extent.end),
            src: source.share()?,
        })),
    }
}

/// A tree as a node, at the bytes of the source that it takes.
#[inline(always)]
pub fn node_at<T: Drop>(
    source: &Source,
    extent: Option<Extent>,
    tree: T,
) -> Result<Node<Option<T>>, AllocError>
    ensures { IfOk result (λ node. node ≡ node_at source.now extent tree) }
{
    let loc = loc_at(source, extent)?;
    Ok(Node {
        node: Some(tree),
        loc,
    })
}
