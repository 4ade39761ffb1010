//! How deep a printed tree nests, told with all that is open held, which `nesting` doesn't do.

use crate::reports::add;
use cedar_lexer::lexer::Lexer;
use cedar_lexer::token::TokenKind;
use cedar_syntax::node::Node;
use cedar_text::nesting;
use std::alloc::{AllocError, Global};
use std::fmt::Display;

/// Where a printed tree stands: how deep, and how deep before each bracket that is open.
#[derive(Drop)]
struct Standing {
    depth: usize,
    open: Vec<usize>,
}

impl Standing {
    /// Goes on behind a token. With a bracket the `if`s in it are left too.
    fn go_on(&mut self, kind: TokenKind) -> Result<(), AllocError> {
        match kind {
            TokenKind::OpenParen | TokenKind::OpenBracket | TokenKind::OpenBrace => {
                self.open.push(self.depth)?;
                self.depth = self.depth.saturating_add(1);
            }
            TokenKind::CloseParen | TokenKind::CloseBracket | TokenKind::CloseBrace => {
                self.depth = self.open.pop().unwrap_or(0);
            }
            TokenKind::If => self.depth = self.depth.saturating_add(1),
            TokenKind::Semicolon => self.depth = 0,
            _ => (),
        }
        Ok(())
    }
}

/// The depth where it is most.
fn printed_depth(alloc: Global, printed: &str) -> Result<usize, AllocError> {
    let mut standing = Standing {
        depth: 0,
        open: Vec::new(alloc),
    };
    let mut deepest = 0;
    for answer in Lexer::new(printed) {
        if let Ok(token) = answer {
            standing.go_on(token.kind)?;
            deepest = standing.depth.max(deepest);
        }
    }
    Ok(deepest)
}

/// Puts a line behind those that are there where a text's tree nests deeper than was told of the
/// text.
pub(crate) fn add_nesting<T: Display>(
    alloc: Global,
    lines: &mut String,
    text: &str,
    node: &Node<Option<T>>,
) -> Result<(), AllocError> {
    let Some(tree) = node.as_inner() else {
        return Ok(());
    };
    let printed = format!(in alloc; "{tree}")?;
    if printed_depth(alloc, printed.as_str())? > nesting(text) {
        return add(lines, "it nests deeper than was told");
    }
    Ok(())
}
