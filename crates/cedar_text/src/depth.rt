//! How deep the tree of a text nests at most, told before the text is parsed.
ghost use Rattle.std.specs.Prelude.{◌≡◌, ◌<◌};
ghost use Rattle.cedar_text.specs.Nesting.{depth_behind as behind, IsNesting};

use cedar_lexer::lexer::Lexer;
use cedar_lexer::token::TokenKind;

/// The depth behind a token of this kind, before which it is `depth`.
fn depth_behind(kind: TokenKind, depth: usize) -> usize
    requires { depth < usize.MAX }
    ensures { result ≡ behind kind depth }
{
    match kind {
        TokenKind::OpenParen | TokenKind::OpenBracket | TokenKind::OpenBrace | TokenKind::If => {
            depth + 1
        }
        TokenKind::CloseParen | TokenKind::CloseBracket | TokenKind::CloseBrace => {
            depth.saturating_sub(1)
        }
        TokenKind::Semicolon => 0,
        _ => depth,
    }
}

/// How deep the tree of a text nests at most: the brackets that are open and the `if`s of the
/// policy so far, at the place where they are most.
///
/// It is a figure, for one who wants to bound what he works with: no text has to be refused for the
/// stack's sake, however deep it nests. What only a value nests by isn't counted: the accesses of a
/// chain, and the conditions of a policy. It goes over the tokens once and takes no memory. Where no
/// token starts it ends, as each parse does.
pub fn nesting(text: &str) -> usize
    ensures { IsNesting text.now result }
{
    let mut depth = 0;
    let mut deepest = 0;
    for answer in Lexer::new(text) {
        match answer {
            Ok(token) => {
                depth = depth_behind(token.kind, depth);
                deepest = depth.max(deepest);
            }
            Err(_) => return deepest,
        }
    }
    deepest
}
