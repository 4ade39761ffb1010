//! Words: what may be an identifier.
ghost use Rattle.std.specs.Prelude.{◌≡◌, [], IfOk};
ghost use Rattle.cedar_syntax.specs.tokens.Tokens.{any_of};
ghost use Rattle.cedar_grammar.specs.machines.Machine.{is_some};

use cedar_expressions::Text;
use cedar_lexer::token::TokenKind;
use cedar_syntax::cst::Ident;
use std::alloc::{AllocError, Global};

/// What a token of this kind and text is as an identifier.
#[inline(always)]
pub fn as_ident(alloc: Global, kind: TokenKind, text: &str) -> Result<Option<Ident>, AllocError>
    ensures { IfOk result (λ ident. ident ≡ any_of kind text.now) }
{
    match kind {
        TokenKind::True => Ok(Some(Ident::True)),
        TokenKind::False => Ok(Some(Ident::False)),
        TokenKind::If => Ok(Some(Ident::If)),
        TokenKind::Permit => Ok(Some(Ident::Permit)),
        TokenKind::Forbid => Ok(Some(Ident::Forbid)),
        TokenKind::When => Ok(Some(Ident::When)),
        TokenKind::Unless => Ok(Some(Ident::Unless)),
        TokenKind::In => Ok(Some(Ident::In)),
        TokenKind::Has => Ok(Some(Ident::Has)),
        TokenKind::Like => Ok(Some(Ident::Like)),
        TokenKind::Is => Ok(Some(Ident::Is)),
        TokenKind::Then => Ok(Some(Ident::Then)),
        TokenKind::Else => Ok(Some(Ident::Else)),
        TokenKind::Principal => Ok(Some(Ident::Principal)),
        TokenKind::Action => Ok(Some(Ident::Action)),
        TokenKind::Resource => Ok(Some(Ident::Resource)),
        TokenKind::Context => Ok(Some(Ident::Context)),
        TokenKind::Identifier => Ok(Some(Ident::Ident(Text::from_str(alloc, text)?))),
        _ => Ok(None),
    }
}

/// Whether a token of this kind is an identifier.
pub fn is_ident(kind: TokenKind) -> bool
    ensures { result ≡ is_some (any_of kind []) }
{
    match kind {
        TokenKind::True
        | TokenKind::False
        | TokenKind::If
        | TokenKind::Permit
        | TokenKind::Forbid
        | TokenKind::When
        | TokenKind::Unless
        | TokenKind::In
        | TokenKind::Has
        | TokenKind::Like
        | TokenKind::Is
        | TokenKind::Then
        | TokenKind::Else
        | TokenKind::Principal
        | TokenKind::Action
        | TokenKind::Resource
        | TokenKind::Context
        | TokenKind::Identifier => true,
        _ => false,
    }
}
