//! What the style asks of a word's kind.
ghost use Rattle.std.specs.Prelude.{◌≡◌, slice_index};
ghost use Rattle.cedar_layout.specs.Kinds as spec;
ghost use Rattle.cedar_layout.specs.Laid as laid;

use cedar_lexer::token::TokenKind;

/// A bracket opens with it.
pub(crate) fn opens(kind: TokenKind) -> bool
    ensures { result ≡ spec.opens kind }
{
    matches!(
        kind,
        TokenKind::OpenParen | TokenKind::OpenBrace | TokenKind::OpenBracket
    )
}

/// A bracket closes with it.
pub(crate) fn closes(kind: TokenKind) -> bool
    ensures { result ≡ spec.closes kind }
{
    matches!(
        kind,
        TokenKind::CloseParen | TokenKind::CloseBrace | TokenKind::CloseBracket
    )
}

/// A list or a record opens with it.
pub(crate) fn is_list(kind: TokenKind) -> bool
    ensures { result ≡ spec.is_list kind }
{
    matches!(kind, TokenKind::OpenBracket | TokenKind::OpenBrace)
}

/// A condition begins with it.
pub(crate) fn begins_condition(kind: TokenKind) -> bool
    ensures { result ≡ spec.begins_condition kind }
{
    matches!(kind, TokenKind::When | TokenKind::Unless)
}

/// Letters: a word of the language or an identifier.
pub(crate) fn is_lettered(kind: TokenKind) -> bool
    ensures { result ≡ spec.is_lettered kind }
{
    matches!(
        kind,
        TokenKind::True
            | TokenKind::False
            | TokenKind::If
            | TokenKind::Permit
            | TokenKind::Forbid
            | TokenKind::When
            | TokenKind::Unless
            | TokenKind::In
            | TokenKind::Has
            | TokenKind::Like
            | TokenKind::Is
            | TokenKind::Then
            | TokenKind::Else
            | TokenKind::Principal
            | TokenKind::Action
            | TokenKind::Resource
            | TokenKind::Context
            | TokenKind::Identifier
    )
}

/// An operand may end with it.
pub(crate) fn ends_operand(kind: TokenKind) -> bool
    ensures { result ≡ spec.ends_operand kind }
{
    match kind {
        TokenKind::If
        | TokenKind::Then
        | TokenKind::Else
        | TokenKind::In
        | TokenKind::Has
        | TokenKind::Like
        | TokenKind::Is => false,
        TokenKind::Number
        | TokenKind::StringLit
        | TokenKind::PrincipalSlot
        | TokenKind::ResourceSlot
        | TokenKind::OtherSlot => true,
        _ => is_lettered(kind) || closes(kind),
    }
}

/// A token of this kind goes on with this byte, or becomes another one.
pub(crate) fn goes_on(kind: TokenKind, byte: u8) -> bool
    ensures { result ≡ laid.goes_on kind byte }
{
    match kind {
        TokenKind::Number => byte.is_ascii_digit(),
        TokenKind::Colon => byte == b':',
        TokenKind::Less | TokenKind::Greater | TokenKind::Eq | TokenKind::Bang => byte == b'=',
        TokenKind::Slash => byte == b'/',
        TokenKind::StringLit
        | TokenKind::At
        | TokenKind::Dot
        | TokenKind::Comma
        | TokenKind::Semicolon
        | TokenKind::ColonColon
        | TokenKind::OpenParen
        | TokenKind::CloseParen
        | TokenKind::OpenBrace
        | TokenKind::CloseBrace
        | TokenKind::OpenBracket
        | TokenKind::CloseBracket
        | TokenKind::EqEq
        | TokenKind::NotEq
        | TokenKind::LessEq
        | TokenKind::GreaterEq
        | TokenKind::OrOr
        | TokenKind::AndAnd
        | TokenKind::Plus
        | TokenKind::Minus
        | TokenKind::Star
        | TokenKind::Percent => false,
        _ => byte.is_ascii_alphanumeric() || byte == b'_',
    }
}

/// The first byte of a word, of which it has one.
pub(crate) fn first_byte(text: &str) -> u8
    ensures { result ≡ slice_index text.now 0 }
{
    text.as_bytes().get(0).copied().unwrap_or(0)
}

pub(crate) fn is_semicolon(kind: TokenKind) -> bool
    ensures { result ≡ spec.is_semicolon kind }
{
    matches!(kind, TokenKind::Semicolon)
}

pub(crate) fn is_at(kind: TokenKind) -> bool
    ensures { result ≡ spec.is_at kind }
{
    matches!(kind, TokenKind::At)
}

pub(crate) fn is_paren(kind: TokenKind) -> bool
    ensures { result ≡ spec.is_paren kind }
{
    matches!(kind, TokenKind::OpenParen)
}

pub(crate) fn is_square(kind: TokenKind) -> bool
    ensures { result ≡ spec.is_square kind }
{
    matches!(kind, TokenKind::OpenBracket)
}

pub(crate) fn is_brace(kind: TokenKind) -> bool
    ensures { result ≡ spec.is_brace kind }
{
    matches!(kind, TokenKind::OpenBrace)
}

pub(crate) fn is_comma(kind: TokenKind) -> bool
    ensures { result ≡ spec.is_comma kind }
{
    matches!(kind, TokenKind::Comma)
}

pub(crate) fn is_if(kind: TokenKind) -> bool
    ensures { result ≡ spec.is_if kind }
{
    matches!(kind, TokenKind::If)
}
