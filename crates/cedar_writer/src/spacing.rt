//! Which words of a line are joined.
ghost use Rattle.std.specs.Prelude.{◌≡◌};
ghost use Rattle.cedar_writer.specs.Spacing as spec;
ghost use Rattle.cedar_writer.specs.machines.Lines.{line_edge};

use cedar_lexer::token::TokenKind;

/// Whether a token of a kind goes on with a byte, or becomes another one.
fn goes_on(kind: TokenKind, byte: u8) -> bool
    ensures { result ≡ spec.runs_on_with kind byte }
{
    match kind {
        TokenKind::Number => byte.is_ascii_digit(),
        TokenKind::Colon => byte == b':',
        TokenKind::Slash => byte == b'/',
        TokenKind::Less | TokenKind::Greater | TokenKind::Eq | TokenKind::Bang => byte == b'=',
        TokenKind::StringLit | TokenKind::At | TokenKind::Dot | TokenKind::Comma => false,
        TokenKind::Semicolon | TokenKind::ColonColon | TokenKind::OpenParen => false,
        TokenKind::CloseParen | TokenKind::OpenBrace | TokenKind::CloseBrace => false,
        TokenKind::OpenBracket | TokenKind::CloseBracket | TokenKind::EqEq => false,
        TokenKind::NotEq | TokenKind::LessEq | TokenKind::GreaterEq | TokenKind::OrOr => false,
        TokenKind::AndAnd | TokenKind::Plus | TokenKind::Minus | TokenKind::Star => false,
        TokenKind::Percent => false,
        _ => byte.is_ascii_alphanumeric() || byte == b'_',
    }
}

/// Whether a token is an identifier, or a word that may be one.
fn is_identifier_kind(kind: TokenKind) -> bool
    ensures { result ≡ spec.is_identifier_kind kind }
{
    matches!(
        kind,
        TokenKind::Identifier
            | TokenKind::Principal
            | TokenKind::Action
            | TokenKind::Resource
            | TokenKind::Context
            | TokenKind::Permit
            | TokenKind::Forbid
            | TokenKind::When
            | TokenKind::Unless
    )
}

/// Whether an operand may end with a token.
fn ends_operand(kind: TokenKind) -> bool
    ensures { result ≡ spec.closes_operand kind }
{
    match kind {
        TokenKind::True
        | TokenKind::False
        | TokenKind::PrincipalSlot
        | TokenKind::ResourceSlot
        | TokenKind::Number
        | TokenKind::StringLit
        | TokenKind::CloseParen
        | TokenKind::CloseBracket
        | TokenKind::CloseBrace => true,
        _ => is_identifier_kind(kind),
    }
}

/// Whether a token is an effect's word.
fn is_effect(kind: TokenKind) -> bool
    ensures { result ≡ spec.is_effect kind }
{
    matches!(kind, TokenKind::Permit | TokenKind::Forbid)
}

/// Whether a word behind a token is a part of a name, or a key.
fn is_within_name(kind: TokenKind) -> bool
    ensures { result ≡ spec.is_within_name kind }
{
    matches!(kind, TokenKind::At | TokenKind::Dot | TokenKind::ColonColon)
}

/// Whether a `(` behind two words opens arguments, or an annotation's text.
fn is_called(before: TokenKind, last: TokenKind) -> bool
    ensures { result ≡ spec.is_called before last }
{
    match before {
        TokenKind::At => true,
        _ => is_identifier_kind(last) && (!is_effect(last) || is_within_name(before)),
    }
}

/// Whether whatever stands behind two words is joined to them.
fn joins_behind(before: TokenKind, last: TokenKind) -> bool
    ensures { result ≡ spec.joins_behind before last }
{
    match last {
        TokenKind::OpenParen | TokenKind::OpenBracket | TokenKind::Dot => true,
        TokenKind::ColonColon | TokenKind::At | TokenKind::Bang => true,
        TokenKind::Minus => !ends_operand(before),
        _ => false,
    }
}

/// Whether a token of a kind is joined to whatever two words stand before it.
fn joins_before(before: TokenKind, last: TokenKind, next: TokenKind) -> bool
    ensures { result ≡ spec.joins_before before last next }
{
    match next {
        TokenKind::CloseParen | TokenKind::CloseBracket | TokenKind::Comma => true,
        TokenKind::Semicolon | TokenKind::Dot | TokenKind::ColonColon => true,
        TokenKind::OpenParen => is_called(before, last),
        TokenKind::OpenBracket => ends_operand(last),
        _ => false,
    }
}

/// Whether a token of a kind and with a first byte stands straight behind two words.
pub fn is_joined(before: TokenKind, last: TokenKind, next: TokenKind, first: u8) -> bool
    ensures { result ≡ spec.is_joined (line_edge before last) next first }
{
    (joins_behind(before, last) || joins_before(before, last, next)) && !goes_on(last, first)
}
