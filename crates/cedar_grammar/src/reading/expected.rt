//! The kinds of token that a refusal records as expected.
ghost use Rattle.std.specs.Prelude.{◌≡◌, Some, IfOk};
ghost use Rattle.cedar_grammar.specs.faults.Expected.{is_closer, goes_behind, can_narrow};
ghost use Rattle.cedar_grammar.specs.machines.Machine.{allowed_by};
ghost use Rattle.cedar_grammar.specs.machines.Judged.{any_closer, is_narrowed, picked_kinds, wanted_kinds};

use crate::reading::driver::{PushParser, allows};
use cedar_expressions::Items;
use cedar_lexer::token::TokenKind;
use std::alloc::{AllocError, Global};

/// Where a list of expected kinds may be narrowed to what closes something.
#[derive(Drop, Clone, Copy)]
pub enum ClosersOnly {
    Never,
    /// At a token.
    Tokens,
    /// At a token, and at the end.
    TokensAndEnd,
}

/// All kinds, in byte order of their recorded names.
const KINDS_BY_NAME: [TokenKind; 50] = [
    TokenKind::Bang,
    TokenKind::NotEq,
    TokenKind::Percent,
    TokenKind::AndAnd,
    TokenKind::OpenParen,
    TokenKind::CloseParen,
    TokenKind::Star,
    TokenKind::Plus,
    TokenKind::Comma,
    TokenKind::Minus,
    TokenKind::Dot,
    TokenKind::Slash,
    TokenKind::Colon,
    TokenKind::ColonColon,
    TokenKind::Semicolon,
    TokenKind::Less,
    TokenKind::LessEq,
    TokenKind::Eq,
    TokenKind::EqEq,
    TokenKind::Greater,
    TokenKind::GreaterEq,
    TokenKind::At,
    TokenKind::OpenBracket,
    TokenKind::CloseBracket,
    TokenKind::OpenBrace,
    TokenKind::OrOr,
    TokenKind::CloseBrace,
    TokenKind::Action,
    TokenKind::Context,
    TokenKind::Else,
    TokenKind::False,
    TokenKind::Forbid,
    TokenKind::Has,
    TokenKind::Identifier,
    TokenKind::If,
    TokenKind::In,
    TokenKind::Is,
    TokenKind::Like,
    TokenKind::Number,
    TokenKind::OtherSlot,
    TokenKind::Permit,
    TokenKind::Principal,
    TokenKind::PrincipalSlot,
    TokenKind::Resource,
    TokenKind::ResourceSlot,
    TokenKind::StringLit,
    TokenKind::Then,
    TokenKind::True,
    TokenKind::Unless,
    TokenKind::When,
];

/// At most places no more kinds than these are expected: room for them is asked for once.
const USUAL: usize = 32;

/// Whether a token of this kind closes something that is open.
fn is_closer(kind: TokenKind) -> bool
    ensures { result ≡ is_closer kind }
{
    matches!(
        kind,
        TokenKind::Then
            | TokenKind::Else
            | TokenKind::CloseParen
            | TokenKind::CloseBracket
            | TokenKind::CloseBrace
            | TokenKind::Comma
            | TokenKind::Colon
    )
}

/// Whether a token of this kind can stand behind an operand.
fn goes_behind(kind: TokenKind) -> bool
    ensures { result ≡ goes_behind kind }
{
    match kind {
        TokenKind::Dot
        | TokenKind::OpenParen
        | TokenKind::OpenBracket
        | TokenKind::Star
        | TokenKind::Slash
        | TokenKind::Percent
        | TokenKind::Plus
        | TokenKind::Minus
        | TokenKind::Less
        | TokenKind::LessEq
        | TokenKind::GreaterEq
        | TokenKind::Greater
        | TokenKind::NotEq
        | TokenKind::EqEq
        | TokenKind::Eq
        | TokenKind::In
        | TokenKind::Has
        | TokenKind::Like
        | TokenKind::Is
        | TokenKind::AndAnd
        | TokenKind::OrOr => true,
        _ => is_closer(kind),
    }
}

/// Whether a list may be narrowed where this is refused, a kind of token or the end.
fn can_narrow(narrowing: ClosersOnly, refused: Option<TokenKind>) -> bool
    ensures { result ≡ can_narrow narrowing refused }
{
    match narrowing {
        ClosersOnly::Never => false,
        ClosersOnly::Tokens => match refused {
            Some(kind) => goes_behind(kind),
            None => false,
        },
        ClosersOnly::TokensAndEnd => match refused {
            Some(kind) => goes_behind(kind),
            None => true,
        },
    }
}

/// Whether one of these kinds closes something that is open.
fn allows_closer<T: Drop, E: PushParser<T>>(state: &E, kinds: &[TokenKind]) -> bool
    ensures { result ≡ any_closer (λ kind. allowed_by E.reader state.now (Some kind))
        kinds.now }
{
    for kind in kinds {
        if is_closer(*kind) && allows::<T, E>(state, Some(*kind)) {
            return true;
        }
    }
    false
}

/// Whether the list is narrowed to what closes something.
fn is_narrowed<T: Drop, E: PushParser<T>>(
    state: &E,
    narrowing: ClosersOnly,
    refused: Option<TokenKind>,
) -> bool
    ensures { result ≡ is_narrowed (allowed_by E.reader state.now) narrowing refused }
{
    can_narrow(narrowing, refused)
        && (allows::<T, E>(state, Some(TokenKind::Star))
            || allows::<T, E>(state, Some(TokenKind::AndAnd)))
        && allows_closer::<T, E>(state, &KINDS_BY_NAME)
}

/// Those of these kinds that are allowed, or of them what closes something.
fn allowed_among<T: Drop, E: PushParser<T>>(
    alloc: Global,
    state: &E,
    narrowed: bool,
    kinds: &[TokenKind],
) -> Result<Items<TokenKind>, AllocError>
    ensures { IfOk result
        (λ allowed. allowed ≡ picked_kinds narrowed (allowed_by E.reader state.now)
        kinds.now) }
{
    let mut allowed = Vec::new(alloc);
    allowed.reserve(USUAL)?;
    for kind in kinds {
        if (!narrowed || is_closer(*kind)) && allows::<T, E>(state, Some(*kind)) {
            allowed.push(*kind)?;
        }
    }
    Ok(Items::from(allowed))
}

/// The kinds that are expected where this is refused, a kind of token or the end.
pub fn expected<T: Drop, E: PushParser<T>>(
    alloc: Global,
    state: &E,
    narrowing: ClosersOnly,
    refused: Option<TokenKind>,
) -> Result<Items<TokenKind>, AllocError>
    ensures { IfOk result (λ kinds. kinds ≡ wanted_kinds (allowed_by E.reader state.now)
        narrowing refused) }
{
    let narrowed = is_narrowed::<T, E>(state, narrowing, refused);
    allowed_among::<T, E>(alloc, state, narrowed, &KINDS_BY_NAME)
}
