//! What open brackets hold, as far as the gaps in them differ.
ghost use Rattle.std.specs.Prelude.{◌≡◌};
ghost use Rattle.cedar_layout.specs.Brackets as spec;

use crate::kinds::{is_at, is_brace, is_square};
use cedar_lexer::token::TokenKind;

/// What an open bracket holds.
#[derive(Clone, Copy)]
pub enum Bracket {
    /// the value of an annotation
    Annotation,
    /// the body of a condition
    Body,
    /// one list or one record and nothing else
    Sole,
    /// numbers and short texts, in a list
    Short,
    /// anything else
    Inner,
}

/// An `@` stands there.
pub(crate) fn is_at_sign(kind: Option<TokenKind>) -> bool
    ensures { result ≡ spec.is_at_sign kind }
{
    match kind {
        None => false,
        Some(kind) => is_at(kind),
    }
}

/// What a bracket holds that opens in none: behind `@` and a name an annotation's value, between
/// braces a condition's body.
fn outer_bracket(before: Option<TokenKind>, kind: TokenKind) -> Bracket
    ensures { result ≡ spec.outer_bracket before kind }
{
    if is_brace(kind) {
        Bracket::Body
    } else if is_at_sign(before) {
        Bracket::Annotation
    } else {
        Bracket::Inner
    }
}

/// What a bracket holds that opens in another one, where it is one list or record, or numbers and
/// short texts.
fn told_bracket(kind: TokenKind) -> Bracket
    ensures { result ≡ spec.told_bracket kind }
{
    if is_square(kind) {
        Bracket::Short
    } else {
        Bracket::Sole
    }
}

/// What a bracket holds that opens in another one.
fn inner_bracket(kind: TokenKind, told: bool) -> Bracket
    ensures { result ≡ spec.inner_bracket kind told }
{
    if told {
        told_bracket(kind)
    } else {
        Bracket::Inner
    }
}

/// What a bracket holds that opens in another one, or in none, where `before` stands two words
/// before it, and it is told that it holds one list or record, or numbers and short texts, or not.
pub(crate) fn new_bracket(
    bracket: Option<Bracket>,
    before: Option<TokenKind>,
    kind: TokenKind,
    told: bool,
) -> Bracket
    ensures { result ≡ spec.new_bracket bracket before kind told }
{
    match bracket {
        None => outer_bracket(before, kind),
        Some(_) => inner_bracket(kind, told),
    }
}
