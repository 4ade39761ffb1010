//! The tokens that part the forms of a policy, told apart once.
ghost use Rattle.std.specs.Prelude.{◌≡◌};
ghost use Rattle.cedar_grammar.specs.machines.Marks.{mark_of, relation_of};

use cedar_lexer::token::TokenKind;
use cedar_syntax::cst::RelOp;

/// What a token can be between the parts of a policy.
#[derive(Drop, Clone, Copy)]
pub enum Mark {
    /// `@`
    At,
    /// `(`
    OpenParen,
    /// `)`
    CloseParen,
    /// `{`
    OpenBrace,
    /// `}`
    CloseBrace,
    /// `,`
    Comma,
    /// `:`
    Colon,
    /// `;`
    Semicolon,
    /// `is`
    Is,
    /// A text between double quotes.
    String,
    Other,
}

/// What a token of this kind is.
pub fn as_mark(kind: TokenKind) -> Mark
    ensures { result ≡ mark_of kind }
{
    match kind {
        TokenKind::At => Mark::At,
        TokenKind::OpenParen => Mark::OpenParen,
        TokenKind::CloseParen => Mark::CloseParen,
        TokenKind::OpenBrace => Mark::OpenBrace,
        TokenKind::CloseBrace => Mark::CloseBrace,
        TokenKind::Comma => Mark::Comma,
        TokenKind::Colon => Mark::Colon,
        TokenKind::Semicolon => Mark::Semicolon,
        TokenKind::Is => Mark::Is,
        TokenKind::StringLit => Mark::String,
        _ => Mark::Other,
    }
}

/// The operator of a relation that a token of this kind is.
pub fn as_relation(kind: TokenKind) -> Option<RelOp>
    ensures { result ≡ relation_of kind }
{
    match kind {
        TokenKind::Less => Some(RelOp::Less),
        TokenKind::LessEq => Some(RelOp::LessEq),
        TokenKind::GreaterEq => Some(RelOp::GreaterEq),
        TokenKind::Greater => Some(RelOp::Greater),
        TokenKind::NotEq => Some(RelOp::NotEq),
        TokenKind::EqEq => Some(RelOp::Eq),
        TokenKind::In => Some(RelOp::In),
        TokenKind::Eq => Some(RelOp::InvalidSingleEq),
        _ => None,
    }
}
