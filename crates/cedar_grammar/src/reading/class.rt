//! Classes of tokens: the 50 kinds are told apart once, where an operand is wanted and behind one.

ghost use Rattle.std.specs.Prelude.{◌≡◌};
ghost use Rattle.cedar_grammar.specs.machines.Classes.{start_class, follow_class, with_sign};

use crate::reading::identifier::is_ident;
use cedar_lexer::token::TokenKind;
use cedar_syntax::cst::{AddOp, MultOp, NegOp, RelOp, SIGN_LIMIT};

/// What may stand before an operand, once or more.
#[derive(Drop, Clone, Copy)]
pub enum Sign {
    Bang,
    Dash,
}

/// Which slot a token is.
#[derive(Drop, Clone, Copy)]
pub enum SlotToken {
    Principal,
    Resource,
    Other,
}

/// What a token can be where an operand is wanted.
#[derive(Drop, Clone, Copy)]
pub enum StartClass {
    /// One of the words, or an identifier.
    Word,
    Number,
    String,
    Slot(SlotToken),
    Sign(Sign),
    /// `(`
    Paren,
    /// `[`
    Bracket,
    /// `{`
    Brace,
    /// What ends a list that may end here.
    Ends(Closing),
    Other,
}

/// What ends an expression in brackets, or an item of a list.
#[derive(Drop, Clone, Copy)]
pub enum Closing {
    /// `)`
    Paren,
    /// `]`
    Bracket,
    /// `}`
    Brace,
    Comma,
    Colon,
    Then,
    Else,
}

/// What begins an access.
#[derive(Drop, Clone, Copy)]
pub enum AccessStart {
    /// `.`
    Dot,
    /// `(`
    Paren,
    /// `[`
    Bracket,
}

/// A word behind whose left side stands one right side.
#[derive(Drop, Clone, Copy)]
pub enum SideWord {
    Has,
    Like,
    Is,
}

/// What a token can be behind an operand.
#[derive(Drop, Clone, Copy)]
pub enum FollowClass {
    Access(AccessStart),
    Multiply(MultOp),
    Sum(AddOp),
    Compare(RelOp),
    Side(SideWord),
    And,
    Or,
    Ends(Closing),
    Other,
}

/// What a token of this kind can be where an operand is wanted.
pub fn start_class(kind: TokenKind) -> StartClass
    ensures { result ≡ start_class kind }
{
    match kind {
        TokenKind::Number => StartClass::Number,
        TokenKind::StringLit => StartClass::String,
        TokenKind::PrincipalSlot => StartClass::Slot(SlotToken::Principal),
        TokenKind::ResourceSlot => StartClass::Slot(SlotToken::Resource),
        TokenKind::OtherSlot => StartClass::Slot(SlotToken::Other),
        TokenKind::Bang => StartClass::Sign(Sign::Bang),
        TokenKind::Minus => StartClass::Sign(Sign::Dash),
        TokenKind::OpenParen => StartClass::Paren,
        TokenKind::OpenBracket => StartClass::Bracket,
        TokenKind::OpenBrace => StartClass::Brace,
        TokenKind::CloseParen => StartClass::Ends(Closing::Paren),
        TokenKind::CloseBracket => StartClass::Ends(Closing::Bracket),
        TokenKind::CloseBrace => StartClass::Ends(Closing::Brace),
        _ => {
            if is_ident(kind) {
                StartClass::Word
            } else {
                StartClass::Other
            }
        }
    }
}

/// What a token of this kind can be behind an operand.
pub fn follow_class(kind: TokenKind) -> FollowClass
    ensures { result ≡ follow_class kind }
{
    match kind {
        TokenKind::Dot => FollowClass::Access(AccessStart::Dot),
        TokenKind::OpenParen => FollowClass::Access(AccessStart::Paren),
        TokenKind::OpenBracket => FollowClass::Access(AccessStart::Bracket),
        TokenKind::Star => FollowClass::Multiply(MultOp::Times),
        TokenKind::Slash => FollowClass::Multiply(MultOp::Divide),
        TokenKind::Percent => FollowClass::Multiply(MultOp::Mod),
        TokenKind::Plus => FollowClass::Sum(AddOp::Plus),
        TokenKind::Minus => FollowClass::Sum(AddOp::Minus),
        TokenKind::Less => FollowClass::Compare(RelOp::Less),
        TokenKind::LessEq => FollowClass::Compare(RelOp::LessEq),
        TokenKind::GreaterEq => FollowClass::Compare(RelOp::GreaterEq),
        TokenKind::Greater => FollowClass::Compare(RelOp::Greater),
        TokenKind::NotEq => FollowClass::Compare(RelOp::NotEq),
        TokenKind::EqEq => FollowClass::Compare(RelOp::Eq),
        TokenKind::In => FollowClass::Compare(RelOp::In),
        TokenKind::Eq => FollowClass::Compare(RelOp::InvalidSingleEq),
        TokenKind::Has => FollowClass::Side(SideWord::Has),
        TokenKind::Like => FollowClass::Side(SideWord::Like),
        TokenKind::Is => FollowClass::Side(SideWord::Is),
        TokenKind::AndAnd => FollowClass::And,
        TokenKind::OrOr => FollowClass::Or,
        TokenKind::CloseParen => FollowClass::Ends(Closing::Paren),
        TokenKind::CloseBracket => FollowClass::Ends(Closing::Bracket),
        TokenKind::CloseBrace => FollowClass::Ends(Closing::Brace),
        TokenKind::Comma => FollowClass::Ends(Closing::Comma),
        TokenKind::Colon => FollowClass::Ends(Closing::Colon),
        TokenKind::Then => FollowClass::Ends(Closing::Then),
        TokenKind::Else => FollowClass::Ends(Closing::Else),
        _ => FollowClass::Other,
    }
}

/// One sign more before an operand, or `None` where the other sign stands before it.
pub fn add_sign(op: Option<NegOp>, sign: Sign) -> Option<NegOp>
    ensures { result ≡ with_sign op sign }
{
    match (op, sign) {
        (None, Sign::Bang) => Some(NegOp::Bang(1)),
        (None, Sign::Dash) => Some(NegOp::Dash(1)),
        (Some(NegOp::Bang(count)), Sign::Bang) => Some(if count < SIGN_LIMIT {
            NegOp::Bang(count + 1)
        } else {
            NegOp::OverBang
        }),
        (Some(NegOp::Dash(count)), Sign::Dash) => Some(if count < SIGN_LIMIT {
            NegOp::Dash(count + 1)
        } else {
            NegOp::OverDash
        }),
        (Some(NegOp::OverBang), Sign::Bang) => Some(NegOp::OverBang),
        (Some(NegOp::OverDash), Sign::Dash) => Some(NegOp::OverDash),
        (Some(NegOp::Bang(_) | NegOp::OverBang), Sign::Dash) => None,
        (Some(NegOp::Dash(_) | NegOp::OverDash), Sign::Bang) => None,
    }
}
