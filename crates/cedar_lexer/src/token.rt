//! The kinds of token, and a token with its place in the text.
ghost use Rattle.std.specs.Prelude.{◌≡◌};
ghost use Rattle.cedar_lexer.specs.Names.{kind_name};

/// What a token is: a word, a slot, a class of spellings, a mark or an operator.
#[derive(Debug, Clone, Copy, PartialEq, Eq, PartialOrd, Ord, Hash)]
pub enum TokenKind {
    /// `true`
    True,
    /// `false`
    False,
    /// `if`
    If,
    /// `permit`
    Permit,
    /// `forbid`
    Forbid,
    /// `when`
    When,
    /// `unless`
    Unless,
    /// `in`
    In,
    /// `has`
    Has,
    /// `like`
    Like,
    /// `is`
    Is,
    /// `then`
    Then,
    /// `else`
    Else,
    /// `principal`
    Principal,
    /// `action`
    Action,
    /// `resource`
    Resource,
    /// `context`
    Context,
    /// `?principal`
    PrincipalSlot,
    /// `?resource`
    ResourceSlot,
    /// `?` and an identifier, but for the two slots above
    OtherSlot,
    /// a letter or `_`, then letters, digits and `_`; none of the words
    Identifier,
    /// decimal digits
    Number,
    /// a text between double quotes, in which a backslash takes the next character with it
    StringLit,
    /// `@`
    At,
    /// `.`
    Dot,
    /// `,`
    Comma,
    /// `;`
    Semicolon,
    /// `:`
    Colon,
    /// `::`
    ColonColon,
    /// `(`
    OpenParen,
    /// `)`
    CloseParen,
    /// `{`
    OpenBrace,
    /// `}`
    CloseBrace,
    /// `[`
    OpenBracket,
    /// `]`
    CloseBracket,
    /// `==`
    EqEq,
    /// `!=`
    NotEq,
    /// `<`
    Less,
    /// `<=`
    LessEq,
    /// `>=`
    GreaterEq,
    /// `>`
    Greater,
    /// `=`
    Eq,
    /// `||`
    OrOr,
    /// `&&`
    AndAnd,
    /// `+`
    Plus,
    /// `-`
    Minus,
    /// `*`
    Star,
    /// `/`
    Slash,
    /// `%`
    Percent,
    /// `!`
    Bang,
}

impl TokenKind {
    /// The name under which a fault lists this kind: the word in capital letters, or the mark or
    /// operator in double quotes.
    pub fn name(self) -> &'static str
        ensures { result.now ≡ kind_name self }
    {
        match self {
            TokenKind::True => "TRUE",
            TokenKind::False => "FALSE",
            TokenKind::If => "IF",
            TokenKind::Permit => "PERMIT",
            TokenKind::Forbid => "FORBID",
            TokenKind::When => "WHEN",
            TokenKind::Unless => "UNLESS",
            TokenKind::In => "IN",
            TokenKind::Has => "HAS",
            TokenKind::Like => "LIKE",
            TokenKind::Is => "IS",
            TokenKind::Then => "THEN",
            TokenKind::Else => "ELSE",
            TokenKind::Principal => "PRINCIPAL",
            TokenKind::Action => "ACTION",
            TokenKind::Resource => "RESOURCE",
            TokenKind::Context => "CONTEXT",
            TokenKind::PrincipalSlot => "PRINCIPAL_SLOT",
            TokenKind::ResourceSlot => "RESOURCE_SLOT",
            TokenKind::OtherSlot => "OTHER_SLOT",
            TokenKind::Identifier => "IDENTIFIER",
            TokenKind::Number => "NUMBER",
            TokenKind::StringLit => "STRINGLIT",
            TokenKind::At => "\"@\"",
            TokenKind::Dot => "\".\"",
            TokenKind::Comma => "\",\"",
            TokenKind::Semicolon => "\";\"",
            TokenKind::Colon => "\":\"",
            TokenKind::ColonColon => "\"::\"",
            TokenKind::OpenParen => "\"(\"",
            TokenKind::CloseParen => "\")\"",
            TokenKind::OpenBrace => "\"{\"",
            TokenKind::CloseBrace => "\"}\"",
            TokenKind::OpenBracket => "\"[\"",
            TokenKind::CloseBracket => "\"]\"",
            TokenKind::EqEq => "\"==\"",
            TokenKind::NotEq => "\"!=\"",
            TokenKind::Less => "\"<\"",
            TokenKind::LessEq => "\"<=\"",
            TokenKind::GreaterEq => "\">=\"",
            TokenKind::Greater => "\">\"",
            TokenKind::Eq => "\"=\"",
            TokenKind::OrOr => "\"||\"",
            TokenKind::AndAnd => "\"&&\"",
            TokenKind::Plus => "\"+\"",
            TokenKind::Minus => "\"-\"",
            TokenKind::Star => "\"*\"",
            TokenKind::Slash => "\"/\"",
            TokenKind::Percent => "\"%\"",
            TokenKind::Bang => "\"!\"",
        }
    }
}

/// A token of a text: its kind, the bytes `start..end` where it stands, and its text there.
#[derive(Debug, Clone, Copy, PartialEq, Eq)]
pub struct Token<'a> {
    pub kind: TokenKind,
    pub start: usize,
    pub end: usize,
    pub text: &'a str,
}

/// At the byte `location` neither a token nor white space nor a comment begins.
#[derive(Debug, Clone, Copy, PartialEq, Eq)]
pub struct InvalidToken {
    pub location: usize,
}
