//! A text as words and comments.

use cedar_lexer::token::TokenKind;

/// A word or a comment. A comment is its text from `//` to the end of its line, without what is
/// blank at its end.
#[derive(Clone, Copy)]
pub enum Item<'a> {
    Word(TokenKind, &'a str),
    /// a comment on the line of the word before it
    Beside(&'a str),
    /// any other comment
    Below(&'a str),
}

/// An item, and whether a blank line stands before it.
#[derive(Clone, Copy)]
pub struct SpacedItem<'a> {
    pub blank: bool,
    pub item: Item<'a>,
}
