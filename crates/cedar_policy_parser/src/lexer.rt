//! The lexer of a text, its tokens with their kinds, and where no token begins.
pub use cedar_lexer::lexer::Lexer;
pub use cedar_lexer::token::{InvalidToken, Token, TokenKind};
