//! The lexer: an iterator over the tokens of a text.
ghost use Rattle.std.specs.Prelude.{◌≡◌, ◌≤◌, ◌<◌, [], length, slice_index, drop, true, false, IfSome, IfNone};
ghost use Rattle.std.specs.Char.{is_whitespace};
ghost use Rattle.std.specs.List.{prefix_len};
ghost use Rattle.std.specs.Str.{IsCharBoundary};
ghost use Rattle.cedar_lexer.specs.Cut.{is_in_line, IsTokenAt, Layout};
ghost use Rattle.cedar_lexer.specs.Token.{lexeme_of};
ghost use Rattle.cedar_lexer.specs.Scan.{IsSkipLen, NoSkip, NoSpelling};

use crate::scan::{byte_at, spelling};
use crate::token::{InvalidToken, Token};
use memchr::memchr2;
use std::marker::Model;

/// How many bytes stand before the end of the line.
fn line_len(text: &[u8]) -> usize
    ensures len { result ≡ prefix_len is_in_line text.now }
    ensures within { result ≤ length text.now }
{
    match memchr2(b'\n', b'\r', text) {
        Some(len) => len,
        None => text.len(),
    }
}

/// How many bytes the white space has that starts the text, past ASCII.
fn wide_space_len(text: &str) -> usize
    requires { 128 ≤ slice_index text.now 0 }
    ensures { IsSkipLen text.now result }
{
    let Some(c) = text.chars().next() else {
        return 0;
    };
    if c.is_whitespace() { c.len_utf8() } else { 0 }
}

/// How many bytes the skip has that starts the text: one character of white space or one comment.
/// 0 where none does.
fn skip_len(text: &str) -> usize
    ensures { IsSkipLen text.now result }
{
    let bytes = text.as_bytes();
    let first = byte_at(bytes, 0);
    if first >= 128 {
        wide_space_len(text)
    } else if char::from(first).is_whitespace() {
        1
    } else if first == b'/' && byte_at(bytes, 1) == b'/' {
        2 + line_len(&bytes[2..])
    } else {
        0
    }
}

/// The first place from `from` on at which no skip starts, whichever skips lie before it.
#[cold]
fn any_skips_end(text: &str, from: usize) -> usize
    requires { IsCharBoundary text.now from }
    ensures laid { Layout text.now from [] result }
    ensures onward { from ≤ result }
    ensures stops { NoSkip (drop result text.now) }
    ensures boundary { IsCharBoundary text.now result }
{
    let mut at = from;
    loop {
        let len = skip_len(&text[at..]);
        if len == 0 {
            return at;
        }
        at += len;
    }
}

/// Whether the byte alone is a character of white space.
fn is_blank(byte: u8) -> bool
    ensures white { result ≡ true → (byte < 128) × (is_whitespace byte ≡ true) }
    ensures dark { result ≡ false → byte < 128 → is_whitespace byte ≡ false }
{
    byte < 128 && char::from(byte).is_whitespace()
}

/// The first place from `from` on at which no white space of one byte stands.
fn blanks_end(text: &str, from: usize) -> usize
    requires { IsCharBoundary text.now from }
    ensures laid { Layout text.now from [] result }
    ensures onward { from ≤ result }
    ensures stops { slice_index text.now result < 128
        → is_whitespace (slice_index text.now result) ≡ false }
    ensures boundary { IsCharBoundary text.now result }
{
    let bytes = text.as_bytes();
    let mut at = from;
    while is_blank(byte_at(bytes, at)) {
        at += 1;
    }
    at
}

/// The first place from `from` on at which no skip starts. Before most tokens only white space of
/// one byte stands: so a comment, and white space past ASCII, takes a call of its own, and the
/// search for a comment's end burdens no other token.
fn skips_end(text: &str, from: usize) -> usize
    requires { IsCharBoundary text.now from }
    ensures laid { Layout text.now from [] result }
    ensures onward { from ≤ result }
    ensures stops { NoSkip (drop result text.now) }
    ensures boundary { IsCharBoundary text.now result }
{
    let at = blanks_end(text, from);
    let first = byte_at(text.as_bytes(), at);
    if first < 128 && first != b'/' {
        return at;
    }
    any_skips_end(text, at)
}

/// The token that stands at `start`, if a spelling starts there.
fn token_at(text: &str, start: usize) -> Option<Token<'_>>
    requires { IsCharBoundary text.now start }
    ensures token { IfSome result (λ t. IsTokenAt text.now start (lexeme_of t)) }
    ensures bounds { IfSome result (λ t. (start < t.end) × IsCharBoundary text.now t.end) }
    ensures none { IfNone result (NoSpelling (drop start text.now)) }
{
    let Some((kind, len)) = spelling(text[start..].as_bytes()) else {
        return None;
    };
    let end = start + len;
    Some(Token {
        kind,
        start,
        end,
        text: &text[start..end],
    })
}

/// Cuts a text into its tokens, one at each call of `next`. It takes no memory.
///
/// White space and comments between the tokens are passed over. Where neither a token nor white
/// space nor a comment starts, it answers `InvalidToken` with that place, and has ended.
#[derive(Debug, Drop)]
pub struct Lexer<'a> {
    text: &'a str,
    offset: usize,
    ended: bool,
}

impl<'a> Model for Lexer<'a> {
    ghost use Rattle.std.specs.Str.{IsCharBoundary};
    ghost use Rattle.cedar_lexer.specs.LexerState.{LexerState};

    ghost Value = { LexerState };

    ghost view = { λ l. record { source = l.text.now; offset = l.offset; ended = l.ended } };

    ghost invariant = { λ l. IsCharBoundary l.text.now l.offset };
}

impl<'a> Lexer<'a> {
    ghost use Rattle.cedar_lexer.specs.LexerState.{fresh_lexer};

    /// A lexer at the start of the text.
    pub fn new(text: &'a str) -> Self
        ensures { result ≡ fresh_lexer text.now }
    {
        Lexer {
            text,
            offset: 0,
            ended: false,
        }
    }
}

impl<'a> Iterator for Lexer<'a> {
    ghost use Rattle.cedar_lexer.specs.LexerState.{LexerAnswers, answer_limit};

    type Item = Result<Token<'a>, InvalidToken>;

    ghost next_gives = { LexerAnswers };

    ghost remaining = { answer_limit };

    /// The next token. Nothing where only white space and comments are left, or after that or an
    /// `InvalidToken`.
    fn next(&mut self) -> Option<Result<Token<'a>, InvalidToken>> {
        if self.ended {
            return None;
        }
        let text = self.text;
        let start = skips_end(text, self.offset);
        if start == text.len() {
            self.ended = true;
            return None;
        }
        match token_at(text, start) {
            Some(token) => {
                self.offset = token.end;
                Some(Ok(token))
            }
            None => {
                self.ended = true;
                Some(Err(InvalidToken { location: start }))
            }
        }
    }
}
