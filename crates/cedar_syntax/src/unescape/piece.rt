//! The pieces of a raw text, each found by its first characters.
ghost use Rattle.std.specs.Prelude.{◌≡◌, ◌<◌, ◌≤◌, Some, None, MatchOption, [], length};
ghost use Rattle.std.specs.Str.{chars};
ghost use Rattle.cedar_syntax.specs.strings.Piece.{short_escape};
ghost use Rattle.cedar_syntax.specs.strings.PieceAhead.{piece_ahead_of, first_of, hex_digit, hex_escape, unicode_escape, behind_brace, inside_braces, tally_of, unskipped_text, escape, first_piece, begins_escaped_star};

use crate::err::EscapeError;
use crate::unescape::digits::Digits;

/// What a piece of a raw text stands for.
#[derive(Debug, Clone, Copy, PartialEq, Eq)]
pub enum PieceValue {
    Nothing,
    Character(char),
    Fault(EscapeError),
}

/// A piece that was read: what it stands for, and what stands behind it.
#[derive(Clone, Copy)]
pub struct Step<'a> {
    pub outcome: PieceValue,
    pub rest: &'a str,
}

fn fault(kind: EscapeError, rest: &str) -> Step<'_>
    ensures outcome { result.outcome ≡ PieceValue.Fault kind }
    ensures rest { result.rest.now ≡ rest.now }
{
    Step {
        outcome: PieceValue::Fault(kind),
        rest,
    }
}

/// The first character of a text, and what stands behind it.
pub fn first_char(text: &str) -> Option<(char, &str)>
    ensures read { MatchOption result ((first_of (chars text.now) ≡ None) × (chars text.now ≡ []))
        (λ p. first_of (chars text.now) ≡ Some (p.0, chars p.1.now)) }
    ensures shorter { MatchOption result (text.now ≡ []) (λ p. length p.1.now < length text.now) }
{
    let mut chars = text.chars();
    let first = chars.next()?;
    Some((first, chars.as_str()))
}

fn hex_digit(c: char) -> Option<u32>
    ensures { result ≡ hex_digit c }
{
    c.to_digit(16)
}

// Behind `\x`: two hex digits that write a value of ASCII.
fn hex_escape(text: &str) -> Step<'_>
    ensures { piece_ahead_of result ≡ hex_escape (first_of (chars text.now)) }
{
    let Some((first, rest)) = first_char(text) else {
        return fault(EscapeError::TooShortHexEscape, text);
    };
    let Some(high) = hex_digit(first) else {
        return fault(EscapeError::InvalidCharInHexEscape, rest);
    };
    let Some((second, after)) = first_char(rest) else {
        return fault(EscapeError::TooShortHexEscape, rest);
    };
    let Some(low) = hex_digit(second) else {
        return fault(EscapeError::InvalidCharInHexEscape, after);
    };
    let code = high * 16 + low;
    if code > 0x7F {
        return fault(EscapeError::OutOfRangeHexEscape, after);
    }
    Step {
        outcome: PieceValue::Character(code as u8 as char),
        rest: after,
    }
}

// Behind the first digit between braces: digits and underscores up to the closing brace.
fn inside_braces(mut digits: Digits, text: &str) -> Step<'_>
    ensures { piece_ahead_of result ≡ inside_braces (tally_of digits) (chars text.now) }
{
    let mut rest = text;
    while let Some((c, after)) = first_char(rest) {
        rest = after;
        match c {
            '_' => {}
            '}' => {
                return Step {
                    outcome: digits.close(),
                    rest,
                };
            }
            _ => match hex_digit(c) {
                Some(digit) => digits = digits.with_digit(digit),
                None => return fault(EscapeError::InvalidCharInUnicodeEscape, rest),
            },
        }
    }
    fault(EscapeError::UnclosedUnicodeEscape, rest)
}

// Behind `\u{`: a digit must come first.
fn behind_brace(text: &str) -> Step<'_>
    ensures { piece_ahead_of result ≡ behind_brace (first_of (chars text.now)) }
{
    let Some((first, rest)) = first_char(text) else {
        return fault(EscapeError::UnclosedUnicodeEscape, text);
    };
    match first {
        '_' => fault(EscapeError::LeadingUnderscoreUnicodeEscape, rest),
        '}' => fault(EscapeError::EmptyUnicodeEscape, rest),
        _ => match hex_digit(first) {
            Some(digit) => inside_braces(Digits::new(digit), rest),
            None => fault(EscapeError::InvalidCharInUnicodeEscape, rest),
        },
    }
}

// Behind `\u`: an opening brace.
fn unicode_escape(text: &str) -> Step<'_>
    ensures { piece_ahead_of result ≡ unicode_escape (first_of (chars text.now)) }
{
    match first_char(text) {
        Some(('{', rest)) => behind_brace(rest),
        Some((_, rest)) => fault(EscapeError::NoBraceInUnicodeEscape, rest),
        None => fault(EscapeError::NoBraceInUnicodeEscape, text),
    }
}

// Behind a backslash and a line feed: what stands behind all blanks.
fn behind_blanks(text: &str) -> &str
    ensures { chars result.now ≡ unskipped_text (chars text.now) }
{
    let mut rest = text;
    while let Some((' ' | '\t' | '\n' | '\r', after)) = first_char(rest) {
        rest = after;
    }
    rest
}

// The character that a backslash and this one stand for.
fn short_escape(c: char) -> Option<char>
    ensures { result ≡ short_escape c }
{
    match c {
        '"' | '\\' | '\'' => Some(c),
        'n' => Some('\n'),
        'r' => Some('\r'),
        't' => Some('\t'),
        '0' => Some('\0'),
        _ => None,
    }
}

// Behind a backslash.
fn escape(text: &str) -> Step<'_>
    ensures { piece_ahead_of result ≡ escape (first_of (chars text.now)) }
{
    let Some((first, rest)) = first_char(text) else {
        return fault(EscapeError::LoneSlash, text);
    };
    match first {
        'x' => hex_escape(rest),
        'u' => unicode_escape(rest),
        '\n' => Step {
            outcome: PieceValue::Nothing,
            rest: behind_blanks(rest),
        },
        _ => match short_escape(first) {
            Some(c) => Step {
                outcome: PieceValue::Character(c),
                rest,
            },
            None => fault(EscapeError::InvalidEscape, rest),
        },
    }
}

/// Reads the piece that begins with `first` and goes on in `text`.
pub fn first_piece(first: char, text: &str) -> Step<'_>
    ensures { piece_ahead_of result ≡ first_piece first (chars text.now) }
{
    match first {
        '\\' => escape(text),
        '"' => fault(EscapeError::EscapeOnlyChar, text),
        '\r' => fault(EscapeError::BareCarriageReturn, text),
        _ => Step {
            outcome: PieceValue::Character(first),
            rest: text,
        },
    }
}

/// Whether the text that begins with `first` and goes on in `text` begins with `\*`.
pub fn begins_escaped_star(first: char, text: &str) -> bool
    ensures { result ≡ begins_escaped_star first (first_of (chars text.now)) }
{
    first == '\\' && matches!(first_char(text), Some(('*', _)))
}
