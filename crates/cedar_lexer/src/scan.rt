//! Finds the spelling at the front of a text, by its bytes.
ghost use Rattle.std.specs.Prelude.{◌≡◌, ◌≤◌, length, slice_index, false, if◌then◌else◌};
ghost use Rattle.std.specs.List.{prefix_len};
ghost use Rattle.std.specs.Char.{is_ascii_digit};
ghost use Rattle.cedar_lexer.specs.Spelling.{is_identifier_start as begins, is_identifier_part as continues};
ghost use Rattle.cedar_lexer.specs.Scan as spec;

use crate::token::TokenKind;
use memchr::memchr2;

/// A kind, and how many bytes its spelling has.
type Found = (TokenKind, usize);

/// The byte at `index`, or 0 past the end.
pub(crate) fn byte_at(text: &[u8], index: usize) -> u8
    ensures { result ≡ slice_index text.now index }
{
    text.get(index).copied().unwrap_or(0)
}

/// Each byte that an identifier goes on with stands at its own place, and a dot at every other
/// one: a letter is known by one look, where comparisons take five.
static PARTS: [u8; 256] = *b"\
    ................................\
    ................0123456789......\
    .ABCDEFGHIJKLMNOPQRSTUVWXYZ...._\
    .abcdefghijklmnopqrstuvwxyz.....\
    ................................\
    ................................\
    ................................\
    ................................";

fn begins_identifier(byte: u8) -> bool
    ensures { result ≡ begins byte }
{
    continues_identifier(byte) && !byte.is_ascii_digit()
}

fn continues_identifier(byte: u8) -> bool
    ensures { result ≡ continues byte }
{
    PARTS[byte as usize] != b'.'
}

fn identifier_len(text: &[u8]) -> usize
    ensures len { result ≡ prefix_len continues text.now }
    ensures within { result ≤ length text.now }
{
    text.iter()
        .take_while(|b| continues_identifier(**b))
        .count()
}

fn digits_len(text: &[u8]) -> usize
    ensures { result ≡ prefix_len is_ascii_digit text.now }
{
    text.iter().take_while(|b| b.is_ascii_digit()).count()
}

fn number(text: &[u8]) -> Option<Found>
    ensures { result ≡ spec.number text.now }
{
    Some((TokenKind::Number, digits_len(text)))
}

fn word_kind(text: &[u8]) -> TokenKind
    ensures { result ≡ spec.kind_with_text spec.words text.now TokenKind.Identifier }
{
    match text {
        b"true" => TokenKind::True,
        b"false" => TokenKind::False,
        b"if" => TokenKind::If,
        b"permit" => TokenKind::Permit,
        b"forbid" => TokenKind::Forbid,
        b"when" => TokenKind::When,
        b"unless" => TokenKind::Unless,
        b"in" => TokenKind::In,
        b"has" => TokenKind::Has,
        b"like" => TokenKind::Like,
        b"is" => TokenKind::Is,
        b"then" => TokenKind::Then,
        b"else" => TokenKind::Else,
        b"principal" => TokenKind::Principal,
        b"action" => TokenKind::Action,
        b"resource" => TokenKind::Resource,
        b"context" => TokenKind::Context,
        _ => TokenKind::Identifier,
    }
}

fn slot_kind(text: &[u8]) -> TokenKind
    ensures { result ≡ spec.kind_with_text spec.slots text.now TokenKind.OtherSlot }
{
    match text {
        b"?principal" => TokenKind::PrincipalSlot,
        b"?resource" => TokenKind::ResourceSlot,
        _ => TokenKind::OtherSlot,
    }
}

fn word(text: &[u8]) -> Option<Found>
    ensures { result ≡ spec.word text.now }
{
    let len = identifier_len(text);
    Some((word_kind(&text[..len]), len))
}

fn slot(text: &[u8]) -> Option<Found>
    ensures { result ≡ spec.slot text.now }
{
    if !begins_identifier(byte_at(text, 1)) {
        return None;
    }
    let len = 1 + identifier_len(&text[1..]);
    Some((slot_kind(&text[..len]), len))
}

/// How many bytes of a string are looked at one by one before its next mark is searched for, which
/// costs as much as some of them.
const NEAR: usize = 16;

/// A string, behind its opening quote. A backslash takes the next byte with it, whichever that is.
fn string(text: &[u8]) -> Option<Found>
    ensures { result ≡ spec.string_of (spec.string_len false text.now 1) }
{
    let mut at = 0;
    let mut near = NEAR;
    while let Some(byte) = text.get(at) {
        match *byte {
            b'"' => return Some((TokenKind::StringLit, at + 2)),
            b'\\' => {
                at += 2;
                near = at + NEAR;
            }
            _ if at < near => at += 1,
            _ => at += memchr2(b'"', b'\\', &text[at..])?,
        }
    }
    None
}

fn one(kind: TokenKind) -> Option<Found>
    ensures { result ≡ spec.one_byte_long kind }
{
    Some((kind, 1))
}

/// The longer kind where the second byte is the one that it wants.
fn either(longer: bool, two: TokenKind, short: Option<Found>) -> Option<Found>
    ensures { result ≡ (if longer then spec.two_bytes_long two else short) }
{
    if longer { Some((two, 2)) } else { short }
}

fn mark(first: u8, second: u8) -> Option<Found>
    ensures { result ≡ spec.mark first second }
{
    match first {
        b'@' => one(TokenKind::At),
        b'.' => one(TokenKind::Dot),
        b',' => one(TokenKind::Comma),
        b';' => one(TokenKind::Semicolon),
        b'(' => one(TokenKind::OpenParen),
        b')' => one(TokenKind::CloseParen),
        b'{' => one(TokenKind::OpenBrace),
        b'}' => one(TokenKind::CloseBrace),
        b'[' => one(TokenKind::OpenBracket),
        b']' => one(TokenKind::CloseBracket),
        b'+' => one(TokenKind::Plus),
        b'-' => one(TokenKind::Minus),
        b'*' => one(TokenKind::Star),
        b'%' => one(TokenKind::Percent),
        b':' => either(second == b':', TokenKind::ColonColon, one(TokenKind::Colon)),
        b'=' => either(second == b'=', TokenKind::EqEq, one(TokenKind::Eq)),
        b'!' => either(second == b'=', TokenKind::NotEq, one(TokenKind::Bang)),
        b'<' => either(second == b'=', TokenKind::LessEq, one(TokenKind::Less)),
        b'>' => either(
            second == b'=',
            TokenKind::GreaterEq,
            one(TokenKind::Greater),
        ),
        b'|' => either(second == b'|', TokenKind::OrOr, None),
        b'&' => either(second == b'&', TokenKind::AndAnd, None),
        b'/' if second != b'/' => one(TokenKind::Slash),
        _ => None,
    }
}

/// The longest spelling that starts the text: its kind and how many bytes it has.
pub(crate) fn spelling(text: &[u8]) -> Option<Found>
    ensures { result ≡ spec.spelling text.now }
{
    let (first, rest) = text.split_first()?;
    let first = *first;
    if begins_identifier(first) {
        word(text)
    } else if first.is_ascii_digit() {
        number(text)
    } else if first == b'?' {
        slot(text)
    } else if first == b'"' {
        string(rest)
    } else {
        mark(first, byte_at(rest, 0))
    }
}
