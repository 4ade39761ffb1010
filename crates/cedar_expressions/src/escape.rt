//! Texts as they stand between the quotes of a string: `"`, `\`, line ends, controls and whatever
//! a screen acts on are escaped, all else is as it is.
ghost use Rattle.std.specs.Prelude.{◌≡◌, ◌++◌, ◌∷◌, ◌&&◌, nat_le, nat_lt, ◌<◌, IfOk};
ghost use Rattle.std.specs.Char.{digit_char};
ghost use Rattle.std.specs.String.{string_bytes};
ghost use Rattle.std.specs.Str.{encode_utf8_all};
ghost use Rattle.cedar_expressions.specs.Escapes as spec;
ghost use Rattle.cedar_expressions.specs.Escapes.{escaped_text, escaped_scalar};
ghost use Rattle.cedar_expressions.specs.EscapeForms.{StandsAs};

use crate::PatternElem;
use std::alloc::AllocError;
use std::fmt;

/// How a character stands in a string.
#[derive(Drop)]
enum Escape {
    /// As it is.
    Plain,
    /// As `\` and this one.
    Slashed(char),
    /// As `\u{..}` with the number of its code.
    Numbered,
}

/// Writes a text as it stands between the quotes of a string that means it.
///
///     push_escaped(&mut out, "a\"b")?; // writes a\"b
pub fn push_escaped(out: &mut String, text: &str) -> Result<(), AllocError>
    ensures { IfOk result (λ _.
        string_bytes out.new ≡ string_bytes out.old ++ escaped_text text.now) }
{
    for c in text.chars() {
        push_char(out, c)?;
    }
    Ok(())
}

fn push_char(out: &mut String, c: char) -> Result<(), AllocError>
    ensures { IfOk result (λ _. string_bytes out.new
        ≡ string_bytes out.old ++ encode_utf8_all (escaped_scalar c)) }
{
    match escape_of(c) {
        Escape::Plain => out.push(c),
        Escape::Slashed(letter) => {
            out.push('\\')?;
            out.push(letter)
        }
        Escape::Numbered => push_numbered(out, c),
    }
}

fn push_numbered(out: &mut String, c: char) -> Result<(), AllocError>
    requires { c < 0x1_0000 }
    ensures { IfOk result (λ _. string_bytes out.new
        ≡ string_bytes out.old ++ encode_utf8_all (spec.code_escape c)) }
{
    let code = c as u32;
    out.push('\\')?;
    out.push('u')?;
    out.push('{')?;
    out.push(hex_digit(code / 16 / 16 / 16))?;
    out.push(hex_digit(code / 16 / 16 % 16))?;
    out.push(hex_digit(code / 16 % 16))?;
    out.push(hex_digit(code % 16))?;
    out.push('}')
}

/// How the character stands in a string.
fn escape_of(c: char) -> Escape
    ensures { StandsAs c result }
{
    if c == '"' {
        Escape::Slashed('"')
    } else if c == '\\' {
        Escape::Slashed('\\')
    } else if c == '\n' {
        Escape::Slashed('n')
    } else if c == '\r' {
        Escape::Slashed('r')
    } else if c == '\t' {
        Escape::Slashed('t')
    } else if c == '\0' {
        Escape::Slashed('0')
    } else if (c as u32) < 0x1_0000 && is_hidden(c as u32) {
        Escape::Numbered
    } else {
        Escape::Plain
    }
}

/// Whether a screen acts on the character of this code, or doesn't show it.
fn is_hidden(code: u32) -> bool
    ensures { result ≡ spec.is_hidden code }
{
    code < 32
        || lies_in(code, 127, 160)
        || code == 0xAD
        || code == 0x61C
        || lies_in(code, 0x200B, 0x2010)
        || lies_in(code, 0x2028, 0x202F)
        || lies_in(code, 0x2060, 0x2070)
        || code == 0xFEFF
}

fn lies_in(code: u32, low: u32, end: u32) -> bool
    ensures { result ≡ (nat_le low code && nat_lt code end) }
{
    low <= code && code < end
}

fn hex_digit(digit: u32) -> char
    requires { digit < 16 }
    ensures { result ≡ digit_char digit }
{
    match char::from_digit(digit, 16) {
        Some(c) => c,
        None => unreachable!(),
    }
}

/// A character that is shown as it stands between the quotes of a string.
#[derive(Drop)]
pub(crate) struct EscapedChar {
    character: char,
}

impl EscapedChar {
    /// The character, to be shown so.
    pub(crate) fn new(character: char) -> EscapedChar
        ensures { result.character ≡ character }
    {
        EscapedChar { character }
    }
}

impl fmt::Display for EscapedChar {
    ghost use Rattle.std.proofs.Common.{Some};
    ghost use Rattle.std.specs.Str.{encode_utf8_all};
    ghost use Rattle.cedar_expressions.specs.Escapes.{escaped_scalar};

    ghost output = { λ shown. Some (encode_utf8_all (escaped_scalar shown.character)) };

    fn fmt<W: fmt::Write>(&self, f: &mut fmt::Formatter<W>) -> fmt::Result {
        match escape_of(self.character) {
            Escape::Plain => f.write_char(self.character),
            Escape::Slashed(letter) => {
                f.write_str("\\")?;
                f.write_char(letter)
            }
            Escape::Numbered => {
                let code = self.character as u32;
                f.write_str("\\u{")?;
                f.write_char(hex_digit(code / 16 / 16 / 16))?;
                f.write_char(hex_digit(code / 16 / 16 % 16))?;
                f.write_char(hex_digit(code / 16 % 16))?;
                f.write_char(hex_digit(code % 16))?;
                f.write_str("}")
            }
        }
    }
}

/// A text that `Display` shows as it stands between the quotes of a string that means it, as
/// `push_escaped` writes it.
#[derive(Clone, Copy)]
pub struct EscapedText<'a> {
    text: &'a str,
}

impl<'a> EscapedText<'a> {
    /// The text, to be shown so.
    pub fn new(text: &'a str) -> EscapedText<'a>
        ensures { result.text.now ≡ text.now }
    {
        EscapedText { text }
    }

    /// The text without escapes.
    fn as_str(&self) -> &'a str
        ensures { result.now ≡ self.now.text.now }
    {
        self.text
    }
}

impl fmt::Display for EscapedText<'_> {
    ghost use Rattle.std.proofs.Common.{Some};
    ghost use Rattle.cedar_expressions.specs.Escapes.{escaped_text};

    ghost output = { λ shown. Some (escaped_text shown.text.now) };

    fn fmt<W: fmt::Write>(&self, f: &mut fmt::Formatter<W>) -> fmt::Result {
        for c in self.as_str().chars() {
            EscapedChar::new(c).fmt(f)?;
        }
        Ok(())
    }
}

/// A pattern that is shown as it stands between the quotes of a string.
#[derive(Clone, Copy)]
pub(crate) struct EscapedPattern<'a>(pub(crate) &'a [PatternElem]);

impl fmt::Display for EscapedPattern<'_> {
    ghost use Rattle.std.proofs.Common.{Some};
    ghost use Rattle.cedar_expressions.specs.Escapes.{escaped_pattern};

    ghost output = { λ shown. Some (escaped_pattern shown.0.now) };

    fn fmt<W: fmt::Write>(&self, f: &mut fmt::Formatter<W>) -> fmt::Result {
        for elem in self.0 {
            EscapedElem(elem).fmt(f)?;
        }
        Ok(())
    }
}

/// A part of a pattern that is shown as it stands between the quotes of a string.
#[derive(Clone, Copy)]
struct EscapedElem<'a>(&'a PatternElem);

impl fmt::Display for EscapedElem<'_> {
    ghost use Rattle.std.proofs.Common.{Some};
    ghost use Rattle.std.specs.Str.{encode_utf8_all};
    ghost use Rattle.cedar_expressions.specs.Escapes.{escaped_elem};

    ghost output = { λ shown. Some (encode_utf8_all (escaped_elem shown.0.now)) };

    fn fmt<W: fmt::Write>(&self, f: &mut fmt::Formatter<W>) -> fmt::Result {
        match self.0 {
            PatternElem::Char(character) => {
                if *character == '*' {
                    f.write_str("\\*")
                } else {
                    EscapedChar::new(*character).fmt(f)
                }
            }
            PatternElem::Wildcard => f.write_str("*"),
        }
    }
}
