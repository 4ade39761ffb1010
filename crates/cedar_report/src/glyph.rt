//! How a character of a source line is shown in a terminal, and how many columns that takes.
ghost use Rattle.std.specs.Prelude.{◌≡◌};
ghost use Rattle.std.proofs.Common.{Some};
ghost use Rattle.std.specs.Fmt.{WritesOnOk};
ghost use Rattle.cedar_report.specs.Escapes.{escaped, escaped_char, has_columns, shows_itself};

use std::fmt;
use unicode_width::UnicodeWidthChar;

/// To how many columns a tab goes on.
const TAB: usize = 4;

/// How a character is shown.
#[derive(Clone, Copy)]
enum Shown {
    /// as it is, in so many columns
    Plain(usize),
    /// as so many spaces
    Spaces(usize),
    /// by its number
    Number,
}

// How a character is shown from a column on: a tab goes on to the next column of tabs, and what
// doesn't show itself is shown by its number, so that nothing hides and no line ends.
fn how_shown(c: char, column: usize) -> Shown {
    match c.width() {
        _ if c == '\t' => Shown::Spaces(TAB - column % TAB),
        Some(width) if shows_itself(c) => Shown::Plain(width),
        _ => Shown::Number,
    }
}

// How many hex digits a character's number has.
fn digits(code: u32) -> usize {
    if code < 0x10 {
        1
    } else if code < 0x100 {
        2
    } else if code < 0x1000 {
        3
    } else if code < 0x10000 {
        4
    } else if code < 0x100000 {
        5
    } else {
        6
    }
}

/// The column behind a character that is shown from a column on, counted from 0.
pub fn column_behind(c: char, column: usize) -> usize {
    let width = match how_shown(c, column) {
        Shown::Plain(width) => width,
        Shown::Spaces(count) => count,
        Shown::Number => digits(u32::from(c)).saturating_add(4),
    };
    column.saturating_add(width)
}

/// The columns that a text takes that is shown from a column on, up to `limit` and one character.
pub fn columns(text: &str, column: usize, limit: usize) -> usize {
    let mut behind = column;
    for c in text.chars() {
        if behind > limit {
            return behind;
        }
        behind = column_behind(c, behind);
    }
    behind
}

/// Writes a character as it is shown from a column on.
pub fn write_shown<W: fmt::Write>(out: &mut W, c: char, column: usize) -> fmt::Result {
    match how_shown(c, column) {
        Shown::Plain(_) => write!(out, "{c}"),
        Shown::Spaces(count) => repeat(out, " ", count),
        Shown::Number => {
            let code = u32::from(c);
            write!(out, "\\u{{{code:x}}}")
        }
    }
}

/// Writes a text so many times.
pub fn repeat<W: fmt::Write>(out: &mut W, text: &str, count: usize) -> fmt::Result {
    for _ in 0..count {
        out.write_str(text)?;
    }
    Ok(())
}

/// A text in one line, as `{}` writes it: line ends and tabs by their escapes, and what has no
/// width by its number.
#[derive(Debug, Clone, Copy)]
pub struct Escaped<'a>(pub &'a str);

impl fmt::Display for Escaped<'_> {
    ghost output = { λ text. Some (escaped text.0.now) };

    fn fmt<W: fmt::Write>(&self, f: &mut fmt::Formatter<W>) -> fmt::Result {
        write_escaped(self.0, f)
    }
}

fn write_escaped<W: fmt::Write>(text: &str, f: &mut fmt::Formatter<W>) -> fmt::Result
    ensures { WritesOnOk W.write_str_gives f.old result (escaped text.now) f.new }
{
    for c in text.chars() {
        write!(f, "{}", EscapedChar(c))?;
    }
    Ok(())
}

// A character of a text in one line.
#[derive(Clone, Copy)]
struct EscapedChar(char);

impl fmt::Display for EscapedChar {
    ghost output = { λ c. Some (escaped_char c.0) };

    fn fmt<W: fmt::Write>(&self, f: &mut fmt::Formatter<W>) -> fmt::Result {
        match self.0 {
            '\n' => f.write_str("\\n"),
            '\r' => f.write_str("\\r"),
            '\t' => f.write_str("\\t"),
            c if shows_itself(c) => write!(f, "{c}"),
            c => {
                let code = u32::from(c);
                write!(f, "\\u{{{code:x}}}")
            }
        }
    }
}

// Whether a character has columns of its own, and ends no line.
fn shows_itself(c: char) -> bool
    ensures { result ≡ shows_itself c }
{
    match c {
        '\u{2028}' | '\u{2029}' => false,
        _ => has_columns(c.width()),
    }
}

// Whether what takes this width takes a column.
fn has_columns(width: Option<usize>) -> bool
    ensures { result ≡ has_columns width }
{
    match width {
        Some(width) => width > 0,
        None => false,
    }
}
