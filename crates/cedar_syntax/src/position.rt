//! Lines and columns: where people see an offset of a text.
ghost use Rattle.std.specs.Prelude.{◌≡◌, ◌+◌, ◌<◌, ◌^◌, if◌then◌else◌};
ghost use Rattle.cedar_syntax.specs.places.Position.{is_line_feed, begins_character, position_behind, position_of};

use crate::loc::Loc;

/// A line and a column, both counted from 1: a line ends with its line feed, a column counts
/// characters.
#[derive(Debug, Clone, Copy, PartialEq, Eq, PartialOrd, Ord, Hash)]
pub struct Position {
    pub line: usize,
    pub column: usize,
}

impl Position {
    /// Where the byte `offset` of the text stands. Within a character it is the place behind that
    /// one, behind the text the text's end. It takes one pass over the text before the offset, and
    /// no memory.
    pub fn of(text: &str, offset: usize) -> Position
        ensures { result ≡ position_of text.now offset }
    {
        let bytes = text.as_bytes();
        behind_all(&bytes[..offset.min(bytes.len())])
    }
}

impl Loc {
    /// The line and the column where the place begins.
    pub fn position(&self) -> Position
        ensures { result ≡ position_of self.now.src self.now.span.offset }
    {
        Position::of(self.src.as_str(), self.start())
    }
}

// Where the place behind these bytes of a text stands.
fn behind_all(bytes: &[u8]) -> Position
    ensures { result ≡ position_behind bytes.now }
{
    let mut position = Position { line: 1, column: 1 };
    for byte in bytes {
        position = behind(position, *byte);
    }
    position
}

// Where the place behind one byte more stands.
fn behind(before: Position, byte: u8) -> Position
    requires line_fits { before.line < 2 ^ 63 }
    requires column_fits { before.column < 2 ^ 63 }
    ensures line { result.line ≡ before.line + (if is_line_feed byte then 1 else 0) }
    ensures column { result.column ≡ (if is_line_feed byte then 1 else
        before.column + (if begins_character byte then 1 else 0)) }
{
    if byte == b'\n' {
        Position {
            line: before.line + 1,
            column: 1,
        }
    } else if begins_character(byte) {
        Position {
            line: before.line,
            column: before.column + 1,
        }
    } else {
        before
    }
}

// Whether a character begins with this byte.
fn begins_character(byte: u8) -> bool
    ensures { result ≡ begins_character byte }
{
    byte < 128 || byte >= 192
}
