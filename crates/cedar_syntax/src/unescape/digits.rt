//! The digits of `\u{..}`.
ghost use Rattle.std.specs.Prelude.{◌≡◌, ◌<◌, ◌≤◌};

use crate::err::EscapeError;
use crate::unescape::piece::PieceValue;

/// The digits between braces so far: how many, seven standing for more, and their number, 110000
/// standing for more.
#[derive(Clone, Copy)]
pub struct Digits {
    count: u32,
    number: u32,
    ghost few: { count ≤ 7 },
    ghost small: { number ≤ 0x11_0000 },
}

impl Digits {
    ghost use Rattle.cedar_syntax.specs.strings.PieceAhead.{tally_of, tally, with_digit, brace_outcome};

    /// The first digit.
    pub fn new(digit: u32) -> Digits
        requires { digit < 16 }
        ensures { tally_of result ≡ tally 1 digit }
    {
        Digits {
            count: 1,
            number: digit,
        }
    }

    /// One more.
    pub fn with_digit(self, digit: u32) -> Digits
        requires { digit < 16 }
        ensures { tally_of result ≡ with_digit (tally_of self) digit }
    {
        Digits {
            count: (self.count + 1).min(7),
            number: (self.number * 16 + digit).min(0x11_0000),
        }
    }

    /// What the digits stand for, once the brace is closed.
    pub fn close(self) -> PieceValue
        ensures { result ≡ brace_outcome (tally_of self) }
    {
        if self.count > 6 {
            return PieceValue::Fault(EscapeError::OverlongUnicodeEscape);
        }
        match char::from_u32(self.number) {
            Some(c) => PieceValue::Character(c),
            None if self.number > 0x10_FFFF => PieceValue::Fault(
                EscapeError::OutOfRangeUnicodeEscape,
            ),
            None => PieceValue::Fault(EscapeError::LoneSurrogateUnicodeEscape),
        }
    }
}
