//! What is told of one fault.
ghost use Rattle.std.specs.Prelude.{◌≡◌};
ghost use Rattle.cedar_report.specs.Findings.{IsSeen};

use crate::lines::{Lines, Spot};
use cedar_lexer::token::TokenKind;

/// A range of bytes, and where it begins and ends.
#[derive(Debug, Clone, Copy, PartialEq, Eq)]
pub struct Extent {
    pub start: usize,
    pub end: usize,
    pub from: Spot,
    pub to: Spot,
}

impl Extent {
    /// A range of bytes of a text, with its lines and columns.
    pub fn of(lines: &Lines<'_>, start: usize, end: usize) -> Extent
        ensures start { result.start ≡ start }
        ensures end { result.end ≡ end }
        ensures seen { IsSeen lines.now.text.now result }
    {
        Extent {
            start,
            end,
            from: lines.spot(start),
            to: lines.spot(end),
        }
    }
}

/// Another place that belongs to a fault, and what it is.
#[derive(Debug, Drop)]
pub struct Related {
    pub extent: Extent,
    pub text: String,
}

/// A fault as it is told.
#[derive(Debug, Drop)]
pub struct Finding {
    /// the name of its kind
    pub code: &'static str,
    /// where the parser saw it, or `None` where it has no place
    pub extent: Option<Extent>,
    /// where its cause stands, as far as a hint tells, else as `extent`
    pub cause: Option<Extent>,
    pub message: String,
    /// what could have stood there, by classes where there is much
    pub label: Option<String>,
    /// what to write instead
    pub help: Option<String>,
    /// all kinds of token that could have stood there
    pub expected: Vec<TokenKind>,
    pub related: Vec<Related>,
    /// whether it stands in the policy of the fault before it, behind it, or behind a bad place, so
    /// that it may be no mistake of its own
    pub follows: bool,
}
