//! The raw text between a string's quotes, unescaped.
ghost use Rattle.std.specs.Prelude.{◌≡◌, ◌≢◌, [], ℕ, List, MatchResult, IfOk, IfErr, string_bytes};
ghost use Rattle.cedar_expressions.specs.declared.atoms.PatternElem.{PatternElem};
ghost use Rattle.cedar_syntax.specs.declared.err.escape.UnescapeError.{UnescapeError};
ghost use Rattle.cedar_syntax.specs.strings.UnescapeFailure.{Tells, LacksMemory};
ghost use Rattle.cedar_syntax.specs.strings.Pattern.{IsPattern, HasPatternFaults, character_elem};
ghost use Rattle.cedar_syntax.specs.strings.Piece.{IsUnescaped, HasEscapeFaults};

mod digits;
mod faults;
pub mod laws;
mod piece;

pub use crate::err::{EscapeError, UnescapeError, UnescapeFailure};
use crate::unescape::faults::Faults;
use crate::unescape::piece::{PieceValue, begins_escaped_star, first_char, first_piece};
use cedar_expressions::PatternElem;
use std::alloc::Global;

/// The text that the raw text between a string's quotes stands for.
///
/// Refused where a piece of it is no escape, with each such piece in order: what is wrong, the
/// bytes of the piece, and the whole raw text, of which all faults share one copy; or for want of
/// memory.
pub fn to_unescaped_string(alloc: Global, raw: &str) -> Result<String, UnescapeFailure>
    ensures unescaped { IfOk result (λ text. IsUnescaped raw.now (string_bytes text)) }
    ensures told { IfErr result (λ failure. Tells failure (HasEscapeFaults raw.now)) }

    // Where there is an unescaped text, it is the answer, and where there are faults, they are,
    // want of memory aside.
    ensures succeeds { (text : List ℕ) → IsUnescaped raw.now text
        → MatchResult result (λ given. string_bytes given ≡ text) LacksMemory }
    ensures fails { (faults : List UnescapeError) → HasEscapeFaults raw.now faults → faults ≢ []
        → MatchResult result (λ given. ⊥) (λ failure. Tells failure (λ all. all ≡ faults)) }
{
    let mut text = String::new(alloc);
    let mut faults = Faults::new(alloc, raw);
    let mut rest = raw;
    while let Some((first, after)) = first_char(rest) {
        let step = first_piece(first, after);
        match step.outcome {
            PieceValue::Nothing => {}
            PieceValue::Character(c) => text.push(c)?,
            PieceValue::Fault(kind) => {
                faults.add(kind, raw.len() - rest.len(), raw.len() - step.rest.len())?;
            }
        }
        rest = step.rest;
    }
    faults.or(text)
}

// The part of a pattern that a character is, however it is spelled.
fn character_elem(c: char) -> PatternElem
    ensures { result ≡ character_elem c }
{
    match c {
        '*' => PatternElem::Wildcard,
        _ => PatternElem::Char(c),
    }
}

/// The pattern that the raw text between a string's quotes stands for: a star, in whatever
/// spelling, is `Wildcard`, any other character `Char`, and a star behind a backslash `Char` of
/// the star.
///
/// Refused as `to_unescaped_string` is; a star behind a backslash is no fault here.
pub fn to_pattern(alloc: Global, raw: &str) -> Result<Vec<PatternElem>, UnescapeFailure>
    ensures pattern { IfOk result (λ pattern. IsPattern raw.now pattern.items) }
    ensures told { IfErr result (λ failure. Tells failure (HasPatternFaults raw.now)) }

    // Where there is a pattern, it is the answer, and where there are faults, they are, want of
    // memory aside.
    ensures succeeds { (elems : List PatternElem) → IsPattern raw.now elems
        → MatchResult result (λ given. given.items ≡ elems) LacksMemory }
    ensures fails { (faults : List UnescapeError) → HasPatternFaults raw.now faults → faults ≢ []
        → MatchResult result (λ given. ⊥) (λ failure. Tells failure (λ all. all ≡ faults)) }
{
    let mut pattern = Vec::new(alloc);
    let mut faults = Faults::new(alloc, raw);
    let mut rest = raw;
    while let Some((first, after)) = first_char(rest) {
        let step = first_piece(first, after);
        match step.outcome {
            PieceValue::Nothing => {}
            PieceValue::Character(c) => pattern.push(character_elem(c))?,
            PieceValue::Fault(_) if begins_escaped_star(first, after) => {
                pattern.push(PatternElem::Char('*'))?;
            }
            PieceValue::Fault(kind) => {
                faults.add(kind, raw.len() - rest.len(), raw.len() - step.rest.len())?;
            }
        }
        rest = step.rest;
    }
    faults.or(pattern)
}
