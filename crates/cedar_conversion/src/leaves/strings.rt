//! The texts that strings stand for.
ghost use Rattle.std.specs.Prelude.{◌≡◌, ◌∷◌, [], ◌++◌, IfOk, OnOk, true};
ghost use Rattle.std.specs.List.{list_all};
ghost use Rattle.cedar_conversion.specs.machines.PlainTexts.{stands_for_itself};
ghost use Rattle.cedar_syntax.specs.faults.NonEmpty.{list_of};
ghost use Rattle.cedar_syntax.specs.strings.Piece.{IsUnescaped};
ghost use Rattle.cedar_syntax.specs.faults.ParseErrors.{faults_of};
ghost use Rattle.cedar_conversion.specs.outcome.Held.{text_value};
ghost use Rattle.cedar_conversion.specs.outcome.Detail.{escape};
ghost use Rattle.cedar_conversion.specs.outcome.Outcome.{next, unescape};
ghost use Rattle.cedar_conversion.specs.outcome.Seen.{Gives, itself, named_faults, named_fault};
ghost use Rattle.cedar_conversion.specs.parts.Strings.{pattern_outcome, text_outcome, string_faults};

use crate::answer::failure::BoxedFailure;
use crate::answer::special::builder_at;
use cedar_expressions::{ExprBuilderInfallibleBuild, Literal, PatternElem, Text, TryClone};
use cedar_syntax::err::{
    NonEmpty, ParseError, ParseErrors, ToASTError, ToASTErrorKind, UnescapeError, UnescapeFailure,
};
use cedar_syntax::loc::Loc;
use cedar_syntax::unescape::{to_pattern, to_unescaped_string};
use std::alloc::{AllocError, Global};

/// An escape fault at the string's place.
fn escape_fault(fault: UnescapeError, loc: &Option<Loc>) -> Result<ToASTError, AllocError>
    ensures { IfOk result (λ made. named_fault (ParseError.ToAST made)
        ≡ (unescape, loc.now, escape fault)) }
{
    let loc = loc.try_clone()?;
    Ok(ToASTError::new(ToASTErrorKind::Unescape(fault), loc))
}

/// One more escape fault, at the string's place.
fn add_escape_fault(
    all: &mut ParseErrors,
    fault: UnescapeError,
    loc: &Option<Loc>,
) -> Result<(), AllocError>
    ensures { OnOk result (named_faults (faults_of all.new)
        ≡ named_faults (faults_of all.old) ++ (unescape, loc.now, escape fault) ∷ []) }
{
    let fault = escape_fault(fault, loc)?;
    all.faults.push(ParseError::ToAST(fault))
}

/// The escape faults of a string, each at the string's place.
pub(crate) fn escape_faults(
    alloc: Global,
    faults: NonEmpty<UnescapeError>,
    loc: &Option<Loc>,
) -> Result<ParseErrors, AllocError>
    ensures { IfOk result (λ all. named_faults (faults_of all)
        ≡ string_faults loc.now (list_of faults)) }
{
    let NonEmpty { head, tail } = faults;
    let mut all = ParseErrors::from_ast(alloc, escape_fault(head, loc)?);
    for fault in tail.into_vec() {
        add_escape_fault(&mut all, fault, loc)?;
    }
    Ok(all)
}

/// Whether a byte is part of a character that stands for itself.
#[inline(always)]
fn stands_for_itself(byte: u8) -> bool
    ensures { result ≡ stands_for_itself byte }
{
    byte != b'"' && byte != b'\\' && byte != b'\r'
}

/// A text of no more bytes than this is looked at byte by byte.
const SHORT: usize = 16;

/// Whether all bytes are parts of such characters.
fn all_plain(bytes: &[u8]) -> bool
    ensures { result ≡ list_all stands_for_itself bytes.now }
{
    if bytes.len() > SHORT {
        return all_plain_by_many(bytes);
    }
    bytes.iter().all(|byte| stands_for_itself(*byte))
}

/// The same, each of the three other bytes looked for by many at a time: the backslash first, since
/// a text of escapes has one soon.
#[inline(never)]
fn all_plain_by_many(bytes: &[u8]) -> bool
    ensures { result ≡ list_all stands_for_itself bytes.now }
{
    if bytes.contains(&b'\\') {
        return false;
    }
    !(bytes.contains(&b'"') | bytes.contains(&b'\r'))
}

/// Whether a raw text stands for itself, as nearly all do.
fn is_plain(raw: &str) -> bool
    ensures { result ≡ true → IsUnescaped raw.now raw.now }
{
    all_plain(raw.as_bytes())
}

/// The text that a raw text stands for, or its escape faults, each at the string's place.
#[inline(always)]
pub(crate) fn unescape_raw(
    alloc: Global,
    raw: &Text,
    loc: &Option<Loc>,
) -> Result<Text, BoxedFailure>
    ensures { Gives itself result (text_outcome loc.now raw.now) }
{
    if is_plain(raw.as_str()) {
        return Ok(raw.try_clone()?);
    }
    unescape_any(alloc, raw, loc)
}

/// The same of a raw text that may have escapes.
#[inline(never)]
fn unescape_any(alloc: Global, raw: &Text, loc: &Option<Loc>) -> Result<Text, BoxedFailure>
    ensures { Gives itself result (text_outcome loc.now raw.now) }
{
    match to_unescaped_string(alloc, raw.as_str()) {
        Ok(text) => Ok(Text::from_string(text)?),
        Err(UnescapeFailure::Memory(error)) => Err(BoxedFailure::from(error)),
        Err(UnescapeFailure::Errors(faults)) => {
            Err(BoxedFailure::of_errors(alloc, escape_faults(alloc, faults, loc)?))
        }
    }
}

/// The pattern that a raw text stands for, or its escape faults, each at the string's place.
pub(crate) fn pattern_of(
    alloc: Global,
    raw: &Text,
    loc: &Option<Loc>,
) -> Result<Vec<PatternElem>, BoxedFailure>
    ensures { Gives (λ elements. elements.items) result (pattern_outcome loc.now raw.now) }
{
    match to_pattern(alloc, raw.as_str()) {
        Ok(pattern) => Ok(pattern),
        Err(UnescapeFailure::Memory(error)) => Err(BoxedFailure::from(error)),
        Err(UnescapeFailure::Errors(faults)) => {
            Err(BoxedFailure::of_errors(alloc, escape_faults(alloc, faults, loc)?))
        }
    }
}

/// The constant that a string is.
#[inline(never)]
pub(crate) fn text_of<B: ExprBuilderInfallibleBuild>(
    alloc: Global,
    raw: &Text,
    loc: &Option<Loc>,
) -> Result<B::Expr, BoxedFailure>
    ensures { Gives B.meaning result (next (text_outcome loc.now raw.now) text_value) }
{
    let text = unescape_raw(alloc, raw, loc)?;
    Ok(builder_at::<B>(alloc, loc).val(Literal::String(text))?)
}
