//! What can be wrong with the escapes of a string.
ghost use Rattle.std.specs.Prelude.{◌≡◌, IfOk, alloc_error, string_bytes};
ghost use Rattle.std.proofs.Common.{Some};
ghost use Rattle.cedar_syntax.specs.declared.err.escape.UnescapeFailure.TheVariants.{Memory, Errors};

use crate::err::NonEmpty;
use crate::loc::snippet_of;
use cedar_expressions::{Source, Text, TryClone};
use std::alloc::{AllocError, AllocFailed, Global};
use std::error::Error;
use std::fmt;
use std::ops::Range;

/// The ways in which a piece of a string's raw text can be no escape.
#[derive(Debug, Clone, Copy, PartialEq, Eq, Hash)]
pub enum EscapeError {
    /// a backslash with nothing after it
    LoneSlash,
    /// a backslash and a character that makes no escape with it
    InvalidEscape,
    /// a carriage return
    BareCarriageReturn,
    /// a double quote without a backslash
    EscapeOnlyChar,
    /// `\x` with fewer than two characters after it
    TooShortHexEscape,
    /// `\x` and a character that is no hex digit
    InvalidCharInHexEscape,
    /// `\x` and a value above 7F
    OutOfRangeHexEscape,
    /// `\u` without `{`
    NoBraceInUnicodeEscape,
    /// a character between the braces that is neither a hex digit nor `_`
    InvalidCharInUnicodeEscape,
    /// `\u{}`
    EmptyUnicodeEscape,
    /// `\u{` without `}`
    UnclosedUnicodeEscape,
    /// `\u{_`
    LeadingUnderscoreUnicodeEscape,
    /// more than six hex digits between the braces
    OverlongUnicodeEscape,
    /// a value from D800 to DFFF between the braces
    LoneSurrogateUnicodeEscape,
    /// a value above 10FFFF between the braces
    OutOfRangeUnicodeEscape,
}

impl EscapeError {
    /// A copy that equals its source.
    pub fn try_clone(&self) -> Result<EscapeError, AllocError>
        ensures { IfOk result (λ copy. copy ≡ self.now) }
    {
        Ok(*self)
    }
}

impl TryClone for EscapeError {
    fn try_clone(&self) -> Result<EscapeError, AllocError> {
        EscapeError::try_clone(self)
    }
}

/// A piece of a string's raw text that is no escape: what is wrong, the whole raw text, and the
/// bytes of the piece in it.
#[derive(Debug, Drop, PartialEq, Eq)]
pub struct UnescapeError {
    pub kind: EscapeError,
    pub input: Source,
    pub range: Range<usize>,
}

impl UnescapeError {
    /// The fault `kind` at the bytes `range` of the raw text. Only want of memory refuses it.
    pub fn new(
        alloc: Global,
        kind: EscapeError,
        text: String,
        range: Range<usize>,
    ) -> Result<UnescapeError, AllocError>
        ensures { IfOk result (λ fault.
            fault ≡ record { kind = kind; input = string_bytes text; range = range }) }
    {
        let input = Source::from_str(alloc, text.as_str())?;
        Ok(UnescapeError::in_source(kind, input, range))
    }

    /// The fault `kind` at the bytes `range` of a shared raw text: all faults of one text share
    /// it. It takes no memory.
    pub fn in_source(kind: EscapeError, input: Source, range: Range<usize>) -> UnescapeError
        ensures { result ≡ record { kind = kind; input = input; range = range } }
    {
        UnescapeError { kind, input, range }
    }

    /// What is wrong.
    pub fn kind(&self) -> EscapeError
        ensures { result ≡ self.now.kind }
    {
        self.kind
    }

    /// The whole raw text.
    pub fn input(&self) -> &str
        ensures { result.now ≡ self.now.input }
    {
        self.input.as_str()
    }

    /// The bytes of the piece in the raw text.
    pub fn range(&self) -> Range<usize>
        ensures { result ≡ self.now.range }
    {
        self.range.start..self.range.end
    }

    /// A copy that equals its source, over the same shared text.
    pub fn try_clone(&self) -> Result<UnescapeError, AllocError>
        ensures { IfOk result (λ copy. copy ≡ self.now) }
    {
        Ok(UnescapeError {
            kind: self.kind,
            input: self.input.share()?,
            range: self.range(),
        })
    }
}

impl TryClone for UnescapeError {
    fn try_clone(&self) -> Result<UnescapeError, AllocError> {
        UnescapeError::try_clone(self)
    }
}

impl Clone for UnescapeError {
    ghost is_clone = { λ fault copy. copy ≡ fault };

    fn clone(&self) -> Result<UnescapeError, AllocError> {
        UnescapeError::try_clone(self)
    }
}

/// With the piece in backquotes; with nothing in them where the range is none of the text on
/// character boundaries.
impl fmt::Display for UnescapeError {
    ghost use Rattle.cedar_syntax.specs.messages.Messages.{escape_message};

    ghost output = { λ fault. Some (escape_message fault) };

    fn fmt<W: fmt::Write>(&self, f: &mut fmt::Formatter<W>) -> fmt::Result {
        let piece = snippet_of(self.input(), self.range.start, self.range.end).unwrap_or("");
        write!(f, "the input `{piece}` is not a valid escape")
    }
}

impl Error for UnescapeError {}

/// Why a raw text was not unescaped: there was no memory, or these pieces of it are no escapes, in
/// their order.
#[derive(Debug, Drop, PartialEq, Eq)]
pub enum UnescapeFailure {
    Memory(AllocError),
    Errors(NonEmpty<UnescapeError>),
}

impl From<AllocError> for UnescapeFailure {
    ghost from_gives = { λ _ failure. failure ≡ Memory alloc_error };

    fn from(_: AllocError) -> UnescapeFailure {
        UnescapeFailure::Memory(AllocError)
    }
}

impl<T: Drop> From<AllocFailed<T>> for UnescapeFailure {
    ghost from_gives = { λ _ failure. failure ≡ Memory alloc_error };

    fn from(_: AllocFailed<T>) -> UnescapeFailure {
        UnescapeFailure::Memory(AllocError)
    }
}

impl From<NonEmpty<UnescapeError>> for UnescapeFailure {
    ghost from_gives = { λ faults failure. failure ≡ Errors faults };

    fn from(faults: NonEmpty<UnescapeError>) -> UnescapeFailure {
        UnescapeFailure::Errors(faults)
    }
}

impl UnescapeFailure {
    /// A copy that equals its source.
    pub fn try_clone(&self) -> Result<UnescapeFailure, AllocError>
        ensures { IfOk result (λ copy. copy ≡ self.now) }
    {
        match self {
            UnescapeFailure::Memory(error) => Ok(UnescapeFailure::Memory(*error)),
            UnescapeFailure::Errors(faults) => Ok(UnescapeFailure::Errors(faults.try_clone()?)),
        }
    }
}

impl TryClone for UnescapeFailure {
    fn try_clone(&self) -> Result<UnescapeFailure, AllocError> {
        UnescapeFailure::try_clone(self)
    }
}

impl Clone for UnescapeFailure {
    ghost is_clone = { λ failure copy. copy ≡ failure };

    fn clone(&self) -> Result<UnescapeFailure, AllocError> {
        UnescapeFailure::try_clone(self)
    }
}

/// Want of memory, or the first piece's text.
impl fmt::Display for UnescapeFailure {
    ghost use Rattle.cedar_syntax.specs.messages.Messages.{unescape_message};

    ghost output = { λ failure. Some (unescape_message failure) };

    fn fmt<W: fmt::Write>(&self, f: &mut fmt::Formatter<W>) -> fmt::Result {
        match self {
            UnescapeFailure::Memory(_) => f.write_str("want of memory"),
            UnescapeFailure::Errors(faults) => write!(f, "{}", faults.head),
        }
    }
}

impl Error for UnescapeFailure {}
