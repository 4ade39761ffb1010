//! Places: ranges of bytes of a text.
ghost use Rattle.std.specs.Prelude.{◌≡◌, ◌+◌, ◌-◌, ◌<◌, ◌≤◌, ◌^◌, IfOk, MatchOption, ◌↔◌, IsSome, IsTrue};
ghost use Rattle.std.specs.Str.{IsCharBoundary};
ghost use Rattle.std.specs.Rc.{rc_str_bytes};
ghost use Rattle.cedar_syntax.specs.places.Span.{IsRangeOf, end_of, part_of, is_boundary};
ghost use Rattle.std.specs.Option.{option_copied};

use cedar_expressions::{Source, TryClone};
use std::alloc::AllocError;
use std::fmt;
use std::marker::Model;
use std::rc::RcStr;

/// A range of bytes whose end fits `usize`.
#[derive(Debug, Clone, Copy, PartialEq, Eq, PartialOrd, Ord, Hash)]
pub struct SourceSpan {
    offset: usize,
    len: usize,
}

impl Model for SourceSpan {
    ghost use Rattle.std.specs.Prelude.{◌+◌, ◌<◌, ◌^◌};
    ghost use Rattle.cedar_syntax.specs.places.Span.{Span};

    ghost Value = { Span };

    ghost view = { λ fields. record { offset = fields.offset; len = fields.len } };

    ghost invariant = { λ fields. fields.offset + fields.len < 2 ^ 64 };

    ghost inverse = { λ span. record { offset = span.offset; len = span.len } };
}

impl SourceSpan {
    /// The range of `len` bytes from `offset` on, or `None` where its end doesn't fit `usize`.
    pub fn new(offset: usize, len: usize) -> Option<SourceSpan>
        ensures { MatchOption result (2 ^ 64 ≤ offset + len)
            (λ span. (span.offset ≡ offset) × (span.len ≡ len)) }
    {
        offset.checked_add(len)?;
        Some(SourceSpan { offset, len })
    }

    /// The range from one place up to another, or no bytes where the second stands before the
    /// first.
    pub fn between(start: usize, end: usize) -> SourceSpan
        ensures { (result.offset ≡ start) × (result.len ≡ end - start) }
    {
        SourceSpan {
            offset: start,
            len: end.saturating_sub(start),
        }
    }

    /// The byte where the range begins.
    pub fn offset(&self) -> usize
        ensures { result ≡ self.now.offset }
    {
        self.offset
    }

    /// How many bytes the range has.
    pub fn len(&self) -> usize
        ensures { result ≡ self.now.len }
    {
        self.len
    }

    /// Whether the range has no byte.
    pub fn is_empty(&self) -> bool
        ensures { IsTrue result ↔ (self.now.len ≡ 0) }
    {
        self.len == 0
    }

    /// The byte after the last.
    pub fn end(&self) -> usize
        ensures { result ≡ self.now.offset + self.now.len }
    {
        self.offset + self.len
    }
}

/// A place: a range of bytes, and the text that it speaks of. The range may lie outside of the
/// text.
#[derive(Drop, PartialEq, Eq, PartialOrd, Ord, Hash)]
pub struct Loc {
    pub span: SourceSpan,
    pub src: Source,
}

impl Loc {
    /// The place `span` of the text `src`.
    pub fn new(span: SourceSpan, src: RcStr) -> Loc
        ensures { result ≡ record { span = span; src = rc_str_bytes src } }
    {
        Loc {
            span,
            src: Source::from(src),
        }
    }

    /// Another place of the same text, which both share.
    pub fn span(&self, new_span: SourceSpan) -> Result<Loc, AllocError>
        ensures { IfOk result (λ place. place ≡ record { span = new_span; src = self.now.src }) }
    {
        Ok(Loc {
            span: new_span,
            src: self.src.share()?,
        })
    }

    /// The byte where the place begins.
    pub fn start(&self) -> usize
        ensures { result ≡ self.now.span.offset }
    {
        self.span.offset()
    }

    /// The byte after the place's last.
    pub fn end(&self) -> usize
        ensures { result ≡ end_of self.now.span }
    {
        self.span.end()
    }

    /// The text at this place, or `None` where the place is no range of its text on character
    /// boundaries.
    pub fn snippet(&self) -> Option<&str>
        ensures found { IsSome result ↔
            IsRangeOf self.now.src self.now.span.offset (end_of self.now.span) }
        ensures value { option_copied result ≡
            part_of self.now.src self.now.span.offset (end_of self.now.span) }
    {
        snippet_of(self.src.as_str(), self.start(), self.end())
    }

    /// The same place of the same text, which both share.
    pub fn try_clone(&self) -> Result<Loc, AllocError>
        ensures { IfOk result (λ copy. copy ≡ self.now) }
    {
        self.span(self.span)
    }
}

/// The text at the bytes `start..end`, or `None` where these are no range of the text on character
/// boundaries.
pub(crate) fn snippet_of(text: &str, start: usize, end: usize) -> Option<&str>
    ensures found { IsSome result ↔ IsRangeOf text.now start end }
    ensures value { option_copied result ≡ part_of text.now start end }
{
    if start <= end && is_boundary(text, start) && is_boundary(text, end) {
        Some(&text[start..end])
    } else {
        None
    }
}

/// Whether a character of the text begins at `at`, or the text ends there.
fn is_boundary(text: &str, at: usize) -> bool
    ensures same { result ≡ is_boundary text.now at }
    ensures boundary { IsTrue result ↔ IsCharBoundary text.now at }
{
    text.is_char_boundary(at)
}

impl TryClone for Loc {
    fn try_clone(&self) -> Result<Loc, AllocError> {
        Loc::try_clone(self)
    }
}

impl Clone for Loc {
    ghost is_clone = { λ place copy. copy ≡ place };

    fn clone(&self) -> Result<Loc, AllocError> {
        Loc::try_clone(self)
    }
}

impl From<Loc> for SourceSpan {
    ghost from_gives = { λ place span. span ≡ place.span };

    fn from(place: Loc) -> SourceSpan {
        place.span
    }
}

impl<'a> From<&'a Loc> for SourceSpan {
    ghost from_gives = { λ place span. span ≡ place.now.span };

    fn from(place: &'a Loc) -> SourceSpan {
        place.span
    }
}

/// The text at the place, or, where it has none, the range and the whole text.
impl fmt::Debug for Loc {
    fn fmt<W: fmt::Write>(&self, f: &mut fmt::Formatter<W>) -> fmt::Result {
        match self.snippet() {
            Some(snippet) => write!(f, "Loc(`{snippet}`)"),
            None => write!(
                f,
                "Loc(span: {:?}, src: {:?})",
                self.span,
                self.src.as_str()
            ),
        }
    }
}
