//! What is told of one fault: its place, its words, the hint, the other places.
ghost use Rattle.std.specs.Prelude.{◌≡◌, [], IfOk, None};
ghost use Rattle.cedar_syntax.specs.faults.ParseErrors.{span_of};
ghost use Rattle.cedar_report.specs.Findings.{TellsFault, HasBytes, HasCause, AreRelatedSeen, IsSeenAt, IsSeenSomewhere, kinds_expected};

use crate::code::code_of;
use crate::expected::by_class;
use crate::finding::{Extent, Finding, Related};
use crate::lines::Lines;
use crate::outline::Outline;
use crate::related::other_places;
use crate::search::{Hint, told_by_table};
use crate::shapes::look_at_shape;
use crate::sight::{Sight, kinds_of};
use crate::spelling::look_at_spelling;
use crate::tokens::Tokens;
use cedar_lexer::token::TokenKind;
use cedar_policy_parser::ExtStyles;
use cedar_syntax::err::ParseError;
use std::alloc::{AllocError, Global};

/// A text with what is told from it.
#[derive(Drop)]
pub struct Sources<'a, 's> {
    pub lines: Lines<'a>,
    pub tokens: Tokens<'a>,
    pub outline: Outline,
    /// what the text may call
    pub styles: &'s ExtStyles,
}

impl<'a, 's> Sources<'a, 's> {
    /// A text, read in a few passes, and what it may call. Only want of memory refuses it.
    pub fn of(
        alloc: Global,
        text: &'a str,
        styles: &'s ExtStyles,
    ) -> Result<Sources<'a, 's>, AllocError>
        ensures { IfOk result (λ sources. sources.lines.text.now ≡ text.now) }
    {
        let lines = Lines::of(alloc, text)?;
        let tokens = Tokens::of(alloc, text)?;
        let outline = Outline::of(alloc, &tokens)?;
        Ok(Sources {
            lines,
            tokens,
            outline,
            styles,
        })
    }

    /// The lines alone.
    pub fn into_lines(self) -> Lines<'a>
        ensures { result ≡ self.entry.lines }
    {
        let Sources {
            lines,
            tokens: _,
            outline: _,
            styles: _,
        } = self;
        lines
    }
}

/// What of the fault before is needed.
#[derive(Clone, Copy)]
pub struct Before {
    /// the byte behind the fault before, where it is one of the text
    pub end: Option<usize>,
    /// where the fault before began, and the token of the name that it spoke of
    pub chain: Option<(usize, usize)>,
}

/// Where a fault stands, where its cause does, and what helps.
#[derive(Drop)]
struct Standing {
    extent: Option<Extent>,
    cause: Option<Extent>,
    help: Option<String>,
    related: Vec<Related>,
    follows: bool,
}

/// What is told of a fault. Only want of memory refuses it.
pub fn tell(
    alloc: Global,
    sources: &Sources<'_, '_>,
    fault: &ParseError,
    before: &mut Before,
) -> Result<Finding, AllocError>
    ensures { IfOk result (λ finding. TellsFault sources.now.lines.text.now fault.now finding) }
{
    let message = format!(in alloc; "{fault}")?;
    let label = label(alloc, fault)?;
    let expected = expected_kinds(alloc, fault)?;
    let places = places(alloc, sources, fault, before)?;
    Ok(Finding {
        code: code_of(fault),
        extent: places.extent,
        cause: places.cause,
        message,
        label,
        help: places.help,
        expected,
        related: places.related,
        follows: places.follows,
    })
}

// What could have stood there, by classes where there is much.
fn label(alloc: Global, fault: &ParseError) -> Result<Option<String>, AllocError> {
    match by_class(alloc, kinds_of(fault))? {
        Some(label) => Ok(Some(label)),
        None => fault.label(alloc),
    }
}

// All kinds that could have stood there.
fn expected_kinds(alloc: Global, fault: &ParseError) -> Result<Vec<TokenKind>, AllocError>
    ensures { IfOk result (λ kinds. kinds.items ≡ kinds_expected fault.now) }
{
    let mut kinds = Vec::new(alloc);
    for kind in kinds_of(fault) {
        kinds.push(*kind)?;
    }
    Ok(kinds)
}

fn places(
    alloc: Global,
    sources: &Sources<'_, '_>,
    fault: &ParseError,
    before: &mut Before,
) -> Result<Standing, AllocError>
    ensures bytes { IfOk result (λ places. HasBytes sources.now.lines.text.now
        (span_of fault.now) places.extent) }
    ensures cause { IfOk result (λ places. HasCause sources.now.lines.text.now
        (span_of fault.now) places.cause) }
    ensures related { IfOk result (λ places.
        AreRelatedSeen sources.now.lines.text.now places.related.items) }
{
    match fault.primary_source_span() {
        Some(span) => {
            let bytes = (span.offset(), span.end());
            let sight = Sight::of(&sources.tokens, fault, bytes, before.chain);
            let follows = before.goes_on(&sources.tokens, &sight);
            before.note(&sight);
            placed(alloc, sources, &sight, follows)
        }
        None => unplaced(alloc, fault),
    }
}

// What is told of a fault without a place.
fn unplaced(alloc: Global, fault: &ParseError) -> Result<Standing, AllocError>
    ensures { IfOk result (λ places. (places.extent ≡ None) × (places.cause ≡ None)
        × (places.related.items ≡ [])) }
{
    Ok(Standing {
        extent: None,
        cause: None,
        help: fault.help(alloc)?,
        related: Vec::new(alloc),
        follows: false,
    })
}

// What is told of a fault at its place.
fn placed(
    alloc: Global,
    sources: &Sources<'_, '_>,
    sight: &Sight<'_>,
    follows: bool,
) -> Result<Standing, AllocError>
    ensures bytes { IfOk result (λ places. IsSeenAt sources.now.lines.text.now
        sight.now.start sight.now.end places.extent) }
    ensures cause { IfOk result (λ places. IsSeenSomewhere sources.now.lines.text.now
        places.cause) }
    ensures related { IfOk result (λ places.
        AreRelatedSeen sources.now.lines.text.now places.related.items) }
{
    let related = other_places(
        alloc,
        &sources.lines,
        &sources.tokens,
        &sources.outline,
        sight,
    )?;
    let hint = hint_of(alloc, sources, sight, follows)?;
    let (start, end) = match &hint {
        Some(hint) => (hint.start, hint.end),
        None => (sight.start, sight.end),
    };
    Ok(Standing {
        extent: Some(Extent::of(&sources.lines, sight.start, sight.end)),
        cause: Some(Extent::of(&sources.lines, start, end)),
        help: help_of(alloc, sight, hint)?,
        related,
        follows,
    })
}

// The hint's help, else the parser's.
fn help_of(
    alloc: Global,
    sight: &Sight<'_>,
    hint: Option<Hint>,
) -> Result<Option<String>, AllocError> {
    match hint {
        Some(hint) if !hint.help.is_empty() => Ok(Some(hint.help)),
        _ => sight.fault.help(alloc),
    }
}

// What a comment or a string says that the lexer doesn't see, else the table's hint, else what the
// text's shape says; nothing of a fault that follows.
fn hint_of(
    alloc: Global,
    sources: &Sources<'_, '_>,
    sight: &Sight<'_>,
    follows: bool,
) -> Result<Option<Hint>, AllocError> {
    if follows {
        return Ok(None);
    }
    if let Some(hint) = spelling_hint(alloc, sources, sight)? {
        return Ok(Some(hint));
    }
    if let Some(hint) = told_by_table(alloc, &sources.tokens, sight)? {
        return Ok(Some(hint));
    }
    look_at_shape(
        alloc,
        &sources.tokens,
        &sources.outline,
        sources.styles,
        sight,
    )
}

fn spelling_hint(
    alloc: Global,
    sources: &Sources<'_, '_>,
    sight: &Sight<'_>,
) -> Result<Option<Hint>, AllocError> {
    if sight.is_of_text() {
        look_at_spelling(alloc, &sources.tokens, &sources.outline, sight)
    } else {
        Ok(None)
    }
}

impl Before {
    // Whether a fault of the text stands behind another one with no policy's beginning between
    // them.
    fn goes_on(&self, tokens: &Tokens<'_>, sight: &Sight<'_>) -> bool {
        match self.end {
            Some(end) if sight.is_of_text() => {
                end <= sight.start && !begins_between(tokens, end, sight.end)
            }
            _ => false,
        }
    }

    // Keeps what the next fault needs of this one.
    fn note(&mut self, sight: &Sight<'_>) {
        self.end = if sight.is_of_text() {
            Some(sight.end)
        } else {
            None
        };
        self.chain = match sight.named {
            Some(name) => Some((sight.start, name)),
            None => None,
        };
    }
}

// Whether a policy's first word or annotation stands between two bytes.
fn begins_between(tokens: &Tokens<'_>, start: usize, end: usize) -> bool {
    for index in tokens.at(start)..tokens.len() {
        if tokens.start(index) >= end {
            return false;
        }
        if matches!(tokens.word(index), "permit" | "forbid" | "@") {
            return true;
        }
    }
    false
}
