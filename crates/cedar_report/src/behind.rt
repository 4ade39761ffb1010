//! What is told behind a place where no token begins, at which the parser stops: the text is parsed
//! again from the next line that begins a policy on.
ghost use Rattle.std.specs.Prelude.{◌≡◌, ◌<◌, ◌||◌, ◌&&◌, ◌++◌, ◌+◌, ◌^◌, List, Some, None, length, IfOk, IfSome, OnOk, MatchOption};
ghost use Rattle.std.specs.Char.{is_ascii_whitespace};
ghost use Rattle.std.specs.List.{AllZip};
ghost use Rattle.std.specs.Option.{option_map};
ghost use Rattle.std.specs.Str.{IsCharBoundary};
ghost use Rattle.cedar_lexer.specs.Token.{Lexeme};
ghost use Rattle.cedar_lexer.specs.LexerState.{IsCutOrStop};
ghost use Rattle.cedar_syntax.specs.faults.ParseErrors.{faults_of};
ghost use Rattle.cedar_syntax.specs.places.Position.{is_line_feed};
ghost use Rattle.cedar_conversion.specs.strict.Table.{table_of};
ghost use Rattle.cedar_report.specs.declared.finding.Finding.{Finding as Told};
ghost use Rattle.cedar_report.specs.Findings.{AreRelatedSeen};
ghost use Rattle.cedar_report.specs.Parts.{IsPartAt};
ghost use Rattle.cedar_report.specs.Behind.{begins_policy, Holds, MeansOrRefuses, IsInPieces, IsMoved, IsMovedExtent, IsMovedRange, IsNextPolicy, IsPiece, IsToldBeyond, TellsPiece, TellsPieces};

use crate::finding::{Extent, Finding, Related};
use crate::lines::Lines;
use crate::report::Report;
use cedar_lexer::lexer::Lexer;
use cedar_policy_parser::{ExtStyles, parse_policyset};
use cedar_syntax::err::{Failure, ParseErrors};
use std::alloc::{AllocError, Global};

/// A part of a text that is parsed alone: from the first word of a policy up to the next place at
/// which no token begins, and the character there, or to the text's end.
#[derive(Debug, Clone, Copy)]
pub struct Piece<'a> {
    /// its first byte in the text
    pub start: usize,
    pub text: &'a str,
    /// its byte at which no token begins, where it ends with one
    pub bad_place: Option<usize>,
}

impl<'a> Report<'a> {
    /// As `Report::of`, and hints offer the names that these styles have. Where the text has a
    /// place at which no token begins, what is told of the text behind it, too: it is parsed again
    /// from the next line on that begins a policy (by `permit`, `forbid` or `@`), again and again,
    /// under these styles. These findings stand behind the others and are marked as following. It
    /// takes time in proportion to the text. Only want of memory refuses it.
    pub fn beyond(
        alloc: Global,
        name: &'a str,
        text: &'a str,
        faults: &ParseErrors,
        styles: &ExtStyles,
    ) -> Result<Report<'a>, AllocError>
        ensures name { IfOk result (λ report. report.name.now ≡ name.now) }
        ensures text { IfOk result (λ report. report.lines.text.now ≡ text.now) }
        ensures told { IfOk result (λ report. IsToldBeyond (table_of styles.now) text.now
            (faults_of faults.now) report.findings.items) }
    {
        let Report {
            name,
            lines,
            mut findings,
        } = Report::under(alloc, name, text, faults, styles)?;
        let pieces = pieces(alloc, text)?;
        add_pieces(alloc, &lines, pieces.as_slice(), styles, &mut findings)?;
        Ok(Report {
            name,
            lines,
            findings,
        })
    }
}

// The pieces of a text behind its first bad place.
fn pieces<'a>(alloc: Global, text: &'a str) -> Result<Vec<Piece<'a>>, AllocError>
    ensures { IfOk result (λ pieces. IsInPieces text.now pieces.items) }
{
    let mut pieces = Vec::new(alloc);
    let mut bad_place = first_bad_place(text);
    while let Some(place) = bad_place {
        let Some(piece) = piece_behind(text, place) else {
            return Ok(pieces);
        };
        bad_place = piece.next_bad_place();
        pieces.push(piece)?;
    }
    Ok(pieces)
}

// The first byte of a text at which no token begins.
fn first_bad_place(text: &str) -> Option<usize>
    ensures cut { (tokens : List Lexeme) × IsCutOrStop text.now 0 tokens result }
    ensures within { IfSome result (λ place. (place < length text.now)
        × IsCharBoundary text.now place) }
{
    for token in Lexer::new(text) {
        match token {
            Ok(_) => {}
            Err(invalid) => return Some(invalid.location),
        }
    }
    None
}

// The piece behind a bad place, where a line behind that begins a policy.
fn piece_behind<'a>(text: &'a str, bad_place: usize) -> Option<Piece<'a>>
    ensures piece { MatchOption result (IsNextPolicy text.now bad_place None)
        (λ piece. IsNextPolicy text.now bad_place (Some piece.start) × IsPiece text.now piece) }
    ensures onward { IfSome result (λ piece. bad_place < piece.start) }
    ensures within { IfSome result (λ piece. IfSome piece.bad_place (λ bad.
        piece.start + bad < length text.now)) }
{
    let start = policy_line(text, bad_place)?;
    let rest = &text[start..];
    let bad_place = first_bad_place(rest);
    Some(Piece {
        start,
        text: up_to(rest, bad_place),
        bad_place,
    })
}

// The first byte behind another one where a line begins a policy.
fn policy_line(text: &str, from: usize) -> Option<usize>
    ensures next { IsNextPolicy text.now from result }
    ensures onward { IfSome result (λ at. (from < at) × (at < length text.now)) }
    ensures boundary { IfSome result (λ at. IsCharBoundary text.now at) }
{
    let bytes = text.as_bytes();
    let mut is_margin = false;
    for at in from..bytes.len() {
        if begins_line(is_margin, &bytes[at..]) {
            return Some(at);
        }
        is_margin = margin_behind(is_margin, bytes[at]);
    }
    None
}

// Whether these bytes begin a policy behind the white space that a line begins with.
fn begins_line(is_margin: bool, bytes: &[u8]) -> bool
    ensures { result ≡ (is_margin && begins_policy bytes.now) }
{
    is_margin && begins_policy(bytes)
}

// Whether a byte ends a line, or goes on with the white space that a line begins with.
fn margin_behind(is_margin: bool, byte: u8) -> bool
    ensures { result ≡ (is_line_feed byte || (is_margin && is_ascii_whitespace byte)) }
{
    byte == b'\n' || (is_margin && byte.is_ascii_whitespace())
}

// Whether bytes begin with the first word or sign of a policy.
fn begins_policy(bytes: &[u8]) -> bool
    ensures { result ≡ begins_policy bytes.now }
{
    bytes.starts_with(b"permit") || bytes.starts_with(b"forbid") || bytes.starts_with(b"@")
}

// A text up to its bad place; the whole of a text without one.
fn up_to(text: &str, bad_place: Option<usize>) -> &str
    requires { IfSome bad_place (λ place. (place < length text.now)
        × IsCharBoundary text.now place) }
    ensures { Holds text.now result.now bad_place }
{
    match bad_place {
        Some(place) => through(text, place),
        None => text,
    }
}

// A text up to a byte and with the character there.
fn through(text: &str, place: usize) -> &str
    requires within { place < length text.now }
    requires boundary { IsCharBoundary text.now place }
    ensures part { IsPartAt text.now 0 result.now }
    ensures holds { place < length result.now }
{
    match text[place..].chars().next() {
        Some(c) => &text[..place + c.len_utf8()],
        None => text,
    }
}

impl Piece<'_> {
    // Its bad place, as a byte of the text.
    fn next_bad_place(&self) -> Option<usize>
        requires { IfSome self.now.bad_place (λ bad. self.now.start + bad < 2 ^ 64) }
        ensures { result ≡ option_map (λ bad. self.now.start + bad) self.now.bad_place }
    {
        match self.bad_place {
            Some(place) => Some(self.start + place),
            None => None,
        }
    }
}

// Adds the findings of pieces of a text.
fn add_pieces(
    alloc: Global,
    lines: &Lines<'_>,
    pieces: &[Piece<'_>],
    styles: &ExtStyles,
    findings: &mut Vec<Finding>,
) -> Result<(), AllocError>
    ensures { OnOk result ((rest : List Told) × (findings.new.items ≡ findings.old.items ++ rest)
        × TellsPieces (table_of styles.now) lines.now.text.now pieces.now rest) }
{
    for piece in pieces {
        add_piece(alloc, lines, piece, styles, findings)?;
    }
    Ok(())
}

// Adds the findings of a piece of a text.
fn add_piece(
    alloc: Global,
    lines: &Lines<'_>,
    piece: &Piece<'_>,
    styles: &ExtStyles,
    findings: &mut Vec<Finding>,
) -> Result<(), AllocError>
    ensures { OnOk result ((rest : List Told) × (findings.new.items ≡ findings.old.items ++ rest)
        × TellsPiece (table_of styles.now) lines.now.text.now piece.now rest) }
{
    let Some(faults) = faults_alone(alloc, piece.text, styles)? else {
        return Ok(());
    };
    let told = Report::under(alloc, "", piece.text, &faults, styles)?;
    add_moved(alloc, lines, piece.start, told.findings, findings)
}

// The faults for which a text is refused; `None` where it means policies.
fn faults_alone(
    alloc: Global,
    text: &str,
    styles: &ExtStyles,
) -> Result<Option<ParseErrors>, AllocError>
    ensures { IfOk result (MeansOrRefuses (table_of styles.now) text.now) }
{
    match parse_policyset(alloc, text, styles) {
        Ok(_) => Ok(None),
        Err(Failure::Memory(error)) => Err(error),
        Err(Failure::Errors(faults)) => Ok(Some(faults)),
    }
}

// Adds the findings of a piece that begins at a byte of a text.
fn add_moved(
    alloc: Global,
    lines: &Lines<'_>,
    start: usize,
    told: Vec<Finding>,
    findings: &mut Vec<Finding>,
) -> Result<(), AllocError>
    ensures { OnOk result ((rest : List Told) × (findings.new.items ≡ findings.old.items ++ rest)
        × AllZip (IsMoved lines.now.text.now start) told.items rest) }
{
    for finding in told {
        findings.push(finding.moved(alloc, lines, start)?)?;
    }
    Ok(())
}

impl Finding {
    // A finding of a piece of a text that begins at a byte, as one of the text.
    fn moved(self, alloc: Global, lines: &Lines<'_>, start: usize) -> Result<Finding, AllocError>
        ensures { IfOk result (λ finding. IsMoved lines.now.text.now start self finding) }
    {
        let related = moved_related(alloc, self.related, lines, start)?;
        Ok(Finding {
            code: self.code,
            extent: moved_range(&self.extent, lines, start),
            cause: moved_range(&self.cause, lines, start),
            message: self.message,
            label: self.label,
            help: self.help,
            expected: self.expected,
            related,
            follows: true,
        })
    }
}

fn moved_related(
    alloc: Global,
    related: Vec<Related>,
    lines: &Lines<'_>,
    start: usize,
) -> Result<Vec<Related>, AllocError>
    ensures { IfOk result (λ moved. AreRelatedSeen lines.now.text.now moved.items) }
{
    let mut moved = Vec::new(alloc);
    for other in related {
        moved.push(Related {
            extent: moved_extent(&other.extent, lines, start),
            text: other.text,
        })?;
    }
    Ok(moved)
}

fn moved_range(range: &Option<Extent>, lines: &Lines<'_>, start: usize) -> Option<Extent>
    ensures { IsMovedRange lines.now.text.now start range.now result }
{
    match range {
        Some(extent) => Some(moved_extent(extent, lines, start)),
        None => None,
    }
}

fn moved_extent(extent: &Extent, lines: &Lines<'_>, start: usize) -> Extent
    ensures { IsMovedExtent lines.now.text.now start extent.now result }
{
    Extent::of(
        lines,
        start.saturating_add(extent.start),
        start.saturating_add(extent.end),
    )
}
