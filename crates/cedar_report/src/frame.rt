//! Lines of a text with their numbers, and marks under them.
ghost use Rattle.std.specs.Prelude.{◌≡◌, ◌-◌, slice_get};
ghost use Rattle.cedar_report.specs.Spots.{spot_of, lines_of, IsShownLine};

use crate::finding::Extent;
use crate::glyph::{Escaped, column_behind, columns, repeat, write_shown};
use crate::human::{Palette, digits};
use crate::lines::Lines;
use crate::tokens::part;
use std::fmt;

/// How many columns of a source line are shown.
const SHOWN: usize = 110;

/// How many bytes stand before the mark where a line is cut.
const BEFORE: usize = 40;

/// A mark under a line: from one byte of the text up to another, and what is said there.
#[derive(Clone, Copy)]
pub struct Mark<'a> {
    extent: &'a Extent,
    sign: &'static str,
    colour: &'static str,
    text: &'a str,
}

impl<'a> Mark<'a> {
    /// The mark of a cause.
    pub fn main(palette: Palette, extent: &'a Extent, text: &'a str) -> Mark<'a> {
        Mark {
            extent,
            sign: "^",
            colour: palette.error,
            text,
        }
    }

    /// The mark of another place.
    pub fn side(palette: Palette, extent: &'a Extent, text: &'a str) -> Mark<'a> {
        Mark {
            extent,
            sign: "-",
            colour: palette.frame,
            text,
        }
    }
}

/// What is written so far: the width of line numbers, and the last line shown with the byte from
/// which it is shown.
#[derive(Drop)]
pub struct Frame<'l, 'a> {
    lines: &'l Lines<'a>,
    pub palette: Palette,
    width: usize,
    last: Option<(usize, usize)>,
}

/// A part of a line: the line's number, counted from 0, its text, and the bytes of the part in it.
#[derive(Clone, Copy)]
struct Span<'a> {
    number: usize,
    source: &'a str,
    from: usize,
    to: usize,
}

impl<'l, 'a> Frame<'l, 'a> {
    /// Nothing so far.
    pub fn of(lines: &'l Lines<'a>, palette: Palette, width: usize) -> Frame<'l, 'a> {
        Frame {
            lines,
            palette,
            width,
            last: None,
        }
    }

    /// Writes a margin with nothing behind it.
    pub fn write_gap<W: fmt::Write>(&self, out: &mut W) -> fmt::Result {
        self.write_gutter(out)?;
        out.write_str("\n")
    }

    // The margin of a line without a number.
    fn write_gutter<W: fmt::Write>(&self, out: &mut W) -> fmt::Result {
        out.write_str(self.palette.frame)?;
        repeat(out, " ", self.width)?;
        write!(out, " |{}", self.palette.off)
    }

    // The margin of a line with its number.
    fn write_number<W: fmt::Write>(&self, out: &mut W, line: usize) -> fmt::Result {
        let number = line.saturating_add(1);
        write!(out, "{}{number}", self.palette.frame)?;
        repeat(out, " ", self.width.saturating_sub(digits(number)))?;
        write!(out, " |{}", self.palette.off)
    }

    /// Writes a mark under its line; one over several lines under the first and the last.
    pub fn mark<W: fmt::Write>(&mut self, out: &mut W, mark: &Mark<'_>) -> fmt::Result {
        let extent = mark.extent;
        if extent.from.line == extent.to.line {
            let span = self.span(extent.start, extent.end);
            return self.write_marked(out, span, mark, mark.text);
        }
        let first = self.span(extent.start, usize::MAX);
        self.write_marked(out, first, mark, "")?;
        let last = self.last_span(extent.end);
        self.write_marked(out, last, mark, mark.text)
    }

    // What of a line stands from one of its bytes up to another: the line is that in which people
    // see the first.
    fn span(&self, start: usize, end: usize) -> Span<'a>
        ensures number { result.number
            ≡ (spot_of self.now.lines.now.text.now start).line - 1 }
        ensures source { IsShownLine (slice_get (lines_of self.now.lines.now.text.now)
            result.number) result.source.now }
    {
        let station = self.lines.station(start);
        let number = station.spot.line.saturating_sub(1);
        let source = self.lines.shown(number);
        let from = start.saturating_sub(station.line_start).min(source.len());
        let to = end
            .saturating_sub(station.line_start)
            .min(source.len())
            .max(from);
        Span {
            number,
            source,
            from,
            to,
        }
    }

    // What of a line stands before one of its bytes, without the space that it begins with.
    fn last_span(&self, end: usize) -> Span<'a>
        ensures number { result.number
            ≡ (spot_of self.now.lines.now.text.now end).line - 1 }
        ensures source { IsShownLine (slice_get (lines_of self.now.lines.now.text.now)
            result.number) result.source.now }
    {
        let whole = self.span(end, end);
        let indent = whole
            .source
            .len()
            .saturating_sub(whole.source.trim_start().len());
        Span {
            number: whole.number,
            source: whole.source,
            from: indent.min(whole.from),
            to: whole.from,
        }
    }

    fn write_marked<W: fmt::Write>(
        &mut self,
        out: &mut W,
        span: Span<'_>,
        mark: &Mark<'_>,
        text: &str,
    ) -> fmt::Result {
        let cut = self.cut(span);
        self.write_source(out, span, cut)?;
        self.write_gutter(out)?;
        let before = columns(part(span.source, cut, span.from), 0, SHOWN);
        let behind = columns(part(span.source, span.from, span.to), before, SHOWN);
        let skipped = if cut > 0 { 2 } else { 1 };
        repeat(out, " ", before.saturating_add(skipped))?;
        out.write_str(mark.colour)?;
        let room = SHOWN.saturating_sub(before).max(1);
        let len = behind.saturating_sub(before).max(1).min(room);
        repeat(out, mark.sign, len)?;
        if !text.is_empty() {
            write!(out, " {}", Escaped(text))?;
        }
        writeln!(out, "{}", self.palette.off)
    }

    // The byte from which a line is shown: as before where it is shown already and the part's first
    // byte is seen.
    fn cut(&self, span: Span<'_>) -> usize {
        match self.last {
            Some((line, cut)) if line == span.number && self.is_seen(span, cut) => cut,
            _ => cut_of(span.source, span.from),
        }
    }

    fn is_seen(&self, span: Span<'_>, cut: usize) -> bool {
        cut <= span.from && columns(part(span.source, cut, span.from), 0, SHOWN) < SHOWN
    }

    // The line itself, unless it is the last one shown.
    fn write_source<W: fmt::Write>(
        &mut self,
        out: &mut W,
        span: Span<'_>,
        cut: usize,
    ) -> fmt::Result {
        if self.last == Some((span.number, cut)) {
            return Ok(());
        }
        let palette = self.palette;
        if let Some((before, _)) = self.last {
            if before.saturating_add(1) < span.number || span.number < before {
                writeln!(out, "{}...{}", palette.frame, palette.off)?;
            }
        }
        self.last = Some((span.number, cut));
        self.write_number(out, span.number)?;
        if cut > 0 {
            out.write_str("…")?;
        }
        out.write_str(" ")?;
        write_window(out, part(span.source, cut, span.source.len()))?;
        out.write_str("\n")
    }
}

// The byte from which a line is shown, so that the one at `at` is seen.
fn cut_of(source: &str, at: usize) -> usize {
    if source.len() <= SHOWN || at <= BEFORE {
        return 0;
    }
    let mut from = at.saturating_sub(BEFORE);
    for _ in 0..4u8 {
        if source.is_char_boundary(from) {
            return from;
        }
        from = from.saturating_sub(1);
    }
    from
}

// What of a line fits.
fn write_window<W: fmt::Write>(out: &mut W, source: &str) -> fmt::Result {
    let mut column = 0usize;
    for c in source.chars() {
        let behind = column_behind(c, column);
        if behind > SHOWN {
            return out.write_str("…");
        }
        write_shown(out, c, column)?;
        column = behind;
    }
    Ok(())
}
