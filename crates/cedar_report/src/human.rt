//! A finding as people read it: what it is, its lines with marks under them, and the help.

use crate::finding::{Extent, Finding, Related};
use crate::frame::{Frame, Mark};
use crate::glyph::{Escaped, repeat};
use crate::report::Report;
use std::fmt;

/// What switches colours; the empty texts for none.
#[derive(Debug, Clone, Copy)]
pub struct Palette {
    pub error: &'static str,
    pub frame: &'static str,
    pub note: &'static str,
    pub off: &'static str,
}

impl Palette {
    /// No colours.
    pub fn plain() -> Palette {
        Palette {
            error: "",
            frame: "",
            note: "",
            off: "",
        }
    }

    /// Colours by the codes that terminals know.
    pub fn ansi() -> Palette {
        Palette {
            error: "\u{1b}[1;31m",
            frame: "\u{1b}[1;34m",
            note: "\u{1b}[1;36m",
            off: "\u{1b}[0m",
        }
    }
}

impl Report<'_> {
    /// Writes each finding with its lines, and an empty line behind it: the message, the place of
    /// the cause, its line with a mark under it, the lines of other places, the help. Of a finding
    /// that follows it writes one line. It fails where the writer does.
    pub fn write_human<W: fmt::Write>(&self, palette: Palette, out: &mut W) -> fmt::Result {
        for finding in self.findings() {
            if finding.follows {
                write_follower(out, self.name, palette, finding)?;
            } else {
                self.write_finding(out, palette, finding)?;
            }
        }
        Ok(())
    }

    fn write_finding<W: fmt::Write>(
        &self,
        out: &mut W,
        palette: Palette,
        finding: &Finding,
    ) -> fmt::Result {
        write_title(out, palette, finding)?;
        let Some(cause) = &finding.cause else {
            return write_help(out, palette, 1, finding);
        };
        let width = digits(largest_line(finding, cause));
        write_place(out, self.name, palette, width, cause)?;
        let mut frame = Frame::of(&self.lines, palette, width);
        frame.write_gap(out)?;
        write_marks(out, &mut frame, finding, cause)?;
        frame.write_gap(out)?;
        write_help(out, palette, width, finding)
    }
}

fn write_title<W: fmt::Write>(out: &mut W, palette: Palette, finding: &Finding) -> fmt::Result {
    let message = Escaped(finding.message.as_str());
    writeln!(out, "{}error{}: {message}", palette.error, palette.off)
}

// The line that tells where the cause stands.
fn write_place<W: fmt::Write>(
    out: &mut W,
    name: &str,
    palette: Palette,
    width: usize,
    cause: &Extent,
) -> fmt::Result {
    repeat(out, " ", width)?;
    let (line, column) = (cause.from.line, cause.from.column);
    let name = Escaped(name);
    writeln!(
        out,
        "{}-->{} {name}:{line}:{column}",
        palette.frame, palette.off
    )
}

// One line of a fault that may be no mistake of its own.
fn write_follower<W: fmt::Write>(
    out: &mut W,
    name: &str,
    palette: Palette,
    finding: &Finding,
) -> fmt::Result {
    write!(
        out,
        "{}note{}: {}",
        palette.note,
        palette.off,
        Escaped(name)
    )?;
    if let Some(cause) = &finding.cause {
        write!(out, ":{}:{}", cause.from.line, cause.from.column)?;
    }
    let message = Escaped(finding.message.as_str());
    writeln!(out, ": {message}, which may follow from the fault before\n")
}

// The help, and an empty line.
fn write_help<W: fmt::Write>(
    out: &mut W,
    palette: Palette,
    width: usize,
    finding: &Finding,
) -> fmt::Result {
    if let Some(help) = &finding.help {
        repeat(out, " ", width)?;
        let help = Escaped(help.as_str());
        writeln!(out, " {}= help:{} {help}", palette.note, palette.off)?;
    }
    out.write_str("\n")
}

// The largest number of a line that is shown.
fn largest_line(finding: &Finding, cause: &Extent) -> usize {
    let mut largest = cause.to.line;
    if let Some(extent) = &finding.extent {
        largest = largest.max(extent.to.line);
    }
    for other in finding.related.iter() {
        largest = largest.max(other.extent.to.line);
    }
    largest
}

/// How many digits a number has.
pub fn digits(number: usize) -> usize {
    let mut rest = number;
    let mut count = 1;
    for more in 2..21usize {
        if rest < 10 {
            return count;
        }
        rest /= 10;
        count = more;
    }
    count
}

// The marks by their lines: those of other places before the cause's, it, and those behind it.
fn write_marks<W: fmt::Write>(
    out: &mut W,
    frame: &mut Frame<'_, '_>,
    finding: &Finding,
    cause: &Extent,
) -> fmt::Result {
    for other in finding.related.iter() {
        if other.extent.start < cause.start {
            write_related(out, frame, other)?;
        }
    }
    write_cause(out, frame, finding, cause)?;
    for other in finding.related.iter() {
        if other.extent.start >= cause.start {
            write_related(out, frame, other)?;
        }
    }
    Ok(())
}

fn write_related<W: fmt::Write>(
    out: &mut W,
    frame: &mut Frame<'_, '_>,
    other: &Related,
) -> fmt::Result {
    frame.mark(
        out,
        &Mark::side(frame.palette, &other.extent, other.text.as_str()),
    )
}

// The cause, and where the parser stopped if that is elsewhere.
fn write_cause<W: fmt::Write>(
    out: &mut W,
    frame: &mut Frame<'_, '_>,
    finding: &Finding,
    cause: &Extent,
) -> fmt::Result {
    let label = match &finding.label {
        Some(label) => label.as_str(),
        None => "",
    };
    let palette = frame.palette;
    match stopped_elsewhere(finding, cause) {
        Some(extent) if !label.is_empty() => {
            frame.mark(out, &Mark::main(palette, cause, ""))?;
            frame.mark(out, &Mark::side(palette, extent, label))
        }
        Some(_) => frame.mark(out, &Mark::main(palette, cause, "")),
        None => frame.mark(out, &Mark::main(palette, cause, label)),
    }
}

// Where the parser stopped, if that isn't at the cause. A cause that is a gap is where the token
// straight behind it stopped the parser.
fn stopped_elsewhere<'a>(finding: &'a Finding, cause: &Extent) -> Option<&'a Extent> {
    let extent = finding.extent.as_ref()?;
    let is_gap = cause.start == cause.end;
    let is_behind = if is_gap {
        extent.start > cause.end.saturating_add(1)
    } else {
        extent.start >= cause.end
    };
    if is_behind || extent.end < cause.start {
        Some(extent)
    } else {
        None
    }
}
