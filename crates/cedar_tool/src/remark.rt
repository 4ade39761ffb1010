//! What the program itself finds in a text, where the parser has no say.
ghost use Rattle.std.specs.Prelude.{◌≡◌, [], false, Some, None, IfOk, OnOk, nat_eq, string_bytes};
ghost use Rattle.std.specs.List.{common_prefix_len};
ghost use Rattle.cedar_tool.specs.Told.{AddsReport, TellsLayout};

use crate::request::Format;
use cedar_report::{Extent, Finding, Lines, Report};
use std::alloc::{AllocError, Global};
use std::fmt;

/// Where a text and what it is laid out as part.
pub(crate) fn not_laid_out<'a>(
    alloc: Global,
    name: &'a str,
    text: &'a str,
    laid: &str,
) -> Result<Report<'a>, AllocError>
    ensures name { IfOk result (λ report. report.name.now ≡ name.now) }
    ensures tells { IfOk result (λ report.
        TellsLayout text.now laid.now report.findings.items) }
{
    let lines = Lines::of(alloc, text)?;
    let byte = common(text.as_bytes(), laid.as_bytes());
    let at = Extent::of(&lines, byte, byte);
    let line = at.from.line;
    let message = format!(in alloc; "line {line} isn't laid out as `cedar format` lays it out")?;
    let help =
        "`cedar format`, with the same `-l` and `-i`, lays it out; with `-w` in the file itself";
    let mut findings = Vec::new(alloc);
    findings.push(finding(alloc, "NotFormatted", at, message, help)?)?;
    Ok(Report {
        name,
        lines,
        findings,
    })
}

/// How many bytes two texts have in common before they part.
fn common(text: &[u8], other: &[u8]) -> usize
    ensures { result ≡ common_prefix_len nat_eq text.now other.now }
{
    let shorter = text.len().min(other.len());
    for index in 0..shorter {
        if text[index] != other[index] {
            return index;
        }
    }
    shorter
}

fn finding(
    alloc: Global,
    code: &'static str,
    at: Extent,
    message: String,
    help: &str,
) -> Result<Finding, AllocError>
    ensures code { IfOk result (λ finding. finding.code.now ≡ code.now) }
    ensures range { IfOk result (λ finding. finding.extent ≡ Some at) }
    ensures cause { IfOk result (λ finding. finding.cause ≡ Some at) }
    ensures label { IfOk result (λ finding. finding.label ≡ None) }
    ensures expected { IfOk result (λ finding. finding.expected.items ≡ []) }
    ensures related { IfOk result (λ finding. finding.related.items ≡ []) }
    ensures follows { IfOk result (λ finding. finding.follows ≡ false) }
{
    Ok(Finding {
        code,
        extent: Some(at),
        cause: Some(at),
        message,
        label: None,
        help: Some(String::from_str(alloc, help)?),
        expected: Vec::new(alloc),
        related: Vec::new(alloc),
        follows: false,
    })
}

/// A report as it is asked for. Only want of memory refuses it.
pub(crate) fn told(alloc: Global, report: &Report<'_>, format: Format) -> Result<String, AllocError>
    ensures { IfOk result (λ told. AddsReport format report.now.name.now
        report.now.findings.items [] (string_bytes told)) }
{
    let mut told = String::new(alloc);
    match written(alloc, report, format, &mut told) {
        Ok(()) => Ok(told),
        // A text in memory is written to, which fails for nothing else.
        Err(_) => Err(AllocError),
    }
}

/// Writes a report, as it is asked for, behind what a text holds.
fn written(alloc: Global, report: &Report<'_>, format: Format, told: &mut String) -> fmt::Result
    ensures { OnOk result (AddsReport format report.now.name.now report.now.findings.items
        (string_bytes told.old) (string_bytes told.new)) }
{
    match format {
        Format::Json => report.write_json(alloc, told),
        Format::Plain => report.write_plain(told),
        Format::Human(_) => report.write_human(format.palette(), told),
    }
}
