//! Bytes that are no text, as a finding.
ghost use Rattle.std.specs.Prelude.{◌≡◌, ◌≤◌, [], None, false, IfOk, IsUtf8, MatchOption, codes, take, length};
ghost use Rattle.std.specs.Str.{IsValidUpTo};
ghost use Rattle.std.proofs.Common.{Some};
ghost use Rattle.cedar_report.specs.Encoding.{TellsEncoding};

use crate::finding::{Extent, Finding};
use crate::lines::Lines;
use crate::report::Report;
use std::alloc::{AllocError, Global};
use std::str;

impl<'a> Report<'a> {
    /// What is told of bytes that aren't UTF-8: one finding, whose kind is `NotUtf8`, at the first
    /// byte behind the text that they begin with, of which the lines are shown. `None` where they
    /// are UTF-8. Only want of memory refuses it.
    pub fn not_utf8(
        alloc: Global,
        name: &'a str,
        bytes: &'a [u8],
    ) -> Result<Option<Report<'a>>, AllocError>
        ensures name { IfOk result (λ told. MatchOption told (Unit {0})
            (λ report. report.name.now ≡ name.now)) }
        ensures told { IfOk result (λ told. MatchOption told (IsUtf8 bytes.now)
            (λ report. TellsEncoding bytes.now report.lines.text.now report.findings.items)) }
    {
        match str::from_utf8(bytes) {
            Ok(_) => Ok(None),
            Err(error) => Ok(Some(broken(alloc, name, bytes, error.valid_up_to())?)),
        }
    }
}

// The finding of bytes that are a text up to one of them.
fn broken<'a>(
    alloc: Global,
    name: &'a str,
    bytes: &'a [u8],
    end: usize,
) -> Result<Report<'a>, AllocError>
    requires no_text { ¬ (IsUtf8 bytes.now) }
    requires first { IsValidUpTo bytes.now end }
    ensures name { IfOk result (λ report. report.name.now ≡ name.now) }
    ensures told { IfOk result (λ report.
        TellsEncoding bytes.now report.lines.text.now report.findings.items) }
{
    let text = text_before(bytes, end);
    let lines = Lines::of(alloc, text)?;
    let at = Extent::of(&lines, end, end);
    let mut findings = Vec::new(alloc);
    findings.push(encoding_finding(alloc, bytes, at)?)?;
    Ok(Report {
        name,
        lines,
        findings,
    })
}

// The text that bytes begin with.
fn text_before(bytes: &[u8], end: usize) -> &str
    requires within { end ≤ length bytes.now }
    requires text { IsUtf8 (take end bytes.now) }
    ensures { result.now ≡ take end bytes.now }
{
    match str::from_utf8(&bytes[..end]) {
        Ok(text) => text,
        Err(_) => "",
    }
}

fn encoding_finding(alloc: Global, bytes: &[u8], at: Extent) -> Result<Finding, AllocError>
    ensures code { IfOk result (λ finding. finding.code.now ≡ codes "NotUtf8") }
    ensures range { IfOk result (λ finding. finding.extent ≡ Some at) }
    ensures cause { IfOk result (λ finding. finding.cause ≡ Some at) }
    ensures label { IfOk result (λ finding. finding.label ≡ None) }
    ensures expected { IfOk result (λ finding. finding.expected.items ≡ []) }
    ensures related { IfOk result (λ finding. finding.related.items ≡ []) }
    ensures follows { IfOk result (λ finding. finding.follows ≡ false) }
{
    let byte = bytes.get(at.start).copied().unwrap_or(0);
    Ok(Finding {
        code: "NotUtf8",
        extent: Some(at),
        cause: Some(at),
        message: format!(in alloc; "this is no UTF-8: the byte 0x{byte:02x} can't stand here")?,
        label: None,
        help: Some(String::from_str(alloc, "write the file as UTF-8")?),
        expected: Vec::new(alloc),
        related: Vec::new(alloc),
        follows: false,
    })
}
