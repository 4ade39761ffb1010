//! A finding as a JSON object. Its fields stand in byte order; docs/USING.md tells them.
ghost use Rattle.std.specs.Prelude.{◌≡◌, Some, flat_map, string_bytes, IfOk, OnOk};
ghost use Rattle.std.specs.Fmt.{WritesInCalls};
ghost use Rattle.std.specs.List.{AllByRecursion};
ghost use Rattle.serde_json.specs.View.{view};
ghost use Rattle.serde_json.specs.Read.{read};
ghost use Rattle.cedar_report.specs.JsonLines.{finding_data, json_text, json_line, related_data, range_data, place_data, optional_text_data, optional_range_data, names_data, related_list_data};

use crate::finding::{Extent, Finding, Related};
use crate::lines::Spot;
use crate::report::Report;
use cedar_lexer::token::TokenKind;
use serde_json::{Value, json};
use std::alloc::{AllocError, Global};
use std::fmt;

impl Report<'_> {
    /// Writes each finding as a JSON object, a line each. It fails where the writer does, and for
    /// want of memory.
    pub fn write_json<W: fmt::Write>(&self, alloc: Global, out: &mut W) -> fmt::Result
        ensures { OnOk result (WritesInCalls W.write_str_gives out.old
            (flat_map (json_line self.now.name.now) self.now.findings.items) out.new) }
    {
        for finding in self.findings() {
            let line = finding.json(alloc, self.name)?;
            writeln!(out, "{line}")?;
        }
        Ok(())
    }
}

impl Finding {
    /// The finding as a JSON object in one line, without a line feed, under the name of its text.
    /// Only want of memory refuses it.
    pub fn json(&self, alloc: Global, name: &str) -> Result<String, AllocError>
        ensures text { IfOk result (λ line.
            string_bytes line ≡ json_text name.now self.now) }
        ensures reads_back { IfOk result (λ line.
            read (string_bytes line) ≡ Some (finding_data name.now self.now)) }
        ensures one_line { IfOk result (λ line.
            AllByRecursion (λ byte. ¬ (byte ≡ 10)) (string_bytes line)) }
    {
        self.to_value(alloc, name)?.to_string(alloc)
    }

    // The finding as a value of JSON.
    fn to_value(&self, alloc: Global, name: &str) -> Result<Value, AllocError>
        ensures { IfOk result (λ value. view value ≡ finding_data name.now self.now) }
    {
        let cause = optional_range(alloc, &self.cause)?;
        let expected = names(alloc, self.expected.as_slice())?;
        let help = optional_text(alloc, &self.help)?;
        let label = optional_text(alloc, &self.label)?;
        let range = optional_range(alloc, &self.extent)?;
        let related = related_list(alloc, self.related.as_slice())?;
        json!(in alloc; {
            "cause": cause,
            "code": self.code,
            "expected": expected,
            "file": name,
            "follows": self.follows,
            "help": help,
            "label": label,
            "message": &self.message,
            "range": range,
            "related": related,
            "severity": "error"
        })
    }
}

fn names(alloc: Global, kinds: &[TokenKind]) -> Result<Value, AllocError>
    ensures { IfOk result (λ value. view value ≡ names_data kinds.now) }
{
    let mut names = Vec::new(alloc);
    for kind in kinds {
        names.push(Value::try_from_str(alloc, kind.name())?)?;
    }
    Ok(Value::Array(names))
}

fn related_list(alloc: Global, related: &[Related]) -> Result<Value, AllocError>
    ensures { IfOk result (λ value. view value ≡ related_list_data related.now) }
{
    let mut places = Vec::new(alloc);
    for other in related {
        places.push(related_place(alloc, other)?)?;
    }
    Ok(Value::Array(places))
}

fn related_place(alloc: Global, other: &Related) -> Result<Value, AllocError>
    ensures { IfOk result (λ value. view value ≡ related_data other.now) }
{
    let range = other.extent.json(alloc)?;
    json!(in alloc; {"message": &other.text, "range": range})
}

fn optional_text(alloc: Global, text: &Option<String>) -> Result<Value, AllocError>
    ensures { IfOk result (λ value. view value ≡ optional_text_data text.now) }
{
    match text {
        Some(text) => Value::try_from_str(alloc, text.as_str()),
        None => Ok(Value::Null),
    }
}

fn optional_range(alloc: Global, extent: &Option<Extent>) -> Result<Value, AllocError>
    ensures { IfOk result (λ value. view value ≡ optional_range_data extent.now) }
{
    match extent {
        Some(extent) => extent.json(alloc),
        None => Ok(Value::Null),
    }
}

impl Extent {
    /// The range as a JSON object, each end with its byte, its line and its columns. It is refused
    /// for want of memory alone.
    pub fn json(&self, alloc: Global) -> Result<Value, AllocError>
        ensures { IfOk result (λ value. view value ≡ range_data self.now) }
    {
        let end = place(alloc, self.end, &self.to)?;
        let start = place(alloc, self.start, &self.from)?;
        json!(in alloc; {"end": end, "start": start})
    }
}

fn place(alloc: Global, byte: usize, spot: &Spot) -> Result<Value, AllocError>
    ensures { IfOk result (λ value. view value ≡ place_data byte spot.now) }
{
    let (byte, line) = (byte as u64, spot.line as u64);
    let (column, utf16) = (spot.column as u64, spot.utf16 as u64);
    json!(in alloc; {"byte": byte, "column": column, "line": line, "utf16": utf16})
}
