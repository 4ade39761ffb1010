//! The findings of a text.
ghost use Rattle.std.specs.Prelude.{◌≡◌, IfOk};
ghost use Rattle.cedar_syntax.specs.faults.ParseErrors.{faults_of};
ghost use Rattle.cedar_report.specs.Findings.{AreTold};

use crate::finding::Finding;
use crate::lines::Lines;
use crate::told::{Before, Sources, tell};
use cedar_policy_parser::ExtStyles;
use cedar_syntax::err::ParseErrors;
use std::alloc::{AllocError, Global};

/// The faults of a text under a name, as they are told.
#[derive(Drop)]
pub struct Report<'a> {
    pub name: &'a str,
    pub lines: Lines<'a>,
    pub findings: Vec<Finding>,
}

impl<'a> Report<'a> {
    /// What is told of a text's faults: a finding for each, in their order, with its kind's name,
    /// its bytes, its message, and what could have stood there. What it may call isn't known: so
    /// hints offer Cedar's own names. Only want of memory refuses it.
    pub fn of(
        alloc: Global,
        name: &'a str,
        text: &'a str,
        faults: &ParseErrors,
    ) -> Result<Report<'a>, AllocError>
        ensures name { IfOk result (λ report. report.name.now ≡ name.now) }
        ensures text { IfOk result (λ report. report.lines.text.now ≡ text.now) }
        ensures told { IfOk result (λ report.
            AreTold text.now (faults_of faults.now) report.findings.items) }
    {
        Report::under(alloc, name, text, faults, &ExtStyles::cedar(alloc)?)
    }

    /// As `of`, and hints offer the names that these styles have.
    pub(crate) fn under(
        alloc: Global,
        name: &'a str,
        text: &'a str,
        faults: &ParseErrors,
        styles: &ExtStyles,
    ) -> Result<Report<'a>, AllocError>
        ensures name { IfOk result (λ report. report.name.now ≡ name.now) }
        ensures text { IfOk result (λ report. report.lines.text.now ≡ text.now) }
        ensures told { IfOk result (λ report.
            AreTold text.now (faults_of faults.now) report.findings.items) }
    {
        let sources = Sources::of(alloc, text, styles)?;
        let findings = findings(alloc, &sources, faults)?;
        Ok(Report {
            name,
            lines: sources.into_lines(),
            findings,
        })
    }

    /// The findings, in the faults' order.
    pub fn findings(&self) -> &[Finding]
        ensures { result.now ≡ self.now.findings.items }
    {
        self.findings.as_slice()
    }
}

fn findings(
    alloc: Global,
    sources: &Sources<'_, '_>,
    faults: &ParseErrors,
) -> Result<Vec<Finding>, AllocError>
    ensures { IfOk result (λ findings. AreTold sources.now.lines.text.now
        (faults_of faults.now) findings.items) }
{
    let mut findings = Vec::new(alloc);
    let mut before = Before {
        end: None,
        chain: None,
    };
    for fault in faults.iter() {
        findings.push(tell(alloc, sources, fault, &mut before)?)?;
    }
    Ok(findings)
}
