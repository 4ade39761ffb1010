//! The faults of a text as `cedar_report` finds them, in two steps as its policies.
ghost use Rattle.std.specs.Prelude.{◌≡◌, ◌≤◌, [], length, map, IfOk};
ghost use Rattle.std.specs.List.{AllZip};
ghost use Rattle.std.specs.Vec.{vec_capacity};
ghost use Rattle.cedar_lexer.specs.Names.{kind_name};
ghost use Rattle.cedar_syntax.specs.faults.ParseErrors.{faults_of};
ghost use Rattle.cedar_answers.specs.Faults.{AreFaultsTold, IsFaultRead, related_found, related_read};
ghost use Rattle.cedar_answers.specs.Made.{finding_of};

use crate::answer::{CedarFault, CedarRelated};
use crate::made::MadeFault;
use crate::places::{range_of, range_or_none};
use crate::texts::{handed_option, handed_text};
use cedar_lexer::token::TokenKind;
use cedar_policy_parser::err::ParseErrors;
use cedar_report::{Finding, Related, Report};
use std::alloc::{AllocError, Global};

/// The faults, told over the text that has them, handed out.
pub(crate) fn told_faults(
    alloc: Global,
    text: &str,
    faults: &ParseErrors,
) -> Result<&'static [CedarFault], AllocError>
    ensures { IfOk result (λ told. AreFaultsTold text.now (faults_of faults.now) told.now) }
{
    let report = Report::of(alloc, "", text, faults)?;
    let made = made_faults(alloc, report.findings)?;
    let room = Vec::with_capacity(alloc, made.len())?;
    Ok(handed_faults(made, room))
}

/// The findings with their names and rooms.
fn made_faults(alloc: Global, findings: Vec<Finding>) -> Result<Vec<MadeFault>, AllocError>
    ensures { IfOk result (λ made. map finding_of made.items ≡ findings.items) }
{
    let mut all = Vec::with_capacity(alloc, findings.len())?;
    for finding in findings {
        all.push(made_fault(alloc, finding)?)?;
    }
    Ok(all)
}

fn made_fault(alloc: Global, finding: Finding) -> Result<MadeFault, AllocError>
    ensures { IfOk result (λ made. finding_of made ≡ finding) }
{
    let expected = kind_names(alloc, finding.expected.as_slice())?;
    let room = Vec::with_capacity(alloc, finding.related.len())?;
    Ok(MadeFault {
        finding,
        expected,
        room,
    })
}

/// The names of kinds of token.
fn kind_names(alloc: Global, kinds: &[TokenKind]) -> Result<Vec<&'static [u8]>, AllocError>
    ensures { IfOk result (λ names. map (λ name. name.now) names.items ≡ map kind_name kinds.now) }
{
    let mut names = Vec::with_capacity(alloc, kinds.len())?;
    for kind in kinds {
        names.push(kind.name().as_bytes())?;
    }
    Ok(names)
}

/// Hands all out; there is room for it.
fn handed_faults(made: Vec<MadeFault>, room: Vec<CedarFault>) -> &'static [CedarFault]
    requires fits { length made.items ≤ vec_capacity room }
    requires empty { room.items ≡ [] }
    ensures { AllZip IsFaultRead (map finding_of made.items) result.now }
{
    let mut all = room;
    for fault in made {
        all.push_reserved(handed_fault(fault));
    }
    all.leak()
}

fn handed_fault(fault: MadeFault) -> CedarFault
    ensures { IsFaultRead (finding_of fault) result }
{
    let finding = fault.finding;
    CedarFault {
        kind: finding.code.as_bytes(),
        message: handed_text(finding.message),
        label: handed_option(finding.label),
        help: handed_option(finding.help),
        expected: fault.expected.leak(),
        related: handed_related(finding.related, fault.room),
        place: range_or_none(finding.extent),
        cause: range_or_none(finding.cause),
        has_place: finding.extent.is_some(),
        follows: finding.follows,
    }
}

/// Hands the other places out; there is room for it.
fn handed_related(made: Vec<Related>, room: Vec<CedarRelated>) -> &'static [CedarRelated]
    requires fits { length made.items ≤ vec_capacity room }
    requires empty { room.items ≡ [] }
    ensures { map related_read result.now ≡ map related_found made.items }
{
    let mut all = room;
    for related in made {
        all.push_reserved(handed_place(related));
    }
    all.leak()
}

fn handed_place(related: Related) -> CedarRelated
    ensures { related_read result ≡ related_found related }
{
    CedarRelated {
        place: range_of(related.extent),
        text: handed_text(related.text),
    }
}
