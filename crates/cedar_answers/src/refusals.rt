//! Answers with a text, or with the faults of a failure.
ghost use Rattle.std.specs.Prelude.{◌≡◌, [], IfOk, IfErr, string_bytes};
ghost use Rattle.cedar_answers.specs.Answers.{TellsFailure, TellsNothing, TellsText};

use crate::answer::{ACCEPTED, CedarAnswer, CedarFault, NO_MEMORY, REFUSED, bare};
use crate::faults::told_faults;
use crate::texts::handed_text;
use cedar_policy_parser::err::Failure;
use std::alloc::{AllocError, Global};

/// An answer with a text alone.
pub(crate) fn with_text(text: String) -> CedarAnswer
    ensures status { result.status ≡ 0 }
    ensures told { TellsText (λ told. told ≡ string_bytes text) result }
{
    CedarAnswer {
        text: handed_text(text),
        ..bare(ACCEPTED)
    }
}

/// An answer with the faults of a failure, told over the text that has them; or want of memory.
pub(crate) fn refused(alloc: Global, text: &str, failure: &Failure) -> CedarAnswer
    ensures { TellsFailure text.now failure.now result }
{
    match failure {
        Failure::Memory(_) => bare(NO_MEMORY),
        Failure::Errors(faults) => with_faults(told_faults(alloc, text, faults)),
    }
}

/// An answer with these faults, or want of memory.
fn with_faults(faults: Result<&'static [CedarFault], AllocError>) -> CedarAnswer
    ensures ok { IfOk faults.entry (λ told. (result.status ≡ 1) × (result.faults.now ≡ told.now)
        × (result.policies.now ≡ []) × (result.text.now ≡ [])) }
    ensures err { IfErr faults.entry (λ error. (result.status ≡ 3) × TellsNothing result) }
{
    match faults {
        Ok(faults) => CedarAnswer {
            faults,
            ..bare(REFUSED)
        },
        Err(_) => bare(NO_MEMORY),
    }
}
