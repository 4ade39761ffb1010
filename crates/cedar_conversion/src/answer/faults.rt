//! Faults one behind another, and places within a place.
ghost use Rattle.std.specs.Prelude.{◌≡◌, ◌⊎◌, List, [], ◌∷◌, ◌++◌, IfOk, Ok};
ghost use Rattle.cedar_conversion.specs.outcome.Places.{bytes_within as within, place_within as within_place};
ghost use Rattle.cedar_syntax.specs.declared.err.faults.ParseError.TheVariants.{ToAST};
ghost use Rattle.cedar_conversion.specs.outcome.Outcome.{NamedFault, Outcome, both, next, faults_outcome};
ghost use Rattle.cedar_conversion.specs.outcome.Seen.{Gives, Refuses, named_fault};
ghost use Rattle.cedar_syntax.specs.faults.ParseErrors.{IsMemory};
ghost use Rattle.cedar_syntax.specs.faults.Joined.{WantsMemory};
ghost use Rattle.cedar_conversion.specs.machines.Views.{empty_view};

use crate::answer::failure::{BoxedFailure, flatten_tuple_2};
use cedar_expressions::{Place, TryClone};
use cedar_syntax::err::{ParseErrors, ToASTError};
use cedar_syntax::loc::{Loc, SourceSpan};
use std::alloc::{AllocError, Global};

/// One more fault, behind those so far if there are any.
pub fn add_fault(
    alloc: Global,
    all: Result<(), BoxedFailure>,
    fault: Result<ToASTError, AllocError>,
) -> Result<(), BoxedFailure>
    ensures told { (faults : List NamedFault) (one : NamedFault)
        → Gives empty_view all (faults_outcome faults)
        → IfOk fault (λ made. named_fault (ToAST made) ≡ one)
        → Gives empty_view result (faults_outcome (faults ++ one ∷ [])) }
    ensures memory { WantsMemory all → WantsMemory result }
{
    let fault = BoxedFailure::of_errors(alloc, ParseErrors::from_ast(alloc, fault?));
    let refused: Result<(), BoxedFailure> = Err(fault);
    let ((), ()) = flatten_tuple_2(all, refused)?;
    Ok(())
}

/// The faults so far, and those of one part more.
pub fn add_refusal(all: Result<(), BoxedFailure>, failure: BoxedFailure) -> Result<(), BoxedFailure>
    ensures told { (o p : Outcome (Unit {0})) → Gives empty_view all o → Refuses failure p
        → Gives empty_view result (next (both o p) (λ _. Ok tt)) }
    ensures memory { WantsMemory all ⊎ IsMemory failure → WantsMemory result }
{
    let refused: Result<(), BoxedFailure> = Err(failure);
    let ((), ()) = flatten_tuple_2(all, refused)?;
    Ok(())
}

/// These bytes of the same text where they lie within a place, else that place.
fn bytes_within(loc: &Loc, bytes: Place) -> Result<Loc, AllocError>
    ensures { IfOk result (λ place. place ≡ within loc.now bytes) }
{
    match SourceSpan::new(bytes.offset, bytes.length) {
        Some(span) if loc.start() <= span.offset() && span.end() <= loc.end() => loc.span(span),
        _ => loc.try_clone(),
    }
}

/// The same where both are known, else the place.
pub fn place_within(place: &Option<Loc>, bytes: Option<Place>) -> Result<Option<Loc>, AllocError>
    ensures { IfOk result (λ within. within ≡ within_place place.now bytes) }
{
    match (place, bytes) {
        (Some(loc), Some(bytes)) => Ok(Some(bytes_within(loc, bytes)?)),
        _ => place.try_clone(),
    }
}
