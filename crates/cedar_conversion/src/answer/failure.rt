//! Why a part of a tree has no value, in two words of the machine.
//!
//! An answer goes up through each level of nesting and keeps a failure's room there, a value's
//! too. So faults stand in memory of their own here, and `told` gives the failure that the calls
//! on trees tell. `cedar_syntax::util` joins what is told.
ghost use Rattle.std.specs.Prelude.{◌≡◌, ◌⊎◌, ◌++◌, IfOk, IfErr, MatchResult};
ghost use Rattle.cedar_conversion.specs.outcome.Causes.{faults_in_order};
ghost use Rattle.cedar_syntax.specs.faults.Joined.{WantsMemory, TellsBoth, TellsAll, TellsFaults};
ghost use Rattle.cedar_syntax.specs.faults.ParseErrors.{faults_of, IsMemory};
ghost use Rattle.cedar_syntax.specs.declared.err.faults.Failure.TheVariants.{Errors};

use crate::answer::fault_deque::FaultDeque;
use cedar_expressions::Boxed;
use cedar_syntax::err::{self, ParseErrors};
use std::alloc::{AllocError, AllocFailed, Global};
use std::marker::Model;

/// Want of memory, or faults. Contracts see it as the failure that is told.
#[derive(Drop)]
pub struct BoxedFailure {
    cause: Cause,
}

/// What a failure holds.
#[derive(Drop)]
pub(crate) enum Cause {
    Memory(AllocError),
    Errors(Boxed<FaultDeque>),
}

impl Model for BoxedFailure {
    ghost use Rattle.cedar_syntax.specs.declared.err.faults.Failure.{Failure as Told};
    ghost use Rattle.cedar_syntax.specs.contracts.err.faults.Failure as whole;
    ghost use Rattle.cedar_conversion.specs.outcome.Causes.{told_cause};

    ghost Value = { Told };

    ghost coded = { whole.the_row.coded };

    ghost view = { λ failure. told_cause failure.cause };
}

impl BoxedFailure {
    /// These faults, or want of memory for them.
    #[cold]
    #[inline(never)]
    pub fn of_errors(alloc: Global, faults: ParseErrors) -> BoxedFailure
        ensures { TellsFaults result (faults_of faults) }
    {
        let cause = match Boxed::new(alloc, FaultDeque::new(alloc, faults)) {
            Ok(faults) => Cause::Errors(faults),
            Err(error) => Cause::Memory(error),
        };
        BoxedFailure { cause }
    }

    /// Want of memory, if it is that.
    fn go_on(&self) -> Result<(), AllocError>
        ensures { MatchResult result (λ _. IsMemory self.now → ⊥) (λ _. IsMemory self.now) }
    {
        match self.cause {
            Cause::Memory(error) => Err(error),
            Cause::Errors(_) => Ok(()),
        }
    }
}

/// Want of memory, if an answer is that: it ends the work where it is met.
pub fn go_on<T>(answer: &Result<T, BoxedFailure>) -> Result<(), AllocError>
    ensures { MatchResult result (λ _. WantsMemory answer.now → ⊥) (λ _. WantsMemory answer.now) }
{
    match answer {
        Ok(_) => Ok(()),
        Err(failure) => failure.go_on(),
    }
}

impl From<AllocError> for BoxedFailure {
    ghost use Rattle.std.specs.Prelude.{◌≡◌, alloc_error};
    ghost use Rattle.cedar_syntax.specs.declared.err.faults.Failure.TheVariants.{Memory};

    ghost from_gives = { λ _ failure. failure ≡ Memory alloc_error };

    fn from(_: AllocError) -> BoxedFailure {
        BoxedFailure {
            cause: Cause::Memory(AllocError),
        }
    }
}

impl<T: Drop> From<AllocFailed<T>> for BoxedFailure {
    ghost use Rattle.std.specs.Prelude.{◌≡◌, alloc_error};
    ghost use Rattle.cedar_syntax.specs.declared.err.faults.Failure.TheVariants.{Memory};

    ghost from_gives = { λ _ failure. failure ≡ Memory alloc_error };

    fn from(_: AllocFailed<T>) -> BoxedFailure {
        BoxedFailure {
            cause: Cause::Memory(AllocError),
        }
    }
}

/// The failure that is told; it takes no memory.
impl From<BoxedFailure> for err::Failure {
    ghost use Rattle.std.specs.Prelude.{◌≡◌};

    ghost from_gives = { λ failure told. told ≡ failure };

    fn from(failure: BoxedFailure) -> err::Failure {
        let BoxedFailure { cause } = failure;
        match cause {
            Cause::Memory(error) => err::Failure::Memory(error),
            Cause::Errors(faults) => err::Failure::Errors(faults.into_inner().in_order()),
        }
    }
}

/// An answer with the failure that is told.
pub fn told<T: Drop>(answer: Result<T, BoxedFailure>) -> Result<T, err::Failure>
    ensures { result ≡ answer }
{
    match answer {
        Ok(value) => Ok(value),
        Err(failure) => Err(err::Failure::from(failure)),
    }
}

/// These faults, or want of memory.
fn settled(all: Boxed<FaultDeque>, outcome: Result<(), AllocError>) -> BoxedFailure
    ensures { MatchResult outcome
        (λ _. result ≡ Errors (faults_in_order all)) (λ _. IsMemory result) }
{
    match outcome {
        Ok(()) => BoxedFailure {
            cause: Cause::Errors(all),
        },
        Err(error) => BoxedFailure::from(error),
    }
}

/// The faults, then the others.
fn followed(faults: Boxed<FaultDeque>, more: Boxed<FaultDeque>) -> BoxedFailure
    ensures { TellsAll result (Errors (faults_in_order faults)) (Errors (faults_in_order more)) }
{
    if faults.as_ref().is_shorter(more.as_ref()) {
        let mut all = more;
        let outcome = all.as_mut().put_before(faults.into_inner());
        settled(all, outcome)
    } else {
        let mut all = faults;
        let outcome = all.as_mut().put_behind(more.into_inner());
        settled(all, outcome)
    }
}

/// The faults, then those of the second.
fn behind(faults: Boxed<FaultDeque>, second: BoxedFailure) -> BoxedFailure
    ensures { TellsAll result (Errors (faults_in_order faults)) second }
{
    let BoxedFailure { cause } = second;
    match cause {
        Cause::Memory(error) => BoxedFailure::from(error),
        Cause::Errors(more) => followed(faults, more),
    }
}

/// The faults of the first, then those of the second. Want of memory in either is the answer.
#[cold]
#[inline(never)]
pub(crate) fn joined(first: BoxedFailure, second: BoxedFailure) -> BoxedFailure
    ensures { TellsAll result first second }
{
    let BoxedFailure { cause } = first;
    match cause {
        Cause::Memory(error) => BoxedFailure::from(error),
        Cause::Errors(faults) => behind(faults, second),
    }
}

/// Both values. Where one part fails, its failure; where both fail, want of memory if one is that,
/// else the faults of the first and those of the second.
pub fn flatten_tuple_2<T1: Drop, T2: Drop>(
    first: Result<T1, BoxedFailure>,
    second: Result<T2, BoxedFailure>,
) -> Result<(T1, T2), BoxedFailure>
    ensures all { (x : T1) (y : T2) → first ≡ Ok x → second ≡ Ok y → result ≡ Ok (x, y) }
    ensures both { IfOk result (λ pair. (first ≡ Ok pair.0) × (second ≡ Ok pair.1)) }
    ensures memory { WantsMemory first ⊎ WantsMemory second → WantsMemory result }
    ensures faults { IfErr result (λ failure. TellsBoth failure first second) }
{
    match first {
        Ok(first) => match second {
            Ok(second) => Ok((first, second)),
            Err(failure) => Err(failure),
        },
        Err(failure) => match second {
            Ok(_) => Err(failure),
            Err(more) => Err(joined(failure, more)),
        },
    }
}
