//! Results joined: all values, or the failing parts' faults one after another.
ghost use Rattle.std.specs.Prelude.{◌≡◌, ◌⊎◌, ◌++◌, IfOk, IfErr};
ghost use Rattle.cedar_syntax.specs.faults.Joined.{WantsMemory, TellsBoth, TellsAll, failures, IsJoined};

use crate::err::{Failure, ParseErrors};

/// The faults, then the others.
fn append(faults: ParseErrors, more: ParseErrors) -> Failure
    ensures { TellsAll result (Failure.Errors faults) (Failure.Errors more) }
{
    let mut all = faults;
    match all.extend(more) {
        Ok(()) => Failure::Errors(all),
        Err(error) => Failure::Memory(error),
    }
}

/// The faults, then those of the second.
fn join_behind(faults: ParseErrors, second: Failure) -> Failure
    ensures { TellsAll result (Failure.Errors faults) second }
{
    match second {
        Failure::Memory(error) => Failure::Memory(error),
        Failure::Errors(more) => append(faults, more),
    }
}

/// The faults of the first, then those of the second. Want of memory in either is the answer.
fn join(first: Failure, second: Failure) -> Failure
    ensures { TellsAll result first second }
{
    match first {
        Failure::Memory(error) => Failure::Memory(error),
        Failure::Errors(faults) => join_behind(faults, second),
    }
}

/// Both values. Where one part fails, its failure; where both fail, want of memory if one is that,
/// else the faults of the first and those of the second.
pub fn flatten_tuple_2<T1: Drop, T2: Drop>(
    first: Result<T1, Failure>,
    second: Result<T2, Failure>,
) -> Result<(T1, T2), Failure>
    ensures all { (x : T1) (y : T2) → first ≡ Ok x → second ≡ Ok y → result ≡ Ok (x, y) }
    ensures both { IfOk result (λ pair. (first ≡ Ok pair.0) × (second ≡ Ok pair.1)) }
    ensures memory { WantsMemory first ⊎ WantsMemory second → WantsMemory result }
    ensures faults { IfErr result (λ failure. TellsBoth failure first second) }
    ensures failure { IfErr result (λ failure. IsJoined failure
        (failures first ++ failures second)) }
{
    match first {
        Ok(first) => match second {
            Ok(second) => Ok((first, second)),
            Err(failure) => Err(failure),
        },
        Err(failure) => match second {
            Ok(_) => Err(failure),
            Err(more) => Err(join(failure, more)),
        },
    }
}

/// All three values. Where one part fails, its failure; where several fail, want of memory if one
/// is that, else the failing parts' faults, in order.
pub fn flatten_tuple_3<T1: Drop, T2: Drop, T3: Drop>(
    first: Result<T1, Failure>,
    second: Result<T2, Failure>,
    third: Result<T3, Failure>,
) -> Result<(T1, T2, T3), Failure>
    ensures values { IfOk result (λ all.
        (first ≡ Ok all.0) × (second ≡ Ok all.1) × (third ≡ Ok all.2)) }
    ensures failure { IfErr result (λ failure.
        IsJoined failure (failures first ++ (failures second ++ failures third))) }
{
    let others = flatten_tuple_2(second, third);
    let (first, (second, third)) = flatten_tuple_2(first, others)?;
    Ok((first, second, third))
}

/// All four values, or the failure of the parts that fail, as of three.
#[tactic(auto, using(crate::proofs::Joining::joined_behind, crate::proofs::Joining::three_there, crate::proofs::Joining::passed))]
pub fn flatten_tuple_4<T1: Drop, T2: Drop, T3: Drop, T4: Drop>(
    first: Result<T1, Failure>,
    second: Result<T2, Failure>,
    third: Result<T3, Failure>,
    fourth: Result<T4, Failure>,
) -> Result<(T1, T2, T3, T4), Failure>
    ensures values { IfOk result (λ all.
        (first ≡ Ok all.0) × (second ≡ Ok all.1) × (third ≡ Ok all.2) × (fourth ≡ Ok all.3)) }
    ensures failure { IfErr result (λ failure.
        IsJoined failure
        (failures first ++ (failures second ++ (failures third ++ failures fourth)))) }
{
    let others = flatten_tuple_3(second, third, fourth);
    let (first, (second, third, fourth)) = flatten_tuple_2(first, others)?;
    Ok((first, second, third, fourth))
}
