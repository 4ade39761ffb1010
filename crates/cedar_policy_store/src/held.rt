//! Calls over values of any type, in which the proof doesn't see what is dropped.
ghost use Rattle.std.specs.Prelude.{◌≡◌, IfOk, IsOkAnd};

use std::alloc::AllocError;

/// What was made before, beside what is made now. Where that wasn't made, what was made before is
/// dropped.
pub(crate) fn beside<A: Drop, B>(held: A, made: Result<B, AllocError>) -> Result<(A, B), AllocError>
    ensures { IfOk result (λ both. IsOkAnd made (λ one. both ≡ (held, one))) }
{
    let made = made?;
    Ok((held, made))
}
