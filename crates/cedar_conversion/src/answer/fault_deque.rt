//! Faults that are put one behind another while answers go up through the levels of nesting.
//!
//! At each level a few faults come before or behind the many of what is nested in it. The fewer
//! are moved: those that come before the others stand in a list of their own, the last of them
//! first.
ghost use Rattle.std.specs.Prelude.{◌+◌, ◌<◌, ◌≤◌, length};
ghost use Rattle.std.specs.Vec.{vec_len, vec_capacity};
ghost use Rattle.cedar_syntax.specs.faults.ParseErrors.{faults_of};

mod joining;

use cedar_syntax::err::{ParseError, ParseErrors};

/// Faults, one or more, in two lists.
#[derive(Drop)]
pub(crate) struct FaultDeque {
    earlier: Vec<ParseError>,
    faults: ParseErrors,
    // Telling them all in one list takes no memory.
    ghost room: { 0 < vec_len earlier
        → vec_len earlier + length (faults_of faults) ≤ vec_capacity earlier },
}
