//! Calls over values of any type: in them the proof doesn't see what is dropped, which is dear
//! where it is a tree.
use std::fmt;
use std::process::Abort;

/// Ends the test unless this holds for what is shown.
pub(super) fn holds_for<T: fmt::Display>(rt: &impl Abort, is_so: bool, shown: &T) {
    assert!(rt; is_so, "{shown}");
}

/// What was made.
pub(super) fn made<T, E: Drop>(rt: &impl Abort, made: Result<T, E>) -> T {
    made.ok().expect(rt, "not made")
}

/// The refusal of what was not made.
pub(super) fn refusal<T: Drop, E>(rt: &impl Abort, made: Result<T, E>) -> E {
    made.err().expect(rt, "not refused")
}

/// What was made of what is shown.
pub(super) fn made_of<T: Drop, E: Drop, S: fmt::Display>(
    rt: &impl Abort,
    made: Result<T, E>,
    shown: &S,
) -> T {
    holds_for(rt, made.is_ok(), shown);
    made.ok().expect(rt, "not made")
}
