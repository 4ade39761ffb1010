//! Calls over values of any type: in them the proof doesn't see what is dropped, which is dear
//! where it is a tree. Each ends the test where something isn't as it has to be. What a test holds
//! to its end it gives to `drop` for the same reason.
ghost use Rattle.std.specs.Prelude.{◌≡◌, IfOk, IsOkAnd};

use std::fmt;
use std::process::Abort;

/// Ends the test unless this holds. (An `assert!` is dear to prove where much is held, a call
/// isn't.)
pub(super) fn holds(rt: &impl Abort, is_so: bool) {
    assert!(rt; is_so);
}

/// Ends the test unless this holds for what is shown.
pub(super) fn holds_for<T: fmt::Display>(rt: &impl Abort, is_so: bool, shown: &T) {
    assert!(rt; is_so, "{shown}");
}

/// What was made.
pub(super) fn made<T, E: Drop>(rt: &impl Abort, made: Result<T, E>) -> T {
    made.ok().expect(rt, "not made")
}

/// The refusal of what was not made.
pub(super) fn refusal<T: Drop, E>(rt: &impl Abort, made: Result<T, E>) -> E {
    made.err().expect(rt, "not refused")
}
