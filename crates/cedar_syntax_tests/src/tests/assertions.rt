//! Calls over values of any type: in them the proof doesn't see what is dropped, which is dear
//! where it is a tree. Each ends the test where something isn't as it has to be. What a test holds
//! to its end it gives to `drop` for the same reason.
ghost use Rattle.std.specs.Prelude.{◌≡◌, IfOk, IsOkAnd};

use cedar_expressions::TryClone;
use std::fmt;
use std::process::Abort;

/// Ends the test unless this holds. (An `assert!` is dear to prove where much is held, a call
/// isn't.)
pub(super) fn holds(rt: &impl Abort, is_so: bool) {
    assert!(rt; is_so);
}

/// Ends the test unless this holds for what is shown.
pub(super) fn holds_for<T: fmt::Display>(rt: &impl Abort, is_so: bool, shown: &T) {
    assert!(rt; is_so, "{shown}");
}

/// What was made.
pub(super) fn made<T, E: Drop>(rt: &impl Abort, made: Result<T, E>) -> T {
    made.ok().expect(rt, "not made")
}

/// Whether there is a value.
pub(super) fn is_there<T: Drop>(value: Option<T>) -> bool {
    value.is_some()
}

/// The refusal of what was not made.
pub(super) fn refusal<T: Drop, E>(rt: &impl Abort, made: Result<T, E>) -> E {
    made.err().expect(rt, "not refused")
}

/// A list of two values.
pub(super) fn list_of_two<T: Drop>(rt: &(impl Abort + AllocGlobal), first: T, second: T) -> Vec<T> {
    let mut list = Vec::new(rt.alloc());
    made(rt, list.push(first));
    made(rt, list.push(second));
    list
}

/// Whether two values are equal.
pub(super) fn equal<T: PartialEq + Drop>(left: T, right: T) -> bool {
    left == right
}

/// The value is the one that is wanted.
pub(super) fn agrees<T: PartialEq + Drop>(rt: &impl Abort, value: T, wanted: T, told: &str) {
    holds_for(rt, value == wanted, &told);
}

/// A copy of a value.
pub(super) fn copy_of<T: TryClone + Drop>(rt: &impl Abort, value: T) -> T {
    made(rt, value.try_clone())
}

/// A copy of the value equals it.
pub(super) fn is_copied<T: TryClone + PartialEq + Drop>(rt: &impl Abort, value: T) {
    let copy = made(rt, value.try_clone());
    holds(rt, copy == value);
}

/// Both ways to copy a value give an equal one.
pub(super) fn copies_of<T: TryClone + Clone + PartialEq + Drop>(rt: &impl Abort, value: &T) {
    let clone = made(rt, value.clone());
    holds(rt, clone == *value);
    let copy = made(rt, value.try_clone());
    holds(rt, copy == *value);
}

/// The same of a value that is at hand for this alone.
pub(super) fn copies<T: TryClone + Clone + PartialEq + Drop>(rt: &impl Abort, value: T) {
    copies_of(rt, &value);
}

/// The value's own text is this one.
pub(super) fn shows<T: fmt::Display>(rt: &(impl Abort + AllocGlobal), value: &T, text: &str) {
    let shown = made(rt, format!(in rt.alloc(); "{value}"));
    holds_for(rt, shown.as_str() == text, value);
}

/// The same of a value that is at hand for this alone.
pub(super) fn says<T: fmt::Display + Drop>(rt: &(impl Abort + AllocGlobal), value: T, text: &str) {
    shows(rt, &value, text);
}

/// The value's own text is this one, and both ways to copy it give an equal one.
pub(super) fn says_and_copies<T: fmt::Display + TryClone + Clone + PartialEq + Drop>(
    rt: &(impl Abort + AllocGlobal),
    value: T,
    text: &str,
) {
    shows(rt, &value, text);
    copies_of(rt, &value);
}

/// The value's text under `{:#}` is that under `{}`.
pub(super) fn shows_alike<T: fmt::Display>(rt: &(impl Abort + AllocGlobal), value: &T) {
    let plain = made(rt, format!(in rt.alloc(); "{value}"));
    let alternate = made(rt, format!(in rt.alloc(); "{value:#}"));
    holds_for(rt, plain.as_str() == alternate.as_str(), value);
}

/// The same, and both ways to copy it give an equal one.
pub(super) fn shows_alike_and_copies<T: fmt::Display + TryClone + Clone + PartialEq + Drop>(
    rt: &(impl Abort + AllocGlobal),
    value: &T,
) {
    shows_alike(rt, value);
    copies_of(rt, value);
}
