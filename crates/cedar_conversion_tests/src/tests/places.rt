//! Places and words, for trees that are made by hand.
use super::assertions::made;
use cedar_expressions::Text;
use cedar_syntax::loc::{Loc, SourceSpan};
use std::process::Abort;
use std::rc::RcStr;

/// The text that the places lie in.
pub(super) const POLICY: &str = "permit(principal, action, resource) when { a == b && b == \"c\" }";

/// These bytes of a text.
fn place_in(rt: &(impl Abort + AllocGlobal), text: &str, start: usize, end: usize) -> Loc {
    let src = made(rt, RcStr::from_str(rt.alloc(), text));
    Loc::new(SourceSpan::between(start, end), src)
}

/// These bytes of the policy.
pub(super) fn place(rt: &(impl Abort + AllocGlobal), start: usize, end: usize) -> Loc {
    place_in(rt, POLICY, start, end)
}

/// A text of its own.
pub(super) fn text(rt: &(impl Abort + AllocGlobal), bytes: &str) -> Text {
    made(rt, Text::from_str(rt.alloc(), bytes))
}
