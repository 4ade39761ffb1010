//! Places and nodes, as a caller meets them.
use super::assertions::{copies, holds, holds_for, made, refusal, says};
use super::names::text;
use cedar_syntax::err::Failure;
use cedar_syntax::loc::{Loc, SourceSpan};
use cedar_syntax::node::Node;
use cedar_syntax::position::Position;
use std::process::Abort;
use std::rc::RcStr;

/// The text that the places lie in.
pub(super) const POLICY: &str = "permit(principal, action, resource) when { a == b && b == \"c\" }";

/// These bytes of a text.
fn place_in(rt: &(impl Abort + AllocGlobal), text: &str, start: usize, end: usize) -> Loc {
    let src = made(rt, RcStr::from_str(rt.alloc(), text));
    Loc::new(SourceSpan::between(start, end), src)
}

/// These bytes of the policy.
pub(super) fn place(rt: &(impl Abort + AllocGlobal), start: usize, end: usize) -> Loc {
    place_in(rt, POLICY, start, end)
}

#[test]
fn a_range_ends_within_the_largest_number(rt: HostRuntime) {
    holds(&rt, SourceSpan::new(usize::MAX, 1).is_none());
    holds(&rt, SourceSpan::new(usize::MAX, 0).is_some());
    let span = SourceSpan::between(3, 7);
    holds(&rt, span.offset() == 3);
    holds(&rt, span.len() == 4);
    holds(&rt, span.end() == 7);
    holds(&rt, SourceSpan::between(7, 3).is_empty());
}

#[test]
fn a_place_shows_its_snippet(rt: HostRuntime) {
    let inside = place(&rt, 43, 49);
    holds(&rt, inside.snippet() == Some("a == b"));
    holds(&rt, (inside.start(), inside.end()) == (43, 49));
    holds(
        &rt,
        SourceSpan::from(&inside) == SourceSpan::between(43, 49),
    );
    let shown = made(&rt, format!(in rt.alloc(); "{inside:?}"));
    holds(&rt, shown.as_str() == "Loc(`a == b`)");
    drop(shown);
    copies(&rt, inside);
}

#[test]
fn a_place_moves(rt: HostRuntime) {
    let inside = place(&rt, 43, 49);
    let first = SourceSpan::between(0, 6);
    let moved = made(&rt, inside.span(first));
    holds(&rt, moved.snippet() == Some("permit"));
    holds(&rt, SourceSpan::from(moved) == first);
    drop(inside);
}

#[test]
fn a_place_that_is_no_range_has_no_snippet(rt: HostRuntime) {
    let long = place(&rt, 43, 103);
    holds(&rt, long.snippet().is_none());
    let cut = place_in(&rt, "1 é", 2, 3);
    holds(&rt, cut.snippet().is_none());
    let whole = made(&rt, cut.span(SourceSpan::between(2, 4)));
    holds(&rt, whole.snippet() == Some("é"));
    drop((long, cut, whole));
}

/// Three lines, of which the second begins with a character of two bytes and ends with a carriage
/// return.
const LINES: &str = "a\né\r\nb";

/// An offset in these lines, its line and its column.
const POSITIONS: [(usize, usize, usize); 9] = [
    (0, 1, 1),
    (1, 1, 2),
    (2, 2, 1),
    (3, 2, 2),
    (4, 2, 2),
    (5, 2, 3),
    (6, 3, 1),
    (7, 3, 2),
    (100, 3, 2),
];

#[test]
fn an_offset_has_a_line_and_a_column(rt: HostRuntime) {
    for (offset, line, column) in &POSITIONS {
        let wanted = Position {
            line: *line,
            column: *column,
        };
        holds_for(&rt, Position::of(LINES, *offset) == wanted, offset);
        let place = place_in(&rt, LINES, *offset, 100);
        holds_for(&rt, place.position() == wanted, offset);
        drop(place);
    }
}

#[test]
fn nodes_compare_by_their_value(rt: HostRuntime) {
    let here = Node::with_source_loc(1u8, place(&rt, 0, 1));
    let there = Node::with_maybe_source_loc(1u8, Some(place(&rt, 5, 6)));
    holds(&rt, here == there);
    holds(&rt, here < Node::new(2u8));
    holds(&rt, here.loc() != there.loc());
    drop(there);
    says(&rt, here, "1");
}

#[test]
fn a_node_is_copied_with_its_place(rt: HostRuntime) {
    let node = Node::with_source_loc(text(&rt, "a"), place(&rt, 2, 3));
    let copy = made(&rt, node.try_clone());
    holds(&rt, copy.loc() == node.loc());
    holds(&rt, copy == node);
    drop(copy);
    copies(&rt, node);
}

/// 3 at a place.
fn three(rt: &(impl Abort + AllocGlobal)) -> Node<u8> {
    Node::with_source_loc(3, place(rt, 2, 4))
}

#[test]
fn a_node_lends_its_value(rt: HostRuntime) {
    let node = three(&rt);
    let lent = made(&rt, node.as_ref());
    holds(&rt, *lent.node == 3);
    let copy = lent.copied();
    holds(&rt, copy.loc() == node.loc());
    let owned = made(&rt, made(&rt, node.as_ref()).cloned());
    holds(&rt, owned == copy);
}

#[test]
fn a_node_is_written_and_mapped(rt: HostRuntime) {
    let mut node = three(&rt);
    *made(&rt, node.as_mut()).node = 4;
    holds(&rt, node.node == 4);
    let (value, place) = node.map(|value| value / 2).into_inner();
    holds(&rt, value == 2);
    holds(&rt, place.is_some());
}

/// A node with a place, which may hold a number.
fn node(rt: &(impl Abort + AllocGlobal), value: Option<u8>) -> Node<Option<u8>> {
    Node::with_source_loc(value, place(rt, 7, 10))
}

#[test]
fn a_full_node_gives_its_value(rt: HostRuntime) {
    let full = node(&rt, Some(5));
    holds(&rt, full.as_inner().copied() == Some(5));
    holds(&rt, made(&rt, full.collapse()).is_some());
    holds(&rt, *made(&rt, full.try_as_inner(rt.alloc())) == 5);
    holds(&rt, full.apply(|value, _| Some(*value)) == Some(5));
    holds(&rt, full.into_apply(|value, _| Some(value)) == Some(5));
}

/// What an empty node is refused with.
const EMPTY: &str = "internal invariant violated. Parsed data node should not be empty";

/// Whether the failure is one fault at the node's place.
fn is_at_the_node(failure: &Failure) -> bool {
    match failure {
        Failure::Errors(faults) => {
            faults.len() == 1 && faults.primary_source_span() == Some(SourceSpan::between(7, 10))
        }
        Failure::Memory(_) => false,
    }
}

#[test]
fn an_empty_node_is_refused_at_its_place(rt: HostRuntime) {
    let empty = node(&rt, None);
    holds(&rt, made(&rt, empty.collapse()).is_none());
    says(&rt, refusal(&rt, empty.try_as_inner(rt.alloc())), EMPTY);
    let refused = refusal(&rt, empty.try_as_inner(rt.alloc()));
    holds(&rt, is_at_the_node(&refused));
    let fault = refusal(&rt, empty.try_into_inner());
    holds(&rt, fault.span() == Some(SourceSpan::between(7, 10)));
    drop((refused, fault));
}
