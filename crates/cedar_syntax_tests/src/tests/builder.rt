//! The builder: each call is made, and the node that it makes compared.
use super::assertions::{copies, copy_of, equal, holds, list_of_two, made, refusal, shows};
use super::names::{name, text};
use super::shapes::{Shape, shape_of};
use cedar_expressions::{
    AddOp, BinaryOp, EntityType, Expr, ExprBuilder, ExprBuilderInfallibleBuild, ExprKind, Literal,
    NaryOp, PatternElem, Place, RecordError, Slot, SlotId, Text, UnaryOp, Var,
};
use std::alloc::AllocError;
use std::process::Abort;

/// A builder without a place.
pub(super) fn build(rt: &impl AllocGlobal) -> ExprBuilder<()> {
    ExprBuilder::new(rt.alloc())
}

/// The constant that a number is.
pub(super) fn long(rt: &(impl Abort + AllocGlobal), number: i64) -> Expr {
    made(rt, build(rt).val(Literal::Long(number)))
}

/// A list of two numbers.
fn two(rt: &(impl Abort + AllocGlobal)) -> Vec<Expr> {
    list_of_two(rt, long(rt, 2), long(rt, 3))
}

/// A sign and its operand.
pub(super) fn prefixed(rt: &(impl Abort + AllocGlobal), op: UnaryOp, number: i64) -> Expr {
    let operand = long(rt, number);
    let node = match op {
        UnaryOp::Not => build(rt).not(operand),
        UnaryOp::Neg => build(rt).neg(operand),
    };
    made(rt, node)
}

/// An operator and its two operands.
fn joined(rt: &(impl Abort + AllocGlobal), op: BinaryOp) -> Expr {
    let (left, right) = (long(rt, 1), long(rt, 2));
    let builder = build(rt);
    let node = match op {
        BinaryOp::And => builder.and(left, right),
        BinaryOp::Less => builder.less(left, right),
        BinaryOp::LessEq => builder.lesseq(left, right),
        BinaryOp::Greater => builder.greater(left, right),
        BinaryOp::GreaterEq => builder.greatereq(left, right),
        BinaryOp::Eq => builder.is_eq(left, right),
        BinaryOp::NotEq => builder.noteq(left, right),
        BinaryOp::In => builder.is_in(left, right),
        BinaryOp::Contains => builder.contains(left, right),
        BinaryOp::ContainsAll => builder.contains_all(left, right),
        BinaryOp::ContainsAny => builder.contains_any(left, right),
        BinaryOp::GetTag => builder.get_tag(left, right),
        BinaryOp::HasTag => builder.has_tag(left, right),
    };
    made(rt, node)
}

/// A first operand and two more.
fn repeated(rt: &(impl Abort + AllocGlobal), op: NaryOp) -> Expr {
    let (first, rest) = (long(rt, 1), two(rt));
    let node = match op {
        NaryOp::Or => build(rt).or_nary(first, rest),
        NaryOp::And => build(rt).and_naryl(first, rest),
        NaryOp::Mul => build(rt).mul_nary(first, rest),
    };
    made(rt, node)
}

/// `1 - n`.
pub(super) fn difference(rt: &(impl Abort + AllocGlobal), number: i64) -> Expr {
    let mut terms = Vec::new(rt.alloc());
    made(rt, terms.push((AddOp::Minus, long(rt, number))));
    made(rt, build(rt).add_nary(long(rt, 1), terms))
}

/// The builder's call made a node of this kind.
fn makes(rt: &impl Abort, node: Result<Expr, AllocError>, wanted: Shape) {
    is(rt, made(rt, node), wanted);
}

/// The node is of this kind.
fn is(rt: &impl Abort, node: Expr, wanted: Shape) {
    holds(rt, shape_of(&node) == wanted);
    drop(node);
}

const OPERATORS: [BinaryOp; 13] = [
    BinaryOp::And,
    BinaryOp::Less,
    BinaryOp::LessEq,
    BinaryOp::Greater,
    BinaryOp::GreaterEq,
    BinaryOp::Eq,
    BinaryOp::NotEq,
    BinaryOp::In,
    BinaryOp::Contains,
    BinaryOp::ContainsAll,
    BinaryOp::ContainsAny,
    BinaryOp::GetTag,
    BinaryOp::HasTag,
];

#[test]
fn calls_with_an_operator(rt: HostRuntime) {
    for op in &OPERATORS {
        is(&rt, joined(&rt, *op), Shape::Joined(*op));
    }
    for op in &[NaryOp::Or, NaryOp::And, NaryOp::Mul] {
        is(&rt, repeated(&rt, *op), Shape::Repeated(*op));
    }
    for op in &[UnaryOp::Not, UnaryOp::Neg] {
        is(&rt, prefixed(&rt, *op, 1), Shape::Prefixed(*op));
    }
    is(&rt, difference(&rt, 2), Shape::Sum);
}

/// The pattern `*`.
fn any_text(rt: &(impl Abort + AllocGlobal)) -> Vec<PatternElem> {
    let mut pattern = Vec::new(rt.alloc());
    made(rt, pattern.push(PatternElem::Wildcard));
    pattern
}

#[test]
fn calls_of_at_most_one(rt: HostRuntime) {
    is(&rt, long(&rt, 1), Shape::Number(1));
    let var = Var::Action;
    makes(&rt, build(&rt).var(var), Shape::Var(var));
    let slot = SlotId::Resource;
    makes(&rt, build(&rt).slot(slot), Shape::Slot(slot));
    let one = long(&rt, 1);
    makes(&rt, build(&rt).is_empty(one), Shape::IsEmpty);
    let (one, pattern) = (long(&rt, 1), any_text(&rt));
    makes(&rt, build(&rt).like(one, pattern), Shape::Like);
    let (one, attribute) = (long(&rt, 1), text(&rt, "a"));
    makes(&rt, build(&rt).get_attr(one, attribute), Shape::GetAttr);
}

#[test]
fn calls_of_several(rt: HostRuntime) {
    let (one, attribute) = (long(&rt, 1), text(&rt, "a"));
    let has = build(&rt).extended_has_attr(one, attribute, Vec::new(rt.alloc()));
    makes(&rt, has, Shape::HasAttr);
    let choice = build(&rt).ite(long(&rt, 1), long(&rt, 2), long(&rt, 3));
    makes(&rt, choice, Shape::Conditional);
    makes(&rt, build(&rt).set(two(&rt)), Shape::Set);
}

/// A call of an extension's function.
fn extension_call(rt: &(impl Abort + AllocGlobal)) -> Expr {
    let (function, arguments) = (name(rt, "A", "f"), two(rt));
    made(rt, build(rt).call_extension_fn(function, arguments))
}

#[test]
fn calls_with_a_name(rt: HostRuntime) {
    let (one, entity_type) = (long(&rt, 1), EntityType::from(name(&rt, "A", "B")));
    makes(&rt, build(&rt).is_entity_type(one, entity_type), Shape::Is);
    let (one, entity_type) = (long(&rt, 1), EntityType::from(name(&rt, "A", "B")));
    let is_in = build(&rt).is_in_entity_type(one, entity_type, long(&rt, 2));
    makes(&rt, is_in, Shape::IsIn);
    is(&rt, extension_call(&rt), Shape::Extension);
}

/// A pair of a record.
fn pair(rt: &(impl Abort + AllocGlobal), key: &str, number: i64) -> (Text, Expr) {
    (text(rt, key), long(rt, number))
}

/// The record of two pairs.
fn record(rt: &(impl Abort + AllocGlobal), first: &str, second: &str) -> Result<Expr, RecordError> {
    build(rt).record(list_of_two(rt, pair(rt, first, 1), pair(rt, second, 2)))
}

/// Whether it is a record that begins with the key `b`.
fn begins_with_b(expr: &Expr) -> bool {
    match expr.kind() {
        ExprKind::Record(pairs) => match pairs.as_slice() {
            [(key, _), ..] => key.as_str() == "b",
            [] => false,
        },
        _ => false,
    }
}

/// Whether the key `a` is what the record is refused for.
fn is_for_a(refusal: &RecordError) -> bool {
    match refusal {
        RecordError::Construction(error) => error.key() == "a",
        _ => false,
    }
}

#[test]
fn a_record_keeps_its_order_and_refuses_a_repeated_key(rt: HostRuntime) {
    let ordered = made(&rt, record(&rt, "b", "a"));
    holds(&rt, begins_with_b(&ordered));
    drop(ordered);
    let repeated = refusal(&rt, record(&rt, "a", "a"));
    holds(&rt, is_for_a(&repeated));
    drop(repeated);
}

#[test]
fn expressions_are_copied(rt: HostRuntime) {
    copies(&rt, difference(&rt, 2));
    copies(&rt, extension_call(&rt));
    copies(&rt, made(&rt, record(&rt, "b", "a")));
}

pub(super) const PLACE: Place = Place {
    offset: 3,
    length: 4,
};

/// A builder at that place.
fn build_at(rt: &impl AllocGlobal) -> ExprBuilder<()> {
    build(rt).with_maybe_source_loc(Some(PLACE))
}

/// A node at that place.
fn placed(rt: &(impl Abort + AllocGlobal)) -> Expr {
    made(rt, build_at(rt).val(Literal::Long(1)))
}

#[test]
fn a_node_keeps_its_place(rt: HostRuntime) {
    let node = placed(&rt);
    holds(&rt, node.place() == Some(PLACE));
    let copy = copy_of(&rt, node);
    holds(&rt, copy.place() == Some(PLACE));
    drop(copy);
}

#[test]
fn equality_looks_at_no_place(rt: HostRuntime) {
    holds(&rt, equal(placed(&rt), long(&rt, 1)));
    holds(&rt, !equal(long(&rt, 1), long(&rt, 2)));
    holds(
        &rt,
        !equal(repeated(&rt, NaryOp::Mul), repeated(&rt, NaryOp::And)),
    );
}

/// A set of `?principal == ?resource`, of which the right one has a place, and `?principal`.
pub(super) fn set_of_slots(rt: &(impl Abort + AllocGlobal)) -> Expr {
    let left = made(rt, build(rt).slot(SlotId::Principal));
    let right = made(rt, build_at(rt).slot(SlotId::Resource));
    let equal = made(rt, build(rt).is_eq(left, right));
    let last = made(rt, build(rt).slot(SlotId::Principal));
    made(rt, build(rt).set(list_of_two(rt, equal, last)))
}

/// The slots that stand in the set, from the left.
const SLOTS: [Slot; 3] = [
    Slot {
        id: SlotId::Principal,
        place: None,
    },
    Slot {
        id: SlotId::Resource,
        place: Some(PLACE),
    },
    Slot {
        id: SlotId::Principal,
        place: None,
    },
];

#[test]
fn slots_from_the_left(rt: HostRuntime) {
    let set = set_of_slots(&rt);
    let slots = made(&rt, set.slots(rt.alloc()));
    holds(&rt, slots.as_slice() == SLOTS.as_slice());
    drop((set, slots));
}

/// How each expression in the set is shown, each before those in it.
const SHOWN: [&str; 5] = [
    "set(is_eq(?principal, ?resource), ?principal)",
    "is_eq(?principal, ?resource)",
    "?principal",
    "?resource",
    "?principal",
];

#[test]
fn expressions_within_from_the_outside(rt: HostRuntime) {
    let set = set_of_slots(&rt);
    for (expr, shown) in made(&rt, set.subexpressions(rt.alloc())).zip(SHOWN.iter()) {
        shows(&rt, expr, shown);
    }
    holds(&rt, made(&rt, set.subexpressions(rt.alloc())).count() == 5);
    drop(set);
}
