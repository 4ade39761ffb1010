//! What the trees of texts hold: the places of nodes, the parts of chains, and copies of each
//! level.
use super::assertions::{holds, holds_for, made, shows_alike_and_copies};
use super::round_trip::{inside, tree_of};
use cedar_expressions::{ExprBuilderInfallibleBuild, TryClone};
use cedar_policy_parser::cst_to_ast::{ExprAst, ExtStyles};
use cedar_syntax::cst::{Add, Expr, ExprData, Or, Primary, Relation};
use cedar_syntax::err::Failure;
use cedar_syntax::loc::SourceSpan;
use cedar_syntax::node::Node;
use std::alloc::Global;
use std::collections::BTreeSet;
use std::fmt::{Display, Write};
use std::process::Abort;

/// The tree of an expression.
pub(super) fn tree(rt: &(impl Abort + AllocGlobal), text: &str) -> Node<Option<Expr>> {
    tree_of::<Expr>(rt, text)
}

/// What a builder makes of a tree.
pub(super) fn built<B: ExprBuilderInfallibleBuild>(
    alloc: Global,
    tree: &Node<Option<Expr>>,
) -> Result<B::Expr, Failure> {
    let styles = ExtStyles::new(BTreeSet::new(alloc), BTreeSet::new(alloc));
    tree.to_expr::<B>(alloc, &styles)
}

/// Where a node stands.
fn place_of<T>(rt: &impl Abort, node: &Node<Option<T>>) -> SourceSpan {
    SourceSpan::from(node.loc().expect(rt, "no place"))
}

/// The places of a sum, of its last operand, and of the expression that stands there in
/// parentheses.
fn places(rt: &impl Abort, tree: &Node<Option<Expr>>) -> Option<[SourceSpan; 3]> {
    let Expr::Expr(whole) = inside(rt, tree);
    let ExprData::Or(or) = whole.as_ref() else {
        return None;
    };
    let relation = &inside(rt, &inside(rt, or).initial).initial;
    let Relation::Common { initial: sum, .. } = inside(rt, relation) else {
        return None;
    };
    let (_, last) = inside(rt, sum).extended.as_slice().last()?;
    let member = &inside(rt, &inside(rt, last).initial).item;
    let operand = &inside(rt, member).item;
    let Primary::Expr(inner) = inside(rt, operand) else {
        return None;
    };
    Some([
        place_of(rt, sum),
        place_of(rt, operand),
        place_of(rt, inner),
    ])
}

#[test]
fn each_node_has_its_place(rt: HostRuntime) {
    let wanted = [
        SourceSpan::between(0, 5),
        SourceSpan::between(2, 5),
        SourceSpan::between(3, 4),
    ];
    let tree = tree(&rt, "1+(2)");
    holds(&rt, places(&rt, &tree) == Some(wanted));
    drop(tree);
}

/// The operands and operators of a chain of comparisons that stands alone, with bars between them.
fn compared(rt: &(impl Abort + AllocGlobal), or: &Node<Option<Or>>) -> String {
    let mut shown = String::new(rt.alloc());
    let relation = &inside(rt, &inside(rt, or).initial).initial;
    let Relation::Common { initial, extended } = inside(rt, relation) else {
        return shown;
    };
    let sum = inside(rt, initial);
    made(rt, write!(shown, "{sum}"));
    for (op, sum) in extended.iter() {
        let sum = inside(rt, sum);
        made(rt, write!(shown, " | {op} | {sum}"));
    }
    shown
}

/// The same, or the guard and the two parts of an `if`.
fn parts(rt: &(impl Abort + AllocGlobal), tree: &Node<Option<Expr>>) -> String {
    let Expr::Expr(whole) = inside(rt, tree);
    match whole.as_ref() {
        ExprData::Or(or) => compared(rt, or),
        ExprData::If(guard, first, other) => {
            let guard = inside(rt, guard);
            let (first, other) = (inside(rt, first), inside(rt, other));
            made(rt, format!(in rt.alloc(); "if {guard} | {first} | {other}"))
        }
    }
}

/// Texts, and the parts of their trees.
const PARTS: [(&str, &str); 2] = [
    ("a in in in b", "a | in | in | in | b"),
    ("if then then then else else", "if then | then | else"),
];

#[test]
fn words_have_their_parts(rt: HostRuntime) {
    for (text, wanted) in &PARTS {
        let tree = tree(&rt, text);
        let shown = parts(&rt, &tree);
        holds_for(&rt, shown.as_str() == *wanted, text);
        drop((tree, shown));
    }
}

/// What a node holds, which is copied and shown.
fn held<'a, T: Display + TryClone + Clone + PartialEq + Drop>(
    rt: &(impl Abort + AllocGlobal),
    node: &'a Node<Option<T>>,
) -> &'a T {
    let value = node.as_inner().expect(rt, "an empty node");
    shows_alike_and_copies(rt, value);
    value
}

/// Each tree on the way to the leftmost operand is copied.
fn copies_each_level(rt: &(impl Abort + AllocGlobal), whole: &Node<Option<Expr>>) {
    let Expr::Expr(implementation) = held(rt, whole);
    shows_alike_and_copies(rt, implementation);
    let data = implementation.as_ref();
    shows_alike_and_copies(rt, data);
    let ExprData::Or(or) = data else {
        return holds_for(rt, false, &"not a chain");
    };
    let and = &held(rt, or).initial;
    let relation = &held(rt, and).initial;
    match held(rt, relation) {
        Relation::Common { initial, .. } => copies_each_operand(rt, initial),
        _ => holds_for(rt, false, &"not a comparison"),
    }
}

/// Each tree within a sum on the way to the leftmost operand is copied.
fn copies_each_operand(rt: &(impl Abort + AllocGlobal), add: &Node<Option<Add>>) {
    let mult = &held(rt, add).initial;
    let unary = &held(rt, mult).initial;
    let member = &held(rt, unary).item;
    held(rt, &held(rt, member).item);
}

#[test]
fn the_trees_of_texts_are_copied(rt: HostRuntime) {
    let chain = tree(&rt, "-1 * 2 - 3 <= 4 && 5 || 6");
    copies_each_level(&rt, &chain);
    let choice = tree(&rt, "(if true then \"a\" else principal)");
    copies_each_level(&rt, &choice);
    drop((chain, choice));
}
