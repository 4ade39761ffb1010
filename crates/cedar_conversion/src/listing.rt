//! The expressions that are nested in a tree, and the order in which they are converted.
//!
//! No walk goes into an expression that it finds: so none calls itself, and a text that nests
//! deeply takes memory of the heap and no stack.
ghost use Rattle.std.specs.Prelude.{◌≡◌, ◌++◌, OnOk, map, List};
ghost use Rattle.std.specs.List.{flat_map};
ghost use Rattle.cedar_syntax.specs.trees.Forms.{located, expr_form, or_form, and_form, relation_form, add_form, mult_form, unary_form, member_form, access_form, primary_form, init_form};
ghost use Rattle.cedar_conversion.specs.machines.Nested.{is_counted, lent_nodes, nested, nested_within};

pub(crate) mod order;

use crate::convert::data_of;
use cedar_expressions::{AddOp, Boxed};
use cedar_syntax::cst::{self, Expr, MultOp, NegOp, RelOp};
use cedar_syntax::node::Node;
use cedar_syntax::stack::Stack;
use std::alloc::AllocError;

/// Expressions that are lent.
pub type Lent<'a> = Stack<&'a Node<Option<Expr>>>;

// ---- parts behind one another, the last of them first

fn in_ands<'a>(parts: &'a [Node<Option<cst::And>>], all: &mut Lent<'a>) -> Result<(), AllocError>
    ensures { OnOk result (lent_nodes all.new
        ≡ flat_map (λ n. nested (located and_form n)) parts.now ++ lent_nodes all.old) }
{
    for part in parts.iter().rev() {
        in_and(part, all)?;
    }
    Ok(())
}

fn in_relations<'a>(
    parts: &'a [Node<Option<cst::Relation>>],
    all: &mut Lent<'a>,
) -> Result<(), AllocError>
    ensures { OnOk result (lent_nodes all.new
        ≡ flat_map (λ n. nested (located relation_form n)) parts.now ++ lent_nodes all.old) }
{
    for part in parts.iter().rev() {
        in_relation(part, all)?;
    }
    Ok(())
}

fn in_sides<'a>(
    parts: &'a [(RelOp, Node<Option<cst::Add>>)],
    all: &mut Lent<'a>,
) -> Result<(), AllocError>
    ensures { OnOk result (lent_nodes all.new
        ≡ flat_map (λ p. nested (located add_form p.1)) parts.now ++ lent_nodes all.old) }
{
    for (_, part) in parts.iter().rev() {
        in_add(part, all)?;
    }
    Ok(())
}

fn in_terms<'a>(
    parts: &'a [(AddOp, Node<Option<cst::Mult>>)],
    all: &mut Lent<'a>,
) -> Result<(), AllocError>
    ensures { OnOk result (lent_nodes all.new
        ≡ flat_map (λ p. nested (located mult_form p.1)) parts.now ++ lent_nodes all.old) }
{
    for (_, part) in parts.iter().rev() {
        in_mult(part, all)?;
    }
    Ok(())
}

fn in_factors<'a>(
    parts: &'a [(MultOp, Node<Option<cst::Unary>>)],
    all: &mut Lent<'a>,
) -> Result<(), AllocError>
    ensures { OnOk result (lent_nodes all.new
        ≡ flat_map (λ p. nested (located unary_form p.1)) parts.now ++ lent_nodes all.old) }
{
    for (_, part) in parts.iter().rev() {
        in_unary(part, all)?;
    }
    Ok(())
}

fn in_accesses<'a>(
    parts: &'a [Node<Option<cst::MemAccess>>],
    all: &mut Lent<'a>,
) -> Result<(), AllocError>
    ensures { OnOk result (lent_nodes all.new
        ≡ flat_map (λ n. nested (located access_form n)) parts.now ++ lent_nodes all.old) }
{
    for part in parts.iter().rev() {
        in_access(part, all)?;
    }
    Ok(())
}

fn in_inits<'a>(
    parts: &'a [Node<Option<cst::RecInit>>],
    all: &mut Lent<'a>,
) -> Result<(), AllocError>
    ensures { OnOk result (lent_nodes all.new
        ≡ flat_map (λ n. nested (located init_form n)) parts.now ++ lent_nodes all.old) }
{
    for part in parts.iter().rev() {
        in_init(part, all)?;
    }
    Ok(())
}

fn items<'a>(parts: &'a [Node<Option<Expr>>], all: &mut Lent<'a>) -> Result<(), AllocError>
    ensures { OnOk result (lent_nodes all.new
        ≡ map (located expr_form) parts.now ++ lent_nodes all.old) }
{
    for part in parts.iter().rev() {
        all.push(part)?;
    }
    Ok(())
}

// ---- levels

/// Those of an expression.
pub fn in_expr<'a>(node: &'a Node<Option<Expr>>, all: &mut Lent<'a>) -> Result<(), AllocError>
    ensures { OnOk result (lent_nodes all.new
        ≡ nested (located expr_form node.now) ++ lent_nodes all.old) }
{
    match &node.node {
        Some(tree) => match data_of(tree) {
            cst::ExprData::Or(part) => in_or(part, all),
            cst::ExprData::If(guard, consequent, alternative) => {
                all.push(alternative)?;
                all.push(consequent)?;
                all.push(guard)
            }
        },
        None => Ok(()),
    }
}

fn in_or<'a>(node: &'a Node<Option<cst::Or>>, all: &mut Lent<'a>) -> Result<(), AllocError>
    ensures { OnOk result (lent_nodes all.new
        ≡ nested (located or_form node.now) ++ lent_nodes all.old) }
{
    match &node.node {
        Some(or) => {
            in_ands(or.extended.as_slice(), all)?;
            in_and(&or.initial, all)
        }
        None => Ok(()),
    }
}

fn in_and<'a>(node: &'a Node<Option<cst::And>>, all: &mut Lent<'a>) -> Result<(), AllocError>
    ensures { OnOk result (lent_nodes all.new
        ≡ nested (located and_form node.now) ++ lent_nodes all.old) }
{
    match &node.node {
        Some(and) => {
            in_relations(and.extended.as_slice(), all)?;
            in_relation(&and.initial, all)
        }
        None => Ok(()),
    }
}

/// None is right of `has`.
fn in_relation<'a>(
    node: &'a Node<Option<cst::Relation>>,
    all: &mut Lent<'a>,
) -> Result<(), AllocError>
    ensures { OnOk result (lent_nodes all.new
        ≡ nested (located relation_form node.now) ++ lent_nodes all.old) }
{
    match &node.node {
        Some(cst::Relation::Common { initial, extended }) => {
            in_sides(extended.as_slice(), all)?;
            in_add(initial, all)
        }
        Some(cst::Relation::Has { target, .. }) => in_add(target, all),
        Some(cst::Relation::Like { target, pattern }) => {
            in_add(pattern.as_ref(), all)?;
            in_add(target, all)
        }
        Some(
            cst::Relation::IsIn {
                target,
                entity_type,
                in_entity,
            },
        ) => {
            in_within(in_entity, all)?;
            in_add(entity_type.as_ref(), all)?;
            in_add(target, all)
        }
        None => Ok(()),
    }
}

/// Those of what stands behind the `in` of an `is`, if anything does.
fn in_within<'a>(
    within: &'a Option<Boxed<Node<Option<cst::Add>>>>,
    all: &mut Lent<'a>,
) -> Result<(), AllocError>
    ensures { OnOk result (lent_nodes all.new ≡ nested_within within.now ++ lent_nodes all.old) }
{
    match within {
        Some(node) => in_add(node.as_ref(), all),
        None => Ok(()),
    }
}

/// Those of a sum.
pub fn in_add<'a>(node: &'a Node<Option<cst::Add>>, all: &mut Lent<'a>) -> Result<(), AllocError>
    ensures { OnOk result (lent_nodes all.new
        ≡ nested (located add_form node.now) ++ lent_nodes all.old) }
{
    match &node.node {
        Some(add) => {
            in_terms(add.extended.as_slice(), all)?;
            in_mult(&add.initial, all)
        }
        None => Ok(()),
    }
}

fn in_mult<'a>(node: &'a Node<Option<cst::Mult>>, all: &mut Lent<'a>) -> Result<(), AllocError>
    ensures { OnOk result (lent_nodes all.new
        ≡ nested (located mult_form node.now) ++ lent_nodes all.old) }
{
    match &node.node {
        Some(mult) => {
            in_factors(mult.extended.as_slice(), all)?;
            in_unary(&mult.initial, all)
        }
        None => Ok(()),
    }
}

/// Whether signs are counted, so that their operand is looked at.
fn is_counted(op: Option<NegOp>) -> bool
    ensures { result ≡ is_counted op }
{
    match op {
        None | Some(NegOp::Bang(_)) | Some(NegOp::Dash(_)) => true,
        Some(NegOp::OverBang) | Some(NegOp::OverDash) => false,
    }
}

/// None is behind more signs than are counted.
fn in_unary<'a>(node: &'a Node<Option<cst::Unary>>, all: &mut Lent<'a>) -> Result<(), AllocError>
    ensures { OnOk result (lent_nodes all.new
        ≡ nested (located unary_form node.now) ++ lent_nodes all.old) }
{
    match &node.node {
        Some(unary) => {
            if is_counted(unary.op) {
                in_member(&unary.item, all)
            } else {
                Ok(())
            }
        }
        None => Ok(()),
    }
}

fn in_member<'a>(node: &'a Node<Option<cst::Member>>, all: &mut Lent<'a>) -> Result<(), AllocError>
    ensures { OnOk result (lent_nodes all.new
        ≡ nested (located member_form node.now) ++ lent_nodes all.old) }
{
    match &node.node {
        Some(member) => {
            in_accesses(member.access.as_slice(), all)?;
            in_primary(&member.item, all)
        }
        None => Ok(()),
    }
}

fn in_access<'a>(
    node: &'a Node<Option<cst::MemAccess>>,
    all: &mut Lent<'a>,
) -> Result<(), AllocError>
    ensures { OnOk result (lent_nodes all.new
        ≡ nested (located access_form node.now) ++ lent_nodes all.old) }
{
    match &node.node {
        Some(cst::MemAccess::Field(_)) => Ok(()),
        Some(cst::MemAccess::Call(arguments)) => items(arguments.as_slice(), all),
        Some(cst::MemAccess::Index(inner)) => all.push(inner),
        None => Ok(()),
    }
}

fn in_primary<'a>(
    node: &'a Node<Option<cst::Primary>>,
    all: &mut Lent<'a>,
) -> Result<(), AllocError>
    ensures { OnOk result (lent_nodes all.new
        ≡ nested (located primary_form node.now) ++ lent_nodes all.old) }
{
    match &node.node {
        Some(cst::Primary::Literal(_)) => Ok(()),
        Some(cst::Primary::Ref(_)) => Ok(()),
        Some(cst::Primary::Name(_)) => Ok(()),
        Some(cst::Primary::Slot(_)) => Ok(()),
        Some(cst::Primary::Expr(inner)) => all.push(inner),
        Some(cst::Primary::EList(parts)) => items(parts.as_slice(), all),
        Some(cst::Primary::RInits(inits)) => in_inits(inits.as_slice(), all),
        None => Ok(()),
    }
}

fn in_init<'a>(node: &'a Node<Option<cst::RecInit>>, all: &mut Lent<'a>) -> Result<(), AllocError>
    ensures { OnOk result (lent_nodes all.new
        ≡ nested (located init_form node.now) ++ lent_nodes all.old) }
{
    match &node.node {
        Some(pair) => {
            all.push(&pair.1)?;
            all.push(&pair.0)
        }
        None => Ok(()),
    }
}
