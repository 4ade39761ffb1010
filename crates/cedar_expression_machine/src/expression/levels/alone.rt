//! An operand alone: the trees above it, of whose levels none is begun. Their places come first,
//! since memory can be refused to them; behind the last, each tree is made of the one below it and
//! nothing is dropped, so that the compiler makes them all where they stay.
ghost use Rattle.std.specs.Prelude.{◌≡◌, [], Some, IfOk};
ghost use Rattle.cedar_syntax.specs.trees.Trees.{unary_of, mult_of, add_of, common_of, and_of, or_of, expr_of};
ghost use Rattle.cedar_expression_machine.specs.machines.Closing.{fresh, mult_at, add_at, relation_at, or_at, made_expr};
ghost use Rattle.cedar_grammar.specs.grammar.Place.{joint_extent};
ghost use Rattle.cedar_expression_machine.specs.machines.AlonePlaces.{places_of, upper_places};

use crate::expression::state::{Operand, Spanned};
use cedar_expressions::Items;
use cedar_grammar::reading::extent::{Extent, join_extents};
use cedar_grammar::reading::node_builder::NodeBuilder;
use cedar_syntax::cst::{Add, And, Expr, ExprData, ExprImpl, Mult, Or, Relation, Unary};
use cedar_syntax::loc::Loc;
use cedar_syntax::node::Node;
use std::alloc::{AllocError, Global};

/// The operand with its signs.
#[inline(always)]
fn unary_of(operand: Operand, loc: Option<Loc>) -> Unary
    ensures { result ≡ unary_of operand.signs.op
        record { node = Some operand.member; loc = loc } }
{
    let Operand {
        signs,
        member,
        extent: _,
        is_if: _,
    } = operand;
    let node = Some(member);
    Unary {
        op: signs.op,
        item: Node { node, loc },
    }
}

/// The product of one operand.
#[inline(always)]
fn mult_of(alloc: Global, unary: Unary, loc: Option<Loc>) -> Mult
    ensures { result ≡ mult_of record { node = Some unary; loc = loc } [] }
{
    let node = Some(unary);
    Mult {
        initial: Node { node, loc },
        extended: Items::new(alloc),
    }
}

/// The sum of one product.
#[inline(always)]
fn add_of(alloc: Global, mult: Mult, loc: Option<Loc>) -> Add
    ensures { result ≡ add_of record { node = Some mult; loc = loc } [] }
{
    let node = Some(mult);
    Add {
        initial: Node { node, loc },
        extended: Items::new(alloc),
    }
}

/// The relation that is one sum.
#[inline(always)]
pub fn common_of(alloc: Global, add: Add, loc: Option<Loc>) -> Relation
    ensures { result ≡ common_of record { node = Some add; loc = loc } [] }
{
    let node = Some(add);
    Relation::Common {
        initial: Node { node, loc },
        extended: Items::new(alloc),
    }
}

/// The conjunction of one relation.
#[inline(always)]
pub fn and_of(alloc: Global, relation: Relation, loc: Option<Loc>) -> And
    ensures { result ≡ and_of record { node = Some relation; loc = loc } [] }
{
    let node = Some(relation);
    And {
        initial: Node { node, loc },
        extended: Items::new(alloc),
    }
}

/// The disjunction of one conjunction.
#[inline(always)]
pub fn or_of(alloc: Global, and: And, loc: Option<Loc>) -> Or
    ensures { result ≡ or_of record { node = Some and; loc = loc } [] }
{
    let node = Some(and);
    Or {
        initial: Node { node, loc },
        extended: Items::new(alloc),
    }
}

/// The expression that is one disjunction.
#[inline(always)]
pub fn expr_of(alloc: Global, or: Or, loc: Option<Loc>, is_deep: bool) -> Result<Expr, AllocError>
    ensures { IfOk result (λ expr. expr ≡ expr_of record { node = Some or; loc = loc }) }
{
    let node = Some(or);
    let expr = ExprImpl::nested(alloc, ExprData::Or(Node { node, loc }), is_deep)?;
    Ok(Expr::Expr(expr))
}

/// The places of the trees above an operand alone, up to its sum.
#[derive(Drop)]
pub struct Places {
    pub of_member: Option<Loc>,
    pub of_unary: Option<Loc>,
    pub of_mult: Option<Loc>,
}

/// Where they stand.
#[inline(always)]
pub fn places_of(builder: NodeBuilder<'_>, operand: &Operand) -> Result<Places, AllocError>
    ensures { IfOk result (λ places. places ≡ places_of builder.entry.source.now operand.now) }
{
    let extent = join_extents(operand.signs.extent, operand.extent);
    let of_member = builder.loc_at(operand.extent)?;
    let of_unary = builder.loc_at(extent)?;
    let of_mult = builder.loc_at(extent)?;
    Ok(Places {
        of_member,
        of_unary,
        of_mult,
    })
}

/// The product that is an operand alone, at these places.
#[inline(always)]
pub fn mult_with_places(
    alloc: Global,
    operand: Operand,
    of_member: Option<Loc>,
    of_unary: Option<Loc>,
) -> Mult
    ensures { (src : _) → of_member ≡ (places_of src operand).of_member
        → of_unary ≡ (places_of src operand).of_unary
        → result ≡ (mult_at src (fresh []) operand).tree }
{
    let unary = unary_of(operand, of_member);
    mult_of(alloc, unary, of_unary)
}

/// The sum that is an operand alone, at these places.
#[inline(always)]
pub fn add_with_places(alloc: Global, operand: Operand, places: Places) -> Add
    ensures { (src : _) → places ≡ places_of src operand
        → result ≡ (add_at src (fresh []) operand).tree }
{
    let unary = unary_of(operand, places.of_member);
    let mult = mult_of(alloc, unary, places.of_unary);
    add_of(alloc, mult, places.of_mult)
}

/// The sum that is this operand alone.
#[inline(never)]
pub fn alone_add(builder: NodeBuilder<'_>, operand: Operand) -> Result<Spanned<Add>, AllocError>
    ensures { IfOk result (λ sum. sum ≡ add_at builder.entry.source.now (fresh []) operand) }
{
    let extent = join_extents(operand.signs.extent, operand.extent);
    let places = places_of(builder, &operand)?;
    let tree = add_with_places(builder.alloc, operand, places);
    Ok(Spanned { tree, extent })
}

/// The relation that is this operand alone.
#[inline(never)]
pub fn alone_relation(
    builder: NodeBuilder<'_>,
    operand: Operand,
) -> Result<Spanned<Relation>, AllocError>
    ensures { IfOk result (λ relation. relation
        ≡ relation_at builder.entry.source.now (fresh []) operand) }
{
    let extent = join_extents(operand.signs.extent, operand.extent);
    let places = places_of(builder, &operand)?;
    let of_add = builder.loc_at(extent)?;
    let add = add_with_places(builder.alloc, operand, places);
    Ok(Spanned {
        tree: common_of(builder.alloc, add, of_add),
        extent,
    })
}

/// The places of the trees above its sum, up to the expression.
#[derive(Drop)]
pub struct UpperPlaces {
    of_add: Option<Loc>,
    of_relation: Option<Loc>,
    of_and: Option<Loc>,
    of_or: Option<Loc>,
}

/// Where they stand.
#[inline(always)]
pub fn upper_places(
    builder: NodeBuilder<'_>,
    extent: Option<Extent>,
) -> Result<UpperPlaces, AllocError>
    ensures { IfOk result (λ places. places ≡ upper_places builder.entry.source.now extent) }
{
    let of_add = builder.loc_at(extent)?;
    let of_relation = builder.loc_at(extent)?;
    let of_and = builder.loc_at(extent)?;
    let of_or = builder.loc_at(extent)?;
    Ok(UpperPlaces {
        of_add,
        of_relation,
        of_and,
        of_or,
    })
}

/// The expression that is an operand alone, at these places.
#[inline(always)]
pub fn expr_alone(
    alloc: Global,
    operand: Operand,
    places: Places,
    upper: UpperPlaces,
    is_deep: bool,
) -> Result<Expr, AllocError>
    ensures { (src : _) → places ≡ places_of src operand
        → upper ≡ upper_places src (joint_extent operand.signs.extent operand.extent)
        → IfOk result (λ expr. expr ≡ (made_expr src (or_at src (fresh []) operand)).tree) }
{
    let add = add_with_places(alloc, operand, places);
    let relation = common_of(alloc, add, upper.of_add);
    let and = and_of(alloc, relation, upper.of_relation);
    let or = or_of(alloc, and, upper.of_and);
    expr_of(alloc, or, upper.of_or, is_deep)
}

/// The expression that is this operand alone.
#[inline(never)]
pub fn alone_expr(
    builder: NodeBuilder<'_>,
    operand: Operand,
    is_deep: bool,
) -> Result<Spanned<Expr>, AllocError>
    ensures { IfOk result (λ expr. expr ≡ made_expr builder.entry.source.now
        (or_at builder.entry.source.now (fresh []) operand)) }
{
    let extent = join_extents(operand.signs.extent, operand.extent);
    let places = places_of(builder, &operand)?;
    let upper = upper_places(builder, extent)?;
    let tree = expr_alone(builder.alloc, operand, places, upper, is_deep)?;
    Ok(Spanned { tree, extent })
}
