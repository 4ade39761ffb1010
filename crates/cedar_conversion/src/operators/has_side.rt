//! Right of `has`: a string alone, or identifiers joined by `.`.
ghost use Rattle.std.specs.Prelude.{map};
ghost use Rattle.cedar_syntax.specs.trees.Forms.{located, parts_of, listed_access, access_form, add_form, mult_form, primary_form};
ghost use Rattle.cedar_conversion.specs.outcome.Conversion.{tree_place};
ghost use Rattle.cedar_conversion.specs.parts.HasSide.{attributes_of, begins_with, behind_first, field_of, fields_of, right_form, right_side, string_alone};
ghost use Rattle.cedar_conversion.specs.parts.Names.{unreserved_ident as unreserved_outcome};
ghost use Rattle.cedar_conversion.specs.outcome.Outcome.{Outcome, invalid_has_rhs, next};
ghost use Rattle.cedar_conversion.specs.outcome.Held.{Held, unqualified};
ghost use Rattle.cedar_conversion.specs.outcome.Seen.{Gives, itself};
ghost use Rattle.cedar_conversion.specs.machines.Applied.{seen_attributes};
ghost use Rattle.cedar_conversion.specs.machines.SideChild.{side_child};
ghost use Rattle.cedar_conversion.specs.machines.Views.{TellsAlone, plain};

use crate::answer::failure::BoxedFailure;
use crate::answer::special::{ExprOrSpecial, content, empty_node, refusal_with, to_text};
use crate::answer::wanted::{path_as_attribute, truth_as_attribute, variable_word};
use crate::answer::{Converted, placeholder};
use crate::leaves::literals::literal;
use crate::leaves::names::{unreserved_ident, variable_or_name};
use crate::leaves::strings::unescape_raw;
use crate::operators::single_child::SingleChild;
use cedar_expressions::{ExprBuilderInfallibleBuild, Name, Text};
use cedar_syntax::cst::{Add, Ident, MemAccess, Mult, Primary};
use cedar_syntax::err::ToASTErrorKind;
use cedar_syntax::loc::Loc;
use cedar_syntax::node::Node;
use std::alloc::{AllocError, Global};

/// The first attribute and those behind it.
pub(crate) type Attributes = (Text, Vec<Text>);

/// A right side and its place.
#[derive(Clone, Copy)]
struct RightSide<'a> {
    alloc: Global,
    loc: &'a Option<Loc>,
    tree: &'a Add,
}

/// The right side as the printer prints it.
fn shown(side: RightSide<'_>) -> Result<Text, AllocError> {
    to_text(side.alloc, side.tree)
}

/// A right side that is refused for what stands at a place.
fn invalid_has_rhs(side: RightSide<'_>, loc: &Option<Loc>) -> BoxedFailure
    ensures { TellsAlone result invalid_has_rhs loc.now }
{
    let kind = shown(side).map(ToASTErrorKind::InvalidHasRHS);
    refusal_with(side.alloc, kind, loc)
}

/// The identifier of a field.
fn field_text(alloc: Global, node: &Node<Option<Ident>>) -> Result<Text, BoxedFailure>
    ensures { Gives itself result (unreserved_outcome node.now) }
{
    Ok(unreserved_ident(alloc, node)?.into_text())
}

/// A field, the only access that may stand there.
fn field_of(side: RightSide<'_>, node: &Node<Option<MemAccess>>) -> Result<Text, BoxedFailure>
    ensures { Gives itself result (field_of (located access_form node.now)) }
{
    match &node.node {
        Some(MemAccess::Field(ident)) => field_text(side.alloc, ident),
        Some(MemAccess::Call(_)) => Err(invalid_has_rhs(side, &node.loc)),
        Some(MemAccess::Index(_)) => Err(invalid_has_rhs(side, &node.loc)),
        None => Err(empty_node(side.alloc, &node.loc)),
    }
}

/// The fields behind the first attribute: the first fault ends the work.
fn fields_of(
    side: RightSide<'_>,
    accesses: &[Node<Option<MemAccess>>],
) -> Result<Vec<Text>, BoxedFailure>
    ensures { Gives (λ texts. texts.items) result
        (fields_of (parts_of (map listed_access accesses.now))) }
{
    let mut all = Vec::new(side.alloc);
    for access in accesses {
        all.push(field_of(side, access)?)?;
    }
    Ok(all)
}

fn behind_first(
    side: RightSide<'_>,
    accesses: &[Node<Option<MemAccess>>],
    first: Text,
) -> Result<Attributes, BoxedFailure>
    ensures { Gives seen_attributes result
        (behind_first (parts_of (map listed_access accesses.now)) first) }
{
    let rest = fields_of(side, accesses)?;
    Ok((first, rest))
}

/// A string, which stands alone.
fn string_alone(
    side: RightSide<'_>,
    accesses: &[Node<Option<MemAccess>>],
    raw: &Text,
    loc: &Option<Loc>,
) -> Result<Attributes, BoxedFailure>
    ensures { Gives seen_attributes result
        (string_alone side.entry.loc.now loc.now raw.now
        (parts_of (map listed_access accesses.now))) }
{
    if accesses.is_empty() {
        let text = unescape_raw(side.alloc, raw, loc)?;
        Ok((text, Vec::new(side.alloc)))
    } else {
        Err(invalid_has_rhs(side, side.loc))
    }
}

/// The identifier that a name is.
fn lone_word(side: RightSide<'_>, name: &Name, loc: &Option<Loc>) -> Result<Text, BoxedFailure>
    ensures { Gives itself result (unqualified loc.now name.now.path name.now.id) }
{
    if name.as_internal().namespace_components().is_empty() {
        Ok(Text::from_str(side.alloc, name.basename().as_str())?)
    } else {
        Err(path_as_attribute(side.alloc, shown(side), loc))
    }
}

/// What a literal or a name that begins the right side makes of it.
fn attributes_of<B: ExprBuilderInfallibleBuild>(
    side: RightSide<'_>,
    accesses: &[Node<Option<MemAccess>>],
    special: &ExprOrSpecial<B::Expr>,
) -> Result<Attributes, BoxedFailure>
    ensures { Gives seen_attributes result (attributes_of side.entry.loc.now
        (parts_of (map listed_access accesses.now)) (plain B.meaning special.now)) }
{
    match special {
        ExprOrSpecial::Expr(_, loc) => Err(invalid_has_rhs(side, loc)),
        ExprOrSpecial::Var(var, _) => {
            behind_first(side, accesses, variable_word(side.alloc, *var)?)
        }
        ExprOrSpecial::Name(name, loc) => {
            behind_first(side, accesses, lone_word(side, name, loc)?)
        }
        ExprOrSpecial::BoolLit(value, loc) => Err(truth_as_attribute(side.alloc, *value, loc)),
        ExprOrSpecial::StrLit(raw, loc) => string_alone(side, accesses, raw, loc),
    }
}

/// The same of what its conversion gives.
fn attributes_from<B: ExprBuilderInfallibleBuild>(
    side: RightSide<'_>,
    accesses: &[Node<Option<MemAccess>>],
    special: Result<ExprOrSpecial<B::Expr>, BoxedFailure>,
) -> Result<Attributes, BoxedFailure>
    ensures { (h : Outcome Held) → Gives (plain B.meaning) special h
        → Gives seen_attributes result (next h (attributes_of side.entry.loc.now
        (parts_of (map listed_access accesses.now)))) }
{
    let special = special?;
    let attributes = attributes_of::<B>(side, accesses, &special);
    drop(special);
    attributes
}

/// A primary that begins the right side: any but a literal or a name is refused at its place.
fn begins_with<B: ExprBuilderInfallibleBuild>(
    side: RightSide<'_>,
    accesses: &[Node<Option<MemAccess>>],
    node: &Node<Option<Primary>>,
) -> Result<Attributes, BoxedFailure>
    ensures { Gives seen_attributes result (begins_with side.entry.loc.now
        (parts_of (map listed_access accesses.now)) (located primary_form node.now)) }
{
    match &node.node {
        Some(Primary::Literal(inner)) => {
            let mut answer: Converted<B::Expr> = placeholder();
            literal::<B>(side.alloc, inner, &mut answer);
            attributes_from::<B>(side, accesses, answer)
        }
        Some(Primary::Name(inner)) => {
            let mut answer: Converted<B::Expr> = placeholder();
            variable_or_name::<B>(side.alloc, &node.loc, inner, &mut answer);
            attributes_from::<B>(side, accesses, answer)
        }
        Some(Primary::Ref(_)) => Err(invalid_has_rhs(side, &node.loc)),
        Some(Primary::Slot(_)) => Err(invalid_has_rhs(side, &node.loc)),
        Some(Primary::Expr(_)) => Err(invalid_has_rhs(side, &node.loc)),
        Some(Primary::EList(_)) => Err(invalid_has_rhs(side, &node.loc)),
        Some(Primary::RInits(_)) => Err(invalid_has_rhs(side, &node.loc)),
        None => Err(empty_node(side.alloc, &node.loc)),
    }
}

/// The one part that a node below a sum is; any other form is refused at the whole side.
fn child_of<'a, L: SingleChild>(
    side: RightSide<'_>,
    node: &'a Node<Option<L>>,
) -> Result<&'a Node<Option<L::Part>>, BoxedFailure>
    ensures { Gives (λ part. located L.part_form part.now) result
        (side_child side.entry.loc.now (located L.form node.now)) }
{
    match &node.node {
        Some(level) => match level.single_child() {
            Some(part) => Ok(part),
            None => Err(invalid_has_rhs(side, side.loc)),
        },
        None => Err(empty_node(side.alloc, &node.loc)),
    }
}

fn of_mult<B: ExprBuilderInfallibleBuild>(
    side: RightSide<'_>,
    node: &Node<Option<Mult>>,
) -> Result<Attributes, BoxedFailure>
    ensures { Gives seen_attributes result (right_side side.entry.loc.now
        (located mult_form node.now)) }
{
    let unary = child_of(side, node)?;
    let member = child_of(side, unary)?;
    let inner = content(side.alloc, member)?;
    begins_with::<B>(side, inner.access.as_slice(), &inner.item)
}

fn of_add<B: ExprBuilderInfallibleBuild>(side: RightSide<'_>) -> Result<Attributes, BoxedFailure>
    ensures { Gives seen_attributes result (right_form side.entry.loc.now
        (add_form side.entry.tree.now)) }
{
    match side.tree.single_child() {
        Some(term) => of_mult::<B>(side, term),
        None => Err(invalid_has_rhs(side, side.loc)),
    }
}

/// The attributes that the right side of `has` names.
#[inline(never)]
pub(crate) fn right_side<B: ExprBuilderInfallibleBuild>(
    alloc: Global,
    node: &Node<Option<Add>>,
) -> Result<Attributes, BoxedFailure>
    ensures { Gives seen_attributes result
        (right_side (tree_place (located add_form node.now)) (located add_form node.now)) }
{
    match &node.node {
        Some(tree) => of_add::<B>(RightSide {
            alloc,
            loc: &node.loc,
            tree,
        }),
        None => Err(empty_node(alloc, &node.loc)),
    }
}
