//! Entities.
ghost use Rattle.cedar_conversion.specs.parts.Entities.{entity_outcome, id_outcome, reference_outcome};
ghost use Rattle.cedar_conversion.specs.parts.Leaves.{entity_leaf};
ghost use Rattle.cedar_conversion.specs.outcome.Outcome.{invalid_entity_literal};
ghost use Rattle.cedar_conversion.specs.outcome.Seen.{Gives, itself};
ghost use Rattle.cedar_conversion.specs.machines.Views.{TellsAlone, plain};

use crate::answer::failure::{BoxedFailure, flatten_tuple_2};
use crate::answer::special::{ExprOrSpecial, builder_at, empty_node, refusal_with, to_text};
use crate::leaves::literals::invalid_raw;
use crate::leaves::names::name_of;
use crate::leaves::strings::unescape_raw;
use cedar_expressions::{
    Eid, EntityType, EntityUID, ExprBuilderInfallibleBuild, Literal, Text, TryClone,
};
use cedar_syntax::cst::{Ref, Str};
use cedar_syntax::err::ToASTErrorKind;
use cedar_syntax::loc::Loc;
use cedar_syntax::node::Node;
use std::alloc::Global;

/// The text of an entity's id: its escape faults stand at the entity's place.
pub fn id_of(
    alloc: Global,
    loc: &Option<Loc>,
    node: &Node<Option<Str>>,
) -> Result<Text, BoxedFailure>
    ensures { Gives itself result (id_outcome loc.now node.now) }
{
    match &node.node {
        Some(Str::String(raw)) => unescape_raw(alloc, raw, loc),
        Some(Str::Invalid(raw)) => Err(invalid_raw(alloc, raw, &node.loc)),
        None => Err(empty_node(alloc, &node.loc)),
    }
}

/// The form with braces, printed.
fn invalid_entity_literal(alloc: Global, loc: &Option<Loc>, reference: &Ref) -> BoxedFailure
    ensures { TellsAlone result invalid_entity_literal loc.now }
{
    let kind = to_text(alloc, reference).map(ToASTErrorKind::InvalidEntityLiteral);
    refusal_with(alloc, kind, loc)
}

fn reference(alloc: Global, loc: &Option<Loc>, reference: &Ref) -> Result<EntityUID, BoxedFailure>
    ensures { Gives itself result (reference_outcome loc.now reference.now) }
{
    match reference {
        Ref::Uid { path, eid } => {
            let (path, eid) = flatten_tuple_2(name_of(alloc, path), id_of(alloc, loc, eid))?;
            Ok(EntityUID::from_components(EntityType::from(path), Eid::new(eid)))
        }
        Ref::Ref { .. } => Err(invalid_entity_literal(alloc, loc, reference)),
    }
}

/// The entity that a node holds.
pub fn entity_of(alloc: Global, node: &Node<Option<Ref>>) -> Result<EntityUID, BoxedFailure>
    ensures { Gives itself result (entity_outcome node.now) }
{
    match &node.node {
        Some(inner) => reference(alloc, &node.loc, inner),
        None => Err(empty_node(alloc, &node.loc)),
    }
}

/// The constant that an entity is.
#[inline(always)]
pub(crate) fn entity<B: ExprBuilderInfallibleBuild>(
    alloc: Global,
    node: &Node<Option<Ref>>,
) -> Result<ExprOrSpecial<B::Expr>, BoxedFailure>
    ensures { Gives (plain B.meaning) result (entity_leaf node.now) }
{
    let place = node.loc.try_clone()?;
    let literal = Literal::EntityUID(entity_of(alloc, node)?);
    Ok(ExprOrSpecial::Expr(builder_at::<B>(alloc, &node.loc).val(literal)?, place))
}
