//! Slots.
ghost use Rattle.cedar_conversion.specs.parts.Entities.{slot_outcome};
ghost use Rattle.cedar_conversion.specs.parts.Leaves.{slot_leaf};
ghost use Rattle.cedar_conversion.specs.outcome.Detail.{spelling};
ghost use Rattle.cedar_conversion.specs.outcome.Outcome.{invalid_slot};
ghost use Rattle.cedar_conversion.specs.outcome.Seen.{Gives, itself};
ghost use Rattle.cedar_conversion.specs.machines.Views.{TellsOne, plain};

use crate::answer::failure::BoxedFailure;
use crate::answer::special::{ExprOrSpecial, builder_at, empty_node, expr_at, refusal_with};
use cedar_expressions::{ExprBuilderInfallibleBuild, SlotId, Text, TryClone};
use cedar_syntax::cst::Slot;
use cedar_syntax::err::ToASTErrorKind;
use cedar_syntax::loc::Loc;
use cedar_syntax::node::Node;
use std::alloc::Global;

/// A slot that is neither `?principal` nor `?resource`, with its text.
fn invalid_slot(alloc: Global, text: &Text, loc: &Option<Loc>) -> BoxedFailure
    ensures { TellsOne result (invalid_slot, loc.now, spelling text.now) }
{
    let kind = text.try_clone().map(ToASTErrorKind::InvalidSlot);
    refusal_with(alloc, kind, loc)
}

/// The slot of a template that a node holds.
pub(crate) fn slot_id(alloc: Global, node: &Node<Option<Slot>>) -> Result<SlotId, BoxedFailure>
    ensures { Gives itself result (slot_outcome node.now) }
{
    match &node.node {
        Some(Slot::Principal) => Ok(SlotId::Principal),
        Some(Slot::Resource) => Ok(SlotId::Resource),
        Some(Slot::Other(text)) => Err(invalid_slot(alloc, text, &node.loc)),
        None => Err(empty_node(alloc, &node.loc)),
    }
}

/// The expression that a slot is.
pub(crate) fn slot<B: ExprBuilderInfallibleBuild>(
    alloc: Global,
    node: &Node<Option<Slot>>,
) -> Result<ExprOrSpecial<B::Expr>, BoxedFailure>
    ensures { Gives (plain B.meaning) result (slot_leaf node.now) }
{
    let id = slot_id(alloc, node)?;
    expr_at::<B>(builder_at::<B>(alloc, &node.loc).slot(id)?, &node.loc)
}
