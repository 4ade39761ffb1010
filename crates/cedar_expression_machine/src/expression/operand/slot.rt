//! Numbers, strings and slots as operands.
ghost use Rattle.std.specs.Prelude.{◌≡◌, IfOk};
ghost use Rattle.cedar_expression_machine.specs.machines.Wanting.{slot_of_token, slot_at};

use crate::expression::state::Spanned;
use cedar_expressions::Text;
use cedar_grammar::reading::class::SlotToken;
use cedar_grammar::reading::extent::Extent;
use cedar_grammar::reading::node_builder::NodeBuilder;
use cedar_syntax::cst::{Primary, Slot};
use std::alloc::{AllocError, Global};

/// What slot a token is.
fn slot_of(alloc: Global, slot: SlotToken, text: &str) -> Result<Slot, AllocError>
    ensures { IfOk result (λ tree. tree ≡ slot_of_token slot text.now) }
{
    match slot {
        SlotToken::Principal => Ok(Slot::Principal),
        SlotToken::Resource => Ok(Slot::Resource),
        SlotToken::Other => Ok(Slot::Other(Text::from_str(alloc, text)?)),
    }
}

/// A slot as an operand.
pub fn slot_at(
    builder: NodeBuilder<'_>,
    extent: Option<Extent>,
    slot: SlotToken,
    text: &str,
) -> Result<Spanned<Primary>, AllocError>
    ensures { IfOk result (λ item. item ≡ slot_at builder.entry.source.now extent
        (slot_of_token slot text.now)) }
{
    let tree = slot_of(builder.alloc, slot, text)?;
    let tree = Primary::Slot(builder.node_at(extent, tree)?);
    Ok(Spanned { tree, extent })
}
