//! The order in which the expressions of a tree are converted: each before those in which it is
//! nested.
ghost use Rattle.std.specs.Prelude.{[], IfOk};
ghost use Rattle.cedar_conversion.specs.machines.Nested.{lent_nodes};
ghost use Rattle.cedar_conversion.specs.machines.Taking.{LeadTo};

use crate::listing::{Lent, in_expr};
use cedar_syntax::stack::Stack;
use std::alloc::{AllocError, Global};

/// These expressions and all that are nested in them, the first to be converted on top.
pub(crate) fn ordered(alloc: Global, nested: Lent<'_>) -> Result<Lent<'_>, AllocError>
    ensures { IfOk result (λ order. LeadTo (lent_nodes order) [] (lent_nodes nested.entry)) }
{
    let mut left = nested;
    let mut order = Stack::new(alloc);
    while let Some(node) = left.pop() {
        order.push(node)?;
        in_expr(node, &mut left)?;
    }
    Ok(order)
}
