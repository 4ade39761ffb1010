//! An expression's tree, converted.
ghost use Rattle.cedar_conversion.specs.outcome.Conversion.{value_outcome};
ghost use Rattle.cedar_conversion.specs.outcome.Seen.{Gives};
ghost use Rattle.cedar_conversion.specs.strict.Table.{table_of};
ghost use Rattle.cedar_syntax.specs.trees.Forms.{located, expr_form};

use cedar_conversion::answer::failure::BoxedFailure;
use cedar_conversion::answer::special::expr_of;
use cedar_conversion::answer::{Converted, placeholder};
use cedar_conversion::convert::expr;
use cedar_conversion::styles::ExtStyles;
use cedar_expressions::ExprBuilderInfallibleBuild;
use cedar_syntax::cst::Expr;
use cedar_syntax::node::Node;
use std::alloc::Global;

/// The expression that a tree stands for.
pub(crate) fn expression<B: ExprBuilderInfallibleBuild>(
    alloc: Global,
    styles: &ExtStyles,
    node: &Node<Option<Expr>>,
) -> Result<B::Expr, BoxedFailure>
    ensures { Gives B.meaning result (value_outcome (table_of styles.now)
        (located expr_form node.now)) }
{
    let mut answer: Converted<B::Expr> = placeholder();
    expr::<B>(alloc, styles, node, &mut answer);
    expr_of::<B>(alloc, answer)
}
