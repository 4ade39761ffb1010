//! The conversion of expressions, however deeply they nest.
//!
//! What nests no deeper than people write is converted at once (`nesting`). Of anything else all
//! expressions that are nested in it are listed, each before those nested in it, and then converted
//! from the last to the first. So the answers of those nested in one are the newest that wait when
//! its own turn comes.
ghost use Rattle.std.specs.Prelude.{◌≡◌, IfOk};
ghost use Rattle.cedar_syntax.specs.trees.Forms.{located, expr_form, data_form, add_form};
ghost use Rattle.cedar_conversion.specs.outcome.Conversion.{outcome};
ghost use Rattle.cedar_conversion.specs.outcome.Seen.{Gives};
ghost use Rattle.cedar_conversion.specs.strict.Table.{table_of};
ghost use Rattle.cedar_conversion.specs.machines.Nested.{lent_nodes};
ghost use Rattle.cedar_conversion.specs.machines.Taking.{Waits};
ghost use Rattle.cedar_conversion.specs.machines.Views.{plain};

use crate::answer::failure::{BoxedFailure, go_on};
use crate::answer::{Converted, put, take};
use crate::levels;
use crate::listing::order::ordered;
use crate::listing::{Lent, in_add, in_expr};
use crate::nesting::{Answers, Near, Waiting};
use crate::styles::ExtStyles;
use cedar_expressions::ExprBuilderInfallibleBuild;
use cedar_syntax::cst;
use cedar_syntax::node::Node;
use cedar_syntax::stack::Stack;
use std::alloc::{AllocError, Global};

/// A disjunction or a conditional, as which an expression is one.
pub fn data_of(tree: &cst::Expr) -> &cst::ExprData
    ensures { expr_form tree.now ≡ data_form result.now }
{
    tree.inner().as_ref()
}

/// The answers of these expressions, which wait for what they are nested in.
fn answers_of<B: ExprBuilderInfallibleBuild>(
    alloc: Global,
    styles: &ExtStyles,
    nested: Lent<'_>,
) -> Result<Answers<B::Expr>, AllocError>
    ensures { IfOk result (λ answers.
        Waits B.meaning (table_of styles.now) answers.nested (lent_nodes nested.entry)) }
{
    let mut answers: Answers<B::Expr> = Answers::new(alloc);
    let mut order = ordered(alloc, nested)?;
    while let Some(node) = order.pop() {
        levels::expression::<B, Waiting>(alloc, &mut answers, styles, node);
        go_on(&answers.answer)?;
        answers.keep()?;
    }
    Ok(answers)
}

/// What an expression gives, by lists.
#[cold]
#[inline(never)]
fn expr_by_lists<B: ExprBuilderInfallibleBuild>(
    alloc: Global,
    styles: &ExtStyles,
    node: &Node<Option<cst::Expr>>,
) -> Result<Converted<B::Expr>, AllocError>
    ensures { IfOk result (λ answer. Gives (plain B.meaning) answer
        (outcome (table_of styles.now) (located expr_form node.now))) }
{
    let mut nested = Stack::new(alloc);
    in_expr(node, &mut nested)?;
    let mut answers = answers_of::<B>(alloc, styles, nested)?;
    levels::expression::<B, Waiting>(alloc, &mut answers, styles, node);
    Ok(take(&mut answers.answer))
}

/// What a sum gives, by lists.
#[cold]
#[inline(never)]
fn add_by_lists<B: ExprBuilderInfallibleBuild>(
    alloc: Global,
    styles: &ExtStyles,
    node: &Node<Option<cst::Add>>,
) -> Result<Converted<B::Expr>, AllocError>
    ensures { IfOk result (λ answer. Gives (plain B.meaning) answer
        (outcome (table_of styles.now) (located add_form node.now))) }
{
    let mut nested = Stack::new(alloc);
    in_add(node, &mut nested)?;
    let mut answers = answers_of::<B>(alloc, styles, nested)?;
    levels::add::<B, Waiting>(alloc, &mut answers, styles, node);
    Ok(take(&mut answers.answer))
}

/// What an expression gives, left in `answer`.
pub fn expr<B: ExprBuilderInfallibleBuild>(
    alloc: Global,
    styles: &ExtStyles,
    node: &Node<Option<cst::Expr>>,
    answer: &mut Converted<B::Expr>,
)
    ensures { Gives (plain B.meaning) answer.new (outcome (table_of styles.now)
        (located expr_form node.now)) }
{
    let mut answers: Answers<B::Expr> = Answers::new(alloc);
    levels::expression::<B, Near>(alloc, &mut answers, styles, node);
    if answers.is_too_deep {
        match expr_by_lists::<B>(alloc, styles, node) {
            Ok(given) => put(answer, given),
            Err(error) => put(answer, Err(BoxedFailure::from(error))),
        }
    } else {
        put(answer, take(&mut answers.answer))
    }
}

/// What a sum gives, left in `answer`.
pub fn add<B: ExprBuilderInfallibleBuild>(
    alloc: Global,
    styles: &ExtStyles,
    node: &Node<Option<cst::Add>>,
    answer: &mut Converted<B::Expr>,
)
    ensures { Gives (plain B.meaning) answer.new (outcome (table_of styles.now)
        (located add_form node.now)) }
{
    let mut answers: Answers<B::Expr> = Answers::new(alloc);
    levels::add::<B, Near>(alloc, &mut answers, styles, node);
    if answers.is_too_deep {
        match add_by_lists::<B>(alloc, styles, node) {
            Ok(given) => put(answer, given),
            Err(error) => put(answer, Err(BoxedFailure::from(error))),
        }
    } else {
        put(answer, take(&mut answers.answer))
    }
}
