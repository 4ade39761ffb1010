//! Walks down expressions by explicit lists, however deep they are.
ghost use Rattle.std.specs.Prelude.{◌≡◌, ◌++◌, ◌∷◌, OnOk, map};
ghost use Rattle.cedar_expressions.specs.Parts.{parts};
ghost use Rattle.cedar_expressions.specs.Walks.{shown};

use crate::stack::Stack;
use crate::{AddOp, Expr, ExprKind, Text};
use std::alloc::AllocError;

/// Puts the parts of an expression on those that wait, the first on top.
pub(crate) fn push_parts<'a>(expr: &'a Expr, rest: &mut Stack<&'a Expr>) -> Result<(), AllocError>
    ensures { OnOk result (shown rest.new ≡ parts expr.now ++ shown rest.old) }
{
    match expr.kind() {
        ExprKind::Val(_) => Ok(()),
        ExprKind::Var(_) => Ok(()),
        ExprKind::Slot(_) => Ok(()),
        ExprKind::Ite(parts) => {
            let parts = parts.as_ref();
            rest.push(&parts.2)?;
            rest.push(&parts.1)?;
            rest.push(&parts.0)
        }
        ExprKind::Unary(_, operand) => rest.push(operand.as_ref()),
        ExprKind::Binary(_, parts) => {
            let parts = parts.as_ref();
            rest.push(&parts.1)?;
            rest.push(&parts.0)
        }
        ExprKind::Nary(_, first, operands) => {
            push_items(operands.as_slice(), rest)?;
            rest.push(first.as_ref())
        }
        ExprKind::Sum(first, terms) => {
            push_terms(terms.as_slice(), rest)?;
            rest.push(first.as_ref())
        }
        ExprKind::List(_, items) => push_items(items.as_slice(), rest),
        ExprKind::Record(pairs) => push_pairs(pairs.as_slice(), rest),
    }
}

fn push_items<'a>(items: &'a [Expr], rest: &mut Stack<&'a Expr>) -> Result<(), AllocError>
    ensures { OnOk result (shown rest.new ≡ items.now ++ shown rest.old) }
{
    let mut left = items.len();
    while left > 0 {
        left -= 1;
        rest.push(&items[left])?;
    }
    Ok(())
}

fn push_terms<'a>(terms: &'a [(AddOp, Expr)], rest: &mut Stack<&'a Expr>) -> Result<(), AllocError>
    ensures { OnOk result (shown rest.new ≡ map (λ t. t.1) terms.now ++ shown rest.old) }
{
    let mut left = terms.len();
    while left > 0 {
        left -= 1;
        rest.push(&terms[left].1)?;
    }
    Ok(())
}

fn push_pairs<'a>(pairs: &'a [(Text, Expr)], rest: &mut Stack<&'a Expr>) -> Result<(), AllocError>
    ensures { OnOk result (shown rest.new ≡ map (λ p. p.1) pairs.now ++ shown rest.old) }
{
    let mut left = pairs.len();
    while left > 0 {
        left -= 1;
        rest.push(&pairs[left].1)?;
    }
    Ok(())
}
