//! Operands that are joined from the left: each but the first is the right one of an object, whose
//! left one is what the operands before it are joined to.
#![tactic(auto, unfolding(crate::specs::Forms::value_json, crate::specs::FunctionKeys::keys_called, crate::specs::machines::Pending::weight))]

ghost use Rattle.std.specs.Prelude.{◌≡◌, map};
ghost use Rattle.cedar_expressions.specs.Meaning.{expr_meaning, nary_call};
ghost use Rattle.cedar_expressions.specs.Value as v;
ghost use Rattle.cedar_expressions.specs.Value.{values, terms};
ghost use Rattle.cedar_json_writer.specs.Forms.{chain_key, sum_key as sum_name};
ghost use Rattle.cedar_json_writer.specs.machines.Pending.{term_value, PutsValue, Replaces};
ghost use Rattle.cedar_json_writer.specs.declared.todo.Todo.TheVariants as todos;

use crate::todo::{Pending, Todo, put_all};
use cedar_expressions::{AddOp, Expr, NaryOp};
use std::alloc::AllocError;

/// Operands of any number, joined from the left: the object of the last one is outermost.
pub fn open_nary<'a>(
    op: NaryOp,
    first: &'a Expr,
    rest: &'a [Expr],
    todo: &mut Pending<'a>,
) -> Result<(), AllocError>
    ensures { PutsValue (nary_call op (expr_meaning first.now)
        (values (map expr_meaning rest.now))) result todo.old todo.new }
{
    let heads = Todo::Heads(nary_key(op), rest.len());
    put_all(todo, &[heads, Todo::Expr(first), Todo::Tails(rest)])
}

fn nary_key(op: NaryOp) -> &'static str
    ensures { result.now ≡ chain_key op }
{
    match op {
        NaryOp::Or => "||",
        NaryOp::And => "&&",
        NaryOp::Mul => "*",
    }
}

/// A sum's operands, joined from the left, each by its operator.
pub fn open_sum<'a>(
    first: &'a Expr,
    rest: &'a [(AddOp, Expr)],
    todo: &mut Pending<'a>,
) -> Result<(), AllocError>
    ensures { PutsValue (v.add_nary (expr_meaning first.now) (terms (map term_value rest.now)))
        result todo.old todo.new }
{
    put_all(
        todo,
        &[
            Todo::SumHeads(rest),
            Todo::Expr(first),
            Todo::SumTails(rest),
        ],
    )
}

/// What opens the first of as many objects of an operator, and the others in it.
pub fn put_heads<'a>(key: &'a str, count: usize, todo: &mut Pending<'a>) -> Result<(), AllocError>
    ensures { Replaces (todos.Heads key.entry count) result todo.old todo.new }
{
    if count == 0 {
        return Ok(());
    }
    let items = [
        Todo::Open,
        Todo::Key(key),
        Todo::Open,
        Todo::Key("left"),
        Todo::Heads(key, count - 1),
    ];
    put_all(todo, &items)
}

/// The first of later operands with what closes its object, and the others.
pub fn put_tails<'a>(exprs: &'a [Expr], todo: &mut Pending<'a>) -> Result<(), AllocError>
    ensures { Replaces (todos.Tails exprs.entry) result todo.old todo.new }
{
    match exprs.split_first() {
        None => Ok(()),
        Some((first, rest)) => {
            let items = [
                Todo::Key("right"),
                Todo::Expr(first),
                Todo::Close,
                Todo::Close,
                Todo::Tails(rest),
            ];
            put_all(todo, &items)
        }
    }
}

/// What opens the object that joins the last of a sum's operands to those before, and the objects
/// in it for the others.
pub fn put_sum_heads<'a>(
    terms: &'a [(AddOp, Expr)],
    todo: &mut Pending<'a>,
) -> Result<(), AllocError>
    ensures { Replaces (todos.SumHeads terms.entry) result todo.old todo.new }
{
    match terms.split_last() {
        None => Ok(()),
        Some((last, rest)) => {
            let items = [
                Todo::Open,
                Todo::Key(sum_key(last.0)),
                Todo::Open,
                Todo::Key("left"),
                Todo::SumHeads(rest),
            ];
            put_all(todo, &items)
        }
    }
}

/// The first of a sum's later operands with what closes its object, and the others.
pub fn put_sum_tails<'a>(
    terms: &'a [(AddOp, Expr)],
    todo: &mut Pending<'a>,
) -> Result<(), AllocError>
    ensures { Replaces (todos.SumTails terms.entry) result todo.old todo.new }
{
    match terms.split_first() {
        None => Ok(()),
        Some((first, rest)) => {
            let items = [
                Todo::Key("right"),
                Todo::Expr(&first.1),
                Todo::Close,
                Todo::Close,
                Todo::SumTails(rest),
            ];
            put_all(todo, &items)
        }
    }
}

fn sum_key(op: AddOp) -> &'static str
    ensures { result.now ≡ sum_name op }
{
    match op {
        AddOp::Plus => "+",
        AddOp::Minus => "-",
    }
}
