//! Attributes: what is asked of a value by name.
#![tactic(auto, unfolding(crate::specs::Forms::value_json, crate::specs::FunctionKeys::keys_called, crate::specs::machines::Pending::weight))]

ghost use Rattle.std.specs.Prelude.{◌≡◌, ◌+◌, ◌<◌, ◌++◌, OnOk};
ghost use Rattle.json.specs.Tree.{json_tokens};
ghost use Rattle.cedar_expressions.specs.Meaning.{expr_meaning};
ghost use Rattle.cedar_expressions.specs.Value as v;
ghost use Rattle.cedar_json_writer.specs.machines.Pending.{PutsValue, Replaces};
ghost use Rattle.cedar_json_writer.specs.declared.todo.Todo.TheVariants as todos;

use crate::todo::{Pending, Todo, put_all};
use cedar_expressions::{Expr, Items, Text};
use std::alloc::AllocError;

/// The value of an attribute.
pub fn open_attribute<'a>(
    a: &'a Expr,
    attr: &'a str,
    todo: &mut Pending<'a>,
) -> Result<(), AllocError>
    ensures { PutsValue (v.get_attr (expr_meaning a.now) attr.now) result todo.old todo.new }
{
    let items = [
        Todo::Open,
        Todo::Key("."),
        Todo::Open,
        Todo::Key("left"),
        Todo::Expr(a),
        Todo::Key("attr"),
        Todo::Text(attr),
        Todo::Close,
        Todo::Close,
    ];
    put_all(todo, &items)
}

/// Whether there is an attribute, and one of its value, and so on: a question for each, joined
/// from the left.
pub fn open_has<'a>(
    a: &'a Expr,
    first: &'a Text,
    rest: &'a Items<Text>,
    todo: &mut Pending<'a>,
) -> Result<(), AllocError>
    ensures { PutsValue (v.extended_has_attr (expr_meaning a.now) first.now rest.now) result
        todo.old todo.new }
{
    let rest = rest.as_slice();
    let items = [
        Todo::Heads("&&", rest.len()),
        Todo::Open,
        Todo::Key("has"),
        Todo::Open,
        Todo::Key("left"),
        Todo::Expr(a),
        Todo::Key("attr"),
        Todo::Text(first.as_str()),
        Todo::Close,
        Todo::Close,
        Todo::HasTails(a, first, rest, 0),
    ];
    put_all(todo, &items)
}

/// The first of some attributes with what closes its object, and the others.
pub fn put_get_tails<'a>(attrs: &'a [Text], todo: &mut Pending<'a>) -> Result<(), AllocError>
    ensures { Replaces (todos.GetTails attrs.entry) result todo.old todo.new }
{
    match attrs.split_first() {
        None => Ok(()),
        Some((attr, attrs)) => {
            let items = [
                Todo::Key("attr"),
                Todo::Text(attr.as_str()),
                Todo::Close,
                Todo::Close,
                Todo::GetTails(attrs),
            ];
            put_all(todo, &items)
        }
    }
}

/// The next question of a `has` with what closes its object, and those behind it.
pub fn put_has_tails<'a>(
    a: &'a Expr,
    first: &'a Text,
    rest: &'a [Text],
    done: usize,
    todo: &mut Pending<'a>,
) -> Result<(), AllocError>
    ensures { Replaces (todos.HasTails a.entry first.entry rest.entry done) result
        todo.old todo.new }
{
    if done >= rest.len() {
        return Ok(());
    }
    let (found, attr) = (&rest[..done], &rest[done]);
    let items = [
        Todo::Key("right"),
        Todo::Open,
        Todo::Key("has"),
        Todo::Open,
        Todo::Key("left"),
        Todo::Heads(".", done + 1),
        Todo::Expr(a),
        Todo::Key("attr"),
        Todo::Text(first.as_str()),
        Todo::Close,
        Todo::Close,
        Todo::GetTails(found),
        Todo::Key("attr"),
        Todo::Text(attr.as_str()),
        Todo::Close,
        Todo::Close,
        Todo::Close,
        Todo::Close,
        Todo::HasTails(a, first, rest, done + 1),
    ];
    put_all(todo, &items)
}
