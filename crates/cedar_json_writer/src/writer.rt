//! Writes expressions without recursion: what is still to be written stands on a stack.
ghost use Rattle.std.specs.Prelude.{◌≡◌, ◌∷◌, [], IfOk, string_bytes};
ghost use Rattle.json.specs.Token.{string, key};
ghost use Rattle.json.specs.Tree.{json_tokens};
ghost use Rattle.cedar_expressions.specs.Meaning.{expr_meaning};
ghost use Rattle.cedar_expressions.specs.Path.{name_text};
ghost use Rattle.cedar_json_writer.specs.Forms.{value_json};
ghost use Rattle.cedar_json_writer.specs.FunctionKeys.{keys_called};
ghost use Rattle.cedar_json_writer.specs.machines.Outputs.{Appends, Checks};
ghost use Rattle.cedar_json_writer.specs.machines.Pending.{all_tokens, all_called, Advances, Replaces};
ghost use Rattle.cedar_json_writer.specs.declared.todo.Todo.TheVariants as todos;

use crate::attributes::{put_get_tails, put_has_tails};
use crate::chains::{put_heads, put_sum_heads, put_sum_tails, put_tails};
use crate::function_keys::refuse_operator_key;
use crate::opening::open;
use crate::pattern::write_pattern;
use crate::refusal::ToJsonError;
use crate::todo::{Pending, Todo, put_all};
use cedar_expressions::{Expr, Name, Text};
use json::Writer;
use std::alloc::{AllocError, Global};

/// Writes an expression.
pub fn write_expr(alloc: Global, expr: &Expr, out: &mut Writer) -> Result<(), ToJsonError>
    ensures tokens { Appends result out.old out.new
        (json_tokens (value_json (expr_meaning expr.now))) }
    ensures called { Checks (keys_called (expr_meaning expr.now) []) result }
{
    let mut todo = Pending::new(alloc);
    todo.push(Todo::Expr(expr))?;
    write_all(alloc, &mut todo, out)
}

/// Writes all that is to be written, the next on top.
fn write_all<'a>(alloc: Global, todo: &mut Pending<'a>, out: &mut Writer) -> Result<(), ToJsonError>
    ensures tokens { Appends result out.old out.new (all_tokens todo.old) }
    ensures called { Checks (all_called todo.old) result }
{
    while let Some(next) = todo.pop() {
        refuse_operator_key(alloc, next)?;
        write_next(alloc, next, todo, out)?;
    }
    Ok(())
}

/// Writes what is next, or puts in its place what it is written as.
fn write_next<'a>(
    alloc: Global,
    next: Todo<'a>,
    todo: &mut Pending<'a>,
    out: &mut Writer,
) -> Result<(), AllocError>
    ensures { Advances next.entry result out.old out.new todo.old todo.new }
{
    match next {
        Todo::Open => out.begin_object(),
        Todo::Close => out.end_object(),
        Todo::OpenList => out.begin_array(),
        Todo::CloseList => out.end_array(),
        Todo::Key(text) => out.key(text),
        Todo::Text(text) => out.string(text),
        Todo::Truth(truth) => out.boolean(truth),
        Todo::Number(number) => out.i64(number),
        Todo::Name(name) => write_name(alloc, name, out),
        Todo::Function(name) => write_name_key(alloc, name, out),
        Todo::Pattern(elems) => write_pattern(alloc, elems, out),
        Todo::Expr(expr) => open(expr, todo),
        Todo::Items(items) => put_items(items, todo),
        Todo::Pairs(pairs) => put_pairs(pairs, todo),
        Todo::Heads(key, count) => put_heads(key, count, todo),
        Todo::Tails(exprs) => put_tails(exprs, todo),
        Todo::SumHeads(terms) => put_sum_heads(terms, todo),
        Todo::SumTails(terms) => put_sum_tails(terms, todo),
        Todo::GetTails(attrs) => put_get_tails(attrs, todo),
        Todo::HasTails(a, first, rest, done) => put_has_tails(a, first, rest, done, todo),
    }
}

/// The text of a name.
pub fn name_string(alloc: Global, name: &Name) -> Result<String, AllocError>
    ensures { IfOk result (λ text. string_bytes text ≡ name_text name.now) }
{
    match format!(in alloc; "{name}") {
        Ok(text) => Ok(text),
        Err(_) => Err(AllocError),
    }
}

/// A name as a string.
pub fn write_name(alloc: Global, name: &Name, out: &mut Writer) -> Result<(), AllocError>
    ensures { Appends result out.old out.new (string (name_text name.now) ∷ []) }
{
    let text = name_string(alloc, name)?;
    out.string(text.as_str())
}

/// A name as a member's key.
fn write_name_key(alloc: Global, name: &Name, out: &mut Writer) -> Result<(), AllocError>
    ensures { Appends result out.old out.new (key (name_text name.now) ∷ []) }
{
    let text = name_string(alloc, name)?;
    out.key(text.as_str())
}

/// The first of some expressions, and the others.
fn put_items<'a>(items: &'a [Expr], todo: &mut Pending<'a>) -> Result<(), AllocError>
    ensures { Replaces (todos.Items items.entry) result todo.old todo.new }
{
    match items.split_first() {
        None => put_all(todo, &[Todo::CloseList]),
        Some((first, rest)) => put_all(todo, &[Todo::Expr(first), Todo::Items(rest)]),
    }
}

/// The first of a record's pairs, and the others.
fn put_pairs<'a>(pairs: &'a [(Text, Expr)], todo: &mut Pending<'a>) -> Result<(), AllocError>
    ensures { Replaces (todos.Pairs pairs.entry) result todo.old todo.new }
{
    match pairs.split_first() {
        None => put_all(todo, &[Todo::Close]),
        Some((first, rest)) => {
            let key = Todo::Key(first.0.as_str());
            put_all(todo, &[key, Todo::Expr(&first.1), Todo::Pairs(rest)])
        }
    }
}
