//! Calls of functions and methods, and sets, in the place of an expression.
ghost use Rattle.std.specs.Prelude.{◌≡◌, ◌≢◌, [], map, IfOk, MatchOption};
ghost use Rattle.std.specs.Option.{is_some};
ghost use Rattle.cedar_expressions.specs.Meaning.{expr_meaning, list_call};
ghost use Rattle.cedar_expressions.specs.Value as v;
ghost use Rattle.cedar_expressions.specs.Value.{values};
ghost use Rattle.cedar_conversion.specs.strict.Extensions.{Extensions};
ghost use Rattle.cedar_conversion.specs.strict.StrictCalls.{standard_method};
ghost use Rattle.cedar_conversion.specs.strict.Table.{table_of};
ghost use Rattle.cedar_writer.specs.WrittenWords.{word_kinds, kind_in};
ghost use Rattle.cedar_writer.specs.Writing.{is_variable_kind};
ghost use Rattle.cedar_writer.specs.machines.Calls.{Is, Names};
ghost use Rattle.cedar_writer.specs.machines.Pending.{items_todo, function_todo, method_todo};
ghost use Rattle.cedar_writer.specs.machines.Todos.{todos_seen};
ghost use Rattle.cedar_writer.specs.machines.Turns.{Opens, Stacks};

use crate::output::identifier_kind;
use crate::refusal::{NotWritable, NotWritten};
use crate::sort::Sort;
use crate::todo::{Pending, Todo, put_all};
use cedar_conversion::styles::ExtStyles;
use cedar_expressions::{Expr, ListCall, Name, TryClone, UnreservedId};
use cedar_lexer::token::TokenKind;
use std::alloc::AllocError;

/// A set, or a call of a name.
pub fn open_list<'a>(
    call: &'a ListCall,
    items: &'a [Expr],
    styles: &ExtStyles,
    todo: &mut Pending<'a>,
) -> Result<(), NotWritten>
    ensures { Opens (table_of styles.now) (list_call call.now
        (values (map expr_meaning items.now))) result (todos_seen todo.old) (todos_seen todo.new) }
{
    match call {
        ListCall::Set => open_set(items, todo),
        ListCall::Extension(name) => open_call(name, items, styles, todo),
    }
}

fn open_set<'a>(items: &'a [Expr], todo: &mut Pending<'a>) -> Result<(), NotWritten>
    ensures { (table : Extensions) → Opens table (v.set (values (map expr_meaning items.now)))
        result (todos_seen todo.old) (todos_seen todo.new) }
{
    let open = Todo::Word(TokenKind::OpenBracket, "[");
    let close = Todo::Word(TokenKind::CloseBracket, "]");
    match items.split_first() {
        None => Ok(put_all(todo, &[open, close])?),
        Some((first, rest)) => {
            let more = Todo::Behind(TokenKind::Comma, ",", Sort::Expression, rest);
            Ok(put_all(
                todo,
                &[open, Todo::Operand(Sort::Expression, first), more, close],
            )?)
        }
    }
}

/// What a name names, when it is called.
#[derive(Clone, Copy)]
pub enum Callee {
    /// A method of the table.
    Method,
    /// A function of the table.
    Function,
    /// Nothing that a text calls by this name.
    Nothing,
}

/// A call of a name: of a method on the first argument, or of a function.
fn open_call<'a>(
    name: &'a Name,
    items: &'a [Expr],
    styles: &ExtStyles,
    todo: &mut Pending<'a>,
) -> Result<(), NotWritten>
    ensures { Opens (table_of styles.now) (v.call_extension_fn name.now
        (values (map expr_meaning items.now))) result (todos_seen todo.old) (todos_seen todo.new) }
{
    match named(name, styles)? {
        Callee::Nothing => Err(NotWritten::NotWritable(NotWritable::Call)),
        Callee::Function => open_function(name, items, todo),
        Callee::Method => match items.split_first() {
            None => Err(NotWritten::NotWritable(NotWritable::Call)),
            Some((first, rest)) => open_method(first, name, rest, todo),
        },
    }
}

fn open_function<'a>(
    name: &'a Name,
    items: &'a [Expr],
    todo: &mut Pending<'a>,
) -> Result<(), NotWritten>
    ensures { Stacks (function_todo name.now (items_todo (values (map expr_meaning items.now))))
        result (todos_seen todo.old) (todos_seen todo.new) }
{
    let open = Todo::Word(TokenKind::OpenParen, "(");
    let close = Todo::Word(TokenKind::CloseParen, ")");
    match items.split_first() {
        None => Ok(put_all(todo, &[Todo::Name(name), open, close])?),
        Some((first, rest)) => {
            let more = Todo::Behind(TokenKind::Comma, ",", Sort::Expression, rest);
            Ok(put_all(
                todo,
                &[
                    Todo::Name(name),
                    open,
                    Todo::Operand(Sort::Expression, first),
                    more,
                    close,
                ],
            )?)
        }
    }
}

fn open_method<'a>(
    a: &'a Expr,
    name: &'a Name,
    items: &'a [Expr],
    todo: &mut Pending<'a>,
) -> Result<(), NotWritten>
    ensures { Stacks (method_todo (expr_meaning a.now) name.now.id
        (items_todo (values (map expr_meaning items.now)))) result
        (todos_seen todo.old) (todos_seen todo.new) }
{
    let close = Todo::Word(TokenKind::CloseParen, ")");
    match items.split_first() {
        None => put_all(todo, &[close])?,
        Some((first, rest)) => {
            let more = Todo::Behind(TokenKind::Comma, ",", Sort::Expression, rest);
            put_all(todo, &[Todo::Operand(Sort::Expression, first), more, close])?
        }
    }
    let items = [
        Todo::Operand(Sort::Member, a),
        Todo::Word(TokenKind::Dot, "."),
        Todo::Identifier(name.basename().as_str()),
        Todo::Word(TokenKind::OpenParen, "("),
    ];
    Ok(put_all(todo, &items)?)
}

/// What is called by a name under a table.
fn named(name: &Name, styles: &ExtStyles) -> Result<Callee, AllocError>
    ensures { IfOk result (Names (table_of styles.now) name.now) }
{
    let Some(id) = unqualified_id(name)? else {
        return Ok(function_or_nothing(styles.is_function(name)));
    };
    if is_standard(id.as_str()) {
        Ok(Callee::Nothing)
    } else if styles.is_method(&id) {
        Ok(Callee::Method)
    } else {
        let is_free = !is_variable(id.as_str());
        Ok(function_or_nothing(styles.is_function(name) && is_free))
    }
}

fn function_or_nothing(is_function: bool) -> Callee
    ensures { Is result is_function }
{
    if is_function {
        Callee::Function
    } else {
        Callee::Nothing
    }
}

/// The identifier of a name without a path.
fn unqualified_id(name: &Name) -> Result<Option<UnreservedId>, AllocError>
    ensures { IfOk result (λ found. MatchOption found (name.now.path ≢ [])
        (λ id. (name.now.path ≡ []) × (id ≡ name.now.id))) }
{
    if !name.as_internal().namespace_components().is_empty() {
        return Ok(None);
    }
    match UnreservedId::unless_reserved(name.basename().try_clone()?) {
        Ok(id) => Ok(Some(id)),
        Err(_) => Ok(None),
    }
}

/// Whether every text may call a method by this identifier.
fn is_standard(id: &str) -> bool
    ensures { result ≡ is_some (standard_method id.now) }
{
    matches!(
        id,
        "contains" | "containsAll" | "containsAny" | "isEmpty" | "getTag" | "hasTag"
    )
}

/// Whether an identifier is a variable's word.
fn is_variable(id: &str) -> bool
    ensures { result ≡ is_variable_kind (kind_in word_kinds id.now) }
{
    matches!(
        identifier_kind(id),
        TokenKind::Principal | TokenKind::Action | TokenKind::Resource | TokenKind::Context
    )
}
