//! Writes expressions without recursion: what is still to be written stands on a stack.
ghost use Rattle.std.specs.Prelude.{◌≡◌, map};
ghost use Rattle.cedar_expressions.specs.Meaning.{expr_meaning};
ghost use Rattle.cedar_conversion.specs.strict.Table.{table_of};
ghost use Rattle.cedar_expressions.specs.Value.{values, terms, fields};
ghost use Rattle.cedar_writer.specs.machines.Pending.{opened_todo, enclosed, op_todo, placed_todo, negated_todo, behind_todo, terms_todo, pairs_todo};
ghost use Rattle.cedar_writer.specs.machines.Stepping.{Steps, WritesAll, WritesValue};
ghost use Rattle.cedar_writer.specs.machines.Todos.{sort_seen, todo_seen, todos_seen, term_meaning, field_meaning};
ghost use Rattle.cedar_writer.specs.machines.Turns.{Turns, Stacks};

use crate::opening::open;
use crate::output::Output;
use crate::refusal::NotWritten;
use crate::shape::is_natural;
use crate::sort::{Sort, sort_of};
use crate::todo::{Pending, Todo, put_all};
use cedar_conversion::styles::ExtStyles;
use cedar_expressions::{AddOp, Expr, Text};
use cedar_lexer::token::TokenKind;
use std::alloc::Global;

/// Writes an expression.
pub fn write_expr(
    alloc: Global,
    expr: &Expr,
    styles: &ExtStyles,
    out: &mut Output,
) -> Result<(), NotWritten>
    ensures { WritesValue (table_of styles.now) (expr_meaning expr.now) result out.old out.new }
{
    let mut todo = Pending::new(alloc);
    todo.push(Todo::Operand(Sort::Expression, expr))?;
    write_all(styles, &mut todo, out)
}

/// Writes all that is to be written, the next on top.
fn write_all<'a>(
    styles: &ExtStyles,
    todo: &mut Pending<'a>,
    out: &mut Output,
) -> Result<(), NotWritten>
    ensures { WritesAll (table_of styles.now) (todos_seen todo.old) result out.old out.new }
{
    while let Some(next) = todo.pop() {
        write_next(next, styles, todo, out)?;
    }
    Ok(())
}

/// Writes what is next, or puts in its place what it is written as.
fn write_next<'a>(
    next: Todo<'a>,
    styles: &ExtStyles,
    todo: &mut Pending<'a>,
    out: &mut Output,
) -> Result<(), NotWritten>
    ensures { Steps (table_of styles.now) (todo_seen next.entry) result out.old out.new
        (todos_seen todo.old) (todos_seen todo.new) }
{
    match next {
        Todo::Word(kind, text) => Ok(out.word(kind, text)?),
        Todo::Identifier(id) => Ok(out.identifier(id)?),
        Todo::Name(name) => Ok(out.name(name)?),
        Todo::Text(text) => Ok(out.string(text)?),
        Todo::Pattern(elems) => Ok(out.pattern(elems)?),
        Todo::Number(number) => Ok(out.number(number)?),
        Todo::Key(text) => Ok(out.key(text)?),
        Todo::Attributes(first, rest) => Ok(out.attributes(first, rest)?),
        Todo::Operand(wanted, expr) => put_operand(wanted, expr, styles, todo),
        Todo::Negated(expr) => put_negated(expr, styles, todo),
        Todo::Behind(kind, text, wanted, exprs) => put_behind(kind, text, wanted, exprs, todo),
        Todo::Terms(terms) => put_terms(terms, todo),
        Todo::Pairs(pairs) => put_pairs(pairs, todo),
    }
}

/// An expression where a sort is wanted: in parentheses, where it stands looser.
fn put_operand<'a>(
    wanted: Sort,
    expr: &'a Expr,
    styles: &ExtStyles,
    todo: &mut Pending<'a>,
) -> Result<(), NotWritten>
    ensures { Turns (table_of styles.now)
        (placed_todo (table_of styles.now) (sort_seen wanted) (expr_meaning expr.now))
        (expr_meaning expr.now) result (todos_seen todo.old) (todos_seen todo.new) }
{
    if wanted.takes(sort_of(expr)) {
        open(expr, styles, todo)
    } else {
        put_enclosed(expr, styles, todo)
    }
}

/// The operand of a `-`: a number stands in parentheses, since it would be one literal with the
/// sign.
fn put_negated<'a>(
    expr: &'a Expr,
    styles: &ExtStyles,
    todo: &mut Pending<'a>,
) -> Result<(), NotWritten>
    ensures { Turns (table_of styles.now)
        (negated_todo (table_of styles.now) (expr_meaning expr.now)) (expr_meaning expr.now) result
        (todos_seen todo.old) (todos_seen todo.new) }
{
    if is_natural(expr) {
        put_enclosed(expr, styles, todo)
    } else {
        put_operand(Sort::Member, expr, styles, todo)
    }
}

/// An expression in parentheses.
fn put_enclosed<'a>(
    expr: &'a Expr,
    styles: &ExtStyles,
    todo: &mut Pending<'a>,
) -> Result<(), NotWritten>
    ensures { Turns (table_of styles.now)
        (enclosed (opened_todo (table_of styles.now) (expr_meaning expr.now)))
        (expr_meaning expr.now) result (todos_seen todo.old) (todos_seen todo.new) }
{
    put_all(todo, &[Todo::Word(TokenKind::CloseParen, ")")])?;
    open(expr, styles, todo)?;
    Ok(put_all(todo, &[Todo::Word(TokenKind::OpenParen, "(")])?)
}

/// The first of later operands behind its token, and the others.
fn put_behind<'a>(
    kind: TokenKind,
    text: &'a str,
    wanted: Sort,
    exprs: &'a [Expr],
    todo: &mut Pending<'a>,
) -> Result<(), NotWritten>
    ensures { Stacks (behind_todo kind text.now (sort_seen wanted)
        (values (map expr_meaning exprs.now))) result (todos_seen todo.old) (todos_seen todo.new) }
{
    match exprs.split_first() {
        None => Ok(()),
        Some((first, rest)) => {
            let more = Todo::Behind(kind, text, wanted, rest);
            Ok(put_all(
                todo,
                &[Todo::Word(kind, text), Todo::Operand(wanted, first), more],
            )?)
        }
    }
}

/// The first of a sum's later operands behind its operator, and the others.
fn put_terms<'a>(added: &'a [(AddOp, Expr)], todo: &mut Pending<'a>) -> Result<(), NotWritten>
    ensures { Stacks (terms_todo (terms (map term_meaning added.now))) result
        (todos_seen todo.old) (todos_seen todo.new) }
{
    match added.split_first() {
        None => Ok(()),
        Some((first, rest)) => {
            let operand = Todo::Operand(Sort::Product, &first.1);
            Ok(put_all(todo, &[operator(first.0), operand, Todo::Terms(rest)])?)
        }
    }
}

fn operator<'a>(op: AddOp) -> Todo<'a>
    ensures { todo_seen result ≡ op_todo op }
{
    match op {
        AddOp::Plus => Todo::Word(TokenKind::Plus, "+"),
        AddOp::Minus => Todo::Word(TokenKind::Minus, "-"),
    }
}

/// The first of a record's later pairs behind a comma, and the others.
fn put_pairs<'a>(pairs: &'a [(Text, Expr)], todo: &mut Pending<'a>) -> Result<(), NotWritten>
    ensures { Stacks (pairs_todo (fields (map field_meaning pairs.now))) result
        (todos_seen todo.old) (todos_seen todo.new) }
{
    match pairs.split_first() {
        None => Ok(()),
        Some((first, rest)) => {
            let items = [
                Todo::Word(TokenKind::Comma, ","),
                Todo::Key(first.0.as_str()),
                Todo::Word(TokenKind::Colon, ":"),
                Todo::Operand(Sort::Expression, &first.1),
                Todo::Pairs(rest),
            ];
            Ok(put_all(todo, &items)?)
        }
    }
}
