//! Records, in the place of an expression.
ghost use Rattle.std.specs.Prelude.{◌≡◌, ◌∷◌, ◌++◌, [], map, codes, IfOk};
ghost use Rattle.cedar_lexer.specs.declared.token.TokenKind.TheVariants as kind;
ghost use Rattle.cedar_expressions.specs.Keys.{repeats_key};
ghost use Rattle.cedar_expressions.specs.Value as v;
ghost use Rattle.cedar_expressions.specs.Value.{fields};
ghost use Rattle.cedar_conversion.specs.strict.Extensions.{Extensions};
ghost use Rattle.cedar_writer.specs.machines.Pending.{pairs, word};
ghost use Rattle.cedar_writer.specs.machines.Todos.{todos_seen, field_meaning};
ghost use Rattle.cedar_writer.specs.machines.Turns.{Opens, Stacks};

use crate::refusal::{NotWritable, NotWritten};
use crate::sort::Sort;
use crate::todo::{Pending, Todo, put_all};
use cedar_expressions::{Expr, Items, Text};
use cedar_lexer::token::TokenKind;
use std::alloc::{AllocError, Global};
use std::collections::BTreeSet;

/// A record: its pairs in braces.
pub fn open_record<'a>(
    entries: &'a Items<(Text, Expr)>,
    todo: &mut Pending<'a>,
) -> Result<(), NotWritten>
    ensures { (table : Extensions) → Opens table
        (v.«record» (fields (map field_meaning entries.now))) result
        (todos_seen todo.old) (todos_seen todo.new) }
{
    let all = entries.as_slice();
    if repeats_key(entries.alloc(), all)? {
        return Err(NotWritten::NotWritable(NotWritable::RepeatedKey));
    }
    put_pairs(all, todo)
}

/// Pairs in braces.
fn put_pairs<'a>(all: &'a [(Text, Expr)], todo: &mut Pending<'a>) -> Result<(), NotWritten>
    ensures { Stacks (word kind.OpenBrace (codes "{") ∷ (pairs
        (fields (map field_meaning all.now)) ++ word kind.CloseBrace (codes "}") ∷ [])) result
        (todos_seen todo.old) (todos_seen todo.new) }
{
    let open = Todo::Word(TokenKind::OpenBrace, "{");
    let close = Todo::Word(TokenKind::CloseBrace, "}");
    match all.split_first() {
        None => Ok(put_all(todo, &[open, close])?),
        Some((first, rest)) => {
            let items = [
                open,
                Todo::Key(first.0.as_str()),
                Todo::Word(TokenKind::Colon, ":"),
                Todo::Operand(Sort::Expression, &first.1),
                Todo::Pairs(rest),
                close,
            ];
            Ok(put_all(todo, &items)?)
        }
    }
}

/// Whether some key stands twice.
fn repeats_key(alloc: Global, pairs: &[(Text, Expr)]) -> Result<bool, AllocError>
    ensures { IfOk result (λ again. again ≡ repeats_key (map (λ p. p.0) pairs.now)) }
{
    let mut seen = BTreeSet::new(alloc);
    for (key, _) in pairs {
        if !seen.insert(key.as_str())? {
            return Ok(true);
        }
    }
    Ok(false)
}
