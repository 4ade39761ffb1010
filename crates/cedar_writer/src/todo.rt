//! What a writer without recursion has still to write.
ghost use Rattle.std.specs.Prelude.{◌≡◌, ◌++◌, OnOk};
ghost use Rattle.cedar_writer.specs.machines.Todos.{todos_seen};

use crate::sort::Sort;
use cedar_expressions::{AddOp, Expr, Name, PatternElem, Text};
use cedar_lexer::token::TokenKind;
use cedar_syntax::stack::Stack;
use std::alloc::AllocError;

/// Something that is still to be written.
#[derive(Clone, Copy)]
pub enum Todo<'a> {
    /// A token of this kind with its text.
    Word(TokenKind, &'a str),
    /// An identifier.
    Identifier(&'a str),
    /// A name.
    Name(&'a Name),
    /// A string that stands for a text.
    Text(&'a str),
    /// A string that stands for a pattern.
    Pattern(&'a [PatternElem]),
    /// A number.
    Number(u64),
    /// A key: an identifier, else a string.
    Key(&'a str),
    /// Identifiers with dots between.
    Attributes(&'a str, &'a [Text]),
    /// An expression where this sort is wanted.
    Operand(Sort, &'a Expr),
    /// The operand of a `-`.
    Negated(&'a Expr),
    /// Later operands, each behind a token and where this sort is wanted.
    Behind(TokenKind, &'a str, Sort, &'a [Expr]),
    /// Later operands of a sum, each behind its operator.
    Terms(&'a [(AddOp, Expr)]),
    /// Later pairs of a record, each behind a comma.
    Pairs(&'a [(Text, Expr)]),
}

/// What is still to be written, the next on top.
pub type Pending<'a> = Stack<Todo<'a>>;

/// Puts these on top, the first of them uppermost.
pub fn put_all<'a>(todo: &mut Pending<'a>, items: &[Todo<'a>]) -> Result<(), AllocError>
    ensures { OnOk result (todos_seen todo.new ≡ todos_seen items.now ++ todos_seen todo.old) }
{
    for item in items.iter().rev() {
        todo.push(*item)?;
    }
    Ok(())
}
