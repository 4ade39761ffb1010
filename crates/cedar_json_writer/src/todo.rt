//! What a writer without recursion has still to write.
ghost use Rattle.std.specs.Prelude.{◌≡◌, ◌++◌, OnOk};

use crate::stack::Stack;
use cedar_expressions::{AddOp, Expr, Name, PatternElem, Text};
use std::alloc::AllocError;

/// Something that is still to be written.
#[derive(Clone, Copy)]
pub enum Todo<'a> {
    /// The brace that opens an object.
    Open,
    /// The brace that closes an object.
    Close,
    /// The bracket that opens an array.
    OpenList,
    /// The bracket that closes an array.
    CloseList,
    /// A member's key.
    Key(&'a str),
    /// A string.
    Text(&'a str),
    /// A truth value.
    Truth(bool),
    /// A number.
    Number(i64),
    /// A name as a string.
    Name(&'a Name),
    /// A function's name as a member's key.
    Function(&'a Name),
    /// A pattern's parts, and the bracket that closes their array.
    Pattern(&'a [PatternElem]),
    /// An expression.
    Expr(&'a Expr),
    /// Expressions, and the bracket that closes their array.
    Items(&'a [Expr]),
    /// A record's pairs, and the brace that closes their object.
    Pairs(&'a [(Text, Expr)]),
    /// What opens as many objects of an operator within one another, each before its left operand.
    Heads(&'a str, usize),
    /// Later operands, each with what closes the object that joins it to those before.
    Tails(&'a [Expr]),
    /// What opens the objects of a sum within one another, whose operands have each its operator.
    SumHeads(&'a [(AddOp, Expr)]),
    /// A sum's later operands, each with what closes its object.
    SumTails(&'a [(AddOp, Expr)]),
    /// Attributes, each with what closes the object that asks for it.
    GetTails(&'a [Text]),
    /// The later questions of a `has`, each with what closes the object that joins it to those
    /// before: the value, its first attribute, the later ones, and how many of these were written.
    HasTails(&'a Expr, &'a Text, &'a [Text], usize),
}

/// What is still to be written, the next on top.
pub type Pending<'a> = Stack<Todo<'a>>;

/// Puts these on top, the first of them uppermost.
pub fn put_all<'a>(todo: &mut Pending<'a>, items: &[Todo<'a>]) -> Result<(), AllocError>
    ensures { OnOk result (todo.new ≡ items.now ++ todo.old) }
{
    let mut left = items.len();
    while left > 0 {
        left -= 1;
        todo.push(items[left])?;
    }
    Ok(())
}
