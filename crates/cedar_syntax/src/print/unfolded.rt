//! Prints a tree by a list of what is still to be printed.
ghost use Rattle.std.specs.Prelude.{◌≡◌, ◌++◌, [], ◌∷◌, IfOk, IsNone, List, Ok};
ghost use Rattle.cedar_syntax.specs.printing.Printing.{Prints};
ghost use Rattle.cedar_syntax.specs.printing.Printed.{Texts, printed};
ghost use Rattle.cedar_syntax.specs.trees.Unplaced.{data_tree};
ghost use Rattle.cedar_syntax.specs.printing.Pieces.{piece_texts, piece_exprs, pieces_texts, exprs_in, leaf_texts, next_texts, next_exprs};

use crate::cst::{Expr, ExprData};
use crate::pieces::{Piece, Unfold};
use crate::print::tokens::{Tokens, write_token};
use crate::stack::Stack;
use std::alloc::Global;
use std::fmt;

/// Prints a piece; an expression isn't gone into.
fn write_leaf<W: fmt::Write>(
    piece: &Piece<'_>,
    fresh: bool,
    f: &mut fmt::Formatter<W>,
) -> Result<bool, fmt::Error>
    ensures { Prints W.write_str_gives f.old fresh (leaf_texts piece.now) result f.new }
{
    match piece {
        Piece::Token(token) => write_token(token, fresh, f),
        Piece::Compare(op) => op.write_tokens(fresh, f),
        Piece::Add(op) => op.write_tokens(fresh, f),
        Piece::Multiply(op) => op.write_tokens(fresh, f),
        Piece::Neg(op) => op.write_tokens(fresh, f),
        Piece::Ident(ident) => ident.write_tokens(fresh, f),
        Piece::Name(name) => name.write_tokens(fresh, f),
        Piece::Literal(literal) => literal.write_tokens(fresh, f),
        Piece::Ref(reference) => reference.write_tokens(fresh, f),
        Piece::Slot(slot) => slot.write_tokens(fresh, f),
        Piece::Expr(_) => Ok(fresh),
    }
}

/// Prints the pieces up to the next expression, which it answers, or all of them.
fn write_leaves<'a, W: fmt::Write>(
    rest: &mut Stack<Piece<'a>>,
    fresh: bool,
    f: &mut fmt::Formatter<W>,
) -> Result<(bool, Option<&'a Expr>), fmt::Error>
    ensures texts { IfOk result (λ done. (first : Texts)
        × Prints W.write_str_gives f.old fresh first (Ok done.0) f.new
        × (pieces_texts rest.old ≡ first ++ (next_texts done.1 ++ pieces_texts rest.new))) }
    ensures exprs { IfOk result (λ done. exprs_in rest.old
        ≡ next_exprs done.1 ++ exprs_in rest.new) }
    ensures ended { IfOk result (λ done. IsNone done.1 → rest.new ≡ []) }
{
    let mut fresh = fresh;
    while let Some(piece) = rest.pop() {
        fresh = write_leaf(&piece, fresh, f)?;
        if let Some(expr) = piece.expr() {
            return Ok((fresh, Some(expr)));
        }
    }
    Ok((fresh, None))
}

/// Prints what an expression holds, with memory for what is still to be printed.
#[inline(never)]
pub fn write_unfolded<W: fmt::Write>(
    alloc: Global,
    tree: &ExprData,
    fresh: bool,
    f: &mut fmt::Formatter<W>,
) -> Result<bool, fmt::Error>
    ensures { Prints W.write_str_gives f.old fresh (printed (data_tree tree.now)) result f.new }
{
    let mut rest = Stack::new(alloc);
    tree.unfold(&mut rest)?;
    let mut fresh = fresh;
    'exprs: loop {
        let (now, next) = write_leaves(&mut rest, fresh, f)?;
        fresh = now;
        match next {
            None => return Ok(fresh),
            Some(expr) => expr.inner().as_ref().unfold(&mut rest)?,
        }
    }
}
