//! The table of mistakes: by a fault's kind and the words beside its token what to write instead.
//!
//! A row is data. To add one, put it before the rows of its kind that are wider, and a case into
//! `cedar_report_cases`.

mod calls;
mod invalid;
mod names;
mod operators;
mod policies;
mod scope;

use crate::fit::Clues;
use crate::sign::Sign;
use calls::in_calls;
use cedar_lexer::token::TokenKind;
use invalid::in_invalid;
use names::in_names;
use operators::in_operators;
use policies::in_policies;
use scope::in_scope;

/// Which token a row looks at.
#[derive(Clone, Copy)]
pub enum Look {
    /// that at the fault's first byte
    Start,
    /// the operator that the fault speaks of
    Operator,
    /// the name that the fault speaks of
    Name,
}

/// Where the cause stands.
#[derive(Clone, Copy)]
pub enum Cause {
    /// where the fault does
    Fault,
    /// from the token at one place to that at another; the looked-at one is at 4
    Words(usize, usize),
    /// straight behind the token at a place
    Behind(usize),
}

/// One mistake.
pub struct Row {
    /// the kinds of fault, by their names
    pub codes: &'static [&'static str],
    /// the token that is looked at
    pub look: Look,
    /// what is asked of four tokens before it, of it, and of three behind
    pub near: &'static [Sign],
    /// a kind of token that could have stood there
    pub expects: Option<TokenKind>,
    /// a kind of token that could not have stood there
    pub lacks: Option<TokenKind>,
    pub cause: Cause,
    /// What to write. `$a`, `$b`, `$t`, `$n`, `$m` stand for the second token before, the one
    /// before, the token, the one behind and the second behind.
    pub help: &'static str,
}

/// The cause is the token that is looked at.
pub const HERE: Cause = Cause::Words(4, 4);

/// A parse that stopped at a token.
pub const TOKEN: &[&str] = &["UnrecognizedToken"];

/// The first row of the table that fits, or `None` where none does.
pub fn first_row(clues: &Clues<'_, '_>) -> Option<&'static Row> {
    if let Some(row) = in_operators(clues) {
        return Some(row);
    }
    if let Some(row) = in_policies(clues) {
        return Some(row);
    }
    if let Some(row) = in_invalid(clues) {
        return Some(row);
    }
    if let Some(row) = in_names(clues) {
        return Some(row);
    }
    if let Some(row) = in_calls(clues) {
        return Some(row);
    }
    in_scope(clues)
}
