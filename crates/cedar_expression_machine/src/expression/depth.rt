//! Whether expressions may nest deep, which decides how they are dropped and printed. No contract
//! says anything of it.

use crate::expression::state::{Branch, State};
use cedar_syntax::stack::Stack;

/// In an expression that isn't deep at most so many brackets stand in one another: with more, the
/// calls that drop it would take too much stack.
const SHALLOW_BRACKETS: usize = 8;

/// In an expression that isn't deep at most so many `if`s end together in each bracket.
const SHALLOW_BRANCHES: usize = 4;

impl State {
    /// Whether the expression that ends may be deep: as soon as so many brackets were open, those
    /// that end later may hold as many.
    #[inline(always)]
    pub fn is_deep(&self) -> bool {
        self.stack.has_held(SHALLOW_BRACKETS)
    }
}

/// Whether the `if`s that end together make an expression deep.
pub fn branches_are_deep(branches: &Stack<Branch>) -> bool {
    branches.has_held(SHALLOW_BRANCHES)
}
