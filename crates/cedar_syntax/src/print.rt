//! The printed text of each tree.

mod display;
mod expressions;
mod leaves;
mod policies;
mod tokens;
mod unfolded;
