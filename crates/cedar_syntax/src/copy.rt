//! Copies of trees.

mod clones;
pub mod expressions;
mod leaves;
mod traits;
