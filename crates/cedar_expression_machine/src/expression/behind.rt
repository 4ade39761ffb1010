//! What stands behind an operand: operators, relations, accesses.

pub mod call;
pub mod have;
pub mod operators;
pub mod relate;
pub mod relations;
