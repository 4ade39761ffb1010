//! Levels of operators: begun, carried on, closed; and the trees above an operand alone.

pub mod alone;
pub mod begin;
pub mod chain;
pub mod close;
pub mod last;
