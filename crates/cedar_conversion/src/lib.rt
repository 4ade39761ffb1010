//! The conversion of expressions: placed trees to values, or to the faults that hinder it.
#![tactic(auto)]

pub mod answer;
pub mod convert;
pub mod leaves;
mod levels;
pub mod listing;
mod nesting;
pub mod operators;
pub mod primaries;
pub mod styles;
