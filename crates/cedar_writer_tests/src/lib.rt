//! Tests of the writer: operands of each level, deep values, values that no text means; and the
//! programs of the README and of docs/LIBRARY.md. (What values are written as is told by cases: `written.cases`.)
#![tactic(auto)]

#[cfg(test)]
mod tests;
